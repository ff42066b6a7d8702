//! The record type that labels tell, and the types of its fields, against the definitions'.
//! It stands on `typing_steps`, and no program calls it.
#![tactic(auto)]
