//! Which values patterns match: the values of a type, shapes, what rows of patterns miss, which rows are unused, and which missed shape is shown.
//! Definitions alone. They stand on types and on declarations.
#![tactic(auto)]
