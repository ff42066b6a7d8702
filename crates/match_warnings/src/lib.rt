//! Match warnings: what the cases of a match leave out, and which of them no value reaches.
//! It keeps nothing; a match has its `Rows` while its cases are typed. It is built on `pattern_matrix`, which finds the shapes that rows
//! miss and the rows that are unused, and on `use_typing` for the labels of records; not on `pattern_typing`.
//! Above, `Rows` takes the rows of a match one by one and reports its warnings, and `report_pattern` reports that of a pattern alone. A
//! warning is no demand: it changes nothing but the faults, and its report is none of those that typing makes (`OnlyWarnings`). Which
//! warnings they are is what `match_model` says of the rows (`ReportsMatch`, `ReportsPattern`).
#![tactic(auto, using(typing_state::proofs::Going::goes_trans, typing_state::proofs::Going::goes_refl))]

mod forms;
mod pats;
mod warnings;

pub use warnings::{Rows, report_pattern};
