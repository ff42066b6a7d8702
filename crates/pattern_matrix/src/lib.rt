//! Rows of patterns: which values they miss, which rows no value reaches, and the shape that is shown for a missed value.
//! It stands on the definitions of `match_model` and the words of `text_terms`.
//! Above, a contract sees a pattern as the plain pattern that it means (`pattern_of`) and a shape as the plain shape (`shape_of`).
#![tactic(auto)]

mod columns;
mod known;
mod lines;
mod marks;
mod patterns;
mod printing;
mod rows;
mod same;
mod search;

pub use patterns::{Built, Matrix, Pat, PatRow, Shape};
pub use printing::print_shape;
pub use rows::{missed, unused_rows, useful};
pub use text_terms::NoMemory;
