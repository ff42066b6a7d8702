//! Patterns, row by row: their types and the names that they bind.
//! It stands on `use_typing` for the names that stand in them; what a match leaves out is found beside it, in `match_warnings`.
//! A row is a function that types its parts in order, with its demands between and behind them; each node and missing part is
//! recorded. Above, `type_pattern` gives a pattern's type and names.
#![tactic(auto, using(typing_state::proofs::Going::goes_trans, typing_state::proofs::Going::goes_refl))]

mod patterns;

pub use patterns::{BoundName, Matched, type_pattern};
/// All names that stand in patterns so far, bound or not.
pub use use_typing::Mentioned;
