//! Expressions and bindings, row by row: their types, and the demands of each in order.
//! It stands on `use_typing` and `pattern_typing`, and below them on `typing_state`, whose `Parts` keep the store, the index and the faults.
//! A row of an expression is a function that types its parts in order, with its demands between and behind them: a part leads back
//! to `type_under`, which records it when its row is typed (`type_expr` from outside). Above, a binding's names are entries whose
//! types are generalised by level (`type_bindings`), and each node and missing operand that is treated is recorded in the index.
#![tactic(auto, using(typing_state::proofs::Going::goes_trans, typing_state::proofs::Going::goes_refl))]

mod apply;
mod bindings;
mod cases;
mod exprs;
mod fields;
mod functions;
mod loops;
mod plain;
mod records;

pub use binding_steps::Behind;
pub use bindings::type_bindings;
pub use exprs::type_expr;
