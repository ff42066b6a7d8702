//! Type expressions, and the declarations that they name over their arguments.
//! It is built on copies of types (`type_reading`) and on `typing_state`, whose `Parts` keep the store, the index and the faults.
//! Above, `read_type` reads a type expression and records it, in an item or with the parameters of a declaration (`Variables`);
//! `as_written` asks that a part has the type that is written behind it; `applied` gives a declaration its arguments.
//! Each call takes any nodes and leaves what was there as it is (`Goes`).
#![tactic(auto, using(typing_state::proofs::Going::goes_trans, typing_state::proofs::Going::goes_refl))]

mod arguments;
mod by_name;
mod types;
mod unknowns;
mod written;

pub use arguments::applied;
pub use types::{Parameter, Variables, read_type};
pub use written::as_written;
