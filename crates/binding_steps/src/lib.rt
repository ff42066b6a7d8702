//! What expressions that bind names need and that types no expression: the patterns of bindings, parameters and cases, the types that are written for right sides, what is held
//! and generalised at the end of a group, and whether the type variables of an item are its own. It keeps nothing.
//! It stands on `pattern_typing`, and below it on `typing_state`, whose `Parts` keep the store, the index and the faults.
//! The layer above types the expressions between these calls. `Bound` is a binding that is typed; `close` ends a group of them, one level further out, and `limit_names` comes
//! before it in an item.
#![tactic(auto, using(typing_state::proofs::Going::goes_trans, typing_state::proofs::Going::goes_refl))]

mod cases;
mod closing;
mod groups;
mod parameters;
mod variables;

pub use cases::{Case, sides_of, within_case};
pub use closing::{Behind, close, limit_names, raise};
pub use groups::{
    Binding, Bound, Opened, RightSide, annotation_of, body_in, open_all, open_pattern, pattern_has,
    whole, with_group,
};
pub use parameters::{arrows, type_parameters, with_names};
pub use variables::has_own_variables;
