//! What stands in a structure or a signature so far (`Scene`: its names in scope, its components, the origins that it makes), the first
//! environment, and each step of a module expression whose parts are typed.
//! It stands on what the typing of a text works on (`typing_state`), and on signatures, their changes and their matching; on no expression.
//! Above, an item goes on behind itself in a `Scene`, `module_path` and `module_type_path` find what a path names, `sealed`, `apply` and
//! `closed_functor` make one module (`Made`) of others, and `built_ins` gives the environment of the built-in types.
#![tactic(auto, using(typing_state::proofs::Going::goes_trans, typing_state::proofs::Going::goes_refl))]

mod closing;
mod first;
mod functors;
mod lists;
mod made;
mod matches;
mod paths;
mod scenes;

pub use first::built_ins;
pub use functors::{
    Taken, closed_functor, env_behind, functor_template, names_of, specified, taken_as,
};
pub use lists::add_origins;
pub use made::{Made, apply, hole, sealed, unknown};
pub use matches::ask_functor;
pub use paths::{module_path, module_type_path};
pub use scenes::Scene;
