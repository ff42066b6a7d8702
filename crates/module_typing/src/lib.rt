//! Module expressions and the items of structures, one after the other.
//! It stands on the typing of bindings (`core_typing`), on signatures (`signature_typing`) and on the steps of module expressions (`module_steps`).
//! Above, `type_item` types one item in a `Scene`, which goes on behind it: its names in scope, its components, and which names
//! of types and modules it has. `built_ins` gives the environment of the built-in types.
#![tactic(auto, using(typing_state::proofs::Going::goes_trans, typing_state::proofs::Going::goes_refl))]

mod items;
mod modules;

pub use module_steps::{Scene, built_ins};
pub use modules::type_item;
