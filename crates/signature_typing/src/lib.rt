//! Module types and the items of signatures, one after the other, and what items of structures have of the same rows.
//! It stands on declarations (`decl_typing`), on scenes and functors (`module_steps`), and on the changes of signatures; on no expression.
//! Above, `read_module_type` reads a module type, `type_parameters` and `type_named` the parameters of a functor, and `type_specification`
//! types an item without module expressions in its `Scene`, which goes on behind it. Laws: `ValueItems` (one value), `TypeItems` (one type of its own), `Specifications` and `SpecificationSteps` (values, exceptions, such types and modules in order),
//! `ValueSteps` (the components of values), `Newest` and `Unmade` (their signature), `ModuleItems`, `ModuleTerms`, `Asking` and `ModuleReads` (a module of such a signature).
#![tactic(auto, using(typing_state::proofs::Going::goes_trans, typing_state::proofs::Going::goes_refl))]

mod clauses;
mod items;
mod signatures;
mod variables;

pub use items::{exception_item, include_item};
pub use signatures::{Kept, read_module_type, type_named, type_parameters, type_specification};
