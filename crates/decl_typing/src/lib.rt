//! Declarations of types and exceptions: groups in which the names stand for each other, and re-exports.
//! It is built on the groups as they are written (`decl_groups`), on type expressions (`type_expressions`) and on what the typing of a
//! text works on (`typing_state`).
//! Above, `type_decls` and `type_exception` type an item and give what it adds (`Declared`): the environment after it, its entries in
//! order, and the origins that it makes.
//! Of a group in which no declaration is another type a contract says what each one is and which entries it adds (`specs/Groups`).
//! That the names of types are new in their structure or signature is asked by the caller.
#![tactic(auto, using(typing_state::proofs::Going::goes_trans, typing_state::proofs::Going::goes_refl))]

mod decls;
mod fresh;
mod reexports;

pub use decls::{Declared, new_parameters, type_decls, type_exception};
