//! Signatures with other paths and types in the place of origins: made anew at a node, realised by another signature, with a type
//! given by `with`, and applied.
//! It stands on the copies of types in `type_reading` and on the signatures of `env_table`.
//! `structure` is the signature of components, of which the newest of each name stay.
//! Above, `made_at` makes a template anew at a node, `with_type` gives one of its abstract types, `realisation` tells which types of an
//! actual signature stand for the origins of a wanted one, `changed` puts them in, and `applied` is the body of a functor for an argument.
#![tactic(auto, using(typing_state::proofs::Going::goes_trans, typing_state::proofs::Going::goes_refl))]

mod changing;
mod realising;
mod shared;
mod structures;
mod templates;

pub use changing::changed;
pub use realising::{Realised, realisation};
pub use shared::{share_declaration, share_sig, share_template};
pub use structures::{newest_alone, structure};
pub use templates::{applied, copied_origins, made_at, owned_sig, with_type};
