//! Copies of types with something else in place of origins, what a declaration's tuple gives its arguments, and the declaration that
//! makes an origin.
//! It is built on what the typing of a text works on (`typing_state`) and on the substitution of types.
//! Above, `Copies` copy types under `Changes`, `filled` gives the parameters of a declaration their arguments, and `owner_of` finds
//! the declaration of an origin. Each call takes any nodes and leaves what was there as it is (`Goes`).
#![tactic(auto, using(typing_state::proofs::Going::goes_trans, typing_state::proofs::Going::goes_refl))]

mod changes;
mod copies;
mod owners;
mod tuples;

pub use changes::{Changes, Put, Real, is_among};
pub use copies::{Copies, Copying, ForBound, ForUnknown, copied_origin, in_front, unchanged};
pub use owners::{owner_among, owner_of};
pub use tuples::filled;
