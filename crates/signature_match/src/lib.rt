//! Whether a signature matches another: its origins are realised by the types of the newest components of their names, and then
//! component by component is compared. It stands on the changes of signatures in `sig_template` and on unification.
//! Above, `match_sig` tells the first component that fails, with its path and cause, and then the types are as before; where all
//! are met, the weak variables that the match needs are bound. A contract sees a mismatch as its path and cause (`blame_of`), and what
//! is told as `TellsMatch`: with which signature a template's origins are realised, which components are compared, by the newest of their
//! names, what follows, and at which readings of the types it is so.
#![tactic(auto, using(typing_state::proofs::Going::goes_trans, typing_state::proofs::Going::goes_refl))]

mod causes;
mod compare;
mod matching;

pub use causes::{Cause, Mismatch};
pub use matching::match_sig;
