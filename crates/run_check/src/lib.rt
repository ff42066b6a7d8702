//! Whether bytes are what a run of a session puts for an input. It keeps nothing from one call to the next.
//! It is built on `session`, which finds the replies that the bytes are compared with.
//! The layer above may use `check_run`, whose contract says what its two answers mean.
#![tactic(auto)]

mod checking;
mod laws;

pub use checking::check_run;
pub use laws::known_replies_are_settled;
