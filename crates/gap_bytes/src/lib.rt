//! A list of bytes with a gap where it was changed last, in one block of raw memory. A change moves the bytes between
//! that place and its own alone. Nothing fills the gap, and no place of it is read before a byte is put there.
//! It is built on nothing of the repository, and on `core`'s row of places that may be empty.
//! Above, a contract sees a `GapBytes` as its bytes and the number that it has room for without taking memory (`Gapped`).
#![tactic(auto)]

mod block;
mod gap;
mod room;

pub use gap::{GapBytes, NoMemory};
