//! The parser: tokens put one by one on a stack of rows in progress, and the tree and the faults that come of them.
//! It stands on the steps of `frame_steps`, and adds what is known of the item `let` in progress: where it ends if it is unfinished.
//! A caller begins with `empty`, puts each token by `step`, which leaves the old stack as it is, and ends with `close`;
//! `parse` does this for a whole list of tokens. `settled` says how many items are as they will be whatever follows, and `close` may leave
//! these out.
//! Above, a contract sees a stack by the tokens that were put on it (`Behind`), and a tree and faults as those of `recover`.
#![tactic(auto)]

mod cuts;
mod stack;
mod steps;
mod whole;

pub use frame_steps::{Span, SyntaxFault, Text, Token, Tree};
pub use stack::{Closed, Stack, Stepped};
pub use steps::{close, empty, empty_sig, settled, step, step_onto};
pub use syntax_tree::{Counts, NoMemory};
pub use whole::{Parsed, parse};
