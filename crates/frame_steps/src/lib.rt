//! The parser's steps on one token: it is taken, frames are closed for it with their missing parts, or it is left out.
//! It stands on the table of `syntax_rows` and on the frames of `parse_frames`, and keeps nothing but its stacks.
//! A caller begins with `begun`, puts each token by `put`, which leaves the old stack as it is, and ends with `close_up`;
//! `close_item` closes the item `let` that is in progress.
//! Above, a contract sees a stack by the frames of the machine for which it stands (`Stands`), and a step as one of its (`StepsTo`).
#![tactic(auto)]

mod build;
mod deep;
mod find;
mod items;
mod rules;
mod stack;
mod steps;

pub use items::{Ended, close_item};
pub use stack::{Stack, Stepped, SyntaxFault, Whole};
pub use steps::{begun, close_up, count_items, put};
pub use syntax_rows::{Key, Text, number_of_key};
pub use syntax_tree::{NoMemory, Span, Token, Tree};
