//! The typed node that a query of changes asks about: its place, its row, and the type and the names recorded for it; and who tries the
//! changes (`Trial`).
//! It stands on the typed nodes of `query_engine` and on the records of `typed_index`, and keeps nothing.
//! Above, `asked_at` gives the innermost typed node at an offset, and `Trial` is what tries a changed text.
#![tactic(auto)]

mod node;
mod rows;
mod trials;

pub use node::{AskedNode, Typing, asked_at};
pub use trials::Trial;
