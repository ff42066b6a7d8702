//! Trees of a text with shared nodes, their tokens, the nodes at an offset, and the counter that is lent to every layer.
//! It stands on `text_terms`, and on the definitions of `token_model` and `tree_model`.
//! Above, a contract sees a node as a plain tree (`node_view`), a token as a `Tok` (`tok_of`),
//! a text's tree as the list of its items (`trees_of`), and a counter as three numbers (`Tallies`).
#![tactic(auto)]

mod around;
mod at;
mod build;
mod counts;
mod kinds;
mod rows;
mod slots;
mod tree;
mod yields;

pub use around::enclosing;
pub use at::node_at;
pub use build::{leaf, node_of, told_size};
pub use counts::Counts;
pub use kinds::TokenKind;
pub use rows::RowName;
pub use slots::is_operand;
pub use text_terms::{NoMemory, Pos, RcStr, Span};
pub use tree::{Child, Node, NodeId, Part, Token, Tree};
pub use yields::yield_of;
