//! The parts of a node by their slots: operands with their numbers in the item, tokens, and paths as they are written.
//! It stands on the trees of `syntax_tree` and knows nothing of what a row means.
//! Above, a row is read by its slots: `operand_in` and `operands` give what stands in one as a node or a missing operand, with its
//! number in preorder; `token` and `tokens` give what was taken; `written_path` gives qualifiers and the last name of a path.
//! A contract sees an operand as a `Numbered` (`operand_view`) and a path as a `Written` (`path_view`), both of the node's plain tree.
//! Nothing is copied: all are borrowed from the tree.
#![tactic(auto)]

mod paths;
mod slots;
mod taken;

pub use paths::{WrittenPath, written_path};
pub use slots::{Operand, first_operand, operand_in, operands, operands_of};
pub use syntax_tree::{NoMemory, Span};
pub use taken::{token, tokens, tokens_or_missing};
