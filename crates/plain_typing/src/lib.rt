//! The trees of plain texts, in which each item binds a name to a literal or to an earlier name, and their types.
//! It stands on the trees of `syntax_tree` and on the definitions of `plain_model`.
//! Above, `plain_tree` makes the tree of tokens, as `plain_trees` tells it,
//! and `type_plain` gives each pattern and right side its type, as `typed_trees` tells them.
#![tactic(auto)]

mod bound;
mod build;
mod kinds;
mod scope;
mod terms;
mod typing;

pub use build::plain_tree;
pub use terms::{Plain, PlainSeen};
pub use typing::type_plain;
