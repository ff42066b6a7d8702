//! What all queries ask: the nodes of a text that have a type, with their types as text, and the slots and names of its items.
//! It is built on the trees of `syntax_tree`, the environments of `env_table`, what `typed_index` has recorded, and the texts of
//! `type_print`, and keeps nothing.
//! Above, `enclosing_types` shows the types that are recorded round an offset, and `innermost` the node that has one; `text_queries` and
//! `name_queries` take the names of items and the texts of types.
#![tactic(auto)]

mod asked;
mod inner_nodes;
mod names;
mod slots;
mod trials;
mod typed_nodes;
mod types;

pub use asked::{Asked, QueryFault};
pub use inner_nodes::{innermost, node_with};
pub use names::{is_slot, names_under};
pub use slots::{Binder, OutlineKind, binder_for, inner_slot};
pub use trials::Replacement;
pub use typed_nodes::{TypedNode, holds_offset, number_behind, typed_around};
pub use types::{Typed, enclosing_types, type_text};
