//! The outermost parts that a value of a type may have: constructors, labels, the parts of a tuple; and the paths that reach them.
//! It stands on the nodes of `type_nodes`, on the environments of `env_table` and on what a path is for `type_print`, and keeps
//! nothing.
//! Above, `alternatives_of` gives those of a node's type, with the shortest path in scope to each constructor and label, and none
//! where no path reaches it. How a tuple and a record are written is told once for those above.
#![tactic(auto)]

mod declared;
mod hidden;
mod levels;
mod reached;
mod templates;
mod values;

pub use hidden::{first_hidden, hidden_in};
pub use templates::{put, put_record, put_tuple, written};
pub use values::{Alternative, Alternatives, Argument, PathTo, alternatives_of};
