//! The outline of a text, and the page of its faults.
//! It is built on the trees of `syntax_tree`, the faults of `frame_parser` and of `env_table`, and the names of items that
//! `query_engine` finds, and keeps nothing.
//! Above, `outline` gives the members that `query_model` says of the text's items, `errors` the page of its faults in their order, and
//! `kind_name` the word for a kind of fault.
#![tactic(auto)]

mod faults;
mod order;
mod outlines;
mod tellers;

pub use faults::{FaultPage, Listed, errors};
pub use frame_parser::SyntaxFault;
pub use outlines::{Outlined, outline};
pub use tellers::kind_name;
