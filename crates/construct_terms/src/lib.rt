//! Terms of the type that is wanted, in place of `_` or of a missing expression: `None`, `(Some _)`, `(fun _ -> _)`, `0`.
//! It stands on the queries of `query_engine`, on the typed node of `asked_node` and on the alternatives of `type_alternatives`, and
//! keeps nothing.
//! Above, `terms` makes the candidates, whose texts are those of the definition, and `construct` leaves out those that would add a
//! fault.
#![tactic(auto)]

mod candidates;
mod holes;
mod writing;

pub use candidates::{construct, terms};

/// Why there are no terms.
#[derive(Drop)]
pub enum ConstructFault {
    /// No typed node holds the offset.
    NoNode,
    /// The node is neither `_` nor missing.
    NotAHole,
    NoMemory,
}
