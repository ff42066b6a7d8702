//! Cases in place of an expression or a pattern: `(match e with | A -> _ | B _ -> _)`, `(A | B _)`, `((A | B _) as x)`.
//! It stands on the queries of `query_engine`, on the typed node of `asked_node` and on the alternatives of `type_alternatives`, and
//! keeps nothing.
//! Above, `split` makes the candidate, whose text is that of the definition, and `destruct` tries it.
#![tactic(auto)]

mod cases;
mod subjects;
mod writing;

pub use cases::{destruct, split};
use syntax_tree::RcStr;

/// Why there are no cases.
#[derive(Drop)]
pub enum SplitFault {
    /// No typed node holds the offset.
    NoNode,
    /// The node is missing, another pattern, or of a type without cases.
    NothingToSplit,
    /// No path in scope reaches this constructor or label.
    HiddenConstructor { name: RcStr },
    /// The changed text would have a new fault at this place of the present one, in bytes from 0.
    WouldFault { at: u32 },
    NoMemory,
}
