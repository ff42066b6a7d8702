//! What typing tells of a plain text.

use syntax_tree::{NodeId, Span};

/// The type of a name or a literal of a plain text.
#[derive(Clone, Copy, Debug, PartialEq, Eq)]
pub enum Plain {
    /// int: of an integer
    Int,
    /// string: of a string
    Str,
    /// bool: of true and false
    Bool,
}

/// A typed node: a pattern, or the right side of a binding.
#[derive(Clone, Copy, Debug, PartialEq, Eq)]
pub struct PlainSeen {
    pub id: NodeId,
    /// Where the node stands, in bytes from 0.
    pub span: Span,
    pub ty: Plain,
}
