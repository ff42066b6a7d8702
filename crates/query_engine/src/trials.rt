//! Changes of a text.
use syntax_tree::{RcStr, Span};

/// A text that goes in place of a span.
#[derive(Drop)]
pub struct Replacement {
    /// In bytes from 0.
    pub span: Span,
    pub text: RcStr,
}
