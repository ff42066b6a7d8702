//! What is wrong with the types and names of a text, and what its matches miss.
use text_terms::{RcStr, Span};

/// The kinds of faults that the typer tells, and of its warnings.
#[derive(Clone, Copy, Debug, PartialEq, Eq)]
pub enum FaultKind {
    Bound,
    Equal,
    Arity,
    Label,
    Mutable,
    Complete,
    Unique,
    Sides,
    Range,
    Cycle,
    Reexport,
    Functor,
    With,
    Closing,
    Match,
    /// A warning: not every value is matched.
    Missed,
    /// A warning: no value reaches this case.
    Unused,
}

/// A fault or a warning, with its message.
#[derive(Drop)]
pub struct Fault {
    pub span: Span,
    pub kind: FaultKind,
    pub message: RcStr,
}

/// Faults and warnings, in the order of their demands.
#[derive(Drop)]
pub struct Faults {
    pub list: Vec<Fault>,
}
