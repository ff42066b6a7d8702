//! What a node reads as.
use type_terms::{NodeRef, Origin};

/// A node as a reader sees it, behind all links.
#[derive(Clone, Copy)]
pub enum View<'a> {
    /// 'a. A variable of the level 4,294,967,295 is bound.
    Var { level: u32, scope: u64 },
    /// A rigid variable, by its number.
    Rigid(u64),
    /// t -> u
    Arrow(NodeRef, NodeRef),
    /// t * u
    Tuple(&'a [NodeRef]),
    /// (t, u) c
    Con(&'a Origin, &'a [NodeRef]),
}
