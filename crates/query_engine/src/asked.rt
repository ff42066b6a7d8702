//! What queries are asked of, and why one has no answer.
use env_table::{Env, Faults, NodeRef, Seen};
use syntax_tree::{RcStr, Tree};
use type_nodes::Store;
use typed_index::TypedIndex;

/// A text's tree, and what was found of its types and names.
#[derive(Clone, Copy)]
pub struct Asked<'a> {
    pub tree: &'a Tree,
    /// What is recorded for each node and each missing operand.
    pub index: &'a TypedIndex<Seen>,
    /// The nodes of the recorded types.
    pub store: &'a Store,
    /// The names in scope behind the last item.
    pub end: &'a Env,
    pub faults: &'a Faults,
    /// The variables that are free in the types of these names.
    pub weak: &'a [NodeRef],
}

/// Why a query has no answer.
#[derive(Drop)]
pub enum QueryFault {
    /// No typed node holds the offset.
    NoNode,
    /// There is no name at the offset, or the prefix isn't of the form of a name.
    NotAName,
    /// The name is bound nowhere, or stands in a module that isn't known.
    Unbound { ident: RcStr },
    NoMemory,
}
