//! What is recorded for a node of a text.
use crate::entries::Entry;
use crate::env::Env;
use std::rc::Rc;
use type_nodes::NodeRef;

/// What is recorded for a node or a missing operand.
#[derive(Drop)]
pub struct Seen {
    /// The names in scope in which the node is treated.
    pub env: Env,
    /// The type of a typed node.
    pub ty: Option<NodeRef>,
    /// For each name token that is a part of the node itself, in text order, its entry; None where its lookup finds nothing or a hole.
    pub names: Vec<Option<Rc<Entry>>>,
}
