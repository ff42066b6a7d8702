//! Unknown types: bound variables of the scope 0, which stand for what isn't known.
ghost use Rattle.std.specs.Prelude.{◌≡◌, ◌↔◌, All, IsTrue, IfOk, Some};
ghost use Rattle.type_nodes.specs.Nodes.{Node as plain, IsNode, bound_level};
ghost use Rattle.type_nodes.specs.Links.{reading};
ghost use Rattle.type_nodes.specs.Views.{numbers};
ghost use Rattle.scheme_match.specs.Unknown.{unknown_node, IsAnyUnknown, HasUnknown};

use level_unify::reached;
use std::alloc::Global;
use type_nodes::{NoMemory, NodeRef, Store, View};

/// The level that is kept for bound variables.
const BOUND: u32 = 4_294_967_295;

fn is_unknown(store: &Store, n: NodeRef) -> bool
    requires { IsNode store.now.nodes n.0 }
    ensures { IsTrue result ↔ (reading store.now.nodes n.0 ≡ Some unknown_node) }
{
    match store.read(n) {
        View::Var { level, scope } => level == BOUND && scope == 0,
        _ => false,
    }
}

fn any_unknown(store: &Store, nodes: &[NodeRef]) -> bool
    requires { All (IsNode store.now.nodes) (numbers nodes.now) }
    ensures { IsTrue result ↔ IsAnyUnknown store.now.nodes (numbers nodes.now) }
{
    for n in nodes {
        if is_unknown(store, *n) {
            return true;
        }
    }
    false
}

/// Whether an unknown type stands in a node.
pub fn has_unknown(alloc: Global, store: &Store, node: NodeRef) -> Result<bool, NoMemory>
    requires { IsNode store.now.nodes node.0 }
    ensures { IfOk result (λ has. IsTrue has ↔ HasUnknown store.now.nodes node.0) }
{
    let found = reached(alloc, store, node)?;
    Ok(any_unknown(store, &found))
}
