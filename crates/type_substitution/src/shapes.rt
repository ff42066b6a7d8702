//! What copies of roots are made as.
ghost use Rattle.std.specs.Prelude.{◌≡◌, All, IfOk, false, map};
ghost use Rattle.type_nodes.specs.Nodes.{Node, IsNode, IsSound};
ghost use Rattle.type_nodes.specs.Links.{root as root_of, reading};
ghost use Rattle.type_nodes.specs.Views.{numbers};
ghost use Rattle.level_unify.specs.Copies.{table_of, image};
ghost use Rattle.type_substitution.specs.Copying.{ShapesAs};

use std::alloc::Global;
use std::collections::HashMap;
use type_nodes::{NoMemory, NodeRef, Origin, Store, View};

/// The level that is kept for bound variables.
const BOUND: u32 = 4_294_967_295;

/// What the copy of a root is made as.
#[derive(Drop)]
pub(crate) enum Shape {
    /// The root itself.
    Itself,
    /// What stands in the place of a bound variable.
    Bound,
    Arrow(NodeRef, NodeRef),
    Tuple(Vec<NodeRef>),
    Con(Origin, Vec<NodeRef>),
}

/// The copy of a node, or its root where that has none.
pub(crate) fn image_of(store: &Store, copies: &HashMap<u64, NodeRef>, node: NodeRef) -> NodeRef
    requires { IsNode store.now.nodes node.0 }
    ensures image { result.0 ≡ image store.now.nodes (table_of copies.now) node.0 }
    ensures sound { IsSound store.now.nodes }
{
    let root = store.root(node);
    match copies.get(&root.0) {
        Some(copy) => *copy,
        None => root,
    }
}

fn images_of(
    alloc: Global,
    store: &Store,
    copies: &HashMap<u64, NodeRef>,
    nodes: &[NodeRef],
) -> Result<Vec<NodeRef>, NoMemory>
    requires { All (IsNode store.now.nodes) (numbers nodes.now) }
    ensures { IfOk result (λ v. numbers v.items ≡ map (image store.now.nodes (table_of copies.now)) (numbers nodes.now)) }
{
    let mut images = Vec::new(alloc);
    for node in nodes {
        images.push(image_of(store, copies, *node))?;
    }
    Ok(images)
}

/// Whether a node has another copy than its root.
fn is_any_changed(store: &Store, copies: &HashMap<u64, NodeRef>, nodes: &[NodeRef]) -> bool
    requires { All (IsNode store.now.nodes) (numbers nodes.now) }
    ensures { result ≡ false → All (λ p. image store.now.nodes (table_of copies.now) p ≡ root_of store.now.nodes p) (numbers nodes.now) }
{
    for node in nodes {
        if image_of(store, copies, *node).0 != store.root(*node).0 {
            return true;
        }
    }
    false
}

/// What the copy of a root is made as: the root itself where no part changes.
pub(crate) fn shape_of(
    alloc: Global,
    store: &Store,
    copies: &HashMap<u64, NodeRef>,
    node: NodeRef,
) -> Result<Shape, NoMemory>
    requires node { IsNode store.now.nodes node.0 }
    requires sound { IsSound store.now.nodes }
    ensures { IfOk result (λ s. (c : Node) → reading store.now.nodes node.0 ≡ Some c → ShapesAs store.now.nodes (table_of copies.now) c s) }
{
    match store.read(node) {
        View::Var { level, .. } if level == BOUND => Ok(Shape::Bound),
        View::Var { .. } | View::Rigid(_) => Ok(Shape::Itself),
        View::Arrow(from, to) => {
            if !is_any_changed(store, copies, &[from, to]) {
                return Ok(Shape::Itself);
            }
            let from = image_of(store, copies, from);
            let to = image_of(store, copies, to);
            Ok(Shape::Arrow(from, to))
        }
        View::Tuple(parts) => {
            if !is_any_changed(store, copies, parts) {
                return Ok(Shape::Itself);
            }
            Ok(Shape::Tuple(images_of(alloc, store, copies, parts)?))
        }
        View::Con(origin, args) => {
            if !is_any_changed(store, copies, args) {
                return Ok(Shape::Itself);
            }
            let args = images_of(alloc, store, copies, args)?;
            let origin = origin.copied(alloc)?;
            Ok(Shape::Con(origin, args))
        }
    }
}
