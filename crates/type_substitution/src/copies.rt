//! Copies of roots, each behind those of its parts.
ghost use Rattle.std.specs.Prelude.{◌≡◌, All, Some, IfOk, OnOk};
ghost use Rattle.type_nodes.specs.Nodes.{Node, IsNode, IsSound, parts};
ghost use Rattle.type_nodes.specs.Links.{root as root_of, reading};
ghost use Rattle.type_nodes.specs.States.{Keeps};
ghost use Rattle.type_nodes.specs.Views.{numbers};
ghost use Rattle.level_unify.specs.Walks.{Reached};
ghost use Rattle.level_unify.specs.Copies.{Extends, table_of};
ghost use Rattle.type_substitution.specs.Copying.{AreSubstituted, HaveCopies, SetsCopy, Gains, IsPlace, shape_parts, StandsFor, IsMade};

use crate::shapes::{Shape, shape_of};
use std::alloc::Global;
use std::collections::HashMap;
use type_nodes::{NoMemory, NodeRef, Store};

/// Where the first node given stands that has this root.
fn place_of(store: &Store, variables: &[NodeRef], root: NodeRef) -> Option<usize>
    requires { All (IsNode store.now.nodes) (numbers variables.now) }
    ensures { IsPlace store.now.nodes (numbers variables.now) root.0 result }
{
    for place in 0..variables.len() {
        if store.root(variables[place]).0 == root.0 {
            return Some(place);
        }
    }
    None
}

/// What stands in the place of a variable that is a root: a type, the empty tuple, or itself where it isn't given.
fn stand_in(
    store: &mut Store,
    variables: &[NodeRef],
    types: &[NodeRef],
    root: NodeRef,
) -> Result<NodeRef, NoMemory>
    requires root { IsNode store.old.nodes root.0 }
    requires variables { All (IsNode store.old.nodes) (numbers variables.now) }
    requires types { All (IsNode store.old.nodes) (numbers types.now) }
    ensures stands { IfOk result (λ m. StandsFor store.old.nodes store.new.nodes (numbers variables.now) (numbers types.now) root.0 m.0) }
    ensures extends { Extends store.old.nodes store.new.nodes }
    ensures keeps { Keeps store.old store.new }
{
    let Some(place) = place_of(store, variables, root) else {
        return Ok(root);
    };
    match types.get(place) {
        Some(ty) => Ok(*ty),
        None => store.tuple(&[]),
    }
}

fn make(
    store: &mut Store,
    shape: Shape,
    variables: &[NodeRef],
    types: &[NodeRef],
    root: NodeRef,
) -> Result<NodeRef, NoMemory>
    requires root { IsNode store.old.nodes root.0 }
    requires variables { All (IsNode store.old.nodes) (numbers variables.now) }
    requires types { All (IsNode store.old.nodes) (numbers types.now) }
    requires parts { All (IsNode store.old.nodes) (shape_parts shape) }
    ensures made { IfOk result (λ m. IsMade store.old store.new (numbers variables.now) (numbers types.now) root.0 shape m.0) }
    ensures extends { Extends store.old.nodes store.new.nodes }
    ensures keeps { Keeps store.old store.new }
{
    match shape {
        Shape::Itself => Ok(root),
        Shape::Bound => stand_in(store, variables, types, root),
        Shape::Arrow(from, to) => store.arrow(from, to),
        Shape::Tuple(parts) => store.tuple(&parts),
        Shape::Con(origin, args) => store.con(&origin, &args),
    }
}

fn set(copies: &mut HashMap<u64, NodeRef>, n: NodeRef, copy: NodeRef) -> Result<(), NoMemory>
    ensures { OnOk result (SetsCopy (table_of copies.old) (table_of copies.new) n.0 copy.0) }
{
    copies.insert(n.0, copy)?;
    Ok(())
}

/// Copies the root of a node. Its parts have copies.
fn copy_one(
    alloc: Global,
    store: &mut Store,
    copies: &mut HashMap<u64, NodeRef>,
    variables: &[NodeRef],
    types: &[NodeRef],
    node: NodeRef,
) -> Result<(), NoMemory>
    requires node { IsNode store.old.nodes node.0 }
    requires variables { All (IsNode store.old.nodes) (numbers variables.now) }
    requires types { All (IsNode store.old.nodes) (numbers types.now) }
    requires copies { AreSubstituted store.old.nodes (numbers variables.now) (numbers types.now) (table_of copies.old) }
    requires parts { (c : Node) → reading store.old.nodes node.0 ≡ Some c → HaveCopies store.old.nodes (table_of copies.old) (parts c) }
    ensures copies { OnOk result (AreSubstituted store.new.nodes (numbers variables.now) (numbers types.now) (table_of copies.new)) }
    ensures gains { OnOk result (Gains (table_of copies.old) (table_of copies.new) (root_of store.old.nodes node.0)) }
    ensures extends { Extends store.old.nodes store.new.nodes }
    ensures keeps { Keeps store.old store.new }
{
    let root = store.root(node);
    let shape = shape_of(alloc, store, copies, root)?;
    let copy = make(store, shape, variables, types, root)?;
    set(copies, root, copy)
}

/// Copies roots, each behind its parts.
pub(crate) fn copy_all(
    alloc: Global,
    store: &mut Store,
    found: &[NodeRef],
    variables: &[NodeRef],
    types: &[NodeRef],
    from: NodeRef,
) -> Result<HashMap<u64, NodeRef>, NoMemory>
    requires sound { IsSound store.old.nodes }
    requires found { Reached store.old.nodes from.0 (numbers found.now) }
    requires variables { All (IsNode store.old.nodes) (numbers variables.now) }
    requires types { All (IsNode store.old.nodes) (numbers types.now) }
    ensures copies { IfOk result (λ t. AreSubstituted store.new.nodes (numbers variables.now) (numbers types.now) (table_of t)) }
    ensures all { IfOk result (λ t. HaveCopies store.old.nodes (table_of t) (numbers found.now)) }
    ensures extends { Extends store.old.nodes store.new.nodes }
    ensures keeps { Keeps store.old store.new }
{
    let mut copies = HashMap::new(alloc);
    for node in found {
        copy_one(alloc, store, &mut copies, variables, types, *node)?;
    }
    Ok(copies)
}
