//! Calls of the store, of the unifier and of substitution that look first whether their nodes are there. A node that isn't there
//! is answered as want of memory.
ghost use Rattle.std.specs.Prelude.{◌≡◌, true, All};
ghost use Rattle.type_nodes.specs.Nodes.{IsNode, Apart};
ghost use Rattle.type_nodes.specs.Links.{root, IsFree, ReadsAsComposite};
ghost use Rattle.type_nodes.specs.Views.{numbers};

use level_unify::*;
use std::alloc::{AllocError, Global};
use text_terms::RcStr;
use type_nodes::{Mark, NoMemory, NodeRef, Origin, Store, View};
use type_substitution::substituted;

/// The level of a bound variable.
pub const BOUND: u32 = 4_294_967_295;

/// The scope that limits nothing.
pub const NO_SCOPE: u64 = 18_446_744_073_709_551_615;

pub fn is_node(store: &Store, node: NodeRef) -> bool
    ensures { result ≡ true → IsNode store.now.nodes node.0 }
{
    (node.0 as usize) < store.len()
}

pub fn are_nodes(store: &Store, nodes: &[NodeRef]) -> bool
    ensures { result ≡ true → All (IsNode store.now.nodes) (numbers nodes.now) }
{
    for node in nodes {
        if node.0 as usize >= store.len() {
            return false;
        }
    }
    true
}

pub fn put(nodes: &mut Vec<NodeRef>, node: NodeRef) -> Result<(), NoMemory> {
    Ok(nodes.push(node)?)
}

pub fn var(store: &mut Store, level: u32, scope: u64) -> Result<NodeRef, NoMemory> {
    if level < BOUND {
        store.var(level, scope)
    } else {
        Err(AllocError)
    }
}

pub fn arrow(store: &mut Store, from: NodeRef, to: NodeRef) -> Result<NodeRef, NoMemory> {
    if is_node(store, from) && is_node(store, to) {
        store.arrow(from, to)
    } else {
        Err(AllocError)
    }
}

pub fn tuple(store: &mut Store, parts: &[NodeRef]) -> Result<NodeRef, NoMemory> {
    if are_nodes(store, parts) {
        store.tuple(parts)
    } else {
        Err(AllocError)
    }
}

fn origin(alloc: Global, number: u64, name: &str) -> Result<Origin, NoMemory> {
    let name = RcStr::from_str(alloc, name)?;
    let path = [number].to_vec(alloc)?;
    Ok(Origin { path, name })
}

/// A type constructor whose origin has this number and this name.
pub fn con(
    alloc: Global,
    store: &mut Store,
    made: (u64, &str),
    args: &[NodeRef],
) -> Result<NodeRef, NoMemory> {
    let origin = origin(alloc, made.0, made.1)?;
    if are_nodes(store, args) {
        store.con(&origin, args)
    } else {
        Err(AllocError)
    }
}

/// What the node reads as; None where there is no such node.
pub fn view(store: &Store, node: NodeRef) -> Option<View<'_>> {
    if is_node(store, node) {
        Some(store.read(node))
    } else {
        None
    }
}

/// The node at the end of the links; the node itself where there is none.
pub fn root(store: &Store, node: NodeRef) -> NodeRef {
    if is_node(store, node) {
        store.root(node)
    } else {
        node
    }
}

/// The part of an arrow or of a tuple at a place.
pub fn part_at(store: &Store, node: NodeRef, place: usize) -> Result<NodeRef, NoMemory> {
    let part = match view(store, node) {
        Some(View::Arrow(from, to)) => [from, to].get(place).copied(),
        Some(View::Tuple(parts)) => parts.get(place).copied(),
        _ => None,
    };
    part.ok_or(AllocError)
}

/// Unifies two nodes, and gives what keeps them apart; None where they are one type now.
pub fn clash(
    alloc: Global,
    store: &mut Store,
    left: NodeRef,
    right: NodeRef,
) -> Result<Option<ClashKind>, NoMemory> {
    if !is_node(store, left) || !is_node(store, right) {
        return Err(AllocError);
    }
    match unify(alloc, store, left, right) {
        Ok(()) => Ok(None),
        Err(UnifyFault::Clash(clash)) => Ok(Some(clash.kind)),
        Err(UnifyFault::NoMemory) => Err(AllocError),
    }
}

pub fn generalised(
    alloc: Global,
    store: &mut Store,
    node: NodeRef,
    level: u32,
) -> Result<(), NoMemory> {
    if is_node(store, node) {
        generalise(alloc, store, node, level)
    } else {
        Err(AllocError)
    }
}

pub fn instance(
    alloc: Global,
    store: &mut Store,
    node: NodeRef,
    level: u32,
) -> Result<NodeRef, NoMemory> {
    if is_node(store, node) && level < BOUND {
        instantiate(alloc, store, node, level)
    } else {
        Err(AllocError)
    }
}

pub fn frozen(alloc: Global, store: &mut Store, node: NodeRef) -> Result<NodeRef, NoMemory> {
    if is_node(store, node) {
        freeze(alloc, store, node)
    } else {
        Err(AllocError)
    }
}

/// The node with types in the place of variables.
pub fn replaced(
    alloc: Global,
    store: &mut Store,
    node: NodeRef,
    variables: &[NodeRef],
    types: &[NodeRef],
) -> Result<NodeRef, NoMemory> {
    if is_node(store, node) && are_nodes(store, variables) && are_nodes(store, types) {
        substituted(alloc, store, variables, types, node)
    } else {
        Err(AllocError)
    }
}

pub fn rolled_back(store: &mut Store, mark: Mark) -> Result<(), NoMemory> {
    if mark.0 <= store.snapshot().0 {
        store.rollback(mark);
        Ok(())
    } else {
        Err(AllocError)
    }
}

fn is_free(store: &Store, node: NodeRef) -> bool
    ensures { result ≡ true → IsFree store.now.nodes node.0 }
{
    if !is_node(store, node) {
        return false;
    }
    match store.read(node) {
        View::Var { level, .. } => level != BOUND,
        _ => false,
    }
}

/// Whether a node reads as a constructor without arguments.
fn is_constant(store: &Store, node: NodeRef) -> bool
    ensures { result ≡ true → ReadsAsComposite store.now.nodes node.0 }
{
    if !is_node(store, node) {
        return false;
    }
    match store.read(node) {
        View::Con(_, args) => args.len() == 0,
        _ => false,
    }
}

/// Whether a node doesn't occur in another one, which is a constructor without arguments and no link to one.
fn is_apart(store: &Store, node: NodeRef, leaf: NodeRef) -> bool
    ensures { result ≡ true → Apart store.now.nodes (root store.now.nodes node.0) leaf.0 }
{
    if !is_node(store, node) || !is_node(store, leaf) {
        return false;
    }
    if store.root(leaf).0 != leaf.0 {
        return false;
    }
    if store.root(node).0 == leaf.0 {
        return false;
    }
    match store.read(leaf) {
        View::Con(_, []) => true,
        _ => false,
    }
}

/// From now on the variable reads as a constructor without arguments.
pub fn bound(store: &mut Store, var: NodeRef, to: NodeRef) -> Result<(), NoMemory> {
    if is_node(store, to) && is_free(store, var) && is_apart(store, var, to) {
        store.bind(var, to)
    } else {
        Err(AllocError)
    }
}

/// From now on a constructor without arguments reads as another one.
pub fn linked(store: &mut Store, from: NodeRef, to: NodeRef) -> Result<(), NoMemory> {
    if is_constant(store, from) && is_constant(store, to) && is_apart(store, from, to) {
        store.link(from, to)
    } else {
        Err(AllocError)
    }
}

pub fn lowered(store: &mut Store, var: NodeRef, level: u32, scope: u64) -> Result<(), NoMemory> {
    if is_free(store, var) && level < BOUND {
        store.lower(var, level, scope)
    } else {
        Err(AllocError)
    }
}

pub fn quantified(store: &mut Store, var: NodeRef) -> Result<(), NoMemory> {
    if is_free(store, var) {
        store.quantify(var)
    } else {
        Err(AllocError)
    }
}
