//! Copies of types, with something new for each bound variable.
ghost use Rattle.std.specs.Prelude.{◌≡◌, ◌≢◌, ◌↔◌, ◌⊎◌, ℕ, ◌<◌, ◌≤◌, IsTrue, All, length, slice_get, Some, None, IfOk, OnOk, OnErr, map};
ghost use Rattle.type_nodes.specs.Nodes.{Node, IsNode, IsSound, parts};
ghost use Rattle.type_nodes.specs.Links.{root as root_of, reading};
ghost use Rattle.type_nodes.specs.States.{Keeps};
ghost use Rattle.type_nodes.specs.Changes.{Makes};
ghost use Rattle.type_nodes.specs.Views.{numbers};
ghost use Rattle.level_unify.specs.Walks.{Reached};
ghost use Rattle.level_unify.specs.Copies.{IsBelowBound, fresh_node, shape_node, table_of, image, AreInside, IsAnyCopied, ShapesAs, CopiesOne, CopiedTo, Copied};

use crate::levels::{BOUND, NO_SCOPE};
use crate::walk::reached;
use std::alloc::Global;
use std::collections::HashMap;
use type_nodes::{NoMemory, NodeRef, Origin, Store, View};

/// What stands for the bound variables in a copy: new variables of this level, or new rigid variables.
#[derive(Clone, Copy, Drop)]
pub enum Fresh {
    Flexible(u32),
    Rigid,
}

// What the copy of a root is made as.
#[derive(Drop)]
enum Shape {
    Fresh,
    Arrow(NodeRef, NodeRef),
    Tuple(Vec<NodeRef>),
    Con(Origin, Vec<NodeRef>),
}

// The copy of a node, or its root where that has none.
fn image_of(store: &Store, copies: &HashMap<u64, NodeRef>, node: NodeRef) -> NodeRef
    requires { IsNode store.now.nodes node.0 }
    ensures image { result.0 ≡ image store.now.nodes (table_of copies.now) node.0 }
    ensures sound { IsSound store.now.nodes }
{
    let root = store.root(node);
    match copies.get(&root.0) {
        Some(copy) => *copy,
        None => root,
    }
}

fn images_of(
    alloc: Global,
    store: &Store,
    copies: &HashMap<u64, NodeRef>,
    nodes: &[NodeRef],
) -> Result<Vec<NodeRef>, NoMemory>
    requires { All (IsNode store.now.nodes) (numbers nodes.now) }
    ensures { IfOk result (λ v. numbers v.items ≡ map (image store.now.nodes (table_of copies.now)) (numbers nodes.now)) }
{
    let mut images = Vec::new(alloc);
    for node in nodes {
        images.push(image_of(store, copies, *node))?;
    }
    Ok(images)
}

fn is_any_copied(store: &Store, copies: &HashMap<u64, NodeRef>, nodes: &[NodeRef]) -> bool
    requires { All (IsNode store.now.nodes) (numbers nodes.now) }
    ensures { IsTrue result ↔ IsAnyCopied store.now.nodes (table_of copies.now) (numbers nodes.now) }
{
    for node in nodes {
        let root = store.root(*node);
        if copies.contains_key(&root.0) {
            return true;
        }
    }
    false
}

// What the copy of a root is made as; none where no bound variable stands in it.
fn shape_of(
    alloc: Global,
    store: &Store,
    copies: &HashMap<u64, NodeRef>,
    node: NodeRef,
) -> Result<Option<Shape>, NoMemory>
    requires node { IsNode store.now.nodes node.0 }
    requires sound { IsSound store.now.nodes }
    ensures { IfOk result (λ s. (c : Node) → reading store.now.nodes node.0 ≡ Some c → ShapesAs store.now.nodes (table_of copies.now) c s) }
{
    match store.read(node) {
        View::Var { level, .. } if level == BOUND => Ok(Some(Shape::Fresh)),
        View::Var { .. } | View::Rigid(_) => Ok(None),
        View::Arrow(from, to) => {
            if !is_any_copied(store, copies, &[from, to]) {
                return Ok(None);
            }
            let from = image_of(store, copies, from);
            let to = image_of(store, copies, to);
            Ok(Some(Shape::Arrow(from, to)))
        }
        View::Tuple(parts) => {
            if !is_any_copied(store, copies, parts) {
                return Ok(None);
            }
            let parts = images_of(alloc, store, copies, parts)?;
            Ok(Some(Shape::Tuple(parts)))
        }
        View::Con(origin, args) => {
            if !is_any_copied(store, copies, args) {
                return Ok(None);
            }
            let args = images_of(alloc, store, copies, args)?;
            let origin = origin.copied(alloc)?;
            Ok(Some(Shape::Con(origin, args)))
        }
    }
}

fn make_fresh(store: &mut Store, fresh: Fresh) -> Result<NodeRef, NoMemory>
    requires { IsBelowBound fresh }
    ensures made { IfOk result (λ n. Makes store.old store.new n.0 (fresh_node fresh)) }
    ensures keeps { Keeps store.old store.new }
{
    match fresh {
        Fresh::Flexible(level) => store.var(level, NO_SCOPE),
        Fresh::Rigid => store.rigid(),
    }
}

fn make(store: &mut Store, shape: Shape, fresh: Fresh) -> Result<NodeRef, NoMemory>
    requires parts { All (IsNode store.old.nodes) (parts (shape_node (fresh_node fresh) shape)) }
    requires level { IsBelowBound fresh }
    ensures made { IfOk result (λ n. Makes store.old store.new n.0 (shape_node (fresh_node fresh) shape)) }
    ensures keeps { Keeps store.old store.new }
{
    match shape {
        Shape::Fresh => make_fresh(store, fresh),
        Shape::Arrow(from, to) => store.arrow(from, to),
        Shape::Tuple(parts) => store.tuple(&parts),
        Shape::Con(origin, args) => store.con(&origin, &args),
    }
}

// Copies a root whose parts were looked at before it.
fn copy_one(
    alloc: Global,
    store: &mut Store,
    copies: &mut HashMap<u64, NodeRef>,
    node: NodeRef,
    fresh: Fresh,
) -> Result<(), NoMemory>
    requires node { IsNode store.old.nodes node.0 }
    requires end { root_of store.old.nodes node.0 ≡ node.0 }
    requires inside { AreInside store.old.nodes (table_of copies.old) }
    requires level { IsBelowBound fresh }
    ensures copied { OnOk result (CopiesOne store.old.nodes store.new.nodes (table_of copies.old) (table_of copies.new) (fresh_node fresh) node.0) }
    ensures keeps { Keeps store.old store.new }
{
    let root = store.root(node);
    let Some(shape) = shape_of(alloc, store, copies, root)? else {
        return Ok(());
    };
    let copy = make(store, shape, fresh)?;
    copies.insert(node.0, copy)?;
    Ok(())
}

fn copy_all(
    alloc: Global,
    store: &mut Store,
    found: &[NodeRef],
    fresh: Fresh,
    root: NodeRef,
) -> Result<HashMap<u64, NodeRef>, NoMemory>
    requires found { Reached store.old.nodes root.0 (numbers found.now) }
    requires sound { IsSound store.old.nodes }
    requires level { IsBelowBound fresh }
    ensures copied { IfOk result (λ t. CopiedTo store.old.nodes store.new.nodes (fresh_node fresh) (numbers found.now) (table_of t) (length (numbers found.now))) }
    ensures keeps { Keeps store.old store.new }
{
    let mut copies = HashMap::new(alloc);
    for node in found {
        copy_one(alloc, store, &mut copies, *node, fresh)?;
    }
    Ok(copies)
}

// After an error some nodes are made.
fn attempt(
    alloc: Global,
    store: &mut Store,
    root: NodeRef,
    fresh: Fresh,
) -> Result<NodeRef, NoMemory>
    requires root { IsNode store.old.nodes root.0 }
    requires level { IsBelowBound fresh }
    ensures copied { IfOk result (λ m. Copied store.old.nodes store.new.nodes (fresh_node fresh) root.0 m.0) }
    ensures keeps { Keeps store.old store.new }
{
    let found = reached(alloc, store, root)?;
    let copies = copy_all(alloc, store, &found, fresh, root)?;
    Ok(image_of(store, &copies, root))
}

/// Copies what has a bound variable of what stands in `root`, each root once. After `NoMemory` the store is as before.
pub fn copied(
    alloc: Global,
    store: &mut Store,
    root: NodeRef,
    fresh: Fresh,
) -> Result<NodeRef, NoMemory>
    requires root { IsNode store.old.nodes root.0 }
    requires level { IsBelowBound fresh }
    ensures copied { IfOk result (λ m. Copied store.old.nodes store.new.nodes (fresh_node fresh) root.0 m.0) }
    ensures failed { OnErr result (store.new ≡ store.old) }
    ensures keeps { Keeps store.old store.new }
{
    let mark = store.snapshot();
    let copy = attempt(alloc, store, root, fresh);
    if copy.is_err() {
        store.rollback(mark);
    }
    copy
}
