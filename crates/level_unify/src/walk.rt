//! The nodes that a node leads to.
ghost use Rattle.std.specs.Prelude.{◌≡◌, ◌⊎◌, ◌<◌, true, false, List, [], ◌∷◌, ◌++◌, All, length, Some, IfOk, OnOk, IfSome, IfNone, nat_eq};
ghost use Rattle.std.specs.HashSet.{contains};
ghost use Rattle.type_nodes.specs.Nodes.{Node, IsNode, IsSound, Apart, parts};
ghost use Rattle.type_nodes.specs.Links.{root, reading};
ghost use Rattle.type_nodes.specs.Views.{numbers};
ghost use Rattle.level_unify.specs.Walks.{StandsIn, Reached, ReachedBeyond, IsCleared, IsClearedWithout, AreDone, IsNext, Enters, Leaves, visit_of, visits_of, course_of};

use std::alloc::{AllocError, Global};
use std::collections::HashSet;
use type_nodes::{NoMemory, NodeRef, Store, View};

// A root on the way from the start, and how many of its parts are done.
#[derive(Clone, Copy, Drop)]
struct Visit {
    node: NodeRef,
    done: usize,
}

// Which roots were found and in what order, each behind its parts; and the way to the root that is worked on.
#[derive(Drop)]
struct Walk {
    found: Vec<NodeRef>,
    way: Vec<Visit>,
}

// The place and the root of the first part, from a place on, whose root isn't done.
fn next_among(
    store: &Store,
    done: &HashSet<u64>,
    parts: &[NodeRef],
    from: usize,
) -> Option<(usize, NodeRef)>
    requires { All (IsNode store.now.nodes) (numbers parts.now) }
    ensures next { IfSome result (λ p. IsNext store.now.nodes (contains nat_eq done.now) (numbers parts.now) from p.0 p.1.0) }
    ensures none { IfNone result (AreDone store.now.nodes (contains nat_eq done.now) (numbers parts.now) from (length (numbers parts.now))) }
{
    for at in from..parts.len() {
        let root = store.root(parts[at]);
        if !done.contains(&root.0) {
            return Some((at, root));
        }
    }
    None
}

fn next_part(store: &Store, done: &HashSet<u64>, visit: Visit) -> Option<(usize, NodeRef)>
    requires node { IsNode store.now.nodes visit.node.0 }
    requires sound { IsSound store.now.nodes }
    ensures next { IfSome result (λ p. (c : Node) → reading store.now.nodes visit.node.0 ≡ Some c → IsNext store.now.nodes (contains nat_eq done.now) (parts c) visit.done p.0 p.1.0) }
    ensures none { IfNone result ((c : Node) → reading store.now.nodes visit.node.0 ≡ Some c → AreDone store.now.nodes (contains nat_eq done.now) (parts c) visit.done (length (parts c))) }
{
    match store.read(visit.node) {
        View::Var { .. } | View::Rigid(_) => None,
        View::Arrow(from, to) => next_among(store, done, &[from, to], visit.done),
        View::Tuple(parts) => next_among(store, done, parts, visit.done),
        View::Con(_, args) => next_among(store, done, args, visit.done),
    }
}

fn push(way: &mut Vec<Visit>, node: NodeRef, done: usize) -> Result<(), NoMemory>
    ensures { OnOk result (visits_of way.new.items ≡ visits_of way.old.items ++ (node.0, done) ∷ []) }
{
    way.push(Visit { node, done }).map_err(|_| AllocError)
}

// Goes on at a visit that was taken from the way: to its next part, or back.
fn step(
    store: &Store,
    done: &mut HashSet<u64>,
    walk: &mut Walk,
    visit: Visit,
) -> Result<(), NoMemory>
    requires node { IsNode store.now.nodes visit.node.0 }
    requires sound { IsSound store.now.nodes }
    ensures { OnOk result (Enters store.now.nodes (course_of done.old walk.old) (visit_of visit) (course_of done.new walk.new) ⊎ Leaves store.now.nodes (course_of done.old walk.old) (visit_of visit) (course_of done.new walk.new)) }
{
    match next_part(store, done, visit) {
        Some((at, part)) => {
            push(&mut walk.way, visit.node, at)?;
            push(&mut walk.way, part, 0)
        }
        None => {
            done.insert(visit.node.0)?;
            walk.found.push(visit.node).map_err(|_| AllocError)
        }
    }
}

/// The roots of `from` and of all nodes that stand in it but for those that are done, each once and behind its parts; then they
/// are done. It takes time by these nodes and their parts, whatever else is done. After `NoMemory` some of them are done.
pub fn reached_beyond(
    alloc: Global,
    store: &Store,
    done: &mut HashSet<u64>,
    from: NodeRef,
) -> Result<Vec<NodeRef>, NoMemory>
    requires { IsNode store.now.nodes from.0 }
    ensures found { IfOk result (λ v. ReachedBeyond store.now.nodes (contains nat_eq done.old) (contains nat_eq done.new) from.0 (numbers v.items)) }
    ensures sound { IfOk result (λ _. IsSound store.now.nodes) }
{
    let mut walk = Walk {
        found: Vec::new(alloc),
        way: Vec::new(alloc),
    };
    let start = store.root(from);
    if done.contains(&start.0) {
        return Ok(walk.found);
    }
    push(&mut walk.way, start, 0)?;
    while let Some(visit) = walk.way.pop() {
        step(store, done, &mut walk, visit)?;
    }
    Ok(walk.found)
}

/// The roots of `from` and of all nodes that stand in it, each once and behind its parts. It takes time and memory by these
/// nodes and their parts, whatever else the store holds.
pub fn reached(alloc: Global, store: &Store, from: NodeRef) -> Result<Vec<NodeRef>, NoMemory>
    requires { IsNode store.now.nodes from.0 }
    ensures found { IfOk result (λ v. Reached store.now.nodes from.0 (numbers v.items)) }
    ensures sound { IfOk result (λ _. IsSound store.now.nodes) }
{
    let mut done = HashSet::new(alloc);
    reached_beyond(alloc, store, &mut done, from)
}

// Forgets all where the node is among it.
fn forget(alloc: Global, cleared: &mut HashSet<u64>, node: NodeRef)
    ensures cleared { (nodes : List Node) → IsCleared nodes (contains nat_eq cleared.old) → IsCleared nodes (contains nat_eq cleared.new) }
    ensures lacks { contains nat_eq cleared.new node.0 ≡ false }
{
    if cleared.contains(&node.0) {
        *cleared = HashSet::new(alloc);
    }
}

/// Whether the root `var` stands in `to`. Then `to` and all that stands in it is cleared; what was cleared before is not walked
/// again, and is forgotten where `var` was.
pub fn occurs(
    alloc: Global,
    store: &Store,
    cleared: &mut HashSet<u64>,
    var: NodeRef,
    to: NodeRef,
) -> Result<bool, NoMemory>
    requires var { root store.now.nodes var.0 ≡ var.0 }
    requires to { IsNode store.now.nodes to.0 }
    requires cleared { IsCleared store.now.nodes (contains nat_eq cleared.old) }
    ensures yes { IfOk result (λ yes. yes ≡ true → StandsIn store.now.nodes var.0 to.0) }
    ensures no { IfOk result (λ yes. yes ≡ false → Apart store.now.nodes var.0 to.0) }
    ensures cleared { IfOk result (λ yes. yes ≡ false → IsClearedWithout store.now.nodes (contains nat_eq cleared.new) to.0 var.0) }
{
    forget(alloc, cleared, var);
    reached_beyond(alloc, store, cleared, to)?;
    Ok(cleared.contains(&var.0))
}
