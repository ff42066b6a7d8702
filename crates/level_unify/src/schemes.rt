//! Generalisation by level, instances and rigid instances.
ghost use Rattle.std.specs.Prelude.{◌≡◌, ◌↔◌, ℕ, ◌<◌, IsTrue, IfOk, OnOk, OnErr};
ghost use Rattle.type_nodes.specs.Nodes.{Node, IsNode, IsSound, bound_level};
ghost use Rattle.type_nodes.specs.Links.{root as root_of};
ghost use Rattle.type_nodes.specs.States.{Keeps};
ghost use Rattle.type_nodes.specs.Views.{numbers};
ghost use Rattle.level_unify.specs.Walks.{Reached};
ghost use Rattle.level_unify.specs.Plans.{Views};
ghost use Rattle.level_unify.specs.Generalising.{IsAbove, BoundOne, Generalised};
ghost use Rattle.level_unify.specs.Instances.{Instantiated, Frozen};

use crate::copies::{Fresh, copied};
use crate::levels::BOUND;
use crate::walk::reached;
use std::alloc::Global;
use type_nodes::{NoMemory, NodeRef, Store, View};

fn is_above(view: &View<'_>, limit: u32) -> bool
    ensures { (c : Node) → Views view.now c → IsTrue result ↔ IsAbove limit c }
{
    match view {
        View::Var { level, .. } => *level != BOUND && limit < *level,
        _ => false,
    }
}

fn bind_above(store: &mut Store, node: NodeRef, level: u32) -> Result<(), NoMemory>
    requires inside { IsNode store.old.nodes node.0 }
    requires end { root_of store.old.nodes node.0 ≡ node.0 }
    ensures bound { OnOk result (BoundOne store.old.nodes store.new.nodes level node.0) }
    ensures keeps { Keeps store.old store.new }
{
    if is_above(&store.read(node), level) {
        store.quantify(node)?;
    }
    Ok(())
}

fn bind_found(
    store: &mut Store,
    found: &[NodeRef],
    level: u32,
    root: NodeRef,
) -> Result<(), NoMemory>
    requires { Reached store.old.nodes root.0 (numbers found.now) }
    ensures bound { OnOk result (Generalised store.old.nodes store.new.nodes root.0 level) }
    ensures keeps { Keeps store.old store.new }
{
    for node in found {
        bind_above(store, *node, level)?;
    }
    Ok(())
}

/// Binds exactly the variables of `root` whose level is greater than `level`. After `NoMemory` the store is as before.
pub fn generalise(
    alloc: Global,
    store: &mut Store,
    root: NodeRef,
    level: u32,
) -> Result<(), NoMemory>
    requires { IsNode store.old.nodes root.0 }
    ensures bound { OnOk result (Generalised store.old.nodes store.new.nodes root.0 level) }
    ensures failed { OnErr result (store.new ≡ store.old) }
    ensures keeps { Keeps store.old store.new }
{
    let found = reached(alloc, store, root)?;
    let mark = store.snapshot();
    let bound = bind_found(store, &found, level, root);
    if bound.is_err() {
        store.rollback(mark);
    }
    bound
}

/// An instance of `root`: each bound variable that stands in it is a new variable of this level, whose scope is the one
/// that limits nothing. What has no bound variable is shared. After `NoMemory` the store is as before.
#[tactic(auto, using(crate::proofs::Instancing::instance_answer))]
pub fn instantiate(
    alloc: Global,
    store: &mut Store,
    root: NodeRef,
    level: u32,
) -> Result<NodeRef, NoMemory>
    requires root { IsNode store.old.nodes root.0 }
    requires level { level < bound_level }
    ensures instance { IfOk result (λ m. Instantiated store.old.nodes store.new.nodes root.0 level m.0) }
    ensures failed { OnErr result (store.new ≡ store.old) }
    ensures keeps { Keeps store.old store.new }
{
    copied(alloc, store, root, Fresh::Flexible(level))
}

/// An instance of `root` with a new rigid variable for each bound variable that stands in it.
/// What has no bound variable is shared. After `NoMemory` the store is as before.
#[tactic(auto, using(crate::proofs::Freezing::frozen_answer, crate::proofs::Freezing::frozen_sound))]
pub fn freeze(alloc: Global, store: &mut Store, root: NodeRef) -> Result<NodeRef, NoMemory>
    requires { IsNode store.old.nodes root.0 }
    ensures instance { IfOk result (λ m. Frozen store.old.nodes store.new.nodes root.0 m.0) }
    ensures sound { IfOk result (λ _. IsSound store.new.nodes) }
    ensures failed { OnErr result (store.new ≡ store.old) }
    ensures keeps { Keeps store.old store.new }
{
    copied(alloc, store, root, Fresh::Rigid)
}
