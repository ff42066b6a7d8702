//! The unknown types of an instance in a declaration.
#![tactic(auto, using(typing_state::proofs::Going::goes_trans, typing_state::proofs::Going::goes_refl, typing_state::proofs::Silence::store_silent))]

ghost use Rattle.std.specs.Prelude.{◌≡◌, ◌≢◌, ◌↔◌, ℕ, List, ◌∷◌, [], ◌++◌, All, IsTrue, Some, IfOk, OnOk, map};
ghost use Rattle.type_nodes.specs.Nodes.{Node as plain, Var, IsNode, IsSound};
ghost use Rattle.type_nodes.specs.Links.{root as root_of, reading};
ghost use Rattle.type_nodes.specs.Views.{numbers};
ghost use Rattle.level_unify.specs.Walks.{Reached};
ghost use Rattle.level_unify.specs.Plans.{IsFreeVar, Views};
ghost use Rattle.typing_state.specs.Goes.{Goes, OnlyStore, Silent};
ghost use Rattle.declared_rows.specs.Unknowns.{Opens, OpensOne};

use level_unify::reached;
use std::alloc::AllocError;
use type_nodes::{NoMemory, NodeRef, Store, View};
use typing_state::Parts;

/// The level that is kept for bound variables.
const BOUND: u32 = 4_294_967_295;

/// Whether a node shows a variable that isn't bound.
fn is_free(view: &View<'_>) -> bool
    ensures { (c : plain) → Views view.now c → IsTrue result ↔ IsFreeVar c }
{
    match view {
        View::Var { level, .. } => *level != BOUND,
        _ => false,
    }
}

/// The level of a variable.
fn level_of(view: &View<'_>) -> u32
    ensures { (l o : ℕ) → Views view.now (Var l o) → result ≡ l }
{
    match view {
        View::Var { level, .. } => *level,
        _ => 0,
    }
}

/// Whether a node is the root of none of some nodes.
fn is_root_of_none(at: &Parts, nodes: &[NodeRef], root: NodeRef) -> bool
    ensures { IsTrue result ↔ All (λ n. root_of at.now.store.nodes n ≢ root.0) (numbers nodes.now) }
{
    for node in nodes {
        if at.root(*node) == root {
            return false;
        }
    }
    true
}

/// Makes a variable an unknown type, unless it is one of the parameters.
fn open_one(at: &mut Parts, node: NodeRef, parameters: &[NodeRef]) -> Result<(), NoMemory>
    requires inside { IsNode at.old.store.nodes node.0 }
    requires end { root_of at.old.store.nodes node.0 ≡ node.0 }
    ensures opened { OnOk result (OpensOne at.old.store.nodes at.new.store.nodes (map (root_of at.old.store.nodes) (numbers parameters.now)) node.0) }
    ensures rest { OnlyStore at.old at.new }
    ensures silent { Silent at.old at.new }
    ensures goes { Goes at.old at.new }
{
    let view = at.store.read(node);
    let free = is_free(&view);
    let level = level_of(&view);
    if free && is_root_of_none(at, parameters, node) {
        at.store.lower(node, level, 0)?;
    }
    Ok(())
}

/// Makes each variable that was found an unknown type, but for the parameters.
fn open_found(
    at: &mut Parts,
    found: &[NodeRef],
    ty: NodeRef,
    parameters: &[NodeRef],
) -> Result<(), NoMemory>
    requires { Reached at.old.store.nodes ty.0 (numbers found.now) }
    ensures opened { OnOk result (Opens at.old.store.nodes at.new.store.nodes ty.0 (numbers parameters.now)) }
    ensures rest { OnlyStore at.old at.new }
    ensures silent { Silent at.old at.new }
    ensures goes { Goes at.old at.new }
{
    for node in found {
        open_one(at, *node, parameters)?;
    }
    Ok(())
}

/// Makes each variable of a type an unknown type, but for the parameters.
pub fn open_unknowns(at: &mut Parts, ty: NodeRef, parameters: &[NodeRef]) -> Result<(), NoMemory>
    ensures opened { OnOk result (IsNode at.old.store.nodes ty.0 → Opens at.old.store.nodes at.new.store.nodes ty.0 (numbers parameters.now)) }
    ensures sound { OnOk result (IsSound at.new.store.nodes) }
    ensures rest { OnlyStore at.old at.new }
    ensures silent { Silent at.old at.new }
    ensures goes { Goes at.old at.new }
{
    // the store is sound, as its length makes known
    if at.read(ty).is_none() {
        let _nodes = at.store.len();
        return Ok(());
    }
    let found = reached(at.alloc(), &at.store, ty)?;
    open_found(at, &found, ty, parameters)?;
    let _nodes = at.store.len();
    Ok(())
}

/// The parameters in a tuple of them and a body.
pub fn parameters_of(at: &Parts, tuple: NodeRef) -> Result<Vec<NodeRef>, NoMemory>
    ensures { IfOk result (λ v. (ps : List ℕ) (body : ℕ) → IsNode at.now.store.nodes tuple.0 → reading at.now.store.nodes tuple.0 ≡ Some (plain.Tuple (ps ++ body ∷ [])) → numbers v.items ≡ ps) }
{
    let Some(parts) = at.parts_of_tuple(tuple) else {
        return Ok(Vec::new(at.alloc()));
    };
    let Some((_, parameters)) = parts.split_last() else {
        return Ok(Vec::new(at.alloc()));
    };
    match parameters.iter().copied().collect(at.alloc()) {
        Ok(list) => Ok(list),
        Err(_) => Err(AllocError),
    }
}
