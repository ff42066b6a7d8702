//! Whether a scheme has all instances of another, over the store of type nodes, and whether an unknown type stands in one.
//! It stands on instances, rigid instances and unification in `level_unify`.
//! Above, `covers` is seen by `Compared`: after a match the readings are exactly those from before at which each instance of the
//! wanted scheme is one of the actual one; after a mismatch there is no such reading, and the store is as before.
#![tactic(auto)]

ghost use Rattle.std.specs.Prelude.{◌≡◌, ◌<◌, false, IfOk, OnErr};
ghost use Rattle.type_nodes.specs.Nodes.{IsNode, IsSound, bound_level};
ghost use Rattle.type_nodes.specs.States.{Keeps};
ghost use Rattle.level_unify.specs.Solutions.{Tightens};
ghost use Rattle.scheme_match.specs.Covering.{KeepsOutRigid, Compared, Tried};

mod unknown;

use level_unify::{UnifyFault, freeze, instantiate, unify};
use std::alloc::{AllocError, Global};
use type_nodes::{NoMemory, NodeRef, Store};
pub use unknown::has_unknown;

/// Makes an instance of the actual scheme and a rigid instance of the wanted one, and makes the two one. Whether they are.
fn attempt(
    alloc: Global,
    store: &mut Store,
    actual: NodeRef,
    wanted: NodeRef,
    level: u32,
) -> Result<bool, NoMemory>
    requires actual { IsNode store.old.nodes actual.0 }
    requires wanted { IsNode store.old.nodes wanted.0 }
    requires level { level < bound_level }
    ensures tried { IfOk result (λ met. Tried store.old.nodes store.new.nodes actual.0 wanted.0 level met) }
    ensures tightens { Tightens store.old.nodes store.new.nodes }
    ensures keeps { Keeps store.old store.new }
{
    let rigid = freeze(alloc, store, wanted)?;
    let instance = instantiate(alloc, store, actual, level)?;
    match unify(alloc, store, instance, rigid) {
        Ok(()) => Ok(true),
        Err(UnifyFault::Clash(_)) => Ok(false),
        Err(UnifyFault::NoMemory) => Err(AllocError),
    }
}

/// Whether each instance of the wanted root's scheme is one of the actual root's. Their bound variables are the schemes' own. After
/// a match the free variables of the actual scheme are bound as far as the match needs it, and new variables have this level. After
/// a mismatch and after `NoMemory` the store is as before.
pub fn covers(
    alloc: Global,
    store: &mut Store,
    actual: NodeRef,
    wanted: NodeRef,
    level: u32,
) -> Result<bool, NoMemory>
    requires actual { IsNode store.old.nodes actual.0 }
    requires wanted { IsNode store.old.nodes wanted.0 }
    requires level { level < bound_level }
    ensures compared { IfOk result (λ met. KeepsOutRigid store.old.nodes actual.0 → KeepsOutRigid store.old.nodes wanted.0 → Compared store.old.nodes store.new.nodes actual.0 wanted.0 met) }
    ensures mismatch { IfOk result (λ met. met ≡ false → store.new ≡ store.old) }
    ensures failed { OnErr result (store.new ≡ store.old) }
    ensures tightens { Tightens store.old.nodes store.new.nodes }
    ensures keeps { Keeps store.old store.new }
{
    if store.root(actual) == store.root(wanted) {
        return Ok(true);
    }
    let mark = store.snapshot();
    match attempt(alloc, store, actual, wanted, level) {
        Ok(true) => Ok(true),
        Ok(false) => {
            store.rollback(mark);
            Ok(false)
        }
        Err(e) => {
            store.rollback(mark);
            Err(e)
        }
    }
}
