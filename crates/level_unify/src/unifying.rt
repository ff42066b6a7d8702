//! Unification.
ghost use Rattle.std.specs.Prelude.{◌≡◌, ◌↔◌, length, IsTrue, IfOk, IfErr, OnOk, OnErr};
ghost use Rattle.level_unify.specs.declared.fault.UnifyFault.{UnifyFault};
ghost use Rattle.level_unify.specs.declared.fault.Clash.{Clash};
ghost use Rattle.level_unify.specs.declared.fault.ClashKind.{ClashKind};
ghost use Rattle.type_nodes.specs.Nodes.{IsNode, IsSound};
ghost use Rattle.type_nodes.specs.States.{Keeps};
ghost use Rattle.level_unify.specs.Solutions.{HaveNoBound, NeverOne, Tightens};
ghost use Rattle.level_unify.specs.Unification.{IsInside, IsCyclic, NeverAlike, HasKind, HasCause, Clashes, ChangesWithin, Unified};

use crate::fault::{Clash, ClashKind, UnifyFault};
use crate::limits::lower_all;
use crate::plan::is_free;
use crate::solve::{Stop, solve};
use crate::walk::occurs;
use std::alloc::{AllocError, Global};
use std::collections::HashSet;
use type_nodes::{NoMemory, NodeRef, Store};

// Whether `inner` reads as a free variable that stands inside `outer` and isn't `outer`.
fn stands_inside(
    alloc: Global,
    store: &Store,
    inner: NodeRef,
    outer: NodeRef,
) -> Result<bool, NoMemory>
    requires inner { IsNode store.now.nodes inner.0 }
    requires outer { IsNode store.now.nodes outer.0 }
    ensures inside { IfOk result (λ yes. IsTrue yes ↔ IsInside store.now.nodes inner.0 outer.0) }
    ensures sound { IsSound store.now.nodes }
{
    let var = store.root(inner);
    if var.0 == store.root(outer).0 || !is_free(&store.read(var)) {
        return Ok(false);
    }
    let mut cleared = HashSet::new(alloc);
    occurs(alloc, store, &mut cleared, var, outer)
}

fn is_cyclic(alloc: Global, store: &Store, a: NodeRef, b: NodeRef) -> Result<bool, NoMemory>
    requires a { IsNode store.now.nodes a.0 }
    requires b { IsNode store.now.nodes b.0 }
    ensures cyclic { IfOk result (λ yes. IsTrue yes ↔ IsCyclic store.now.nodes a.0 b.0) }
    ensures sound { IsSound store.now.nodes }
{
    Ok(stands_inside(alloc, store, a, b)? || stands_inside(alloc, store, b, a)?)
}

// Why two nodes were not made one.
#[derive(Clone, Copy, Drop)]
enum Failure {
    NotOne,
    OutOfScope,
    NoMemory,
}

// The kind of the clash, told by the nodes from before.
fn kind_of(
    alloc: Global,
    store: &Store,
    a: NodeRef,
    b: NodeRef,
    failure: Failure,
) -> Result<ClashKind, NoMemory>
    requires a { IsNode store.now.nodes a.0 }
    requires b { IsNode store.now.nodes b.0 }
    ensures { IfOk result (λ kind. HasCause store.now.nodes a.0 b.0 failure kind) }
{
    match failure {
        Failure::NotOne => {
            if is_cyclic(alloc, store, a, b)? {
                Ok(ClashKind::Cycle)
            } else {
                Ok(ClashKind::Shape)
            }
        }
        Failure::OutOfScope => Ok(ClashKind::Scope),
        Failure::NoMemory => Err(AllocError),
    }
}

// The parts of unification in order; after an error some of the changes are made.
fn attempt(alloc: Global, store: &mut Store, a: NodeRef, b: NodeRef) -> Result<(), Failure>
    requires a { IsNode store.old.nodes a.0 }
    requires b { IsNode store.old.nodes b.0 }
    ensures unified { OnOk result (HaveNoBound store.old.nodes a.0 b.0 → Unified store.old.nodes store.new.nodes a.0 b.0) }
    ensures within { OnOk result (ChangesWithin store.old.nodes store.new.nodes a.0 b.0) }
    ensures not_one { IfErr result (λ e. e ≡ Failure.NotOne → HaveNoBound store.old.nodes a.0 b.0 → NeverOne store.old.nodes a.0 b.0) }
    ensures out_of_scope { IfErr result (λ e. e ≡ Failure.OutOfScope → HaveNoBound store.old.nodes a.0 b.0 → NeverAlike store.old.nodes a.0 b.0 × HasKind store.old.nodes a.0 b.0 ClashKind.Scope) }
    ensures len { OnOk result (length store.new.nodes ≡ length store.old.nodes) }
    ensures tightens { OnOk result (Tightens store.old.nodes store.new.nodes) }
    ensures keeps { Keeps store.old store.new }
{
    prove!((a.0 as usize) < store.len());
    let mut limits = Vec::new(alloc);
    match solve(alloc, store, &mut limits, a, b) {
        Ok(()) => {}
        Err(Stop::Clash) => return Err(Failure::NotOne),
        Err(Stop::NoMemory) => return Err(Failure::NoMemory),
    }
    match lower_all(alloc, store, &mut limits) {
        Ok(()) => Ok(()),
        Err(Stop::Clash) => Err(Failure::OutOfScope),
        Err(Stop::NoMemory) => Err(Failure::NoMemory),
    }
}

/// Makes two nodes one, where some reading gives them one type; a clash tells why no reading does. Both are said where no bound
/// variable stands in the two nodes. Whatever stands in them, nothing but what they lead to changes, no bound variable does, and no
/// type is loosened; after an error the store is as before.
pub fn unify(alloc: Global, store: &mut Store, a: NodeRef, b: NodeRef) -> Result<(), UnifyFault>
    requires a { IsNode store.old.nodes a.0 }
    requires b { IsNode store.old.nodes b.0 }
    ensures unified { OnOk result (HaveNoBound store.old.nodes a.0 b.0 → Unified store.old.nodes store.new.nodes a.0 b.0) }
    ensures within { OnOk result (ChangesWithin store.old.nodes store.new.nodes a.0 b.0) }
    ensures clash { IfErr result (λ e. (clash : Clash) → e ≡ UnifyFault.Clash clash → HaveNoBound store.old.nodes a.0 b.0 → Clashes store.old.nodes a b clash) }
    ensures len { length store.new.nodes ≡ length store.old.nodes }
    ensures tightens { Tightens store.old.nodes store.new.nodes }
    ensures failed { OnErr result (store.new ≡ store.old) }
    ensures keeps { Keeps store.old store.new }
{
    let mark = store.snapshot();
    match attempt(alloc, store, a, b) {
        Ok(()) => Ok(()),
        Err(failure) => {
            store.rollback(mark);
            let kind = kind_of(alloc, store, a, b, failure)?;
            Err(UnifyFault::Clash(Clash {
                left: a,
                right: b,
                kind,
            }))
        }
    }
}
