//! What a bound variable's level and scope ask of the type that it now reads as.
ghost use Rattle.std.specs.Prelude.{◌≡◌, ◌↔◌, ℕ, ◌<◌, ◌≢◌, true, List, IsTrue, IfErr, OnOk, OnErr, slice_get, Some, length};
ghost use Rattle.std.specs.List.Sorted.{IsPermutation, IsNonDecreasingBy};
ghost use Rattle.type_model.specs.Limits.{in_scope};
ghost use Rattle.type_nodes.specs.Nodes.{Node, IsNode, IsSound, bound_level};
ghost use Rattle.type_nodes.specs.Links.{root};
ghost use Rattle.type_nodes.specs.States.{Keeps};
ghost use Rattle.level_unify.specs.Plans.{Views};
ghost use Rattle.type_model.specs.Limits.{IsUnder};
ghost use Rattle.type_nodes.specs.Readings.{Types};
ghost use Rattle.type_nodes.specs.Views.{numbers};
ghost use Rattle.level_unify.specs.Walks.{AreRootsIn};
ghost use Rattle.level_unify.specs.Solutions.{Cap, IsListed, cap_of, caps_of};
ghost use Rattle.level_unify.specs.Limits.{Asks, IsAllowed, IsSmall, AreLow, low_in, cap_in, caps_in, number_in, LoweredOne, Lowered, FitsUnder, Capped, CappedTo, NeverCapped};

use crate::levels::{BOUND, NO_SCOPE};
use crate::solve::{Limit, Stop};
use crate::walk::reached_beyond;
use std::alloc::Global;
use std::collections::HashSet;
use type_nodes::{NoMemory, NodeRef, Origin, Store, View};

const BUILT_IN: u64 = 9_223_372_036_854_775_808;

// Whether an origin was made before the scope.
fn is_in_scope(origin: &Origin, scope: u64) -> bool
    ensures { IsTrue result ↔ (in_scope scope origin.now.path.items ≡ true) }
{
    if scope == NO_SCOPE || origin.path.len() == 0 {
        return true;
    }
    BUILT_IN <= origin.path[0] || origin.path[0] < scope
}

// What a limit asks of one node.
#[derive(Clone, Copy, Drop)]
enum Asked {
    Lower { level: u32, scope: u64 },
    Nothing,
    OutOfScope,
}

fn asked_of(view: &View<'_>, limit: Limit) -> Asked
    ensures asks { (c : Node) → Views view.now c → Asks limit.level limit.scope c result }
    ensures small { (c : Node) → Views view.now c → IsSmall c }
{
    match view {
        View::Var { level, scope } => {
            let (level, scope) = (*level, *scope);
            if level == BOUND || (level <= limit.level && scope <= limit.scope) {
                Asked::Nothing
            } else {
                Asked::Lower {
                    level: level.min(limit.level),
                    scope: scope.min(limit.scope),
                }
            }
        }
        View::Rigid(_) => {
            if limit.scope == NO_SCOPE {
                Asked::Nothing
            } else {
                Asked::OutOfScope
            }
        }
        View::Con(origin, _) => {
            if is_in_scope(origin, limit.scope) {
                Asked::Nothing
            } else {
                Asked::OutOfScope
            }
        }
        _ => Asked::Nothing,
    }
}

fn lower_one(store: &mut Store, node: NodeRef, limit: Limit) -> Result<(), Stop>
    requires inside { IsNode store.old.nodes node.0 }
    requires root { root store.old.nodes node.0 ≡ node.0 }
    ensures lowered { OnOk result (LoweredOne store.old.nodes store.new.nodes limit.level limit.scope node.0) }
    ensures clash { IfErr result (λ e. e ≡ Stop.Clash → (c : Node) → slice_get store.old.nodes node.0 ≡ Some c → IsAllowed limit.scope c → ⊥) }
    ensures keeps { Keeps store.old store.new }
{
    match asked_of(&store.read(node), limit) {
        Asked::Nothing => Ok(()),
        Asked::Lower { level, scope } => {
            store.lower(node, level, scope)?;
            Ok(())
        }
        Asked::OutOfScope => Err(Stop::Clash),
    }
}

fn lower_found(store: &mut Store, found: &[NodeRef], limit: Limit) -> Result<(), Stop>
    requires found { AreRootsIn store.old.nodes limit.var.0 (numbers found.now) }
    requires free { limit.level ≢ bound_level }
    ensures lowered { OnOk result (Lowered store.old.nodes store.new.nodes limit.level limit.scope limit.var.0 (numbers found.now) (length (numbers found.now))) }
    ensures clash { IfErr result (λ e. e ≡ Stop.Clash → (L : ℕ → ℕ) (V : Types) → FitsUnder L store.old.nodes V → IsUnder L limit.level limit.scope (V limit.var.0) → ⊥) }
    ensures keeps { Keeps store.old store.new }
{
    for node in found {
        lower_one(store, *node, limit)?;
    }
    Ok(())
}

// Roots with all that stands in them, where nothing is above a level and a scope.
#[derive(Drop)]
struct Low {
    roots: HashSet<u64>,
    level: u32,
    scope: u64,
}

// Takes another level and scope. What is low stays so unless one of them falls.
fn limit_to(alloc: Global, low: &mut Low, limit: Limit)
    ensures low { (nodes : List Node) → AreLow nodes low.old.level low.old.scope (low_in low.old) → AreLow nodes limit.level limit.scope (low_in low.new) }
    ensures level { low.new.level ≡ limit.level }
    ensures scope { low.new.scope ≡ limit.scope }
{
    if limit.level < low.level || limit.scope < low.scope {
        low.roots = HashSet::new(alloc);
    }
    low.level = limit.level;
    low.scope = limit.scope;
}

fn lower_reached(alloc: Global, store: &mut Store, low: &mut Low, limit: Limit) -> Result<(), Stop>
    requires inside { IsNode store.old.nodes limit.var.0 }
    requires free { limit.level ≢ bound_level }
    requires low { AreLow store.old.nodes low.old.level low.old.scope (low_in low.old) }
    ensures capped { OnOk result (Capped store.old.nodes store.new.nodes (cap_of limit) × AreLow store.new.nodes low.new.level low.new.scope (low_in low.new)) }
    ensures clash { IfErr result (λ e. e ≡ Stop.Clash → (L : ℕ → ℕ) (V : Types) → FitsUnder L store.old.nodes V → IsUnder L limit.level limit.scope (V limit.var.0) → ⊥) }
    ensures keeps { Keeps store.old store.new }
{
    limit_to(alloc, low, limit);
    let found = reached_beyond(alloc, store, &mut low.roots, limit.var)?;
    lower_found(store, &found, limit)
}

// A pass lowers levels, or scopes.
#[derive(Clone, Copy, Drop)]
enum Pass {
    Levels,
    Scopes,
}

// A variable's limit in one pass: what the pass doesn't lower is so high that it limits nothing.
fn limit_in(pass: Pass, limit: Limit) -> Limit
    requires { limit.level ≢ bound_level }
    ensures { cap_of result ≡ cap_in pass (cap_of limit) }
{
    match pass {
        Pass::Levels => Limit {
            scope: NO_SCOPE,
            ..limit
        },
        Pass::Scopes => Limit {
            level: BOUND - 1,
            ..limit
        },
    }
}

// Lowers the variables in what the bound variables read as, in one pass. What is low by one limit is not walked again for those
// behind it, as long as the limits don't fall from one to the next.
fn lower_each(alloc: Global, store: &mut Store, limits: &[Limit], pass: Pass) -> Result<(), Stop>
    requires limits { (x : Cap) → IsListed (caps_of limits.now) x → (x.0 < length store.old.nodes) × (x.1 ≢ bound_level) }
    ensures capped { OnOk result (CappedTo store.old.nodes store.new.nodes (caps_in pass (caps_of limits.now)) (length (caps_in pass (caps_of limits.now)))) }
    ensures clash { IfErr result (λ e. e ≡ Stop.Clash → NeverCapped store.old.nodes (caps_in pass (caps_of limits.now))) }
    ensures keeps { Keeps store.old store.new }
{
    let mut low = Low {
        roots: HashSet::new(alloc),
        level: 0,
        scope: 0,
    };
    for limit in limits {
        lower_reached(alloc, store, &mut low, limit_in(pass, *limit))?;
    }
    Ok(())
}

// Puts the limits first that are low in a pass.
fn lowest_first(limits: &mut Vec<Limit>, pass: Pass)
    ensures same { IsPermutation limits.old.items limits.new.items }
    ensures sorted { IsNonDecreasingBy (number_in pass) limits.new.items }
{
    match pass {
        Pass::Levels => limits.sort_unstable_by_key(|limit| limit.level),
        Pass::Scopes => limits.sort_unstable_by_key(|limit| limit.scope),
    }
}

/// Lowers the variables in what the bound variables read as. A clash where an origin there was made too late. Levels and scopes
/// are lowered one after the other, each from the lowest limit on, so that each pass walks a node once.
pub fn lower_all(alloc: Global, store: &mut Store, limits: &mut Vec<Limit>) -> Result<(), Stop>
    requires limits { (x : Cap) → IsListed (caps_of limits.old.items) x → (x.0 < length store.old.nodes) × (x.1 ≢ bound_level) }
    ensures capped { OnOk result (CappedTo store.old.nodes store.new.nodes (caps_of limits.old.items) (length (caps_of limits.old.items))) }
    ensures clash { IfErr result (λ e. e ≡ Stop.Clash → NeverCapped store.old.nodes (caps_of limits.old.items)) }
    ensures keeps { Keeps store.old store.new }
{
    lowest_first(limits, Pass::Levels);
    lower_each(alloc, store, limits, Pass::Levels)?;
    lowest_first(limits, Pass::Scopes);
    lower_each(alloc, store, limits, Pass::Scopes)
}
