//! Makes two nodes one, whatever the levels and scopes of their variables.
//! A pair of composites is met twice. First it is opened: it is put back, below the pairs of their parts. Once these are one it is
//! linked without a walk: what has equal parts has one type, so neither stands in the other. A variable is linked to its type after
//! a walk through it, which leaves out what was walked before and lacks the variable.
ghost use Rattle.std.specs.Prelude.{◌≡◌, ◌≢◌, ℕ, ◌<◌, ◌++◌, [], ◌∷◌, true, cond, nat_eq, List, length, slice_set, slice_get, Some, All, IfErr, OnOk};
ghost use Rattle.type_nodes.specs.Nodes.{Node, Link as link, Var as var_node, IsNode, IsSound, Apart, parts};
ghost use Rattle.type_nodes.specs.Links.{root, IsFree, ReadsAsComposite};
ghost use Rattle.type_nodes.specs.States.{Keeps};
ghost use Rattle.type_nodes.specs.Views.{numbers};
ghost use Rattle.level_unify.specs.Walks.{StandsIn, IsCleared};
ghost use Rattle.std.specs.HashSet.{contains};
ghost use Rattle.level_unify.specs.Plans.{SameHead, Views};
ghost use Rattle.level_unify.specs.Solutions.{Cap, Equation, equations_of, is_opened, is_cleared, ClearsAlike, paired, AreOne, Stepped, Solved, NeverOne, HaveNoBound, Steps, caps_of, Recorded, Tracked};

use crate::plan::{Plan, plan_for};
use crate::walk::occurs;
use std::alloc::{AllocError, Global};
use std::collections::{HashMap, HashSet};
use type_nodes::{NoMemory, NodeRef, Store, View};

// Two nodes that are to have one type.
#[derive(Clone, Copy, Drop)]
struct Pair {
    left: NodeRef,
    right: NodeRef,
}

// The pairs that are left, the next one last; the roots whose pair was put back until their parts are one; and roots that were
// walked through, with the roots of their parts, so that no variable among the others stands in them. The depths only choose
// which of two roots is linked to the other.
#[derive(Drop)]
struct Todo {
    pairs: Vec<Pair>,
    opened: HashSet<u64>,
    cleared: HashSet<u64>,
    depths: HashMap<u64, u32>,
}

/// A variable that was bound, and what its types were limited to.
#[derive(Clone, Copy, Drop)]
pub struct Limit {
    pub var: NodeRef,
    pub level: u32,
    pub scope: u64,
}

/// Why the nodes were not made one.
#[derive(Clone, Copy, Drop)]
pub enum Stop {
    Clash,
    NoMemory,
}

impl From<NoMemory> for Stop {
    ghost use Rattle.level_unify.specs.declared.solve.Stop.{Stop};

    ghost from_gives = { λ e r. r ≡ Stop.NoMemory };

    fn from(_: NoMemory) -> Stop
        ensures { result ≡ Stop.NoMemory }
    {
        Stop::NoMemory
    }
}

fn push_pair(pairs: &mut Vec<Pair>, left: NodeRef, right: NodeRef) -> Result<(), NoMemory>
    ensures { OnOk result (equations_of pairs.new.items ≡ equations_of pairs.old.items ++ (left.0, right.0) ∷ []) }
{
    pairs.push(Pair { left, right }).map_err(|_| AllocError)
}

fn push_pairs(pairs: &mut Vec<Pair>, lefts: &[NodeRef], rights: &[NodeRef]) -> Result<(), NoMemory>
    requires { length lefts.now ≡ length rights.now }
    ensures { OnOk result (equations_of pairs.new.items ≡ equations_of pairs.old.items ++ paired (numbers lefts.now) (numbers rights.now)) }
{
    for (i, left) in lefts.iter().enumerate() {
        push_pair(pairs, *left, rights[i])?;
    }
    Ok(())
}

fn push_parts(pairs: &mut Vec<Pair>, left: &View<'_>, right: &View<'_>) -> Result<(), NoMemory>
    requires { (c : Node) × (d : Node) × Views left.now c × Views right.now d × SameHead c d }
    ensures { OnOk result ((c d : Node) → Views left.now c → Views right.now d →
        equations_of pairs.new.items ≡ equations_of pairs.old.items ++ paired (parts c) (parts d)) }
{
    match left {
        View::Arrow(from, to) => match right {
            View::Arrow(other_from, other_to) => {
                push_pairs(pairs, &[*from, *to], &[*other_from, *other_to])
            }
            _ => Ok(()),
        },
        View::Tuple(parts) => match right {
            View::Tuple(others) => push_pairs(pairs, parts, others),
            _ => Ok(()),
        },
        View::Con(_, args) => match right {
            View::Con(_, others) => push_pairs(pairs, args, others),
            _ => Ok(()),
        },
        _ => Ok(()),
    }
}

// Whether the nodes have one root in pairs.
fn are_one(store: &Store, lefts: &[NodeRef], rights: &[NodeRef]) -> bool
    requires lefts { All (IsNode store.now.nodes) (numbers lefts.now) }
    requires rights { All (IsNode store.now.nodes) (numbers rights.now) }
    requires length { length lefts.now ≡ length rights.now }
    ensures { result ≡ true → AreOne store.now.nodes (paired (numbers lefts.now) (numbers rights.now)) }
{
    for (i, left) in lefts.iter().enumerate() {
        if store.root(*left).0 != store.root(rights[i]).0 {
            return false;
        }
    }
    true
}

// Whether the parts of two composites with one head are one already.
fn have_same_parts(store: &Store, left: NodeRef, right: NodeRef) -> bool
    requires sound { IsSound store.now.nodes }
    requires left { IsNode store.now.nodes left.0 }
    requires right { IsNode store.now.nodes right.0 }
    requires left_root { root store.now.nodes left.0 ≡ left.0 }
    requires right_root { root store.now.nodes right.0 ≡ right.0 }
    requires heads { (c d : Node) → slice_get store.now.nodes left.0 ≡ Some c → slice_get store.now.nodes right.0 ≡ Some d → SameHead c d }
    ensures { result ≡ true → (c d : Node) → slice_get store.now.nodes left.0 ≡ Some c → slice_get store.now.nodes right.0 ≡ Some d → AreOne store.now.nodes (paired (parts c) (parts d)) }
{
    match store.read(left) {
        View::Arrow(from, to) => match store.read(right) {
            View::Arrow(other_from, other_to) => {
                are_one(store, &[from, to], &[other_from, other_to])
            }
            _ => false,
        },
        View::Tuple(parts) => match store.read(right) {
            View::Tuple(others) => are_one(store, parts, others),
            _ => false,
        },
        View::Con(_, args) => match store.read(right) {
            View::Con(_, others) => are_one(store, args, others),
            _ => false,
        },
        _ => false,
    }
}

fn bind(
    alloc: Global,
    store: &mut Store,
    cleared: &mut HashSet<u64>,
    limits: &mut Vec<Limit>,
    var: NodeRef,
    to: NodeRef,
) -> Result<(), Stop>
    requires sound { IsSound store.old.nodes }
    requires var { IsFree store.old.nodes var.0 }
    requires to { IsNode store.old.nodes to.0 }
    requires var_root { root store.old.nodes var.0 ≡ var.0 }
    requires to_root { root store.old.nodes to.0 ≡ to.0 }
    requires cleared { IsCleared store.old.nodes (contains nat_eq cleared.old) }
    ensures linked { OnOk result (store.new.nodes ≡ slice_set store.old.nodes var.0 (link to.0)) }
    ensures sound { OnOk result (IsSound store.new.nodes) }
    ensures cleared { OnOk result (IsCleared store.new.nodes (contains nat_eq cleared.new)) }
    ensures recorded { OnOk result ((level scope : ℕ) → slice_get store.old.nodes var.0 ≡ Some (var_node level scope) →
        caps_of limits.new.items ≡ caps_of limits.old.items ++ (var.0, level, scope) ∷ []) }
    ensures clash { IfErr result (λ e. e ≡ Stop.Clash → StandsIn store.old.nodes var.0 to.0) }
    ensures keeps { Keeps store.old store.new }
{
    if occurs(alloc, store, cleared, var, to)? {
        return Err(Stop::Clash);
    }
    match store.read(var) {
        View::Var { level, scope } => {
            limits
                .push(Limit { var, level, scope })
                .map_err(|_| AllocError)?;
        }
        _ => {}
    }
    store.bind(var, to)?;
    Ok(())
}

// Links two composites with one head, and leaves their parts to do.
fn join(store: &mut Store, todo: &mut Todo, left: NodeRef, right: NodeRef) -> Result<(), NoMemory>
    requires sound { IsSound store.old.nodes }
    requires heads { (c : Node) × (d : Node) × (slice_get store.old.nodes left.0 ≡ Some c) × (slice_get store.old.nodes right.0 ≡ Some d) × SameHead c d }
    requires left { IsNode store.old.nodes left.0 }
    requires right { IsNode store.old.nodes right.0 }
    requires left_root { root store.old.nodes left.0 ≡ left.0 }
    requires right_root { root store.old.nodes right.0 ≡ right.0 }
    requires apart { Apart store.old.nodes left.0 right.0 }
    requires cleared { IsCleared store.old.nodes (is_cleared todo.old) }
    requires alike { is_cleared todo.old left.0 ≡ true → is_cleared todo.old right.0 ≡ true }
    ensures cleared { OnOk result (IsCleared store.new.nodes (is_cleared todo.new)) }
    ensures linked { OnOk result (store.new.nodes ≡ slice_set store.old.nodes left.0 (link right.0)) }
    ensures sound { OnOk result (IsSound store.new.nodes) }
    ensures left_over { OnOk result ((c d : Node) → slice_get store.old.nodes left.0 ≡ Some c → slice_get store.old.nodes right.0 ≡ Some d →
        equations_of todo.new.pairs.items ≡ equations_of todo.old.pairs.items ++ paired (parts c) (parts d)) }
    ensures opened { todo.new.opened ≡ todo.old.opened }
    ensures keeps { Keeps store.old store.new }
{
    push_parts(&mut todo.pairs, &store.read(left), &store.read(right))?;
    store.link(left, right)?;
    Ok(())
}

// Puts two composites with one head back, below their parts.
fn open(store: &Store, todo: &mut Todo, left: NodeRef, right: NodeRef) -> Result<(), NoMemory>
    requires sound { IsSound store.now.nodes }
    requires heads { (c : Node) × (d : Node) × (slice_get store.now.nodes left.0 ≡ Some c) × (slice_get store.now.nodes right.0 ≡ Some d) × SameHead c d }
    requires left { IsNode store.now.nodes left.0 }
    requires right { IsNode store.now.nodes right.0 }
    requires left_root { root store.now.nodes left.0 ≡ left.0 }
    requires right_root { root store.now.nodes right.0 ≡ right.0 }
    ensures left_over { OnOk result ((c d : Node) → slice_get store.now.nodes left.0 ≡ Some c → slice_get store.now.nodes right.0 ≡ Some d →
        equations_of todo.new.pairs.items ≡ (equations_of todo.old.pairs.items ++ (left.0, right.0) ∷ []) ++ paired (parts c) (parts d)) }
    ensures opened { OnOk result ((n : ℕ) → is_opened todo.new n ≡ cond (nat_eq left.0 n) true (is_opened todo.old n)) }
    ensures cleared { todo.new.cleared ≡ todo.old.cleared }
{
    todo.opened.insert(left.0).map_err(|_| AllocError)?;
    push_pair(&mut todo.pairs, left, right)?;
    push_parts(&mut todo.pairs, &store.read(left), &store.read(right))
}

// Where the parts of two composites are one, the right one is cleared as well as the left one.
fn clear_alike(cleared: &mut HashSet<u64>, left: NodeRef, right: NodeRef) -> Result<(), NoMemory>
    ensures { OnOk result (ClearsAlike (contains nat_eq cleared.old) (contains nat_eq cleared.new) left.0 right.0) }
{
    if !cleared.contains(&left.0) {
        return Ok(());
    }
    cleared.insert(right.0).map_err(|_| AllocError)?;
    Ok(())
}

// Makes two composites with one head one, once their parts are. Only what clashes meets an opened root before that.
fn tie(
    alloc: Global,
    store: &mut Store,
    todo: &mut Todo,
    left: NodeRef,
    right: NodeRef,
) -> Result<(), Stop>
    requires sound { IsSound store.old.nodes }
    requires other { left.0 ≢ right.0 }
    requires heads { (c : Node) × (d : Node) × (slice_get store.old.nodes left.0 ≡ Some c) × (slice_get store.old.nodes right.0 ≡ Some d) × SameHead c d }
    requires left { IsNode store.old.nodes left.0 }
    requires right { IsNode store.old.nodes right.0 }
    requires left_root { root store.old.nodes left.0 ≡ left.0 }
    requires right_root { root store.old.nodes right.0 ≡ right.0 }
    requires cleared { IsCleared store.old.nodes (is_cleared todo.old) }
    ensures sound { OnOk result (IsSound store.new.nodes) }
    ensures cleared { OnOk result (IsCleared store.new.nodes (is_cleared todo.new)) }
    ensures stepped { OnOk result (Steps store.old.nodes store.new.nodes left.0 right.0 (is_opened todo.old) (is_opened todo.new) (equations_of todo.old.pairs.items) (equations_of todo.new.pairs.items)) }
    ensures recorded { OnOk result ((caps : List Cap) → Recorded store.old.nodes store.new.nodes left.0 right.0 caps caps) }
    ensures clash { IfErr result (λ e. e ≡ Stop.Clash → StandsIn store.old.nodes left.0 right.0) }
    ensures keeps { Keeps store.old store.new }
{
    if have_same_parts(store, left, right) {
        clear_alike(&mut todo.cleared, left, right)?;
        join(store, todo, left, right)?;
        return Ok(());
    }
    if !todo.opened.contains(&left.0) {
        open(store, todo, left, right)?;
        return Ok(());
    }
    if occurs(alloc, store, &mut todo.cleared, left, right)? {
        return Err(Stop::Clash);
    }
    join(store, todo, left, right)?;
    Ok(())
}

// Links one of two roots to the other, or opens them.
fn make_one(
    alloc: Global,
    store: &mut Store,
    todo: &mut Todo,
    limits: &mut Vec<Limit>,
    left: NodeRef,
    right: NodeRef,
) -> Result<(), Stop>
    requires sound { IsSound store.old.nodes }
    requires other { left.0 ≢ right.0 }
    requires left { IsNode store.old.nodes left.0 }
    requires right { IsNode store.old.nodes right.0 }
    requires left_root { root store.old.nodes left.0 ≡ left.0 }
    requires right_root { root store.old.nodes right.0 ≡ right.0 }
    requires cleared { IsCleared store.old.nodes (is_cleared todo.old) }
    ensures sound { OnOk result (IsSound store.new.nodes) }
    ensures cleared { OnOk result (IsCleared store.new.nodes (is_cleared todo.new)) }
    ensures stepped { OnOk result (Steps store.old.nodes store.new.nodes left.0 right.0 (is_opened todo.old) (is_opened todo.new) (equations_of todo.old.pairs.items) (equations_of todo.new.pairs.items)) }
    ensures recorded { OnOk result (Recorded store.old.nodes store.new.nodes left.0 right.0 (caps_of limits.old.items) (caps_of limits.new.items)) }
    ensures clash { IfErr result (λ e. e ≡ Stop.Clash → HaveNoBound store.old.nodes left.0 right.0 → NeverOne store.old.nodes left.0 right.0) }
    ensures keeps { Keeps store.old store.new }
{
    match plan_for(&store.read(left), &store.read(right)) {
        Plan::BindLeft => bind(alloc, store, &mut todo.cleared, limits, left, right),
        Plan::BindRight => bind(alloc, store, &mut todo.cleared, limits, right, left),
        Plan::LinkParts => tie(alloc, store, todo, left, right),
        Plan::Clash => Err(Stop::Clash),
    }
}

// How far the nodes that were linked to a root stand from it at most.
fn depth_of(depths: &HashMap<u64, u32>, root: NodeRef) -> u32 {
    match depths.get(&root.0) {
        Some(depth) => *depth,
        None => 0,
    }
}

// The root with the longer ways to it stays one; of two with equal ways the older one does.
fn left_stays(depths: &HashMap<u64, u32>, left: NodeRef, right: NodeRef) -> bool {
    let left_depth = depth_of(depths, left);
    let right_depth = depth_of(depths, right);
    right_depth < left_depth || (right_depth == left_depth && left.0 < right.0)
}

// A root was linked to another.
fn deepen(depths: &mut HashMap<u64, u32>, from: NodeRef, to: NodeRef) -> Result<(), NoMemory> {
    let depth = depth_of(depths, from).saturating_add(1);
    if depth_of(depths, to) < depth {
        depths.insert(to.0, depth).map_err(|_| AllocError)?;
    }
    Ok(())
}

// One of two roots was linked to the other, or none was.
fn keep_depth(
    store: &Store,
    depths: &mut HashMap<u64, u32>,
    left: NodeRef,
    right: NodeRef,
) -> Result<(), NoMemory>
    requires left { IsNode store.now.nodes left.0 }
    requires right { IsNode store.now.nodes right.0 }
{
    if store.root(left).0 != left.0 {
        return deepen(depths, left, right);
    }
    if store.root(right).0 != right.0 {
        return deepen(depths, right, left);
    }
    Ok(())
}

// Links one of two roots to the other where either may be, so that ways to a root stay short.
fn meet(
    alloc: Global,
    store: &mut Store,
    todo: &mut Todo,
    limits: &mut Vec<Limit>,
    left: NodeRef,
    right: NodeRef,
) -> Result<(), Stop>
    requires sound { IsSound store.old.nodes }
    requires other { left.0 ≢ right.0 }
    requires left { IsNode store.old.nodes left.0 }
    requires right { IsNode store.old.nodes right.0 }
    requires left_root { root store.old.nodes left.0 ≡ left.0 }
    requires right_root { root store.old.nodes right.0 ≡ right.0 }
    requires cleared { IsCleared store.old.nodes (is_cleared todo.old) }
    ensures sound { OnOk result (IsSound store.new.nodes) }
    ensures cleared { OnOk result (IsCleared store.new.nodes (is_cleared todo.new)) }
    ensures stepped { OnOk result (Steps store.old.nodes store.new.nodes left.0 right.0 (is_opened todo.old) (is_opened todo.new) (equations_of todo.old.pairs.items) (equations_of todo.new.pairs.items)) }
    ensures recorded { OnOk result (Recorded store.old.nodes store.new.nodes left.0 right.0 (caps_of limits.old.items) (caps_of limits.new.items)) }
    ensures clash { IfErr result (λ e. e ≡ Stop.Clash → HaveNoBound store.old.nodes left.0 right.0 → NeverOne store.old.nodes left.0 right.0) }
    ensures len { OnOk result (length store.new.nodes ≡ length store.old.nodes) }
    ensures keeps { Keeps store.old store.new }
{
    if left_stays(&todo.depths, left, right) {
        make_one(alloc, store, todo, limits, right, left)
    } else {
        make_one(alloc, store, todo, limits, left, right)
    }
}

fn step(
    alloc: Global,
    store: &mut Store,
    todo: &mut Todo,
    limits: &mut Vec<Limit>,
    left: NodeRef,
    right: NodeRef,
) -> Result<(), Stop>
    requires sound { IsSound store.old.nodes }
    requires other { left.0 ≢ right.0 }
    requires left { IsNode store.old.nodes left.0 }
    requires right { IsNode store.old.nodes right.0 }
    requires left_root { root store.old.nodes left.0 ≡ left.0 }
    requires right_root { root store.old.nodes right.0 ≡ right.0 }
    requires cleared { IsCleared store.old.nodes (is_cleared todo.old) }
    ensures sound { OnOk result (IsSound store.new.nodes) }
    ensures cleared { OnOk result (IsCleared store.new.nodes (is_cleared todo.new)) }
    ensures stepped { OnOk result (Steps store.old.nodes store.new.nodes left.0 right.0 (is_opened todo.old) (is_opened todo.new) (equations_of todo.old.pairs.items) (equations_of todo.new.pairs.items)) }
    ensures recorded { OnOk result (Recorded store.old.nodes store.new.nodes left.0 right.0 (caps_of limits.old.items) (caps_of limits.new.items)) }
    ensures clash { IfErr result (λ e. e ≡ Stop.Clash → HaveNoBound store.old.nodes left.0 right.0 → NeverOne store.old.nodes left.0 right.0) }
    ensures keeps { Keeps store.old store.new }
{
    meet(alloc, store, todo, limits, left, right)?;
    keep_depth(store, &mut todo.depths, left, right)?;
    Ok(())
}

/// Makes `a` and `b` one, and adds the limits of the variables that it bound. After an error some links are made.
pub fn solve(
    alloc: Global,
    store: &mut Store,
    limits: &mut Vec<Limit>,
    a: NodeRef,
    b: NodeRef,
) -> Result<(), Stop>
    requires sound { IsSound store.old.nodes }
    requires empty { limits.old.items ≡ [] }
    requires a { IsNode store.old.nodes a.0 }
    requires b { IsNode store.old.nodes b.0 }
    ensures sound { OnOk result (IsSound store.new.nodes) }
    ensures solved { OnOk result (Solved store.old.nodes store.new.nodes a.0 b.0) }
    ensures tracked { OnOk result (Tracked store.old.nodes store.new.nodes a.0 b.0 (caps_of limits.new.items)) }
    ensures clash { IfErr result (λ e. e ≡ Stop.Clash → HaveNoBound store.old.nodes a.0 b.0 → NeverOne store.old.nodes a.0 b.0) }
    ensures keeps { Keeps store.old store.new }
{
    let mut todo = Todo {
        pairs: Vec::new(alloc),
        opened: HashSet::new(alloc),
        cleared: HashSet::new(alloc),
        depths: HashMap::new(alloc),
    };
    push_pair(&mut todo.pairs, a, b)?;
    while let Some(pair) = todo.pairs.pop() {
        let left = store.root(pair.left);
        let right = store.root(pair.right);
        if left.0 != right.0 {
            step(alloc, store, &mut todo, limits, left, right)?;
        }
    }
    Ok(())
}
