//! Cases as lists of steps over one store: each step makes a node, changes the store, or says what has to hold.
//! Nodes have names; of two nodes of one name the newer one counts.
use crate::checked::*;
use level_unify::ClashKind;
use std::alloc::{AllocError, Global};
use std::test::Fail;
use type_nodes::{Mark, NoMemory, NodeRef, Store, View};

/// How many parts a long type has.
pub const MANY: u32 = 20_000;

pub type Name = &'static str;

/// The parts of a long type.
pub enum Parts {
    /// One node in each place
    Same(Name),
    /// A new variable in each place
    Variables,
    /// The same, where no limit is the lowest: the lower a variable's level is, the higher is its scope
    LimitedVariables,
    /// A new constructor without arguments in each place
    Constants,
    /// The parts of a tuple
    Of(Name),
    /// x * x for the part x of a tuple at the next place
    PairsOfNext(Name),
}

/// How a node is made or found.
pub enum Make {
    /// 'a, of a level and a scope
    Var(u32, u64),
    Rigid,
    /// A constructor without arguments, by its origin's number
    Con(u64),
    /// t -> u
    Arrow(Name, Name),
    /// t * u
    Tuple(&'static [Name]),
    /// The type of `let d x = (x, x)` applied so many times
    Doubled(Name, u32),
    Instance(Name, u32),
    Frozen(Name),
    /// A node with types in the place of variables
    Replaced(Name, &'static [Name], &'static [Name]),
    /// The part of an arrow or of a tuple at a place
    Part(Name, usize),
    /// The first part of the first part .., so many times
    Bottom(Name, u32),
    /// part * part * .., of so many parts
    LongTuple(Parts, u32),
    /// part -> part -> .. -> last
    LongArrow(Parts, Name),
    /// What is left of a long function that is applied to constants
    Applied(Name),
}

pub enum Change {
    Generalise(Name, u32),
    Bind(Name, Name),
    Link(Name, Name),
    Lower(Name, u32, u64),
    Quantify(Name),
}

/// What a node reads as.
pub enum Seen {
    /// 'a, of a level and a scope
    Var(u32, u64),
    /// A rigid variable, with the node's own number
    Rigid,
    Constant,
    Arrow(Name, Name),
    /// A tuple of so many parts
    Tuple(usize),
}

pub enum Fact {
    Unify(Name, Name),
    Clash(Name, Name, ClashKind),
    /// Each part is unified with a node, in this order.
    EachWith(Parts, Name),
    /// A node is unified with each part, in this order.
    WithEach(Name, Parts),
    Is(Name, Seen),
    Same(Name, Name),
    Differ(Name, Name),
    /// How many nodes the store has
    Count(usize),
}

pub enum Step {
    Let(Name, Make),
    Do(Change),
    Holds(Fact),
    /// Marks the state to which the next `Rollback` goes.
    Mark,
    Rollback,
}

/// The nodes that have names, the newest last.
type Known = Vec<(Name, NodeRef)>;

fn node(known: &Known, name: Name) -> Result<NodeRef, NoMemory> {
    for (other, node) in known.iter().rev() {
        if *other == name {
            return Ok(*node);
        }
    }
    Err(AllocError)
}

fn nodes(alloc: Global, known: &Known, names: &[Name]) -> Result<Vec<NodeRef>, NoMemory> {
    let mut found = Vec::new(alloc);
    for name in names {
        put(&mut found, node(known, name)?)?;
    }
    Ok(found)
}

fn constant(alloc: Global, store: &mut Store, number: u64) -> Result<NodeRef, NoMemory> {
    con(alloc, store, (number, "t"), &[])
}

fn pair(store: &mut Store, part: NodeRef) -> Result<NodeRef, NoMemory> {
    tuple(store, &[part, part])
}

/// The part of a long type at a place.
fn part(
    alloc: Global,
    store: &mut Store,
    known: &Known,
    parts: &Parts,
    place: u32,
) -> Result<NodeRef, NoMemory> {
    match parts {
        Parts::Same(name) => node(known, name),
        Parts::Variables => store.var(2, NO_SCOPE),
        Parts::LimitedVariables => var(
            store,
            place.saturating_add(1),
            NO_SCOPE.saturating_sub(u64::from(place)),
        ),
        Parts::Constants => constant(alloc, store, NO_SCOPE),
        Parts::Of(name) => part_at(store, node(known, name)?, place as usize),
        Parts::PairsOfNext(name) => {
            let next = part_at(store, node(known, name)?, place as usize + 1)?;
            pair(store, next)
        }
    }
}

fn long_tuple(
    alloc: Global,
    store: &mut Store,
    known: &Known,
    parts: &Parts,
    count: u32,
) -> Result<NodeRef, NoMemory> {
    let mut made = Vec::new(alloc);
    for place in 0..count {
        put(&mut made, part(alloc, store, known, parts, place)?)?;
    }
    tuple(store, &made)
}

fn long_arrow(
    alloc: Global,
    store: &mut Store,
    known: &Known,
    parts: &Parts,
    last: NodeRef,
) -> Result<NodeRef, NoMemory> {
    let mut made = last;
    for place in 0..MANY {
        let from = part(alloc, store, known, parts, place)?;
        made = arrow(store, from, made)?;
    }
    Ok(made)
}

fn doubled(store: &mut Store, of: NodeRef, times: u32) -> Result<NodeRef, NoMemory> {
    let mut made = of;
    for _ in 0..times {
        made = pair(store, made)?;
    }
    Ok(made)
}

fn bottom(store: &Store, of: NodeRef, times: u32) -> Result<NodeRef, NoMemory> {
    let mut found = of;
    for _ in 0..times {
        found = part_at(store, found, 0)?;
    }
    Ok(found)
}

fn is_unified(
    alloc: Global,
    store: &mut Store,
    left: NodeRef,
    right: NodeRef,
) -> Result<bool, NoMemory> {
    Ok(clash(alloc, store, left, right)?.is_none())
}

/// Makes each parameter of a long function one type with a new argument's.
fn applied(alloc: Global, store: &mut Store, function: NodeRef) -> Result<NodeRef, NoMemory> {
    let mut left = function;
    for _ in 0..MANY {
        let argument = constant(alloc, store, NO_SCOPE)?;
        let parameter = part_at(store, left, 0)?;
        if !is_unified(alloc, store, parameter, argument)? {
            return Err(AllocError);
        }
        left = part_at(store, left, 1)?;
    }
    Ok(left)
}

fn replaced_in(
    alloc: Global,
    store: &mut Store,
    of: NodeRef,
    known: &Known,
    by: (&[Name], &[Name]),
) -> Result<NodeRef, NoMemory> {
    let variables = nodes(alloc, known, by.0)?;
    let types = nodes(alloc, known, by.1)?;
    replaced(alloc, store, of, &variables, &types)
}

fn made(alloc: Global, store: &mut Store, known: &Known, make: &Make) -> Result<NodeRef, NoMemory> {
    match make {
        Make::Var(level, scope) => var(store, *level, *scope),
        Make::Rigid => store.rigid(),
        Make::Con(number) => constant(alloc, store, *number),
        Make::Arrow(from, to) => arrow(store, node(known, from)?, node(known, to)?),
        Make::Tuple(names) => tuple(store, &nodes(alloc, known, names)?),
        Make::Doubled(of, times) => doubled(store, node(known, of)?, *times),
        Make::Instance(of, level) => instance(alloc, store, node(known, of)?, *level),
        Make::Frozen(of) => frozen(alloc, store, node(known, of)?),
        Make::Replaced(of, variables, types) => {
            replaced_in(alloc, store, node(known, of)?, known, (variables, types))
        }
        Make::Part(of, place) => part_at(store, node(known, of)?, *place),
        Make::Bottom(of, times) => bottom(store, node(known, of)?, *times),
        Make::LongTuple(parts, count) => long_tuple(alloc, store, known, parts, *count),
        Make::LongArrow(parts, last) => long_arrow(alloc, store, known, parts, node(known, last)?),
        Make::Applied(function) => applied(alloc, store, node(known, function)?),
    }
}

fn make_change(
    alloc: Global,
    store: &mut Store,
    known: &Known,
    by: &Change,
) -> Result<(), NoMemory> {
    match by {
        Change::Generalise(name, level) => generalised(alloc, store, node(known, name)?, *level),
        Change::Bind(var, to) => bound(store, node(known, var)?, node(known, to)?),
        Change::Link(from, to) => linked(store, node(known, from)?, node(known, to)?),
        Change::Lower(var, level, scope) => lowered(store, node(known, var)?, *level, *scope),
        Change::Quantify(var) => quantified(store, node(known, var)?),
    }
}

fn is_seen(store: &Store, known: &Known, at: NodeRef, seen: &Seen) -> Result<bool, NoMemory> {
    match (seen, view(store, at)) {
        (Seen::Var(l, s), Some(View::Var { level, scope })) => Ok(level == *l && scope == *s),
        (Seen::Rigid, Some(View::Rigid(number))) => Ok(number == at.0),
        (Seen::Constant, Some(View::Con(_, args))) => Ok(args.len() == 0),
        (Seen::Arrow(f, t), Some(View::Arrow(from, to))) => {
            Ok(from == node(known, f)? && to == node(known, t)?)
        }
        (Seen::Tuple(count), Some(View::Tuple(parts))) => Ok(parts.len() == *count),
        _ => Ok(false),
    }
}

/// Which of the two is unified with the other.
#[derive(Clone, Copy)]
enum Order {
    PartFirst,
    PartSecond,
}

fn are_unified(
    alloc: Global,
    store: &mut Store,
    known: &Known,
    parts: &Parts,
    with: NodeRef,
    order: Order,
) -> Result<bool, NoMemory> {
    for place in 0..MANY {
        let part = part(alloc, store, known, parts, place)?;
        let (left, right) = match order {
            Order::PartFirst => (part, with),
            Order::PartSecond => (with, part),
        };
        if !is_unified(alloc, store, left, right)? {
            return Ok(false);
        }
    }
    Ok(true)
}

fn holds(alloc: Global, store: &mut Store, known: &Known, fact: &Fact) -> Result<bool, NoMemory> {
    match fact {
        Fact::Unify(left, right) => {
            is_unified(alloc, store, node(known, left)?, node(known, right)?)
        }
        Fact::Clash(left, right, kind) => {
            let found = clash(alloc, store, node(known, left)?, node(known, right)?)?;
            Ok(found == Some(*kind))
        }
        Fact::EachWith(parts, with) => {
            are_unified(
                alloc,
                store,
                known,
                parts,
                node(known, with)?,
                Order::PartFirst,
            )
        }
        Fact::WithEach(with, parts) => {
            are_unified(
                alloc,
                store,
                known,
                parts,
                node(known, with)?,
                Order::PartSecond,
            )
        }
        Fact::Is(name, seen) => is_seen(store, known, node(known, name)?, seen),
        Fact::Same(left, right) => Ok(node(known, left)? == node(known, right)?),
        Fact::Differ(left, right) => Ok(node(known, left)? != node(known, right)?),
        Fact::Count(count) => Ok(store.len() == *count),
    }
}

fn taken(
    alloc: Global,
    store: &mut Store,
    known: &mut Known,
    mark: &mut Mark,
    step: &Step,
) -> Result<bool, NoMemory> {
    match step {
        Step::Let(name, make) => {
            let node = made(alloc, store, known, make)?;
            known.push((name, node))?;
        }
        Step::Do(by) => make_change(alloc, store, known, by)?,
        Step::Holds(fact) => return holds(alloc, store, known, fact),
        Step::Mark => *mark = store.snapshot(),
        Step::Rollback => rolled_back(store, *mark)?,
    }
    Ok(true)
}

/// Whether all facts of the steps hold, in a new store.
fn all_hold(alloc: Global, steps: &[Step]) -> Result<bool, NoMemory> {
    let mut store = Store::new(alloc);
    let mut known = Vec::new(alloc);
    let mut mark = store.snapshot();
    for step in steps {
        if !taken(alloc, &mut store, &mut known, &mut mark, step)? {
            return Ok(false);
        }
    }
    Ok(true)
}

/// A name for a case, and its steps.
pub type Case = (&'static str, &'static [Step]);

/// The name of the first case of which not all facts hold.
fn first_wrong(alloc: Global, cases: &[Case]) -> Result<Option<&'static str>, NoMemory> {
    for (name, steps) in cases {
        if !all_hold(alloc, steps)? {
            return Ok(Some(name));
        }
    }
    Ok(None)
}

/// A failure that names the first case of which not all facts hold, if there is one.
pub fn all_right(alloc: Global, cases: &[Case]) -> Result<(), Fail> {
    match first_wrong(alloc, cases)? {
        None => Ok(()),
        Some(name) => Err(Fail::new(name)),
    }
}
