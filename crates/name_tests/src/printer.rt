//! How types are printed, and which names origins have.
ghost use Rattle.std.specs.Prelude.{◌≡◌, true, All};
ghost use Rattle.type_nodes.specs.Nodes.{IsNode};
ghost use Rattle.type_nodes.specs.Views.{numbers};

use crate::entries::{Made, Step, origin, with};
use env_table::Env;
use std::alloc::{AllocError, Global};
use std::test::Fail;
use text_terms::RcStr;
use type_nodes::{NoMemory, NodeRef, Store};
use type_print::*;

#[cycle(are_nodes)]
#[tactic(auto, using(type_print::proofs::Numbers::all_more))]
fn are_nodes(store: &Store, nodes: &[NodeRef]) -> bool
    ensures { result ≡ true → All (IsNode store.now.nodes) (numbers nodes.now) }
{
    match nodes {
        [] => true,
        [first, rest @ ..] => is_node(store, *first) && are_nodes(store, rest),
    }
}

fn is_node(store: &Store, node: NodeRef) -> bool
    ensures { result ≡ true → IsNode store.now.nodes node.0 }
{
    (node.0 as usize) < store.len()
}

fn tuple(store: &mut Store, parts: &[NodeRef]) -> Result<NodeRef, NoMemory> {
    if are_nodes(store, parts) {
        store.tuple(parts)
    } else {
        Err(AllocError)
    }
}

fn arrow(store: &mut Store, from: NodeRef, to: NodeRef) -> Result<NodeRef, NoMemory> {
    if is_node(store, from) && is_node(store, to) {
        store.arrow(from, to)
    } else {
        Err(AllocError)
    }
}

fn con(
    alloc: Global,
    store: &mut Store,
    made: Made,
    args: &[NodeRef],
) -> Result<NodeRef, NoMemory> {
    let origin = origin(alloc, made)?;
    if are_nodes(store, args) {
        store.con(&origin, args)
    } else {
        Err(AllocError)
    }
}

fn put(nodes: &mut Vec<NodeRef>, node: NodeRef) -> Result<(), NoMemory> {
    Ok(nodes.push(node)?)
}

/// Makes the first nodes of a store: two variables, a rigid one and a bound one.
fn name_nodes(store: &mut Store) -> Result<(), NoMemory> {
    store.var(1, 0)?;
    store.var(1, 0)?;
    store.rigid()?;
    let bound = store.var(1, 0)?;
    store.quantify(bound)
}

fn pop(nodes: &mut Vec<NodeRef>) -> Result<NodeRef, NoMemory> {
    nodes.pop().ok_or(AllocError)
}

fn taken(alloc: Global, from: &mut Vec<NodeRef>, count: usize) -> Result<Vec<NodeRef>, NoMemory> {
    let mut nodes = Vec::new(alloc);
    for _ in 0..count {
        put(&mut nodes, pop(from)?)?;
    }
    Ok(nodes)
}

/// The node of a head whose parts are the last nodes: `a` and `b` are variables, `q` is a bound one and `r` a rigid one.
fn made(
    alloc: Global,
    store: &mut Store,
    from: &mut Vec<NodeRef>,
    head: u8,
) -> Result<NodeRef, NoMemory> {
    match head {
        b'a' => Ok(NodeRef(0)),
        b'b' => Ok(NodeRef(1)),
        b'r' => Ok(NodeRef(2)),
        b'q' => Ok(NodeRef(3)),
        b'>' => arrow(store, pop(from)?, pop(from)?),
        b'2' => tuple(store, &taken(alloc, from, 2)?),
        b'4' => tuple(store, &taken(alloc, from, 4)?),
        b'L' => con(alloc, store, (2, "list"), &[pop(from)?]),
        b'T' => con(alloc, store, (3, "table"), &taken(alloc, from, 2)?),
        _ => con(alloc, store, (1, "int"), &[]),
    }
}

/// The nodes of a text in prefix order, the first one last.
fn nodes(alloc: Global, store: &mut Store, text: &str) -> Result<Vec<NodeRef>, NoMemory> {
    let mut nodes = Vec::new(alloc);
    for head in text.as_bytes().iter().rev() {
        let node = made(alloc, store, &mut nodes, *head)?;
        put(&mut nodes, node)?;
    }
    Ok(nodes)
}

/// How a type is made.
enum Type {
    /// By a text in prefix order
    Written(&'static str),
    /// A tuple of so many variables
    Variables(u32),
    /// (x, x) of a variable, so many times: as a tree it has as many parts as that power of two
    Doubled(u32),
    /// int list list .., so many times
    Lists(u32),
}

fn variables(alloc: Global, store: &mut Store, count: u32) -> Result<NodeRef, NoMemory> {
    let mut nodes = Vec::new(alloc);
    for _ in 0..count {
        put(&mut nodes, store.var(1, 0)?)?;
    }
    tuple(store, &nodes)
}

fn doubled(store: &mut Store, count: u32) -> Result<NodeRef, NoMemory> {
    let mut node = NodeRef(0);
    for _ in 0..count {
        node = tuple(store, &[node, node])?;
    }
    Ok(node)
}

fn lists(alloc: Global, store: &mut Store, count: u32) -> Result<NodeRef, NoMemory> {
    let mut node = con(alloc, store, (1, "int"), &[])?;
    for _ in 0..count {
        node = con(alloc, store, (2, "list"), &[node])?;
    }
    Ok(node)
}

fn node(alloc: Global, store: &mut Store, of: &Type) -> Result<NodeRef, NoMemory> {
    match of {
        Type::Written(text) => pop(&mut nodes(alloc, store, text)?),
        Type::Variables(count) => variables(alloc, store, *count),
        Type::Doubled(count) => doubled(store, *count),
        Type::Lists(count) => lists(alloc, store, *count),
    }
}

fn printed(alloc: Global, store: &Store, n: NodeRef, weak: &[NodeRef]) -> Result<RcStr, NoMemory> {
    let env = plain(alloc)?;
    if is_node(store, n) && are_nodes(store, weak) {
        print_type(alloc, store, n, &env, weak)
    } else {
        Err(AllocError)
    }
}

fn printed_two(
    alloc: Global,
    store: &Store,
    first: NodeRef,
    second: NodeRef,
) -> Result<(RcStr, RcStr), NoMemory> {
    let env = plain(alloc)?;
    if is_node(store, first) && is_node(store, second) {
        print_two(alloc, store, first, second, &env)
    } else {
        Err(AllocError)
    }
}

/// What is asked of the printer, with the answer.
enum Asked {
    /// The text of a type
    Text(Type, &'static str),
    /// The text of a type in which the variable a is weak
    Weak(Type, &'static str),
    /// The texts of b and of a, which share their variables
    Two(&'static str, &'static str),
    /// How the text of a type begins and ends
    Long(Type, &'static str, &'static str),
    /// The same, and that it is cut: it has 4099 bytes
    Cut(Type, &'static str, &'static str),
}

/// int, list and table.
const PLAIN: &[Step] = &[
    Step::Type("int", Some((1, "int")), Some((1, "int")), 0),
    Step::Type("list", Some((2, "list")), Some((2, "list")), 0),
    Step::Type("table", Some((3, "table")), Some((3, "table")), 0),
];

const TEXTS: &[Asked] = &[
    // arrows are in parentheses
    Asked::Text(Type::Written(">>abb"), "('a -> 'b) -> 'b"),
    Asked::Text(Type::Written(">a>ab"), "'a -> 'a -> 'b"),
    Asked::Text(Type::Written("L>ab"), "('a -> 'b) list"),
    // and so are tuples
    Asked::Text(Type::Written("22aaa"), "('a * 'a) * 'a"),
    Asked::Text(Type::Written(">2aa2aa"), "'a * 'a -> 'a * 'a"),
    Asked::Text(Type::Written("TL2aa2aa"), "(('a * 'a) list, 'a * 'a) table"),
    // bound and rigid variables print as others; weak ones have names of their own
    Asked::Text(Type::Written("4rqaq"), "'a * 'b * 'c * 'b"),
    Asked::Weak(Type::Written("4rqaq"), "'a * 'b * '_weak1 * 'b"),
    Asked::Two("'a", "'b"),
    // letters have numbers after z
    Asked::Long(
        Type::Variables(54),
        "'a * 'b * 'c * ",
        "'z * 'a1 * 'b1 * 'c1 * 'd1 * 'e1 * 'f1 * 'g1 * 'h1 * 'i1 * 'j1 * 'k1 * 'l1 * 'm1 * 'n1 * 'o1 * 'p1 * 'q1 * 'r1 * 's1 * 't1 * 'u1 * 'v1 * 'w1 * 'x1 * 'y1 * 'z1 * 'a2 * 'b2",
    ),
    // long texts are cut at once: a type with 2^40 parts as a tree, and one with 20,000 constructors in each other
    Asked::Cut(
        Type::Doubled(40),
        "((((((((((((((((((((((((((((((((((((((('a * 'a) * ('a * 'a)) * ",
        "...",
    ),
    Asked::Cut(
        Type::Lists(20_000),
        "int list list list list",
        " list li...",
    ),
];

fn text(alloc: Global, of: &Type, weak: &[NodeRef]) -> Result<RcStr, NoMemory> {
    let mut store = Store::new(alloc);
    name_nodes(&mut store)?;
    let node = node(alloc, &mut store, of)?;
    printed(alloc, &store, node, weak)
}

fn is_between(text: &RcStr, start: &str, end: &str) -> bool {
    text.as_str().starts_with(start) && text.as_str().ends_with(end)
}

fn are_two(alloc: Global, first: &str, second: &str) -> Result<bool, NoMemory> {
    let mut store = Store::new(alloc);
    name_nodes(&mut store)?;
    let texts = printed_two(alloc, &store, NodeRef(1), NodeRef(0))?;
    Ok(texts.0.is(first) && texts.1.is(second))
}

fn is_answered(alloc: Global, asked: &Asked) -> Result<bool, NoMemory> {
    match asked {
        Asked::Text(of, wanted) => Ok(text(alloc, of, &[])?.is(wanted)),
        Asked::Weak(of, wanted) => Ok(text(alloc, of, &[NodeRef(0)])?.is(wanted)),
        Asked::Two(first, second) => are_two(alloc, first, second),
        Asked::Long(of, start, end) => Ok(is_between(&text(alloc, of, &[])?, start, end)),
        Asked::Cut(of, start, end) => {
            let text = text(alloc, of, &[])?;
            Ok(text.as_str().len() == 4099 && is_between(&text, start, end))
        }
    }
}

#[test]
fn texts(rt: HostRuntime) -> Result<(), Fail> {
    for (i, asked) in TEXTS.iter().enumerate() {
        assert!(rt; is_answered(rt.alloc(), asked)?, "text {i}");
    }
    Ok(())
}

/// A name for a case, what comes after int, list and table, and the name of the type t of the origin 7 then.
type Named = (&'static str, &'static [Step], &'static str);

const SEVEN: Option<Made> = Some((7, "t"));

const EIGHT: Option<Made> = Some((8, "t"));

const OTHER: Option<Made> = Some((8, "u"));

const NAMES: &[Named] = &[
    // a shorter and a newer path names an origin
    ("nothing", &[], "t/hidden"),
    (
        "a module in a module",
        &[
            Step::Type("t", SEVEN, SEVEN, 0),
            Step::Structure("N", 1, 0),
            Step::Structure("M", 1, 0),
        ],
        "M.N.t",
    ),
    (
        "newer modules",
        &[
            Step::Type("t", SEVEN, SEVEN, 0),
            Step::Structure("N", 1, 0),
            Step::Structure("M", 1, 0),
            Step::Type("t", SEVEN, SEVEN, 0),
            Step::Structure("O", 1, 0),
            Step::Type("t", SEVEN, SEVEN, 0),
            Step::Structure("P", 1, 0),
        ],
        "P.t",
    ),
    // an abbreviation names no origin, and hides none in a module
    (
        "a type",
        &[
            Step::Type("t", SEVEN, SEVEN, 0),
            Step::Structure("M", 1, 0),
            Step::Type("t", SEVEN, SEVEN, 0),
        ],
        "t",
    ),
    (
        "an abbreviation",
        &[
            Step::Type("t", SEVEN, SEVEN, 0),
            Step::Structure("M", 1, 0),
            Step::Type("t", SEVEN, SEVEN, 0),
            Step::Type("t", None, SEVEN, 0),
        ],
        "M.t",
    ),
    // a newer module of the same name hides the one that has the type, and a newer type hides it there
    (
        "hidden in a module",
        &[
            Step::Type("t", SEVEN, SEVEN, 0),
            Step::Structure("M", 1, 0),
            Step::Type("t", SEVEN, SEVEN, 0),
            Step::Type("t", EIGHT, EIGHT, 0),
            Step::Structure("N", 2, 0),
        ],
        "M.t",
    ),
    (
        "a hidden module",
        &[
            Step::Type("t", SEVEN, SEVEN, 0),
            Step::Structure("M", 1, 0),
            Step::Type("t", SEVEN, SEVEN, 0),
            Step::Type("t", EIGHT, EIGHT, 0),
            Step::Structure("N", 2, 0),
            Step::Type("t", EIGHT, EIGHT, 0),
            Step::Structure("M", 1, 0),
        ],
        "t/hidden",
    ),
    // a type names its origin by the name that it has in scope, whatever its declaration named it
    (
        "another name in a module",
        &[Step::Type("u", SEVEN, SEVEN, 0), Step::Structure("M", 1, 0)],
        "M.u",
    ),
    (
        "another name",
        &[
            Step::Type("u", SEVEN, SEVEN, 0),
            Step::Structure("M", 1, 0),
            Step::Type("v", SEVEN, SEVEN, 0),
        ],
        "v",
    ),
    // of the names that an origin has in one scope the newest is its name
    (
        "the newer of two names in a module",
        &[
            Step::Type("u", SEVEN, SEVEN, 0),
            Step::Type("t", SEVEN, SEVEN, 0),
            Step::Structure("M", 2, 0),
        ],
        "M.t",
    ),
    (
        "the newer of two names",
        &[
            Step::Type("u", SEVEN, SEVEN, 0),
            Step::Type("t", SEVEN, SEVEN, 0),
            Step::Structure("M", 2, 0),
            Step::Type("t", SEVEN, SEVEN, 0),
            Step::Type("u", SEVEN, SEVEN, 0),
        ],
        "u",
    ),
    // a name that a newer type has names no origin of an older one
    (
        "a hidden name in a module",
        &[
            Step::Type("u", SEVEN, SEVEN, 0),
            Step::Type("u", OTHER, OTHER, 0),
            Step::Structure("M", 2, 0),
        ],
        "t/hidden",
    ),
    (
        "a hidden name",
        &[
            Step::Type("u", SEVEN, SEVEN, 0),
            Step::Type("u", OTHER, OTHER, 0),
            Step::Structure("M", 2, 0),
            Step::Type("t", SEVEN, SEVEN, 0),
            Step::Type("u", SEVEN, SEVEN, 0),
            Step::Type("u", OTHER, OTHER, 0),
        ],
        "t",
    ),
    (
        "both names hidden",
        &[
            Step::Type("u", SEVEN, SEVEN, 0),
            Step::Type("u", OTHER, OTHER, 0),
            Step::Structure("M", 2, 0),
            Step::Type("t", SEVEN, SEVEN, 0),
            Step::Type("u", SEVEN, SEVEN, 0),
            Step::Type("u", OTHER, OTHER, 0),
            Step::Type("t", None, SEVEN, 0),
        ],
        "t/hidden",
    ),
];

fn plain(alloc: Global) -> Result<Env, NoMemory> {
    with(alloc, Env::empty(), PLAIN)
}

fn is_named(alloc: Global, steps: &[Step], text: &str) -> Result<bool, NoMemory> {
    let env = with(alloc, plain(alloc)?, steps)?;
    let t = origin(alloc, (7, "t"))?;
    Ok(name_of(alloc, &t, &env)?.is(text))
}

#[test]
fn names(rt: HostRuntime) -> Result<(), Fail> {
    for (name, steps, text) in NAMES {
        assert!(rt; is_named(rt.alloc(), steps, text)?, "{name}");
    }
    Ok(())
}
