//! Pairs of types, unified in the store and by substitution.
use crate::checked::{NO_SCOPE, arrow, clash, con, put, root, tuple, var, view};
use crate::robinson::{are_alike, arity, end_of, is_variable, part, unified};
use level_unify::ClashKind;
use std::alloc::{AllocError, Global};
use std::test::Fail;
use type_nodes::{NoMemory, NodeRef, Origin, Store, View};

// What has a node of its own in a store: the rigid variables, and the variables after them. Their nodes are the store's first.
const NAMED: &[u8] = b"QRabcduv";

// u has the scope 5 and v the scope 7; the others have the one that limits nothing.
fn scope_of(name: u8) -> u64 {
    match name {
        b'u' => 5,
        b'v' => 7,
        _ => NO_SCOPE,
    }
}

// The constructors by the first numbers of their origins: E was made first, then F and N; the others are built in.
fn number_of(head: u8) -> u64 {
    match head {
        b'E' => 4,
        b'F' => 6,
        b'N' => 8,
        b'I' => NO_SCOPE,
        b'J' => NO_SCOPE - 1,
        b'S' => NO_SCOPE - 2,
        b'L' => NO_SCOPE - 3,
        _ => NO_SCOPE - 4,
    }
}

// I and J have one name, and so have L and M.
fn name_of(head: u8) -> &'static str {
    match head {
        b'I' | b'J' => "int",
        b'L' | b'M' => "list",
        b'S' => "string",
        _ => "t",
    }
}

// How the nodes of a type are made: a node of its own for each place, or one for each type.
#[derive(Clone, Copy)]
enum Sharing {
    Places,
    Types,
}

// Makes the nodes that have names.
fn name_nodes(store: &mut Store) -> Result<(), NoMemory> {
    for name in NAMED {
        if is_variable(*name) {
            var(store, 1, scope_of(*name))?;
        } else {
            store.rigid()?;
        }
    }
    Ok(())
}

fn named(head: u8) -> Option<NodeRef> {
    for (number, name) in NAMED.iter().enumerate() {
        if *name == head {
            return Some(NodeRef(number as u64));
        }
    }
    None
}

fn node_at(nodes: &[NodeRef], place: usize) -> Result<NodeRef, NoMemory> {
    nodes.get(place).copied().ok_or(AllocError)
}

// The nodes of the parts of a type, from those of the places after its head.
fn parts_at(
    alloc: Global,
    nodes: &[NodeRef],
    term: &[u8],
    at: usize,
    head: u8,
) -> Result<Vec<NodeRef>, NoMemory> {
    let mut parts = Vec::new(alloc);
    let mut place = at.saturating_add(1);
    for _part in 0..arity(head) {
        put(&mut parts, node_at(nodes, place)?)?;
        place = end_of(term, place);
    }
    Ok(parts)
}

fn make(
    alloc: Global,
    store: &mut Store,
    head: u8,
    parts: &[NodeRef],
) -> Result<NodeRef, NoMemory> {
    if let Some(node) = named(head) {
        return Ok(node);
    }
    match head {
        b'>' if parts.len() == 2 => arrow(store, parts[0], parts[1]),
        b'2' | b'3' | b'4' => tuple(store, parts),
        _ => con(alloc, store, (number_of(head), name_of(head)), parts),
    }
}

// The node of an equal type at a later place, if there is one.
fn found(term: &[u8], at: usize, nodes: &[NodeRef]) -> Option<NodeRef> {
    for other in at.saturating_add(1)..term.len() {
        if part(term, other) == part(term, at) {
            return nodes.get(other).copied();
        }
    }
    None
}

fn make_at(
    alloc: Global,
    store: &mut Store,
    nodes: &[NodeRef],
    term: &[u8],
    at: usize,
    sharing: Sharing,
) -> Result<NodeRef, NoMemory> {
    let Some(head) = term.get(at).copied() else {
        return Err(AllocError);
    };
    match (found(term, at, nodes), sharing) {
        (Some(node), Sharing::Types) => Ok(node),
        _ => make(alloc, store, head, &parts_at(alloc, nodes, term, at, head)?),
    }
}

// Makes the nodes of the types of a text from its end, one for each place.
fn build(
    alloc: Global,
    store: &mut Store,
    term: &[u8],
    sharing: Sharing,
) -> Result<Vec<NodeRef>, NoMemory> {
    let mut nodes = vec![in alloc; NodeRef(0); term.len()]?;
    for at in (0..term.len()).rev() {
        let node = make_at(alloc, store, &nodes, term, at, sharing)?;
        if let Some(place) = nodes.get_mut(at) {
            *place = node;
        }
    }
    Ok(nodes)
}

fn push_parts(stack: &mut Vec<NodeRef>, parts: &[NodeRef]) -> Result<(), NoMemory> {
    for part in parts.iter().rev() {
        put(stack, *part)?;
    }
    Ok(())
}

// The name of a root, the first one where it has several.
fn name_at(store: &Store, node: NodeRef) -> u8 {
    for (number, name) in NAMED.iter().enumerate() {
        if root(store, NodeRef(number as u64)) == root(store, node) {
            return *name;
        }
    }
    b'?'
}

fn constructor_of(origin: &Origin) -> u8 {
    for head in b"EFNIJSLM" {
        if origin.path.first() == Some(&number_of(*head)) {
            return *head;
        }
    }
    b'?'
}

fn tuple_of(parts: usize) -> u8 {
    match parts {
        2 => b'2',
        3 => b'3',
        _ => b'4',
    }
}

// Puts the parts of a node on the stack, and gives its head.
fn opened(store: &Store, stack: &mut Vec<NodeRef>, node: NodeRef) -> Result<u8, NoMemory> {
    match view(store, node) {
        Some(View::Var { .. }) | Some(View::Rigid(_)) => Ok(name_at(store, node)),
        Some(View::Arrow(from, to)) => {
            push_parts(stack, &[from, to])?;
            Ok(b'>')
        }
        Some(View::Tuple(parts)) => {
            push_parts(stack, parts)?;
            Ok(tuple_of(parts.len()))
        }
        Some(View::Con(origin, args)) => {
            push_parts(stack, args)?;
            Ok(constructor_of(origin))
        }
        None => Err(AllocError),
    }
}

// The types that some nodes read as.
fn read_back(alloc: Global, store: &Store, nodes: &[NodeRef]) -> Result<Vec<u8>, NoMemory> {
    let mut stack = Vec::new(alloc);
    let mut out = Vec::new(alloc);
    push_parts(&mut stack, nodes)?;
    for _turn in 0..200 {
        match stack.pop() {
            Some(node) => out.push(opened(store, &mut stack, node)?)?,
            None => return Ok(out),
        }
    }
    Err(AllocError)
}

// Two types, and what keeps them apart; None where they can be made one.
type Row = (&'static str, &'static str, Option<ClashKind>);

const ROWS: &[Row] = &[
    ("a", "a", None),
    ("a", "b", None),
    ("a", "I", None),
    ("R", "R", None),
    ("a", "R", None),
    (">aI", ">bb", None),
    (">ab", ">ba", None),
    ("2aI", "2SI", None),
    ("2ab", "2bI", None),
    ("2aa", "2>bc>cb", None),
    ("2>ab>ab", "2>ISc", None),
    ("3abc", "3bca", None),
    ("LLa", "Lb", None),
    ("4abcd", "42bb2cc2ddI", None),
    ("v", "E", None),
    ("v", "F", None),
    ("2uv", "2Eu", None),
    ("3>vavu", "3>LIbbc", None),
    ("I", "S", Some(ClashKind::Shape)),
    ("I", "J", Some(ClashKind::Shape)),
    ("LI", "MI", Some(ClashKind::Shape)),
    ("La", "Mb", Some(ClashKind::Shape)),
    ("LI", "LS", Some(ClashKind::Shape)),
    ("LI", "I", Some(ClashKind::Shape)),
    (">II", "2II", Some(ClashKind::Shape)),
    ("2II", "3III", Some(ClashKind::Shape)),
    ("2ab", "3abc", Some(ClashKind::Shape)),
    ("2aI", "2IS", Some(ClashKind::Shape)),
    (">aa", ">IS", Some(ClashKind::Shape)),
    ("R", "Q", Some(ClashKind::Shape)),
    ("2aa", "2RQ", Some(ClashKind::Shape)),
    ("R", "I", Some(ClashKind::Shape)),
    ("La", "LLa", Some(ClashKind::Shape)),
    ("2ab", "2LbLa", Some(ClashKind::Shape)),
    ("2vN", "2NI", Some(ClashKind::Shape)),
    ("a", ">aa", Some(ClashKind::Cycle)),
    (">aI", "a", Some(ClashKind::Cycle)),
    ("v", "2vN", Some(ClashKind::Cycle)),
    ("v", "N", Some(ClashKind::Scope)),
    ("v", "LN", Some(ClashKind::Scope)),
    ("v", "R", Some(ClashKind::Scope)),
    ("u", "F", Some(ClashKind::Scope)),
    ("2uv", "2vF", Some(ClashKind::Scope)),
    ("2va", "2aN", Some(ClashKind::Scope)),
];

fn joined(alloc: Global, row: &Row) -> Result<Vec<u8>, NoMemory> {
    let mut both = row.0.as_bytes().to_vec(alloc)?;
    both.extend_from_slice(row.1.as_bytes())?;
    Ok(both)
}

// The nodes of a pair.
fn roots(nodes: &[NodeRef], row: &Row) -> Result<[NodeRef; 2], NoMemory> {
    Ok([node_at(nodes, 0)?, node_at(nodes, row.0.len())?])
}

fn built(
    alloc: Global,
    store: &mut Store,
    row: &Row,
    sharing: Sharing,
) -> Result<[NodeRef; 2], NoMemory> {
    name_nodes(store)?;
    let both = joined(alloc, row)?;
    roots(&build(alloc, store, &both, sharing)?, row)
}

// What both nodes of a pair read as after they were to be unified; None where it isn't the row's clash that keeps them apart.
fn answer(alloc: Global, row: &Row, sharing: Sharing) -> Result<Option<Vec<u8>>, NoMemory> {
    let mut store = Store::new(alloc);
    let [left, right] = built(alloc, &mut store, row, sharing)?;
    if clash(alloc, &mut store, left, right)? != row.2 {
        return Ok(None);
    }
    Ok(Some(read_back(alloc, &store, &[left, right])?))
}

// Whether this is what substitution finds for two types: they are one now, or as they were.
fn is_found(
    alloc: Global,
    both: &[u8],
    clash: Option<ClashKind>,
    read: &[u8],
) -> Result<bool, NoMemory> {
    let found = unified(alloc, both)?;
    Ok(match (found, clash) {
        (Some(found), None) => are_alike(read, &found),
        (Some(_), Some(ClashKind::Scope)) => are_alike(read, both),
        (None, Some(ClashKind::Shape | ClashKind::Cycle)) => are_alike(read, both),
        _ => false,
    })
}

// Unifies a pair in a new store, and compares the answer and what is read then with the row and with the substitution.
fn agrees(alloc: Global, row: &Row, sharing: Sharing) -> Result<bool, NoMemory> {
    match answer(alloc, row, sharing)? {
        Some(read) => is_found(alloc, &joined(alloc, row)?, row.2, &read),
        None => Ok(false),
    }
}

#[test]
fn pairs_of_types(rt: HostRuntime) -> Result<(), Fail> {
    for row in ROWS {
        assert!(rt;
            agrees(rt.alloc(), row, Sharing::Places)?,
            "{} and {}",
            row.0,
            row.1
        );
        assert!(rt;
            agrees(rt.alloc(), row, Sharing::Types)?,
            "{} and {}, shared",
            row.0,
            row.1
        );
    }
    Ok(())
}
