//! The text of a type.
ghost use Rattle.std.specs.Prelude.{◌≡◌, All, OnOk};
ghost use Rattle.std.specs.Prelude.{◌++◌, ◌∷◌, [], List, ℕ, false, Option, None, string_bytes, IfOk, IfSome, option_map};
ghost use Rattle.text_terms.specs.Bytes.{str_bytes};
ghost use Rattle.type_model.specs.Types.{Path};
ghost use Rattle.type_terms.specs.Views.{path_of};
ghost use Rattle.type_print_model.specs.Variables.{letter_name, variable_name, variables_of};
ghost use Rattle.type_print_model.specs.Printing.{Names, text_of, cut, alone};
ghost use Rattle.type_print.specs.Shown.{shown};
ghost use Rattle.type_print.specs.Paths.{name_in};
ghost use Rattle.type_print.specs.Texts.{name_text, PrintsWith, PrintsBy, PrintsIn, PrintsTwoIn, KnownAre, AreKnown, IsDeclared, IsLast, is_known, Speaks, Writes, said};
ghost use Rattle.type_nodes.specs.Nodes.{Node, IsNode, IsSound};
ghost use Rattle.type_nodes.specs.Views.{numbers};
ghost use Rattle.type_print.specs.Meeting.{roots_of};
ghost use Rattle.type_print.specs.Pieces.{parts_of, part_of, opened, IsPart};

use crate::cut::{MOST_SHOWN, cut, push};
use crate::paths::name_of;
use crate::pieces::{Piece, Pieces, Within};
use crate::variables::{VariableName, Variables};
use env_table::Env;
use std::alloc::{AllocError, Global};
use text_terms::RcStr;
use type_nodes::{NoMemory, NodeRef, Origin, Store, View};

/// The text of a node's type, with the paths that are in scope. Its variables are named by first occurrence; those of `weak` have
/// names of their own.
pub fn print_type(
    alloc: Global,
    store: &Store,
    n: NodeRef,
    env: &Env,
    weak: &[NodeRef],
) -> Result<RcStr, NoMemory>
    requires node { IsNode store.now.nodes n.0 }
    requires weak { All (IsNode store.now.nodes) (numbers weak.now) }
    ensures text { IfOk result (λ r. PrintsWith store.now.nodes env.now (variable_name (roots_of store.now.nodes (numbers weak.now)) (variables_of (shown store.now.nodes n.0))) (shown store.now.nodes n.0) (str_bytes r)) }
    ensures defined { IfOk result (λ r. PrintsBy store.now.nodes env.now (roots_of store.now.nodes (numbers weak.now)) (variables_of (shown store.now.nodes n.0)) (shown store.now.nodes n.0) (str_bytes r)) }
    ensures inside { IfOk result (λ r. PrintsIn store.now.nodes env.now (roots_of store.now.nodes (numbers weak.now)) (variables_of (shown store.now.nodes n.0)) (shown store.now.nodes n.0) (str_bytes r)) }
{
    let mut variables = Variables::new(alloc, store, weak)?;
    variables.meet(alloc, store, n)?;
    let (text, _) = text_of(alloc, store, n, env, &variables, Vec::new(alloc))?;
    Ok(text)
}

/// The texts of two types that share the names of their variables, the first type first, and of their origins.
pub fn print_two(
    alloc: Global,
    store: &Store,
    first: NodeRef,
    second: NodeRef,
    env: &Env,
) -> Result<(RcStr, RcStr), NoMemory>
    requires first { IsNode store.now.nodes first.0 }
    requires second { IsNode store.now.nodes second.0 }
    ensures first { IfOk result (λ r. PrintsWith store.now.nodes env.now (variable_name [] (variables_of (shown store.now.nodes first.0) ++ variables_of (shown store.now.nodes second.0))) (shown store.now.nodes first.0) (str_bytes r.0)) }
    ensures second { IfOk result (λ r. PrintsWith store.now.nodes env.now (variable_name [] (variables_of (shown store.now.nodes first.0) ++ variables_of (shown store.now.nodes second.0))) (shown store.now.nodes second.0) (str_bytes r.1)) }
    ensures defined { IfOk result (λ r. let all = variables_of (shown store.now.nodes first.0) ++ variables_of (shown store.now.nodes second.0) in
        PrintsBy store.now.nodes env.now [] all (shown store.now.nodes first.0) (str_bytes r.0) × PrintsBy store.now.nodes env.now [] all (shown store.now.nodes second.0) (str_bytes r.1)) }
    ensures inside { IfOk result (λ r. PrintsTwoIn store.now.nodes env.now (shown store.now.nodes first.0) (shown store.now.nodes second.0) (str_bytes r.0) (str_bytes r.1)) }
{
    let mut variables = Variables::new(alloc, store, &[])?;
    variables.meet(alloc, store, first)?;
    variables.meet(alloc, store, second)?;
    let (left, known) = text_of(alloc, store, first, env, &variables, Vec::new(alloc))?;
    let (right, _) = text_of(alloc, store, second, env, &variables, known)?;
    Ok((left, right))
}

/// An origin by its path, and its name.
#[derive(Drop)]
struct Known {
    path: Vec<u64>,
    name: RcStr,
}

/// A text that is being written.
#[derive(Drop)]
struct Written {
    text: String,
    left: Pieces,
    /// The origins that were named.
    known: Vec<Known>,
}

/// The text of a node's type, whose variables were met, and the origins that are named then. It stops where the text is too long to be
/// shown whole.
fn text_of(
    alloc: Global,
    store: &Store,
    n: NodeRef,
    env: &Env,
    variables: &Variables,
    known: Vec<Known>,
) -> Result<(RcStr, Vec<Known>), NoMemory>
    requires { IsNode store.now.nodes n.0 }
    ensures known { IfOk result (λ r. AreKnown store.now.nodes env.now known.items → AreKnown store.now.nodes env.now r.1.items) }
    ensures text { IfOk result (λ r. Writes variables.now known.items r.1.items (shown store.now.nodes n.0) (str_bytes r.0)) }
{
    let mut written = Written {
        text: String::new(alloc),
        left: Pieces {
            list: Vec::new(alloc),
        },
        known,
    };
    written.left.add(Piece::Type(store.root(n), Within::Alone))?;
    while written.text.len() <= MOST_SHOWN {
        match written.left.take_next() {
            None => break,
            Some(piece) => write_piece(alloc, store, env, variables, &mut written, piece)?,
        }
    }
    let text = cut(alloc, written.text)?;
    Ok((text, written.known))
}

fn write_piece(
    alloc: Global,
    store: &Store,
    env: &Env,
    variables: &Variables,
    written: &mut Written,
    piece: Piece,
) -> Result<(), NoMemory>
    requires part { IsPart store.now.nodes (part_of piece) }
    requires sound { IsSound store.now.nodes }
    ensures left { OnOk result (parts_of written.new.left ≡ opened store.now.nodes (part_of piece) (parts_of written.old.left)) }
    ensures known { OnOk result (AreKnown store.now.nodes env.now written.old.known.items → AreKnown store.now.nodes env.now written.new.known.items) }
    ensures text { OnOk result ((ns : Names) → Speaks variables.now written.new.known.items ns →
        (string_bytes written.new.text ≡ string_bytes written.old.text ++ said store.now.nodes ns (part_of piece)) × Speaks variables.now written.old.known.items ns) }
{
    match piece {
        Piece::Sign(sign) => push(&mut written.text, sign.text()),
        Piece::Head(node) => match store.read(node) {
            View::Con(origin, _) => {
                write_name(alloc, env, written, origin)?;
                Ok(())
            }
            _ => Ok(()),
        },
        Piece::Type(node, within) => match store.read(node) {
            View::Var { .. } | View::Rigid(_) => {
                write_variable(alloc, &mut written.text, variables.name(store.root(node)))
            }
            View::Arrow(from, to) => written.left.add_arrow(from, to, within),
            View::Tuple(parts) => written.left.add_tuple(parts, within),
            View::Con(_, args) => written.left.add_constructor(node, args),
        },
    }
}

fn write_variable(
    alloc: Global,
    text: &mut String,
    name: Option<VariableName>,
) -> Result<(), NoMemory>
    ensures { OnOk result (string_bytes text.new ≡ string_bytes text.old ++ name_text name) }
{
    let name = match name {
        None => return Ok(()),
        Some(VariableName::Letter(place)) => letter(alloc, place)?,
        Some(VariableName::Weak(number)) => { format!(in alloc; "'_weak{number}")? }
    };
    push(text, &name)
}

/// `'a` to `'z`, then `'a1` to `'z1`, and so on.
fn letter(alloc: Global, place: u64) -> Result<String, NoMemory>
    ensures { IfOk result (λ s. string_bytes s ≡ letter_name place) }
{
    let letter = char::from(b'a' + (place % 26) as u8);
    let round = place / 26;
    if round == 0 {
        format!(in alloc; "'{letter}")
    } else {
        format!(in alloc; "'{letter}{round}")
    }
}

/// The name of an origin, which is looked for once.
fn write_name(
    alloc: Global,
    env: &Env,
    written: &mut Written,
    origin: &Origin,
) -> Result<(), NoMemory>
    ensures left { OnOk result (parts_of written.new.left ≡ parts_of written.old.left) }
    ensures known { OnOk result ((nodes : List Node) → IsDeclared nodes (path_of origin.now) (str_bytes origin.now.name) → AreKnown nodes env.now written.old.known.items → AreKnown nodes env.now written.new.known.items) }
    ensures text { OnOk result ((f : Path → List ℕ) → KnownAre f written.new.known.items →
        (string_bytes written.new.text ≡ string_bytes written.old.text ++ f (path_of origin.now)) × KnownAre f written.old.known.items) }
{
    if let Some(name) = known_name(&written.known, origin) {
        push(&mut written.text, name.as_str())?;
        return Ok(());
    }
    let name = name_of(alloc, origin, env)?;
    push(&mut written.text, name.as_str())?;
    remember(alloc, &mut written.known, origin, name)?;
    Ok(())
}

fn remember(
    alloc: Global,
    known: &mut Vec<Known>,
    origin: &Origin,
    name: RcStr,
) -> Result<(), NoMemory>
    ensures { OnOk result (IsLast (path_of origin.now) (str_bytes name) known.old.items known.new.items) }
{
    let path = copy_of(alloc, &origin.path)?;
    add_known(known, Known { path, name })?;
    Ok(())
}

fn add_known(known: &mut Vec<Known>, one: Known) -> Result<(), NoMemory>
    ensures { OnOk result (known.new.items ≡ known.old.items ++ one ∷ []) }
{
    known.push(one).map_err(|_| AllocError)
}

fn copy_of(alloc: Global, path: &[u64]) -> Result<Vec<u64>, NoMemory>
    ensures { IfOk result (λ p. p.items ≡ path.now) }
{
    match path.to_vec(alloc) {
        Ok(copy) => Ok(copy),
        Err(_) => Err(AllocError),
    }
}

fn known_name<'a>(known: &'a [Known], origin: &Origin) -> Option<&'a RcStr>
    ensures some { IfSome result (λ n. (f : Path → List ℕ) → KnownAre f known.now → str_bytes n.now ≡ f (path_of origin.now)) }
    ensures none { result ≡ None → is_known (path_of origin.now) known.now ≡ false }
{
    for k in known {
        if k.path == origin.path {
            return Some(&k.name);
        }
    }
    None
}
