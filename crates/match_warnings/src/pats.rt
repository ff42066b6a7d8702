//! Patterns of the tree as rows of a match see them.
ghost use Rattle.std.specs.Prelude.{◌≡◌, ◌++◌, ◌∷◌, List, [], map, codes, decimal, string_bytes, Some, option_map, IfOk, IfSome, OnOk};
ghost use Rattle.text_terms.specs.Bytes.{str_bytes};
ghost use Rattle.type_model.specs.Types as types;
ghost use Rattle.type_terms.specs.Views.{path_of};
ghost use Rattle.syntax_tree.specs.View.{node_view, tok_of};
ghost use Rattle.env_table.specs.Labels.{written_of};
ghost use Rattle.row_parts.specs.Folds.{operand_by};
ghost use Rattle.row_parts.specs.Numbered.{first_in, operand_view, operands_in, path_in, path_view, token_in};
ghost use Rattle.use_typing.specs.Labels.{found_by, label_path};
ghost use Rattle.pattern_matrix.specs.Lines.{Member, any, con, lit, listed};
ghost use Rattle.pattern_matrix.specs.Views.{member_of, members_of, typed_of};
ghost use Rattle.match_warnings.specs.Patterns as rule;
ghost use Rattle.match_warnings.specs.Patterns.{AreShared, Finds, FindsBy, FindsFields, HasMembers, MembersAre, MembersOf, member};

use crate::forms::{Compound, Constant, Form, constant_of, form_of, is_bracketed};
use env_table::{Constructor, Declaration, Entry, Found, Kind, Label, Path, Place, Shape, What};
use owned_lists::{owned, push, shared};
use pattern_matrix::{Built, Pat};
use row_parts::{
    Operand, WrittenPath, first_operand, operand_in, operands, operands_of, token, written_path,
};
use std::alloc::{AllocError, Global};
use std::rc::Rc;
use syntax_tree::{Node, RcStr, Token};
use typing_state::{Depth, Env, NoMemory, Parts, path_of};
use use_typing::labels_in;

fn name_of(alloc: Global, text: &str) -> Result<RcStr, NoMemory>
    ensures { IfOk result (λ r. str_bytes r ≡ text.now) }
{
    RcStr::from_str(alloc, text)
}

fn built(name: RcStr, parts: usize) -> Built
    ensures { member_of result ≡ member (str_bytes name) parts }
{
    Built { name, parts }
}

/// A built-in constructor among all of its type.
fn built_in(
    alloc: Global,
    all: &[(&str, usize)],
    name: &str,
    parts: Vec<Pat>,
) -> Result<Pat, NoMemory>
    ensures { IfOk result (λ p. typed_of p ≡ con (map (λ a. member a.0.now a.1) all.now) name.now (listed (map typed_of parts.items))) }
{
    let mut list = Vec::new(alloc);
    for (other, count) in all {
        push(&mut list, built(name_of(alloc, other)?, *count))?;
    }
    Ok(Pat::Con {
        all: owned(alloc, list)?,
        name: name_of(alloc, name)?,
        parts,
    })
}

/// A constant.
fn constant(alloc: Global, constant: &Token) -> Result<Pat, NoMemory>
    ensures { IfOk result (λ p. typed_of p ≡ rule.constant_pattern (tok_of constant.now)) }
{
    let none = Vec::new(alloc);
    match constant_of(constant.kind) {
        Constant::Unit => built_in(alloc, &[("()", 0)], "()", none),
        Constant::True => built_in(alloc, &[("false", 0), ("true", 0)], "true", none),
        Constant::False => built_in(alloc, &[("false", 0), ("true", 0)], "false", none),
        Constant::Nil => built_in(alloc, &[("[]", 0), ("::", 2)], "[]", none),
        Constant::Literal => Ok(Pat::Literal(constant.name.share()?)),
    }
}

/// A list's cell.
fn cell(alloc: Global, head: Pat, tail: Pat) -> Result<Pat, NoMemory>
    ensures { IfOk result (λ p. typed_of p ≡ rule.cell_of (typed_of head) (typed_of tail)) }
{
    let mut parts = Vec::new(alloc);
    push(&mut parts, head)?;
    push(&mut parts, tail)?;
    built_in(alloc, &[("[]", 0), ("::", 2)], "::", parts)
}

/// The one constructor of its type, which has so many parts.
fn only_constructor(
    alloc: Global,
    name: RcStr,
    count: usize,
    parts: Vec<Pat>,
) -> Result<Pat, NoMemory>
    ensures { IfOk result (λ p. typed_of p ≡ con (member (str_bytes name) count ∷ []) (str_bytes name) (listed (map typed_of parts.items))) }
{
    let mut all = Vec::new(alloc);
    push(&mut all, built(name.share()?, count))?;
    Ok(Pat::Con {
        all: owned(alloc, all)?,
        name,
        parts,
    })
}

/// (p, p)
fn tuple(alloc: Global, parts: Vec<Pat>) -> Result<Pat, NoMemory>
    ensures { IfOk result (λ p. typed_of p ≡ rule.tuple_of (map typed_of parts.items)) }
{
    let count = parts.len();
    only_constructor(alloc, name_of(alloc, "(,)")?, count, parts)
}

/// A type that patterns of a match were of: the path of its origin, and all its constructors.
#[derive(Drop)]
pub struct SeenType {
    path: Vec<u64>,
    all: Rc<Vec<Built>>,
}

/// A copy of a path.
fn copied(alloc: Global, path: &[u64]) -> Result<Vec<u64>, NoMemory>
    ensures { IfOk result (λ v. v.items ≡ path.now) }
{
    let mut copy = Vec::new(alloc);
    for step in path {
        push(&mut copy, *step)?;
    }
    Ok(copy)
}

/// The constructors of an origin, where patterns of a match were of its type.
fn known_constructors<'a>(seen: &'a [SeenType], origin: &[u64]) -> Option<&'a Rc<Vec<Built>>>
    ensures { IfSome result (λ r. (members : types.Path → List Member) → AreShared members seen.now → members_of r.now.value.items ≡ members origin.now) }
{
    for known in seen {
        if known.path.as_slice() == origin {
            return Some(&known.all);
        }
    }
    None
}

/// All constructors of a declaration, by which a match is known to be whole. Where the declaration makes an origin, patterns of the
/// same origin share one list.
fn constructors_of(
    alloc: Global,
    declaration: &Declaration,
    constructors: &[Constructor],
    seen: &mut Vec<SeenType>,
) -> Result<Rc<Vec<Built>>, NoMemory>
    ensures { IfOk result (λ r. FindsBy (λ members. IfSome declaration.now.origin (λ o. map rule.declared_member constructors.now ≡ members (path_of o))) seen.old.items seen.new.items (members_of r.value.items) (map rule.declared_member constructors.now)) }
{
    let Some(origin) = &declaration.origin else {
        return listed(alloc, constructors);
    };
    if let Some(known) = known_constructors(seen, &origin.path) {
        return shared(known);
    }
    let all = listed(alloc, constructors)?;
    let one = SeenType {
        path: copied(alloc, &origin.path)?,
        all: shared(&all)?,
    };
    push(seen, one)?;
    Ok(all)
}

/// The constructors, each with how many parts it has.
fn listed(alloc: Global, constructors: &[Constructor]) -> Result<Rc<Vec<Built>>, NoMemory>
    ensures { IfOk result (λ r. members_of r.value.items ≡ map rule.declared_member constructors.now) }
{
    let mut all = Vec::new(alloc);
    for constructor in constructors {
        let parts = if constructor.has_argument { 1 } else { 0 };
        push(&mut all, built(constructor.name.share()?, parts))?;
    }
    owned(alloc, all)
}

/// The name by which an exception differs from another of its name: with the place where it is defined, in the text.
fn exception_name(alloc: Global, entry: &Entry) -> Result<RcStr, NoMemory>
    ensures { IfOk result (λ r. str_bytes r ≡ rule.exception_named (str_bytes entry.now.name) entry.now.place) }
{
    match entry.place {
        Place::Buffer(span) => name_at(alloc, entry.name.as_str(), span.start),
        Place::Prelude(_) => name_of(alloc, entry.name.as_str()),
        Place::BuiltIn(_) => name_of(alloc, entry.name.as_str()),
    }
}

/// A name with a place.
fn name_at(alloc: Global, name: &str, start: u32) -> Result<RcStr, NoMemory>
    ensures { IfOk result (λ r. str_bytes r ≡ name.now ++ codes " " ++ decimal start) }
{
    match format!(in alloc; "{name} {start}") {
        Ok(text) => RcStr::new(alloc, text),
        Err(_) => Err(AllocError),
    }
}

/// Whether a declaration with constructors or labels re-exports a type that isn't known: it makes no origin, and its type has none.
fn is_of_unknown_type(declaration: &Declaration) -> bool
    ensures { result ≡ rule.is_of_unknown_type declaration.now }
{
    declaration.origin.is_none() && declaration.defines.is_none()
}

/// A constructor that a path names, over its argument. None where it is in a module that isn't known, or re-exports a type that isn't
/// known.
fn constructor(
    at: &Parts,
    env: &Env,
    path: &WrittenPath<'_>,
    last: &Token,
    parts: Vec<Pat>,
    seen: &mut Vec<SeenType>,
) -> Result<Option<Pat>, NoMemory>
    ensures { IfOk result (λ o. Finds env.now seen.old.items seen.new.items (option_map typed_of o) (rule.by_found (rule.constructor_found env.now (path_view path.now) (tok_of last.now)) (tok_of last.now).name (map typed_of parts.items))) }
{
    let named = path_of(at.alloc(), path, last)?;
    match env.lookup(&named, Kind::Constructor) {
        Found::Entry(entry) => of_entry(at.alloc(), entry, &last.name, parts, seen),
        Found::Hole => Ok(None),
        Found::Nothing => Ok(None),
    }
}

/// The constructor of an entry. One of an exception is distinguished by its entry, and never makes up all of its type.
fn of_entry(
    alloc: Global,
    entry: &Entry,
    name: &RcStr,
    parts: Vec<Pat>,
    seen: &mut Vec<SeenType>,
) -> Result<Option<Pat>, NoMemory>
    ensures { IfOk result (λ o. FindsBy (λ members. MembersAre members entry.now.what) seen.old.items seen.new.items (option_map typed_of o) (rule.by_entry entry.now entry.now.what (str_bytes name.now) (map typed_of parts.items))) }
{
    match &entry.what {
        What::Constructor(declaration, _) => declared(alloc, declaration, name, parts, seen),
        _ => exception(alloc, entry, parts),
    }
}

/// An exception over its argument.
fn exception(alloc: Global, entry: &Entry, parts: Vec<Pat>) -> Result<Option<Pat>, NoMemory>
    ensures { IfOk result (λ o. option_map typed_of o ≡ Some (con [] (rule.exception_named (str_bytes entry.now.name) entry.now.place) (listed (map typed_of parts.items)))) }
{
    Ok(Some(Pat::Con {
        all: owned(alloc, Vec::new(alloc))?,
        name: exception_name(alloc, entry)?,
        parts,
    }))
}

/// One of these constructors over its parts.
fn of_constructors(all: Rc<Vec<Built>>, name: RcStr, parts: Vec<Pat>) -> Pat
    ensures { typed_of result ≡ con (members_of all.value.items) (str_bytes name) (listed (map typed_of parts.items)) }
{
    Pat::Con { all, name, parts }
}

/// A constructor of a declaration over its argument.
fn declared(
    alloc: Global,
    declaration: &Declaration,
    name: &RcStr,
    parts: Vec<Pat>,
    seen: &mut Vec<SeenType>,
) -> Result<Option<Pat>, NoMemory>
    ensures { IfOk result (λ o. FindsBy (λ members. MembersOf members declaration.now) seen.old.items seen.new.items (option_map typed_of o) (rule.shaped (rule.is_of_unknown_type declaration.now) declaration.now.shape (str_bytes name.now) (map typed_of parts.items))) }
{
    if is_of_unknown_type(declaration) {
        return Ok(None);
    }
    match &declaration.shape {
        Shape::Variant(constructors) => Ok(Some(of_constructors(
            constructors_of(alloc, declaration, constructors, seen)?,
            name.share()?,
            parts,
        ))),
        _ => Ok(None),
    }
}

/// The labels of a declaration in braces, the name of the one constructor that a record is.
fn record_name(alloc: Global, labels: &[Label]) -> Result<RcStr, NoMemory>
    ensures { IfOk result (λ r. str_bytes r ≡ rule.record_named labels.now) }
{
    let mut text = String::from_str(alloc, "{")?;
    put_joined(&mut text, labels)?;
    text.push_str("}")?;
    RcStr::new(alloc, text)
}

/// Puts the names of labels after a text, with marks between them.
fn put_joined(text: &mut String, labels: &[Label]) -> Result<(), NoMemory>
    ensures { OnOk result (string_bytes text.new ≡ string_bytes text.old ++ rule.joined labels.now) }
{
    match labels.split_first() {
        None => Ok(()),
        Some((first, rest)) => {
            text.push_str(first.name.as_str())?;
            put_later(text, rest)
        }
    }
}

/// Puts the names of labels after a text, each with a mark before it.
fn put_later(text: &mut String, labels: &[Label]) -> Result<(), NoMemory>
    ensures { OnOk result (string_bytes text.new ≡ string_bytes text.old ++ rule.later_joined labels.now) }
{
    for label in labels {
        text.push_str("; ")?;
        text.push_str(label.name.as_str())?;
    }
    Ok(())
}

/// The record type of the labels of fields, where it is known.
fn record_of<'a>(env: &'a Env, labels: &[Path]) -> Option<&'a Rc<Declaration>>
    ensures { option_map (λ d. d.now.value) result ≡ rule.record_found (found_by env.now (map written_of labels.now)) }
{
    match env.record_type(labels) {
        Found::Entry(entry) => match &entry.what {
            What::Label(declaration, _) if !is_of_unknown_type(declaration) => Some(declaration),
            _ => None,
        },
        _ => None,
    }
}

/// A field that is written: its label, and its pattern, if it has one of its own.
#[derive(Drop)]
struct Written<'a> {
    label: RcStr,
    pattern: Option<Operand<'a>>,
}

/// How many nodes a pattern may have. A list of many elements is as deep as it is long, so more are want of memory, since the stack
/// is memory too.
const MOST_NODES: u32 = 10_000;

/// The pattern of a row, as rows of a match see it. None where no warning may be given of its match: where a part is missing, and
/// where a constructor, a label or a record is of a module or re-exports a type that isn't known. Want of memory where it has over
/// 10,000 nodes. `seen` has the types of the rows before, and then those of this one too.
pub fn row_pat(
    at: &Parts,
    p: Operand<'_>,
    env: &Env,
    depth: Depth,
    seen: &mut Vec<SeenType>,
) -> Result<Option<Pat>, NoMemory>
    ensures { IfOk result (λ o. Finds env.now seen.old.items seen.new.items (option_map typed_of o) (rule.pattern_of env.now (operand_view p.entry))) }
{
    match p.node {
        Some(node) if node.size > MOST_NODES => Err(AllocError),
        _ => pat_of(at, p, env, depth, seen),
    }
}

/// The same of a pattern by itself.
pub fn lone_pat(
    at: &Parts,
    p: Operand<'_>,
    env: &Env,
    depth: Depth,
) -> Result<Option<Pat>, NoMemory>
    ensures { IfOk result (λ o. (members : types.Path → List Member) → HasMembers members env.now → option_map typed_of o ≡ rule.pattern_of env.now (operand_view p.entry)) }
{
    let mut seen = Vec::new(at.alloc());
    row_pat(at, p, env, depth, &mut seen)
}

/// The same of a pattern or a part of one.
#[cycle(pats)]
fn pat_of(
    at: &Parts,
    p: Operand<'_>,
    env: &Env,
    depth: Depth,
    seen: &mut Vec<SeenType>,
) -> Result<Option<Pat>, NoMemory>
    ensures { IfOk result (λ o. Finds env.now seen.old.items seen.new.items (option_map typed_of o) (rule.pattern_of env.now (operand_view p.entry))) }
{
    match p.node {
        Some(node) => node_pat(at, node, p.number, env, depth, seen),
        None => Ok(None),
    }
}

/// A pattern by its row.
#[cycle(pats)]
fn node_pat(
    at: &Parts,
    node: &Node,
    number: u32,
    env: &Env,
    depth: Depth,
    seen: &mut Vec<SeenType>,
) -> Result<Option<Pat>, NoMemory>
    ensures { IfOk result (λ o. Finds env.now seen.old.items seen.new.items (option_map typed_of o) (rule.tree_pattern env.now number (node_view node.now))) }
{
    match form_of(node.row) {
        Form::Name => name(node),
        Form::Wildcard => Ok(anything()),
        Form::Constant => constant_in(at.alloc(), node),
        Form::Negative => negative(at.alloc(), node),
        Form::Record => record(at, node, number, env, depth, seen),
        Form::Bare => bare(at, node, env, seen),
        Form::Over(form) => compound(at, form, node, number, env, depth, seen),
    }
}

/// A pattern whose parts are patterns.
#[cycle(pats)]
fn compound(
    at: &Parts,
    form: Compound,
    node: &Node,
    number: u32,
    env: &Env,
    depth: Depth,
    seen: &mut Vec<SeenType>,
) -> Result<Option<Pat>, NoMemory>
    ensures { IfOk result (λ o. Finds env.now seen.old.items seen.new.items (option_map typed_of o) (rule.then_over (rule.patterns_of env.now (rule.patterns_in form number (node_view node.now))) (rule.over_parts form env.now number (node_view node.now)))) }
{
    let parts = patterns_in(at.alloc(), form, node, number)?;
    match pats_of(at, &parts, env, depth, seen)? {
        Some(parts) => over(at, form, node, number, env, parts, seen),
        None => Ok(None),
    }
}

/// A, M.A
fn bare(
    at: &Parts,
    node: &Node,
    env: &Env,
    seen: &mut Vec<SeenType>,
) -> Result<Option<Pat>, NoMemory>
    ensures { IfOk result (λ o. Finds env.now seen.old.items seen.new.items (option_map typed_of o) (rule.constructor_pattern env.now (path_in (node_view node.now) 0 1) [])) }
{
    let path = written_path(at.alloc(), node, 0, 1)?;
    named(at, env, &path, Vec::new(at.alloc()), seen)
}

/// _
fn anything() -> Option<Pat>
    ensures { option_map typed_of result ≡ Some any }
{
    Some(Pat::Any)
}

/// x
fn name(node: &Node) -> Result<Option<Pat>, NoMemory>
    ensures { IfOk result (λ o. option_map typed_of o ≡ option_map (λ x. any) (token_in (node_view node.now) 0)) }
{
    match token(node, 0) {
        Some(_) => Ok(Some(Pat::Any)),
        None => Ok(None),
    }
}

/// A constant that may be missing.
fn constant_in(alloc: Global, node: &Node) -> Result<Option<Pat>, NoMemory>
    ensures { IfOk result (λ o. option_map typed_of o ≡ option_map rule.constant_pattern (token_in (node_view node.now) 0)) }
{
    match token(node, 0) {
        Some(token) => Ok(Some(constant(alloc, token)?)),
        None => Ok(None),
    }
}

/// The parts of a node that are patterns.
fn patterns_in<'a>(
    alloc: Global,
    form: Compound,
    node: &'a Node,
    number: u32,
) -> Result<Vec<Operand<'a>>, NoMemory>
    ensures { IfOk result (λ os. map operand_view os.items ≡ rule.patterns_in form number (node_view node.now)) }
{
    if is_bracketed(form) {
        operands(alloc, node, number, 1)
    } else {
        operands_of(alloc, node, number)
    }
}

/// A constructor whose name is there.
fn named(
    at: &Parts,
    env: &Env,
    path: &WrittenPath<'_>,
    parts: Vec<Pat>,
    seen: &mut Vec<SeenType>,
) -> Result<Option<Pat>, NoMemory>
    ensures { IfOk result (λ o. Finds env.now seen.old.items seen.new.items (option_map typed_of o) (rule.constructor_pattern env.now (path_view path.now) (map typed_of parts.items))) }
{
    match path.last {
        Some(last) => constructor(at, env, path, last, parts, seen),
        None => Ok(None),
    }
}

/// - 1
fn negative(alloc: Global, node: &Node) -> Result<Option<Pat>, NoMemory>
    ensures { IfOk result (λ o. option_map typed_of o ≡ option_map (λ x. lit (codes "-" ++ x.name)) (token_in (node_view node.now) 1)) }
{
    let Some(token) = token(node, 1) else {
        return Ok(None);
    };
    let name = token.name.as_str();
    match format!(in alloc; "-{name}") {
        Ok(text) => Ok(Some(Pat::Literal(RcStr::new(alloc, text)?))),
        Err(_) => Err(AllocError),
    }
}

/// The patterns of parts; None where one of them is None.
#[cycle(pats)]
fn pats_of(
    at: &Parts,
    parts: &[Operand<'_>],
    env: &Env,
    depth: Depth,
    seen: &mut Vec<SeenType>,
) -> Result<Option<Vec<Pat>>, NoMemory>
    ensures { IfOk result (λ o. Finds env.now seen.old.items seen.new.items (option_map (λ v. map typed_of v.items) o) (rule.patterns_of env.now (map operand_view parts.now))) }
{
    let mut pats = Vec::new(at.alloc());
    for part in parts {
        match pat_of(at, *part, env, depth.inside()?, seen)? {
            Some(pat) => push(&mut pats, pat)?,
            None => return Ok(None),
        }
    }
    Ok(Some(pats))
}

/// A pattern of a form over the patterns of its parts.
fn over(
    at: &Parts,
    form: Compound,
    node: &Node,
    number: u32,
    env: &Env,
    parts: Vec<Pat>,
    seen: &mut Vec<SeenType>,
) -> Result<Option<Pat>, NoMemory>
    ensures { IfOk result (λ o. Finds env.now seen.old.items seen.new.items (option_map typed_of o) (rule.over_parts form env.now number (node_view node.now) (map typed_of parts.items))) }
{
    match form {
        Compound::Applied => applied(at, operand_in(node, number, 0), env, parts, seen),
        Compound::List => Ok(Some(list(at.alloc(), parts)?)),
        Compound::Cons => cons(at.alloc(), parts),
        Compound::Tuple => Ok(Some(tuple(at.alloc(), parts)?)),
        Compound::Either => Ok(Some(Pat::Either(parts))),
        Compound::Bracketed => Ok(first(parts)),
        Compound::Other => Ok(first(parts)),
    }
}

/// A p, by the operand that is the constructor.
fn applied(
    at: &Parts,
    head: Operand<'_>,
    env: &Env,
    parts: Vec<Pat>,
    seen: &mut Vec<SeenType>,
) -> Result<Option<Pat>, NoMemory>
    ensures { IfOk result (λ o. Finds env.now seen.old.items seen.new.items (option_map typed_of o) (rule.applied env.now (operand_view head.entry).part (map typed_of parts.items))) }
{
    match head.node {
        Some(head) => {
            let path = written_path(at.alloc(), head, 0, 1)?;
            named(at, env, &path, parts, seen)
        }
        None => Ok(None),
    }
}

/// The first of some patterns.
fn first(parts: Vec<Pat>) -> Option<Pat>
    ensures { option_map typed_of result ≡ rule.first_pattern (map typed_of parts.items) }
{
    parts.into_iter().next()
}

/// p :: p
fn cons(alloc: Global, parts: Vec<Pat>) -> Result<Option<Pat>, NoMemory>
    ensures { IfOk result (λ o. option_map typed_of o ≡ rule.cons_pattern (map typed_of parts.items)) }
{
    let mut parts = parts.into_iter();
    match (parts.next(), parts.next()) {
        (Some(head), Some(tail)) => Ok(Some(cell(alloc, head, tail)?)),
        _ => Ok(None),
    }
}

/// [ p; p ]
fn list(alloc: Global, parts: Vec<Pat>) -> Result<Pat, NoMemory>
    ensures { IfOk result (λ p. typed_of p ≡ rule.list_of (map typed_of parts.items)) }
{
    let mut whole = built_in(alloc, &[("[]", 0), ("::", 2)], "[]", Vec::new(alloc))?;
    let mut parts = parts;
    while let Some(last) = parts.pop() {
        whole = cell(alloc, last, whole)?;
    }
    Ok(whole)
}

/// The fields of a record pattern whose labels are there, and their paths.
fn fields_of<'a>(
    at: &Parts,
    node: &'a Node,
    number: u32,
    paths: &mut Vec<Path>,
) -> Result<Option<Vec<Written<'a>>>, NoMemory>
    ensures { IfOk result (λ o. (env : List Entry) → FindsFields env (operands_in number (node_view node.now) 1) paths.old.items paths.new.items (option_map (λ v. v.items) o)) }
{
    let mut fields = Vec::new(at.alloc());
    for part in operands(at.alloc(), node, number, 1)?.iter() {
        match part.node {
            Some(inner) => put_field(at.alloc(), inner, part.number, paths, &mut fields)?,
            None => return Ok(None),
        }
    }
    Ok(Some(fields))
}

/// Puts a field and the path of its label after others, where its label is there.
fn put_field<'a>(
    alloc: Global,
    inner: &'a Node,
    number: u32,
    paths: &mut Vec<Path>,
    fields: &mut Vec<Written<'a>>,
) -> Result<(), NoMemory>
    ensures paths { OnOk result (map written_of paths.new.items ≡ map written_of paths.old.items ++ label_path (rule.label_in (node_view inner.now))) }
    ensures fields { OnOk result ((env : List Entry) → map (rule.field_view env) fields.new.items ≡ map (rule.field_view env) fields.old.items ++ rule.with_field (rule.label_in (node_view inner.now)).last (rule.own_pattern env (first_in number (node_view inner.now) 3)) []) }
{
    let label = written_path(alloc, inner, 0, 1)?;
    match label.last {
        Some(last) => {
            push(paths, path_of(alloc, &label, last)?)?;
            let field = Written {
                label: last.name.share()?,
                pattern: first_operand(inner, number, 3),
            };
            push(fields, field)
        }
        None => Ok(()),
    }
}

/// { l = p; _ }: the one constructor of its type, over all labels in the order of the declaration. None where its type isn't known.
#[cycle(pats)]
fn record(
    at: &Parts,
    node: &Node,
    number: u32,
    env: &Env,
    depth: Depth,
    seen: &mut Vec<SeenType>,
) -> Result<Option<Pat>, NoMemory>
    ensures { IfOk result (λ o. Finds env.now seen.old.items seen.new.items (option_map typed_of o) (rule.record_of env.now (operands_in number (node_view node.now) 1) (map (operand_by (rule.seen_rule env.now)) (operands_in number (node_view node.now) 1)))) }
{
    let mut paths = Vec::new(at.alloc());
    let Some(fields) = fields_of(at, node, number, &mut paths)? else {
        return Ok(None);
    };
    match record_of(env, &paths) {
        Some(declaration) => whole_pat(at, labels_in(declaration), &fields, env, depth, seen),
        None => Ok(None),
    }
}

/// The record of all labels.
#[cycle(pats)]
fn whole_pat(
    at: &Parts,
    labels: &[Label],
    fields: &[Written<'_>],
    env: &Env,
    depth: Depth,
    seen: &mut Vec<SeenType>,
) -> Result<Option<Pat>, NoMemory>
    ensures { IfOk result (λ o. Finds env.now seen.old.items seen.new.items (option_map typed_of o) (option_map (rule.whole_of labels.now) (rule.by_labels labels.now (map (rule.field_view env.now) fields.now)))) }
{
    match by_labels(at, labels, fields, env, depth, seen)? {
        Some(parts) => whole_record(at.alloc(), labels, parts),
        None => Ok(None),
    }
}

/// The patterns of all labels, in their order; None where one of them is None.
#[cycle(pats)]
fn by_labels(
    at: &Parts,
    labels: &[Label],
    fields: &[Written<'_>],
    env: &Env,
    depth: Depth,
    seen: &mut Vec<SeenType>,
) -> Result<Option<Vec<Pat>>, NoMemory>
    ensures { IfOk result (λ o. Finds env.now seen.old.items seen.new.items (option_map (λ v. map typed_of v.items) o) (rule.by_labels labels.now (map (rule.field_view env.now) fields.now))) }
{
    let mut pats = Vec::new(at.alloc());
    for label in labels {
        match label_pat(at, label, fields, env, depth, seen)? {
            Some(pat) => push(&mut pats, pat)?,
            None => return Ok(None),
        }
    }
    Ok(Some(pats))
}

/// The pattern of the first field with a label; a label that isn't written matches any value, and so does one without a pattern of its own.
#[cycle(pats)]
fn label_pat(
    at: &Parts,
    label: &Label,
    fields: &[Written<'_>],
    env: &Env,
    depth: Depth,
    seen: &mut Vec<SeenType>,
) -> Result<Option<Pat>, NoMemory>
    ensures { IfOk result (λ o. Finds env.now seen.old.items seen.new.items (option_map typed_of o) (rule.field_at (str_bytes label.now.name) (map (rule.field_view env.now) fields.now))) }
{
    match field_of(label, fields) {
        Some(field) => match field.pattern {
            Some(pattern) => pat_of(at, pattern, env, depth.inside()?, seen),
            None => Ok(Some(Pat::Any)),
        },
        None => Ok(Some(Pat::Any)),
    }
}

/// The first field with a label.
fn field_of<'a, 'b>(label: &Label, fields: &'b [Written<'a>]) -> Option<&'b Written<'a>>
    ensures { (env : List Entry) → rule.field_at (str_bytes label.now.name) (map (rule.field_view env) fields.now) ≡ rule.pattern_in env (option_map (λ f. f.now) result) }
{
    for field in fields {
        if field.label.is(label.name.as_str()) {
            return Some(field);
        }
    }
    None
}

fn whole_record(alloc: Global, labels: &[Label], parts: Vec<Pat>) -> Result<Option<Pat>, NoMemory>
    ensures { IfOk result (λ o. option_map typed_of o ≡ Some (rule.whole_of labels.now (map typed_of parts.items))) }
{
    let name = record_name(alloc, labels)?;
    Ok(Some(only_constructor(alloc, name, labels.len(), parts)?))
}
