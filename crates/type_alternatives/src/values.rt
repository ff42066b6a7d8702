//! The alternatives of a type.
ghost use Rattle.std.specs.Prelude.{◌≡◌, ◌∷◌, [], true, false, None, IfOk};
ghost use Rattle.text_terms.specs.Bytes.{str_bytes};
ghost use Rattle.type_terms.specs.Views.{path_of};
ghost use Rattle.type_nodes.specs.Nodes.{IsNode};
ghost use Rattle.type_nodes.specs.Links.{reading};
ghost use Rattle.env_table.specs.Views.{kind_of};
ghost use Rattle.type_alternatives.specs.Alternatives.{named_of, outermost_of, values_of, argument_of, tuple_or_one, IsPart, AreConstructors, AreLabels, OfShape, OfDeclared, OfOrigin, OfType, of_built_in, built_in, known};

use crate::declared::declaration_of;
use crate::reached::{Wanted, path_to};
use env_table::{Constructor, Declaration, Env, Kind, Label, NodeRef, Shape};
use std::alloc::{AllocError, Global};
use text_terms::{NoMemory, RcStr};
use type_nodes::{Origin, Store, View};

/// The built-in types: the k-th has the number that is k less than the largest.
const LAST: u64 = u64::MAX;

/// A name, and the shortest path in scope that reaches it. None where no path does.
#[derive(Drop)]
pub struct PathTo {
    pub name: RcStr,
    pub path: Option<RcStr>,
}

/// What a constructor is applied to.
#[derive(Clone, Copy, Debug, PartialEq, Eq)]
pub enum Argument {
    None,
    One,
    /// A tuple of so many parts.
    Tuple(usize),
}

/// The outermost part of a value.
#[derive(Drop)]
pub enum Alternative {
    /// A, A e, M.A e
    Constructor(PathTo, Argument),
    /// (), [], false, true
    Constant(&'static str),
    /// e :: e
    Cons,
    /// (e, e), of so many parts
    Tuple(usize),
    /// { l = e; M.l = e }
    Record(Vec<PathTo>),
}

/// What values a type has.
#[derive(Drop)]
pub enum Alternatives {
    Known(Vec<Alternative>),
    /// t -> t
    Arrow,
    /// A built-in type with literals: one of these.
    Literal(&'static str),
    /// Another type.
    Unknown,
}

fn is_node(store: &Store, node: NodeRef) -> bool
    ensures inside { result ≡ true → IsNode store.now.nodes node.0 }
    ensures outside { result ≡ false → reading store.now.nodes node.0 ≡ None }
{
    node.0 < store.len() as u64
}

/// The number of a built-in type. None of another type.
fn built_in(origin: &Origin) -> Option<u64>
    ensures { result ≡ built_in (path_of origin.now) }
{
    match origin.path.as_slice() {
        [number] if LAST - *number < 8 => Some(LAST - *number),
        _ => None,
    }
}

fn known(alloc: Global, only: Alternative) -> Result<Alternatives, NoMemory>
    ensures { IfOk result (λ r. values_of r ≡ known (outermost_of only ∷ [])) }
{
    match vec![in alloc; only] {
        Ok(list) => Ok(Alternatives::Known(list)),
        Err(_) => Err(AllocError),
    }
}

fn both(alloc: Global, first: Alternative, second: Alternative) -> Result<Alternatives, NoMemory>
    ensures { IfOk result (λ r. values_of r ≡ known (outermost_of first ∷ outermost_of second ∷ [])) }
{
    match vec![in alloc; first, second] {
        Ok(list) => Ok(Alternatives::Known(list)),
        Err(_) => Err(AllocError),
    }
}

/// Those of a built-in type, by its number.
fn of_built_in(alloc: Global, number: u64) -> Result<Alternatives, NoMemory>
    ensures { IfOk result (λ r. values_of r ≡ of_built_in number) }
{
    match number {
        0 => Ok(Alternatives::Literal("0")),
        1 => Ok(Alternatives::Literal("'a'")),
        2 => Ok(Alternatives::Literal("\"\"")),
        3 => Ok(Alternatives::Literal("0.0")),
        4 => known(alloc, Alternative::Constant("()")),
        5 => both(
            alloc,
            Alternative::Constant("false"),
            Alternative::Constant("true"),
        ),
        7 => both(alloc, Alternative::Constant("[]"), Alternative::Cons),
        _ => Ok(Alternatives::Unknown),
    }
}

/// What a constructor is applied to, by its type from the argument to the result.
fn argument_of(store: &Store, constructor: &Constructor) -> Argument
    ensures { result ≡ argument_of store.now.nodes constructor.now }
{
    if !constructor.has_argument {
        return Argument::None;
    }
    if !is_node(store, constructor.root) {
        return Argument::One;
    }
    match store.read(constructor.root) {
        View::Arrow(argument, _) => tuple_or_one(store, argument),
        _ => Argument::One,
    }
}

fn tuple_or_one(store: &Store, argument: NodeRef) -> Argument
    ensures { result ≡ tuple_or_one (reading store.now.nodes argument.0) }
{
    if !is_node(store, argument) {
        return Argument::One;
    }
    match store.read(argument) {
        View::Tuple(parts) => Argument::Tuple(parts.len()),
        _ => Argument::One,
    }
}

/// The shortest path to a name of a declaration.
fn path_for(
    alloc: Global,
    env: &Env,
    origin: &Origin,
    kind: Kind,
    name: &RcStr,
    place: usize,
) -> Result<PathTo, NoMemory>
    ensures { IfOk result (λ r. IsPart (kind_of kind) env.now (path_of origin.now) place (str_bytes name.now) (named_of r)) }
{
    let wanted = Wanted {
        kind,
        name: name.as_str(),
        origin,
        place,
    };
    Ok(PathTo {
        name: name.share()?,
        path: path_to(alloc, env, wanted)?,
    })
}

fn of_constructors(
    alloc: Global,
    store: &Store,
    env: &Env,
    origin: &Origin,
    constructors: &[Constructor],
) -> Result<Alternatives, NoMemory>
    ensures { IfOk result (λ r. AreConstructors store.now.nodes env.now (path_of origin.now) constructors.now (values_of r)) }
{
    let mut list = Vec::new(alloc);
    for (place, constructor) in constructors.iter().enumerate() {
        let path = path_for(
            alloc,
            env,
            origin,
            Kind::Constructor,
            &constructor.name,
            place,
        )?;
        let next = Alternative::Constructor(path, argument_of(store, constructor));
        if list.push(next).is_err() {
            return Err(AllocError);
        }
    }
    Ok(Alternatives::Known(list))
}

fn of_labels(
    alloc: Global,
    env: &Env,
    origin: &Origin,
    labels: &[Label],
) -> Result<Alternatives, NoMemory>
    ensures { IfOk result (λ r. AreLabels env.now (path_of origin.now) labels.now (values_of r)) }
{
    let mut paths = Vec::new(alloc);
    for (place, label) in labels.iter().enumerate() {
        let path = path_for(alloc, env, origin, Kind::Label, &label.name, place)?;
        if paths.push(path).is_err() {
            return Err(AllocError);
        }
    }
    let record = known(alloc, Alternative::Record(paths))?;
    Ok(record)
}

fn of_declaration(
    alloc: Global,
    store: &Store,
    env: &Env,
    origin: &Origin,
    declaration: &Declaration,
) -> Result<Alternatives, NoMemory>
    ensures { IfOk result (λ r. OfShape store.now.nodes env.now (path_of origin.now) declaration.now.shape (values_of r)) }
{
    match &declaration.shape {
        Shape::Opaque => Ok(Alternatives::Unknown),
        Shape::Variant(constructors) => of_constructors(alloc, store, env, origin, constructors),
        Shape::Labels(labels) => of_labels(alloc, env, origin, labels),
    }
}

fn of_origin(
    alloc: Global,
    store: &Store,
    env: &Env,
    origin: &Origin,
) -> Result<Alternatives, NoMemory>
    ensures { IfOk result (λ r. OfOrigin store.now.nodes env.now (path_of origin.now) (built_in (path_of origin.now)) (values_of r)) }
{
    match built_in(origin) {
        Some(number) => of_built_in(alloc, number),
        None => of_declared(alloc, store, env, origin),
    }
}

fn of_declared(
    alloc: Global,
    store: &Store,
    env: &Env,
    origin: &Origin,
) -> Result<Alternatives, NoMemory>
    ensures { IfOk result (λ r. OfDeclared store.now.nodes env.now (path_of origin.now) (values_of r)) }
{
    match declaration_of(alloc, origin, env)? {
        Some(declaration) => {
            let found = of_declaration(alloc, store, env, origin, declaration)?;
            Ok(found)
        }
        None => Ok(Alternatives::Unknown),
    }
}

/// The alternatives of a node's type, with the paths to their names in the environment. `Unknown` where the node is none of the
/// store.
pub fn alternatives_of(
    alloc: Global,
    store: &Store,
    node: NodeRef,
    env: &Env,
) -> Result<Alternatives, NoMemory>
    ensures alternatives { IfOk result (λ r. OfType store.now.nodes env.now (reading store.now.nodes node.0) (values_of r)) }
{
    if !is_node(store, node) {
        return Ok(Alternatives::Unknown);
    }
    match store.read(node) {
        View::Con(origin, _) => of_origin(alloc, store, env, origin),
        View::Tuple(parts) => known(alloc, Alternative::Tuple(parts.len())),
        View::Arrow(_, _) => Ok(Alternatives::Arrow),
        _ => Ok(Alternatives::Unknown),
    }
}
