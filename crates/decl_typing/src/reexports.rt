//! Re-exports: whether a declaration tells the same as the type that it names.
ghost use Rattle.std.specs.Prelude.{◌≡◌, None, IfOk};
ghost use Rattle.typing_state.specs.Goes.{Goes};
ghost use Rattle.decl_typing.specs.Owned.{IsOwnRight, AreOwnRights};

use crate::decls::group_env;
use decl_groups::{ConstructorPart, DeclarationPart, LabelPart, Mentions, Right, Told, set};
use env_table::{Constructor, Declaration, Env, Label, Shape};
use owned_lists::{push, shared};
use row_parts::Operand;
use std::rc::Rc;
use syntax_tree::Token;
use type_expressions::{Parameter, Variables, applied, read_type};
use type_nodes::{NoMemory, NodeRef, View};
use type_reading::owner_of;
use typing_state::{Depth, Parts, Telling};

/// A type that a re-export names: the declaration of its origin, if it is a constructor, and its arguments.
#[derive(Drop)]
enum Named {
    /// An unknown type, which tells anything.
    Anything,
    /// A type that tells nothing of its values.
    Nothing,
    Declared(Rc<Declaration>, Vec<NodeRef>),
}

/// Which declarations of a group are other types, its re-exports included: each is kept where it tells the same as the type
/// that it names, while those behind it count as types of their own.
pub fn with_reexports(
    at: &mut Parts,
    parts: &[DeclarationPart<'_>],
    mentions: &Mentions,
    renames: Vec<bool>,
    env: &Env,
    depth: Depth,
) -> Result<Vec<bool>, NoMemory>
    ensures own { AreOwnRights parts.now → at.new ≡ at.old }
    ensures same { IfOk result (λ rs. AreOwnRights parts.now → rs ≡ renames) }
    ensures goes { Goes at.old at.new }
{
    let mut renames = renames;
    for (place, part) in parts.iter().enumerate() {
        if let Some(more) = with_reexport(at, parts, mentions, &renames, place, part, env, depth)? {
            renames = more;
        }
    }
    Ok(renames)
}

/// Which declarations are other types where this one is too; None where it is no re-export that is kept.
fn with_reexport(
    at: &mut Parts,
    parts: &[DeclarationPart<'_>],
    mentions: &Mentions,
    renames: &[bool],
    place: usize,
    part: &DeclarationPart<'_>,
    env: &Env,
    depth: Depth,
) -> Result<Option<Vec<bool>>, NoMemory>
    ensures own { IsOwnRight part.now.right → at.new ≡ at.old }
    ensures none { IfOk result (λ rs. IsOwnRight part.now.right → rs ≡ None) }
    ensures goes { Goes at.old at.new }
{
    let Right::Reexport(_, ty, _, told) = &part.right else {
        return Ok(None);
    };
    let mut assumed = copied(at, renames)?;
    set(&mut assumed, place);
    if mentions.leads_to_itself(at.alloc(), place, &assumed)? {
        return Ok(None);
    }
    if tells_the_same(at, parts, mentions, &assumed, *ty, part, told, env, depth)? {
        Ok(Some(assumed))
    } else {
        Ok(None)
    }
}

/// Whether a re-export tells the same as the type that it names, where these declarations are other types.
fn tells_the_same(
    at: &mut Parts,
    parts: &[DeclarationPart<'_>],
    mentions: &Mentions,
    renames: &[bool],
    ty: Operand<'_>,
    part: &DeclarationPart<'_>,
    told: &Told<'_>,
    env: &Env,
    depth: Depth,
) -> Result<bool, NoMemory>
    ensures goes { Goes at.old at.new }
{
    let telling = at.telling;
    at.telling = Telling::Quiet;
    let level = at.level;
    at.level = level.saturating_add(1);
    let same = compared(at, parts, mentions, renames, ty, part, told, env, depth);
    at.level = level;
    at.telling = telling;
    same
}

fn compared(
    at: &mut Parts,
    parts: &[DeclarationPart<'_>],
    mentions: &Mentions,
    renames: &[bool],
    ty: Operand<'_>,
    part: &DeclarationPart<'_>,
    told: &Told<'_>,
    env: &Env,
    depth: Depth,
) -> Result<bool, NoMemory>
    ensures goes { Goes at.old at.new }
{
    let inner = group_env(at, parts, mentions, renames, env, depth)?;
    let variables = Variables::Parameters(rigid_parameters(at, &part.parameters)?);
    is_told_by(at, ty, told, &inner, &variables, depth)
}

/// Whether the type that a type expression names tells what is told here.
fn is_told_by(
    at: &mut Parts,
    ty: Operand<'_>,
    told: &Told<'_>,
    env: &Env,
    variables: &Variables,
    depth: Depth,
) -> Result<bool, NoMemory>
    ensures goes { Goes at.old at.new }
{
    let ty = read_type(at, ty, env, variables, depth)?;
    match named_by(at, ty, env)? {
        Named::Anything => Ok(true),
        Named::Nothing => Ok(tells_nothing(told)),
        Named::Declared(declaration, arguments) => {
            agree(at, &declaration, &arguments, told, env, variables, depth)
        }
    }
}

fn rigid_parameters(at: &mut Parts, names: &[&Token]) -> Result<Vec<Parameter>, NoMemory>
    ensures goes { Goes at.old at.new }
{
    let mut parameters = Vec::new(at.alloc());
    for name in names {
        let node = at.rigid()?;
        let name = name.name.share()?;
        push(&mut parameters, Parameter { name, node })?;
    }
    Ok(parameters)
}

/// What a type names.
fn named_by(at: &Parts, ty: NodeRef, env: &Env) -> Result<Named, NoMemory> {
    match at.read(ty) {
        Some(View::Var { .. }) | None => Ok(Named::Anything),
        Some(View::Con(origin, args)) => match owner_of(env, origin)? {
            None => Ok(Named::Nothing),
            Some(owner) => {
                let owner = shared(owner)?;
                let args = args.iter().copied().collect(at.alloc());
                Ok(Named::Declared(owner, args?))
            }
        },
        _ => Ok(Named::Nothing),
    }
}

/// Whether a declaration over these arguments tells what is told here.
fn agree(
    at: &mut Parts,
    declaration: &Declaration,
    arguments: &[NodeRef],
    told: &Told<'_>,
    env: &Env,
    variables: &Variables,
    depth: Depth,
) -> Result<bool, NoMemory>
    ensures goes { Goes at.old at.new }
{
    match (&declaration.shape, told) {
        (Shape::Opaque, _) => Ok(tells_nothing(told)),
        (Shape::Variant(actual), Told::Constructors(wanted)) => {
            let wanted = named_constructors(at, wanted)?;
            constructors_agree(
                at,
                actual,
                arguments,
                declaration,
                &wanted,
                env,
                variables,
                depth,
            )
        }
        (Shape::Labels(actual), Told::Labels(wanted)) => {
            let wanted = named_labels(at, wanted)?;
            labels_agree(
                at,
                actual,
                arguments,
                declaration,
                &wanted,
                env,
                variables,
                depth,
            )
        }
        _ => Ok(tells_nothing(told)),
    }
}

fn constructors_agree(
    at: &mut Parts,
    actual: &[Constructor],
    arguments: &[NodeRef],
    declaration: &Declaration,
    wanted: &[(ConstructorPart<'_>, &Token)],
    env: &Env,
    variables: &Variables,
    depth: Depth,
) -> Result<bool, NoMemory>
    ensures goes { Goes at.old at.new }
{
    if wanted.is_empty() {
        return Ok(true);
    }
    if actual.len() != wanted.len() {
        return Ok(false);
    }
    for (constructor, (part, name)) in actual.iter().zip(wanted.iter()) {
        let same = constructor.name.is(name.name.as_str())
            && constructor.has_argument == part.argument.is_some();
        if !same {
            return Ok(false);
        }
        if let Some(argument) = part.argument {
            let wanted = read_type(at, argument, env, variables, depth)?;
            let found = side_over(at, constructor.root, declaration, arguments, Side::From)?;
            if !at.are_one(found, wanted)? {
                return Ok(false);
            }
        }
    }
    Ok(true)
}

fn labels_agree(
    at: &mut Parts,
    actual: &[Label],
    arguments: &[NodeRef],
    declaration: &Declaration,
    wanted: &[(LabelPart<'_>, &Token)],
    env: &Env,
    variables: &Variables,
    depth: Depth,
) -> Result<bool, NoMemory>
    ensures goes { Goes at.old at.new }
{
    if actual.len() != wanted.len() {
        return Ok(false);
    }
    for (label, (part, name)) in actual.iter().zip(wanted.iter()) {
        if !label.name.is(name.name.as_str()) || label.is_mutable != part.is_mutable {
            return Ok(false);
        }
        let wanted = read_type(at, part.body, env, variables, depth)?;
        let found = side_over(at, label.root, declaration, arguments, Side::To)?;
        if !at.are_one(found, wanted)? {
            return Ok(false);
        }
    }
    Ok(true)
}

/// One side of an instance of a root, whose other side is the declaration's type over these arguments.
fn side_over(
    at: &mut Parts,
    root: NodeRef,
    declaration: &Declaration,
    arguments: &[NodeRef],
    side: Side,
) -> Result<NodeRef, NoMemory>
    ensures goes { Goes at.old at.new }
{
    let instance = at.instance(root)?;
    let whole = applied(at, declaration, arguments)?;
    match at.sides_of_arrow(instance) {
        None => at.var(),
        Some((from, to)) => {
            let (one, other) = match side {
                Side::From => (from, to),
                Side::To => (to, from),
            };
            at.join(other, whole)?;
            Ok(one)
        }
    }
}

/// A side of an arrow.
#[derive(Clone, Copy, Drop)]
enum Side {
    From,
    To,
}

fn copied(at: &Parts, marks: &[bool]) -> Result<Vec<bool>, NoMemory> {
    marks.iter().copied().collect(at.alloc())
}

/// Whether no constructor has a name. A record without labels is told all the same.
fn tells_nothing(told: &Told<'_>) -> bool {
    match told {
        Told::Constructors(parts) => parts.iter().all(|part| part.name.is_none()),
        Told::Labels(_) => false,
    }
}

fn named_constructors<'a>(
    at: &Parts,
    parts: &[ConstructorPart<'a>],
) -> Result<Vec<(ConstructorPart<'a>, &'a Token)>, NoMemory> {
    let mut named = Vec::new(at.alloc());
    for part in parts {
        if let Some(name) = part.name {
            push(&mut named, (*part, name))?;
        }
    }
    Ok(named)
}

fn named_labels<'a>(
    at: &Parts,
    parts: &[LabelPart<'a>],
) -> Result<Vec<(LabelPart<'a>, &'a Token)>, NoMemory> {
    let mut named = Vec::new(at.alloc());
    for part in parts {
        if let Some(name) = part.name {
            push(&mut named, (*part, name))?;
        }
    }
    Ok(named)
}
