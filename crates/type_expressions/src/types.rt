//! Type expressions.
#![tactic(auto, using(typing_state::proofs::Going::goes_trans, typing_state::proofs::Going::goes_refl, typing_state::proofs::Silence::store_silent), unfolding(syntax_tree::specs::Names::row_of))]

ghost use Rattle.std.specs.Prelude.{◌≡◌, ◌==◌, ◌<◌, ◌^◌, ℕ, List, [], ◌∷◌, length, map, option_map, IfOk, OnOk};
ghost use Rattle.std.specs.Option.{option_copied};
ghost use Rattle.syntax_tree.specs.Names.{row_of};
ghost use Rattle.syntax_tree.specs.declared.tree.Node.{out-Node};
ghost use Rattle.syntax_tree.specs.View.{place_of, tok_of, node_view};
ghost use Rattle.row_parts.specs.Numbered.{operand_view, path_view, part_of};
ghost use Rattle.typing_state.specs.Goes.{Goes, Silent};
ghost use Rattle.type_nodes.specs.Views.{numbers};
ghost use Rattle.typing_state.specs.Goes.{OnlyStore};
ghost use Rattle.typing_state.specs.Types.{MakesVar, any_scope};
ghost use Rattle.typing_steps.specs.Typing.{path_as};
ghost use Rattle.typing_rows.specs.Declaring.{declared_in, DeclaresTo, NamesTo};
ghost use Rattle.typing_rows.specs.Operands.{EndsName, EndsParentheses, EndsPlainRow, EndsRow, MakesArrowOver, ReadsFront, ReadsGiven, ReadsOperand, ReadsOperands, ReadsPart, ReadsVariable};
ghost use Rattle.signature_model.specs.Declarations.{Name};
ghost use Rattle.typing_rows.specs.DeclaredContracts.{SettlesDeclared, SettlesNamed};
ghost use Rattle.typing_rows.specs.Treating.{TreatsFront, TreatsGiven, TreatsOperand, TreatsOperands, TreatsPart};
ghost use Rattle.typing_rows.specs.DeclaredOperands.{SettlesFront, SettlesGiven, SettlesName, SettlesOperand, SettlesOperands, SettlesParentheses, SettlesPart, SettlesPlainRow, SettlesRow, SettlesVariable};
ghost use Rattle.declared_rows.specs.Contracts.{MakesUnknown, DenotesDeclared, DenotesNamed};
ghost use Rattle.declared_rows.specs.Operands.{DenotesEnds, DenotesFront, DenotesGiven, DenotesName, DenotesOperand, DenotesOperands, DenotesParentheses, DenotesPart, DenotesPlain, DenotesVariable, MakesArrow};
ghost use Rattle.type_expressions.specs.Items.{HasNodes, IsOfItem, IsOver, parameter_in};
ghost use Rattle.type_expressions.specs.Untyped.{Untyped};
ghost use Rattle.type_expressions.specs.Operands.{several, parts_read};
ghost use Rattle.typing_state.specs.Notes.{IsRecorded};

use crate::arguments::{applied, applied_with_unknowns};
use crate::by_name::written_variable;
use env_table::{Declaration, Entry, Env, Kind, What};
use owned_lists::push;
use row_parts::{Operand, WrittenPath, operand_in, operands, operands_of, token, written_path};
use std::alloc::Global;
use std::rc::Rc;
use syntax_tree::{Node, RowName, Token};
use text_terms::RcStr;
use type_nodes::{NoMemory, NodeRef};
use typing_state::{Depth, Parts, Verdict, Word};

/// A type variable by its name.
#[derive(Drop)]
pub struct Parameter {
    pub name: RcStr,
    pub node: NodeRef,
}

/// What a type variable stands for.
#[derive(Drop)]
pub enum Variables {
    /// In an expression: a type of the item round it.
    OfItem,
    /// In a declaration: one of its parameters.
    Parameters(Vec<Parameter>),
}

/// The parameter of a name, of two the later one.
fn parameter_named(parameters: &[Parameter], name: &str) -> Option<NodeRef>
    ensures { result ≡ parameter_in name.now parameters.now }
{
    let mut found = None;
    for parameter in parameters {
        if parameter.name.is(name) {
            found = Some(parameter.node);
        }
    }
    found
}

/// A type that was read, with the entries of the names in it.
#[derive(Drop)]
struct Read {
    ty: NodeRef,
    names: Vec<Option<Rc<Entry>>>,
}

/// Makes known that a number has 32 bits.
fn small(number: u32) -> u32
    ensures { number < 2 ^ 32 }
{
    number
}

/// The type that a type expression, or a missing one, stands for. It is recorded with the names in it.
#[cycle(types)]
pub fn read_type(
    at: &mut Parts,
    ty: Operand<'_>,
    env: &Env,
    variables: &Variables,
    depth: Depth,
) -> Result<NodeRef, NoMemory>
    ensures carries { IfOk result (λ m. IsOfItem variables.now → ReadsOperand at.old at.new env.now (operand_view ty.entry) m.0) }
    ensures settles { IfOk result (λ m. (names : List Name) → IsOver variables.now names → SettlesOperand at.old at.new env.now names (operand_view ty.entry)) }
    ensures means { IfOk result (λ m. (names : List Name) (ps : List ℕ) → IsOver variables.now names → HasNodes variables.now ps → DenotesOperand at.old at.new env.now names ps (operand_view ty.entry) m.0) }
    ensures recorded { OnOk result (IsRecorded at.new ty.entry.number) }
    ensures treats { OnOk result (TreatsOperand at.old at.new env.now (operand_view ty.entry)) }
    ensures untyped { OnOk result (Untyped at.old at.new) }
    ensures goes { Goes at.old at.new }
{
    let read = read_row(at, ty, env, variables, depth)?;
    let _number = small(ty.number);
    at.note(ty.number, env, None, read.names)?;
    Ok(read.ty)
}

/// The same with the names in it.
#[cycle(types)]
fn read_row(
    at: &mut Parts,
    ty: Operand<'_>,
    env: &Env,
    variables: &Variables,
    depth: Depth,
) -> Result<Read, NoMemory>
    ensures carries { IfOk result (λ r. IsOfItem variables.now → ReadsPart at.old at.new env.now ty.entry.number (place_of ty.entry.span) (part_of ty.entry.node ty.entry.span) r.ty.0) }
    ensures settles { IfOk result (λ r. (names : List Name) → IsOver variables.now names → SettlesPart at.old at.new env.now names ty.entry.number (place_of ty.entry.span) (part_of ty.entry.node ty.entry.span)) }
    ensures means { IfOk result (λ r. (names : List Name) (ps : List ℕ) → IsOver variables.now names → HasNodes variables.now ps → DenotesPart at.old at.new env.now names ps ty.entry.number (place_of ty.entry.span) (part_of ty.entry.node ty.entry.span) r.ty.0) }
    ensures treats { OnOk result (TreatsPart at.old at.new env.now ty.entry.number (place_of ty.entry.span) (part_of ty.entry.node ty.entry.span)) }
    ensures untyped { OnOk result (Untyped at.old at.new) }
    ensures goes { Goes at.old at.new }
{
    match ty.node {
        None => {
            let any = unresolved(at, variables)?;
            Ok(unnamed(at, any))
        }
        Some(node) => {
            let types = read_parts(at, node, ty.number, env, variables, depth)?;
            formed(at, node, &types, env, variables)
        }
    }
}

/// A type in which no name stands.
fn unnamed(at: &Parts, ty: NodeRef) -> Read
    ensures { result.ty ≡ ty }
{
    Read {
        ty,
        names: Vec::new(at.alloc()),
    }
}

/// The types of the parts of a type expression; in front of a constructor those in parentheses.
#[cycle(types)]
fn read_parts(
    at: &mut Parts,
    node: &Node,
    number: u32,
    env: &Env,
    variables: &Variables,
    depth: Depth,
) -> Result<Vec<NodeRef>, NoMemory>
    ensures carries { IfOk result (λ ms. IsOfItem variables.now → ReadsFront at.old at.new env.now number (node_view node.now) (numbers ms.items)) }
    ensures settles { IfOk result (λ ms. (names : List Name) → IsOver variables.now names → SettlesFront at.old at.new env.now names number (node_view node.now) (numbers ms.items)) }
    ensures means { IfOk result (λ ms. (names : List Name) (ps : List ℕ) → IsOver variables.now names → HasNodes variables.now ps → DenotesFront at.old at.new env.now names ps number (node_view node.now) (numbers ms.items)) }
    ensures treats { OnOk result (TreatsFront at.old at.new env.now number (node_view node.now)) }
    ensures untyped { OnOk result (Untyped at.old at.new) }
    ensures goes { Goes at.old at.new }
{
    match node.row {
        RowName::Tapp => { read_given(at, operand_in(node, number, 0), env, variables, depth) }
        _ => {
            let parts = parts_in(at.alloc(), node, number)?;
            read_each(at, &parts, env, variables, depth)
        }
    }
}

/// The types that stand in front of a constructor: several in parentheses, or one.
#[cycle(types)]
fn read_given(
    at: &mut Parts,
    left: Operand<'_>,
    env: &Env,
    variables: &Variables,
    depth: Depth,
) -> Result<Vec<NodeRef>, NoMemory>
    ensures carries { IfOk result (λ ms. IsOfItem variables.now → ReadsGiven at.old at.new env.now (operand_view left.entry) (numbers ms.items)) }
    ensures settles { IfOk result (λ ms. (names : List Name) → IsOver variables.now names → SettlesGiven at.old at.new env.now names (operand_view left.entry) (numbers ms.items)) }
    ensures means { IfOk result (λ ms. (names : List Name) (ps : List ℕ) → IsOver variables.now names → HasNodes variables.now ps → DenotesGiven at.old at.new env.now names ps (operand_view left.entry) (numbers ms.items)) }
    ensures recorded { OnOk result (IsRecorded at.new left.entry.number) }
    ensures treats { OnOk result (TreatsGiven at.old at.new env.now (operand_view left.entry)) }
    ensures untyped { OnOk result (Untyped at.old at.new) }
    ensures goes { Goes at.old at.new }
{
    match several_in(at.alloc(), left)? {
        Some(several) => {
            at.note_plain(left.number, env)?;
            read_each(at, &several, env, variables, depth)
        }
        None => {
            let ty = read_type(at, left, env, variables, depth.inside()?)?;
            one_of(at.alloc(), ty)
        }
    }
}

/// The types of some type expressions, in order.
#[cycle(types)]
fn read_each(
    at: &mut Parts,
    parts: &[Operand<'_>],
    env: &Env,
    variables: &Variables,
    depth: Depth,
) -> Result<Vec<NodeRef>, NoMemory>
    ensures carries { IfOk result (λ ms. IsOfItem variables.now → ReadsOperands at.old at.new env.now (map operand_view parts.now) (numbers ms.items)) }
    ensures settles { IfOk result (λ ms. (names : List Name) → IsOver variables.now names → SettlesOperands at.old at.new env.now names (map operand_view parts.now) (numbers ms.items)) }
    ensures means { IfOk result (λ ms. (names : List Name) (ps : List ℕ) → IsOver variables.now names → HasNodes variables.now ps → DenotesOperands at.old at.new env.now names ps (map operand_view parts.now) (numbers ms.items)) }
    ensures treats { OnOk result (TreatsOperands at.old at.new env.now (map operand_view parts.now)) }
    ensures untyped { OnOk result (Untyped at.old at.new) }
    ensures goes { Goes at.old at.new }
{
    let mut types = Vec::new(at.alloc());
    for part in parts {
        let ty = read_type(at, *part, env, variables, depth.inside()?)?;
        push(&mut types, ty)?;
    }
    Ok(types)
}

/// A type expression that names no type: any type in an item, and in a declaration an unknown one.
fn unresolved(at: &mut Parts, variables: &Variables) -> Result<NodeRef, NoMemory>
    ensures any { IfOk result (λ m. IsOfItem variables.now → MakesVar at.old at.new m.0 any_scope) }
    ensures unknown { IfOk result (λ m. (names : List Name) → IsOver variables.now names → MakesUnknown at.old at.new m.0) }
    ensures rest { OnlyStore at.old at.new }
    ensures silent { Silent at.old at.new }
    ensures goes { Goes at.old at.new }
{
    match variables {
        Variables::OfItem => at.var(),
        Variables::Parameters(_) => at.var_of_scope(0),
    }
}

/// The type of a row over the types of its parts.
fn formed(
    at: &mut Parts,
    node: &Node,
    types: &[NodeRef],
    env: &Env,
    variables: &Variables,
) -> Result<Read, NoMemory>
    ensures carries { IfOk result (λ r. IsOfItem variables.now → EndsRow at.old at.new env.now (node_view node.now) (numbers types.now) r.ty.0) }
    ensures settles { IfOk result (λ r. (names : List Name) → IsOver variables.now names → SettlesRow at.old at.new env.now names (node_view node.now) (numbers types.now)) }
    ensures means { IfOk result (λ r. (names : List Name) (ps : List ℕ) → IsOver variables.now names → HasNodes variables.now ps → DenotesEnds at.old at.new env.now names ps (node_view node.now) (numbers types.now) r.ty.0) }
    ensures untyped { OnOk result (Untyped at.old at.new) }
    ensures goes { Goes at.old at.new }
{
    match node.row {
        RowName::Tcon => {
            let path = written_path(at.alloc(), node, 0, 1)?;
            constructed(at, &path, types, env, variables)
        }
        RowName::Tapp => {
            let path = written_path(at.alloc(), node, 1, 2)?;
            constructed(at, &path, types, env, variables)
        }
        _ => {
            let ty = composed(at, node, types, variables)?;
            Ok(unnamed(at, ty))
        }
    }
}

/// The same of a row in which no constructor stands.
#[tactic(auto, using(typing_state::proofs::Going::goes_trans, typing_state::proofs::Going::goes_refl, typing_state::proofs::Silence::store_silent), unfolding(syntax_tree::specs::Names::row_of))]
fn composed(
    at: &mut Parts,
    node: &Node,
    types: &[NodeRef],
    variables: &Variables,
) -> Result<NodeRef, NoMemory>
    ensures carries { IfOk result (λ m. IsOfItem variables.now → EndsPlainRow at.old at.new (node_view node.now) (numbers types.now) m.0) }
    ensures settles { IfOk result (λ m. (names : List Name) → IsOver variables.now names → SettlesPlainRow at.old at.new names (node_view node.now) (numbers types.now)) }
    ensures means { IfOk result (λ m. (names : List Name) (ps : List ℕ) → IsOver variables.now names → HasNodes variables.now ps → DenotesPlain at.old at.new names ps (node_view node.now) (numbers types.now) m.0) }
    ensures untyped { OnOk result (Untyped at.old at.new) }
    ensures goes { Goes at.old at.new }
{
    match node.row {
        RowName::Tvar => variable(at, token(node, 0), variables),
        RowName::Tparen => in_parentheses(at, node, types, variables),
        RowName::Ttuple => at.tuple(types),
        RowName::Tarrow => arrow_between(at, types, variables),
        _ => unresolved(at, variables),
    }
}

/// Whether there are two types.
fn are_two(types: &[NodeRef]) -> bool
    ensures { result ≡ (length types.now == 2) }
{
    types.len() == 2
}

/// t -> t
fn arrow_between(
    at: &mut Parts,
    types: &[NodeRef],
    variables: &Variables,
) -> Result<NodeRef, NoMemory>
    ensures carries { IfOk result (λ m. IsOfItem variables.now → MakesArrowOver at.old at.new (numbers types.now) m.0) }
    ensures arrow { IfOk result (λ m. MakesArrow at.old at.new (numbers types.now) m.0) }
    ensures silent { Silent at.old at.new }
    ensures untyped { OnOk result (Untyped at.old at.new) }
    ensures goes { Goes at.old at.new }
{
    if are_two(types) {
        return at.arrow(types[0], types[1]);
    }
    unresolved(at, variables)
}

/// ( t ); several types are one only in front of a constructor.
fn in_parentheses(
    at: &mut Parts,
    node: &Node,
    types: &[NodeRef],
    variables: &Variables,
) -> Result<NodeRef, NoMemory>
    ensures carries { IfOk result (λ m. IsOfItem variables.now → EndsParentheses at.old at.new (place_of (out-Node node.now).span) (numbers types.now) m.0) }
    ensures settles { IfOk result (λ m. (names : List Name) → IsOver variables.now names → SettlesParentheses at.old at.new names (place_of (out-Node node.now).span) (numbers types.now)) }
    ensures means { IfOk result (λ m. (names : List Name) (ps : List ℕ) → IsOver variables.now names → HasNodes variables.now ps → DenotesParentheses at.old at.new names ps (place_of (out-Node node.now).span) (numbers types.now) m.0) }
    ensures untyped { OnOk result (Untyped at.old at.new) }
    ensures goes { Goes at.old at.new }
{
    match types {
        [] => unresolved(at, variables),
        [ty] => Ok(*ty),
        _ => {
            at.arity(node.span, "(,)", 1, types.len())?;
            unresolved(at, variables)
        }
    }
}

/// 'a
fn variable(
    at: &mut Parts,
    name: Option<&Token>,
    variables: &Variables,
) -> Result<NodeRef, NoMemory>
    ensures carries { IfOk result (λ m. IsOfItem variables.now → ReadsVariable at.old at.new (option_map (λ t. tok_of t.now) name.entry) m.0) }
    ensures settles { IfOk result (λ m. (names : List Name) → IsOver variables.now names → SettlesVariable at.old at.new names (option_map (λ t. tok_of t.now) name.entry)) }
    ensures means { IfOk result (λ m. (names : List Name) (ps : List ℕ) → IsOver variables.now names → HasNodes variables.now ps → DenotesVariable at.old at.new names ps (option_map (λ t. tok_of t.now) name.entry) m.0) }
    ensures untyped { OnOk result (Untyped at.old at.new) }
    ensures goes { Goes at.old at.new }
{
    let Some(name) = name else {
        return unresolved(at, variables);
    };
    match variables {
        Variables::OfItem => written_variable(at, name),
        Variables::Parameters(parameters) => {
            match parameter_named(parameters, name.name.as_str()) {
                Some(node) => Ok(node),
                None => {
                    at.unbound(name.span, Word::TypeVariable, name.name.as_str())?;
                    unresolved(at, variables)
                }
            }
        }
    }
}

/// t, (t, t) u: `bound`, `arity`, and the type that the declaration gives the arguments.
fn constructed(
    at: &mut Parts,
    path: &WrittenPath<'_>,
    types: &[NodeRef],
    env: &Env,
    variables: &Variables,
) -> Result<Read, NoMemory>
    ensures carries { IfOk result (λ r. IsOfItem variables.now → EndsName at.old at.new env.now (path_as (path_view path.now)) (numbers types.now) r.ty.0) }
    ensures settles { IfOk result (λ r. (names : List Name) → IsOver variables.now names → SettlesName at.old at.new env.now names (path_as (path_view path.now)) (numbers types.now)) }
    ensures means { IfOk result (λ r. (names : List Name) (ps : List ℕ) → IsOver variables.now names → HasNodes variables.now ps → DenotesName at.old at.new env.now names ps (path_as (path_view path.now)) (numbers types.now) r.ty.0) }
    ensures untyped { OnOk result (Untyped at.old at.new) }
    ensures goes { Goes at.old at.new }
{
    let Some(last) = path.last else {
        let names = at.seen_names(env, path, None)?;
        let ty = unresolved(at, variables)?;
        return Ok(Read { ty, names });
    };
    let entry = at.bound(env, path, last, Kind::TypeName)?;
    let names = at.seen_names(env, path, entry.as_ref())?;
    let ty = named_type(at, last, entry.as_ref(), types, variables)?;
    Ok(Read { ty, names })
}

/// The type that a name's declaration gives the arguments; any type where the name isn't bound.
fn named_type(
    at: &mut Parts,
    last: &Token,
    entry: Option<&Rc<Entry>>,
    types: &[NodeRef],
    variables: &Variables,
) -> Result<NodeRef, NoMemory>
    ensures carries { IfOk result (λ m. IsOfItem variables.now → NamesTo (option_map (λ r. r.value) (option_copied entry.entry)) at.old at.new (tok_of last.now) (numbers types.now) m.0) }
    ensures settles { IfOk result (λ m. (names : List Name) → IsOver variables.now names → SettlesNamed (option_map (λ r. r.value) (option_copied entry.entry)) at.old at.new names (tok_of last.now) (numbers types.now)) }
    ensures means { IfOk result (λ m. (names : List Name) → IsOver variables.now names → DenotesNamed (option_map (λ r. r.value) (option_copied entry.entry)) at.old at.new names (tok_of last.now) (numbers types.now) m.0) }
    ensures untyped { OnOk result (Untyped at.old at.new) }
    ensures goes { Goes at.old at.new }
{
    match entry {
        None => unresolved(at, variables),
        Some(entry) => declared(at, last, entry, types, variables),
    }
}

/// The declaration behind a type's entry.
fn declaration_behind(entry: &Entry) -> Option<&Declaration>
    ensures { option_map (λ d. d.now) result ≡ declared_in entry.now.what }
{
    match &entry.what {
        What::Type(declaration) => Some(declaration),
        _ => None,
    }
}

/// The type that a declaration gives the arguments, where there are as many as it takes; else any type.
fn declared(
    at: &mut Parts,
    last: &Token,
    entry: &Entry,
    types: &[NodeRef],
    variables: &Variables,
) -> Result<NodeRef, NoMemory>
    ensures carries { IfOk result (λ m. IsOfItem variables.now → DeclaresTo at.old at.new (tok_of last.now) entry.now (numbers types.now) m.0) }
    ensures settles { IfOk result (λ m. (names : List Name) → IsOver variables.now names → SettlesDeclared (declared_in entry.now.what) at.old at.new names (tok_of last.now) (numbers types.now)) }
    ensures means { IfOk result (λ m. (names : List Name) → IsOver variables.now names → DenotesDeclared (declared_in entry.now.what) at.old at.new names (tok_of last.now) (numbers types.now) m.0) }
    ensures untyped { OnOk result (Untyped at.old at.new) }
    ensures goes { Goes at.old at.new }
{
    let Some(declaration) = declaration_behind(entry) else {
        return unresolved(at, variables);
    };
    let taken = declaration.arity as usize;
    match at.arity(last.span, last.name.as_str(), taken, types.len())? {
        Verdict::Reported => unresolved(at, variables),
        Verdict::Kept => match variables {
            Variables::OfItem => applied(at, declaration, types),
            Variables::Parameters(_) => applied_with_unknowns(at, declaration, types),
        },
    }
}

/// The parts of a type expression as they are read; those of an application stand in front of its constructor.
#[tactic(auto, unfolding(crate::specs::Operands::parts_by_row, syntax_tree::specs::Names::row_of))]
fn parts_in<'a>(alloc: Global, node: &'a Node, number: u32) -> Result<Vec<Operand<'a>>, NoMemory>
    ensures { IfOk result (λ os. map operand_view os.items ≡ parts_read number (node_view node.now)) }
{
    match node.row {
        RowName::Tparen => operands(alloc, node, number, 1),
        RowName::Ttuple | RowName::Tarrow => operands_of(alloc, node, number),
        _ => Ok(Vec::new(alloc)),
    }
}

/// The types in parentheses, where there are several.
fn several_in(alloc: Global, left: Operand<'_>) -> Result<Option<Vec<Operand<'_>>>, NoMemory>
    ensures { IfOk result (λ r. option_map (λ os. map operand_view os.items) r ≡ several (operand_view left.entry)) }
{
    let Some(node) = left.node else {
        return Ok(None);
    };
    if node.row != RowName::Tparen {
        return Ok(None);
    }
    let inner = operands(alloc, node, left.number, 1)?;
    if inner.len() >= 2 {
        Ok(Some(inner))
    } else {
        Ok(None)
    }
}

/// A list of one type.
fn one_of(alloc: Global, ty: NodeRef) -> Result<Vec<NodeRef>, NoMemory>
    ensures { IfOk result (λ ms. ms.items ≡ ty ∷ []) }
{
    let mut one = Vec::new(alloc);
    push(&mut one, ty)?;
    Ok(one)
}
