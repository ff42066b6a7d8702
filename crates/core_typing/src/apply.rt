//! Applications: of an expression, of an operator and of a constructor.
#![tactic(auto, using(typing_state::proofs::Going::goes_trans, typing_state::proofs::Going::goes_refl), unfolding(syntax_tree::specs::Names::row_of))]

ghost use Rattle.std.specs.Prelude.{◌≡◌, ℕ, map, All, IfOk, OnOk};
ghost use Rattle.tree_model.specs.Trees.{Place, inner};
ghost use Rattle.operand_laws.specs.Operands.{number_of, expression_of};
ghost use Rattle.typing_steps.specs.Typing.{TypesRow, path_as};
ghost use Rattle.typing_rows.specs.CarriedRows.{IsCarried};
ghost use Rattle.typing_rows.specs.Asked.{under_minus, row_expression, expressions_of, signed_expressions, applied_asks, operated_asks};
ghost use Rattle.typing_rows.specs.Contracts.{TypesAs, TypesArgument, TypesGiven, TypesHead, TypesLater, TypesConstructed};
ghost use Rattle.use_typing.specs.Constants.{is_negated};
ghost use Rattle.expression_steps.specs.Operators.{IsOperation};
ghost use Rattle.syntax_tree.specs.View.{place_of, tok_of, node_view};
ghost use Rattle.row_parts.specs.Numbered.{numbered, filled_in, operand_view, path_view};
ghost use Rattle.typing_state.specs.Goes.{Goes};
ghost use Rattle.expression_steps.specs.declared.forms.RowForm.{RowForm};
ghost use Rattle.value_forms.specs.Heads.{row_at};
ghost use Rattle.expression_steps.specs.Forms.{form_of};
ghost use Rattle.expression_steps.specs.Heads.{is_float_at};

use crate::exprs::{type_each, type_under, typed_as};
use expression_steps::{
    Head, Operator, ask_arrow, built_by_unknown, constructor_path, is_float, negative_float,
    note_head, operator_of, operator_value,
};
use row_parts::{Operand, WrittenPath, operand_in, operands, operands_of};
use syntax_tree::{Node, Span};
use typing_state::{Depth, Env, NoMemory, NodeRef, Parts};
use use_typing::{Names, Sign, Used, any_type, constructor, unnamed};

/// e e e
#[cycle(exprs)]
pub fn application(
    at: &mut Parts,
    node: &Node,
    number: u32,
    env: &Env,
    depth: Depth,
) -> Result<Used, NoMemory>
    ensures carries { IfOk result (λ u. (place : Place) → IsCarried (numbered number place (inner (node_view node.now))) → form_of (row_at (node_view node.now)) ≡ RowForm.Application → TypesRow at.old at.new env.now (λ c. (row_expression at.old.item number place (node_view node.now)).typed c) (number_of at.old.item number) u.ty.0) }
    ensures goes { Goes at.old at.new }
{
    let head = operand_in(node, number, 0);
    let given = operands(at.alloc(), node, number, 1)?;
    match constructor_path(at, head)? {
        Some(path) => constructed(at, head, &path, &given, env, depth),
        None => applied(at, head, &given, env, depth),
    }
}

/// A head that is no constructor, with its arguments.
#[cycle(exprs)]
fn applied(
    at: &mut Parts,
    head: Operand<'_>,
    given: &[Operand<'_>],
    env: &Env,
    depth: Depth,
) -> Result<Used, NoMemory>
    ensures carries { IfOk result (λ u. IsCarried (operand_view head.entry) → All IsCarried (map operand_view given.now) → (n : ℕ) → TypesRow at.old at.new env.now (applied_asks n (expression_of at.old.item (operand_view head.entry)) (expressions_of at.old.item (map operand_view given.now))) n u.ty.0) }
    ensures goes { Goes at.old at.new }
{
    let ty = type_under(at, head, Sign::None, env, depth.inside()?)?;
    let ty = arguments(at, head.span, ty, given, Sign::None, env, depth)?;
    Ok(unnamed(at, ty))
}

/// A e e: the constructor with its first argument; the others as those of any head. Of the arguments of one that isn't known nothing
/// is asked.
#[cycle(exprs)]
fn constructed(
    at: &mut Parts,
    head: Operand<'_>,
    path: &WrittenPath<'_>,
    given: &[Operand<'_>],
    env: &Env,
    depth: Depth,
) -> Result<Used, NoMemory>
    ensures carries { IfOk result (λ u. All IsCarried (map operand_view given.now) → (n : ℕ) → TypesConstructed at.old at.new env.now n (path_as (path_view path.now)) (expression_of at.old.item (operand_view head.entry)) (expressions_of at.old.item (map operand_view given.now)) u.ty.0) }
    ensures goes { Goes at.old at.new }
{
    let Some((first, later)) = given.split_first() else {
        let ty = type_under(at, head, Sign::None, env, depth.inside()?)?;
        return Ok(unnamed(at, ty));
    };
    let built = with_argument(at, head.number, path, *first, env, depth)?;
    later_arguments(at, head.span, built, later, env, depth)
}

/// A constructor with its first argument, which has the declared type. The constructor is recorded.
#[cycle(exprs)]
fn with_argument(
    at: &mut Parts,
    number: u32,
    path: &WrittenPath<'_>,
    first: Operand<'_>,
    env: &Env,
    depth: Depth,
) -> Result<Head, NoMemory>
    ensures carries { IfOk result (λ h. IsCarried (operand_view first.entry) → (n : ℕ) → TypesHead at.old at.new env.now n (number_of at.old.item number) (path_as (path_view path.now)) h.known (expression_of at.old.item (operand_view first.entry)) h.ty.0) }
    ensures goes { Goes at.old at.new }
{
    let found = constructor(at, env, path, 1)?;
    typed_as(at, first, found.argument, env, depth)?;
    note_head(at, number, found, env)
}

/// The arguments of a constructor after the first one.
#[cycle(exprs)]
fn later_arguments(
    at: &mut Parts,
    place: Span,
    head: Head,
    later: &[Operand<'_>],
    env: &Env,
    depth: Depth,
) -> Result<Used, NoMemory>
    ensures carries { IfOk result (λ u. All IsCarried (map operand_view later.now) → TypesLater at.old at.new env.now head.known (place_of place) (expressions_of at.old.item (map operand_view later.now)) head.ty.0 u.ty.0) }
    ensures goes { Goes at.old at.new }
{
    if !head.known {
        type_each(at, later, env, depth)?;
        return built_by_unknown(at, head.ty, later);
    }
    let ty = arguments(at, place, head.ty, later, Sign::None, env, depth)?;
    Ok(unnamed(at, ty))
}

/// The type of a head with its arguments: before each the head is an arrow, and the argument is its left side.
#[cycle(exprs)]
fn arguments(
    at: &mut Parts,
    place: Span,
    head: NodeRef,
    given: &[Operand<'_>],
    sign: Sign,
    env: &Env,
    depth: Depth,
) -> Result<NodeRef, NoMemory>
    ensures carries { IfOk result (λ m. All IsCarried (map operand_view given.now) → TypesGiven at.old at.new env.now (place_of place) (signed_expressions (is_negated sign) at.old.item (map operand_view given.now)) head.0 m.0) }
    ensures goes { Goes at.old at.new }
{
    let mut ty = head;
    for one in given {
        ty = argument(at, place, ty, *one, sign, env, depth)?;
    }
    Ok(ty)
}

/// The type of a head with an argument: the head is an arrow, and the argument is its left side.
#[cycle(exprs)]
fn argument(
    at: &mut Parts,
    place: Span,
    head: NodeRef,
    one: Operand<'_>,
    sign: Sign,
    env: &Env,
    depth: Depth,
) -> Result<NodeRef, NoMemory>
    ensures carries { IfOk result (λ m. IsCarried (operand_view one.entry) → TypesArgument at.old at.new env.now (place_of place) (under_minus (is_negated sign) (expression_of at.old.item (operand_view one.entry))) head.0 m.0) }
    ensures goes { Goes at.old at.new }
{
    let (from, to) = ask_arrow(at, place, head, env)?;
    typed_argument(at, one, from, sign, env, depth)?;
    Ok(to)
}

/// An argument, which is the left side of its head.
#[cycle(exprs)]
fn typed_argument(
    at: &mut Parts,
    one: Operand<'_>,
    from: NodeRef,
    sign: Sign,
    env: &Env,
    depth: Depth,
) -> Result<(), NoMemory>
    ensures carries { OnOk result (IsCarried (operand_view one.entry) → TypesAs at.old at.new env.now (under_minus (is_negated sign) (expression_of at.old.item (operand_view one.entry))) from.0) }
    ensures goes { Goes at.old at.new }
{
    let found = type_under(at, one, sign, env, depth.inside()?)?;
    at.equal(one.span, found, from, env)?;
    Ok(())
}

/// ! e, e + e: the operator with its arguments; where it is missing the arguments alone
#[cycle(exprs)]
pub fn operation(
    at: &mut Parts,
    node: &Node,
    number: u32,
    env: &Env,
    depth: Depth,
) -> Result<Used, NoMemory>
    ensures carries { IfOk result (λ u. (place : Place) → IsCarried (numbered number place (inner (node_view node.now))) → IsOperation (row_at (node_view node.now)) (is_float_at (filled_in number (node_view node.now) 1).part) → TypesRow at.old at.new env.now (λ c. (row_expression at.old.item number place (node_view node.now)).typed c) (number_of at.old.item number) u.ty.0) }
    ensures goes { Goes at.old at.new }
{
    let given = operands_of(at.alloc(), node, number)?;
    match operator_of(at, node)? {
        Some(operator) => operated(at, &operator, &given, env, depth),
        None => {
            type_each(at, &given, env, depth)?;
            any_type(at)
        }
    }
}

/// An operator with its arguments.
#[cycle(exprs)]
fn operated(
    at: &mut Parts,
    operator: &Operator,
    given: &[Operand<'_>],
    env: &Env,
    depth: Depth,
) -> Result<Used, NoMemory>
    ensures carries { IfOk result (λ u. All IsCarried (map operand_view given.now) → (n : ℕ) → TypesRow at.old at.new env.now (operated_asks n (tok_of operator.now.named) (signed_expressions (is_negated operator.now.sign) at.old.item (map operand_view given.now))) n u.ty.0) }
    ensures goes { Goes at.old at.new }
{
    let found = operator_value(at, &operator.named, env)?;
    let place = operator.named.span;
    let ty = arguments(at, place, found.ty, given, operator.sign, env, depth)?;
    let names: Names = found.names;
    Ok(Used { ty, names })
}

/// - e, -. e: over a numeral with a point, which is recorded, its type is float, and elsewhere it is the operator with its argument
#[cycle(exprs)]
pub fn minus(
    at: &mut Parts,
    node: &Node,
    number: u32,
    env: &Env,
    depth: Depth,
) -> Result<Used, NoMemory>
    ensures carries { IfOk result (λ u. (place : Place) → IsCarried (numbered number place (inner (node_view node.now))) → form_of (row_at (node_view node.now)) ≡ RowForm.Minus → TypesRow at.old at.new env.now (λ c. (row_expression at.old.item number place (node_view node.now)).typed c) (number_of at.old.item number) u.ty.0) }
    ensures goes { Goes at.old at.new }
{
    let part = operand_in(node, number, 1);
    if is_float(part) {
        return negative_float(at, part.number, env);
    }
    operation(at, node, number, env, depth)
}
