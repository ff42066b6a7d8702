//! Rows whose parts are typed one after the other, with demands between and behind them.
#![tactic(auto, using(typing_state::proofs::Going::goes_trans, typing_state::proofs::Going::goes_refl), unfolding(syntax_tree::specs::Names::row_of))]

ghost use Rattle.std.specs.Prelude.{◌≡◌, map, All, IfOk};
ghost use Rattle.tree_model.specs.Trees.{Place, inner};
ghost use Rattle.type_nodes.specs.Views.{numbers};
ghost use Rattle.operand_laws.specs.Operands.{number_of, expression_of};
ghost use Rattle.typing_steps.specs.Typing.{TypesRow};
ghost use Rattle.typing_rows.specs.CarriedRows.{IsCarried};
ghost use Rattle.typing_rows.specs.Asked.{row_expression, expressions_of};
ghost use Rattle.typing_rows.specs.Contracts.{TypesParts, TypesPart};
ghost use Rattle.syntax_tree.specs.Names.{row_of};
ghost use Rattle.syntax_tree.specs.View.{node_view};
ghost use Rattle.row_parts.specs.Numbered.{numbered, operand_view};
ghost use Rattle.typing_state.specs.Goes.{Goes};
ghost use Rattle.expression_steps.specs.declared.forms.RowForm.{RowForm};
ghost use Rattle.value_forms.specs.Heads.{row_at};
ghost use Rattle.expression_steps.specs.Forms.{form_of};

use crate::exprs::type_under;
use expression_steps::{behind_part, behind_parts};
use owned_lists::push;
use row_parts::{Operand, first_operand, operand_in, operands_of};
use syntax_tree::{Node, RowName};
use type_expressions::as_written;
use typing_state::{Depth, Env, NoMemory, NodeRef, Parts};
use use_typing::{Sign, Used, unnamed};

/// A row whose parts are typed in order.
#[cycle(exprs)]
pub fn plain(
    at: &mut Parts,
    node: &Node,
    number: u32,
    env: &Env,
    depth: Depth,
) -> Result<Used, NoMemory>
    ensures carries { IfOk result (λ u. (place : Place) → IsCarried (numbered number place (inner (node_view node.now))) → form_of (row_at (node_view node.now)) ≡ RowForm.Plain → TypesRow at.old at.new env.now (λ c. (row_expression at.old.item number place (node_view node.now)).typed c) (number_of at.old.item number) u.ty.0) }
    ensures goes { Goes at.old at.new }
{
    let parts = operands_of(at.alloc(), node, number)?;
    let types = type_parts(at, node.row, &parts, env, depth)?;
    behind_parts(at, node, &parts, &types, env)
}

/// The types of the parts of a row, each with what is asked of it as soon as it is typed.
#[cycle(exprs)]
pub fn type_parts(
    at: &mut Parts,
    row: RowName,
    parts: &[Operand<'_>],
    env: &Env,
    depth: Depth,
) -> Result<Vec<NodeRef>, NoMemory>
    ensures carries { IfOk result (λ ts. All IsCarried (map operand_view parts.now) → TypesParts at.old at.new env.now (row_of row) (expressions_of at.old.item (map operand_view parts.now)) (numbers ts.items)) }
    ensures goes { Goes at.old at.new }
{
    let mut types = Vec::new(at.alloc());
    for part in parts {
        let place = types.len();
        let ty = type_part(at, row, place, *part, env, depth)?;
        push(&mut types, ty)?;
    }
    Ok(types)
}

/// The type of a part of a row, with what is asked of it as soon as it is typed.
#[cycle(exprs)]
fn type_part(
    at: &mut Parts,
    row: RowName,
    place: usize,
    part: Operand<'_>,
    env: &Env,
    depth: Depth,
) -> Result<NodeRef, NoMemory>
    ensures carries { IfOk result (λ m. IsCarried (operand_view part.entry) → TypesPart at.old at.new env.now (row_of row) place (expression_of at.old.item (operand_view part.entry)) m.0) }
    ensures goes { Goes at.old at.new }
{
    let ty = type_under(at, part, Sign::None, env, depth.inside()?)?;
    behind_part(at, row, place, part, ty, env)?;
    Ok(ty)
}

/// ( e ), ( e : t )
#[cycle(exprs)]
pub fn parenthesised(
    at: &mut Parts,
    node: &Node,
    number: u32,
    env: &Env,
    depth: Depth,
) -> Result<Used, NoMemory>
    ensures carries { IfOk result (λ u. (place : Place) → IsCarried (numbered number place (inner (node_view node.now))) → form_of (row_at (node_view node.now)) ≡ RowForm.Parenthesised → TypesRow at.old at.new env.now (λ c. (row_expression at.old.item number place (node_view node.now)).typed c) (number_of at.old.item number) u.ty.0) }
    ensures goes { Goes at.old at.new }
{
    let part = operand_in(node, number, 1);
    let ty = type_under(at, part, Sign::None, env, depth.inside()?)?;
    let ty = as_written(at, first_operand(node, number, 3), part, ty, env, depth)?;
    Ok(unnamed(at, ty))
}
