//! for x = e to e do e done
#![tactic(auto, using(typing_state::proofs::Going::goes_trans, typing_state::proofs::Going::goes_refl), unfolding(syntax_tree::specs::Names::row_of))]

ghost use Rattle.std.specs.Prelude.{◌≡◌, IfOk};
ghost use Rattle.tree_model.specs.Trees.{Place, inner};
ghost use Rattle.operand_laws.specs.Operands.{number_of};
ghost use Rattle.typing_steps.specs.Typing.{TypesRow};
ghost use Rattle.typing_rows.specs.CarriedRows.{IsCarried};
ghost use Rattle.typing_rows.specs.Asked.{row_expression};
ghost use Rattle.syntax_tree.specs.View.{node_view};
ghost use Rattle.row_parts.specs.Numbered.{numbered};
ghost use Rattle.typing_state.specs.Goes.{Goes};
ghost use Rattle.expression_steps.specs.declared.forms.RowForm.{RowForm};
ghost use Rattle.value_forms.specs.Heads.{row_at};
ghost use Rattle.expression_steps.specs.Forms.{form_of};

use crate::exprs::{type_under, typed_as};
use expression_steps::loop_scope;
use row_parts::operand_in;
use syntax_tree::Node;
use typing_state::{Depth, Env, NoMemory, Parts};
use use_typing::{Sign, Used};

/// for x = e to e do e done: the bounds are ints, and so is the variable, which stands in the body
#[cycle(exprs)]
pub fn for_loop(
    at: &mut Parts,
    node: &Node,
    number: u32,
    env: &Env,
    depth: Depth,
) -> Result<Used, NoMemory>
    ensures carries { IfOk result (λ u. (place : Place) → IsCarried (numbered number place (inner (node_view node.now))) → form_of (row_at (node_view node.now)) ≡ RowForm.Loop → TypesRow at.old at.new env.now (λ c. (row_expression at.old.item number place (node_view node.now)).typed c) (number_of at.old.item number) u.ty.0) }
    ensures goes { Goes at.old at.new }
{
    let int = at.constants.int;
    let first = operand_in(node, number, 3);
    typed_as(at, first, Some(int), env, depth)?;
    let last = operand_in(node, number, 5);
    typed_as(at, last, Some(int), env, depth)?;
    let scope = loop_scope(at, node, env)?;
    let body = operand_in(node, number, 7);
    type_under(at, body, Sign::None, &scope.env, depth.inside()?)?;
    let ty = at.constants.unit;
    Ok(Used {
        ty,
        names: scope.names,
    })
}
