//! Fields that are set: the field, which is recorded, and the right part, which is the field.
#![tactic(auto, using(typing_state::proofs::Going::goes_trans, typing_state::proofs::Going::goes_refl), unfolding(syntax_tree::specs::Names::row_of))]

ghost use Rattle.std.specs.Prelude.{◌≡◌, IfOk};
ghost use Rattle.tree_model.specs.Rows.{field_row};
ghost use Rattle.tree_model.specs.Trees.{Place, inner};
ghost use Rattle.operand_laws.specs.Operands.{number_of, expression_of};
ghost use Rattle.typing_steps.specs.Typing.{TypesRow};
ghost use Rattle.typing_rows.specs.CarriedRows.{IsCarried};
ghost use Rattle.typing_rows.specs.Asked.{row_expression};
ghost use Rattle.typing_rows.specs.Fields.{TypesSettable};
ghost use Rattle.syntax_tree.specs.View.{node_view};
ghost use Rattle.row_parts.specs.Numbered.{numbered, operand_view};
ghost use Rattle.typing_state.specs.Goes.{Goes};
ghost use Rattle.expression_steps.specs.declared.forms.RowForm.{RowForm};
ghost use Rattle.value_forms.specs.Heads.{row_at};
ghost use Rattle.expression_steps.specs.Forms.{form_of};

use crate::exprs::{type_under, typed_as};
use crate::plain::type_parts;
use expression_steps::{field_node, settable};
use row_parts::{Operand, operand_in, operands_of};
use syntax_tree::{Node, RowName};
use typing_state::{Depth, Env, NoMemory, NodeRef, Parts};
use use_typing::{Sign, Used, unnamed};

/// e . l <- e: the field, `mutable` of its label, and the right part, which is the field
#[cycle(exprs)]
pub fn set(
    at: &mut Parts,
    node: &Node,
    number: u32,
    env: &Env,
    depth: Depth,
) -> Result<Used, NoMemory>
    ensures carries { IfOk result (λ u. (place : Place) → IsCarried (numbered number place (inner (node_view node.now))) → form_of (row_at (node_view node.now)) ≡ RowForm.Set → TypesRow at.old at.new env.now (λ c. (row_expression at.old.item number place (node_view node.now)).typed c) (number_of at.old.item number) u.ty.0) }
    ensures goes { Goes at.old at.new }
{
    let left = operand_in(node, number, 0);
    let ty = set_part(at, left, env, depth)?;
    let right = operand_in(node, number, 2);
    typed_as(at, right, Some(ty), env, depth)?;
    let unit = at.constants.unit;
    Ok(unnamed(at, unit))
}

/// The left part of `e . l <- e`, and `mutable` of its label, where it is found.
#[cycle(exprs)]
fn set_part(at: &mut Parts, part: Operand<'_>, env: &Env, depth: Depth) -> Result<NodeRef, NoMemory>
    ensures carries { IfOk result (λ m. IsCarried (operand_view part.entry) → TypesSettable at.old at.new env.now (expression_of at.old.item (operand_view part.entry)) m.0) }
    ensures goes { Goes at.old at.new }
{
    match field_node(part) {
        Some(node) => set_field(at, node, part.number, env, depth.inside()?),
        None => type_under(at, part, Sign::None, env, depth.inside()?),
    }
}

/// A field that is set: as any field, and then `mutable` of its label. It is recorded.
#[cycle(exprs)]
fn set_field(
    at: &mut Parts,
    node: &Node,
    number: u32,
    env: &Env,
    depth: Depth,
) -> Result<NodeRef, NoMemory>
    ensures carries { IfOk result (λ m. (place : Place) → IsCarried (numbered number place (inner (node_view node.now))) → row_at (node_view node.now) ≡ field_row → TypesSettable at.old at.new env.now (expression_of at.old.item (numbered number place (inner (node_view node.now)))) m.0) }
    ensures goes { Goes at.old at.new }
{
    let parts = operands_of(at.alloc(), node, number)?;
    let types = type_parts(at, RowName::Field, &parts, env, depth)?;
    let used = settable(at, node, &parts, &types, env)?;
    at.note(number, env, Some(used.ty), used.names)?;
    Ok(used.ty)
}
