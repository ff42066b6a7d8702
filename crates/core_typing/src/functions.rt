//! fun p p -> e
#![tactic(auto, using(typing_state::proofs::Going::goes_trans, typing_state::proofs::Going::goes_refl, typing_state::proofs::Silence::store_silent, typing_state::proofs::Silence::silent_refl, typing_state::proofs::Silence::silent_trans))]

ghost use Rattle.std.specs.Prelude.{IfOk};
ghost use Rattle.tree_model.specs.Trees.{Place};
ghost use Rattle.syntax_tree.specs.View.{node_view};
ghost use Rattle.operand_laws.specs.Operands.{number_of};
ghost use Rattle.typing_state.specs.Goes.{Goes};
ghost use Rattle.typing_steps.specs.Typing.{TypesRow};
ghost use Rattle.typing_rows.specs.Asked.{row_expression};
ghost use Rattle.binding_rows.specs.CaseCarried.{IsFunNode};

use crate::exprs::type_under;
use binding_steps::{arrows, type_parameters};
use row_parts::{operand_in, operands};
use syntax_tree::Node;
use typing_state::{Depth, Env, NoMemory, Parts};
use use_typing::{Sign, Used, unnamed};

/// fun p p -> e
#[cycle(exprs)]
pub fn function(
    at: &mut Parts,
    node: &Node,
    number: u32,
    env: &Env,
    depth: Depth,
) -> Result<Used, NoMemory>
    ensures carries { IfOk result (λ u. (place : Place) → IsFunNode number (node_view node.now) → TypesRow at.old at.new env.now (λ c. (row_expression at.old.item number place (node_view node.now)).typed c) (number_of at.old.item number) u.ty.0) }
    ensures goes { Goes at.old at.new }
{
    let parameters = operands(at.alloc(), node, number, 1)?;
    let (types, inner) = type_parameters(at, &parameters, env, depth)?;
    let body = operand_in(node, number, 3);
    let to = type_under(at, body, Sign::None, &inner, depth.inside()?)?;
    let ty = arrows(at, &types, to)?;
    Ok(unnamed(at, ty))
}
