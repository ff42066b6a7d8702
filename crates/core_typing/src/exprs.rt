//! The walk over expressions: each row types its parts in order, with its demands between and behind them.
#![tactic(auto, using(typing_state::proofs::Going::goes_trans, typing_state::proofs::Going::goes_refl), unfolding(syntax_tree::specs::Names::row_of))]

ghost use Rattle.std.specs.Prelude.{◌≡◌, None, false, map, option_map, All, IfOk, OnOk};
ghost use Rattle.tree_model.specs.Trees.{Place, inner};
ghost use Rattle.operand_laws.specs.Operands.{number_of, expression_of};
ghost use Rattle.typing_steps.specs.Typing.{TypesTo, TypesRow};
ghost use Rattle.typing_rows.specs.CarriedRows.{IsCarried};
ghost use Rattle.typing_rows.specs.Asked.{under_minus, row_expression, expressions_of};
ghost use Rattle.typing_rows.specs.Contracts.{TypesEach, TypesAsIf};
ghost use Rattle.syntax_tree.specs.View.{node_view};
ghost use Rattle.row_parts.specs.Numbered.{numbered, operand_view};
ghost use Rattle.typing_state.specs.Goes.{Goes};
ghost use Rattle.use_typing.specs.Constants.{is_negated};
ghost use Rattle.expression_steps.specs.Leaves.{TellsAlone, TellsAs};
ghost use Rattle.value_forms.specs.Heads.{row_at};
ghost use Rattle.expression_steps.specs.Forms.{form_of};

use crate::apply::{application, minus, operation};
use crate::bindings::let_in;
use crate::cases::{function_of_cases, match_of};
use crate::fields::set;
use crate::functions::function;
use crate::loops::for_loop;
use crate::plain::{parenthesised, plain};
use crate::records::record;
use expression_steps::{RowForm, form_of, leaf};
use row_parts::Operand;
use syntax_tree::Node;
use typing_state::{Depth, Env, NoMemory, NodeRef, Parts};
use use_typing::{Sign, Used, equal_if};

/// Types an expression, or a missing one. It is recorded.
pub fn type_expr(
    at: &mut Parts,
    e: Operand<'_>,
    env: &Env,
    depth: Depth,
) -> Result<NodeRef, NoMemory>
    ensures carries { IfOk result (λ m. IsCarried (operand_view e.entry) → TypesTo at.old at.new env.now (λ c. (expression_of at.old.item (operand_view e.entry)).typed c) (λ ch. ch.type_at (expression_of at.old.item (operand_view e.entry)).node) m.0) }
    ensures alone { OnOk result (TellsAlone (operand_view e.entry).part false at.old at.new env.now) }
    ensures goes { Goes at.old at.new }
{
    type_under(at, e, Sign::None, env, depth)
}

/// Types an expression behind what stands directly in front of it.
#[cycle(exprs)]
pub fn type_under(
    at: &mut Parts,
    e: Operand<'_>,
    sign: Sign,
    env: &Env,
    depth: Depth,
) -> Result<NodeRef, NoMemory>
    ensures carries { IfOk result (λ m. IsCarried (operand_view e.entry) → TypesTo at.old at.new env.now (λ c. (under_minus (is_negated sign) (expression_of at.old.item (operand_view e.entry))).typed c) (λ ch. ch.type_at (expression_of at.old.item (operand_view e.entry)).node) m.0) }
    ensures alone { OnOk result (TellsAlone (operand_view e.entry).part (is_negated sign) at.old at.new env.now) }
    ensures goes { Goes at.old at.new }
{
    let Some(node) = e.node else {
        let ty = at.var()?;
        at.note_type(e.number, env, ty)?;
        return Ok(ty);
    };
    let used = typed_row(at, node, e.number, sign, env, depth)?;
    at.note(e.number, env, Some(used.ty), used.names)?;
    Ok(used.ty)
}

/// The type of a row, and what its own names stand for.
#[cycle(exprs)]
fn typed_row(
    at: &mut Parts,
    node: &Node,
    number: u32,
    sign: Sign,
    env: &Env,
    depth: Depth,
) -> Result<Used, NoMemory>
    ensures carries { IfOk result (λ u. (place : Place) → IsCarried (numbered number place (inner (node_view node.now))) → TypesRow at.old at.new env.now (λ c. (under_minus (is_negated sign) (row_expression at.old.item number place (node_view node.now))).typed c) (number_of at.old.item number) u.ty.0) }
    ensures alone { OnOk result (TellsAs (form_of (row_at (node_view node.now))) (node_view node.now) (is_negated sign) at.old at.new env.now) }
    ensures goes { Goes at.old at.new }
{
    match form_of(node.row) {
        RowForm::Leaf => leaf(at, node, number, sign, env),
        RowForm::Application => application(at, node, number, env, depth),
        RowForm::Operation => operation(at, node, number, env, depth),
        RowForm::Minus => minus(at, node, number, env, depth),
        RowForm::Record => record(at, node, number, env, depth),
        RowForm::Let => let_in(at, node, number, env, depth),
        RowForm::Match => match_of(at, node, number, env, depth),
        RowForm::Cases => function_of_cases(at, node, number, env, depth),
        RowForm::Function => function(at, node, number, env, depth),
        RowForm::Parenthesised => parenthesised(at, node, number, env, depth),
        RowForm::Set => set(at, node, number, env, depth),
        RowForm::Loop => for_loop(at, node, number, env, depth),
        RowForm::Plain => plain(at, node, number, env, depth),
    }
}

/// Types expressions, of which nothing is asked.
#[cycle(exprs)]
pub fn type_each(
    at: &mut Parts,
    es: &[Operand<'_>],
    env: &Env,
    depth: Depth,
) -> Result<(), NoMemory>
    ensures carries { OnOk result (All IsCarried (map operand_view es.now) → TypesEach at.old at.new env.now (expressions_of at.old.item (map operand_view es.now))) }
    ensures goes { Goes at.old at.new }
{
    for e in es {
        type_under(at, *e, Sign::None, env, depth.inside()?)?;
    }
    Ok(())
}

/// Types an expression, and asks that it has the wanted type, where one is wanted.
#[cycle(exprs)]
pub fn typed_as(
    at: &mut Parts,
    e: Operand<'_>,
    wanted: Option<NodeRef>,
    env: &Env,
    depth: Depth,
) -> Result<NodeRef, NoMemory>
    ensures carries { OnOk result (IsCarried (operand_view e.entry) → TypesAsIf at.old at.new env.now (expression_of at.old.item (operand_view e.entry)) (option_map (λ w. w.0) wanted)) }
    ensures typed { IfOk result (λ m. wanted ≡ None → IsCarried (operand_view e.entry) → TypesTo at.old at.new env.now (λ c. (expression_of at.old.item (operand_view e.entry)).typed c) (λ ch. ch.type_at (expression_of at.old.item (operand_view e.entry)).node) m.0) }
    ensures goes { Goes at.old at.new }
{
    let ty = type_under(at, e, Sign::None, env, depth.inside()?)?;
    equal_if(at, e.span, ty, wanted, env)?;
    Ok(ty)
}
