//! Rows without parts: names, constants, holes, and constructors alone.
#![tactic(auto, using(typing_state::proofs::Going::goes_trans, typing_state::proofs::Going::goes_refl), unfolding(syntax_tree::specs::Names::row_of))]

ghost use Rattle.std.specs.Prelude.{◌≡◌, ℕ, None, IfOk, OnOk, option_map};
ghost use Rattle.typing_model.specs.Patterns.{constructor_alone};
ghost use Rattle.tree_model.specs.Trees.{Place, inner};
ghost use Rattle.operand_laws.specs.Operands.{number_of};
ghost use Rattle.typing_steps.specs.Typing.{TypesRow, path_as};
ghost use Rattle.typing_rows.specs.CarriedRows.{IsCarried};
ghost use Rattle.typing_rows.specs.Asked.{under_minus, row_expression};
ghost use Rattle.syntax_tree.specs.View.{node_view};
ghost use Rattle.row_parts.specs.Numbered.{numbered, operand_view, path_view};
ghost use Rattle.typing_state.specs.Goes.{Goes};
ghost use Rattle.use_typing.specs.Constants.{is_negated};
ghost use Rattle.use_typing.specs.Uses.{TellsUse};
ghost use Rattle.expression_steps.specs.declared.forms.RowForm.{RowForm};
ghost use Rattle.expression_steps.specs.Leaves.{TellsLeaf, TellsValue};
ghost use Rattle.value_forms.specs.Heads.{row_at, constructor_at, constructor_in, upper_path};
ghost use Rattle.expression_steps.specs.Forms.{form_of, value_in};

use row_parts::{Operand, WrittenPath, token, written_path};
use syntax_tree::{Node, RowName, TokenKind};
use typing_state::{Env, NoMemory, Parts};
use use_typing::{Names, Sign, Used, any_type, constant, constructor, unnamed, value};

/// A row without parts.
pub fn leaf(
    at: &mut Parts,
    node: &Node,
    number: u32,
    sign: Sign,
    env: &Env,
) -> Result<Used, NoMemory>
    ensures carries { IfOk result (λ u. (place : Place) → IsCarried (numbered number place (inner (node_view node.now))) → form_of (row_at (node_view node.now)) ≡ RowForm.Leaf → TypesRow at.old at.new env.now (λ c. (under_minus (is_negated sign) (row_expression at.old.item number place (node_view node.now))).typed c) (number_of at.old.item number) u.ty.0) }
    ensures tells { OnOk result (TellsLeaf (node_view node.now) (is_negated sign) at.old at.new env.now) }
    ensures goes { Goes at.old at.new }
{
    match constructor_path(at, Operand::of(node, number))? {
        Some(path) => constructor_alone(at, env, &path),
        None => leaf_value(at, node, sign, env),
    }
}

/// A constructor without arguments.
fn constructor_alone(at: &mut Parts, env: &Env, path: &WrittenPath<'_>) -> Result<Used, NoMemory>
    ensures carries { IfOk result (λ u. (n : ℕ) → TypesRow at.old at.new env.now (λ c. constructor_alone c n (path_as (path_view path.now))) n u.ty.0) }
    ensures tells { OnOk result (TellsUse (path_view path.now) 0 at.old at.new env.now) }
    ensures goes { Goes at.old at.new }
{
    let found = constructor(at, env, path, 0)?;
    Ok(Used {
        ty: found.built,
        names: found.names,
    })
}

/// A row without parts that is no constructor.
fn leaf_value(at: &mut Parts, node: &Node, sign: Sign, env: &Env) -> Result<Used, NoMemory>
    ensures carries { IfOk result (λ u. (number : ℕ) (place : Place) → IsCarried (numbered number place (inner (node_view node.now))) → form_of (row_at (node_view node.now)) ≡ RowForm.Leaf → constructor_in (row_at (node_view node.now)) (node_view node.now) ≡ None → TypesRow at.old at.new env.now (λ c. (under_minus (is_negated sign) (row_expression at.old.item number place (node_view node.now))).typed c) (number_of at.old.item number) u.ty.0) }
    ensures tells { OnOk result (TellsValue (value_in (row_at (node_view node.now)) (node_view node.now)) (is_negated sign) at.old at.new env.now) }
    ensures goes { Goes at.old at.new }
{
    match node.row {
        RowName::Name => {
            let path = written_path(at.alloc(), node, 9, 0)?;
            value(at, env, &path)
        }
        RowName::Epath => {
            let path = written_path(at.alloc(), node, 0, 1)?;
            value(at, env, &path)
        }
        RowName::Econst => {
            let ty = constant(at, token(node, 0), sign)?;
            Ok(unnamed(at, ty))
        }
        _ => any_type(at),
    }
}

/// The path of an operand that is a constructor alone; None where it is none.
pub fn constructor_path<'a>(at: &Parts, e: Operand<'a>) -> Result<Option<WrittenPath<'a>>, NoMemory>
    ensures { IfOk result (λ r. option_map path_view r ≡ constructor_at (operand_view e.entry).part) }
{
    let Some(node) = e.node else {
        return Ok(None);
    };
    match node.row {
        RowName::Econ => Ok(Some(written_path(at.alloc(), node, 9, 0)?)),
        RowName::Epath => Ok(if_upper(written_path(at.alloc(), node, 0, 1)?)),
        _ => Ok(None),
    }
}

/// A path, where its last token is the name of a constructor.
#[tactic(auto, unfolding(syntax_tree::specs::Names::kind_of))]
fn if_upper(path: WrittenPath<'_>) -> Option<WrittenPath<'_>>
    ensures { option_map path_view result ≡ upper_path (path_view path.entry) }
{
    let upper = match path.last {
        Some(last) => last.kind == TokenKind::Upper,
        None => false,
    };
    if upper { Some(path) } else { None }
}
