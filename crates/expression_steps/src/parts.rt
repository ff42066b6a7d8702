//! What is asked of a part of a row as soon as it is typed, and the environment of the body of a loop.
#![tactic(auto, using(typing_state::proofs::Going::goes_trans, typing_state::proofs::Going::goes_refl), unfolding(syntax_tree::specs::Names::row_of))]

ghost use Rattle.std.specs.Prelude.{◌≡◌, ◌==◌, ◌&&◌, Some, IfOk, OnOk};
ghost use Rattle.signature_model.specs.Declarations.{in_text};
ghost use Rattle.typing_model.specs.Parts.{place_of};
ghost use Rattle.operand_laws.specs.Operands.{expression_of};
ghost use Rattle.typing_conditions.specs.Surroundings.{IsEntry};
ghost use Rattle.typing_rows.specs.Asked.{wants_bool};
ghost use Rattle.typing_rows.specs.Contracts.{AsksBehind, AsksBool};
ghost use Rattle.typing_rows.specs.Loops.{IsLoopScope};
ghost use Rattle.value_forms.specs.Heads.{is_false_at};
ghost use Rattle.syntax_tree.specs.Names.{row_of};
ghost use Rattle.syntax_tree.specs.View.{node_view, tok_of};
ghost use Rattle.row_parts.specs.Numbered.{operand_view, token_in};
ghost use Rattle.typing_state.specs.Goes.{Goes};

use env_table::{Entry, Kind, Place, What};
use owned_lists::owned;
use row_parts::{Operand, token};
use std::rc::Rc;
use syntax_tree::{Node, RowName, Token};
use typing_state::{Env, NoMemory, NodeRef, Parts};
use use_typing::Names;
use value_forms::is_false;

/// The environment of the body of a loop, and what the loop's own name stands for.
#[derive(Drop)]
pub struct Scope {
    pub env: Env,
    pub names: Names,
}

/// In the body of a `for` its variable stands, an int, where its name is there.
pub fn loop_scope(at: &Parts, node: &Node, env: &Env) -> Result<Scope, NoMemory>
    ensures { IfOk result (λ s. IsLoopScope at.now.constants.int (token_in (node_view node.now) 1) env.now s.env) }
{
    match token(node, 1) {
        Some(name) => scope_of_name(at, name, env),
        None => Ok(Scope {
            env: env.share()?,
            names: Vec::new(at.alloc()),
        }),
    }
}

/// The environment with the variable of a `for`.
fn scope_of_name(at: &Parts, name: &Token, env: &Env) -> Result<Scope, NoMemory>
    ensures { IfOk result (λ s. IsLoopScope at.now.constants.int (Some (tok_of name.now)) env.now s.env) }
{
    let entry = loop_entry(at, name)?;
    let names = at.one_name(Some(&entry))?;
    Ok(Scope {
        env: env.add(at.alloc(), entry)?,
        names,
    })
}

/// The entry of the variable of a `for`, an int.
fn loop_entry(at: &Parts, name: &Token) -> Result<Rc<Entry>, NoMemory>
    ensures { IfOk result (λ e. IsEntry e.value (tok_of name.now).name (in_text (place_of (tok_of name.now))) at.now.constants.int) }
{
    let entry = Entry {
        name: name.name.share()?,
        kind: Kind::Value,
        place: Place::Buffer(name.span),
        what: What::Scheme(at.constants.int),
    };
    owned(at.alloc(), entry)
}

/// What is asked of a part of a row as soon as it is typed, by its place among the parts.
pub fn behind_part(
    at: &mut Parts,
    row: RowName,
    place: usize,
    part: Operand<'_>,
    ty: NodeRef,
    env: &Env,
) -> Result<(), NoMemory>
    ensures carries { OnOk result (AsksBehind at.old at.new env.now (row_of row) place (expression_of at.old.item (operand_view part.entry)) ty.0) }
    ensures goes { Goes at.old at.new }
{
    if is_condition(row, place, part) {
        return ask_bool(at, part, ty, env);
    }
    Ok(())
}

/// Whether the part of a row at a place is a bool.
fn is_condition(row: RowName, place: usize, part: Operand<'_>) -> bool
    ensures { result ≡ (place == 0 && wants_bool (row_of row) (is_false_at (operand_view part.entry).part)) }
{
    place == 0 && wants_bool(row, is_false(part))
}

/// Whether the first part of a row is a bool. The word `false` after `assert` needn't be.
#[tactic(auto, unfolding(syntax_tree::specs::Names::row_of))]
fn wants_bool(row: RowName, is_false: bool) -> bool
    ensures { result ≡ wants_bool (row_of row) is_false }
{
    match row {
        RowName::Eif | RowName::Ewhile => true,
        RowName::Eassert => !is_false,
        _ => false,
    }
}

/// The demand that a part is a bool.
fn ask_bool(at: &mut Parts, part: Operand<'_>, ty: NodeRef, env: &Env) -> Result<(), NoMemory>
    ensures carries { OnOk result (AsksBool at.old at.new env.now (expression_of at.old.item (operand_view part.entry)) ty.0) }
    ensures goes { Goes at.old at.new }
{
    let bool = at.constants.bool;
    at.equal(part.span, ty, bool, env)?;
    Ok(())
}
