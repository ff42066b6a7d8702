//! The type variables that are written in an item.
#![tactic(auto, using(typing_state::proofs::Going::goes_trans, typing_state::proofs::Going::goes_refl, typing_state::proofs::Silence::store_silent, typing_state::proofs::Silence::silent_refl, typing_state::proofs::Silence::silent_trans))]

ghost use Rattle.std.specs.Prelude.{◌≡◌, min, None, Some, IfOk, OnOk};
ghost use Rattle.std.specs.String.{string_bytes};
ghost use Rattle.std.specs.HashMap.{get_by_text};
ghost use Rattle.text_terms.specs.Bytes.{str_bytes};
ghost use Rattle.syntax_tree.specs.View.{tok_of};
ghost use Rattle.type_nodes.specs.Changes.{Makes};
ghost use Rattle.type_nodes.specs.Nodes.{Node as plain};
ghost use Rattle.typing_state.specs.Goes.{Goes, OnlyStore, Silent};
ghost use Rattle.typing_state.specs.Types.{any_scope, level_for};
ghost use Rattle.typing_steps.specs.Writing.{PutsVariable};
ghost use Rattle.typing_rows.specs.Operands.{ReadsVariable};
ghost use Rattle.type_expressions.specs.Untyped.{Untyped};

use std::alloc::{AllocError, Global};
use syntax_tree::Token;
use type_nodes::{NoMemory, NodeRef};
use typing_state::Parts;

/// The name of a type variable.
fn key_of(alloc: Global, name: &Token) -> Result<String, NoMemory>
    ensures { IfOk result (λ key. string_bytes key ≡ str_bytes name.now.name) }
{
    match String::from_str(alloc, name.name.as_str()) {
        Ok(key) => Ok(key),
        Err(_) => Err(AllocError),
    }
}

/// The type of a type variable, where it was written before in the item.
fn variable_of(at: &Parts, key: &str) -> Option<NodeRef>
    ensures { result ≡ get_by_text at.now.written.variables key.now }
{
    at.written.variables.get(key).copied()
}

/// A new type of the level 1 at most: only the item's own `let` generalises it.
fn low_variable(at: &mut Parts) -> Result<NodeRef, NoMemory>
    ensures made { IfOk result (λ n. Makes at.old.store at.new.store n.0 (plain.Var (level_for (min at.old.level 1)) any_scope)) }
    ensures rest { OnlyStore at.old at.new }
    ensures silent { Silent at.old at.new }
    ensures goes { Goes at.old at.new }
{
    let level = at.level;
    at.level = level.min(1);
    let made = at.var();
    at.level = level;
    made
}

/// A type variable that wasn't written before in the item gets this type.
fn put_variable(at: &mut Parts, key: String, node: NodeRef) -> Result<(), NoMemory>
    ensures puts { OnOk result (get_by_text at.old.written.variables (string_bytes key) ≡ None → PutsVariable at.old at.new (string_bytes key) node) }
    ensures store { at.new.store ≡ at.old.store }
    ensures silent { Silent at.old at.new }
    ensures untyped { OnOk result (Untyped at.old at.new) }
    ensures goes { Goes at.old at.new }
{
    let Ok(_) = at.written.variables.insert(key, node) else {
        return Err(AllocError);
    };
    Ok(())
}

/// The type that a type variable of the item stands for: one of the item's own level.
pub fn written_variable(at: &mut Parts, name: &Token) -> Result<NodeRef, NoMemory>
    ensures carries { IfOk result (λ m. ReadsVariable at.old at.new (Some (tok_of name.now)) m.0) }
    ensures silent { Silent at.old at.new }
    ensures untyped { OnOk result (Untyped at.old at.new) }
    ensures goes { Goes at.old at.new }
{
    let key = key_of(at.alloc(), name)?;
    if let Some(node) = variable_of(at, key.as_str()) {
        return Ok(node);
    }
    let node = low_variable(at)?;
    put_variable(at, key, node)?;
    Ok(node)
}
