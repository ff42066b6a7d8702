//! A declaration over arguments.
#![tactic(auto, using(typing_state::proofs::Going::goes_trans, typing_state::proofs::Going::goes_refl, typing_state::proofs::Silence::store_silent))]

ghost use Rattle.std.specs.Prelude.{◌≡◌, All, false, IfOk, OnOk};
ghost use Rattle.text_terms.specs.Bytes.{str_bytes};
ghost use Rattle.signature_model.specs.Matching.{is_unknown};
ghost use Rattle.type_nodes.specs.Changes.{Makes};
ghost use Rattle.type_nodes.specs.Nodes.{Node as plain, IsNode};
ghost use Rattle.type_nodes.specs.Views.{numbers};
ghost use Rattle.typing_rows.specs.Declaring.{AppliesTo};
ghost use Rattle.declared_rows.specs.Applied.{AppliesWith};
ghost use Rattle.typing_state.specs.Goes.{Goes, OnlyStore, Silent};
ghost use Rattle.type_expressions.specs.Untyped.{Untyped};

use crate::unknowns::{open_unknowns, parameters_of};
use env_table::{Declaration, Origin};
use type_nodes::{NoMemory, NodeRef};
use type_reading::filled;
use typing_state::Parts;

/// The type that a declaration gives arguments, abbreviations expanded.
pub fn applied(
    at: &mut Parts,
    declaration: &Declaration,
    types: &[NodeRef],
) -> Result<NodeRef, NoMemory>
    ensures carries { IfOk result (λ m. AppliesTo at.old at.new declaration.now (numbers types.now) m.0) }
    ensures silent { Silent at.old at.new }
    ensures untyped { OnOk result (Untyped at.old at.new) }
    ensures goes { Goes at.old at.new }
{
    if let Some(origin) = &declaration.origin {
        return constructor_over(at, origin, types);
    }
    let instance = at.instance(declaration.root)?;
    if types.is_empty() {
        return Ok(instance);
    }
    filled(at, instance, types)
}

/// A constructor of an origin. No origin has the path of an unknown type.
fn constructor_over(at: &mut Parts, origin: &Origin, types: &[NodeRef]) -> Result<NodeRef, NoMemory>
    ensures plain { is_unknown origin.now.path.items ≡ false }
    ensures made { IfOk result (λ n. All (IsNode at.old.store.nodes) (numbers types.now) → Makes at.old.store at.new.store n.0 (plain.Con origin.now.path.items (str_bytes origin.now.name) (numbers types.now))) }
    ensures rest { OnlyStore at.old at.new }
    ensures silent { Silent at.old at.new }
    ensures goes { Goes at.old at.new }
{
    let _first = origin.path.first().copied();
    at.con(origin, types)
}

/// The same in a declaration, where the unknown types in it become others.
pub fn applied_with_unknowns(
    at: &mut Parts,
    declaration: &Declaration,
    types: &[NodeRef],
) -> Result<NodeRef, NoMemory>
    ensures means { IfOk result (λ m. AppliesWith at.old at.new declaration.now (numbers types.now) m.0) }
    ensures silent { Silent at.old at.new }
    ensures untyped { OnOk result (Untyped at.old at.new) }
    ensures goes { Goes at.old at.new }
{
    if let Some(origin) = &declaration.origin {
        return constructor_over(at, origin, types);
    }
    let instance = at.instance(declaration.root)?;
    if types.is_empty() {
        open_unknowns(at, instance, &[])?;
        return Ok(instance);
    }
    let parameters = parameters_of(at, instance)?;
    open_unknowns(at, instance, &parameters)?;
    filled(at, instance, types)
}
