//! The parameters of a declaration that are given, in a tuple of them and what is declared.
#![tactic(auto, using(typing_state::proofs::Going::goes_trans, typing_state::proofs::Going::goes_refl, typing_state::proofs::Silence::store_silent))]

ghost use Rattle.std.specs.Prelude.{◌≡◌, ℕ, List, Some, IfOk, OnOk};
ghost use Rattle.type_nodes.specs.Nodes.{Node as plain, IsNode};
ghost use Rattle.type_nodes.specs.Links.{reading};
ghost use Rattle.type_nodes.specs.Views.{numbers};
ghost use Rattle.typing_state.specs.Goes.{Goes, OnlyStore, Silent};
ghost use Rattle.type_reading.specs.Filling.{Fills, JoinsOne};

use crate::copies::copied_list;
use type_nodes::{NoMemory, NodeRef};
use typing_state::Parts;

/// The parts of a tuple; none of another type.
fn parts_of(at: &Parts, tuple: NodeRef) -> Result<Vec<NodeRef>, NoMemory>
    ensures parts { IfOk result (λ v. (ms : List ℕ) → IsNode at.now.store.nodes tuple.0 → reading at.now.store.nodes tuple.0 ≡ Some (plain.Tuple ms) → numbers v.items ≡ ms) }
{
    match at.parts_of_tuple(tuple) {
        Some(parts) => copied_list(at, parts),
        None => Ok(Vec::new(at.alloc())),
    }
}

/// Two types are made one, where they can be.
fn joined(at: &mut Parts, a: NodeRef, b: NodeRef) -> Result<(), NoMemory>
    ensures one { OnOk result (JoinsOne at.old at.new a.0 b.0) }
    ensures rest { OnlyStore at.old at.new }
    ensures silent { Silent at.old at.new }
    ensures goes { Goes at.old at.new }
{
    at.join(a, b)?;
    let _nodes = at.store.len();
    Ok(())
}

/// The last part of a tuple, each of whose other parts is made one with one of these types.
pub fn filled(at: &mut Parts, tuple: NodeRef, types: &[NodeRef]) -> Result<NodeRef, NoMemory>
    ensures fills { IfOk result (λ m. Fills at.old at.new tuple.0 (numbers types.now) m.0) }
    ensures rest { OnlyStore at.old at.new }
    ensures silent { Silent at.old at.new }
    ensures goes { Goes at.old at.new }
{
    let parts = parts_of(at, tuple)?;
    for (place, ty) in types.iter().enumerate() {
        if let Some(parameter) = parts.get(place) {
            joined(at, *parameter, *ty)?;
        }
    }
    match parts.last() {
        Some(body) => Ok(*body),
        None => at.var(),
    }
}
