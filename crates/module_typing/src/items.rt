//! let b and b
ghost use Rattle.std.specs.Prelude.{OnOk};
ghost use Rattle.syntax_tree.specs.View.{node_view};
ghost use Rattle.typing_state.specs.Goes.{Goes};
ghost use Rattle.core_typing.specs.Items.{GivesLet};
ghost use Rattle.module_steps.specs.Scenes.{SameNames};
ghost use Rattle.module_typing.specs.Items.{Grows};

use core_typing::type_bindings;
use module_steps::Scene;
use syntax_tree::Node;
use typing_state::{Depth, NoMemory, Parts};

/// let b and b: the type variables that were written in the items before are forgotten, and its names are in scope after it.
pub fn let_item(
    at: &mut Parts,
    node: &Node,
    number: u32,
    scene: &mut Scene,
    depth: Depth,
) -> Result<(), NoMemory>
    ensures carries { OnOk result (GivesLet at.old at.new scene.old.env scene.new.env number (node_view node.now)) }
    ensures names { SameNames scene.old scene.new }
    ensures grows { OnOk result (Grows scene.old scene.new) }
    ensures goes { Goes at.old at.new }
{
    at.note_plain(number, &scene.env)?;
    at.written.variables.clear();
    let behind = type_bindings(at, node, number, &scene.env, depth)?;
    scene.add(behind.env, &behind.entries)
}
