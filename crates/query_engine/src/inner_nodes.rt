//! The innermost typed node at an offset, and the node of a number.
ghost use Rattle.std.specs.Prelude.{◌≡◌, option_map, IfOk};
ghost use Rattle.query_model.specs.Numbered.{numbered, numbered_part, node_with, HasNumbers, HasPartNumbers};
ghost use Rattle.query_model.specs.TypedNodes.{innermost_at};
ghost use Rattle.tree_model.specs.Trees.{AreItemsSized};
ghost use Rattle.syntax_tree.specs.Names.{row_of};
ghost use Rattle.syntax_tree.specs.View.{id_of, node_view, part_view, trees_of};
ghost use Rattle.query_engine.specs.Typed.{node_of};

use crate::asked::Asked;
use crate::typed_nodes::{TypedNode, typed_around};
use std::alloc::Global;
use syntax_tree::{NoMemory, Node, NodeId, Part, RowName, Tree, told_size};

/// The innermost typed node that holds the offset, in bytes from 0. None where there is none.
pub fn innermost(
    alloc: Global,
    asked: &Asked<'_>,
    offset: u32,
) -> Result<Option<TypedNode>, NoMemory>
    ensures { IfOk result (λ r. option_map node_of r ≡ innermost_at offset (trees_of asked.now.tree.now)) }
{
    let nodes = typed_around(alloc, asked.tree, offset)?;
    Ok(nodes.first().copied())
}

/// The node of a number in a part whose first node has the number `own`.
#[cycle(numbered)]
fn part_in(row: RowName, slot: u8, part: &Part, own: u32, wanted: u32) -> Option<&Node>
    ensures { HasPartNumbers own (row_of row) slot (part_view part.now) → option_map (λ n. node_view n.now) result ≡ numbered_part wanted own (part_view part.now) }
{
    match part {
        Part::Taken(_) => None,
        Part::Inner(node) => node_in(node, own, wanted),
        Part::Missing(_) => None,
    }
}

/// The node of a number in one that has the number `own`. None where it is a missing operand, or none there.
#[cycle(numbered)]
fn node_in(node: &Node, own: u32, wanted: u32) -> Option<&Node>
    ensures { HasNumbers own (node_view node.now) → option_map (λ n. node_view n.now) result ≡ numbered wanted own (node_view node.now) }
{
    if own == wanted {
        return Some(node);
    }
    let mut found = None;
    let mut next = own.saturating_add(1);
    for child in &node.children {
        found = found.or(part_in(node.row, child.slot, &child.part, next, wanted));
        next = next.saturating_add(told_size(node.row, child.slot, &child.part));
    }
    found
}

/// The node of a text's tree. None where it is a missing operand, or no such node is there.
pub fn node_with(tree: &Tree, id: NodeId) -> Option<&Node>
    ensures { AreItemsSized (trees_of tree.now) → option_map (λ n. node_view n.now) result ≡ node_with (id_of id) (trees_of tree.now) }
{
    let place = id.item.checked_sub(1)?;
    let item = tree.items.get(place as usize)?;
    node_in(item, 0, id.pre)
}
