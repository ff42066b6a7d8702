//! The last node at an offset. A missing left operand may stand before the span of its node,
//! so the walk goes through every node.
ghost use Rattle.std.specs.Prelude.{◌≡◌, ◌≤◌, ◌<◌, ◌+◌, ◌-◌, ◌^◌, ◌&&◌, length, option_map, Some, None, if◌then◌else◌};
ghost use Rattle.tree_model.specs.Lasts.{last_holder, last_id, last_in_part};
ghost use Rattle.tree_model.specs.Nodes.{holds, last_of, nodes_at};
ghost use Rattle.tree_model.specs.Trees.{part_size, size_of, AreItemsSized, IsPartSized, IsSized};
ghost use Rattle.tree_model.specs.Slots.{is_operand};
ghost use Rattle.syntax_tree.specs.Names.{row_of};
ghost use Rattle.syntax_tree.specs.View.{id_of, node_view, part_view, place_of, trees_of};

use crate::{Node, NodeId, Part, RowName, Span, Tree, is_operand, told_size};

pub(crate) fn holds_offset(span: Span, offset: u32) -> bool
    ensures { result ≡ holds offset (place_of span) }
{
    span.start <= offset && (offset < span.end || span.start == offset && span.end == offset)
}

/// The number of nodes and missing operands in a part.
#[tactic(auto, using(tree_model::proofs::Extents::told_size_sized))]
pub(crate) fn part_size_of(row: RowName, slot: u8, part: &Part) -> u32
    requires { IsPartSized (part_view part.now) }
    ensures { result ≡ part_size (row_of row) slot (part_view part.now) }
{
    told_size(row, slot, part)
}

fn holder(span: Span, offset: u32, number: u32) -> Option<u32>
    ensures { result ≡ (if holds offset (place_of span) then Some number else None) }
{
    if holds_offset(span, offset) {
        Some(number)
    } else {
        None
    }
}

fn missing_holder(row: RowName, slot: u8, span: Span, offset: u32, number: u32) -> Option<u32>
    ensures { result ≡ (if is_operand (row_of row) slot && holds offset (place_of span) then Some number else None) }
{
    if is_operand(row, slot) {
        holder(span, offset, number)
    } else {
        None
    }
}

#[cycle(at)]
fn last_in_part(row: RowName, slot: u8, part: &Part, offset: u32, number: u32) -> Option<u32>
    requires sized { IsPartSized (part_view part.now) }
    requires room { number + part_size (row_of row) slot (part_view part.now) < 2 ^ 32 }
    ensures { result ≡ last_in_part offset number (row_of row) slot (part_view part.now) }
{
    match part {
        Part::Taken(_) => None,
        Part::Inner(node) => last_in_node(node, offset, number),
        Part::Missing(span) => missing_holder(row, slot, *span, offset, number),
    }
}

#[cycle(at)]
fn last_in_node(node: &Node, offset: u32, number: u32) -> Option<u32>
    requires sized { IsSized (node_view node.now) }
    requires room { number + size_of (node_view node.now) < 2 ^ 32 }
    ensures { result ≡ last_holder offset number (node_view node.now) }
{
    let mut last = holder(node.span, offset, number);
    let mut next = number + 1;
    for child in &node.children {
        last = last_in_part(node.row, child.slot, &child.part, offset, next).or(last);
        next += part_size_of(node.row, child.slot, &child.part);
    }
    last
}

/// The last node in preorder that holds the offset, in bytes from 0. None exactly where no node does.
pub fn node_at(tree: &Tree, offset: u32) -> Option<NodeId>
    requires sized { AreItemsSized (trees_of tree.now) }
    requires items { length (trees_of tree.now) < 2 ^ 32 - 1 }
    ensures { option_map id_of result ≡ last_of (nodes_at offset (trees_of tree.now)) }
{
    last_in_items(tree, offset)
}

fn last_in_items(tree: &Tree, offset: u32) -> Option<NodeId>
    requires sized { AreItemsSized (trees_of tree.now) }
    requires items { length (trees_of tree.now) < 2 ^ 32 - 1 }
    ensures { option_map id_of result ≡ last_id offset 1 (trees_of tree.now) }
{
    let mut last = None;
    let mut number: u32 = 1;
    for item in &tree.items {
        if let Some(pre) = last_in_node(item, offset, 0) {
            last = Some(NodeId { item: number, pre });
        }
        number += 1;
    }
    last
}
