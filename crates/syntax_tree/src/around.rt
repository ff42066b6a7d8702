//! All nodes at an offset.
ghost use Rattle.std.specs.Prelude.{◌≡◌, ◌≤◌, ◌<◌, ◌+◌, ◌-◌, ◌^◌, ◌++◌, ◌&&◌, length, map, reverse, IfOk, OnOk};
ghost use Rattle.tree_model.specs.Nodes.{holders, id, nodes_at, only_if, holds, part_holders};
ghost use Rattle.tree_model.specs.Trees.{part_size, size_of, AreItemsSized, IsPartSized, IsSized};
ghost use Rattle.tree_model.specs.Slots.{is_operand};
ghost use Rattle.syntax_tree.specs.Names.{row_of};
ghost use Rattle.syntax_tree.specs.View.{id_of, node_view, part_view, place_of, trees_of};

use crate::at::{holds_offset, part_size_of};
use crate::{NoMemory, Node, NodeId, Part, RowName, Span, Tree, is_operand};
use std::alloc::{AllocError, Global};

fn keep_holder(span: Span, offset: u32, at: NodeId, out: &mut Vec<NodeId>) -> Result<(), NoMemory>
    ensures { OnOk result (map id_of out.new.items
        ≡ map id_of out.old.items ++ map (id at.item) (only_if (holds offset (place_of span)) at.pre)) }
{
    if !holds_offset(span, offset) {
        return Ok(());
    }
    match out.push(at) {
        Ok(()) => Ok(()),
        Err(_) => Err(AllocError),
    }
}

fn keep_missing(
    row: RowName,
    slot: u8,
    span: Span,
    offset: u32,
    at: NodeId,
    out: &mut Vec<NodeId>,
) -> Result<(), NoMemory>
    ensures { OnOk result (map id_of out.new.items
        ≡ map id_of out.old.items
        ++ map (id at.item) (only_if (is_operand (row_of row) slot && holds offset (place_of span)) at.pre)) }
{
    if !is_operand(row, slot) {
        return Ok(());
    }
    keep_holder(span, offset, at, out)
}

#[cycle(around)]
fn collect_part(
    row: RowName,
    slot: u8,
    part: &Part,
    offset: u32,
    at: NodeId,
    out: &mut Vec<NodeId>,
) -> Result<(), NoMemory>
    requires sized { IsPartSized (part_view part.now) }
    requires room { at.pre + part_size (row_of row) slot (part_view part.now) < 2 ^ 32 }
    ensures { OnOk result (map id_of out.new.items
        ≡ map id_of out.old.items
        ++ map (id at.item) (part_holders offset at.pre (row_of row) slot (part_view part.now))) }
{
    match part {
        Part::Taken(_) => Ok(()),
        Part::Inner(node) => collect_node(node, offset, at, out),
        Part::Missing(span) => keep_missing(row, slot, *span, offset, at, out),
    }
}

#[cycle(around)]
fn collect_node(node: &Node, offset: u32, at: NodeId, out: &mut Vec<NodeId>) -> Result<(), NoMemory>
    requires sized { IsSized (node_view node.now) }
    requires room { at.pre + size_of (node_view node.now) < 2 ^ 32 }
    ensures { OnOk result (map id_of out.new.items
        ≡ map id_of out.old.items ++ map (id at.item) (holders offset at.pre (node_view node.now))) }
{
    keep_holder(node.span, offset, at, out)?;
    let mut pre = at.pre + 1;
    for child in &node.children {
        let next = NodeId { item: at.item, pre };
        collect_part(node.row, child.slot, &child.part, offset, next, out)?;
        pre += part_size_of(node.row, child.slot, &child.part);
    }
    Ok(())
}

/// The nodes that hold the offset, in bytes from 0, from the last in preorder to the first.
pub fn enclosing(alloc: Global, tree: &Tree, offset: u32) -> Result<Vec<NodeId>, NoMemory>
    requires sized { AreItemsSized (trees_of tree.now) }
    requires items { length (trees_of tree.now) < 2 ^ 32 - 1 }
    ensures { IfOk result (λ v. map id_of v.items ≡ reverse (nodes_at offset (trees_of tree.now))) }
{
    let mut nodes = collect_items(alloc, tree, offset)?;
    nodes.reverse();
    Ok(nodes)
}

fn collect_items(alloc: Global, tree: &Tree, offset: u32) -> Result<Vec<NodeId>, NoMemory>
    requires sized { AreItemsSized (trees_of tree.now) }
    requires items { length (trees_of tree.now) < 2 ^ 32 - 1 }
    ensures { IfOk result (λ v. map id_of v.items ≡ nodes_at offset (trees_of tree.now)) }
{
    let mut out = Vec::new(alloc);
    let mut number: u32 = 1;
    for item in &tree.items {
        let first = NodeId {
            item: number,
            pre: 0,
        };
        collect_node(item, offset, first, &mut out)?;
        number += 1;
    }
    Ok(out)
}
