//! The rows of a tree's nodes by their numbers.
ghost use Rattle.std.specs.Prelude.{◌≡◌, ◌∷◌, ◌++◌, [], slice_get, IfOk, OnOk, option_map};
ghost use Rattle.syntax_tree.specs.Names.{row_of};
ghost use Rattle.syntax_tree.specs.View.{node_view, part_view, trees_of};
ghost use Rattle.asked_node.specs.Rows.{rows_view, rows_of, rows_in, missing_row, row_at, item_at, numbered};

use std::alloc::{AllocError, Global};
use syntax_tree::{Child, NoMemory, Node, NodeId, Part, RowName, Tree, is_operand};

/// Puts the row of a node behind others, or none for a missing operand.
fn push(rows: &mut Vec<Option<RowName>>, row: Option<RowName>) -> Result<(), NoMemory>
    ensures { OnOk result (rows_view rows.new.items ≡ rows_view rows.old.items ++ option_map row_of row ∷ []) }
{
    rows.push(row).map_err(|_| AllocError)
}

/// Puts the rows of a node and of those inside behind others, in preorder.
#[cycle(rows)]
fn add_rows(node: &Node, rows: &mut Vec<Option<RowName>>) -> Result<(), NoMemory>
    ensures { OnOk result (rows_view rows.new.items ≡ rows_view rows.old.items ++ rows_of (node_view node.now)) }
{
    push(rows, Some(node.row))?;
    for child in &node.children {
        add_part(node.row, child, rows)?;
    }
    Ok(())
}

#[cycle(rows)]
fn add_part(row: RowName, child: &Child, rows: &mut Vec<Option<RowName>>) -> Result<(), NoMemory>
    ensures { OnOk result (rows_view rows.new.items ≡ rows_view rows.old.items ++ rows_in (row_of row) child.now.slot (part_view child.now.part)) }
{
    match &child.part {
        Part::Taken(_) => Ok(()),
        Part::Inner(node) => add_rows(node, rows),
        Part::Missing(_) => add_missing(row, child.slot, rows),
    }
}

fn add_missing(row: RowName, slot: u8, rows: &mut Vec<Option<RowName>>) -> Result<(), NoMemory>
    ensures { OnOk result (rows_view rows.new.items ≡ rows_view rows.old.items ++ missing_row (row_of row) slot) }
{
    if is_operand(row, slot) {
        push(rows, None)
    } else {
        Ok(())
    }
}

/// The row of the node of a number in an item. None where it is a missing operand, or no such node is there.
fn row_in_item(alloc: Global, item: &Node, number: u32) -> Result<Option<RowName>, NoMemory>
    ensures { IfOk result (λ r. option_map row_of r ≡ numbered number (rows_of (node_view item.now))) }
{
    let mut rows = Vec::new(alloc);
    add_rows(item, &mut rows)?;
    Ok(numbered(&rows, number))
}

fn numbered(rows: &[Option<RowName>], number: u32) -> Option<RowName>
    ensures { option_map row_of result ≡ numbered number (rows_view rows.now) }
{
    match rows.get(number as usize) {
        Some(row) => *row,
        None => None,
    }
}

/// The row of a node of a text. None where it is a missing operand, or no such node is there.
pub(crate) fn row_at(alloc: Global, tree: &Tree, id: NodeId) -> Result<Option<RowName>, NoMemory>
    ensures { IfOk result (λ r. option_map row_of r ≡ row_at (trees_of tree.now) id.item id.pre) }
{
    match item_at(tree, id.item) {
        Some(item) => row_in_item(alloc, item, id.pre),
        None => Ok(None),
    }
}

/// The item of a number, from 1.
#[tactic(auto, using(crate::proofs::Items::item_behind))]
fn item_at(tree: &Tree, item: u32) -> Option<&Node>
    ensures { option_map (λ n. node_view n.now) result ≡ item_at (trees_of tree.now) item }
{
    if item == 0 {
        return None;
    }
    nth_item(tree, item - 1)
}

fn nth_item(tree: &Tree, place: u32) -> Option<&Node>
    ensures { option_map (λ n. node_view n.now) result ≡ slice_get (trees_of tree.now) place }
{
    match tree.items.get(place as usize) {
        Some(item) => Some(item),
        None => None,
    }
}
