//! Operands with their numbers.
ghost use Rattle.std.specs.Prelude.{◌≡◌, ◌==◌, map, option_map, None, IfOk, if◌then◌else◌};
ghost use Rattle.tree_model.specs.Extents.{told_size};
ghost use Rattle.syntax_tree.specs.Names.{row_of};
ghost use Rattle.syntax_tree.specs.View.{node_view, part_view};
ghost use Rattle.row_parts.specs.Numbered.{all_operands, behind, filled_in, first_in, node_with, operand_at, operand_view, operands_in, row_at};

use owned_lists::push;
use std::alloc::Global;
use syntax_tree::{Child, NoMemory, Node, Part, RowName, Span, is_operand, told_size};

/// A node or a missing operand in a slot of a row.
#[derive(Clone, Copy)]
pub struct Operand<'a> {
    /// The node; None where the operand is missing.
    pub node: Option<&'a Node>,
    /// Its number in preorder in its item.
    pub number: u32,
    /// From its first to its last token, or the place at which it is missing.
    pub span: Span,
}

impl<'a> Operand<'a> {
    /// A node with its number.
    pub fn of(node: &'a Node, number: u32) -> Operand<'a>
        ensures { operand_view result ≡ node_with number (node_view node.now) }
    {
        Operand {
            node: Some(node),
            number,
            span: node.span,
        }
    }

    /// Its row; None where it is missing.
    pub fn row(self) -> Option<RowName>
        ensures { option_map row_of result ≡ row_at (operand_view self.entry).part }
    {
        match self.node {
            Some(node) => Some(node.row),
            None => None,
        }
    }
}

/// What a child is as an operand with this number; None for a token, taken or missing.
fn operand_at(row: RowName, child: &Child, number: u32) -> Option<Operand<'_>>
    ensures { option_map operand_view result ≡ operand_at number (row_of row) child.now.slot (part_view child.now.part) }
{
    match &child.part {
        Part::Taken(_) => None,
        Part::Inner(node) => Some(Operand::of(node, number)),
        Part::Missing(span) => {
            if is_operand(row, child.slot) {
                Some(Operand {
                    node: None,
                    number,
                    span: *span,
                })
            } else {
                None
            }
        }
    }
}

/// The operand of a child in the slot, as `operand_at` gives it.
fn operand_here(row: RowName, child: &Child, number: u32, slot: u8) -> Option<Operand<'_>>
    ensures { option_map operand_view result
        ≡ (if child.now.slot == slot then operand_at number (row_of row) child.now.slot (part_view child.now.part) else None) }
{
    if child.slot == slot {
        operand_at(row, child, number)
    } else {
        None
    }
}

/// The number of the first part of a node with this number.
fn first_number(number: u32) -> u32
    ensures { result ≡ behind number 1 }
{
    number.saturating_add(1)
}

/// The number behind those of a child.
fn number_behind(row: RowName, child: &Child, number: u32) -> u32
    ensures { result ≡ behind number (told_size (row_of row) child.now.slot (part_view child.now.part)) }
{
    number.saturating_add(told_size(row, child.slot, &child.part))
}

/// The operands in a slot of a node with this number, in order.
#[tactic(auto, unfolding(crate::specs::Numbered::operands_from))]
pub fn operands<'a>(
    alloc: Global,
    node: &'a Node,
    number: u32,
    slot: u8,
) -> Result<Vec<Operand<'a>>, NoMemory>
    ensures { IfOk result (λ os. map operand_view os.items ≡ operands_in number (node_view node.now) slot) }
{
    let mut found = Vec::new(alloc);
    let mut next = first_number(number);
    for child in &node.children {
        if let Some(operand) = operand_here(node.row, child, next, slot) {
            push(&mut found, operand)?;
        }
        next = number_behind(node.row, child, next);
    }
    Ok(found)
}

/// All operands of a node with this number, in order.
#[tactic(auto, unfolding(crate::specs::Numbered::operands_from))]
pub fn operands_of<'a>(
    alloc: Global,
    node: &'a Node,
    number: u32,
) -> Result<Vec<Operand<'a>>, NoMemory>
    ensures { IfOk result (λ os. map operand_view os.items ≡ all_operands number (node_view node.now)) }
{
    let mut found = Vec::new(alloc);
    let mut next = first_number(number);
    for child in &node.children {
        if let Some(operand) = operand_at(node.row, child, next) {
            push(&mut found, operand)?;
        }
        next = number_behind(node.row, child, next);
    }
    Ok(found)
}

/// The first operand in a slot; None where there is none, not even a missing one.
#[tactic(auto, unfolding(crate::specs::Numbered::operands_from))]
pub fn first_operand<'a>(node: &'a Node, number: u32, slot: u8) -> Option<Operand<'a>>
    ensures { option_map operand_view result ≡ first_in number (node_view node.now) slot }
{
    let mut next = first_number(number);
    for child in &node.children {
        if let Some(operand) = operand_here(node.row, child, next, slot) {
            return Some(operand);
        }
        next = number_behind(node.row, child, next);
    }
    None
}

/// The first operand in a slot that must be filled; where it isn't even missing, a missing one at the node's end.
pub fn operand_in<'a>(node: &'a Node, number: u32, slot: u8) -> Operand<'a>
    ensures { operand_view result ≡ filled_in number (node_view node.now) slot }
{
    match first_operand(node, number, slot) {
        Some(operand) => operand,
        None => Operand {
            node: None,
            number,
            span: Span {
                start: node.span.end,
                end: node.span.end,
            },
        },
    }
}
