//! Nodes made of a token, and of parts.
ghost use Rattle.std.specs.Prelude.{◌≡◌, ◌≤◌, ◌<◌, ◌+◌, ◌-◌, ◌^◌, map, option_map, IfOk};
ghost use Rattle.tree_model.specs.Trees as plain;
ghost use Rattle.tree_model.specs.Extents.{forest_span, node_over, joined, part_span, place_at, span_or_place, told_height, told_heights, told_size, told_sizes};
ghost use Rattle.syntax_tree.specs.Names.{row_of};
ghost use Rattle.syntax_tree.specs.View.{child_view, forest_of, node_view, part_view, place_of, tok_of};

use crate::slots::missing_size;
use crate::{Child, NoMemory, Node, Part, RowName, Span, Token};
use std::alloc::{AllocError, Global};
use std::rc::Rc;

/// A node of one token in the given slot.
pub fn leaf(alloc: Global, row: RowName, slot: u8, token: Token) -> Result<Rc<Node>, NoMemory>
    ensures { IfOk result (λ r. node_view r.value
        ≡ node_over (row_of row) (plain.part slot (plain.taken (tok_of token)) plain.no_parts)) }
{
    let mut children = Vec::new(alloc);
    let child = Child {
        slot,
        part: Part::Taken(token),
    };
    match children.push(child) {
        Ok(()) => node_of(alloc, row, children),
        Err(_) => Err(AllocError),
    }
}

/// A node over parts, with the size and the height that follow from those that the parts tell.
/// Its span goes from its first to its last token; without tokens it is the place of the first part.
pub fn node_of(alloc: Global, row: RowName, children: Vec<Child>) -> Result<Rc<Node>, NoMemory>
    requires size { told_sizes (row_of row) (forest_of (map child_view children.items)) < 2 ^ 32 - 1 }
    requires height { told_heights (forest_of (map child_view children.items)) < 2 ^ 16 - 1 }
    ensures { IfOk result (λ r. node_view r.value
        ≡ node_over (row_of row) (forest_of (map child_view children.items))) }
{
    let node = Node {
        row,
        span: span_over(&children),
        height: height_over(&children) + 1,
        size: size_over(row, &children) + 1,
        children,
    };
    match Rc::new(alloc, node) {
        Ok(node) => Ok(node),
        Err(_) => Err(AllocError),
    }
}

fn span_over(children: &[Child]) -> Span
    ensures { place_of result ≡ span_or_place
        (forest_span (forest_of (map child_view children.now)))
        (forest_of (map child_view children.now)) }
{
    match (tokens_span(children), children) {
        (Some(span), _) => span,
        (None, [first, ..]) => part_place(&first.part),
        (None, []) => Span { start: 0, end: 0 },
    }
}

/// From the first to the last token of the parts. None where there is none.
#[tactic(auto, using(tree_model::proofs::Extents::joined_assoc))]
fn tokens_span(children: &[Child]) -> Option<Span>
    ensures { option_map place_of result ≡ forest_span (forest_of (map child_view children.now)) }
{
    let mut span = None;
    for child in children {
        span = join_spans(span, span_of_part(&child.part));
    }
    span
}

fn join_spans(first: Option<Span>, second: Option<Span>) -> Option<Span>
    ensures { option_map place_of result ≡ joined (option_map place_of first) (option_map place_of second) }
{
    match (first, second) {
        (Some(first), Some(second)) => Some(Span {
            start: first.start,
            end: second.end,
        }),
        (Some(first), None) => Some(first),
        (None, second) => second,
    }
}

fn span_of_part(part: &Part) -> Option<Span>
    ensures { option_map place_of result ≡ part_span (part_view part.now) }
{
    match part {
        Part::Taken(token) => Some(token.span),
        Part::Inner(node) => Some(node.span),
        Part::Missing(_) => None,
    }
}

fn part_place(part: &Part) -> Span
    ensures { place_of result ≡ place_at (part_view part.now) }
{
    match part {
        Part::Taken(token) => token.span,
        Part::Inner(node) => node.span,
        Part::Missing(span) => *span,
    }
}

/// The sum of the sizes that the parts of a row tell.
fn size_over(row: RowName, children: &[Child]) -> u32
    requires { told_sizes (row_of row) (forest_of (map child_view children.now)) < 2 ^ 32 - 1 }
    ensures { result ≡ told_sizes (row_of row) (forest_of (map child_view children.now)) }
{
    let mut size = 0;
    for child in children {
        size += told_size(row, child.slot, &child.part);
    }
    size
}

/// The size that a part in a slot of a row tells: the number of nodes and missing operands in it.
/// A token has none, taken or missing.
pub fn told_size(row: RowName, slot: u8, part: &Part) -> u32
    ensures { result ≡ told_size (row_of row) slot (part_view part.now) }
{
    match part {
        Part::Taken(_) => 0,
        Part::Inner(node) => node.size,
        Part::Missing(_) => missing_size(row, slot),
    }
}

/// The largest of the heights that the parts tell.
fn height_over(children: &[Child]) -> u16
    ensures { result ≡ told_heights (forest_of (map child_view children.now)) }
{
    let mut height = 0;
    for child in children {
        height = part_height(&child.part).max(height);
    }
    height
}

fn part_height(part: &Part) -> u16
    ensures { result ≡ told_height (part_view part.now) }
{
    match part {
        Part::Taken(_) => 0,
        Part::Inner(node) => node.height,
        Part::Missing(_) => 0,
    }
}
