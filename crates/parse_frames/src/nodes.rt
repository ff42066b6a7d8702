//! Nodes made of the parts of a frame.
ghost use Rattle.std.specs.Prelude.{◌≡◌, ◌<◌, ◌-◌, ◌^◌, ◌&&◌, ◌++◌, nat_lt, map, min, length, drop, reverse, IfOk, OnOk};
ghost use Rattle.grammar_model.specs.Named.{inner_of};
ghost use Rattle.tree_model.specs.Extents.{node_over, told_height};
ghost use Rattle.tree_model.specs.Trees as plain;
ghost use Rattle.syntax_tree.specs.Names.{row_of};
ghost use Rattle.syntax_tree.specs.View.{child_view, forest_of, node_view, part_view};
ghost use Rattle.parse_frames.specs.Frames.{count_in, frames_running, heights_in, nodes_in, onto, running_notes, sizes_in};
ghost use Rattle.parse_frames.specs.View.{level_notes, level_view, parts_notes, parts_view};
ghost use Rattle.parse_frames.specs.declared.frames.Level.{out-Level};

use crate::share::share_part;
use crate::{Level, Parts};
use std::alloc::{AllocError, Global};
use std::rc::Rc;
use syntax_tree::{Child, NoMemory, Node, Part, RowName, node_of, told_size};

/// The parts in order, shared.
fn children_of(alloc: Global, parts: &Parts) -> Result<Vec<Child>, NoMemory>
    ensures { IfOk result (λ r. forest_of (map child_view r.items) ≡ onto (parts_view parts.now) plain.no_parts) }
{
    let mut children: Vec<Child> = Vec::new(alloc);
    let mut rest = parts;
    while let Some(cell) = rest {
        let child = Child {
            slot: cell.slot,
            part: share_part(&cell.part)?,
        };
        if children.push(child).is_err() {
            return Err(AllocError);
        }
        rest = &cell.before;
    }
    children.reverse();
    Ok(children)
}

/// The node of a row of this name over the parts.
#[tactic(auto, using(crate::proofs::Parts::told_sizes_onto, crate::proofs::Parts::told_heights_onto))]
pub(crate) fn node_over_parts(
    alloc: Global,
    name: RowName,
    parts: &Parts,
) -> Result<Rc<Node>, NoMemory>
    requires size { sizes_in (row_of name) (parts_view parts.now) < 2 ^ 32 - 1 }
    requires height { heights_in (parts_view parts.now) < 2 ^ 16 - 1 }
    ensures { IfOk result (λ r. node_view r.value ≡ node_over (row_of name) (onto (parts_view parts.now) plain.no_parts)) }
{
    let children = children_of(alloc, parts)?;
    node_of(alloc, name, children)
}

/// Whether a node of a row of this name over the parts can tell its size and its height.
pub(crate) fn has_room(name: RowName, parts: &Parts) -> bool
    requires told { parts_notes parts.now ≡ running_notes (parts_view parts.now) }
    ensures { result ≡ (nat_lt (sizes_in (row_of name) (parts_view parts.now)) (2 ^ 32 - 1) && nat_lt (heights_in (parts_view parts.now)) (2 ^ 16 - 1)) }
{
    size_of_parts(name, parts) < u32::MAX && height_of_parts(parts) < u16::MAX
}

/// The sum of the sizes that the parts of a row of this name tell, or 2^32 - 1 where it is more.
fn size_of_parts(name: RowName, parts: &Parts) -> u32
    ensures { result ≡ min (sizes_in (row_of name) (parts_view parts.now)) (2 ^ 32 - 1) }
{
    let mut size: u32 = 0;
    let mut rest = parts;
    while let Some(cell) = rest {
        size = size.saturating_add(told_size(name, cell.slot, &cell.part));
        rest = &cell.before;
    }
    size
}

/// The largest of the heights that the parts of a frame that waits tell; 0 where there is no node among them.
#[tactic(auto, using(crate::proofs::Heights::parts_told))]
pub fn height_of_level(level: &Level) -> u16
    requires told { level_notes level.now ≡ frames_running (level_view level.now) }
    ensures { result ≡ heights_in (parts_view (out-Level level.now).parts) }
{
    height_of_parts(&level.parts)
}

/// The largest of the heights that the parts tell; 0 where there is no node among them.
pub(crate) fn height_of_parts(parts: &Parts) -> u16
    requires told { parts_notes parts.now ≡ running_notes (parts_view parts.now) }
    ensures { result ≡ heights_in (parts_view parts.now) }
{
    match parts {
        None => 0,
        Some(cell) => cell.height,
    }
}

/// How many nodes there are among the parts, or 2^32 - 1 where there are more.
pub(crate) fn count_of_parts(parts: &Parts) -> u32
    requires told { parts_notes parts.now ≡ running_notes (parts_view parts.now) }
    ensures { result ≡ count_in (parts_view parts.now) }
{
    match parts {
        None => 0,
        Some(cell) => cell.nodes,
    }
}

/// How many nodes a part is: one or none.
pub(crate) fn count_of_part(part: &Part) -> u32
    ensures { result ≡ length (inner_of (part_view part.now)) }
{
    match part {
        Part::Taken(_) => 0,
        Part::Inner(_) => 1,
        Part::Missing(_) => 0,
    }
}

/// The nodes among the parts but for so many of the first of these, in order.
pub(crate) fn nodes_from(
    alloc: Global,
    from: usize,
    parts: &Parts,
) -> Result<Vec<Rc<Node>>, NoMemory>
    requires told { parts_notes parts.now ≡ running_notes (parts_view parts.now) }
    ensures { IfOk result (λ r. length (nodes_in (parts_view parts.now)) < 2 ^ 32 - 1 → map (λ n. node_view n.value) r.items ≡ drop from (reverse (nodes_in (parts_view parts.now)))) }
{
    let mut nodes: Vec<Rc<Node>> = Vec::new(alloc);
    let mut rest = parts;
    while let Some(cell) = rest {
        if cell.nodes as usize <= from {
            break;
        }
        add_node(&cell.part, &mut nodes)?;
        rest = &cell.before;
    }
    nodes.reverse();
    Ok(nodes)
}

/// The node of a part, if it is one, behind others.
fn add_node(part: &Part, nodes: &mut Vec<Rc<Node>>) -> Result<(), NoMemory>
    ensures { OnOk result (map (λ n. node_view n.value) nodes.new.items ≡ map (λ n. node_view n.value) nodes.old.items ++ inner_of (part_view part.now)) }
{
    match part {
        Part::Inner(node) => match Rc::clone(node) {
            Ok(node) => match nodes.push(node) {
                Ok(()) => Ok(()),
                Err(_) => Err(AllocError),
            },
            Err(_) => Err(AllocError),
        },
        Part::Taken(_) => Ok(()),
        Part::Missing(_) => Ok(()),
    }
}

/// The height that a part tells; tokens and missing parts have none.
pub(crate) fn height_of_part(part: &Part) -> u16
    ensures { result ≡ told_height (part_view part.now) }
{
    match part {
        Part::Taken(_) => 0,
        Part::Inner(node) => node.height,
        Part::Missing(_) => 0,
    }
}
