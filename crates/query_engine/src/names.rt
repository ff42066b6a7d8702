//! The names that patterns and items bind.
ghost use Rattle.std.specs.Prelude.{◌≡◌, ◌++◌, [], ◌∷◌, map, IfOk, OnOk, if◌then◌else◌};
ghost use Rattle.query_model.specs.Outlines.{has_slot, is_slot, leads_to, names_at, names_among, names_under, part_names, pattern_names, rest_of};
ghost use Rattle.syntax_tree.specs.Names.{row_of};
ghost use Rattle.syntax_tree.specs.View.{child_view, forest_of, node_view, part_view, tok_of};
ghost use Rattle.query_engine.specs.View.{names_of};

use crate::slots::{binds_in, name_slot};
use std::alloc::{AllocError, Global};
use syntax_tree::{Child, NoMemory, Node, Part, RcStr, RowName, Token};

/// Whether a part stands in the slot.
pub(crate) fn has_slot(children: &[Child], slot: u8) -> bool
    ensures { result ≡ has_slot slot (forest_of (map child_view children.now)) }
{
    for child in children {
        if child.slot == slot {
            return true;
        }
    }
    false
}

pub fn is_slot(wanted: Option<u8>, slot: u8) -> bool
    ensures { result ≡ is_slot wanted slot }
{
    match wanted {
        None => false,
        Some(first) => first == slot,
    }
}

fn push_name(token: &Token, names: &mut Vec<RcStr>) -> Result<(), NoMemory>
    ensures { OnOk result (names_of names.new.items ≡ names_of names.old.items ++ (tok_of token.now).name ∷ []) }
{
    match names.push(token.name.share()?) {
        Ok(()) => Ok(()),
        Err(_) => Err(AllocError),
    }
}

/// The name that a token of a pattern is, if it stands in the slot of one.
fn add_token_name(
    wanted: Option<u8>,
    slot: u8,
    token: &Token,
    names: &mut Vec<RcStr>,
) -> Result<(), NoMemory>
    ensures { OnOk result (names_of names.new.items
        ≡ names_of names.old.items ++ (if is_slot wanted slot then (tok_of token.now).name ∷ [] else [])) }
{
    if is_slot(wanted, slot) {
        push_name(token, names)
    } else {
        Ok(())
    }
}

/// Puts the names that a pattern binds behind others.
#[cycle(patterns)]
fn add_pattern_names(node: &Node, names: &mut Vec<RcStr>) -> Result<(), NoMemory>
    ensures { OnOk result (names_of names.new.items ≡ names_of names.old.items ++ pattern_names (node_view node.now)) }
{
    let wanted = name_slot(node.row, has_slot(&node.children, 3));
    for child in &node.children {
        add_part_names(node.row, wanted, child.slot, &child.part, names)?;
    }
    Ok(())
}

#[cycle(patterns)]
fn add_part_names(
    row: RowName,
    wanted: Option<u8>,
    slot: u8,
    part: &Part,
    names: &mut Vec<RcStr>,
) -> Result<(), NoMemory>
    ensures { OnOk result (names_of names.new.items
        ≡ names_of names.old.items ++ part_names (row_of row) wanted slot (part_view part.now)) }
{
    match part {
        Part::Taken(token) => add_token_name(wanted, slot, token, names),
        Part::Inner(pattern) if binds_in(row, slot) => add_pattern_names(pattern, names),
        Part::Inner(_) => Ok(()),
        Part::Missing(_) => Ok(()),
    }
}

/// Puts the names at the end of a way of slots through a node behind others.
#[cycle(ways)]
fn add_names_under(way: &[u8], node: &Node, names: &mut Vec<RcStr>) -> Result<(), NoMemory>
    ensures { OnOk result (names_of names.new.items ≡ names_of names.old.items ++ names_under way.now (node_view node.now)) }
{
    for child in &node.children {
        add_names_along(way, child.slot, &child.part, names)?;
    }
    Ok(())
}

/// The same through a part, if the way goes on into its slot.
#[cycle(ways)]
fn add_names_along(
    way: &[u8],
    slot: u8,
    part: &Part,
    names: &mut Vec<RcStr>,
) -> Result<(), NoMemory>
    ensures { OnOk result (names_of names.new.items
        ≡ names_of names.old.items ++ (if leads_to slot way.now then names_at (rest_of way.now) (part_view part.now) else [])) }
{
    match way {
        [first, rest @ ..] if *first == slot => add_names_at(rest, part, names),
        _ => Ok(()),
    }
}

/// The same through a part of which the way has been found.
#[cycle(ways)]
fn add_names_at(way: &[u8], part: &Part, names: &mut Vec<RcStr>) -> Result<(), NoMemory>
    ensures { OnOk result (names_of names.new.items ≡ names_of names.old.items ++ names_at way.now (part_view part.now)) }
{
    match part {
        Part::Taken(token) if way.is_empty() => push_name(token, names),
        Part::Inner(pattern) if way.is_empty() => add_pattern_names(pattern, names),
        Part::Inner(node) => add_names_under(way, node, names),
        Part::Taken(_) => Ok(()),
        Part::Missing(_) => Ok(()),
    }
}

/// The names at the end of a way of slots through a node, in text order.
pub fn names_under(alloc: Global, way: &[u8], node: &Node) -> Result<Vec<RcStr>, NoMemory>
    ensures { IfOk result (λ v. names_of v.items ≡ names_under way.now (node_view node.now)) }
{
    let mut names = Vec::new(alloc);
    add_names_under(way, node, &mut names)?;
    Ok(names)
}
