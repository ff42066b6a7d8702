//! The tokens in the slots of a row.
ghost use Rattle.std.specs.Prelude.{◌≡◌, map, option_map, IfOk};
ghost use Rattle.syntax_tree.specs.View.{node_view, part_view, tok_of};
ghost use Rattle.row_parts.specs.Numbered.{token_at, token_in, token_of, token_view, tokens_in, tokens_or_none_in};

use owned_lists::push;
use std::alloc::Global;
use syntax_tree::{Child, NoMemory, Node, Part, Token};

/// The token that a part is; None for a node, and where the part is missing.
fn token_of(part: &Part) -> Option<&Token>
    ensures { token_view result ≡ token_of (part_view part.now) }
{
    match part {
        Part::Taken(token) => Some(token),
        Part::Inner(_) | Part::Missing(_) => None,
    }
}

/// The token of a child in the slot.
fn token_at(child: &Child, slot: u8) -> Option<&Token>
    ensures { token_view result ≡ token_at slot child.now.slot (part_view child.now.part) }
{
    if child.slot == slot {
        token_of(&child.part)
    } else {
        None
    }
}

/// The first token in a slot.
pub fn token(node: &Node, slot: u8) -> Option<&Token>
    ensures { option_map (λ t. tok_of t.now) result ≡ token_in (node_view node.now) slot }
{
    for child in &node.children {
        if let Some(token) = token_at(child, slot) {
            return Some(token);
        }
    }
    None
}

/// The tokens in a slot, in order.
pub fn tokens<'a>(alloc: Global, node: &'a Node, slot: u8) -> Result<Vec<&'a Token>, NoMemory>
    ensures { IfOk result (λ ts. map (λ t. tok_of t.now) ts.items ≡ tokens_in (node_view node.now) slot) }
{
    let mut found = Vec::new(alloc);
    for child in &node.children {
        if let Some(token) = token_at(child, slot) {
            push(&mut found, token)?;
        }
    }
    Ok(found)
}

/// The tokens in a slot, in order, with None for each that is missing.
pub fn tokens_or_missing<'a>(
    alloc: Global,
    node: &'a Node,
    slot: u8,
) -> Result<Vec<Option<&'a Token>>, NoMemory>
    ensures { IfOk result (λ ts. map token_view ts.items ≡ tokens_or_none_in (node_view node.now) slot) }
{
    let mut found = Vec::new(alloc);
    for child in &node.children {
        if child.slot == slot {
            push(&mut found, token_of(&child.part))?;
        }
    }
    Ok(found)
}
