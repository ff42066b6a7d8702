//! The name and the value of an item.
ghost use Rattle.std.specs.Prelude.{◌≡◌, option_and_then, option_map};
ghost use Rattle.plain_model.specs.Plain as plain;
ghost use Rattle.tree_model.specs.Trees.{inner};
ghost use Rattle.syntax_tree.specs.View.{node_view, part_view, tok_of};
ghost use Rattle.plain_typing.specs.View.{bound_of, taken_in};

use syntax_tree::{Node, Part, Token};

/// The tokens that an item binds together.
#[derive(Clone, Copy)]
pub(crate) struct Bound<'a> {
    pub(crate) name: &'a Token,
    pub(crate) value: &'a Token,
}

/// The name and the value of an item. None where the tree is no item.
pub(crate) fn item_of(item: &Node) -> Option<Bound<'_>>
    ensures { option_map bound_of result ≡ plain.item_of (node_view item.now) }
{
    let children = item.children.as_slice();
    if children.len() != 2 {
        return None;
    }
    bound_in(&children[1].part)
}

fn bound_in(part: &Part) -> Option<Bound<'_>>
    ensures { option_map bound_of result ≡ plain.bound_in (part_view part.now) }
{
    match part {
        Part::Taken(_) => None,
        Part::Inner(binding) => bound_of_binding(binding),
        Part::Missing(_) => None,
    }
}

fn bound_of_binding(binding: &Node) -> Option<Bound<'_>>
    ensures { option_map bound_of result ≡ plain.bound_in (inner (node_view binding.now)) }
{
    let children = binding.children.as_slice();
    if children.len() != 3 {
        return None;
    }
    bound_between(&children[0].part, &children[2].part)
}

fn bound_between<'a>(name: &'a Part, value: &'a Part) -> Option<Bound<'a>>
    ensures { option_map bound_of result ≡ option_and_then
        (λ n. option_map (λ w. (n, w)) (plain.token_in (part_view value.now)))
        (plain.token_in (part_view name.now)) }
{
    Some(Bound {
        name: token_in(name)?,
        value: token_in(value)?,
    })
}

/// The token that is all of a node.
fn token_in(part: &Part) -> Option<&Token>
    ensures { option_map (λ t. tok_of t.now) result ≡ plain.token_in (part_view part.now) }
{
    match part {
        Part::Taken(_) => None,
        Part::Inner(node) => only_token(node),
        Part::Missing(_) => None,
    }
}

fn only_token(node: &Node) -> Option<&Token>
    ensures { option_map (λ t. tok_of t.now) result ≡ plain.token_in (inner (node_view node.now)) }
{
    let children = node.children.as_slice();
    if children.len() != 1 {
        return None;
    }
    taken_token(&children[0].part)
}

fn taken_token(part: &Part) -> Option<&Token>
    ensures { option_map (λ t. tok_of t.now) result ≡ taken_in (part_view part.now) }
{
    match part {
        Part::Taken(token) => Some(token),
        Part::Inner(_) => None,
        Part::Missing(_) => None,
    }
}
