//! The tokens of a tree, in order.
ghost use Rattle.std.specs.Prelude.{◌≡◌, ◌++◌, map, IfOk, OnOk};
ghost use Rattle.tree_model.specs.Trees as plain;
ghost use Rattle.tree_model.specs.Trees.{part_yield};
ghost use Rattle.syntax_tree.specs.View.{node_view, part_view, place_of, trees_of};
ghost use Rattle.syntax_tree.specs.Yields.{place_of_tok, yields_of};

use crate::{NoMemory, Node, Part, Span, Tree};
use std::alloc::{AllocError, Global};

#[cycle(yields)]
fn add_part(part: &Part, out: &mut Vec<Span>) -> Result<(), NoMemory>
    ensures { OnOk result (map place_of out.new.items ≡ map place_of out.old.items ++ map place_of_tok (part_yield (part_view part.now))) }
{
    match part {
        Part::Taken(token) => match out.push(token.span) {
            Ok(()) => Ok(()),
            Err(_) => Err(AllocError),
        },
        Part::Inner(node) => add_node(node, out),
        Part::Missing(_) => Ok(()),
    }
}

#[cycle(yields)]
fn add_node(node: &Node, out: &mut Vec<Span>) -> Result<(), NoMemory>
    ensures { OnOk result (map place_of out.new.items ≡ map place_of out.old.items ++ map place_of_tok (plain.yield_of (node_view node.now))) }
{
    for child in &node.children {
        add_part(&child.part, out)?;
    }
    Ok(())
}

/// Where the tokens of the tree stand, in order.
pub fn yield_of(alloc: Global, tree: &Tree) -> Result<Vec<Span>, NoMemory>
    ensures { IfOk result (λ v. map place_of v.items ≡ map place_of_tok (yields_of (trees_of tree.now))) }
{
    let mut out = Vec::new(alloc);
    for item in &tree.items {
        add_node(item, &mut out)?;
    }
    Ok(out)
}
