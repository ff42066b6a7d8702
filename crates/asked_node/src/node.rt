//! The innermost typed node at an offset.
ghost use Rattle.std.specs.Prelude.{◌≡◌, IfOk, option_map};
ghost use Rattle.query_model.specs.TypedNodes.{innermost_at};
ghost use Rattle.syntax_tree.specs.View.{trees_of};
ghost use Rattle.query_engine.specs.Typed.{node_of};
ghost use Rattle.asked_node.specs.Node.{typing_at, typing_of, IsAsked, IsNode};

use crate::rows::row_at;
use env_table::{Env, NodeRef};
use query_engine::{Asked, TypedNode, innermost};
use std::alloc::Global;
use syntax_tree::{NoMemory, NodeId, RowName, Span};

/// The node of a type, and the names in scope.
#[derive(Clone, Copy)]
pub struct Typing<'a> {
    pub ty: NodeRef,
    pub env: &'a Env,
}

/// A typed node.
#[derive(Clone, Copy)]
pub struct AskedNode<'a> {
    /// Where it stands, in bytes from 0.
    pub span: Span,
    /// None where it is a missing operand.
    pub row: Option<RowName>,
    /// None where no type is recorded.
    pub typing: Option<Typing<'a>>,
}

/// The type and the names in scope that are recorded for a node.
fn typing_of<'a>(asked: &Asked<'a>, id: NodeId) -> Option<Typing<'a>>
    ensures { option_map typing_of result ≡ typing_at asked.now id.item id.pre }
{
    match asked.index.get(id) {
        None => None,
        Some(seen) => match seen.ty {
            None => None,
            Some(ty) => Some(Typing { ty, env: &seen.env }),
        },
    }
}

fn asked_node<'a>(
    alloc: Global,
    asked: &Asked<'a>,
    node: TypedNode,
) -> Result<AskedNode<'a>, NoMemory>
    ensures { IfOk result (λ n. IsNode asked.now (node_of node) n) }
{
    let row = row_at(alloc, asked.tree, node.id)?;
    Ok(AskedNode {
        span: node.span,
        row,
        typing: typing_of(asked, node.id),
    })
}

/// The innermost typed node that holds the offset, in bytes from 0, with its row, and what is recorded for it. None where there is
/// none.
pub fn asked_at<'a>(
    alloc: Global,
    asked: &Asked<'a>,
    offset: u32,
) -> Result<Option<AskedNode<'a>>, NoMemory>
    ensures { IfOk result (λ r. IsAsked asked.now (innermost_at offset (trees_of asked.now.tree.now)) r) }
{
    match innermost(alloc, asked, offset)? {
        None => Ok(None),
        Some(node) => {
            let found = asked_node(alloc, asked, node)?;
            Ok(Some(found))
        }
    }
}
