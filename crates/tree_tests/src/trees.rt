//! Nodes at places of small trees, their extents and their yields.
ghost use Rattle.std.specs.Prelude.{◌≡◌, ◌<◌, ◌-◌, ◌^◌, ◌∷◌, [], length, IfOk};
ghost use Rattle.tree_model.specs.Trees.{AreItemsSized};
ghost use Rattle.syntax_tree.specs.View.{node_view, trees_of};

use crate::verdict::{none_wrong, wrong_unless};
use std::alloc::{AllocError, Global};
use std::rc::Rc;
use std::test::Fail;
use syntax_tree::*;

fn token(alloc: Global, kind: TokenKind, start: u32, end: u32) -> Result<Token, NoMemory> {
    Ok(Token {
        kind,
        span: Span { start, end },
        reach: end,
        col: start,
        name: RcStr::from_str(alloc, "x")?,
    })
}

/// The tree of one item.
fn only(alloc: Global, item: Rc<Node>) -> Result<Tree, NoMemory>
    ensures { IfOk result (λ t. trees_of t ≡ node_view item.value ∷ []) }
{
    match vec![in alloc; item] {
        Ok(items) => Ok(Tree { items }),
        Err(_) => Err(AllocError),
    }
}

/// `;;` at byte 3.
fn a_break(alloc: Global) -> Result<Tree, NoMemory>
    ensures sized { IfOk result (λ t. AreItemsSized (trees_of t)) }
    ensures one { IfOk result (λ t. length (trees_of t) < 2 ^ 32 - 1) }
{
    let token = token(alloc, TokenKind::SemiSemi, 3, 5)?;
    let item = leaf(alloc, RowName::Break, 0, token)?;
    only(alloc, item)
}

/// `+ 1`: the missing left operand is the node 1, and `1` the node 2.
fn sum(alloc: Global) -> Result<Tree, NoMemory>
    ensures sized { IfOk result (λ t. AreItemsSized (trees_of t)) }
    ensures one { IfOk result (λ t. length (trees_of t) < 2 ^ 32 - 1) }
{
    let one = token(alloc, TokenKind::Int, 2, 3)?;
    let right = Child {
        slot: 2,
        part: Part::Inner(leaf(alloc, RowName::Econst, 0, one)?),
    };
    let sign = Child {
        slot: 1,
        part: Part::Taken(token(alloc, TokenKind::Op12, 0, 1)?),
    };
    let missing = Child {
        slot: 0,
        part: Part::Missing(Span { start: 0, end: 0 }),
    };
    match vec![in alloc; missing, sign, right] {
        Ok(children) => only(alloc, node_of(alloc, RowName::Infix, children)?),
        Err(_) => Err(AllocError),
    }
}

/// `(` and a missing operand, without its `)`: the operand is the node 1, and the missing token has no number.
fn parenthesis(alloc: Global) -> Result<Tree, NoMemory>
    ensures sized { IfOk result (λ t. AreItemsSized (trees_of t)) }
    ensures one { IfOk result (λ t. length (trees_of t) < 2 ^ 32 - 1) }
{
    let missing = |slot: u8| Child {
        slot,
        part: Part::Missing(Span { start: 1, end: 1 }),
    };
    let open = Child {
        slot: 0,
        part: Part::Taken(token(alloc, TokenKind::LeftParen, 0, 1)?),
    };
    match vec![in alloc; open, missing(1), missing(4)] {
        Ok(children) => only(alloc, node_of(alloc, RowName::Eparen, children)?),
        Err(_) => Err(AllocError),
    }
}

/// Whether the one item of a tree has this span, size and height.
fn extends(tree: &Tree, span: Span, size: u32, height: u16) -> bool {
    match tree.items.as_slice() {
        [item] => item.span == span && item.size == size && item.height == height,
        _ => false,
    }
}

/// The one item, and its first and second part with a number.
const ITEM: NodeId = NodeId { item: 1, pre: 0 };

const FIRST: NodeId = NodeId { item: 1, pre: 1 };

const SECOND: NodeId = NodeId { item: 1, pre: 2 };

/// Whether these are the nodes around an offset, from the innermost out.
fn encloses(alloc: Global, tree: &Tree, offset: u32, nodes: &[NodeId]) -> bool
    requires sized { AreItemsSized (trees_of tree.now) }
    requires items { length (trees_of tree.now) < 2 ^ 32 - 1 }
{
    match enclosing(alloc, tree, offset) {
        Ok(found) => found.as_slice() == nodes,
        Err(_) => false,
    }
}

/// Whether `;;` is a leaf from its start up to its end.
fn is_leaf(alloc: Global) -> bool {
    match a_break(alloc) {
        Ok(tree) => {
            node_at(&tree, 2) == None
                && node_at(&tree, 3) == Some(ITEM)
                && node_at(&tree, 4) == Some(ITEM)
                && node_at(&tree, 5) == None
        }
        Err(_) => false,
    }
}

fn yields(alloc: Global, tree: &Tree, spans: &[Span]) -> bool {
    match yield_of(alloc, tree) {
        Ok(found) => found.as_slice() == spans,
        Err(_) => false,
    }
}

/// The tokens of `+ 1`.
const SUM_TOKENS: [Span; 2] = [Span { start: 0, end: 1 }, Span { start: 2, end: 3 }];

/// Whether the missing operand of a sum has a number.
fn is_numbered(alloc: Global) -> bool {
    let Ok(tree) = sum(alloc) else {
        return false;
    };
    extends(&tree, Span { start: 0, end: 3 }, 3, 2)
        && yields(alloc, &tree, &SUM_TOKENS)
        && encloses(alloc, &tree, 0, &[FIRST, ITEM])
        && encloses(alloc, &tree, 1, &[ITEM])
        && encloses(alloc, &tree, 2, &[SECOND, ITEM])
}

/// Whether of a missing operand and a missing token the first has a number.
fn has_one_number(alloc: Global) -> bool {
    let Ok(tree) = parenthesis(alloc) else {
        return false;
    };
    extends(&tree, Span { start: 0, end: 1 }, 2, 1)
        && is_operand(RowName::Eparen, 1)
        && !is_operand(RowName::Eparen, 4)
        && node_at(&tree, 1) == Some(FIRST)
        && encloses(alloc, &tree, 1, &[FIRST])
}

/// A missing operand has a number, and a missing token has none.
#[test]
fn nodes_of_small_trees(rt: HostRuntime) -> Result<(), Fail> {
    none_wrong(wrong_unless(is_leaf(rt.alloc()), "a leaf"))?;
    none_wrong(wrong_unless(is_numbered(rt.alloc()), "a missing operand"))?;
    none_wrong(wrong_unless(has_one_number(rt.alloc()), "a missing token"))
}
