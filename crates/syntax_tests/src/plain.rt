//! The trees of plain texts and the types of their names.
use crate::counts::zero;
use crate::verdict::none_wrong;
use ml_lexer::lex_all;
use plain_typing::{Plain, PlainSeen, plain_tree, type_plain};
use std::alloc::{AllocError, Global};
use std::test::Fail;
use syntax_tree::{NoMemory, NodeId, Span, Tree};

/// The names and literals of the first text, and their types.
const SEEN: [PlainSeen; 6] = [
    PlainSeen {
        id: NodeId { item: 1, pre: 2 },
        span: Span { start: 4, end: 5 },
        ty: Plain::Int,
    },
    PlainSeen {
        id: NodeId { item: 1, pre: 3 },
        span: Span { start: 8, end: 9 },
        ty: Plain::Int,
    },
    PlainSeen {
        id: NodeId { item: 2, pre: 2 },
        span: Span { start: 14, end: 15 },
        ty: Plain::Bool,
    },
    PlainSeen {
        id: NodeId { item: 2, pre: 3 },
        span: Span { start: 18, end: 22 },
        ty: Plain::Bool,
    },
    PlainSeen {
        id: NodeId { item: 3, pre: 2 },
        span: Span { start: 27, end: 28 },
        ty: Plain::Bool,
    },
    PlainSeen {
        id: NodeId { item: 3, pre: 3 },
        span: Span { start: 31, end: 32 },
        ty: Plain::Bool,
    },
];

/// Texts with how many items their trees have, if they are plain, and the types of their names and literals, if they have
/// types.
const TEXTS: [(&str, Option<usize>, Option<&[PlainSeen]>); 3] = [
    ("let a = 1\nlet a = true\nlet b = a", Some(3), Some(&SEEN)),
    ("let a = 1\nlet a =", None, None),
    ("let b = a", Some(1), None),
];

/// The tree of a short text, if it is a plain one.
fn tree_of(alloc: Global, text: &str) -> Result<Option<Tree>, NoMemory> {
    if text.len() > 100 {
        return Err(AllocError);
    }
    plain_tree(alloc, &lex_all(alloc, text.as_bytes(), &[], &mut zero())?)
}

/// Whether the nodes of a plain text have these types, if any.
fn has_types(alloc: Global, tree: &Tree, types: Option<&[PlainSeen]>) -> bool {
    if tree.items.len() > 100 {
        return false;
    }
    match (type_plain(alloc, tree), types) {
        (Ok(Some(found)), Some(types)) => found.as_slice() == types,
        (Ok(None), None) => true,
        _ => false,
    }
}

/// Whether a text has a tree of so many items, if any, and these types, if any.
fn is_found(alloc: Global, text: &str, items: Option<usize>, types: Option<&[PlainSeen]>) -> bool {
    match tree_of(alloc, text) {
        Ok(Some(tree)) => items == Some(tree.items.len()) && has_types(alloc, &tree, types),
        Ok(None) => items.is_none(),
        Err(_) => false,
    }
}

fn wrong_text(alloc: Global) -> Option<&'static str> {
    for row in &TEXTS {
        if !is_found(alloc, row.0, row.1, row.2) {
            return Some(row.0);
        }
    }
    None
}

#[test]
fn a_name_has_the_type_of_its_newest_binding(rt: HostRuntime) -> Result<(), Fail> {
    none_wrong(wrong_text(rt.alloc()))
}
