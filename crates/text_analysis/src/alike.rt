//! How many items at the front of two trees are alike.
ghost use Rattle.std.specs.Prelude.{◌≡◌, ◌≤◌, true, length, map, take};
ghost use Rattle.syntax_tree.specs.View.{tok_of, place_of, node_view, child_view, part_view, forest_of};
ghost use Rattle.text_analysis.specs.Items.{views_of};
ghost use Rattle.analysis_api.specs.Typed.{LongestFront, SameFront};

use std::rc::Rc;
use syntax_tree::{Child, Node, Part, Token};

/// Whether two tokens are alike, but for their reaches.
fn alike_tokens(left: &Token, right: &Token) -> bool
    ensures alike { result ≡ true → tok_of left.now ≡ tok_of right.now }
    ensures all { tok_of left.now ≡ tok_of right.now → result ≡ true }
{
    if left.kind != right.kind || left.span != right.span || left.col != right.col {
        return false;
    }
    left.name.is(right.name.as_str())
}

/// Whether two parts are alike.
#[cycle(alike)]
fn alike_parts(left: &Part, right: &Part) -> bool
    ensures alike { result ≡ true → part_view left.now ≡ part_view right.now }
    ensures all { part_view left.now ≡ part_view right.now → result ≡ true }
{
    match (left, right) {
        (Part::Taken(a), Part::Taken(b)) => alike_tokens(a, b),
        (Part::Inner(a), Part::Inner(b)) => alike_nodes(a, b),
        (Part::Missing(a), Part::Missing(b)) => a == b,
        _ => false,
    }
}

/// Whether two lists of parts with their slots are alike.
#[cycle(alike)]
fn alike_children(left: &[Child], right: &[Child]) -> bool
    ensures alike { result ≡ true → map child_view left.now ≡ map child_view right.now }
    ensures all { map child_view left.now ≡ map child_view right.now → result ≡ true }
{
    if left.len() != right.len() {
        return false;
    }
    for (place, child) in left.iter().enumerate() {
        let other = &right[place];
        if child.slot != other.slot || !alike_parts(&child.part, &other.part) {
            return false;
        }
    }
    true
}

/// Whether two nodes are alike, with all nodes in them. The calls are as deep as the first of the trees is high.
#[cycle(alike)]
fn alike_nodes(left: &Node, right: &Node) -> bool
    ensures alike { result ≡ true → node_view left.now ≡ node_view right.now }
    ensures all { node_view left.now ≡ node_view right.now → result ≡ true }
{
    if left.row != right.row || left.span != right.span {
        return false;
    }
    if left.size != right.size || left.height != right.height {
        return false;
    }
    alike_children(&left.children, &right.children)
}

/// How many items at the front of two lists are alike. So many are known to be, and aren't compared.
pub fn common_front(left: &[Rc<Node>], right: &[Rc<Node>], front: usize) -> usize
    requires { SameFront (views_of left.now) (views_of right.now) front }
    ensures { LongestFront (views_of left.now) (views_of right.now) result }
{
    let most = left.len().min(right.len());
    for k in front..most {
        if !alike_nodes(&left[k], &right[k]) {
            return k;
        }
    }
    most
}
