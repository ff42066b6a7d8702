//! The names of a text, and the one at an offset.
ghost use Rattle.std.specs.Prelude.{◌≡◌, ◌+◌, ◌++◌, ◌∷◌, [], find, map, option_map, IfOk, OnOk, if◌then◌else◌};
ghost use Rattle.query_model.specs.NameTokens as model;
ghost use Rattle.query_model.specs.NameTokens.{ends_at, has_float, has_float_literal, holds_offset, is_float_in, is_float_literal, is_name, name_at, name_count, name_round, names_in, names_of, text_names};
ghost use Rattle.tree_model.specs.Trees.{part_size, size_of};
ghost use Rattle.syntax_tree.specs.Names.{kind_of, row_of};
ghost use Rattle.syntax_tree.specs.View.{child_view, forest_of, id_of, node_view, part_view, tok_of, trees_of};
ghost use Rattle.name_queries.specs.NameTokens.{name_of};

use query_engine::{holds_offset, is_slot, number_behind};
use std::alloc::{AllocError, Global};
use syntax_tree::{
    Child, NoMemory, Node, NodeId, Part, RcStr, RowName, Span, Token, TokenKind, Tree, is_operand,
};

/// A name token of a text.
#[derive(Drop)]
pub struct NameToken {
    /// The node of which it is a part.
    pub node: NodeId,
    /// How many names stand before it among the parts of this node.
    pub index: u32,
    /// Where it stands, in bytes from 0.
    pub span: Span,
    /// Its spelling; of a Qualifier without the point, of an OpName the operator alone.
    pub name: RcStr,
}

impl NameToken {
    /// The same name, with one more owner of its spelling.
    pub fn share(&self) -> Result<NameToken, NoMemory>
        ensures { IfOk result (λ n. name_of n ≡ name_of self.now) }
    {
        Ok(NameToken {
            node: self.node,
            index: self.index,
            span: self.span,
            name: self.name.share()?,
        })
    }
}

/// Whether a token of this kind is a name wherever it stands.
#[tactic(auto, unfolding(query_model::specs::NameTokens::is_name_kind, syntax_tree::specs::Names::kind_of))]
fn is_name_kind(kind: TokenKind) -> bool
    ensures { result ≡ model.is_name_kind (kind_of kind) }
{
    matches!(
        kind,
        TokenKind::Lower
            | TokenKind::Upper
            | TokenKind::Qualifier
            | TokenKind::OpName
            | TokenKind::Prefix
    )
}

#[tactic(auto, unfolding(query_model::specs::NameTokens::is_float, syntax_tree::specs::Names::kind_of))]
fn is_float(kind: TokenKind) -> bool
    ensures { result ≡ model.is_float (kind_of kind) }
{
    matches!(kind, TokenKind::Float)
}

#[tactic(auto, unfolding(query_model::specs::NameTokens::is_constant_row, syntax_tree::specs::Names::row_of))]
fn is_constant_row(row: RowName) -> bool
    ensures { result ≡ model.is_constant_row (row_of row) }
{
    matches!(row, RowName::Econst)
}

fn is_float_in(part: &Part) -> bool
    ensures { result ≡ is_float_in (part_view part.now) }
{
    match part {
        Part::Taken(token) => is_float(token.kind),
        Part::Inner(_) => false,
        Part::Missing(_) => false,
    }
}

fn has_float(children: &[Child]) -> bool
    ensures { result ≡ has_float (forest_of (map child_view children.now)) }
{
    for child in children {
        if is_float_in(&child.part) {
            return true;
        }
    }
    false
}

/// Whether a part is a constant with a point or an exponent.
fn is_float_literal(part: &Part) -> bool
    ensures { result ≡ is_float_literal (part_view part.now) }
{
    match part {
        Part::Taken(_) => false,
        Part::Inner(node) => is_constant_row(node.row) && has_float(&node.children),
        Part::Missing(_) => false,
    }
}

fn has_float_literal(children: &[Child]) -> bool
    ensures { result ≡ has_float_literal (forest_of (map child_view children.now)) }
{
    for child in children {
        if is_float_literal(&child.part) {
            return true;
        }
    }
    false
}

/// The slot of a row's sign that is a name. The minus of a constant with a point or an exponent is none.
#[tactic(auto, unfolding(query_model::specs::NameTokens::sign_slot, syntax_tree::specs::Names::row_of))]
fn sign_slot(row: RowName, children: &[Child]) -> Option<u8>
    ensures { result ≡ model.sign_slot (row_of row) (has_float_literal (forest_of (map child_view children.now))) }
{
    match row {
        RowName::Infix => Some(1),
        RowName::Eneg if !has_float_literal(children) => Some(0),
        _ => None,
    }
}

/// Whether a token in a slot is a name.
fn is_name(sign: Option<u8>, slot: u8, token: &Token) -> bool
    ensures { result ≡ is_name sign slot (tok_of token.now) }
{
    is_name_kind(token.kind) || is_slot(sign, slot)
}

/// How many names stand before what follows a part of a node.
fn index_behind(index: u32, sign: Option<u8>, slot: u8, part: &Part) -> Result<u32, NoMemory>
    ensures { IfOk result (λ n. n ≡ index + name_count sign slot (part_view part.now)) }
{
    match part {
        Part::Taken(token) if is_name(sign, slot, token) => number_behind(index),
        Part::Taken(_) => Ok(index),
        Part::Inner(_) => Ok(index),
        Part::Missing(_) => Ok(index),
    }
}

/// A token behind others, if it is a name.
fn add_token(
    node: NodeId,
    index: u32,
    sign: Option<u8>,
    slot: u8,
    token: &Token,
    out: &mut Vec<NameToken>,
) -> Result<(), NoMemory>
    ensures { OnOk result (map name_of out.new.items
        ≡ map name_of out.old.items ++ (if is_name sign slot (tok_of token.now) then name_at (id_of node) index (tok_of token.now) ∷ [] else [])) }
{
    if !is_name(sign, slot, token) {
        return Ok(());
    }
    let name = NameToken {
        node,
        index,
        span: token.span,
        name: token.name.share()?,
    };
    match out.push(name) {
        Ok(()) => Ok(()),
        Err(_) => Err(AllocError),
    }
}

/// The names in a node, behind others. It gives the number behind this node and those inside.
#[cycle(name_tokens)]
fn add_names(id: NodeId, node: &Node, out: &mut Vec<NameToken>) -> Result<u32, NoMemory>
    ensures number { IfOk result (λ n. n ≡ id.pre + size_of (node_view node.now)) }
    ensures names { OnOk result (map name_of out.new.items ≡ map name_of out.old.items ++ names_in id.item id.pre (node_view node.now)) }
{
    let sign = sign_slot(node.row, &node.children);
    let mut index = 0;
    let mut next = number_behind(id.pre)?;
    for child in &node.children {
        let at = NodeId {
            item: id.item,
            pre: next,
        };
        next = add_names_of(id, index, at, node.row, sign, child, out)?;
        index = index_behind(index, sign, child.slot, &child.part)?;
    }
    Ok(next)
}

/// The names in a part of a node, which has the number `at` if it has one, behind others.
#[cycle(name_tokens)]
fn add_names_of(
    id: NodeId,
    index: u32,
    at: NodeId,
    row: RowName,
    sign: Option<u8>,
    child: &Child,
    out: &mut Vec<NameToken>,
) -> Result<u32, NoMemory>
    requires { at.item ≡ id.item }
    ensures number { IfOk result (λ n. n ≡ at.pre + part_size (row_of row) child.now.slot (part_view child.now.part)) }
    ensures names { OnOk result (map name_of out.new.items
        ≡ map name_of out.old.items ++ names_of id.item id.pre index at.pre sign child.now.slot (part_view child.now.part)) }
{
    match &child.part {
        Part::Taken(token) => {
            add_token(id, index, sign, child.slot, token, out)?;
            Ok(at.pre)
        }
        Part::Inner(node) => add_names(at, node, out),
        Part::Missing(_) if is_operand(row, child.slot) => number_behind(at.pre),
        Part::Missing(_) => Ok(at.pre),
    }
}

/// The names of a text, in order.
#[tactic(auto, unfolding(query_model::specs::NameTokens::text_names))]
pub(crate) fn text_names(alloc: Global, tree: &Tree) -> Result<Vec<NameToken>, NoMemory>
    ensures { IfOk result (λ v. map name_of v.items ≡ text_names (trees_of tree.now)) }
{
    let mut out = Vec::new(alloc);
    let mut number: u32 = 1;
    for item in &tree.items {
        let id = NodeId {
            item: number,
            pre: 0,
        };
        add_names(id, item, &mut out)?;
        number = number_behind(number)?;
    }
    Ok(out)
}

/// The name that holds the offset.
fn name_holding(names: &[NameToken], offset: u32) -> Option<&NameToken>
    ensures { option_map (λ n. name_of n.now) result ≡ find (holds_offset offset) (map name_of names.now) }
{
    for name in names {
        if holds_offset(name.span, offset) {
            return Some(name);
        }
    }
    None
}

/// The name that ends at the offset.
fn name_before(names: &[NameToken], offset: u32) -> Option<&NameToken>
    ensures { option_map (λ n. name_of n.now) result ≡ find (ends_at offset) (map name_of names.now) }
{
    for name in names {
        if name.span.end == offset {
            return Some(name);
        }
    }
    None
}

/// Of these names the one that holds the offset, in bytes from 0, or else the one that ends there.
#[tactic(auto, unfolding(query_model::specs::NameTokens::name_round))]
pub(crate) fn name_round(names: &[NameToken], offset: u32) -> Option<&NameToken>
    ensures { option_map (λ n. name_of n.now) result ≡ name_round offset (map name_of names.now) }
{
    match name_holding(names, offset) {
        Some(name) => Some(name),
        None => name_before(names, offset),
    }
}
