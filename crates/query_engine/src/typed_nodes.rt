//! The typed nodes of a text that hold an offset: its expressions, its patterns and the expressions that are missing.
ghost use Rattle.std.specs.Prelude.{◌≡◌, ◌+◌, ◌++◌, ◌&&◌, ◌||◌, map, reverse, true, IfOk, OnOk};
ghost use Rattle.query_model.specs.TypedNodes as model;
ghost use Rattle.query_model.specs.TypedNodes.{has_name_in, has_taken_in, is_name_in, is_taken_in, typed_at, typed_if, typed_in, typed_part};
ghost use Rattle.query_model.specs.Outlines.{is_slot};
ghost use Rattle.tree_model.specs.Nodes.{id, holds};
ghost use Rattle.tree_model.specs.Slots.{missing_size};
ghost use Rattle.tree_model.specs.Trees.{part_size, size_of};
ghost use Rattle.syntax_tree.specs.Names.{kind_of, row_of};
ghost use Rattle.syntax_tree.specs.View.{child_view, forest_of, id_of, node_view, part_view, place_of, trees_of};
ghost use Rattle.query_engine.specs.Typed.{may_be_label, node_of};

use crate::names::is_slot;
use std::alloc::{AllocError, Global};
use syntax_tree::{
    Child, NoMemory, Node, NodeId, Part, RowName, Span, TokenKind, Tree, is_operand,
};

/// An expression, a pattern or a missing expression.
#[derive(Clone, Copy, Debug, PartialEq, Eq)]
pub struct TypedNode {
    pub id: NodeId,
    /// Where it stands, in bytes from 0.
    pub span: Span,
}

/// What a part of a row is.
#[derive(Clone, Copy)]
enum Role {
    Plain,
    /// The first part of a record, which is a label where it is a path to one.
    MaybeLabel,
}

/// An offset, in bytes from 0, and the item in which nodes are looked for.
#[derive(Clone, Copy)]
struct Search {
    offset: u32,
    item: u32,
}

#[tactic(auto, unfolding(query_model::specs::TypedNodes::is_typed_row, syntax_tree::specs::Names::row_of))]
fn is_typed_row(row: RowName) -> bool
    ensures { result ≡ model.is_typed_row (row_of row) }
{
    match row {
        RowName::Pname
        | RowName::Pany
        | RowName::Pconst
        | RowName::Pneg
        | RowName::Pcon
        | RowName::Pparen
        | RowName::Plist
        | RowName::Precord
        | RowName::Papp
        | RowName::Pcons
        | RowName::Ptuple
        | RowName::Por
        | RowName::Pas => true,
        RowName::Name
        | RowName::Econ
        | RowName::Epath
        | RowName::Econst
        | RowName::Hole
        | RowName::Eparen
        | RowName::Ebegin
        | RowName::Elist
        | RowName::Erecord
        | RowName::Prefix
        | RowName::Field
        | RowName::Eapp
        | RowName::Eassert
        | RowName::Ewhile
        | RowName::Efor
        | RowName::Eneg
        | RowName::Infix
        | RowName::Econs
        | RowName::Etuple
        | RowName::Eset
        | RowName::Eif
        | RowName::Eseq
        | RowName::Elet
        | RowName::Ematch
        | RowName::Etry
        | RowName::Efun
        | RowName::Efunction => true,
        _ => false,
    }
}

/// Whether the slot of a row takes an expression.
#[tactic(auto, unfolding(query_model::specs::TypedNodes::is_expression_slot, syntax_tree::specs::Names::row_of))]
fn is_expression_slot(row: RowName, slot: u8) -> bool
    ensures { result ≡ model.is_expression_slot (row_of row) slot }
{
    match row {
        RowName::Field => slot == 0,
        RowName::Eparen
        | RowName::Ebegin
        | RowName::Elist
        | RowName::Prefix
        | RowName::Eassert
        | RowName::Eneg
        | RowName::Ematch
        | RowName::Etry => slot == 1,
        RowName::Ffield | RowName::Efun => slot == 3,
        RowName::Binding | RowName::Elet => slot == 5,
        RowName::Eapp => matches!(slot, 0 | 1),
        RowName::Infix | RowName::Econs | RowName::Etuple | RowName::Eset | RowName::Eseq =>
            matches!(slot, 0 | 2),
        RowName::Erecord | RowName::Ewhile => matches!(slot, 1 | 3),
        RowName::Case => matches!(slot, 2 | 4),
        RowName::Eif => matches!(slot, 1 | 3 | 5),
        RowName::Efor => matches!(slot, 3 | 5 | 7),
        _ => false,
    }
}

/// The slot of the last name of a path. None where the row is no path.
#[tactic(auto, unfolding(query_model::specs::TypedNodes::last_name_slot, syntax_tree::specs::Names::row_of))]
fn last_name_slot(row: RowName) -> Option<u8>
    ensures { result ≡ model.last_name_slot (row_of row) }
{
    match row {
        RowName::Name => Some(0),
        RowName::Epath => Some(1),
        _ => None,
    }
}

#[tactic(auto, unfolding(query_model::specs::TypedNodes::is_lower, syntax_tree::specs::Names::kind_of))]
fn is_lower(kind: TokenKind) -> bool
    ensures { result ≡ model.is_lower (kind_of kind) }
{
    matches!(kind, TokenKind::Lower)
}

/// Whether a part is a name in small letters in the slot.
fn is_name_in(wanted: Option<u8>, slot: u8, part: &Part) -> bool
    ensures { result ≡ is_name_in wanted slot (part_view part.now) }
{
    match part {
        Part::Taken(token) => is_slot(wanted, slot) && is_lower(token.kind),
        Part::Inner(_) => false,
        Part::Missing(_) => false,
    }
}

fn has_name_in(wanted: Option<u8>, children: &[Child]) -> bool
    ensures { result ≡ has_name_in wanted (forest_of (map child_view children.now)) }
{
    for child in children {
        if is_name_in(wanted, child.slot, &child.part) {
            return true;
        }
    }
    false
}

/// Whether a part is a token in the slot.
fn is_taken_in(wanted: u8, slot: u8, part: &Part) -> bool
    ensures { result ≡ is_taken_in wanted slot (part_view part.now) }
{
    match part {
        Part::Taken(_) => wanted == slot,
        Part::Inner(_) => false,
        Part::Missing(_) => false,
    }
}

fn has_taken_in(wanted: u8, children: &[Child]) -> bool
    ensures { result ≡ has_taken_in wanted (forest_of (map child_view children.now)) }
{
    for child in children {
        if is_taken_in(wanted, child.slot, &child.part) {
            return true;
        }
    }
    false
}

/// The slot of the part that may be a label: the first one of a record, unless `with` stands behind it.
#[tactic(auto, unfolding(query_model::specs::TypedNodes::label_slot, syntax_tree::specs::Names::row_of))]
fn label_slot(row: RowName, children: &[Child]) -> Option<u8>
    ensures { result ≡ model.label_slot (row_of row) (has_taken_in 4 (forest_of (map child_view children.now))) }
{
    match row {
        RowName::Erecord if !has_taken_in(4, children) => Some(1),
        _ => None,
    }
}

/// What the part in a slot of a row is.
fn role_of(label: Option<u8>, slot: u8) -> Role
    ensures { may_be_label result ≡ is_slot label slot }
{
    if is_slot(label, slot) {
        Role::MaybeLabel
    } else {
        Role::Plain
    }
}

/// Whether a node of this role is a label.
fn is_label(role: Role, row: RowName, children: &[Child]) -> bool
    ensures { result ≡ may_be_label role && has_name_in (model.last_name_slot (row_of row)) (forest_of (map child_view children.now)) }
{
    match role {
        Role::Plain => false,
        Role::MaybeLabel => has_name_in(last_name_slot(row), children),
    }
}

pub fn holds_offset(span: Span, offset: u32) -> bool
    ensures { result ≡ holds offset (place_of span) }
{
    span.start <= offset && (offset < span.end || span.start == offset && span.end == offset)
}

/// The number behind another. More nodes than numbers there are want memory.
pub fn number_behind(number: u32) -> Result<u32, NoMemory>
    ensures { IfOk result (λ n. n ≡ number + 1) }
{
    match number.checked_add(1) {
        Some(next) => Ok(next),
        None => Err(AllocError),
    }
}

/// Puts a typed node behind others, if it holds the offset.
fn keep(search: Search, number: u32, span: Span, out: &mut Vec<TypedNode>) -> Result<(), NoMemory>
    ensures { OnOk result (map node_of out.new.items ≡ map node_of out.old.items ++ typed_if true search.offset (id search.item number) (place_of span)) }
{
    if !holds_offset(span, search.offset) {
        return Ok(());
    }
    let id = NodeId {
        item: search.item,
        pre: number,
    };
    match out.push(TypedNode { id, span }) {
        Ok(()) => Ok(()),
        Err(_) => Err(AllocError),
    }
}

/// The typed ones among a node and those inside, behind others. It gives the number behind these nodes.
#[cycle(typed)]
fn add_node(
    search: Search,
    number: u32,
    role: Role,
    node: &Node,
    out: &mut Vec<TypedNode>,
) -> Result<u32, NoMemory>
    ensures number { IfOk result (λ n. n ≡ number + size_of (node_view node.now)) }
    ensures nodes { OnOk result (map node_of out.new.items
        ≡ map node_of out.old.items ++ typed_in search.offset search.item number (may_be_label role) (node_view node.now)) }
{
    if is_typed_row(node.row) && !is_label(role, node.row, &node.children) {
        keep(search, number, node.span, out)?;
    }
    let label = label_slot(node.row, &node.children);
    let mut next = number_behind(number)?;
    for child in &node.children {
        next = add_part(
            search,
            next,
            node.row,
            role_of(label, child.slot),
            child,
            out,
        )?;
    }
    Ok(next)
}

#[cycle(typed)]
fn add_part(
    search: Search,
    number: u32,
    row: RowName,
    role: Role,
    child: &Child,
    out: &mut Vec<TypedNode>,
) -> Result<u32, NoMemory>
    ensures number { IfOk result (λ n. n ≡ number + part_size (row_of row) child.now.slot (part_view child.now.part)) }
    ensures nodes { OnOk result (map node_of out.new.items
        ≡ map node_of out.old.items ++ typed_part search.offset search.item number (row_of row) (may_be_label role) child.now.slot (part_view child.now.part)) }
{
    match &child.part {
        Part::Taken(_) => Ok(number),
        Part::Inner(node) => add_node(search, number, role, node, out),
        Part::Missing(span) => add_missing(search, number, row, child.slot, *span, out),
    }
}

/// A missing part: an operand has a number, and an expression among them is typed.
fn add_missing(
    search: Search,
    number: u32,
    row: RowName,
    slot: u8,
    span: Span,
    out: &mut Vec<TypedNode>,
) -> Result<u32, NoMemory>
    ensures number { IfOk result (λ n. n ≡ number + missing_size (row_of row) slot) }
    ensures nodes { OnOk result (map node_of out.new.items
        ≡ map node_of out.old.items ++ typed_if (model.is_expression_slot (row_of row) slot) search.offset (id search.item number) (place_of span)) }
{
    if is_expression_slot(row, slot) {
        keep(search, number, span, out)?;
    }
    if is_operand(row, slot) {
        number_behind(number)
    } else {
        Ok(number)
    }
}

/// The typed nodes of a text that hold the offset, in bytes from 0, in preorder.
fn typed_at(alloc: Global, tree: &Tree, offset: u32) -> Result<Vec<TypedNode>, NoMemory>
    ensures { IfOk result (λ v. map node_of v.items ≡ typed_at offset (trees_of tree.now)) }
{
    let mut out = Vec::new(alloc);
    let mut search = Search { offset, item: 1 };
    for item in &tree.items {
        add_node(search, 0, Role::Plain, item, &mut out)?;
        search.item = number_behind(search.item)?;
    }
    Ok(out)
}

/// The typed nodes that hold the offset, in bytes from 0, from the last in preorder to the first.
pub fn typed_around(alloc: Global, tree: &Tree, offset: u32) -> Result<Vec<TypedNode>, NoMemory>
    ensures { IfOk result (λ v. map node_of v.items ≡ reverse (typed_at offset (trees_of tree.now))) }
{
    let mut nodes = typed_at(alloc, tree, offset)?;
    nodes.reverse();
    Ok(nodes)
}
