//! The last node that an offset touches, and the names in scope there.
ghost use Rattle.std.specs.Prelude.{◌≡◌, ◌+◌, ◌&&◌, option_map, IfOk, OnOk};
ghost use Rattle.std.specs.Option.{option_or};
ghost use Rattle.query_model.specs.Touching.{id_if, touched, touched_at, touched_part, touches};
ghost use Rattle.query_model.specs.ScopeNodes.{item_behind, scope_node};
ghost use Rattle.name_queries.specs.Environments.{env_at, env_of};
ghost use Rattle.tree_model.specs.Nodes.{id};
ghost use Rattle.tree_model.specs.Slots.{is_operand, missing_size};
ghost use Rattle.tree_model.specs.Trees.{part_size, size_of};
ghost use Rattle.syntax_tree.specs.Names.{row_of};
ghost use Rattle.syntax_tree.specs.View.{id_of, node_view, part_view, place_of, trees_of};

use env_table::Env;
use query_engine::{Asked, number_behind};
use syntax_tree::{Child, NoMemory, Node, NodeId, Part, RowName, Span, Tree, is_operand};

fn touches(span: Span, offset: u32) -> bool
    ensures { result ≡ touches offset (place_of span) }
{
    span.start <= offset && offset <= span.end
}

/// A node in place of the last one, if the offset touches it.
fn keep(span: Span, offset: u32, at: NodeId, last: &mut Option<NodeId>)
    ensures { option_map id_of last.new ≡ option_or (id_if (touches offset (place_of span)) (id_of at)) (option_map id_of last.old) }
{
    if touches(span, offset) {
        *last = Some(at);
    }
}

/// Keeps the last node that the offset touches among a node and those inside. It gives the number behind these.
#[cycle(touching)]
fn keep_node(
    node: &Node,
    offset: u32,
    at: NodeId,
    last: &mut Option<NodeId>,
) -> Result<u32, NoMemory>
    ensures number { IfOk result (λ n. n ≡ at.pre + size_of (node_view node.now)) }
    ensures last { OnOk result (option_map id_of last.new ≡ option_or (touched offset at.item at.pre (node_view node.now)) (option_map id_of last.old)) }
{
    keep(node.span, offset, at, last);
    let mut pre = number_behind(at.pre)?;
    for child in &node.children {
        let next = NodeId { item: at.item, pre };
        pre = keep_part(node.row, child, offset, next, last)?;
    }
    Ok(pre)
}

#[cycle(touching)]
fn keep_part(
    row: RowName,
    child: &Child,
    offset: u32,
    at: NodeId,
    last: &mut Option<NodeId>,
) -> Result<u32, NoMemory>
    ensures number { IfOk result (λ n. n ≡ at.pre + part_size (row_of row) child.now.slot (part_view child.now.part)) }
    ensures last { OnOk result (option_map id_of last.new
        ≡ option_or (touched_part offset at.item at.pre (row_of row) child.now.slot (part_view child.now.part)) (option_map id_of last.old)) }
{
    match &child.part {
        Part::Taken(_) => Ok(at.pre),
        Part::Inner(node) => keep_node(node, offset, at, last),
        Part::Missing(span) => keep_missing(row, child.slot, *span, offset, at, last),
    }
}

fn keep_missing(
    row: RowName,
    slot: u8,
    span: Span,
    offset: u32,
    at: NodeId,
    last: &mut Option<NodeId>,
) -> Result<u32, NoMemory>
    ensures number { IfOk result (λ n. n ≡ at.pre + missing_size (row_of row) slot) }
    ensures last { OnOk result (option_map id_of last.new
        ≡ option_or (id_if (is_operand (row_of row) slot && touches offset (place_of span)) (id_of at)) (option_map id_of last.old)) }
{
    if !is_operand(row, slot) {
        return Ok(at.pre);
    }
    keep(span, offset, at, last);
    number_behind(at.pre)
}

/// The last node or missing operand in preorder that the offset, in bytes from 0, touches. None where none does.
pub(crate) fn touched_at(tree: &Tree, offset: u32) -> Result<Option<NodeId>, NoMemory>
    ensures { IfOk result (λ o. option_map id_of o ≡ touched_at offset (trees_of tree.now)) }
{
    let mut last = None;
    let mut item: u32 = 1;
    for node in &tree.items {
        keep_node(node, offset, NodeId { item, pre: 0 }, &mut last)?;
        item = number_behind(item)?;
    }
    Ok(last)
}

/// The first item that starts behind the offset. None where there is none.
fn item_behind(tree: &Tree, offset: u32) -> Result<Option<NodeId>, NoMemory>
    ensures { IfOk result (λ o. option_map id_of o ≡ item_behind offset 1 (trees_of tree.now)) }
{
    let mut number: u32 = 1;
    for item in &tree.items {
        if item.span.start > offset {
            return Ok(Some(NodeId {
                item: number,
                pre: 0,
            }));
        }
        number = number_behind(number)?;
    }
    Ok(None)
}

/// The node in whose names an offset stands: the last that it touches, or else the first item behind it.
fn scope_node(tree: &Tree, offset: u32) -> Result<Option<NodeId>, NoMemory>
    ensures { IfOk result (λ o. option_map id_of o ≡ scope_node offset (trees_of tree.now)) }
{
    match touched_at(tree, offset)? {
        Some(id) => Ok(Some(id)),
        None => item_behind(tree, offset),
    }
}

/// The names in scope in which a node is treated; where none are recorded, those behind the last item.
fn env_of<'a>(asked: &Asked<'a>, id: NodeId) -> &'a Env
    ensures { result.now ≡ env_of asked.now (id_of id) }
{
    match asked.index.get(id) {
        Some(seen) => &seen.env,
        None => asked.end,
    }
}

/// The names in scope at an offset: those of the last node that it touches, or else those behind the last item that ends before
/// it.
pub(crate) fn env_at<'a>(asked: &Asked<'a>, offset: u32) -> Result<&'a Env, NoMemory>
    ensures { IfOk result (λ e. e.now ≡ env_at asked.now offset) }
{
    match scope_node(asked.tree, offset)? {
        Some(id) => Ok(env_of(asked, id)),
        None => Ok(asked.end),
    }
}
