//! The outline of a text.
ghost use Rattle.std.specs.Prelude.{◌≡◌, ◌++◌, Some, [], map, IfOk, OnOk, if◌then◌else◌};
ghost use Rattle.query_model.specs.Outlines as model;
ghost use Rattle.query_model.specs.Outlines.{bound, bound_by, bound_inside, is_slot, members_of, outline as outline_spec};
ghost use Rattle.tree_model.specs.Trees as plain;
ghost use Rattle.syntax_tree.specs.View.{child_view, forest_of, node_view, part_view, place_of, trees_of};
ghost use Rattle.text_queries.specs.Outlines.{inside, inside_by, member_of, named_as};

use query_engine::{Binder, OutlineKind, binder_for, inner_slot, names_under};
use std::alloc::{AllocError, Global};
use syntax_tree::{NoMemory, Node, Part, RcStr, Span, Tree};

/// A bound name, with what is bound inside its item.
#[cycle(outlined)]
#[derive(Drop)]
pub struct Outlined {
    pub children: Vec<Outlined>,
    pub kind: OutlineKind,
    /// The name; of an operator its sign.
    pub name: RcStr,
    /// Where the item stands, in bytes from 0.
    pub span: Span,
}

/// What a node binds, put behind other members.
#[cycle(outline)]
fn add_bound(alloc: Global, node: &Node, out: &mut Vec<Outlined>) -> Result<(), NoMemory>
    ensures { OnOk result (map member_of out.new.items ≡ map member_of out.old.items ++ bound (node_view node.now)) }
{
    match binder_for(node.row) {
        None => add_inside(alloc, node, out),
        Some(binder) => add_named(alloc, binder, node, out),
    }
}

/// A member for each name of an item, each with what is bound inside.
#[cycle(outline)]
fn add_named(
    alloc: Global,
    binder: Binder,
    node: &Node,
    out: &mut Vec<Outlined>,
) -> Result<(), NoMemory>
    ensures { OnOk result (map member_of out.new.items ≡ map member_of out.old.items ++ named_as binder (node_view node.now)) }
{
    let names = names_under(alloc, binder.way, node)?;
    for name in &names {
        let mut children = Vec::new(alloc);
        add_inside(alloc, node, &mut children)?;
        let member = Outlined {
            children,
            kind: binder.kind,
            name: name.share()?,
            span: node.span,
        };
        if out.push(member).is_err() {
            return Err(AllocError);
        }
    }
    Ok(())
}

/// What is bound inside a node, put behind other members.
#[cycle(outline)]
fn add_inside(alloc: Global, node: &Node, out: &mut Vec<Outlined>) -> Result<(), NoMemory>
    ensures { OnOk result (map member_of out.new.items ≡ map member_of out.old.items ++ inside (node_view node.now)) }
{
    match inner_slot(node.row) {
        None => Ok(()),
        Some(slot) => add_in_slot(alloc, slot, node, out),
    }
}

/// What is bound by the parts in a slot.
#[cycle(outline)]
fn add_in_slot(
    alloc: Global,
    slot: u8,
    node: &Node,
    out: &mut Vec<Outlined>,
) -> Result<(), NoMemory>
    ensures { OnOk result (map member_of out.new.items ≡ map member_of out.old.items ++ inside_by (Some slot) (node_view node.now)) }
{
    for child in &node.children {
        add_bound_in(alloc, slot, child.slot, &child.part, out)?;
    }
    Ok(())
}

/// What is bound by a part, if it stands in the wanted slot.
#[cycle(outline)]
fn add_bound_in(
    alloc: Global,
    wanted: u8,
    slot: u8,
    part: &Part,
    out: &mut Vec<Outlined>,
) -> Result<(), NoMemory>
    ensures { OnOk result (map member_of out.new.items
        ≡ map member_of out.old.items ++ (if is_slot (Some wanted) slot then bound_by (part_view part.now) else [])) }
{
    if wanted == slot {
        add_bound_by(alloc, part, out)
    } else {
        Ok(())
    }
}

#[cycle(outline)]
fn add_bound_by(alloc: Global, part: &Part, out: &mut Vec<Outlined>) -> Result<(), NoMemory>
    ensures { OnOk result (map member_of out.new.items ≡ map member_of out.old.items ++ bound_by (part_view part.now)) }
{
    match part {
        Part::Inner(node) => add_bound(alloc, node, out),
        Part::Taken(_) => Ok(()),
        Part::Missing(_) => Ok(()),
    }
}

/// The outline of a text: what its items bind, in text order.
#[tactic(auto, unfolding(query_model::specs::Outlines::outline))]
pub fn outline(alloc: Global, tree: &Tree) -> Result<Vec<Outlined>, NoMemory>
    ensures { IfOk result (λ v. map member_of v.items ≡ outline_spec (trees_of tree.now)) }
{
    let mut out = Vec::new(alloc);
    for item in &tree.items {
        add_bound(alloc, item, &mut out)?;
    }
    Ok(out)
}
