//! Notes on nodes: what is recorded, looked up and cut off.
ghost use Rattle.std.specs.Prelude.{◌≡◌, ℕ, ◌<◌, ◌^◌, length, option_map, None, OnOk, OnErr};
ghost use Rattle.typed_index.specs.Lists.{seen_in, seen_among, with_note, before_item, at_number};
ghost use Rattle.typed_index.specs.Seen.{seen_at};

use crate::{Nodes, TypedIndex};
use std::alloc::{AllocError, Global};
use syntax_tree::{NoMemory, NodeId};

impl<S: Drop> TypedIndex<S> {
    /// Nothing is recorded.
    pub fn new(alloc: Global) -> TypedIndex<S>
        ensures { (i p : ℕ) → seen_at result i p ≡ None }
    {
        TypedIndex {
            alloc,
            items: Vec::new(alloc),
        }
    }

    /// Records something for a node, in place of what was recorded for it. After `NoMemory` what is recorded is as before.
    #[tactic(auto, using(crate::proofs::Low::low_after))]
    pub fn note(&mut self, id: NodeId, seen: S) -> Result<(), NoMemory>
        ensures noted { OnOk result ((i p : ℕ) → seen_at self.new i p ≡ with_note id.item id.pre seen (seen_at self.old) i p) }
        ensures failed { OnErr result ((i p : ℕ) → seen_at self.new i p ≡ seen_at self.old i p) }
    {
        let item = id.item as usize;
        make_rows(self.alloc, &mut self.items, item)?;
        put_at(&mut self.items, item, id.pre as usize, seen)
    }

    /// What was last recorded for a node; None where nothing is.
    #[tactic(auto, using(crate::proofs::Places::list_at, crate::proofs::Places::among_none))]
    pub fn get(&self, id: NodeId) -> Option<&S>
        ensures { option_map (λ s. s.now) result ≡ seen_at self.now id.item id.pre }
    {
        match self.items.get(id.item as usize) {
            Some(nodes) => seen_for(nodes, id.pre as usize),
            None => None,
        }
    }

    /// Forgets what is recorded for the nodes of this item and of those behind it.
    #[tactic(auto, using(crate::proofs::Places::lists_before))]
    pub fn truncate_to_item(&mut self, item: u32)
        ensures { (i p : ℕ) → seen_at self.new i p ≡ before_item item (seen_at self.old) i p }
    {
        self.items.truncate(item as usize);
    }
}

/// What is recorded for a number.
#[tactic(auto, using(crate::proofs::Places::in_there, crate::proofs::Places::in_none))]
fn seen_for<S>(nodes: &Nodes<S>, number: usize) -> Option<&S>
    ensures { option_map (λ s. s.now) result ≡ seen_in nodes.now.items number }
{
    match nodes.get(number) {
        Some(seen) => seen.as_ref(),
        None => None,
    }
}

/// Makes a row for an item and for those before it.
#[tactic(auto, using(crate::proofs::Places::list_more))]
fn make_rows<S: Drop>(alloc: Global, items: &mut Vec<Nodes<S>>, item: usize) -> Result<(), NoMemory>
    requires { item < 2 ^ 32 }
    ensures same { (i p : ℕ) → seen_among items.new.items i p ≡ seen_among items.old.items i p }
    ensures room { OnOk result (item < length items.new.items) }
{
    for _ in items.len()..item + 1 {
        items.push(Vec::new(alloc))?;
    }
    Ok(())
}

/// Makes a place for a number and for those before it.
#[tactic(auto, using(crate::proofs::Places::place_more))]
fn make_places<S: Drop>(nodes: &mut Nodes<S>, number: usize) -> Result<(), NoMemory>
    requires { number < 2 ^ 32 }
    ensures same { (p : ℕ) → seen_in nodes.new.items p ≡ seen_in nodes.old.items p }
    ensures room { OnOk result (number < length nodes.new.items) }
{
    for _ in nodes.len()..number + 1 {
        nodes.push(None)?;
    }
    Ok(())
}

/// Records something at a number.
#[tactic(auto, using(crate::proofs::Places::place_set))]
fn put<S: Drop>(nodes: &mut Nodes<S>, number: usize, seen: S) -> Result<(), NoMemory>
    requires { number < 2 ^ 32 }
    ensures noted { OnOk result ((p : ℕ) → seen_in nodes.new.items p ≡ at_number number seen (seen_in nodes.old.items) p) }
    ensures failed { OnErr result ((p : ℕ) → seen_in nodes.new.items p ≡ seen_in nodes.old.items p) }
{
    make_places(nodes, number)?;
    nodes[number] = Some(seen);
    Ok(())
}

/// Records something at a number in the row of an item.
#[tactic(auto, using(crate::proofs::Places::list_noted, crate::proofs::Places::list_same, crate::proofs::Places::list_at))]
fn put_at<S: Drop>(
    items: &mut Vec<Nodes<S>>,
    item: usize,
    number: usize,
    seen: S,
) -> Result<(), NoMemory>
    requires there { item < length items.old.items }
    requires low { number < 2 ^ 32 }
    ensures noted { OnOk result ((i p : ℕ) → seen_among items.new.items i p ≡ with_note item number seen (seen_among items.old.items) i p) }
    ensures failed { OnErr result ((i p : ℕ) → seen_among items.new.items i p ≡ seen_among items.old.items i p) }
{
    put(&mut items[item], number, seen)
}
