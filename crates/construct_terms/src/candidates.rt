//! The candidates in place of a hole, and those that add no fault.
ghost use Rattle.std.specs.Prelude.{◌≡◌, ◌++◌, ◌∷◌, [], All, List, ℕ, IfErr, IfOk, OnOk, option_map};
ghost use Rattle.query_model.specs.TypedNodes.{innermost_at};
ghost use Rattle.syntax_tree.specs.Names.{row_of};
ghost use Rattle.syntax_tree.specs.Tallies.{Grows};
ghost use Rattle.syntax_tree.specs.View.{trees_of};
ghost use Rattle.asked_node.specs.Trials.{AreReplaced};
ghost use Rattle.query_engine.specs.Typed.{IsPlacedAt};
ghost use Rattle.asked_node.specs.Node.{typing_of};
ghost use Rattle.construct_terms.specs.Terms.{AreKept, IsAt, IsRefusedAt, told_by};
ghost use Rattle.construct_terms.specs.Wanted.{texts_of, in_front, AreTermsBy, TermsIn, Gives};

use crate::ConstructFault;
use crate::holes::{Hole, hole_of, in_front};
use crate::writing::{Hollow, terms_by};
use asked_node::{AskedNode, Trial, asked_at};
use query_engine::{Asked, Replacement};
use std::alloc::{AllocError, Global};
use syntax_tree::{Counts, NoMemory, Span};
use type_alternatives::alternatives_of;
use type_nodes::Store;

/// The terms of a hole's type in place of it.
fn terms_at(
    alloc: Global,
    store: &Store,
    text: &[u8],
    node: AskedNode<'_>,
    hole: Hole,
) -> Result<Vec<Replacement>, NoMemory>
    ensures at { IfOk result (λ made. All (IsAt node.entry.span) made.items) }
    ensures texts { IfOk result (λ made. AreTermsBy store.now.nodes (in_front text.now node.entry.span.start hole) (option_map typing_of node.entry.typing) (texts_of made.items)) }
{
    let Some(typing) = node.typing else {
        return Ok(Vec::new(alloc));
    };
    let hollow = Hollow {
        span: node.span,
        front: in_front(text, node.span.start, hole),
    };
    let found = alternatives_of(alloc, store, typing.ty, typing.env)?;
    let made = terms_by(alloc, hollow, &found)?;
    Ok(made)
}

/// Where the innermost typed node at the offset, in bytes from 0, of the text stands, and the candidates for it, which go in
/// its place. `NoNode` exactly where there is none.
pub fn terms(
    alloc: Global,
    asked: &Asked<'_>,
    text: &[u8],
    offset: u32,
) -> Result<(Span, Vec<Replacement>), ConstructFault>
    ensures placed { IfOk result (λ made. IsPlacedAt made.0 (innermost_at offset (trees_of asked.now.tree.now))) }
    ensures candidates { IfOk result (λ made. All (IsAt made.0) made.1.items) }
    ensures refused { IfErr result (λ e. IsRefusedAt e (innermost_at offset (trees_of asked.now.tree.now))) }
    ensures answer { Gives (TermsIn asked.now text.now offset) result }
{
    let node = match asked_at(alloc, asked, offset) {
        Ok(Some(node)) => node,
        Ok(None) => return Err(ConstructFault::NoNode),
        Err(_) => return Err(ConstructFault::NoMemory),
    };
    let Some(hole) = hole_of(node.row) else {
        return Err(ConstructFault::NotAHole);
    };
    match terms_at(alloc, asked.store, text, node, hole) {
        Ok(list) => Ok((node.span, list)),
        Err(_) => Err(ConstructFault::NoMemory),
    }
}

fn keep(kept: &mut Vec<Replacement>, candidate: Replacement) -> Result<(), NoMemory>
    ensures { OnOk result (kept.new.items ≡ kept.old.items ++ candidate ∷ []) }
{
    match kept.push(candidate) {
        Ok(()) => Ok(()),
        Err(_) => Err(AllocError),
    }
}

/// Of these candidates those that add no fault, in their order.
pub fn construct<T: Trial, C: Counts>(
    alloc: Global,
    candidates: Vec<Replacement>,
    trial: &mut T,
    counts: &mut C,
) -> Result<Vec<Replacement>, NoMemory>
    ensures kept { IfOk result (λ kept. AreKept (told_by (T.tells (T.text trial.old))) candidates.items kept.items) }
    ensures text { T.text trial.new ≡ T.text trial.old }
    ensures spends { (tried : List (List ℕ)) × AreReplaced (T.text trial.old) candidates.items tried × T.spends trial.old tried trial.new (C.tallies counts.old) (C.tallies counts.new) }
    ensures grows { Grows (C.tallies counts.old) (C.tallies counts.new) }
{
    let mut kept = Vec::new(alloc);
    for candidate in candidates {
        match trial.first_new_fault(&candidate, counts)? {
            None => keep(&mut kept, candidate)?,
            Some(_) => {}
        }
    }
    Ok(kept)
}
