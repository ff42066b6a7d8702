//! Cases in place of the innermost typed node, and their trial.
ghost use Rattle.std.specs.Prelude.{◌≡◌, ◌∷◌, [], List, ℕ, IfErr, IfOk, Some, None, map, option_map, option_and_then};
ghost use Rattle.text_terms.specs.Bytes.{str_bytes};
ghost use Rattle.query_model.specs.TypedNodes.{innermost_at};
ghost use Rattle.syntax_tree.specs.Names.{row_of};
ghost use Rattle.syntax_tree.specs.Tallies.{Grows};
ghost use Rattle.syntax_tree.specs.View.{place_of, trees_of};
ghost use Rattle.asked_node.specs.Trials.{AreReplaced};
ghost use Rattle.query_engine.specs.Typed.{IsPlacedAt};
ghost use Rattle.type_alternatives.specs.Alternatives.{outermost_of, values_of};
ghost use Rattle.type_alternatives.specs.Templates.{hidden_among};
ghost use Rattle.asked_node.specs.Node.{typing_of};
ghost use Rattle.case_analysis.specs.Refusals.{IsRefusedAt, IsRefusedAtNode, IsRefusedByTrial};
ghost use Rattle.case_analysis.specs.Splits.{answer_of, answer_by, source_at, subject_of, SplitBy, Splits, Gives, IsHidden};

use crate::SplitFault;
use crate::subjects::{Subject, subject_at};
use crate::writing::{source_of, split_text};
use asked_node::{AskedNode, Trial, Typing, asked_at};
use query_engine::{Asked, Replacement};
use std::alloc::Global;
use syntax_tree::{Counts, RcStr, Span};
use type_alternatives::{Alternative, Alternatives, alternatives_of, first_hidden};
use type_nodes::Store;

/// The name as a fault.
fn hidden(name: &RcStr) -> SplitFault
    ensures { IsHidden (str_bytes name.now) result }
{
    match name.share() {
        Ok(name) => SplitFault::HiddenConstructor { name },
        Err(_) => SplitFault::NoMemory,
    }
}

/// The candidate at a node of this source text whose type has these alternatives.
fn split_known(
    alloc: Global,
    text: &[u8],
    span: Span,
    subject: Subject,
    list: &[Alternative],
) -> Result<Replacement, SplitFault>
    ensures placed { IfOk result (λ made. made.span ≡ span) }
    ensures refused { IfErr result IsRefusedAtNode }
    ensures answer { Gives (λ a. a ≡ answer_of subject (source_at text.now (place_of span)) (map outermost_of list.now) (hidden_among (map outermost_of list.now))) result }
{
    if let Some(name) = first_hidden(list) {
        return Err(hidden(name));
    }
    let Some(source) = source_of(text, span) else {
        return Err(SplitFault::NothingToSplit);
    };
    match split_text(alloc, subject, source, list) {
        Ok(text) => Ok(Replacement { span, text }),
        Err(_) => Err(SplitFault::NoMemory),
    }
}

/// The candidate at a node whose type has these values.
fn split_by(
    alloc: Global,
    text: &[u8],
    span: Span,
    subject: Subject,
    found: &Alternatives,
) -> Result<Replacement, SplitFault>
    ensures placed { IfOk result (λ made. made.span ≡ span) }
    ensures refused { IfErr result IsRefusedAtNode }
    ensures answer { Gives (λ a. a ≡ answer_by subject (source_at text.now (place_of span)) (values_of found.now)) result }
{
    match found {
        Alternatives::Known(list) => split_known(alloc, text, span, subject, list),
        Alternatives::Arrow => Err(SplitFault::NothingToSplit),
        Alternatives::Literal(_) => Err(SplitFault::NothingToSplit),
        Alternatives::Unknown => Err(SplitFault::NothingToSplit),
    }
}

/// The candidate at what is split, of this type and with these names in scope.
fn split_typed(
    alloc: Global,
    store: &Store,
    text: &[u8],
    span: Span,
    subject: Subject,
    typing: Typing<'_>,
) -> Result<Replacement, SplitFault>
    ensures placed { IfOk result (λ made. made.span ≡ span) }
    ensures refused { IfErr result IsRefusedAtNode }
    ensures answer { Gives (SplitBy store.now.nodes (source_at text.now (place_of span)) (Some subject) (Some (typing_of typing.entry))) result }
{
    match alternatives_of(alloc, store, typing.ty, typing.env) {
        Ok(found) => split_by(alloc, text, span, subject, &found),
        Err(_) => Err(SplitFault::NoMemory),
    }
}

/// The candidate at a typed node.
fn split_node(
    alloc: Global,
    store: &Store,
    text: &[u8],
    node: AskedNode<'_>,
) -> Result<Replacement, SplitFault>
    ensures placed { IfOk result (λ made. made.span ≡ node.entry.span) }
    ensures refused { IfErr result IsRefusedAtNode }
    ensures answer { Gives (SplitBy store.now.nodes (source_at text.now (place_of node.entry.span)) (option_and_then subject_of (option_map row_of node.entry.row)) (option_map typing_of node.entry.typing)) result }
{
    match (subject_at(node.row), node.typing) {
        (Some(subject), Some(typing)) => {
            split_typed(alloc, store, text, node.span, subject, typing)
        }
        _ => Err(SplitFault::NothingToSplit),
    }
}

/// The candidate of the innermost typed node at the offset, in bytes from 0, of the text: it goes in place of that node.
/// `NoNode` exactly where there is none. It never answers `WouldFault`.
pub fn split(
    alloc: Global,
    asked: &Asked<'_>,
    text: &[u8],
    offset: u32,
) -> Result<Replacement, SplitFault>
    ensures placed { IfOk result (λ made. IsPlacedAt made.span (innermost_at offset (trees_of asked.now.tree.now))) }
    ensures refused { IfErr result (λ e. IsRefusedAt e (innermost_at offset (trees_of asked.now.tree.now))) }
    ensures answer { Gives (Splits asked.now text.now offset) result }
{
    match asked_at(alloc, asked, offset) {
        Ok(Some(node)) => split_node(alloc, asked.store, text, node),
        Ok(None) => Err(SplitFault::NoNode),
        Err(_) => Err(SplitFault::NoMemory),
    }
}

/// The candidate, where the changed text has no new fault; else `WouldFault` with the first place of one.
pub fn destruct<T: Trial, C: Counts>(
    candidate: Replacement,
    trial: &mut T,
    counts: &mut C,
) -> Result<Replacement, SplitFault>
    ensures kept { IfOk result (λ made. (made ≡ candidate) × T.tells (T.text trial.old) candidate.span (str_bytes candidate.text) None) }
    ensures refused { IfErr result (λ e. IsRefusedByTrial (T.tells (T.text trial.old) candidate.span (str_bytes candidate.text)) e) }
    ensures text { T.text trial.new ≡ T.text trial.old }
    ensures spends { (tried : List (List ℕ)) × AreReplaced (T.text trial.old) (candidate ∷ []) tried × T.spends trial.old tried trial.new (C.tallies counts.old) (C.tallies counts.new) }
    ensures grows { Grows (C.tallies counts.old) (C.tallies counts.new) }
{
    match trial.first_new_fault(&candidate, counts) {
        Ok(None) => Ok(candidate),
        Ok(Some(at)) => Err(SplitFault::WouldFault { at }),
        Err(_) => Err(SplitFault::NoMemory),
    }
}
