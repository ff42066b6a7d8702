//! Queries that propose a change of the text: cases in place of a node, and terms in place of a hole.
ghost use Rattle.std.specs.Prelude.{◌≡◌, ◌≤◌, ◌∷◌, [], All, List, ℕ, length, map, IfOk};
ghost use Rattle.text_terms.specs.Bytes.{str_bytes};
ghost use Rattle.query_model.specs.TypedNodes.{innermost_at};
ghost use Rattle.service_model.specs.Answers.{CasesBy, TermsBy};
ghost use Rattle.service_model.specs.Structure.{TyperFaults};
ghost use Rattle.service_model.specs.Replies as said;
ghost use Rattle.syntax_tree.specs.Tallies.{Grows};
ghost use Rattle.syntax_tree.specs.View.{trees_of};
ghost use Rattle.text_queries.specs.Faults.{typer_fault_of};
ghost use Rattle.json_lines.specs.Means.{said_of};
ghost use Rattle.asked_node.specs.Trials.{AreReplaced};
ghost use Rattle.construct_terms.specs.Terms.{IsAt};
ghost use Rattle.text_reading.specs.Trials.{TriesAll};
ghost use Rattle.text_changes.specs.Changes.{candidates_in, changes_in, text_in, IsPlaced, ArePlaced, AreSaidOf, AreSaidTerms, FitsText, IsCasesFailure, IsSaidOf, IsSaidOfCandidate, IsTermsFailure};
ghost use Rattle.text_reading.specs.Structures.{IsParsedAs};

use crate::asking::asked;
use crate::trials::{MarkedText, TextTrial};
use analysis_api::{Analyser, Analysis};
use case_analysis::{SplitFault, destruct, split};
use construct_terms::{ConstructFault, construct, terms};
use frame_parser::Parsed;
use json_lines::{Failure, Reply};
use query_engine::Replacement;
use std::alloc::{AllocError, Global};
use syntax_tree::{Counts, NoMemory, RcStr, Span};
use text_reading::{TriedText, position};
use text_store::TextStore;

/// Changes of a text that are to be tried, all that a query has.
#[derive(Drop)]
pub enum Candidates {
    /// Cases in place of a node.
    Cases(Replacement),
    /// Terms in place of a hole, each at its span.
    Terms {
        span: Span,
        changes: Vec<Replacement>,
    },
}

/// What a query gives before any text is tried: its reply, or the changes that are tried first.
#[derive(Drop)]
pub enum Proposal {
    Said(Reply),
    Tried {
        text: MarkedText,
        candidates: Candidates,
    },
}

/// The bytes of the store's text.
fn bytes_of(alloc: Global, store: &TextStore) -> Result<Vec<u8>, NoMemory>
    ensures { IfOk result (λ v. v.items ≡ store.now) }
{
    let (left, right) = store.slices();
    let mut bytes = Vec::new(alloc);
    if bytes.extend_from_slice(left).is_err() || bytes.extend_from_slice(right).is_err() {
        return Err(AllocError);
    }
    Ok(bytes)
}

/// Why there are no cases.
fn cases_failure(store: &TextStore, fault: SplitFault) -> Result<Reply, NoMemory>
    ensures { IfOk result (λ r. IsCasesFailure store.now fault (said_of r)) }
{
    match fault {
        SplitFault::NoNode => Ok(Reply::Failure(Failure::NoNode)),
        SplitFault::NothingToSplit => Ok(Reply::Failure(Failure::NothingToSplit)),
        SplitFault::HiddenConstructor { name } => {
            Ok(Reply::Failure(Failure::HiddenConstructor { constructor: name }))
        }
        SplitFault::WouldFault { at } => {
            let at = position(store, at);
            Ok(Reply::Failure(Failure::WouldFault { at }))
        }
        SplitFault::NoMemory => Err(AllocError),
    }
}

/// The reply of a candidate, if it adds no fault.
fn cases_tried<A: Analyser, C: Counts>(
    store: &TextStore,
    candidate: Replacement,
    trial: &mut TextTrial<'_, A>,
    counts: &mut C,
) -> Result<Reply, NoMemory>
    requires text { trial.old.of.now.text.items ≡ store.now }
    ensures said { IfOk result (λ r. IsSaidOfCandidate store.now candidate (said_of r)) }
    ensures tries { (texts : List (List ℕ)) × AreReplaced store.now (candidate ∷ []) texts × TriesAll A.opens texts trial.old.tried.now trial.new.tried.now (C.tallies counts.old) (C.tallies counts.new) }
    ensures same_reference { trial.new.tried.ghost_name ≡ trial.old.tried.ghost_name }
    ensures grows { Grows (C.tallies counts.old) (C.tallies counts.new) }
{
    match destruct(candidate, trial, counts) {
        Ok(change) => Ok(Reply::Split {
            start: position(store, change.span.start),
            end: position(store, change.span.end),
            text: change.text,
        }),
        Err(fault) => cases_failure(store, fault),
    }
}

/// Cases in place of the innermost typed node at an offset.
pub fn cases(
    alloc: Global,
    store: &TextStore,
    parsed: &Parsed,
    analysis: &Analysis<'_>,
    offset: u32,
) -> Result<Proposal, NoMemory>
    requires parsed { IsParsedAs store.now parsed.now }
    requires typed { TyperFaults store.now (map typer_fault_of analysis.now.faults.now.list.items) }
    ensures answers { IfOk result (λ p. (s : said.Said) → IsSaidOf store.now p s → CasesBy store.now (innermost_at offset (trees_of parsed.now.tree)) s) }
    ensures fits { IfOk result (FitsText store.now) }
    ensures placed { IfOk result (λ p. All (IsPlaced (innermost_at offset (trees_of parsed.now.tree))) (changes_in p) × (length (changes_in p) ≤ 1)) }
{
    let text = bytes_of(alloc, store)?;
    match split(alloc, &asked(&parsed.tree, analysis), &text, offset) {
        Ok(candidate) => Ok(Proposal::Tried {
            text: MarkedText::new(alloc, text, &parsed.faults, &analysis.faults.list)?,
            candidates: Candidates::Cases(candidate),
        }),
        Err(fault) => Ok(Proposal::Said(cases_failure(store, fault)?)),
    }
}

/// Why there are no terms.
fn terms_failure(fault: ConstructFault) -> Result<Reply, NoMemory>
    ensures { IfOk result (λ r. IsTermsFailure fault (said_of r)) }
{
    match fault {
        ConstructFault::NoNode => Ok(Reply::Failure(Failure::NoNode)),
        ConstructFault::NotAHole => Ok(Reply::Failure(Failure::NotAHole)),
        ConstructFault::NoMemory => Err(AllocError),
    }
}

fn texts_of(alloc: Global, changes: &[Replacement]) -> Result<Vec<RcStr>, NoMemory>
    ensures { IfOk result (λ v. map str_bytes v.items ≡ map text_in changes.now) }
{
    let mut texts = Vec::new(alloc);
    for change in changes {
        if texts.push(change.text.share()?).is_err() {
            return Err(AllocError);
        }
    }
    Ok(texts)
}

/// The reply of those candidates at a span that add no fault.
fn terms_tried<A: Analyser, C: Counts>(
    alloc: Global,
    store: &TextStore,
    span: Span,
    candidates: Vec<Replacement>,
    trial: &mut TextTrial<'_, A>,
    counts: &mut C,
) -> Result<Reply, NoMemory>
    requires text { trial.old.of.now.text.items ≡ store.now }
    requires placed { All (IsAt span) candidates.items }
    ensures said { IfOk result (λ r. AreSaidTerms store.now span (said_of r)) }
    ensures tries { (texts : List (List ℕ)) × AreReplaced store.now candidates.items texts × TriesAll A.opens texts trial.old.tried.now trial.new.tried.now (C.tallies counts.old) (C.tallies counts.new) }
    ensures same_reference { trial.new.tried.ghost_name ≡ trial.old.tried.ghost_name }
    ensures grows { Grows (C.tallies counts.old) (C.tallies counts.new) }
{
    let changes = construct(alloc, candidates, trial, counts)?;
    Ok(Reply::Terms {
        start: position(store, span.start),
        end: position(store, span.end),
        texts: texts_of(alloc, &changes)?,
    })
}

/// Terms in place of the hole at an offset.
pub fn terms_in(
    alloc: Global,
    store: &TextStore,
    parsed: &Parsed,
    analysis: &Analysis<'_>,
    offset: u32,
) -> Result<Proposal, NoMemory>
    requires parsed { IsParsedAs store.now parsed.now }
    requires typed { TyperFaults store.now (map typer_fault_of analysis.now.faults.now.list.items) }
    ensures answers { IfOk result (λ p. (s : said.Said) → IsSaidOf store.now p s → TermsBy store.now (innermost_at offset (trees_of parsed.now.tree)) s) }
    ensures fits { IfOk result (FitsText store.now) }
    ensures placed { IfOk result (λ p. All (IsPlaced (innermost_at offset (trees_of parsed.now.tree))) (changes_in p)) }
{
    let text = bytes_of(alloc, store)?;
    match terms(alloc, &asked(&parsed.tree, analysis), &text, offset) {
        Ok((span, changes)) => Ok(Proposal::Tried {
            text: MarkedText::new(alloc, text, &parsed.faults, &analysis.faults.list)?,
            candidates: Candidates::Terms { span, changes },
        }),
        Err(fault) => Ok(Proposal::Said(terms_failure(fault)?)),
    }
}

/// What is said of the changes of a text, all of them tried.
pub fn try_all<A: Analyser, C: Counts>(
    alloc: Global,
    store: &TextStore,
    text: &MarkedText,
    candidates: Candidates,
    tried: &mut TriedText<A>,
    counts: &mut C,
) -> Result<Reply, NoMemory>
    requires text { text.now.text.items ≡ store.now }
    requires placed { ArePlaced candidates }
    ensures said { IfOk result (λ r. AreSaidOf store.now candidates (said_of r)) }
    ensures tries { (texts : List (List ℕ)) × AreReplaced store.now (candidates_in candidates) texts × TriesAll A.opens texts tried.old tried.new (C.tallies counts.old) (C.tallies counts.new) }
    ensures grows { Grows (C.tallies counts.old) (C.tallies counts.new) }
{
    let mut trial = TextTrial::new(alloc, text, tried);
    match candidates {
        Candidates::Cases(candidate) => cases_tried(store, candidate, &mut trial, counts),
        Candidates::Terms { span, changes } => {
            terms_tried(alloc, store, span, changes, &mut trial, counts)
        }
    }
}
