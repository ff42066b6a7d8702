//! Queries of a position on the names of a text.
ghost use Rattle.std.specs.Prelude.{◌≡◌, false, true, Some, map, IfOk};
ghost use Rattle.query_model.specs.Prefixes.{is_name_prefix};
ghost use Rattle.query_model.specs.TypedNodes.{innermost_at};
ghost use Rattle.service_model.specs.Answers.{LocatedBy, UsedBy, shown_place};
ghost use Rattle.service_model.specs.Replies as said;
ghost use Rattle.service_model.specs.Structure.{TyperFaults};
ghost use Rattle.service_model.specs.Completions.{CompletedBy};
ghost use Rattle.syntax_tree.specs.View.{place_of, trees_of};
ghost use Rattle.text_queries.specs.Faults.{typer_fault_of};
ghost use Rattle.json_lines.specs.Means.{entry_kind_text, entry_of, failure_said, said_of, span_of};
ghost use Rattle.text_changes.specs.Changes.{is_said, FitsText, IsSaidAlone, IsSaidOf};
ghost use Rattle.session.specs.Lines.{failure_in};
ghost use Rattle.name_queries.specs.NewestNames.{printed};
ghost use Rattle.session.specs.Queries.{AnswersQuery, IsSaidOfPlace, ProposesAt, said_entry};
ghost use Rattle.session.specs.Working.{tries_texts};
ghost use Rattle.text_reading.specs.Structures.{IsParsedAs};
ghost use Rattle.text_reading.specs.Types.{IsOf};

use analysis_api::{Analyser, Analysis};
use env_table::Place;
use frame_parser::Parsed;
use json_lines::{Entry, EntryKind, Failure, File, PosSpan, Reply};
use name_queries::{Completion, CompletionKind, complete_prefix, locate, occurrences};
use query_engine::{Asked, QueryFault};
use std::alloc::{AllocError, Global};
use syntax_tree::{NoMemory, Pos, RcStr, Span, Tree};
use text_changes::{Proposal, asked, cases, terms_in};
use text_reading::position;
use text_store::TextStore;

/// A query of a position.
#[derive(Drop)]
pub enum Query {
    /// Where the name is defined.
    Locate,
    /// Where else it stands.
    Occurrences,
    /// What the prefix may become.
    Complete(RcStr),
    /// Cases in place of a node.
    Cases,
    /// Terms in place of a hole.
    Terms,
}

/// Why a query has no value; want of memory is no failure.
pub fn failure_of(fault: QueryFault) -> Result<Failure, NoMemory>
    ensures { IfOk result (λ f. failure_in fault ≡ Some (failure_said f)) }
{
    match fault {
        QueryFault::NoNode => Ok(Failure::NoNode),
        QueryFault::NotAName => Ok(Failure::NotAName),
        QueryFault::Unbound { ident } => Ok(Failure::Unbound { ident }),
        QueryFault::NoMemory => Err(AllocError),
    }
}

/// A reply before which no text is tried.
fn said(reply: Result<Reply, NoMemory>) -> Result<Proposal, NoMemory>
    ensures { IsSaidAlone reply result }
{
    match reply {
        Ok(reply) => Ok(Proposal::Said(reply)),
        Err(short) => Err(short),
    }
}

/// What a query of an offset gives before any text is tried, of a text with this tree and by what a typer found that holds its items.
pub fn propose<A: Analyser>(
    alloc: Global,
    store: &TextStore,
    query: &Query,
    parsed: &Parsed,
    analysis: &Analysis<'_>,
    offset: u32,
) -> Result<Proposal, NoMemory>
    requires parsed { IsParsedAs store.now parsed.now }
    requires found { IsOf A.items A.finds (trees_of parsed.now.tree) analysis.now }
    requires typed { TyperFaults store.now (map typer_fault_of analysis.now.faults.now.list.items) }
    ensures answers { IfOk result (λ p. (s : said.Said) → IsSaidOf store.now p s → AnswersQuery query.now store.now offset (trees_of parsed.now.tree) s) }
    ensures fits { IfOk result (FitsText store.now) }
    ensures placed { IfOk result (ProposesAt query.now (innermost_at offset (trees_of parsed.now.tree))) }
    ensures alone { tries_texts query.now ≡ false → IfOk result (λ p. is_said p ≡ true) }
{
    let asked = asked(&parsed.tree, analysis);
    match query {
        Query::Locate => said(located::<A>(alloc, store, &asked, offset)),
        Query::Occurrences => said(used(alloc, store, &asked, offset)),
        Query::Complete(prefix) => said(completed(alloc, &asked, offset, prefix.as_str())),
        Query::Cases => cases(alloc, store, parsed, analysis, offset),
        Query::Terms => terms_in(alloc, store, parsed, analysis, offset),
    }
}

/// Where the name at an offset is defined.
#[tactic(auto, using(crate::proofs::Naming::name_fails, crate::proofs::Naming::name_located))]
fn located<A: Analyser>(
    alloc: Global,
    store: &TextStore,
    asked: &Asked<'_>,
    offset: u32,
) -> Result<Reply, NoMemory>
    ensures { IfOk result (λ r. LocatedBy store.now offset (trees_of asked.now.tree.now) (said_of r)) }
{
    match locate(alloc, asked, offset) {
        Ok(place) => Ok(place_reply::<A>(store, place)),
        Err(fault) => Ok(Reply::Failure(failure_of(fault)?)),
    }
}

/// Where the names stand that are defined where the one at an offset is.
#[tactic(auto, using(crate::proofs::Naming::name_fails, crate::proofs::Naming::name_used))]
fn used(alloc: Global, store: &TextStore, asked: &Asked<'_>, offset: u32) -> Result<Reply, NoMemory>
    ensures { IfOk result (λ r. UsedBy store.now offset (trees_of asked.now.tree.now) (said_of r)) }
{
    match occurrences(alloc, asked, offset) {
        Ok(spans) => Ok(Reply::Spans(shown_spans(alloc, store, &spans)?)),
        Err(fault) => Ok(Reply::Failure(failure_of(fault)?)),
    }
}

/// The reply of a place: one of the store's text by its start, one of the prelude by its start there, and a built-in type as a
/// column of the line 0 in front of the prelude.
fn place_reply<A: Analyser>(store: &TextStore, place: Place) -> Reply
    ensures { IsSaidOfPlace store.now (said_of result) }
{
    match place {
        Place::Buffer(span) => Reply::Place {
            file: File::Buffer,
            pos: position(store, span.start),
        },
        Place::Prelude(span) => Reply::Place {
            file: File::Prelude,
            pos: prelude_position::<A>(span.start),
        },
        Place::BuiltIn(number) => Reply::Place {
            file: File::Prelude,
            pos: Pos {
                line: 0,
                col: number,
            },
        },
    }
}

/// The position of an offset of the prelude.
fn prelude_position<A: Analyser>(offset: u32) -> Pos {
    let mut pos = Pos { line: 1, col: 0 };
    for byte in A::prelude().as_bytes().iter().take(offset as usize) {
        pos = behind(pos, *byte);
    }
    pos
}

/// The position behind a byte.
fn behind(pos: Pos, byte: u8) -> Pos {
    if byte == b'\n' {
        Pos {
            line: pos.line.saturating_add(1),
            col: 0,
        }
    } else {
        Pos {
            line: pos.line,
            col: pos.col.saturating_add(1),
        }
    }
}

/// A span with the positions of the store's text.
fn shown_span(store: &TextStore, span: Span) -> PosSpan
    ensures { span_of result ≡ shown_place store.now (place_of span) }
{
    PosSpan {
        start: position(store, span.start),
        end: position(store, span.end),
    }
}

/// Spans with the positions of the store's text.
fn shown_spans(alloc: Global, store: &TextStore, spans: &[Span]) -> Result<Vec<PosSpan>, NoMemory>
    ensures { IfOk result (λ v. map span_of v.items ≡ map (shown_place store.now) (map place_of spans.now)) }
{
    let mut shown = Vec::new(alloc);
    for span in spans {
        if shown.push(shown_span(store, *span)).is_err() {
            return Err(AllocError);
        }
    }
    Ok(shown)
}

/// The names that a prefix may become at an offset.
#[tactic(auto, using(crate::proofs::Completing::prefix_fails, crate::proofs::Completing::prefix_completed))]
fn completed(alloc: Global, asked: &Asked<'_>, offset: u32, prefix: &str) -> Result<Reply, NoMemory>
    ensures { IfOk result (λ r. CompletedBy (is_name_prefix prefix.now) prefix.now (said_of r)) }
{
    match complete_prefix(alloc, asked, offset, prefix) {
        Ok(found) => Ok(Reply::Entries {
            entries: shown_entries(alloc, &found.entries)?,
            more: found.more,
        }),
        Err(fault) => Ok(Reply::Failure(failure_of(fault)?)),
    }
}

fn shown_kind(kind: CompletionKind) -> EntryKind
    ensures { entry_kind_text result ≡ printed kind }
{
    match kind {
        CompletionKind::Constructor => EntryKind::Constructor,
        CompletionKind::Label => EntryKind::Label,
        CompletionKind::Module => EntryKind::Module,
        CompletionKind::ModuleType => EntryKind::ModuleType,
        CompletionKind::Type => EntryKind::Type,
        CompletionKind::Value => EntryKind::Value,
    }
}

fn shown_entry(entry: &Completion) -> Result<Entry, NoMemory>
    ensures { IfOk result (λ e. entry_of e ≡ said_entry entry.now) }
{
    Ok(Entry {
        desc: entry.desc.share()?,
        kind: shown_kind(entry.kind),
        name: entry.name.share()?,
    })
}

/// The names that are told, in their order.
fn shown_entries(alloc: Global, entries: &[Completion]) -> Result<Vec<Entry>, NoMemory>
    ensures { IfOk result (λ v. map entry_of v.items ≡ map said_entry entries.now) }
{
    let mut shown = Vec::new(alloc);
    for entry in entries {
        if shown.push(shown_entry(entry)?).is_err() {
            return Err(AllocError);
        }
    }
    Ok(shown)
}
