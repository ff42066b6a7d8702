//! What is asked of a place in a text.
ghost use Rattle.std.specs.Prelude.{◌≡◌, ◌≤◌, codes, filter, length, map, option_map, IfOk};
ghost use Rattle.std.specs.Str.{bytes_eq};
ghost use Rattle.text_terms.specs.Bytes.{str_bytes};
ghost use Rattle.service_model.specs.Answers.{LocateIs, OccurrencesAre};
ghost use Rattle.service_model.specs.Replies as said;
ghost use Rattle.session.specs.Queries.{IsAnswered};
ghost use Rattle.json_lines.specs.Meets.{pair_of};
ghost use Rattle.json_lines.specs.Means.{entry_kind_text, entry_of, span_of};
ghost use Rattle.syntax_tree.specs.Tallies.{Grows};
ghost use Rattle.lsp_positions.specs.Texts.{columns_in};
ghost use Rattle.lsp_front.specs.Sayings as says;
ghost use Rattle.lsp_answers.specs.Puts as puts;
ghost use Rattle.lsp_queries.specs.Answers.{begins_name as begins_name_spec, completed_told, completion_told, is_offered as is_offered_spec, item_told, place_in_text, ranges_of, spans_in, starts_at, CompletionIs, DefinitionIs, HighlightsAre, HoverIs, LeftOut, ReferencesAre};
ghost use Rattle.lsp_queries.specs.Calls.{AtPlace};
ghost use Rattle.lsp_queries.specs.Values.{value_of};

use crate::places::{bytes_of, offset_of, position_of, range_between, range_of};
use crate::prefix::{Scope, asked_before, prefix_text};
use analysis_api::Analyser;
use json_lines::{Entry, EntryKind, File, PosSpan, Reply};
use lsp_answers::{Answered, Completion, ItemKind};
use lsp_front::{Choices, Declaration, PlaceCall, Range};
use lsp_positions::{Columns, asked_place, is_name_byte};
use session::{Query, Session};
use std::alloc::Global;
use syntax_tree::{Counts, NoMemory, Pos, RcStr, Span};

/// The type of what is asked for, where there is one.
#[tactic(auto, using(crate::proofs::Failures::failure_none, crate::proofs::Failures::error_none, crate::proofs::Failures::first_some, crate::proofs::Failures::first_none))]
fn hover<A: Analyser, C: Counts>(
    session: &Session<A>,
    offset: u32,
    choices: Choices,
    counts: &mut C,
) -> Result<Answered, NoMemory>
    requires { offset ≤ length session.now.text }
    ensures is { IfOk result (λ a. HoverIs (says.choices_of choices) session.now.text offset (puts.answered_of a)) }
    ensures counted { Grows (C.tallies counts.old) (C.tallies counts.new) }
{
    let (left, right) = session.slices();
    let asked = asked_place(left, right, offset);
    match session.enclosing(asked, counts)? {
        Reply::Types(types) => match types.first() {
            Some(typed) => Ok(Answered::Hovered {
                form: choices.hover,
                text: typed.ty.share()?,
                range: range_between(session, typed.start, typed.end, choices.columns),
            }),
            None => Ok(Answered::Null),
        },
        _ => Ok(Answered::Null),
    }
}

fn item_kind(kind: EntryKind) -> ItemKind
    ensures { puts.item_of result ≡ item_told (entry_kind_text kind) }
{
    match kind {
        EntryKind::Constructor => ItemKind::Constructor,
        EntryKind::Label => ItemKind::Label,
        EntryKind::Module => ItemKind::Module,
        EntryKind::ModuleType => ItemKind::ModuleType,
        EntryKind::Type => ItemKind::Type,
        EntryKind::Value => ItemKind::Value,
    }
}

/// Whether an entry is a label.
fn is_label(kind: EntryKind) -> bool
    ensures { result ≡ bytes_eq (entry_kind_text kind) (codes "Label") }
{
    match kind {
        EntryKind::Label => true,
        _ => false,
    }
}

/// Whether a name begins like one: operators don't.
fn begins_name(name: &str) -> bool
    ensures { result ≡ begins_name_spec name.now }
{
    match name.as_bytes().first() {
        Some(byte) => is_name_byte(*byte),
        None => false,
    }
}

/// Whether an entry is offered, where labels alone may be asked for.
fn is_offered(entry: &Entry, labels: bool) -> bool
    ensures { result ≡ is_offered_spec labels (entry_of entry.now) }
{
    begins_name(entry.name.as_str()) && (!labels || is_label(entry.kind))
}

fn completion_of(entry: &Entry) -> Result<Completion, NoMemory>
    ensures { IfOk result (λ c. puts.completion_of c ≡ completion_told (entry_of entry.now)) }
{
    Ok(Completion {
        detail: entry.desc.share()?,
        kind: item_kind(entry.kind),
        name: entry.name.share()?,
    })
}

/// The entries that are offered, in their order.
fn offered(alloc: Global, entries: &[Entry], labels: bool) -> Result<Vec<Completion>, NoMemory>
    ensures { IfOk result (λ v. map puts.completion_of v.items ≡ map completion_told (filter (is_offered_spec labels) (map entry_of entries.now))) }
{
    let mut names = Vec::new(alloc);
    for entry in entries {
        if is_offered(entry, labels) {
            names.push(completion_of(entry)?)?;
        }
    }
    Ok(names)
}

/// The names that the word before an offset may become.
fn completion<A: Analyser, C: Counts>(
    alloc: Global,
    session: &Session<A>,
    offset: u32,
    by: Columns,
    counts: &mut C,
) -> Result<Answered, NoMemory>
    requires { offset ≤ length session.now.text }
    ensures is { IfOk result (λ a. CompletionIs (columns_in by) session.now.text offset (puts.answered_of a)) }
    ensures counted { Grows (C.tallies counts.old) (C.tallies counts.new) }
{
    let text = bytes_of(alloc, session)?;
    let asked = asked_before(&text, offset as usize);
    let word = Span {
        start: asked.word as u32,
        end: offset,
    };
    let query = Query::Complete(prefix_text(alloc, &text, asked.start, offset as usize)?);
    match asked.scope {
        Scope::Nothing => Ok(Answered::Null),
        Scope::Names => completed(alloc, session, &query, word, false, by, counts),
        Scope::Labels => completed(alloc, session, &query, word, true, by, counts),
    }
}

/// The entries of a reply in place of a word, and nothing at a failure.
#[tactic(auto, using(crate::proofs::Failures::failure_none, crate::proofs::Failures::error_none))]
fn completed<A: Analyser, C: Counts>(
    alloc: Global,
    session: &Session<A>,
    query: &Query,
    word: Span,
    labels: bool,
    by: Columns,
    counts: &mut C,
) -> Result<Answered, NoMemory>
    requires start { word.start ≤ length session.now.text }
    requires end { word.end ≤ length session.now.text }
    ensures is { IfOk result (λ a. (s : said.Said) × IsAnswered query.now session.now.text word.end s × (puts.answered_of a ≡ completed_told (columns_in by) session.now.text labels (word.start, word.end) (value_of s))) }
    ensures counted { Grows (C.tallies counts.old) (C.tallies counts.new) }
{
    match session.ask_at(query, word.end, counts)? {
        Reply::Entries { entries, more } => Ok(Answered::Completed {
            names: offered(alloc, &entries, labels)?,
            more,
            word: range_of(session, word, by),
        }),
        _ => Ok(Answered::Null),
    }
}

/// Where the name at an offset is defined in the text.
#[tactic(auto, using(crate::proofs::Failures::failure_none, crate::proofs::Failures::error_none))]
fn defined_at<A: Analyser, C: Counts>(
    session: &Session<A>,
    offset: u32,
    counts: &mut C,
) -> Result<Option<Pos>, NoMemory>
    ensures is { IfOk result (λ p. (s : said.Said) × LocateIs session.now.text offset s × (option_map pair_of p ≡ place_in_text (value_of s))) }
    ensures counted { Grows (C.tallies counts.old) (C.tallies counts.new) }
{
    match session.ask_at(&Query::Locate, offset, counts)? {
        Reply::Place {
            file: File::Buffer,
            pos,
        } => Ok(Some(pos)),
        _ => Ok(None),
    }
}

fn definition<A: Analyser, C: Counts>(
    session: &Session<A>,
    uri: &RcStr,
    offset: u32,
    by: Columns,
    counts: &mut C,
) -> Result<Answered, NoMemory>
    ensures is { IfOk result (λ a. DefinitionIs (columns_in by) session.now.text (str_bytes uri.now) offset (puts.answered_of a)) }
    ensures counted { Grows (C.tallies counts.old) (C.tallies counts.new) }
{
    match defined_at(session, offset, counts)? {
        Some(pos) => Ok(Answered::Located {
            uri: uri.share()?,
            at: position_of(session, offset_of(session, pos), by),
        }),
        None => Ok(Answered::Null),
    }
}

/// Where the name at an offset is used.
#[tactic(auto, using(crate::proofs::Failures::failure_none, crate::proofs::Failures::error_none))]
fn spans_at<A: Analyser, C: Counts>(
    alloc: Global,
    session: &Session<A>,
    offset: u32,
    counts: &mut C,
) -> Result<Vec<PosSpan>, NoMemory>
    ensures are { IfOk result (λ v. (s : said.Said) × OccurrencesAre session.now.text offset s × (map span_of v.items ≡ spans_in (value_of s))) }
    ensures counted { Grows (C.tallies counts.old) (C.tallies counts.new) }
{
    match session.ask_at(&Query::Occurrences, offset, counts)? {
        Reply::Spans(spans) => Ok(spans),
        _ => Ok(Vec::new(alloc)),
    }
}

/// Whether a span starts at a place that is left out.
fn is_left_out(left_out: Option<Pos>, span: &PosSpan) -> bool
    ensures { result ≡ starts_at (option_map pair_of left_out) (span_of span.now) }
{
    match left_out {
        Some(pos) => pos.line == span.start.line && pos.col == span.start.col,
        None => false,
    }
}

/// Spans as an editor counts them, without the one that starts at a place.
fn ranges_without<A: Analyser>(
    alloc: Global,
    session: &Session<A>,
    spans: &[PosSpan],
    left_out: Option<Pos>,
    by: Columns,
) -> Result<Vec<Range>, NoMemory>
    ensures { IfOk result (λ v. map says.range_of v.items ≡ ranges_of (columns_in by) session.now.text (option_map pair_of left_out) (map span_of spans.now)) }
{
    let mut ranges = Vec::new(alloc);
    for span in spans {
        if !is_left_out(left_out, span) {
            ranges.push(range_between(session, span.start, span.end, by))?;
        }
    }
    Ok(ranges)
}

/// The place that is left out of references.
fn left_out<A: Analyser, C: Counts>(
    session: &Session<A>,
    offset: u32,
    declaration: Declaration,
    counts: &mut C,
) -> Result<Option<Pos>, NoMemory>
    ensures is { IfOk result (λ p. LeftOut (says.declaration_in declaration) session.now.text offset (option_map pair_of p)) }
    ensures counted { Grows (C.tallies counts.old) (C.tallies counts.new) }
{
    match declaration {
        Declaration::With => Ok(None),
        Declaration::Without => defined_at(session, offset, counts),
    }
}

fn references<A: Analyser, C: Counts>(
    alloc: Global,
    session: &Session<A>,
    uri: &RcStr,
    offset: u32,
    declaration: Declaration,
    by: Columns,
    counts: &mut C,
) -> Result<Answered, NoMemory>
    ensures are { IfOk result (λ a. ReferencesAre (columns_in by) session.now.text (str_bytes uri.now) (says.declaration_in declaration) offset (puts.answered_of a)) }
    ensures counted { Grows (C.tallies counts.old) (C.tallies counts.new) }
{
    let out = left_out(session, offset, declaration, counts)?;
    let spans = spans_at(alloc, session, offset, counts)?;
    Ok(Answered::Used {
        uri: uri.share()?,
        ranges: ranges_without(alloc, session, &spans, out, by)?,
    })
}

fn highlights<A: Analyser, C: Counts>(
    alloc: Global,
    session: &Session<A>,
    offset: u32,
    by: Columns,
    counts: &mut C,
) -> Result<Answered, NoMemory>
    ensures are { IfOk result (λ a. HighlightsAre (columns_in by) session.now.text offset (puts.answered_of a)) }
    ensures counted { Grows (C.tallies counts.old) (C.tallies counts.new) }
{
    let spans = spans_at(alloc, session, offset, counts)?;
    Ok(Answered::Highlighted(ranges_without(alloc, session, &spans, None, by)?))
}

/// Answers what is asked of an offset of a text.
pub fn answer_at<A: Analyser, C: Counts>(
    alloc: Global,
    session: &Session<A>,
    uri: &RcStr,
    what: PlaceCall,
    offset: u32,
    choices: Choices,
    counts: &mut C,
) -> Result<Answered, NoMemory>
    requires { offset ≤ length session.now.text }
    ensures is { IfOk result (λ a. AtPlace (says.choices_of choices) session.now.text (str_bytes uri.now) what offset (puts.answered_of a)) }
    ensures counted { Grows (C.tallies counts.old) (C.tallies counts.new) }
{
    let by = choices.columns;
    match what {
        PlaceCall::Hover => hover(session, offset, choices, counts),
        PlaceCall::Completion => completion(alloc, session, offset, by, counts),
        PlaceCall::Definition => definition(session, uri, offset, by, counts),
        PlaceCall::References(declaration) => {
            references(alloc, session, uri, offset, declaration, by, counts)
        }
        PlaceCall::Highlights => highlights(alloc, session, offset, by, counts),
    }
}
