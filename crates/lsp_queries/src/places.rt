//! Places of a session's text as an editor counts them.
ghost use Rattle.std.specs.Prelude.{◌≡◌, ◌≤◌, length, IfOk};
ghost use Rattle.json_lines.specs.Meets.{pair_of};
ghost use Rattle.lsp_model.specs.Positions.{text_limit};
ghost use Rattle.lsp_front.specs.Sayings as says;
ghost use Rattle.lsp_positions.specs.Texts.{columns_in};
ghost use Rattle.lsp_queries.specs.Shown.{place_asked, place_shown, place_told, range_shown, range_told, span_asked as span_asked_spec, span_drawn, span_told};

use analysis_api::Analyser;
use lsp_front::{Position, Range};
use lsp_positions::{Columns, columns_between, offset_at, shown_span};
use session::Session;
use std::alloc::Global;
use syntax_tree::{NoMemory, Pos, Span};

/// The offset of an editor's position.
pub fn offset_in<A: Analyser>(session: &Session<A>, at: Position, by: Columns) -> u32
    ensures value { result ≡ place_asked (columns_in by) session.now.text (says.pair_of at) }
    ensures within { result ≤ length session.now.text }
{
    let (left, right) = session.slices();
    offset_at(left, right, at.line, at.character, by)
}

/// The offsets of an editor's range; one that ends before its start is empty there.
pub fn span_asked<A: Analyser>(session: &Session<A>, range: Range, by: Columns) -> Span
    ensures value { (result.start, result.end) ≡ span_asked_spec (columns_in by) session.now.text (says.range_of range) }
    ensures start { result.start ≤ length session.now.text }
    ensures end { result.end ≤ length session.now.text }
    ensures order { result.start ≤ result.end }
{
    let start = offset_in(session, range.start, by);
    let end = offset_in(session, range.end, by);
    Span {
        start,
        end: start.max(end),
    }
}

/// The offset of a position that the session gives; the text's end where the text has no such position.
pub fn offset_of<A: Analyser>(session: &Session<A>, at: Pos) -> u32
    ensures value { result ≡ place_told session.now.text (pair_of at) }
    ensures within { result ≤ length session.now.text }
{
    match session.offset_of(at) {
        Some(offset) => offset,
        None => end_of(session),
    }
}

/// Where the text ends.
fn end_of<A: Analyser>(session: &Session<A>) -> u32
    ensures { result ≡ length session.now.text }
{
    let (left, right) = session.slices();
    (left.len() + right.len()) as u32
}

/// An offset as an editor counts it.
#[tactic(auto, unfolding(crate::specs::Shown::place_shown))]
pub fn position_of<A: Analyser>(session: &Session<A>, offset: u32, by: Columns) -> Position
    requires { offset ≤ length session.now.text }
    ensures { says.pair_of result ≡ place_shown (columns_in by) session.now.text offset }
{
    let pos = session.pos_of(offset);
    let start = offset.saturating_sub(pos.col);
    let (left, right) = session.slices();
    Position {
        line: pos.line.saturating_sub(1),
        character: columns_between(left, right, start, offset, by),
    }
}

/// A span as an editor counts it.
pub fn range_of<A: Analyser>(session: &Session<A>, span: Span, by: Columns) -> Range
    requires start { span.start ≤ length session.now.text }
    requires end { span.end ≤ length session.now.text }
    ensures { says.range_of result ≡ range_shown (columns_in by) session.now.text (span.start, span.end) }
{
    Range {
        start: position_of(session, span.start, by),
        end: position_of(session, span.end, by),
    }
}

/// The span between two positions that the session gives.
pub fn span_between<A: Analyser>(session: &Session<A>, start: Pos, end: Pos) -> Span
    ensures value { (result.start, result.end) ≡ span_told session.now.text (pair_of start) (pair_of end) }
    ensures start { result.start ≤ length session.now.text }
    ensures end { result.end ≤ length session.now.text }
{
    Span {
        start: offset_of(session, start),
        end: offset_of(session, end),
    }
}

/// What is between two positions that the session gives, as an editor counts it.
pub fn range_between<A: Analyser>(session: &Session<A>, start: Pos, end: Pos, by: Columns) -> Range
    ensures { says.range_of result ≡ range_told (columns_in by) session.now.text (pair_of start) (pair_of end) }
{
    range_of(session, span_between(session, start, end), by)
}

/// The span that is shown for what is between two positions that the session gives.
pub fn shown_between<A: Analyser>(session: &Session<A>, start: Pos, end: Pos) -> Span
    ensures value { (result.start, result.end) ≡ span_drawn session.now.text (pair_of start) (pair_of end) }
    ensures start { result.start ≤ length session.now.text }
    ensures end { result.end ≤ length session.now.text }
{
    let span = span_between(session, start, end);
    let (left, right) = session.slices();
    shown_span(left, right, span)
}

/// A span as an editor counts it; one past the text's end is cut there.
pub fn range_within<A: Analyser>(session: &Session<A>, span: Span, by: Columns) -> Range {
    let end = end_of(session);
    let span = Span {
        start: span.start.min(end),
        end: span.end.min(end),
    };
    range_of(session, span, by)
}

/// The bytes of a session's text.
pub fn bytes_of<A: Analyser>(alloc: Global, session: &Session<A>) -> Result<Vec<u8>, NoMemory>
    ensures text { IfOk result (λ v. v.items ≡ session.now.text) }
    ensures short { IfOk result (λ v. length v.items ≤ text_limit) }
{
    let (left, right) = session.slices();
    let mut bytes = Vec::new(alloc);
    bytes.extend_from_slice(left)?;
    bytes.extend_from_slice(right)?;
    Ok(bytes)
}
