//! Which part of a text is shown for a span, and which place is asked for a cursor.
ghost use Rattle.std.specs.Prelude.{◌≡◌, ◌+◌, ◌-◌, ◌<◌, ◌≤◌, ◌++◌, drop, length};
ghost use Rattle.lsp_model.specs.Frames.{front_run, is_digit as is_digit_spec};
ghost use Rattle.lsp_model.specs.Positions.{continues, text_limit};
ghost use Rattle.lsp_model.specs.Spans.{asked_place as asked_spec, char_end as char_end_spec, char_start as char_start_spec, ends_name as ends_name_spec, is_break as is_break_spec, is_lower as is_lower_spec, is_upper as is_upper_spec, is_name_byte as is_name_spec, run_start, shown_empty as shown_empty_spec, shown_span as shown_spec};
ghost use Rattle.lsp_positions.specs.Texts.{whole};

use crate::halves::{Halves, byte_at, len_of};
use crate::positions::is_continuing;
use text_terms::Span;

/// Whether a byte ends a line, or is the carriage return before one that does.
fn is_break(byte: u8) -> bool
    ensures { result ≡ is_break_spec byte }
{
    byte == b'\n' || byte == b'\r'
}

fn is_lower(byte: u8) -> bool
    ensures { result ≡ is_lower_spec byte }
{
    b'a' <= byte && byte <= b'z'
}

fn is_upper(byte: u8) -> bool
    ensures { result ≡ is_upper_spec byte }
{
    b'A' <= byte && byte <= b'Z'
}

fn is_digit(byte: u8) -> bool
    ensures { result ≡ is_digit_spec byte }
{
    b'0' <= byte && byte <= b'9'
}

/// A letter, a digit, `_` or `'`.
pub fn is_name_byte(byte: u8) -> bool
    ensures { result ≡ is_name_spec byte }
{
    is_lower(byte) || is_upper(byte) || is_digit(byte) || byte == b'_' || byte == b'\''
}

/// Where the line ends before a place begin.
#[tactic(auto, using(crate::proofs::Runs::run_on, crate::proofs::Runs::run_off, crate::proofs::Runs::run_none))]
fn breaks_start(text: Halves<'_>, end: usize) -> usize
    requires short { length (whole text) ≤ text_limit }
    requires within { end ≤ length (whole text) }
    ensures value { result ≡ run_start is_break_spec (whole text.entry) end }
    ensures before { result ≤ end }
{
    let mut at = end;
    while 0 < at && is_break(byte_at(text, at - 1)) {
        at -= 1;
    }
    at
}

/// Where the bytes before a place begin that go on with a character.
#[tactic(auto, using(crate::proofs::Runs::run_on, crate::proofs::Runs::run_off, crate::proofs::Runs::run_none))]
fn rest_start(text: Halves<'_>, end: usize) -> usize
    requires short { length (whole text) ≤ text_limit }
    requires within { end ≤ length (whole text) }
    ensures value { result ≡ run_start continues (whole text.entry) end }
    ensures before { result ≤ end }
{
    let mut at = end;
    while 0 < at && is_continuing(byte_at(text, at - 1)) {
        at -= 1;
    }
    at
}

/// Where the bytes from a place on end that go on with a character.
fn rest_end(text: Halves<'_>, start: usize) -> usize
    requires short { length (whole text) ≤ text_limit }
    requires within { start ≤ length (whole text) }
    ensures value { result ≡ start + front_run continues (drop start (whole text.entry)) }
    ensures end { result ≤ length (whole text.entry) }
{
    for at in start..len_of(text) {
        if !is_continuing(byte_at(text, at)) {
            return at;
        }
    }
    len_of(text)
}

/// An empty span as the character before it, or as the one behind it.
fn shown_empty(text: Halves<'_>, at: usize, before: usize) -> (usize, usize)
    requires short { length (whole text) ≤ text_limit }
    requires within { at ≤ length (whole text) }
    requires order { before ≤ at }
    ensures value { result ≡ shown_empty_spec (whole text.entry) at before }
    ensures start { result.0 ≤ length (whole text.entry) }
    ensures end { result.1 ≤ length (whole text.entry) }
{
    if 0 < before {
        return (rest_start(text, before).saturating_sub(1), before);
    }
    if at < len_of(text) && byte_at(text, at) != b'\n' {
        return (at, rest_end(text, at + 1));
    }
    (at, at)
}

/// The span that is shown for one of a text. An empty one is shown as the nearest character before it that is no part of
/// a line's end; where there is none, as the character behind it, unless that ends the line. The two slices joined are a text.
#[tactic(auto, unfolding(lsp_model::specs::Spans::shown_span))]
pub fn shown_span(left: &[u8], right: &[u8], span: Span) -> Span
    requires short { length (left.now ++ right.now) ≤ text_limit }
    requires start { span.start ≤ length (left.now ++ right.now) }
    requires end { span.end ≤ length (left.now ++ right.now) }
    ensures value { (result.start, result.end) ≡ shown_spec (left.now ++ right.now) (span.start, span.end) }
    ensures start { result.start ≤ length (left.now ++ right.now) }
    ensures end { result.end ≤ length (left.now ++ right.now) }
{
    if span.start < span.end {
        return span;
    }
    let text = Halves { left, right };
    let at = span.start as usize;
    let (start, end) = shown_empty(text, at, breaks_start(text, at));
    Span {
        start: start as u32,
        end: end as u32,
    }
}

/// Whether a name ends at a place and none goes on there.
fn ends_name(text: Halves<'_>, at: usize) -> bool
    requires short { length (whole text) ≤ text_limit }
    requires within { at ≤ length (whole text) }
    ensures { result ≡ ends_name_spec (whole text.entry) at }
{
    0 < at
        && is_name_byte(byte_at(text, at - 1))
        && !(at < len_of(text) && is_name_byte(byte_at(text, at)))
}

/// The place that is asked for a cursor: a name counts where it ends too. The two slices joined are a text.
#[tactic(auto, unfolding(lsp_model::specs::Spans::asked_place))]
pub fn asked_place(left: &[u8], right: &[u8], at: u32) -> u32
    requires short { length (left.now ++ right.now) ≤ text_limit }
    requires within { at ≤ length (left.now ++ right.now) }
    ensures value { result ≡ asked_spec (left.now ++ right.now) at }
    ensures within { result ≤ length (left.now ++ right.now) }
{
    let text = Halves { left, right };
    if ends_name(text, at as usize) {
        at - 1
    } else {
        at
    }
}
