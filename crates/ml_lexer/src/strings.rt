//! Strings and quoted strings.
ghost use Rattle.std.specs.Prelude.{◌≡◌, ◌≤◌, ◌<◌, ◌+◌, ◌-◌, ◌^◌, take, drop, true, false, length, IfSome, slice_index};
ghost use Rattle.ml_lexer.specs.Founds.{found_of, Fits};
ghost use Rattle.ml_lexer.specs.Places.{rest_of, IsPlaced};
ghost use Rattle.ml_lexer.specs.Reaches.{string_reach, quote_reach, brace_reach};
ghost use Rattle.ml_lexer.specs.Scans.{string_end as string_end_of, quoted_end as quoted_end_of, word_end, front_is, string_found, opens_quoted as opens_quoted_there, run_end, quote_found, brace_found};
ghost use Rattle.token_model.specs.Bytes.{is_lower};
ghost use Rattle.token_model.specs.Spellings.{closing};

use crate::found::{Found, spelled, unclosed};
use crate::rest::{Rest, Sort, len, peek, run};
use syntax_tree::TokenKind;

/// The end of a string whose first quote stands before a place. None where it has no end.
pub fn string_end(text: Rest<'_>, from: usize) -> Option<usize>
    requires placed { IsPlaced text }
    requires inside { from ≤ length (rest_of text) }
    ensures value { result ≡ string_end_of false from (drop from (rest_of text.entry)) }
    ensures within { IfSome result (λ end. (from < end) × (end ≤ length (rest_of text.entry))) }
{
    let mut escaped = false;
    for i in from..len(text) {
        let b = peek(text, i);
        if escaped {
            escaped = false;
        } else if b == b'"' {
            return Some(i + 1);
        } else {
            escaped = b == b'\\';
        }
    }
    None
}

/// Whether the bytes from one place to another stand at a third.
fn is_repeated(text: Rest<'_>, from: usize, to: usize, at: usize) -> bool
    requires placed { IsPlaced text }
    requires order { from ≤ to }
    requires inside { to ≤ length (rest_of text) }
    requires near { at ≤ length (rest_of text) }
    ensures { result ≡ front_is (take (to - from) (drop from (rest_of text.entry))) (drop at (rest_of text.entry)) }
{
    for i in from..to {
        let place = at + (i - from);
        if place >= len(text) {
            return false;
        }
        if peek(text, place) != peek(text, i) {
            return false;
        }
    }
    true
}

/// Whether `|id}` stands at a place, where id stands behind the first byte up to `id_end`.
fn closes_quoted(text: Rest<'_>, id_end: usize, at: usize) -> bool
    requires placed { IsPlaced text }
    requires order { 1 ≤ id_end }
    requires inside { id_end ≤ length (rest_of text) }
    requires near { at < length (rest_of text) }
    ensures { result ≡ front_is (closing (take (id_end - 1) (drop 1 (rest_of text.entry)))) (drop at (rest_of text.entry)) }
{
    if peek(text, at) != b'|' {
        return false;
    }
    let same = is_repeated(text, 1, id_end, at + 1);
    let last = peek(text, at + id_end) == b'}';
    same && last
}

/// The end of a quoted string whose `|` stands at the end of its id. None where it has no end.
fn closing_end(text: Rest<'_>, id_end: usize) -> Option<usize>
    requires placed { IsPlaced text }
    requires order { 1 ≤ id_end }
    requires inside { id_end < length (rest_of text) }
    ensures value { result ≡ word_end (closing (take (id_end - 1) (drop 1 (rest_of text.entry)))) (id_end + 1) (drop (id_end + 1) (rest_of text.entry)) }
    ensures within { IfSome result (λ end. (id_end + 1 < end) × (end ≤ length (rest_of text.entry))) }
{
    for i in id_end + 1..len(text) {
        if closes_quoted(text, id_end, i) {
            return Some(i + id_end + 1);
        }
    }
    None
}

/// The end of an id behind the first byte, and whether `|` stands behind it.
fn id_end(text: Rest<'_>) -> usize
    requires placed { IsPlaced text }
    requires some { 0 < length (rest_of text) }
    ensures value { result ≡ run_end is_lower 1 (rest_of text.entry) }
    ensures within { result ≤ length (rest_of text.entry) }
    ensures ahead { 1 ≤ result }
{
    run(text, 1, Sort::LowerLetter)
}

/// Whether `{` begins a quoted string.
pub fn opens_quoted(text: Rest<'_>) -> bool
    requires placed { IsPlaced text }
    requires some { 0 < length (rest_of text) }
    ensures { result ≡ opens_quoted_there (rest_of text.entry) }
{
    peek(text, id_end(text)) == b'|'
}

/// The end of a quoted string. None where it has no end.
pub fn quoted_end(text: Rest<'_>) -> Option<usize>
    requires placed { IsPlaced text }
    requires some { 0 < length (rest_of text) }
    requires opens { opens_quoted_there (rest_of text) ≡ true }
    ensures value { result ≡ quoted_end_of (rest_of text.entry) }
    ensures within { IfSome result (λ end. (0 < end) × (end ≤ length (rest_of text.entry))) }
{
    closing_end(text, id_end(text))
}

/// A string up to its end, or junk up to the end of the text.
#[tactic(auto, unfolding(syntax_tree::specs::Names::kind_of))]
fn string_up_to(text: Rest<'_>, end: Option<usize>) -> Found
    requires placed { IsPlaced text }
    requires some { 0 < length (rest_of text) }
    requires within { IfSome end (λ end. (0 < end) × (end ≤ length (rest_of text))) }
    ensures value { found_of result ≡ string_found end (rest_of text.entry) }
    ensures fits { Fits result (rest_of text.entry) }
    ensures reach { result.reach ≡ string_reach end (rest_of text.entry) }
{
    match end {
        Some(end) => spelled(TokenKind::Str, end, 0),
        None => unclosed(text),
    }
}

/// What begins with `"`.
#[tactic(auto, unfolding(crate::specs::Scans::quote_found, crate::specs::Reaches::quote_reach))]
pub fn find_string(text: Rest<'_>) -> Found
    requires placed { IsPlaced text }
    requires some { 0 < length (rest_of text) }
    ensures value { found_of result ≡ quote_found (rest_of text.entry) }
    ensures fits { Fits result (rest_of text.entry) }
    ensures reach { result.reach ≡ quote_reach (rest_of text.entry) }
{
    string_up_to(text, string_end(text, 1))
}

/// What begins with `{`.
#[tactic(auto, unfolding(syntax_tree::specs::Names::kind_of, crate::specs::Scans::brace_found, crate::specs::Reaches::brace_reach))]
pub fn find_brace(text: Rest<'_>) -> Found
    requires placed { IsPlaced text }
    requires some { 0 < length (rest_of text) }
    ensures value { found_of result ≡ brace_found (rest_of text.entry) }
    ensures fits { Fits result (rest_of text.entry) }
    ensures reach { result.reach ≡ brace_reach (rest_of text.entry) }
{
    if opens_quoted(text) {
        string_up_to(text, quoted_end(text))
    } else if peek(text, 1) == b'<' {
        spelled(TokenKind::Outside, 2, 0)
    } else {
        spelled(TokenKind::LeftBrace, 1, id_end(text))
    }
}
