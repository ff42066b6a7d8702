//! Identifiers, words, qualifiers, and what begins with a quote.
ghost use Rattle.std.specs.Prelude.{◌≡◌, ◌≤◌, ◌<◌, ◌+◌, ◌^◌, ◌||◌, min, slice_index, true, length, IfOk};
ghost use Rattle.ml_lexer.specs.Founds.{found_of, Fits};
ghost use Rattle.ml_lexer.specs.Places.{rest_of, IsPlaced};
ghost use Rattle.ml_lexer.specs.Reaches.{type_reach as type_reach_of, word_reach, upper_reach, escape_reach as escape_reach_of, char_reach as char_reach_of, tick_reach};
ghost use Rattle.ml_lexer.specs.Scans.{word_found, upper_found, tick_found, escape_size as escape_size_of, char_size as char_size_of, is_module_word as is_module_word_there, is_type_word as is_type_word_there};
ghost use Rattle.token_model.specs.Bytes.{goes_on as goes_on_byte};
ghost use Rattle.token_model.specs.Spellings.{is_plain as is_plain_byte, is_escaped as is_escaped_byte};

use crate::found::{Found, spelled, stray};
use crate::rest::{
    Rest, Sort, begins_name, copy, is_digit, is_hexadecimal, is_octal, len, peek, run,
};
use crate::words::word_kind;
use std::alloc::Global;
use syntax_tree::{NoMemory, TokenKind};

fn is_module_word(text: Rest<'_>, to: usize) -> bool
    requires { IsPlaced text }
    ensures { result ≡ is_module_word_there to (rest_of text.entry) }
{
    to == 6
        && peek(text, 0) == b'm'
        && peek(text, 1) == b'o'
        && peek(text, 2) == b'd'
        && peek(text, 3) == b'u'
        && peek(text, 4) == b'l'
        && peek(text, 5) == b'e'
}

fn is_type_word(text: Rest<'_>, from: usize, to: usize) -> bool
    requires placed { IsPlaced text }
    requires near { from ≤ length (rest_of text) }
    ensures { result ≡ is_type_word_there from to (rest_of text.entry) }
{
    to == from + 4
        && peek(text, from) == b't'
        && peek(text, from + 1) == b'y'
        && peek(text, from + 2) == b'p'
        && peek(text, from + 3) == b'e'
}

/// The end of the bytes that decide that no `type` stands as a word at a place: its letters, and the byte behind them.
fn type_reach(text: Rest<'_>, from: usize) -> usize
    requires placed { IsPlaced text }
    requires near { from ≤ length (rest_of text) }
    ensures value { result ≡ type_reach_of from (rest_of text.entry) }
    ensures near { (from < result) × (result ≤ length (rest_of text.entry) + 1) }
{
    if peek(text, from) != b't' {
        from + 1
    } else if peek(text, from + 1) != b'y' {
        from + 2
    } else if peek(text, from + 2) != b'p' {
        from + 3
    } else if peek(text, from + 3) != b'e' {
        from + 4
    } else {
        from + 5
    }
}

/// What begins with a lower-case letter or `_`.
#[tactic(auto, unfolding(syntax_tree::specs::Names::kind_of, crate::specs::Scans::word_found, crate::specs::Reaches::word_reach), using(crate::proofs::Runs::run_some))]
pub fn find_word(alloc: Global, text: Rest<'_>) -> Result<Found, NoMemory>
    requires placed { IsPlaced text }
    requires some { 0 < length (rest_of text) }
    requires begins { goes_on_byte (slice_index (rest_of text) 0) ≡ true }
    ensures value { IfOk result (λ f. found_of f ≡ word_found (rest_of text.entry)) }
    ensures fits { IfOk result (λ f. Fits f (rest_of text.entry)) }
    ensures reach { IfOk result (λ f. f.reach ≡ word_reach (rest_of text.entry)) }
{
    let end = run(text, 0, Sort::Name);
    let word = copy(alloc, text, 0, end)?;
    if !is_module_word(text, end) {
        return Ok(spelled(word_kind(&word), end, 1));
    }
    let from = run(text, end, Sort::Blank);
    let to = run(text, from, Sort::Name);
    if end < from && is_type_word(text, from, to) {
        return Ok(spelled(TokenKind::ModuleType, to, 1));
    }
    let behind = type_reach(text, from) - end;
    Ok(spelled(word_kind(&word), end, behind))
}

/// What begins with an upper-case letter.
#[tactic(auto, unfolding(syntax_tree::specs::Names::kind_of, crate::specs::Scans::upper_found, crate::specs::Reaches::upper_reach))]
pub fn find_upper(text: Rest<'_>) -> Found
    requires placed { IsPlaced text }
    requires some { 0 < length (rest_of text) }
    requires begins { goes_on_byte (slice_index (rest_of text) 0) ≡ true }
    ensures value { found_of result ≡ upper_found (rest_of text.entry) }
    ensures fits { Fits result (rest_of text.entry) }
    ensures reach { result.reach ≡ upper_reach (rest_of text.entry) }
{
    let end = run(text, 0, Sort::Name);
    if peek(text, end) == b'.' {
        Found {
            kind: TokenKind::Qualifier,
            size: end + 1,
            name_start: 0,
            name_size: end,
            reach: end + 1,
        }
    } else {
        spelled(TokenKind::Upper, end, 1)
    }
}

fn is_plain(b: u8) -> bool
    ensures { result ≡ is_plain_byte b }
{
    b < 128 && !(b == b'\\' || b == b'\'' || b == b'\n' || b == b'\r')
}

fn is_escaped(b: u8) -> bool
    ensures { result ≡ is_escaped_byte b }
{
    b == b'\\'
        || b == b'"'
        || b == b'\''
        || b == b'n'
        || b == b't'
        || b == b'b'
        || b == b'r'
        || b == b' '
}

/// The size of a character literal with an escape, and 0 where there is none.
#[tactic(auto, unfolding(crate::specs::Scans::escape_size))]
fn escape_size(text: Rest<'_>) -> usize
    requires placed { IsPlaced text }
    ensures value { result ≡ escape_size_of (rest_of text.entry) }
    ensures within { result ≤ length (rest_of text.entry) }
{
    let first = peek(text, 2);
    let second = peek(text, 3);
    let third = peek(text, 4);
    if is_escaped(first) && second == b'\'' {
        return 4;
    }
    let fourth = peek(text, 5);
    if is_digit(first) && is_digit(second) && is_digit(third) && fourth == b'\'' {
        return 6;
    }
    if first == b'x' && is_hexadecimal(second) && is_hexadecimal(third) && fourth == b'\'' {
        return 6;
    }
    if first == b'o'
        && is_octal(second)
        && second < b'4'
        && is_octal(third)
        && is_octal(fourth)
        && peek(text, 6) == b'\''
    {
        return 7;
    }
    0
}

/// The size of a character literal whose first quote stands here, and 0 where there is none.
#[tactic(auto, unfolding(crate::specs::Scans::char_size))]
pub fn char_size(text: Rest<'_>) -> usize
    requires placed { IsPlaced text }
    ensures value { result ≡ char_size_of (rest_of text.entry) }
    ensures within { result ≤ length (rest_of text.entry) }
{
    let first = peek(text, 1);
    if first == b'\\' {
        escape_size(text)
    } else if is_plain(first) && peek(text, 2) == b'\'' {
        3
    } else {
        0
    }
}

/// The end of the bytes that decide that a quote and a backslash begin no character literal.
fn escape_reach(text: Rest<'_>) -> usize
    requires { IsPlaced text }
    ensures value { result ≡ escape_reach_of (rest_of text.entry) }
    ensures near { (3 ≤ result) × (result ≤ 7) }
{
    match peek(text, 2) {
        b'x' if !is_hexadecimal(peek(text, 3)) => 4,
        b'x' if !is_hexadecimal(peek(text, 4)) => 5,
        b'x' => 6,
        b'o' if !(is_octal(peek(text, 3)) && peek(text, 3) < b'4') => 4,
        b'o' if !is_octal(peek(text, 4)) => 5,
        b'o' if !is_octal(peek(text, 5)) => 6,
        b'o' => 7,
        first if is_escaped(first) => 4,
        first if !is_digit(first) => 3,
        _ if !is_digit(peek(text, 3)) => 4,
        _ if !is_digit(peek(text, 4)) => 5,
        _ => 6,
    }
}

/// The end of the bytes that decide that a quote begins no character literal.
fn char_reach(text: Rest<'_>) -> usize
    requires placed { IsPlaced text }
    requires some { 0 < length (rest_of text) }
    ensures value { result ≡ min (char_reach_of (rest_of text.entry)) (length (rest_of text.entry) + 1) }
    ensures near { (2 ≤ result) × (result ≤ length (rest_of text.entry) + 1) }
{
    let first = peek(text, 1);
    let wanted = if first == b'\\' {
        escape_reach(text)
    } else if is_plain(first) {
        3
    } else {
        2
    };
    wanted.min(len(text) + 1)
}

/// What begins with a quote.
#[tactic(auto, unfolding(syntax_tree::specs::Names::kind_of, crate::specs::Scans::tick_found, crate::specs::Reaches::tick_reach))]
pub fn find_tick(text: Rest<'_>) -> Found
    requires placed { IsPlaced text }
    requires some { 0 < length (rest_of text) }
    ensures value { found_of result ≡ tick_found (rest_of text.entry) }
    ensures fits { Fits result (rest_of text.entry) }
    ensures reach { result.reach ≡ tick_reach (rest_of text.entry) }
{
    let size = char_size(text);
    if size > 0 {
        return spelled(TokenKind::Char, size, 0);
    }
    if begins_name(peek(text, 1)) {
        return spelled(TokenKind::TyVar, run(text, 1, Sort::Name), 1);
    }
    let found = stray(text);
    Found {
        reach: found.reach.max(char_reach(text)),
        ..found
    }
}
