//! Integer and floating-point literals, and what identifier characters make of them.
ghost use Rattle.std.specs.Prelude.{◌≡◌, ◌≤◌, ◌<◌, ◌+◌, ◌^◌, ◌||◌, ◌&&◌, ◌==◌, if◌then◌else◌, slice_index, true, length};
ghost use Rattle.ml_lexer.specs.Founds.{found_of, Fits};
ghost use Rattle.ml_lexer.specs.Places.{rest_of, IsPlaced};
ghost use Rattle.ml_lexer.specs.Reaches.{behind_reach, numeral_reach};
ghost use Rattle.ml_lexer.specs.Scans.{literal_found, numeral_found, run_end, is_based as is_based_there, based_end as based_end_of, fraction_end as fraction_end_of, exponent_end as exponent_end_of, is_e as is_e_byte, is_plus_or_minus as is_plus_or_minus_byte};
ghost use Rattle.token_model.specs.Bytes.{is_digit as is_digit_byte, goes_on};

use crate::found::{Found, spelled};
use crate::rest::{Rest, Sort, is_digit, is_digit_of, peek, run};
use syntax_tree::TokenKind;

fn is_e(b: u8) -> bool
    ensures { result ≡ is_e_byte b }
{
    b == b'e' || b == b'E'
}

fn is_plus_or_minus(b: u8) -> bool
    ensures { result ≡ is_plus_or_minus_byte b }
{
    b == b'+' || b == b'-'
}

fn is_based(text: Rest<'_>) -> bool
    requires { IsPlaced text }
    ensures { result ≡ is_based_there (rest_of text.entry) }
{
    peek(text, 0) == b'0' && is_digit_of(peek(text, 1), peek(text, 2))
}

/// The end of a point and digits from a place on, or the place where there is no point.
fn fraction_end(text: Rest<'_>, from: usize) -> usize
    requires placed { IsPlaced text }
    requires inside { from ≤ length (rest_of text) }
    ensures value { result ≡ fraction_end_of from (rest_of text.entry) }
    ensures within { result ≤ length (rest_of text.entry) }
    ensures ahead { from ≤ result }
{
    if peek(text, from) == b'.' {
        run(text, from + 1, Sort::Decimal)
    } else {
        from
    }
}

/// The end of an exponent from a place on, or the place where there is none.
fn exponent_end(text: Rest<'_>, from: usize) -> usize
    requires placed { IsPlaced text }
    requires inside { from ≤ length (rest_of text) }
    ensures value { result ≡ exponent_end_of from (rest_of text.entry) }
    ensures within { result ≤ length (rest_of text.entry) }
    ensures ahead { from ≤ result }
{
    let begins = is_e(peek(text, from));
    let second = peek(text, from + 1);
    if begins && is_digit(second) {
        run(text, from + 1, Sort::Decimal)
    } else if begins && is_plus_or_minus(second) && is_digit(peek(text, from + 2)) {
        run(text, from + 2, Sort::Decimal)
    } else {
        from
    }
}

/// The end of the digits of a base that a letter names.
fn based_end(text: Rest<'_>, letter: u8) -> usize
    requires placed { IsPlaced text }
    requires inside { 2 ≤ length (rest_of text) }
    ensures value { result ≡ based_end_of letter (rest_of text.entry) }
    ensures within { result ≤ length (rest_of text.entry) }
    ensures ahead { 2 ≤ result }
{
    run(text, 2, Sort::DigitOf(letter))
}

/// The longest literal.
#[tactic(auto, unfolding(syntax_tree::specs::Names::kind_of, crate::specs::Scans::literal_found), using(crate::proofs::Runs::run_some))]
fn find_literal(text: Rest<'_>) -> Found
    requires placed { IsPlaced text }
    requires some { 0 < length (rest_of text) }
    requires begins { is_digit_byte (slice_index (rest_of text) 0) ≡ true }
    ensures value { found_of result ≡ literal_found (rest_of text.entry) }
    ensures fits { Fits result (rest_of text.entry) }
    ensures reach { result.reach ≡ result.size + 1 }
{
    if is_based(text) {
        let end = based_end(text, peek(text, 1));
        return spelled(TokenKind::Int, end, 1);
    }
    let digits = run(text, 0, Sort::Decimal);
    let end = exponent_end(text, fraction_end(text, digits));
    if end == digits {
        spelled(TokenKind::Int, end, 1)
    } else {
        spelled(TokenKind::Float, end, 1)
    }
}

/// How many bytes behind a numeral decided that it ends there: an `e` and a sign may want one more.
fn numeral_behind(text: Rest<'_>, literal: usize, end: usize) -> usize
    requires placed { IsPlaced text }
    requires order { literal ≤ end }
    requires inside { end ≤ length (rest_of text) }
    ensures value { result ≡ (if end == literal + 1 && is_e_byte (slice_index (rest_of text.entry) literal) && is_plus_or_minus_byte (slice_index (rest_of text.entry) (literal + 1)) then 2 else 1) }
    ensures near { (0 < result) × (end + result ≤ length (rest_of text.entry) + 1) }
{
    if end == literal + 1
        && is_e(peek(text, literal))
        && is_plus_or_minus(peek(text, literal + 1))
    {
        2
    } else {
        1
    }
}

/// What begins with a digit.
#[tactic(auto, unfolding(syntax_tree::specs::Names::kind_of, crate::specs::Scans::numeral_found, crate::specs::Reaches::numeral_reach))]
pub fn find_numeral(text: Rest<'_>) -> Found
    requires placed { IsPlaced text }
    requires some { 0 < length (rest_of text) }
    requires begins { is_digit_byte (slice_index (rest_of text) 0) ≡ true }
    ensures value { found_of result ≡ numeral_found (rest_of text.entry) }
    ensures fits { Fits result (rest_of text.entry) }
    ensures reach { result.reach ≡ numeral_reach (rest_of text.entry) }
{
    let literal = find_literal(text);
    let end = run(text, literal.size, Sort::Name);
    if literal.size < end {
        let behind = numeral_behind(text, literal.size, end);
        spelled(TokenKind::Outside, end, behind)
    } else {
        literal
    }
}
