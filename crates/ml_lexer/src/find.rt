//! The token at a place.
ghost use Rattle.std.specs.Prelude.{◌≡◌, ◌≤◌, ◌<◌, ◌+◌, ◌^◌, slice_index, true, length, IfOk};
ghost use Rattle.ml_lexer.specs.Founds.{found_of, Fits};
ghost use Rattle.ml_lexer.specs.Places.{rest_of, IsPlaced};
ghost use Rattle.ml_lexer.specs.Reaches.{reach_from};
ghost use Rattle.ml_lexer.specs.Scans.{found_from};

use crate::brackets::{find_bracket, find_paren};
use crate::found::Found;
use crate::names::{find_tick, find_upper, find_word};
use crate::numerals::find_numeral;
use crate::rest::{Rest, begins_operator, is_digit, is_lower, is_upper, peek};
use crate::signs::{find_mark_or_stray, find_sign};
use crate::strings::{find_brace, find_string};
use std::alloc::Global;
use syntax_tree::NoMemory;

/// The token at the front, where neither a blank nor a comment begins.
#[tactic(auto, unfolding(crate::specs::Scans::found_from, crate::specs::Reaches::reach_from))]
pub fn find(alloc: Global, text: Rest<'_>) -> Result<Found, NoMemory>
    requires placed { IsPlaced text }
    requires some { 0 < length (rest_of text) }
    ensures value { IfOk result (λ f. found_of f ≡ found_from (slice_index (rest_of text.entry) 0) (rest_of text.entry)) }
    ensures fits { IfOk result (λ f. Fits f (rest_of text.entry)) }
    ensures reach { IfOk result (λ f. f.reach ≡ reach_from (slice_index (rest_of text.entry) 0) (rest_of text.entry)) }
{
    let first = peek(text, 0);
    if is_lower(first) {
        find_word(alloc, text)
    } else if is_upper(first) {
        Ok(find_upper(text))
    } else if is_digit(first) {
        Ok(find_numeral(text))
    } else if first == b'\'' {
        Ok(find_tick(text))
    } else if first == b'"' {
        Ok(find_string(text))
    } else if first == b'(' {
        find_paren(alloc, text)
    } else if first == b'[' {
        Ok(find_bracket(text))
    } else if first == b'{' {
        Ok(find_brace(text))
    } else if begins_operator(first) {
        find_sign(alloc, text)
    } else {
        Ok(find_mark_or_stray(text, first))
    }
}
