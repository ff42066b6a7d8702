//! Comments, and the gaps between tokens.
ghost use Rattle.std.specs.Prelude.{◌≡◌, ◌≤◌, ◌<◌, ◌+◌, ◌^◌, ℕ, List, slice_index, true, false, drop, length, IfOk, IfSome, IfNone};
ghost use Rattle.token_model.specs.Comments.{Closes};
ghost use Rattle.ml_lexer.specs.Pieces.{piece_view, PassesSome};
ghost use Rattle.ml_lexer.specs.Places.{rest_of, IsPlaced};
ghost use Rattle.ml_lexer.specs.Scans.{piece_of, string_piece};

use crate::names::char_size;
use crate::rest::{Rest, ahead, len, peek};
use crate::strings::{opens_quoted, quoted_end, string_end};

/// What stands at a place inside a comment.
#[derive(Clone, Copy)]
pub enum Piece {
    Begins,
    Ends,
    /// bytes to pass
    Passes(usize),
    /// a string or quoted string that has no end
    Unclosed,
}

fn passed(end: Option<usize>) -> Piece
    ensures { piece_view result ≡ string_piece end }
{
    match end {
        Some(end) => Piece::Passes(end),
        None => Piece::Unclosed,
    }
}

#[tactic(auto, unfolding(crate::specs::Scans::piece_of))]
fn piece_at(text: Rest<'_>) -> Piece
    requires placed { IsPlaced text }
    requires some { 0 < length (rest_of text) }
    ensures value { piece_view result ≡ piece_of (rest_of text.entry) }
    ensures passes { PassesSome (length (rest_of text.entry)) result }
{
    let first = peek(text, 0);
    let second = peek(text, 1);
    if first == b'(' && second == b'*' {
        return Piece::Begins;
    }
    if first == b'*' && second == b')' {
        return Piece::Ends;
    }
    if first == b'"' {
        return passed(string_end(text, 1));
    }
    if first == b'{' && opens_quoted(text) {
        return passed(quoted_end(text));
    }
    let size = char_size(text);
    if first == b'\'' && size > 0 {
        return Piece::Passes(size);
    }
    Piece::Passes(1)
}

/// The end of a comment whose beginning stands before a place. None where it has no end.
pub fn comment_end(text: Rest<'_>, from: usize) -> Option<usize>
    requires placed { IsPlaced text }
    requires inside { from ≤ length (rest_of text) }
    ensures closed { IfSome result (λ end. Closes (drop from (rest_of text.entry)) (drop end (rest_of text.entry))) }
    ensures within { IfSome result (λ end. (from < end) × (end ≤ length (rest_of text.entry))) }
    ensures unclosed { IfNone result ((rest : List ℕ) → Closes (drop from (rest_of text.entry)) rest → ⊥) }
{
    let end = len(text);
    let mut depth: usize = 1;
    let mut i = from;
    while i < end {
        match piece_at(ahead(text, i)) {
            Piece::Begins => {
                depth += 1;
                i += 2;
            }
            Piece::Ends if depth == 1 => return Some(i + 2),
            Piece::Ends => {
                depth -= 1;
                i += 2;
            }
            Piece::Passes(size) => i += size,
            Piece::Unclosed => return None,
        }
    }
    None
}
