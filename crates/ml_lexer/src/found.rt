//! What a scan finds at the front of what is left.
ghost use Rattle.std.specs.Prelude.{◌≡◌, ◌≤◌, ◌<◌, ◌+◌, ◌^◌, length};
ghost use Rattle.ml_lexer.specs.Founds.{found_of, Fits};
ghost use Rattle.ml_lexer.specs.Places.{rest_of, IsPlaced};
ghost use Rattle.ml_lexer.specs.Scans.{found, stray_found, run_end};
ghost use Rattle.syntax_tree.specs.Names.{kind_of};
ghost use Rattle.token_model.specs.Bytes.{continues};
ghost use Rattle.token_model.specs.Kinds.{junk};

use crate::rest::{Rest, Sort, len, run};
use syntax_tree::TokenKind;

/// A token at the front: places count from there.
#[derive(Clone, Copy)]
pub struct Found {
    pub kind: TokenKind,
    pub size: usize,
    pub name_start: usize,
    pub name_size: usize,
    /// The end of the bytes that decided the token; the end of the text counts as one.
    pub reach: usize,
}

/// A token whose name is its spelling, decided by its own bytes and some behind it.
pub fn spelled(kind: TokenKind, size: usize, behind: usize) -> Found
    requires small { size < 2 ^ 33 }
    requires near { behind < 2 ^ 33 }
    ensures value { found_of result ≡ found (kind_of kind) size }
    ensures reach { result.reach ≡ size + behind }
{
    Found {
        kind,
        size,
        name_start: 0,
        name_size: size,
        reach: size + behind,
    }
}

/// One character that begins no token.
#[tactic(auto, unfolding(syntax_tree::specs::Names::kind_of))]
pub fn stray(text: Rest<'_>) -> Found
    requires placed { IsPlaced text }
    requires some { 0 < length (rest_of text) }
    ensures value { found_of result ≡ stray_found (rest_of text.entry) }
    ensures reach { result.reach ≡ run_end continues 1 (rest_of text.entry) + 1 }
    ensures fits { Fits result (rest_of text.entry) }
{
    spelled(TokenKind::Junk, run(text, 1, Sort::Later), 1)
}

/// What has no end: all that is left.
#[tactic(auto, unfolding(syntax_tree::specs::Names::kind_of))]
pub fn unclosed(text: Rest<'_>) -> Found
    requires placed { IsPlaced text }
    requires some { 0 < length (rest_of text) }
    ensures value { found_of result ≡ found junk (length (rest_of text.entry)) }
    ensures reach { result.reach ≡ length (rest_of text.entry) + 1 }
    ensures fits { Fits result (rest_of text.entry) }
{
    spelled(TokenKind::Junk, len(text), 1)
}
