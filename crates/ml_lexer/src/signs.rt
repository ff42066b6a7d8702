//! Operators and marks.
ghost use Rattle.std.specs.Prelude.{◌≡◌, ◌≤◌, ◌<◌, ◌+◌, ◌^◌, slice_index, true, length, IfOk};
ghost use Rattle.ml_lexer.specs.Founds.{found_of, Fits};
ghost use Rattle.ml_lexer.specs.Places.{rest_of, IsPlaced};
ghost use Rattle.ml_lexer.specs.Reaches.{sign_reach, mark_reach};
ghost use Rattle.ml_lexer.specs.Scans.{sign_found, is_closing_sign as is_closing_sign_there, mark_found, colon_found, mark_or_stray};
ghost use Rattle.syntax_tree.specs.Names.{kind_of};
ghost use Rattle.token_model.specs.Bytes.{is_sign};

use crate::found::{Found, spelled, stray};
use crate::rest::{Rest, Sort, copy, peek, run};
use crate::words::sign_kind;
use std::alloc::Global;
use syntax_tree::{NoMemory, TokenKind};

/// Whether `|]`, `>]` or `>}` stands here.
fn is_closing_sign(text: Rest<'_>) -> bool
    requires { IsPlaced text }
    ensures { result ≡ is_closing_sign_there (rest_of text.entry) }
{
    let first = peek(text, 0);
    let second = peek(text, 1);
    first == b'|' && second == b']' || first == b'>' && (second == b']' || second == b'}')
}

/// What begins with a sign that an operator may begin with.
#[tactic(auto, unfolding(syntax_tree::specs::Names::kind_of, crate::specs::Scans::sign_found, crate::specs::Reaches::sign_reach), using(crate::proofs::Runs::run_some))]
pub fn find_sign(alloc: Global, text: Rest<'_>) -> Result<Found, NoMemory>
    requires placed { IsPlaced text }
    requires some { 0 < length (rest_of text) }
    requires begins { is_sign (slice_index (rest_of text) 0) ≡ true }
    ensures value { IfOk result (λ f. found_of f ≡ sign_found (rest_of text.entry)) }
    ensures fits { IfOk result (λ f. Fits f (rest_of text.entry)) }
    ensures reach { IfOk result (λ f. f.reach ≡ sign_reach (rest_of text.entry)) }
{
    if is_closing_sign(text) {
        return Ok(spelled(TokenKind::Outside, 2, 0));
    }
    let end = run(text, 0, Sort::Sign);
    let signs = copy(alloc, text, 0, end)?;
    Ok(spelled(sign_kind(&signs), end, 1))
}

/// A mark, or a longer one where a byte stands behind it.
fn find_mark(text: Rest<'_>, kind: TokenKind, second: u8, double: TokenKind) -> Found
    requires placed { IsPlaced text }
    requires some { 0 < length (rest_of text) }
    requires byte { 0 < second }
    ensures value { found_of result ≡ mark_found (kind_of kind) second (kind_of double) (rest_of text.entry) }
    ensures fits { Fits result (rest_of text.entry) }
    ensures reach { result.reach ≡ 2 }
{
    if peek(text, 1) == second {
        spelled(double, 2, 0)
    } else {
        spelled(kind, 1, 1)
    }
}

/// What begins with `:`.
#[tactic(auto, unfolding(syntax_tree::specs::Names::kind_of))]
fn find_colon(text: Rest<'_>) -> Found
    requires placed { IsPlaced text }
    requires some { 0 < length (rest_of text) }
    ensures value { found_of result ≡ colon_found (rest_of text.entry) }
    ensures fits { Fits result (rest_of text.entry) }
    ensures reach { result.reach ≡ 2 }
{
    match peek(text, 1) {
        b':' => spelled(TokenKind::ColonColon, 2, 0),
        b'=' => spelled(TokenKind::ColonEqual, 2, 0),
        b'>' => spelled(TokenKind::Outside, 2, 0),
        _ => spelled(TokenKind::Colon, 1, 1),
    }
}

/// A mark that no other function finds, or one character that begins no token.
#[tactic(auto, unfolding(syntax_tree::specs::Names::kind_of, crate::specs::Scans::mark_or_stray, crate::specs::Reaches::mark_reach))]
pub fn find_mark_or_stray(text: Rest<'_>, first: u8) -> Found
    requires placed { IsPlaced text }
    requires some { 0 < length (rest_of text) }
    ensures value { found_of result ≡ mark_or_stray first (rest_of text.entry) }
    ensures fits { Fits result (rest_of text.entry) }
    ensures reach { result.reach ≡ mark_reach first (rest_of text.entry) }
{
    match first {
        b')' => spelled(TokenKind::RightParen, 1, 0),
        b']' => spelled(TokenKind::RightBracket, 1, 0),
        b'}' => spelled(TokenKind::RightBrace, 1, 0),
        b',' => spelled(TokenKind::Comma, 1, 0),
        b';' => find_mark(text, TokenKind::Semi, b';', TokenKind::SemiSemi),
        b'.' => find_mark(text, TokenKind::Dot, b'.', TokenKind::Outside),
        b':' => find_colon(text),
        b'#' => spelled(TokenKind::Outside, run(text, 1, Sort::Sign), 1),
        _ => stray(text),
    }
}
