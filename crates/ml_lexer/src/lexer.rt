//! The first token at or behind a place, and all tokens of a text.
ghost use Rattle.std.specs.Prelude.{◌≡◌, true, ◌≤◌, ◌<◌, ◌+◌, ◌-◌, ◌^◌, ◌++◌, map, take, drop, length, IfOk, IfSome, OnErr, option_map};
ghost use Rattle.std.specs.Str.{IsUtf8, IsCharBoundary};
ghost use Rattle.token_model.specs.Comments.{begins_comment as begins_comment_there};
ghost use Rattle.token_model.specs.Kinds.{AllWithin};
ghost use Rattle.token_model.specs.Tokens.{FirstToken, Lex, column};
ghost use Rattle.ml_lexer.specs.Founds.{found_of, Fits, placed_tok};
ghost use Rattle.ml_lexer.specs.Nexts.{IsNext};
ghost use Rattle.ml_lexer.specs.Places.{rest_of, IsPlaced, tallied};
ghost use Rattle.ml_lexer.specs.Reaches.{reach_at, IsStable, HasFew};
ghost use Rattle.syntax_tree.specs.Tallies.{lexed_more, Grows};
ghost use Rattle.syntax_tree.specs.View.{tok_of};
ghost use Rattle.text_terms.specs.Bytes.{str_bytes};

use crate::comments::comment_end;
use crate::find::find;
use crate::found::{Found, unclosed};
use crate::rest::{Rest, ahead, column_ahead, copy, is_blank, len, peek};
use std::alloc::{AllocError, Global};
use syntax_tree::{Counts, NoMemory, RcStr, Span, Token};

/// What stands behind a gap: places count from the gap's first byte.
#[derive(Clone, Copy)]
pub enum Next {
    /// the end of the text
    End,
    /// a comment that has no end
    Comment(usize),
    /// a token
    Token(usize),
}

/// Whether a comment begins here.
fn begins_comment(text: Rest<'_>) -> bool
    requires { IsPlaced text }
    ensures value { result ≡ begins_comment_there (rest_of text.entry) }
    ensures two { result ≡ true → 2 ≤ length (rest_of text.entry) }
{
    peek(text, 0) == b'(' && peek(text, 1) == b'*'
}

/// What stands behind the blanks and closed comments at the front.
fn behind_gap(text: Rest<'_>) -> Next
    requires { IsPlaced text }
    ensures { IsNext (rest_of text.entry) result }
{
    let end = len(text);
    let mut i = 0;
    while i < end {
        let here = ahead(text, i);
        if is_blank(peek(here, 0)) {
            i += 1;
        } else if !begins_comment(here) {
            return Next::Token(i);
        } else {
            match comment_end(here, 2) {
                Some(size) => i += size,
                None => return Next::Comment(i),
            }
        }
    }
    Next::End
}

/// A name, with its first owner.
fn shared_name(alloc: Global, text: Rest<'_>, found: Found) -> Result<RcStr, NoMemory>
    requires placed { IsPlaced text }
    requires fits { Fits found (rest_of text) }
    requires text { IsUtf8 (take found.name_size (drop found.name_start (rest_of text))) }
    ensures { IfOk result (λ r. str_bytes r ≡ take found.name_size (drop found.name_start (rest_of text.entry))) }
{
    let end = found.name_start + found.name_size;
    let bytes = copy(alloc, text, found.name_start, end)?;
    match String::from_utf8_lossy(alloc, &bytes) {
        Ok(name) => RcStr::new(alloc, name),
        Err(_) => Err(AllocError),
    }
}

/// The token that was found at a place, which is counted.
fn token_at<C: Counts>(
    alloc: Global,
    text: Rest<'_>,
    found: Found,
    col: u32,
    counts: &mut C,
) -> Result<Token, NoMemory>
    requires placed { IsPlaced text }
    requires fits { Fits found (rest_of text) }
    requires text { IsUtf8 (take found.name_size (drop found.name_start (rest_of text))) }
    ensures value { IfOk result (λ t. tok_of t ≡ placed_tok text.entry.at col (found_of found) (rest_of text.entry)) }
    ensures reach { IfOk result (λ t. t.reach ≡ text.entry.at + found.reach) }
    ensures counted { IfOk result (λ t. C.tallies counts.new ≡ lexed_more (C.tallies counts.old)) }
    ensures refused { OnErr result (C.tallies counts.new ≡ C.tallies counts.old) }
{
    let name = shared_name(alloc, text, found)?;
    counts.add_lexed();
    Ok(Token {
        kind: found.kind,
        span: Span {
            start: text.at as u32,
            end: (text.at + found.size) as u32,
        },
        reach: (text.at + found.reach) as u32,
        col,
        name,
    })
}

/// A place in a text from which it is read on: 0 or a token's end, and its column.
#[derive(Clone, Copy, Debug, PartialEq, Eq)]
pub struct Start {
    pub at: u32,
    pub col: u32,
}

/// The first token of a text in two parts at or behind a place, which is 0 or a token's end.
/// None where only blanks and closed comments are left. Each token given is counted.
/// A token's reach is the end of the bytes that decided it, where the end of the text counts as one byte:
/// an edit behind the reach leaves the token as it is.
/// The column of the place is found from the front of the text; `lex_on` takes it.
/// After `NoMemory` the counter is as before.
pub fn lex_from<C: Counts>(
    alloc: Global,
    left: &[u8],
    right: &[u8],
    at: u32,
    counts: &mut C,
) -> Result<Option<Token>, NoMemory>
    requires short { length (left.now ++ right.now) < 2 ^ 32 - 1 }
    requires text { IsUtf8 (left.now ++ right.now) }
    requires inside { IsCharBoundary (left.now ++ right.now) at }
    ensures token { IfOk result (λ o. FirstToken (left.now ++ right.now) at (option_map tok_of o)) }
    ensures span { IfOk result (λ o. IfSome o (λ t. (at < t.span.end) × (t.span.start ≤ t.span.end) × IsCharBoundary (left.now ++ right.now) t.span.end)) }
    ensures reach { IfOk result (λ o. IfSome o (λ t. t.reach ≡ reach_at (left.now ++ right.now) t.span.start)) }
    ensures near { IfOk result (λ o. IfSome o (λ t. (t.span.end ≤ t.reach) × (t.reach ≤ length (left.now ++ right.now) + 1))) }
    ensures stable { IfOk result (λ o. IfSome o (λ t. IsStable (left.now ++ right.now) at (tok_of t) t.reach)) }
    ensures few { IfOk result (λ o. IfSome o (λ t. HasFew (left.now ++ right.now) (tok_of t) t.reach)) }
    ensures counted { IfOk result (λ o. C.tallies counts.new ≡ tallied o (C.tallies counts.old)) }
    ensures refused { OnErr result (C.tallies counts.new ≡ C.tallies counts.old) }
    ensures grows { Grows (C.tallies counts.old) (C.tallies counts.new) }
{
    let text = Rest { left, right, at: 0 };
    let col = column_ahead(text, at as usize, 0);
    lex_on(alloc, left, right, Start { at, col }, counts)
}

/// The same where the column of the place is known.
pub fn lex_on<C: Counts>(
    alloc: Global,
    left: &[u8],
    right: &[u8],
    from: Start,
    counts: &mut C,
) -> Result<Option<Token>, NoMemory>
    requires short { length (left.now ++ right.now) < 2 ^ 32 - 1 }
    requires text { IsUtf8 (left.now ++ right.now) }
    requires inside { IsCharBoundary (left.now ++ right.now) from.at }
    requires col { from.col ≡ column (left.now ++ right.now) from.at }
    ensures token { IfOk result (λ o. FirstToken (left.now ++ right.now) from.at (option_map tok_of o)) }
    ensures span { IfOk result (λ o. IfSome o (λ t. (from.at < t.span.end) × (t.span.start ≤ t.span.end) × IsCharBoundary (left.now ++ right.now) t.span.end)) }
    ensures reach { IfOk result (λ o. IfSome o (λ t. t.reach ≡ reach_at (left.now ++ right.now) t.span.start)) }
    ensures near { IfOk result (λ o. IfSome o (λ t. (t.span.end ≤ t.reach) × (t.reach ≤ length (left.now ++ right.now) + 1))) }
    ensures stable { IfOk result (λ o. IfSome o (λ t. IsStable (left.now ++ right.now) from.at (tok_of t) t.reach)) }
    ensures few { IfOk result (λ o. IfSome o (λ t. HasFew (left.now ++ right.now) (tok_of t) t.reach)) }
    ensures counted { IfOk result (λ o. C.tallies counts.new ≡ tallied o (C.tallies counts.old)) }
    ensures refused { OnErr result (C.tallies counts.new ≡ C.tallies counts.old) }
    ensures grows { Grows (C.tallies counts.old) (C.tallies counts.new) }
{
    let text = Rest {
        left,
        right,
        at: from.at as usize,
    };
    match behind_gap(text) {
        Next::End => Ok(None),
        Next::Comment(i) => {
            let here = ahead(text, i);
            let col = column_ahead(text, i, from.col);
            let token = token_at(alloc, here, unclosed(here), col, counts)?;
            Ok(Some(token))
        }
        Next::Token(i) => {
            let here = ahead(text, i);
            let col = column_ahead(text, i, from.col);
            let found = find(alloc, here)?;
            let token = token_at(alloc, here, found, col, counts)?;
            Ok(Some(token))
        }
    }
}

/// The column of the place behind a token of a text in two parts.
pub fn column_behind(left: &[u8], right: &[u8], token: &Token) -> u32
    requires short { length (left.now ++ right.now) < 2 ^ 32 - 1 }
    requires order { token.now.span.start ≤ token.now.span.end }
    requires inside { token.now.span.end ≤ length (left.now ++ right.now) }
    requires col { token.now.col ≡ column (left.now ++ right.now) token.now.span.start }
    ensures { result ≡ column (left.now ++ right.now) token.now.span.end }
{
    let size = token.span.end - token.span.start;
    let text = Rest {
        left,
        right,
        at: token.span.start as usize,
    };
    column_ahead(text, size as usize, token.col)
}

/// All tokens of a text in two parts, each of which is counted.
pub fn lex_all<C: Counts>(
    alloc: Global,
    left: &[u8],
    right: &[u8],
    counts: &mut C,
) -> Result<Vec<Token>, NoMemory>
    requires short { length (left.now ++ right.now) < 2 ^ 32 - 1 }
    requires text { IsUtf8 (left.now ++ right.now) }
    ensures tokens { IfOk result (λ v. Lex (left.now ++ right.now) (map tok_of v.items)) }
    ensures few { IfOk result (λ v. length v.items ≤ length (left.now ++ right.now)) }
    ensures within { IfOk result (λ v. AllWithin (length (left.now ++ right.now)) (map tok_of v.items)) }
    ensures grows { Grows (C.tallies counts.old) (C.tallies counts.new) }
    ensures untyped { (C.tallies counts.new).typed ≡ (C.tallies counts.old).typed }
{
    let mut tokens = Vec::new(alloc);
    let mut at: u32 = 0;
    let mut col: u32 = 0;
    while let Some(token) = lex_on(alloc, left, right, Start { at, col }, counts)? {
        at = token.span.end;
        col = column_behind(left, right, &token);
        if tokens.push(token).is_err() {
            return Err(AllocError);
        }
    }
    Ok(tokens)
}
