//! What begins with `(`, `[` or `{`.
ghost use Rattle.std.specs.Prelude.{◌≡◌, ◌≤◌, ◌<◌, ◌+◌, ◌-◌, ◌^◌, slice_index, length, IfOk, IfSome, ℕ, Option, option_map};
ghost use Rattle.ml_lexer.specs.Founds.{found_of, Fits, ended_of};
ghost use Rattle.ml_lexer.specs.Places.{rest_of, IsPlaced};
ghost use Rattle.ml_lexer.specs.Reaches.{operator_reach, paren_reach, bracket_reach};
ghost use Rattle.ml_lexer.specs.Scans.{paren_found, bracket_found, op_name_found, operator_end as operator_end_of, is_operator_kind as is_operator_kind_of};
ghost use Rattle.syntax_tree.specs.Names.{kind_of};

use crate::found::{Found, spelled};
use crate::rest::{Rest, Sort, begins_operator, copy, is_lower, peek, run};
use crate::words::{sign_kind, word_kind};
use std::alloc::Global;
use syntax_tree::{NoMemory, TokenKind};

/// An operator: its kind, and its end from the front on.
#[derive(Clone, Copy)]
pub struct Ended {
    pub kind: TokenKind,
    pub end: usize,
}

#[tactic(auto, unfolding(syntax_tree::specs::Names::kind_of))]
fn is_operator_kind(kind: TokenKind) -> bool
    ensures { result ≡ is_operator_kind_of (kind_of kind) }
{
    match kind {
        TokenKind::Op14 => true,
        TokenKind::Op13 => true,
        TokenKind::Op12 => true,
        TokenKind::Op10 => true,
        TokenKind::Op9 => true,
        TokenKind::Op8 => true,
        TokenKind::Op7 => true,
        TokenKind::Prefix => true,
        TokenKind::ColonEqual => true,
        _ => false,
    }
}

/// The operator at a place, or what looks like one. None where no operator can begin.
#[tactic(auto, unfolding(syntax_tree::specs::Names::kind_of))]
fn operator_end(alloc: Global, text: Rest<'_>, from: usize) -> Result<Option<Ended>, NoMemory>
    requires placed { IsPlaced text }
    requires inside { from ≤ length (rest_of text) }
    ensures value { IfOk result (λ o. option_map ended_of o ≡ operator_end_of from (rest_of text.entry)) }
    ensures within { IfOk result (λ o. IfSome o (λ e. (from ≤ e.end) × (e.end ≤ length (rest_of text.entry)))) }
{
    let first = peek(text, from);
    if begins_operator(first) {
        let end = run(text, from, Sort::Sign);
        let signs = copy(alloc, text, from, end)?;
        return Ok(Some(Ended {
            kind: sign_kind(&signs),
            end,
        }));
    }
    if is_lower(first) {
        let end = run(text, from, Sort::Name);
        let word = copy(alloc, text, from, end)?;
        return Ok(Some(Ended {
            kind: word_kind(&word),
            end,
        }));
    }
    if first == b':' && peek(text, from + 1) == b'=' {
        return Ok(Some(Ended {
            kind: TokenKind::ColonEqual,
            end: from + 2,
        }));
    }
    Ok(None)
}

/// `(` alone, or an operator in parentheses.
#[tactic(auto, unfolding(syntax_tree::specs::Names::kind_of))]
fn find_op_name(text: Rest<'_>, from: usize, operator: Option<Ended>) -> Found
    requires placed { IsPlaced text }
    requires inside { (0 < from) × (from ≤ length (rest_of text)) }
    requires within { IfSome operator (λ e. (from ≤ e.end) × (e.end ≤ length (rest_of text))) }
    ensures value { found_of result ≡ op_name_found from (option_map ended_of operator) (rest_of text.entry) }
    ensures fits { Fits result (rest_of text.entry) }
    ensures reach { result.reach ≡ operator_reach from (option_map ended_of operator) (rest_of text.entry) }
{
    let Some(operator) = operator else {
        let colon = peek(text, from) == b':';
        return spelled(TokenKind::LeftParen, 1, if colon { from + 1 } else { from });
    };
    if !is_operator_kind(operator.kind) {
        return spelled(TokenKind::LeftParen, 1, operator.end);
    }
    let end = run(text, operator.end, Sort::Blank);
    if peek(text, end) == b')' {
        Found {
            kind: TokenKind::OpName,
            size: end + 1,
            name_start: from,
            name_size: operator.end - from,
            reach: end + 1,
        }
    } else {
        spelled(TokenKind::LeftParen, 1, end)
    }
}

/// What begins with `(`, where no comment does.
#[tactic(auto, unfolding(syntax_tree::specs::Names::kind_of, crate::specs::Scans::paren_found, crate::specs::Reaches::paren_reach))]
pub fn find_paren(alloc: Global, text: Rest<'_>) -> Result<Found, NoMemory>
    requires placed { IsPlaced text }
    requires some { 0 < length (rest_of text) }
    ensures value { IfOk result (λ f. found_of f ≡ paren_found (rest_of text.entry)) }
    ensures fits { IfOk result (λ f. Fits f (rest_of text.entry)) }
    ensures reach { IfOk result (λ f. f.reach ≡ paren_reach (rest_of text.entry)) }
{
    let from = run(text, 1, Sort::Blank);
    if peek(text, from) == b')' {
        return Ok(spelled(TokenKind::Unit, from + 1, 0));
    }
    let operator = operator_end(alloc, text, from)?;
    Ok(find_op_name(text, from, operator))
}

/// What begins with `[`.
#[tactic(auto, unfolding(syntax_tree::specs::Names::kind_of, crate::specs::Scans::bracket_found, crate::specs::Reaches::bracket_reach))]
pub fn find_bracket(text: Rest<'_>) -> Found
    requires placed { IsPlaced text }
    requires some { 0 < length (rest_of text) }
    ensures value { found_of result ≡ bracket_found (rest_of text.entry) }
    ensures fits { Fits result (rest_of text.entry) }
    ensures reach { result.reach ≡ bracket_reach (rest_of text.entry) }
{
    let end = run(text, 1, Sort::Blank);
    if peek(text, end) == b']' {
        return spelled(TokenKind::Nil, end + 1, 0);
    }
    let second = peek(text, 1);
    let third = peek(text, 2);
    if second == b'|' || second == b'<' || second == b'>' {
        spelled(TokenKind::Outside, 2, 0)
    } else if second == b'@' && third == b'@' && peek(text, 3) == b'@' {
        spelled(TokenKind::Outside, 4, 0)
    } else if second == b'@' && third == b'@' {
        spelled(TokenKind::Outside, 3, 1)
    } else if second == b'%' && third == b'%' {
        spelled(TokenKind::Outside, 3, 0)
    } else if second == b'@' || second == b'%' {
        spelled(TokenKind::Outside, 2, 1)
    } else {
        spelled(TokenKind::LeftBracket, 1, end)
    }
}
