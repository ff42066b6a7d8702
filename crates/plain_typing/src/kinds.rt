//! What the kind of a token tells of its place in an item.
ghost use Rattle.std.specs.Prelude.{◌≡◌, option_map, true, false};
ghost use Rattle.plain_model.specs.Plain as plain;
ghost use Rattle.syntax_tree.specs.Names.{kind_of};
ghost use Rattle.syntax_tree.specs.View.{tok_of};
ghost use Rattle.plain_typing.specs.View.{plain_of};

use crate::Plain;
use syntax_tree::{Token, TokenKind};

fn is_let(kind: TokenKind) -> bool
    ensures { result ≡ plain.is_let (kind_of kind) }
{
    matches!(kind, TokenKind::Let)
}

pub(crate) fn is_lower(kind: TokenKind) -> bool
    ensures { result ≡ plain.is_lower (kind_of kind) }
{
    matches!(kind, TokenKind::Lower)
}

fn is_comparison(kind: TokenKind) -> bool
    ensures { result ≡ plain.is_comparison (kind_of kind) }
{
    matches!(kind, TokenKind::Op9)
}

/// The type of a literal of this kind. None where it is no kind of a literal.
pub(crate) fn literal_type(kind: TokenKind) -> Option<Plain>
    ensures { option_map plain_of result ≡ plain.literal_type (kind_of kind) }
{
    match kind {
        TokenKind::Int => Some(Plain::Int),
        TokenKind::Str => Some(Plain::Str),
        TokenKind::True => Some(Plain::Bool),
        TokenKind::False => Some(Plain::Bool),
        _ => None,
    }
}

fn is_equal_sign(token: &Token) -> bool
    ensures { result ≡ plain.is_equal_sign (tok_of token.now) }
{
    is_comparison(token.kind) && token.name.is("=")
}

fn is_value(token: &Token) -> bool
    ensures { result ≡ plain.is_value (tok_of token.now) }
{
    literal_type(token.kind).is_some() || is_lower(token.kind)
}

/// Whether the four tokens are an item.
pub(crate) fn is_item(word: &Token, name: &Token, sign: &Token, value: &Token) -> bool
    ensures { result ≡ plain.is_item
        (tok_of word.now) (tok_of name.now) (tok_of sign.now) (tok_of value.now) }
{
    is_let(word.kind) && is_lower(name.kind) && is_equal_sign(sign) && is_value(value)
}
