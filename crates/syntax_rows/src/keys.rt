//! Keys: what of a token decides where it may stand.
ghost use Rattle.std.specs.Prelude.{◌≡◌};
ghost use Rattle.grammar_model.specs.Keys.{key_of, spelled_key};
ghost use Rattle.token_model.specs.Kinds.{op13, op12, op9};
ghost use Rattle.syntax_rows.specs.Numbers.{key_number, kind_number};
ghost use Rattle.syntax_tree.specs.View.{tok_of};

use syntax_tree::{Token, TokenKind};

/// A token's kind, or its spelling where a row names one.
#[derive(Clone, Copy, Debug, PartialEq, Eq)]
pub enum Key {
    /// any token of the kind that isn't spelled as below
    Kind(TokenKind),
    /// `*`
    Star,
    /// `-`
    Minus,
    /// `-.`
    MinusPoint,
    /// `=`
    Equal,
}

/// The number of a kind, from 0 in their order.
#[tactic(auto, unfolding(crate::specs::Numbers::kind_number, grammar_model::specs::Keys::kind_key, syntax_tree::specs::Names::kind_of))]
fn number_of_kind(kind: TokenKind) -> u8
    ensures { result ≡ kind_number kind }
{
    kind as u8
}

/// The number by which keys are compared.
pub fn number_of_key(key: Key) -> u8
    ensures { result ≡ key_number key }
{
    match key {
        Key::Kind(kind) => number_of_kind(kind),
        Key::Star => 75,
        Key::Minus => 76,
        Key::MinusPoint => 77,
        Key::Equal => 78,
    }
}

impl Key {
    /// The key of a token.
    pub fn of(token: &Token) -> Key
        ensures { key_number result ≡ key_of (tok_of token.now) }
    {
        let name = token.name.as_str();
        match token.kind {
            TokenKind::Op13 => key_of_op13(name),
            TokenKind::Op12 => key_of_op12(name),
            TokenKind::Op9 => key_of_op9(name),
            kind => Key::Kind(kind),
        }
    }
}

/// `*` stands apart from the operators of its level.
#[tactic(auto, unfolding(crate::specs::Numbers::kind_number, grammar_model::specs::Keys::kind_key, syntax_tree::specs::Names::kind_of))]
fn key_of_op13(name: &str) -> Key
    ensures { key_number result ≡ spelled_key op13 name.now }
{
    if name == "*" {
        Key::Star
    } else {
        Key::Kind(TokenKind::Op13)
    }
}

/// `-` and `-.` stand apart from the operators of their level.
#[tactic(auto, unfolding(crate::specs::Numbers::kind_number, grammar_model::specs::Keys::kind_key, syntax_tree::specs::Names::kind_of))]
fn key_of_op12(name: &str) -> Key
    ensures { key_number result ≡ spelled_key op12 name.now }
{
    if name == "-" {
        Key::Minus
    } else if name == "-." {
        Key::MinusPoint
    } else {
        Key::Kind(TokenKind::Op12)
    }
}

/// `=` stands apart from the operators of its level.
#[tactic(auto, unfolding(crate::specs::Numbers::kind_number, grammar_model::specs::Keys::kind_key, syntax_tree::specs::Names::kind_of))]
fn key_of_op9(name: &str) -> Key
    ensures { key_number result ≡ spelled_key op9 name.now }
{
    if name == "=" {
        Key::Equal
    } else {
        Key::Kind(TokenKind::Op9)
    }
}
