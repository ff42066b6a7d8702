//! A text as its tree and its faults, and as a plain text where it is one.
ghost use Rattle.std.specs.Prelude.{◌≡◌, ◌<◌, ◌-◌, ◌^◌, ◌&&◌, None, is_some, length, map, option_map, IfOk, IfSome};
ghost use Rattle.std.specs.List.{list_all};
ghost use Rattle.tree_model.specs.Trees.{AreItemsSized};
ghost use Rattle.plain_model.specs.Plain.{plain_text};
ghost use Rattle.service_model.specs.WellTyped as model;
ghost use Rattle.service_model.specs.WellTyped.{is_short, is_well_typed};
ghost use Rattle.syntax_tree.specs.Names.{kind_of};
ghost use Rattle.syntax_tree.specs.Tallies.{Grows};
ghost use Rattle.syntax_tree.specs.View.{tok_of, trees_of};
ghost use Rattle.text_reading.specs.PlainTexts.{plain_of, IsReadAs};

use crate::plain::{PlainText, read_plain};
use crate::structure::ParsedText;
use frame_parser::{Text, parse};
use kept_text::KeptText;
use ml_lexer::lex_all;
use std::alloc::Global;
use syntax_tree::{Counts, NoMemory, Token, TokenKind};
use text_store::TextStore;

/// What a text is read as.
#[derive(Drop)]
pub struct ReadText<'a> {
    pub parsed: ParsedText<'a>,
    /// None where it is no plain text.
    pub plain: Option<PlainText>,
    /// Whether it is a plain text in which no type is wrong.
    pub is_well_typed: bool,
}

/// Reads a text: what is kept of it, where that is of the present text, and else all of it anew.
pub fn read_text<'a, C: Counts>(
    alloc: Global,
    kept: &'a KeptText,
    counts: &mut C,
) -> Result<ReadText<'a>, NoMemory>
    ensures read { IfOk result (λ r. IsReadAs kept.now.text r) }
    ensures sized { IfOk result (λ r. IfSome r.plain (λ p. AreItemsSized (trees_of p.tree) × (length (trees_of p.tree) < 2 ^ 32 - 1))) }
    ensures idle { kept.now.changed ≡ None → C.tallies counts.new ≡ C.tallies counts.old }
    ensures grows { Grows (C.tallies counts.old) (C.tallies counts.new) }
{
    let Some(parsed) = kept.parsed() else {
        return read_anew(alloc, kept.text(), counts);
    };
    match kept.tokens() {
        Some(tokens) => read_tokens(alloc, tokens, ParsedText::Kept(parsed)),
        None => read_anew(alloc, kept.text(), counts),
    }
}

/// Reads the store's text from nothing.
fn read_anew<'a, C: Counts>(
    alloc: Global,
    store: &TextStore,
    counts: &mut C,
) -> Result<ReadText<'a>, NoMemory>
    ensures read { IfOk result (λ r. IsReadAs store.now r) }
    ensures sized { IfOk result (λ r. IfSome r.plain (λ p. AreItemsSized (trees_of p.tree) × (length (trees_of p.tree) < 2 ^ 32 - 1))) }
    ensures grows { Grows (C.tallies counts.old) (C.tallies counts.new) }
{
    let (left, right) = store.slices();
    let tokens = lex_all(alloc, left, right, counts)?;
    let parsed = parse(alloc, Text::Program, &tokens, counts)?;
    read_tokens(alloc, &tokens, ParsedText::New(parsed))
}

/// What tokens are read as that are parsed already.
#[tactic(auto, unfolding(service_model::specs::WellTyped::is_well_typed))]
fn read_tokens<'a>(
    alloc: Global,
    tokens: &[Token],
    parsed: ParsedText<'a>,
) -> Result<ReadText<'a>, NoMemory>
    requires few { length tokens.now < 2 ^ 32 - 1 }
    ensures parsed { IfOk result (λ r. r.parsed ≡ parsed.entry) }
    ensures plain { IfOk result (λ r. option_map plain_of r.plain ≡ plain_text (map tok_of tokens.now)) }
    ensures well_typed { IfOk result (λ r. r.is_well_typed ≡ is_well_typed (map tok_of tokens.now)) }
    ensures sized { IfOk result (λ r. IfSome r.plain (λ p. AreItemsSized (trees_of p.tree) × (length (trees_of p.tree) < 2 ^ 32 - 1))) }
{
    let plain = read_plain(alloc, tokens)?;
    let is_well_typed = plain.is_some() && are_short(tokens);
    Ok(ReadText {
        parsed,
        plain,
        is_well_typed,
    })
}

#[tactic(auto, unfolding(service_model::specs::WellTyped::is_int, syntax_tree::specs::Names::kind_of))]
fn is_int(kind: TokenKind) -> bool
    ensures { result ≡ model.is_int (kind_of kind) }
{
    matches!(kind, TokenKind::Int)
}

/// Whether a token is no numeral, or one of so few bytes that its number is in the range of integers.
fn is_short(token: &Token) -> bool
    ensures { result ≡ is_short (tok_of token.now) }
{
    !is_int(token.kind) || token.name.as_str().len() <= 17
}

fn are_short(tokens: &[Token]) -> bool
    ensures { result ≡ list_all is_short (map tok_of tokens.now) }
{
    for token in tokens {
        if !is_short(token) {
            return false;
        }
    }
    true
}
