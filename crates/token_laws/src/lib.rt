//! Laws of the definitions of a text's tokens.
//! It stands on the definitions of `token_model`, and on the lemmas of `ml_lexer`.
//! No program calls it; a proof may cite `proofs.Ones.lex_one`, which `tokens_are_one` carries, and
//! `proofs.Steadies.reached_steady`, from which `ml_lexer.proofs.SameTokens` gives the laws of lists below.
#![tactic(auto)]

ghost use Rattle.std.specs.Prelude.{◌≡◌, ◌≤◌, ◌+◌, ℕ, List, length, take};
ghost use Rattle.ml_lexer.specs.Reached.{Reached, FirstReached, end_of, reach_of};
ghost use Rattle.ml_lexer.specs.Steady.{AllTokens, IsSteady, steady, ends_at};
ghost use Rattle.token_model.specs.Kinds.{Tok};
ghost use Rattle.token_model.specs.Tokens.{Lex};

/// A text has one list of tokens: two lists that are both those of a text are one.
pub fn tokens_are_one()
    ensures { (text : List ℕ) (ts us : List Tok) → Lex text ts → Lex text us → ts ≡ us }
{}

/// The first token at or behind a place, with its reach, is one; every text with the same bytes before the reach has it;
/// and at most 31 tokens behind it end before the reach.
pub fn reaches_are_steady()
    ensures { IsSteady FirstReached end_of reach_of }
{}

/// Two texts with the same bytes before a place have the same tokens up to the first one whose reach is behind it.
pub fn steady_tokens_are_kept()
    ensures { (place : ℕ) (text other : List ℕ) (ts us : List Reached) → take place text ≡ take place other → AllTokens FirstReached end_of text 0 ts → AllTokens FirstReached end_of other 0 us → steady reach_of place ts ≡ steady reach_of place us }
{}

/// The tokens of a text that aren't before the first one whose reach is behind a place are at most 32 more than those that end at the place or behind.
pub fn few_tokens_are_read_again()
    ensures { (place : ℕ) (text : List ℕ) (ts : List Reached) → AllTokens FirstReached end_of text 0 ts → length ts ≤ length (steady reach_of place ts) + (32 + ends_at end_of place ts) }
{}
