//! Laws of the bounds on the tokens that a session reads and takes.
//! It stands on the definitions of `work_model` and `recovery_model`, on the laws of the parser's table (`grammar_laws`) and on the order of a text's tokens (`ml_lexer`).
//! No program calls it; a proof may cite `proofs/Numbers.antt`, whose facts the functions carry.
#![tactic(auto)]

ghost use Rattle.std.specs.Prelude.{◌<◌, ◌≤◌, ◌-◌, ℕ, All, List, drop, length, take};
ghost use Rattle.token_model.specs.Kinds.{Tok};
ghost use Rattle.token_model.specs.Tokens.{Lex};
ghost use Rattle.work_model.specs.Work.{ends_at, second_behind, shifted_behind, Amount, IsBehind};

/// Where bytes from a place on were changed, the parser takes at most 64 tokens more than twice those that end at the place or after it, or
/// at the start of the item `let` that is open before it or after that.
pub fn few_tokens_are_taken()
    ensures { (text : List ℕ) (place : ℕ) (tokens : List Tok) → Lex text tokens → shifted_behind place tokens ≤ second_behind place tokens }
{}

/// So no more are taken of what a line reads of a text.
pub fn few_tokens_are_taken_of_a_text()
    ensures { (text : List ℕ) (place : ℕ) (n : Amount) (tokens : List Tok) → IsBehind text place n → Lex text tokens → n.shifted ≤ second_behind place tokens }
{}

/// The tokens of a text that end before a place are the first ones, so that what the bounds leave of a text's tokens is what ends before
/// the place.
pub fn tokens_before_a_place_are_the_first()
    ensures { (text : List ℕ) (place : ℕ) (tokens : List Tok) → Lex text tokens → All (λ t. t.end < place) (take (length tokens - ends_at place tokens) tokens) × All (λ t. place ≤ t.end) (drop (length tokens - ends_at place tokens) tokens) }
{}
