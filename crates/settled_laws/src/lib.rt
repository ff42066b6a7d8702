//! The laws of the items that are settled: those of which no token that follows changes anything.
//! It stands on the definitions of `recovery_model`.
//! No program calls it; a proof may cite `proofs/Laws.antt`, whose facts the functions carry.
#![tactic(auto)]

ghost use Rattle.std.specs.Prelude.{List, ◌++◌};
ghost use Rattle.token_model.specs.Kinds.{Tok};
ghost use Rattle.grammar_model.specs.Ocaml.{Text};
ghost use Rattle.settled_laws.specs.Settled.{settled_in, trees_in, Begins};

/// Whatever tokens follow, the items that are settled behind some tokens are the first ones that are settled behind all of them.
pub fn settled_items_stay()
    ensures { (text : Text) (ts us : List Tok) → Begins (settled_in text ts) (settled_in text (ts ++ us)) }
{}

/// The items of a text begin with those that are settled behind its first tokens.
pub fn trees_begin_with_settled_items()
    ensures { (text : Text) (ts us : List Tok) → Begins (settled_in text ts) (trees_in text (ts ++ us)) }
{}
