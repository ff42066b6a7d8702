//! What holds of the grammar and of the rules for one token: each list of tokens has at most one tree, the rules find it, no token is
//! lost, frames stay well formed, the language's own table meets what is wanted of it, and numbers find what frames find.
//! It stands on the definitions of `grammar_model` and `recovery_model`.
//! No program calls it; `frame_steps`, `recovery_laws` and others cite `proofs/`, and the function carries the law on named trees.
#![tactic(auto)]

ghost use Rattle.std.specs.Prelude.{◌≡◌, List};
ghost use Rattle.token_model.specs.Kinds.{Tok};
ghost use Rattle.tree_model.specs.Trees as plain;
ghost use Rattle.grammar_model.specs.Ocaml.{Text};
ghost use Rattle.grammar_laws.specs.Trees.{IsTreeOf};

/// A list of tokens has at most one tree in the grammar.
pub fn trees_are_one()
    ensures { (text : Text) (ts : List Tok) (T U : plain.Tree) → IsTreeOf text ts T → IsTreeOf text ts U → T ≡ U }
{}
