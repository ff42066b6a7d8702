//! The laws of the parser's trees and faults, whatever the tokens are, and that texts without a fault know nothing of unfinished items.
//! It stands on the definitions of `recovery_model`, and on the theorems of `grammar_model`.
//! No program calls it; a proof may cite `proofs/Laws.antt` and `proofs/Promises.antt`, whose facts the functions carry.
#![tactic(auto)]

ghost use Rattle.std.specs.Prelude.{◌≡◌, ◌≤◌, List, []};
ghost use Rattle.token_model.specs.Kinds.{Tok};
ghost use Rattle.tree_model.specs.Trees as plain;
ghost use Rattle.tree_model.specs.Extents.{extent_of};
ghost use Rattle.grammar_model.specs.Named.{named};
ghost use Rattle.grammar_model.specs.Ocaml.{Text, grammar, row_name};
ghost use Rattle.recovery_model.specs.Steps as rules;
ghost use Rattle.recovery_model.specs.Steps.{Merged, left_out, added_in};
ghost use Rattle.grammar_laws.specs.Trees.{IsTreeOf, holes_of};
ghost use Rattle.recovery_model.specs.Recovery.{recover};

/// Where a list of tokens has a tree in the grammar, the parser gives it and reports nothing.
pub fn trees_are_recovered()
    ensures { (text : Text) (ts : List Tok) (T : plain.Tree) → IsTreeOf text ts T → (T ≡ named row_name (recover (grammar text) ts).0) × ((recover (grammar text) ts).1 ≡ []) }
{}

/// Where the parser reports nothing, its tree is in the grammar.
pub fn faultless_trees_are_in_the_grammar()
    ensures { (text : Text) (ts : List Tok) → (recover (grammar text) ts).1 ≡ [] → IsTreeOf text ts (named row_name (recover (grammar text) ts).0) }
{}

/// Whatever the tokens are: they are those of the parser's tree and those that its faults leave out, in order, and the faults count
/// the missing parts.
pub fn no_token_is_lost()
    ensures { (text : Text) (ts : List Tok) → Merged ts (plain.yield_of (named row_name (recover (grammar text) ts).0)) (left_out (recover (grammar text) ts).1) × (holes_of (named row_name (recover (grammar text) ts).0) ≡ added_in (recover (grammar text) ts).1) }
{}

/// Whatever the tokens are, the parser's tree is at most 512 high.
pub fn trees_are_low()
    ensures { (text : Text) (ts : List Tok) → (extent_of (named row_name (recover (grammar text) ts).0)).height ≤ 512 }
{}

/// Where the rules for one token report nothing over the whole text, the parser gives their tree and reports nothing:
/// what is done with unfinished items changes no text without a fault.
pub fn faultless_texts_are_unchanged()
    ensures { (text : Text) (ts : List Tok) → (rules.recover (grammar text) ts).1 ≡ [] → recover (grammar text) ts ≡ rules.recover (grammar text) ts }
{}

/// Where the parser reports nothing, the rules for one token report nothing: a text with a fault still has one.
pub fn faulty_texts_stay_faulty()
    ensures { (text : Text) (ts : List Tok) → (recover (grammar text) ts).1 ≡ [] → (rules.recover (grammar text) ts).1 ≡ [] }
{}
