//! The prelude, typed.
ghost use Rattle.std.specs.Prelude.{◌≡◌, ◌+◌, ◌≤◌, List, length, IfOk};
ghost use Rattle.token_model.specs.Kinds.{Tok};
ghost use Rattle.token_model.specs.Tokens.{Lex};
ghost use Rattle.grammar_model.specs.Ocaml.{interface_text};
ghost use Rattle.signature_model.specs.Entries.{Environment};
ghost use Rattle.typing_model.specs.PreludeText.{prelude_text};
ghost use Rattle.typing_model.specs.First.{IsFirst};
ghost use Rattle.typing_state.specs.Fresh.{IsNew};
ghost use Rattle.typing_state.specs.Goes.{Goes};
ghost use Rattle.syntax_tree.specs.Tallies.{Grows};
ghost use Rattle.syntax_tree.specs.View.{trees_of};
ghost use Rattle.resume_parser.specs.Kept.{trees_behind};
ghost use Rattle.prelude_checks.specs.Known.{StartsFirst};

use crate::prelude::text;
use module_typing::{Scene, built_ins, type_item};
use prelude_places::of_prelude;
use resume_parser::{KeptParse, Text};
use row_parts::Operand;
use std::alloc::{AllocError, Global};
use syntax_tree::{Counts, Tree};
use token_store::TokenStore;
use typing_state::{Depth, Env, NoMemory, Parts};

/// The tree of the prelude, whose items are those of an interface of its tokens. No more than its own tokens are lexed, and the parser
/// takes each once at most, also where memory runs out.
fn prelude_tree<C: Counts>(alloc: Global, counts: &mut C) -> Result<Tree, NoMemory>
    ensures tree { IfOk result (λ t. (ts : List Tok) → Lex prelude_text ts → trees_of t ≡ trees_behind interface_text ts) }
    ensures grows { Grows (C.tallies counts.old) (C.tallies counts.new) }
    ensures lexed { (ts : List Tok) → Lex prelude_text ts → (C.tallies counts.new).lexed ≤ (C.tallies counts.old).lexed + length ts }
    ensures shifted { (ts : List Tok) → Lex prelude_text ts → (C.tallies counts.new).shifted ≤ (C.tallies counts.old).shifted + length ts }
    ensures untyped { (C.tallies counts.new).typed ≡ (C.tallies counts.old).typed }
{
    let bytes = text().as_bytes();
    if bytes.len() > 1_048_576 {
        return Err(AllocError);
    }
    let mut tokens = TokenStore::new(alloc);
    tokens.relex(bytes, &[], 0, counts)?;
    let mut parse = KeptParse::new(alloc, Text::Signature)?;
    parse.refresh(tokens.tokens(), 0, counts)?;
    Ok(parse.into_parsed().tree)
}

/// The environment after the prelude, whose items are the item 0. Where nothing was typed before, its names are those of the first
/// environment, whatever is chosen.
pub fn with_prelude<C: Counts>(at: &mut Parts, counts: &mut C) -> Result<Env, NoMemory>
    ensures grows { Grows (C.tallies counts.old) (C.tallies counts.new) }
    ensures lexed { (ts : List Tok) → Lex prelude_text ts → (C.tallies counts.new).lexed ≤ (C.tallies counts.old).lexed + length ts }
    ensures shifted { (ts : List Tok) → Lex prelude_text ts → (C.tallies counts.new).shifted ≤ (C.tallies counts.old).shifted + length ts }
    ensures untyped { (C.tallies counts.new).typed ≡ (C.tallies counts.old).typed }
    ensures outside { IfOk result (λ env. IsNew at.old → (first : Environment) → IsFirst first → StartsFirst at.new env first) }
    ensures goes { Goes at.old at.new }
{
    let tree = prelude_tree(at.alloc(), counts)?;
    let env = built_ins(at)?;
    let mut scene = Scene::new(at.alloc(), env);
    let mut number = 0;
    for item in &tree.items {
        type_item(at, Operand::of(item, number), &mut scene, Depth::WHOLE)?;
        number = number.saturating_add(item.size);
    }
    of_prelude(at.alloc(), &scene.env)
}
