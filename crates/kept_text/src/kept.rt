// A text, what is kept of it, and what ties both.
ghost use Rattle.std.specs.Prelude.{◌≡◌, ℕ, ◌+◌, ◌≤◌, List, [], length, map, option_map, is_none, is_some, Some, None, IfErr, IfOk, IfSome, OnErr, OnOk};
ghost use Rattle.grammar_model.specs.Named.{named, items_of};
ghost use Rattle.grammar_model.specs.Ocaml as ocaml;
ghost use Rattle.recovery_model.specs.Recovery.{recover};
ghost use Rattle.text_model.specs.Edits.{changed, outcome_of};
ghost use Rattle.token_model.specs.Kinds.{AllWithin, Tok};
ghost use Rattle.token_model.specs.Tokens.{Lex};
ghost use Rattle.syntax_tree.specs.Tallies.{Grows};
ghost use Rattle.syntax_tree.specs.View.{tok_of, trees_of};
ghost use Rattle.frame_steps.specs.Told.{told};
ghost use Rattle.frame_steps.specs.View.{fault_of};
ghost use Rattle.text_store.specs.Edits.{edit_of, IsRefusal};
ghost use Rattle.token_store.specs.Stored.{toks_of};
ghost use Rattle.resume_parser.specs.Kept.{SharesFront};
ghost use Rattle.kept_text.specs.Keeping.{read_behind, shifted_behind, sooner, trees_in};

use crate::again::{front_of, item_count, parse_again, read_again};
use resume_parser::{KeptParse, Parsed};
use std::alloc::Global;
use std::marker::Model;
use syntax_tree::{Counts, NoMemory, Token};
use text_store::{Edit, TextRefusal, TextStore};
use token_store::TokenStore;

/// A text, empty at first, with its tokens and what the parser made of them.
#[derive(Drop)]
pub struct KeptText {
    alloc: Global,
    text: TextStore,
    tokens: TokenStore,
    // None until the text is parsed for the first time
    parse: Option<KeptParse>,
    // the first byte that may differ from what the tokens were read from, or None
    changed: Option<u32>,
    // how many of the first tokens the parser has taken
    same: usize,
    // whether the parser has the tree of the tokens that are kept
    has_tree: bool,
}

impl Model for KeptText {
    ghost use Rattle.kept_text.specs.Keeping.{Kept, IsKept};

    ghost Value = { Kept };

    ghost view = { λ s. record { text = s.text; tokens = s.tokens.tokens; changed = s.changed } };

    ghost invariant = { λ s. IsKept s.text s.tokens.tokens s.parse s.changed s.same s.has_tree };
}

/// The first changed byte once bytes from `first` on are changed.
fn sooner(first: u32, before: Option<u32>) -> u32
    ensures { result ≡ sooner first before }
{
    match before {
        Some(there) if there <= first => there,
        _ => first,
    }
}

impl KeptText {
    /// The empty text. It takes no memory yet.
    pub fn new(alloc: Global) -> KeptText
        ensures text { result.text ≡ [] }
        ensures tokens { result.tokens ≡ [] }
    {
        KeptText {
            alloc,
            text: TextStore::new(alloc),
            tokens: TokenStore::new(alloc),
            parse: None,
            changed: Some(0),
            same: 0,
            has_tree: false,
        }
    }

    /// The present text.
    pub fn text(&self) -> &TextStore
        ensures { result.now ≡ self.now.text }
    {
        &self.text
    }

    /// Makes an edit, and answers the first changed byte. A refused edit changes nothing.
    pub fn apply(&mut self, edit: &Edit) -> Result<u32, TextRefusal>
        ensures done { IfOk result (λ first. outcome_of self.old.text (edit_of edit.now) ≡ changed first self.new.text) }
        ensures noted { IfOk result (λ first. self.new.changed ≡ Some (sooner first self.old.changed)) }
        ensures tokens { self.new.tokens ≡ self.old.tokens }
        ensures refused { IfErr result (λ refusal. (self.new ≡ self.old) × IsRefusal (outcome_of self.old.text (edit_of edit.now)) refusal) }
    {
        let first = self.text.apply(edit)?;
        self.changed = Some(sooner(first, self.changed));
        Ok(first)
    }

    /// Brings the tokens and the tree up to the text: those from the first changed byte on are read and parsed, and at most 32 tokens
    /// that end before it are read once more. After `NoMemory` the next call does what is left. A token that is parsed counts as
    /// shifted once for each time that the parser takes it, and it takes none more than twice; the bound on these holds by any place up
    /// to that byte. Answers how many items at the front are known to be as they were, which are none after a call that failed.
    pub fn refresh<C: Counts>(&mut self, counts: &mut C) -> Result<usize, NoMemory>
        ensures text { self.new.text ≡ self.old.text }
        ensures current { OnOk result (self.new.changed ≡ None) }
        ensures refused { OnErr result (self.new.changed ≡ self.old.changed) }
        ensures front { IfOk result (λ n. SharesFront (trees_in self.old.tokens) (trees_in self.new.tokens) n) }
        ensures work { (from : ℕ) (ts : List Tok) → self.old.changed ≡ Some from → Lex self.old.text ts → (C.tallies counts.new).lexed ≤ (C.tallies counts.old).lexed + read_behind from ts }
        ensures shifted { (from place : ℕ) (ts : List Tok) → self.old.changed ≡ Some from → place ≤ from → Lex self.old.text ts → (C.tallies counts.new).shifted ≤ (C.tallies counts.old).shifted + shifted_behind place ts }
        ensures idle { self.old.changed ≡ None → C.tallies counts.new ≡ C.tallies counts.old }
        ensures untyped { (C.tallies counts.new).typed ≡ (C.tallies counts.old).typed }
        ensures grows { Grows (C.tallies counts.old) (C.tallies counts.new) }
    {
        let Some(from) = self.changed else {
            return Ok(item_count(&self.parse));
        };
        let (left, right) = self.text.slices();
        let had_tree = self.has_tree;
        self.has_tree = false;
        read_again(&mut self.tokens, &mut self.same, left, right, from, counts)?;
        let front = front_of(&self.parse, had_tree, self.same);
        let tokens = self.tokens.tokens();
        parse_again(self.alloc, &mut self.parse, tokens, self.same, counts)?;
        self.same = tokens.len();
        self.changed = None;
        self.has_tree = true;
        Ok(front)
    }

    /// The tokens of the text. None where it was changed since they were brought up to it.
    pub fn tokens(&self) -> Option<&[Token]>
        ensures current { is_some result ≡ is_none self.now.changed }
        ensures lexed { IfSome result (λ ts. Lex self.now.text (map tok_of ts.now)) }
        ensures kept { IfSome result (λ ts. map tok_of ts.now ≡ toks_of self.now.tokens) }
        ensures few { IfSome result (λ ts. length ts.now ≤ 1048576) }
        ensures within { IfSome result (λ ts. AllWithin (length self.now.text) (map tok_of ts.now)) }
    {
        match self.changed {
            None => Some(self.tokens.tokens()),
            Some(_) => None,
        }
    }

    /// The tree of the text, and the parser's faults. None where the text was changed since they were brought up to it.
    pub fn parsed(&self) -> Option<&Parsed>
        ensures current { is_some result ≡ is_none self.now.changed }
        ensures lexed { IfSome result (λ _. Lex self.now.text (toks_of self.now.tokens)) }
        ensures tree { IfSome result (λ p. trees_of p.now.tree ≡ items_of (named ocaml.row_name (recover (ocaml.grammar ocaml.program_text) (toks_of self.now.tokens)).0)) }
        ensures faults { IfSome result (λ p. map fault_of p.now.faults.items ≡ map told (recover (ocaml.grammar ocaml.program_text) (toks_of self.now.tokens)).1) }
    {
        if self.changed.is_some() {
            return None;
        }
        match &self.parse {
            Some(parse) => Some(parse.parsed()),
            None => unreachable!(),
        }
    }
}
