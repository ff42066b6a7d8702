//! How the types and names of a text are found and kept.
ghost use Rattle.std.specs.Prelude.{◌≡◌, ◌+◌, ◌-◌, ◌≤◌, ℕ, List, [], None, Some, false, true, is_some, length, map, min, take, option_map, IfOk, IfSome, OnErr, OnOk};
ghost use Rattle.token_model.specs.Kinds.{Tok};
ghost use Rattle.token_model.specs.Tokens.{Lex};
ghost use Rattle.fault_model.specs.Refused.{AreOfValues, AreRefused};
ghost use Rattle.syntax_tree.specs.Tallies.{Grows};
ghost use Rattle.syntax_tree.specs.View.{trees_of};
ghost use Rattle.analysis_api.specs.Types.{AreTyped, AreSettled};
ghost use Rattle.analysis_api.specs.Typed.{more_typed, GoesOn, LongestFront, SameFront};
ghost use Rattle.analysis_api.specs.Faults.{typer_fault_of};
ghost use Rattle.kept_text.specs.Keeping.{read_behind, shifted_behind, trees_in};
ghost use Rattle.text_reading.specs.Types.{has_begun, held, holds_in, items_in, known, known_front, opening, IsOf};

use crate::types::{Found, KeptTypes};
use analysis_api::{Analyser, Analysis};
use kept_text::KeptText;
use std::alloc::Global;
use std::mem;
use syntax_tree::{Counts, NoMemory, Tree};

impl<'a, A: Analyser> Found<'a, A> {
    /// What was found.
    pub fn analysis(&self) -> Analysis<'_>
        ensures found { IsOf A.items A.finds (items_in A.items self.now) result }
        ensures refused { AreOfValues (items_in A.items self.now) → ∥ AreRefused (items_in A.items self.now) (map typer_fault_of result.faults.now.list.items) ∥₁ }
        ensures typed { AreOfValues (items_in A.items self.now) → ∥ AreTyped (items_in A.items self.now) result ∥₁ }
        ensures settled { holds_in A.is_settled self.now → AreOfValues (items_in A.items self.now) → ∥ AreSettled (items_in A.items self.now) result ∥₁ }
    {
        match self {
            Found::Kept(typer) => typer.found(),
            Found::New(typer) => typer.found(),
        }
    }
}

/// A typer that has found the types and names of a text with this tree, from nothing.
pub fn analysed<A: Analyser, C: Counts>(
    alloc: Global,
    tree: &Tree,
    counts: &mut C,
) -> Result<A, NoMemory>
    ensures items { IfOk result (λ a. A.items a ≡ trees_of tree.now) }
    ensures settled { IfOk result (λ a. A.is_settled a) }
    ensures grows { Grows (C.tallies counts.old) (C.tallies counts.new) }
{
    let mut typer = A::new(alloc, counts)?;
    typer.refresh(tree, 0, counts)?;
    Ok(typer)
}

/// A typer that holds the items of this tree: the one that knows them already, and else a new one.
pub fn find_types<'a, A: Analyser, C: Counts>(
    alloc: Global,
    known: Option<&'a A>,
    tree: &Tree,
    counts: &mut C,
) -> Result<Found<'a, A>, NoMemory>
    requires known { IfSome known (λ a. A.items a.now ≡ trees_of tree.now) }
    ensures items { IfOk result (λ f. items_in A.items f ≡ trees_of tree.now) }
    ensures settled { IfSome known.entry (λ a. A.is_settled a.now) → IfOk result (λ f. holds_in A.is_settled f) }
    ensures idle { is_some known.entry ≡ true → C.tallies counts.new ≡ C.tallies counts.old }
    ensures grows { Grows (C.tallies counts.old) (C.tallies counts.new) }
{
    match known {
        Some(typer) => Ok(Found::Kept(typer)),
        None => Ok(Found::New(analysed(alloc, tree, counts)?)),
    }
}

impl<A: Analyser> KeptTypes<A> {
    /// Nothing is found yet. It takes no memory.
    pub fn new() -> KeptTypes<A>
        ensures none { held A.items result ≡ [] }
        ensures unknown { known A.items result ≡ None }
        ensures begun { has_begun result ≡ false }
        ensures front { known_front result ≡ 0 }
    {
        KeptTypes {
            typer: None,
            is_current: false,
            front: 0,
        }
    }

    /// The text has changed, so that what is found is not that of the present text.
    pub fn outdate(&mut self)
        ensures unknown { known A.items self.new ≡ None }
        ensures stays { held A.items self.new ≡ held A.items self.old }
        ensures begun { has_begun self.new ≡ has_begun self.old }
        ensures front { known_front self.new ≡ known_front self.old }
    {
        self.is_current = false;
    }

    /// The tree has changed but for so many items at its front.
    fn narrow(&mut self, front: usize)
        ensures known { known A.items self.new ≡ known A.items self.old }
        ensures stays { held A.items self.new ≡ held A.items self.old }
        ensures begun { has_begun self.new ≡ has_begun self.old }
        ensures front { known_front self.new ≡ min (known_front self.old) front }
    {
        self.front = self.front.min(front);
    }

    /// Gives the typer away, with the items that it holds. None of these is known to be one of the tree of the text that it goes to.
    pub fn hand_over(&mut self) -> KeptTypes<A>
        ensures unknown { known A.items result ≡ None }
        ensures given { held A.items result ≡ held A.items self.old }
        ensures begun { has_begun result ≡ has_begun self.old }
        ensures front { known_front result ≡ 0 }
        ensures left { (known A.items self.new ≡ None) × (held A.items self.new ≡ []) × (known_front self.new ≡ 0) }
    {
        let mut types = mem::replace(self, KeptTypes::new());
        types.outdate();
        types.narrow(0);
        types
    }

    /// Brings the tokens and the tree of the typer's text up to it, and notes how many of the typer's items are still those of the tree.
    /// Nothing is typed. After `NoMemory` the next call does what is left.
    pub fn follow<C: Counts>(&mut self, kept: &mut KeptText, counts: &mut C) -> Result<(), NoMemory>
        requires front { SameFront (held A.items self.old) (trees_in kept.old.tokens) (known_front self.old) }
        ensures front { SameFront (held A.items self.new) (trees_in kept.new.tokens) (known_front self.new) }
        ensures known { known A.items self.new ≡ known A.items self.old }
        ensures stays { held A.items self.new ≡ held A.items self.old }
        ensures begun { has_begun self.new ≡ has_begun self.old }
        ensures text { kept.new.text ≡ kept.old.text }
        ensures current { OnOk result (kept.new.changed ≡ None) }
        ensures refused { OnErr result (kept.new.changed ≡ kept.old.changed) }
        ensures work { (from : ℕ) (ts : List Tok) → kept.old.changed ≡ Some from → Lex kept.old.text ts → (C.tallies counts.new).lexed ≤ (C.tallies counts.old).lexed + read_behind from ts }
        ensures shifted { (from place : ℕ) (ts : List Tok) → kept.old.changed ≡ Some from → place ≤ from → Lex kept.old.text ts → (C.tallies counts.new).shifted ≤ (C.tallies counts.old).shifted + shifted_behind place ts }
        ensures idle { kept.old.changed ≡ None → C.tallies counts.new ≡ C.tallies counts.old }
        ensures untyped { (C.tallies counts.new).typed ≡ (C.tallies counts.old).typed }
        ensures grows { Grows (C.tallies counts.old) (C.tallies counts.new) }
    {
        match kept.refresh(counts) {
            Ok(front) => {
                self.narrow(front);
                Ok(())
            }
            Err(short) => {
                self.narrow(0);
                Err(short)
            }
        }
    }

    /// The typer, where what it found is that of the present text.
    pub fn known(&self) -> Option<&A>
        ensures known { option_map (λ a. A.items a.now) result ≡ known A.items self.now }
        ensures settled { ∥ IfSome result (λ a. A.is_settled a.now) ∥₁ }
    {
        if self.is_current {
            self.typer.as_ref()
        } else {
            None
        }
    }

    /// The typer, or a new one where there is none.
    fn take<C: Counts>(&mut self, alloc: Global, counts: &mut C) -> Result<A, NoMemory>
        ensures taken { IfOk result (λ a. A.items a ≡ held A.items self.old) }
        ensures failed { OnErr result (held A.items self.new ≡ []) }
        ensures untyped { (C.tallies counts.new).typed ≡ (C.tallies counts.old).typed }
        ensures unknown { known A.items self.new ≡ None }
        ensures lexed { (ts : List Tok) → Lex A.opens ts → (C.tallies counts.new).lexed ≤ (C.tallies counts.old).lexed + opening (length ts) (has_begun self.old) }
        ensures shifted { (ts : List Tok) → Lex A.opens ts → (C.tallies counts.new).shifted ≤ (C.tallies counts.old).shifted + opening (length ts) (has_begun self.old) }
        ensures fails { OnErr result (has_begun self.old ≡ false) }
        ensures front { known_front self.new ≡ known_front self.old }
        ensures grows { Grows (C.tallies counts.old) (C.tallies counts.new) }
    {
        self.outdate();
        match self.typer.take() {
            Some(typer) => Ok(typer),
            None => A::new(alloc, counts),
        }
    }

    /// Brings what is found up to a text with this tree: the items at the front that are as they were stay, and the others are
    /// typed. After `NoMemory` it holds those that stay and some after them, which were typed, and the next call does what is left. It lexes
    /// and parses nothing but the prelude, until a typer has begun. The items that are known to be those of the tree aren't compared.
    pub fn refresh<C: Counts>(
        &mut self,
        alloc: Global,
        tree: &Tree,
        counts: &mut C,
    ) -> Result<(), NoMemory>
        requires front { SameFront (held A.items self.old) (trees_of tree.now) (known_front self.old) }
        ensures known { OnOk result (known A.items self.new ≡ Some (trees_of tree.now)) }
        ensures front { SameFront (held A.items self.new) (trees_of tree.now) (known_front self.new) }
        ensures typed { OnOk result ((n : ℕ) × LongestFront (held A.items self.old) (trees_of tree.now) n × ((C.tallies counts.new).typed ≡ more_typed (length tree.now.items.items - n) (C.tallies counts.old).typed)) }
        ensures unknown { OnErr result (known A.items self.new ≡ None) }
        ensures failed { OnErr result (GoesOn (held A.items self.old) (trees_of tree.now) (held A.items self.new) (C.tallies counts.old).typed (C.tallies counts.new).typed) }
        ensures lexed { (ts : List Tok) → Lex A.opens ts → (C.tallies counts.new).lexed ≤ (C.tallies counts.old).lexed + opening (length ts) (has_begun self.old) }
        ensures shifted { (ts : List Tok) → Lex A.opens ts → (C.tallies counts.new).shifted ≤ (C.tallies counts.old).shifted + opening (length ts) (has_begun self.old) }
        ensures begun { OnOk result (has_begun self.new ≡ true) }
        ensures stays_begun { has_begun self.old ≡ true → has_begun self.new ≡ true }
        ensures grows { Grows (C.tallies counts.old) (C.tallies counts.new) }
    {
        let mut typer = self.take(alloc, counts)?;
        let answer = typer.refresh(tree, self.front, counts);
        self.is_current = answer.is_ok();
        if self.is_current {
            self.front = tree.items.len();
        }
        self.typer = Some(typer);
        answer
    }
}
