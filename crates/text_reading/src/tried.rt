//! A text that is tried in place of another, with what is kept of it from one such text to the next.
ghost use Rattle.std.specs.Prelude.{◌≡◌, ◌≤◌, [], None, true, length, map, IfOk, OnOk};
ghost use Rattle.text_model.specs.Edits.{text_limit};
ghost use Rattle.fault_model.specs.Refused.{AreOfValues, AreRefused};
ghost use Rattle.syntax_tree.specs.Tallies.{Grows};
ghost use Rattle.syntax_tree.specs.View.{trees_of};
ghost use Rattle.analysis_api.specs.Types.{AreTyped};
ghost use Rattle.analysis_api.specs.Faults.{typer_fault_of};
ghost use Rattle.text_reading.specs.Structures.{IsParsedAs};
ghost use Rattle.text_reading.specs.Trials.{Tries};
ghost use Rattle.text_reading.specs.Types.{has_begun, held, known, known_front, IsOf};

use crate::types::KeptTypes;
use analysis_api::{Analyser, Analysis};
use frame_parser::Parsed;
use kept_text::KeptText;
use std::alloc::{AllocError, Global};
use std::marker::Model;
use syntax_tree::{Counts, NoMemory, Pos, RcStr};
use text_store::{Edit, TextStore};

/// A text that is tried, with its tokens, its tree and its types. One that begins like the one before it is read and typed from where
/// they differ. It is seen as its bytes, whether a typer has begun, whether its tree and types are known, and the items that the typer
/// holds (`Tried`). The known items are those of the tree that is kept, and so many of the first ones that are held as are said to be.
#[derive(Drop)]
pub struct TriedText<A: Analyser> {
    alloc: Global,
    kept: KeptText,
    types: KeptTypes<A>,
}

impl<A: Analyser> Model for TriedText<A> {
    ghost use Rattle.std.specs.Prelude.{is_none, is_some, ◌&&◌};
    ghost use Rattle.std.specs.Coded.{codes};
    ghost use Rattle.kept_text.specs.Keeping.{trees_in};
    ghost use Rattle.text_reading.specs.TreeCodes.{tree_code};
    ghost use Rattle.text_reading.specs.Trials.{tried_code, IsBound, Tried};
    ghost use Rattle.text_reading.specs.Types.{has_begun, held, known, known_front};

    ghost Value = { Tried };

    ghost coded = { tried_code (tree_code (Prim.hlevel codes) (Prim.hlevel codes) (Prim.hlevel codes)) };

    ghost view = { λ t. record { text = t.kept.text; begun = has_begun t.types; ready = is_none t.kept.changed && is_some (known A.items t.types); holds = held A.items t.types } };

    ghost invariant = { λ t. IsBound (trees_in t.kept.tokens) (known A.items t.types) (held A.items t.types) (known_front t.types) };
}

/// How many bytes at the start of two texts are the same.
fn same_front(old: &[u8], new: &[u8]) -> usize
    ensures old { result ≤ length old.now }
    ensures new { result ≤ length new.now }
{
    let most = old.len().min(new.len());
    for k in 0..most {
        if old[k] != new[k] {
            return k;
        }
    }
    most
}

/// Whether a byte stands inside a character.
fn is_inside(byte: Option<&u8>) -> bool {
    match byte {
        Some(byte) => *byte & 0xC0 == 0x80,
        None => false,
    }
}

/// One byte less, where a character that isn't whole ends there in one of them.
fn before_character(old: &[u8], new: &[u8], front: usize) -> usize
    requires old { front ≤ length old.now }
    requires new { front ≤ length new.now }
    ensures less { result ≤ front }
{
    if front > 0 && (is_inside(old.get(front)) || is_inside(new.get(front))) {
        front - 1
    } else {
        front
    }
}

/// The same, up to where a character begins in both; a character has at most four bytes.
fn same_characters(old: &[u8], new: &[u8]) -> usize
    ensures old { result ≤ length old.now }
    ensures new { result ≤ length new.now }
{
    let front = same_front(old, new);
    let front = before_character(old, new, front);
    let front = before_character(old, new, front);
    before_character(old, new, front)
}

/// The edit that puts what is new in a text behind what is as it was. None where this is no text by itself.
fn edit_to(alloc: Global, store: &TextStore, text: &str) -> Result<Option<Edit>, NoMemory> {
    let (old, _) = store.slices();
    let new = text.as_bytes();
    let front = same_characters(old, new);
    let Ok(piece) = std::str::from_utf8(&new[front..]) else {
        return Ok(None);
    };
    Ok(Some(Edit {
        start: store.pos_of(front as u32),
        end: store.pos_of(store.len()),
        text: RcStr::from_str(alloc, piece)?,
    }))
}

impl<A: Analyser> TriedText<A> {
    /// Nothing is tried yet. It takes no memory.
    pub fn new(alloc: Global) -> TriedText<A> {
        TriedText {
            alloc,
            kept: KeptText::new(alloc),
            types: KeptTypes::new(),
        }
    }

    /// Whether the text that is kept is this one.
    fn is_kept(&self, text: &str) -> bool
        ensures { result ≡ true → self.now.text ≡ text.now }
    {
        let (left, right) = self.kept.text().slices();
        right.is_empty() && left == text.as_bytes()
    }

    /// Makes the text that is kept this one, and answers whether it is.
    fn bring(&mut self, text: &str) -> Result<bool, NoMemory>
        ensures text { IfOk result (λ is. is ≡ true → self.new.text ≡ text.now) }
        ensures typer { (self.new.begun ≡ self.old.begun) × (self.new.holds ≡ self.old.holds) }
    {
        if let Some(edit) = edit_to(self.alloc, self.kept.text(), text)? {
            let _ = self.kept.apply(&edit);
        }
        Ok(self.is_kept(text))
    }

    /// Makes the text that is kept this one by an edit of all of it, which is refused for want of memory alone.
    fn replace(&mut self, text: &str) -> Result<(), NoMemory>
        requires short { length text.now ≤ text_limit }
        ensures text { OnOk result (self.new.text ≡ text.now) }
        ensures typer { (self.new.begun ≡ self.old.begun) × (self.new.holds ≡ self.old.holds) }
    {
        let store = self.kept.text();
        let (left, right) = store.slices();
        let edit = Edit {
            start: Pos { line: 1, col: 0 },
            end: store.pos_of((left.len() + right.len()) as u32),
            text: RcStr::from_str(self.alloc, text)?,
        };
        match self.kept.apply(&edit) {
            Ok(_) => Ok(()),
            Err(_) => Err(AllocError),
        }
    }

    /// Makes the text that is kept this one: from the first byte that differs on, where that can be done.
    fn take(&mut self, text: &str) -> Result<(), NoMemory>
        requires short { length text.now ≤ text_limit }
        ensures text { OnOk result (self.new.text ≡ text.now) }
        ensures typer { (self.new.begun ≡ self.old.begun) × (self.new.holds ≡ self.old.holds) }
    {
        if self.bring(text)? {
            return Ok(());
        }
        self.replace(text)
    }

    /// Takes the typer of another text, with the items that it holds; it types those that are tried from then on.
    pub fn borrow_typer(&mut self, types: &mut KeptTypes<A>)
        ensures text { self.new.text ≡ self.old.text }
        ensures given { (self.new.begun ≡ has_begun types.old) × (self.new.holds ≡ held A.items types.old) }
        ensures left { (known A.items types.new ≡ None) × (held A.items types.new ≡ []) × (known_front types.new ≡ 0) }
    {
        self.types = types.hand_over();
    }

    /// Gives that typer back, with the items that it holds. They are those of a text that was tried, and none is known to be one of
    /// another text.
    pub fn return_typer(&mut self) -> KeptTypes<A>
        ensures text { self.new.text ≡ self.old.text }
        ensures given { (has_begun result ≡ self.old.begun) × (held A.items result ≡ self.old.holds) }
        ensures unknown { known A.items result ≡ None }
        ensures front { known_front result ≡ 0 }
    {
        self.types.hand_over()
    }

    /// Reads and types a text, which is the one that is tried from then on. Where the typer has begun, at most 32 tokens more are read
    /// than the text has, and the parser takes none of them more than twice; else the prelude is read too. Nothing is typed, or the first of its items after the longest front of what the
    /// typer held. Both hold after want of memory too.
    pub fn type_text<C: Counts>(&mut self, text: &str, counts: &mut C) -> Result<(), NoMemory>
        requires short { length text.now ≤ text_limit }
        ensures text { OnOk result (self.new.text ≡ text.now) }
        ensures ready { OnOk result (self.new.ready ≡ true) }
        ensures tries { Tries A.opens text.now self.old self.new (C.tallies counts.old) (C.tallies counts.new) }
        ensures grows { Grows (C.tallies counts.old) (C.tallies counts.new) }
    {
        self.take(text)?;
        self.types.outdate();
        self.types.follow(&mut self.kept, counts)?;
        match self.kept.parsed() {
            Some(parsed) => self.types.refresh(self.alloc, &parsed.tree, counts),
            None => unreachable!(),
        }
    }

    /// The tree and the faults of the text that was typed last, and what is found of its types and names.
    pub fn found(&self) -> (&Parsed, Analysis<'_>)
        requires ready { self.now.ready ≡ true }
        ensures parsed { IsParsedAs self.now.text result.0.now }
        ensures found { IsOf A.items A.finds (trees_of result.0.now.tree) result.1 }
        ensures refused { AreOfValues (trees_of result.0.now.tree) → ∥ AreRefused (trees_of result.0.now.tree) (map typer_fault_of result.1.faults.now.list.items) ∥₁ }
        ensures typed { AreOfValues (trees_of result.0.now.tree) → ∥ AreTyped (trees_of result.0.now.tree) result.1 ∥₁ }
    {
        match (self.kept.parsed(), self.types.known()) {
            (Some(parsed), Some(typer)) => (parsed, typer.found()),
            _ => unreachable!(),
        }
    }
}
