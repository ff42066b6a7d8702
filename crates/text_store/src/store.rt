// The text as one value.
ghost use Rattle.std.specs.Prelude.{◌≡◌, ◌≤◌, false, [], ◌++◌, length, Some, MatchResult, OnOk, OnErr, IfOk, IfErr};
ghost use Rattle.std.specs.Str.{IsUtf8};
ghost use Rattle.text_model.specs.Lines.{lines_of};
ghost use Rattle.text_model.specs.Positions.{offset, position_of};
ghost use Rattle.text_model.specs.Edits.{apply, changed, outcome_of, text_limit, is_inside_char};
ghost use Rattle.text_terms.specs.Bytes.{str_bytes};
ghost use Rattle.text_store.specs.Edits.{edit_of, IsRefusal};
ghost use Rattle.text_store.specs.Starts.{HasStarts};

use crate::edits::{Edit, TextRefusal, places_of};
use crate::places::{find_offset, find_position};
use crate::starts::change_starts;
use gap_bytes::GapBytes;
use std::alloc::Global;
use std::marker::Model;
use text_terms::{NoMemory, Pos};

/// The line doesn't exist, or the column is past the line's end.
#[derive(Clone, Copy, Debug, PartialEq, Eq)]
pub struct BadPosition;

/// The present text.
#[derive(Drop)]
pub struct TextStore {
    text: GapBytes,
    // the places behind the line feeds, in order
    starts: Vec<u32>,
    alloc: Global,
}

impl Model for TextStore {
    ghost use Rattle.std.specs.Prelude.{ℕ, List, length, ◌≤◌};
    ghost use Rattle.std.specs.Str.{IsUtf8};
    ghost use Rattle.text_model.specs.Edits.{text_limit};
    ghost use Rattle.text_store.specs.Starts.{HasStarts};

    ghost Value = { List ℕ };

    ghost view = { λ s. s.text.items };

    ghost invariant = { λ s. (length s.text.items ≤ text_limit) × HasStarts s.text.items s.starts.items × IsUtf8 s.text.items };
}

impl TextStore {
    /// The empty text. It takes no memory yet.
    pub fn new(alloc: Global) -> TextStore
        ensures { result ≡ [] }
    {
        TextStore {
            text: GapBytes::new(alloc),
            starts: Vec::new(alloc),
            alloc,
        }
    }

    /// Makes an edit, and answers the offset of its start, which is the first changed byte.
    /// A refusal is the first that applies, in the order of `TextRefusal`, of an end's start before its end.
    /// The text stays at each refusal and at want of memory. It takes time for the edit's text, for the bytes
    /// between it and the last edit, and for the lines that are cut and those behind them.
    pub fn apply(&mut self, edit: &Edit) -> Result<u32, TextRefusal>
        ensures done { IfOk result (λ first. outcome_of self.old (edit_of edit.now) ≡ changed first self.new) }
        ensures refused { IfErr result (λ refusal. (self.new ≡ self.old) × IsRefusal (outcome_of self.old (edit_of edit.now)) refusal) }
    {
        let (start, end) = places_of(&self.text, self.starts.as_slice(), edit)?;
        let piece = edit.text.as_str().as_bytes();
        match change(
            self.alloc,
            &mut self.text,
            &mut self.starts,
            start,
            end,
            piece,
        ) {
            Ok(()) => Ok(start),
            Err(_) => Err(TextRefusal::NoMemory),
        }
    }

    /// The offset of a position, in bytes from 0. It takes no memory and the same time for each text.
    pub fn offset_of(&self, at: Pos) -> Result<u32, BadPosition>
        ensures value { MatchResult result (λ n. offset self.now at.line at.col ≡ Some n) (λ _. offset self.now at.line at.col ≡ None) }
        ensures within { IfOk result (λ n. n ≤ length self.now) }
        ensures back { IfOk result (λ n. position_of self.now n ≡ (at.line, at.col)) }
    {
        find_offset(&self.text, self.starts.as_slice(), at).ok_or(BadPosition)
    }

    /// The position of an offset in bytes. It takes no memory, and time for the logarithm of the number of lines.
    pub fn pos_of(&self, place: u32) -> Pos
        requires { place ≤ length self.now }
        ensures value { (result.line, result.col) ≡ position_of self.now place }
        ensures back { offset self.now result.line result.col ≡ Some place }
    {
        find_position(&self.text, self.starts.as_slice(), place)
    }

    /// How many lines the text has: one more than its line feeds.
    pub fn line_count(&self) -> u32
        ensures { result ≡ length (lines_of self.now) }
    {
        self.starts.len() as u32 + 1
    }

    /// How many bytes the text has.
    pub fn len(&self) -> u32
        ensures { result ≡ length self.now }
    {
        self.text.len()
    }

    /// The text in two parts, the second of which may be empty.
    pub fn slices(&self) -> (&[u8], &[u8])
        ensures text { result.0.now ++ result.1.now ≡ self.now }
        ensures utf8 { IsUtf8 self.now }
        ensures short { length self.now ≤ text_limit }
    {
        self.text.slices()
    }
}

// Makes an edit of a text and of its starts. All growth comes first: at want of memory both stay.
#[tactic(auto, using(crate::proofs::Wholes::apply_utf8))]
fn change(
    alloc: Global,
    text: &mut GapBytes,
    starts: &mut Vec<u32>,
    start: u32,
    end: u32,
    piece: &[u8],
) -> Result<(), NoMemory>
    requires starts { HasStarts text.old.items starts.old.items }
    requires utf8 { IsUtf8 text.old.items × IsUtf8 piece.now }
    requires short { (length text.old.items ≤ text_limit) × (length (apply text.old.items start end piece.now) ≤ text_limit) }
    requires order { (start ≤ end) × (end ≤ length text.old.items) }
    requires whole { (is_inside_char text.old.items start ≡ false) × (is_inside_char text.old.items end ≡ false) }
    ensures done { OnOk result (text.new.items ≡ apply text.old.items start end piece.now) }
    ensures utf8 { IsUtf8 text.new.items }
    ensures starts { HasStarts text.new.items starts.new.items }
    ensures failed { OnErr result (text.new.items ≡ text.old.items) }
{
    text.reserve(piece.len() as u32)?;
    change_starts(alloc, starts, text, start, end, piece)?;
    let _ = text.replace(start, end - start, piece);
    Ok(())
}
