// What an edit is, and when a text refuses it.
ghost use Rattle.std.specs.Prelude.{◌≡◌, ◌+◌, ◌<◌, ◌≤◌, length, MatchResult, Some, slice_get};
ghost use Rattle.text_model.specs.Edits.{apply, is_inside_char, text_limit, changed, outcome_between, outcome_of};
ghost use Rattle.text_terms.specs.Bytes.{str_bytes};
ghost use Rattle.text_store.specs.Edits.{edit_of, IsRefusal, IsMade};
ghost use Rattle.text_store.specs.Starts.{HasStarts};

use crate::places::find_offset;
use gap_bytes::GapBytes;
use text_terms::{Pos, RcStr};

/// The text from `start` up to `end` is to become `text`.
#[derive(Drop)]
pub struct Edit {
    pub start: Pos,
    pub end: Pos,
    pub text: RcStr,
}

/// Why an edit is refused. `end` tells the edit's end from its start.
#[derive(Clone, Copy, Debug, PartialEq, Eq)]
pub enum TextRefusal {
    /// The line doesn't exist, or the column is past the line's end.
    BadPosition { end: bool },
    /// The start stands behind the end.
    BadRange,
    /// The place is inside a character.
    SplitsChar { end: bool },
    /// The new text would have that many bytes, which are too many.
    TextTooLong { bytes: u64 },
    NoMemory,
}

/// The most bytes that a text may have.
const TEXT_LIMIT: u64 = 1_048_576;

/// The places of an edit's ends, in bytes from 0, or the first refusal that applies.
pub fn places_of(text: &GapBytes, starts: &[u32], edit: &Edit) -> Result<(u32, u32), TextRefusal>
    requires short { length text.now.items ≤ text_limit }
    requires starts { HasStarts text.now.items starts.now }
    ensures { MatchResult result (λ p. IsMade text.now.items (edit_of edit.now) p.0 p.1) (λ r. IsRefusal (outcome_of text.now.items (edit_of edit.now)) r) }
{
    let Some(start) = find_offset(text, starts, edit.start) else {
        return Err(TextRefusal::BadPosition { end: false });
    };
    let Some(end) = find_offset(text, starts, edit.end) else {
        return Err(TextRefusal::BadPosition { end: true });
    };
    check_between(text, start, end, edit.text.as_str().as_bytes())?;
    Ok((start, end))
}

// The refusals that apply to an edit between two places of the text.
fn check_between(text: &GapBytes, start: u32, end: u32, piece: &[u8]) -> Result<(), TextRefusal>
    requires short { length text.now.items ≤ text_limit }
    requires start_within { start ≤ length text.now.items }
    requires end_within { end ≤ length text.now.items }
    ensures { MatchResult result (λ _. outcome_between text.now.items (Some start) (Some end) piece.now ≡ changed start (apply text.now.items start end piece.now)) (λ r. IsRefusal (outcome_between text.now.items (Some start) (Some end) piece.now) r) }
{
    if end < start {
        return Err(TextRefusal::BadRange);
    }
    if is_inside_char_at(text, start) {
        return Err(TextRefusal::SplitsChar { end: false });
    }
    if is_inside_char_at(text, end) {
        return Err(TextRefusal::SplitsChar { end: true });
    }
    let kept = text.len() as u64 - (end - start) as u64;
    // No text in memory is so long that the sum ends.
    let Some(bytes) = kept.checked_add(piece.len() as u64) else {
        return Err(TextRefusal::NoMemory);
    };
    if TEXT_LIMIT < bytes {
        return Err(TextRefusal::TextTooLong { bytes });
    }
    Ok(())
}

// The byte at a place. None at the text's end.
fn byte_at(text: &GapBytes, place: u32) -> Option<u8>
    ensures { result ≡ slice_get text.now.items place }
{
    let (left, right) = text.slices();
    let at = place as usize;
    if at < left.len() {
        Some(left[at])
    } else {
        right.get(at - left.len()).copied()
    }
}

fn is_inside_char_at(text: &GapBytes, place: u32) -> bool
    ensures { result ≡ is_inside_char text.now.items place }
{
    match byte_at(text, place) {
        Some(byte) => 0x80 <= byte && byte < 0xC0,
        None => false,
    }
}
