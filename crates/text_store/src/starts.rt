// Where the lines start, behind each line feed, and how an edit changes that.
ghost use Rattle.std.specs.Prelude.{◌≡◌, ℕ, ◌+◌, ◌-◌, ◌<◌, ◌≤◌, ◌^◌, ◌++◌, length, take, drop, map, vec_len, IfOk, MatchResult};
ghost use Rattle.text_model.specs.Edits.{apply, text_limit};
ghost use Rattle.text_store.specs.Starts.{starts_from, HasStarts, AllBehind, AllMovable};

use crate::places::starts_until;
use gap_bytes::GapBytes;
use std::alloc::{AllocError, Global};
use text_terms::NoMemory;

/// Where lines start in a piece, the first byte of which is to stand at `at`.
fn starts_in(alloc: Global, piece: &[u8], at: u32) -> Result<Vec<u32>, NoMemory>
    requires { at + length piece.now < 2 ^ 32 }
    ensures { IfOk result (λ v. v.items ≡ starts_from at piece.now) }
{
    let mut starts = Vec::new(alloc);
    for (i, byte) in piece.iter().enumerate() {
        if *byte == b'\n' && starts.push(at + i as u32 + 1).is_err() {
            return Err(AllocError);
        }
    }
    Ok(starts)
}

// Moves starts that stand behind `cut` bytes that go and `added` bytes that come.
fn move_starts(starts: &mut [u32], cut: u32, added: u32)
    requires behind { AllBehind cut starts.old }
    requires room { AllMovable cut added starts.old }
    ensures { starts.new ≡ map (λ t. t - cut + added) starts.old }
{
    for start in starts.iter_mut() {
        *start = *start - cut + added;
    }
}

// Moves the starts from a place in their list on.
fn move_starts_from(starts: &mut Vec<u32>, from: usize, cut: u32, added: u32)
    requires within { from ≤ vec_len starts.old }
    requires behind { AllBehind cut (drop from starts.old.items) }
    requires room { AllMovable cut added (drop from starts.old.items) }
    ensures { starts.new.items ≡ take from starts.old.items ++ map (λ t. t - cut + added) (drop from starts.old.items) }
{
    move_starts(&mut starts.as_mut_slice()[from..], cut, added);
}

// Puts other starts in place of those between two places in their list. At want of memory they stay.
fn put_starts(
    starts: &mut Vec<u32>,
    from: usize,
    to: usize,
    fresh: Vec<u32>,
) -> Result<(), NoMemory>
    requires order { from ≤ to }
    requires within { to ≤ vec_len starts.old }
    ensures { MatchResult result (λ _. starts.new.items ≡ take from starts.old.items ++ (fresh.items ++ drop to starts.old.items)) (λ _. starts.new.items ≡ starts.old.items) }
{
    match starts.splice(from..to, fresh) {
        Ok(_) => Ok(()),
        Err(_) => Err(AllocError),
    }
}

/// Makes the starts of a text those of the text after an edit. At want of memory they stay.
/// It takes time for the piece, and for the lines that are cut and those behind them.
pub fn change_starts(
    alloc: Global,
    starts: &mut Vec<u32>,
    text: &GapBytes,
    start: u32,
    end: u32,
    piece: &[u8],
) -> Result<(), NoMemory>
    requires starts { HasStarts text.now.items starts.old.items }
    requires short { length text.now.items ≤ text_limit }
    requires order { start ≤ end }
    requires within { end ≤ length text.now.items }
    requires room { length (apply text.now.items start end piece.now) ≤ text_limit }
    ensures { MatchResult result (λ _. HasStarts (apply text.now.items start end piece.now) starts.new.items) (λ _. starts.new.items ≡ starts.old.items) }
{
    let from = starts_until(starts.as_slice(), start);
    let to = starts_until(starts.as_slice(), end);
    let fresh = starts_in(alloc, piece, start)?;
    let behind = from + fresh.len();
    put_starts(starts, from, to, fresh)?;
    move_starts_from(starts, behind, end - start, piece.len() as u32);
    Ok(())
}
