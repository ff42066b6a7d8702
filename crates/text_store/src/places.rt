// Places in a text by where its lines start. Nothing here walks over the bytes.
ghost use Rattle.std.specs.Prelude.{◌≡◌, ◌+◌, ◌<◌, ◌≤◌, ◌∷◌, length, Some, slice_index_or};
ghost use Rattle.std.specs.List.Sorted.{IsNonDecreasing};
ghost use Rattle.text_model.specs.Positions.{offset};
ghost use Rattle.text_model.specs.Edits.{text_limit};
ghost use Rattle.text_store.specs.Starts.{HasStarts, PartsAt};

use gap_bytes::GapBytes;
use text_terms::Pos;

/// The offset of a position, or None where the text has no such position. It looks at two starts.
pub fn find_offset(text: &GapBytes, starts: &[u32], at: Pos) -> Option<u32>
    requires short { length text.now.items ≤ text_limit }
    requires starts { HasStarts text.now.items starts.now }
    ensures { result ≡ offset text.now.items at.line at.col }
{
    if at.line == 0 {
        return None;
    }
    let below = (at.line - 1) as usize;
    if starts.len() < below {
        return None;
    }
    let place = line_start(starts, below) as u64 + at.col as u64;
    if place < next_start(text, starts, below) as u64 {
        Some(place as u32)
    } else {
        None
    }
}

/// The position of a place up to the text's end. It halves the starts.
pub fn find_position(text: &GapBytes, starts: &[u32], place: u32) -> Pos
    requires short { length text.now.items ≤ text_limit }
    requires starts { HasStarts text.now.items starts.now }
    requires within { place ≤ length text.now.items }
    ensures { offset text.now.items result.line result.col ≡ Some place }
{
    let below = starts_until(starts, place);
    Pos {
        line: below as u32 + 1,
        col: place - line_start(starts, below),
    }
}

// Where a line starts, by the number of lines before it. The first line has no entry.
fn line_start(starts: &[u32], below: usize) -> u32
    requires { below ≤ length starts.now }
    ensures { result ≡ slice_index_or (0 ∷ starts.now) below 0 }
{
    if below == 0 { 0 } else { starts[below - 1] }
}

// Where the next line starts, or would start behind the text.
fn next_start(text: &GapBytes, starts: &[u32], below: usize) -> u32
    requires { length text.now.items ≤ text_limit }
    ensures { result ≡ slice_index_or starts.now below (length text.now.items + 1) }
{
    starts.get(below).copied().unwrap_or(text.len() + 1)
}

/// How many of the starts are at most `place`.
pub fn starts_until(starts: &[u32], place: u32) -> usize
    requires { IsNonDecreasing starts.now }
    ensures { PartsAt starts.now place result }
{
    starts.partition_point(|start| *start <= place)
}
