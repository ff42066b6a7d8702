//! Offsets in bytes, and positions as an editor counts them.
ghost use Rattle.std.specs.Prelude.{◌≡◌, ◌+◌, ◌-◌, ◌≤◌, ◌++◌, drop, length};
ghost use Rattle.lsp_model.specs.Positions.{columns_of, column_place, columns_before, continues, line_place, offset_at as offset_spec, position_at as position_spec, text_limit, width};
ghost use Rattle.lsp_positions.specs.Texts.{columns_in, whole};

use crate::halves::{Halves, byte_at, len_of};

/// What a column counts.
#[derive(Clone, Copy, Debug, PartialEq, Eq)]
pub enum Columns {
    /// Units of UTF-16: two where a character has four bytes in UTF-8, and else one.
    Utf16,
    /// Bytes of UTF-8.
    Bytes,
}

/// Whether a byte goes on with a character that has begun.
pub fn is_continuing(byte: u8) -> bool
    ensures { result ≡ continues byte }
{
    128 <= byte && byte < 192
}

/// How many columns a character takes, by its first byte.
fn width_of(byte: u8, by: Columns) -> u32
    ensures value { result ≡ width (columns_in by) byte }
    ensures some { 1 ≤ result }
    ensures few { result ≤ 4 }
{
    match by {
        Columns::Utf16 => if byte < 240 { 1 } else { 2 },
        Columns::Bytes => if byte < 128 {
            1
        } else if byte < 224 {
            2
        } else if byte < 240 {
            3
        } else {
            4
        },
    }
}

/// How many columns a byte adds.
fn columns_added(byte: u8, by: Columns) -> u32
    ensures value { result ≡ columns_of (columns_in by) byte }
    ensures few { result ≤ 4 }
{
    if is_continuing(byte) {
        0
    } else {
        width_of(byte, by)
    }
}

/// Where a line begins; the text's end where the text has no such line.
fn line_start(text: Halves<'_>, line: u32) -> usize
    requires { length (whole text) ≤ text_limit }
    ensures value { result ≡ line_place line (whole text.entry) }
    ensures within { result ≤ length (whole text.entry) }
{
    let mut left = line;
    for at in 0..len_of(text) {
        if left == 0 {
            return at;
        }
        if byte_at(text, at) == b'\n' {
            left -= 1;
        }
    }
    len_of(text)
}

/// The offset of a column of the line that begins at an offset.
fn column_offset(text: Halves<'_>, start: usize, column: u32, by: Columns) -> usize
    requires short { length (whole text) ≤ text_limit }
    requires within { start ≤ length (whole text) }
    ensures value { result ≡ start + column_place (columns_in by) column (drop start (whole text.entry)) }
    ensures end { result ≤ length (whole text.entry) }
{
    let mut left = column;
    for at in start..len_of(text) {
        let byte = byte_at(text, at);
        if byte == b'\n' {
            return at;
        }
        if !is_continuing(byte) {
            let width = width_of(byte, by);
            if left < width {
                return at;
            }
            left -= width;
        }
    }
    len_of(text)
}

/// The offset of a position: after a line's end that end, after the last line the text's end, and inside a character
/// the character's start. The two slices joined are a text.
#[tactic(auto, unfolding(lsp_model::specs::Positions::offset_at))]
pub fn offset_at(left: &[u8], right: &[u8], line: u32, character: u32, by: Columns) -> u32
    requires { length (left.now ++ right.now) ≤ text_limit }
    ensures value { result ≡ offset_spec (columns_in by) line character (left.now ++ right.now) }
    ensures within { result ≤ length (left.now ++ right.now) }
{
    let text = Halves { left, right };
    column_offset(text, line_start(text, line), character, by) as u32
}

/// The position of an offset. For one inside a character it is the position behind the character.
#[tactic(auto, unfolding(lsp_model::specs::Positions::position_at))]
pub fn position_at(left: &[u8], right: &[u8], offset: u32, by: Columns) -> (u32, u32)
    requires { length (left.now ++ right.now) ≤ text_limit }
    ensures { result ≡ position_spec (columns_in by) offset (left.now ++ right.now) }
{
    let text = Halves { left, right };
    let mut line = 0;
    let mut column = 0;
    for at in 0..len_of(text).min(offset as usize) {
        let byte = byte_at(text, at);
        if byte == b'\n' {
            line += 1;
            column = 0;
        } else {
            column += columns_added(byte, by);
        }
    }
    (line, column)
}

/// How many columns lie between two offsets of one line.
pub fn columns_between(left: &[u8], right: &[u8], start: u32, end: u32, by: Columns) -> u32
    requires { length (left.now ++ right.now) ≤ text_limit }
    ensures { result ≡ columns_before (columns_in by) (end - start) (drop start (left.now ++ right.now)) }
{
    let text = Halves { left, right };
    let mut columns = 0;
    for at in start as usize..len_of(text).min(end as usize) {
        columns += columns_added(byte_at(text, at), by);
    }
    columns
}
