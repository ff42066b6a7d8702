//! Holes, and what stands in front of a term in place of one.
ghost use Rattle.std.specs.Prelude.{◌≡◌, option_map};
ghost use Rattle.syntax_tree.specs.Names.{row_of};
ghost use Rattle.construct_terms.specs.Wanted.{hole_in, hole_of, goes_on, blank_before, in_front};

use syntax_tree::RowName;

/// What a hole is.
#[derive(Clone, Copy)]
pub(crate) enum Hole {
    /// _
    Written,
    Missing,
}

#[tactic(auto, unfolding(crate::specs::Wanted::hole_in, syntax_tree::specs::Names::row_of))]
fn hole_in(row: RowName) -> Option<Hole>
    ensures { result ≡ hole_in (row_of row) }
{
    match row {
        RowName::Hole => Some(Hole::Written),
        _ => None,
    }
}

/// The hole that a typed node of this row is; a missing one has no row. None where it is no hole.
pub(crate) fn hole_of(row: Option<RowName>) -> Option<Hole>
    ensures { result ≡ hole_of (option_map row_of row) }
{
    match row {
        Some(row) => hole_in(row),
        None => Some(Hole::Missing),
    }
}

/// Whether a byte goes on with a name or a numeral.
fn goes_on(byte: u8) -> bool
    ensures { result ≡ goes_on byte }
{
    matches!(byte, b'a'..=b'z' | b'A'..=b'Z' | b'0'..=b'9' | b'_' | b'\'')
}

/// What stands in front of a term at a place: one blank where the byte before would go on with it.
fn blank_before(text: &[u8], place: u32) -> &'static str
    ensures { result.now ≡ blank_before text.now place }
{
    let Some(before) = place.checked_sub(1) else {
        return "";
    };
    match text.get(before as usize) {
        Some(byte) if goes_on(*byte) => " ",
        _ => "",
    }
}

/// What stands in front of a term in place of a hole.
pub(crate) fn in_front(text: &[u8], place: u32, hole: Hole) -> &'static str
    ensures { result.now ≡ in_front text.now place hole }
{
    match hole {
        Hole::Written => "",
        Hole::Missing => blank_before(text, place),
    }
}
