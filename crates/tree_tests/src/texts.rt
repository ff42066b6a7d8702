//! Changes of a list of bytes, edits of a text at every place, and the places of its positions.
use crate::verdict::{none_wrong, wrong_unless};
use gap_bytes::GapBytes;
use std::alloc::Global;
use std::test::Fail;
use text_store::{Edit, TextRefusal, TextStore};
use text_terms::{NoMemory, Pos, RcStr};

/// Where an edit begins, or that it is refused.
type Outcome = Result<u32, TextRefusal>;

/// An edit by its start, its end and its text, what it gives, and the text after it.
type EditRow = ((u32, u32), (u32, u32), &'static str, Outcome, &'static str);

const TEXT: &str = "a\né€\n\n😀b";

const NO_START: Outcome = Err(TextRefusal::BadPosition { end: false });

const NO_END: Outcome = Err(TextRefusal::BadPosition { end: true });

const START_IN_CHAR: Outcome = Err(TextRefusal::SplitsChar { end: false });

const END_IN_CHAR: Outcome = Err(TextRefusal::SplitsChar { end: true });

/// Edits of `TEXT`.
const EDITS: [EditRow; 34] = [
    ((0, 0), (0, 0), "x", NO_START, TEXT),
    ((0, 1), (0, 1), "x", NO_START, TEXT),
    ((1, 0), (1, 0), "x", Ok(0), "xa\né€\n\n😀b"),
    ((1, 1), (1, 1), "x", Ok(1), "ax\né€\n\n😀b"),
    ((1, 2), (1, 2), "x", NO_START, TEXT),
    ((2, 0), (2, 0), "x", Ok(2), "a\nxé€\n\n😀b"),
    ((2, 1), (2, 1), "x", START_IN_CHAR, TEXT),
    ((2, 2), (2, 2), "x", Ok(4), "a\néx€\n\n😀b"),
    ((2, 3), (2, 3), "x", START_IN_CHAR, TEXT),
    ((2, 4), (2, 4), "x", START_IN_CHAR, TEXT),
    ((2, 5), (2, 5), "x", Ok(7), "a\né€x\n\n😀b"),
    ((2, 6), (2, 6), "x", NO_START, TEXT),
    ((3, 0), (3, 0), "x", Ok(8), "a\né€\nx\n😀b"),
    ((3, 1), (3, 1), "x", NO_START, TEXT),
    ((4, 0), (4, 0), "x", Ok(9), "a\né€\n\nx😀b"),
    ((4, 1), (4, 1), "x", START_IN_CHAR, TEXT),
    ((4, 2), (4, 2), "x", START_IN_CHAR, TEXT),
    ((4, 3), (4, 3), "x", START_IN_CHAR, TEXT),
    ((4, 4), (4, 4), "x", Ok(13), "a\né€\n\n😀xb"),
    ((4, 5), (4, 5), "x", Ok(14), "a\né€\n\n😀bx"),
    ((4, 6), (4, 6), "x", NO_START, TEXT),
    ((5, 0), (5, 0), "x", NO_START, TEXT),
    ((5, 1), (5, 1), "x", NO_START, TEXT),
    ((9, 0), (0, 0), "x", NO_START, TEXT),
    ((2, 1), (9, 0), "x", NO_END, TEXT),
    ((4, 0), (2, 1), "x", Err(TextRefusal::BadRange), TEXT),
    ((2, 1), (2, 3), "x", START_IN_CHAR, TEXT),
    ((2, 0), (2, 3), "x", END_IN_CHAR, TEXT),
    ((1, 0), (4, 2), "x", END_IN_CHAR, TEXT),
    ((1, 1), (2, 0), "", Ok(1), "aé€\n\n😀b"),
    ((2, 0), (2, 5), "\n\n", Ok(2), "a\n\n\n\n\n😀b"),
    ((1, 0), (4, 5), "", Ok(0), ""),
    ((2, 2), (4, 4), "é\n", Ok(4), "a\néé\nb"),
    ((3, 0), (4, 0), "\n\n€", Ok(8), "a\né€\n\n\n€😀b"),
];

/// The name of a place, its line, its column and its offset.
type PlaceRow = (&'static str, u32, u32, u32);

/// The places of `TEXT` in order.
const PLACES: [PlaceRow; 15] = [
    ("1:0", 1, 0, 0),
    ("1:1", 1, 1, 1),
    ("2:0", 2, 0, 2),
    ("2:1", 2, 1, 3),
    ("2:2", 2, 2, 4),
    ("2:3", 2, 3, 5),
    ("2:4", 2, 4, 6),
    ("2:5", 2, 5, 7),
    ("3:0", 3, 0, 8),
    ("4:0", 4, 0, 9),
    ("4:1", 4, 1, 10),
    ("4:2", 4, 2, 11),
    ("4:3", 4, 3, 12),
    ("4:4", 4, 4, 13),
    ("4:5", 4, 5, 14),
];

fn pos((line, col): (u32, u32)) -> Pos {
    Pos { line, col }
}

/// What an edit gives.
fn edited(
    alloc: Global,
    store: &mut TextStore,
    start: (u32, u32),
    end: (u32, u32),
    text: &str,
) -> Result<Outcome, NoMemory> {
    let edit = Edit {
        start: pos(start),
        end: pos(end),
        text: RcStr::from_str(alloc, text)?,
    };
    Ok(store.apply(&edit))
}

/// Whether an edit up to a column of the first line gives this, with that length after it.
fn gives(
    alloc: Global,
    store: &mut TextStore,
    (col, text, outcome, bytes): (u32, &str, Outcome, u32),
) -> bool {
    edited(alloc, store, (1, 0), (1, col), text) == Ok(outcome) && store.len() == bytes
}

/// Whether two slices joined are this text.
fn are_joined((left, right): (&[u8], &[u8]), text: &str) -> bool {
    match text.as_bytes().strip_prefix(left) {
        Some(rest) => right == rest,
        None => false,
    }
}

fn holds(store: &TextStore, text: &str) -> bool {
    are_joined(store.slices(), text)
}

fn is_edited(alloc: Global, (start, end, text, outcome, after): EditRow) -> bool {
    let mut store = TextStore::new(alloc);
    gives(alloc, &mut store, (0, TEXT, Ok(0), 14))
        && edited(alloc, &mut store, start, end, text) == Ok(outcome)
        && holds(&store, after)
}

/// The text after the first edit that is wrong.
fn wrong_edit(alloc: Global) -> Option<&'static str> {
    for row in &EDITS {
        if !is_edited(alloc, *row) {
            return Some(row.4);
        }
    }
    None
}

#[test]
fn edits_at_every_place(rt: HostRuntime) -> Result<(), Fail> {
    none_wrong(wrong_edit(rt.alloc()))
}

/// Whether a position of `TEXT` has this offset, and the offset this position.
fn is_place(alloc: Global, (_, line, col, place): PlaceRow) -> bool {
    let mut store = TextStore::new(alloc);
    let at = Pos { line, col };
    gives(alloc, &mut store, (0, TEXT, Ok(0), 14))
        && store.line_count() == 4
        && store.offset_of(at) == Ok(place)
        && place <= store.len()
        && store.pos_of(place) == at
}

fn wrong_place(alloc: Global) -> Option<&'static str> {
    for row in &PLACES {
        if !is_place(alloc, *row) {
            return Some(row.0);
        }
    }
    None
}

#[test]
fn positions_of_every_place(rt: HostRuntime) -> Result<(), Fail> {
    none_wrong(wrong_place(rt.alloc()))
}

/// Whether a text of the greatest length is taken.
fn takes_longest(alloc: Global, store: &mut TextStore) -> bool {
    let Ok(blanks) = vec![in alloc; b' '; 1_048_576] else {
        return false;
    };
    match str::from_utf8(&blanks) {
        Ok(text) => gives(alloc, store, (0, text, Ok(0), 1_048_576)),
        Err(_) => false,
    }
}

const TOO_LONG: Outcome = Err(TextRefusal::TextTooLong { bytes: 1_048_577 });

/// Whether a text of the greatest length takes no byte more, and can be emptied again.
fn is_full(alloc: Global) -> bool {
    let mut store = TextStore::new(alloc);
    takes_longest(alloc, &mut store)
        && gives(alloc, &mut store, (0, " ", TOO_LONG, 1_048_576))
        && gives(alloc, &mut store, (1_048_576, "", Ok(0), 0))
}

#[test]
fn longest_text(rt: HostRuntime) -> Result<(), Fail> {
    none_wrong(wrong_unless(is_full(rt.alloc()), "the longest text"))
}

/// A change of a list of bytes: for how many room is made first, where the piece goes, how many bytes it takes the place of, the
/// piece, and the bytes after it.
type ChangeRow = (u32, u32, u32, &'static str, &'static str);

/// Changes of one list after the other. Room is made before the last, so it can't fail.
const CHANGES: [ChangeRow; 3] = [
    (0, 0, 0, "abc", "abc"),
    (0, 1, 1, "", "ac"),
    (10, 1, 0, "xyz", "axyzc"),
];

/// Whether a change of a short list gives these bytes.
fn is_changed(bytes: &mut GapBytes, (more, at, cut, piece, after): ChangeRow) -> bool {
    let length = bytes.len();
    length < 100
        && piece.len() < 100
        && at as u64 + cut as u64 <= length as u64
        && bytes.reserve(more).is_ok()
        && bytes.replace(at, cut, piece.as_bytes()).is_ok()
        && bytes.len() as usize == after.len()
        && are_joined(bytes.slices(), after)
}

/// The bytes after the first change that is wrong.
fn wrong_change(alloc: Global) -> Option<&'static str> {
    let mut bytes = GapBytes::new(alloc);
    for row in &CHANGES {
        if !is_changed(&mut bytes, *row) {
            return Some(row.4);
        }
    }
    None
}

#[test]
fn changes_with_a_gap(rt: HostRuntime) -> Result<(), Fail> {
    none_wrong(wrong_change(rt.alloc()))
}
