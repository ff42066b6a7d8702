//! Offsets, positions and shown spans of a text with wide characters.
use crate::verdict::none_wrong;
use lsp_positions::{Columns, asked_place, offset_at, position_at, shown_span};
use std::test::Fail;
use text_terms::Span;

/// Two lines: a character of two bytes, one of four, a carriage return, and a name at the end.
const TEXT: &str = "a\u{e9}\u{1d11e}b\r\nlet x";

/// An offset, its position by units of UTF-16, and that by bytes.
const OFFSETS: [(u32, (u32, u32), (u32, u32)); 7] = [
    (0, (0, 0), (0, 0)),
    (1, (0, 1), (0, 1)),
    (3, (0, 2), (0, 3)),
    (7, (0, 4), (0, 7)),
    (9, (0, 6), (0, 9)),
    (10, (1, 0), (1, 0)),
    (15, (1, 5), (1, 5)),
];

fn is_at(offset: u32, at: (u32, u32), by: Columns) -> bool {
    let text = TEXT.as_bytes();
    let back = offset_at(text, b"", at.0, at.1, by);
    position_at(text, b"", offset, by) == at && back == offset
}

fn wrong_offset() -> Option<&'static str> {
    for (offset, utf16, bytes) in OFFSETS {
        if !is_at(offset, utf16, Columns::Utf16) {
            return Some("by units of UTF-16");
        }
        if !is_at(offset, bytes, Columns::Bytes) {
            return Some("by bytes");
        }
    }
    None
}

/// A position that no character begins at, and its offset by units of UTF-16.
const CLAMPED: [(u32, u32, u32); 4] = [(0, 3, 3), (0, 99, 9), (1, 99, 15), (7, 0, 15)];

fn wrong_clamped() -> Option<&'static str> {
    for (line, character, offset) in CLAMPED {
        if offset_at(TEXT.as_bytes(), b"", line, character, Columns::Utf16) != offset {
            return Some("a position past an end or inside a character");
        }
    }
    None
}

/// A span, and what is shown for it.
const SHOWN: [(&str, Span, Span); 4] = [
    (
        "let a =\n\n",
        Span { start: 9, end: 9 },
        Span { start: 6, end: 7 },
    ),
    (
        "\u{1d11e}\r\n",
        Span { start: 6, end: 6 },
        Span { start: 0, end: 4 },
    ),
    (
        "\n\u{e9}",
        Span { start: 1, end: 1 },
        Span { start: 1, end: 3 },
    ),
    ("", Span { start: 0, end: 0 }, Span { start: 0, end: 0 }),
];

fn wrong_shown() -> Option<&'static str> {
    for (text, span, wanted) in SHOWN {
        let len = text.len() as u32;
        if span.start <= len
            && span.end <= len
            && shown_span(text.as_bytes(), b"", span) != wanted
        {
            return Some("a shown span");
        }
    }
    None
}

fn wrong_asked() -> Option<&'static str> {
    let text = b"ab c";
    let is_right = asked_place(text, b"", 2) == 1
        && asked_place(text, b"", 1) == 1
        && asked_place(text, b"", 3) == 3
        && asked_place(text, b"", 4) == 3;
    if is_right {
        None
    } else {
        Some("an asked place")
    }
}

#[test]
fn places_are_those_of_an_editor() -> Result<(), Fail> {
    none_wrong(
        wrong_offset()
            .or(wrong_clamped())
            .or(wrong_shown())
            .or(wrong_asked()),
    )
}
