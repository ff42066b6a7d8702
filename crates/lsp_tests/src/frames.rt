//! What some bytes begin with.
use crate::verdict::{none_wrong, wrong_unless};
use lsp_front::{Framed, frame_of};
use std::test::Fail;

const TWO: Framed = Framed::Whole { head: 21, body: 2 };

const ROWS: [(&str, &str, Framed); 14] = [
    ("the usual block", "Content-Length: 2\r\n\r\n{}", TWO),
    ("small letters", "content-length: 2\r\n\r\n{}", TWO),
    (
        "large letters and no blank",
        "CONTENT-LENGTH:2\r\n\r\n{}{",
        Framed::Whole { head: 20, body: 2 },
    ),
    (
        "tabs, blanks and zeros round the number",
        "Content-Length: \t 002 \t\r\n\r\n{}",
        Framed::Whole { head: 27, body: 2 },
    ),
    (
        "another header before and behind",
        "X: y\r\nContent-Length: 2\r\nhello\r\n\r\n{}",
        Framed::Whole { head: 34, body: 2 },
    ),
    (
        "a line feed alone ends no line",
        "X: a\nContent-Length: 1\r\nContent-Length: 2\r\n\r\n{}",
        Framed::Whole { head: 45, body: 2 },
    ),
    (
        "too long",
        "Content-Length: 8388609\r\n\r\n",
        Framed::Over {
            head: 27,
            body: 8_388_609,
        },
    ),
    ("the front of a block", "Content-Len", Framed::More),
    (
        "the front of a body",
        "Content-Length: 2\r\n\r\n{",
        Framed::More,
    ),
    ("no length", "Content-Type: x\r\n\r\n{}", Framed::Bad),
    (
        "two lengths",
        "Content-Length: 2\r\ncontent-length: 2\r\n\r\n{}",
        Framed::Bad,
    ),
    ("a sign", "Content-Length: +2\r\n\r\n{}", Framed::Bad),
    (
        "eleven digits",
        "Content-Length: 00000000002\r\n\r\n{}",
        Framed::Bad,
    ),
    ("an empty block", "\r\n{}", Framed::Bad),
];

fn wrong_row() -> Option<&'static str> {
    for (name, bytes, wanted) in ROWS {
        if frame_of(bytes.as_bytes()) != wanted {
            return Some(name);
        }
    }
    None
}

#[test]
fn bytes_begin_with_what_is_wanted() -> Result<(), Fail> {
    none_wrong(wrong_row().or(wrong_unless(frame_of(b"") == Framed::More, "nothing")))
}
