//! How much of a text is read and parsed again after an edit.
use crate::counts::zero;
use crate::verdict::none_wrong;
use kept_text::KeptText;
use std::alloc::{AllocError, Global};
use std::test::Fail;
use syntax_tree::{Counts, NoMemory, Pos, RcStr};
use text_store::Edit;

/// A line of four tokens.
const LINE: &str = "let a = 1\n";

const LINES: u32 = 1_000;

/// The lines at whose starts an edit of these lines begins and ends, what is put there, and how many tokens are then lexed and shifted,
/// with those of the lines before.
type EditRow = (&'static str, u32, u32, &'static str, u64, u64);

/// By the bounds 4,032 tokens may be lexed and 8,064 shifted for the lines, and for an edit 32 more than those that end where it starts or
/// after it, and twice as many; the parser keeps none before. So 4,068 and 8,136 for a line after the last.
const EDITS: [EditRow; 3] = [
    (
        "a line after the last",
        1_001,
        1_001,
        "let b = 2",
        4_004,
        4_004,
    ),
    ("the last line", 1_000, 1_001, "let b = 2", 4_004, 4_004),
    ("the first line", 1, 2, "let b = 2\n", 8_000, 8_000),
];

fn start_of(line: u32) -> Pos {
    Pos { line, col: 0 }
}

/// A text of so many lines, and what is kept of it.
fn lines(alloc: Global) -> Result<KeptText, NoMemory> {
    let mut text = String::new(alloc);
    for _ in 0..LINES {
        text.push_str(LINE)?;
    }
    let mut kept = KeptText::new(alloc);
    let edit = Edit {
        start: start_of(1),
        end: start_of(1),
        text: RcStr::from_str(alloc, text.as_str())?,
    };
    match kept.apply(&edit) {
        Ok(_) => Ok(kept),
        Err(_) => Err(AllocError),
    }
}

/// Whether an edit has these tokens lexed and shifted, with those of the lines before it.
fn reads(alloc: Global, (_, start, end, text, lexed, shifted): EditRow) -> Result<bool, NoMemory> {
    let mut kept = lines(alloc)?;
    let mut counts = zero();
    kept.refresh(&mut counts)?;
    let edit = Edit {
        start: start_of(start),
        end: start_of(end),
        text: RcStr::from_str(alloc, text)?,
    };
    if kept.apply(&edit).is_err() {
        return Ok(false);
    }
    kept.refresh(&mut counts)?;
    Ok(counts.lexed() == lexed && counts.shifted() == shifted)
}

fn wrong_edit(alloc: Global) -> Option<&'static str> {
    for row in &EDITS {
        if !matches!(reads(alloc, *row), Ok(true)) {
            return Some(row.0);
        }
    }
    None
}

#[test]
fn edits_have_what_is_behind_them_read(rt: HostRuntime) -> Result<(), Fail> {
    none_wrong(wrong_edit(rt.alloc()))
}
