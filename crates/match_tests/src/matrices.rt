use crate::rows::{matrix, row};
use pattern_matrix::*;
use std::alloc::Global;
use std::test::Fail;

/// Rows of patterns, and so many times each row's columns.
type Rows = (&'static [&'static str], usize);

enum Asked {
    /// What is shown for the values of so many columns that the rows miss; nothing where they miss none
    Missed(usize, &'static str),
    /// The places of the rows that are unused
    Unused(&'static [usize]),
    /// What is shown for the values that a row adds to them
    Added(&'static str, &'static str),
}

/// A name, rows, and what is asked of them, with the answer.
type Case = (&'static str, Rows, Asked);

const CASES: &[Case] = &[
    ("no row", (&[], 1), Asked::Missed(1, "_")),
    ("no row of two", (&[], 1), Asked::Missed(2, "(_, _)")),
    ("true", (&["true"], 1), Asked::Missed(1, "false")),
    ("either", (&["|/true/false"], 1), Asked::Missed(1, "")),
    ("variant", (&["A"], 1), Asked::Missed(1, "B _")),
    (
        "third variant",
        (&["B/true", "A"], 1),
        Asked::Missed(1, "C _"),
    ),
    (
        "guards cover nothing",
        (&["!false", "true", "!_"], 1),
        Asked::Missed(1, "false"),
    ),
    // a cell left of :: and an argument are in parentheses
    (
        "second cell",
        (&["[]", "::/_/[]"], 1),
        Asked::Missed(1, "_ :: _ :: _"),
    ),
    (
        "left cell",
        (&["::/[]/_", "[]"], 1),
        Asked::Missed(1, "(_ :: _) :: _"),
    ),
    (
        "cell as argument",
        (&["Some/[]", "None"], 1),
        Asked::Missed(1, "Some (_ :: _)"),
    ),
    (
        "argument",
        (&["Some/None", "None"], 1),
        Asked::Missed(1, "Some (Some _)"),
    ),
    // literals and exceptions are never complete: the column is `_`
    ("literals", (&["1", "2"], 1), Asked::Missed(1, "_")),
    (
        "exceptions",
        (&["Not_found", "Failure/_"], 1),
        Asked::Missed(1, "_"),
    ),
    (
        "columns",
        (&["true/_", "_/false"], 1),
        Asked::Missed(2, "(false, true)"),
    ),
    (
        "a pair",
        (&["(,)/true/_", "(,)/_/false"], 1),
        Asked::Missed(1, "(false, true)"),
    ),
    (
        "first column",
        (&["B/_/true"], 1),
        Asked::Missed(2, "(A, _)"),
    ),
    (
        "second column",
        (&["_/true"], 1),
        Asked::Missed(2, "(_, false)"),
    ),
    (
        "a record",
        (&["{l; m}/true/_"], 1),
        Asked::Missed(1, "{ l = false; m = _ }"),
    ),
    (
        "unused guards",
        (&["!true", "true", "!true"], 1),
        Asked::Unused(&[2]),
    ),
    (
        "unused exception",
        (&["Not_found", "Failure/_", "Not_found"], 1),
        Asked::Unused(&[2]),
    ),
    (
        "unused variants",
        (&["A", "!A", "_", "B/_", "_"], 1),
        Asked::Unused(&[1, 3, 4]),
    ),
    (
        "unused literal",
        (&["1", "2", "1", "|/1/3"], 1),
        Asked::Unused(&[2]),
    ),
    (
        "unused after a name",
        (&["1", "_", "2"], 1),
        Asked::Unused(&[2]),
    ),
    (
        "unused pair",
        (&["(,)/true/_", "(,)/false/true", "(,)/true/false"], 1),
        Asked::Unused(&[2]),
    ),
    (
        "unused by the second part",
        (&["(,)/1/_", "(,)/_/1", "(,)/2/1", "(,)/2/2"], 1),
        Asked::Unused(&[2]),
    ),
    (
        "unused list",
        (&["::/1/_", "::/2/[]", "[]", "::/1/[]"], 1),
        Asked::Unused(&[3]),
    ),
    (
        "unused wildcard",
        (&["None", "Some/true", "Some/false", "_"], 1),
        Asked::Unused(&[3]),
    ),
    (
        "added",
        (&["Some/true"], 1),
        Asked::Added("Some/_", "Some false"),
    ),
    // over 60 columns: false .. -> .. | (false | true) .. -> .. | (_ | true) .. -> ..
    (
        "many alternatives",
        (&["false", "|/false/true", "|/_/true"], 60),
        Asked::Unused(&[2]),
    ),
    (
        "many columns",
        (&["false", "|/false/true", "|/_/true"], 60),
        Asked::Missed(60, ""),
    ),
];

/// Whether this is shown for a shape, or nothing.
fn is_shown(alloc: Global, shape: Option<Shape>, text: &str) -> Result<bool, NoMemory> {
    match shape {
        Some(shape) => Ok(print_shape(alloc, &shape)?.is(text)),
        None => Ok(text.is_empty()),
    }
}

fn is_answered(alloc: Global, rows: &Matrix, asked: &Asked) -> Result<bool, NoMemory> {
    match asked {
        Asked::Missed(columns, text) => is_shown(alloc, missed(alloc, rows, *columns)?, text),
        Asked::Unused(places) => Ok(unused_rows(alloc, rows)?.as_slice() == *places),
        Asked::Added(one, text) => {
            let one = row(alloc, one, 1)?;
            is_shown(alloc, useful(alloc, rows, &one)?, text)
        }
    }
}

/// The name of the first case that is answered otherwise.
fn first_wrong(alloc: Global, cases: &[Case]) -> Result<Option<&'static str>, NoMemory> {
    for (name, (texts, times), asked) in cases {
        let rows = matrix(alloc, texts, *times)?;
        if !is_answered(alloc, &rows, asked)? {
            return Ok(Some(name));
        }
    }
    Ok(None)
}

#[test]
fn answers(rt: HostRuntime) -> Result<(), Fail> {
    match first_wrong(rt.alloc(), CASES)? {
        None => Ok(()),
        Some(name) => Err(Fail::new(name)),
    }
}
