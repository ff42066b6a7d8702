//! What a line asks. Lines that are refused are in the sessions.
use crate::verdict::{none_wrong, wrong_unless};
use json_lines::{Malformed, Request, read_request};
use std::alloc::Global;
use std::test::Fail;
use text_terms::Pos;

/// What a request asks: its name, its position, its end where it has a range, and its text.
type Asked = (&'static str, Option<Pos>, Option<Pos>, &'static str);

const AT: Option<Pos> = Some(Pos { line: 3, col: 7 });

const START: Option<Pos> = Some(Pos { line: 1, col: 0 });

const FAR: Option<Pos> = Some(Pos {
    line: 0,
    col: 4_294_967_295,
});

const LINES: [(&str, Asked); 10] = [
    (
        r#"{"query":"type-enclosing","at":{"line":3,"col":7}}"#,
        ("type-enclosing", AT, None, ""),
    ),
    (
        r#"{"query":"locate","at":{"line":3,"col":7}}"#,
        ("locate", AT, None, ""),
    ),
    (
        r#"{"query":"occurrences","at":{"line":3,"col":7}}"#,
        ("occurrences", AT, None, ""),
    ),
    (
        r#"{"query":"outline","at":1.5}"#,
        ("outline", None, None, ""),
    ),
    (
        r#"{"query":"outline","query":"errors"}"#,
        ("errors", None, None, ""),
    ),
    (
        r#"{"query":"case-analysis","at":{"line":0,"col":4294967295}}"#,
        ("case-analysis", FAR, None, ""),
    ),
    (
        r#"{"query":"construct","at":{"line":2,"line":3,"col":7}}"#,
        ("construct", AT, None, ""),
    ),
    (
        r#"{"query":"tell","text":"let x = 1","at":null}"#,
        ("tell", None, None, "let x = 1"),
    ),
    (
        r#"{"text":"y","end":{"line":3,"col":7},"start":{"col":0,"line":1},"query":"tell"}"#,
        ("tell", START, AT, "y"),
    ),
    (
        r#"{"query":"complete-prefix","at":{"line":3,"col":7},"prefix":"li"}"#,
        ("complete-prefix", AT, None, "li"),
    ),
];

/// The name of a request, its position, its end where it has a range, and its text.
fn asked(request: &Request) -> (&'static str, Option<Pos>, Option<Pos>, &str) {
    match request {
        Request::Tell { range: None, text } => ("tell", None, None, text.as_str()),
        Request::Tell {
            range: Some((start, end)),
            text,
        } => ("tell", Some(*start), Some(*end), text.as_str()),
        Request::TypeEnclosing { at } => ("type-enclosing", Some(*at), None, ""),
        Request::CompletePrefix { at, prefix } => {
            ("complete-prefix", Some(*at), None, prefix.as_str())
        }
        Request::Locate { at } => ("locate", Some(*at), None, ""),
        Request::Occurrences { at } => ("occurrences", Some(*at), None, ""),
        Request::Outline => ("outline", None, None, ""),
        Request::Errors => ("errors", None, None, ""),
        Request::CaseAnalysis { at } => ("case-analysis", Some(*at), None, ""),
        Request::Construct { at } => ("construct", Some(*at), None, ""),
    }
}

fn asks(alloc: Global, line: &str, wanted: Asked) -> bool {
    match read_request(alloc, line.as_bytes()) {
        Ok(request) => asked(&request) == wanted,
        Err(_) => false,
    }
}

fn wrong_line(alloc: Global) -> Option<&'static str> {
    for row in &LINES {
        if !asks(alloc, row.0, row.1) {
            return Some(row.0);
        }
    }
    None
}

/// Whether a line without bytes is refused. It has no reply, so that no session shows it.
fn refuses_nothing(alloc: Global) -> bool {
    matches!(read_request(alloc, b""), Err(Malformed::NotJson))
}

#[test]
fn lines_are_requests(rt: HostRuntime) -> Result<(), Fail> {
    none_wrong(wrong_line(rt.alloc()))?;
    none_wrong(wrong_unless(refuses_nothing(rt.alloc()), "no bytes"))
}
