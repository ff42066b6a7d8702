//! The tokens of some texts, and what is counted.
use crate::counts::{Three, zero};
use crate::verdict::{none_wrong, wrong_unless};
use ml_lexer::{lex_all, lex_from};
use std::alloc::Global;
use std::test::Fail;
use syntax_tree::{Counts, Token, TokenKind};

/// Texts with their tokens, each by its kind, its start and its end.
const TEXTS: [(&str, &str, &[(TokenKind, u32, u32)]); 15] = [
    (
        "string in a comment",
        "(* \"*)\" *)1",
        &[(TokenKind::Int, 10, 11)],
    ),
    (
        "characters and type variables",
        "'a' 'a 1l",
        &[
            (TokenKind::Char, 0, 3),
            (TokenKind::TyVar, 4, 6),
            (TokenKind::Outside, 7, 9),
        ],
    ),
    (
        "a qualifier and operators",
        "M.x (+) (*)",
        &[
            (TokenKind::Qualifier, 0, 2),
            (TokenKind::Lower, 2, 3),
            (TokenKind::OpName, 4, 7),
            (TokenKind::Junk, 8, 11),
        ],
    ),
    (
        "past ASCII",
        "\"é\" é",
        &[(TokenKind::Str, 0, 4), (TokenKind::Junk, 5, 7)],
    ),
    (
        "hexadecimal",
        "let a = (* \"*)\" *) 0x1F",
        &[
            (TokenKind::Let, 0, 3),
            (TokenKind::Lower, 4, 5),
            (TokenKind::Op9, 6, 7),
            (TokenKind::Int, 19, 23),
        ],
    ),
    (
        "a tab is no escape",
        "'\\\t'",
        &[
            (TokenKind::Junk, 0, 1),
            (TokenKind::Junk, 1, 2),
            (TokenKind::Junk, 3, 4),
        ],
    ),
    (
        "a string in a comment has no end",
        "(* \" *) 1",
        &[(TokenKind::Junk, 0, 9)],
    ),
    (
        "operators",
        "->> !== <-- ||| **.",
        &[
            (TokenKind::Op12, 0, 3),
            (TokenKind::Prefix, 4, 7),
            (TokenKind::Op9, 8, 11),
            (TokenKind::Op9, 12, 15),
            (TokenKind::Op14, 16, 19),
        ],
    ),
    (
        "a numeral and a quote",
        "1' 1'a'",
        &[(TokenKind::Outside, 0, 2), (TokenKind::Outside, 3, 7)],
    ),
    (
        "an unclosed quoted string",
        "{a|b",
        &[(TokenKind::Junk, 0, 4)],
    ),
    (
        "a hexadecimal and a point",
        "0x1.5 0x1p3",
        &[
            (TokenKind::Int, 0, 3),
            (TokenKind::Dot, 3, 4),
            (TokenKind::Int, 4, 5),
            (TokenKind::Outside, 6, 11),
        ],
    ),
    (
        "names after a quote",
        "'let '_ '\\999'",
        &[
            (TokenKind::TyVar, 0, 4),
            (TokenKind::TyVar, 5, 7),
            (TokenKind::Char, 8, 14),
        ],
    ),
    (
        "words",
        "module  type module typed _ lor",
        &[
            (TokenKind::ModuleType, 0, 12),
            (TokenKind::Module, 13, 19),
            (TokenKind::Lower, 20, 25),
            (TokenKind::Underscore, 26, 27),
            (TokenKind::Op13, 28, 31),
        ],
    ),
    (
        "quoted strings",
        "{a|b|c|a} {|x|} ( ) [ ] ( :=)",
        &[
            (TokenKind::Str, 0, 9),
            (TokenKind::Str, 10, 15),
            (TokenKind::Unit, 16, 19),
            (TokenKind::Nil, 20, 23),
            (TokenKind::OpName, 24, 29),
        ],
    ),
    (
        "numerals",
        "1_0. 1e+5 0b12 0o7 1e+",
        &[
            (TokenKind::Float, 0, 4),
            (TokenKind::Float, 5, 9),
            (TokenKind::Outside, 10, 14),
            (TokenKind::Int, 15, 18),
            (TokenKind::Outside, 19, 21),
            (TokenKind::Op12, 21, 22),
        ],
    ),
];

fn has(token: &Token, kind: TokenKind, start: u32, end: u32) -> bool {
    token.kind == kind && token.span.start == start && token.span.end == end
}

/// Whether the tokens of a text are these, by kind, start and end.
fn lexes(alloc: Global, text: &str, wanted: &[(TokenKind, u32, u32)]) -> bool {
    if text.len() > 1000 {
        return false;
    }
    let Ok(tokens) = lex_all(alloc, text.as_bytes(), &[], &mut zero()) else {
        return false;
    };
    tokens.len() == wanted.len()
        && tokens
            .iter()
            .zip(wanted)
            .all(|(token, want)| has(token, want.0, want.1, want.2))
}

fn wrong_text(alloc: Global) -> Option<&'static str> {
    for row in &TEXTS {
        if !lexes(alloc, row.1, row.2) {
            return Some(row.0);
        }
    }
    None
}

#[test]
fn texts_have_these_tokens(rt: HostRuntime) -> Result<(), Fail> {
    none_wrong(wrong_text(rt.alloc()))
}

/// Whether this is `M.` of two bytes at 12, read up to its end.
fn is_qualifier(token: &Token) -> bool {
    has(token, TokenKind::Qualifier, 12, 14)
        && token.reach == 14
        && token.col == 12
        && token.name.is("M")
}

/// Whether the one token of a text in two parts is counted.
fn counts_one(alloc: Global, counts: &mut Three) -> bool {
    let found = lex_from(alloc, b"(* (* *", b") *) M.", 0, counts);
    matches!(&found, Ok(Some(token)) if is_qualifier(token)) && counts.lexed() == 1
}

/// Whether no token is found from the second byte of `1 (**)` on, and none is counted.
fn counts_none(alloc: Global, counts: &mut Three) -> bool {
    let none = lex_from(alloc, b"1 ", b"(**)", 1, counts);
    matches!(none, Ok(None)) && counts.lexed() == 1
}

fn counts_first(alloc: Global) -> bool {
    let mut counts = zero();
    counts_one(alloc, &mut counts) && counts_none(alloc, &mut counts)
}

#[test]
fn the_first_token_after_a_gap_is_counted(rt: HostRuntime) -> Result<(), Fail> {
    none_wrong(wrong_unless(counts_first(rt.alloc()), "two texts"))
}
