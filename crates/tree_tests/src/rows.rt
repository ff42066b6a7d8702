//! Keys, rows, places and ways past missing parts in the table of the rows.
ghost use Rattle.std.specs.Prelude.{◌<◌, length};

use crate::verdict::{none_wrong, wrong_unless};
use std::alloc::Global;
use std::test::Fail;
use syntax_rows::*;
use syntax_tree::{NoMemory, RcStr, RowName, Span, Token, TokenKind};

fn token(alloc: Global, kind: TokenKind, name: &str) -> Result<Token, NoMemory> {
    Ok(Token {
        kind,
        span: Span { start: 0, end: 1 },
        reach: 2,
        col: 0,
        name: RcStr::from_str(alloc, name)?,
    })
}

/// A token's kind and name, and its key.
type KeyRow = (TokenKind, &'static str, Key);

const KEYS: [KeyRow; 8] = [
    (TokenKind::Op13, "*", Key::Star),
    (TokenKind::Op13, "/", Key::Kind(TokenKind::Op13)),
    (TokenKind::Op12, "-", Key::Minus),
    (TokenKind::Op12, "-.", Key::MinusPoint),
    (TokenKind::Op12, "+", Key::Kind(TokenKind::Op12)),
    (TokenKind::Op9, "=", Key::Equal),
    (TokenKind::Op9, "<", Key::Kind(TokenKind::Op9)),
    (TokenKind::Let, "let", Key::Kind(TokenKind::Let)),
];

fn has_key(alloc: Global, (kind, name, key): KeyRow) -> bool {
    match token(alloc, kind, name) {
        Ok(token) => Key::of(&token) == key,
        Err(_) => false,
    }
}

fn wrong_key(alloc: Global) -> Option<&'static str> {
    for row in &KEYS {
        if !has_key(alloc, *row) {
            return Some(row.1);
        }
    }
    None
}

/// What is wanted, what is on the left, a token's kind and name, and the row.
type TokenRow = (Sort, Left, TokenKind, &'static str, Option<RowName>);

const ROWS_BY_TOKEN: [TokenRow; 11] = [
    (
        Sort::Item,
        Left::None,
        TokenKind::Let,
        "let",
        Some(RowName::Let),
    ),
    (
        Sort::Expression,
        Left::None,
        TokenKind::Let,
        "let",
        Some(RowName::Elet),
    ),
    (Sort::SignatureItem, Left::None, TokenKind::Let, "let", None),
    (
        Sort::Case,
        Left::None,
        TokenKind::Lower,
        "x",
        Some(RowName::Case),
    ),
    (
        Sort::Expression,
        Left::Level(12),
        TokenKind::Op12,
        "-",
        Some(RowName::Infix),
    ),
    (Sort::Expression, Left::Level(2), TokenKind::Op12, "-", None),
    (
        Sort::Expression,
        Left::None,
        TokenKind::Op12,
        "-",
        Some(RowName::Eneg),
    ),
    (
        Sort::TypeExpression,
        Left::Level(3),
        TokenKind::Op13,
        "*",
        Some(RowName::Ttuple),
    ),
    (
        Sort::TypeExpression,
        Left::Level(3),
        TokenKind::Op13,
        "/",
        None,
    ),
    (
        Sort::Expression,
        Left::Row(RowName::Field),
        TokenKind::LeftArrow,
        "<-",
        Some(RowName::Eset),
    ),
    (
        Sort::Pattern,
        Left::Row(RowName::Pcon),
        TokenKind::Underscore,
        "_",
        Some(RowName::Papp),
    ),
];

fn has_row(alloc: Global, (sort, left, kind, name, row): TokenRow) -> bool {
    match token(alloc, kind, name) {
        Ok(token) => row_for(sort, left, &token) == row,
        Err(_) => false,
    }
}

fn wrong_row(alloc: Global) -> Option<&'static str> {
    for row in &ROWS_BY_TOKEN {
        if !has_row(alloc, *row) {
            return Some(row.3);
        }
    }
    None
}

#[test]
fn keys_and_rows_of_tokens(rt: HostRuntime) -> Result<(), Fail> {
    none_wrong(wrong_key(rt.alloc()))?;
    none_wrong(wrong_row(rt.alloc()))?;
    none_wrong(wrong_unless(rows_are_separate(), "separate rows"))
}

/// The row of a whole program.
const ROOT: u8 = 0;

/// A name, and by it a row of the program's table, a spot, the newest part there, a key, and the key's place.
type PlaceRow = (&'static str, u8, u8, Last, Key, Place);

/// `let x = y` has the rows 1 (let), 56 (binding), 39 (pname) and 60 (name); `ROOT` is the row of the whole.
const PLACES: [PlaceRow; 8] = [
    (
        "let in the whole",
        ROOT,
        0,
        Last::Plain,
        Key::Kind(TokenKind::Let),
        Place::AtSpot(1),
    ),
    (
        "in in the whole",
        ROOT,
        0,
        Last::Plain,
        Key::Kind(TokenKind::In),
        Place::Nowhere,
    ),
    (
        "a name after let",
        1,
        1,
        Last::Plain,
        Key::Kind(TokenKind::Lower),
        Place::AtSpot(3),
    ),
    (
        "and after a binding",
        1,
        3,
        Last::Row(56),
        Key::Kind(TokenKind::And),
        Place::AtSpot(4),
    ),
    (
        "a name after a name",
        56,
        1,
        Last::Row(39),
        Key::Kind(TokenKind::Lower),
        Place::AtSpot(2),
    ),
    (
        "a name after another pattern",
        56,
        1,
        Last::Row(40),
        Key::Kind(TokenKind::Lower),
        Place::Nowhere,
    ),
    (
        "an equal sign after a hole",
        56,
        1,
        Last::Hole,
        Key::Equal,
        Place::AtSpot(5),
    ),
    (
        "an operator after a name",
        56,
        6,
        Last::Row(60),
        Key::Kind(TokenKind::Op12),
        Place::Growth,
    ),
];

fn has_place(table: Table<'static>, wanted: PlaceRow) -> bool
    requires { length table.rows.now < 256 }
{
    let (_, row, at, last, key, place) = wanted;
    first_place(table, row, at, last, key) == place
}

fn wrong_place() -> Option<&'static str> {
    let table = grammar(Text::Program);
    for row in &PLACES {
        if !has_place(table, *row) {
            return Some(row.0);
        }
    }
    None
}

/// Whether the tables of both texts begin with their roots, and an interface has values.
fn have_roots() -> bool {
    let signature = grammar(Text::Signature);
    let val = Key::Kind(TokenKind::Val);
    grammar(Text::Program).root == ROOT
        && first_place(signature, signature.root, 0, Last::Plain, val) == Place::AtSpot(2)
}

/// A name, and by it a row of the program's table, a spot, the newest part there, a key, and the way to take it.
type WayRow = (&'static str, u8, u8, Last, Key, Option<Way>);

/// `let x = + 1` grows a missing operand; `if e else` misses `then` (spot 3) and the branch after it (spot 4).
const WAYS: [WayRow; 3] = [
    (
        "an operator after an equal sign",
        56,
        5,
        Last::Plain,
        Key::Kind(TokenKind::Op12),
        Some(Way {
            musts: 0,
            past: Some(6),
            place: Place::Growth,
        }),
    ),
    (
        "else after a condition",
        88,
        2,
        Last::Row(60),
        Key::Kind(TokenKind::Else),
        Some(Way {
            musts: 1,
            past: Some(4),
            place: Place::AtSpot(5),
        }),
    ),
    (
        "in after a condition",
        88,
        2,
        Last::Row(60),
        Key::Kind(TokenKind::In),
        None,
    ),
];

fn has_way(table: Table<'static>, wanted: WayRow) -> bool
    requires { length table.rows.now < 256 }
{
    let (_, row, at, last, key, way) = wanted;
    find_way(table, row, at, last, key) == way
}

fn wrong_way() -> Option<&'static str> {
    let table = grammar(Text::Program);
    for row in &WAYS {
        if !has_way(table, *row) {
            return Some(row.0);
        }
    }
    None
}

#[test]
fn places_and_ways_of_keys(_rt: HostRuntime) -> Result<(), Fail> {
    none_wrong(wrong_place())?;
    none_wrong(wrong_way())?;
    none_wrong(wrong_unless(have_roots(), "the rows of the whole texts"))
}

/// Whether some rows of the program's table are what they are: the binding (56), the product (78), the condition (88).
fn are_rows() -> bool {
    let table = grammar(Text::Program);
    let operand = What::Operand {
        sort: Sort::Expression,
        level: 0,
    };
    name_at(table, 56) == RowName::Binding
        && what_at(table, 56, 6) == operand
        && !ends_at(table, 56, 5)
        && ends_at(table, 56, 6)
        && start_of(table, 78) == 2
        && must_at(table, 88, 2) == Some(3)
        && must_at(table, 88, 4) == None
}

/// Whether a name begins a binding, and a star a product.
fn are_begun() -> bool {
    let table = grammar(Text::Program);
    begins(table, Sort::Binding, Key::Kind(TokenKind::Lower)) == Some(56)
        && grower(table, Sort::Expression, Key::Star) == Some(78)
}

#[test]
fn what_a_row_is(_rt: HostRuntime) -> Result<(), Fail> {
    none_wrong(wrong_unless(are_rows() && are_begun(), "rows"))
}
