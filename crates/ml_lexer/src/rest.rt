//! What is left of a text from a place on, and runs of bytes of one sort.
ghost use Rattle.token_model.specs.Tokens.{column_from};
ghost use Rattle.std.specs.Prelude.{◌≡◌, ◌≤◌, ◌<◌, ◌+◌, ◌-◌, ◌^◌, ◌==◌, ◌||◌, if◌then◌else◌, IsTrue, ◌↔◌, slice_index, length, take, drop, IfOk};
ghost use Rattle.token_model.specs.Bytes.{is_blank as is_blank_byte, is_digit as is_digit_byte, is_lower as is_lower_byte, is_upper as is_upper_byte, begins_name as begins_name_byte, goes_on as goes_on_byte, is_decimal as is_decimal_byte, is_hexadecimal as is_hexadecimal_byte, is_octal as is_octal_byte, is_binary as is_binary_byte, is_digit_of as is_digit_of_byte, begins_operator as begins_operator_byte, is_sign as is_sign_byte, continues as continues_byte};
ghost use Rattle.ml_lexer.specs.Places.{whole, rest_of, IsPlaced, test_of};
ghost use Rattle.ml_lexer.specs.Scans.{run_end};

use std::alloc::{AllocError, Global};
use syntax_tree::NoMemory;

/// A text in two parts, from a place on.
#[derive(Clone, Copy)]
pub struct Rest<'a> {
    pub left: &'a [u8],
    pub right: &'a [u8],
    /// In bytes from 0, over both parts.
    pub at: usize,
}

/// A sort of bytes.
#[derive(Clone, Copy)]
pub enum Sort {
    Blank,
    /// a lower-case letter or `_`
    LowerLetter,
    /// what an identifier goes on with
    Name,
    /// a decimal digit or `_`
    Decimal,
    /// a digit of the base that a letter names, or `_`
    DigitOf(u8),
    /// what an operator goes on with
    Sign,
    /// a byte that isn't the first of its character
    Later,
}

pub fn is_blank(b: u8) -> bool
    ensures { result ≡ is_blank_byte b }
{
    b == b' ' || b == b'\t' || b == b'\n' || b == b'\r' || b == 12
}

pub fn is_digit(b: u8) -> bool
    ensures { result ≡ is_digit_byte b }
{
    b >= b'0' && b <= b'9'
}

pub fn is_lower(b: u8) -> bool
    ensures { result ≡ is_lower_byte b }
{
    b >= b'a' && b <= b'z' || b == b'_'
}

pub fn is_upper(b: u8) -> bool
    ensures { result ≡ is_upper_byte b }
{
    b >= b'A' && b <= b'Z'
}

pub fn begins_name(b: u8) -> bool
    ensures { result ≡ begins_name_byte b }
{
    is_lower(b) || is_upper(b)
}

pub fn goes_on(b: u8) -> bool
    ensures { result ≡ goes_on_byte b }
{
    is_lower(b) || is_upper(b) || is_digit(b) || b == b'\''
}

pub fn is_decimal(b: u8) -> bool
    ensures { result ≡ is_decimal_byte b }
{
    is_digit(b) || b == b'_'
}

pub fn is_hexadecimal(b: u8) -> bool
    ensures { result ≡ is_hexadecimal_byte b }
{
    is_digit(b) || b >= b'a' && b <= b'f' || b >= b'A' && b <= b'F'
}

pub fn is_octal(b: u8) -> bool
    ensures { result ≡ is_octal_byte b }
{
    b >= b'0' && b <= b'7'
}

pub fn is_binary(b: u8) -> bool
    ensures { result ≡ is_binary_byte b }
{
    b >= b'0' && b <= b'1'
}

/// Whether a byte is a digit of the base that a letter names: x for 16, o for 8, b for 2.
pub fn is_digit_of(letter: u8, b: u8) -> bool
    ensures { result ≡ is_digit_of_byte letter b }
{
    if letter == b'x' || letter == b'X' {
        is_hexadecimal(b)
    } else if letter == b'o' || letter == b'O' {
        is_octal(b)
    } else if letter == b'b' || letter == b'B' {
        is_binary(b)
    } else {
        false
    }
}

pub fn begins_operator(b: u8) -> bool
    ensures { result ≡ begins_operator_byte b }
{
    b == b'!'
        || b == b'$'
        || b == b'%'
        || b == b'&'
        || b == b'*'
        || b == b'+'
        || b == b'-'
        || b == b'/'
        || b == b'<'
        || b == b'='
        || b == b'>'
        || b == b'?'
        || b == b'@'
        || b == b'^'
        || b == b'|'
        || b == b'~'
}

fn is_sign(b: u8) -> bool
    ensures { result ≡ is_sign_byte b }
{
    begins_operator(b) || b == b'.' || b == b':'
}

fn continues(b: u8) -> bool
    ensures { result ≡ continues_byte b }
{
    b >= 128 && b <= 191
}

fn is_of(sort: Sort, b: u8) -> bool
    ensures { result ≡ test_of sort b }
{
    match sort {
        Sort::Blank => is_blank(b),
        Sort::LowerLetter => is_lower(b),
        Sort::Name => goes_on(b),
        Sort::Decimal => is_decimal(b),
        Sort::DigitOf(letter) => is_digit_of(letter, b) || b == b'_',
        Sort::Sign => is_sign(b),
        Sort::Later => continues(b),
    }
}

/// How many bytes are left.
pub fn len(text: Rest<'_>) -> usize
    requires { IsPlaced text }
    ensures { result ≡ length (rest_of text.entry) }
{
    text.left.len() + text.right.len() - text.at
}

/// What is left from a place on.
pub fn ahead(text: Rest<'_>, by: usize) -> Rest<'_>
    requires placed { IsPlaced text }
    requires inside { by ≤ length (rest_of text) }
    ensures rest { rest_of result ≡ drop by (rest_of text.entry) }
    ensures placed { IsPlaced result }
    ensures place { result.at ≡ text.entry.at + by }
{
    Rest {
        left: text.left,
        right: text.right,
        at: text.at + by,
    }
}

/// The byte at a place, and 0 behind the end, which no spelling goes on with.
pub fn peek(text: Rest<'_>, i: usize) -> u8
    requires placed { IsPlaced text }
    requires near { i < 2 ^ 33 }
    ensures { result ≡ slice_index (rest_of text.entry) i }
{
    let at = text.at + i;
    if at < text.left.len() {
        text.left[at]
    } else if at - text.left.len() < text.right.len() {
        text.right[at - text.left.len()]
    } else {
        0
    }
}

/// The end of the bytes of one sort from a place on.
pub fn run(text: Rest<'_>, from: usize, sort: Sort) -> usize
    requires placed { IsPlaced text }
    requires inside { from ≤ length (rest_of text) }
    ensures value { result ≡ run_end (test_of sort) from (rest_of text.entry) }
    ensures within { result ≤ length (rest_of text.entry) }
    ensures ahead { from ≤ result }
{
    let end = len(text);
    for i in from..end {
        if !is_of(sort, peek(text, i)) {
            return i;
        }
    }
    end
}

/// The bytes between two places.
pub fn copy(alloc: Global, text: Rest<'_>, from: usize, to: usize) -> Result<Vec<u8>, NoMemory>
    requires placed { IsPlaced text }
    requires order { from ≤ to }
    requires inside { to ≤ length (rest_of text) }
    ensures { IfOk result (λ v. v.items ≡ take (to - from) (drop from (rest_of text.entry))) }
{
    let mut bytes = Vec::new(alloc);
    for i in from..to {
        if bytes.push(peek(text, i)).is_err() {
            return Err(AllocError);
        }
    }
    Ok(bytes)
}

/// The column behind a byte, where that of the byte is known.
fn column_past(byte: u8, col: u32) -> u32
    requires { col < 2 ^ 32 - 1 }
    ensures { result ≡ (if byte == 10 then 0 else col + 1) }
{
    if byte == b'\n' { 0 } else { col + 1 }
}

/// The column of the place so many bytes ahead, where that of the front is known.
pub fn column_ahead(text: Rest<'_>, by: usize, col: u32) -> u32
    requires placed { IsPlaced text }
    requires inside { by ≤ length (rest_of text) }
    requires few { col ≤ text.at }
    ensures { result ≡ column_from col (take by (rest_of text.entry)) }
{
    let mut found = col;
    for i in 0..by {
        found = column_past(peek(text, i), found);
    }
    found
}
