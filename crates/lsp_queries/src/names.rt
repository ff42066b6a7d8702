//! Where an item's name is in its text.
ghost use Rattle.std.specs.Prelude.{◌≤◌, length};
ghost use Rattle.lsp_model.specs.Positions.{text_limit};

use lsp_positions::is_name_byte;
use syntax_tree::Span;

fn is_blank(byte: u8) -> bool {
    byte == b' ' || byte == b'\t' || byte == b'\r' || byte == b'\n'
}

/// Where the blanks before a place begin.
fn blanks_start(text: &[u8], end: usize) -> usize
    requires { end ≤ length text.now }
    ensures { result ≤ end }
{
    let mut at = end;
    while 0 < at && is_blank(text[at - 1]) {
        at -= 1;
    }
    at
}

/// Where the blanks from a place on end.
fn blanks_end(text: &[u8], start: usize) -> usize
    requires { start ≤ length text.now }
    ensures { result ≤ length text.now }
{
    for at in start..text.len() {
        if !is_blank(text[at]) {
            return at;
        }
    }
    text.len()
}

/// Whether a byte of a name is at a place.
fn has_name_byte(text: &[u8], at: usize) -> bool {
    match text.get(at) {
        Some(byte) => is_name_byte(*byte),
        None => false,
    }
}

/// Whether a name begins at a place and ends before another, and is no part of a longer one.
fn is_word(text: &[u8], start: usize, end: usize) -> bool {
    !(0 < start && has_name_byte(text, start - 1)) && !has_name_byte(text, end)
}

/// Whether a place follows an equals sign, so that a name there is used and not defined.
fn follows_equals(text: &[u8], start: usize) -> bool
    requires { start ≤ length text.now }
{
    let end = blanks_start(text, start);
    0 < end && text[end - 1] == b'='
}

/// Whether the name stands at a place, as a word of its own.
fn stands_at(text: &[u8], name: &[u8], at: usize) -> bool
    requires { at ≤ length text.now }
{
    let end = at + name.len();
    text[at..].starts_with(name) && is_word(text, at, end)
}

/// The token of an operator's name whose sign is at a place: the sign with the parentheses round it.
fn with_parentheses(text: &[u8], start: usize, end: usize) -> Span
    requires short { length text.now ≤ text_limit }
    requires start { start ≤ length text.now }
    requires end { end ≤ length text.now }
{
    let open = blanks_start(text, start);
    let close = blanks_end(text, end);
    let is_open = 0 < open && text[open - 1] == b'(';
    let is_closed = close < text.len() && text[close] == b')';
    if is_open && is_closed {
        Span {
            start: (open - 1) as u32,
            end: close as u32 + 1,
        }
    } else {
        Span {
            start: start as u32,
            end: end as u32,
        }
    }
}

/// The first place between two at which the name stands and doesn't follow an equals sign; None where there is none.
fn defining_place(text: &[u8], name: &[u8], start: usize, end: usize) -> Option<usize>
    requires { end ≤ length text.now }
{
    for at in start..end {
        if stands_at(text, name, at) && !follows_equals(text, at) {
            return Some(at);
        }
    }
    None
}

/// The first place between two at which the name stands; None where there is none.
fn first_place(text: &[u8], name: &[u8], start: usize, end: usize) -> Option<usize>
    requires { end ≤ length text.now }
{
    for at in start..end {
        if stands_at(text, name, at) {
            return Some(at);
        }
    }
    None
}

/// Where the name of an item is, within the item: the first place that doesn't follow an equals sign, or else the first. None
/// where it stands nowhere in it.
pub fn name_in(text: &[u8], item: Span, name: &[u8]) -> Option<Span>
    requires { length text.now ≤ text_limit }
{
    let start = item.start as usize;
    let last = (item.end as usize).min(text.len());
    let found = match defining_place(text, name, start, last) {
        Some(at) => Some(at),
        None => first_place(text, name, start, last),
    };
    let at = found?.min(text.len());
    let end = (at + name.len()).min(text.len());
    Some(with_parentheses(text, at, end))
}
