//! The word before a cursor, and the prefix that it asks for.
ghost use Rattle.std.specs.Prelude.{◌≡◌, ◌≤◌, ◌-◌, length, IfOk};
ghost use Rattle.text_terms.specs.Bytes.{str_bytes};
ghost use Rattle.lsp_model.specs.Frames.{is_digit as is_digit_spec};
ghost use Rattle.lsp_model.specs.Spans.{is_upper as is_upper_spec};
ghost use Rattle.lsp_queries.specs.Prefixes.{as_text, begins_with, bytes_between, has_point as has_point_spec, module_start as module_start_spec, modules_start as modules_start_spec, name_start as name_start_spec, prefix_start, scope_at};
ghost use Rattle.lsp_queries.specs.Scopes.{scope_in};

use lsp_positions::is_name_byte;
use std::alloc::Global;
use syntax_tree::{NoMemory, RcStr};

/// What is completed before a cursor.
#[derive(Clone, Copy)]
pub enum Scope {
    /// Names, with the modules before them.
    Names,
    /// Labels of a record: a point is before the word.
    Labels,
    /// Nothing: the point is that of a number.
    Nothing,
}

/// A prefix that is asked for.
#[derive(Clone, Copy)]
pub struct Asked {
    /// Where the prefix begins.
    pub start: usize,
    /// Where the word begins that is completed.
    pub word: usize,
    pub scope: Scope,
}

/// Where the name that ends at a place begins.
#[tactic(auto, using(lsp_positions::proofs::Runs::run_on, lsp_positions::proofs::Runs::run_off, lsp_positions::proofs::Runs::run_none))]
fn name_start(text: &[u8], end: usize) -> usize
    requires { end ≤ length text.now }
    ensures value { result ≡ name_start_spec text.now end }
    ensures before { result ≤ end }
{
    let mut at = end;
    while 0 < at && is_name_byte(text[at - 1]) {
        at -= 1;
    }
    at
}

/// Whether a point ends at a place.
fn has_point(text: &[u8], end: usize) -> bool
    requires { end ≤ length text.now }
    ensures { result ≡ has_point_spec text.now end }
{
    0 < end && text[end - 1] == b'.'
}

fn is_upper(byte: u8) -> bool
    ensures { result ≡ is_upper_spec byte }
{
    b'A' <= byte && byte <= b'Z'
}

fn is_digit(byte: u8) -> bool
    ensures { result ≡ is_digit_spec byte }
{
    b'0' <= byte && byte <= b'9'
}

/// Whether the name that ends at a place is that of a module.
fn ends_module(text: &[u8], end: usize) -> bool
    requires { end ≤ length text.now }
    ensures { result ≡ begins_with is_upper_spec text.now end }
{
    let start = name_start(text, end);
    start < end && is_upper(text[start])
}

/// Whether a number ends at a place.
fn ends_number(text: &[u8], end: usize) -> bool
    requires { end ≤ length text.now }
    ensures { result ≡ begins_with is_digit_spec text.now end }
{
    let start = name_start(text, end);
    start < end && is_digit(text[start])
}

/// Where the module's name begins that ends at a point before a place; the place itself where there is none.
fn module_start(text: &[u8], end: usize) -> usize
    requires { end ≤ length text.now }
    ensures value { result ≡ module_start_spec text.now end }
    ensures before { result ≤ end }
{
    if has_point(text, end) && ends_module(text, end - 1) {
        name_start(text, end - 1)
    } else {
        end
    }
}

/// Where the modules begin that are before a place.
#[tactic(auto, using(crate::proofs::Modules::module_on, crate::proofs::Modules::module_off, crate::proofs::Modules::module_none), unfolding(crate::specs::Prefixes::prefix_start))]
fn modules_start(text: &[u8], end: usize) -> usize
    requires { end ≤ length text.now }
    ensures value { result ≡ prefix_start text.now end }
    ensures before { result ≤ end }
{
    let mut at = end;
    let mut left = end;
    while 0 < left {
        let start = module_start(text, at);
        if at <= start {
            return at;
        }
        at = start;
        left -= 1;
    }
    at
}

/// What a prefix completes that begins at a place.
fn scope_of(text: &[u8], start: usize) -> Scope
    requires { start ≤ length text.now }
    ensures { scope_in result ≡ scope_at text.now start }
{
    if !has_point(text, start) {
        return Scope::Names;
    }
    if ends_number(text, start - 1) {
        Scope::Nothing
    } else {
        Scope::Labels
    }
}

/// What is asked for at a place of a text.
pub fn asked_before(text: &[u8], at: usize) -> Asked
    requires { at ≤ length text.now }
    ensures word { result.word ≡ name_start_spec text.now at }
    ensures start { result.start ≡ prefix_start text.now (name_start_spec text.now at) }
    ensures scope { scope_in result.scope ≡ scope_at text.now (prefix_start text.now (name_start_spec text.now at)) }
    ensures start_before { result.start ≤ at }
    ensures word_before { result.word ≤ at }
{
    let word = name_start(text, at);
    let start = modules_start(text, word);
    Asked {
        start,
        word,
        scope: scope_of(text, start),
    }
}

/// Bytes as a text; names and points are always one.
#[tactic(auto, using(crate::proofs::Modules::text_is, crate::proofs::Modules::text_is_not))]
fn text_of(bytes: &[u8]) -> &str
    ensures { result.now ≡ as_text bytes.now }
{
    match std::str::from_utf8(bytes) {
        Ok(text) => text,
        Err(_) => "",
    }
}

/// The text of a prefix, from one place to another.
pub fn prefix_text(alloc: Global, text: &[u8], start: usize, end: usize) -> Result<RcStr, NoMemory>
    requires order { start ≤ end }
    requires within { end ≤ length text.now }
    ensures { IfOk result (λ p. str_bytes p ≡ as_text (bytes_between text.now start end)) }
{
    let tail = &text[start..];
    RcStr::from_str(alloc, text_of(&tail[..end - start]))
}
