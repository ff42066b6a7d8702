//! What may be completed: names of modules, each with its point, and the beginning of a name.
ghost use Rattle.std.specs.Prelude.{◌≡◌, map, IfOk};
ghost use Rattle.text_terms.specs.Bytes.{str_bytes};
ghost use Rattle.query_model.specs.PrefixParts.{beginning_of, modules_of, parts_of};
ghost use Rattle.query_model.specs.Prefixes as model;
ghost use Rattle.query_model.specs.Prefixes.{goes_on, is_capital, is_small, is_some_read, read_all, read_first, read_next};
ghost use Rattle.name_queries.specs.Prefixes.{read_of};

use std::alloc::{AllocError, Global};
use syntax_tree::{NoMemory, RcStr};

/// What was read of a prefix.
#[derive(Clone, Copy, Debug, PartialEq, Eq)]
enum Read {
    /// Nothing yet, or a point.
    Start,
    /// What may be the name of a module.
    Module,
    /// What is none.
    Name,
    /// No such prefix.
    Other,
}

fn is_capital(byte: u8) -> bool
    ensures { result ≡ is_capital byte }
{
    b'A' <= byte && byte <= b'Z'
}

fn is_small(byte: u8) -> bool
    ensures { result ≡ is_small byte }
{
    b'a' <= byte && byte <= b'z' || byte == b'_'
}

/// Whether a name goes on with the byte.
fn goes_on(byte: u8) -> bool
    ensures { result ≡ goes_on byte }
{
    is_capital(byte) || is_small(byte) || b'0' <= byte && byte <= b'9' || byte == b'\''
}

fn read_first(byte: u8) -> Read
    ensures { read_of result ≡ read_first byte }
{
    if is_capital(byte) {
        Read::Module
    } else if is_small(byte) {
        Read::Name
    } else {
        Read::Other
    }
}

fn read_in_module(byte: u8) -> Read
    ensures { read_of result ≡ read_next model.in_module byte }
{
    if byte == b'.' {
        Read::Start
    } else if goes_on(byte) {
        Read::Module
    } else {
        Read::Other
    }
}

fn read_in_name(byte: u8) -> Read
    ensures { read_of result ≡ read_next model.in_name byte }
{
    if goes_on(byte) {
        Read::Name
    } else {
        Read::Other
    }
}

fn read_next(read: Read, byte: u8) -> Read
    ensures { read_of result ≡ read_next (read_of read) byte }
{
    match read {
        Read::Start => read_first(byte),
        Read::Module => read_in_module(byte),
        Read::Name => read_in_name(byte),
        Read::Other => Read::Other,
    }
}

fn read_all(bytes: &[u8]) -> Read
    ensures { read_of result ≡ read_all model.at_start bytes.now }
{
    let mut read = Read::Start;
    for byte in bytes {
        read = read_next(read, *byte);
    }
    read
}

/// Whether a prefix is names of modules, each with its point, and the beginning of a name, which may be empty.
#[tactic(auto, unfolding(query_model::specs::Prefixes::is_name_prefix))]
pub(crate) fn is_name_prefix(prefix: &str) -> bool
    ensures { result ≡ model.is_name_prefix prefix.now }
{
    match read_all(prefix.as_bytes()) {
        Read::Other => false,
        _ => true,
    }
}

/// What stands between the points of a prefix.
fn parts_of<'a>(alloc: Global, prefix: &'a str) -> Result<Vec<&'a str>, AllocError>
    ensures { IfOk result (λ v. map (λ x. x.now) v.items ≡ parts_of prefix.now) }
{
    prefix.split('.').collect(alloc)
}

/// The same texts, each with an owner of its own.
fn owned(alloc: Global, parts: &[&str]) -> Result<Vec<RcStr>, NoMemory>
    ensures { IfOk result (λ v. map str_bytes v.items ≡ map (λ x. x.now) parts.now) }
{
    let mut texts = Vec::new(alloc);
    for part in parts {
        if texts.push(RcStr::from_str(alloc, part)?).is_err() {
            return Err(AllocError);
        }
    }
    Ok(texts)
}

/// The names of modules of a prefix, and the beginning behind them.
pub(crate) fn split_prefix<'a>(
    alloc: Global,
    prefix: &'a str,
) -> Result<(Vec<RcStr>, &'a str), NoMemory>
    ensures modules { IfOk result (λ p. map str_bytes p.0.items ≡ modules_of prefix.now) }
    ensures beginning { IfOk result (λ p. p.1.now ≡ beginning_of prefix.now) }
{
    let Ok(parts) = parts_of(alloc, prefix) else {
        return Err(AllocError);
    };
    match parts.split_last() {
        None => Ok((Vec::new(alloc), "")),
        Some((beginning, modules)) => Ok((owned(alloc, modules)?, *beginning)),
    }
}
