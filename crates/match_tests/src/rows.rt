//! Rows of patterns, read from short texts.
use pattern_matrix::{Built, Matrix, NoMemory, Pat, PatRow};
use std::alloc::Global;
use std::rc::Rc;
use text_terms::RcStr;

/// The constructors of a type, each with its number of parts.
type Constructors = &'static [(&'static str, usize)];

/// The constructors of some types.
const TYPES: &[Constructors] = &[
    &[("false", 0), ("true", 0)],
    &[("[]", 0), ("::", 2)],
    &[("None", 0), ("Some", 1)],
    &[("A", 0), ("B", 1), ("C", 1)],
    &[("{l; m}", 2)],
    &[("(,)", 2)],
];

const NONE: Constructors = &[];

/// Some exceptions.
const EXCEPTIONS: Constructors = &[("Not_found", 0), ("Failure", 1)];

fn family(alloc: Global, names: Constructors) -> Result<Rc<Vec<Built>>, NoMemory> {
    let mut all = Vec::new(alloc);
    for (name, parts) in names {
        let name = RcStr::from_str(alloc, name)?;
        let parts = *parts;
        all.push(Built { name, parts })?;
    }
    Ok(Rc::new(alloc, all)?)
}

/// Takes the last patterns, so many of them, the last one first.
fn take(alloc: Global, pats: &mut Vec<Pat>, count: usize) -> Result<Vec<Pat>, NoMemory> {
    let mut taken = Vec::new(alloc);
    for _ in 0..count {
        if let Some(pat) = pats.pop() {
            taken.push(pat)?;
        }
    }
    Ok(taken)
}

/// How many parts a constructor has; None where these have none of its name.
fn parts_of(names: Constructors, word: &str) -> Option<usize> {
    for (name, parts) in names {
        if *name == word {
            return Some(*parts);
        }
    }
    None
}

/// The constructors of the type that has this one; None for a literal or an exception.
fn type_of(word: &str) -> Option<Constructors> {
    for names in TYPES {
        if parts_of(names, word).is_some() {
            return Some(names);
        }
    }
    None
}

fn built(alloc: Global, word: &str, all: Constructors, parts: Vec<Pat>) -> Result<Pat, NoMemory> {
    let all = family(alloc, all)?;
    let name = RcStr::from_str(alloc, word)?;
    Ok(Pat::Con { all, name, parts })
}

/// A constructor with its parts, or a literal. No patterns have all exceptions, so the constructors of theirs are none.
fn named(alloc: Global, word: &str, pats: &mut Vec<Pat>) -> Result<Pat, NoMemory> {
    let (all, of) = match type_of(word) {
        Some(names) => (names, names),
        None => (NONE, EXCEPTIONS),
    };
    match parts_of(of, word) {
        Some(count) => built(alloc, word, all, take(alloc, pats, count)?),
        None => Ok(Pat::Literal(RcStr::from_str(alloc, word)?)),
    }
}

fn pattern(alloc: Global, word: &str, pats: &mut Vec<Pat>) -> Result<Pat, NoMemory> {
    match word {
        "_" => Ok(Pat::Any),
        "|" => Ok(Pat::Either(take(alloc, pats, 2)?)),
        _ => named(alloc, word, pats),
    }
}

/// Puts the patterns of a text, the last one first: they are written before their parts, with strokes between, so
/// `Some/_/|/1/2` is Some _ and 1 | 2.
fn read(alloc: Global, text: &str, pats: &mut Vec<Pat>) -> Result<(), NoMemory> {
    for word in text.rsplit('/') {
        let pat = pattern(alloc, word, pats)?;
        pats.push(pat)?;
    }
    Ok(())
}

/// A row of a text so many times. With a `!` in front it has a guard.
pub fn row(alloc: Global, text: &str, times: usize) -> Result<PatRow, NoMemory> {
    let mut pats = Vec::new(alloc);
    for _ in 0..times {
        read(alloc, text.trim_start_matches('!'), &mut pats)?;
    }
    pats.reverse();
    let guarded = text.starts_with('!');
    Ok(PatRow { pats, guarded })
}

/// Rows of some texts, each so many times.
pub fn matrix(alloc: Global, texts: &[&str], times: usize) -> Result<Matrix, NoMemory> {
    let mut rows = Vec::new(alloc);
    for text in texts {
        rows.push(row(alloc, text, times)?)?;
    }
    Ok(Matrix { rows })
}
