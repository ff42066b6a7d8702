//! The terms of a type, as candidates in place of a hole.
ghost use Rattle.std.specs.Prelude.{◌≡◌, ◌∷◌, ◌++◌, [], All, map, string_bytes, IfOk, OnOk};
ghost use Rattle.text_terms.specs.Bytes.{str_bytes};
ghost use Rattle.type_alternatives.specs.Alternatives.{outermost_of, values_of};
ghost use Rattle.type_alternatives.specs.declared.values.Argument.TheVariants as variant;
ghost use Rattle.construct_terms.specs.Terms.{IsAt};
ghost use Rattle.construct_terms.specs.Wanted.{constructor_term, term_text, terms_of, terms_by, texts_of};

use query_engine::Replacement;
use std::alloc::{AllocError, Global};
use syntax_tree::{NoMemory, RcStr, Span};
use type_alternatives::{
    Alternative, Alternatives, Argument, hidden_in, put, put_record, put_tuple, written,
};

/// Puts a constructor as an expression behind a text.
fn put_constructor(text: &mut String, path: &str, argument: Argument) -> Result<(), NoMemory>
    ensures { OnOk result (string_bytes text.new ≡ string_bytes text.old ++ constructor_term path.now argument) }
{
    match argument {
        Argument::None => put(text, path),
        Argument::One => put_applied(text, path),
        Argument::Tuple(parts) => put_applied_to_tuple(text, path, parts),
    }
}

fn put_applied(text: &mut String, path: &str) -> Result<(), NoMemory>
    ensures { OnOk result (string_bytes text.new ≡ string_bytes text.old ++ constructor_term path.now variant.One) }
{
    put(text, "(")?;
    put(text, path)?;
    put(text, " _)")
}

fn put_applied_to_tuple(text: &mut String, path: &str, parts: usize) -> Result<(), NoMemory>
    ensures { OnOk result (string_bytes text.new ≡ string_bytes text.old ++ constructor_term path.now (variant.Tuple parts)) }
{
    put(text, "(")?;
    put(text, path)?;
    put(text, " ")?;
    put_tuple(text, parts)?;
    put(text, ")")
}

/// Puts an alternative as an expression behind a text.
fn put_term(text: &mut String, alternative: &Alternative) -> Result<(), NoMemory>
    ensures { OnOk result (string_bytes text.new ≡ string_bytes text.old ++ term_text (outermost_of alternative.now)) }
{
    match alternative {
        Alternative::Constructor(path, argument) => put_constructor(text, written(path), *argument),
        Alternative::Constant(constant) => put(text, constant),
        Alternative::Cons => put(text, "(_ :: _)"),
        Alternative::Tuple(parts) => put_tuple(text, *parts),
        Alternative::Record(labels) => put_record(text, labels),
    }
}

/// Where candidates go, and what stands in front of each.
#[derive(Clone, Copy)]
pub(crate) struct Hollow<'a> {
    pub(crate) span: Span,
    pub(crate) front: &'a str,
}

/// Puts a candidate of this text behind others.
fn add(hollow: Hollow<'_>, text: RcStr, out: &mut Vec<Replacement>) -> Result<(), NoMemory>
    ensures at { OnOk result (All (IsAt hollow.entry.span) out.old.items → All (IsAt hollow.entry.span) out.new.items) }
    ensures texts { OnOk result (texts_of out.new.items ≡ texts_of out.old.items ++ str_bytes text ∷ []) }
{
    let candidate = Replacement {
        span: hollow.span,
        text,
    };
    out.push(candidate).map_err(|_| AllocError)
}

fn term_of(alloc: Global, front: &str, alternative: &Alternative) -> Result<RcStr, NoMemory>
    ensures { IfOk result (λ r. str_bytes r ≡ front.now ++ term_text (outermost_of alternative.now)) }
{
    let mut text = String::new(alloc);
    put(&mut text, front)?;
    put_term(&mut text, alternative)?;
    RcStr::new(alloc, text)
}

fn plain_term(alloc: Global, front: &str, term: &str) -> Result<RcStr, NoMemory>
    ensures { IfOk result (λ r. str_bytes r ≡ front.now ++ term.now) }
{
    let mut text = String::new(alloc);
    put(&mut text, front)?;
    put(&mut text, term)?;
    RcStr::new(alloc, text)
}

/// Puts the candidate of an alternative behind others, if its names are reached.
fn add_reached(
    alloc: Global,
    hollow: Hollow<'_>,
    alternative: &Alternative,
    out: &mut Vec<Replacement>,
) -> Result<(), NoMemory>
    ensures at { OnOk result (All (IsAt hollow.entry.span) out.old.items → All (IsAt hollow.entry.span) out.new.items) }
    ensures texts { OnOk result (texts_of out.new.items ≡ texts_of out.old.items ++ terms_of hollow.entry.front.now (outermost_of alternative.now ∷ [])) }
{
    match hidden_in(alternative) {
        Some(_) => Ok(()),
        None => add(hollow, term_of(alloc, hollow.front, alternative)?, out),
    }
}

fn known_terms(
    alloc: Global,
    hollow: Hollow<'_>,
    list: &[Alternative],
) -> Result<Vec<Replacement>, NoMemory>
    ensures at { IfOk result (λ made. All (IsAt hollow.entry.span) made.items) }
    ensures texts { IfOk result (λ made. texts_of made.items ≡ terms_of hollow.entry.front.now (map outermost_of list.now)) }
{
    let mut out = Vec::new(alloc);
    for alternative in list {
        add_reached(alloc, hollow, alternative, &mut out)?;
    }
    Ok(out)
}

fn one_term(alloc: Global, hollow: Hollow<'_>, term: &str) -> Result<Vec<Replacement>, NoMemory>
    ensures at { IfOk result (λ made. All (IsAt hollow.entry.span) made.items) }
    ensures texts { IfOk result (λ made. texts_of made.items ≡ (hollow.entry.front.now ++ term.now) ∷ []) }
{
    let mut out = Vec::new(alloc);
    add(hollow, plain_term(alloc, hollow.front, term)?, &mut out)?;
    Ok(out)
}

/// The terms of a type, as far as their names are reached.
pub(crate) fn terms_by(
    alloc: Global,
    hollow: Hollow<'_>,
    found: &Alternatives,
) -> Result<Vec<Replacement>, NoMemory>
    ensures at { IfOk result (λ made. All (IsAt hollow.entry.span) made.items) }
    ensures texts { IfOk result (λ made. texts_of made.items ≡ terms_by hollow.entry.front.now (values_of found.now)) }
{
    match found {
        Alternatives::Known(list) => known_terms(alloc, hollow, list),
        Alternatives::Arrow => one_term(alloc, hollow, "(fun _ -> _)"),
        Alternatives::Literal(literal) => one_term(alloc, hollow, literal),
        Alternatives::Unknown => Ok(Vec::new(alloc)),
    }
}
