//! The text of cases.
ghost use Rattle.std.specs.Prelude.{◌≡◌, ◌++◌, [], map, codes, string_bytes, option_map, OnOk, IfOk};
ghost use Rattle.text_terms.specs.Bytes.{str_bytes};
ghost use Rattle.syntax_tree.specs.View.{place_of};
ghost use Rattle.type_alternatives.specs.Alternatives.{outermost_of};
ghost use Rattle.type_alternatives.specs.Templates.{before_each, separated};
ghost use Rattle.case_analysis.specs.declared.subjects.Subject.TheVariants as kind;
ghost use Rattle.case_analysis.specs.Splits.{pattern_text, case_text, split_text, source_at, constructor_pattern};

use crate::subjects::Subject;
use std::alloc::Global;
use syntax_tree::{NoMemory, RcStr, Span};
use type_alternatives::{Alternative, Argument, put, put_record, put_tuple, written};

/// Puts a constructor's path behind a text, with `_` where it has an argument.
fn put_constructor(text: &mut String, path: &str, argument: Argument) -> Result<(), NoMemory>
    ensures { OnOk result (string_bytes text.new ≡ string_bytes text.old ++ constructor_pattern path.now argument) }
{
    put(text, path)?;
    match argument {
        Argument::None => Ok(()),
        Argument::One => put(text, " _"),
        Argument::Tuple(_) => put(text, " _"),
    }
}

/// Puts an alternative as a pattern behind a text.
fn put_pattern(text: &mut String, alternative: &Alternative) -> Result<(), NoMemory>
    ensures { OnOk result (string_bytes text.new ≡ string_bytes text.old ++ pattern_text (outermost_of alternative.now)) }
{
    match alternative {
        Alternative::Constructor(path, argument) => put_constructor(text, written(path), *argument),
        Alternative::Constant(constant) => put(text, constant),
        Alternative::Cons => put(text, "_ :: _"),
        Alternative::Tuple(parts) => put_tuple(text, *parts),
        Alternative::Record(labels) => put_record(text, labels),
    }
}

/// Puts ` | A _ -> _` for each alternative behind a text.
fn put_cases(text: &mut String, list: &[Alternative]) -> Result<(), NoMemory>
    ensures { OnOk result (string_bytes text.new ≡ string_bytes text.old ++ before_each (codes " | ") (map case_text (map outermost_of list.now))) }
{
    for alternative in list {
        put(text, " | ")?;
        put_pattern(text, alternative)?;
        put(text, " -> _")?;
    }
    Ok(())
}

/// Puts ` | A _` for each alternative behind a text.
fn put_others(text: &mut String, list: &[Alternative]) -> Result<(), NoMemory>
    ensures { OnOk result (string_bytes text.new ≡ string_bytes text.old ++ before_each (codes " | ") (map pattern_text (map outermost_of list.now))) }
{
    for alternative in list {
        put(text, " | ")?;
        put_pattern(text, alternative)?;
    }
    Ok(())
}

/// Puts `A | B _` behind a text.
fn put_patterns(text: &mut String, list: &[Alternative]) -> Result<(), NoMemory>
    ensures { OnOk result (string_bytes text.new ≡ string_bytes text.old ++ separated (codes " | ") (map pattern_text (map outermost_of list.now))) }
{
    match list.split_first() {
        None => Ok(()),
        Some((first, others)) => {
            put_pattern(text, first)?;
            put_others(text, others)
        }
    }
}

fn put_match(text: &mut String, source: &str, list: &[Alternative]) -> Result<(), NoMemory>
    ensures { OnOk result (string_bytes text.new ≡ string_bytes text.old ++ split_text kind.Expression source.now (map outermost_of list.now)) }
{
    put(text, "(match ")?;
    put(text, source)?;
    put(text, " with")?;
    put_cases(text, list)?;
    put(text, ")")
}

fn put_any(text: &mut String, list: &[Alternative]) -> Result<(), NoMemory>
    ensures { OnOk result (string_bytes text.new ≡ string_bytes text.old ++ split_text kind.Any [] (map outermost_of list.now)) }
{
    put(text, "(")?;
    put_patterns(text, list)?;
    put(text, ")")
}

fn put_named(text: &mut String, source: &str, list: &[Alternative]) -> Result<(), NoMemory>
    ensures { OnOk result (string_bytes text.new ≡ string_bytes text.old ++ split_text kind.Name source.now (map outermost_of list.now)) }
{
    put(text, "((")?;
    put_patterns(text, list)?;
    put(text, ") as ")?;
    put(text, source)?;
    put(text, ")")
}

/// Puts what goes in place of a node of this source text behind a text.
fn put_split(
    text: &mut String,
    subject: Subject,
    source: &str,
    list: &[Alternative],
) -> Result<(), NoMemory>
    ensures { OnOk result (string_bytes text.new ≡ string_bytes text.old ++ split_text subject source.now (map outermost_of list.now)) }
{
    match subject {
        Subject::Expression => put_match(text, source, list),
        Subject::Any => put_any(text, list),
        Subject::Name => put_named(text, source, list),
    }
}

/// What goes in place of a node of this source text.
pub(crate) fn split_text(
    alloc: Global,
    subject: Subject,
    source: &str,
    list: &[Alternative],
) -> Result<RcStr, NoMemory>
    ensures { IfOk result (λ r. str_bytes r ≡ split_text subject source.now (map outermost_of list.now)) }
{
    let mut text = String::new(alloc);
    put_split(&mut text, subject, source, list)?;
    RcStr::new(alloc, text)
}

/// The bytes of a span as text. None where the text has no such span, or it stands inside a character.
pub(crate) fn source_of(text: &[u8], span: Span) -> Option<&str>
    ensures { option_map (λ s. s.now) result ≡ source_at text.now (place_of span) }
{
    let (start, end) = (span.start as usize, span.end as usize);
    if start > end || end > text.len() {
        return None;
    }
    match std::str::from_utf8(&text[start..end]) {
        Ok(source) => Some(source),
        Err(_) => None,
    }
}
