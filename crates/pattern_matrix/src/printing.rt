//! Shapes printed as patterns.
ghost use Rattle.std.specs.Prelude.{◌≡◌, ◌++◌, ◌+◌, ◌<◌, [], true, length, drop, slice_index, map, codes, string_bytes, IfOk, OnOk};
ghost use Rattle.text_terms.specs.Bytes.{str_bytes};
ghost use Rattle.match_model.specs.Values.{of_built};
ghost use Rattle.match_model.specs.Forms.{tuple_name};
ghost use Rattle.match_model.specs.Printed as model;
ghost use Rattle.match_model.specs.Printed.{text_of, label_names, first_name, behind_first};
ghost use Rattle.pattern_matrix.specs.Lines.{shapes_in};
ghost use Rattle.pattern_matrix.specs.Views.{shape_of};
ghost use Rattle.pattern_matrix.specs.Printed.{is_mark, within_of, IsFirstMark};

use crate::patterns::{Shape, TUPLE};
use std::alloc::Global;
use text_terms::{NoMemory, RcStr};

/// Where a shape stands.
#[derive(Clone, Copy)]
enum Within {
    Alone,
    LeftOfCons,
    Argument,
}

/// The shape as a pattern.
pub fn print_shape(alloc: Global, shape: &Shape) -> Result<RcStr, NoMemory>
    ensures { IfOk result (λ r. str_bytes r ≡ text_of model.alone (shape_of shape.now)) }
{
    let mut text = String::new(alloc);
    print_in(alloc, &mut text, Within::Alone, shape)?;
    RcStr::new(alloc, text)
}

#[cycle(printing)]
fn print_in(alloc: Global, text: &mut String, within: Within, shape: &Shape) -> Result<(), NoMemory>
    ensures { OnOk result (string_bytes text.new ≡ string_bytes text.old ++ text_of (within_of within) (shape_of shape.now)) }
{
    match shape {
        Shape::Any => write(text, "_"),
        Shape::Con(name, parts) => print_built(alloc, text, within, name, parts),
        Shape::Tuple(parts) => print_tuple(alloc, text, parts),
        Shape::Literal(spelling) => write(text, spelling.as_str()),
    }
}

#[cycle(printing)]
fn print_built(
    alloc: Global,
    text: &mut String,
    within: Within,
    name: &RcStr,
    parts: &[Shape],
) -> Result<(), NoMemory>
    ensures { OnOk result (string_bytes text.new ≡ string_bytes text.old ++ text_of (within_of within) (of_built (str_bytes name.now) (shapes_in (map shape_of parts.now)))) }
{
    if name.is(TUPLE) {
        return print_tuple(alloc, text, parts);
    }
    if name.is("::") {
        return print_cons_in(alloc, text, within, parts);
    }
    if is_record(name) {
        return print_record(alloc, text, name, parts);
    }
    print_applied(alloc, text, within, name, parts)
}

/// Whether a name is that of a record: it begins with a brace.
fn is_record(name: &RcStr) -> bool
    ensures { result ≡ model.is_record (str_bytes name.now) }
{
    match name.as_str().as_bytes().first() {
        Some(first) => *first == b'{',
        None => false,
    }
}

#[cycle(printing)]
fn print_tuple(alloc: Global, text: &mut String, parts: &[Shape]) -> Result<(), NoMemory>
    ensures { OnOk result (string_bytes text.new ≡ string_bytes text.old ++ codes "(" ++ model.listed (shapes_in (map shape_of parts.now)) ++ codes ")") }
{
    write(text, "(")?;
    print_listed(alloc, text, parts)?;
    write(text, ")")
}

/// s, s
#[cycle(printing)]
#[tactic(auto, using(crate::proofs::Labels::listed_first, crate::proofs::Labels::listed_next))]
fn print_listed(alloc: Global, text: &mut String, parts: &[Shape]) -> Result<(), NoMemory>
    ensures { OnOk result (string_bytes text.new ≡ string_bytes text.old ++ model.listed (shapes_in (map shape_of parts.now))) }
{
    let mut mark = "";
    for part in parts {
        write(text, mark)?;
        print_in(alloc, text, Within::Alone, part)?;
        mark = ", ";
    }
    Ok(())
}

/// s :: s, in parentheses where they are wanted.
#[cycle(printing)]
fn print_cons_in(
    alloc: Global,
    text: &mut String,
    within: Within,
    parts: &[Shape],
) -> Result<(), NoMemory>
    ensures { OnOk result (string_bytes text.new ≡ string_bytes text.old ++ model.wrapped (model.wraps_cons (within_of within)) (model.cons_of (shapes_in (map shape_of parts.now)))) }
{
    match within {
        Within::Alone => print_cons(alloc, text, parts),
        _ => {
            write(text, "(")?;
            print_cons(alloc, text, parts)?;
            write(text, ")")
        }
    }
}

#[cycle(printing)]
fn print_cons(alloc: Global, text: &mut String, parts: &[Shape]) -> Result<(), NoMemory>
    ensures { OnOk result (string_bytes text.new ≡ string_bytes text.old ++ model.cons_of (shapes_in (map shape_of parts.now))) }
{
    match parts {
        [] => Ok(()),
        [left] => print_in(alloc, text, Within::LeftOfCons, left),
        [left, right, ..] => {
            print_in(alloc, text, Within::LeftOfCons, left)?;
            write(text, " :: ")?;
            print_in(alloc, text, Within::Alone, right)
        }
    }
}

/// The labels stand in the name, in braces and joined by `; `.
#[cycle(printing)]
fn print_record(
    alloc: Global,
    text: &mut String,
    name: &RcStr,
    parts: &[Shape],
) -> Result<(), NoMemory>
    ensures { OnOk result (string_bytes text.new ≡ string_bytes text.old ++ codes "{ " ++ model.fields (label_names (str_bytes name.now) []) (shapes_in (map shape_of parts.now)) ++ codes " }") }
{
    write(text, "{ ")?;
    print_fields(alloc, text, name.as_str(), parts)?;
    write(text, " }")
}

/// l = s; l = s
#[cycle(printing)]
#[tactic(auto, using(crate::proofs::Labels::fields_first, crate::proofs::Labels::fields_next))]
fn print_fields(
    alloc: Global,
    text: &mut String,
    labels: &str,
    parts: &[Shape],
) -> Result<(), NoMemory>
    ensures { OnOk result (string_bytes text.new ≡ string_bytes text.old ++ model.fields (label_names labels.now []) (shapes_in (map shape_of parts.now))) }
{
    let mut labels = labels;
    let mut mark = "";
    for part in parts {
        write(text, mark)?;
        labels = print_field(alloc, text, labels, part)?;
        mark = "; ";
    }
    Ok(())
}

/// Prints the first label with a shape, and gives the labels after it.
#[cycle(printing)]
fn print_field<'a>(
    alloc: Global,
    text: &mut String,
    labels: &'a str,
    part: &Shape,
) -> Result<&'a str, NoMemory>
    ensures text { OnOk result (string_bytes text.new ≡ string_bytes text.old ++ first_name (label_names labels.now []) ++ codes " = " ++ text_of model.alone (shape_of part.now)) }
    ensures rest { IfOk result (λ rest. label_names rest.now [] ≡ behind_first (label_names labels.now [])) }
{
    let (label, rest) = first_label(alloc, labels)?;
    write(text, label.as_str())?;
    write(text, " = ")?;
    print_in(alloc, text, Within::Alone, part)?;
    Ok(rest)
}

#[cycle(printing)]
fn print_applied(
    alloc: Global,
    text: &mut String,
    within: Within,
    name: &RcStr,
    parts: &[Shape],
) -> Result<(), NoMemory>
    ensures { OnOk result (string_bytes text.new ≡ string_bytes text.old ++ model.applied (within_of within) (str_bytes name.now) (shapes_in (map shape_of parts.now))) }
{
    match parts.first() {
        None => write(text, name.as_str()),
        Some(part) => match within {
            Within::Argument => {
                write(text, "(")?;
                print_over(alloc, text, name, part)?;
                write(text, ")")
            }
            _ => print_over(alloc, text, name, part),
        },
    }
}

/// A s
#[cycle(printing)]
fn print_over(alloc: Global, text: &mut String, name: &RcStr, part: &Shape) -> Result<(), NoMemory>
    ensures { OnOk result (string_bytes text.new ≡ string_bytes text.old ++ str_bytes name.now ++ codes " " ++ text_of model.as_argument (shape_of part.now)) }
{
    write(text, name.as_str())?;
    write(text, " ")?;
    print_in(alloc, text, Within::Argument, part)
}

fn write(text: &mut String, more: &str) -> Result<(), NoMemory>
    ensures { OnOk result (string_bytes text.new ≡ string_bytes text.old ++ more.now) }
{
    text.push_str(more)
}

/// Whether a byte of a record's name is no part of a label.
fn is_mark(byte: u8) -> bool
    ensures { result ≡ is_mark byte }
{
    matches!(byte, b'{' | b'}' | b';' | b' ')
}

/// The first label that stands in a record's name, and what is behind it.
fn first_label<'a>(alloc: Global, labels: &'a str) -> Result<(String, &'a str), NoMemory>
    ensures { IfOk result (λ r. (string_bytes r.0 ≡ first_name (label_names labels.now [])) × (label_names r.1.now [] ≡ behind_first (label_names labels.now []))) }
{
    label_after(alloc, String::new(alloc), labels)
}

/// The same, where a part of the label was read.
fn label_after<'a>(
    alloc: Global,
    label: String,
    labels: &'a str,
) -> Result<(String, &'a str), NoMemory>
    ensures { IfOk result (λ r. (string_bytes r.0 ≡ first_name (label_names labels.now (string_bytes label))) × (label_names r.1.now [] ≡ behind_first (label_names labels.now (string_bytes label)))) }
{
    let Some(end) = first_mark(labels) else {
        return Ok((String::new(alloc), ""));
    };
    let mut label = label;
    label.push_str(&labels[..end])?;
    let rest = past(labels, end);
    match labels.as_bytes()[end] {
        b'{' => label_after(alloc, String::new(alloc), rest),
        b'}' => Ok((label, "")),
        b';' => Ok((label, rest)),
        _ => label_after(alloc, label, rest),
    }
}

/// What is after a byte that is no part of a label.
fn past(labels: &str, end: usize) -> &str
    requires within { end < length labels.now }
    requires mark { is_mark (slice_index labels.now end) ≡ true }
    ensures { result.now ≡ drop (end + 1) labels.now }
{
    &labels[end + 1..]
}

/// Where the first byte is that is no part of a label.
#[tactic(auto, using(crate::proofs::Labels::plain_more))]
fn first_mark(labels: &str) -> Option<usize>
    ensures { IsFirstMark labels.now result }
{
    for i in 0..labels.len() {
        if is_mark(labels.as_bytes()[i]) {
            return Some(i);
        }
    }
    None
}
