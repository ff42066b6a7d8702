//! The search for a value that a row matches and no line does (Maranget 2007), column by column from the left.
ghost use Rattle.std.specs.Prelude.{◌≡◌, [], ◌∷◌, ◌++◌, map, take, drop, Some, IfOk, OnOk};
ghost use Rattle.text_terms.specs.Bytes.{str_bytes};
ghost use Rattle.match_model.specs.Values.{of_built, open_shape};
ghost use Rattle.pattern_matrix.specs.Lines.{any, listed, column, family, open_built, open_shapes, built_head, shapes_in};
ghost use Rattle.pattern_matrix.specs.Search.{Finds, FindsUnder, row_in, some_in, members_in, with_head};
ghost use Rattle.pattern_matrix.specs.Known.{IsKnown};
ghost use Rattle.pattern_matrix.specs.Views.{member_of, members_of, typed_of, cell_view, cells_view, lines_view, head_view, shape_of, shapes_view};

use crate::columns::{
    Cell, Head, extended, family, first_absent, head_of, headless, lines_under, opened,
};
use crate::known::{Known, mark_of};
use crate::lines::Line;
use crate::patterns::{Built, Pat, Shape, TUPLE};
use std::alloc::{AllocError, Global};
use text_terms::{NoMemory, RcStr};

/// The shapes of the columns, or None where the lines match each value that the row matches. It goes into so many columns, one
/// call in the other; more are want of memory, since the stack is memory too.
#[cycle(search)]
pub(crate) fn search<'a>(
    alloc: Global,
    known: &mut Known<'a>,
    depth: u32,
    lines: Vec<Line<'a>>,
    row: Vec<Cell<'a>>,
) -> Result<Option<Vec<Shape>>, NoMemory>
    requires known { IsKnown known.old }
    ensures kept { OnOk result (IsKnown known.new) }
    ensures found { IfOk result (λ r. Finds (row_in (lines_view lines.entry.items) (cells_view row.entry.items)) (shapes_view r)) }
{
    let Some((first, rest)) = row.split_first() else {
        return Ok(at_end(alloc, &lines));
    };
    let Some(depth) = depth.checked_sub(1) else {
        return Err(AllocError);
    };
    let mark = mark_of(&lines, &row);
    if known.has(mark, &lines, &row) {
        return Ok(None);
    }
    let found = search_first(alloc, known, depth, &lines, *first, rest)?;
    if found.is_none() {
        known.add(mark, lines, row)?;
    }
    Ok(found)
}

/// What is found where no column is left.
fn at_end(alloc: Global, lines: &[Line<'_>]) -> Option<Vec<Shape>>
    ensures { Finds (row_in (lines_view lines.now) []) (shapes_view result) }
{
    match lines {
        [] => Some(Vec::new(alloc)),
        _ => None,
    }
}

#[cycle(search)]
fn search_first<'a>(
    alloc: Global,
    known: &mut Known<'a>,
    depth: u32,
    lines: &[Line<'a>],
    first: Cell<'a>,
    rest: &[Cell<'a>],
) -> Result<Option<Vec<Shape>>, NoMemory>
    requires known { IsKnown known.old }
    ensures kept { OnOk result (IsKnown known.new) }
    ensures found { IfOk result (λ r. Finds (row_in (lines_view lines.now) (cell_view first.entry ∷ cells_view rest.now)) (shapes_view r)) }
{
    match first {
        Cell::Any => search_any(alloc, known, depth, lines, rest),
        Cell::Of(pat) => match pat {
            Pat::Any => search_any(alloc, known, depth, lines, rest),
            Pat::Con {
                all: _,
                name,
                parts,
            } => {
                let row = extended(alloc, parts, rest)?;
                search_under(
                    alloc,
                    known,
                    depth,
                    lines,
                    Head::Built(name, parts.len()),
                    row,
                )
            }
            Pat::Literal(name) => {
                let row = extended(alloc, &[], rest)?;
                search_under(alloc, known, depth, lines, Head::Literal(name), row)
            }
            Pat::Either(pats) => search_either(alloc, known, depth, lines, pats, rest),
        },
    }
}

#[cycle(search)]
fn search_either<'a>(
    alloc: Global,
    known: &mut Known<'a>,
    depth: u32,
    lines: &[Line<'a>],
    pats: &'a [Pat],
    rest: &[Cell<'a>],
) -> Result<Option<Vec<Shape>>, NoMemory>
    requires known { IsKnown known.old }
    ensures kept { OnOk result (IsKnown known.new) }
    ensures found { IfOk result (λ r. Finds (some_in (lines_view lines.now) (listed (map typed_of pats.now)) (cells_view rest.now)) (shapes_view r)) }
{
    for pat in pats {
        let found = search_first(alloc, known, depth, lines, Cell::Of(pat), rest)?;
        if found.is_some() {
            return Ok(found);
        }
    }
    Ok(None)
}

#[cycle(search)]
fn search_any<'a>(
    alloc: Global,
    known: &mut Known<'a>,
    depth: u32,
    lines: &[Line<'a>],
    rest: &[Cell<'a>],
) -> Result<Option<Vec<Shape>>, NoMemory>
    requires known { IsKnown known.old }
    ensures kept { OnOk result (IsKnown known.new) }
    ensures found { IfOk result (λ r. Finds (row_in (lines_view lines.now) (any ∷ cells_view rest.now)) (shapes_view r)) }
{
    let all = family(lines);
    if all.is_empty() {
        return search_default(alloc, known, depth, lines, Shape::Any, rest);
    }
    match first_absent(all, lines) {
        Some(absent) => {
            let shape = open_shape(alloc, absent)?;
            search_default(alloc, known, depth, lines, shape, rest)
        }
        None => search_members(alloc, known, depth, lines, all, rest),
    }
}

/// The lines without a head decide, and the column has a shape that they leave open.
#[cycle(search)]
fn search_default<'a>(
    alloc: Global,
    known: &mut Known<'a>,
    depth: u32,
    lines: &[Line<'a>],
    shape: Shape,
    rest: &[Cell<'a>],
) -> Result<Option<Vec<Shape>>, NoMemory>
    requires known { IsKnown known.old }
    requires shown { column (lines_view lines.now) ≡ Some (shape_of shape) }
    ensures kept { OnOk result (IsKnown known.new) }
    ensures found { IfOk result (λ r. Finds (row_in (lines_view lines.now) (any ∷ cells_view rest.now)) (shapes_view r)) }
{
    let row = extended(alloc, &[], rest)?;
    match search(alloc, known, depth, headless(alloc, lines)?, row)? {
        Some(shapes) => Ok(Some(with_first(alloc, shape, shapes)?)),
        None => Ok(None),
    }
}

/// The first constructor that leaves shapes, in the order of the declaration.
#[cycle(search)]
fn search_members<'a>(
    alloc: Global,
    known: &mut Known<'a>,
    depth: u32,
    lines: &[Line<'a>],
    all: &[Built],
    rest: &[Cell<'a>],
) -> Result<Option<Vec<Shape>>, NoMemory>
    requires known { IsKnown known.old }
    requires all { members_of all.now ≡ family (lines_view lines.now) }
    ensures kept { OnOk result (IsKnown known.new) }
    ensures found { IfOk result (λ r. Finds (members_in (lines_view lines.now) (members_of all.now) (cells_view rest.now)) (shapes_view r)) }
{
    for built in all {
        let row = opened(alloc, built.parts, rest)?;
        let found = search_under(alloc, known, depth, lines, head_of(built), row)?;
        if found.is_some() {
            return Ok(found);
        }
    }
    Ok(None)
}

/// What is left under a head, and the head before it.
#[cycle(search)]
fn search_under<'a>(
    alloc: Global,
    known: &mut Known<'a>,
    depth: u32,
    lines: &[Line<'a>],
    head: Head<'_>,
    row: Vec<Cell<'a>>,
) -> Result<Option<Vec<Shape>>, NoMemory>
    requires known { IsKnown known.old }
    ensures kept { OnOk result (IsKnown known.new) }
    ensures found { IfOk result (λ r. FindsUnder (head_view head.entry) (lines_view lines.now) (cells_view row.entry.items) (shapes_view r)) }
{
    match search(alloc, known, depth, lines_under(alloc, head, lines)?, row)? {
        Some(shapes) => Ok(Some(with_head(alloc, head, shapes)?)),
        None => Ok(None),
    }
}

fn with_first(alloc: Global, first: Shape, rest: Vec<Shape>) -> Result<Vec<Shape>, NoMemory>
    ensures { IfOk result (λ v. map shape_of v.items ≡ shape_of first ∷ map shape_of rest.items) }
{
    let mut shapes = Vec::new(alloc);
    shapes.push(first)?;
    let mut rest = rest;
    shapes.append(&mut rest)?;
    Ok(shapes)
}

/// The first shapes as the parts of a head.
fn with_head(alloc: Global, head: Head<'_>, shapes: Vec<Shape>) -> Result<Vec<Shape>, NoMemory>
    ensures { IfOk result (λ v. map shape_of v.items ≡ with_head (head_view head.entry) (map shape_of shapes.items)) }
{
    match head {
        Head::Built(name, parts) => with_built(alloc, name, parts, shapes),
        Head::Literal(name) => with_first(alloc, Shape::Literal(name.share()?), shapes),
    }
}

fn with_built(
    alloc: Global,
    name: &RcStr,
    parts: usize,
    shapes: Vec<Shape>,
) -> Result<Vec<Shape>, NoMemory>
    ensures { IfOk result (λ v. map shape_of v.items ≡ with_head (built_head (str_bytes name.now) parts) (map shape_of shapes.items)) }
{
    let mut shapes = shapes;
    let rest = cut(alloc, &mut shapes, parts)?;
    with_first(alloc, built_shape(name.share()?, shapes), rest)
}

/// Takes out all shapes but the first, so many of them.
fn cut(alloc: Global, shapes: &mut Vec<Shape>, count: usize) -> Result<Vec<Shape>, NoMemory>
    ensures front { OnOk result (map shape_of shapes.new.items ≡ take count (map shape_of shapes.old.items)) }
    ensures back { IfOk result (λ v. map shape_of v.items ≡ drop count (map shape_of shapes.old.items)) }
{
    if count < shapes.len() {
        match shapes.split_off(count) {
            Ok(rest) => Ok(rest),
            Err(_) => Err(AllocError),
        }
    } else {
        Ok(Vec::new(alloc))
    }
}

/// A constructor with open parts.
fn open_shape(alloc: Global, built: &Built) -> Result<Shape, NoMemory>
    ensures { IfOk result (λ s. shape_of s ≡ open_built (member_of built.now)) }
{
    let parts = open_shapes(alloc, built.parts)?;
    Ok(built_shape(built.name.share()?, parts))
}

fn open_shapes(alloc: Global, count: usize) -> Result<Vec<Shape>, NoMemory>
    ensures { IfOk result (λ v. map shape_of v.items ≡ open_shapes count) }
{
    let mut shapes = Vec::new(alloc);
    for _ in 0..count {
        put_open(&mut shapes)?;
    }
    Ok(shapes)
}

fn put_open(shapes: &mut Vec<Shape>) -> Result<(), NoMemory>
    ensures { OnOk result (map shape_of shapes.new.items ≡ map shape_of shapes.old.items ++ open_shape ∷ []) }
{
    shapes.push(Shape::Any).map_err(|_| AllocError)
}

fn built_shape(name: RcStr, parts: Vec<Shape>) -> Shape
    ensures { shape_of result ≡ of_built (str_bytes name) (shapes_in (map shape_of parts.items)) }
{
    if name.is(TUPLE) {
        Shape::Tuple(parts)
    } else {
        Shape::Con(name, parts)
    }
}
