//! Useful and unused rows.
ghost use Rattle.std.specs.Prelude.{◌≡◌, ℕ, ◌<◌, ◌≤◌, List, [], ◌∷◌, ◌++◌, length, map, option_map, IfOk, OnOk};
ghost use Rattle.type_model.specs.Types.{Typ};
ghost use Rattle.match_model.specs.Forms.{World};
ghost use Rattle.match_model.specs.Rows.{deepest, IsUnused};
ghost use Rattle.pattern_matrix.specs.Search.{Finds, row_in};
ghost use Rattle.pattern_matrix.specs.Views.{cells_view, line_view, lines_view, shape_of, shapes_view};
ghost use Rattle.pattern_matrix.specs.Rows.{line_of, lines_of, mark_of, near_lines, together, FindsShape, IsTold};
ghost use Rattle.pattern_matrix.specs.Typing.{IsSound};
ghost use Rattle.pattern_matrix.specs.Exact.{row_of, rows_of, IsRowTyped, AreRowsTyped, Tells, TellsMissed, AreThose};

use crate::columns::{Cell, opened};
use crate::known::Known;
use crate::lines::{Line, Stem};
use crate::marks::{best_place, can_meet, mark_of, marks_of};
use crate::patterns::{Matrix, PatRow, Shape};
use crate::search::search;
use std::alloc::{AllocError, Global};
use text_terms::NoMemory;

/// How many columns deep a search goes, those of nested patterns counted as they are opened.
const DEEPEST: u32 = 1_000;

/// The shape that is shown for values that no row without a guard matches, or None where there are no such values.
/// The rows have so many columns; of several columns it is the tuple of their shapes.
pub fn missed(alloc: Global, matrix: &Matrix, columns: usize) -> Result<Option<Shape>, NoMemory>
    ensures { IfOk result (λ r. (w : World) (ts : List Typ) → IsSound w → AreRowsTyped w ts matrix.now.rows.items → length ts ≡ columns →
        TellsMissed w ts (rows_of matrix.now.rows.items) (option_map shape_of r)) }
{
    let row = opened(alloc, columns, &[])?;
    find_shape(alloc, &matrix.rows, row)
}

/// A shape of values that the row matches and no row of the matrix without a guard does, or None where there is no such value.
/// It is built column by column from the left, as the one of `missed`, but has the row's own constructors and literals;
/// of alternatives it takes the first that leaves a shape.
pub fn useful(alloc: Global, matrix: &Matrix, row: &PatRow) -> Result<Option<Shape>, NoMemory>
    ensures rule { IfOk result (λ r. FindsShape (lines_of matrix.now.rows.items) (line_of row.now) (option_map shape_of r)) }
    ensures meaning { IfOk result (λ r. (w : World) (ts : List Typ) (d : ℕ) → IsSound w → AreRowsTyped w ts matrix.now.rows.items → IsRowTyped w ts row.now →
        deepest (row_of row.now ∷ rows_of matrix.now.rows.items) ≤ d → Tells w ts d (rows_of matrix.now.rows.items) (row_of row.now) (option_map shape_of r)) }
{
    let row = cells_of(alloc, row)?;
    find_shape(alloc, &matrix.rows, row)
}

fn find_shape<'a>(
    alloc: Global,
    rows: &'a [PatRow],
    row: Vec<Cell<'a>>,
) -> Result<Option<Shape>, NoMemory>
    ensures { IfOk result (λ r. FindsShape (lines_of rows.now) (cells_view row.entry.items) (option_map shape_of r)) }
{
    match find(alloc, lines_of(alloc, rows)?, row)? {
        Some(shapes) => Ok(Some(together(shapes))),
        None => Ok(None),
    }
}

/// The shape of one column, or of the tuple of several.
fn together(shapes: Vec<Shape>) -> Shape
    ensures { shape_of result ≡ together (map shape_of shapes.items) }
{
    let mut shapes = shapes;
    if shapes.len() == 1 {
        if let Some(shape) = shapes.pop() {
            return shape;
        }
    }
    Shape::Tuple(shapes)
}

/// The rows, from 0, each value of which is matched by an earlier row without a guard.
pub fn unused_rows(alloc: Global, matrix: &Matrix) -> Result<Vec<usize>, NoMemory>
    ensures { IfOk result (λ us. (w : World) (ts : List Typ) → IsSound w → AreRowsTyped w ts matrix.now.rows.items →
        AreThose (λ k. IsUnused w ts (rows_of matrix.now.rows.items) k) (length matrix.now.rows.items) us.items) }
{
    let place = best_place(&matrix.rows);
    let marks = marks_of(alloc, place, &matrix.rows)?;
    let mut unused = Vec::new(alloc);
    for i in 0..matrix.rows.len() {
        if is_covered(alloc, &matrix.rows, place, &marks, i)? {
            put(&mut unused, i)?;
        }
    }
    Ok(unused)
}

/// Whether each value of a row is matched by an earlier row without a guard.
fn is_covered(
    alloc: Global,
    rows: &[PatRow],
    place: usize,
    marks: &[Option<u64>],
    at: usize,
) -> Result<bool, NoMemory>
    requires within { at < length rows.now }
    requires marks { marks.now ≡ map (mark_of place) rows.now }
    ensures { IfOk result (λ covered. IsTold rows.now at covered) }
{
    let row = &rows[at];
    let near = near_lines(alloc, place, row, &rows[..at], &marks[..at])?;
    let found = find(alloc, near, cells_of(alloc, row)?)?;
    Ok(found.is_none())
}

/// The lines of the rows without a guard whose marks can meet that of a row.
fn near_lines<'a>(
    alloc: Global,
    place: usize,
    row: &PatRow,
    rows: &'a [PatRow],
    marks: &[Option<u64>],
) -> Result<Vec<Line<'a>>, NoMemory>
    requires { marks.now ≡ map (mark_of place) rows.now }
    ensures { IfOk result (λ ls. lines_view ls.items ≡ near_lines place (mark_of place row.now) rows.now) }
{
    let mark = mark_of(place, row);
    let mut lines = Vec::new(alloc);
    for (i, other) in rows.iter().enumerate() {
        if can_meet(mark, marks[i]) && !other.guarded {
            lines.push(line_of(alloc, other)?)?;
        }
    }
    Ok(lines)
}

fn put(numbers: &mut Vec<usize>, number: usize) -> Result<(), NoMemory>
    ensures { OnOk result (numbers.new.items ≡ numbers.old.items ++ number ∷ []) }
{
    numbers.push(number).map_err(|_| AllocError)
}

fn find<'a>(
    alloc: Global,
    lines: Vec<Line<'a>>,
    row: Vec<Cell<'a>>,
) -> Result<Option<Vec<Shape>>, NoMemory>
    ensures { IfOk result (λ r. Finds (row_in (lines_view lines.entry.items) (cells_view row.entry.items)) (shapes_view r)) }
{
    let mut known = Known::new(alloc);
    search(alloc, &mut known, DEEPEST, lines, row)
}

fn lines_of(alloc: Global, rows: &[PatRow]) -> Result<Vec<Line<'_>>, NoMemory>
    ensures { IfOk result (λ ls. lines_view ls.items ≡ lines_of rows.now) }
{
    let mut lines = Vec::new(alloc);
    for row in rows {
        if !row.guarded {
            lines.push(line_of(alloc, row)?)?;
        }
    }
    Ok(lines)
}

fn line_of(alloc: Global, row: &PatRow) -> Result<Line<'_>, NoMemory>
    ensures { IfOk result (λ l. line_view l ≡ line_of row.now) }
{
    Ok(Line::new(cells_of(alloc, row)?, Stem::Row))
}

fn cells_of(alloc: Global, row: &PatRow) -> Result<Vec<Cell<'_>>, NoMemory>
    ensures { IfOk result (λ cs. cells_view cs.items ≡ line_of row.now) }
{
    let mut cells = Vec::new(alloc);
    for pat in &row.pats {
        cells.push(Cell::Of(pat))?;
    }
    Ok(cells)
}
