//! The same patterns, found part by part.
ghost use Rattle.std.specs.Prelude.{◌≡◌, IsTrue, map};
ghost use Rattle.pattern_matrix.specs.Views.{member_of, members_of, typed_of, cell_view, cells_view, lines_view};

use crate::columns::Cell;
use crate::lines::Line;
use crate::patterns::{Built, Pat};

/// Whether two patterns are the same, and their constructors of the same types.
#[cycle(same)]
pub(crate) fn same_pat(a: &Pat, b: &Pat) -> bool
    ensures { IsTrue result → typed_of a.now ≡ typed_of b.now }
{
    match a {
        Pat::Any => matches!(b, Pat::Any),
        Pat::Con { all, name, parts } => match b {
            Pat::Con {
                all: others,
                name: other,
                parts: other_parts,
            } => {
                name.is(other.as_str()) && same_pats(parts, other_parts) && same_family(all, others)
            }
            _ => false,
        },
        Pat::Literal(name) => match b {
            Pat::Literal(other) => name.is(other.as_str()),
            _ => false,
        },
        Pat::Either(pats) => match b {
            Pat::Either(others) => same_pats(pats, others),
            _ => false,
        },
    }
}

#[cycle(same)]
fn same_pats(pats: &[Pat], others: &[Pat]) -> bool
    ensures { IsTrue result → map typed_of pats.now ≡ map typed_of others.now }
{
    if pats.len() != others.len() {
        return false;
    }
    for (i, pat) in pats.iter().enumerate() {
        if !same_pat(pat, &others[i]) {
            return false;
        }
    }
    true
}

fn same_built(a: &Built, b: &Built) -> bool
    ensures { IsTrue result → member_of a.now ≡ member_of b.now }
{
    a.parts == b.parts && a.name.is(b.name.as_str())
}

fn same_family(all: &[Built], others: &[Built]) -> bool
    ensures { IsTrue result → members_of all.now ≡ members_of others.now }
{
    if all.len() != others.len() {
        return false;
    }
    for (i, built) in all.iter().enumerate() {
        if !same_built(built, &others[i]) {
            return false;
        }
    }
    true
}

fn same_cell(a: Cell<'_>, b: Cell<'_>) -> bool
    ensures { IsTrue result → cell_view a.entry ≡ cell_view b.entry }
{
    match (a, b) {
        (Cell::Any, Cell::Any) => true,
        (Cell::Of(a), Cell::Of(b)) => same_pat(a, b),
        _ => false,
    }
}

pub(crate) fn same_cells(cells: &[Cell<'_>], others: &[Cell<'_>]) -> bool
    ensures { IsTrue result → cells_view cells.now ≡ cells_view others.now }
{
    if cells.len() != others.len() {
        return false;
    }
    for (i, cell) in cells.iter().enumerate() {
        if !same_cell(*cell, others[i]) {
            return false;
        }
    }
    true
}

pub(crate) fn same_lines(lines: &[Line<'_>], others: &[Line<'_>]) -> bool
    ensures { IsTrue result → lines_view lines.now ≡ lines_view others.now }
{
    if lines.len() != others.len() {
        return false;
    }
    for (i, line) in lines.iter().enumerate() {
        if !same_cells(&line.cells, &others[i].cells) {
            return false;
        }
    }
    true
}
