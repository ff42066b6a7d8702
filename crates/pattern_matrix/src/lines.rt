//! Lines of patterns.
ghost use Rattle.std.specs.Prelude.{◌≡◌};
ghost use Rattle.pattern_matrix.specs.Cells.{cells_view};
ghost use Rattle.pattern_matrix.specs.Marks.{is_other, line_code};

use crate::columns::Cell;
use crate::marks::head_code;

/// Whether two lines can have the same cells.
#[derive(Clone, Copy)]
pub(crate) enum Stem {
    /// A line of a row.
    Row,
    /// A line of one of several alternatives of a row.
    Alternative,
}

/// The patterns of a row, from some column on.
#[derive(Drop)]
pub(crate) struct Line<'a> {
    pub(crate) cells: Vec<Cell<'a>>,
    pub(crate) stem: Stem,
    /// The code of the name that the first cell begins with, if it begins with one.
    code: Option<u64>,
    ghost coded: { code ≡ line_code (cells_view cells.items) },
}

impl<'a> Line<'a> {
    pub(crate) fn new(cells: Vec<Cell<'a>>, stem: Stem) -> Line<'a>
        ensures { cells_view result.cells.items ≡ cells_view cells.entry.items }
    {
        let code = code_of_cells(&cells);
        Line { cells, stem, code }
    }

    /// Whether the line begins with a name that has another code.
    pub(crate) fn is_other(&self, code: u64) -> bool
        ensures { result ≡ is_other (line_code (cells_view self.now.cells.items)) code }
    {
        match self.code {
            Some(own) => own != code,
            None => false,
        }
    }
}

/// The code of the name that the first of these cells begins with, if it begins with one.
fn code_of_cells(cells: &[Cell<'_>]) -> Option<u64>
    ensures { result ≡ line_code (cells_view cells.now) }
{
    match cells.first() {
        Some(Cell::Of(pat)) => head_code(pat),
        _ => None,
    }
}
