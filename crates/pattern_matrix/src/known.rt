//! What was found to leave no shape, so that it is searched once.
ghost use Rattle.std.specs.Prelude.{◌≡◌, IsTrue, None, OnOk};
ghost use Rattle.pattern_matrix.specs.Search.{Finds, row_in};
ghost use Rattle.pattern_matrix.specs.Views.{lines_view, cells_view};
ghost use Rattle.pattern_matrix.specs.Known.{covered_task, IsKnown};

use crate::columns::Cell;
use crate::lines::Line;
use crate::patterns::Pat;
use crate::same::{same_cells, same_lines};
use std::alloc::{AllocError, Global};
use text_terms::NoMemory;

/// Lines that match each value that a row matches.
#[derive(Drop)]
struct Covered<'a> {
    mark: u64,
    lines: Vec<Line<'a>>,
    row: Vec<Cell<'a>>,
}

impl<'a> Covered<'a> {
    fn is(&self, lines: &[Line<'a>], row: &[Cell<'a>]) -> bool
        ensures { IsTrue result → covered_task self.now ≡ row_in (lines_view lines.now) (cells_view row.now) }
    {
        same_cells(&self.row, row) && same_lines(&self.lines, lines)
    }
}

/// What is known to be covered.
#[derive(Drop)]
pub(crate) struct Known<'a> {
    covered: Vec<Covered<'a>>,
}

impl<'a> Known<'a> {
    pub(crate) fn new(alloc: Global) -> Known<'a>
        ensures { IsKnown result }
    {
        Known {
            covered: Vec::new(alloc),
        }
    }

    pub(crate) fn has(&self, mark: u64, lines: &[Line<'a>], row: &[Cell<'a>]) -> bool
        requires { IsKnown self.now }
        ensures { IsTrue result → Finds (row_in (lines_view lines.now) (cells_view row.now)) None }
    {
        for known in &self.covered {
            if known.mark == mark && known.is(lines, row) {
                return true;
            }
        }
        false
    }

    #[tactic(auto, using(crate::proofs::Covering::covered_more))]
    pub(crate) fn add(
        &mut self,
        mark: u64,
        lines: Vec<Line<'a>>,
        row: Vec<Cell<'a>>,
    ) -> Result<(), NoMemory>
        requires known { IsKnown self.old }
        requires covered { Finds (row_in (lines_view lines.items) (cells_view row.items)) None }
        ensures { OnOk result (IsKnown self.new) }
    {
        match self.covered.push(Covered { mark, lines, row }) {
            Ok(()) => Ok(()),
            Err(_) => Err(AllocError),
        }
    }
}

/// A number that tells most lines and rows apart.
pub(crate) fn mark_of(lines: &[Line<'_>], row: &[Cell<'_>]) -> u64 {
    let mut mark = mark_cells(lines.len() as u64, row);
    for line in lines {
        mark = mark_cells(mark, &line.cells);
    }
    mark
}

fn mark_cells(before: u64, cells: &[Cell<'_>]) -> u64 {
    let mut mark = mixed(before, cells.len() as u64);
    for cell in cells {
        mark = mixed(mark, mark_cell(*cell));
    }
    mark
}

fn mark_cell(cell: Cell<'_>) -> u64 {
    match cell {
        Cell::Any => 1,
        Cell::Of(pat) => match pat {
            Pat::Any => 2,
            Pat::Con { name, .. } => mark_name(3, name.as_str()),
            Pat::Literal(name) => mark_name(4, name.as_str()),
            Pat::Either(pats) => mixed(5, pats.len() as u64),
        },
    }
}

fn mark_name(before: u64, name: &str) -> u64 {
    let mut mark = before;
    for byte in name.as_bytes() {
        mark = mixed(mark, u64::from(*byte));
    }
    mark
}

fn mixed(mark: u64, more: u64) -> u64 {
    (mark ^ more).wrapping_mul(1_099_511_628_211).rotate_left(5)
}
