//! Lines of patterns: what they ask of the parts of a constructor, and which constructors head their first column.
ghost use Rattle.std.specs.Prelude.{◌≡◌, [], ◌∷◌, ◌++◌, map, option_map, IfOk, OnOk};
ghost use Rattle.text_terms.specs.Bytes.{str_bytes};
ghost use Rattle.pattern_matrix.specs.Lines.{any, listed, opened, width_of, head_of, under, under_each, line_under, lines_under, without_head, each_without_head, line_without_head, headless, family, family_of_line, family_in, family_in_some, heads_some, heads_line, is_head, some_is_head, first_absent};
ghost use Rattle.pattern_matrix.specs.Marks.{code_of, name_code};
ghost use Rattle.pattern_matrix.specs.Search.{IsSqueezed};
ghost use Rattle.pattern_matrix.specs.Views.{member_of, members_of, typed_of, cells_view, line_view, lines_view, head_view};

use crate::lines::{Line, Stem};
use crate::marks::name_code;
use crate::patterns::{Built, Pat};
use crate::same::same_cells;
use std::alloc::{AllocError, Global};
use text_terms::{NoMemory, RcStr};

/// A pattern in a column.
#[derive(Clone, Copy)]
pub(crate) enum Cell<'a> {
    Any,
    Of(&'a Pat),
}

/// What a value begins with.
#[derive(Clone, Copy)]
pub(crate) enum Head<'a> {
    /// A constructor: its name and how many parts it has.
    Built(&'a RcStr, usize),
    /// A literal: its spelling.
    Literal(&'a RcStr),
}

pub(crate) fn head_of(built: &Built) -> Head<'_>
    ensures { head_view result ≡ head_of (member_of built.now) }
{
    Head::Built(&built.name, built.parts)
}

fn code_of(head: Head<'_>) -> u64
    ensures { result ≡ code_of (head_view head.entry) }
{
    match head {
        Head::Built(name, _) => name_code(0, name),
        Head::Literal(name) => name_code(0, name),
    }
}

fn width_of(head: Head<'_>) -> usize
    ensures { result ≡ width_of (head_view head.entry) }
{
    match head {
        Head::Built(_, parts) => parts,
        Head::Literal(_) => 0,
    }
}

/// Patterns, and the cells behind them.
pub(crate) fn extended<'a>(
    alloc: Global,
    pats: &'a [Pat],
    rest: &[Cell<'a>],
) -> Result<Vec<Cell<'a>>, NoMemory>
    ensures { IfOk result (λ cs. cells_view cs.items ≡ map typed_of pats.now ++ cells_view rest.now) }
{
    let mut cells = Vec::new(alloc);
    for pat in pats {
        cells.push(Cell::Of(pat))?;
    }
    append(&mut cells, rest)?;
    Ok(cells)
}

/// As many cells that match anything, and the cells behind them.
pub(crate) fn opened<'a>(
    alloc: Global,
    count: usize,
    rest: &[Cell<'a>],
) -> Result<Vec<Cell<'a>>, NoMemory>
    ensures { IfOk result (λ cs. cells_view cs.items ≡ opened count ++ cells_view rest.now) }
{
    let mut cells = Vec::new(alloc);
    for _ in 0..count {
        put_any(&mut cells)?;
    }
    append(&mut cells, rest)?;
    Ok(cells)
}

fn put_any<'a>(cells: &mut Vec<Cell<'a>>) -> Result<(), NoMemory>
    ensures { OnOk result (cells_view cells.new.items ≡ cells_view cells.old.items ++ any ∷ []) }
{
    cells.push(Cell::Any).map_err(|_| AllocError)
}

fn append<'a>(cells: &mut Vec<Cell<'a>>, rest: &[Cell<'a>]) -> Result<(), NoMemory>
    ensures { OnOk result (cells.new.items ≡ cells.old.items ++ rest.now) }
{
    for cell in rest {
        cells.push(*cell)?;
    }
    Ok(())
}

/// The lines that a head leaves of each line that has a place for it.
pub(crate) fn lines_under<'a>(
    alloc: Global,
    head: Head<'_>,
    lines: &[Line<'a>],
) -> Result<Vec<Line<'a>>, NoMemory>
    ensures { IfOk result (λ ls. IsSqueezed (lines_view ls.items) (lines_under (head_view head.entry) (lines_view lines.now))) }
{
    let code = code_of(head);
    let mut under = Vec::new(alloc);
    for line in lines {
        put_line_under(alloc, &mut under, head, code, line)?;
    }
    Ok(under)
}

fn put_line_under<'a>(
    alloc: Global,
    lines: &mut Vec<Line<'a>>,
    head: Head<'_>,
    code: u64,
    line: &Line<'a>,
) -> Result<(), NoMemory>
    requires { code ≡ code_of (head_view head) }
    ensures { OnOk result (IsSqueezed (lines_view lines.new.items) (lines_view lines.old.items ++ line_under (head_view head.entry) (line_view line.now))) }
{
    if line.is_other(code) {
        return Ok(());
    }
    match line.cells.split_first() {
        Some((first, rest)) => match first {
            Cell::Any => put_open(alloc, lines, head, rest, line.stem),
            Cell::Of(pat) => put_under(alloc, lines, head, pat, rest, line.stem),
        },
        None => Ok(()),
    }
}

#[cycle(under)]
fn put_under<'a>(
    alloc: Global,
    lines: &mut Vec<Line<'a>>,
    head: Head<'_>,
    pat: &'a Pat,
    rest: &[Cell<'a>],
    stem: Stem,
) -> Result<(), NoMemory>
    ensures { OnOk result (IsSqueezed (lines_view lines.new.items) (lines_view lines.old.items ++ under (head_view head.entry) (typed_of pat.now) (cells_view rest.now))) }
{
    match pat {
        Pat::Any => put_open(alloc, lines, head, rest, stem),
        Pat::Con {
            all: _,
            name,
            parts,
        } => match head {
            Head::Built(wanted, _) if wanted.is(name.as_str()) => {
                put(lines, extended(alloc, parts, rest)?, stem)
            }
            _ => Ok(()),
        },
        Pat::Literal(name) => match head {
            Head::Literal(wanted) if wanted.is(name.as_str()) => {
                put(lines, extended(alloc, &[], rest)?, stem)
            }
            _ => Ok(()),
        },
        Pat::Either(pats) => put_each_under(alloc, lines, head, pats, rest),
    }
}

#[cycle(under)]
fn put_each_under<'a>(
    alloc: Global,
    lines: &mut Vec<Line<'a>>,
    head: Head<'_>,
    pats: &'a [Pat],
    rest: &[Cell<'a>],
) -> Result<(), NoMemory>
    ensures { OnOk result (IsSqueezed (lines_view lines.new.items) (lines_view lines.old.items ++ under_each (head_view head.entry) (listed (map typed_of pats.now)) (cells_view rest.now))) }
{
    for pat in pats {
        put_under(alloc, lines, head, pat, rest, Stem::Alternative)?;
    }
    Ok(())
}

fn put_open<'a>(
    alloc: Global,
    lines: &mut Vec<Line<'a>>,
    head: Head<'_>,
    rest: &[Cell<'a>],
    stem: Stem,
) -> Result<(), NoMemory>
    ensures { OnOk result (IsSqueezed (lines_view lines.new.items) (lines_view lines.old.items ++ under (head_view head.entry) any (cells_view rest.now))) }
{
    put(lines, opened(alloc, width_of(head), rest)?, stem)
}

/// One line more. Of lines of alternatives, one that is the same as the last one is left out, so that their number
/// doesn't grow with each column.
fn put<'a>(lines: &mut Vec<Line<'a>>, cells: Vec<Cell<'a>>, stem: Stem) -> Result<(), NoMemory>
    ensures { OnOk result (IsSqueezed (lines_view lines.new.items) (lines_view lines.old.items ++ (cells_view cells.entry.items ∷ []))) }
{
    if let (Some(last), Stem::Alternative) = (lines.last(), stem) {
        if same_cells(&last.cells, &cells) {
            return Ok(());
        }
    }
    lines.push(Line::new(cells, stem)).map_err(|_| AllocError)
}

/// What is left of the lines that have no head in the first column.
pub(crate) fn headless<'a>(alloc: Global, lines: &[Line<'a>]) -> Result<Vec<Line<'a>>, NoMemory>
    ensures { IfOk result (λ ls. IsSqueezed (lines_view ls.items) (headless (lines_view lines.now))) }
{
    let mut kept = Vec::new(alloc);
    for line in lines {
        put_line_headless(alloc, &mut kept, line)?;
    }
    Ok(kept)
}

fn put_line_headless<'a>(
    alloc: Global,
    kept: &mut Vec<Line<'a>>,
    line: &Line<'a>,
) -> Result<(), NoMemory>
    ensures { OnOk result (IsSqueezed (lines_view kept.new.items) (lines_view kept.old.items ++ line_without_head (line_view line.now))) }
{
    match line.cells.split_first() {
        Some((first, rest)) => match first {
            Cell::Any => put(kept, extended(alloc, &[], rest)?, line.stem),
            Cell::Of(pat) => put_headless(alloc, kept, pat, rest, line.stem),
        },
        None => Ok(()),
    }
}

#[cycle(headless)]
fn put_headless<'a>(
    alloc: Global,
    kept: &mut Vec<Line<'a>>,
    pat: &'a Pat,
    rest: &[Cell<'a>],
    stem: Stem,
) -> Result<(), NoMemory>
    ensures { OnOk result (IsSqueezed (lines_view kept.new.items) (lines_view kept.old.items ++ without_head (typed_of pat.now) (cells_view rest.now))) }
{
    match pat {
        Pat::Any => put(kept, extended(alloc, &[], rest)?, stem),
        Pat::Con { .. } => Ok(()),
        Pat::Literal(_) => Ok(()),
        Pat::Either(pats) => put_each_headless(alloc, kept, pats, rest),
    }
}

#[cycle(headless)]
fn put_each_headless<'a>(
    alloc: Global,
    kept: &mut Vec<Line<'a>>,
    pats: &'a [Pat],
    rest: &[Cell<'a>],
) -> Result<(), NoMemory>
    ensures { OnOk result (IsSqueezed (lines_view kept.new.items) (lines_view kept.old.items ++ each_without_head (listed (map typed_of pats.now)) (cells_view rest.now))) }
{
    for pat in pats {
        put_headless(alloc, kept, pat, rest, Stem::Alternative)?;
    }
    Ok(())
}

/// All constructors of the type of the first column, as its first constructor says; none where there is no constructor.
pub(crate) fn family<'a>(lines: &[Line<'a>]) -> &'a [Built]
    ensures { members_of result.now ≡ family (lines_view lines.now) }
{
    for line in lines {
        if let Some(all) = family_of_line(line) {
            return all;
        }
    }
    &[]
}

fn family_of_line<'a>(line: &Line<'a>) -> Option<&'a [Built]>
    ensures { option_map (λ r. members_of r.now) result ≡ family_of_line (line_view line.now) }
{
    match line.cells.first() {
        Some(Cell::Of(pat)) => family_in(pat),
        _ => None,
    }
}

#[cycle(family)]
fn family_in(pat: &Pat) -> Option<&[Built]>
    ensures { option_map (λ r. members_of r.now) result ≡ family_in (typed_of pat.now) }
{
    match pat {
        Pat::Any => None,
        Pat::Con { all, .. } => Some(all.as_slice()),
        Pat::Literal(_) => None,
        Pat::Either(pats) => family_in_some(pats),
    }
}

#[cycle(family)]
fn family_in_some(pats: &[Pat]) -> Option<&[Built]>
    ensures { option_map (λ r. members_of r.now) result ≡ family_in_some (listed (map typed_of pats.now)) }
{
    for pat in pats {
        if let Some(all) = family_in(pat) {
            return Some(all);
        }
    }
    None
}

/// Whether a constructor heads a line.
pub(crate) fn heads_some(name: &RcStr, lines: &[Line<'_>]) -> bool
    ensures { result ≡ heads_some (str_bytes name.now) (lines_view lines.now) }
{
    let code = name_code(0, name);
    for line in lines {
        if heads_line(name, code, line) {
            return true;
        }
    }
    false
}

fn heads_line(name: &RcStr, code: u64, line: &Line<'_>) -> bool
    requires { code ≡ name_code 0 (str_bytes name.now) }
    ensures { result ≡ heads_line (str_bytes name.now) (line_view line.now) }
{
    if line.is_other(code) {
        return false;
    }
    match line.cells.first() {
        Some(Cell::Of(pat)) => is_head(name, pat),
        _ => false,
    }
}

#[cycle(heads)]
fn is_head(name: &RcStr, pat: &Pat) -> bool
    ensures { result ≡ is_head (str_bytes name.now) (typed_of pat.now) }
{
    match pat {
        Pat::Any => false,
        Pat::Con { name: own, .. } => name.is(own.as_str()),
        Pat::Literal(_) => false,
        Pat::Either(pats) => some_is_head(name, pats),
    }
}

#[cycle(heads)]
fn some_is_head(name: &RcStr, pats: &[Pat]) -> bool
    ensures { result ≡ some_is_head (str_bytes name.now) (listed (map typed_of pats.now)) }
{
    for pat in pats {
        if is_head(name, pat) {
            return true;
        }
    }
    false
}

/// The first of these constructors that heads no line.
pub(crate) fn first_absent<'a>(all: &'a [Built], lines: &[Line<'_>]) -> Option<&'a Built>
    ensures { option_map (λ b. member_of b.now) result ≡ first_absent (members_of all.now) (lines_view lines.now) }
{
    for built in all {
        if !heads_some(&built.name, lines) {
            return Some(built);
        }
    }
    None
}
