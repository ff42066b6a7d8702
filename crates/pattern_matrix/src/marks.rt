//! Marks of rows: numbers by which most rows that can't match the same value are known without a search.
ghost use Rattle.std.specs.Prelude.{◌≡◌, map, IfOk, OnOk, ◌++◌, ◌∷◌, []};
ghost use Rattle.text_terms.specs.Bytes.{str_bytes};
ghost use Rattle.pattern_matrix.specs.Views.{typed_of};
ghost use Rattle.pattern_matrix.specs.Lines.{listed};
ghost use Rattle.pattern_matrix.specs.Marks.{coded, head_code, name_code, mark_from, mark_part, mark_at, can_meet};
ghost use Rattle.pattern_matrix.specs.Rows.{mark_of};

use crate::patterns::{Pat, PatRow};
use std::alloc::{AllocError, Global};
use text_terms::{NoMemory, RcStr};

/// How many parts of a tuple are looked at.
const PLACES: usize = 8;

#[tactic(auto, unfolding(crate::specs::Marks::coded))]
fn coded(before: u64, byte: u8) -> u64
    ensures { result ≡ coded before byte }
{
    before % 2_147_483_647 * 257 + u64::from(byte)
}

/// The code of a name, and of what came before it.
pub(crate) fn name_code(before: u64, name: &RcStr) -> u64
    ensures { result ≡ name_code before (str_bytes name.now) }
{
    let mut code = before;
    for byte in name.as_str().as_bytes() {
        code = coded(code, *byte);
    }
    code
}

/// The code of the name that a pattern begins with. It is None where it matches anything or is of alternatives.
pub(crate) fn head_code(pat: &Pat) -> Option<u64>
    ensures { result ≡ head_code (typed_of pat.now) }
{
    match pat {
        Pat::Any => None,
        Pat::Con { name, .. } => Some(name_code(0, name)),
        Pat::Literal(name) => Some(name_code(0, name)),
        Pat::Either(_) => None,
    }
}

/// The code of a pattern's name, of its first part's name, and so on down. It is None where one of them matches anything or is of
/// alternatives.
fn mark_from(before: u64, pat: &Pat) -> Option<u64>
    ensures { result ≡ mark_from before (typed_of pat.now) }
{
    match pat {
        Pat::Any => None,
        Pat::Con { name, parts, .. } => {
            let code = name_code(before, name);
            match parts.first() {
                Some(part) => mark_from(code, part),
                None => Some(code),
            }
        }
        Pat::Literal(name) => Some(name_code(before, name)),
        Pat::Either(_) => None,
    }
}

/// The code of a pattern's name and of its part at a place; of its name alone where it has fewer parts.
fn mark_at(place: usize, pat: &Pat) -> Option<u64>
    ensures { result ≡ mark_at place (typed_of pat.now) }
{
    match pat {
        Pat::Any => None,
        Pat::Con { name, parts, .. } => mark_part(place, name_code(0, name), parts),
        Pat::Literal(name) => Some(name_code(0, name)),
        Pat::Either(_) => None,
    }
}

fn mark_part(place: usize, before: u64, parts: &[Pat]) -> Option<u64>
    ensures { result ≡ mark_part place before (listed (map typed_of parts.now)) }
{
    match parts.get(place) {
        Some(part) => mark_from(before, part),
        None => Some(before),
    }
}

/// The mark of a row, by the parts at a place.
pub(crate) fn mark_of(place: usize, row: &PatRow) -> Option<u64>
    ensures { result ≡ mark_of place row.now }
{
    match row.pats.first() {
        Some(pat) => mark_at(place, pat),
        None => None,
    }
}

/// The marks of rows, in order.
pub(crate) fn marks_of(
    alloc: Global,
    place: usize,
    rows: &[PatRow],
) -> Result<Vec<Option<u64>>, NoMemory>
    ensures { IfOk result (λ ms. ms.items ≡ map (mark_of place) rows.now) }
{
    let mut marks = Vec::new(alloc);
    for row in rows {
        put(&mut marks, mark_of(place, row))?;
    }
    Ok(marks)
}

fn put(marks: &mut Vec<Option<u64>>, mark: Option<u64>) -> Result<(), NoMemory>
    ensures { OnOk result (marks.new.items ≡ marks.old.items ++ mark ∷ []) }
{
    marks.push(mark).map_err(|_| AllocError)
}

/// Whether patterns of these marks can match the same value.
pub(crate) fn can_meet(mark: Option<u64>, other: Option<u64>) -> bool
    ensures { result ≡ can_meet mark other }
{
    match (mark, other) {
        (Some(mark), Some(other)) => mark == other,
        _ => true,
    }
}

/// The place, among the first ones, by whose parts most rows have a mark.
pub(crate) fn best_place(rows: &[PatRow]) -> usize {
    let mut best = 0;
    let mut most = 0;
    for place in 0..PLACES {
        let marked = marked_rows(place, rows);
        if marked > most {
            best = place;
            most = marked;
        }
    }
    best
}

/// How many rows have a mark by the parts at a place.
fn marked_rows(place: usize, rows: &[PatRow]) -> usize {
    let mut marked: usize = 0;
    for row in rows {
        if mark_of(place, row).is_some() {
            marked = marked.saturating_add(1);
        }
    }
    marked
}
