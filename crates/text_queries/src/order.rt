//! The first faults of a text, in the order in which they are told.
ghost use Rattle.std.specs.Prelude.{◌≡◌, ◌≤◌, ◌++◌, [], length, map, take, true, IfOk, OnOk};
ghost use Rattle.query_model.specs.Faults.{by_typer, front, is_before, ordered, page_limit, placed, InOrder};
ghost use Rattle.text_queries.specs.Faults.{fault_of, told_of, typer_fault_of, FillsPage};

use crate::tellers::{Told, is_earlier};
use env_table::Fault;
use frame_parser::SyntaxFault;
use std::alloc::{AllocError, Global};
use syntax_tree::NoMemory;

/// How many faults are told.
pub(crate) const PAGE_LIMIT: usize = 1000;

/// Whether a fault is told before another.
fn is_before(fault: Told<'_>, other: Told<'_>) -> bool
    ensures { result ≡ is_before (told_of fault.entry) (told_of other.entry) }
{
    let (span, against) = (fault.span(), other.span());
    span.start < against.start
        || span.start == against.start && span.end < against.end
        || span == against && is_earlier(fault.teller(), other.teller())
}

/// How many faults of a page stand in front of a fault.
fn front(page: &[Told<'_>], fault: Told<'_>) -> usize
    ensures { result ≡ front (told_of fault.entry) (map told_of page.now) }
{
    let mut at = 0;
    for other in page {
        if is_before(fault, *other) {
            return at;
        }
        at += 1;
    }
    at
}

/// Whether a page is full and the fault stands behind all of it.
fn is_behind(page: &[Told<'_>], fault: Told<'_>) -> bool
    requires order { InOrder (map told_of page.now) }
    ensures { result ≡ true → take page_limit (placed (told_of fault.entry) (map told_of page.now)) ≡ map told_of page.now }
{
    match page {
        [.., last] => page.len() == PAGE_LIMIT && !is_before(fault, *last),
        [] => false,
    }
}

/// Puts a fault into a page, as far as it has a place among the first.
#[tactic(auto, using(crate::proofs::Orders::front_fits, crate::proofs::Orders::kept))]
fn keep<'a>(page: &mut Vec<Told<'a>>, fault: Told<'a>) -> Result<(), NoMemory>
    requires order { InOrder (map told_of page.now.items) }
    ensures { OnOk result (map told_of page.new.items ≡ take page_limit (placed (told_of fault.entry) (map told_of page.old.items))) }
{
    if is_behind(page, fault) {
        return Ok(());
    }
    let at = front(page, fault);
    match page.insert(at, fault) {
        Ok(()) => {
            page.truncate(PAGE_LIMIT);
            Ok(())
        }
        Err(_) => Err(AllocError),
    }
}

/// Puts the parser's faults into a page.
#[tactic(auto, using(crate::proofs::Orders::page_begun, crate::proofs::Orders::page_kept, crate::proofs::Orders::page_done))]
fn keep_parsed(page: &mut Vec<Told<'_>>, faults: &[SyntaxFault]) -> Result<(), NoMemory>
    requires order { InOrder (map told_of page.now.items) }
    requires short { length page.now.items ≤ page_limit }
    ensures { OnOk result (FillsPage (map told_of page.old.items) (map fault_of faults.now) (map told_of page.new.items)) }
{
    for fault in faults {
        keep(page, Told::Parser(*fault))?;
    }
    Ok(())
}

/// Puts the typer's faults into a page.
#[tactic(auto, using(crate::proofs::Orders::page_begun, crate::proofs::Orders::page_kept, crate::proofs::Orders::page_done))]
fn keep_typed<'a>(page: &mut Vec<Told<'a>>, faults: &'a [Fault]) -> Result<(), NoMemory>
    requires order { InOrder (map told_of page.now.items) }
    requires short { length page.now.items ≤ page_limit }
    ensures { OnOk result (FillsPage (map told_of page.old.items) (map by_typer (map typer_fault_of faults.now)) (map told_of page.new.items)) }
{
    for fault in faults {
        keep(page, Told::Typer(fault))?;
    }
    Ok(())
}

/// The first faults, in the order in which they are told.
pub(crate) fn first_faults<'a>(
    alloc: Global,
    parsed: &[SyntaxFault],
    typed: &'a [Fault],
) -> Result<Vec<Told<'a>>, NoMemory>
    ensures { IfOk result (λ v. map told_of v.items ≡ take page_limit (ordered (map fault_of parsed.now ++ map by_typer (map typer_fault_of typed.now)))) }
{
    let mut page = Vec::new(alloc);
    keep_parsed(&mut page, parsed)?;
    keep_typed(&mut page, typed)?;
    Ok(page)
}
