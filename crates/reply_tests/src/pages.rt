//! The page of the faults of a text.
use crate::verdict::{none_wrong, wrong_unless};
use std::alloc::Global;
use std::test::Fail;
use syntax_tree::{NoMemory, Span};
use text_queries::{Listed, SyntaxFault, errors};

const SKIPPED: SyntaxFault = SyntaxFault::Skipped {
    span: Span { start: 5, end: 6 },
};

/// Faults in the order in which they were found.
const FOUND: [SyntaxFault; 4] = [
    SKIPPED,
    SyntaxFault::Added { place: 5, holes: 2 },
    SyntaxFault::TooDeep {
        span: Span { start: 7, end: 8 },
    },
    SyntaxFault::Added { place: 0, holes: 1 },
];

/// A fault of the parser by its start, its end, its kind and its message.
type Row = (u32, u32, &'static str, &'static str);

/// `FOUND` in the order of a page: what is in front of a skipped token comes before it, though it was found later.
const PAGE: [Row; 4] = [
    (0, 0, "added", "1 part is missing here"),
    (5, 5, "added", "2 parts are missing here"),
    (5, 6, "skipped", "This token does not fit here"),
    (7, 8, "deep", "This token is nested too deeply"),
];

fn is_listed(fault: &Listed, (start, end, kind, message): Row) -> bool {
    fault.span == Span { start, end }
        && fault.kind.is(kind)
        && fault.message.is(message)
        && fault.ty.is("parser")
}

fn are_listed(faults: &[Listed], rows: &[Row]) -> bool {
    faults.len() == rows.len()
        && faults
            .iter()
            .zip(rows)
            .all(|(fault, row)| is_listed(fault, *row))
}

fn has_page(alloc: Global, faults: &[SyntaxFault], rows: &[Row]) -> bool {
    match errors(alloc, faults, &[]) {
        Ok(page) => are_listed(&page.list, rows) && !page.more,
        Err(_) => false,
    }
}

/// Whether of so many faults a page has a thousand, and whether it leaves some out.
fn has_thousand(alloc: Global, count: usize, more: bool) -> bool {
    let Ok(faults) = vec![in alloc; SKIPPED; count] else {
        return false;
    };
    match errors(alloc, &faults, &[]) {
        Ok(page) => page.list.len() == 1000 && page.more == more,
        Err(_) => false,
    }
}

fn has_pages(alloc: Global) -> bool {
    has_thousand(alloc, 1000, false) && has_thousand(alloc, 1001, true)
}

#[test]
fn pages_of_faults(rt: HostRuntime) -> Result<(), Fail> {
    let ordered = has_page(rt.alloc(), &FOUND, &PAGE);
    none_wrong(wrong_unless(ordered, "faults by their places"))?;
    none_wrong(wrong_unless(has_pages(rt.alloc()), "a page of a thousand"))
}
