//! The changes that are proposed round a range.
ghost use Rattle.std.specs.Prelude.{◌≡◌, ◌≤◌, ◌++◌, length, map, option_map, true, IfOk};
ghost use Rattle.std.specs.List.{list_all};
ghost use Rattle.std.specs.Option.{option_to_list};
ghost use Rattle.service_model.specs.Answers.{CasesAre, TermsAre};
ghost use Rattle.service_model.specs.Replies as said;
ghost use Rattle.text_terms.specs.Bytes.{str_bytes};
ghost use Rattle.json_lines.specs.Meets.{pair_of};
ghost use Rattle.json_lines.specs.Means.{fault_of};
ghost use Rattle.syntax_tree.specs.Tallies.{Grows};
ghost use Rattle.lsp_model.specs.Answers as put;
ghost use Rattle.lsp_positions.specs.Texts.{columns_in};
ghost use Rattle.lsp_front.specs.Sayings as says;
ghost use Rattle.lsp_answers.specs.Puts as puts;
ghost use Rattle.lsp_queries.specs.Actions.{cases_told, is_missing_near as is_missing_near_spec, is_near as is_near_spec, is_space as is_space_spec, is_space_between as is_space_between_spec, terms_in, terms_told, CasesPart, ProposedAre, TermsAt, TermsNear, TermsPart};
ghost use Rattle.lsp_queries.specs.Shown.{place_told};
ghost use Rattle.lsp_queries.specs.Values.{value_of};

use crate::faults::faults_of;
use crate::places::{bytes_of, offset_of, range_between, shown_between, span_asked};
use analysis_api::Analyser;
use json_lines::{Listed, Reply};
use lsp_answers::Action;
use lsp_front::{Kinds, Range};
use lsp_positions::{Columns, asked_place};
use session::{Query, Session, TriedText};
use std::alloc::Global;
use syntax_tree::{Counts, NoMemory, RcStr, Span};

/// Terms, each in place of a range.
fn terms_of(alloc: Global, texts: &[RcStr], range: Range) -> Result<Vec<Action>, NoMemory>
    ensures { IfOk result (λ v. map puts.action_of v.items ≡ map (λ t. put.term t (says.range_of range)) (map str_bytes texts.now)) }
{
    let mut actions = Vec::new(alloc);
    for text in texts {
        actions.push(Action::Term {
            text: text.share()?,
            range,
        })?;
    }
    Ok(actions)
}

/// The terms that may go in place of what is missing at an offset; None where nothing is missing there.
#[tactic(auto, using(crate::proofs::Failures::failure_none, crate::proofs::Failures::error_none))]
fn terms_at<A: Analyser, C: Counts>(
    alloc: Global,
    session: &Session<A>,
    offset: u32,
    by: Columns,
    tried: &mut TriedText<A>,
    counts: &mut C,
) -> Result<Option<Vec<Action>>, NoMemory>
    ensures are { IfOk result (λ t. (s : said.Said) × TermsAre session.now.text offset s × (option_map (λ v. map puts.action_of v.items) t ≡ terms_told (columns_in by) session.now.text (value_of s))) }
    ensures counted { Grows (C.tallies counts.old) (C.tallies counts.new) }
{
    match session.ask_trying(&Query::Terms, offset, tried, counts)? {
        Reply::Terms { start, end, texts } => {
            let range = range_between(session, start, end, by);
            Ok(Some(terms_of(alloc, &texts, range)?))
        }
        _ => Ok(None),
    }
}

/// The cases of what is at an offset, where it has any.
#[tactic(auto, using(crate::proofs::Failures::failure_none, crate::proofs::Failures::error_none))]
fn cases_at<A: Analyser, C: Counts>(
    session: &Session<A>,
    offset: u32,
    by: Columns,
    tried: &mut TriedText<A>,
    counts: &mut C,
) -> Result<Option<Action>, NoMemory>
    ensures are { IfOk result (λ a. (s : said.Said) × CasesAre session.now.text offset s × (option_to_list (option_map puts.action_of a) ≡ cases_told (columns_in by) session.now.text (value_of s))) }
    ensures counted { Grows (C.tallies counts.old) (C.tallies counts.new) }
{
    match session.ask_trying(&Query::Cases, offset, tried, counts)? {
        Reply::Split { start, end, text } => Ok(Some(Action::Cases {
            text,
            range: range_between(session, start, end, by),
        })),
        _ => Ok(None),
    }
}

/// A blank, a tab, a carriage return or a line feed.
fn is_space(byte: u8) -> bool
    ensures { result ≡ is_space_spec byte }
{
    byte == b' ' || byte == b'\t' || byte == b'\r' || byte == b'\n'
}

fn are_spaces(bytes: &[u8]) -> bool
    ensures { result ≡ list_all is_space_spec bytes.now }
{
    bytes.iter().all(|byte| is_space(*byte))
}

/// Whether only such bytes are between two places.
fn is_space_between(text: &[u8], from: u32, to: u32) -> bool
    requires order { from ≤ to }
    requires within { to ≤ length text.now }
    ensures { result ≡ is_space_between_spec text.now from to }
{
    let tail = &text[from as usize..];
    are_spaces(&tail[..(to - from) as usize])
}

/// Whether a shown span meets or touches the asked one, or the asked one comes after it with only space between.
fn is_near(text: &[u8], shown: Span, asked: Span) -> bool
    requires asked { asked.start ≤ length text.now }
    ensures { result ≡ is_near_spec text.now (shown.start, shown.end) (asked.start, asked.end) }
{
    if shown.start <= asked.end && asked.start <= shown.end {
        return true;
    }
    shown.end <= asked.start && is_space_between(text, shown.end, asked.start)
}

/// Whether a fault is a missing part near a span.
fn is_missing_near<A: Analyser>(
    session: &Session<A>,
    text: &[u8],
    fault: &Listed,
    asked: Span,
) -> bool
    requires same { text.now ≡ session.now.text }
    requires asked { asked.start ≤ length session.now.text }
    requires order { asked.start ≤ asked.end }
    ensures { result ≡ is_missing_near_spec session.now.text (asked.start, asked.end) (fault_of fault.now) }
{
    fault.kind.is("added") && is_near(text, shown_between(session, fault.start, fault.end), asked)
}

/// The terms for a fault that is a missing part near a span; none for another fault.
fn terms_of_fault<A: Analyser, C: Counts>(
    alloc: Global,
    session: &Session<A>,
    fault: &Listed,
    missing: bool,
    by: Columns,
    tried: &mut TriedText<A>,
    counts: &mut C,
) -> Result<Vec<Action>, NoMemory>
    ensures are { IfOk result (λ v. TermsAt missing (columns_in by) session.now.text (place_told session.now.text (pair_of fault.now.start)) (map puts.action_of v.items)) }
    ensures counted { Grows (C.tallies counts.old) (C.tallies counts.new) }
{
    if !missing {
        return Ok(Vec::new(alloc));
    }
    match terms_at(
        alloc,
        session,
        offset_of(session, fault.start),
        by,
        tried,
        counts,
    )? {
        Some(terms) => Ok(terms),
        None => Ok(Vec::new(alloc)),
    }
}

/// The terms for the first missing part near the asked span that has any.
#[tactic(auto, using(crate::proofs::Near::near_on, crate::proofs::Near::near_found))]
fn terms_near<A: Analyser, C: Counts>(
    alloc: Global,
    session: &Session<A>,
    faults: &[Listed],
    asked: Span,
    by: Columns,
    tried: &mut TriedText<A>,
    counts: &mut C,
) -> Result<Vec<Action>, NoMemory>
    requires asked { asked.start ≤ length session.now.text }
    requires order { asked.start ≤ asked.end }
    ensures are { IfOk result (λ v. TermsNear (columns_in by) session.now.text (asked.start, asked.end) (map fault_of faults.now) (map puts.action_of v.items)) }
    ensures counted { Grows (C.tallies counts.old) (C.tallies counts.new) }
{
    let text = bytes_of(alloc, session)?;
    for fault in faults {
        let missing = is_missing_near(session, &text, fault, asked);
        let terms = terms_of_fault(alloc, session, fault, missing, by, tried, counts)?;
        if !terms.is_empty() {
            return Ok(terms);
        }
    }
    Ok(Vec::new(alloc))
}

/// Terms that may be none.
fn terms_or_none(alloc: Global, terms: Option<Vec<Action>>) -> Vec<Action>
    ensures { map puts.action_of result.items ≡ terms_in (option_map (λ v. map puts.action_of v.items) terms) }
{
    match terms {
        Some(terms) => terms,
        None => Vec::new(alloc),
    }
}

/// The terms at a place, where there are any, or else those for a missing part near the asked span.
#[tactic(auto, using(crate::proofs::Near::others_found))]
fn terms_for<A: Analyser, C: Counts>(
    alloc: Global,
    session: &Session<A>,
    here: Vec<Action>,
    asked: Span,
    by: Columns,
    tried: &mut TriedText<A>,
    counts: &mut C,
) -> Result<Vec<Action>, NoMemory>
    requires asked { asked.start ≤ length session.now.text }
    requires order { asked.start ≤ asked.end }
    ensures are { IfOk result (λ v. TermsPart true (map puts.action_of here.items) (columns_in by) session.now.text (asked.start, asked.end) (map puts.action_of v.items)) }
    ensures counted { Grows (C.tallies counts.old) (C.tallies counts.new) }
{
    if !here.is_empty() {
        return Ok(here);
    }
    let faults = faults_of(session, counts)?;
    terms_near(alloc, session, &faults, asked, by, tried, counts)
}

/// The same, where terms are asked for.
fn terms_asked<A: Analyser, C: Counts>(
    alloc: Global,
    session: &Session<A>,
    quickfix: bool,
    here: Option<Vec<Action>>,
    asked: Span,
    by: Columns,
    tried: &mut TriedText<A>,
    counts: &mut C,
) -> Result<Vec<Action>, NoMemory>
    requires asked { asked.start ≤ length session.now.text }
    requires order { asked.start ≤ asked.end }
    ensures are { IfOk result (λ v. TermsPart quickfix (terms_in (option_map (λ v. map puts.action_of v.items) here)) (columns_in by) session.now.text (asked.start, asked.end) (map puts.action_of v.items)) }
    ensures counted { Grows (C.tallies counts.old) (C.tallies counts.new) }
{
    if quickfix {
        terms_for(
            alloc,
            session,
            terms_or_none(alloc, here),
            asked,
            by,
            tried,
            counts,
        )
    } else {
        Ok(Vec::new(alloc))
    }
}

/// The cases at a place, where they are asked for and no hole is there.
fn cases_asked<A: Analyser, C: Counts>(
    session: &Session<A>,
    rewrite: bool,
    here: &Option<Vec<Action>>,
    place: u32,
    by: Columns,
    tried: &mut TriedText<A>,
    counts: &mut C,
) -> Result<Option<Action>, NoMemory>
    ensures are { IfOk result (λ a. CasesPart rewrite (option_map (λ v. map puts.action_of v.items) here.now) (columns_in by) session.now.text place (option_to_list (option_map puts.action_of a))) }
    ensures counted { Grows (C.tallies counts.old) (C.tallies counts.new) }
{
    if !rewrite {
        return Ok(None);
    }
    match here {
        Some(_) => Ok(None),
        None => cases_at(session, place, by, tried, counts),
    }
}

/// Terms behind cases.
fn with_cases(cases: Option<Action>, terms: Vec<Action>) -> Result<Vec<Action>, NoMemory>
    ensures { IfOk result (λ v. map puts.action_of v.items ≡ option_to_list (option_map puts.action_of cases) ++ map puts.action_of terms.items) }
{
    let mut actions = terms;
    if let Some(cases) = cases {
        actions.insert(0, cases)?;
    }
    Ok(actions)
}

/// The changes that are proposed round a range: the cases of what is at its start, unless it is a hole, and then terms. What is kept
/// of the texts that are tried stays in `tried`, for the next call; no answer depends on it.
pub fn proposed<A: Analyser, C: Counts>(
    alloc: Global,
    session: &Session<A>,
    range: Range,
    kinds: Kinds,
    by: Columns,
    tried: &mut TriedText<A>,
    counts: &mut C,
) -> Result<Vec<Action>, NoMemory>
    ensures are { IfOk result (λ v. ProposedAre (says.kinds_of kinds) (columns_in by) session.now.text (says.range_of range) (map puts.action_of v.items)) }
    ensures counted { Grows (C.tallies counts.old) (C.tallies counts.new) }
{
    let asked = span_asked(session, range, by);
    let (left, right) = session.slices();
    let place = asked_place(left, right, asked.start);
    let here = terms_at(alloc, session, place, by, tried, counts)?;
    let cases = cases_asked(session, kinds.rewrite, &here, place, by, tried, counts)?;
    let terms = terms_asked(
        alloc,
        session,
        kinds.quickfix,
        here,
        asked,
        by,
        tried,
        counts,
    )?;
    with_cases(cases, terms)
}
