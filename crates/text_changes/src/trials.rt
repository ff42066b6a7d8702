//! Changes of a text that are tried: the changed text is read, from where it differs from the one tried before, and its faults are
//! compared.
ghost use Rattle.std.specs.Prelude.{◌≡◌, ◌≤◌, ◌<◌, ◌+◌, ◌^◌, ◌&&◌, nat_eq, [], ◌∷◌, ◌++◌, length, map, IfNone, IfOk, IfSome, OnOk};
ghost use Rattle.std.specs.Str.{IsUtf8};
ghost use Rattle.std.specs.HashSet.{keys};
ghost use Rattle.text_terms.specs.Bytes.{str_bytes};
ghost use Rattle.text_model.specs.Edits.{apply, text_limit};
ghost use Rattle.query_model.specs.Faults.{by_typer};
ghost use Rattle.service_model.specs.Structure.{TyperFaults};
ghost use Rattle.service_model.specs.Trials.{FirstAdded, Fits, IsLeast, mark_of, moved, moved_mark, new_starts};
ghost use Rattle.syntax_tree.specs.Tallies.{Grows};
ghost use Rattle.syntax_tree.specs.View.{place_of};
ghost use Rattle.text_queries.specs.Faults.{fault_of, typer_fault_of};
ghost use Rattle.text_reading.specs.Trials.{TriesAll};
ghost use Rattle.text_changes.specs.Trials.{HasMarks, IsParserOf, Knows, lesser, mark_in};

use analysis_api::Analyser;
use asked_node::Trial;
use env_table::Fault;
use frame_parser::SyntaxFault;
use query_engine::Replacement;
use std::alloc::{AllocError, Global};
use std::collections::HashSet;
use syntax_tree::{Counts, NoMemory, Span};
use text_queries::kind_name;
use text_reading::TriedText;

/// How many bytes a text may have.
const TEXT_LIMIT: usize = 1_048_576;

/// A fault without its message: where it starts and ends, in bytes from 0, and its kind.
#[derive(Clone, Copy, PartialEq, Eq, Hash)]
struct Mark {
    start: u32,
    end: u32,
    kind: &'static str,
}

/// A text with the marks of its faults: those of the parser, and those that the typer found.
#[derive(Drop)]
pub struct MarkedText {
    text: Vec<u8>,
    known: HashSet<Mark>,
    ghost knows: { ∥ Knows text.items (keys known) ∥₁ },
}

/// A text of which changes are tried, and what is kept of the changed text that was tried last, whose types an `A` finds.
#[derive(Drop)]
pub struct TextTrial<'a, A: Analyser> {
    alloc: Global,
    of: &'a MarkedText,
    tried: &'a mut TriedText<A>,
}

fn mark_of_parsed(fault: SyntaxFault) -> Mark
    ensures { mark_in result ≡ mark_of (fault_of fault) }
{
    match fault {
        SyntaxFault::Added { place, holes: _ } => Mark {
            start: place,
            end: place,
            kind: "added",
        },
        SyntaxFault::Skipped { span } => Mark {
            start: span.start,
            end: span.end,
            kind: "skipped",
        },
        SyntaxFault::TooDeep { span } => Mark {
            start: span.start,
            end: span.end,
            kind: "deep",
        },
        SyntaxFault::Cut { place } => Mark {
            start: place,
            end: place,
            kind: "cut",
        },
    }
}

fn mark_of_typed(fault: &Fault) -> Mark
    ensures { mark_in result ≡ mark_of (by_typer (typer_fault_of fault.now)) }
{
    Mark {
        start: fault.span.start,
        end: fault.span.end,
        kind: kind_name(fault.kind),
    }
}

fn put(marks: &mut Vec<Mark>, mark: Mark) -> Result<(), NoMemory>
    ensures { OnOk result (map mark_in marks.new.items ≡ map mark_in marks.old.items ++ mark_in mark ∷ []) }
{
    match marks.push(mark) {
        Ok(()) => Ok(()),
        Err(_) => Err(AllocError),
    }
}

/// The marks of the parser's faults.
fn marks_of_parsed(alloc: Global, faults: &[SyntaxFault]) -> Result<Vec<Mark>, NoMemory>
    ensures { IfOk result (λ v. map mark_in v.items ≡ map mark_of (map fault_of faults.now)) }
{
    let mut marks = Vec::new(alloc);
    for fault in faults {
        put(&mut marks, mark_of_parsed(*fault))?;
    }
    Ok(marks)
}

/// The marks of a text's faults, the parser's first.
fn marks_of(alloc: Global, parsed: &[SyntaxFault], typed: &[Fault]) -> Result<Vec<Mark>, NoMemory>
    ensures { IfOk result (λ v. map mark_in v.items ≡ map mark_of (map fault_of parsed.now ++ map by_typer (map typer_fault_of typed.now))) }
{
    let mut marks = marks_of_parsed(alloc, parsed)?;
    for fault in typed {
        put(&mut marks, mark_of_typed(fault))?;
    }
    Ok(marks)
}

/// The set of these marks.
fn set_of(alloc: Global, marks: &[Mark]) -> Result<HashSet<Mark>, NoMemory>
    ensures { IfOk result (HasMarks marks.now) }
{
    let mut known = HashSet::new(alloc);
    for mark in marks {
        if known.insert(*mark).is_err() {
            return Err(AllocError);
        }
    }
    Ok(known)
}

/// A place of the changed text in the text: one inside of what was put there is where that starts.
fn moved(place: u32, replaced: Span, put: u32) -> u32
    requires { replaced.start + put < 2 ^ 32 }
    ensures { result ≡ moved (place_of replaced) put place }
{
    let behind = replaced.start + put;
    if place <= replaced.start {
        place
    } else if place < behind {
        replaced.start
    } else {
        replaced.end.saturating_add(place - behind)
    }
}

/// A fault of the changed text as one of the text.
fn moved_mark(mark: Mark, replacement: &Replacement) -> Mark
    requires { replacement.now.span.start + length (str_bytes replacement.now.text) < 2 ^ 32 }
    ensures { mark_in result ≡ moved_mark (place_of replacement.now.span) (length (str_bytes replacement.now.text)) (mark_in mark) }
{
    let put = replacement.text.as_str().len() as u32;
    Mark {
        start: moved(mark.start, replacement.span, put),
        end: moved(mark.end, replacement.span, put),
        kind: mark.kind,
    }
}

/// The first of two places, of which one may be none.
fn first_of(first: Option<u32>, place: u32) -> u32
    ensures { result ≡ lesser first place }
{
    match first {
        Some(before) if before <= place => before,
        _ => place,
    }
}

fn extend(bytes: &mut Vec<u8>, more: &[u8]) -> Result<(), NoMemory>
    ensures { OnOk result (bytes.new.items ≡ bytes.old.items ++ more.now) }
{
    match bytes.extend_from_slice(more) {
        Ok(()) => Ok(()),
        Err(_) => Err(AllocError),
    }
}

/// The changed text. None where the span isn't within the text.
fn changed_text(
    alloc: Global,
    text: &[u8],
    replacement: &Replacement,
) -> Result<Option<Vec<u8>>, NoMemory>
    ensures made { IfOk result (λ r. IfSome r (λ v. v.items ≡ apply text.now replacement.now.span.start replacement.now.span.end (str_bytes replacement.now.text))) }
    ensures within { IfOk result (λ r. IfSome r (λ v. (replacement.now.span.start ≤ replacement.now.span.end) × (replacement.now.span.end ≤ length text.now))) }
    ensures outside { IfOk result (λ r. IfNone r (replacement.now.span.start ≤ replacement.now.span.end → replacement.now.span.end ≤ length text.now → ⊥)) }
{
    let (start, end) = (
        replacement.span.start as usize,
        replacement.span.end as usize,
    );
    if start > end || end > text.len() {
        return Ok(None);
    }
    let mut changed = Vec::new(alloc);
    extend(&mut changed, &text[..start])?;
    extend(&mut changed, replacement.text.as_str().as_bytes())?;
    extend(&mut changed, &text[end..])?;
    Ok(Some(changed))
}

impl MarkedText {
    /// A text with its faults: those of the parser, and those that the typer found.
    pub fn new(
        alloc: Global,
        text: Vec<u8>,
        parsed: &[SyntaxFault],
        typed: &[Fault],
    ) -> Result<MarkedText, NoMemory>
        requires parsed { IsParserOf text.items parsed.now }
        requires typed { TyperFaults text.items (map typer_fault_of typed.now) }
        ensures { IfOk result (λ m. m.text.items ≡ text.items) }
    {
        let marks = marks_of(alloc, parsed, typed)?;
        let known = set_of(alloc, &marks)?;
        Ok(MarkedText { text, known })
    }

    /// The first place in the text of a mark of the changed text that isn't known.
    fn first_new(&self, replacement: &Replacement, marks: &[Mark]) -> Option<u32>
        requires { replacement.now.span.start + length (str_bytes replacement.now.text) < 2 ^ 32 }
        ensures { IsLeast result (new_starts (map mark_in (keys self.now.known)) (map (moved_mark (place_of replacement.now.span) (length (str_bytes replacement.now.text))) (map mark_in marks.now))) }
    {
        let mut first = None;
        for mark in marks {
            let there = moved_mark(*mark, replacement);
            if !self.known.contains(&there) {
                first = Some(first_of(first, there.start));
            }
        }
        first
    }
}

impl<'a, A: Analyser> TextTrial<'a, A> {
    /// What is kept of the text that was tried last may be of any text.
    pub fn new(alloc: Global, of: &'a MarkedText, tried: &'a mut TriedText<A>) -> TextTrial<'a, A>
        ensures of { result.of.now ≡ of.now }
        ensures tried { result.tried.now ≡ tried.old }
        ensures same_reference { result.tried.ghost_name ≡ tried.entry.ghost_name }
    {
        TextTrial { alloc, of, tried }
    }

    /// The same, of a changed text within the limit.
    fn first_in<C: Counts>(
        &mut self,
        replacement: &Replacement,
        changed: &str,
        counts: &mut C,
    ) -> Result<Option<u32>, NoMemory>
        requires made { changed.now ≡ apply self.old.of.now.text.items replacement.now.span.start replacement.now.span.end (str_bytes replacement.now.text) }
        requires short { length changed.now ≤ text_limit }
        requires put { replacement.now.span.start + length (str_bytes replacement.now.text) < 2 ^ 32 }
        ensures first { IfOk result (FirstAdded self.old.of.now.text.items (place_of replacement.now.span) (str_bytes replacement.now.text)) }
        ensures text { self.new.of.now ≡ self.old.of.now }
        ensures same_reference { self.new.tried.ghost_name ≡ self.old.tried.ghost_name }
        ensures tries { TriesAll A.opens (changed.now ∷ []) self.old.tried.now self.new.tried.now (C.tallies counts.old) (C.tallies counts.new) }
        ensures grows { Grows (C.tallies counts.old) (C.tallies counts.new) }
    {
        let alloc = self.alloc;
        self.tried.type_text(changed, counts)?;
        let (parsed, found) = self.tried.found();
        let marks = marks_of(alloc, &parsed.faults, &found.faults.list)?;
        Ok(self.of.first_new(replacement, &marks))
    }
}

impl<'a, A: Analyser> Trial for TextTrial<'a, A> {
    ghost use Rattle.std.specs.Prelude.{◌≡◌, refl};
    ghost use Rattle.std.proofs.Common.{◌∙◌};
    ghost use Rattle.text_reading.specs.Trials.{TriesAll};
    ghost use Rattle.text_reading.proofs.Spent.{tries_join};
    ghost use Rattle.text_changes.specs.Changes.{Tells};

    ghost text = { λ t. t.of.now.text.items };

    ghost tells = { Tells };

    ghost spends = { λ t texts u before after. (u.tried.ghost_name ≡ t.tried.ghost_name) × TriesAll A.opens texts t.tried.now u.tried.now before after };

    ghost starts = { λ t a. (refl, (refl, refl)) };

    ghost joins = { λ s t u xs ys a b c first then. (then.0 ∙ first.0, tries_join A.opens s.tried.now t.tried.now u.tried.now xs ys a b c first.1 then.1) };

    fn first_new_fault<C: Counts>(
        &mut self,
        replacement: &Replacement,
        counts: &mut C,
    ) -> Result<Option<u32>, NoMemory> {
        let Some(changed) = changed_text(self.alloc, &self.of.text, replacement)? else {
            return Ok(Some(replacement.span.start));
        };
        match std::str::from_utf8(&changed) {
            Ok(text) if text.len() <= TEXT_LIMIT => self.first_in(replacement, text, counts),
            _ => Ok(Some(replacement.span.start)),
        }
    }
}
