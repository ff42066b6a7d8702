//! The made run: a text of so many items, one more behind them, and one line that tells what was found.
ghost use Rattle.std.specs.Prelude.{◌≡◌, ◌≢◌, ◌+◌, ◌++◌, ◌∷◌, [], IfOk, OnOk, string_bytes};
ghost use Rattle.text_terms.specs.Bytes.{str_bytes};
ghost use Rattle.service_model.specs.Made.{function_item, made_item, made_text, match_item, module_item, summary_line, type_item, value_item, IsSummary, SizesAre};
ghost use Rattle.syntax_tree.specs.Tallies.{Grows};
ghost use Rattle.session_loop.specs.Causes.{Rose};
ghost use Rattle.session_loop.specs.MadeRuns.{summary_of, IsTold, MadeOutcome, TypedWithin};

use crate::{Sink, Status};
use analysis_api::Analyser;
use session::{Session, Sizes};
use std::alloc::{AllocError, Global};
use syntax_tree::{Counts, NoMemory, RcStr};

/// The line that is put behind the made text.
const LAST_LINE: &str = "let last = 1\n";

/// What is found of the last text of a made run.
#[derive(Clone, Copy, Debug, PartialEq, Eq)]
pub(crate) struct Summary {
    pub bytes: u64,
    /// Those of the parser and of the typer with its warnings, all of them.
    pub faults: u64,
    pub items: u64,
    /// By how much the last query made the count of typed items grow.
    pub typed: u64,
}

fn value_item(alloc: Global, item: u32) -> Result<String, NoMemory>
    ensures { IfOk result (λ s. string_bytes s ≡ value_item item) }
{
    match format!(in alloc; "let v{item} = {item}") {
        Ok(text) => Ok(text),
        Err(_) => Err(AllocError),
    }
}

fn function_item(alloc: Global, item: u32) -> Result<String, NoMemory>
    ensures { IfOk result (λ s. string_bytes s ≡ function_item item) }
{
    let before = item.saturating_sub(1);
    match format!(in alloc; "let f{item} x = x + v{before}") {
        Ok(text) => Ok(text),
        Err(_) => Err(AllocError),
    }
}

fn type_item(alloc: Global, item: u32) -> Result<String, NoMemory>
    ensures { IfOk result (λ s. string_bytes s ≡ type_item item) }
{
    match format!(in alloc; "type t{item} = A{item} | B{item} of int") {
        Ok(text) => Ok(text),
        Err(_) => Err(AllocError),
    }
}

fn match_item(alloc: Global, item: u32, ty: u32, function: u32) -> Result<String, NoMemory>
    ensures { IfOk result (λ s. string_bytes s ≡ match_item item ty function) }
{
    match format!(in alloc; "let g{item} y = match y with A{ty} -> 0 | B{ty} n -> f{function} n") {
        Ok(text) => Ok(text),
        Err(_) => Err(AllocError),
    }
}

fn module_item(alloc: Global, item: u32) -> Result<String, NoMemory>
    ensures { IfOk result (λ s. string_bytes s ≡ module_item item) }
{
    let before = item.saturating_sub(1);
    let second = item.saturating_sub(2);
    match format!(in alloc; "module M{item} = struct let w = g{before} A{second} end") {
        Ok(text) => Ok(text),
        Err(_) => Err(AllocError),
    }
}

/// The item of a number, which counts from 0.
#[tactic(auto, unfolding(service_model::specs::Made::made_item))]
fn made_item(alloc: Global, item: u32) -> Result<String, NoMemory>
    ensures { IfOk result (λ s. string_bytes s ≡ made_item item) }
{
    match item % 5 {
        0 => value_item(alloc, item),
        1 => function_item(alloc, item),
        2 => type_item(alloc, item),
        3 => match_item(alloc, item, item.saturating_sub(1), item.saturating_sub(2)),
        _ => module_item(alloc, item),
    }
}

/// Puts an item behind a text, as a line of its own.
fn add_item(alloc: Global, text: &mut String, item: u32) -> Result<(), NoMemory>
    ensures { OnOk result (string_bytes text.new ≡ string_bytes text.old ++ made_item item ++ 10 ∷ []) }
{
    let line = made_item(alloc, item)?;
    if text.push_str(&line).is_err() || text.push('\n').is_err() {
        return Err(AllocError);
    }
    Ok(())
}

/// The text of so many items.
#[tactic(auto, using(crate::proofs::Making::made_next))]
fn made_text(alloc: Global, items: u32) -> Result<RcStr, NoMemory>
    ensures { IfOk result (λ r. str_bytes r ≡ made_text items) }
{
    let mut text = String::new(alloc);
    for item in 0..items {
        add_item(alloc, &mut text, item)?;
    }
    RcStr::new(alloc, text)
}

/// The sizes of a session's text, and by how much the query for them made the count of typed items grow.
fn asked<A: Analyser, C: Counts>(
    session: &mut Session<A>,
    counts: &mut C,
) -> Result<(Sizes, u64), NoMemory>
    ensures sizes { IfOk result (λ r. SizesAre session.old.text r.0.items r.0.faults) }
    ensures text { session.new.text ≡ session.old.text }
    ensures typed { IfOk result (λ r. (C.tallies counts.new).typed ≡ (C.tallies counts.old).typed + r.1) }
    ensures grows { Grows (C.tallies counts.old) (C.tallies counts.new) }
{
    let before = counts.typed();
    session.refresh(counts)?;
    let sizes = session.sizes(counts)?;
    Ok((sizes, counts.typed() - before))
}

/// Makes a text of so many items, asks for its faults, puts one more line behind it, and asks again.
fn found_of_made<A: Analyser, C: Counts>(
    alloc: Global,
    items: u32,
    counts: &mut C,
) -> Result<Summary, NoMemory>
    ensures found { IfOk result (λ s. IsSummary items (summary_of s)) }
    ensures typed { IfOk result (λ s. TypedWithin (C.tallies counts.old) (C.tallies counts.new) s.typed) }
    ensures grows { Grows (C.tallies counts.old) (C.tallies counts.new) }
{
    let mut session = Session::<A>::new(alloc);
    session.append(made_text(alloc, items)?)?;
    asked(&mut session, counts)?;
    session.append(RcStr::from_str(alloc, LAST_LINE)?)?;
    let (sizes, typed) = asked(&mut session, counts)?;
    Ok(Summary {
        bytes: session.len(),
        faults: sizes.faults,
        items: sizes.items,
        typed,
    })
}

/// The line that tells a summary.
#[tactic(auto, unfolding(service_model::specs::Made::summary_line))]
fn summary_line(alloc: Global, summary: Summary) -> Result<String, NoMemory>
    ensures { IfOk result (λ s. string_bytes s ≡ summary_line (summary_of summary)) }
{
    let Summary {
        bytes,
        faults,
        items,
        typed,
    } = summary;
    match format!(in alloc;
        "{{\"bytes\":{bytes},\"faults\":{faults},\"items\":{items},\"typed\":{typed}}}\n"
    ) {
        Ok(line) => Ok(line),
        Err(_) => Err(AllocError),
    }
}

/// The line of a made run of so many items.
fn made_line<A: Analyser, C: Counts>(
    alloc: Global,
    items: u32,
    counts: &mut C,
) -> Result<String, NoMemory>
    ensures told { IfOk result (λ line. IsTold items (C.tallies counts.old) (C.tallies counts.new) (string_bytes line)) }
    ensures grows { Grows (C.tallies counts.old) (C.tallies counts.new) }
{
    summary_line(alloc, found_of_made::<A, C>(alloc, items, counts)?)
}

/// Runs over a made text of so many items, and puts one line. It takes no input; where memory is short it puts nothing.
pub(crate) fn run_made<A: Analyser, K: Sink, C: Counts>(
    alloc: Global,
    items: u32,
    sink: &mut K,
    counts: &mut C,
) -> Status
    ensures outcome { MadeOutcome result items (K.held sink.old) (K.held sink.new) (C.tallies counts.old) (C.tallies counts.new) }
    ensures write { result ≡ Status.WriteFault → Rose (K.faults sink.old) (K.faults sink.new) }
    ensures no_words { result ≢ Status.BadWords }
    ensures memory { result ≡ Status.NoMemory → sink.new ≡ sink.old }
    ensures counted { Grows (C.tallies counts.old) (C.tallies counts.new) }
{
    let Ok(line) = made_line::<A, C>(alloc, items, counts) else {
        return Status::NoMemory;
    };
    match sink.put(line.as_bytes()) {
        Ok(()) => Status::Done,
        Err(_) => Status::WriteFault,
    }
}
