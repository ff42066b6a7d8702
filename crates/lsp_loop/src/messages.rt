//! One message, and what it puts.
ghost use Rattle.std.specs.Prelude.{◌≡◌, ◌≢◌, ◌≤◌, List, ℕ, map, take, Err, OnErr, OnOk, Option};
ghost use Rattle.std.specs.List.{concat};
ghost use Rattle.std.specs.Io.KnownBytes.{Appends};
ghost use Rattle.syntax_tree.specs.Tallies.{Grows};
ghost use Rattle.session_loop.specs.Causes.{HasCause, Rose};
ghost use Rattle.lsp_loop.specs.Heard.{body, passed, BeginsWith};
ghost use Rattle.lsp_loop.specs.Progress.{SoFar};
ghost use Rattle.lsp_loop.specs.Steps.{end_of as end_of_spec, HeardBy, PutBy};

use crate::ends::End;
use analysis_api::Analyser;
use lsp_documents::{Documents, Ending, Step};
use session_loop::{Failed, Sink};
use syntax_tree::Counts;

/// Puts pieces, one after another.
fn put_all<K: Sink>(pieces: &[Vec<u8>], sink: &mut K) -> Result<(), Failed>
    ensures ok { OnOk result (Appends (K.held sink.old) (K.held sink.new) (concat (map (λ v. v.items) pieces.now))) }
    ensures cut { OnErr result ((n : ℕ) × Appends (K.held sink.old) (K.held sink.new) (take n (concat (map (λ v. v.items) pieces.now)))) }
    ensures cause { HasCause (K.faults sink.old) (K.faults sink.new) result }
{
    for piece in pieces {
        sink.put(piece)?;
    }
    Ok(())
}

/// How an editor's `exit` ends a run.
fn end_of(ending: Ending) -> End
    ensures value { result ≡ end_of_spec ending }
    ensures write { result ≢ End.WriteFault }
    ensures read { result ≢ End.ReadFault }
{
    match ending {
        Ending::Shut => End::Done,
        Ending::NotShut => End::NoShutdown,
    }
}

/// Puts what comes of a message, or says how the run ends at it.
fn put_step<K: Sink>(step: Step, sink: &mut K) -> Result<(), End>
    ensures put { PutBy step result (K.held sink.old) (K.held sink.new) }
    ensures later { K.faults sink.old ≤ K.faults sink.new }
    ensures write { result ≡ Err End.WriteFault → Rose (K.faults sink.old) (K.faults sink.new) }
    ensures read { result ≢ Err End.ReadFault }
{
    match step {
        Step::Puts(pieces) => match put_all(pieces.list(), sink) {
            Ok(()) => Ok(()),
            Err(_) => Err(End::WriteFault),
        },
        Step::Exit(ending) => Err(end_of(ending)),
    }
}

/// Takes a body, and puts what comes of it.
pub fn take_body<A: Analyser, K: Sink, C: Counts>(
    documents: &mut Documents<A>,
    bytes: &[u8],
    sink: &mut K,
    counts: &mut C,
) -> Result<(), End>
    ensures heard { (before : Option (List ℕ)) (taken rest after : List ℕ)
        → SoFar before (K.held sink.old) taken documents.old rest → BeginsWith rest (body bytes.now) after
        → HeardBy result before (K.held sink.new) taken documents.new after }
    ensures later { K.faults sink.old ≤ K.faults sink.new }
    ensures write { result ≡ Err End.WriteFault → Rose (K.faults sink.old) (K.faults sink.new) }
    ensures read { result ≢ Err End.ReadFault }
    ensures counted { Grows (C.tallies counts.old) (C.tallies counts.new) }
{
    match documents.take_body(bytes, counts) {
        Ok(step) => put_step(step, sink),
        Err(_) => Err(End::NoMemory),
    }
}

/// Passes over a body that was too long, and puts what comes of it.
pub fn pass_over<A: Analyser, K: Sink, C: Counts>(
    documents: &mut Documents<A>,
    sink: &mut K,
    counts: &mut C,
) -> Result<(), End>
    ensures heard { (before : Option (List ℕ)) (taken rest after : List ℕ)
        → SoFar before (K.held sink.old) taken documents.old rest → BeginsWith rest passed after
        → HeardBy result before (K.held sink.new) taken documents.new after }
    ensures later { K.faults sink.old ≤ K.faults sink.new }
    ensures write { result ≡ Err End.WriteFault → Rose (K.faults sink.old) (K.faults sink.new) }
    ensures read { result ≢ Err End.ReadFault }
    ensures counted { Grows (C.tallies counts.old) (C.tallies counts.new) }
{
    match documents.pass_over(counts) {
        Ok(step) => put_step(step, sink),
        Err(_) => Err(End::NoMemory),
    }
}
