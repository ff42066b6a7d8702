//! One read, and what comes of it; and the end of the input.
ghost use Rattle.std.specs.Prelude.{◌≡◌, ◌≤◌, ◌<◌, ◌++◌, ◌∷◌, [], List, ℕ, length, take, OnOk, OnErr, Option};
ghost use Rattle.std.specs.Io.KnownBytes.{Appends};
ghost use Rattle.text_model.specs.Lines.{ended_from};
ghost use Rattle.syntax_tree.specs.Tallies.{Grows, Tallies};
ghost use Rattle.service_model.specs.Runs.{Run, request_lines};
ghost use Rattle.session_loop.specs.Causes.{HasCause, Rose};
ghost use Rattle.session_loop.specs.Progress.{Cut, SoFar};
ghost use Rattle.session_loop.specs.Spending.{SpentOver};
ghost use Rattle.session_loop.specs.Turns.{Goes};

use crate::begun::Begun;
use crate::feed::{answer_line, take_chunk};
use crate::{Failed, Sink, Source};
use analysis_api::Analyser;
use session::Session;
use syntax_tree::Counts;

/// What a read led to.
#[derive(Clone, Copy, Debug, PartialEq, Eq)]
pub enum Turn {
    /// So many bytes were taken, at least one, and their lines answered.
    Took(u64),
    /// No byte is left.
    End,
    ReadFault,
    WriteFault,
}

/// Reads at most `most` bytes into the buffer, and takes them.
pub fn take_turn<A: Analyser, S: Source, K: Sink, C: Counts>(
    session: &mut Session<A>,
    begun: &mut Begun,
    buf: &mut [u8],
    most: usize,
    src: &mut S,
    sink: &mut K,
    counts: &mut C,
) -> Turn
    requires some { 0 < most }
    requires fits { most ≤ length buf.old }
    ensures goes { (start : Tallies) (before : Option (List ℕ)) (taken : List ℕ)
        → SoFar A.opens start (C.tallies counts.old) before (K.held sink.old) taken session.old begun.old
        → Goes result (S.left src.old) (S.left src.new)
        (λ bytes. SoFar A.opens start (C.tallies counts.new) before (K.held sink.new) (taken ++ bytes) session.new begun.new)
        (λ front. Cut A.opens start (C.tallies counts.new) before (K.held sink.new) (ended_from [] (taken ++ front))) }
    ensures progress { (n : ℕ) → result ≡ Turn.Took n → (0 < n) × (n ≤ most) }
    ensures reads { S.faults src.old ≤ S.faults src.new }
    ensures writes { K.faults sink.old ≤ K.faults sink.new }
    ensures read { result ≡ Turn.ReadFault → Rose (S.faults src.old) (S.faults src.new) }
    ensures write { result ≡ Turn.WriteFault → Rose (K.faults sink.old) (K.faults sink.new) }
    ensures counted { Grows (C.tallies counts.old) (C.tallies counts.new) }
{
    match src.take(&mut buf[..most]) {
        Err(_) => Turn::ReadFault,
        Ok(0) => Turn::End,
        Ok(count) => match take_chunk(session, begun, &buf[..count], sink, counts) {
            Ok(()) => Turn::Took(count as u64),
            Err(_) => Turn::WriteFault,
        },
    }
}

/// Answers a last line that no line feed ended.
pub fn finish<A: Analyser, K: Sink, C: Counts>(
    session: &mut Session<A>,
    begun: &Begun,
    sink: &mut K,
    counts: &mut C,
) -> Result<(), Failed>
    ensures done { OnOk result ((start : Tallies) (before : Option (List ℕ)) (taken : List ℕ)
        → SoFar A.opens start (C.tallies counts.old) before (K.held sink.old) taken session.old begun.now
        → (out : List ℕ) × Run (request_lines taken) out × Appends before (K.held sink.new) out
        × SpentOver A.opens start (C.tallies counts.new) before (K.held sink.new) (request_lines taken)) }
    ensures cut { OnErr result ((start : Tallies) (before : Option (List ℕ)) (taken : List ℕ)
        → SoFar A.opens start (C.tallies counts.old) before (K.held sink.old) taken session.old begun.now
        → Cut A.opens start (C.tallies counts.new) before (K.held sink.new) (request_lines taken)) }
    ensures cause { HasCause (K.faults sink.old) (K.faults sink.new) result }
    ensures counted { Grows (C.tallies counts.old) (C.tallies counts.new) }
{
    answer_line(session, begun, sink, counts)
}
