//! One byte, one chunk, and the line that has ended.
ghost use Rattle.std.specs.Prelude.{◌≡◌, ◌++◌, ◌∷◌, [], false, List, ℕ, take, OnOk, OnErr, Option};
ghost use Rattle.std.specs.Io.KnownBytes.{Appends};
ghost use Rattle.text_model.specs.Lines.{ended_from};
ghost use Rattle.syntax_tree.specs.Tallies.{Grows, Tallies};
ghost use Rattle.service_model.specs.Runs.{Step, is_blank_line};
ghost use Rattle.session_loop.specs.Begun.{Holds};
ghost use Rattle.session_loop.specs.Causes.{HasCause};
ghost use Rattle.session_loop.specs.Progress.{Cut, SoFar};
ghost use Rattle.session_loop.specs.Spending.{LineSpends};

use crate::begun::Begun;
use crate::{Failed, Sink};
use analysis_api::Analyser;
use session::Session;
use syntax_tree::Counts;

/// Answers the line that has ended by one `put`, unless it is blank.
pub fn answer_line<A: Analyser, K: Sink, C: Counts>(
    session: &mut Session<A>,
    begun: &Begun,
    sink: &mut K,
    counts: &mut C,
) -> Result<(), Failed>
    ensures done { OnOk result ((line : List ℕ) → Holds begun.now line
        → (piece : List ℕ) × Step session.old.text line piece session.new.text
        × Appends (K.held sink.old) (K.held sink.new) piece
        × LineSpends A.opens line piece session.old session.new (C.tallies counts.old) (C.tallies counts.new)) }
    ensures cut { OnErr result ((line : List ℕ) → Holds begun.now line
        → (is_blank_line line ≡ false) × (piece : List ℕ) × Step session.old.text line piece session.new.text
        × (n : ℕ) × Appends (K.held sink.old) (K.held sink.new) (take n piece)
        × LineSpends A.opens line piece session.old session.new (C.tallies counts.old) (C.tallies counts.new)) }
    ensures cause { HasCause (K.faults sink.old) (K.faults sink.new) result }
    ensures counted { Grows (C.tallies counts.old) (C.tallies counts.new) }
{
    if begun.blank {
        return Ok(());
    }
    sink.put(session.answer(&begun.bytes, counts).bytes())
}

/// Takes the next byte of the input.
fn take_byte<A: Analyser, K: Sink, C: Counts>(
    session: &mut Session<A>,
    begun: &mut Begun,
    byte: u8,
    sink: &mut K,
    counts: &mut C,
) -> Result<(), Failed>
    ensures done { OnOk result ((start : Tallies) (before : Option (List ℕ)) (taken : List ℕ)
        → SoFar A.opens start (C.tallies counts.old) before (K.held sink.old) taken session.old begun.old
        → SoFar A.opens start (C.tallies counts.new) before (K.held sink.new) (taken ++ byte ∷ []) session.new begun.new) }
    ensures cut { OnErr result ((start : Tallies) (before : Option (List ℕ)) (taken : List ℕ)
        → SoFar A.opens start (C.tallies counts.old) before (K.held sink.old) taken session.old begun.old
        → Cut A.opens start (C.tallies counts.new) before (K.held sink.new) (ended_from [] (taken ++ byte ∷ []))) }
    ensures cause { HasCause (K.faults sink.old) (K.faults sink.new) result }
    ensures counted { Grows (C.tallies counts.old) (C.tallies counts.new) }
{
    if byte == b'\n' {
        answer_line(session, begun, sink, counts)?;
        begun.clear();
    } else {
        begun.push(byte);
    }
    Ok(())
}

/// Takes the bytes of a chunk one by one.
pub fn take_chunk<A: Analyser, K: Sink, C: Counts>(
    session: &mut Session<A>,
    begun: &mut Begun,
    chunk: &[u8],
    sink: &mut K,
    counts: &mut C,
) -> Result<(), Failed>
    ensures done { OnOk result ((start : Tallies) (before : Option (List ℕ)) (taken : List ℕ)
        → SoFar A.opens start (C.tallies counts.old) before (K.held sink.old) taken session.old begun.old
        → SoFar A.opens start (C.tallies counts.new) before (K.held sink.new) (taken ++ chunk.now) session.new begun.new) }
    ensures cut { OnErr result ((start : Tallies) (before : Option (List ℕ)) (taken : List ℕ)
        → SoFar A.opens start (C.tallies counts.old) before (K.held sink.old) taken session.old begun.old
        → (n : ℕ) × Cut A.opens start (C.tallies counts.new) before (K.held sink.new) (ended_from [] (taken ++ take n chunk.now))) }
    ensures cause { HasCause (K.faults sink.old) (K.faults sink.new) result }
    ensures counted { Grows (C.tallies counts.old) (C.tallies counts.new) }
{
    for byte in chunk {
        take_byte(session, begun, *byte, sink, counts)?;
    }
    Ok(())
}
