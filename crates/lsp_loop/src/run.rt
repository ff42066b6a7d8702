//! The run: messages in, and what each of them puts.
ghost use Rattle.std.specs.Prelude.{◌≡◌, ◌≢◌, ◌<◌, ◌≤◌, ◌+◌, [], List, ℕ, length, Option};
ghost use Rattle.syntax_tree.specs.Tallies.{Grows};
ghost use Rattle.session_loop.specs.Causes.{Rose};
ghost use Rattle.lsp_documents.specs.States.{first_state};
ghost use Rattle.lsp_loop.specs.Outcomes.{EndOfInput, Outcome};
ghost use Rattle.lsp_loop.specs.Progress.{SoFar};
ghost use Rattle.lsp_loop.specs.Turns.{Goes};
ghost use Rattle.lsp_loop.specs.Waiting.{Keeps};

use crate::ends::End;
use crate::incoming::{CHUNK_LIMIT, Incoming};
use analysis_api::Analyser;
use lsp_documents::Documents;
use session_loop::{Sink, Source};
use std::alloc::Global;
use syntax_tree::Counts;

/// How a run ended, and by how much it made the counter that it was lent grow.
#[derive(Clone, Copy, Debug, PartialEq, Eq)]
pub struct EditorReport {
    pub end: End,
    pub lexed: u64,
    pub shifted: u64,
    pub typed: u64,
}

/// How many bytes a run may take: fewer than this.
const INPUT_LIMIT: u64 = 1 << 40;

/// What comes of the end of the input.
fn end_of_input(incoming: &Incoming) -> End
    ensures { EndOfInput incoming.now result }
{
    if incoming.is_between() {
        End::Done
    } else {
        End::BadFrame
    }
}

/// What a read led to.
#[derive(Clone, Copy, Debug, PartialEq, Eq)]
enum Turn {
    /// So many bytes were taken, at least one, and the messages that end in them.
    Took(u64),
    /// No byte is left.
    Over,
    ReadFault,
    Stops(End),
}

/// Reads at most `most` bytes into the buffer, and takes them.
fn take_turn<A: Analyser, S: Source, K: Sink, C: Counts>(
    documents: &mut Documents<A>,
    incoming: &mut Incoming,
    buf: &mut [u8],
    most: usize,
    src: &mut S,
    sink: &mut K,
    counts: &mut C,
) -> Turn
    requires some { 0 < most }
    requires fits { most ≤ length buf.old }
    ensures goes { (before : Option (List ℕ)) (taken rest : List ℕ)
        → SoFar before (K.held sink.old) taken documents.old rest → Keeps incoming.old rest
        → Goes result (S.left src.old) (S.left src.new) before (K.held sink.new) taken documents.new incoming.new }
    ensures progress { (n : ℕ) → result ≡ Turn.Took n → (0 < n) × (n ≤ most) }
    ensures reads { S.faults src.old ≤ S.faults src.new }
    ensures writes { K.faults sink.old ≤ K.faults sink.new }
    ensures read { result ≡ Turn.ReadFault → Rose (S.faults src.old) (S.faults src.new) }
    ensures write { result ≡ Turn.Stops End.WriteFault → Rose (K.faults sink.old) (K.faults sink.new) }
    ensures never { result ≢ Turn.Stops End.ReadFault }
    ensures counted { Grows (C.tallies counts.old) (C.tallies counts.new) }
{
    match src.take(&mut buf[..most]) {
        Err(_) => Turn::ReadFault,
        Ok(0) => Turn::Over,
        Ok(count) => match incoming.take_chunk(documents, &buf[..count], sink, counts) {
            None => Turn::Took(count as u64),
            Some(end) => Turn::Stops(end),
        },
    }
}

/// Takes messages until the run ends.
fn take_input<A: Analyser, S: Source, K: Sink, C: Counts>(
    documents: &mut Documents<A>,
    incoming: &mut Incoming,
    buf: &mut [u8],
    src: &mut S,
    sink: &mut K,
    counts: &mut C,
) -> End
    requires room { length buf.old ≡ 65536 }
    requires first { documents.old ≡ first_state }
    requires none { Keeps incoming.old [] }
    ensures outcome { Outcome result (S.left src.old) (S.left src.new) (K.held sink.old) (K.held sink.new) }
    ensures read { result ≡ End.ReadFault → Rose (S.faults src.old) (S.faults src.new) }
    ensures write { result ≡ End.WriteFault → Rose (K.faults sink.old) (K.faults sink.new) }
    ensures counted { Grows (C.tallies counts.old) (C.tallies counts.new) }
{
    let mut total: u64 = 0;
    while total < INPUT_LIMIT {
        let most = (INPUT_LIMIT - total).min(CHUNK_LIMIT as u64) as usize;
        match take_turn(documents, incoming, buf, most, src, sink, counts) {
            Turn::Took(count) => total += count,
            Turn::Over => return end_of_input(incoming),
            Turn::ReadFault => return End::ReadFault,
            Turn::Stops(end) => return end,
        }
    }
    End::InputTooLong
}

/// Runs in the room that it is given.
fn run<A: Analyser, S: Source, K: Sink, C: Counts>(
    alloc: Global,
    src: &mut S,
    sink: &mut K,
    counts: &mut C,
) -> End
    ensures outcome { Outcome result (S.left src.old) (S.left src.new) (K.held sink.old) (K.held sink.new) }
    ensures read { result ≡ End.ReadFault → Rose (S.faults src.old) (S.faults src.new) }
    ensures write { result ≡ End.WriteFault → Rose (K.faults sink.old) (K.faults sink.new) }
    ensures counted { Grows (C.tallies counts.old) (C.tallies counts.new) }
{
    let Ok(mut buf) = vec![in alloc; 0u8; CHUNK_LIMIT] else {
        return End::NoMemory;
    };
    let Ok(mut incoming) = Incoming::new(alloc) else {
        return End::NoMemory;
    };
    let mut documents = Documents::<A>::new(alloc);
    take_input(&mut documents, &mut incoming, &mut buf, src, sink, counts)
}

/// Serves an editor: reads its messages from the source, and puts what comes of each into the sink, each answer by one
/// `put`, before it reads the next. Types and names are found by an `A`. It always ends, whatever the input is.
pub fn serve_editor<A: Analyser, S: Source, K: Sink, C: Counts>(
    alloc: Global,
    src: &mut S,
    sink: &mut K,
    counts: &mut C,
) -> EditorReport
    // What was taken and put, by how the run ended.
    ensures outcome { Outcome result.end (S.left src.old) (S.left src.new) (K.held sink.old) (K.held sink.new) }
    // A read or a write failed where the run ended for it.
    ensures read { result.end ≡ End.ReadFault → Rose (S.faults src.old) (S.faults src.new) }
    ensures write { result.end ≡ End.WriteFault → Rose (K.faults sink.old) (K.faults sink.new) }
    // The report is the growth of the counter.
    ensures lexed { (C.tallies counts.new).lexed ≡ (C.tallies counts.old).lexed + result.lexed }
    ensures shifted { (C.tallies counts.new).shifted ≡ (C.tallies counts.old).shifted + result.shifted }
    ensures typed { (C.tallies counts.new).typed ≡ (C.tallies counts.old).typed + result.typed }
{
    let lexed = counts.lexed();
    let shifted = counts.shifted();
    let typed = counts.typed();
    let end = run::<A, S, K, C>(alloc, src, sink, counts);
    EditorReport {
        end,
        lexed: counts.lexed() - lexed,
        shifted: counts.shifted() - shifted,
        typed: counts.typed() - typed,
    }
}
