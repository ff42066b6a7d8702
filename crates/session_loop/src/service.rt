//! The top call: lines in, reply lines out.
ghost use Rattle.std.specs.Prelude.{◌≡◌, ◌≢◌, ◌⊎◌, ◌≤◌, ◌+◌, ◌^◌, [], ℕ, None, true, is_some, length, IfSome};
ghost use Rattle.service_model.specs.Runs.{request_lines};
ghost use Rattle.syntax_tree.specs.Tallies.{Grows};
ghost use Rattle.session_loop.specs.Causes.{Rose};
ghost use Rattle.session_loop.specs.Outcomes.{Outcome, RunOutcome};
ghost use Rattle.session_loop.specs.Progress.{SoFar};
ghost use Rattle.session_loop.specs.Spending.{SpentOver};
ghost use Rattle.session_loop.specs.Words.{are_refused, items_asked, texts, AlwaysAccepted};

use crate::begun::Begun;
use crate::made::run_made;
use crate::turns::{Turn, finish, take_turn};
use crate::words::{Task, WordsFault, read_words};
use crate::{Sink, Source};
use analysis_api::Analyser;
use session::Session;
use std::alloc::Global;
use syntax_tree::Counts;

/// How a run ended.
#[derive(Clone, Copy, Debug, PartialEq, Eq)]
pub enum Status {
    /// The input was read to its end, and every line answered; or the line of a made run was put.
    Done,
    /// The words were refused; nothing was read or put.
    BadWords,
    /// A read failed.
    ReadFault,
    /// A write failed.
    WriteFault,
    /// 2^40 bytes were taken.
    InputTooLong,
    /// Memory was short before the first line was read, or in a made run; nothing was read or put.
    NoMemory,
}

/// How a run ended, and by how much it made the counter that it was lent grow.
#[derive(Clone, Copy, Debug, PartialEq, Eq)]
pub struct Report {
    pub status: Status,
    pub lexed: u64,
    pub shifted: u64,
    pub typed: u64,
}

/// How many bytes a run may take: fewer than this.
const INPUT_LIMIT: u64 = 1 << 40;

const BUFFER_LEN: usize = 65_536;

/// Reads lines and answers them until the input ends.
fn read_lines<A: Analyser, S: Source, K: Sink, C: Counts>(
    session: &mut Session<A>,
    begun: &mut Begun,
    buf: &mut [u8],
    src: &mut S,
    sink: &mut K,
    counts: &mut C,
) -> Status
    requires room { length buf.old ≡ 65536 }
    requires starts { SoFar A.opens (C.tallies counts.old) (C.tallies counts.old) (K.held sink.old) (K.held sink.old) [] session.old begun.old }
    ensures outcome { Outcome result (S.left src.old) (S.left src.new) (K.held sink.old) (K.held sink.new) }
    ensures spent { IfSome (S.left src.old) (λ input. SpentOver A.opens (C.tallies counts.old) (C.tallies counts.new) (K.held sink.old) (K.held sink.new) (request_lines input)) }
    ensures read { result ≡ Status.ReadFault → Rose (S.faults src.old) (S.faults src.new) }
    ensures write { result ≡ Status.WriteFault → Rose (K.faults sink.old) (K.faults sink.new) }
    ensures no_words { result ≢ Status.BadWords }
    ensures memory { result ≢ Status.NoMemory }
    ensures counted { Grows (C.tallies counts.old) (C.tallies counts.new) }
{
    let mut total: u64 = 0;
    while total < INPUT_LIMIT {
        let most = (INPUT_LIMIT - total).min(BUFFER_LEN as u64) as usize;
        match take_turn(session, begun, buf, most, src, sink, counts) {
            Turn::Took(count) => total += count,
            Turn::End => {
                return match finish(session, begun, sink, counts) {
                    Ok(()) => Status::Done,
                    Err(_) => Status::WriteFault,
                };
            }
            Turn::ReadFault => return Status::ReadFault,
            Turn::WriteFault => return Status::WriteFault,
        }
    }
    Status::InputTooLong
}

/// Runs a session in the room that it is given.
fn run<A: Analyser, S: Source, K: Sink, C: Counts>(
    alloc: Global,
    src: &mut S,
    sink: &mut K,
    counts: &mut C,
) -> Status
    ensures outcome { Outcome result (S.left src.old) (S.left src.new) (K.held sink.old) (K.held sink.new) }
    ensures spent { IfSome (S.left src.old) (λ input. SpentOver A.opens (C.tallies counts.old) (C.tallies counts.new) (K.held sink.old) (K.held sink.new) (request_lines input)) }
    ensures read { result ≡ Status.ReadFault → Rose (S.faults src.old) (S.faults src.new) }
    ensures write { result ≡ Status.WriteFault → Rose (K.faults sink.old) (K.faults sink.new) }
    ensures no_words { result ≢ Status.BadWords }
    ensures memory { result ≡ Status.NoMemory → (src.new ≡ src.old) × (sink.new ≡ sink.old) }
    ensures counted { Grows (C.tallies counts.old) (C.tallies counts.new) }
{
    let Ok(mut begun) = Begun::new(alloc) else {
        return Status::NoMemory;
    };
    let Ok(mut buf) = vec![in alloc; 0u8; BUFFER_LEN] else {
        return Status::NoMemory;
    };
    let mut session = Session::<A>::new(alloc);
    read_lines(&mut session, &mut begun, &mut buf, src, sink, counts)
}

/// Runs what the words ask for.
#[tactic(auto, using(crate::proofs::Tasks::session_outcome, crate::proofs::Tasks::made_outcome, crate::proofs::Tasks::refused_outcome, crate::proofs::Tasks::no_memory_outcome, crate::proofs::Tasks::no_items))]
fn run_by<A: Analyser, S: Source, K: Sink, C: Counts>(
    alloc: Global,
    words: &[String],
    src: &mut S,
    sink: &mut K,
    counts: &mut C,
) -> Status
    ensures outcome { RunOutcome (items_asked (texts words.now)) result (S.left src.old) (S.left src.new) (K.held sink.old) (K.held sink.new) (C.tallies counts.old) (C.tallies counts.new) }
    ensures spent { items_asked (texts words.now) ≡ None → IfSome (S.left src.old) (λ input. SpentOver A.opens (C.tallies counts.old) (C.tallies counts.new) (K.held sink.old) (K.held sink.new) (request_lines input)) }
    ensures made { is_some (items_asked (texts words.now)) ≡ true → src.new ≡ src.old }
    ensures bad_words { result ≡ Status.BadWords → are_refused (texts words.now) ≡ true }
    ensures refused { are_refused (texts words.now) ≡ true → (result ≡ Status.BadWords) ⊎ (result ≡ Status.NoMemory) }
    ensures read { result ≡ Status.ReadFault → Rose (S.faults src.old) (S.faults src.new) }
    ensures write { result ≡ Status.WriteFault → Rose (K.faults sink.old) (K.faults sink.new) }
    ensures memory { result ≡ Status.NoMemory → (src.new ≡ src.old) × (sink.new ≡ sink.old) }
    ensures counted { Grows (C.tallies counts.old) (C.tallies counts.new) }
{
    match read_words(alloc, words) {
        Ok(Task::Session) => run::<A, S, K, C>(alloc, src, sink, counts),
        Ok(Task::Made(items)) => run_made::<A, K, C>(alloc, items, sink, counts),
        Err(WordsFault::Refused) => Status::BadWords,
        Err(WordsFault::NoMemory) => Status::NoMemory,
    }
}

/// Without words, reads request lines from the source until it ends, and puts a reply line for each into the sink, by one
/// `put` each. Each line has a reply that the present text allows, or the line that stands for want of memory. Of a line that is
/// no request, a `tell`, an `outline`, a position that doesn't exist, and the types of a plain text, the text allows one reply
/// alone. With `--make n` it reads nothing, and puts one line on a text that it makes of n items. Other words are refused. Types
/// and names are found by an `A`.
pub fn serve<A: Analyser, S: Source, K: Sink, C: Counts>(
    alloc: Global,
    words: &[String],
    src: &mut S,
    sink: &mut K,
    counts: &mut C,
) -> Report
    // What was taken and put, by the status.
    ensures outcome { RunOutcome (items_asked (texts words.now)) result.status (S.left src.old) (S.left src.new) (K.held sink.old) (K.held sink.new) (C.tallies counts.old) (C.tallies counts.new) }
    ensures made { is_some (items_asked (texts words.now)) ≡ true → src.new ≡ src.old }
    // Each status has its cause. Words are bad exactly where clap refuses them, unless memory is short.
    ensures bad_words { result.status ≡ Status.BadWords → are_refused (texts words.now) ≡ true }
    ensures refused { are_refused (texts words.now) ≡ true → (result.status ≡ Status.BadWords) ⊎ (result.status ≡ Status.NoMemory) }
    ensures accepted { AlwaysAccepted (texts words.now) → result.status ≢ Status.BadWords }
    ensures read { result.status ≡ Status.ReadFault → Rose (S.faults src.old) (S.faults src.new) }
    ensures write { result.status ≡ Status.WriteFault → Rose (K.faults sink.old) (K.faults sink.new) }
    ensures memory { result.status ≡ Status.NoMemory → (src.new ≡ src.old) × (sink.new ≡ sink.old) }
    // The report is the growth of the counter.
    ensures lexed { (C.tallies counts.new).lexed ≡ (C.tallies counts.old).lexed + result.lexed }
    ensures shifted { (C.tallies counts.new).shifted ≡ (C.tallies counts.old).shifted + result.shifted }
    ensures typed { (C.tallies counts.new).typed ≡ (C.tallies counts.old).typed + result.typed }
    // In a session no more tokens are lexed and taken by the parser than the lines may read that were answered, and those of the
    // prelude, and no more items typed than these lines may type.
    ensures work { items_asked (texts words.now) ≡ None → IfSome (S.left src.old) (λ input. SpentOver A.opens (C.tallies counts.old) (C.tallies counts.new) (K.held sink.old) (K.held sink.new) (request_lines input)) }
{
    let lexed = counts.lexed();
    let shifted = counts.shifted();
    let typed = counts.typed();
    let status = run_by::<A, S, K, C>(alloc, words, src, sink, counts);
    Report {
        status,
        lexed: counts.lexed() - lexed,
        shifted: counts.shifted() - shifted,
        typed: counts.typed() - typed,
    }
}
