//! A run's output, compared with the replies of a session.
ghost use Rattle.std.specs.Prelude.{◌≡◌, ◌++◌, [], false, true, List, ℕ, IfOk, MatchOption};
ghost use Rattle.service_model.specs.Runs.{Run, Step, request_lines, is_blank_byte as is_blank, is_blank_line};
ghost use Rattle.syntax_tree.specs.Tallies.{Grows};
ghost use Rattle.run_check.specs.Settled.{Goes, SettledRun};

use analysis_api::Analyser;
use json_lines::memory_line;
use session::Session;
use std::alloc::{AllocError, Global};
use syntax_tree::{Counts, NoMemory};

fn is_blank_byte(byte: u8) -> bool
    ensures { result ≡ is_blank byte }
{
    byte == b' ' || byte == b'\t' || byte == b'\r'
}

fn is_blank_line(line: &[u8]) -> bool
    ensures { result ≡ is_blank_line line.now }
{
    line.iter().all(|byte| is_blank_byte(*byte))
}

/// What is left of an output behind the reply to a line; none, where it doesn't begin with one. The line for want of memory is a reply
/// to every line, and leaves the session as it is.
fn behind_reply<'a, A: Analyser, C: Counts>(
    session: &mut Session<A>,
    line: &[u8],
    left: &'a [u8],
    counts: &mut C,
) -> Result<Option<&'a [u8]>, NoMemory>
    ensures sound { IfOk result (λ found. MatchOption found (Unit {0}) (λ rest. (piece : List ℕ) × Step session.old.text line.now piece session.new.text × (left.now ≡ piece ++ rest.now))) }
    ensures complete { IfOk result (λ found. (mid rest : List ℕ) → Goes session.old.text line.now left.now mid rest
        → MatchOption found ⊥ (λ behind. (mid ≡ session.new.text) × (rest ≡ behind.now))) }
    ensures counted { Grows (C.tallies counts.old) (C.tallies counts.new) }
{
    if is_blank_line(line) {
        return Ok(Some(left));
    }
    if let Some(rest) = left.strip_prefix(memory_line()) {
        return Ok(Some(rest));
    }
    let reply = session.answer(line, counts);
    if reply.bytes() == memory_line() {
        return Err(AllocError);
    }
    Ok(left.strip_prefix(reply.bytes()))
}

/// Whether an output is a run's over the lines of an input, by a session of its own.
///
/// `true` says that it is: each line has a reply that the text allows, or the line for want of memory. `false` says that it isn't, where
/// the text allows one reply alone to each of the lines, as to a `tell`, an `outline`, a line that is no request and a position
/// that doesn't exist. Where it allows several, as types that aren't those of a plain text, the output is compared with the reply
/// that this session finds, so `false` then says no more than that they differ. The error is want of memory here, and says nothing of
/// the output.
pub fn check_run<A: Analyser, C: Counts>(
    alloc: Global,
    input: &[u8],
    output: &[u8],
    counts: &mut C,
) -> Result<bool, NoMemory>
    ensures is_run { IfOk result (λ is. is ≡ true → Run (request_lines input.now) output.now) }
    ensures is_none { IfOk result (λ is. is ≡ false → SettledRun [] (request_lines input.now) output.now → ⊥) }
    ensures counted { Grows (C.tallies counts.old) (C.tallies counts.new) }
{
    let mut session = Session::<A>::new(alloc);
    let mut left = output;
    let mut start = 0;
    for at in 0..input.len() {
        if input[at] == b'\n' {
            match behind_reply(&mut session, &input[start..at], left, counts)? {
                Some(rest) => left = rest,
                None => return Ok(false),
            }
            start = at + 1;
        }
    }
    match behind_reply(&mut session, &input[start..], left, counts)? {
        Some(rest) => Ok(rest.is_empty()),
        None => Ok(false),
    }
}
