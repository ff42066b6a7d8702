//! Which of the two loops runs, by the words of the command line, and the exit status of its end.
//! It keeps nothing, and knows nothing of how types are found, nor of what bytes are taken from and put into.
//! It is built on `session_loop` and `lsp_loop`.
//! The layer above may use `served`, whose contract says what was taken and put for each exit status.
#![tactic(auto)]

ghost use Rattle.std.specs.Prelude.{◌≡◌, ◌≢◌, ◌⊎◌, false, is_some, true, None, IfSome};
ghost use Rattle.service_model.specs.Runs.{request_lines};
ghost use Rattle.syntax_tree.specs.Tallies.{Grows};
ghost use Rattle.session_loop.specs.Causes.{Rose};
ghost use Rattle.session_loop.specs.Spending.{SpentOver};
ghost use Rattle.session_loop.specs.Words.{are_refused, items_asked, texts, AlwaysAccepted};
ghost use Rattle.lsp_loop.specs.Words.{asks_editor as asks_editor_spec};
ghost use Rattle.service_run.specs.Numbers.{number_of, number_of_end};
ghost use Rattle.service_run.specs.Served.{ServedBy};

use analysis_api::Analyser;
use lsp_loop::{End, asks_editor, serve_editor};
use session_loop::{Sink, Source, Status, serve};
use std::alloc::Global;
use syntax_tree::Counts;

/// The program's exit status for the way in which a run ended.
fn code_of(status: Status) -> u8
    ensures { result ≡ number_of status }
{
    match status {
        Status::Done => 0,
        Status::BadWords => 2,
        Status::ReadFault => 3,
        Status::WriteFault => 4,
        Status::InputTooLong => 5,
        Status::NoMemory => 6,
    }
}

/// The program's exit status for the way in which the run of an editor ended.
fn code_of_end(end: End) -> u8
    ensures { result ≡ number_of_end end }
{
    match end {
        End::Done => 0,
        End::NoShutdown => 1,
        End::ReadFault => 3,
        End::WriteFault => 4,
        End::InputTooLong => 5,
        End::NoMemory => 6,
        End::BadFrame => 7,
    }
}

/// Serves an editor where the words are `--lsp` alone, and otherwise does what `serve` reads in them. The result is the program's
/// exit status.
pub fn served<A: Analyser, S: Source, K: Sink, C: Counts>(
    alloc: Global,
    words: &[String],
    src: &mut S,
    sink: &mut K,
    counts: &mut C,
) -> u8
    // What was taken and put, by the words and the exit status.
    ensures outcome { ServedBy (asks_editor_spec (texts words.now)) (items_asked (texts words.now)) result (S.left src.old) (S.left src.new) (K.held sink.old) (K.held sink.new) (C.tallies counts.old) (C.tallies counts.new) }
    // Words are bad only where they ask for no editor and are refused. Where they are refused nothing else is done, unless memory is short.
    ensures no_editor { result ≡ 2 → asks_editor_spec (texts words.now) ≡ false }
    ensures bad_words { result ≡ 2 → are_refused (texts words.now) ≡ true }
    ensures refused { asks_editor_spec (texts words.now) ≡ false → are_refused (texts words.now) ≡ true → (result ≡ 2) ⊎ (result ≡ 6) }
    ensures accepted { AlwaysAccepted (texts words.now) → result ≢ 2 }
    // A made run takes nothing, and without memory for a session nothing is taken or put.
    ensures made { asks_editor_spec (texts words.now) ≡ false → is_some (items_asked (texts words.now)) ≡ true → src.new ≡ src.old }
    ensures memory { asks_editor_spec (texts words.now) ≡ false → result ≡ 6 → (src.new ≡ src.old) × (sink.new ≡ sink.old) }
    // A read or a write failed where the exit status says so.
    ensures read { result ≡ 3 → Rose (S.faults src.old) (S.faults src.new) }
    ensures write { result ≡ 4 → Rose (K.faults sink.old) (K.faults sink.new) }
    // A session lexes and parses no more tokens and types no more items than the lines may that were answered.
    ensures work { asks_editor_spec (texts words.now) ≡ false → items_asked (texts words.now) ≡ None → IfSome (S.left src.old) (λ input. SpentOver A.opens (C.tallies counts.old) (C.tallies counts.new) (K.held sink.old) (K.held sink.new) (request_lines input)) }
    // No number of the counter falls.
    ensures counted { Grows (C.tallies counts.old) (C.tallies counts.new) }
{
    if asks_editor(words) {
        let report = serve_editor::<A, S, K, C>(alloc, src, sink, counts);
        return code_of_end(report.end);
    }
    let report = serve::<A, S, K, C>(alloc, words, src, sink, counts);
    code_of(report.status)
}
