//! The bytes that have come and are no whole message yet, and the messages that end in them.
ghost use Rattle.std.specs.Prelude.{◌≡◌, ◌≢◌, ◌<◌, ◌≤◌, ◌+◌, ◌++◌, [], List, ℕ, drop, false, length, true, IfOk, Option, Some};
ghost use Rattle.syntax_tree.specs.Tallies.{Grows};
ghost use Rattle.session_loop.specs.Causes.{Rose};
ghost use Rattle.lsp_loop.specs.Outcomes.{AllTaken, TakenBy};
ghost use Rattle.lsp_loop.specs.Progress.{SoFar};
ghost use Rattle.lsp_loop.specs.Waiting.{IsUnfinished, Keeps, Waits};

use crate::ends::End;
use crate::messages::{pass_over, take_body};
use analysis_api::Analyser;
use lsp_documents::Documents;
use lsp_front::{BODY_LIMIT, Framed, HEAD_LIMIT, frame_of};
use session_loop::Sink;
use std::alloc::Global;
use syntax_tree::{Counts, NoMemory};

/// How many bytes a chunk of the input may have.
pub const CHUNK_LIMIT: usize = 65_536;

/// How many bytes may wait at once.
const ROOM: usize = HEAD_LIMIT + BODY_LIMIT as usize + CHUNK_LIMIT;

/// What has come of some bytes.
#[derive(Clone, Copy, Debug, PartialEq, Eq)]
enum Taken {
    /// So many of them are done with.
    Bytes(usize),
    /// More are wanted.
    Wants,
    Stops(End),
}

/// The bytes that have come and aren't done with.
#[derive(Drop)]
pub struct Incoming {
    bytes: Vec<u8>,
    // how many bytes are left of a body that is passed over
    skipped: u64,
}

impl Incoming {
    /// No bytes, with room for all that may wait: the front of a message, and a chunk of the input.
    pub fn new(alloc: Global) -> Result<Incoming, NoMemory>
        ensures { IfOk result (λ i. Keeps i []) }
    {
        let bytes = Vec::with_capacity(alloc, ROOM)?;
        Ok(Incoming { bytes, skipped: 0 })
    }

    /// Whether the bytes end between two messages.
    #[tactic(auto, using(crate::proofs::Taking::nothing_kept, crate::proofs::Taking::something_kept))]
    pub fn is_between(&self) -> bool
        ensures between { (rest : List ℕ) → Keeps self.now rest → result ≡ true → rest ≡ [] }
        ensures inside { (rest : List ℕ) → Keeps self.now rest → result ≡ false → IsUnfinished rest }
    {
        self.bytes.is_empty() && self.skipped == 0
    }

    /// Passes over the first of these bytes, which belong to a body that is too long. At its end its error is put.
    fn skip<A: Analyser, K: Sink, C: Counts>(
        &mut self,
        documents: &mut Documents<A>,
        at: usize,
        sink: &mut K,
        counts: &mut C,
    ) -> Taken
        requires within { at < length self.old.bytes.items }
        requires some { 0 < self.old.skipped }
        ensures taken { (before : Option (List ℕ)) (taken rest : List ℕ)
            → SoFar before (K.held sink.old) taken documents.old rest → Waits self.old.skipped (drop at self.old.bytes.items) rest
            → TakenBy result before (K.held sink.new) taken documents.new self.new.skipped (drop at self.old.bytes.items) }
        ensures later { K.faults sink.old ≤ K.faults sink.new }
        ensures write { result ≡ Taken.Stops End.WriteFault → Rose (K.faults sink.old) (K.faults sink.new) }
        ensures read { result ≢ Taken.Stops End.ReadFault }
        ensures within { (n : ℕ) → result ≡ Taken.Bytes n → at + n ≤ length self.old.bytes.items }
        ensures some { (n : ℕ) → result ≡ Taken.Bytes n → 0 < n }
        ensures same { self.new.bytes ≡ self.old.bytes }
        ensures counted { Grows (C.tallies counts.old) (C.tallies counts.new) }
    {
        let count = self.bytes.len() - at;
        if self.skipped > count as u64 {
            self.skipped -= count as u64;
            return Taken::Bytes(count);
        }
        let rest = self.skipped as usize;
        self.skipped = 0;
        match pass_over(documents, sink, counts) {
            Ok(()) => Taken::Bytes(rest),
            Err(end) => Taken::Stops(end),
        }
    }

    /// Takes the message that the bytes from a place on begin with.
    fn take_one<A: Analyser, K: Sink, C: Counts>(
        &mut self,
        documents: &mut Documents<A>,
        at: usize,
        sink: &mut K,
        counts: &mut C,
    ) -> Taken
        requires within { at < length self.old.bytes.items }
        requires none { self.old.skipped ≡ 0 }
        ensures taken { (before : Option (List ℕ)) (taken rest : List ℕ)
            → SoFar before (K.held sink.old) taken documents.old rest → Waits self.old.skipped (drop at self.old.bytes.items) rest
            → TakenBy result before (K.held sink.new) taken documents.new self.new.skipped (drop at self.old.bytes.items) }
        ensures later { K.faults sink.old ≤ K.faults sink.new }
        ensures write { result ≡ Taken.Stops End.WriteFault → Rose (K.faults sink.old) (K.faults sink.new) }
        ensures read { result ≢ Taken.Stops End.ReadFault }
        ensures within { (n : ℕ) → result ≡ Taken.Bytes n → at + n ≤ length self.old.bytes.items }
        ensures some { (n : ℕ) → result ≡ Taken.Bytes n → 0 < n }
        ensures same { self.new.bytes ≡ self.old.bytes }
        ensures counted { Grows (C.tallies counts.old) (C.tallies counts.new) }
    {
        let bytes = &self.bytes[at..];
        match frame_of(bytes) {
            Framed::Whole { head, body } => {
                let tail = &bytes[head as usize..];
                match take_body(documents, &tail[..body as usize], sink, counts) {
                    Ok(()) => Taken::Bytes(head as usize + body as usize),
                    Err(end) => Taken::Stops(end),
                }
            }
            Framed::Over { head, body } => {
                self.skipped = body;
                Taken::Bytes(head as usize)
            }
            Framed::More => Taken::Wants,
            Framed::Bad => Taken::Stops(End::BadFrame),
        }
    }

    /// Takes the bytes from a place on as far as the message there goes.
    fn take_next<A: Analyser, K: Sink, C: Counts>(
        &mut self,
        documents: &mut Documents<A>,
        at: usize,
        sink: &mut K,
        counts: &mut C,
    ) -> Taken
        requires { at < length self.old.bytes.items }
        ensures taken { (before : Option (List ℕ)) (taken rest : List ℕ)
            → SoFar before (K.held sink.old) taken documents.old rest → Waits self.old.skipped (drop at self.old.bytes.items) rest
            → TakenBy result before (K.held sink.new) taken documents.new self.new.skipped (drop at self.old.bytes.items) }
        ensures later { K.faults sink.old ≤ K.faults sink.new }
        ensures write { result ≡ Taken.Stops End.WriteFault → Rose (K.faults sink.old) (K.faults sink.new) }
        ensures read { result ≢ Taken.Stops End.ReadFault }
        ensures within { (n : ℕ) → result ≡ Taken.Bytes n → at + n ≤ length self.old.bytes.items }
        ensures some { (n : ℕ) → result ≡ Taken.Bytes n → 0 < n }
        ensures same { self.new.bytes ≡ self.old.bytes }
        ensures counted { Grows (C.tallies counts.old) (C.tallies counts.new) }
    {
        if self.skipped > 0 {
            self.skip(documents, at, sink, counts)
        } else {
            self.take_one(documents, at, sink, counts)
        }
    }

    /// Takes each message that ends in the bytes. Some says how the run ends.
    fn take_messages<A: Analyser, K: Sink, C: Counts>(
        &mut self,
        documents: &mut Documents<A>,
        sink: &mut K,
        counts: &mut C,
    ) -> Option<End>
        ensures taken { (before : Option (List ℕ)) (taken rest : List ℕ)
            → SoFar before (K.held sink.old) taken documents.old rest → Waits self.old.skipped self.old.bytes.items rest
            → AllTaken result before (K.held sink.new) taken documents.new self.new }
        ensures later { K.faults sink.old ≤ K.faults sink.new }
        ensures write { result ≡ Some End.WriteFault → Rose (K.faults sink.old) (K.faults sink.new) }
        ensures read { result ≢ Some End.ReadFault }
        ensures counted { Grows (C.tallies counts.old) (C.tallies counts.new) }
    {
        let mut at = 0;
        while at < self.bytes.len() {
            match self.take_next(documents, at, sink, counts) {
                Taken::Bytes(count) => at += count,
                Taken::Wants => {
                    self.let_go(at);
                    return None;
                }
                Taken::Stops(end) => return Some(end),
            }
        }
        self.bytes.clear();
        None
    }

    /// Lets the first bytes go.
    fn let_go(&mut self, count: usize)
        requires { count ≤ length self.old.bytes.items }
        ensures bytes { self.new.bytes.items ≡ drop count self.old.bytes.items }
        ensures same { self.new.skipped ≡ self.old.skipped }
    {
        let left = self.bytes.len() - count;
        self.bytes.rotate_left(count);
        self.bytes.truncate(left);
    }

    /// Takes a chunk of the input. Some says how the run ends.
    pub fn take_chunk<A: Analyser, K: Sink, C: Counts>(
        &mut self,
        documents: &mut Documents<A>,
        chunk: &[u8],
        sink: &mut K,
        counts: &mut C,
    ) -> Option<End>
        ensures taken { (before : Option (List ℕ)) (taken rest : List ℕ)
            → SoFar before (K.held sink.old) taken documents.old rest → Keeps self.old rest
            → AllTaken result before (K.held sink.new) (taken ++ chunk.now) documents.new self.new }
        ensures later { K.faults sink.old ≤ K.faults sink.new }
        ensures write { result ≡ Some End.WriteFault → Rose (K.faults sink.old) (K.faults sink.new) }
        ensures read { result ≢ Some End.ReadFault }
        ensures counted { Grows (C.tallies counts.old) (C.tallies counts.new) }
    {
        if self.bytes.extend_from_slice(chunk).is_err() {
            return Some(End::NoMemory);
        }
        self.take_messages(documents, sink, counts)
    }
}
