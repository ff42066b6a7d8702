//! A source and a sink in memory, some of whose calls fail. Calls are numbered from 1.
ghost use Rattle.std.specs.Prelude.{◌≡◌, ◌≤◌, ◌<◌, ◌+◌, ℕ, [], drop, length, slice_index, Some};

use crate::{Failed, Sink, Source};
use std::alloc::Global;

/// Bytes to be taken.
#[derive(Drop)]
pub struct ListSource {
    bytes: Vec<u8>,
    at: usize,
    calls: u64,
    fails: Vec<u64>,
    most: Vec<usize>,
    faults: u64,
    ghost within: { at ≤ length bytes.items },
    ghost some: { (i : ℕ) → i < length most.items → 0 < slice_index most.items i },
}

impl ListSource {
    ghost use Rattle.session_loop.specs.ListEnds.{bytes_left};

    /// A source of these bytes. The calls whose numbers stand in `fails` fail, and the first calls give at most as many
    /// bytes as `most` says, each in turn.
    pub fn new(bytes: Vec<u8>, fails: Vec<u64>, most: Vec<usize>) -> ListSource
        requires { (i : ℕ) → i < length most.items → 0 < slice_index most.items i }
        ensures { bytes_left result ≡ bytes.items }
    {
        ListSource {
            bytes,
            at: 0,
            calls: 0,
            fails,
            most,
            faults: 0,
        }
    }
}

impl Source for ListSource {
    ghost use Rattle.session_loop.specs.ListEnds.{bytes_left};

    ghost left = { λ s. Some (bytes_left s) };

    ghost faults = { λ s. s.faults };

    fn take(&mut self, buf: &mut [u8]) -> Result<usize, Failed> {
        let call = self.calls;
        self.calls = call.saturating_add(1);
        if self.fails.contains(&self.calls) {
            self.faults = self.faults.saturating_add(1);
            return Err(Failed);
        }
        let bound = most_of(&self.most, call);
        let count = buf.len().min(self.bytes.len() - self.at).min(bound);
        buf[..count].copy_from_slice(&self.bytes[self.at..self.at + count]);
        self.at += count;
        Ok(count)
    }
}

/// How many bytes the call behind this many others gives at most.
fn most_of(most: &[usize], calls: u64) -> usize
    requires { (i : ℕ) → i < length most.now → 0 < slice_index most.now i }
    ensures { 0 < result }
{
    if calls < most.len() as u64 {
        most[calls as usize]
    } else {
        usize::MAX
    }
}

/// Bytes that were put.
#[derive(Drop)]
pub struct ListSink {
    bytes: Vec<u8>,
    calls: u64,
    fails: Vec<(u64, u32)>,
    faults: u64,
}

impl ListSink {
    ghost use Rattle.session_loop.specs.ListEnds.{bytes_put};

    /// An empty sink. The calls whose numbers stand in `fails` fail, and leave a front of that length.
    pub fn new(alloc: Global, fails: Vec<(u64, u32)>) -> ListSink
        ensures { bytes_put result ≡ [] }
    {
        ListSink {
            bytes: Vec::new(alloc),
            calls: 0,
            fails,
            faults: 0,
        }
    }

    /// All bytes that were put.
    pub fn bytes(&self) -> &[u8]
        ensures { result.now ≡ bytes_put self.now }
    {
        &self.bytes
    }
}

/// The length of the front that a call is to leave, where it is to fail.
fn front_left(fails: &[(u64, u32)], call: u64) -> Option<u32> {
    for (number, front) in fails {
        if *number == call {
            return Some(*front);
        }
    }
    None
}

impl Sink for ListSink {
    ghost use Rattle.session_loop.specs.ListEnds.{bytes_put};

    ghost held = { λ s. Some (bytes_put s) };

    ghost faults = { λ s. s.faults };

    fn put(&mut self, piece: &[u8]) -> Result<(), Failed> {
        self.calls = self.calls.saturating_add(1);
        let fails = front_left(&self.fails, self.calls);
        let front = match fails {
            Some(front) => piece.len().min(front as usize),
            None => piece.len(),
        };
        let whole = self.bytes.extend_from_slice(&piece[..front]).is_ok();
        if whole && fails.is_none() {
            return Ok(());
        }
        self.faults = self.faults.saturating_add(1);
        Err(Failed)
    }
}
