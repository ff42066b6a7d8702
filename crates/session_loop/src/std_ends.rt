//! The ends over std's reader and writer. They tell what std tells, which is nothing of the real streams.
ghost use Rattle.std.specs.Prelude.{ℕ, ◌≤◌, length, take, OnOk, OnErr};
ghost use Rattle.std.specs.Io.KnownBytes.{Appends};

use crate::{Failed, Sink, Source};
use std::io::{Read, Write};

/// A source over a reader. Its count of faults is the number of errors that the reader told; at 2^64 - 1 it stays.
#[derive(Drop)]
pub struct ReadEnd<R: Read + Drop> {
    inner: R,
    faults: u64,
}

impl<R: Read + Drop> ReadEnd<R> {
    pub fn new(inner: R) -> ReadEnd<R> {
        ReadEnd { inner, faults: 0 }
    }
}

impl<R: Read + Drop> Source for ReadEnd<R> {
    ghost left = { λ s. R.remaining s.inner };

    ghost faults = { λ s. s.faults };

    fn take(&mut self, buf: &mut [u8]) -> Result<usize, Failed> {
        match self.inner.read(buf) {
            Ok(count) => Ok(count),
            Err(_) => {
                self.faults = self.faults.saturating_add(1);
                Err(Failed)
            }
        }
    }
}

/// A sink over a writer. Its count of faults is the number of puts that failed; at 2^64 - 1 it stays.
#[derive(Drop)]
pub struct WriteEnd<W: Write + Drop> {
    inner: W,
    faults: u64,
}

impl<W: Write + Drop> WriteEnd<W> {
    pub fn new(inner: W) -> WriteEnd<W> {
        WriteEnd { inner, faults: 0 }
    }
}

/// Writes the whole piece and flushes. A write that takes nothing is a fault.
fn write_whole<W: Write>(inner: &mut W, piece: &[u8]) -> Result<(), Failed>
    ensures ok { OnOk result (Appends (W.contents inner.old) (W.contents inner.new) piece.now) }
    ensures err { OnErr result ((n : ℕ) × (n ≤ length piece.now) × Appends (W.contents inner.old) (W.contents inner.new) (take n piece.now)) }
{
    let mut at = 0;
    while at < piece.len() {
        match inner.write(&piece[at..]) {
            Ok(0) | Err(_) => return Err(Failed),
            Ok(count) => at += count,
        }
    }
    inner.flush().map_err(|_| Failed)
}

impl<W: Write + Drop> Sink for WriteEnd<W> {
    ghost held = { λ s. W.contents s.inner };

    ghost faults = { λ s. s.faults };

    fn put(&mut self, piece: &[u8]) -> Result<(), Failed> {
        match write_whole(&mut self.inner, piece) {
            Ok(()) => Ok(()),
            Err(failed) => {
                self.faults = self.faults.saturating_add(1);
                Err(failed)
            }
        }
    }
}
