//! Where request bytes come from and where reply bytes go.
ghost use Rattle.std.specs.Prelude.{◌≡◌, ◌≤◌, List, ℕ, length, take, IfOk, OnOk, OnErr, Option};
ghost use Rattle.std.specs.Io.KnownBytes.{ReadConsumes, Appends};
ghost use Rattle.session_loop.specs.Causes.{HasCause};

/// A read or a write that did not succeed.
#[derive(Clone, Copy, Debug, PartialEq, Eq)]
pub struct Failed;

/// What request bytes are taken from.
pub trait Source {
    /// The bytes that are left, where it tells them.
    ghost left: { Self → Option (List ℕ) };

    /// How often it has failed. The count never falls.
    ghost faults: { Self → ℕ };

    /// Fills a front of the buffer with the next bytes and tells how many they are. 0 for a buffer that has room means
    /// the end. `Failed` only where the count of faults rose in this call; then no byte was taken.
    fn take(&mut self, buf: &mut [u8]) -> Result<usize, Failed>
        ensures bound { IfOk result (λ n. n ≤ length buf.new) }
        ensures bytes { ReadConsumes (left self.old) (left self.new) result buf.new }
        ensures cause { HasCause (faults self.old) (faults self.new) result };
}

/// What reply bytes are put into.
pub trait Sink {
    /// The bytes put, where it tells them.
    ghost held: { Self → Option (List ℕ) };

    /// How often it has failed. The count never falls.
    ghost faults: { Self → ℕ };

    /// Puts the whole piece. `Failed` only where the count of faults rose in this call; then a front of the piece was put.
    fn put(&mut self, piece: &[u8]) -> Result<(), Failed>
        ensures ok { OnOk result (Appends (held self.old) (held self.new) piece.now) }
        ensures err { OnErr result ((n : ℕ) × (n ≤ length piece.now) × Appends (held self.old) (held self.new) (take n piece.now)) }
        ensures cause { HasCause (faults self.old) (faults self.new) result };
}
