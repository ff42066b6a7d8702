// The list of bytes.
ghost use Rattle.std.specs.Prelude.{◌≡◌, ◌+◌, ◌-◌, ◌^◌, ◌<◌, ◌≤◌, [], ◌++◌, length, take, drop, IfOk, IfErr, IsOk};
ghost use Rattle.gap_bytes.specs.Gapped.{gapped};

use crate::room::Room;
use std::alloc::{AllocError, Global};
use std::marker::Model;
use std::mem;

/// Want of memory: the library's own error of an allocation.
pub type NoMemory = AllocError;

/// A list of bytes with a gap.
pub struct GapBytes {
    alloc: Global,
    // None: no memory was taken yet
    room: Option<Room>,
}

impl Model for GapBytes {
    ghost use Rattle.gap_bytes.specs.Gapped.{Gapped};
    ghost use Rattle.gap_bytes.specs.Rooms.{gapped_in, IsKept};

    ghost Value = { Gapped };

    ghost view = { λ g. gapped_in g.room };

    ghost invariant = { λ g. IsKept g.room };
}

impl Drop for GapBytes {
    fn drop(self) {
        let GapBytes { alloc: _, room } = self;
        if let Some(room) = room {
            room.give();
        }
    }
}

impl GapBytes {
    /// No bytes. It takes no memory yet.
    pub fn new(alloc: Global) -> GapBytes
        ensures { result ≡ gapped [] 0 }
    {
        GapBytes { alloc, room: None }
    }

    /// How many bytes there are.
    pub fn len(&self) -> u32
        ensures { result ≡ length self.now.items }
    {
        let (before, after) = self.slices();
        (before.len() + after.len()) as u32
    }

    /// The bytes before the gap and those after it.
    pub fn slices(&self) -> (&[u8], &[u8])
        ensures bytes { result.0.now ++ result.1.now ≡ self.now.items }
        ensures short { length self.now.items < 2 ^ 32 }
    {
        match &self.room {
            None => (&[], &[]),
            Some(room) => (room.before(), room.after()),
        }
    }

    // How many bytes the gap has room for.
    fn spare(&self) -> usize
        ensures { result ≡ self.now.spare }
    {
        match &self.room {
            None => 0,
            Some(room) => room.spare(),
        }
    }

    /// Makes room for `more` bytes. After `NoMemory` everything is as it was.
    pub fn reserve(&mut self, more: u32) -> Result<(), NoMemory>
        ensures done { IfOk result (λ _. (self.new.items ≡ self.old.items) × (more ≤ self.new.spare)) }
        ensures failed { IfErr result (λ _. self.new ≡ self.old) }
    {
        let more = more as usize;
        if more <= self.spare() {
            return Ok(());
        }
        // Half as much again as there is, so that bytes put in one by one are seldom moved to a new block.
        let gap = more + self.len() as usize / 2;
        let (before, after) = self.slices();
        let room = Room::filled(self.alloc, before, gap, after)?;
        if let Some(old) = mem::replace(&mut self.room, Some(room)) {
            old.give();
        }
        Ok(())
    }

    /// Puts a piece in place of the `cut` bytes from `at` on. It takes memory only where the piece is longer than
    /// these bytes and the spare room together. After `NoMemory` everything is as it was.
    pub fn replace(&mut self, at: u32, cut: u32, piece: &[u8]) -> Result<(), NoMemory>
        requires within { at + cut ≤ length self.old.items }
        requires fits { length self.old.items - cut + length piece.now < 2 ^ 32 }
        ensures done { IfOk result (λ _. self.new.items ≡ take at self.old.items ++ piece.now ++ drop (at + cut) self.old.items) }
        ensures spare { length piece.now ≤ cut + self.old.spare → IsOk result × (self.new.spare + length piece.now ≡ self.old.spare + cut) }
        ensures failed { IfErr result (λ _. self.new ≡ self.old) }
    {
        if cut as usize + self.spare() < piece.len() {
            self.reserve(piece.len() as u32)?;
        }
        if let Some(room) = &mut self.room {
            room.splice(at as usize, cut as usize, piece);
        }
        Ok(())
    }
}
