// A block with bytes on both sides of a gap, whose places hold nothing.
ghost use Rattle.std.specs.Prelude.{◌≡◌, ◌+◌, ◌-◌, ◌^◌, ◌<◌, ◌≤◌, ◌++◌, length, take, drop, IfOk};
ghost use Rattle.std.specs.Mem.Slots.{slots_items, slots_len, SamePlaces};
ghost use Rattle.gap_bytes.specs.Gapped.{outside};
ghost use Rattle.gap_bytes.specs.Rooms.{HasGap, IsRoom, room_bytes};

use crate::block::{Claim, Start, give_block, run_of, take_block};
use core::slots::Slots;
use std::alloc::{AllocError, Global};
use std_alloc::room::may_hold;

/// `front` bytes, then `gap` places that hold nothing, then the other bytes.
pub struct Room {
    alloc: Global,
    start: Start<u8>,
    row: Slots<u8>,
    claim: Claim<u8, Global>,
    front: usize,
    gap: usize,
}

// Moves the bytes from `to` up to `from` to the other side of the gap, which then starts at `to`.
fn slide_left(row: &mut Slots<u8>, from: usize, to: usize, gap: usize)
    requires gap { HasGap row.old from gap }
    requires order { to ≤ from }
    ensures gap { HasGap row.new to gap }
    ensures bytes { outside to gap (slots_items row.new) ≡ outside from gap (slots_items row.old) }
    ensures places { SamePlaces row.old row.new }
{
    row.move_within(to, to + gap, from - to);
}

// Moves as many bytes as there are from `from` up to `to` from after the gap to before it, which then starts at `to`.
fn slide_right(row: &mut Slots<u8>, from: usize, to: usize, gap: usize)
    requires gap { HasGap row.old from gap }
    requires order { (from ≤ to) × (to + gap ≤ slots_len row.old) }
    ensures gap { HasGap row.new to gap }
    ensures bytes { outside to gap (slots_items row.new) ≡ outside from gap (slots_items row.old) }
    ensures places { SamePlaces row.old row.new }
{
    row.move_within(from + gap, from, to - from);
}

fn slide(row: &mut Slots<u8>, from: usize, to: usize, gap: usize)
    requires gap { HasGap row.old from gap }
    requires within { to + gap ≤ slots_len row.old }
    ensures gap { HasGap row.new to gap }
    ensures bytes { outside to gap (slots_items row.new) ≡ outside from gap (slots_items row.old) }
    ensures places { SamePlaces row.old row.new }
{
    if to < from {
        slide_left(row, from, to, gap);
    } else {
        slide_right(row, from, to, gap);
    }
}

impl Room {
    /// A room with the bytes of two slices and a gap between them.
    pub fn filled(
        alloc: Global,
        before: &[u8],
        gap: usize,
        after: &[u8],
    ) -> Result<Room, AllocError>
        requires { length before.now + gap + length after.now < 2 ^ 34 }
        ensures { IfOk result (λ r. IsRoom r × (room_bytes r ≡ before.now ++ after.now) × (r.gap ≡ gap)) }
    {
        let front = before.len();
        let places = front + gap + after.len();
        if !may_hold::<u8>(places) {
            return Err(AllocError);
        }
        let (start, mut row, claim) = take_block(&alloc, places, &0)?;
        row.copy_in(0, before);
        row.copy_in(front + gap, after);
        Ok(Room {
            alloc,
            start,
            row,
            claim,
            front,
            gap,
        })
    }

    /// Gives the block back to its allocator.
    pub fn give(self)
        requires { IsRoom self }
    {
        let Room {
            alloc,
            start: _,
            row,
            claim,
            front: _,
            gap: _,
        } = self;
        give_block(&alloc, row, claim);
    }

    /// The bytes before the gap.
    pub fn before(&self) -> &[u8]
        requires { IsRoom self.now }
        ensures { result.now ≡ take self.now.front (slots_items self.now.row) }
    {
        if self.front == 0 {
            return &[];
        }
        run_of(&self.row, self.start, 0, self.front)
    }

    /// The bytes after the gap.
    pub fn after(&self) -> &[u8]
        requires { IsRoom self.now }
        ensures { result.now ≡ drop (self.now.front + self.now.gap) (slots_items self.now.row) }
    {
        let from = self.front + self.gap;
        if from == self.row.len() {
            return &[];
        }
        run_of(&self.row, self.start, from, self.row.len() - from)
    }

    /// How many bytes the gap has room for.
    pub fn spare(&self) -> usize
        ensures { result ≡ self.now.gap }
    {
        self.gap
    }

    /// Puts a piece in place of the `cut` bytes from `at` on.
    pub fn splice(&mut self, at: usize, cut: usize, piece: &[u8])
        requires room { IsRoom self.old }
        requires within { at + cut ≤ length (room_bytes self.old) }
        requires fits { length piece.now ≤ cut + self.old.gap }
        ensures room { IsRoom self.new }
        ensures bytes { room_bytes self.new ≡ take at (room_bytes self.old) ++ piece.now ++ drop (at + cut) (room_bytes self.old) }
        ensures gap { self.new.gap + length piece.now ≡ self.old.gap + cut }
    {
        slide(&mut self.row, self.front, at, self.gap);
        self.row.copy_in(at, piece);
        self.front = at + piece.len();
        self.gap = self.gap + cut - piece.len();
    }
}
