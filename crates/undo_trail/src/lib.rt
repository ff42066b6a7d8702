//! A trail: the writes to some cells, so that they can be undone, newest first.
//! It keeps the writes alone and stands on nothing of the repository.
//! Above, a contract sees a trail as the list of its writes (`writes_of`), and what undoing gives as `all_undone`.
#![tactic(auto)]

ghost use Rattle.std.specs.Prelude.{◌≡◌, ◌+◌, ◌≤◌, ◌<◌, [], ◌∷◌, ◌++◌, length, take, drop, OnOk, OnErr, IsOk};
ghost use Rattle.undo_trail.specs.Undoing.{all_undone};
ghost use Rattle.undo_trail.specs.Trails.{writes_of, HasRoom};

use std::alloc::{AllocError, Global};

/// Want of memory: the library's own error of an allocation.
pub type NoMemory = AllocError;

/// Cells whose writes can be undone.
pub trait Undo {
    /// What a write overwrote.
    type Write;

    ghost Cells: { Type 0 };

    ghost cells: { Self → Cells };

    ghost undone: { Self.Write → Cells → Cells };

    /// Makes the cells as they were before the write.
    fn undo(&mut self, w: Self::Write)
        ensures { cells self.new ≡ undone w (cells self.old) };
}

/// A place in a trail: how many writes stand before it.
#[derive(Clone, Copy, Debug, PartialEq, Eq)]
pub struct Mark(pub u64);

/// The writes, oldest first.
#[derive(Drop)]
pub struct Trail<W> {
    writes: Vec<W>,
}

impl<W: Drop> Trail<W> {
    pub fn new(alloc: Global) -> Trail<W>
        ensures { writes_of result ≡ [] }
    {
        Trail {
            writes: Vec::new(alloc),
        }
    }

    /// Makes room for one write, so that the next `push` succeeds.
    pub fn reserve(&mut self) -> Result<(), NoMemory>
        ensures same { writes_of self.new ≡ writes_of self.old }
        ensures room { OnOk result (HasRoom self.new) }
    {
        self.writes.reserve(1)
    }

    /// Adds a write behind the others. `NoMemory` only where there is no room for it.
    pub fn push(&mut self, w: W) -> Result<(), NoMemory>
        ensures ok { OnOk result (writes_of self.new ≡ writes_of self.old ++ w ∷ []) }
        ensures err { OnErr result (writes_of self.new ≡ writes_of self.old) }
        ensures room { HasRoom self.old → IsOk result }
    {
        self.writes.push(w).map_err(|_| AllocError)
    }

    /// The end of the trail.
    pub fn mark(&self) -> Mark
        ensures { result.0 ≡ length (writes_of self.now) }
    {
        Mark(self.writes.len() as u64)
    }

    /// Undoes the writes behind the mark, newest first, and cuts the trail there.
    pub fn undo_to<T: Undo<Write = W>>(&mut self, mark: Mark, on: &mut T)
        requires { mark.0 ≤ length (writes_of self.old) }
        ensures cells { T.cells on.new ≡ all_undone T.undone (drop mark.0 (writes_of self.old)) (T.cells on.old) }
        ensures trail { writes_of self.new ≡ take mark.0 (writes_of self.old) }
    {
        while self.writes.len() as u64 > mark.0 {
            if let Some(w) = self.writes.pop() {
                on.undo(w);
            }
        }
    }
}
