//! A trail over one number.
use std::alloc::Global;
use std::test::Fail;
use undo_trail::*;

/// A number; a write is the number before it.
#[derive(Drop)]
struct Counter {
    value: u8,
}

impl Undo for Counter {
    ghost use Rattle.std.specs.Prelude.{ℕ};

    type Write = u8;

    ghost Cells = { ℕ };

    ghost cells = { λ c. c.value };

    ghost undone = { λ w c. w };

    fn undo(&mut self, w: u8) {
        self.value = w;
    }
}

/// Whether undoing to a mark brings back the number that the counter had there, and cuts the trail.
fn is_undone(alloc: Global) -> Result<bool, NoMemory> {
    let mut trail = Trail::new(alloc);
    let mut counter = Counter { value: 2 };
    trail.push(1)?;
    let mark = trail.mark();
    trail.reserve()?;
    trail.push(2)?;
    counter.value = 3;
    trail.push(3)?;
    counter.value = 4;
    let whole = trail.mark();
    trail.undo_to(mark, &mut counter);
    Ok(whole == Mark(3) && counter.value == 2 && trail.mark() == mark)
}

#[test]
fn undoes_the_writes_after_the_mark(rt: HostRuntime) -> Result<(), Fail> {
    assert!(rt; is_undone(rt.alloc())?);
    Ok(())
}
