//! The program's counter.
ghost use Rattle.std.specs.Prelude.{◌≡◌};

use syntax_tree::Counts;

/// Three numbers that start at zero; one that is 2^64 - 1 stays there.
#[derive(Clone, Copy, Debug)]
pub struct Tally {
    lexed: u64,
    shifted: u64,
    typed: u64,
}

impl Tally {
    pub fn new() -> Tally
        ensures lexed { result.lexed ≡ 0 }
        ensures shifted { result.shifted ≡ 0 }
        ensures typed { result.typed ≡ 0 }
    {
        Tally {
            lexed: 0,
            shifted: 0,
            typed: 0,
        }
    }
}

impl Counts for Tally {
    ghost tallies = { λ t. record { lexed = t.lexed; shifted = t.shifted; typed = t.typed } };

    fn add_lexed(&mut self) {
        self.lexed = self.lexed.saturating_add(1);
    }

    fn add_shifted(&mut self) {
        self.shifted = self.shifted.saturating_add(1);
    }

    fn add_typed(&mut self) {
        self.typed = self.typed.saturating_add(1);
    }

    fn lexed(&self) -> u64 {
        self.lexed
    }

    fn shifted(&self) -> u64 {
        self.shifted
    }

    fn typed(&self) -> u64 {
        self.typed
    }
}
