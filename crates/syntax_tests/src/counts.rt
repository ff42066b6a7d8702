//! The counter of these tests.
use syntax_tree::Counts;

/// Three numbers from zero on.
#[derive(Clone, Copy)]
pub struct Three {
    lexed: u64,
    shifted: u64,
    typed: u64,
}

pub fn zero() -> Three {
    Three {
        lexed: 0,
        shifted: 0,
        typed: 0,
    }
}

impl Counts for Three {
    ghost tallies = { λ t. record { lexed = t.lexed; shifted = t.shifted; typed = t.typed } };

    fn add_lexed(&mut self) {
        self.lexed = self.lexed.saturating_add(1);
    }

    fn add_shifted(&mut self) {
        self.shifted = self.shifted.saturating_add(1);
    }

    fn add_typed(&mut self) {
        self.typed = self.typed.saturating_add(1);
    }

    fn lexed(&self) -> u64 {
        self.lexed
    }

    fn shifted(&self) -> u64 {
        self.shifted
    }

    fn typed(&self) -> u64 {
        self.typed
    }
}
