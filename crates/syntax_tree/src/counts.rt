//! Three numbers that count work.
ghost use Rattle.std.specs.Prelude.{◌≡◌};
ghost use Rattle.syntax_tree.specs.Tallies.{Tallies, lexed_more, shifted_more, typed_more};

/// A counter of the tokens lexed, the tokens shifted and the nodes typed. Its numbers never fall.
/// A number that is 2^64 - 1 stays there.
pub trait Counts {
    ghost tallies: { Self → Tallies };

    /// One more token was lexed.
    fn add_lexed(&mut self)
        ensures { tallies self.new ≡ lexed_more (tallies self.old) };

    /// One more token was shifted.
    fn add_shifted(&mut self)
        ensures { tallies self.new ≡ shifted_more (tallies self.old) };

    /// One more node was typed.
    fn add_typed(&mut self)
        ensures { tallies self.new ≡ typed_more (tallies self.old) };

    fn lexed(&self) -> u64
        ensures { result ≡ (tallies self.now).lexed };

    fn shifted(&self) -> u64
        ensures { result ≡ (tallies self.now).shifted };

    fn typed(&self) -> u64
        ensures { result ≡ (tallies self.now).typed };
}
