//! How deep trees are gone into.
ghost use Rattle.std.specs.Prelude.{◌<◌, IfOk};

use std::alloc::AllocError;
use type_nodes::NoMemory;

/// How deep a tree is gone into. No tree of a text is as deep; what would be deeper is answered with want of memory, since
/// the stack is memory too.
#[derive(Clone, Copy)]
pub struct Depth(pub u32);

impl Depth {
    /// Deeper than any tree of a text, whose height is at most 512.
    pub const WHOLE: Depth = Depth(1024);

    /// One level further in.
    pub fn inside(self) -> Result<Depth, NoMemory>
        ensures { IfOk result (λ d. d.0 < self.0) }
    {
        match self.0.checked_sub(1) {
            Some(left) => Ok(Depth(left)),
            None => Err(AllocError),
        }
    }
}
