//! The item `let` in progress: whether there is one, and how it is closed.
ghost use Rattle.std.specs.Prelude.{◌≡◌, ◌<◌, ◌≤◌, ◌+◌, ◌^◌, ◌∷◌, ℕ, length, IfOk};
ghost use Rattle.grammar_model.specs.Machine as machine;
ghost use Rattle.recovery_model.specs.Items as model;
ghost use Rattle.parse_frames.specs.Stacks.{stack_view};
ghost use Rattle.parse_frames.specs.View.{frames_view};
ghost use Rattle.frame_steps.specs.Course.{bare};
ghost use Rattle.frame_steps.specs.Reached.{to_close, EndsItem};
ghost use Rattle.frame_steps.specs.View.{Stands, Standing};

use crate::build::close_frames;
use crate::stack::Stack;
use parse_frames::Frames;
use std::alloc::Global;
use syntax_tree::NoMemory;

/// The row `let` of a structure, the spot of its first token, and the row `let .. in ..` of an expression.
const ITEM_ROW: u8 = 1;

const ITEM_SPOT: u8 = 1;

const LOCAL_ROW: u8 = 90;

/// The frames once an item is closed, and how many parts were missing.
#[derive(Drop)]
pub struct Ended {
    pub stack: Stack,
    pub holes: u32,
}

impl Stack {
    ghost use Rattle.std.specs.Prelude.{◌≡◌, ◌∷◌, IfOk};
    ghost use Rattle.recovery_model.specs.Items as model;
    ghost use Rattle.parse_frames.specs.Stacks.{stack_view};
    ghost use Rattle.frame_steps.specs.Course.{bare};

    /// Whether an item `let` has a frame.
    pub fn has_item(&self) -> bool
        ensures { result ≡ model.has_item (bare ((stack_view self.now.frames).top ∷ (stack_view self.now.frames).below)) }
    {
        self.frames.number() == ITEM_ROW || item_below(self.frames.below())
    }

    /// Whether the innermost frame is an item `let` behind its first token.
    pub fn begins_item(&self) -> bool
        ensures { result ≡ model.begins_item (bare ((stack_view self.now.frames).top ∷ (stack_view self.now.frames).below)) }
    {
        self.frames.number() == ITEM_ROW && self.frames.spot() == ITEM_SPOT
    }

    /// Whether the innermost frame is a local `let`.
    pub fn is_local(&self) -> bool
        ensures { result ≡ model.is_local (bare ((stack_view self.now.frames).top ∷ (stack_view self.now.frames).below)) }
    {
        self.frames.number() == LOCAL_ROW
    }

    /// The end of the last token taken, in bytes from 0; 0 where none was.
    pub fn place(&self) -> u32
        ensures { result ≡ (stack_view self.now.frames).place }
    {
        self.frames.place()
    }

    /// One more owner of the same frames.
    pub fn share(&self) -> Result<Stack, NoMemory>
        ensures text { IfOk result (λ r. r.text ≡ self.now.text) }
        ensures frames { IfOk result (λ r. stack_view r.frames ≡ stack_view self.now.frames) }
    {
        Ok(Stack {
            text: self.text,
            frames: self.frames.share()?,
            refused: self.refused,
        })
    }
}

/// Whether one of these frames is an item `let`.
fn item_below(frames: &Frames) -> bool
    ensures { result ≡ model.has_item (bare (frames_view frames.now)) }
{
    match frames {
        None => false,
        Some(level) => level.number == ITEM_ROW || item_below(&level.below),
    }
}

/// How many frames there are from the innermost, whose row has this number, out to that of the item `let`; where there is
/// none, the number of all but the outermost.
fn frames_to_item(number: u8, below: &Frames) -> u32
    requires room { length (frames_view below.now) < 2 ^ 31 }
    ensures count { result ≡ to_close number (bare (frames_view below.now)) }
    ensures enough { result ≤ length (frames_view below.now) }
{
    match below {
        None => 0,
        Some(level) => {
            if number == ITEM_ROW {
                1
            } else {
                frames_to_item(level.number, &level.below) + 1
            }
        }
    }
}

/// The item `let` in progress is closed with all frames in it, each with its missing parts.
pub fn close_item(alloc: Global, stack: &Stack) -> Result<Ended, NoMemory>
    requires standing { Standing stack.now.text (stack_view stack.now.frames) }
    ensures { IfOk result (λ r. (f : machine.Frame) (S : machine.Stack) (at : ℕ) → Stands stack.now.text (f ∷ S) at (stack_view stack.now.frames) → EndsItem stack.now.text f S at r) }
{
    let frames = &stack.frames;
    let count = frames_to_item(frames.number(), frames.below());
    let closed = close_frames(alloc, stack.text, frames.share()?, count)?;
    Ok(Ended {
        stack: Stack {
            text: stack.text,
            frames: closed.frames,
            refused: None,
        },
        holes: closed.holes,
    })
}
