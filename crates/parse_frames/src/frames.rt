//! Parts, frames and stacks, and how they are let go.
use std::rc::Rc;
use syntax_tree::Part;

/// The parts of a frame, the newest first.
pub type Parts = Option<Rc<Cell>>;

/// A part of a frame, its slot in the row, and the parts before it.
pub struct Cell {
    pub slot: u8,
    pub part: Part,
    /// The largest height of a node among this part and those before it, 0 where there is none.
    pub height: u16,
    /// How many nodes there are among this part and those before it, or 2^32 - 1 where there are more.
    pub nodes: u32,
    pub before: Parts,
}

// A frame may have as many parts as the text has tokens, so no call is made for each.
impl Drop for Cell {
    fn drop(mut self) {
        loop {
            match self {
                Cell {
                    slot: _,
                    part: _,
                    height: _,
                    nodes: _,
                    before,
                } => match before {
                    None => return,
                    Some(cell) => match Rc::into_inner(cell) {
                        None => return,
                        Some(rest) => self = rest,
                    },
                },
            }
        }
    }
}

/// Frames that wait for an operand, the innermost first.
pub type Frames = Option<Rc<Level>>;

/// A row in progress that waits for the operand at its spot, on the frames below it.
pub struct Level {
    /// The number of the row.
    pub number: u8,
    /// The spot of the operand that it waits for.
    pub spot: u8,
    pub parts: Parts,
    pub below: Frames,
}

impl Drop for Level {
    fn drop(mut self) {
        loop {
            match self {
                Level {
                    number: _,
                    spot: _,
                    parts: _,
                    below,
                } => match below {
                    None => return,
                    Some(level) => match Rc::into_inner(level) {
                        None => return,
                        Some(rest) => self = rest,
                    },
                },
            }
        }
    }
}

/// A row that a token begins: its number, and the spot that it begins with.
#[derive(Clone, Copy, Debug, PartialEq, Eq)]
pub struct Opening {
    pub number: u8,
    pub first: u8,
}
