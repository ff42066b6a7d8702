//! The frames of the parser: rows in progress, in immutable stacks that share their frames and parts.
//! It stands on the nodes of `syntax_tree`, and on the frames of `grammar_model`'s machine.
//! Above, a contract sees a stack as plain frames with named operands (`specs/Frames.antt`); what each call
//! does is the named form of what the machine does with frames (`specs/Named.antt`, `proofs/Named.antt`).
#![tactic(auto)]

mod frames;
mod nodes;
mod share;
mod stack;

pub use frames::{Cell, Frames, Level, Opening, Parts};
pub use nodes::height_of_level;
pub use stack::Stack;
pub use syntax_rows::Last;
pub use syntax_tree::{NoMemory, Node, Part, RowName, Span, Token};
