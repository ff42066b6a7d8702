//! Groups of declarations of types as they are written, and the orders in which their names are read.
//! It is built on the parts of rows (`row_parts`) and on environments, and types nothing.
//! Above, `declarations_of` gives the declarations of an item, and `Mentions` which of them are other names of which: an order in
//! which each comes after those that it mentions, and whether one is met again from itself. A contract sees the declarations as they
//! are written, by the plain tree of the item (`specs/Written.antt`); of `Mentions` nothing is said.
#![tactic(auto)]

mod groups;
mod orders;

pub use groups::{
    ConstructorPart, DeclarationPart, LabelPart, Right, Told, declarations_of, last_token,
    missing_in,
};
pub use orders::{Mentions, clear, is_set, set};
