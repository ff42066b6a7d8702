//! What an editor says: frames and messages of the language server protocol, from bytes to values.
//! It keeps nothing: what the bytes begin with is told anew at each call.
//! It is built on `serde_json`, which reads a body, on `Columns` of `lsp_positions`, and on `lsp_model`, which says what is right.
//! The layer above uses `frame_of` and `read_message`, which are the definitions' reading, and the values that a message is.
//! Reading a message takes memory, which may be refused; it is the one way to fail.
#![tactic(auto)]

mod frames;
mod message;
mod read;

pub use frames::{BODY_LIMIT, Framed, HEAD_LIMIT, frame_of};
pub use message::{
    Call, Change, Choices, Declaration, Delivery, DocumentCall, HoverForm, Id, Integer, Kinds,
    Message, Notice, Place, PlaceCall, Position, Range, Refusal,
};
pub use read::read_message;
