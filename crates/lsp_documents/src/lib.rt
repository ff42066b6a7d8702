//! The documents that an editor has open, and what each message of the editor puts.
//! It keeps each document's text as a session of its own, and which of them aren't read; who finds types is a parameter,
//! any `Analyser`. It is built on `lsp_queries`, which answers on one text, and on `lsp_front` and `lsp_answers`, which read and
//! write messages. The layer above uses `Documents`: `new`, `take_body` for a whole body, and `pass_over` for one that was too
//! long; each says what is to be put, in order, or that the run ends.
#![tactic(auto)]

mod document;
mod documents;
mod lists;
mod pieces;
mod replies;
mod sending;

pub use documents::{Documents, Ending, Step};
pub use pieces::Pieces;
