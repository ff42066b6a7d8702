//! The run of the language server: messages from a source, and what each of them puts into a sink.
//! It keeps the bytes of the message that has begun; the documents are those of `lsp_documents`.
//! It is built on `lsp_documents`, on `lsp_front` for the frames, and on `session_loop` for sources and sinks.
//! The layer above may use `serve_editor`, which says why each run ended, and `asks_editor`, which says whether the words of a
//! command line ask for such a run.
#![tactic(auto)]

mod ends;
mod incoming;
mod messages;
mod run;
mod words;

pub use ends::End;
pub use run::{EditorReport, serve_editor};
pub use words::asks_editor;
