//! What an editor is answered: answers of the language server protocol, from values to bytes.
//! It keeps nothing: an answer is a value, and its bytes are a new list.
//! It is built on `serde_json`, which prints a body, on ids, ranges and choices of `lsp_front`, and on `lsp_model`, which says what
//! is right. The layer above uses `Answer`, and `write_answer`, which is the definitions' writing with the header before the body.
//! Writing takes memory, which may be refused; it is the one way to fail.
#![tactic(auto)]

mod answer;
mod write;

pub use answer::{
    Action, Answer, Answered, Completion, Diagnostic, ItemKind, Severity, Symbol, SymbolKind, Wrong,
};
pub use write::write_answer;
