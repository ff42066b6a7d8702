//! What an editor is answered on one text: its diagnostics, and each request on a place, on a range or on the whole.
//! It keeps nothing: a text is a session that is lent; who finds types is a parameter, any `Analyser`.
//! It is built on `session`, whose replies it translates, and on `lsp_positions`, for places as an editor counts them.
//! The layer above uses `diagnostics_in`, `answer_at`, `outlined` and `proposed`, which give the values of an answer, and
//! `offset_in`, the offset of an editor's position. Each says what it translates; want of memory is the one way to fail.
#![tactic(auto)]

mod actions;
mod faults;
mod names;
mod places;
mod prefix;
mod queries;
mod symbols;

pub use actions::proposed;
pub use faults::diagnostics_in;
pub use places::{offset_in, span_asked};
pub use queries::answer_at;
pub use symbols::outlined;
