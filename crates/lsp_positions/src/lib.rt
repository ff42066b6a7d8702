//! Positions and spans of a text as an editor counts them.
//! It keeps nothing: a text is lent as two slices, which are read one after the other.
//! It is built on `Span` of `text_terms`, and on `lsp_model`, which says what is right.
//! The layer above uses `offset_at`, `position_at` and `columns_between`, and `shown_span` and `asked_place`, which are the
//! definitions' own. None of them takes memory, and none can fail.
#![tactic(auto)]

mod halves;
mod positions;
mod spans;

pub use positions::{Columns, columns_between, offset_at, position_at};
pub use spans::{asked_place, is_name_byte, shown_span};
