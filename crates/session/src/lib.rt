//! One text, and the answers to the request lines on it.
//! It keeps that text with its tokens, what the parser made of them, and the typer with what it found, and brings these up to the text
//! before it answers a query; who finds types is a parameter, any `Analyser`. The typer also types the texts that a query tries, once all
//! of these are made, and goes back to the session's text at the next query.
//! It is built on the kept text, on `text_reading` for what is read and found of it, on the queries, on `text_changes` for what they
//! propose and try, and on `json_lines`.
//! The layer above may use `Session::new`, and `answer`, which says which line is given and which text is left;
//! for a text of its own `append`, `change`, `len`, `sizes`, `slices`, `offset_of` and `pos_of`; and the queries `errors`, `outline`,
//! and by offsets `enclosing`, `ask_at` and `ask_trying`, which read the text from nothing unless `refresh` brought what is kept up to
//! it. The last has a `TriedText` that keeps what was tried, for the next such query.
#![tactic(auto)]

mod queries;
mod session;

pub use queries::Query;
pub use session::{Line, Session, Sizes};
pub use text_reading::TriedText;
