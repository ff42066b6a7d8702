//! What is read and found of one text: its tree with the parser's faults, the plain text that it may be, the types of its items; and
//! what of these is shown, with the text's positions.
//! It keeps the typer of a text that is edited (`KeptTypes`), which says for which items it knows the types; whose items these are is
//! the session's to say.
//! It is built on the kept text, the lexer, the parser, the plain typing, `analysis_api`, and what queries and replies have for values.
//! The layer above may use `tree_of` and `read_text` for a text that is kept, `parse_text` for another one, `TriedText` for others that
//! begin alike, `find_types` for a typer that holds the items of a tree, and the functions that show outlines, faults and types.
#![tactic(auto)]

mod plain;
mod reading;
mod structure;
mod tried;
mod types;

pub use plain::{PlainText, typed_among};
pub use reading::{ReadText, read_text};
pub use structure::{
    ParsedText, parse_text, position, shown_faults, shown_outline, shown_types, tree_of,
};
pub use tried::TriedText;
pub use types::{Found, KeptTypes, analysed, find_types};
