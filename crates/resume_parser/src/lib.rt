//! The parser's stacks behind each token of a text, kept while the text is edited.
//! It stands on `frame_parser`, whose stacks share what they have in common and are never written.
//! Above, a `KeptParse` is seen by the tokens that it has parsed (`HasParsed`): `refresh` goes on from the last token that stayed, and
//! brings the tree and the faults up to date (`IsWhole`): they are those of a parse from nothing. Items that are settled stay as they are,
//! and `front` says how many.
#![tactic(auto)]

mod kept;

pub use frame_parser::{Parsed, SyntaxFault, Text, Tree};
pub use kept::KeptParse;
