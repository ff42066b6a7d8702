//! A text with its tokens and its tree, kept while it is edited.
//! It is built on the text store, the token store and the parser that resumes.
//! A caller makes edits by `apply`, which notes the first changed byte, and has the tokens and the tree brought up to the text by
//! `refresh`, which reads and parses from there on. Until the next edit `tokens` and `parsed` give them.
//! Above, a `KeptText` is seen as its text, its tokens, and the first byte that may have changed since they were read.
#![tactic(auto)]

mod again;
mod kept;

pub use kept::KeptText;
