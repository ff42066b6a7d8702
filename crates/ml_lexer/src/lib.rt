//! The tokens of a text: the first one at or behind a place, and all of them.
//! It stands on `text_terms` and `syntax_tree`, and on the definitions of `token_model`.
//! Above, `lex_from` gives the token that `FirstToken` names, with its reach, and counts it: every text with the
//! same bytes before the reach has that token there, with that reach, and at most 31 tokens behind it end before it.
//! `lex_on` does the same where the column of the place is known, as `column_behind` gives it behind a token. `lex_all` gives the
//! whole list, which is the text's (`Lex`). `proofs.SameTokens` lifts the reach to lists.
#![tactic(auto)]

mod brackets;
mod comments;
mod find;
mod found;
mod lexer;
mod names;
mod numerals;
mod rest;
mod signs;
mod strings;
mod words;

pub use lexer::{Start, column_behind, lex_all, lex_from, lex_on};
