//! The tokens of a text, kept while it is edited.
//! It stands on the lexer and its reaches: a token is kept where all bytes that decided it are before the first changed one.
//! Above, a `TokenStore` is seen as its tokens with their reaches, and how many of them the last call kept; `relex` makes them those
//! of the changed text and reads no token twice. `proofs.Fronts.front_of_edit` gives what `relex` needs after an edit.
#![tactic(auto)]

mod store;

pub use store::TokenStore;
