//! What is found of the types and names of a text, kept while the text is edited: the prelude's items first, as item 0, then the
//! text's, on one store, with the point before each item to go back to.
//! It is built on the parser and on the typing of items, and gives what `analysis_api` asks for.
//! The layer above may use `Typer`, an `Analyser`: `refresh` takes the tree of the text as it is now, goes back to the first item that
//! isn't as it was, and types from there on. What it shows is what typing the items one after the other gives (`specs/Shown`, over
//! `Given`; `Points` says what the point before an item brings back).
#![tactic(auto, using(typing_state::proofs::Going::goes_trans, typing_state::proofs::Going::goes_refl))]

mod alike;
mod kept;
mod point;
mod prelude;
mod typed_items;
mod whole;

pub use kept::Typer;
