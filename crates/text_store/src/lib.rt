//! The present text, with where its lines start, so that no query walks over its bytes.
//! It stands on the words of `text_terms`, and on `text_model` for what lines, positions and edits are.
//! Above, a contract sees a `TextStore` as its list of bytes, which are UTF-8 and at most 1,048,576;
//! `apply` is `outcome_of`, and `offset_of` and `pos_of` are `offset` and `position_of`.
#![tactic(auto)]

mod edits;
mod places;
mod starts;
mod store;

pub use edits::{Edit, TextRefusal};
pub use store::{BadPosition, TextStore};
