//! Weak variables: those that are free in the types of the names after a text's items.
//! It is built on the store of type nodes and on environments, and knows nothing of how items are typed.
//! Above, `Search::free_of` lists what is free in the types of an item's names, and `free_in` what of it is free later (`specs/Listed`). `specs/Free` says which variables are free in the types of nodes,
//! of entries and of what was found. Laws: `Standing` (what is free, from one state to a later one), `Searching` (searches one after the other), `Names` (the names of the code against those of the definitions), `Listing` (one item more), `Behind` (a text
//! of `let` and `;;` adds values alone) and `Weak` (`are_weak`: what was found are the variables that are free in the environment of the definitions).
#![tactic(auto)]

mod search;

pub use search::{Search, free_in};
