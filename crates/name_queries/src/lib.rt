//! The queries of names: where the name at an offset is defined, where else it is, and what completes a prefix.
//! It is built on the typed nodes and the texts of types of `query_engine`, and on the environments of `env_table`, and keeps nothing.
//! Above, `locate` and `occurrences` go by what is recorded for the names of a text, and `complete_prefix` gives the newest names of
//! the scope after a prefix's modules, in order, with their types.
#![tactic(auto)]

mod completions;
mod locations;
mod name_tokens;
mod newest_names;
mod prefixes;
mod scopes;
mod shown_entries;
mod touching;

pub use completions::{Completions, complete_prefix};
pub use locations::{locate, occurrences};
pub use newest_names::CompletionKind;
pub use shown_entries::Completion;
