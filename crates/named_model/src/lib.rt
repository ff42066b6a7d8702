//! Where the names of a text lead: to the place of the entry that a path finds among the names in scope at a node.
//! It stands on the lookups of `signature_model` and on the typings of `typed_model`. Definitions alone.
//! `place_laws` cites it for what is found among the names that are recorded for a node.
#![tactic(auto)]
