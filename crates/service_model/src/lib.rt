//! What the service answers: what a request line asks, the reply to it at a text, and runs over all lines.
//! Definitions alone; the only crate of definitions that stands on `serde_json`.
#![tactic(auto)]
