//! What an editor says to the service in the language server protocol, and what the service says back: frames, messages,
//! answers, and the positions and spans of a text as an editor counts them.
//! Definitions alone, on `serde_json`.
#![tactic(auto)]
