//! A text without modules makes each of its demands once: a fact of the definitions alone.
//! It stands on the definitions of typing (`typing_model`). No program calls it.
//! `Sites` has sets of sites, and conditions that ask within a set, each demand once; then each row in turn, whose own demands and those of its parts are
//! in sets apart: `Types`, `Patterns`, `Declarations`, `Expressions`, `Records` (and cases), `Bindings`, and `Rows` and `Texts` for the trees (`plain_sites_apart`, and `sites_apart` of `let` and `;;`).
#![tactic(auto)]
