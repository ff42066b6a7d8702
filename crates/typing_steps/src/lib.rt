//! What each call on the state of typing carries in the relation of `typing_conditions`: one lemma a call, from the call's own clauses.
//! It stands on `typing_state`, whose state `sight` shows as the definitions see it, and on the laws of `typing_conditions`.
//! No program calls it. The layer above may use the lemmas of `proofs/` for its rows: new types (`Making`, `Joining`, `Writing`), types that
//! are compared, limited and closed (`Comparing`, `Limiting`, `Schemes`), tests of names (`Testing`, `Finding`, `Valued`), records (`Recording`,
//! `Still`), an item's start (`Starting`), and rows of names, applications and tuples (`Naming`, `Asking`, `Applying`, `Listing`).
#![tactic(auto)]
