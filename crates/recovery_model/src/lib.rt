//! What the parser makes of any list of tokens: the rules for one token that is put on frames, where the token fits by the frames' numbers
//! alone, what a table must meet for the rules to be exact, and the rules by which an unfinished `let` ends.
//! It stands on the frames of `grammar_model`.
//! The parser above meets `step`, `close` and `recover`; what holds of them is in `grammar_laws` (one token) and `recovery_laws` (all).
//! Definitions alone.
#![tactic(auto)]
