//! What the grammar is: the table of its rows, the trees in it, and how frames take a token that fits.
//! It stands on the tokens of `token_model` and the names of rows of `tree_model`.
//! Definitions alone; `recovery_model` says what becomes of tokens that don't fit, and `grammar_laws` has what holds of both.
#![tactic(auto)]
