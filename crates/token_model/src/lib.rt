//! What the tokens of a text are: the kinds, how each is spelled, and the tokens of a whole text.
//! Definitions alone, over lists of bytes.
#![tactic(auto)]
