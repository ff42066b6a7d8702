//! What a tree of a text is: plain trees of rows, parts and tokens, and the nodes at an offset.
//! Definitions alone. They stand on the tokens of `token_model`.
#![tactic(auto)]
