//! Tests of the language server protocol over bytes, through the public calls of `lsp_positions`, `lsp_front` and `lsp_answers`:
//! that ample memory is enough, and that what the definitions say is what editors send and expect.
//! What a program puts for whole sessions is no matter of theirs.
//! No program calls it.
#![tactic(auto)]

#[cfg(test)]
mod frames;
#[cfg(test)]
mod messages;
#[cfg(test)]
mod places;
#[cfg(test)]
mod verdict;
