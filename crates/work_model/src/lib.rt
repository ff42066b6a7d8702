//! The work that a run may do: how many tokens it may lex, how many its parser may take and how many items it may type, by its lines,
//! their replies and the texts that its queries try.
//! Definitions alone.
#![tactic(auto)]
