//! The names that patterns bind, row by row, and which heads of patterns are constructors.
//! It has definitions alone, by which `pattern_typing` says what its functions bind.
#![tactic(auto)]
