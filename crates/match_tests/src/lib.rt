//! Tests of the matrices of matches through their public calls: which rows are unused, and what is missed.
//! They are in a crate of their own so that a crate is proved once for itself, and not again with its tests.
//! No program calls it.
#![tactic(auto)]

#[cfg(test)]
mod matrices;
#[cfg(test)]
mod rows;
