//! Tests of environments, of printed types and of what is recorded for the nodes of a text, through their public calls.
//! They are in a crate of their own so that a crate is proved once for itself, and not again with its tests.
//! No program calls it.
#![tactic(auto)]

#[cfg(test)]
mod entries;
#[cfg(test)]
mod environments;
#[cfg(test)]
mod printer;
#[cfg(test)]
mod recorded;
