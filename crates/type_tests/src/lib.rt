//! Tests of types and their nodes, of trails, of unification, generalisation and instances, and of substitution, through
//! their public calls. They are in a crate of their own so that a crate is proved once for itself, and not again with its tests.
//! No program calls it.
#![tactic(auto)]

#[cfg(test)]
mod checked;
#[cfg(test)]
mod nodes;
#[cfg(test)]
mod pairs;
#[cfg(test)]
mod robinson;
#[cfg(test)]
mod steps;
#[cfg(test)]
mod trails;
#[cfg(test)]
mod types;
