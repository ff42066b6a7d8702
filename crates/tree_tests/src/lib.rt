//! Tests of the rooms below the parser through their public calls: the bytes of a text, trees, the grammar's rows, and frames. They are
//! in a crate of their own so that a crate is proved once for itself, and not again with its tests.
//! A test is a table; one function tells whether a row holds, one finds the first row that doesn't, and the test fails with its
//! name. So no value is owned where a test may end, which keeps its proof short.
//! No program calls it.
#![tactic(auto)]

#[cfg(test)]
mod frames;
#[cfg(test)]
mod rows;
#[cfg(test)]
mod texts;
#[cfg(test)]
mod trees;
#[cfg(test)]
mod verdict;
