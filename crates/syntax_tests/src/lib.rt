//! Tests of the rooms from the lexer to a text that is kept through their public calls: tokens, plain texts, the parser as a whole, and
//! what a kept text counts. They are in a crate of their own so that a crate is proved once for itself, and not again with its tests.
//! A test is a table; one function tells whether a row holds, one finds the first row that doesn't, and the test fails with its
//! name. So no value is owned where a test may end, which keeps its proof short.
//! No program calls it.
#![tactic(auto)]

#[cfg(test)]
mod counts;
#[cfg(test)]
mod kept;
#[cfg(test)]
mod laws;
#[cfg(test)]
mod lexer;
#[cfg(test)]
mod parser;
#[cfg(test)]
mod plain;
#[cfg(test)]
mod verdict;
