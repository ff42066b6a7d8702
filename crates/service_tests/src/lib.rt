//! Tests of runs of `serve`. Requests and their replies are in the sessions; here is what a session can't show: ends that fail in
//! mid-stream, the words, blank lines, how a run ended and what it counted. They are in a crate of their own so that a crate is
//! proved once for itself, and not again with its tests.
//! No program calls it.
#![tactic(auto)]

#[cfg(test)]
mod runs;
#[cfg(test)]
mod verdict;
