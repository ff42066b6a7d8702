//! Tests of what becomes a reply, through the public calls of the requests' lines, the replies' lines and the page of faults.
//! Most requests and replies are in the sessions; here is what a session can't show. The tests are in a crate of their own so that
//! a crate is proved once for itself, and not again with its tests; it doesn't use the typer, so that it waits for nothing.
//! No program calls it.
#![tactic(auto)]

#[cfg(test)]
mod pages;
#[cfg(test)]
mod requests;
#[cfg(test)]
mod verdict;
#[cfg(test)]
mod writing;
