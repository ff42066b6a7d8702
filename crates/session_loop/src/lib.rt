//! The loop of a session: request lines from a source, one reply line for each into a sink.
//! It keeps the line that has begun; the text is the session's.
//! It is built on `session`, and on `clap` for the words of the command line.
//! The layer above may use `serve`, which says what was put for every way in which a run may end, and the ends:
//! `ReadEnd` and `WriteEnd` over std's readers and writers, `ListSource`, `ListSink`, `SureSource` and `SureSink` in memory.
#![tactic(auto)]

mod begun;
mod ends;
mod feed;
mod list_ends;
mod made;
mod service;
mod std_ends;
mod sure_ends;
mod turns;
mod words;

pub use ends::{Failed, Sink, Source};
pub use list_ends::{ListSink, ListSource};
pub use service::{Report, Status, serve};
pub use std_ends::{ReadEnd, WriteEnd};
pub use sure_ends::{SureSink, SureSource};
