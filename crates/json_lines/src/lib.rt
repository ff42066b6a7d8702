//! Request lines and reply lines: what a line asks, and the bytes of a reply.
//! It stands on `serde_json`, which reads and prints, and keeps nothing between lines.
//! The layer above uses `read_request`, which is the definition's reading of the line, and `write_reply`, which gives
//! exactly the bytes of the reply's line; both want memory and may be refused it.
#![tactic(auto)]

mod key;
mod reply;
mod request;
mod write;

pub use key::Key;
pub use query_engine::OutlineKind;
pub use reply::{
    Entry, EntryKind, Failure, File, Listed, Outlined, PosSpan, Reply, RequestError, Typed,
};
pub use request::{LINE_LIMIT, Malformed, Request, read_request};
pub use write::{MEMORY_LINE, memory_line, write_reply};
