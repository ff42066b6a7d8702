//! Changes of a text that a query proposes: cases in place of a typed node, and terms in place of a hole.
//! Each is tried, so that none adds a fault: the changed text is read and typed by the session's typer, and its faults are compared with
//! the text's by place and kind, each place of the changed text being taken back to the present one.
//! It is built on `case_analysis` and `construct_terms`, which say what is proposed, and on `text_reading`, which reads and types.
//! The layer above may use `cases` and `terms_in`, which give a `Proposal`, and `try_all`, which tries its candidates; `asked` is what
//! these and other queries are asked of.
#![tactic(auto)]

mod asking;
mod changes;
mod trials;

pub use asking::asked;
pub use changes::{Candidates, Proposal, cases, terms_in, try_all};
pub use trials::MarkedText;
