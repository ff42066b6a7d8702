//! Replies: values, failures and errors.
ghost use Rattle.std.specs.Prelude.{◌≡◌, codes, Some, option_map};
ghost use Rattle.service_model.specs.Replies.{refused};
ghost use Rattle.json_lines.specs.Meets.{refusal_of};
ghost use Rattle.json_lines.specs.Means.{entry_kind_text, file_text, error_said};

use crate::key::Key;
use crate::request::Malformed;
use query_engine::OutlineKind;
use text_terms::{Pos, RcStr};

/// What a request is answered.
#[derive(Drop)]
pub enum Reply {
    /// `tell`: how many bytes the new text has.
    Size(u64),
    /// `type-enclosing`: typed spans, innermost first.
    Types(Vec<Typed>),
    /// `complete-prefix`: the entries, and whether there are others.
    Entries {
        entries: Vec<Entry>,
        more: bool,
    },
    /// `locate`: a position in a file.
    Place {
        file: File,
        pos: Pos,
    },
    /// `occurrences`: spans, in text order.
    Spans(Vec<PosSpan>),
    /// `outline`: what the text binds, in text order.
    Outline(Vec<Outlined>),
    /// `errors`: the faults, and whether there are others.
    Faults {
        list: Vec<Listed>,
        more: bool,
    },
    /// `case-analysis`: the text that goes from start to end.
    Split {
        start: Pos,
        end: Pos,
        text: RcStr,
    },
    /// `construct`: the texts that may go from start to end.
    Terms {
        start: Pos,
        end: Pos,
        texts: Vec<RcStr>,
    },
    /// The request is accepted and has no value.
    Failure(Failure),
    /// The line or the text doesn't have what is asked.
    Error(RequestError),
}

/// From a start to an end, by line from 1 and column in bytes from 0.
#[derive(Clone, Copy, Debug, PartialEq, Eq)]
pub struct PosSpan {
    pub start: Pos,
    pub end: Pos,
}

/// A span with its type, as it is shown.
#[derive(Drop)]
pub struct Typed {
    pub start: Pos,
    pub end: Pos,
    pub ty: RcStr,
}

/// A name that a prefix may become.
#[derive(Drop)]
pub struct Entry {
    /// Its type; empty where it has none.
    pub desc: RcStr,
    pub kind: EntryKind,
    pub name: RcStr,
}

#[derive(Clone, Copy, Debug, PartialEq, Eq)]
pub enum EntryKind {
    Constructor,
    Label,
    Module,
    ModuleType,
    Type,
    Value,
}

impl EntryKind {
    /// The kind as it is printed.
    pub fn name(self) -> &'static str
        ensures { result.now ≡ entry_kind_text self }
    {
        match self {
            EntryKind::Constructor => "Constructor",
            EntryKind::Label => "Label",
            EntryKind::Module => "Module",
            EntryKind::ModuleType => "ModuleType",
            EntryKind::Type => "Type",
            EntryKind::Value => "Value",
        }
    }
}

/// Where a name comes from.
#[derive(Clone, Copy, Debug, PartialEq, Eq)]
pub enum File {
    /// The text itself.
    Buffer,
    /// What is there before the text.
    Prelude,
}

impl File {
    /// The file as it is printed.
    pub fn name(self) -> &'static str
        ensures { result.now ≡ file_text self }
    {
        match self {
            File::Buffer => "buffer",
            File::Prelude => "prelude",
        }
    }
}

/// What an item binds, with what stands inside it.
#[cycle(outlined)]
#[derive(Drop)]
pub struct Outlined {
    pub children: Vec<Outlined>,
    pub start: Pos,
    pub end: Pos,
    pub kind: OutlineKind,
    pub name: RcStr,
}

/// A fault of the text.
#[derive(Drop)]
pub struct Listed {
    pub start: Pos,
    pub end: Pos,
    pub kind: RcStr,
    pub message: RcStr,
    /// What tells it: `parser`, `typer` or `warning`.
    pub ty: RcStr,
}

/// Why an accepted request has no value.
#[derive(Drop)]
pub enum Failure {
    /// No typed node holds the offset.
    NoNode,
    /// There is no name token at the offset, or the prefix isn't of the form of a name.
    NotAName,
    /// What the identifier names isn't found.
    Unbound { ident: RcStr },
    /// The node has no cases.
    NothingToSplit,
    /// No path in scope reaches the constructor or label.
    HiddenConstructor { constructor: RcStr },
    /// The changed text would have a new fault at this place of the present one.
    WouldFault { at: Pos },
    /// The node is neither `_` nor missing.
    NotAHole,
}

/// Why a line is refused. Nothing changes after it.
#[derive(Clone, Copy, Debug, PartialEq, Eq)]
pub enum RequestError {
    /// The line has more than `LINE_LIMIT` bytes.
    LineTooLong,
    /// The line is no JSON value.
    NotJson,
    /// The value is no object with a text `query`.
    NotARequest,
    /// No query has this name.
    UnknownQuery,
    /// The first key that is absent or of another kind.
    MissingKey { key: Key },
    /// The first line or column that isn't decimal digits alone with a value below 2^32.
    BadNumber { key: Key },
    /// The line doesn't exist, or the column is past its end.
    BadPosition { key: Key },
    /// The start stands behind the end.
    BadRange,
    /// The start or the end stands inside a character.
    SplitsChar { key: Key },
    /// How many bytes the new text would have.
    TextTooLong { bytes: u64 },
}

impl Malformed {
    /// The error that is told of the line; None for want of memory.
    pub fn error(self) -> Option<RequestError>
        ensures { option_map error_said result ≡ option_map refused (refusal_of self) }
    {
        match self {
            Malformed::LineTooLong => Some(RequestError::LineTooLong),
            Malformed::NotJson => Some(RequestError::NotJson),
            Malformed::NotARequest => Some(RequestError::NotARequest),
            Malformed::UnknownQuery => Some(RequestError::UnknownQuery),
            Malformed::MissingKey { key } => Some(RequestError::MissingKey { key }),
            Malformed::BadNumber { key } => Some(RequestError::BadNumber { key }),
            Malformed::NoMemory => None,
        }
    }
}
