//! Messages, as values.
ghost use Rattle.std.specs.Prelude.{◌≡◌, false};
ghost use Rattle.serde_json.specs.Find.{is_float};
ghost use Rattle.serde_json.specs.View.{number_view};

use lsp_positions::Columns;
use serde_json::Number;
use text_terms::RcStr;

/// A line and a column, both from 0.
#[derive(Clone, Copy, Debug, PartialEq, Eq)]
pub struct Position {
    pub line: u32,
    pub character: u32,
}

/// From a start to an end, which may be before the start.
#[derive(Clone, Copy, Debug, PartialEq, Eq)]
pub struct Range {
    pub start: Position,
    pub end: Position,
}

/// How a hover's text is written.
#[derive(Clone, Copy, Debug, PartialEq, Eq)]
pub enum HoverForm {
    Plaintext,
    Markdown,
}

/// How an editor gets the diagnostics of its documents.
#[derive(Clone, Copy, Debug, PartialEq, Eq)]
pub enum Delivery {
    /// They are sent to it.
    Sent,
    /// It asks for them.
    AskedFor,
}

/// What an editor and the service agree on at the start.
#[derive(Clone, Copy, Debug, PartialEq, Eq)]
pub struct Choices {
    pub columns: Columns,
    pub hover: HoverForm,
    pub delivery: Delivery,
}

/// A position in a document.
#[derive(Drop)]
pub struct Place {
    pub uri: RcStr,
    pub at: Position,
}

/// Whether references are asked for with the place that defines the name.
#[derive(Clone, Copy, Debug, PartialEq, Eq)]
pub enum Declaration {
    With,
    Without,
}

/// Which kinds of code actions are asked for.
#[derive(Clone, Copy, Debug, PartialEq, Eq)]
pub struct Kinds {
    pub rewrite: bool,
    pub quickfix: bool,
}

/// What is asked of a position in a document.
#[derive(Clone, Copy, Debug, PartialEq, Eq)]
pub enum PlaceCall {
    Hover,
    Completion,
    Definition,
    References(Declaration),
    Highlights,
}

/// What is asked of a whole document.
#[derive(Clone, Copy, Debug, PartialEq, Eq)]
pub enum DocumentCall {
    Symbols,
    Diagnostics,
}

/// What a request asks.
#[derive(Drop)]
pub enum Call {
    Initialize(Choices),
    Shutdown,
    At {
        what: PlaceCall,
        place: Place,
    },
    Of {
        what: DocumentCall,
        uri: RcStr,
    },
    /// The code actions round a range.
    Actions {
        uri: RcStr,
        range: Range,
        kinds: Kinds,
    },
}

/// A change of a text: what goes in place of a range, or of the whole.
#[derive(Drop)]
pub struct Change {
    pub range: Option<Range>,
    pub text: RcStr,
}

/// What a notification says. A version is a number that the editor gives a text.
#[derive(Drop)]
pub enum Notice {
    Opened {
        uri: RcStr,
        text: RcStr,
        version: Option<i32>,
    },
    /// The changes are made one after another.
    Changed {
        uri: RcStr,
        changes: Vec<Change>,
        version: Option<i32>,
    },
    Closed {
        uri: RcStr,
    },
    Exit,
}

/// A number that is no float.
#[derive(Drop)]
pub struct Integer {
    pub number: Number,
    pub ghost whole: { is_float (number_view number) ≡ false },
}

/// What an editor calls a request: a text or an integer.
#[derive(Drop)]
pub enum Id {
    Text(RcStr),
    Number(Integer),
}

/// Why a message has an error in place of an answer.
#[derive(Drop)]
pub enum Refusal {
    /// The body is no JSON value.
    Parse,
    /// The value is no message.
    Invalid,
    /// No request has this method.
    UnknownMethod(Id),
    /// What the method wants isn't in the request, or is of another kind.
    BadParams(Id),
}

/// What a body says.
#[derive(Drop)]
pub enum Message {
    Request { id: Id, call: Call },
    Notice(Notice),
    Refused(Refusal),
    /// Nothing comes of it: an answer of the editor's, or a notification that the service doesn't know.
    Ignored,
}
