//! What is put for a message, as values.
use lsp_front::{Choices, HoverForm, Id, Position, Range};
use text_terms::RcStr;

/// How grave a fault is.
#[derive(Clone, Copy, Debug, PartialEq, Eq)]
pub enum Severity {
    Error,
    Warning,
}

/// A fault of a text, or of a document that isn't read, which has no kind.
#[derive(Drop)]
pub struct Diagnostic {
    pub kind: Option<RcStr>,
    pub message: RcStr,
    pub range: Range,
    pub severity: Severity,
}

/// What a completed name stands for.
#[derive(Clone, Copy, Debug, PartialEq, Eq)]
pub enum ItemKind {
    Value,
    Constructor,
    Label,
    Type,
    Module,
    ModuleType,
}

/// A name that a word may become.
#[derive(Drop)]
pub struct Completion {
    /// Its type; empty where it has none.
    pub detail: RcStr,
    pub kind: ItemKind,
    pub name: RcStr,
}

/// What an item of a text binds.
#[derive(Clone, Copy, Debug, PartialEq, Eq)]
pub enum SymbolKind {
    Value,
    Type,
    Exception,
    Module,
    ModuleType,
}

/// A bound name, with what stands inside.
#[cycle(symbol)]
#[derive(Drop)]
pub struct Symbol {
    pub kind: SymbolKind,
    pub name: RcStr,
    /// The range of its item.
    pub range: Range,
    /// The range of the name.
    pub selection: Range,
    pub children: Vec<Symbol>,
}

/// A change that is proposed: a text that goes in place of a range.
#[derive(Drop)]
pub enum Action {
    /// The cases of what stands there.
    Cases { text: RcStr, range: Range },
    /// A term for what is missing there.
    Term { text: RcStr, range: Range },
}

/// What a request is answered.
#[derive(Drop)]
pub enum Answered {
    Null,
    Chosen(Choices),
    Hovered {
        form: HoverForm,
        text: RcStr,
        range: Range,
    },
    Completed {
        names: Vec<Completion>,
        /// Whether there are others.
        more: bool,
        /// The range of the word that the names may replace.
        word: Range,
    },
    Located {
        uri: RcStr,
        at: Position,
    },
    Used {
        uri: RcStr,
        ranges: Vec<Range>,
    },
    Highlighted(Vec<Range>),
    Outlined(Vec<Symbol>),
    Proposed {
        uri: RcStr,
        actions: Vec<Action>,
    },
    Reported(Vec<Diagnostic>),
}

/// Why a message has an error.
#[derive(Clone, Copy, Debug, PartialEq, Eq)]
pub enum Wrong {
    /// The body is no JSON value.
    NoJson,
    /// The value is no message.
    NoMessage,
    /// The body was too long and is passed over.
    TooLong,
    /// No request has this method.
    NoSuchMethod,
    /// What the method wants isn't there.
    Params,
    /// Want of memory.
    Memory,
}

/// What is put by one `put`.
#[derive(Drop)]
pub enum Answer {
    Result {
        id: Id,
        result: Answered,
    },
    /// Without an id where the message is no request.
    Error {
        id: Option<Id>,
        wrong: Wrong,
    },
    /// The diagnostics of a document, with the version of its text.
    Published {
        uri: RcStr,
        version: Option<i32>,
        list: Vec<Diagnostic>,
    },
}
