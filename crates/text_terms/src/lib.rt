//! The words in which every layer speaks of a text: a position, a span of bytes, a text with many owners,
//! and want of memory. It stands on nothing of the repository.
//! Above, a contract sees a `Pos` and a `Span` as they are, and an `RcStr` as its bytes (`str_bytes`).
#![tactic(auto)]

ghost use Rattle.std.specs.Prelude.{◌≡◌, IfOk, string_bytes};
ghost use Rattle.std.specs.Str.{bytes_eq};
ghost use Rattle.text_terms.specs.Bytes.{str_bytes};

use std::alloc::{AllocError, Global};
use std::rc::Rc;

/// Want of memory: the library's own error of an allocation.
pub type NoMemory = AllocError;

/// A position: the line, from 1, and the column in bytes, from 0.
#[derive(Clone, Copy, Debug, PartialEq, Eq)]
pub struct Pos {
    pub line: u32,
    pub col: u32,
}

/// From the offset of the first byte to the offset behind the last, in bytes from 0.
#[derive(Clone, Copy, Debug, PartialEq, Eq)]
pub struct Span {
    pub start: u32,
    pub end: u32,
}

/// A text with many owners. It never changes, and sharing copies no byte.
#[derive(Drop)]
pub struct RcStr {
    text: Rc<String>,
}

impl RcStr {
    /// The first owner of a text.
    pub fn new(alloc: Global, text: String) -> Result<RcStr, NoMemory>
        ensures { IfOk result (λ r. str_bytes r ≡ string_bytes text) }
    {
        match Rc::new(alloc, text) {
            Ok(text) => Ok(RcStr { text }),
            Err(_) => Err(AllocError),
        }
    }

    /// The first owner of a copy of a text.
    pub fn from_str(alloc: Global, text: &str) -> Result<RcStr, NoMemory>
        ensures { IfOk result (λ r. str_bytes r ≡ text.now) }
    {
        match String::from_str(alloc, text) {
            Ok(text) => RcStr::new(alloc, text),
            Err(_) => Err(AllocError),
        }
    }

    pub fn as_str(&self) -> &str
        ensures { result.now ≡ str_bytes self.now }
    {
        self.text.as_str()
    }

    /// One more owner of the same text. `NoMemory` where there are too many owners to count.
    pub fn share(&self) -> Result<RcStr, NoMemory>
        ensures { IfOk result (λ r. str_bytes r ≡ str_bytes self.now) }
    {
        match self.text.clone() {
            Ok(text) => Ok(RcStr { text }),
            Err(_) => Err(AllocError),
        }
    }

    /// Whether the two texts have the same bytes.
    pub fn is(&self, text: &str) -> bool
        ensures { result ≡ bytes_eq (str_bytes self.now) text.now }
    {
        self.as_str() == text
    }
}
