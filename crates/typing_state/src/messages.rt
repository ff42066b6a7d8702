//! The messages of faults.
ghost use Rattle.std.specs.Prelude.{◌≡◌, IfOk, IsOk, string_bytes};
ghost use Rattle.text_terms.specs.Bytes.{str_bytes};
ghost use Rattle.typing_state.specs.Messages.{word_text};

use std::alloc::{AllocError, Global};
use text_terms::RcStr;
use type_nodes::NoMemory;

/// The kinds of names in messages.
#[derive(Clone, Copy)]
pub enum Word {
    Value,
    Constructor,
    Label,
    Type,
    TypeVariable,
    Module,
    ModuleType,
}

impl Word {
    pub fn text(self) -> &'static str
        ensures { result.now ≡ word_text self }
    {
        match self {
            Word::Value => "value",
            Word::Constructor => "constructor",
            Word::Label => "label",
            Word::Type => "type",
            Word::TypeVariable => "type variable",
            Word::Module => "module",
            Word::ModuleType => "module type",
        }
    }
}

/// A text as the message of a fault.
pub(crate) fn message(
    text: Result<String, std::alloc::AllocError>,
    alloc: Global,
) -> Result<RcStr, NoMemory>
    ensures { IfOk result (λ r. IsOk text × IfOk text (λ t. str_bytes r ≡ string_bytes t)) }
{
    match text {
        Ok(text) => RcStr::new(alloc, text),
        Err(_) => Err(AllocError),
    }
}
