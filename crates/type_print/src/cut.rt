//! The cut of a long text.
ghost use Rattle.std.specs.Prelude.{◌≡◌, ◌++◌, ◌<◌, length, take, codes, string_bytes, IfOk, OnOk};
ghost use Rattle.text_terms.specs.Bytes.{str_bytes};
ghost use Rattle.type_print_model.specs.Printing.{cut, most_shown};
ghost use Rattle.std.specs.Str.{IsCharBoundary};
ghost use Rattle.type_print.specs.Texts.{IsCuttable};

use std::alloc::Global;
use text_terms::{NoMemory, RcStr};

/// The most bytes of a type's text that are shown.
pub(crate) const MOST_SHOWN: usize = 4096;

/// A text over the most that is shown is cut there, and three points follow; where that is inside a character, it is cut before it.
pub(crate) fn cut(alloc: Global, text: String) -> Result<RcStr, NoMemory>
    ensures { IfOk result (λ r. IsCuttable (string_bytes text) → str_bytes r ≡ cut (string_bytes text)) }
{
    if text.len() <= MOST_SHOWN {
        return RcStr::new(alloc, text);
    }
    shortened(alloc, front(&text))
}

fn front(text: &str) -> &str
    requires { most_shown < length text.now }
    ensures { IsCharBoundary text.now most_shown → result.now ≡ take most_shown text.now }
{
    if text.is_char_boundary(MOST_SHOWN) {
        return &text[..MOST_SHOWN];
    }
    for end in [MOST_SHOWN - 1, MOST_SHOWN - 2, MOST_SHOWN - 3] {
        if let Some(shown) = text.get(..end) {
            return shown;
        }
    }
    ""
}

fn shortened(alloc: Global, shown: &str) -> Result<RcStr, NoMemory>
    ensures { IfOk result (λ r. str_bytes r ≡ shown.now ++ codes "...") }
{
    let mut text = String::new(alloc);
    push(&mut text, shown)?;
    push(&mut text, "...")?;
    RcStr::new(alloc, text)
}

pub(crate) fn push(text: &mut String, more: &str) -> Result<(), NoMemory>
    ensures { OnOk result (string_bytes text.new ≡ string_bytes text.old ++ more.now) }
{
    text.push_str(more)
}
