//! Stacks, the parser's faults, and what the calls give.
ghost use Rattle.std.specs.Prelude.{◌≡◌, Some, None};
ghost use Rattle.recovery_model.specs.Numbers.{none, find_fit, find_out};
ghost use Rattle.grammar_model.specs.Ocaml.{grammar};
ghost use Rattle.syntax_rows.specs.Numbers.{key_number};
ghost use Rattle.syntax_rows.specs.View.{text_of};
ghost use Rattle.syntax_rows.specs.declared.keys.Key.{Key as CodeKey};
ghost use Rattle.parse_frames.specs.Stacks.{stack_view};
ghost use Rattle.frame_steps.specs.Course.{bare};

use parse_frames::Stack as FrameStack;
use syntax_rows::{Key, Text};
use syntax_tree::{Span, Tree};

/// A token that didn't fit, or the end of the text where parts are missing.
#[derive(Clone, Copy, Debug, PartialEq, Eq)]
pub enum SyntaxFault {
    /// So many parts are missing at this place, in bytes from 0.
    Added { place: u32, holes: u32 },
    /// The token there fits nowhere and is left out.
    Skipped { span: Span },
    /// The token there is nested too deeply and is left out.
    TooDeep { span: Span },
    /// An item ends at this place, in bytes from 0, though it could go on.
    Cut { place: u32 },
}

/// The rows in progress behind some tokens of a text. It is never written, and stacks share their frames.
#[derive(Drop)]
pub struct Stack {
    pub(crate) text: Text,
    pub(crate) frames: FrameStack,
    /// The key of the last token that was skipped on these frames: another one of that key is skipped too.
    pub(crate) refused: Option<Key>,
    ghost no_fit: { (k : CodeKey) → refused ≡ Some k
        → find_fit (grammar (text_of text)) (stack_view frames).top.number (stack_view frames).top.spot (stack_view frames).last (bare (stack_view frames).below) (key_number k) ≡ none },
    ghost no_out: { (k : CodeKey) → refused ≡ Some k
        → find_out (grammar (text_of text)) (stack_view frames).top.number (stack_view frames).top.spot (stack_view frames).last (bare (stack_view frames).below) (key_number k) ≡ None },
}

/// The stack behind one token more, and the token's fault, if it has one.
#[derive(Drop)]
pub struct Stepped {
    pub stack: Stack,
    pub fault: Option<SyntaxFault>,
}

/// The tree of the tokens on a stack, and how many parts are missing at its end.
#[derive(Drop)]
pub struct Whole {
    pub tree: Tree,
    pub holes: u32,
}
