//! A stack begins, takes tokens one by one, and is closed.
ghost use Rattle.std.specs.Prelude.{◌≡◌, ◌<◌, ◌≤◌, ◌+◌, ◌∷◌, ◌-◌, ◌^◌, [], ℕ, length, drop, option_map, Some, IfOk, IsTrue};
ghost use Rattle.grammar_model.specs.Machine as machine;
ghost use Rattle.grammar_model.specs.Ocaml as ocaml;
ghost use Rattle.recovery_model.specs.Steps as recovery;
ghost use Rattle.settled_laws.specs.Settled.{inners, outer};
ghost use Rattle.syntax_tree.specs.View.{tok_of, trees_of};
ghost use Rattle.syntax_rows.specs.Numbers.{key_number};
ghost use Rattle.frame_steps.specs.Course.{IsRefused};
ghost use Rattle.parse_frames.specs.Frames.{nodes_in};
ghost use Rattle.grammar_model.specs.Named.{named, items_of};
ghost use Rattle.parse_frames.specs.Stacks.{stack_view};
ghost use Rattle.frame_steps.specs.View.{course_view, text_table, HasCourse, IsLeftOut, IsTakenBy, IsWhole, Stands, Standing, StepsTo};

use crate::build::{Filled, close_frames, fill, holes_of, miss_way, take};
use crate::deep::depth_of;
use crate::find::{Course, fitting_course, reaching_course};
use crate::stack::{Stack, Stepped, SyntaxFault, Whole};
use parse_frames::Stack as FrameStack;
use std::alloc::Global;
use syntax_rows::{Key, Text, grammar, number_of_key};
use syntax_tree::{NoMemory, Token, Tree};

/// The stack of a text without tokens.
pub fn begun(text: Text) -> Stack
    ensures text { result.text ≡ text }
    ensures stands { Stands text (machine.frame (text_table text).root 0 [] ∷ []) 0 (stack_view result.frames) }
{
    Stack {
        text,
        frames: FrameStack::empty(grammar(text).root),
        refused: None,
    }
}

/// The stack behind one token more, and the token's fault. The stack that is lent stays as it is.
pub fn put(alloc: Global, stack: &Stack, token: &Token) -> Result<Stepped, NoMemory>
    requires standing { Standing stack.now.text (stack_view stack.now.frames) }
    ensures { IfOk result (λ r. (f : machine.Frame) (S : machine.Stack) (at : ℕ) → Stands stack.now.text (f ∷ S) at (stack_view stack.now.frames)
        → StepsTo stack.now.text (recovery.step (text_table stack.now.text) (f ∷ S) at (tok_of token.now)) r) }
{
    let key = Key::of(token);
    if is_refused(stack, key) {
        return left_out(stack, SyntaxFault::Skipped { span: token.span });
    }
    match fitting_course(stack.text, &stack.frames, key) {
        Some(course) => match take_by(alloc, stack.text, &stack.frames, course, token)? {
            None => left_out(stack, SyntaxFault::TooDeep { span: token.span }),
            Some(taken) => Ok(moved(stack.text, taken.frames, None)),
        },
        None => match reaching_course(stack.text, &stack.frames, key) {
            None => refused(stack, key, SyntaxFault::Skipped { span: token.span }),
            Some(course) => match take_by(alloc, stack.text, &stack.frames, course, token)? {
                None => left_out(stack, SyntaxFault::TooDeep { span: token.span }),
                Some(taken) => {
                    let fault = SyntaxFault::Added {
                        place: stack.frames.place(),
                        holes: taken.holes,
                    };
                    Ok(moved(stack.text, taken.frames, Some(fault)))
                }
            },
        },
    }
}

/// Whether a token of the key is known to be skipped.
fn is_refused(stack: &Stack, key: Key) -> bool
    ensures { IsTrue result → IsRefused (text_table stack.now.text) (stack_view stack.now.frames) (key_number key) }
{
    match stack.refused {
        None => false,
        Some(refused) => number_of_key(refused) == number_of_key(key),
    }
}

/// A stack of these frames, and a fault that may be none.
fn moved(text: Text, frames: FrameStack, fault: Option<SyntaxFault>) -> Stepped
    ensures text { result.stack.text ≡ text }
    ensures frames { result.stack.frames ≡ frames }
    ensures fault { result.fault ≡ fault }
{
    Stepped {
        stack: Stack {
            text,
            frames,
            refused: None,
        },
        fault,
    }
}

/// The same stack, and a fault.
fn left_out(stack: &Stack, fault: SyntaxFault) -> Result<Stepped, NoMemory>
    ensures { IfOk result (λ r. IsLeftOut stack.now fault r) }
{
    Ok(Stepped {
        stack: Stack {
            text: stack.text,
            frames: stack.frames.share()?,
            refused: stack.refused,
        },
        fault: Some(fault),
    })
}

/// The same stack, which knows that tokens of the key are skipped, and a fault.
fn refused(stack: &Stack, key: Key, fault: SyntaxFault) -> Result<Stepped, NoMemory>
    requires refused { IsRefused (text_table stack.now.text) (stack_view stack.now.frames) (key_number key) }
    ensures { IfOk result (λ r. IsLeftOut stack.now fault r) }
{
    Ok(Stepped {
        stack: Stack {
            text: stack.text,
            frames: stack.frames.share()?,
            refused: Some(key),
        },
        fault: Some(fault),
    })
}

/// A token is taken by its course. None where it would be nested too deeply.
fn take_by(
    alloc: Global,
    text: Text,
    frames: &FrameStack,
    course: Course,
    token: &Token,
) -> Result<Option<Filled>, NoMemory>
    requires course { HasCourse text (course_view course) (tok_of token.now) (stack_view frames.now) }
    ensures { IfOk result (λ r. (f : machine.Frame) (S : machine.Stack) (at : ℕ) → Stands text (f ∷ S) at (stack_view frames.now) → IsTakenBy text (course_view course) f S at (tok_of token.now) r) }
{
    if depth_of(text, frames, course, Key::of(token)) > 512 {
        return Ok(None);
    }
    let closed = close_frames(alloc, text, frames.share()?, course.closed)?;
    let missed = miss_way(alloc, text, closed.frames, course.way)?;
    Ok(Some(Filled {
        frames: take(alloc, text, &missed, course.way.place, token)?,
        holes: closed.holes + holes_of(course.way),
    }))
}

/// The tree of the tokens on a stack without so many of its first items, and how many parts are missing at its end.
/// The stack that is lent stays as it is.
pub fn close_up(alloc: Global, stack: &Stack, from: usize) -> Result<Whole, NoMemory>
    requires standing { Standing stack.now.text (stack_view stack.now.frames) }
    ensures tree { IfOk result (λ r. (f : machine.Frame) (S : machine.Stack) (at : ℕ) → Stands stack.now.text (f ∷ S) at (stack_view stack.now.frames)
        → trees_of r.tree ≡ drop from (items_of (named ocaml.row_name (recovery.closed_up (text_table stack.now.text) f S at).0))) }
    ensures holes { IfOk result (λ r. (f : machine.Frame) (S : machine.Stack) (at : ℕ) → Stands stack.now.text (f ∷ S) at (stack_view stack.now.frames)
        → r.holes ≡ (recovery.closed_up (text_table stack.now.text) f S at).1) }
{
    let whole = close_all(alloc, stack)?;
    Ok(Whole {
        tree: Tree {
            items: whole.frames.nodes_from(alloc, from)?,
        },
        holes: whole.holes,
    })
}

/// How many items there are: the nodes among the outermost frame's parts.
pub fn count_items(stack: &Stack) -> u32
    ensures { (f : machine.Frame) (S : machine.Stack) (at : ℕ) → Stands stack.now.text (f ∷ S) at (stack_view stack.now.frames) → result ≡ length (inners (outer (f ∷ S)).done) }
{
    stack.frames.items()
}

/// All frames but the outermost are closed, and that one has each part that must be there.
fn close_all(alloc: Global, stack: &Stack) -> Result<Filled, NoMemory>
    requires standing { Standing stack.now.text (stack_view stack.now.frames) }
    ensures whole { IfOk result (λ r. (f : machine.Frame) (S : machine.Stack) (at : ℕ) → Stands stack.now.text (f ∷ S) at (stack_view stack.now.frames)
        → IsWhole stack.now.text f S at r) }
    ensures few { IfOk result (λ r. length (nodes_in (stack_view r.frames).top.done) < 2 ^ 32 - 1) }
{
    let frames = &stack.frames;
    let closed = close_frames(alloc, stack.text, frames.share()?, frames.waiting())?;
    let whole = fill(alloc, stack.text, closed.frames, 16)?;
    Ok(Filled {
        frames: whole.frames,
        holes: closed.holes + whole.holes,
    })
}
