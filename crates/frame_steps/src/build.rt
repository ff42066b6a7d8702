//! What is done with frames: parts are missed, frames are closed, and a token is taken.
ghost use Rattle.std.specs.Prelude.{◌≡◌, ◌<◌, ◌≤◌, ◌+◌, ◌*◌, ◌-◌, ◌^◌, ℕ, ◌∷◌, length, IfOk, true};
ghost use Rattle.grammar_model.specs.Keys.{key_of};
ghost use Rattle.grammar_model.specs.Machine as machine;
ghost use Rattle.recovery_model.specs.Numbers as numbers;
ghost use Rattle.grammar_model.specs.Ocaml.{row_name};
ghost use Rattle.recovery_model.specs.Steps as recovery;
ghost use Rattle.grammar_model.specs.Tables.{takes, first_place, nowhere, growth};
ghost use Rattle.syntax_tree.specs.View.{tok_of};
ghost use Rattle.syntax_rows.specs.Numbers.{key_number, sort_number};
ghost use Rattle.syntax_rows.specs.View.{place_of, way_of};
ghost use Rattle.parse_frames.specs.Frames as plain;
ghost use Rattle.parse_frames.specs.Named.{IsNamed, openings};
ghost use Rattle.parse_frames.specs.Stacks.{stack_view};
ghost use Rattle.frame_steps.specs.Course.{out, out_holes, past_way, past_musts, past_holes, taken_to};
ghost use Rattle.frame_steps.specs.View.{text_table, Stands, Standing};

use crate::rules::{Wanted, must_come, row_begun, row_grown, row_named, spot_begun, wanted_at};
use parse_frames::Stack as FrameStack;
use std::alloc::Global;
use syntax_rows::{Key, Place, Sort, Text, Way};
use syntax_tree::{NoMemory, Token};

/// Frames, and how many parts were missing.
#[derive(Drop)]
pub(crate) struct Filled {
    pub frames: FrameStack,
    pub holes: u32,
}

/// The part at a spot of the innermost frame is missing.
fn miss(alloc: Global, text: Text, frames: &FrameStack, spot: u8) -> Result<FrameStack, NoMemory>
    ensures { IfOk result (λ r. stack_view r ≡ plain.with_missing spot (numbers.hole_in ((text_table text).what (stack_view frames.now).top.number spot)) (stack_view frames.now)) }
{
    match wanted_at(text, frames.number(), spot) {
        Wanted::Operand(_) => frames.miss_operand(alloc, spot),
        Wanted::Token => frames.miss_token(alloc, spot),
        Wanted::Nothing => frames.miss_token(alloc, spot),
    }
}

/// The innermost frame with each part that must be there, at most so many.
pub(crate) fn fill(
    alloc: Global,
    text: Text,
    frames: FrameStack,
    most: u8,
) -> Result<Filled, NoMemory>
    ensures filled { IfOk result (λ r. (f : machine.Frame) (S : machine.Stack) (at : ℕ) → IsNamed (text_table text) row_name (f ∷ S) at (stack_view frames)
        → IsNamed (text_table text) row_name ((recovery.filled most (text_table text) f at).0 ∷ S) at (stack_view r.frames) × (r.holes ≡ (recovery.filled most (text_table text) f at).1)) }
    ensures few { IfOk result (λ r. r.holes ≤ most) }
{
    if most == 0 {
        return Ok(Filled { frames, holes: 0 });
    }
    match must_come(text, frames.number(), frames.spot()) {
        None => Ok(Filled { frames, holes: 0 }),
        Some(spot) => {
            let missed = miss(alloc, text, &frames, spot)?;
            let filled = fill(alloc, text, missed, most - 1)?;
            Ok(Filled {
                frames: filled.frames,
                holes: filled.holes + 1,
            })
        }
    }
}

/// The innermost frame is closed with its missing parts, on those below it.
fn close_one(alloc: Global, text: Text, frames: FrameStack) -> Result<Filled, NoMemory>
    requires standing { Standing text (stack_view frames) }
    ensures closed { IfOk result (λ r. (f g : machine.Frame) (S : machine.Stack) (at : ℕ) → Stands text (f ∷ g ∷ S) at (stack_view frames)
        → Stands text (machine.put (recovery.filled recovery.most_parts (text_table text) f at).0 g ∷ S) at (stack_view r.frames)
        × (r.holes ≡ (recovery.filled recovery.most_parts (text_table text) f at).1)) }
    ensures few { IfOk result (λ r. r.holes ≤ 16) }
{
    let filled = fill(alloc, text, frames, 16)?;
    let name = row_named(filled.frames.number());
    match filled.frames.close(alloc, name)? {
        None => Ok(filled),
        Some(frames) => Ok(Filled {
            frames,
            holes: filled.holes,
        }),
    }
}

/// So many frames are closed with their missing parts.
pub(crate) fn close_frames(
    alloc: Global,
    text: Text,
    frames: FrameStack,
    count: u32,
) -> Result<Filled, NoMemory>
    requires standing { Standing text (stack_view frames) }
    requires enough { count ≤ length (stack_view frames).below }
    ensures closed { IfOk result (λ r. (f : machine.Frame) (S : machine.Stack) (at : ℕ) → Stands text (f ∷ S) at (stack_view frames)
        → Stands text ((out count (text_table text) f S at).0 ∷ (out count (text_table text) f S at).1) at (stack_view r.frames) × (r.holes ≡ out_holes count (text_table text) f S at)) }
    ensures few { IfOk result (λ r. r.holes ≤ 16 * count) }
{
    if count == 0 {
        return Ok(Filled { frames, holes: 0 });
    }
    let closed = close_one(alloc, text, frames)?;
    let rest = close_frames(alloc, text, closed.frames, count - 1)?;
    Ok(Filled {
        frames: rest.frames,
        holes: closed.holes + rest.holes,
    })
}

/// The innermost frame with so many of the parts that must come missing.
fn miss_musts(
    alloc: Global,
    text: Text,
    frames: FrameStack,
    musts: u8,
) -> Result<FrameStack, NoMemory>
    ensures { IfOk result (λ r. (f : machine.Frame) (S : machine.Stack) (at : ℕ) → IsNamed (text_table text) row_name (f ∷ S) at (stack_view frames)
        → IsNamed (text_table text) row_name (past_musts musts (text_table text) f at ∷ S) at (stack_view r)) }
{
    if musts == 0 {
        return Ok(frames);
    }
    match must_come(text, frames.number(), frames.spot()) {
        None => Ok(frames),
        Some(spot) => miss_musts(alloc, text, miss(alloc, text, &frames, spot)?, musts - 1),
    }
}

/// The innermost frame past the missing parts of a way.
pub(crate) fn miss_way(
    alloc: Global,
    text: Text,
    frames: FrameStack,
    way: Way,
) -> Result<FrameStack, NoMemory>
    ensures { IfOk result (λ r. (f : machine.Frame) (S : machine.Stack) (at : ℕ) → IsNamed (text_table text) row_name (f ∷ S) at (stack_view frames)
        → IsNamed (text_table text) row_name (past_way (way_of way) (text_table text) f at ∷ S) at (stack_view r)) }
{
    let missed = miss_musts(alloc, text, frames, way.musts)?;
    match way.past {
        None => Ok(missed),
        Some(spot) => miss(alloc, text, &missed, spot),
    }
}

/// How many parts are missing by a way.
pub(crate) fn holes_of(way: Way) -> u32
    ensures { result ≡ way.musts + past_holes way.past }
{
    match way.past {
        None => u32::from(way.musts),
        Some(_) => u32::from(way.musts) + 1,
    }
}

/// A token begins an operand of a sort, at a spot of the innermost frame.
fn begin(
    alloc: Global,
    text: Text,
    frames: &FrameStack,
    spot: u8,
    sort: Sort,
    token: &Token,
) -> Result<FrameStack, NoMemory>
    requires room { length (stack_view frames.now).below + length ((text_table text).chain (sort_number sort) (key_of (tok_of token.now))) < 2 ^ 32 - 1 }
    ensures { IfOk result (λ r. stack_view r ≡ plain.begun spot (openings (text_table text) ((text_table text).chain (sort_number sort) (key_of (tok_of token.now)))) (tok_of token.now) (stack_view frames.now)) }
{
    match row_begun(text, sort, Key::of(token)) {
        None => frames.take_token(alloc, frames.spot(), token),
        Some(row) => {
            let first = spot_begun(text, row);
            let opened = frames.open(alloc, spot, row, first)?;
            match wanted_at(text, row, first) {
                Wanted::Operand(inner) => begin(alloc, text, &opened, first, inner, token),
                Wanted::Token => opened.take_token(alloc, first, token),
                Wanted::Nothing => opened.take_token(alloc, first, token),
            }
        }
    }
}

/// A token stands at, or begins, the part at a spot of the innermost frame.
fn start(
    alloc: Global,
    text: Text,
    frames: &FrameStack,
    spot: u8,
    token: &Token,
) -> Result<FrameStack, NoMemory>
    requires room { length (stack_view frames.now).below < 2 ^ 31 }
    requires takes { takes (text_table text) ((text_table text).what (stack_view frames.now).top.number spot) (key_of (tok_of token.now)) ≡ true }
    ensures { IfOk result (λ r. (f : machine.Frame) (S : machine.Stack) (at : ℕ) → IsNamed (text_table text) row_name (f ∷ S) at (stack_view frames.now)
        → IsNamed (text_table text) row_name (machine.start_at (text_table text) f spot (tok_of token.now) S) (tok_of token.now).end (stack_view r)) }
{
    match wanted_at(text, frames.number(), spot) {
        Wanted::Operand(sort) => begin(alloc, text, frames, spot, sort, token),
        Wanted::Token => frames.take_token(alloc, spot, token),
        Wanted::Nothing => frames.take_token(alloc, spot, token),
    }
}

/// A token grows the innermost frame's newest part.
fn grow(
    alloc: Global,
    text: Text,
    frames: &FrameStack,
    token: &Token,
) -> Result<FrameStack, NoMemory>
    requires room { length (stack_view frames.now).below < 2 ^ 30 }
    requires place { first_place (text_table text) (stack_view frames.now).top.number (stack_view frames.now).top.spot (stack_view frames.now).last (key_of (tok_of token.now)) ≡ growth }
    ensures { IfOk result (λ r. (f : machine.Frame) (S : machine.Stack) (at : ℕ) → IsNamed (text_table text) row_name (f ∷ S) at (stack_view frames.now)
        → IsNamed (text_table text) row_name (taken_to (text_table text) growth f S (tok_of token.now)) (tok_of token.now).end (stack_view r)) }
{
    match row_grown(text, frames.number(), frames.spot(), Key::of(token)) {
        None => frames.share(),
        Some(row) => match frames.grow(alloc, row)? {
            None => frames.share(),
            Some(grown) => start(alloc, text, &grown, spot_begun(text, row), token),
        },
    }
}

/// A token is taken at its place of the innermost frame.
pub(crate) fn take(
    alloc: Global,
    text: Text,
    frames: &FrameStack,
    place: Place,
    token: &Token,
) -> Result<FrameStack, NoMemory>
    requires room { length (stack_view frames.now).below < 2 ^ 30 }
    requires place { first_place (text_table text) (stack_view frames.now).top.number (stack_view frames.now).top.spot (stack_view frames.now).last (key_of (tok_of token.now)) ≡ place_of place }
    requires some { place_of place ≡ nowhere → ⊥ }
    ensures { IfOk result (λ r. (f : machine.Frame) (S : machine.Stack) (at : ℕ) → IsNamed (text_table text) row_name (f ∷ S) at (stack_view frames.now)
        → IsNamed (text_table text) row_name (taken_to (text_table text) (place_of place) f S (tok_of token.now)) (tok_of token.now).end (stack_view r)) }
{
    match place {
        Place::Nowhere => frames.share(),
        Place::AtSpot(spot) => start(alloc, text, frames, spot, token),
        Place::Growth => grow(alloc, text, frames, token),
    }
}
