//! How deep a token would stand, told by the numbers of the frames before anything is built.
ghost use Rattle.std.specs.Prelude.{◌≡◌, ◌<◌, ◌≤◌, ◌+◌, ◌^◌, suc, ◌∷◌, ℕ, length, map};
ghost use Rattle.grammar_model.specs.Machine as machine;
ghost use Rattle.grammar_model.specs.Ocaml.{row_name};
ghost use Rattle.syntax_rows.specs.Numbers.{key_number, sort_number};
ghost use Rattle.syntax_rows.specs.View.{place_of, way_of};
ghost use Rattle.parse_frames.specs.Named.{named_frame};
ghost use Rattle.parse_frames.specs.Frames.{frames_running};
ghost use Rattle.parse_frames.specs.Stacks.{stack_view};
ghost use Rattle.parse_frames.specs.View.{frames_view, frames_notes};
ghost use Rattle.frame_steps.specs.Course.{opened_in, out, past_way, past_musts};
ghost use Rattle.frame_steps.specs.Course as plain;
ghost use Rattle.frame_steps.specs.Order.{AllLow, highest};
ghost use Rattle.frame_steps.specs.View.{course_view, text_table, IsTaker, Stands, Standing};

use crate::find::Course;
use crate::rules::{Wanted, must_come, row_begun, row_grown, spot_begun, wanted_at};
use parse_frames::{Frames, Stack as FrameStack, height_of_level};
use syntax_rows::{Key, Place, Sort, Text, Way};

/// The frame that takes a token, by its numbers.
#[derive(Clone, Copy, Debug, PartialEq, Eq)]
pub(crate) struct Taker {
    /// Its row.
    pub number: u8,
    /// The spot of its newest part.
    pub spot: u8,
    /// The height of its newest part.
    pub height: u16,
    /// How many frames are below it.
    pub below: u32,
}

/// The innermost frame once so many frames are closed.
fn taking_frame(text: Text, frames: &FrameStack, closed: u32) -> Taker
    requires standing { Standing text (stack_view frames.now) }
    requires enough { closed ≤ length (stack_view frames.now).below }
    ensures { (f : machine.Frame) (S : machine.Stack) (at : ℕ) → Stands text (f ∷ S) at (stack_view frames.now) → IsTaker result (out closed (text_table text) f S at) }
{
    let below = frames.waiting() - closed;
    if closed == 0 {
        return Taker {
            number: frames.number(),
            spot: frames.spot(),
            height: frames.newest_height(),
            below,
        };
    }
    let height = frames.height().saturating_add(1);
    frame_below(text, frames.below(), height, closed - 1, below)
}

/// The first of these frames, or the one below it once so many more are closed, where the frame further in makes a node
/// of this height.
fn frame_below(text: Text, frames: &Frames, height: u16, closed: u32, below: u32) -> Taker
    requires told { frames_notes frames.now ≡ frames_running (frames_view frames.now) }
    ensures { (f : machine.Frame) (S : machine.Stack) (at : ℕ) → map (named_frame row_name) S ≡ frames_view frames.now → AllLow (f ∷ S)
        → height ≡ highest f.done + 1 → below + closed + 1 ≡ length S → IsTaker result (out (suc closed) (text_table text) f S at) }
{
    match frames {
        None => Taker {
            number: 0,
            spot: 0,
            height,
            below,
        },
        Some(level) => {
            if closed == 0 {
                return Taker {
                    number: level.number,
                    spot: level.spot,
                    height,
                    below,
                };
            }
            let height = height.max(height_of_level(level)).saturating_add(1);
            frame_below(text, &level.below, height, closed - 1, below)
        }
    }
}

/// A frame with so many of the parts that must come missing.
fn past_musts(text: Text, taker: Taker, musts: u8) -> Taker
    ensures { (f : machine.Frame) (S : machine.Stack) (at : ℕ) → IsTaker taker (f, S) → IsTaker result (past_musts musts (text_table text) f at, S) }
{
    if musts == 0 {
        return taker;
    }
    match must_come(text, taker.number, taker.spot) {
        None => taker,
        Some(spot) => past_musts(text, missing_at(taker, spot), musts - 1),
    }
}

/// A frame with the part at a spot missing.
fn missing_at(taker: Taker, spot: u8) -> Taker
    ensures { result ≡ record { number = taker.number; spot = spot; height = 0; below = taker.below } }
{
    Taker {
        number: taker.number,
        spot,
        height: 0,
        below: taker.below,
    }
}

/// A frame past the missing parts of a way.
fn past_way(text: Text, taker: Taker, way: Way) -> Taker
    ensures { (f : machine.Frame) (S : machine.Stack) (at : ℕ) → IsTaker taker (f, S) → IsTaker result (past_way (way_of way) (text_table text) f at, S) }
{
    let behind = past_musts(text, taker, way.musts);
    match way.past {
        None => behind,
        Some(spot) => missing_at(behind, spot),
    }
}

/// How many frames a token of a key opens that begins an operand of a sort.
fn chain_length(text: Text, sort: Sort, key: Key) -> u32
    ensures length { result ≡ length ((text_table text).chain (sort_number sort) (key_number key)) }
    ensures few { result ≤ 4 }
{
    match row_begun(text, sort, key) {
        None => 0,
        Some(row) => match wanted_at(text, row, spot_begun(text, row)) {
            Wanted::Operand(inner) => chain_length(text, inner, key) + 1,
            Wanted::Token => 1,
            Wanted::Nothing => 1,
        },
    }
}

/// How many frames a token of a key opens that stands at, or begins, a part of a row.
fn opened_at(text: Text, row: u8, spot: u8, key: Key) -> u32
    ensures opened { result ≡ opened_in (text_table text) ((text_table text).what row spot) (key_number key) }
    ensures few { result ≤ 4 }
{
    match wanted_at(text, row, spot) {
        Wanted::Operand(sort) => chain_length(text, sort, key),
        Wanted::Token => 0,
        Wanted::Nothing => 0,
    }
}

/// How deep a token of a key stands that is taken at a place of a frame: the larger of the number of the last frame that
/// it opens, and of the number of its first one together with the height of that frame's left operand.
fn depth_at(text: Text, taker: Taker, place: Place, key: Key) -> u32
    requires few { taker.below < 2 ^ 31 }
    ensures { result ≡ plain.depth (text_table text) (place_of place) taker.number taker.spot taker.height taker.below (key_number key) }
{
    match place {
        Place::Nowhere => 0,
        Place::AtSpot(spot) => taker.below + 1 + opened_at(text, taker.number, spot, key),
        Place::Growth => match row_grown(text, taker.number, taker.spot, key) {
            None => 0,
            Some(row) => {
                let opened = opened_at(text, row, spot_begun(text, row), key);
                taker.below + 2 + u32::from(taker.height).max(opened)
            }
        },
    }
}

/// How deep a token of a key stands that is taken by a course.
pub(crate) fn depth_of(text: Text, frames: &FrameStack, course: Course, key: Key) -> u32
    requires standing { Standing text (stack_view frames.now) }
    requires enough { course.closed ≤ length (stack_view frames.now).below }
    ensures { (f : machine.Frame) (S : machine.Stack) (at : ℕ) → Stands text (f ∷ S) at (stack_view frames.now) → result ≡ plain.depth_of (text_table text) (course_view course) f S at (key_number key) }
{
    let taker = past_way(text, taking_frame(text, frames, course.closed), course.way);
    depth_at(text, taker, course.way.place, key)
}
