//! Parts and frames with one owner more, and on others.
ghost use Rattle.std.specs.Prelude.{◌≡◌, ◌∷◌, IfOk};
ghost use Rattle.syntax_tree.specs.View.{part_view};
ghost use Rattle.parse_frames.specs.Frames.{frame, frames_running, running_notes};
ghost use Rattle.parse_frames.specs.declared.frames.Level.{out-Level};
ghost use Rattle.parse_frames.specs.View.{frames_notes, frames_view, level_notes, level_view, parts_notes, parts_view};

use crate::nodes::{count_of_part, count_of_parts, height_of_part, height_of_parts};
use crate::{Cell, Frames, Level, Parts};
use std::alloc::{AllocError, Global};
use std::rc::Rc;
use syntax_tree::{NoMemory, Part};

/// The same part, shared.
pub(crate) fn share_part(part: &Part) -> Result<Part, NoMemory>
    ensures { IfOk result (λ r. part_view r ≡ part_view part.now) }
{
    match part {
        Part::Taken(token) => Ok(Part::Taken(token.share()?)),
        Part::Inner(node) => match Rc::clone(node) {
            Ok(node) => Ok(Part::Inner(node)),
            Err(_) => Err(AllocError),
        },
        Part::Missing(span) => Ok(Part::Missing(*span)),
    }
}

/// The same parts, shared.
pub(crate) fn share_parts(parts: &Parts) -> Result<Parts, NoMemory>
    ensures parts { IfOk result (λ r. parts_view r ≡ parts_view parts.now) }
    ensures heights { IfOk result (λ r. parts_notes r ≡ parts_notes parts.now) }
{
    match parts {
        None => Ok(None),
        Some(cell) => match Rc::clone(cell) {
            Ok(cell) => Ok(Some(cell)),
            Err(_) => Err(AllocError),
        },
    }
}

/// The same frames, shared.
pub(crate) fn share_frames(frames: &Frames) -> Result<Frames, NoMemory>
    ensures frames { IfOk result (λ r. frames_view r ≡ frames_view frames.now) }
    ensures heights { IfOk result (λ r. frames_notes r ≡ frames_notes frames.now) }
{
    match frames {
        None => Ok(None),
        Some(level) => match Rc::clone(level) {
            Ok(level) => Ok(Some(level)),
            Err(_) => Err(AllocError),
        },
    }
}

/// The frames below a frame, shared.
#[tactic(auto, using(crate::proofs::Heights::below_told))]
pub(crate) fn share_below(level: &Level) -> Result<Frames, NoMemory>
    requires told { level_notes level.now ≡ frames_running (level_view level.now) }
    ensures frames { IfOk result (λ r. frames_view r ≡ frames_view (out-Level level.now).below) }
    ensures told { IfOk result (λ r. frames_notes r ≡ frames_running (frames_view r)) }
{
    share_frames(&level.below)
}

/// Parts with one more.
pub(crate) fn push_part(
    alloc: Global,
    before: Parts,
    slot: u8,
    part: Part,
) -> Result<Parts, NoMemory>
    requires told { parts_notes before ≡ running_notes (parts_view before) }
    ensures parts { IfOk result (λ r. parts_view r ≡ (slot, part_view part) ∷ parts_view before) }
    ensures told { IfOk result (λ r. parts_notes r ≡ running_notes (parts_view r)) }
{
    let cell = Cell {
        slot,
        height: height_of_part(&part).max(height_of_parts(&before)),
        nodes: count_of_parts(&before).saturating_add(count_of_part(&part)),
        part,
        before,
    };
    match Rc::new(alloc, cell) {
        Ok(cell) => Ok(Some(cell)),
        Err(_) => Err(AllocError),
    }
}

/// A frame that waits, on others.
pub(crate) fn push_frame(
    alloc: Global,
    number: u8,
    spot: u8,
    parts: Parts,
    below: Frames,
) -> Result<Frames, NoMemory>
    requires told { parts_notes parts ≡ running_notes (parts_view parts) }
    requires below { frames_notes below ≡ frames_running (frames_view below) }
    ensures frames { IfOk result (λ r. frames_view r ≡ frame number spot (parts_view parts) ∷ frames_view below) }
    ensures told { IfOk result (λ r. frames_notes r ≡ frames_running (frames_view r)) }
{
    let level = Level {
        number,
        spot,
        parts,
        below,
    };
    match Rc::new(alloc, level) {
        Ok(level) => Ok(Some(level)),
        Err(_) => Err(AllocError),
    }
}
