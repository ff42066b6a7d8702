//! Stacks of frames.
ghost use Rattle.std.specs.Prelude.{◌≡◌, length};
ghost use Rattle.grammar_model.specs.Named.{slot_of};
ghost use Rattle.parse_frames.specs.Frames as plain;
ghost use Rattle.parse_frames.specs.Frames.{frames_running, running_notes};
ghost use Rattle.parse_frames.specs.View.{frames_notes, frames_view, parts_notes, parts_view};

use crate::nodes::{
    count_of_parts, has_room, height_of_part, height_of_parts, node_over_parts, nodes_from,
};
use crate::share::{push_frame, push_part, share_below, share_frames, share_part, share_parts};
use crate::{Frames, Opening, Parts};
use std::alloc::Global;
use std::rc::Rc;
use syntax_rows::Last;
use syntax_tree::{NoMemory, Node, Part, RowName, Span, Token};

/// The innermost frame, those that wait below it, and the end of the last token taken.
/// It is never written: a call that takes a token or closes a frame makes a new stack,
/// which shares its frames and parts with the old one.
#[derive(Drop)]
pub struct Stack {
    number: u8,
    spot: u8,
    last: Last,
    parts: Parts,
    below: Frames,
    waiting: u32,
    place: u32,
    ghost counted: { waiting ≡ length (frames_view below) },
    ghost told: { parts_notes parts ≡ running_notes (parts_view parts) },
    ghost below_told: { frames_notes below ≡ frames_running (frames_view below) },
}

impl Stack {
    ghost use Rattle.std.specs.Prelude.{◌<◌, ◌+◌, ◌-◌, ◌^◌, ◌&&◌, nat_lt, map, drop, reverse, option_map, IfOk};
    ghost use Rattle.grammar_model.specs.Tables.{plain as no_operand, hole};
    ghost use Rattle.syntax_tree.specs.Names.{row_of};
    ghost use Rattle.syntax_tree.specs.View.{node_view, tok_of};
    ghost use Rattle.parse_frames.specs.Frames.{started, with_token, with_missing, opened, opened_chain, begun, count_in, heights_in, newest_height, nodes_in, outer_parts, sizes_in};
    ghost use Rattle.syntax_rows.specs.View.{last_of};
    ghost use Rattle.parse_frames.specs.View.{opening_view};
    ghost use Rattle.parse_frames.specs.Stacks.{stack_view};

    /// The stack of a text without tokens: one frame, of the row of a whole text.
    pub fn empty(root: u8) -> Stack
        ensures { stack_view result ≡ started root }
    {
        Stack {
            number: root,
            spot: 0,
            last: Last::Plain,
            parts: None,
            below: None,
            waiting: 0,
            place: 0,
        }
    }

    /// The number of the innermost frame's row.
    pub fn number(&self) -> u8
        ensures { result ≡ (stack_view self.now).top.number }
    {
        self.number
    }

    /// The spot of the innermost frame's newest part.
    pub fn spot(&self) -> u8
        ensures { result ≡ (stack_view self.now).top.spot }
    {
        self.spot
    }

    /// What the innermost frame's newest part is as an operand.
    pub fn last(&self) -> Last
        ensures { last_of result ≡ (stack_view self.now).last }
    {
        self.last
    }

    /// The frames that wait below the innermost one.
    pub fn below(&self) -> &Frames
        ensures frames { frames_view result.now ≡ (stack_view self.now).below }
        ensures told { frames_notes result.now ≡ frames_running (frames_view result.now) }
    {
        &self.below
    }

    /// How many frames wait below the innermost one.
    pub fn waiting(&self) -> u32
        ensures { result ≡ length (stack_view self.now).below }
    {
        self.waiting
    }

    /// The end of the last token taken, in bytes from 0; 0 where none was.
    pub fn place(&self) -> u32
        ensures { result ≡ (stack_view self.now).place }
    {
        self.place
    }

    /// A token stands at a spot of the innermost frame.
    pub fn take_token(&self, alloc: Global, spot: u8, token: &Token) -> Result<Stack, NoMemory>
        ensures { IfOk result (λ r. stack_view r ≡ with_token spot (tok_of token.now) (stack_view self.now)) }
    {
        let taken = Part::Taken(token.share()?);
        Ok(Stack {
            number: self.number,
            spot,
            last: Last::Plain,
            parts: push_part(alloc, share_parts(&self.parts)?, slot_of(spot), taken)?,
            below: share_frames(&self.below)?,
            waiting: self.waiting,
            place: token.span.end,
        })
    }

    /// The token at a spot of the innermost frame is missing.
    pub fn miss_token(&self, alloc: Global, spot: u8) -> Result<Stack, NoMemory>
        ensures { IfOk result (λ r. stack_view r ≡ with_missing spot no_operand (stack_view self.now)) }
    {
        self.miss(alloc, spot, Last::Plain)
    }

    /// The operand at a spot of the innermost frame is missing.
    pub fn miss_operand(&self, alloc: Global, spot: u8) -> Result<Stack, NoMemory>
        ensures { IfOk result (λ r. stack_view r ≡ with_missing spot hole (stack_view self.now)) }
    {
        self.miss(alloc, spot, Last::Hole)
    }

    fn miss(&self, alloc: Global, spot: u8, last: Last) -> Result<Stack, NoMemory>
        ensures { IfOk result (λ r. stack_view r ≡ with_missing spot (last_of last) (stack_view self.now)) }
    {
        let missing = Part::Missing(Span {
            start: self.place,
            end: self.place,
        });
        Ok(Stack {
            number: self.number,
            spot,
            last,
            parts: push_part(alloc, share_parts(&self.parts)?, slot_of(spot), missing)?,
            below: share_frames(&self.below)?,
            waiting: self.waiting,
            place: self.place,
        })
    }

    /// The innermost frame waits at a spot for a row, which begins at its own spot `first`.
    pub fn open(&self, alloc: Global, spot: u8, number: u8, first: u8) -> Result<Stack, NoMemory>
        requires room { length (stack_view self.now).below < 2 ^ 32 - 1 }
        ensures { IfOk result (λ r. stack_view r ≡ opened spot number first (stack_view self.now)) }
    {
        let below = push_frame(
            alloc,
            self.number,
            spot,
            share_parts(&self.parts)?,
            share_frames(&self.below)?,
        )?;
        Ok(Stack {
            number,
            spot: first,
            last: Last::Plain,
            parts: None,
            below,
            waiting: self.waiting + 1,
            place: self.place,
        })
    }

    /// The innermost frame waits at a spot for the first of these rows, and each of them but the last
    /// waits at its own first spot for the next: the rows that one token begins, from the outermost.
    pub fn open_chain(&self, alloc: Global, spot: u8, chain: &[Opening]) -> Result<Stack, NoMemory>
        requires room { length (stack_view self.now).below + length chain.now < 2 ^ 32 - 1 }
        ensures { IfOk result (λ r. stack_view r ≡ opened_chain spot (map opening_view chain.now) (stack_view self.now)) }
    {
        let mut stack = self.share()?;
        let mut at = spot;
        for opening in chain {
            stack = stack.open(alloc, at, opening.number, opening.first)?;
            at = opening.first;
        }
        Ok(stack)
    }

    /// A token begins the operand at a spot: the rows of the chain, from the outermost, of which the
    /// last one has the token at its first spot.
    pub fn begin(
        &self,
        alloc: Global,
        spot: u8,
        chain: &[Opening],
        token: &Token,
    ) -> Result<Stack, NoMemory>
        requires room { length (stack_view self.now).below + length chain.now < 2 ^ 32 - 1 }
        ensures { IfOk result (λ r. stack_view r ≡ begun spot (map opening_view chain.now) (tok_of token.now) (stack_view self.now)) }
    {
        let opened = self.open_chain(alloc, spot, chain)?;
        opened.take_token(alloc, opened.spot, token)
    }

    /// One more owner of the same frames.
    pub fn share(&self) -> Result<Stack, NoMemory>
        ensures { IfOk result (λ r. stack_view r ≡ stack_view self.now) }
    {
        Ok(Stack {
            number: self.number,
            spot: self.spot,
            last: self.last,
            parts: share_parts(&self.parts)?,
            below: share_frames(&self.below)?,
            waiting: self.waiting,
            place: self.place,
        })
    }

    /// The largest height of a node among the innermost frame's parts; 0 where there is none.
    pub fn height(&self) -> u16
        ensures { result ≡ heights_in (stack_view self.now).top.done }
    {
        height_of_parts(&self.parts)
    }

    /// The height of the innermost frame's newest part; 0 where it is no node, or there is none.
    pub fn newest_height(&self) -> u16
        ensures { result ≡ newest_height (stack_view self.now).top.done }
    {
        match &self.parts {
            None => 0,
            Some(cell) => height_of_part(&cell.part),
        }
    }

    /// Whether a node of a row of this name over the innermost frame's parts can tell its size and its height.
    pub fn has_room(&self, name: RowName) -> bool
        ensures { result ≡ (nat_lt (sizes_in (row_of name) (stack_view self.now).top.done) (2 ^ 32 - 1) && nat_lt (heights_in (stack_view self.now).top.done) (2 ^ 16 - 1)) }
    {
        has_room(name, &self.parts)
    }

    /// The parts of the outermost frame.
    fn outermost(&self) -> &Parts
        ensures parts { parts_view result.now ≡ outer_parts (stack_view self.now).top.done (stack_view self.now).below }
        ensures told { parts_notes result.now ≡ running_notes (parts_view result.now) }
    {
        let mut parts = &self.parts;
        let mut rest = &self.below;
        while let Some(level) = rest {
            parts = &level.parts;
            rest = &level.below;
        }
        parts
    }

    /// How many nodes there are among the outermost frame's parts, or 2^32 - 1 where there are more.
    pub fn items(&self) -> u32
        ensures { result ≡ count_in (outer_parts (stack_view self.now).top.done (stack_view self.now).below) }
    {
        count_of_parts(self.outermost())
    }

    /// The nodes among the innermost frame's parts but for so many of the first, in order.
    pub fn nodes_from(&self, alloc: Global, from: usize) -> Result<Vec<Rc<Node>>, NoMemory>
        ensures { IfOk result (λ r. length (nodes_in (stack_view self.now).top.done) < 2 ^ 32 - 1 → map (λ n. node_view n.value) r.items ≡ drop from (reverse (nodes_in (stack_view self.now).top.done))) }
    {
        nodes_from(alloc, from, &self.parts)
    }

    /// The node of the innermost frame, whose row has this name.
    pub fn node(&self, alloc: Global, name: RowName) -> Result<Rc<Node>, NoMemory>
        requires size { sizes_in (row_of name) (stack_view self.now).top.done < 2 ^ 32 - 1 }
        requires height { heights_in (stack_view self.now).top.done < 2 ^ 16 - 1 }
        ensures { IfOk result (λ r. node_view r.value ≡ plain.node_of (row_of name) (stack_view self.now).top) }
    {
        node_over_parts(alloc, name, &self.parts)
    }

    /// The innermost frame, whose row has this name, is closed: its node is the operand for which
    /// the frame below waits. None exactly where there is no frame below.
    pub fn close(&self, alloc: Global, name: RowName) -> Result<Option<Stack>, NoMemory>
        requires size { sizes_in (row_of name) (stack_view self.now).top.done < 2 ^ 32 - 1 }
        requires height { heights_in (stack_view self.now).top.done < 2 ^ 16 - 1 }
        ensures { IfOk result (λ r. option_map stack_view r ≡ plain.closed (row_of name) (stack_view self.now)) }
    {
        let Some(level) = &self.below else {
            return Ok(None);
        };
        let node = Part::Inner(self.node(alloc, name)?);
        Ok(Some(Stack {
            number: level.number,
            spot: level.spot,
            last: Last::Row(self.number),
            parts: push_part(alloc, share_parts(&level.parts)?, slot_of(level.spot), node)?,
            below: share_below(level)?,
            waiting: self.waiting - 1,
            place: self.place,
        }))
    }

    /// The innermost frame's newest part becomes the left operand of a row, which is the new
    /// innermost frame. None exactly where the innermost frame has no part.
    pub fn grow(&self, alloc: Global, number: u8) -> Result<Option<Stack>, NoMemory>
        requires room { length (stack_view self.now).below < 2 ^ 32 - 1 }
        ensures { IfOk result (λ r. option_map stack_view r ≡ plain.grown number (stack_view self.now)) }
    {
        let Some(cell) = &self.parts else {
            return Ok(None);
        };
        let below = push_frame(
            alloc,
            self.number,
            self.spot,
            share_parts(&cell.before)?,
            share_frames(&self.below)?,
        )?;
        Ok(Some(Stack {
            number,
            spot: 0,
            last: Last::Plain,
            parts: push_part(alloc, None, 0, share_part(&cell.part)?)?,
            below,
            waiting: self.waiting + 1,
            place: self.place,
        }))
    }
}

/// The slot of a spot: one less; the left operand, at spot 0, has slot 0.
fn slot_of(spot: u8) -> u8
    ensures { result ≡ slot_of spot }
{
    spot.saturating_sub(1)
}
