//! The pieces that a type's text is made of.
ghost use Rattle.std.specs.Prelude.{◌≡◌, [], ◌∷◌, ◌++◌, codes, OnOk, IfSome, IfNone};
ghost use Rattle.type_nodes.specs.Views.{numbers};
ghost use Rattle.type_print.specs.Pieces.{a_text, part_of, parts_of, within_of, text_of_sign, rest_parts, list_parts, arrow_alone, arrow_parts, tuple_parts, argument_parts, a_head};

use std::alloc::AllocError;
use type_nodes::{NoMemory, NodeRef};

/// Where a type stands in another, which decides on its parentheses.
#[derive(Clone, Copy, PartialEq, Eq)]
pub(crate) enum Within {
    Alone,
    LeftOfArrow,
    /// A part of a tuple, or the one argument of a constructor.
    Inner,
}

/// What stands between types.
#[derive(Clone, Copy)]
pub(crate) enum Sign {
    Open,
    Close,
    Arrow,
    Star,
    Comma,
    Blank,
}

/// A piece of a text that is still to be written.
#[derive(Clone, Copy)]
pub(crate) enum Piece {
    Type(NodeRef, Within),
    /// The name of the constructor that a node reads as.
    Head(NodeRef),
    Sign(Sign),
}

impl Sign {
    pub(crate) fn text(self) -> &'static str
        ensures { result.now ≡ text_of_sign self }
    {
        match self {
            Sign::Open => "(",
            Sign::Close => ")",
            Sign::Arrow => " -> ",
            Sign::Star => " * ",
            Sign::Comma => ", ",
            Sign::Blank => " ",
        }
    }
}

/// Pieces that are still to be written, the next one last.
#[derive(Drop)]
pub(crate) struct Pieces {
    pub(crate) list: Vec<Piece>,
}

impl Pieces {
    pub(crate) fn add(&mut self, piece: Piece) -> Result<(), NoMemory>
        ensures { OnOk result (parts_of self.new ≡ part_of piece ∷ parts_of self.old) }
    {
        self.list.push(piece).map_err(|_| AllocError)
    }

    pub(crate) fn take_next(&mut self) -> Option<Piece>
        ensures some { IfSome result (λ p. parts_of self.old ≡ part_of p ∷ parts_of self.new) }
        ensures none { IfNone result (parts_of self.old ≡ []) }
    {
        self.list.pop()
    }

    /// Types with a sign between them.
    pub(crate) fn add_types(
        &mut self,
        types: &[NodeRef],
        within: Within,
        between: Sign,
    ) -> Result<(), NoMemory>
        ensures { OnOk result (parts_of self.new ≡ list_parts (within_of within) (text_of_sign between) (numbers types.now) ++ parts_of self.old) }
    {
        match types {
            [] => Ok(()),
            [first, rest @ ..] => {
                self.add_rest(rest, within, between)?;
                self.add(Piece::Type(*first, within))
            }
        }
    }

    fn add_rest(&mut self, types: &[NodeRef], within: Within, between: Sign) -> Result<(), NoMemory>
        ensures { OnOk result (parts_of self.new ≡ rest_parts (within_of within) (text_of_sign between) (numbers types.now) ++ parts_of self.old) }
    {
        let mut k = types.len();
        while k > 0 {
            k -= 1;
            self.add(Piece::Type(types[k], within))?;
            self.add(Piece::Sign(between))?;
        }
        Ok(())
    }

    /// An arrow.
    pub(crate) fn add_arrow(
        &mut self,
        from: NodeRef,
        to: NodeRef,
        within: Within,
    ) -> Result<(), NoMemory>
        ensures { OnOk result (parts_of self.new ≡ arrow_parts (within_of within) from.0 to.0 (parts_of self.old)) }
    {
        match within {
            Within::LeftOfArrow | Within::Inner => {
                self.add(Piece::Sign(Sign::Close))?;
                self.add_arrow_alone(from, to)?;
                self.add(Piece::Sign(Sign::Open))
            }
            Within::Alone => self.add_arrow_alone(from, to),
        }
    }

    fn add_arrow_alone(&mut self, from: NodeRef, to: NodeRef) -> Result<(), NoMemory>
        ensures { OnOk result (parts_of self.new ≡ arrow_alone from.0 to.0 (parts_of self.old)) }
    {
        self.add(Piece::Type(to, Within::Alone))?;
        self.add(Piece::Sign(Sign::Arrow))?;
        self.add(Piece::Type(from, Within::LeftOfArrow))
    }

    /// A tuple.
    pub(crate) fn add_tuple(&mut self, parts: &[NodeRef], within: Within) -> Result<(), NoMemory>
        ensures { OnOk result (parts_of self.new ≡ tuple_parts (within_of within) (numbers parts.now) (parts_of self.old)) }
    {
        match within {
            Within::Inner => {
                self.add(Piece::Sign(Sign::Close))?;
                self.add_types(parts, Within::Inner, Sign::Star)?;
                self.add(Piece::Sign(Sign::Open))
            }
            Within::Alone | Within::LeftOfArrow => self.add_types(parts, Within::Inner, Sign::Star),
        }
    }

    /// The constructor that a node reads as, behind its arguments.
    pub(crate) fn add_constructor(
        &mut self,
        node: NodeRef,
        args: &[NodeRef],
    ) -> Result<(), NoMemory>
        ensures { OnOk result (parts_of self.new ≡ argument_parts (numbers args.now) (a_head node.0 ∷ parts_of self.old)) }
    {
        self.add(Piece::Head(node))?;
        match args {
            [] => Ok(()),
            [arg] => {
                self.add(Piece::Sign(Sign::Blank))?;
                self.add(Piece::Type(*arg, Within::Inner))
            }
            _ => {
                self.add(Piece::Sign(Sign::Blank))?;
                self.add(Piece::Sign(Sign::Close))?;
                self.add_types(args, Within::Alone, Sign::Comma)?;
                self.add(Piece::Sign(Sign::Open))
            }
        }
    }
}
