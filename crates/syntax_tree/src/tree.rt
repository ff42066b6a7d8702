//! Tokens, and the trees that are made of them.
ghost use Rattle.std.specs.Prelude.{◌≡◌, IfOk};
ghost use Rattle.syntax_tree.specs.View.{tok_of};

use crate::{NoMemory, RcStr, RowName, Span, TokenKind};
use std::rc::Rc;

/// A token at its place.
#[derive(Drop)]
pub struct Token {
    pub kind: TokenKind,
    pub span: Span,
    /// The end of the bytes that decided the token, in bytes from 0.
    pub reach: u32,
    /// The bytes between the last line feed before it and it.
    pub col: u32,
    /// Its spelling; of a Qualifier without the point, of an OpName the operator alone.
    pub name: RcStr,
}

impl Token {
    /// The same token, with one more owner of its name.
    pub fn share(&self) -> Result<Token, NoMemory>
        ensures token { IfOk result (λ t. tok_of t ≡ tok_of self.now) }
        ensures reach { IfOk result (λ t. t.reach ≡ self.now.reach) }
    {
        Ok(Token {
            kind: self.kind,
            span: self.span,
            reach: self.reach,
            col: self.col,
            name: self.name.share()?,
        })
    }
}

/// A part of a row.
#[cycle(tree)]
#[derive(Drop)]
pub enum Part {
    Taken(Token),
    Inner(Rc<Node>),
    /// A part that must be there and isn't, at the end of the last token before it.
    Missing(Span),
}

/// A part, and its number in the row.
#[cycle(tree)]
#[derive(Drop)]
pub struct Child {
    pub slot: u8,
    pub part: Part,
}

/// A row with its parts in order.
#[cycle(tree)]
#[derive(Drop)]
pub struct Node {
    pub row: RowName,
    /// From the first to the last token.
    pub span: Span,
    /// One more than the largest height of the nodes among the parts.
    pub height: u16,
    /// The number of nodes and missing operands, itself included.
    pub size: u32,
    pub children: Vec<Child>,
}

/// The tree of a whole text: its items in order.
#[derive(Drop)]
pub struct Tree {
    pub items: Vec<Rc<Node>>,
}

/// A node or missing operand of a text: its item, from 1, and its number in preorder, from 0.
#[derive(Clone, Copy, Debug, PartialEq, Eq)]
pub struct NodeId {
    pub item: u32,
    pub pre: u32,
}
