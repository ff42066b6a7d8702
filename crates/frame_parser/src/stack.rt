//! The parser's stacks, and what its calls give.
ghost use Rattle.std.specs.Prelude.{◌≡◌, ◌∷◌, map, reverse, Some, IfOk};
ghost use Rattle.grammar_model.specs.Ocaml.{Text};
ghost use Rattle.recovery_model.specs.Items as model;
ghost use Rattle.syntax_tree.specs.View.{tok_of};
ghost use Rattle.frame_parser.specs.Shown.{tokens_view, ShowsItem, ShowsMark};

use frame_steps::{Stack as Rows, SyntaxFault};
use std::alloc::{AllocError, Global};
use std::rc::Rc;
use syntax_tree::{NoMemory, Token, Tree};

/// Tokens that may be taken again, the newest first.
pub(crate) type Tokens = Option<Rc<Kept>>;

/// A token, and those before it.
pub struct Kept {
    pub token: Token,
    pub before: Option<Rc<Kept>>,
}

// As many tokens may be kept as the text has, so no call is made for each.
impl Drop for Kept {
    fn drop(mut self) {
        loop {
            match self {
                Kept { token: _, before } => match before {
                    None => return,
                    Some(kept) => match Rc::into_inner(kept) {
                        None => return,
                        Some(rest) => self = rest,
                    },
                },
            }
        }
    }
}

/// What is known of an item in progress.
#[derive(Drop)]
pub(crate) enum Mark {
    /// It has no fault and no cut token.
    Sound,
    /// It has no fault, but cut tokens: the rows before the first of them, and the tokens from there on.
    Held { before: Rows, since: Tokens },
    /// It has a fault.
    Marked,
}

/// The item `let` in progress.
#[derive(Drop)]
pub(crate) struct Item {
    /// The column of its first token, in bytes.
    pub col: u32,
    pub mark: Mark,
}

/// The rows in progress behind some tokens of a text. It is never written, and stacks share their frames and tokens.
#[derive(Drop)]
pub struct Stack {
    pub(crate) rows: Rows,
    pub(crate) item: Option<Item>,
}

/// The stack behind one token more, and the faults that came with the token, in order.
#[derive(Drop)]
pub struct Stepped {
    pub stack: Stack,
    pub faults: Vec<SyntaxFault>,
}

/// A step, and how many tokens it took: one, or those that it took again.
#[derive(Drop)]
pub(crate) struct Taken {
    pub stepped: Stepped,
    pub count: usize,
}

/// The tree of the tokens on a stack, and the faults that come with the end of the text, in order.
#[derive(Drop)]
pub struct Closed {
    pub tree: Tree,
    pub faults: Vec<SyntaxFault>,
}

/// One more owner of the same tokens.
pub(crate) fn share_tokens(tokens: &Tokens) -> Result<Tokens, NoMemory>
    ensures { IfOk result (λ r. tokens_view r ≡ tokens_view tokens.now) }
{
    match tokens {
        None => Ok(None),
        Some(kept) => match Rc::clone(kept) {
            Ok(kept) => Ok(Some(kept)),
            Err(_) => Err(AllocError),
        },
    }
}

/// The same item, with one more owner of what it keeps.
pub(crate) fn share_item(item: &Item) -> Result<Item, NoMemory>
    ensures { IfOk result (λ r. (text : Text) (i : model.Item) → ShowsItem text (Some i) (Some item.now) → ShowsItem text (Some i) (Some r)) }
{
    Ok(Item {
        col: item.col,
        mark: share_mark(&item.mark)?,
    })
}

fn share_mark(mark: &Mark) -> Result<Mark, NoMemory>
    ensures { IfOk result (λ r. (text : Text) (m : model.Mark) → ShowsMark text m mark.now → ShowsMark text m r) }
{
    match mark {
        Mark::Sound => Ok(Mark::Sound),
        Mark::Marked => Ok(Mark::Marked),
        Mark::Held { before, since } => Ok(Mark::Held {
            before: before.share()?,
            since: share_tokens(since)?,
        }),
    }
}

/// Tokens with one more.
pub(crate) fn push_token(alloc: Global, before: Tokens, token: &Token) -> Result<Tokens, NoMemory>
    ensures { IfOk result (λ r. tokens_view r ≡ tok_of token.now ∷ tokens_view before) }
{
    let kept = Kept {
        token: token.share()?,
        before,
    };
    match Rc::new(alloc, kept) {
        Ok(kept) => Ok(Some(kept)),
        Err(_) => Err(AllocError),
    }
}

/// The tokens in order.
pub(crate) fn tokens_in_order(alloc: Global, tokens: &Tokens) -> Result<Vec<Token>, NoMemory>
    ensures { IfOk result (λ r. map tok_of r.items ≡ reverse (tokens_view tokens.now)) }
{
    let mut found = Vec::new(alloc);
    let mut left = tokens;
    while let Some(kept) = left {
        if found.push(kept.token.share()?).is_err() {
            return Err(AllocError);
        }
        left = &kept.before;
    }
    found.reverse();
    Ok(found)
}
