//! How an unfinished item ends at a token that would otherwise be taken into it.
ghost use Rattle.std.specs.Prelude.{◌≡◌, ◌<◌, ◌++◌, ◌∷◌, ℕ, Option, None, map, option_map, IfOk, OnOk};
ghost use Rattle.token_model.specs.Kinds.{Tok};
ghost use Rattle.grammar_model.specs.Machine as machine;
ghost use Rattle.grammar_model.specs.Ocaml.{Text, grammar};
ghost use Rattle.recovery_model.specs.Steps as rules;
ghost use Rattle.recovery_model.specs.Items as model;
ghost use Rattle.recovery_model.specs.Recovery as recovery;
ghost use Rattle.syntax_tree.specs.View.{tok_of};
ghost use Rattle.frame_steps.specs.Told.{told, listed};
ghost use Rattle.frame_steps.specs.View.{fault_of};
ghost use Rattle.frame_parser.specs.Shown.{is_left_out, IsReached, RowsReady, ShowsItem, ShowsMark, ShowsPut, ShowsRows, ShowsStep};

use crate::stack::{Item, Mark, Stack, Stepped, push_token, share_tokens};
use frame_steps::{
    Key, Stack as Rows, Stepped as Put, SyntaxFault, close_item, number_of_key, put,
};
use std::alloc::{AllocError, Global};
use syntax_tree::{NoMemory, Token};

/// The key of `let`.
const LET_KEY: u8 = 30;

/// Whether a step on a `let` begins a local `let`, or would if it were not nested too deeply.
fn begins_local(put: &Put) -> bool
    ensures { (text : Text) (x : rules.Stepped) → ShowsPut text x put.now → result ≡ model.begins_local x.stack x.fault }
{
    match put.fault {
        None => put.stack.is_local(),
        Some(SyntaxFault::Added { place: _, holes: _ }) => put.stack.is_local(),
        Some(SyntaxFault::Skipped { span: _ }) => false,
        Some(SyntaxFault::TooDeep { span: _ }) => true,
        Some(SyntaxFault::Cut { place: _ }) => false,
    }
}

/// Whether a token is a cut token of an item whose first token is in a column, where `put` is the token's step by itself.
pub(crate) fn is_cut(col: u32, token: &Token, put: &Put) -> bool
    ensures { (text : Text) (x : rules.Stepped) → ShowsPut text x put.now → result ≡ model.is_cut col (tok_of token.now) x }
{
    number_of_key(Key::of(token)) == LET_KEY && token.col <= col && begins_local(put)
}

/// The item in progress behind a token that was taken: the one that it begins, or the one before, unless that was closed.
fn item_behind(rows: &Rows, col: u32, before: Option<Item>) -> Option<Item>
    ensures { (text : Text) (s : model.State) (t : Tok) (i : Option model.Item) → col ≡ t.col → ShowsRows text s rows.now → ShowsItem text i before → ShowsItem text (model.item_behind s.stack t i) result }
{
    if rows.begins_item() {
        return Some(Item {
            col,
            mark: Mark::Sound,
        });
    }
    match before {
        None => None,
        Some(item) => { if rows.has_item() { Some(item) } else { None } }
    }
}

/// An item of which a token had a fault.
fn faulted(item: Option<Item>) -> Option<Item>
    ensures { (text : Text) (i : Option model.Item) → ShowsItem text i item → ShowsItem text (recovery.faulted i) result }
{
    match item {
        None => None,
        Some(item) => Some(Item {
            col: item.col,
            mark: Mark::Marked,
        }),
    }
}

/// Whether the token of this fault, if it is one, was left out.
fn is_left_out(fault: Option<SyntaxFault>) -> bool
    ensures { result ≡ is_left_out (option_map fault_of fault) }
{
    match fault {
        None => false,
        Some(SyntaxFault::Added { place: _, holes: _ }) => false,
        Some(SyntaxFault::Skipped { span: _ }) => true,
        Some(SyntaxFault::TooDeep { span: _ }) => true,
        Some(SyntaxFault::Cut { place: _ }) => true,
    }
}

/// The item in progress behind a token with this fault, or none.
fn item_after(put: &Put, col: u32, item: Option<Item>) -> Option<Item>
    ensures { (text : Text) (x : rules.Stepped) (t : Tok) (i : Option model.Item) → col ≡ t.col → ShowsPut text x put.now → ShowsItem text i item → ShowsItem text (recovery.item_after x.stack t x.fault i) result }
{
    if is_left_out(put.fault) {
        return faulted(item);
    }
    match put.fault {
        None => item_behind(&put.stack, col, item),
        Some(_) => item_behind(&put.stack, col, faulted(item)),
    }
}

/// A fault that may be none, behind others.
pub(crate) fn add_fault(
    fault: Option<SyntaxFault>,
    faults: &mut Vec<SyntaxFault>,
) -> Result<(), NoMemory>
    ensures { OnOk result (map fault_of faults.new.items ≡ map fault_of faults.old.items ++ listed (option_map fault_of fault)) }
{
    match fault {
        None => Ok(()),
        Some(fault) => match faults.push(fault) {
            Ok(()) => Ok(()),
            Err(_) => Err(AllocError),
        },
    }
}

/// Faults behind others.
pub(crate) fn add_faults(
    more: &[SyntaxFault],
    faults: &mut Vec<SyntaxFault>,
) -> Result<(), NoMemory>
    ensures { OnOk result (map fault_of faults.new.items ≡ map fault_of faults.old.items ++ map fault_of more.now) }
{
    for fault in more {
        if faults.push(*fault).is_err() {
            return Err(AllocError);
        }
    }
    Ok(())
}

/// The stack behind a token that neither cuts nor goes back.
pub(crate) fn go_on(
    alloc: Global,
    item: Option<Item>,
    token: &Token,
    put: Put,
) -> Result<Stepped, NoMemory>
    ensures { IfOk result (λ r. (text : Text) (x : rules.Stepped) (i : Option model.Item) → ShowsPut text x put → ShowsItem text i item → ShowsStep text (recovery.go_on i (tok_of token.now) x) r) }
{
    let mut faults = Vec::new(alloc);
    add_fault(put.fault, &mut faults)?;
    let item = item_after(&put, token.col, item);
    Ok(Stepped {
        stack: Stack {
            rows: put.stack,
            item,
        },
        faults,
    })
}

/// The fault of an item that ends at a place where so many parts are missing.
fn end_fault(place: u32, holes: u32) -> SyntaxFault
    ensures { fault_of result ≡ told (model.end_fault place holes) }
{
    if holes == 0 {
        SyntaxFault::Cut { place }
    } else {
        SyntaxFault::Added { place, holes }
    }
}

/// The item in progress ends, and the token is taken.
pub(crate) fn cut_step(alloc: Global, rows: &Rows, token: &Token) -> Result<Stepped, NoMemory>
    requires ready { (n : ℕ) × RowsReady n rows.now × (n < 1048576) }
    ensures { IfOk result (λ r. (text : Text) (s : model.State) (n : ℕ) → ShowsRows text s rows.now → IsReached text n s → n < 1048576 → ShowsStep text (model.cut_step (grammar text) s (tok_of token.now)) r) }
{
    let ended = close_item(alloc, rows)?;
    let next = put(alloc, &ended.stack, token)?;
    let mut faults = Vec::new(alloc);
    add_fault(Some(end_fault(rows.place(), ended.holes)), &mut faults)?;
    add_fault(next.fault, &mut faults)?;
    let item = item_behind(&next.stack, token.col, None);
    Ok(Stepped {
        stack: Stack {
            rows: next.stack,
            item,
        },
        faults,
    })
}

/// What is known of an item behind a token that is a cut token or not, put on these rows.
pub(crate) fn with_token(
    alloc: Global,
    rows: &Rows,
    token: &Token,
    cuts: bool,
    mark: &Mark,
) -> Result<Mark, NoMemory>
    ensures { IfOk result (λ r. (text : Text) (s : model.State) (m : model.Mark) → ShowsRows text s rows.now → ShowsMark text m mark.now → ShowsMark text (recovery.with_token s (tok_of token.now) cuts m) r) }
{
    match mark {
        Mark::Marked => Ok(Mark::Marked),
        Mark::Sound => {
            if cuts {
                Ok(Mark::Held {
                    before: rows.share()?,
                    since: push_token(alloc, None, token)?,
                })
            } else {
                Ok(Mark::Sound)
            }
        }
        Mark::Held { before, since } => Ok(Mark::Held {
            before: before.share()?,
            since: push_token(alloc, share_tokens(since)?, token)?,
        }),
    }
}
