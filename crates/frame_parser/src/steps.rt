//! A stack begins, takes tokens one by one, and is closed.
ghost use Rattle.std.specs.Prelude.{◌≡◌, ◌&&◌, ◌<◌, ◌≤◌, ◌+◌, ◌++◌, ◌∷◌, [], ℕ, List, Option, Some, None, length, drop, map, reverse, option_map, IfOk, OnOk, OnErr};
ghost use Rattle.token_model.specs.Kinds.{Tok};
ghost use Rattle.grammar_model.specs.Named.{named, items_of};
ghost use Rattle.grammar_model.specs.Ocaml as ocaml;
ghost use Rattle.grammar_model.specs.Ocaml.{grammar};
ghost use Rattle.recovery_model.specs.Steps as rules;
ghost use Rattle.recovery_model.specs.Steps.{last_fault};
ghost use Rattle.recovery_model.specs.Items as model;
ghost use Rattle.recovery_model.specs.Recovery as recovery;
ghost use Rattle.settled_laws.specs.Settled.{settled_in};
ghost use Rattle.syntax_tree.specs.View.{tok_of, trees_of};
ghost use Rattle.syntax_rows.specs.View.{text_of};
ghost use Rattle.frame_steps.specs.Told.{told, listed};
ghost use Rattle.frame_steps.specs.View.{fault_of};
ghost use Rattle.parse_frames.specs.Stacks.{stack_view};
ghost use Rattle.frame_parser.specs.Behind.{Behind};
ghost use Rattle.frame_parser.specs.Run.{run, next_step, next_shifts, shifted_by, shifts, shifts_sound};
ghost use Rattle.frame_parser.specs.Shown.{Comes, InItem, IsReached, IsReady, KeepsFew, RowsReady, Shows, ShowsEnd, ShowsItem, ShowsMark, ShowsPut, ShowsRows, ShowsStep, ShowsTaken, ShowsTakenIn, ShowsWhole, tokens_view};

use crate::cuts::{add_fault, add_faults, cut_step, go_on, is_cut, with_token};
use crate::stack::{
    Closed, Item, Mark, Stack, Stepped, Taken, Tokens, share_item, tokens_in_order,
};
use frame_steps::{
    Stack as Rows, Stepped as Put, SyntaxFault, Text, Whole, begun as rows_begun, close_up,
    count_items, put,
};
use std::alloc::Global;
use syntax_tree::{Counts, NoMemory, Token};

/// The stack of a program without tokens.
pub fn empty(_alloc: Global) -> Result<Stack, NoMemory>
    ensures { IfOk result (λ r. Behind ocaml.program_text [] r) }
{
    Ok(begun(Text::Program))
}

/// The stack of an interface's text without tokens.
pub fn empty_sig(_alloc: Global) -> Result<Stack, NoMemory>
    ensures { IfOk result (λ r. Behind ocaml.interface_text [] r) }
{
    Ok(begun(Text::Signature))
}

/// The stack of a text without tokens.
#[tactic(auto, unfolding(crate::specs::Run::run))]
pub(crate) fn begun(text: Text) -> Stack
    ensures { Behind (text_of text) [] result }
{
    Stack {
        rows: rows_begun(text),
        item: None,
    }
}

/// A token that is taken again, where each cut token cuts.
fn retake(alloc: Global, stack: &Stack, token: &Token) -> Result<Stepped, NoMemory>
    requires ready { (n : ℕ) × RowsReady n stack.now.rows × (n < 1048576) }
    ensures { IfOk result (λ r. (text : ocaml.Text) (p : model.Parser) (n : ℕ) → Shows text p stack.now → IsReached text n p.state → n < 1048576 → ShowsStep text (recovery.retake (grammar text) p (tok_of token.now)) r) }
{
    let next = put(alloc, &stack.rows, token)?;
    match &stack.item {
        None => go_on(alloc, None, token, next),
        Some(item) => {
            if is_cut(item.col, token, &next) {
                return cut_step(alloc, &stack.rows, token);
            }
            go_on(alloc, Some(share_item(item)?), token, next)
        }
    }
}

/// Tokens that are taken again.
fn retake_all(alloc: Global, start: Stack, tokens: &[Token]) -> Result<Stepped, NoMemory>
    requires ready { (text : ocaml.Text) × (p : model.Parser) × (n : ℕ) × Shows text p start × IsReached text n p.state × (n + length tokens.now ≤ 1048576) }
    ensures { IfOk result (λ r. (text : ocaml.Text) (p : model.Parser) (n : ℕ) → Shows text p start → IsReached text n p.state → n + length tokens.now ≤ 1048576 → ShowsStep text (recovery.retake_all (grammar text) (map tok_of tokens.now) p) r) }
{
    let mut faults = Vec::new(alloc);
    let mut stack = start;
    for token in tokens {
        let next = retake(alloc, &stack, token)?;
        add_faults(&next.faults, &mut faults)?;
        stack = next.stack;
    }
    Ok(Stepped { stack, faults })
}

/// From these rows, in an item whose first token is in a column, the tokens are taken again.
fn go_back(alloc: Global, col: u32, before: Rows, since: &Tokens) -> Result<Taken, NoMemory>
    requires ready { (n : ℕ) × RowsReady n before × (n + length (tokens_view since.now) ≤ 1048576) }
    ensures { IfOk result (λ r. (text : ocaml.Text) (s : model.State) (ts : List Tok) (n : ℕ) → ShowsRows text s before → reverse (tokens_view since.now) ≡ ts → IsReached text n s → n + length ts ≤ 1048576 → ShowsTaken text (recovery.go_back (grammar text) col s ts) (length ts) r) }
{
    let tokens = tokens_in_order(alloc, since)?;
    let start = Stack {
        rows: before,
        item: Some(Item {
            col,
            mark: Mark::Sound,
        }),
    };
    let stepped = retake_all(alloc, start, &tokens)?;
    Ok(Taken {
        stepped,
        count: tokens.len(),
    })
}

/// A step that took its token alone.
fn taken_once(stepped: Stepped) -> Taken
    ensures step { result.stepped ≡ stepped }
    ensures count { result.count ≡ 1 }
{
    Taken { stepped, count: 1 }
}

/// A token in an item of which this is known with the token: a fault goes back to before the first cut token.
fn step_in_item(
    alloc: Global,
    col: u32,
    token: &Token,
    next: Put,
    mark: Mark,
) -> Result<Taken, NoMemory>
    requires ready { (text : ocaml.Text) × (m : model.Mark) × ShowsMark text m mark × KeepsFew text 1048576 m }
    ensures { IfOk result (λ r. (text : ocaml.Text) (x : rules.Stepped) (m : model.Mark) → ShowsPut text x next → ShowsMark text m mark → KeepsFew text 1048576 m → ShowsTaken text (recovery.step_sound (grammar text) col (tok_of token.now) x x.fault m) (shifts_sound x.fault m) r) }
{
    match next.fault {
        None => Ok(taken_once(go_on(alloc, Some(Item { col, mark }), token, next)?)),
        Some(_) => match mark {
            Mark::Held { before, since } => go_back(alloc, col, before, &since),
            Mark::Sound => Ok(taken_once(go_on(
                alloc,
                Some(Item {
                    col,
                    mark: Mark::Sound,
                }),
                token,
                next,
            )?)),
            Mark::Marked => Ok(taken_once(go_on(
                alloc,
                Some(Item {
                    col,
                    mark: Mark::Marked,
                }),
                token,
                next,
            )?)),
        },
    }
}

/// Whether a token ends an item of which this is known: a cut token, of an item with a fault.
fn ends_item(cuts: bool, mark: &Mark) -> bool
    ensures { (text : ocaml.Text) (m : model.Mark) → ShowsMark text m mark.now → result ≡ (cuts && recovery.is_marked m) }
{
    match mark {
        Mark::Marked => cuts,
        Mark::Sound => false,
        Mark::Held {
            before: _,
            since: _,
        } => false,
    }
}

/// The stack behind one token more in an item, where `next` is the token's step by itself.
fn take_in_item(
    alloc: Global,
    rows: &Rows,
    item: &Item,
    token: &Token,
    next: Put,
) -> Result<Taken, NoMemory>
    requires ready { (text : ocaml.Text) × (s : model.State) × (i : model.Item) × (n : ℕ) × InItem text s i n rows.now item.now }
    ensures { IfOk result (λ r. (text : ocaml.Text) (s : model.State) (i : model.Item) (n : ℕ) → InItem text s i n rows.now item.now → ShowsPut text (rules.step (grammar text) s.stack s.place (tok_of token.now)) next → ShowsTakenIn text s i (tok_of token.now) r) }
{
    let cuts = is_cut(item.col, token, &next);
    if ends_item(cuts, &item.mark) {
        return Ok(taken_once(cut_step(alloc, rows, token)?));
    }
    let mark = with_token(alloc, rows, token, cuts, &item.mark)?;
    step_in_item(alloc, item.col, token, next, mark)
}

/// The stack behind one token more, and the token's faults.
fn take_one(alloc: Global, stack: &Stack, token: &Token) -> Result<Taken, NoMemory>
    requires ready { IsReady 1048575 stack.now }
    ensures { IfOk result (λ r. (text : ocaml.Text) (p : model.Parser) (n : ℕ) → Shows text p stack.now → Comes text n p → n < 1048576 → ShowsTaken text (recovery.step (grammar text) p (tok_of token.now)) (shifts (grammar text) p (tok_of token.now)) r) }
{
    let next = put(alloc, &stack.rows, token)?;
    match &stack.item {
        None => Ok(taken_once(go_on(alloc, None, token, next)?)),
        Some(item) => take_in_item(alloc, &stack.rows, item, token, next),
    }
}

/// The stack behind one token more, and the token's faults. The stack that is lent stays as it is.
pub fn step<C: Counts>(
    alloc: Global,
    stack: &Stack,
    token: &Token,
    counts: &mut C,
) -> Result<Stepped, NoMemory>
    requires few { (text : ocaml.Text) × (ts : List Tok) × Behind text ts stack.now × (length ts < 1048576) }
    ensures stack { IfOk result (λ r. (text : ocaml.Text) (ts : List Tok) → Behind text ts stack.now → length ts < 1048576 → Behind text (ts ++ tok_of token.now ∷ []) r.stack) }
    ensures faults { IfOk result (λ r. (text : ocaml.Text) (ts : List Tok) → Behind text ts stack.now → length ts < 1048576 → map fault_of r.faults.items ≡ map told (next_step text ts (tok_of token.now)).faults) }
    ensures counted { OnOk result ((text : ocaml.Text) (ts : List Tok) → Behind text ts stack.now → length ts < 1048576 → C.tallies counts.new ≡ shifted_by (next_shifts text ts (tok_of token.now)) (C.tallies counts.old)) }
    ensures refused { OnErr result (C.tallies counts.new ≡ C.tallies counts.old) }
{
    let taken = take_one(alloc, stack, token)?;
    add_shifted(taken.count, counts);
    Ok(taken.stepped)
}

/// The stack behind one token more; the token's faults are put behind others. The stack that is lent stays as it is.
/// After `NoMemory` the faults are as before, and nothing is counted.
pub fn step_onto<C: Counts>(
    alloc: Global,
    stack: &Stack,
    token: &Token,
    faults: &mut Vec<SyntaxFault>,
    counts: &mut C,
) -> Result<Stack, NoMemory>
    requires few { (text : ocaml.Text) × (ts : List Tok) × Behind text ts stack.now × (length ts < 1048576) }
    ensures stack { IfOk result (λ r. (text : ocaml.Text) (ts : List Tok) → Behind text ts stack.now → length ts < 1048576 → Behind text (ts ++ tok_of token.now ∷ []) r) }
    ensures faults { OnOk result ((text : ocaml.Text) (ts : List Tok) → Behind text ts stack.now → length ts < 1048576 → map fault_of faults.new.items ≡ map fault_of faults.old.items ++ map told (next_step text ts (tok_of token.now)).faults) }
    ensures counted { OnOk result ((text : ocaml.Text) (ts : List Tok) → Behind text ts stack.now → length ts < 1048576 → C.tallies counts.new ≡ shifted_by (next_shifts text ts (tok_of token.now)) (C.tallies counts.old)) }
    ensures refused { OnErr result ((faults.new.items ≡ faults.old.items) × (C.tallies counts.new ≡ C.tallies counts.old)) }
{
    let next = take_one(alloc, stack, token)?;
    faults.extend_from_slice(&next.stepped.faults)?;
    add_shifted(next.count, counts);
    Ok(next.stepped.stack)
}

/// So many tokens were taken.
fn add_shifted<C: Counts>(count: usize, counts: &mut C)
    ensures { C.tallies counts.new ≡ shifted_by count (C.tallies counts.old) }
{
    for _ in 0..count {
        counts.add_shifted();
    }
}

/// How many items are settled behind the tokens on a stack: no token that follows changes anything in these.
pub fn settled(stack: &Stack) -> u32
    ensures { (text : ocaml.Text) (ts : List Tok) → Behind text ts stack.now → length ts ≤ 1048576 → result ≡ length (settled_in text ts) }
{
    match &stack.item {
        None => count_items(&stack.rows),
        Some(item) => match &item.mark {
            Mark::Held { before, since: _ } => count_items(before),
            Mark::Sound => count_items(&stack.rows),
            Mark::Marked => count_items(&stack.rows),
        },
    }
}

/// The tree of the tokens on a stack without so many of its first items, and the faults at its end.
/// The stack that is lent stays as it is.
pub fn close(alloc: Global, stack: &Stack, from: usize) -> Result<Closed, NoMemory>
    requires few { (text : ocaml.Text) × (ts : List Tok) × Behind text ts stack.now × (length ts ≤ 1048576) }
    ensures tree { IfOk result (λ r. (text : ocaml.Text) (ts : List Tok) → Behind text ts stack.now → length ts ≤ 1048576 → trees_of r.tree ≡ drop from (items_of (named ocaml.row_name (recovery.close (grammar text) (run text ts)).0))) }
    ensures faults { IfOk result (λ r. (text : ocaml.Text) (ts : List Tok) → Behind text ts stack.now → length ts ≤ 1048576 → map fault_of r.faults.items ≡ map told (recovery.close (grammar text) (run text ts)).1) }
{
    end(alloc, stack, from)
}

/// The end of the text.
fn end(alloc: Global, stack: &Stack, from: usize) -> Result<Closed, NoMemory>
    requires ready { IsReady 1048576 stack.now }
    ensures { IfOk result (λ r. (text : ocaml.Text) (p : model.Parser) (n : ℕ) → Shows text p stack.now → Comes text n p → n ≤ 1048576 → ShowsEnd from text (recovery.close (grammar text) p) r) }
{
    let whole = close_up(alloc, &stack.rows, from)?;
    if whole.holes == 0 {
        return ended(whole, stack.rows.place(), Vec::new(alloc));
    }
    match &stack.item {
        None => ended(whole, stack.rows.place(), Vec::new(alloc)),
        Some(item) => end_item(alloc, &stack.rows, item, whole, from),
    }
}

/// The end in an item, where parts are missing: an item with cut tokens is gone back to.
fn end_item(
    alloc: Global,
    rows: &Rows,
    item: &Item,
    whole: Whole,
    from: usize,
) -> Result<Closed, NoMemory>
    requires ready { (text : ocaml.Text) × (i : model.Item) × ShowsItem text (Some i) (Some item.now) × KeepsFew text 1048576 i.mark }
    ensures { IfOk result (λ r. (text : ocaml.Text) (s : model.State) (i : model.Item) → ShowsWhole from text s whole → (stack_view rows.now.frames).place ≡ s.place → ShowsItem text (Some i) (Some item.now) → KeepsFew text 1048576 i.mark → ShowsEnd from text (recovery.close_mark (grammar text) s i.col i.mark) r) }
{
    match &item.mark {
        Mark::Held { before, since } => end_back(alloc, item.col, before.share()?, since, from),
        Mark::Sound => ended(whole, rows.place(), Vec::new(alloc)),
        Mark::Marked => ended(whole, rows.place(), Vec::new(alloc)),
    }
}

/// The end behind tokens that are taken again.
fn end_back(
    alloc: Global,
    col: u32,
    before: Rows,
    since: &Tokens,
    from: usize,
) -> Result<Closed, NoMemory>
    requires ready { (n : ℕ) × RowsReady n before × (n + length (tokens_view since.now) ≤ 1048576) }
    ensures { IfOk result (λ r. (text : ocaml.Text) (s : model.State) (ts : List Tok) (n : ℕ) → ShowsRows text s before → reverse (tokens_view since.now) ≡ ts → IsReached text n s → n + length ts ≤ 1048576 → ShowsEnd from text (recovery.ended_by (grammar text) (recovery.go_back (grammar text) col s ts)) r) }
{
    let back = go_back(alloc, col, before, since)?;
    let whole = close_up(alloc, &back.stepped.stack.rows, from)?;
    ended(whole, back.stepped.stack.rows.place(), back.stepped.faults)
}

/// A tree, and the fault of what is missing at its end behind others.
fn ended(whole: Whole, place: u32, before: Vec<SyntaxFault>) -> Result<Closed, NoMemory>
    ensures { IfOk result (λ r. (trees_of r.tree ≡ trees_of whole.tree) × (map fault_of r.faults.items ≡ map fault_of before.items ++ map told (last_fault whole.holes place))) }
{
    let mut faults = before;
    add_fault(fault_at(place, whole.holes), &mut faults)?;
    Ok(Closed {
        tree: whole.tree,
        faults,
    })
}

/// The fault of so many missing parts, if there are any.
fn fault_at(place: u32, holes: u32) -> Option<SyntaxFault>
    ensures { listed (option_map fault_of result) ≡ map told (last_fault holes place) }
{
    if holes == 0 {
        None
    } else {
        Some(SyntaxFault::Added { place, holes })
    }
}
