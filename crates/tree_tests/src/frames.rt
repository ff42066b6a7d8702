//! Frames of a parser's stack: what two stacks share, and what is missing.
use crate::verdict::{none_wrong, wrong_unless};
use parse_frames::{Last, NoMemory, Opening, RowName, Span, Stack, Token, height_of_level};
use std::alloc::{AllocError, Global};
use std::test::Fail;
use syntax_tree::{RcStr, TokenKind};

const PROGRAM: u8 = 0;

const CONSTANT: u8 = 7;

const SUM: u8 = 9;

fn token(alloc: Global, kind: TokenKind, start: u32) -> Result<Token, NoMemory> {
    let end = start.saturating_add(1);
    Ok(Token {
        kind,
        span: Span { start, end },
        reach: end,
        col: start,
        name: RcStr::from_str(alloc, "x")?,
    })
}

fn closed(alloc: Global, stack: &Stack, name: RowName) -> Result<Stack, NoMemory> {
    if !stack.has_room(name) {
        return Err(AllocError);
    }
    match stack.close(alloc, name)? {
        Some(below) => Ok(below),
        None => Err(AllocError),
    }
}

fn begun(alloc: Global, stack: &Stack, spot: u8, start: u32) -> Result<Stack, NoMemory> {
    if stack.waiting() > 9 {
        return Err(AllocError);
    }
    let token = token(alloc, TokenKind::Int, start)?;
    let chain = [Opening {
        number: CONSTANT,
        first: 1,
    }];
    stack.begin(alloc, spot, &chain, &token)
}

fn with_constant(alloc: Global, stack: &Stack, spot: u8, start: u32) -> Result<Stack, NoMemory> {
    let inside = begun(alloc, stack, spot, start)?;
    closed(alloc, &inside, RowName::Econst)
}

fn grown(alloc: Global, stack: &Stack) -> Result<Stack, NoMemory> {
    if stack.waiting() > 9 {
        return Err(AllocError);
    }
    match stack.grow(alloc, SUM)? {
        Some(grown) => Ok(grown),
        None => Err(AllocError),
    }
}

fn with_sign(alloc: Global, stack: &Stack, start: u32) -> Result<Stack, NoMemory> {
    let grown = grown(alloc, stack)?;
    let token = token(alloc, TokenKind::Op12, start)?;
    grown.take_token(alloc, 2, &token)
}

fn with_hole(alloc: Global, stack: &Stack) -> Result<Stack, NoMemory> {
    let stack = stack.miss_operand(alloc, 3)?;
    closed(alloc, &stack, RowName::Infix)
}

fn with_operand(alloc: Global, stack: &Stack) -> Result<Stack, NoMemory> {
    let stack = with_constant(alloc, stack, 3, 4)?;
    closed(alloc, &stack, RowName::Infix)
}

/// Whether the text's node over a sum up to this end has four nodes and three levels.
fn is_sum(alloc: Global, stack: &Stack, end: u32) -> bool {
    if !stack.has_room(RowName::Program) {
        return false;
    }
    let Ok(program) = stack.node(alloc, RowName::Program) else {
        return false;
    };
    program.span == Span { start: 0, end }
        && program.size == 4
        && program.height == 3
        && stack.height() == 2
        && stack.newest_height() == 2
}

/// Whether a sum ends here.
fn ends_at(alloc: Global, stack: Result<Stack, NoMemory>, end: u32) -> bool {
    match stack {
        Ok(stack) => is_sum(alloc, &stack, end),
        Err(_) => false,
    }
}

/// Whether `1 + 2` and `1 +` come of the same frames.
fn shares_sign(alloc: Global, one: &Stack) -> bool {
    let Ok(sign) = with_sign(alloc, one, 2) else {
        return false;
    };
    sign.waiting() == 1
        && sign.place() == 3
        && sign.last() == Last::Plain
        && ends_at(alloc, with_operand(alloc, &sign), 5)
        && ends_at(alloc, with_hole(alloc, &sign), 3)
}

fn is_one(stack: &Stack) -> bool {
    stack.number() == PROGRAM
        && stack.spot() == 1
        && stack.last() == Last::Row(CONSTANT)
        && stack.height() == 1
        && stack.waiting() == 0
}

/// `1 + 2`, and `1 +` from the same frames; those of `1` stay.
fn shares_frames(alloc: Global) -> bool {
    match with_constant(alloc, &Stack::empty(PROGRAM), 1, 0) {
        Ok(one) => is_one(&one) && shares_sign(alloc, &one) && is_one(&one),
        Err(_) => false,
    }
}

/// A sum's frame over the program's, where the program misses a token and has no node.
fn over_missing(alloc: Global) -> Result<Stack, NoMemory> {
    let stack = Stack::empty(PROGRAM).miss_token(alloc, 1)?;
    stack.open(alloc, 2, SUM, 1)
}

fn has_missing_below(stack: &Stack) -> bool {
    match stack.below() {
        Some(level) => level.number == PROGRAM && level.spot == 2 && height_of_level(level) == 0,
        None => false,
    }
}

fn is_opened(stack: &Stack) -> bool {
    match stack.share() {
        Ok(shared) => shared.last() == Last::Plain && stack.spot() == 1 && stack.place() == 0,
        Err(_) => false,
    }
}

/// Whether a frame waits with a missing token and no node.
fn waits_with_missing(alloc: Global) -> bool {
    match over_missing(alloc) {
        Ok(stack) => is_opened(&stack) && has_missing_below(&stack),
        Err(_) => false,
    }
}

#[test]
fn frames_of_stacks(rt: HostRuntime) -> Result<(), Fail> {
    none_wrong(wrong_unless(shares_frames(rt.alloc()), "shared frames"))?;
    none_wrong(wrong_unless(waits_with_missing(rt.alloc()), "a missing token"))
}
