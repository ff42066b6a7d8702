//! Trees and faults of some texts.
ghost use Rattle.std.specs.Prelude.{◌<◌, List, [], length};
ghost use Rattle.token_model.specs.Kinds.{Tok};
ghost use Rattle.grammar_model.specs.Ocaml as ocaml;
ghost use Rattle.frame_parser.specs.Behind.{Behind};

use crate::counts::zero;
use crate::verdict::{none_wrong, wrong_unless};
use frame_parser::{
    Counts, NoMemory, Parsed, Span, Stack, SyntaxFault, Text, Token, close, empty, empty_sig,
    parse, step,
};
use ml_lexer::lex_all;
use std::alloc::{AllocError, Global};
use std::rc::Rc;
use std::test::Fail;
use syntax_tree::{Node, Part, RcStr, RowName, TokenKind};

/// What the parser finds in a short text.
pub fn parsed(alloc: Global, text: &str) -> Result<Parsed, NoMemory> {
    if text.len() > 10_000 {
        return Err(AllocError);
    }
    let tokens = lex_all(alloc, text.as_bytes(), &[], &mut zero())?;
    parse(alloc, Text::Program, &tokens, &mut zero())
}

/// The node of the last of a node's parts that is one.
fn last_node(node: &Node) -> Option<&Rc<Node>> {
    let mut last = None;
    for child in &node.children {
        if let Part::Inner(inner) = &child.part {
            last = Some(inner);
        }
    }
    last
}

/// Texts of one item, and their faults.
/// `let = 1`: the sign fits nowhere, `1` is the pattern, and `=` and what it stands before are missing.
/// `let x = + 1` misses the left operand at 7; `let x = ( 1` misses the closing parenthesis at 11.
const FAULTS: [(&str, &[SyntaxFault]); 3] = [
    (
        "let = 1",
        &[
            SyntaxFault::Skipped {
                span: Span { start: 4, end: 5 },
            },
            SyntaxFault::Added { place: 7, holes: 2 },
        ],
    ),
    ("let x = + 1", &[SyntaxFault::Added { place: 7, holes: 1 }]),
    (
        "let x = ( 1",
        &[SyntaxFault::Added {
            place: 11,
            holes: 1,
        }],
    ),
];

fn has_faults(alloc: Global, text: &str, faults: &[SyntaxFault]) -> bool {
    match parsed(alloc, text) {
        Ok(parsed) => parsed.faults.as_slice() == faults && parsed.tree.items.len() == 1,
        Err(_) => false,
    }
}

fn wrong_faults(alloc: Global) -> Option<&'static str> {
    for row in &FAULTS {
        if !has_faults(alloc, row.0, row.1) {
            return Some(row.0);
        }
    }
    None
}

/// A text whose bar belongs to the inner match.
const MATCHES: &str = "let x = match a with p -> match b with q -> c | r -> d";

/// The rows of the nodes of `MATCHES`, each the last of those of the one before, and how many parts they have.
const LAST_ROWS: [(RowName, usize); 7] = [
    (RowName::Let, 2),
    (RowName::Binding, 3),
    (RowName::Ematch, 4),
    (RowName::Case, 3),
    (RowName::Ematch, 6),
    (RowName::Case, 3),
    (RowName::Name, 1),
];

/// Whether a node and those that are last in it have these rows.
fn goes_down(item: Option<&Rc<Node>>, rows: &[(RowName, usize)]) -> bool {
    let mut next = item;
    for (row, parts) in rows {
        let Some(node) = next else {
            return false;
        };
        if node.row != *row || node.children.len() != *parts {
            return false;
        }
        next = last_node(node);
    }
    true
}

fn has_inner_bar(alloc: Global) -> bool {
    match parsed(alloc, MATCHES) {
        Ok(parsed) => {
            parsed.faults.is_empty() && goes_down(parsed.tree.items.first(), &LAST_ROWS)
        }
        Err(_) => false,
    }
}

fn is_too_deep(fault: &SyntaxFault) -> bool {
    match fault {
        SyntaxFault::TooDeep { span: _ } => true,
        _ => false,
    }
}

/// `let x =` and 600 opening parentheses, with a blank in front of each.
fn opened(alloc: Global) -> Result<String, NoMemory> {
    let mut text = String::new(alloc);
    text.push_str("let x =")?;
    for _ in 0..600 {
        text.push_str(" (")?;
    }
    Ok(text)
}

/// Whether 91 tokens are too deep, and what they would have closed is missing.
fn has_91_too_deep(faults: &[SyntaxFault]) -> bool {
    let added = SyntaxFault::Added {
        place: 1025,
        holes: 510,
    };
    faults.len() == 92
        && faults.iter().filter(|fault| is_too_deep(fault)).count() == 91
        && faults.last() == Some(&added)
}

fn parsed_opened(alloc: Global) -> Result<Parsed, NoMemory> {
    let text = opened(alloc)?;
    parsed(alloc, text.as_str())
}

/// Whether of 600 opening parentheses 509 are in the frames 4 to 512, and 91 are too deep.
fn ends_at_512_frames(alloc: Global) -> bool {
    match parsed_opened(alloc) {
        Ok(parsed) => has_91_too_deep(&parsed.faults),
        Err(_) => false,
    }
}

#[test]
fn trees_and_faults_of_texts(rt: HostRuntime) -> Result<(), Fail> {
    none_wrong(wrong_faults(rt.alloc()))?;
    none_wrong(wrong_unless(has_inner_bar(rt.alloc()), MATCHES))?;
    none_wrong(wrong_unless(ends_at_512_frames(rt.alloc()), "600 parentheses"))
}

fn token(alloc: Global, kind: TokenKind, name: &str) -> Result<Token, NoMemory> {
    let end = u32::try_from(name.len()).unwrap_or(0);
    Ok(Token {
        kind,
        span: Span { start: 0, end },
        reach: end,
        col: 0,
        name: RcStr::from_str(alloc, name)?,
    })
}

/// Whether there is no other fault than this one, if it is one.
fn is_only(faults: &[SyntaxFault], fault: Option<SyntaxFault>) -> bool {
    match fault {
        None => faults.is_empty(),
        Some(fault) => faults.len() == 1 && faults[0] == fault,
    }
}

fn closes(alloc: Global, stack: &Stack, items: usize, fault: Option<SyntaxFault>) -> bool
    requires few { (text : ocaml.Text) × (ts : List Tok) × Behind text ts stack.now × (length ts < 1048576) }
{
    match close(alloc, stack, 0) {
        Ok(closed) => closed.tree.items.len() == items && is_only(&closed.faults, fault),
        Err(_) => false,
    }
}

/// Whether a token on a stack without tokens has this fault, and how many items and which fault it leaves.
fn takes(
    alloc: Global,
    stack: &Stack,
    word: (TokenKind, &str),
    fault: Option<SyntaxFault>,
    left: (usize, Option<SyntaxFault>),
) -> bool
    requires begun { (text : ocaml.Text) × Behind text [] stack.now }
{
    let mut counts = zero();
    let Ok(token) = token(alloc, word.0, word.1) else {
        return false;
    };
    let Ok(stepped) = step(alloc, stack, &token, &mut counts) else {
        return false;
    };
    counts.shifted() == 1
        && is_only(&stepped.faults, fault)
        && closes(alloc, &stepped.stack, left.0, left.1)
}

const SEMICOLONS: (TokenKind, &str) = (TokenKind::SemiSemi, ";;");

const VAL: (TokenKind, &str) = (TokenKind::Val, "val");

const SKIPPED: Option<SyntaxFault> = Some(SyntaxFault::Skipped {
    span: Span { start: 0, end: 3 },
});

const ADDED: Option<SyntaxFault> = Some(SyntaxFault::Added { place: 3, holes: 3 });

/// Whether two tokens on one stack of a program leave it as it is.
fn stays(alloc: Global) -> bool {
    let Ok(begun) = empty(alloc) else {
        return false;
    };
    takes(alloc, &begun, SEMICOLONS, None, (1, None))
        && takes(alloc, &begun, VAL, SKIPPED, (0, None))
        && closes(alloc, &begun, 0, None)
}

/// Whether `val` begins an item of an interface.
fn begins_value(alloc: Global) -> bool {
    match empty_sig(alloc) {
        Ok(begun) => takes(alloc, &begun, VAL, None, (1, ADDED)),
        Err(_) => false,
    }
}

#[test]
fn stacks_stay(rt: HostRuntime) -> Result<(), Fail> {
    none_wrong(wrong_unless(stays(rt.alloc()), "a program"))?;
    none_wrong(wrong_unless(begins_value(rt.alloc()), "an interface"))
}
