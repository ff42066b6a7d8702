//! A text's structure: its tree and its faults, and how they are shown.
ghost use Rattle.std.specs.Prelude.{◌≡◌, ◌≤◌, ◌<◌, ◌-◌, ◌^◌, ◌++◌, None, length, map, IfOk};
ghost use Rattle.std.specs.Str.{IsUtf8};
ghost use Rattle.text_model.specs.Edits.{text_limit};
ghost use Rattle.text_model.specs.Positions.{position_of};
ghost use Rattle.query_model.specs.Outlines.{members_of};
ghost use Rattle.service_model.specs.Answers.{shown_place, start_and_end};
ghost use Rattle.service_model.specs.Structure.{shown_fault, shown_member, shown_members};
ghost use Rattle.syntax_tree.specs.Tallies.{Grows};
ghost use Rattle.text_queries.specs.Outlines.{member_of};
ghost use Rattle.text_queries.specs.Faults.{listed_of};
ghost use Rattle.query_engine.specs.Typed.{span_of};
ghost use Rattle.json_lines.specs.Means.{fault_of, outline_of, outlined_of, typed_of};
ghost use Rattle.text_reading.specs.Structures.{parsed_in, type_text_of, IsParsedAs};

use frame_parser::{Parsed, Text, parse};
use kept_text::KeptText;
use ml_lexer::lex_all;
use query_engine as engine;
use std::alloc::{AllocError, Global};
use syntax_tree::{Counts, NoMemory, Pos};
use text_store::TextStore;

/// The tree and the faults of a text: those that are kept, or new ones.
#[derive(Drop)]
pub enum ParsedText<'a> {
    Kept(&'a Parsed),
    New(Parsed),
}

impl<'a> ParsedText<'a> {
    /// The tree and the faults.
    pub fn get(&self) -> &Parsed
        ensures { result.now ≡ parsed_in self.now }
    {
        match self {
            ParsedText::Kept(parsed) => parsed,
            ParsedText::New(parsed) => parsed,
        }
    }
}

/// The tree and the faults of a text in two parts.
pub fn parse_text<C: Counts>(
    alloc: Global,
    left: &[u8],
    right: &[u8],
    counts: &mut C,
) -> Result<Parsed, NoMemory>
    requires text { IsUtf8 (left.now ++ right.now) }
    requires short { length (left.now ++ right.now) ≤ text_limit }
    ensures parsed { IfOk result (λ p. IsParsedAs (left.now ++ right.now) p) }
    ensures grows { Grows (C.tallies counts.old) (C.tallies counts.new) }
{
    let tokens = lex_all(alloc, left, right, counts)?;
    parse(alloc, Text::Program, &tokens, counts)
}

/// The tree and the faults of a text: those that are kept, where these are of the present text, and else those of a parse from
/// nothing.
pub fn tree_of<'a, C: Counts>(
    alloc: Global,
    kept: &'a KeptText,
    counts: &mut C,
) -> Result<ParsedText<'a>, NoMemory>
    ensures parsed { IfOk result (λ p. IsParsedAs kept.now.text (parsed_in p)) }
    ensures idle { kept.now.changed ≡ None → C.tallies counts.new ≡ C.tallies counts.old }
    ensures grows { Grows (C.tallies counts.old) (C.tallies counts.new) }
{
    match kept.parsed() {
        Some(parsed) => Ok(ParsedText::Kept(parsed)),
        None => {
            let (left, right) = kept.text().slices();
            Ok(ParsedText::New(parse_text(alloc, left, right, counts)?))
        }
    }
}

/// The position of an offset. One behind the text's end, where nothing stands, is on a line behind the last.
pub fn position(store: &TextStore, offset: u32) -> Pos
    ensures { (result.line, result.col) ≡ position_of store.now offset }
{
    let (left, right) = store.slices();
    let end = (left.len() + right.len()) as u32;
    if offset <= end {
        store.pos_of(offset)
    } else {
        Pos {
            line: store.line_count() + 1,
            col: offset - end - 1,
        }
    }
}

/// A member of an outline with the positions of the store's text, and all that stands inside.
#[cycle(shown)]
fn shown_member(
    alloc: Global,
    store: &TextStore,
    member: &text_queries::Outlined,
) -> Result<json_lines::Outlined, NoMemory>
    ensures { IfOk result (λ o. outlined_of o ≡ shown_member store.now (member_of member.now)) }
{
    Ok(json_lines::Outlined {
        children: shown_outline(alloc, store, &member.children)?,
        start: position(store, member.span.start),
        end: position(store, member.span.end),
        kind: member.kind,
        name: member.name.share()?,
    })
}

/// The members of an outline with the positions of the store's text.
#[cycle(shown)]
pub fn shown_outline(
    alloc: Global,
    store: &TextStore,
    members: &[text_queries::Outlined],
) -> Result<Vec<json_lines::Outlined>, NoMemory>
    ensures { IfOk result (λ v. outline_of (map outlined_of v.items) ≡ shown_members store.now (members_of (map member_of members.now))) }
{
    let mut shown = Vec::new(alloc);
    for member in members {
        let next = shown_member(alloc, store, member)?;
        if shown.push(next).is_err() {
            return Err(AllocError);
        }
    }
    Ok(shown)
}

/// A fault with the positions of the store's text.
fn shown_fault(
    store: &TextStore,
    fault: &text_queries::Listed,
) -> Result<json_lines::Listed, NoMemory>
    ensures { IfOk result (λ f. fault_of f ≡ shown_fault store.now (listed_of fault.now)) }
{
    Ok(json_lines::Listed {
        start: position(store, fault.span.start),
        end: position(store, fault.span.end),
        kind: fault.kind.share()?,
        message: fault.message.share()?,
        ty: fault.ty.share()?,
    })
}

/// Faults with the positions of the store's text.
pub fn shown_faults(
    alloc: Global,
    store: &TextStore,
    faults: &[text_queries::Listed],
) -> Result<Vec<json_lines::Listed>, NoMemory>
    ensures { IfOk result (λ v. map fault_of v.items ≡ map (shown_fault store.now) (map listed_of faults.now)) }
{
    let mut shown = Vec::new(alloc);
    for fault in faults {
        let next = shown_fault(store, fault)?;
        if shown.push(next).is_err() {
            return Err(AllocError);
        }
    }
    Ok(shown)
}

/// A typed node with the positions of the store's text.
fn shown_type(store: &TextStore, typed: &engine::Typed) -> Result<json_lines::Typed, NoMemory>
    ensures place { IfOk result (λ t. start_and_end (typed_of t) ≡ shown_place store.now (span_of typed.now)) }
    ensures text { IfOk result (λ t. (typed_of t).type_text ≡ type_text_of typed.now) }
{
    Ok(json_lines::Typed {
        start: position(store, typed.span.start),
        end: position(store, typed.span.end),
        ty: typed.ty.share()?,
    })
}

/// Typed nodes with the positions of the store's text.
pub fn shown_types(
    alloc: Global,
    store: &TextStore,
    types: &[engine::Typed],
) -> Result<Vec<json_lines::Typed>, NoMemory>
    ensures places { IfOk result (λ v. map start_and_end (map typed_of v.items) ≡ map (shown_place store.now) (map span_of types.now)) }
    ensures texts { IfOk result (λ v. map (λ t. t.type_text) (map typed_of v.items) ≡ map type_text_of types.now) }
{
    let mut shown = Vec::new(alloc);
    for typed in types {
        let next = shown_type(store, typed)?;
        if shown.push(next).is_err() {
            return Err(AllocError);
        }
    }
    Ok(shown)
}
