//! What a document binds.
ghost use Rattle.std.specs.Prelude.{◌≡◌, ◌≤◌, length, map, IfOk};
ghost use Rattle.json_lines.specs.Means.{outline_kind_text, outline_of, outlined_of};
ghost use Rattle.lsp_model.specs.Positions.{text_limit};
ghost use Rattle.syntax_tree.specs.Tallies.{Grows};
ghost use Rattle.lsp_positions.specs.Texts.{columns_in};
ghost use Rattle.lsp_answers.specs.Puts as puts;
ghost use Rattle.lsp_queries.specs.Symbols.{symbol_told, OutlinedAs, SymbolIs, SymbolsAre};

use crate::names::name_in;
use crate::places::{bytes_of, range_of, range_within, span_between};
use analysis_api::Analyser;
use json_lines::{OutlineKind, Outlined};
use lsp_answers::{Symbol, SymbolKind};
use lsp_positions::Columns;
use session::Session;
use std::alloc::Global;
use syntax_tree::{Counts, NoMemory, Span};

fn symbol_kind(kind: OutlineKind) -> SymbolKind
    ensures { puts.kind_of result ≡ symbol_told (outline_kind_text kind) }
{
    match kind {
        OutlineKind::Value => SymbolKind::Value,
        OutlineKind::TypeName => SymbolKind::Type,
        OutlineKind::Exception => SymbolKind::Exception,
        OutlineKind::Module => SymbolKind::Module,
        OutlineKind::ModuleType => SymbolKind::ModuleType,
    }
}

/// Where the name of an item is; where its text has no place for it, the item's start.
fn selection(text: &[u8], item: Span, name: &[u8]) -> Span
    requires { length text.now ≤ text_limit }
{
    match name_in(text, item, name) {
        Some(span) => span,
        None => Span {
            start: item.start,
            end: item.start,
        },
    }
}

/// A bound name, with all that is inside.
#[cycle(symbols)]
#[tactic(auto, using(crate::proofs::Bound::symbol_made))]
fn symbol_of<A: Analyser>(
    alloc: Global,
    session: &Session<A>,
    text: &[u8],
    member: &Outlined,
    by: Columns,
) -> Result<Symbol, NoMemory>
    requires { length text.now ≤ text_limit }
    ensures { IfOk result (λ s. SymbolIs (columns_in by) session.now.text (outlined_of member.now) (puts.symbol_of s)) }
{
    let item = span_between(session, member.start, member.end);
    let token = selection(text, item, member.name.as_str().as_bytes());
    Ok(Symbol {
        kind: symbol_kind(member.kind),
        name: member.name.share()?,
        range: range_of(session, item, by),
        selection: range_within(session, token, by),
        children: symbols_of(alloc, session, text, &member.children, by)?,
    })
}

/// Bound names, in their order.
#[cycle(symbols)]
#[tactic(auto, using(crate::proofs::Bound::symbols_more))]
fn symbols_of<A: Analyser>(
    alloc: Global,
    session: &Session<A>,
    text: &[u8],
    members: &[Outlined],
    by: Columns,
) -> Result<Vec<Symbol>, NoMemory>
    requires { length text.now ≤ text_limit }
    ensures { IfOk result (λ v. SymbolsAre (columns_in by) session.now.text (outline_of (map outlined_of members.now)) (puts.symbols_of (map puts.symbol_of v.items))) }
{
    let mut symbols = Vec::new(alloc);
    for member in members {
        symbols.push(symbol_of(alloc, session, text, member, by)?)?;
    }
    Ok(symbols)
}

/// What a text binds.
pub fn outlined<A: Analyser, C: Counts>(
    alloc: Global,
    session: &Session<A>,
    by: Columns,
    counts: &mut C,
) -> Result<Vec<Symbol>, NoMemory>
    ensures are { IfOk result (λ v. OutlinedAs (columns_in by) session.now.text (puts.symbols_of (map puts.symbol_of v.items))) }
    ensures counted { Grows (C.tallies counts.old) (C.tallies counts.new) }
{
    let members = session.outline(counts)?;
    let text = bytes_of(alloc, session)?;
    symbols_of(alloc, session, &text, &members, by)
}
