//! The page of a text's faults.
ghost use Rattle.std.specs.Prelude.{◌≡◌, ◌++◌, map, IfOk};
ghost use Rattle.text_terms.specs.Bytes.{str_bytes};
ghost use Rattle.query_model.specs.Faults.{by_typer, has_more, listed, missing_text, page};
ghost use Rattle.syntax_tree.specs.View.{place_of};
ghost use Rattle.text_queries.specs.Faults.{fault_of, listed_of, told_by_parser, told_of, typer_fault_of};

use crate::order::{PAGE_LIMIT, first_faults};
use crate::tellers::{Teller, Told, kind_name, place_of_fault, teller_of};
use env_table::Fault;
use frame_parser::SyntaxFault;
use std::alloc::{AllocError, Global};
use syntax_tree::{NoMemory, RcStr, Span};

/// A fault of a text.
#[derive(Drop)]
pub struct Listed {
    /// Where it stands, in bytes from 0.
    pub span: Span,
    pub kind: RcStr,
    pub message: RcStr,
    /// What tells it: `parser`, `typer` or `warning`.
    pub ty: RcStr,
}

/// The first faults of a text.
#[derive(Drop)]
pub struct FaultPage {
    /// By start, then end, then what tells them; those that are alike in it as they were found.
    pub list: Vec<Listed>,
    /// Whether there are others.
    pub more: bool,
}

/// How many parts are missing, in words.
fn missing_text(alloc: Global, holes: u32) -> Result<RcStr, NoMemory>
    ensures { IfOk result (λ r. str_bytes r ≡ missing_text holes) }
{
    if holes == 1 {
        return RcStr::from_str(alloc, "1 part is missing here");
    }
    match format!(in alloc; "{holes} parts are missing here") {
        Ok(text) => RcStr::new(alloc, text),
        Err(_) => Err(AllocError),
    }
}

/// A fault that the parser tells.
fn by_parser(alloc: Global, span: Span, kind: &str, message: RcStr) -> Result<Listed, NoMemory>
    ensures { IfOk result (λ l. listed_of l ≡ told_by_parser (place_of span) kind.now (str_bytes message)) }
{
    Ok(Listed {
        span,
        kind: RcStr::from_str(alloc, kind)?,
        message,
        ty: RcStr::from_str(alloc, Teller::Parser.name())?,
    })
}

/// A fault of the parser with its kind and its message.
fn listed_parsed(alloc: Global, fault: SyntaxFault) -> Result<Listed, NoMemory>
    ensures { IfOk result (λ l. listed_of l ≡ listed (fault_of fault)) }
{
    let span = place_of_fault(fault);
    match fault {
        SyntaxFault::Added { place: _, holes } => {
            by_parser(alloc, span, "added", missing_text(alloc, holes)?)
        }
        SyntaxFault::Skipped { span: _ } => {
            let message = RcStr::from_str(alloc, "This token does not fit here")?;
            by_parser(alloc, span, "skipped", message)
        }
        SyntaxFault::TooDeep { span: _ } => {
            let message = RcStr::from_str(alloc, "This token is nested too deeply")?;
            by_parser(alloc, span, "deep", message)
        }
        SyntaxFault::Cut { place: _ } => {
            let message = RcStr::from_str(alloc, "The definition is cut off here")?;
            by_parser(alloc, span, "cut", message)
        }
    }
}

/// A fault of the typer with its kind and its message.
fn listed_typed(alloc: Global, fault: &Fault) -> Result<Listed, NoMemory>
    ensures { IfOk result (λ l. listed_of l ≡ listed (by_typer (typer_fault_of fault.now))) }
{
    Ok(Listed {
        span: fault.span,
        kind: RcStr::from_str(alloc, kind_name(fault.kind))?,
        message: fault.message.share()?,
        ty: RcStr::from_str(alloc, teller_of(fault.kind).name())?,
    })
}

fn listed_fault(alloc: Global, fault: Told<'_>) -> Result<Listed, NoMemory>
    ensures { IfOk result (λ l. listed_of l ≡ listed (told_of fault.entry)) }
{
    match fault {
        Told::Parser(fault) => listed_parsed(alloc, fault),
        Told::Typer(fault) => listed_typed(alloc, fault),
    }
}

/// Each of these faults with its kind and its message.
fn listed_all(alloc: Global, faults: &[Told<'_>]) -> Result<Vec<Listed>, NoMemory>
    ensures { IfOk result (λ v. map listed_of v.items ≡ map listed (map told_of faults.now)) }
{
    let mut list = Vec::new(alloc);
    for fault in faults {
        let member = listed_fault(alloc, *fault)?;
        if list.push(member).is_err() {
            return Err(AllocError);
        }
    }
    Ok(list)
}

/// The page of a text's faults, those of the parser and those of the typer with its warnings, each in the order in which
/// they were found: the first 1,000 by start, then end, then what tells them, and whether there are others.
#[tactic(auto, unfolding(query_model::specs::Faults::page))]
pub fn errors(alloc: Global, parsed: &[SyntaxFault], typed: &[Fault]) -> Result<FaultPage, NoMemory>
    ensures list { IfOk result (λ p. map listed_of p.list.items ≡ page (map fault_of parsed.now ++ map by_typer (map typer_fault_of typed.now))) }
    ensures more { IfOk result (λ p. p.more ≡ has_more (map fault_of parsed.now ++ map by_typer (map typer_fault_of typed.now))) }
{
    let first = first_faults(alloc, parsed, typed)?;
    Ok(FaultPage {
        list: listed_all(alloc, &first)?,
        more: parsed.len().saturating_add(typed.len()) > PAGE_LIMIT,
    })
}
