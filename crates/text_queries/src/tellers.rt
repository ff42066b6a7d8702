//! Faults as they are told: the parser's, and those of the typer with its warnings.
ghost use Rattle.std.specs.Prelude.{◌≡◌, nat_lt};
ghost use Rattle.query_model.specs.Faults as model;
ghost use Rattle.query_model.specs.Faults.{kind_name, rank, source_name};
ghost use Rattle.syntax_tree.specs.View.{place_of};
ghost use Rattle.text_queries.specs.Faults.{fault_of, kind_of, source_of_teller, told_of};

use env_table::{Fault, FaultKind};
use frame_parser::SyntaxFault;
use syntax_tree::Span;

/// A fault of a text.
#[derive(Clone, Copy)]
pub(crate) enum Told<'a> {
    Parser(SyntaxFault),
    Typer(&'a Fault),
}

/// What tells a fault.
#[derive(Clone, Copy, Debug, PartialEq, Eq)]
pub(crate) enum Teller {
    Parser,
    Typer,
    Warning,
}

impl Teller {
    /// What tells it, as it is printed.
    pub(crate) fn name(self) -> &'static str
        ensures { result.now ≡ source_name (source_of_teller self) }
    {
        match self {
            Teller::Parser => "parser",
            Teller::Typer => "typer",
            Teller::Warning => "warning",
        }
    }
}

/// What tells the faults of a kind.
pub(crate) fn teller_of(kind: FaultKind) -> Teller
    ensures { source_of_teller result ≡ model.source_of (kind_of kind) }
{
    match kind {
        FaultKind::Missed | FaultKind::Unused => Teller::Warning,
        _ => Teller::Typer,
    }
}

/// A kind of fault as it is printed.
pub fn kind_name(kind: FaultKind) -> &'static str
    ensures { result.now ≡ kind_name (kind_of kind) }
{
    match kind {
        FaultKind::Bound => "bound",
        FaultKind::Equal => "equal",
        FaultKind::Arity => "arity",
        FaultKind::Label => "label",
        FaultKind::Mutable => "mutable",
        FaultKind::Complete => "complete",
        FaultKind::Unique => "unique",
        FaultKind::Sides => "sides",
        FaultKind::Range => "range",
        FaultKind::Cycle => "cycle",
        FaultKind::Reexport => "reexport",
        FaultKind::Functor => "functor",
        FaultKind::With => "with",
        FaultKind::Closing => "closing",
        FaultKind::Match => "match",
        FaultKind::Missed => "missed",
        FaultKind::Unused => "unused",
    }
}

/// Where a fault of the parser stands.
pub(crate) fn place_of_fault(fault: SyntaxFault) -> Span
    ensures { place_of result ≡ (fault_of fault).span }
{
    match fault {
        SyntaxFault::Added { place, holes: _ } => Span {
            start: place,
            end: place,
        },
        SyntaxFault::Skipped { span } => span,
        SyntaxFault::TooDeep { span } => span,
        SyntaxFault::Cut { place } => Span {
            start: place,
            end: place,
        },
    }
}

impl<'a> Told<'a> {
    /// Where it stands.
    pub(crate) fn span(self) -> Span
        ensures { place_of result ≡ (told_of self.entry).span }
    {
        match self {
            Told::Parser(fault) => place_of_fault(fault),
            Told::Typer(fault) => fault.span,
        }
    }

    /// What tells it.
    #[tactic(auto, using(crate::proofs::Orders::by_parser))]
    pub(crate) fn teller(self) -> Teller
        ensures { source_of_teller result ≡ (told_of self.entry).source }
    {
        match self {
            Told::Parser(_) => Teller::Parser,
            Told::Typer(fault) => teller_of(fault.kind),
        }
    }
}

/// Whether the faults of the one are told before those of the other, at one place.
pub(crate) fn is_earlier(teller: Teller, other: Teller) -> bool
    ensures { result ≡ nat_lt (rank (source_of_teller teller)) (rank (source_of_teller other)) }
{
    match (teller, other) {
        (Teller::Parser, Teller::Typer | Teller::Warning) => true,
        (Teller::Typer, Teller::Warning) => true,
        _ => false,
    }
}
