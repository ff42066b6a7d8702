//! The demands that a signature matches another, and that a module is a functor.
ghost use Rattle.std.specs.Prelude.{◌≡◌, not, string_bytes, IfOk, OnOk};
ghost use Rattle.text_terms.specs.Bytes.{str_bytes};
ghost use Rattle.typing_state.specs.Goes.{Goes, OnlyFaults};
ghost use Rattle.module_steps.specs.Told.{mismatch_message, no_functor_text};
ghost use Rattle.module_steps.specs.Modules.{is_structure, dotted, ToldUnless, ToldMismatch, AsksMatch};

use env_table::{FaultKind, Sig, Template};
use signature_match::{Cause, Mismatch, match_sig};
use std::alloc::Global;
use syntax_tree::Span;
use text_terms::RcStr;
use typing_state::{NoMemory, Parts};

/// What is wrong with the component that a path leads to.
fn cause_text(alloc: Global, cause: Cause, path: &str) -> Result<String, NoMemory>
    ensures { IfOk result (λ t. string_bytes t ≡ mismatch_message cause path.now) }
{
    match cause {
        Cause::Absent => format!(in alloc; "The component {path} is absent"),
        Cause::TypeArity => format!(in alloc; "The type {path} has another number of parameters"),
        Cause::TypeDiffers => format!(in alloc; "The type {path} has another definition"),
        Cause::ValueDiffers => format!(in alloc; "The value {path} has another type"),
        Cause::ExceptionDiffers => format!(in alloc; "The exception {path} has another argument"),
        Cause::KindDiffers => format!(in alloc; "The module {path} is of another kind"),
        Cause::ModuleTypeDiffers => format!(in alloc;
            "The module type {path} has another definition"
        ),
    }
}

/// The message of a mismatch, with its dotted path.
fn mismatch_text(at: &Parts, mismatch: &Mismatch) -> Result<RcStr, NoMemory>
    ensures { IfOk result (λ r. str_bytes r ≡ mismatch_message mismatch.now.cause (dotted mismatch.now)) }
{
    let path = mismatch.text(at.alloc())?;
    let text = cause_text(at.alloc(), mismatch.cause, path.as_str())?;
    RcStr::new(at.alloc(), text)
}

/// Whether there is no mismatch; one is reported.
fn tell_mismatch(at: &mut Parts, span: Span, mismatch: Option<Mismatch>) -> Result<bool, NoMemory>
    ensures told { IfOk result (λ kept. ToldMismatch mismatch kept at.old at.new span) }
    ensures rest { OnlyFaults at.old at.new }
    ensures goes { Goes at.old at.new }
{
    match mismatch {
        None => Ok(true),
        Some(mismatch) => {
            let text = mismatch_text(at, &mismatch)?;
            at.report(span, FaultKind::Match, text)?;
            Ok(false)
        }
    }
}

/// Whether the demand that a signature matches a template is kept.
pub fn ask_match(
    at: &mut Parts,
    span: Span,
    actual: &Sig,
    wanted: &Template,
) -> Result<bool, NoMemory>
    ensures asked { IfOk result (λ kept. AsksMatch kept at.old at.new span actual.now wanted.now) }
    ensures goes { Goes at.old at.new }
{
    let mismatch = match_sig(at, actual, wanted)?;
    tell_mismatch(at, span, mismatch)
}

/// The demand that a module is a functor; what isn't known may be one.
pub fn ask_functor(at: &mut Parts, span: Span, sig: &Sig) -> Result<bool, NoMemory>
    ensures kept { IfOk result (λ kept. kept ≡ not (is_structure sig.now)) }
    ensures told { OnOk result (ToldUnless (not (is_structure sig.now)) at.old at.new span FaultKind.Functor no_functor_text) }
    ensures rest { OnlyFaults at.old at.new }
    ensures goes { Goes at.old at.new }
{
    match sig {
        Sig::Structure(_) => {
            let text = RcStr::from_str(at.alloc(), "This module is not a functor")?;
            at.report(span, FaultKind::Functor, text)?;
            Ok(false)
        }
        Sig::Functor(_, _) => Ok(true),
        Sig::Hole => Ok(true),
    }
}
