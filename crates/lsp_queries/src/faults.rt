//! The diagnostics of a text.
ghost use Rattle.std.specs.Prelude.{◌≡◌, Bool, List, map, IfOk};
ghost use Rattle.service_model.specs.Replies as said;
ghost use Rattle.service_model.specs.Structure.{ErrorsAre};
ghost use Rattle.json_lines.specs.Means.{fault_of};
ghost use Rattle.text_terms.specs.Bytes.{str_bytes};
ghost use Rattle.std.specs.Prelude.{codes};
ghost use Rattle.std.specs.Str.{bytes_eq};
ghost use Rattle.syntax_tree.specs.Tallies.{Grows};
ghost use Rattle.lsp_positions.specs.Texts.{columns_in};
ghost use Rattle.lsp_answers.specs.Puts as puts;
ghost use Rattle.lsp_queries.specs.Diagnostics.{diagnostic_told, severity_by, DiagnosticsAre};

use crate::places::{range_of, shown_between};
use analysis_api::Analyser;
use json_lines::{Listed, Reply};
use lsp_answers::{Diagnostic, Severity};
use lsp_positions::Columns;
use session::Session;
use std::alloc::{AllocError, Global};
use syntax_tree::{Counts, NoMemory, RcStr};

/// How grave a fault is, by what reports it.
fn severity_of(source: &RcStr) -> Severity
    ensures { puts.severity_of result ≡ severity_by (bytes_eq (str_bytes source.now) (codes "warning")) }
{
    if source.is("warning") {
        Severity::Warning
    } else {
        Severity::Error
    }
}

/// A fault as a diagnostic.
fn diagnostic<A: Analyser>(
    session: &Session<A>,
    fault: &Listed,
    by: Columns,
) -> Result<Diagnostic, NoMemory>
    ensures { IfOk result (λ d. puts.diagnostic_of d ≡ diagnostic_told (columns_in by) session.now.text (fault_of fault.now)) }
{
    let span = shown_between(session, fault.start, fault.end);
    Ok(Diagnostic {
        kind: Some(fault.kind.share()?),
        message: fault.message.share()?,
        range: range_of(session, span, by),
        severity: severity_of(&fault.ty),
    })
}

/// Faults as diagnostics, in their order.
fn diagnostics<A: Analyser>(
    alloc: Global,
    session: &Session<A>,
    faults: &[Listed],
    by: Columns,
) -> Result<Vec<Diagnostic>, NoMemory>
    ensures { IfOk result (λ v. map puts.diagnostic_of v.items ≡ map (diagnostic_told (columns_in by) session.now.text) (map fault_of faults.now)) }
{
    let mut list = Vec::new(alloc);
    for fault in faults {
        list.push(diagnostic(session, fault, by)?)?;
    }
    Ok(list)
}

/// The faults of a text.
pub fn faults_of<A: Analyser, C: Counts>(
    session: &Session<A>,
    counts: &mut C,
) -> Result<Vec<Listed>, NoMemory>
    ensures faults { IfOk result (λ v. (more : Bool) × ErrorsAre session.now.text (said.faults (map fault_of v.items) more)) }
    ensures counted { Grows (C.tallies counts.old) (C.tallies counts.new) }
{
    match session.errors(counts)? {
        Reply::Faults { list, .. } => Ok(list),
        _ => Err(AllocError),
    }
}

/// The diagnostics of a text.
pub fn diagnostics_in<A: Analyser, C: Counts>(
    alloc: Global,
    session: &Session<A>,
    by: Columns,
    counts: &mut C,
) -> Result<Vec<Diagnostic>, NoMemory>
    ensures are { IfOk result (λ v. DiagnosticsAre (columns_in by) session.now.text (map puts.diagnostic_of v.items)) }
    ensures counted { Grows (C.tallies counts.old) (C.tallies counts.new) }
{
    let faults = faults_of(session, counts)?;
    diagnostics(alloc, session, &faults, by)
}
