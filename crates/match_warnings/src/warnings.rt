//! Match warnings: values that are missed, and cases that no value reaches.
#![tactic(auto, using(typing_state::proofs::Going::goes_trans, typing_state::proofs::Going::goes_refl))]

ghost use Rattle.std.specs.Prelude.{◌≡◌, ◌==◌, ◌||◌, [], ◌∷◌, ◌++◌, List, length, map, not, is_some, false, Option, IfOk, OnOk};
ghost use Rattle.std.specs.List.{list_any};
ghost use Rattle.type_model.specs.Types as types;
ghost use Rattle.syntax_tree.specs.Names.{row_of};
ghost use Rattle.syntax_tree.specs.View.{node_view, part_view, place_of};
ghost use Rattle.row_parts.specs.Numbered.{operand_view, row_at};
ghost use Rattle.pattern_matrix.specs.Lines.{Member};
ghost use Rattle.pattern_matrix.specs.Views.{typed_of};
ghost use Rattle.typing_state.specs.Goes.{faults_of, Goes};
ghost use Rattle.typing_conditions.specs.Sights.{Report};
ghost use Rattle.typing_steps.specs.Warning.{OnlyWarnings};
ghost use Rattle.match_warnings.specs.Forms.{is_plain};
ghost use Rattle.match_warnings.specs.Patterns.{HasMembers};
ghost use Rattle.match_warnings.specs.Reported as rule;
ghost use Rattle.match_warnings.specs.Reported.{Case, case_in, is_lacking, one_pattern, seen_in, seen_row, unused_among, unused_if, Holds, Reports, ReportsMatch, ReportsMissed, ReportsPattern, TellsOfMissed};
ghost use Rattle.match_warnings.specs.Warnings.{is_try, missed_at, missed_in, spans_of, unused_at, unused_cases, warnings_of, WarnsOf};

use crate::forms::{form_of, matches_any};
use crate::pats::{SeenType, lone_pat, row_pat};
use env_table::FaultKind;
use owned_lists::push;
use pattern_matrix::{Matrix, Pat, PatRow, missed, print_shape, unused_rows};
use row_parts::Operand;
use std::alloc::{AllocError, Global};
use syntax_tree::{Node, Part, RcStr, RowName, Span};
use typing_state::{Depth, Env, NoMemory, Parts};

/// The rows of a match while its cases are typed.
#[derive(Drop)]
pub struct Rows {
    rows: Vec<PatRow>,
    /// Where each case stands; it has a row at the same place, unless the match is open.
    spans: Vec<Span>,
    /// The types of the rows' constructors.
    types: Vec<SeenType>,
    /// Whether a pattern has a missing part, a fault, or a type that isn't known, so that no warning is given. It stays open.
    is_open: bool,
}

/// Whether a part of a node is missing, be it an operand or a token, at any depth.
#[cycle(missing)]
fn lacks_part(node: &Node) -> bool
    ensures { result ≡ rule.lacks_part (node_view node.now) }
{
    for child in &node.children {
        if is_lacking(&child.part) {
            return true;
        }
    }
    false
}

#[cycle(missing)]
fn is_lacking(part: &Part) -> bool
    ensures { result ≡ rule.is_lacking (part_view part.now) }
{
    match part {
        Part::Taken(_) => false,
        Part::Inner(node) => lacks_part(node),
        Part::Missing(_) => true,
    }
}

/// Whether a pattern is missing, or a part of it is.
fn is_unfinished(pattern: Operand<'_>) -> bool
    ensures { result ≡ rule.is_lacking (operand_view pattern.entry).part }
{
    match pattern.node {
        Some(node) => lacks_part(node),
        None => true,
    }
}

/// Whether nothing is seen of a pattern that was typed with this many faults before it: there are others, or a part of it is missing.
fn is_hidden(at: &Parts, pattern: Operand<'_>, faults_before: usize) -> bool
    ensures { result ≡ (not (length (faults_of at.now) == faults_before) || is_lacking (operand_view pattern.entry).part) }
{
    at.faults.list.len() != faults_before || is_unfinished(pattern)
}

fn row(alloc: Global, pat: Pat, guarded: bool) -> Result<PatRow, NoMemory>
    ensures { IfOk result (λ r. seen_row r ≡ one_pattern (typed_of pat) guarded) }
{
    let mut pats = Vec::new(alloc);
    push(&mut pats, pat)?;
    Ok(PatRow { pats, guarded })
}

/// Reports the first shape that rows miss, if they miss one.
fn report_missed(at: &mut Parts, matrix: &Matrix, span: Span) -> Result<(), NoMemory>
    ensures which { OnOk result (ReportsMissed (map seen_row matrix.now.rows.items) at.old.telling (place_of span) (faults_of at.old) (faults_of at.new)) }
    ensures places { OnOk result (WarnsOf (missed_at (place_of span)) at.old at.new) }
    ensures warns { OnOk result (OnlyWarnings at.old at.new) }
    ensures goes { Goes at.old at.new }
{
    let alloc = at.alloc();
    let Some(shape) = missed(alloc, matrix, 1)? else {
        return Ok(());
    };
    let shape = print_shape(alloc, &shape)?;
    let shape = shape.as_str();
    let text = match format!(in alloc; "Not every value is matched: {shape}") {
        Ok(text) => RcStr::new(alloc, text)?,
        Err(_) => return Err(AllocError),
    };
    at.report(span, FaultKind::Missed, text)
}

impl Rows {
    pub fn new(alloc: Global) -> Rows
        ensures held { (members : types.Path → List Member) → Holds members result [] }
        ensures spans { spans_of result ≡ [] }
    {
        Rows {
            rows: Vec::new(alloc),
            spans: Vec::new(alloc),
            types: Vec::new(alloc),
            is_open: false,
        }
    }

    /// A case whose pattern was typed with this many faults before it.
    pub fn add(
        &mut self,
        at: &Parts,
        case: Span,
        pattern: Operand<'_>,
        guard: Option<Operand<'_>>,
        faults_before: usize,
        env: &Env,
        depth: Depth,
    ) -> Result<(), NoMemory>
        ensures held { OnOk result ((members : types.Path → List Member) (cases : List Case) → HasMembers members env.now → Holds members self.old cases →
            Holds members self.new (cases ++ case_in env.now (not (length (faults_of at.now) == faults_before)) (place_of case) (operand_view pattern.entry) (is_some guard.entry) ∷ [])) }
        ensures spans { OnOk result (spans_of self.new ≡ spans_of self.old ++ place_of case ∷ []) }
    {
        push(&mut self.spans, case)?;
        if is_hidden(at, pattern, faults_before) {
            self.is_open = true;
            return Ok(());
        }
        match row_pat(at, pattern, env, depth, &mut self.types)? {
            Some(pat) => {
                let row = row(at.alloc(), pat, guard.is_some())?;
                push(&mut self.rows, row)?;
                Ok(())
            }
            None => {
                self.is_open = true;
                Ok(())
            }
        }
    }

    /// Whether no warning is given: a pattern isn't seen, or there is no row.
    fn is_silent(&self) -> bool
        ensures { result ≡ (self.now.is_open || length self.now.rows.items == 0) }
    {
        self.is_open || self.rows.is_empty()
    }

    /// The warnings of a match at this place: the first missed shape, but not of a `try`, and the cases that no value reaches.
    pub fn report(self, at: &mut Parts, match_row: RowName, span: Span) -> Result<(), NoMemory>
        ensures which { OnOk result ((members : types.Path → List Member) (cases : List Case) → Holds members self cases →
            ReportsMatch cases at.old.telling (row_of match_row) (place_of span) (faults_of at.old) (faults_of at.new)) }
        ensures places { OnOk result (WarnsOf (warnings_of (row_of match_row) (place_of span) (spans_of self)) at.old at.new) }
        ensures warns { OnOk result (OnlyWarnings at.old at.new) }
        ensures goes { Goes at.old at.new }
    {
        if self.is_silent() {
            return Ok(());
        }
        let matrix = Matrix { rows: self.rows };
        report_missed_in(at, match_row, &matrix, span)?;
        let unused = unused_rows(at.alloc(), &matrix)?;
        report_unused(at, &self.spans, &unused)
    }
}

/// The warnings of cases that no value reaches, by their places among all.
fn report_unused(at: &mut Parts, cases: &[Span], unused: &[usize]) -> Result<(), NoMemory>
    ensures which { OnOk result (Reports at.old.telling (unused_among unused.now 0 (map place_of cases.now)) (faults_of at.old) (faults_of at.new)) }
    ensures places { OnOk result (WarnsOf (unused_cases (map place_of cases.now)) at.old at.new) }
    ensures warns { OnOk result (OnlyWarnings at.old at.new) }
    ensures goes { Goes at.old at.new }
{
    for place in 0..cases.len() {
        report_if_unused(at, cases[place], place, unused)?;
    }
    Ok(())
}

/// The warning of a case, where its place is among these.
fn report_if_unused(
    at: &mut Parts,
    case: Span,
    place: usize,
    unused: &[usize],
) -> Result<(), NoMemory>
    ensures which { OnOk result (Reports at.old.telling (unused_if (list_any (λ u. u == place) unused.now) (place_of case)) (faults_of at.old) (faults_of at.new)) }
    ensures places { OnOk result (WarnsOf (unused_at (place_of case)) at.old at.new) }
    ensures warns { OnOk result (OnlyWarnings at.old at.new) }
    ensures goes { Goes at.old at.new }
{
    if !unused.contains(&place) {
        return Ok(());
    }
    let text = RcStr::from_str(at.alloc(), "No value reaches this case")?;
    at.report(case, FaultKind::Unused, text)
}

/// Whether a match is a `try`.
#[tactic(auto, unfolding(syntax_tree::specs::Names::row_of, crate::specs::Warnings::is_try))]
fn is_try(row: RowName) -> bool
    ensures { result ≡ is_try (row_of row) }
{
    match row {
        RowName::Etry => true,
        _ => false,
    }
}

/// The warning of the first missed shape, but not of a `try`.
fn report_missed_in(
    at: &mut Parts,
    match_row: RowName,
    matrix: &Matrix,
    span: Span,
) -> Result<(), NoMemory>
    ensures which { OnOk result ((ws : List Report) × TellsOfMissed (is_try (row_of match_row)) (place_of span) (map seen_row matrix.now.rows.items) ws × Reports at.old.telling ws (faults_of at.old) (faults_of at.new)) }
    ensures places { OnOk result (WarnsOf (missed_in (row_of match_row) (place_of span)) at.old at.new) }
    ensures warns { OnOk result (OnlyWarnings at.old at.new) }
    ensures goes { Goes at.old at.new }
{
    if is_try(match_row) {
        return Ok(());
    }
    report_missed(at, matrix, span)
}

/// The warning of a pattern of a binding or of a parameter, in which no fault was reported.
pub fn report_pattern(
    at: &mut Parts,
    pattern: Operand<'_>,
    env: &Env,
    depth: Depth,
) -> Result<(), NoMemory>
    ensures which { OnOk result ((members : types.Path → List Member) → HasMembers members env.now →
        ReportsPattern (seen_in env.now false (operand_view pattern.entry)) at.old.telling (place_of pattern.entry.span) (faults_of at.old) (faults_of at.new)) }
    ensures places { OnOk result (WarnsOf (missed_at (place_of pattern.entry.span)) at.old at.new) }
    ensures warns { OnOk result (OnlyWarnings at.old at.new) }
    ensures goes { Goes at.old at.new }
{
    if is_plain(pattern) {
        return Ok(());
    }
    if is_unfinished(pattern) {
        return Ok(());
    }
    if let Some(pat) = lone_pat(at, pattern, env, depth)? {
        let alloc = at.alloc();
        let mut rows = Vec::new(alloc);
        push(&mut rows, row(alloc, pat, false)?)?;
        report_missed(at, &Matrix { rows }, pattern.span)?;
    }
    Ok(())
}

/// Whether a pattern matches everything by its row alone.
fn is_plain(pattern: Operand<'_>) -> bool
    ensures { result ≡ is_plain (row_at (operand_view pattern.entry).part) }
{
    match pattern.row() {
        Some(row) => matches_any(form_of(row)),
        None => false,
    }
}
