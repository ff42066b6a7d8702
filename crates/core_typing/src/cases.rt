//! Matches: `match`, `try` and `function`.
#![tactic(auto, using(typing_state::proofs::Going::goes_trans, typing_state::proofs::Going::goes_refl))]

ghost use Rattle.std.specs.Prelude.{◌≡◌, ℕ, [], ◌∷◌, ◌++◌, map, option_map, All, IfOk, OnOk};
ghost use Rattle.std.specs.Option.{IfSome};
ghost use Rattle.tree_model.specs.Trees.{Place};
ghost use Rattle.tree_model.specs.Extents.{extent_of};
ghost use Rattle.syntax_tree.specs.View.{node_view, place_of};
ghost use Rattle.row_parts.specs.Numbered.{operand_view, operands_in};
ghost use Rattle.operand_laws.specs.Operands.{number_of, expression_of};
ghost use Rattle.typing_steps.specs.Typing.{TypesRow};
ghost use Rattle.typing_rows.specs.CarriedRows.{IsCarried};
ghost use Rattle.typing_rows.specs.Asked.{row_expression};
ghost use Rattle.pattern_rows.specs.CarriedPatterns.{IsCarriedPattern};
ghost use Rattle.binding_rows.specs.Cases.{TypesCaseIf, TypesCasePartsTo, TypesCases, TypesEachCase, TypesGuard, case_by, case_of, case_over, cases_of};
ghost use Rattle.binding_rows.specs.CaseCarried.{IsCase, IsCaseNode, IsFunctionNode, IsMatchOrTry};
ghost use Rattle.typing_state.specs.Goes.{Goes};
ghost use Rattle.match_warnings.specs.Warnings.{spans_of, warnings_of, WarnsAtLast};
ghost use Rattle.core_typing.specs.Cases.{place_there, places_there};
ghost use Rattle.value_forms.specs.Heads.{row_at};
ghost use Rattle.typing_state.specs.Notes.{IsRecorded};

use crate::exprs::{type_under, typed_as};
use binding_steps::{Case, sides_of, within_case};
use match_warnings::Rows;
use row_parts::{Operand, first_operand, operand_in, operands};
use syntax_tree::{Node, Span};
use typing_state::{Depth, Env, NoMemory, NodeRef, Parts};
use use_typing::{Sign, Used, type_or_var, unnamed};

/// match e with p -> e, try e with p -> e
#[cycle(exprs)]
pub fn match_of(
    at: &mut Parts,
    node: &Node,
    number: u32,
    env: &Env,
    depth: Depth,
) -> Result<Used, NoMemory>
    ensures carries { IfOk result (λ u. (place : Place) → IsMatchOrTry number (node_view node.now) → TypesRow at.old at.new env.now (λ c. (row_expression at.old.item number place (node_view node.now)).typed c) (number_of at.old.item number) u.ty.0) }
    ensures goes { Goes at.old at.new }
{
    let subject = operand_in(node, number, 1);
    let ty = type_under(at, subject, Sign::None, env, depth.inside()?)?;
    let (matched, bodies) = sides_of(at, node.row, ty);
    let ty = type_cases(at, node, number, matched, bodies, env, depth)?;
    Ok(unnamed(at, ty))
}

/// function p -> e
#[cycle(exprs)]
pub fn function_of_cases(
    at: &mut Parts,
    node: &Node,
    number: u32,
    env: &Env,
    depth: Depth,
) -> Result<Used, NoMemory>
    ensures carries { IfOk result (λ u. (place : Place) → IsFunctionNode number (node_view node.now) → TypesRow at.old at.new env.now (λ c. (row_expression at.old.item number place (node_view node.now)).typed c) (number_of at.old.item number) u.ty.0) }
    ensures goes { Goes at.old at.new }
{
    let from = at.var()?;
    let to = type_cases(at, node, number, from, None, env, depth)?;
    let ty = at.arrow(from, to)?;
    Ok(unnamed(at, ty))
}

/// The cases of a match in order, and their warnings: the type of their bodies.
#[cycle(exprs)]
fn type_cases(
    at: &mut Parts,
    node: &Node,
    number: u32,
    matched: NodeRef,
    known: Option<NodeRef>,
    env: &Env,
    depth: Depth,
) -> Result<NodeRef, NoMemory>
    ensures carries { IfOk result (λ m. All IsCase (operands_in number (node_view node.now) 4) → TypesCases at.old at.new env.now (cases_of at.old.item (operands_in number (node_view node.now) 4)) matched.0 (option_map (λ w. w.0) known) m.0) }
    ensures warns { OnOk result (WarnsAtLast (warnings_of (row_at (node_view node.now)) (extent_of (node_view node.now)).span (places_there (operands_in number (node_view node.now) 4))) at.old at.new) }
    ensures goes { Goes at.old at.new }
{
    let cases = operands(at.alloc(), node, number, 4)?;
    let mut rows = Rows::new(at.alloc());
    let bodies = type_each_case(at, &cases, matched, known, &mut rows, env, depth)?;
    rows.report(at, node.row, node.span)?;
    type_or_var(at, bodies)
}

/// Cases in order, each of which becomes a row of the match: the type of the bodies.
#[cycle(exprs)]
fn type_each_case(
    at: &mut Parts,
    cases: &[Operand<'_>],
    matched: NodeRef,
    known: Option<NodeRef>,
    rows: &mut Rows,
    env: &Env,
    depth: Depth,
) -> Result<Option<NodeRef>, NoMemory>
    ensures carries { IfOk result (λ bodies. All IsCase (map operand_view cases.now) → TypesEachCase at.old at.new env.now (cases_of at.old.item (map operand_view cases.now)) matched.0 (option_map (λ w. w.0) known) (option_map (λ w. w.0) bodies)) }
    ensures spans { OnOk result (spans_of rows.new ≡ spans_of rows.old ++ places_there (map operand_view cases.now)) }
    ensures goes { Goes at.old at.new }
{
    let mut bodies = known;
    for case in cases {
        bodies = type_case(at, *case, matched, bodies, rows, env, depth)?;
    }
    Ok(bodies)
}

/// A case, which is recorded, or a missing one: the type of the bodies.
#[cycle(exprs)]
fn type_case(
    at: &mut Parts,
    case: Operand<'_>,
    matched: NodeRef,
    bodies: Option<NodeRef>,
    rows: &mut Rows,
    env: &Env,
    depth: Depth,
) -> Result<Option<NodeRef>, NoMemory>
    ensures carries { IfOk result (λ now. IsCase (operand_view case.entry) → TypesCaseIf at.old at.new env.now (case_of at.old.item (operand_view case.entry)) matched.0 (option_map (λ w. w.0) bodies) (option_map (λ w. w.0) now)) }
    ensures spans { OnOk result (spans_of rows.new ≡ spans_of rows.old ++ place_there (place_of case.entry.span) (operand_view case.entry).part) }
    ensures recorded { OnOk result (IsRecorded at.new case.entry.number) }
    ensures goes { Goes at.old at.new }
{
    at.note_plain(case.number, env)?;
    let Some(node) = case.node else {
        return Ok(bodies);
    };
    typed_case(
        at,
        case.span,
        node,
        case.number,
        matched,
        bodies,
        rows,
        env,
        depth,
    )
}

/// A case that is there: its pattern, which has the type of what is matched; the guard, which is a bool; the body, which has the type
/// of the bodies, and gives it where it is the first.
#[cycle(exprs)]
fn typed_case(
    at: &mut Parts,
    span: Span,
    node: &Node,
    number: u32,
    matched: NodeRef,
    bodies: Option<NodeRef>,
    rows: &mut Rows,
    env: &Env,
    depth: Depth,
) -> Result<Option<NodeRef>, NoMemory>
    ensures carries { IfOk result (λ now. IsCaseNode number (node_view node.now) → TypesCasePartsTo at.old at.new env.now (case_over at.old.item number (node_view node.now)) matched.0 (option_map (λ w. w.0) bodies) (option_map (λ w. w.0) now)) }
    ensures spans { OnOk result (spans_of rows.new ≡ spans_of rows.old ++ place_of span ∷ []) }
    ensures goes { Goes at.old at.new }
{
    let case = Case {
        span,
        pattern: operand_in(node, number, 0),
        guard: first_operand(node, number, 2),
        body: operand_in(node, number, 4),
    };
    case_of(at, case, matched, bodies, rows, env, depth)
}

/// The same by its parts.
#[cycle(exprs)]
fn case_of(
    at: &mut Parts,
    case: Case<'_>,
    matched: NodeRef,
    bodies: Option<NodeRef>,
    rows: &mut Rows,
    env: &Env,
    depth: Depth,
) -> Result<Option<NodeRef>, NoMemory>
    ensures carries { IfOk result (λ now. (n : ℕ) → IsCarriedPattern (operand_view case.entry.pattern) → IfSome (option_map operand_view case.entry.guard) IsCarried → IsCarried (operand_view case.entry.body) → TypesCasePartsTo at.old at.new env.now (case_by at.old.item n (operand_view case.entry.pattern) (option_map operand_view case.entry.guard) (operand_view case.entry.body)) matched.0 (option_map (λ w. w.0) bodies) (option_map (λ w. w.0) now)) }
    ensures spans { OnOk result (spans_of rows.new ≡ spans_of rows.old ++ place_of case.entry.span ∷ []) }
    ensures goes { Goes at.old at.new }
{
    let inner = within_case(at, case, matched, rows, env, depth)?;
    type_guard(at, case.guard, &inner, depth)?;
    let ty = typed_as(at, case.body, bodies, &inner, depth)?;
    Ok(Some(bodies.unwrap_or(ty)))
}

/// A guard, where there is one, is a bool.
#[cycle(exprs)]
fn type_guard(
    at: &mut Parts,
    guard: Option<Operand<'_>>,
    inner: &Env,
    depth: Depth,
) -> Result<(), NoMemory>
    ensures carries { OnOk result (IfSome (option_map operand_view guard.entry) IsCarried → TypesGuard at.old at.new inner.now (option_map (λ o. expression_of at.old.item o) (option_map operand_view guard.entry))) }
    ensures goes { Goes at.old at.new }
{
    let bool = at.constants.bool;
    if let Some(guard) = guard {
        typed_as(at, guard, Some(bool), inner, depth)?;
    }
    Ok(())
}
