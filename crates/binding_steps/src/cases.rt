//! What a match knows before its cases, and the pattern of a case.
#![tactic(auto, using(typing_state::proofs::Going::goes_trans, typing_state::proofs::Going::goes_refl))]

ghost use Rattle.std.specs.Prelude.{◌≡◌, [], ◌∷◌, ◌++◌, IfOk, OnOk};
ghost use Rattle.syntax_tree.specs.Names.{row_of};
ghost use Rattle.binding_steps.specs.Sides.{sides_by};
ghost use Rattle.syntax_tree.specs.View.{place_of};
ghost use Rattle.row_parts.specs.Numbered.{operand_view};
ghost use Rattle.operand_laws.specs.Operands.{pattern_of};
ghost use Rattle.pattern_typing.specs.Matching.{binds_of};
ghost use Rattle.pattern_rows.specs.CarriedPatterns.{IsCarriedPattern};
ghost use Rattle.binding_rows.specs.Cases.{MatchesAs, MatchesWithin};
ghost use Rattle.typing_state.specs.Goes.{Goes};
ghost use Rattle.match_warnings.specs.Warnings.{spans_of};

use crate::parameters::with_names;
use match_warnings::Rows;
use pattern_typing::{Matched, Mentioned, type_pattern};
use row_parts::Operand;
use syntax_tree::{RowName, Span};
use typing_state::{Depth, Env, NoMemory, NodeRef, Parts};

/// A case by its parts, and where it stands.
#[derive(Clone, Copy)]
pub struct Case<'a> {
    pub span: Span,
    pub pattern: Operand<'a>,
    pub guard: Option<Operand<'a>>,
    pub body: Operand<'a>,
}

/// The type of what is matched, and of the bodies, where it is known before them. A `try` matches exceptions, and its bodies have
/// the type of what is tried.
pub fn sides_of(at: &Parts, row: RowName, ty: NodeRef) -> (NodeRef, Option<NodeRef>)
    ensures sides { result ≡ sides_by (row_of row) at.now.constants.exn ty }
{
    match row {
        RowName::Etry => (at.constants.exn, Some(ty)),
        _ => (ty, None),
    }
}

/// The pattern of a case, which is a row of the match: the environment with its names.
pub fn within_case(
    at: &mut Parts,
    case: Case<'_>,
    matched: NodeRef,
    rows: &mut Rows,
    env: &Env,
    depth: Depth,
) -> Result<Env, NoMemory>
    ensures carries { IfOk result (λ inner. IsCarriedPattern (operand_view case.entry.pattern) → MatchesWithin at.old at.new env.now inner (pattern_of at.old.item (operand_view case.entry.pattern)) matched.0) }
    ensures spans { OnOk result (spans_of rows.new ≡ spans_of rows.old ++ place_of case.entry.span ∷ []) }
    ensures goes { Goes at.old at.new }
{
    let faults_before = at.faults.list.len();
    let bound = type_matched(at, case.pattern, matched, env, depth)?;
    rows.add(
        at,
        case.span,
        case.pattern,
        case.guard,
        faults_before,
        env,
        depth,
    )?;
    with_names(at.alloc(), &bound.names, env)
}

/// A pattern, which has the type of what is matched.
fn type_matched<'a>(
    at: &mut Parts,
    pattern: Operand<'a>,
    matched: NodeRef,
    env: &Env,
    depth: Depth,
) -> Result<Matched<'a>, NoMemory>
    ensures carries { IfOk result (λ m. IsCarriedPattern (operand_view pattern.entry) → MatchesAs at.old at.new env.now (pattern_of at.old.item (operand_view pattern.entry)) (binds_of m.names.items) matched.0) }
    ensures goes { Goes at.old at.new }
{
    let mut seen = Mentioned::new(at.alloc());
    let bound = type_pattern(at, pattern, env, &mut seen, depth.inside()?)?;
    at.equal(pattern.span, bound.ty, matched, env)?;
    Ok(bound)
}
