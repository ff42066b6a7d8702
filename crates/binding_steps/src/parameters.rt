//! Parameters: patterns of their own, their names in scope, and the arrows from their types.
#![tactic(auto, using(typing_state::proofs::Going::goes_trans, typing_state::proofs::Going::goes_refl, typing_state::proofs::Silence::store_silent, typing_state::proofs::Silence::silent_refl, typing_state::proofs::Silence::silent_trans))]

ghost use Rattle.std.specs.Prelude.{◌≡◌, [], map, All, IfOk, OnOk};
ghost use Rattle.syntax_tree.specs.View.{place_of};
ghost use Rattle.row_parts.specs.Numbered.{operand_view};
ghost use Rattle.type_nodes.specs.Views.{numbers};
ghost use Rattle.operand_laws.specs.Operands.{pattern_of};
ghost use Rattle.typing_state.specs.Goes.{Goes, Silent};
ghost use Rattle.typing_steps.specs.Warning.{OnlyWarnings};
ghost use Rattle.pattern_typing.specs.Matching.{binds_of};
ghost use Rattle.pattern_rows.specs.CarriedPatterns.{IsCarriedPattern};
ghost use Rattle.pattern_rows.specs.Contracts.{MatchesTo, patterns_of};
ghost use Rattle.binding_rows.specs.CaseScopes.{names_added};
ghost use Rattle.binding_rows.specs.Parameters.{MakesArrows, TypesParameters};
ghost use Rattle.match_warnings.specs.Warnings.{missed_at, WarnsOf};

use match_warnings::report_pattern;
use owned_lists::push;
use pattern_typing::{BoundName, Matched, Mentioned, type_pattern};
use row_parts::Operand;
use std::alloc::Global;
use typing_state::{Depth, Env, NoMemory, NodeRef, Parts, share_entry};

/// Types parameters, each a pattern of its own: their types, and the environment with their names.
pub fn type_parameters(
    at: &mut Parts,
    parameters: &[Operand<'_>],
    env: &Env,
    depth: Depth,
) -> Result<(Vec<NodeRef>, Env), NoMemory>
    ensures carries { IfOk result (λ r. All IsCarriedPattern (map operand_view parameters.now) → TypesParameters at.old at.new env.now r.1 (patterns_of at.old.item (map operand_view parameters.now)) (numbers r.0.items)) }
    ensures goes { Goes at.old at.new }
{
    let mut types = Vec::new(at.alloc());
    let mut inner = env.share()?;
    for parameter in parameters {
        let matched = type_parameter(at, *parameter, env, depth)?;
        push(&mut types, matched.ty)?;
        inner = with_names(at.alloc(), &matched.names, &inner)?;
    }
    Ok((types, inner))
}

/// Types a parameter, with the warning of its pattern, where no fault was reported in it.
fn type_parameter<'a>(
    at: &mut Parts,
    parameter: Operand<'a>,
    env: &Env,
    depth: Depth,
) -> Result<Matched<'a>, NoMemory>
    ensures carries { IfOk result (λ m. IsCarriedPattern (operand_view parameter.entry) → MatchesTo at.old at.new env.now (pattern_of at.old.item (operand_view parameter.entry)) [] (binds_of m.names.items) m.ty.0) }
    ensures goes { Goes at.old at.new }
{
    let faults_before = at.faults.list.len();
    let mut seen = Mentioned::new(at.alloc());
    let matched = type_pattern(at, parameter, env, &mut seen, depth.inside()?)?;
    warn_parameter(at, parameter, faults_before, env, depth)?;
    Ok(matched)
}

/// The warning of a parameter's pattern, where there were as many faults before it.
fn warn_parameter(
    at: &mut Parts,
    parameter: Operand<'_>,
    faults_before: usize,
    env: &Env,
    depth: Depth,
) -> Result<(), NoMemory>
    ensures warns { OnOk result (OnlyWarnings at.old at.new) }
    ensures places { OnOk result (WarnsOf (missed_at (place_of parameter.entry.span)) at.old at.new) }
    ensures goes { Goes at.old at.new }
{
    if at.faults.list.len() != faults_before {
        return Ok(());
    }
    report_pattern(at, parameter, env, depth)
}

/// The arrow from the types of parameters to a type.
pub fn arrows(at: &mut Parts, parameters: &[NodeRef], to: NodeRef) -> Result<NodeRef, NoMemory>
    ensures carries { IfOk result (λ m. MakesArrows at.old at.new (numbers parameters.now) to.0 m.0) }
    ensures silent { Silent at.old at.new }
    ensures goes { Goes at.old at.new }
{
    let mut ty = to;
    for place in (0..parameters.len()).rev() {
        ty = at.arrow(parameters[place], ty)?;
    }
    Ok(ty)
}

/// The environment with the names of a pattern, in order.
pub fn with_names(alloc: Global, names: &[BoundName<'_>], env: &Env) -> Result<Env, NoMemory>
    ensures scope { IfOk result (λ inner. inner ≡ names_added (binds_of names.now) env.now) }
{
    let mut inner = env.share()?;
    for name in names {
        inner = inner.add(alloc, share_entry(&name.entry)?)?;
    }
    Ok(inner)
}
