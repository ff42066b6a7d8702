//! Bindings as they are typed: their patterns, what is written for a right side, and that a pattern is the whole.
#![tactic(auto, using(typing_state::proofs::Going::goes_trans, typing_state::proofs::Going::goes_refl, typing_state::proofs::Silence::store_silent, typing_state::proofs::Silence::silent_refl, typing_state::proofs::Silence::silent_trans))]

ghost use Rattle.std.specs.Prelude.{◌≡◌, ◌+◌, ◌-◌, ◌<◌, [], ◌++◌, map, option_map, is_some, None, IfOk, OnOk};
ghost use Rattle.syntax_tree.specs.View.{node_view, place_of};
ghost use Rattle.row_parts.specs.Numbered.{operand_view, filled_in};
ghost use Rattle.type_nodes.specs.Views.{numbers};
ghost use Rattle.operand_laws.specs.Operands.{pattern_of};
ghost use Rattle.typing_state.specs.Goes.{Goes};
ghost use Rattle.typing_steps.specs.Warning.{OnlyWarnings};
ghost use Rattle.pattern_typing.specs.Matching.{binds_of, names_seen};
ghost use Rattle.pattern_rows.specs.CarriedPatterns.{IsCarriedPattern};
ghost use Rattle.pattern_rows.specs.Contracts.{Matches};
ghost use Rattle.binding_rows.specs.CaseScopes.{names_added};
ghost use Rattle.binding_rows.specs.Groups.{names_opened};
ghost use Rattle.binding_rows.specs.Carried.{node_there, nodes_there};
ghost use Rattle.binding_rows.specs.Operands.{AsksWholeOf, MakesWholeOf, OpensOperand, OpensOperands, ReadsAnnotationOf};
ghost use Rattle.binding_steps.specs.Bindings.{node_of, opened_of};
ghost use Rattle.typing_state.specs.Notes.{IsRecordedThere};
ghost use Rattle.match_warnings.specs.Warnings.{missed_at, WarnsOf};

use crate::parameters::{arrows, with_names};
use match_warnings::report_pattern;
use owned_lists::push;
use pattern_typing::{Matched, Mentioned, type_pattern};
use row_parts::{Operand, operand_in};
use syntax_tree::Node;
use type_expressions::{Variables, read_type};
use typing_state::{Depth, Env, NoMemory, NodeRef, Parts, Verdict};

/// A binding that is there, with its number.
#[derive(Clone, Copy)]
pub struct Binding<'a> {
    pub node: &'a Node,
    pub number: u32,
}

/// The pattern of a binding.
fn pattern_in(binding: Binding<'_>) -> Operand<'_>
    ensures { operand_view result ≡ filled_in binding.entry.number (node_view binding.entry.node.now) 0 }
{
    operand_in(binding.node, binding.number, 0)
}

/// The expression behind the equals sign.
pub fn body_in(binding: Binding<'_>) -> Operand<'_>
    ensures { operand_view result ≡ filled_in binding.entry.number (node_view binding.entry.node.now) 5 }
{
    operand_in(binding.node, binding.number, 5)
}

/// A binding whose pattern is typed.
#[derive(Drop)]
pub struct Opened<'a> {
    pub binding: Binding<'a>,
    pub matched: Matched<'a>,
    /// Whether no fault was reported in the pattern.
    pub faultless: bool,
}

/// A right side that is typed.
#[derive(Clone, Copy, Drop)]
pub struct RightSide {
    /// The type of the expression behind the equals sign.
    pub right: NodeRef,
    /// The type of the binding: from its parameters to its annotation, or else to its expression.
    pub whole: NodeRef,
}

/// A binding that is typed.
#[derive(Drop)]
pub struct Bound<'a> {
    pub matched: Matched<'a>,
    pub right: NodeRef,
    pub generalises: bool,
}

/// The type that is written for a right side, where one is.
pub fn annotation_of(
    at: &mut Parts,
    written: Option<Operand<'_>>,
    within: &Env,
    depth: Depth,
) -> Result<Option<NodeRef>, NoMemory>
    ensures carries { IfOk result (λ ty. ReadsAnnotationOf at.old at.new within.now (option_map operand_view written.entry) (option_map (λ n. n.0) ty)) }
    ensures there { IfOk result (λ ty. is_some ty ≡ is_some written.entry) }
    ensures goes { Goes at.old at.new }
{
    match written {
        Some(written) => {
            let ty = read_type(at, written, within, &Variables::OfItem, depth)?;
            Ok(Some(ty))
        }
        None => Ok(None),
    }
}

/// The type of a binding: from its parameters to its annotation, which its expression has, or else to its expression.
pub fn whole(
    at: &mut Parts,
    body: Operand<'_>,
    right: NodeRef,
    annotation: Option<NodeRef>,
    parameters: &[NodeRef],
    env: &Env,
) -> Result<NodeRef, NoMemory>
    ensures carries { IfOk result (λ m. MakesWholeOf at.old at.new env.now (operand_view body.entry) (option_map (λ n. n.0) annotation) (numbers parameters.now) right.0 m.0) }
    ensures goes { Goes at.old at.new }
{
    match annotation {
        Some(annotation) => {
            at.equal(body.span, right, annotation, env)?;
            arrows(at, parameters, annotation)
        }
        None => arrows(at, parameters, right),
    }
}

/// The patterns of bindings that are there, each of which is recorded before.
pub fn open_all<'a>(
    at: &mut Parts,
    bindings: &[Operand<'a>],
    env: &Env,
    depth: Depth,
) -> Result<Vec<Opened<'a>>, NoMemory>
    ensures carries { IfOk result (λ all. OpensOperands at.old at.new env.now (map operand_view bindings.now) (map opened_of all.items)) }
    ensures nodes { IfOk result (λ all. map node_of all.items ≡ nodes_there (map operand_view bindings.now)) }
    ensures goes { Goes at.old at.new }
{
    let mut seen = Mentioned::new(at.alloc());
    let mut all = Vec::new(at.alloc());
    for binding in bindings {
        open_if(at, *binding, &mut all, &mut seen, env, depth)?;
    }
    Ok(all)
}

/// The pattern of a binding, if it is there.
fn open_if<'a>(
    at: &mut Parts,
    binding: Operand<'a>,
    all: &mut Vec<Opened<'a>>,
    seen: &mut Mentioned<'a>,
    env: &Env,
    depth: Depth,
) -> Result<(), NoMemory>
    ensures carries { OnOk result (OpensOperand at.old at.new env.now (operand_view binding.entry) (names_seen seen.old.items) (names_seen seen.new.items) (map opened_of all.old.items) (map opened_of all.new.items)) }
    ensures nodes { OnOk result (map node_of all.new.items ≡ map node_of all.old.items ++ node_there (operand_view binding.entry).number (operand_view binding.entry).part) }
    ensures recorded { OnOk result (IsRecordedThere (operand_view binding.entry).part at.new binding.entry.number) }
    ensures goes { Goes at.old at.new }
{
    let Some(node) = binding.node else {
        return Ok(());
    };
    let binding = Binding {
        node,
        number: binding.number,
    };
    at.note_plain(binding.number, env)?;
    let one = open_pattern(at, binding, seen, env, depth)?;
    push(all, one)
}

/// The pattern of a binding, in the environment outside.
pub fn open_pattern<'a>(
    at: &mut Parts,
    binding: Binding<'a>,
    seen: &mut Mentioned<'a>,
    env: &Env,
    depth: Depth,
) -> Result<Opened<'a>, NoMemory>
    ensures carries { IfOk result (λ o. IsCarriedPattern (filled_in binding.entry.number (node_view binding.entry.node.now) 0) → Matches at.old at.new env.now (pattern_of at.old.item (filled_in binding.entry.number (node_view binding.entry.node.now) 0)) [] (binds_of o.matched.names.items) (names_seen seen.old.items) (names_seen seen.new.items) o.matched.ty.0) }
    ensures binding { IfOk result (λ o. o.binding ≡ binding.entry) }
    ensures goes { Goes at.old at.new }
{
    let faults_before = at.faults.list.len();
    let matched = type_pattern(at, pattern_in(binding), env, seen, depth.inside()?)?;
    Ok(Opened {
        binding,
        matched,
        faultless: at.faults.list.len() == faults_before,
    })
}

/// The environment outside with the names of the group's patterns.
pub fn with_group(at: &Parts, opened: &[Opened<'_>], env: &Env) -> Result<Env, NoMemory>
    ensures scope { IfOk result (λ within. within ≡ names_added (names_opened (map opened_of opened.now)) env.now) }
{
    let mut within = env.share()?;
    for one in opened {
        within = with_names(at.alloc(), &one.matched.names, &within)?;
    }
    Ok(within)
}

/// The demand that a pattern is the whole, and the warning of what it misses, where there is no fault.
pub fn pattern_has(
    at: &mut Parts,
    opened: &Opened<'_>,
    whole: NodeRef,
    env: &Env,
    depth: Depth,
) -> Result<(), NoMemory>
    ensures carries { OnOk result (AsksWholeOf at.old at.new env.now (filled_in opened.now.binding.number (node_view opened.now.binding.node.now) 0) opened.now.matched.ty.0 whole.0) }
    ensures goes { Goes at.old at.new }
{
    let pattern = pattern_in(opened.binding);
    let verdict = at.equal(pattern.span, opened.matched.ty, whole, env)?;
    let faultless = verdict == Verdict::Kept && opened.faultless;
    warn_pattern(at, pattern, faultless, env, depth)
}

/// The warning of what a pattern misses, where there is no fault.
fn warn_pattern(
    at: &mut Parts,
    pattern: Operand<'_>,
    faultless: bool,
    env: &Env,
    depth: Depth,
) -> Result<(), NoMemory>
    ensures warns { OnOk result (OnlyWarnings at.old at.new) }
    ensures places { OnOk result (WarnsOf (missed_at (place_of pattern.entry.span)) at.old at.new) }
    ensures goes { Goes at.old at.new }
{
    if !faultless {
        return Ok(());
    }
    report_pattern(at, pattern, env, depth)
}
