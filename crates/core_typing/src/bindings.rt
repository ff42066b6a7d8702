//! Bindings: their demands in order, and their names with generalised types.
#![tactic(auto, using(typing_state::proofs::Going::goes_trans, typing_state::proofs::Going::goes_refl, typing_state::proofs::Silence::store_silent, typing_state::proofs::Silence::silent_refl, typing_state::proofs::Silence::silent_trans))]

ghost use Rattle.std.specs.Prelude.{◌≡◌, ◌++◌, ◌-◌, ◌<◌, map, option_map, None, IfOk, OnOk};
ghost use Rattle.tree_model.specs.Trees.{Place, yield_of};
ghost use Rattle.syntax_tree.specs.View.{node_view};
ghost use Rattle.row_parts.specs.Numbered.{operand_view};
ghost use Rattle.type_nodes.specs.Views.{numbers};
ghost use Rattle.env_table.specs.Views.{newest_first};
ghost use Rattle.operand_laws.specs.Operands.{number_of};
ghost use Rattle.typing_state.specs.Goes.{Goes};
ghost use Rattle.typing_steps.specs.Typing.{TypesRow};
ghost use Rattle.typing_rows.specs.Asked.{row_expression};
ghost use Rattle.pattern_typing.specs.Matching.{names_seen};
ghost use Rattle.binding_rows.specs.Decided.{IsLetNode, JudgesGroup, JudgesNode, JudgesNodes, JudgesOperand, JudgesOperands};
ghost use Rattle.binding_rows.specs.Operands.{ConcludesNode, ConcludesNodes, RecordsRightNode, TypesGroupNode, TypesInTurn, TypesRightBodyOf, TypesRightNode, TypesRightOf, TypesTogether, TypesTurnNode, TypesTurnOperand};
ghost use Rattle.binding_rows.specs.ItemRows.{AreWrittenIn, TypesItem};
ghost use Rattle.core_typing.specs.Bindings.{Concludes};
ghost use Rattle.binding_steps.specs.Bindings.{generals, node_of, opened_of, typed_of};
ghost use Rattle.typing_state.specs.Notes.{IsRecorded};

use crate::exprs::type_under;
use binding_steps::{
    Behind, Binding, Bound, Opened, RightSide, annotation_of, body_in, close, has_own_variables,
    limit_names, open_all, open_pattern, pattern_has, raise, type_parameters, whole, with_group,
};
use owned_lists::push;
use pattern_typing::Mentioned;
use row_parts::{Operand, first_operand, operand_in, operands, token};
use syntax_tree::Node;
use typing_state::{Depth, Env, NoMemory, NodeRef, Parts};
use use_typing::{Sign, Used, note_missing, unnamed};
use value_forms::{has_parameters, is_value};

/// let b and b in e
#[cycle(exprs)]
pub fn let_in(
    at: &mut Parts,
    node: &Node,
    number: u32,
    env: &Env,
    depth: Depth,
) -> Result<Used, NoMemory>
    ensures carries { IfOk result (λ u. (place : Place) → IsLetNode number (node_view node.now) → TypesRow at.old at.new env.now (λ c. (row_expression at.old.item number place (node_view node.now)).typed c) (number_of at.old.item number) u.ty.0) }
    ensures goes { Goes at.old at.new }
{
    raise(at)?;
    let bound = type_group(at, node, number, env, depth)?;
    let behind = close(at, &bound, env)?;
    let body = operand_in(node, number, 5);
    let ty = type_under(at, body, Sign::None, &behind.env, depth.inside()?)?;
    Ok(unnamed(at, ty))
}

/// Types the bindings of an item of the row `let` with this number. The types of its names have origins made before the item alone, and the type
/// variables that are written afterwards are among the item's tokens, if none is written before.
pub fn type_bindings(
    at: &mut Parts,
    item: &Node,
    number: u32,
    env: &Env,
    depth: Depth,
) -> Result<Behind, NoMemory>
    ensures carries { IfOk result (λ e. TypesItem at.old at.new env.now e.env number (node_view item.now)) }
    ensures named { OnOk result (AreWrittenIn (yield_of (node_view item.now)) at.new.written) }
    ensures grows { IfOk result (λ e. e.env ≡ newest_first e.entries.items ++ env.now) }
    ensures goes { Goes at.old at.new }
{
    raise(at)?;
    let bound = type_group(at, item, number, env, depth)?;
    has_own_variables(at, item)?;
    let scope = at.node_number(number);
    limit_names(at, &bound, scope)?;
    close(at, &bound, env)
}

/// The group of a `let`, at the level that `raise` has raised; its bindings are in slot 2. Those that are missing come first. `close` ends it.
#[cycle(exprs)]
fn type_group<'a>(
    at: &mut Parts,
    node: &'a Node,
    number: u32,
    env: &Env,
    depth: Depth,
) -> Result<Vec<Bound<'a>>, NoMemory>
    ensures carries { IfOk result (λ bs. TypesGroupNode at.old at.new env.now number (node_view node.now) (map typed_of bs.items)) }
    ensures general { IfOk result (λ bs. JudgesGroup env.now number (node_view node.now) (generals bs.items)) }
    ensures goes { Goes at.old at.new }
{
    let bindings = operands(at.alloc(), node, number, 2)?;
    note_missing(at, &bindings, env)?;
    match token(node, 1) {
        None => in_turn(at, &bindings, env, depth),
        Some(_) => together(at, &bindings, env, depth),
    }
}

/// Without `rec`: of each binding the right side and then the pattern.
#[cycle(exprs)]
fn in_turn<'a>(
    at: &mut Parts,
    bindings: &[Operand<'a>],
    env: &Env,
    depth: Depth,
) -> Result<Vec<Bound<'a>>, NoMemory>
    ensures carries { IfOk result (λ bs. TypesInTurn at.old at.new env.now (map operand_view bindings.now) (map typed_of bs.items)) }
    ensures general { IfOk result (λ bs. JudgesOperands env.now (map operand_view bindings.now) (generals bs.items)) }
    ensures goes { Goes at.old at.new }
{
    let mut seen = Mentioned::new(at.alloc());
    let mut bound = Vec::new(at.alloc());
    for binding in bindings {
        take_turn(at, *binding, &mut bound, &mut seen, env, depth)?;
    }
    Ok(bound)
}

/// A binding without `rec`, if it is there.
#[cycle(exprs)]
fn take_turn<'a>(
    at: &mut Parts,
    binding: Operand<'a>,
    bound: &mut Vec<Bound<'a>>,
    seen: &mut Mentioned<'a>,
    env: &Env,
    depth: Depth,
) -> Result<(), NoMemory>
    ensures carries { OnOk result (TypesTurnOperand at.old at.new env.now (operand_view binding.entry) (names_seen seen.old.items) (names_seen seen.new.items) (map typed_of bound.old.items) (map typed_of bound.new.items)) }
    ensures general { OnOk result (JudgesOperand env.now (operand_view binding.entry) (generals bound.old.items) (generals bound.new.items)) }
    ensures goes { Goes at.old at.new }
{
    let Some(node) = binding.node else {
        return Ok(());
    };
    let binding = Binding {
        node,
        number: binding.number,
    };
    let one = turn(at, binding, seen, env, depth)?;
    push(bound, one)
}

/// A binding without `rec`: its right side and then its pattern, which is the whole.
#[cycle(exprs)]
fn turn<'a>(
    at: &mut Parts,
    binding: Binding<'a>,
    seen: &mut Mentioned<'a>,
    env: &Env,
    depth: Depth,
) -> Result<Bound<'a>, NoMemory>
    ensures carries { IfOk result (λ b. TypesTurnNode at.old at.new env.now binding.entry.number (node_view binding.entry.node.now) (names_seen seen.old.items) (names_seen seen.new.items) (typed_of b)) }
    ensures general { IfOk result (λ b. JudgesNode env.now binding.entry.number (node_view binding.entry.node.now) b.generalises) }
    ensures goes { Goes at.old at.new }
{
    let side = recorded_right(at, binding, env, depth)?;
    let opened = open_pattern(at, binding, seen, env, depth)?;
    conclude(at, opened, side, env, env, depth)
}

/// The right side of a binding without `rec`, which is recorded before.
#[cycle(exprs)]
fn recorded_right(
    at: &mut Parts,
    binding: Binding<'_>,
    env: &Env,
    depth: Depth,
) -> Result<RightSide, NoMemory>
    ensures carries { IfOk result (λ s. RecordsRightNode at.old at.new env.now binding.entry.number (node_view binding.entry.node.now) s.right.0 s.whole.0) }
    ensures recorded { OnOk result (IsRecorded at.new binding.entry.number) }
    ensures goes { Goes at.old at.new }
{
    at.note_plain(binding.number, env)?;
    type_right(at, binding, env, depth)
}

/// With `rec`: all patterns, and then the right sides, in which their names have one type each.
#[cycle(exprs)]
fn together<'a>(
    at: &mut Parts,
    bindings: &[Operand<'a>],
    env: &Env,
    depth: Depth,
) -> Result<Vec<Bound<'a>>, NoMemory>
    ensures carries { IfOk result (λ bs. TypesTogether at.old at.new env.now (map operand_view bindings.now) (map typed_of bs.items)) }
    ensures general { IfOk result (λ bs. JudgesOperands env.now (map operand_view bindings.now) (generals bs.items)) }
    ensures goes { Goes at.old at.new }
{
    let opened = open_all(at, bindings, env, depth)?;
    let within = with_group(at, &opened, env)?;
    conclude_all(at, opened, &within, env, depth)
}

/// The right sides of bindings whose patterns are typed, in order; each pattern is the whole.
#[cycle(exprs)]
fn conclude_all<'a>(
    at: &mut Parts,
    opened: Vec<Opened<'a>>,
    within: &Env,
    env: &Env,
    depth: Depth,
) -> Result<Vec<Bound<'a>>, NoMemory>
    ensures carries { IfOk result (λ bs. ConcludesNodes at.old at.new within.now (map node_of opened.entry.items) (map opened_of opened.entry.items) (map typed_of bs.items)) }
    ensures general { IfOk result (λ bs. JudgesNodes env.now (map node_of opened.entry.items) (generals bs.items)) }
    ensures goes { Goes at.old at.new }
{
    let mut bound = Vec::new(at.alloc());
    for one in opened {
        let done = conclude_one(at, one, within, env, depth)?;
        push(&mut bound, done)?;
    }
    Ok(bound)
}

/// The right side of a binding whose pattern is typed, which is the whole.
#[cycle(exprs)]
fn conclude_one<'a>(
    at: &mut Parts,
    opened: Opened<'a>,
    within: &Env,
    env: &Env,
    depth: Depth,
) -> Result<Bound<'a>, NoMemory>
    ensures carries { IfOk result (λ b. ConcludesNode at.old at.new within.now (node_of opened.entry).number (node_of opened.entry).tree (opened_of opened.entry) (typed_of b)) }
    ensures general { IfOk result (λ b. JudgesNode env.now (node_of opened.entry).number (node_of opened.entry).tree b.generalises) }
    ensures goes { Goes at.old at.new }
{
    let side = type_right(at, opened.binding, within, depth)?;
    conclude(at, opened, side, within, env, depth)
}

/// A right side: the parameters, the annotation, the expression, which has that type.
#[cycle(exprs)]
fn type_right(
    at: &mut Parts,
    binding: Binding<'_>,
    within: &Env,
    depth: Depth,
) -> Result<RightSide, NoMemory>
    ensures carries { IfOk result (λ s. TypesRightNode at.old at.new within.now binding.entry.number (node_view binding.entry.node.now) s.right.0 s.whole.0) }
    ensures goes { Goes at.old at.new }
{
    let given = operands(at.alloc(), binding.node, binding.number, 1)?;
    let written = first_operand(binding.node, binding.number, 3);
    right_of(at, &given, written, body_in(binding), within, depth)
}

/// The same by its parts.
#[cycle(exprs)]
fn right_of(
    at: &mut Parts,
    given: &[Operand<'_>],
    written: Option<Operand<'_>>,
    body: Operand<'_>,
    within: &Env,
    depth: Depth,
) -> Result<RightSide, NoMemory>
    ensures carries { IfOk result (λ s. TypesRightOf at.old at.new within.now (map operand_view given.now) (option_map operand_view written.entry) (operand_view body.entry) s.right.0 s.whole.0) }
    ensures goes { Goes at.old at.new }
{
    let (parameters, inner) = type_parameters(at, given, within, depth)?;
    let annotation = annotation_of(at, written, within, depth)?;
    typed_body(at, body, annotation, &parameters, &inner, depth)
}

/// The expression of a right side, which has the type that is written.
#[cycle(exprs)]
fn typed_body(
    at: &mut Parts,
    body: Operand<'_>,
    annotation: Option<NodeRef>,
    parameters: &[NodeRef],
    inner: &Env,
    depth: Depth,
) -> Result<RightSide, NoMemory>
    ensures carries { IfOk result (λ s. TypesRightBodyOf at.old at.new inner.now (operand_view body.entry) (option_map (λ n. n.0) annotation) (numbers parameters.now) s.right.0 s.whole.0) }
    ensures goes { Goes at.old at.new }
{
    let right = type_under(at, body, Sign::None, inner, depth.inside()?)?;
    let whole = whole(at, body, right, annotation, parameters, inner)?;
    Ok(RightSide { right, whole })
}

/// A binding whose right side, among the names of `within`, and pattern are typed: the pattern is the whole. Whether its names are
/// generalised is decided by `env`, outside the group.
fn conclude<'a>(
    at: &mut Parts,
    opened: Opened<'a>,
    side: RightSide,
    within: &Env,
    env: &Env,
    depth: Depth,
) -> Result<Bound<'a>, NoMemory>
    ensures carries { IfOk result (λ b. Concludes at.old at.new within.now env.now opened.entry side b) }
    ensures goes { Goes at.old at.new }
{
    let generalises = is_general(at, opened.binding, env, depth)?;
    pattern_has(at, &opened, side.whole, within, depth)?;
    Ok(Bound {
        matched: opened.matched,
        right: side.right,
        generalises,
    })
}

/// Whether the names of a binding are generalised: it has parameters, or its right side is non-expansive among the names of `env`.
fn is_general(at: &Parts, binding: Binding<'_>, env: &Env, depth: Depth) -> Result<bool, NoMemory>
    ensures general { IfOk result (λ b. JudgesNode env.now binding.entry.number (node_view binding.entry.node.now) b) }
{
    if has_parameters(binding.node, binding.number) {
        return Ok(true);
    }
    is_value(at, body_in(binding), env, depth)
}
