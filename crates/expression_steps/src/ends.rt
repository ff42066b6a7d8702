//! What is asked behind all parts of a row whose parts are typed in order: its type, with the demands between its parts.
#![tactic(auto, using(typing_state::proofs::Going::goes_trans, typing_state::proofs::Going::goes_refl), unfolding(syntax_tree::specs::Names::row_of))]

ghost use Rattle.std.specs.Prelude.{◌≡◌, Some, None, false, map, IfOk, OnOk};
ghost use Rattle.std.specs.Option.{IfSome};
ghost use Rattle.tree_model.specs.Rows.{field_row, elist_row, econs_row, eif_row};
ghost use Rattle.type_nodes.specs.Views.{numbers};
ghost use Rattle.operand_laws.specs.Operands.{path_of};
ghost use Rattle.typing_rows.specs.Asked.{expressions_of, IsPlainRow, IsOrderedRow, end_of, field_ends, ordered_end};
ghost use Rattle.typing_rows.specs.Contracts.{EndsRow, AsksAt, AsksLater};
ghost use Rattle.typing_rows.specs.Fields.{AsksSettable, EndsSettable};
ghost use Rattle.typing_steps.specs.Typing.{path_as};
ghost use Rattle.syntax_tree.specs.Names.{row_of};
ghost use Rattle.syntax_tree.specs.View.{node_view};
ghost use Rattle.row_parts.specs.Numbered.{operand_view, path_in, path_view};
ghost use Rattle.typing_state.specs.Goes.{Goes};
ghost use Rattle.expression_steps.specs.Heads.{is_field_at};
ghost use Rattle.value_forms.specs.Heads.{row_at};

use row_parts::{Operand, WrittenPath, written_path};
use syntax_tree::{Node, RowName};
use typing_state::{Env, NoMemory, NodeRef, Parts};
use use_typing::{Used, field_label, type_or_var, unnamed};
use value_forms::is_false;

/// What is asked behind all parts of a row: its type and its names.
pub fn behind_parts(
    at: &mut Parts,
    node: &Node,
    parts: &[Operand<'_>],
    types: &[NodeRef],
    env: &Env,
) -> Result<Used, NoMemory>
    ensures carries { IfOk result (λ u. IsOrderedRow (row_at (node_view node.now)) → EndsRow at.old at.new env.now (ordered_end (row_at (node_view node.now)) (node_view node.now) (expressions_of at.old.item (map operand_view parts.now))) (expressions_of at.old.item (map operand_view parts.now)) (numbers types.now) u.ty.0) }
    ensures goes { Goes at.old at.new }
{
    match node.row {
        RowName::Field => field(at, node, parts, types, env),
        _ => {
            let ty = type_of(at, node.row, parts, types, env)?;
            Ok(unnamed(at, ty))
        }
    }
}

/// The type of a row that has no path of its own.
fn type_of(
    at: &mut Parts,
    row: RowName,
    parts: &[Operand<'_>],
    types: &[NodeRef],
    env: &Env,
) -> Result<NodeRef, NoMemory>
    ensures carries { IfOk result (λ m. IsPlainRow (row_of row) → EndsRow at.old at.new env.now (end_of (row_of row) (expressions_of at.old.item (map operand_view parts.now))) (expressions_of at.old.item (map operand_view parts.now)) (numbers types.now) m.0) }
    ensures goes { Goes at.old at.new }
{
    match row {
        RowName::Ebegin => match types.first() {
            Some(ty) => Ok(*ty),
            None => Ok(at.constants.unit),
        },
        RowName::Elist => list(at, parts, types, env),
        RowName::Econs => cons(at, parts, types, env),
        RowName::Etuple => at.tuple(types),
        RowName::Eseq => type_or_var(at, types.last().copied()),
        RowName::Eif => branches(at, parts, types, env),
        RowName::Eassert => match parts.first() {
            Some(part) if is_false(*part) => at.var(),
            _ => Ok(at.constants.unit),
        },
        RowName::Ewhile => Ok(at.constants.unit),
        _ => at.var(),
    }
}

/// The demand that the part at a place has a type.
fn has(
    at: &mut Parts,
    parts: &[Operand<'_>],
    types: &[NodeRef],
    place: usize,
    wanted: NodeRef,
    env: &Env,
) -> Result<(), NoMemory>
    ensures carries { OnOk result (AsksAt at.old at.new env.now (expressions_of at.old.item (map operand_view parts.now)) (numbers types.now) place wanted.0) }
    ensures goes { Goes at.old at.new }
{
    if let Some(part) = parts.get(place) {
        if let Some(ty) = types.get(place) {
            at.equal(part.span, *ty, wanted, env)?;
        }
    }
    Ok(())
}

/// [ e; e ]: each part behind the first has its type
fn list(
    at: &mut Parts,
    parts: &[Operand<'_>],
    types: &[NodeRef],
    env: &Env,
) -> Result<NodeRef, NoMemory>
    ensures carries { IfOk result (λ m. EndsRow at.old at.new env.now (end_of elist_row (expressions_of at.old.item (map operand_view parts.now))) (expressions_of at.old.item (map operand_view parts.now)) (numbers types.now) m.0) }
    ensures goes { Goes at.old at.new }
{
    let element = type_or_var(at, types.first().copied())?;
    later_have(at, parts, types, element, env)?;
    at.list(element)
}

/// The demand that each part behind the first has a type.
fn later_have(
    at: &mut Parts,
    parts: &[Operand<'_>],
    types: &[NodeRef],
    wanted: NodeRef,
    env: &Env,
) -> Result<(), NoMemory>
    ensures carries { OnOk result (AsksLater at.old at.new env.now (expressions_of at.old.item (map operand_view parts.now)) (numbers types.now) wanted.0) }
    ensures goes { Goes at.old at.new }
{
    for place in 1..parts.len() {
        has(at, parts, types, place, wanted, env)?;
    }
    Ok(())
}

/// e :: e: the right part is a list of the left
fn cons(
    at: &mut Parts,
    parts: &[Operand<'_>],
    types: &[NodeRef],
    env: &Env,
) -> Result<NodeRef, NoMemory>
    ensures carries { IfOk result (λ m. EndsRow at.old at.new env.now (end_of econs_row (expressions_of at.old.item (map operand_view parts.now))) (expressions_of at.old.item (map operand_view parts.now)) (numbers types.now) m.0) }
    ensures goes { Goes at.old at.new }
{
    match types.first() {
        Some(left) => {
            let whole = at.list(*left)?;
            has(at, parts, types, 1, whole, env)?;
            Ok(whole)
        }
        None => at.var(),
    }
}

/// if e then e else e; without `else` the part is a unit
fn branches(
    at: &mut Parts,
    parts: &[Operand<'_>],
    types: &[NodeRef],
    env: &Env,
) -> Result<NodeRef, NoMemory>
    ensures carries { IfOk result (λ m. EndsRow at.old at.new env.now (end_of eif_row (expressions_of at.old.item (map operand_view parts.now))) (expressions_of at.old.item (map operand_view parts.now)) (numbers types.now) m.0) }
    ensures goes { Goes at.old at.new }
{
    let Some(yes) = types.get(1) else {
        return at.var();
    };
    if parts.len() > 2 {
        has(at, parts, types, 2, *yes, env)?;
        Ok(*yes)
    } else {
        let unit = at.constants.unit;
        has(at, parts, types, 1, unit, env)?;
        Ok(unit)
    }
}

/// e . l: `bound` of the label; the left part is the record; the field
fn field(
    at: &mut Parts,
    node: &Node,
    parts: &[Operand<'_>],
    types: &[NodeRef],
    env: &Env,
) -> Result<Used, NoMemory>
    ensures carries { IfOk result (λ u. EndsRow at.old at.new env.now (field_ends (path_of (path_in (node_view node.now) 2 3)) (expressions_of at.old.item (map operand_view parts.now))) (expressions_of at.old.item (map operand_view parts.now)) (numbers types.now) u.ty.0) }
    ensures goes { Goes at.old at.new }
{
    let path = written_path(at.alloc(), node, 2, 3)?;
    let (found, names) = field_label(at, env, &path)?;
    match found {
        Some(label) => {
            has(at, parts, types, 0, label.record, env)?;
            Ok(Used {
                ty: label.field,
                names,
            })
        }
        None => Ok(Used {
            ty: at.var()?,
            names,
        }),
    }
}

/// The end of a field that is set: as of any field, and then `mutable` of its label.
pub fn settable(
    at: &mut Parts,
    node: &Node,
    parts: &[Operand<'_>],
    types: &[NodeRef],
    env: &Env,
) -> Result<Used, NoMemory>
    ensures carries { IfOk result (λ u. EndsSettable at.old at.new env.now (path_of (path_in (node_view node.now) 2 3)) (expressions_of at.old.item (map operand_view parts.now)) (numbers types.now) u.ty.0) }
    ensures goes { Goes at.old at.new }
{
    let path = written_path(at.alloc(), node, 2, 3)?;
    let (found, names) = field_label(at, env, &path)?;
    match found {
        Some(used) => {
            has(at, parts, types, 0, used.record, env)?;
            ask_settable(at, &path, used.is_mutable)?;
            Ok(Used {
                ty: used.field,
                names,
            })
        }
        None => Ok(Used {
            ty: at.var()?,
            names,
        }),
    }
}

/// The demand that a label is mutable.
fn ask_settable(at: &mut Parts, path: &WrittenPath<'_>, is_mutable: bool) -> Result<(), NoMemory>
    ensures carries { OnOk result (AsksSettable at.old at.new (path_as (path_view path.now)) is_mutable) }
    ensures goes { Goes at.old at.new }
{
    let Some(last) = path.last else {
        return Ok(());
    };
    if is_mutable {
        return Ok(());
    }
    at.not_mutable(last.span, last.name.as_str())
}

/// The node of an operand that is a field.
#[tactic(auto, unfolding(syntax_tree::specs::Names::row_of))]
pub fn field_node<'a>(e: Operand<'a>) -> Option<&'a Node>
    ensures some { IfSome result (λ nd. (e.entry.node ≡ Some nd) × (row_at (node_view nd.now) ≡ field_row)) }
    ensures none { result ≡ None → is_field_at (operand_view e.entry).part ≡ false }
{
    let Some(node) = e.node else {
        return None;
    };
    match node.row {
        RowName::Field => Some(node),
        _ => None,
    }
}
