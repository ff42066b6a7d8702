//! Records: { l = e }, { e with l = e }
#![tactic(auto, using(typing_state::proofs::Going::goes_trans, typing_state::proofs::Going::goes_refl))]

ghost use Rattle.std.specs.Prelude.{◌≡◌, map, option_map, All, IfOk, OnOk};
ghost use Rattle.std.specs.Option.{IfSome};
ghost use Rattle.tree_model.specs.Extents.{extent_of};
ghost use Rattle.syntax_tree.specs.View.{node_view, place_of, tok_of};
ghost use Rattle.row_parts.specs.Numbered.{operand_view, path_view};
ghost use Rattle.operand_laws.specs.Operands.{number_of, expression_of};
ghost use Rattle.typing_steps.specs.Typing.{TypesRow, path_as};
ghost use Rattle.typing_rows.specs.CarriedRows.{IsCarried};
ghost use Rattle.typing_rows.specs.Asked.{row_expression};
ghost use Rattle.typing_rows.specs.Contracts.{TypesEach};
ghost use Rattle.record_rows.specs.Operands.{labels_at};
ghost use Rattle.record_rows.specs.Values.{FieldsWritten};
ghost use Rattle.record_rows.specs.ValueOperands.{value_fields_of, IsCarriedValue, TypesFieldBy, TypesFieldPart};
ghost use Rattle.record_rows.specs.RecordExpressions.{FindsRecord, FindsUpdated, IsRecordNode, TypesLoose, TypesMade, TypesUpdated, loose_part, values_of};
ghost use Rattle.expression_steps.specs.Records.{here_of, names_written};
ghost use Rattle.core_typing.specs.Records.{AreCarriedPieces, RecordsValue, TypesMadeOr, TypesPieces};
ghost use Rattle.typing_state.specs.Goes.{Goes};
ghost use Rattle.value_forms.specs.Heads.{label_at};

use crate::exprs::{type_under, typed_as};
use expression_steps::{
    Pieces, begin_loose, complete, fields_in, pun, record_of_made, type_of_record,
};
use row_parts::{Operand, WrittenPath, first_operand, operand_in, operands, token, written_path};
use syntax_tree::{Node, Token};
use typing_state::{Depth, Env, NoMemory, NodeRef, Parts};
use use_typing::{
    Fields, RecordType, Sign, Used, begin_field, equal_if, note_label, note_missing,
    record_of_fields, value,
};
use value_forms::label_path;

/// { l = e }, { e with l = e }: of a record that is made, a first part that is a path to a lower-case name is a label
#[cycle(exprs)]
pub fn record(
    at: &mut Parts,
    node: &Node,
    number: u32,
    env: &Env,
    depth: Depth,
) -> Result<Used, NoMemory>
    ensures carries { IfOk result (λ u. IsRecordNode number (node_view node.now) → TypesRow at.old at.new env.now (λ c. (row_expression at.old.item number (extent_of (node_view node.now)).span (node_view node.now)).typed c) (number_of at.old.item number) u.ty.0) }
    ensures goes { Goes at.old at.new }
{
    let pieces = Pieces {
        span: node.span,
        first: operand_in(node, number, 1),
        value: first_operand(node, number, 3),
        fields: operands(at.alloc(), node, number, 5)?,
    };
    record_of(at, &pieces, token(node, 4), env, depth)
}

/// The same by its pieces, and by the word `with`.
#[cycle(exprs)]
fn record_of(
    at: &mut Parts,
    pieces: &Pieces<'_>,
    with_word: Option<&Token>,
    env: &Env,
    depth: Depth,
) -> Result<Used, NoMemory>
    ensures carries { IfOk result (λ u. AreCarriedPieces pieces.now → TypesPieces (option_map (λ t. tok_of t.now) with_word.entry) at.old at.new env.now pieces.now u.ty.0) }
    ensures goes { Goes at.old at.new }
{
    match with_word {
        Some(_) => updated(at, pieces, env, depth),
        None => made_or_loose(at, pieces, env, depth),
    }
}

/// A record that is made, by the label that its first part is.
#[cycle(exprs)]
fn made_or_loose(
    at: &mut Parts,
    pieces: &Pieces<'_>,
    env: &Env,
    depth: Depth,
) -> Result<Used, NoMemory>
    ensures carries { IfOk result (λ u. AreCarriedPieces pieces.now → TypesMadeOr (label_at (operand_view pieces.now.first).part) at.old at.new env.now pieces.now u.ty.0) }
    ensures goes { Goes at.old at.new }
{
    match label_path(at, pieces.first)? {
        Some(label) => made(at, pieces, &label, env, depth),
        None => loose(at, pieces, env, depth),
    }
}

/// { l = e; l = e }: fields that are missing; the type by its labels; the fields; `complete`
#[cycle(exprs)]
fn made<'a>(
    at: &mut Parts,
    pieces: &Pieces<'a>,
    label: &WrittenPath<'a>,
    env: &Env,
    depth: Depth,
) -> Result<Used, NoMemory>
    ensures carries { IfOk result (λ u. AreCarriedPieces pieces.now → TypesMade at.old at.new env.now (place_of pieces.now.span) pieces.now.first.number (path_as (path_view label.now)) (option_map operand_view pieces.now.value) (map operand_view pieces.now.fields.items) u.ty.0) }
    ensures goes { Goes at.old at.new }
{
    let found = record_of_made(at, pieces, label, env)?;
    let mut fields = fields_in(at, found);
    type_field(
        at,
        &mut fields,
        pieces.first.number,
        label,
        pieces.value,
        env,
        depth,
    )?;
    type_fields(at, &mut fields, &pieces.fields, env, depth)?;
    complete(at, &fields, pieces.span)
}

/// The same where the first part is no label: it is reported, if it is there, and typed before the type is looked for; the value after it is typed.
#[cycle(exprs)]
fn loose(at: &mut Parts, pieces: &Pieces<'_>, env: &Env, depth: Depth) -> Result<Used, NoMemory>
    ensures carries { IfOk result (λ u. AreCarriedPieces pieces.now → TypesLoose at.old at.new env.now (place_of pieces.now.span) (operand_view pieces.now.first) (option_map operand_view pieces.now.value) (map operand_view pieces.now.fields.items) u.ty.0) }
    ensures goes { Goes at.old at.new }
{
    let found = record_behind(at, pieces, env, depth)?;
    let mut fields = fields_in(at, found);
    type_if(at, pieces.value, env, depth)?;
    type_fields(at, &mut fields, &pieces.fields, env, depth)?;
    complete(at, &fields, pieces.span)
}

/// A first part that is no label, which is reported where it is there, and the type by the labels of the fields after it.
#[cycle(exprs)]
fn record_behind(
    at: &mut Parts,
    pieces: &Pieces<'_>,
    env: &Env,
    depth: Depth,
) -> Result<RecordType, NoMemory>
    ensures carries { IfOk result (λ r. IsCarried (operand_view pieces.now.first) → FindsRecord at.old at.new env.now (here_of r) (λ n c. loose_part (operand_view pieces.now.first).part n (expression_of at.old.item (operand_view pieces.now.first)) c) (labels_at (map operand_view pieces.now.fields.items))) }
    ensures goes { Goes at.old at.new }
{
    begin_loose(at, pieces, env)?;
    type_under(at, pieces.first, Sign::None, env, depth.inside()?)?;
    record_of_fields(at, env, &pieces.fields)
}

/// An expression that may be there.
#[cycle(exprs)]
fn type_if(at: &mut Parts, e: Option<Operand<'_>>, env: &Env, depth: Depth) -> Result<(), NoMemory>
    ensures carries { OnOk result (IfSome (option_map operand_view e.entry) IsCarried → TypesEach at.old at.new env.now (values_of (option_map (expression_of at.old.item) (option_map operand_view e.entry)))) }
    ensures goes { Goes at.old at.new }
{
    if let Some(e) = e {
        type_under(at, e, Sign::None, env, depth.inside()?)?;
    }
    Ok(())
}

/// { e with l = e }: fields that are missing; the part, which is the record that has the labels; the fields
#[cycle(exprs)]
fn updated(at: &mut Parts, pieces: &Pieces<'_>, env: &Env, depth: Depth) -> Result<Used, NoMemory>
    ensures carries { IfOk result (λ u. AreCarriedPieces pieces.now → TypesUpdated at.old at.new env.now (operand_view pieces.now.first) (map operand_view pieces.now.fields.items) u.ty.0) }
    ensures goes { Goes at.old at.new }
{
    let found = record_of_part(at, pieces, env, depth)?;
    let mut fields = fields_in(at, found);
    type_fields(at, &mut fields, &pieces.fields, env, depth)?;
    type_of_record(at, &fields.found)
}

/// The part before `with`, which is the record that has the labels.
#[cycle(exprs)]
fn record_of_part(
    at: &mut Parts,
    pieces: &Pieces<'_>,
    env: &Env,
    depth: Depth,
) -> Result<RecordType, NoMemory>
    ensures carries { IfOk result (λ r. IsCarried (operand_view pieces.now.first) → FindsUpdated at.old at.new env.now (here_of r) (expression_of at.old.item (operand_view pieces.now.first)) (labels_at (map operand_view pieces.now.fields.items))) }
    ensures goes { Goes at.old at.new }
{
    note_missing(at, &pieces.fields, env)?;
    let ty = type_under(at, pieces.first, Sign::None, env, depth.inside()?)?;
    let found = record_of_fields(at, env, &pieces.fields)?;
    equal_if(at, pieces.first.span, ty, found.ty(), env)?;
    Ok(found)
}

/// Fields in order.
#[cycle(exprs)]
fn type_fields<'a>(
    at: &mut Parts,
    fields: &mut Fields<'a>,
    given: &[Operand<'a>],
    env: &Env,
    depth: Depth,
) -> Result<(), NoMemory>
    ensures carries { OnOk result (All IsCarriedValue (map operand_view given.now) → FieldsWritten at.old at.new env.now (here_of fields.old.found) (value_fields_of at.old.item (map operand_view given.now)) (names_written fields.old.labels.items) (names_written fields.new.labels.items)) }
    ensures found { OnOk result (here_of fields.new.found ≡ here_of fields.old.found) }
    ensures goes { Goes at.old at.new }
{
    for field in given {
        type_if_there(at, fields, *field, env, depth)?;
    }
    Ok(())
}

/// A field, if it is there.
#[cycle(exprs)]
fn type_if_there<'a>(
    at: &mut Parts,
    fields: &mut Fields<'a>,
    field: Operand<'a>,
    env: &Env,
    depth: Depth,
) -> Result<(), NoMemory>
    ensures carries { OnOk result (TypesFieldPart at.old at.new env.now (here_of fields.old.found) field.entry.number (operand_view field.entry).part (names_written fields.old.labels.items) (names_written fields.new.labels.items)) }
    ensures found { OnOk result (here_of fields.new.found ≡ here_of fields.old.found) }
    ensures goes { Goes at.old at.new }
{
    let Some(node) = field.node else {
        return Ok(());
    };
    let label = written_path(at.alloc(), node, 0, 1)?;
    let value = first_operand(node, field.number, 3);
    type_field(at, fields, field.number, &label, value, env, depth)
}

/// A field by its number, its label and its value: the label is new; the field is recorded; its value is the field. A field without
/// a value of its own has that of its label's name.
#[cycle(exprs)]
fn type_field<'a>(
    at: &mut Parts,
    fields: &mut Fields<'a>,
    number: u32,
    label: &WrittenPath<'a>,
    value: Option<Operand<'_>>,
    env: &Env,
    depth: Depth,
) -> Result<(), NoMemory>
    ensures carries { OnOk result (TypesFieldBy (option_map operand_view value.entry) at.old at.new env.now (here_of fields.old.found) number (path_as (path_view label.now)) (names_written fields.old.labels.items) (names_written fields.new.labels.items)) }
    ensures found { OnOk result (here_of fields.new.found ≡ here_of fields.old.found) }
    ensures goes { Goes at.old at.new }
{
    let wanted = begin_field(at, fields, label)?;
    match value {
        Some(value) => type_value(at, &fields.found, number, label, value, wanted, env, depth),
        None => pun(at, number, label, wanted, env),
    }
}

/// A field that is recorded, and its value, which is the field.
#[cycle(exprs)]
fn type_value(
    at: &mut Parts,
    found: &RecordType,
    number: u32,
    label: &WrittenPath<'_>,
    value: Operand<'_>,
    wanted: Option<NodeRef>,
    env: &Env,
    depth: Depth,
) -> Result<(), NoMemory>
    ensures carries { OnOk result (RecordsValue at.old at.new env.now (number_of at.old.item number) (operand_view value.entry) (option_map (λ w. w.0) wanted)) }
    ensures goes { Goes at.old at.new }
{
    note_label(at, number, env, found, label)?;
    typed_as(at, value, wanted, env, depth)?;
    Ok(())
}
