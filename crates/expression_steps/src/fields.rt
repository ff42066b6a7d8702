//! Records: their type by their labels, fields without a value, and whether all labels are written.
#![tactic(auto, using(typing_state::proofs::Going::goes_trans, typing_state::proofs::Going::goes_refl, typing_state::proofs::Silence::store_silent, typing_state::proofs::Silence::silent_refl, typing_state::proofs::Silence::silent_trans))]

ghost use Rattle.std.specs.Prelude.{◌≡◌, [], ◌∷◌, map, IfOk, OnOk};
ghost use Rattle.syntax_tree.specs.View.{place_of, tok_of};
ghost use Rattle.row_parts.specs.Numbered.{operand_view, path_view};
ghost use Rattle.typing_state.specs.Goes.{Goes, Silent};
ghost use Rattle.typing_steps.specs.Typing.{path_as};
ghost use Rattle.operand_laws.specs.Operands.{number_of};
ghost use Rattle.record_rows.specs.Operands.{labels_at};
ghost use Rattle.record_rows.specs.Completing.{AsksComplete};
ghost use Rattle.record_rows.specs.ValueOperands.{PunsLabel, PunsValue};
ghost use Rattle.record_rows.specs.RecordExpressions.{EndsRecord, FindsRecord, GivesRecord, RefusesIf};
ghost use Rattle.expression_steps.specs.Records.{here_of, names_written, TakesName};
ghost use Rattle.typing_state.specs.Notes.{IsRecorded};

use row_parts::{Operand, WrittenPath};
use std::rc::Rc;
use syntax_tree::{Span, Token};
use typing_state::{Entry, Env, NoMemory, NodeRef, Parts};
use use_typing::{
    Fields, Mentioned, Names, RecordType, Used, equal_if, labels_behind, labels_in, note_missing,
    record_of_labels, type_or_var, unnamed, value,
};

/// What a record has: where it stands, its first part, the value behind that, and its fields.
#[derive(Drop)]
pub struct Pieces<'a> {
    pub span: Span,
    pub first: Operand<'a>,
    pub value: Option<Operand<'a>>,
    pub fields: Vec<Operand<'a>>,
}

/// The type of a record that is made, by its labels, behind the fields that are missing.
pub fn record_of_made<'a>(
    at: &mut Parts,
    pieces: &Pieces<'a>,
    label: &WrittenPath<'a>,
    env: &Env,
) -> Result<RecordType, NoMemory>
    ensures carries { IfOk result (λ r. FindsRecord at.old at.new env.now (here_of r) (λ n c. []) (path_as (path_view label.now) ∷ labels_at (map operand_view pieces.now.fields.items))) }
    ensures goes { Goes at.old at.new }
{
    note_missing(at, &pieces.fields, env)?;
    let labels = labels_behind(at, label, &pieces.fields)?;
    record_of_labels(at, env, &labels)
}

/// No fields so far of a record.
pub fn fields_in<'a>(at: &Parts, found: RecordType) -> Fields<'a>
    ensures found { here_of result.found ≡ here_of found }
    ensures labels { result.labels.items ≡ [] }
{
    Fields {
        found,
        labels: Mentioned::new(at.alloc()),
    }
}

/// The demand that the first part of a record that is made is a label, and the fields that are missing.
pub fn begin_loose(at: &mut Parts, pieces: &Pieces<'_>, env: &Env) -> Result<(), NoMemory>
    ensures carries { OnOk result (RefusesIf (operand_view pieces.now.first).part at.old at.new (place_of pieces.now.first.span)) }
    ensures goes { Goes at.old at.new }
{
    ask_label(at, pieces.first)?;
    note_missing(at, &pieces.fields, env)
}

/// The demand that the first part of a record that is made is a label, where it is there.
fn ask_label(at: &mut Parts, first: Operand<'_>) -> Result<(), NoMemory>
    ensures carries { OnOk result (RefusesIf (operand_view first.entry).part at.old at.new (place_of first.entry.span)) }
    ensures goes { Goes at.old at.new }
{
    match first.node {
        Some(_) => at.no_label(first.span),
        None => Ok(()),
    }
}

/// A field without a value of its own: the value of its label's name, which is the field.
pub fn pun(
    at: &mut Parts,
    number: u32,
    label: &WrittenPath<'_>,
    wanted: Option<NodeRef>,
    env: &Env,
) -> Result<(), NoMemory>
    ensures carries { OnOk result (PunsValue (path_view label.now).last at.old at.new env.now (number_of at.old.item number) wanted) }
    ensures recorded { OnOk result (IsRecorded at.new number) }
    ensures goes { Goes at.old at.new }
{
    match label.last {
        None => at.note_plain(number, env),
        Some(last) => pun_of(at, number, label, last, wanted, env),
    }
}

/// The same by the last token of the label.
fn pun_of(
    at: &mut Parts,
    number: u32,
    label: &WrittenPath<'_>,
    last: &Token,
    wanted: Option<NodeRef>,
    env: &Env,
) -> Result<(), NoMemory>
    ensures carries { OnOk result (PunsLabel at.old at.new env.now (number_of at.old.item number) (tok_of last.now) wanted) }
    ensures recorded { OnOk result (IsRecorded at.new number) }
    ensures goes { Goes at.old at.new }
{
    let used = value_of_name(at, last, wanted, env)?;
    let names = at.seen_names(env, label, last_entry(&used.names))?;
    at.note(number, env, None, names)
}

/// What the last of some names stands for.
fn last_entry(names: &Names) -> Option<&Rc<Entry>> {
    match names.last() {
        Some(entry) => entry.as_ref(),
        None => None,
    }
}

/// The value of a name, which has the wanted type, where one is wanted.
fn value_of_name(
    at: &mut Parts,
    name: &Token,
    wanted: Option<NodeRef>,
    env: &Env,
) -> Result<Used, NoMemory>
    ensures carries { OnOk result (TakesName at.old at.new env.now (tok_of name.now) wanted) }
    ensures goes { Goes at.old at.new }
{
    let path = WrittenPath {
        qualifiers: Vec::new(at.alloc()),
        last: Some(name),
    };
    let used = value(at, env, &path)?;
    equal_if(at, name.span, used.ty, wanted, env)?;
    Ok(used)
}

/// `complete` of a record that is made at a place: the first label of the declaration that isn't written. The type of the record.
pub fn complete(at: &mut Parts, fields: &Fields<'_>, span: Span) -> Result<Used, NoMemory>
    ensures carries { IfOk result (λ u. EndsRecord at.old at.new (here_of fields.now.found) (names_written fields.now.labels.items) (place_of span) u.ty.0) }
    ensures goes { Goes at.old at.new }
{
    ask_complete(at, &fields.found, &fields.labels, span)?;
    type_of_record(at, &fields.found)
}

/// The demand that all labels of a record type are written.
fn ask_complete(
    at: &mut Parts,
    found: &RecordType,
    written: &Mentioned<'_>,
    span: Span,
) -> Result<(), NoMemory>
    ensures carries { OnOk result (AsksComplete (here_of found.now) (names_written written.now.items) at.old at.new span) }
    ensures goes { Goes at.old at.new }
{
    let RecordType::Known(declaration, _) = found else {
        return Ok(());
    };
    for label in labels_in(declaration) {
        if !written.has(label.name.as_str()) {
            return at.incomplete(span, label.name.as_str());
        }
    }
    Ok(())
}

/// The type of a record; any type where it isn't known.
pub fn type_of_record(at: &mut Parts, found: &RecordType) -> Result<Used, NoMemory>
    ensures carries { IfOk result (λ u. GivesRecord (here_of found.now) at.old at.new u.ty.0) }
    ensures silent { Silent at.old at.new }
    ensures goes { Goes at.old at.new }
{
    let ty = type_or_var(at, found.ty())?;
    Ok(unnamed(at, ty))
}
