//! Which expressions are non-expansive, so that the names of their bindings are generalised (the value restriction).
ghost use Rattle.std.specs.Prelude.{◌≡◌, ◌++◌, true, not, map, option_map, IfOk, OnOk};
ghost use Rattle.std.specs.Option.{option_to_list};
ghost use Rattle.tree_model.specs.Rows.{eapp_row, elet_row, ematch_row, erecord_row};
ghost use Rattle.signature_model.specs.Records.{record_by};
ghost use Rattle.syntax_tree.specs.View.{tok_of, node_view};
ghost use Rattle.row_parts.specs.Numbered.{operand_view, operands_in, filled_in, first_in, token_in, path_view};
ghost use Rattle.typing_model.specs.Expressions.{is_some};
ghost use Rattle.env_table.specs.Labels.{labelled, scope_for, written_of};
ghost use Rattle.use_typing.specs.Labels.{label_paths};
ghost use Rattle.use_typing.specs.Paths.{labels_of};
ghost use Rattle.typing_rows.specs.Valued.{are_unguarded, bodies_of, body_in, is_unguarded, right_in, rights_of, value_operands};
ghost use Rattle.binding_rows.specs.Decided.{FindsRowValue, FindsValue, FindsValues};
ghost use Rattle.record_rows.specs.NonExpansive.{field_value_in, field_values, found_unset, none_set};
ghost use Rattle.value_forms.specs.Heads.{is_false_at, is_false_token, constructor_at, label_at, lower_path, row_at};
ghost use Rattle.value_forms.specs.RecordValues.{first_values, label_before};

use env_table::{Found, Label, Path, What};
use owned_lists::push;
use row_parts::{
    Operand, WrittenPath, first_operand, operand_in, operands, operands_of, token, written_path,
};
use syntax_tree::{Node, RowName, Token, TokenKind};
use typing_state::{Depth, Env, NoMemory, Parts};
use use_typing::{labels_behind, labels_in, paths_of, written_labels};

/// Whether an expression is non-expansive among the names of an environment. A missing one is.
#[cycle(values)]
pub fn is_value(at: &Parts, e: Operand<'_>, env: &Env, depth: Depth) -> Result<bool, NoMemory>
    ensures value { IfOk result (λ b. FindsValue env.now (operand_view e.entry) b) }
{
    let Some(node) = e.node else {
        return Ok(true);
    };
    match node.row {
        RowName::Eapp => is_built(at, node, e.number, env, depth),
        RowName::Erecord => is_record_value(at, node, e.number, env, depth),
        RowName::Ematch => is_match_value(at, node, e.number, env, depth),
        RowName::Elet => is_let_value(at, node, e.number, env, depth),
        RowName::Eassert => Ok(is_false(operand_in(node, e.number, 1))),
        _ => match value_parts(at, node, e.number)? {
            None => Ok(false),
            Some(parts) => are_values(at, &parts, env, depth),
        },
    }
}

/// Whether all of these are non-expansive.
#[cycle(values)]
fn are_values(at: &Parts, parts: &[Operand<'_>], env: &Env, depth: Depth) -> Result<bool, NoMemory>
    ensures value { IfOk result (λ b. FindsValues env.now (map operand_view parts.now) b) }
{
    for part in parts {
        if !is_value(at, *part, env, depth.inside()?)? {
            return Ok(false);
        }
    }
    Ok(true)
}

/// `false`
#[tactic(auto, unfolding(syntax_tree::specs::Names::row_of))]
pub fn is_false(e: Operand<'_>) -> bool
    ensures { result ≡ is_false_at (operand_view e.entry).part }
{
    let Some(node) = e.node else {
        return false;
    };
    match node.row {
        RowName::Econst => is_false_word(token(node, 0)),
        _ => false,
    }
}

/// Whether a token is the word `false`.
#[tactic(auto, unfolding(syntax_tree::specs::Names::kind_of))]
fn is_false_word(token: Option<&Token>) -> bool
    ensures { result ≡ is_false_token (option_map (λ t. tok_of t.now) token.entry) }
{
    match token {
        Some(token) => token.kind == TokenKind::False,
        None => false,
    }
}

/// The parts of a row that have to be non-expansive for it to be; None where it never is.
#[tactic(auto, unfolding(syntax_tree::specs::Names::row_of))]
fn value_parts<'a>(
    at: &Parts,
    node: &'a Node,
    number: u32,
) -> Result<Option<Vec<Operand<'a>>>, NoMemory>
    ensures { IfOk result (λ o. option_map (λ v. map operand_view v.items) o ≡ value_operands (row_at (node_view node.now)) number (node_view node.now)) }
{
    match node.row {
        RowName::Econst
        | RowName::Name
        | RowName::Econ
        | RowName::Epath
        | RowName::Hole
        | RowName::Efun
        | RowName::Efunction => Ok(Some(Vec::new(at.alloc()))),
        RowName::Eparen | RowName::Ebegin | RowName::Elist => {
            Ok(Some(operands(at.alloc(), node, number, 1)?))
        }
        RowName::Econs | RowName::Etuple | RowName::Field => {
            Ok(Some(operands_of(at.alloc(), node, number)?))
        }
        RowName::Eif => Ok(Some(branches(at, node, number)?)),
        _ => Ok(None),
    }
}

/// The branches of an `if`.
fn branches<'a>(at: &Parts, node: &'a Node, number: u32) -> Result<Vec<Operand<'a>>, NoMemory>
    ensures { IfOk result (λ v. map operand_view v.items ≡ operands_in number (node_view node.now) 3 ++ option_to_list (first_in number (node_view node.now) 5)) }
{
    let mut parts = operands(at.alloc(), node, number, 3)?;
    if let Some(part) = first_operand(node, number, 5) {
        push(&mut parts, part)?;
    }
    Ok(parts)
}

/// Whether an operand is a constructor alone.
#[tactic(auto, unfolding(syntax_tree::specs::Names::row_of, syntax_tree::specs::Names::kind_of))]
pub fn is_constructor(e: Operand<'_>) -> bool
    ensures { result ≡ is_some (constructor_at (operand_view e.entry).part) }
{
    match e.node {
        Some(node) => match node.row {
            RowName::Econ => true,
            RowName::Epath => match token(node, 1) {
                Some(last) => last.kind == TokenKind::Upper,
                None => false,
            },
            _ => false,
        },
        None => false,
    }
}

/// A constructor with a non-expansive argument.
#[cycle(values)]
fn is_built(at: &Parts, node: &Node, number: u32, env: &Env, depth: Depth) -> Result<bool, NoMemory>
    ensures value { IfOk result (λ b. FindsRowValue env.now eapp_row number (node_view node.now) b) }
{
    let arguments = operands(at.alloc(), node, number, 1)?;
    if arguments.len() != 1 {
        return Ok(false);
    }
    if !is_constructor(operand_in(node, number, 0)) {
        return Ok(false);
    }
    are_values(at, &arguments, env, depth)
}

/// A match of a non-expansive subject, with such bodies and no guard.
#[cycle(values)]
fn is_match_value(
    at: &Parts,
    node: &Node,
    number: u32,
    env: &Env,
    depth: Depth,
) -> Result<bool, NoMemory>
    ensures value { IfOk result (λ b. FindsRowValue env.now ematch_row number (node_view node.now) b) }
{
    let mut parts = operands(at.alloc(), node, number, 1)?;
    let cases = operands(at.alloc(), node, number, 4)?;
    if !push_bodies(&cases, &mut parts)? {
        return Ok(false);
    }
    are_values(at, &parts, env, depth)
}

/// Adds the bodies of cases; false where a case has a guard.
fn push_bodies<'a>(cases: &[Operand<'a>], parts: &mut Vec<Operand<'a>>) -> Result<bool, NoMemory>
    ensures guards { IfOk result (λ b. are_unguarded (map operand_view cases.now) ≡ b) }
    ensures bodies { IfOk result (λ b. b ≡ true → map operand_view parts.new.items ≡ map operand_view parts.old.items ++ bodies_of (map operand_view cases.now)) }
{
    for case in cases {
        if !push_body(*case, parts)? {
            return Ok(false);
        }
    }
    Ok(true)
}

/// Adds the body of a case that is there; false where it has a guard.
fn push_body<'a>(case: Operand<'a>, parts: &mut Vec<Operand<'a>>) -> Result<bool, NoMemory>
    ensures guard { IfOk result (λ b. is_unguarded case.entry.number (operand_view case.entry).part ≡ b) }
    ensures body { IfOk result (λ b. b ≡ true → map operand_view parts.new.items ≡ map operand_view parts.old.items ++ option_to_list (body_in case.entry.number (operand_view case.entry).part)) }
{
    let Some(node) = case.node else {
        return Ok(true);
    };
    if first_operand(node, case.number, 2).is_some() {
        return Ok(false);
    }
    push(parts, operand_in(node, case.number, 4))?;
    Ok(true)
}

/// Whether a binding has parameters.
pub fn has_parameters(node: &Node, number: u32) -> bool
    ensures { result ≡ is_some (first_in number (node_view node.now) 1) }
{
    first_operand(node, number, 1).is_some()
}

/// A `let .. in` whose body is non-expansive, and so are the right sides of its bindings without parameters.
#[cycle(values)]
fn is_let_value(
    at: &Parts,
    node: &Node,
    number: u32,
    env: &Env,
    depth: Depth,
) -> Result<bool, NoMemory>
    ensures value { IfOk result (λ b. FindsRowValue env.now elet_row number (node_view node.now) b) }
{
    let mut parts = operands(at.alloc(), node, number, 5)?;
    let bindings = operands(at.alloc(), node, number, 2)?;
    push_rights(&bindings, &mut parts)?;
    are_values(at, &parts, env, depth)
}

/// Adds the right sides of bindings that are there and have no parameters.
fn push_rights<'a>(bindings: &[Operand<'a>], parts: &mut Vec<Operand<'a>>) -> Result<(), NoMemory>
    ensures { OnOk result (map operand_view parts.new.items ≡ map operand_view parts.old.items ++ rights_of (map operand_view bindings.now)) }
{
    for binding in bindings {
        push_right(*binding, parts)?;
    }
    Ok(())
}

/// Adds the right side of a binding that is there and has no parameters.
fn push_right<'a>(binding: Operand<'a>, parts: &mut Vec<Operand<'a>>) -> Result<(), NoMemory>
    ensures { OnOk result (map operand_view parts.new.items ≡ map operand_view parts.old.items ++ option_to_list (right_in binding.entry.number (operand_view binding.entry).part)) }
{
    let Some(node) = binding.node else {
        return Ok(());
    };
    if has_parameters(node, binding.number) {
        return Ok(());
    }
    push(parts, operand_in(node, binding.number, 5))
}

/// The path of a first part of a record that is read as a label: one to a lower-case name.
#[tactic(auto, unfolding(syntax_tree::specs::Names::row_of))]
pub fn label_path<'a>(at: &Parts, e: Operand<'a>) -> Result<Option<WrittenPath<'a>>, NoMemory>
    ensures { IfOk result (λ r. option_map path_view r ≡ label_at (operand_view e.entry).part) }
{
    let Some(node) = e.node else {
        return Ok(None);
    };
    match node.row {
        RowName::Name => Ok(if_lower(written_path(at.alloc(), node, 9, 0)?)),
        RowName::Epath => Ok(if_lower(written_path(at.alloc(), node, 0, 1)?)),
        _ => Ok(None),
    }
}

/// A path, where its last token is a lower-case name.
#[tactic(auto, unfolding(syntax_tree::specs::Names::kind_of))]
fn if_lower(path: WrittenPath<'_>) -> Option<WrittenPath<'_>>
    ensures { option_map path_view result ≡ lower_path (path_view path.entry) }
{
    let lower = match path.last {
        Some(last) => last.kind == TokenKind::Lower,
        None => false,
    };
    if lower { Some(path) } else { None }
}

/// A record of non-expansive values whose record type has no mutable field; with `with` its first part is one of these values.
#[cycle(values)]
fn is_record_value(
    at: &Parts,
    node: &Node,
    number: u32,
    env: &Env,
    depth: Depth,
) -> Result<bool, NoMemory>
    ensures value { IfOk result (λ b. FindsRowValue env.now erecord_row number (node_view node.now) b) }
{
    let first = first_label(at, node, number)?;
    let fields = operands(at.alloc(), node, number, 5)?;
    if has_mutable_label(env, &paths_from(at, &first, &fields)?) {
        return Ok(false);
    }
    let values = values_from(at, node, number, &first, &fields)?;
    are_values(at, &values, env, depth)
}

/// The label that the first part of a record is. None where it is none, and before `with`.
fn first_label<'a>(
    at: &Parts,
    node: &'a Node,
    number: u32,
) -> Result<Option<WrittenPath<'a>>, NoMemory>
    ensures { IfOk result (λ r. option_map path_view r ≡ label_before (token_in (node_view node.now) 4) (filled_in number (node_view node.now) 1)) }
{
    match token(node, 4) {
        Some(_) => Ok(None),
        None => label_path(at, operand_in(node, number, 1)),
    }
}

/// The paths of the labels of a record whose last token is there: its first one, and those of its fields.
fn paths_from<'a>(
    at: &Parts,
    first: &Option<WrittenPath<'a>>,
    fields: &[Operand<'a>],
) -> Result<Vec<Path>, NoMemory>
    ensures { IfOk result (λ ps. map written_of ps.items ≡ label_paths (option_to_list (option_map path_view first.now) ++ labels_of (map operand_view fields.now))) }
{
    match first {
        Some(first) => paths_of(at, &labels_behind(at, first, fields)?),
        None => paths_of(at, &written_labels(at, fields)?),
    }
}

/// The values of a record: its first part before `with`, or else that of its first label; and those of its fields.
fn values_from<'a>(
    at: &Parts,
    node: &'a Node,
    number: u32,
    first: &Option<WrittenPath<'a>>,
    fields: &[Operand<'a>],
) -> Result<Vec<Operand<'a>>, NoMemory>
    ensures { IfOk result (λ v. map operand_view v.items ≡ first_values number (node_view node.now) (token_in (node_view node.now) 4) (option_map path_view first.now) ++ field_values (map operand_view fields.now)) }
{
    let mut values = Vec::new(at.alloc());
    push_first(node, number, first, &mut values)?;
    push_values(fields, &mut values)?;
    Ok(values)
}

/// Adds the first part of a record before `with`, or else the value of its first label.
fn push_first<'a>(
    node: &'a Node,
    number: u32,
    first: &Option<WrittenPath<'a>>,
    values: &mut Vec<Operand<'a>>,
) -> Result<(), NoMemory>
    ensures { OnOk result (map operand_view values.new.items ≡ map operand_view values.old.items ++ first_values number (node_view node.now) (token_in (node_view node.now) 4) (option_map path_view first.now)) }
{
    if token(node, 4).is_some() {
        return push(values, operand_in(node, number, 1));
    }
    if first.is_some() {
        return push_part(values, first_operand(node, number, 3));
    }
    Ok(())
}

/// Adds the values of fields that have one of their own.
fn push_values<'a>(fields: &[Operand<'a>], values: &mut Vec<Operand<'a>>) -> Result<(), NoMemory>
    ensures { OnOk result (map operand_view values.new.items ≡ map operand_view values.old.items ++ field_values (map operand_view fields.now)) }
{
    for field in fields {
        push_value(*field, values)?;
    }
    Ok(())
}

/// Adds the value of a field that is there and has one of its own.
fn push_value<'a>(field: Operand<'a>, values: &mut Vec<Operand<'a>>) -> Result<(), NoMemory>
    ensures { OnOk result (map operand_view values.new.items ≡ map operand_view values.old.items ++ option_to_list (field_value_in field.entry.number (operand_view field.entry).part)) }
{
    let Some(node) = field.node else {
        return Ok(());
    };
    push_part(values, first_operand(node, field.number, 3))
}

/// Adds a part that is there.
fn push_part<'a>(parts: &mut Vec<Operand<'a>>, part: Option<Operand<'a>>) -> Result<(), NoMemory>
    ensures { OnOk result (map operand_view parts.new.items ≡ map operand_view parts.old.items ++ option_to_list (option_map operand_view part.entry)) }
{
    match part {
        Some(part) => push(parts, part),
        None => Ok(()),
    }
}

/// Whether the record type that labels find has a mutable label; what isn't found has none.
fn has_mutable_label(env: &Env, labels: &[Path]) -> bool
    ensures { result ≡ not (found_unset (record_by labelled (env.now) (scope_for (env.now) (map written_of labels.now)) (map written_of labels.now))) }
{
    match env.record_type(labels) {
        Found::Entry(entry) => match &entry.what {
            What::Label(declaration, _) => any_mutable(labels_in(declaration)),
            _ => false,
        },
        _ => false,
    }
}

/// Whether one of some labels is mutable.
fn any_mutable(labels: &[Label]) -> bool
    ensures { result ≡ not (none_set labels.now) }
{
    for label in labels {
        if label.is_mutable {
            return true;
        }
    }
    false
}
