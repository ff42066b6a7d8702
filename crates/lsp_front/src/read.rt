//! What a body says.
ghost use Rattle.std.specs.Prelude.{◌≡◌, codes, map, option_and_then, option_map, IfOk, None, Some, if◌then◌else◌};
ghost use Rattle.text_terms.specs.Bytes.{str_bytes};
ghost use Rattle.serde_json.specs.Find.{get, as_array, as_bool, as_str, is_float};
ghost use Rattle.serde_json.specs.View.{view, items_view, number_view};
ghost use Rattle.lsp_model.specs.Messages as model;
ghost use Rattle.lsp_model.specs.Positions.{utf16};
ghost use Rattle.lsp_front.specs.Sayings as says;
ghost use Rattle.lsp_positions.specs.Texts.{columns_in};
ghost use Rattle.lsp_front.specs.Values.{seen};

use crate::message::{
    Call, Change, Choices, Declaration, Delivery, DocumentCall, HoverForm, Id, Integer, Kinds,
    Message, Notice, Place, PlaceCall, Position, Range, Refusal,
};
use lsp_positions::Columns;
use serde_json::{Number, Value};
use std::alloc::{AllocError, Global};
use text_terms::{NoMemory, RcStr};

/// What comes of a request's method.
#[derive(Drop)]
pub enum Asked {
    /// No request has it.
    NoMethod,
    /// What it wants isn't there.
    NoParams,
    Asks(Call),
}

/// The value at a key.
fn in_key<'a>(value: Option<&'a Value>, name: &str) -> Option<&'a Value>
    ensures { seen result ≡ model.in_key name.now (seen value.entry) }
{
    value?.get(name)
}

/// The number at a key, below 2^32.
fn small_in(value: &Value, name: &str) -> Option<u32>
    ensures { result ≡ model.small_in name.now (view value.now) }
{
    u32::try_from(value.get(name)?.as_u64()?).ok()
}

fn position_of(value: &Value) -> Option<Position>
    ensures { option_map says.pair_of result ≡ model.position_of (view value.now) }
{
    let line = small_in(value, "line")?;
    let character = small_in(value, "character")?;
    Some(Position { line, character })
}

/// The position at a key.
fn position_in(value: &Value, name: &str) -> Option<Position>
    ensures { option_map says.pair_of result ≡ model.position_in name.now (view value.now) }
{
    position_of(value.get(name)?)
}

fn range_of(value: &Value) -> Option<Range>
    ensures { option_map says.range_of result ≡ model.range_of (view value.now) }
{
    let start = position_in(value, "start")?;
    let end = position_in(value, "end")?;
    Some(Range { start, end })
}

/// The name of the document that is spoken of.
fn uri_in<'a>(params: &'a Value) -> Option<&'a str>
    ensures { option_map (λ s. s.now) result ≡ model.uri_in (view params.now) }
{
    params.get("textDocument")?.get("uri")?.as_str()
}

/// The place that is spoken of.
fn place_in(alloc: Global, params: &Value) -> Result<Option<Place>, NoMemory>
    ensures { IfOk result (λ p. option_map says.place_of p ≡ model.place_in (view params.now)) }
{
    let Some(uri) = uri_in(params) else {
        return Ok(None);
    };
    let Some(at) = position_in(params, "position") else {
        return Ok(None);
    };
    let uri = RcStr::from_str(alloc, uri)?;
    Ok(Some(Place { uri, at }))
}

fn columns_named(text: &str) -> Option<Columns>
    ensures { option_map columns_in result ≡ model.columns_named text.now }
{
    match text {
        "utf-16" => Some(Columns::Utf16),
        "utf-8" => Some(Columns::Bytes),
        _ => None,
    }
}

fn hover_named(text: &str) -> Option<HoverForm>
    ensures { option_map says.hover_in result ≡ model.hover_named text.now }
{
    match text {
        "plaintext" => Some(HoverForm::Plaintext),
        "markdown" => Some(HoverForm::Markdown),
        _ => None,
    }
}

/// What a member of the list of columns names.
fn columns_by(value: &Value) -> Option<Columns>
    ensures { option_map columns_in result ≡ option_and_then model.columns_named (as_str (view value.now)) }
{
    columns_named(value.as_str()?)
}

/// What a member of the list of forms names.
fn hover_by(value: &Value) -> Option<HoverForm>
    ensures { option_map says.hover_in result ≡ option_and_then model.hover_named (as_str (view value.now)) }
{
    hover_named(value.as_str()?)
}

/// The first columns that a list names.
fn first_columns(list: &[Value]) -> Option<Columns>
    ensures { option_map columns_in result ≡ model.chosen_of model.columns_named (items_view list.now) }
{
    for value in list {
        if let Some(columns) = columns_by(value) {
            return Some(columns);
        }
    }
    None
}

/// The first form that a list names.
fn first_hover(list: &[Value]) -> Option<HoverForm>
    ensures { option_map says.hover_in result ≡ model.chosen_of model.hover_named (items_view list.now) }
{
    for value in list {
        if let Some(form) = hover_by(value) {
            return Some(form);
        }
    }
    None
}

fn listed_columns(value: Option<&Value>) -> Option<Columns>
    ensures { option_map columns_in result ≡ option_and_then (model.chosen_of model.columns_named) (option_and_then as_array (seen value.entry)) }
{
    first_columns(value?.as_array()?)
}

fn listed_hover(value: Option<&Value>) -> Option<HoverForm>
    ensures { option_map says.hover_in result ≡ option_and_then (model.chosen_of model.hover_named) (option_and_then as_array (seen value.entry)) }
{
    first_hover(value?.as_array()?)
}

/// The columns that a list chooses.
fn chosen_columns(value: Option<&Value>) -> Columns
    ensures { columns_in result ≡ model.chosen_in model.columns_named utf16 (seen value.entry) }
{
    match listed_columns(value) {
        Some(columns) => columns,
        None => Columns::Utf16,
    }
}

/// The form of hovers that a list chooses.
fn chosen_hover(value: Option<&Value>) -> HoverForm
    ensures { says.hover_in result ≡ model.chosen_in model.hover_named model.plaintext (seen value.entry) }
{
    match listed_hover(value) {
        Some(form) => form,
        None => HoverForm::Plaintext,
    }
}

/// Diagnostics are asked for where there is an object.
fn chosen_delivery(value: Option<&Value>) -> Delivery
    ensures { says.delivery_in result ≡ model.delivery_of (model.is_object (seen value.entry)) }
{
    match value {
        Some(value) if value.is_object() => Delivery::AskedFor,
        _ => Delivery::Sent,
    }
}

/// What an editor's abilities choose.
fn choices_by(abilities: Option<&Value>) -> Choices
    ensures { says.choices_of result ≡ model.choices_by (seen abilities.entry) }
{
    let document = in_key(abilities, "textDocument");
    Choices {
        columns: chosen_columns(in_key(in_key(abilities, "general"), "positionEncodings")),
        hover: chosen_hover(in_key(in_key(document, "hover"), "contentFormat")),
        delivery: chosen_delivery(in_key(document, "diagnostic")),
    }
}

fn names_rewrite(text: &str) -> bool
    ensures { result ≡ model.names_rewrite text.now }
{
    text == "refactor.rewrite" || text == "refactor" || text == ""
}

fn names_quickfix(text: &str) -> bool
    ensures { result ≡ model.names_quickfix text.now }
{
    text == "quickfix" || text == ""
}

/// Whether a list names the kind of actions that rewrite, or one that it belongs to.
fn has_rewrite(list: &[Value]) -> bool
    ensures { result ≡ model.any_text model.names_rewrite (items_view list.now) }
{
    for value in list {
        if let Some(text) = value.as_str()
            && names_rewrite(text)
        {
            return true;
        }
    }
    false
}

/// Whether a list names the kind of actions that mend, or all.
fn has_quickfix(list: &[Value]) -> bool
    ensures { result ≡ model.any_text model.names_quickfix (items_view list.now) }
{
    for value in list {
        if let Some(text) = value.as_str()
            && names_quickfix(text)
        {
            return true;
        }
    }
    false
}

/// The kinds of actions that are asked for; without a list, all.
fn kinds_in(params: &Value) -> Kinds
    ensures { says.kinds_of result ≡ model.kinds_in (view params.now) }
{
    match listed(in_key(params.get("context"), "only")) {
        Some(list) => Kinds {
            rewrite: has_rewrite(list),
            quickfix: has_quickfix(list),
        },
        None => Kinds {
            rewrite: true,
            quickfix: true,
        },
    }
}

/// The members of a list.
fn listed<'a>(value: Option<&'a Value>) -> Option<&'a [Value]>
    ensures { option_map (λ l. items_view l.now) result ≡ option_and_then as_array (seen value.entry) }
{
    Some(value?.as_array()?.as_slice())
}

/// Whether references are asked for with the defining place: unless the context says no.
fn declaration_in(params: &Value) -> Declaration
    ensures { says.declaration_in result ≡ model.declaration_in (view params.now) }
{
    match truth(in_key(params.get("context"), "includeDeclaration")) {
        Some(false) => Declaration::Without,
        _ => Declaration::With,
    }
}

fn truth(value: Option<&Value>) -> Option<bool>
    ensures { result ≡ option_and_then as_bool (seen value.entry) }
{
    value?.as_bool()
}

/// A request that asks something of a place.
fn asked_at(alloc: Global, what: PlaceCall, params: &Value) -> Result<Asked, NoMemory>
    ensures { IfOk result (λ a. says.asked_of a ≡ model.wanting (says.place_call what) (model.place_in (view params.now))) }
{
    match place_in(alloc, params)? {
        Some(place) => Ok(Asked::Asks(Call::At { what, place })),
        None => Ok(Asked::NoParams),
    }
}

/// A request that asks something of a document.
fn asked_of(alloc: Global, what: DocumentCall, params: &Value) -> Result<Asked, NoMemory>
    ensures { IfOk result (λ a. says.asked_of a ≡ model.wanting (says.document_call what) (model.uri_in (view params.now))) }
{
    match uri_in(params) {
        Some(uri) => {
            let uri = RcStr::from_str(alloc, uri)?;
            Ok(Asked::Asks(Call::Of { what, uri }))
        }
        None => Ok(Asked::NoParams),
    }
}

/// The range that is spoken of.
fn range_in(params: &Value) -> Option<Range>
    ensures { option_map says.range_of result ≡ option_and_then model.range_of (get (codes "range") (view params.now)) }
{
    range_of(params.get("range")?)
}

/// A request for code actions.
fn asked_actions(alloc: Global, params: &Value) -> Result<Asked, NoMemory>
    ensures { IfOk result (λ a. says.asked_of a ≡ model.wanting (model.actions_of (model.kinds_in (view params.now))) (model.both (model.uri_in (view params.now)) (option_and_then model.range_of (get (codes "range") (view params.now))))) }
{
    let Some(uri) = uri_in(params) else {
        return Ok(Asked::NoParams);
    };
    let Some(range) = range_in(params) else {
        return Ok(Asked::NoParams);
    };
    let uri = RcStr::from_str(alloc, uri)?;
    let kinds = kinds_in(params);
    Ok(Asked::Asks(Call::Actions { uri, range, kinds }))
}

/// A request for references.
fn asked_references(alloc: Global, params: &Value) -> Result<Asked, NoMemory>
    ensures { IfOk result (λ a. says.asked_of a ≡ model.wanting (model.references (model.declaration_in (view params.now))) (model.place_in (view params.now))) }
{
    let what = PlaceCall::References(declaration_in(params));
    asked_at(alloc, what, params)
}

/// What a request of this method asks.
#[tactic(auto, unfolding(lsp_model::specs::Messages::asked_by))]
fn asked_by(alloc: Global, method: &str, params: &Value) -> Result<Asked, NoMemory>
    ensures { IfOk result (λ a. says.asked_of a ≡ model.asked_by method.now (view params.now)) }
{
    match method {
        "initialize" => Ok(Asked::Asks(Call::Initialize(choices_by(params.get("capabilities"))))),
        "shutdown" => Ok(Asked::Asks(Call::Shutdown)),
        "textDocument/hover" => asked_at(alloc, PlaceCall::Hover, params),
        "textDocument/completion" => asked_at(alloc, PlaceCall::Completion, params),
        "textDocument/definition" => asked_at(alloc, PlaceCall::Definition, params),
        "textDocument/references" => asked_references(alloc, params),
        "textDocument/documentHighlight" => asked_at(alloc, PlaceCall::Highlights, params),
        "textDocument/documentSymbol" => asked_of(alloc, DocumentCall::Symbols, params),
        "textDocument/codeAction" => asked_actions(alloc, params),
        "textDocument/diagnostic" => asked_of(alloc, DocumentCall::Diagnostics, params),
        _ => Ok(Asked::NoMethod),
    }
}

/// The version of a document's text.
fn version_in(params: &Value) -> Option<i32>
    ensures { result ≡ model.version_in (view params.now) }
{
    let version = in_key(params.get("textDocument"), "version")?.as_i64()?;
    i32::try_from(version).ok()
}

/// The range of a change. The outer option is None where what is there is no range.
fn change_range(value: Option<&Value>) -> Option<Option<Range>>
    ensures { option_map (option_map says.range_of) result ≡ model.change_range (seen value.entry) }
{
    match value {
        None => Some(None),
        Some(value) if value.is_null() => Some(None),
        Some(value) => Some(Some(range_of(value)?)),
    }
}

/// The text of a change.
fn text_in<'a>(value: &'a Value) -> Option<&'a str>
    ensures { option_map (λ s. s.now) result ≡ option_and_then as_str (get (codes "text") (view value.now)) }
{
    value.get("text")?.as_str()
}

fn change_of(alloc: Global, value: &Value) -> Result<Option<Change>, NoMemory>
    ensures { IfOk result (λ c. option_map says.change_of c ≡ model.change_of (view value.now)) }
{
    let Some(range) = change_range(value.get("range")) else {
        return Ok(None);
    };
    let Some(text) = text_in(value) else {
        return Ok(None);
    };
    let text = RcStr::from_str(alloc, text)?;
    Ok(Some(Change { range, text }))
}

/// The changes that a list is, where each member is one.
fn changes_of(alloc: Global, list: &[Value]) -> Result<Option<Vec<Change>>, NoMemory>
    ensures { IfOk result (λ cs. option_map (λ v. map says.change_of v.items) cs ≡ model.changes_of (items_view list.now)) }
{
    let mut changes = Vec::new(alloc);
    for value in list {
        let Some(change) = change_of(alloc, value)? else {
            return Ok(None);
        };
        if changes.push(change).is_err() {
            return Err(AllocError);
        }
    }
    Ok(Some(changes))
}

/// The changes that are told.
fn changes_in(alloc: Global, params: &Value) -> Result<Option<Vec<Change>>, NoMemory>
    ensures { IfOk result (λ cs. option_map (λ v. map says.change_of v.items) cs ≡ model.changes_in (view params.now)) }
{
    match listed(params.get("contentChanges")) {
        Some(list) => changes_of(alloc, list),
        None => Ok(None),
    }
}

/// The text that a document is opened with.
fn opened_text<'a>(params: &'a Value) -> Option<&'a str>
    ensures { option_map (λ s. s.now) result ≡ model.text_in (codes "text") (get (codes "textDocument") (view params.now)) }
{
    params.get("textDocument")?.get("text")?.as_str()
}

fn opened(alloc: Global, params: &Value) -> Result<Message, NoMemory>
    ensures { IfOk result (λ m. says.message_of m ≡ model.noticed (model.opened_by (model.version_in (view params.now))) (model.both (model.uri_in (view params.now)) (model.text_in (codes "text") (get (codes "textDocument") (view params.now))))) }
{
    let Some(uri) = uri_in(params) else {
        return Ok(Message::Ignored);
    };
    let Some(text) = opened_text(params) else {
        return Ok(Message::Ignored);
    };
    let uri = RcStr::from_str(alloc, uri)?;
    let text = RcStr::from_str(alloc, text)?;
    let version = version_in(params);
    Ok(Message::Notice(Notice::Opened { uri, text, version }))
}

fn changed(alloc: Global, params: &Value) -> Result<Message, NoMemory>
    ensures { IfOk result (λ m. says.message_of m ≡ model.noticed (model.changed_by (model.version_in (view params.now))) (model.both (model.uri_in (view params.now)) (model.changes_in (view params.now)))) }
{
    let Some(uri) = uri_in(params) else {
        return Ok(Message::Ignored);
    };
    let Some(changes) = changes_in(alloc, params)? else {
        return Ok(Message::Ignored);
    };
    let uri = RcStr::from_str(alloc, uri)?;
    let version = version_in(params);
    Ok(Message::Notice(Notice::Changed {
        uri,
        changes,
        version,
    }))
}

fn closed(alloc: Global, params: &Value) -> Result<Message, NoMemory>
    ensures { IfOk result (λ m. says.message_of m ≡ model.noticed model.closed (model.uri_in (view params.now))) }
{
    match uri_in(params) {
        Some(uri) => {
            let uri = RcStr::from_str(alloc, uri)?;
            Ok(Message::Notice(Notice::Closed { uri }))
        }
        None => Ok(Message::Ignored),
    }
}

/// What a notification of this method says.
#[tactic(auto, unfolding(lsp_model::specs::Messages::notice_by))]
fn notice_by(alloc: Global, method: &str, params: &Value) -> Result<Message, NoMemory>
    ensures { IfOk result (λ m. says.message_of m ≡ model.notice_by method.now (view params.now)) }
{
    match method {
        "textDocument/didOpen" => opened(alloc, params),
        "textDocument/didChange" => changed(alloc, params),
        "textDocument/didClose" => closed(alloc, params),
        "exit" => Ok(Message::Notice(Notice::Exit)),
        _ => Ok(Message::Ignored),
    }
}

/// An integer that a number is.
fn integer_of(number: Number) -> Option<Integer>
    ensures { option_map (λ n. number_view n.number) result ≡ (if is_float (number_view number) then None else Some (number_view number)) }
{
    if number.is_f64() {
        None
    } else {
        Some(Integer { number })
    }
}

/// An id: a text or an integer.
fn id_of(alloc: Global, value: &Value) -> Result<Option<Id>, NoMemory>
    ensures { IfOk result (λ i. option_map says.id_of i ≡ model.id_of (view value.now)) }
{
    match value {
        Value::String(text) => {
            let text = RcStr::from_str(alloc, text.as_str())?;
            Ok(Some(Id::Text(text)))
        }
        Value::Number(number) => match integer_of(*number) {
            Some(number) => Ok(Some(Id::Number(number))),
            None => Ok(None),
        },
        _ => Ok(None),
    }
}

/// What is made of a request, by what it asks.
fn requested(id: Id, asked: Asked) -> Message
    ensures { says.message_of result ≡ model.requested (says.id_of id) (says.asked_of asked) }
{
    match asked {
        Asked::NoMethod => Message::Refused(Refusal::UnknownMethod(id)),
        Asked::NoParams => Message::Refused(Refusal::BadParams(id)),
        Asked::Asks(call) => Message::Request { id, call },
    }
}

/// A request of a method.
fn request_by(alloc: Global, id: &Value, method: &str, params: &Value) -> Result<Message, NoMemory>
    ensures { IfOk result (λ m. says.message_of m ≡ model.request_by (model.id_of (view id.now)) method.now (view params.now)) }
{
    match id_of(alloc, id)? {
        Some(id) => Ok(requested(id, asked_by(alloc, method, params)?)),
        None => Ok(Message::Refused(Refusal::Invalid)),
    }
}

/// A message of a method.
fn message_by(alloc: Global, value: &Value, method: &str) -> Result<Message, NoMemory>
    ensures { IfOk result (λ m. says.message_of m ≡ model.message_by (get (codes "id") (view value.now)) method.now (model.params_in (view value.now))) }
{
    let none = Value::Null;
    let params = value.get("params").unwrap_or(&none);
    match value.get("id") {
        Some(id) => request_by(alloc, id, method, params),
        None => notice_by(alloc, method, params),
    }
}

/// Whether a value is what an editor answers.
fn is_answer(value: &Value) -> bool
    ensures { result ≡ model.is_answer (view value.now) }
{
    value.get("method").is_none() && (value.get("result").is_some() || value.get("error").is_some())
}

/// The method of a message.
fn method_of<'a>(value: &'a Value) -> Option<&'a str>
    ensures { option_map (λ s. s.now) result ≡ option_and_then as_str (get (codes "method") (view value.now)) }
{
    value.get("method")?.as_str()
}

/// What a body says that is a value.
#[tactic(auto, unfolding(lsp_model::specs::Messages::message_of))]
fn message_of(alloc: Global, value: &Value) -> Result<Message, NoMemory>
    ensures { IfOk result (λ m. says.message_of m ≡ model.message_of (view value.now)) }
{
    match method_of(value) {
        Some(method) => message_by(alloc, value, method),
        None if is_answer(value) => Ok(Message::Ignored),
        None => Ok(Message::Refused(Refusal::Invalid)),
    }
}

/// What a body says.
#[tactic(auto, using(crate::proofs::Bodies::message_read, crate::proofs::Bodies::message_not_read))]
pub fn read_message(alloc: Global, body: &[u8]) -> Result<Message, NoMemory>
    ensures { IfOk result (λ m. says.message_of m ≡ model.message body.now) }
{
    match Value::from_slice(alloc, body) {
        Ok(value) => message_of(alloc, &value),
        Err(e) if e.is_memory() => Err(AllocError),
        Err(_) => Ok(Message::Refused(Refusal::Parse)),
    }
}
