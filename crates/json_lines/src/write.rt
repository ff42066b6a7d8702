//! The lines of replies.
ghost use Rattle.std.specs.Prelude.{◌≡◌, ◌++◌, ◌∷◌, [], IfOk, codes, map};
ghost use Rattle.text_terms.specs.Bytes.{str_bytes};
ghost use Rattle.serde_json.specs.Data.{Data, string, array};
ghost use Rattle.serde_json.specs.View.{view, items_view};
ghost use Rattle.service_model.specs.Replies.{position_data, typed_data, entry_data, span_data, fault_data, outlined_data, outline_items, list_data, classed, named, keyed, wrong, returned, member_data, page_data, place_data, split_data, terms_data, said_data, line_of, memory_line as memory_line_spec};
ghost use Rattle.json_lines.specs.Meets.{pair_of, key_text};
ghost use Rattle.json_lines.specs.Means.{typed_of, entry_of, span_of, fault_of, outlined_of, outline_of, outline_kind_text, file_text, failure_said, error_said, said_of};

use crate::key::Key;
use crate::reply::{Entry, Failure, File, Listed, Outlined, PosSpan, Reply, RequestError, Typed};
use query_engine::OutlineKind;
use serde_json::{Value, json};
use std::alloc::{AllocError, Global};
use text_terms::{Pos, RcStr};

/// The line that stands for want of memory.
pub const MEMORY_LINE: &[u8] = b"{\"class\":\"memory\"}\n";

/// The line that stands for want of memory. It takes no memory.
pub fn memory_line() -> &'static [u8]
    ensures { result.now ≡ memory_line_spec }
{
    MEMORY_LINE
}

/// What is printed as a member of a list.
trait Shown {
    ghost json: { Self → Data };

    fn value(&self, alloc: Global) -> Result<Value, AllocError>
        ensures { IfOk result (λ v. view v ≡ json self.now) };
}

fn position_value(alloc: Global, at: Pos) -> Result<Value, AllocError>
    ensures { IfOk result (λ v. view v ≡ position_data (pair_of at)) }
{
    json!(in alloc; {"line": at.line, "col": at.col})
}

impl Shown for Typed {
    ghost json = { λ t. typed_data (typed_of t) };

    fn value(&self, alloc: Global) -> Result<Value, AllocError> {
        let start = position_value(alloc, self.start)?;
        let end = position_value(alloc, self.end)?;
        json!(in alloc; {"end": end, "start": start, "type": self.ty.as_str()})
    }
}

impl Shown for Entry {
    ghost json = { λ e. entry_data (entry_of e) };

    fn value(&self, alloc: Global) -> Result<Value, AllocError> {
        json!(in alloc; {"desc": self.desc.as_str(), "kind": self.kind.name(), "name": self.name.as_str()})
    }
}

impl Shown for PosSpan {
    ghost json = { λ s. span_data (span_of s) };

    fn value(&self, alloc: Global) -> Result<Value, AllocError> {
        let start = position_value(alloc, self.start)?;
        let end = position_value(alloc, self.end)?;
        json!(in alloc; {"end": end, "start": start})
    }
}

impl Shown for Listed {
    ghost json = { λ f. fault_data (fault_of f) };

    fn value(&self, alloc: Global) -> Result<Value, AllocError> {
        let start = position_value(alloc, self.start)?;
        let end = position_value(alloc, self.end)?;
        let kind = self.kind.as_str();
        let message = self.message.as_str();
        json!(in alloc; {"end": end, "kind": kind, "message": message, "start": start, "type": self.ty.as_str()})
    }
}

impl Shown for RcStr {
    ghost json = { λ t. string (str_bytes t) };

    fn value(&self, alloc: Global) -> Result<Value, AllocError> {
        Value::try_from_str(alloc, self.as_str())
    }
}

fn list_value<T: Shown>(alloc: Global, list: &[T]) -> Result<Value, AllocError>
    ensures { IfOk result (λ v. view v ≡ list_data (map T.json list.now)) }
{
    let mut values = Vec::new(alloc);
    for shown in list {
        values.push(shown.value(alloc)?)?;
    }
    Ok(Value::Array(values))
}

/// What a name stands for, as it is printed.
fn outline_kind_name(kind: OutlineKind) -> &'static str
    ensures { result.now ≡ outline_kind_text kind }
{
    match kind {
        OutlineKind::Value => "Value",
        OutlineKind::TypeName => "Type",
        OutlineKind::Exception => "Exception",
        OutlineKind::Module => "Module",
        OutlineKind::ModuleType => "ModuleType",
    }
}

/// A member of an outline, what stands inside it given.
fn member_value(
    alloc: Global,
    children: Vec<Value>,
    span: PosSpan,
    kind: OutlineKind,
    name: &RcStr,
) -> Result<Value, AllocError>
    ensures { IfOk result (λ v. view v ≡ member_data (array (items_view children.items)) (pair_of span.start) (pair_of span.end)
        (outline_kind_text kind) (str_bytes name.now)) }
{
    let start = position_value(alloc, span.start)?;
    let end = position_value(alloc, span.end)?;
    let kind = outline_kind_name(kind);
    let name = name.as_str();
    let children = Value::Array(children);
    json!(in alloc; {"children": children, "end": end, "kind": kind, "name": name, "start": start})
}

/// A member of an outline, with what stands inside it.
fn outlined_value(alloc: Global, outlined: &Outlined) -> Result<Value, AllocError>
    ensures { IfOk result (λ v. view v ≡ outlined_data (outlined_of outlined.now)) }
{
    let mut children = Vec::new(alloc);
    for child in &outlined.children {
        children.push(outlined_value(alloc, child)?)?;
    }
    let span = PosSpan {
        start: outlined.start,
        end: outlined.end,
    };
    member_value(alloc, children, span, outlined.kind, &outlined.name)
}

impl Shown for Outlined {
    ghost json = { λ o. outlined_data (outlined_of o) };

    fn value(&self, alloc: Global) -> Result<Value, AllocError> {
        outlined_value(alloc, self)
    }
}

fn classed_value(alloc: Global, class: &str, value: Value) -> Result<Value, AllocError>
    ensures { IfOk result (λ v. view v ≡ classed class.now (view value)) }
{
    json!(in alloc; {"class": class, "value": value})
}

fn returned_value(alloc: Global, value: Value) -> Result<Value, AllocError>
    ensures { IfOk result (λ v. view v ≡ returned (view value)) }
{
    classed_value(alloc, "return", value)
}

/// A reply whose value is a name alone.
fn named_value(alloc: Global, class: &str, name: &str) -> Result<Value, AllocError>
    ensures { IfOk result (λ v. view v ≡ classed class.now (named name.now)) }
{
    let value = json!(in alloc; {"name": name})?;
    classed_value(alloc, class, value)
}

/// An error that is about a key.
fn keyed_value(alloc: Global, name: &str, key: Key) -> Result<Value, AllocError>
    ensures { IfOk result (λ v. view v ≡ wrong (keyed name.now (key_text key))) }
{
    let value = json!(in alloc; {"key": key.name(), "name": name})?;
    classed_value(alloc, "error", value)
}

fn types_value(alloc: Global, list: &[Typed]) -> Result<Value, AllocError>
    ensures { IfOk result (λ v. view v ≡ list_data (map typed_data (map typed_of list.now))) }
{
    list_value(alloc, list)
}

fn spans_value(alloc: Global, list: &[PosSpan]) -> Result<Value, AllocError>
    ensures { IfOk result (λ v. view v ≡ list_data (map span_data (map span_of list.now))) }
{
    list_value(alloc, list)
}

fn outline_value(alloc: Global, list: &[Outlined]) -> Result<Value, AllocError>
    ensures { IfOk result (λ v. view v ≡ array (outline_items (outline_of (map outlined_of list.now)))) }
{
    list_value(alloc, list)
}

fn texts_value(alloc: Global, list: &[RcStr]) -> Result<Value, AllocError>
    ensures { IfOk result (λ v. view v ≡ list_data (map string (map str_bytes list.now))) }
{
    list_value(alloc, list)
}

fn entry_list_value(alloc: Global, list: &[Entry]) -> Result<Value, AllocError>
    ensures { IfOk result (λ v. view v ≡ list_data (map entry_data (map entry_of list.now))) }
{
    list_value(alloc, list)
}

fn fault_list_value(alloc: Global, list: &[Listed]) -> Result<Value, AllocError>
    ensures { IfOk result (λ v. view v ≡ list_data (map fault_data (map fault_of list.now))) }
{
    list_value(alloc, list)
}

fn entries_value(alloc: Global, entries: &[Entry], more: bool) -> Result<Value, AllocError>
    ensures { IfOk result (λ v. view v ≡ page_data (codes "entries") (map entry_data (map entry_of entries.now)) more) }
{
    let entries = entry_list_value(alloc, entries)?;
    json!(in alloc; {"entries": entries, "more": more})
}

fn faults_value(alloc: Global, list: &[Listed], more: bool) -> Result<Value, AllocError>
    ensures { IfOk result (λ v. view v ≡ page_data (codes "list") (map fault_data (map fault_of list.now)) more) }
{
    let list = fault_list_value(alloc, list)?;
    json!(in alloc; {"list": list, "more": more})
}

fn place_value(alloc: Global, file: File, pos: Pos) -> Result<Value, AllocError>
    ensures { IfOk result (λ v. view v ≡ place_data (file_text file) (pair_of pos)) }
{
    let pos = position_value(alloc, pos)?;
    let file = file.name();
    json!(in alloc; {"file": file, "pos": pos})
}

fn split_value(alloc: Global, start: Pos, end: Pos, text: &RcStr) -> Result<Value, AllocError>
    ensures { IfOk result (λ v. view v ≡ split_data (pair_of start) (pair_of end) (str_bytes text.now)) }
{
    let start = position_value(alloc, start)?;
    let end = position_value(alloc, end)?;
    let text = text.as_str();
    json!(in alloc; {"end": end, "start": start, "text": text})
}

fn terms_value(alloc: Global, start: Pos, end: Pos, texts: &[RcStr]) -> Result<Value, AllocError>
    ensures { IfOk result (λ v. view v ≡ terms_data (pair_of start) (pair_of end) (map str_bytes texts.now)) }
{
    let start = position_value(alloc, start)?;
    let end = position_value(alloc, end)?;
    let texts = texts_value(alloc, texts)?;
    json!(in alloc; {"end": end, "start": start, "texts": texts})
}

fn failure_value(alloc: Global, failure: &Failure) -> Result<Value, AllocError>
    ensures { IfOk result (λ v. view v ≡ said_data (failure_said failure.now)) }
{
    match failure {
        Failure::NoNode => named_value(alloc, "failure", "NoNode"),
        Failure::NotAName => named_value(alloc, "failure", "NotAName"),
        Failure::Unbound { ident } => {
            let value = json!(in alloc; {"ident": ident.as_str(), "name": "Unbound"})?;
            classed_value(alloc, "failure", value)
        }
        Failure::NothingToSplit => named_value(alloc, "failure", "NothingToSplit"),
        Failure::HiddenConstructor { constructor } => {
            let value =
                json!(in alloc; {"constructor": constructor.as_str(), "name": "HiddenConstructor"})?;
            classed_value(alloc, "failure", value)
        }
        Failure::WouldFault { at } => {
            let at = position_value(alloc, *at)?;
            let value = json!(in alloc; {"at": at, "name": "WouldFault"})?;
            classed_value(alloc, "failure", value)
        }
        Failure::NotAHole => named_value(alloc, "failure", "NotAHole"),
    }
}

fn error_value(alloc: Global, error: RequestError) -> Result<Value, AllocError>
    ensures { IfOk result (λ v. view v ≡ said_data (error_said error)) }
{
    match error {
        RequestError::LineTooLong => named_value(alloc, "error", "LineTooLong"),
        RequestError::NotJson => named_value(alloc, "error", "NotJson"),
        RequestError::NotARequest => named_value(alloc, "error", "NotARequest"),
        RequestError::UnknownQuery => named_value(alloc, "error", "UnknownQuery"),
        RequestError::MissingKey { key } => keyed_value(alloc, "MissingKey", key),
        RequestError::BadNumber { key } => keyed_value(alloc, "BadNumber", key),
        RequestError::BadPosition { key } => keyed_value(alloc, "BadPosition", key),
        RequestError::BadRange => named_value(alloc, "error", "BadRange"),
        RequestError::SplitsChar { key } => keyed_value(alloc, "SplitsChar", key),
        RequestError::TextTooLong { bytes } => {
            let value = json!(in alloc; {"bytes": bytes, "name": "TextTooLong"})?;
            classed_value(alloc, "error", value)
        }
    }
}

fn reply_value(alloc: Global, reply: &Reply) -> Result<Value, AllocError>
    ensures { IfOk result (λ v. view v ≡ said_data (said_of reply.now)) }
{
    match reply {
        Reply::Size(bytes) => returned_value(alloc, Value::from(*bytes)),
        Reply::Types(list) => returned_value(alloc, types_value(alloc, list)?),
        Reply::Entries { entries, more } => returned_value(
            alloc,
            entries_value(alloc, entries, *more)?,
        ),
        Reply::Place { file, pos } => returned_value(alloc, place_value(alloc, *file, *pos)?),
        Reply::Spans(list) => returned_value(alloc, spans_value(alloc, list)?),
        Reply::Outline(list) => returned_value(alloc, outline_value(alloc, list)?),
        Reply::Faults { list, more } => returned_value(alloc, faults_value(alloc, list, *more)?),
        Reply::Split { start, end, text } => returned_value(
            alloc,
            split_value(alloc, *start, *end, text)?,
        ),
        Reply::Terms { start, end, texts } => returned_value(
            alloc,
            terms_value(alloc, *start, *end, texts)?,
        ),
        Reply::Failure(failure) => failure_value(alloc, failure),
        Reply::Error(error) => error_value(alloc, *error),
    }
}

/// The line of a reply, its line feed included.
pub fn write_reply(alloc: Global, reply: &Reply) -> Result<Vec<u8>, AllocError>
    ensures { IfOk result (λ v. v.items ≡ line_of (said_of reply.now)) }
{
    let mut line = reply_value(alloc, reply)?.to_vec(alloc)?;
    line.push(b'\n')?;
    Ok(line)
}
