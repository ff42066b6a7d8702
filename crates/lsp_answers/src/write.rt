//! The bytes of answers.
ghost use Rattle.std.specs.Prelude.{◌≡◌, ◌++◌, codes, map, option_map, string_bytes, IfOk};
ghost use Rattle.text_terms.specs.Bytes.{str_bytes};
ghost use Rattle.serde_json.specs.Data.{Data, array, no_members, object, string};
ghost use Rattle.serde_json.specs.View.{items_view, members_view, view};
ghost use Rattle.lsp_model.specs.Answers as model;
ghost use Rattle.lsp_model.specs.Frames.{framed};
ghost use Rattle.lsp_answers.specs.Puts as puts;
ghost use Rattle.lsp_front.specs.Sayings.{choices_of, delivery_in, hover_in, id_of, pair_of, range_of};
ghost use Rattle.lsp_positions.specs.Texts.{columns_in};

use crate::answer::{
    Action, Answer, Answered, Completion, Diagnostic, ItemKind, Severity, Symbol, SymbolKind, Wrong,
};
use lsp_front::{Choices, Delivery, HoverForm, Id, Position, Range};
use lsp_positions::Columns;
use serde_json::{Map, Value, json, put};
use std::alloc::{AllocError, Global};
use text_terms::{NoMemory, RcStr};

/// What is printed as a member of a list.
trait Shown {
    ghost json: { Self → Data };

    fn value(&self, alloc: Global) -> Result<Value, AllocError>
        ensures { IfOk result (λ v. view v ≡ json self.now) };
}

/// A list as a JSON value.
fn array_value(values: Vec<Value>) -> Value
    ensures { view result ≡ array (items_view values.items) }
{
    Value::Array(values)
}

fn list_value<T: Shown>(alloc: Global, list: &[T]) -> Result<Value, AllocError>
    ensures { IfOk result (λ v. view v ≡ model.list_data (map T.json list.now)) }
{
    let mut values = Vec::new(alloc);
    for shown in list {
        values.push(shown.value(alloc)?)?;
    }
    Ok(Value::Array(values))
}

fn position_value(alloc: Global, at: Position) -> Result<Value, AllocError>
    ensures { IfOk result (λ v. view v ≡ model.position_data (pair_of at)) }
{
    json!(in alloc; {"character": at.character, "line": at.line})
}

fn range_value(alloc: Global, range: Range) -> Result<Value, AllocError>
    ensures { IfOk result (λ v. view v ≡ model.range_data (range_of range)) }
{
    let end = position_value(alloc, range.end)?;
    let start = position_value(alloc, range.start)?;
    json!(in alloc; {"end": end, "start": start})
}

fn severity_number(severity: Severity) -> u32
    ensures { result ≡ model.severity_number (puts.severity_of severity) }
{
    match severity {
        Severity::Error => 1,
        Severity::Warning => 2,
    }
}

impl Shown for Diagnostic {
    ghost json = { λ d. model.diagnostic_data (puts.diagnostic_of d) };

    fn value(&self, alloc: Global) -> Result<Value, AllocError> {
        let range = range_value(alloc, self.range)?;
        let message = self.message.as_str();
        let severity = severity_number(self.severity);
        match &self.kind {
            Some(kind) => {
                json!(in alloc; {"code": kind.as_str(), "message": message, "range": range, "severity": severity, "source": "ocaml"})
            }
            None => {
                json!(in alloc; {"message": message, "range": range, "severity": severity, "source": "ocaml"})
            }
        }
    }
}

fn diagnostics_value(alloc: Global, list: &[Diagnostic]) -> Result<Value, AllocError>
    ensures { IfOk result (λ v. view v ≡ model.diagnostics_data (map puts.diagnostic_of list.now)) }
{
    list_value(alloc, list)
}

fn item_number(kind: ItemKind) -> u32
    ensures { result ≡ model.item_number (puts.item_of kind) }
{
    match kind {
        ItemKind::Value => 12,
        ItemKind::Constructor => 4,
        ItemKind::Label => 5,
        ItemKind::Type => 7,
        ItemKind::Module => 9,
        ItemKind::ModuleType => 8,
    }
}

/// A text that goes in place of a range.
fn edit_value(alloc: Global, range: Range, text: &str) -> Result<Value, AllocError>
    ensures { IfOk result (λ v. view v ≡ model.edit_data (range_of range) text.now) }
{
    let range = range_value(alloc, range)?;
    json!(in alloc; {"newText": text, "range": range})
}

fn completion_value(alloc: Global, word: Range, name: &Completion) -> Result<Value, AllocError>
    ensures { IfOk result (λ v. view v ≡ model.completion_data (range_of word) (puts.completion_of name.now)) }
{
    let edit = edit_value(alloc, word, name.name.as_str())?;
    let detail = name.detail.as_str();
    let kind = item_number(name.kind);
    let label = name.name.as_str();
    if detail.is_empty() {
        json!(in alloc; {"kind": kind, "label": label, "textEdit": edit})
    } else {
        json!(in alloc; {"detail": detail, "kind": kind, "label": label, "textEdit": edit})
    }
}

fn completion_items(alloc: Global, names: &[Completion], word: Range) -> Result<Value, AllocError>
    ensures { IfOk result (λ v. view v ≡ model.list_data (map (model.completion_data (range_of word)) (map puts.completion_of names.now))) }
{
    let mut items = Vec::new(alloc);
    for name in names {
        items.push(completion_value(alloc, word, name)?)?;
    }
    Ok(array_value(items))
}

fn completions_value(
    alloc: Global,
    names: &[Completion],
    more: bool,
    word: Range,
) -> Result<Value, AllocError>
    ensures { IfOk result (λ v. view v ≡ model.completions_data (map (model.completion_data (range_of word)) (map puts.completion_of names.now)) more) }
{
    let items = completion_items(alloc, names, word)?;
    json!(in alloc; {"isIncomplete": more, "items": items})
}

fn place_value(alloc: Global, uri: &str, range: Range) -> Result<Value, AllocError>
    ensures { IfOk result (λ v. view v ≡ model.place_data uri.now (range_of range)) }
{
    let range = range_value(alloc, range)?;
    json!(in alloc; {"range": range, "uri": uri})
}

fn places_value(alloc: Global, uri: &str, ranges: &[Range]) -> Result<Value, AllocError>
    ensures { IfOk result (λ v. view v ≡ model.list_data (map (model.place_data uri.now) (map range_of ranges.now))) }
{
    let mut places = Vec::new(alloc);
    for range in ranges {
        places.push(place_value(alloc, uri, *range)?)?;
    }
    Ok(array_value(places))
}

impl Shown for Range {
    ghost json = { λ r. model.highlight_data (range_of r) };

    fn value(&self, alloc: Global) -> Result<Value, AllocError> {
        let range = range_value(alloc, *self)?;
        json!(in alloc; {"range": range})
    }
}

fn highlights_value(alloc: Global, ranges: &[Range]) -> Result<Value, AllocError>
    ensures { IfOk result (λ v. view v ≡ model.list_data (map model.highlight_data (map range_of ranges.now))) }
{
    list_value(alloc, ranges)
}

fn symbol_number(kind: SymbolKind) -> u32
    ensures { result ≡ model.symbol_number (puts.kind_of kind) }
{
    match kind {
        SymbolKind::Value => 12,
        SymbolKind::Type => 5,
        SymbolKind::Exception => 9,
        SymbolKind::Module => 2,
        SymbolKind::ModuleType => 11,
    }
}

/// A bound name, what stands inside it given.
fn member_value(
    alloc: Global,
    children: Vec<Value>,
    kind: SymbolKind,
    name: &RcStr,
    range: Range,
    selection: Range,
) -> Result<Value, AllocError>
    ensures { IfOk result (λ v. view v ≡ model.member_data (array (items_view children.items)) (puts.kind_of kind) (str_bytes name.now) (range_of range) (range_of selection)) }
{
    let children = Value::Array(children);
    let kind = symbol_number(kind);
    let range = range_value(alloc, range)?;
    let selection = range_value(alloc, selection)?;
    json!(in alloc; {"children": children, "kind": kind, "name": name.as_str(), "range": range, "selectionRange": selection})
}

/// A bound name, with what stands inside it.
fn symbol_value(alloc: Global, symbol: &Symbol) -> Result<Value, AllocError>
    ensures { IfOk result (λ v. view v ≡ model.symbol_data (puts.symbol_of symbol.now)) }
{
    let mut children = Vec::new(alloc);
    for child in &symbol.children {
        children.push(symbol_value(alloc, child)?)?;
    }
    member_value(
        alloc,
        children,
        symbol.kind,
        &symbol.name,
        symbol.range,
        symbol.selection,
    )
}

impl Shown for Symbol {
    ghost json = { λ s. model.symbol_data (puts.symbol_of s) };

    fn value(&self, alloc: Global) -> Result<Value, AllocError> {
        symbol_value(alloc, self)
    }
}

fn symbols_value(alloc: Global, list: &[Symbol]) -> Result<Value, AllocError>
    ensures { IfOk result (λ v. view v ≡ array (model.symbol_items (puts.symbols_of (map puts.symbol_of list.now)))) }
{
    list_value(alloc, list)
}

/// A change that is proposed of a document.
fn change_value(
    alloc: Global,
    uri: &str,
    range: Range,
    text: &str,
    kind: &str,
    title: &str,
) -> Result<Value, AllocError>
    ensures { IfOk result (λ v. view v ≡ model.change_data uri.now (range_of range) text.now kind.now title.now) }
{
    let edit = edit_value(alloc, range, text)?;
    let edits = json!(in alloc; [edit])?;
    let changes = json!(in alloc; {(uri): edits})?;
    let edit = json!(in alloc; {"changes": changes})?;
    json!(in alloc; {"edit": edit, "kind": kind, "title": title})
}

/// A term without a blank before it.
fn without_blank(text: &str) -> &str
    ensures { result.now ≡ model.without_blank text.now }
{
    match text.strip_prefix(" ") {
        Some(rest) => rest,
        None => text,
    }
}

fn action_value(alloc: Global, uri: &str, action: &Action) -> Result<Value, AllocError>
    ensures { IfOk result (λ v. view v ≡ model.action_data uri.now (puts.action_of action.now)) }
{
    match action {
        Action::Cases { text, range } => change_value(
            alloc,
            uri,
            *range,
            text.as_str(),
            "refactor.rewrite",
            "Case analysis",
        ),
        Action::Term { text, range } => {
            let term = without_blank(text.as_str());
            let title = format!(in alloc; "Insert {term}")?;
            change_value(
                alloc,
                uri,
                *range,
                text.as_str(),
                "quickfix",
                title.as_str(),
            )
        }
    }
}

fn actions_value(alloc: Global, uri: &str, actions: &[Action]) -> Result<Value, AllocError>
    ensures { IfOk result (λ v. view v ≡ model.list_data (map (model.action_data uri.now) (map puts.action_of actions.now))) }
{
    let mut values = Vec::new(alloc);
    for action in actions {
        values.push(action_value(alloc, uri, action)?)?;
    }
    Ok(array_value(values))
}

fn columns_name(columns: Columns) -> &'static str
    ensures { result.now ≡ model.columns_text (columns_in columns) }
{
    match columns {
        Columns::Utf16 => "utf-16",
        Columns::Bytes => "utf-8",
    }
}

fn hover_name(form: HoverForm) -> &'static str
    ensures { result.now ≡ model.hover_text (hover_in form) }
{
    match form {
        HoverForm::Plaintext => "plaintext",
        HoverForm::Markdown => "markdown",
    }
}

fn action_kinds_value(alloc: Global) -> Result<Value, AllocError>
    ensures { IfOk result (λ v. view v ≡ model.action_kinds) }
{
    json!(in alloc; {"codeActionKinds": ["quickfix", "refactor.rewrite"]})
}

fn triggers_value(alloc: Global) -> Result<Value, AllocError>
    ensures { IfOk result (λ v. view v ≡ model.triggers) }
{
    json!(in alloc; {"triggerCharacters": ["."]})
}

fn diagnostic_offer_value(alloc: Global) -> Result<Value, AllocError>
    ensures { IfOk result (λ v. view v ≡ model.diagnostic_offer) }
{
    json!(in alloc; {"interFileDependencies": true, "workspaceDiagnostics": false})
}

fn sync_value(alloc: Global) -> Result<Value, AllocError>
    ensures { IfOk result (λ v. view v ≡ model.sync) }
{
    json!(in alloc; {"change": 2u32, "openClose": true})
}

/// The last of the service's offers, in the order of their names.
fn last_offers(alloc: Global, columns: Columns) -> Result<Map<String, Value>, AllocError>
    ensures { IfOk result (λ m. members_view m.entries ≡ model.last_offers (columns_in columns)) }
{
    let sync = sync_value(alloc)?;
    let columns = Value::try_from_str(alloc, columns_name(columns))?;
    let mut offers = Map::new(alloc);
    put(&mut offers, alloc, "positionEncoding", columns)?;
    put(&mut offers, alloc, "referencesProvider", Value::Bool(true))?;
    put(&mut offers, alloc, "textDocumentSync", sync)?;
    Ok(offers)
}

/// The offers after the diagnostics.
fn later_offers(alloc: Global, columns: Columns) -> Result<Map<String, Value>, AllocError>
    ensures { IfOk result (λ m. members_view m.entries ≡ model.later_offers (columns_in columns)) }
{
    let mut offers = last_offers(alloc, columns)?;
    put(&mut offers, alloc, "hoverProvider", Value::Bool(true))?;
    put(
        &mut offers,
        alloc,
        "documentSymbolProvider",
        Value::Bool(true),
    )?;
    put(
        &mut offers,
        alloc,
        "documentHighlightProvider",
        Value::Bool(true),
    )?;
    Ok(offers)
}

/// The offers from the diagnostics on, which are offered where an editor asks for them.
fn diagnostic_offers(alloc: Global, choices: Choices) -> Result<Map<String, Value>, AllocError>
    ensures { IfOk result (λ m. members_view m.entries ≡ model.diagnostic_offers (delivery_in choices.delivery) (model.later_offers (columns_in choices.columns))) }
{
    let mut offers = later_offers(alloc, choices.columns)?;
    match choices.delivery {
        Delivery::Sent => Ok(offers),
        Delivery::AskedFor => {
            let diagnostics = diagnostic_offer_value(alloc)?;
            put(&mut offers, alloc, "diagnosticProvider", diagnostics)?;
            Ok(offers)
        }
    }
}

/// What the service can do.
fn capabilities_value(alloc: Global, choices: Choices) -> Result<Value, AllocError>
    ensures { IfOk result (λ v. view v ≡ model.capabilities (choices_of choices)) }
{
    let kinds = action_kinds_value(alloc)?;
    let triggers = triggers_value(alloc)?;
    let mut offers = diagnostic_offers(alloc, choices)?;
    put(&mut offers, alloc, "definitionProvider", Value::Bool(true))?;
    put(&mut offers, alloc, "completionProvider", triggers)?;
    put(&mut offers, alloc, "codeActionProvider", kinds)?;
    Ok(Value::Object(offers))
}

fn chosen_value(alloc: Global, choices: Choices) -> Result<Value, AllocError>
    ensures { IfOk result (λ v. view v ≡ model.chosen_data (choices_of choices)) }
{
    let capabilities = capabilities_value(alloc, choices)?;
    json!(in alloc; {"capabilities": capabilities, "serverInfo": {"name": "ocaml_service"}})
}

/// A type as a hover writes it.
fn hover_text(alloc: Global, form: HoverForm, text: &str) -> Result<String, AllocError>
    ensures { IfOk result (λ s. string_bytes s ≡ model.hover_value (hover_in form) text.now) }
{
    match form {
        HoverForm::Plaintext => String::from_str(alloc, text),
        HoverForm::Markdown => format!(in alloc; "```ocaml\n{text}\n```"),
    }
}

fn hover_value(
    alloc: Global,
    form: HoverForm,
    text: &str,
    range: Range,
) -> Result<Value, AllocError>
    ensures { IfOk result (λ v. view v ≡ model.hover_data (hover_in form) text.now (range_of range)) }
{
    let text = hover_text(alloc, form, text)?;
    let range = range_value(alloc, range)?;
    let contents = json!(in alloc; {"kind": hover_name(form), "value": text.as_str()})?;
    json!(in alloc; {"contents": contents, "range": range})
}

fn report_value(alloc: Global, list: &[Diagnostic]) -> Result<Value, AllocError>
    ensures { IfOk result (λ v. view v ≡ model.report_data (model.diagnostics_data (map puts.diagnostic_of list.now))) }
{
    let items = diagnostics_value(alloc, list)?;
    json!(in alloc; {"items": items, "kind": "full"})
}

fn located_value(alloc: Global, uri: &str, at: Position) -> Result<Value, AllocError>
    ensures { IfOk result (λ v. view v ≡ model.place_data uri.now (pair_of at, pair_of at)) }
{
    place_value(alloc, uri, Range { start: at, end: at })
}

/// The result of a request.
fn answered_value(alloc: Global, answered: &Answered) -> Result<Value, AllocError>
    ensures { IfOk result (λ v. view v ≡ model.answered_data (puts.answered_of answered.now)) }
{
    match answered {
        Answered::Null => Ok(Value::Null),
        Answered::Chosen(choices) => chosen_value(alloc, *choices),
        Answered::Hovered { form, text, range } => {
            hover_value(alloc, *form, text.as_str(), *range)
        }
        Answered::Completed { names, more, word } => completions_value(alloc, names, *more, *word),
        Answered::Located { uri, at } => located_value(alloc, uri.as_str(), *at),
        Answered::Used { uri, ranges } => places_value(alloc, uri.as_str(), ranges),
        Answered::Highlighted(ranges) => highlights_value(alloc, ranges),
        Answered::Outlined(symbols) => symbols_value(alloc, symbols),
        Answered::Proposed { uri, actions } => actions_value(alloc, uri.as_str(), actions),
        Answered::Reported(list) => report_value(alloc, list),
    }
}

fn wrong_code(wrong: Wrong) -> i64
    ensures { result ≡ model.wrong_code (puts.wrong_of wrong) }
{
    match wrong {
        Wrong::NoJson => -32700,
        Wrong::NoMessage => -32600,
        Wrong::TooLong => -32600,
        Wrong::NoSuchMethod => -32601,
        Wrong::Params => -32602,
        Wrong::Memory => -32603,
    }
}

fn wrong_text(wrong: Wrong) -> &'static str
    ensures { result.now ≡ model.wrong_text (puts.wrong_of wrong) }
{
    match wrong {
        Wrong::NoJson => "parse",
        Wrong::NoMessage => "invalid",
        Wrong::TooLong => "too long",
        Wrong::NoSuchMethod => "unknown method",
        Wrong::Params => "params",
        Wrong::Memory => "memory",
    }
}

fn wrong_value(alloc: Global, wrong: Wrong) -> Result<Value, AllocError>
    ensures { IfOk result (λ v. view v ≡ model.wrong_data (puts.wrong_of wrong)) }
{
    json!(in alloc; {"code": wrong_code(wrong), "message": wrong_text(wrong)})
}

fn id_value(alloc: Global, id: &Id) -> Result<Value, AllocError>
    ensures { IfOk result (λ v. view v ≡ id_of id.now) }
{
    match id {
        Id::Text(text) => Value::try_from_str(alloc, text.as_str()),
        Id::Number(number) => Ok(Value::Number(number.number)),
    }
}

/// An id, or null.
fn id_or_null(alloc: Global, id: &Option<Id>) -> Result<Value, AllocError>
    ensures { IfOk result (λ v. view v ≡ model.id_data (option_map id_of id.now)) }
{
    match id {
        Some(id) => id_value(alloc, id),
        None => Ok(Value::Null),
    }
}

fn published_value(
    alloc: Global,
    uri: &str,
    version: Option<i32>,
    list: &[Diagnostic],
) -> Result<Value, AllocError>
    ensures { IfOk result (λ v. view v ≡ model.published_data uri.now version (map puts.diagnostic_of list.now)) }
{
    let diagnostics = diagnostics_value(alloc, list)?;
    match version {
        Some(version) => {
            json!(in alloc; {"diagnostics": diagnostics, "uri": uri, "version": version})
        }
        None => json!(in alloc; {"diagnostics": diagnostics, "uri": uri}),
    }
}

/// What is put, as a JSON value.
fn answer_value(alloc: Global, answer: &Answer) -> Result<Value, AllocError>
    ensures { IfOk result (λ v. view v ≡ model.piece_data (puts.piece_of answer.now)) }
{
    match answer {
        Answer::Result { id, result } => {
            let id = id_value(alloc, id)?;
            let result = answered_value(alloc, result)?;
            json!(in alloc; {"id": id, "jsonrpc": "2.0", "result": result})
        }
        Answer::Error { id, wrong } => {
            let id = id_or_null(alloc, id)?;
            let error = wrong_value(alloc, *wrong)?;
            json!(in alloc; {"error": error, "id": id, "jsonrpc": "2.0"})
        }
        Answer::Published { uri, version, list } => {
            let params = published_value(alloc, uri.as_str(), *version, list)?;
            json!(in alloc; {"jsonrpc": "2.0", "method": "textDocument/publishDiagnostics", "params": params})
        }
    }
}

/// A body with its head.
fn framed_bytes(alloc: Global, body: &[u8]) -> Result<Vec<u8>, NoMemory>
    ensures { IfOk result (λ b. b.items ≡ framed body.now) }
{
    let len = body.len();
    let head = format!(in alloc; "Content-Length: {len}\r\n\r\n")?;
    let mut bytes = Vec::new(alloc);
    bytes.extend_from_slice(head.as_bytes())?;
    bytes.extend_from_slice(body)?;
    Ok(bytes)
}

/// The bytes that are put for an answer, its head among them.
pub fn write_answer(alloc: Global, answer: &Answer) -> Result<Vec<u8>, NoMemory>
    ensures { IfOk result (λ b. b.items ≡ model.bytes_put (puts.piece_of answer.now)) }
{
    let value = answer_value(alloc, answer)?;
    let body = value.to_vec(alloc)?;
    framed_bytes(alloc, &body)
}
