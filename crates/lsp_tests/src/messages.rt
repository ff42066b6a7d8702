//! What a body says, and the bytes of an answer to it.
use crate::verdict::none_wrong;
use lsp_answers::{Answer, Answered, Wrong, write_answer};
use lsp_front::{Call, Message, Refusal, read_message};
use std::alloc::Global;
use std::test::Fail;

/// A body, and what is put for it; nothing where nothing is.
const ROWS: [(&str, &str); 9] = [
    (
        r#"{"id":7,"method":"shutdown"}"#,
        "Content-Length: 38\r\n\r\n{\"id\":7,\"jsonrpc\":\"2.0\",\"result\":null}",
    ),
    (
        r#"{"id":"x","method":"shutdown","params":null}"#,
        "Content-Length: 40\r\n\r\n{\"id\":\"x\",\"jsonrpc\":\"2.0\",\"result\":null}",
    ),
    (
        r#"{"id":-1,"method":"x/y"}"#,
        "Content-Length: 76\r\n\r\n{\"error\":{\"code\":-32601,\"message\":\"unknown method\"},\"id\":-1,\"jsonrpc\":\"2.0\"}",
    ),
    (
        r#"{"id":1,"method":"textDocument/hover","params":{}}"#,
        "Content-Length: 67\r\n\r\n{\"error\":{\"code\":-32602,\"message\":\"params\"},\"id\":1,\"jsonrpc\":\"2.0\"}",
    ),
    (
        r#"{"id":1.0,"method":"shutdown"}"#,
        "Content-Length: 71\r\n\r\n{\"error\":{\"code\":-32600,\"message\":\"invalid\"},\"id\":null,\"jsonrpc\":\"2.0\"}",
    ),
    (
        "[1",
        "Content-Length: 69\r\n\r\n{\"error\":{\"code\":-32700,\"message\":\"parse\"},\"id\":null,\"jsonrpc\":\"2.0\"}",
    ),
    (
        r#"{"id":1,"method":"initialize","params":{"capabilities":{"general":{"positionEncodings":[1,"utf-8"]}}}}"#,
        "Content-Length: 424\r\n\r\n{\"id\":1,\"jsonrpc\":\"2.0\",\"result\":{\"capabilities\":{\"codeActionProvider\":{\"codeActionKinds\":[\"quickfix\",\"refactor.rewrite\"]},\"completionProvider\":{\"triggerCharacters\":[\".\"]},\"definitionProvider\":true,\"documentHighlightProvider\":true,\"documentSymbolProvider\":true,\"hoverProvider\":true,\"positionEncoding\":\"utf-8\",\"referencesProvider\":true,\"textDocumentSync\":{\"change\":2,\"openClose\":true}},\"serverInfo\":{\"name\":\"ocaml_service\"}}}",
    ),
    (r#"{"method":"initialized"}"#, ""),
    (r#"{"id":1,"result":null}"#, ""),
];

/// What is put for a message that needs no document.
fn answer_to(message: Message) -> Option<Answer> {
    match message {
        Message::Request { id, call } => Some(Answer::Result {
            id,
            result: match call {
                Call::Initialize(choices) => Answered::Chosen(choices),
                _ => Answered::Null,
            },
        }),
        Message::Refused(why) => Some(refused(why)),
        Message::Notice(_) | Message::Ignored => None,
    }
}

fn refused(why: Refusal) -> Answer {
    let (id, wrong) = match why {
        Refusal::Parse => (None, Wrong::NoJson),
        Refusal::Invalid => (None, Wrong::NoMessage),
        Refusal::UnknownMethod(id) => (Some(id), Wrong::NoSuchMethod),
        Refusal::BadParams(id) => (Some(id), Wrong::Params),
    };
    Answer::Error { id, wrong }
}

fn puts(alloc: Global, body: &str, wanted: &str) -> bool {
    match read_message(alloc, body.as_bytes()) {
        Ok(message) => match answer_to(message) {
            Some(answer) => match write_answer(alloc, &answer) {
                Ok(bytes) => bytes.as_slice() == wanted.as_bytes(),
                Err(_) => false,
            },
            None => wanted.is_empty(),
        },
        Err(_) => false,
    }
}

fn wrong_row(alloc: Global) -> Option<&'static str> {
    for (body, wanted) in ROWS {
        if !puts(alloc, body, wanted) {
            return Some(body);
        }
    }
    None
}

#[test]
fn bodies_are_answered(rt: HostRuntime) -> Result<(), Fail> {
    none_wrong(wrong_row(rt.alloc()))
}
