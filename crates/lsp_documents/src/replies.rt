//! The bytes of answers to requests, and of errors.
ghost use Rattle.std.specs.Prelude.{◌≡◌, [], IfOk, None, Some};
ghost use Rattle.text_terms.specs.Bytes.{str_bytes};
ghost use Rattle.lsp_model.specs.Answers as model;
ghost use Rattle.lsp_model.specs.Answers.{bytes_put};
ghost use Rattle.lsp_front.specs.Sayings as says;
ghost use Rattle.lsp_answers.specs.Puts as puts;
ghost use Rattle.lsp_documents.specs.Puts.{refusal_piece};

use lsp_answers::{Answer, Answered, Wrong, write_answer};
use lsp_front::{Id, Integer, Refusal};
use std::alloc::Global;
use syntax_tree::{NoMemory, RcStr};

/// A second owner of an id.
pub fn shared(id: &Id) -> Result<Id, NoMemory>
    ensures { IfOk result (λ i. says.id_of i ≡ says.id_of id.now) }
{
    match id {
        Id::Text(text) => Ok(Id::Text(text.share()?)),
        Id::Number(number) => Ok(Id::Number(Integer {
            number: number.number,
        })),
    }
}

/// The bytes of an answer to a request.
pub fn response(alloc: Global, id: Id, answered: Answered) -> Result<Vec<u8>, NoMemory>
    ensures { IfOk result (λ v. v.items ≡ bytes_put (model.result (says.id_of id) (puts.answered_of answered))) }
{
    let answer = Answer::Result {
        id,
        result: answered,
    };
    write_answer(alloc, &answer)
}

/// The bytes of the error for want of memory.
pub fn short_of_memory(alloc: Global, id: Id) -> Result<Vec<u8>, NoMemory>
    ensures { IfOk result (λ v. v.items ≡ bytes_put (model.error (Some (says.id_of id)) model.short_of_memory)) }
{
    let answer = Answer::Error {
        id: Some(id),
        wrong: Wrong::Memory,
    };
    write_answer(alloc, &answer)
}

/// The bytes of the error that a message has.
pub fn refusal(alloc: Global, refusal: Refusal) -> Result<Vec<u8>, NoMemory>
    ensures { IfOk result (λ v. v.items ≡ bytes_put (refusal_piece (says.refusal_of refusal))) }
{
    let answer = match refusal {
        Refusal::Parse => Answer::Error {
            id: None,
            wrong: Wrong::NoJson,
        },
        Refusal::Invalid => Answer::Error {
            id: None,
            wrong: Wrong::NoMessage,
        },
        Refusal::UnknownMethod(id) => Answer::Error {
            id: Some(id),
            wrong: Wrong::NoSuchMethod,
        },
        Refusal::BadParams(id) => Answer::Error {
            id: Some(id),
            wrong: Wrong::Params,
        },
    };
    write_answer(alloc, &answer)
}

/// The bytes of the error of a body that was passed over.
pub fn too_long(alloc: Global) -> Result<Vec<u8>, NoMemory>
    ensures { IfOk result (λ v. v.items ≡ bytes_put (model.error None model.too_long)) }
{
    let answer = Answer::Error {
        id: None,
        wrong: Wrong::TooLong,
    };
    write_answer(alloc, &answer)
}

/// The bytes that say that a closed document has no diagnostics.
pub fn cleared(alloc: Global, uri: RcStr) -> Result<Vec<u8>, NoMemory>
    ensures { IfOk result (λ v. v.items ≡ bytes_put (model.published (str_bytes uri) None [])) }
{
    let answer = Answer::Published {
        uri,
        version: None,
        list: Vec::new(alloc),
    };
    write_answer(alloc, &answer)
}
