//! What a request line asks.
ghost use Rattle.std.specs.Prelude.{◌≡◌, ◌∷◌, [], true, false, codes, MatchResult, MatchOption, Some, None, option_map};
ghost use Rattle.text_terms.specs.Bytes.{str_bytes};
ghost use Rattle.serde_json.specs.View.{view, number_view};
ghost use Rattle.serde_json.specs.Data.{number};
ghost use Rattle.serde_json.specs.Find.{get};
ghost use Rattle.service_model.specs.Requests.{asks, reading, reading_of_json, reading_of_value, reading_of_query, reading_of_tell, reading_of_edit, reading_of_whole, reading_of_prefix, refusal_of, first_missing, position_keys, position_at, text_keys, text_at, small_number, is_missing, object_key, has_kind, a_number};
ghost use Rattle.json_lines.specs.Meets.{asked_of, pair_of, place_name, key_text, refusal_of as refusal_of_code, Reads, IsRefusalIn, IsMissing, PositionIs};

use crate::key::{Key, Place};
use serde_json::{Number, Value};
use std::alloc::Global;
use text_terms::{Pos, RcStr};
use thiserror::Error;

/// How many bytes a line may have, its line feed not counted.
pub const LINE_LIMIT: usize = 8388608;

/// A request, with the values of its keys. Nothing is known yet of whether the text has its positions.
#[derive(Drop)]
pub enum Request {
    /// A text in place of what lies in the range, or of the whole text.
    Tell {
        range: Option<(Pos, Pos)>,
        text: RcStr,
    },
    /// The types round a position.
    TypeEnclosing {
        at: Pos,
    },
    /// The names that the prefix may become.
    CompletePrefix {
        at: Pos,
        prefix: RcStr,
    },
    /// Where the name at a position comes from.
    Locate {
        at: Pos,
    },
    /// The places of the name at a position.
    Occurrences {
        at: Pos,
    },
    /// What the text binds.
    Outline,
    /// The faults of the text.
    Errors,
    /// The cases of what stands at a position.
    CaseAnalysis {
        at: Pos,
    },
    /// The terms that may stand at a position.
    Construct {
        at: Pos,
    },
}

/// Why a line is no request. The first that applies is told.
#[derive(Clone, Copy, Debug, PartialEq, Eq, Error)]
pub enum Malformed {
    /// The line has more than `LINE_LIMIT` bytes.
    #[error("the line has more than {LINE_LIMIT} bytes")]
    LineTooLong,
    /// The line is no JSON value: it isn't UTF-8, or nests deeper than 127, or breaks the grammar.
    #[error("the line is no JSON value")]
    NotJson,
    /// The value is no object, or its key `query` is absent or no string.
    #[error("the value is no object with a text `query`")]
    NotARequest,
    /// No query has this name.
    #[error("no query has this name")]
    UnknownQuery,
    /// The first key that is absent or of another kind of JSON value.
    #[error("the key `{key}` is absent or of another kind")]
    MissingKey { key: Key },
    /// The first line or column that isn't decimal digits alone with a value below 2^32.
    #[error("the number `{key}` isn't decimal digits alone, below 2^32")]
    BadNumber { key: Key },
    /// Want of memory; nothing is told of the line.
    #[error("want of memory")]
    NoMemory,
}

/// The object at a name.
fn object<'a>(value: &'a Value, name: &str) -> Option<&'a Value>
    ensures { MatchOption result (is_missing (view value.now) (object_key name.now) ≡ true)
        (λ v. (is_missing (view value.now) (object_key name.now) ≡ false)
        × (get name.now (view value.now) ≡ Some (view v.now))) }
{
    let found = value.get(name)?;
    if found.is_object() { Some(found) } else { None }
}

/// The number at a name, whatever its digits.
fn number<'a>(value: &'a Value, name: &str) -> Option<&'a Number>
    ensures { MatchOption result (has_kind a_number (get name.now (view value.now)) ≡ false)
        (λ n. get name.now (view value.now) ≡ Some (number (number_view n.now))) }
{
    value.get(name)?.as_number()
}

/// A number of decimal digits alone, below 2^32.
fn small(number: &Number) -> Option<u32>
    ensures { result ≡ small_number (number_view number.now) }
{
    u32::try_from(number.as_u64()?).ok()
}

/// The position at a place. The outer error is the first of its keys that is missing, the inner one the first of its
/// numbers that is bad: that one comes only after all keys of the request are found.
#[tactic(auto, unfolding(service_model::specs::Requests::first_missing, service_model::specs::Requests::first_bad, service_model::specs::Requests::position_keys, service_model::specs::Requests::position_at))]
fn position(value: &Value, place: Place) -> Result<Result<Pos, Malformed>, Malformed>
    ensures { PositionIs result (place_name place) (view value.now) }
{
    let Some(at) = object(value, place.name()) else {
        return Err(Malformed::MissingKey { key: place.key() });
    };
    let Some(line) = number(at, "line") else {
        return Err(Malformed::MissingKey { key: place.line() });
    };
    let Some(col) = number(at, "col") else {
        return Err(Malformed::MissingKey { key: place.col() });
    };
    let Some(line) = small(line) else {
        return Ok(Err(Malformed::BadNumber { key: place.line() }));
    };
    let Some(col) = small(col) else {
        return Ok(Err(Malformed::BadNumber { key: place.col() }));
    };
    Ok(Ok(Pos { line, col }))
}

/// The text at a key.
#[tactic(auto, unfolding(service_model::specs::Requests::first_missing, service_model::specs::Requests::text_keys))]
fn text_of<'a>(value: &'a Value, key: Key) -> Result<&'a str, Malformed>
    ensures { MatchResult result
        (λ s. (first_missing (text_keys (key_text key)) (view value.now) ≡ None)
        × (s.now ≡ text_at (key_text key) (view value.now)))
        (λ e. IsMissing e (first_missing (text_keys (key_text key)) (view value.now))) }
{
    match value.get(key.name()).and_then(Value::as_str) {
        Some(text) => Ok(text),
        None => Err(Malformed::MissingKey { key }),
    }
}

/// A copy of a text.
fn owned(alloc: Global, text: &str) -> Result<RcStr, Malformed>
    ensures { MatchResult result (λ r. str_bytes r ≡ text.now) (λ e. refusal_of_code e ≡ None) }
{
    match RcStr::from_str(alloc, text) {
        Ok(text) => Ok(text),
        Err(_) => Err(Malformed::NoMemory),
    }
}

/// The position of a query that has no other key.
fn at(value: &Value) -> Result<Pos, Malformed>
    ensures { MatchResult result
        (λ p. (refusal_of (position_keys (codes "at")) (view value.now) ≡ None)
        × (pair_of p ≡ position_at (codes "at") (view value.now)))
        (λ e. IsRefusalIn e (refusal_of (position_keys (codes "at")) (view value.now))) }
{
    position(value, Place::At)?
}

/// An edit between two positions.
#[tactic(auto, using(crate::proofs::Keys::missing_append, crate::proofs::Keys::bad_append, crate::proofs::Keys::text_not_bad))]
fn edit(alloc: Global, value: &Value) -> Result<Request, Malformed>
    ensures { Reads result (reading_of_edit (view value.now)) }
{
    let start = position(value, Place::Start)?;
    let end = position(value, Place::End)?;
    let text = text_of(value, Key::Text)?;
    let range = Some((start?, end?));
    let text = owned(alloc, text)?;
    Ok(Request::Tell { range, text })
}

/// A text in place of the whole.
#[tactic(auto, using(crate::proofs::Keys::text_not_bad))]
fn whole(alloc: Global, value: &Value) -> Result<Request, Malformed>
    ensures { Reads result (reading_of_whole (view value.now)) }
{
    let text = owned(alloc, text_of(value, Key::Text)?)?;
    Ok(Request::Tell { range: None, text })
}

/// A new text: an edit where one of `start` and `end` is there.
fn tell(alloc: Global, value: &Value) -> Result<Request, Malformed>
    ensures { Reads result (reading_of_tell (view value.now)) }
{
    if value.get("start").is_some() || value.get("end").is_some() {
        edit(alloc, value)
    } else {
        whole(alloc, value)
    }
}

#[tactic(auto, using(crate::proofs::Keys::missing_append, crate::proofs::Keys::bad_append, crate::proofs::Keys::text_not_bad))]
fn complete_prefix(alloc: Global, value: &Value) -> Result<Request, Malformed>
    ensures { Reads result (reading_of_prefix (view value.now)) }
{
    let at = position(value, Place::At)?;
    let prefix = text_of(value, Key::Prefix)?;
    let at = at?;
    let prefix = owned(alloc, prefix)?;
    Ok(Request::CompletePrefix { at, prefix })
}

/// A request of this name.
#[tactic(auto, unfolding(service_model::specs::Requests::reading_of_query))]
fn query_named(alloc: Global, name: &str, value: &Value) -> Result<Request, Malformed>
    ensures { Reads result (reading_of_query name.now (view value.now)) }
{
    match name {
        "tell" => tell(alloc, value),
        "type-enclosing" => Ok(Request::TypeEnclosing { at: at(value)? }),
        "complete-prefix" => complete_prefix(alloc, value),
        "locate" => Ok(Request::Locate { at: at(value)? }),
        "occurrences" => Ok(Request::Occurrences { at: at(value)? }),
        "outline" => Ok(Request::Outline),
        "errors" => Ok(Request::Errors),
        "case-analysis" => Ok(Request::CaseAnalysis { at: at(value)? }),
        "construct" => Ok(Request::Construct { at: at(value)? }),
        _ => Err(Malformed::UnknownQuery),
    }
}

/// A request, by its name.
fn request_of(alloc: Global, value: &Value) -> Result<Request, Malformed>
    ensures { Reads result (reading_of_value (Some (view value.now))) }
{
    match value.get("query").and_then(Value::as_str) {
        Some(name) => query_named(alloc, name, value),
        None => Err(Malformed::NotARequest),
    }
}

/// What a line asks, its length aside.
#[tactic(auto, using(crate::proofs::Readings::reading_json, crate::proofs::Readings::reading_other))]
fn read_json(alloc: Global, line: &[u8]) -> Result<Request, Malformed>
    ensures { Reads result (reading_of_json line.now) }
{
    match Value::from_slice(alloc, line) {
        Ok(value) => request_of(alloc, &value),
        Err(e) if e.is_memory() => Err(Malformed::NoMemory),
        Err(_) => Err(Malformed::NotJson),
    }
}

/// What a line asks; its line feed is no part of it. Of several refusals the first is told, in the order of `Malformed`.
#[tactic(auto, unfolding(service_model::specs::Requests::reading))]
pub fn read_request(alloc: Global, line: &[u8]) -> Result<Request, Malformed>
    ensures { Reads result (reading line.now) }
{
    if line.len() > LINE_LIMIT {
        return Err(Malformed::LineTooLong);
    }
    read_json(alloc, line)
}
