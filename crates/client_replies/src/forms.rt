//! The forms of the answers of the REST API.
ghost use Rattle.std.specs.Prelude.{◌≡◌, false, option_map, codes, drop, take, IfOk, option_and_then};
ghost use Rattle.serde_json.specs.Find.{get};
ghost use Rattle.serde_json.specs.View.{view};
ghost use Rattle.serde_json.specs.Written.{has_float};
ghost use Rattle.client_replies.specs.Forms.{told, begun, text_at, number_at, says, counts, has_status, is_id, is_operation, operation_at};
ghost use Rattle.client_replies.specs.Forms.{sync_of, async_of, error_of, form_of, answer_of, answer_in};

use crate::answer::Answer;
use crate::floats::has_float;
use crate::metadata::Metadata;
use rest_bodies::object_in;
use serde_json::Value;
use size_values::{NoMemory, Text};
use std::alloc::Global;
use uuid::Uuid;

/// What stands before the id in the path of an operation.
const OPERATIONS: &str = "/1.0/operations/";

#[tactic(auto, unfolding(crate::specs::Forms::text_at))]
fn text_at<'a>(key: &str, body: &'a Value) -> Option<&'a str>
    ensures { option_map (λ text. text.now) result ≡ text_at key.now (view body.now) }
{
    match body.get(key) {
        Some(member) => member.as_str(),
        None => None,
    }
}

#[tactic(auto, unfolding(crate::specs::Forms::number_at))]
fn number_at(key: &str, body: &Value) -> Option<u64>
    ensures { result ≡ number_at key.now (view body.now) }
{
    match body.get(key) {
        Some(member) => member.as_u64(),
        None => None,
    }
}

/// Whether the member is this text.
#[tactic(auto, unfolding(crate::specs::Forms::says))]
fn says(key: &str, word: &str, body: &Value) -> bool
    ensures { result ≡ says key.now word.now (view body.now) }
{
    match text_at(key, body) {
        Some(text) => text == word,
        None => false,
    }
}

/// Whether the member is this number.
#[tactic(auto, unfolding(crate::specs::Forms::counts))]
fn counts(key: &str, number: u64, body: &Value) -> bool
    ensures { result ≡ counts key.now number (view body.now) }
{
    match number_at(key, body) {
        Some(counted) => counted == number,
        None => false,
    }
}

/// Whether a text is a UUID in lower case with hyphens (RFC 9562, section 4), as the ids of operations are.
#[tactic(auto, unfolding(crate::specs::Forms::is_id))]
pub fn is_id(text: &str) -> bool
    ensures { result ≡ is_id text.now }
{
    match Uuid::parse_str(text) {
        Ok(id) => {
            let mut buffer = Uuid::encode_buffer();
            id.hyphenated().encode_lower(&mut buffer) == text
        }
        Err(_) => false,
    }
}

/// Whether a text is the path of an operation.
#[tactic(auto, unfolding(crate::specs::Forms::is_operation))]
fn is_operation(path: &str) -> bool
    ensures { result ≡ is_operation path.now }
{
    match path.strip_prefix(OPERATIONS) {
        Some(id) => is_id(id),
        None => false,
    }
}

/// The path of the operation that a body names.
#[tactic(auto, unfolding(crate::specs::Forms::operation_at))]
fn operation_at<'a>(body: &'a Value) -> Option<&'a str>
    ensures { option_map (λ path. path.now) result ≡ operation_at (view body.now) }
{
    match text_at("operation", body) {
        Some(path) => { if is_operation(path) { Some(path) } else { None } }
        None => None,
    }
}

/// The metadata of a body, where there are some.
fn metadata_of(body: &Value) -> Result<Option<Metadata>, NoMemory>
    requires { has_float (view body.now) ≡ false }
    ensures { IfOk result (λ found. option_map view found ≡ get (codes "metadata") (view body.now)) }
{
    match body.get("metadata") {
        Some(member) => Ok(Some(Metadata::new(member.clone()?))),
        None => Ok(None),
    }
}

/// Whether a body is behind this code, and has this status by its number and its word.
#[tactic(auto, unfolding(crate::specs::Forms::has_status))]
fn has_status(wanted: u16, number: u64, word: &str, code: u16, body: &Value) -> bool
    ensures { result ≡ has_status wanted number word.now code (view body.now) }
{
    code == wanted && counts("status_code", number, body) && says("status", word, body)
}

/// The answer that a request was carried out.
#[tactic(auto, unfolding(crate::specs::Forms::sync_of))]
fn sync_of(code: u16, body: &Value) -> Result<Option<Answer>, NoMemory>
    requires { has_float (view body.now) ≡ false }
    ensures { IfOk result (λ answer. option_map told answer ≡ sync_of code (view body.now)) }
{
    if !has_status(200, 200, "Success", code, body) {
        return Ok(None);
    }
    match metadata_of(body)? {
        Some(metadata) => Ok(Some(Answer::Sync { metadata })),
        None => Ok(None),
    }
}

/// The answer that an operation was begun.
#[tactic(auto, unfolding(crate::specs::Forms::async_of))]
fn async_of(alloc: Global, code: u16, body: &Value) -> Result<Option<Answer>, NoMemory>
    requires { has_float (view body.now) ≡ false }
    ensures { IfOk result (λ answer. option_map told answer ≡ async_of code (view body.now)) }
{
    if !has_status(202, 100, "Operation created", code, body) {
        return Ok(None);
    }
    match operation_at(body) {
        Some(path) => operation_begun(alloc, path, body),
        None => Ok(None),
    }
}

/// The answer that an operation of this path was begun, where the body has metadata.
fn operation_begun(alloc: Global, path: &str, body: &Value) -> Result<Option<Answer>, NoMemory>
    requires { has_float (view body.now) ≡ false }
    ensures { IfOk result (λ answer. option_map told answer ≡ option_map (begun path.now) (get (codes "metadata") (view body.now))) }
{
    match metadata_of(body)? {
        Some(metadata) => {
            let operation = Text::from_text(alloc, path)?;
            Ok(Some(Answer::Async {
                operation,
                metadata,
            }))
        }
        None => Ok(None),
    }
}

/// The answer that a request was refused.
#[tactic(auto, unfolding(crate::specs::Forms::error_of))]
fn error_of(alloc: Global, code: u16, body: &Value) -> Result<Option<Answer>, NoMemory>
    requires { has_float (view body.now) ≡ false }
    ensures { IfOk result (λ answer. option_map told answer ≡ error_of code (view body.now)) }
{
    if !counts("error_code", u64::from(code), body) {
        return Ok(None);
    }
    match text_at("error", body) {
        Some(text) => {
            let text = Text::from_text(alloc, text)?;
            let metadata = metadata_of(body)?;
            Ok(Some(Answer::Error {
                text,
                code,
                metadata,
            }))
        }
        None => Ok(None),
    }
}

/// The answer in the form that the body's `type` names.
#[tactic(auto, unfolding(crate::specs::Forms::form_of))]
fn form_of(alloc: Global, code: u16, body: &Value) -> Result<Option<Answer>, NoMemory>
    requires { has_float (view body.now) ≡ false }
    ensures { IfOk result (λ answer. option_map told answer ≡ form_of code (view body.now)) }
{
    if says("type", "sync", body) {
        return sync_of(code, body);
    }
    if says("type", "async", body) {
        return async_of(alloc, code, body);
    }
    if says("type", "error", body) {
        return error_of(alloc, code, body);
    }
    Ok(None)
}

/// The answer that an object is behind this HTTP status code.
#[tactic(auto, unfolding(crate::specs::Forms::answer_of))]
fn answer_of(alloc: Global, code: u16, body: &Value) -> Result<Option<Answer>, NoMemory>
    ensures { IfOk result (λ answer. option_map told answer ≡ answer_of code (view body.now)) }
{
    if has_float(body) {
        return Ok(None);
    }
    form_of(alloc, code, body)
}

/// The answer that the body of a reply is behind this HTTP status code, if it is one.
#[tactic(auto, unfolding(crate::specs::Forms::answer_in))]
pub(crate) fn answer_in(alloc: Global, code: u16, body: &[u8]) -> Result<Option<Answer>, NoMemory>
    ensures { IfOk result (λ answer. option_map told answer ≡ answer_in code body.now) }
{
    match object_in(alloc, body)? {
        Some(object) => answer_of(alloc, code, &object),
        None => Ok(None),
    }
}
