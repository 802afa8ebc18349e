ghost use Rattle.std.specs.Prelude.{◌≡◌, ℕ, ◌++◌, List, [], Bool, IfOk, IsTrue, OnOk, string_bytes, decimal, length};
ghost use Rattle.http_front.specs.declared.reply.Printed.{Printed};
ghost use Rattle.http_front.specs.Replies.{is_reply_code, phrase_of, status_line, length_line, location_line};
ghost use Rattle.http_front.specs.Replies.{tag_line, last_line, head_text, reply_text, no_memory_body, line};

use http::StatusCode;
use size_values::{NoMemory, Seq, Text};
use std::alloc::Global;

/// A reply: its status code, its JSON body, the text of a Location header or none where it is empty, and whether the
/// connection ends after it. `tag` is the entity tag of what is shown, with its quotes (RFC 9110, section 8.8.3), or
/// empty: no ETag header.
#[derive(Drop)]
pub struct Printed {
    pub code: u16,
    pub body: Seq<u8>,
    pub location: Text,
    pub tag: Text,
    pub last: bool,
}

/// The bytes of the reply: a status line and headers (RFC 9112, sections 4 and 5), an empty line, and the body.
#[tactic(auto, unfolding(crate::specs::Replies::reply_text))]
pub fn reply_bytes(alloc: Global, printed: &Printed) -> Result<Seq<u8>, NoMemory>
    requires { IsTrue (is_reply_code printed.now.code) }
    ensures { IfOk result (λ bytes. bytes ≡ reply_text printed.now) }
{
    let mut bytes = head_text(alloc, printed)?.into_bytes();
    bytes.extend_from_slice(printed.body.view())?;
    Ok(Seq::from_vec(bytes))
}

/// The reply up to its body.
fn head_text(alloc: Global, printed: &Printed) -> Result<String, NoMemory>
    requires { IsTrue (is_reply_code printed.now.code) }
    ensures { IfOk result (λ text. string_bytes text ≡ head_text printed.now) }
{
    let mut text = status_line(alloc, printed.code)?;
    push_line(&mut text, "Content-Type: ", "application/json")?;
    push_length(alloc, &mut text, printed.body.len())?;
    push_location(&mut text, &printed.location)?;
    push_tag(&mut text, &printed.tag)?;
    push_last(&mut text, printed.last)?;
    push_line(&mut text, "", "")?;
    Ok(text)
}

/// The first line of a reply.
fn status_line(alloc: Global, code: u16) -> Result<String, NoMemory>
    requires { IsTrue (is_reply_code code) }
    ensures { IfOk result (λ text. string_bytes text ≡ status_line code) }
{
    let mut text = String::from_str(alloc, "HTTP/1.1 ")?;
    text.push_str(code.to_string(alloc)?.as_str())?;
    text.push_str(" ")?;
    text.push_str(phrase_of(code))?;
    text.push_str("\r\n")?;
    Ok(text)
}

/// The phrase of a reply's code.
fn phrase_of(code: u16) -> &'static str
    requires { IsTrue (is_reply_code code) }
    ensures { result.now ≡ phrase_of code }
{
    let Ok(status) = StatusCode::from_u16(code) else {
        unreachable!();
    };
    match status.canonical_reason() {
        Some(phrase) => phrase,
        None => "",
    }
}

fn push_line(text: &mut String, name: &str, value: &str) -> Result<(), NoMemory>
    ensures { OnOk result (string_bytes text.new ≡ string_bytes text.old ++ line (name.now ++ value.now)) }
{
    text.push_str(name)?;
    text.push_str(value)?;
    text.push_str("\r\n")?;
    Ok(())
}

fn push_length(alloc: Global, text: &mut String, len: usize) -> Result<(), NoMemory>
    ensures { OnOk result (string_bytes text.new ≡ string_bytes text.old ++ length_line len) }
{
    let digits = len.to_string(alloc)?;
    push_line(text, "Content-Length: ", digits.as_str())
}

fn push_location(text: &mut String, location: &Text) -> Result<(), NoMemory>
    ensures { OnOk result (string_bytes text.new ≡ string_bytes text.old ++ location_line location.now) }
{
    if location.is_empty() {
        return Ok(());
    }
    push_line(text, "Location: ", location.view())
}

fn push_tag(text: &mut String, tag: &Text) -> Result<(), NoMemory>
    ensures { OnOk result (string_bytes text.new ≡ string_bytes text.old ++ tag_line tag.now) }
{
    if tag.is_empty() {
        return Ok(());
    }
    push_line(text, "ETag: ", tag.view())
}

fn push_last(text: &mut String, last: bool) -> Result<(), NoMemory>
    ensures { OnOk result (string_bytes text.new ≡ string_bytes text.old ++ last_line last) }
{
    if last {
        return push_line(text, "Connection: close", "");
    }
    Ok(())
}

/// The reply where there is no memory for another one. It takes none.
pub fn no_memory_reply(last: bool) -> &'static [u8]
    ensures { result.now ≡ reply_text
        (record { code = 500; body = no_memory_body; location = []; tag = []; last = last }) }
{
    if last { NO_MEMORY_LAST } else { NO_MEMORY }
}

const NO_MEMORY: &[u8] =
    b"HTTP/1.1 500 Internal Server Error\r\nContent-Type: application/json\r\nContent-Length: 78\r\n\r\n{\"error\":\"no memory\",\"error_code\":500,\"metadata\":{\"rule\":\"M1\"},\"type\":\"error\"}";

const NO_MEMORY_LAST: &[u8] =
    b"HTTP/1.1 500 Internal Server Error\r\nContent-Type: application/json\r\nContent-Length: 78\r\nConnection: close\r\n\r\n{\"error\":\"no memory\",\"error_code\":500,\"metadata\":{\"rule\":\"M1\"},\"type\":\"error\"}";
