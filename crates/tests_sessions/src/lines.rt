//! Lines of a run, and the bytes for which they stand.

use size_values::NoMemory;
use std::alloc::Global;

/// Whether a line is a reply: it begins with its code.
pub(crate) fn is_reply(line: &str) -> bool {
    line.starts_with(|c: char| c.is_ascii_digit())
}

/// Whether a line is a reply that refuses.
pub(crate) fn is_refusal(line: &str) -> bool {
    line.starts_with('4') || line.starts_with('5')
}

/// Whether a line is a request: it begins with its method.
pub(crate) fn is_request(line: &str) -> bool {
    line.starts_with(|c: char| c.is_ascii_alphabetic())
}

/// The phrase of a code (RFC 9110, section 15).
fn phrase(code: &str) -> &'static str {
    match code {
        "200" => "OK",
        "202" => "Accepted",
        "400" => "Bad Request",
        "403" => "Forbidden",
        "404" => "Not Found",
        "405" => "Method Not Allowed",
        "409" => "Conflict",
        "501" => "Not Implemented",
        "503" => "Service Unavailable",
        _ => "",
    }
}

/// Appends texts.
fn push_texts(bytes: &mut Vec<u8>, texts: &[&str]) -> Result<(), NoMemory> {
    for text in texts {
        bytes.extend_from_slice(text.as_bytes())?;
    }
    Ok(())
}

/// Appends the bytes of a request.
fn push_request(alloc: Global, bytes: &mut Vec<u8>, line: &str) -> Result<(), NoMemory> {
    let (method, rest) = line.split_once(' ').unwrap_or((line, ""));
    let (target, body) = rest.split_once(' ').unwrap_or((rest, ""));
    let length = format!(in alloc; "{}", body.len())?;
    let head = [
        method,
        " ",
        target,
        " HTTP/1.1\r\nContent-Length: ",
        length.as_str(),
        "\r\n\r\n",
        body,
    ];
    let pushed = push_texts(bytes, &head);
    drop(length);
    pushed
}

/// The location and the body of what stands after a reply's code.
fn parts_of(rest: &str) -> (&str, &str) {
    if rest.starts_with('/') {
        rest.split_once(' ').unwrap_or(("", rest))
    } else {
        ("", rest)
    }
}

/// Appends the parts of a reply.
fn push_parts(bytes: &mut Vec<u8>, head: &str, location: &str, body: &str) -> Result<(), NoMemory> {
    push_texts(bytes, &[head])?;
    if !location.is_empty() {
        push_texts(bytes, &["Location: ", location, "\r\n"])?;
    }
    push_texts(bytes, &["\r\n", body])
}

/// Appends the bytes of a reply.
fn push_reply(alloc: Global, bytes: &mut Vec<u8>, line: &str) -> Result<(), NoMemory> {
    let (code, rest) = line.split_once(' ').unwrap_or((line, ""));
    let (location, body) = parts_of(rest);
    let head = format!(in alloc;
        "HTTP/1.1 {code} {}\r\nContent-Type: application/json\r\nContent-Length: {}\r\n",
        phrase(code),
        body.len()
    )?;
    let pushed = push_parts(bytes, head.as_str(), location, body);
    drop(head);
    pushed
}

/// Appends what stands after a backslash: the byte for which its sign stands, and the rest.
fn push_break(bytes: &mut Vec<u8>, part: &str) -> Result<(), NoMemory> {
    if let Some(rest) = part.strip_prefix('r') {
        return push_texts(bytes, &["\r", rest]);
    }
    match part.strip_prefix('0') {
        Some(rest) => push_texts(bytes, &["\0", rest]),
        None => push_texts(bytes, &["\n", part.strip_prefix('n').unwrap_or(part)]),
    }
}

/// Appends a text, with the bytes for which `\r`, `\n` and `\0` stand in it.
fn push_breaks(bytes: &mut Vec<u8>, text: &str) -> Result<(), NoMemory> {
    let (first, _) = text.split_once('\\').unwrap_or((text, ""));
    push_texts(bytes, &[first])?;
    for part in text.split('\\').skip(1) {
        push_break(bytes, part)?;
    }
    Ok(())
}

/// Appends a line as it stands after its sign.
fn push_raw(bytes: &mut Vec<u8>, line: &str, sign: char) -> Result<(), NoMemory> {
    let Some(rest) = line.strip_prefix(sign) else {
        return Ok(());
    };
    if let Some(text) = rest.strip_prefix(sign) {
        return push_texts(bytes, &[text]);
    }
    match rest.strip_prefix('=') {
        Some(text) => push_breaks(bytes, text),
        None => push_texts(bytes, &[rest, "\r\n"]),
    }
}

/// Appends what is sent for a line.
pub(crate) fn push_sent(alloc: Global, bytes: &mut Vec<u8>, line: &str) -> Result<(), NoMemory> {
    if is_request(line) {
        push_request(alloc, bytes, line)
    } else {
        push_raw(bytes, line, '<')
    }
}

/// Appends what is sent for lines.
fn push_all_sent(alloc: Global, bytes: &mut Vec<u8>, lines: &str) -> Result<(), NoMemory> {
    for line in lines.lines() {
        push_sent(alloc, bytes, line)?;
    }
    Ok(())
}

/// What is sent for lines.
pub(crate) fn sent_for(alloc: Global, lines: &str) -> Result<Vec<u8>, NoMemory> {
    let mut bytes = Vec::new(alloc);
    match push_all_sent(alloc, &mut bytes, lines) {
        Ok(()) => Ok(bytes),
        Err(why) => {
            drop(bytes);
            Err(why)
        }
    }
}

/// Appends what is written for a line.
pub(crate) fn push_due(alloc: Global, bytes: &mut Vec<u8>, line: &str) -> Result<(), NoMemory> {
    if is_reply(line) {
        push_reply(alloc, bytes, line)
    } else {
        push_raw(bytes, line, '>')
    }
}
