//! The lines of a run, spelled out: the texts for which signs stand, lines that stand there many
//! times, changes that are sent again, and what is read again after each refusal.

use crate::lines::is_refusal;
use size_values::NoMemory;
use std::alloc::Global;

/// The reply to a change that was made.
const MADE: &str =
    "200 {\"metadata\":{},\"status\":\"Success\",\"status_code\":200,\"type\":\"sync\"}";

/// The reply to a change whose call of the keeper failed.
const UNAVAILABLE: &str =
    "503 {\"error\":\"unavailable\",\"error_code\":503,\"metadata\":{\"rule\":\"K1\"},\"type\":\"error\"}";

/// Appends texts.
pub(crate) fn push_texts(text: &mut String, more: &[&str]) -> Result<(), NoMemory> {
    for part in more {
        text.push_str(part)?;
    }
    Ok(())
}

/// Appends so many letters.
fn push_letters(text: &mut String, count: &str) -> Result<(), NoMemory> {
    let count: u32 = count.parse().unwrap_or(0);
    for _ in 0..count {
        text.push_str("x")?;
    }
    Ok(())
}

/// Appends a text that is let go then.
fn push_owned(text: &mut String, more: String) -> Result<(), NoMemory> {
    let pushed = text.push_str(more.as_str());
    drop(more);
    pushed?;
    Ok(())
}

/// Appends what a sign stands for, of which this stands between `<` and `>`.
fn push_sign(alloc: Global, text: &mut String, sign: &str, number: u64) -> Result<(), NoMemory> {
    match sign {
        "" => push_owned(text, format!(in alloc; "{number}")?),
        "x" => push_owned(text, format!(in alloc; "{number:012x}")?),
        _ => push_letters(text, sign),
    }
}

/// Appends a line with what its signs stand for.
fn push_spelled(alloc: Global, text: &mut String, line: &str, number: u64) -> Result<(), NoMemory> {
    let (first, _) = line.split_once('<').unwrap_or((line, ""));
    text.push_str(first)?;
    for piece in line.split('<').skip(1) {
        let (sign, rest) = piece.split_once('>').unwrap_or((piece, ""));
        push_sign(alloc, text, sign, number)?;
        text.push_str(rest)?;
    }
    text.push_str("\n")?;
    Ok(())
}

/// Whether a line is sent or written as it stands, or is for readers: there are no signs in it.
fn is_plain(line: &str) -> bool {
    line.starts_with('<') || line.starts_with('>') || line.starts_with('#')
}

/// Appends lines with what their signs stand for.
fn push_lines(alloc: Global, text: &mut String, lines: &str, number: u64) -> Result<(), NoMemory> {
    for line in lines.lines() {
        if is_plain(line) {
            push_texts(text, &[line, "\n"])?;
        } else {
            push_spelled(alloc, text, line, number)?;
        }
    }
    Ok(())
}

/// Appends lines as many times as the first of them says.
fn push_repeated(alloc: Global, text: &mut String, block: &str) -> Result<(), NoMemory> {
    let (count, lines) = block.split_once('\n').unwrap_or((block, ""));
    let count: u64 = count.parse().unwrap_or(0);
    for number in 0..count {
        push_lines(alloc, text, lines, number.saturating_add(1))?;
    }
    Ok(())
}

/// A text with what its signs stand for, and all its repeated lines.
fn with_repeats(alloc: Global, lines: &str) -> Result<String, NoMemory> {
    let mut text = String::new(alloc);
    for part in lines.split("\n*") {
        match part.strip_prefix(' ') {
            Some(block) => push_repeated(alloc, &mut text, block)?,
            None => push_lines(alloc, &mut text, part, 0)?,
        }
    }
    Ok(text)
}

/// A text in which each change whose call of the keeper fails is refused first: what was read
/// before it is read again, and it is sent again. The keeper's first two calls are the load and the
/// first commit; each try of a change is one call.
fn with_changes(alloc: Global, lines: &str, fails: &[u64]) -> Result<String, NoMemory> {
    let mut text = String::new(alloc);
    let (mut before, _) = lines.split_once("\n+ ").unwrap_or((lines, ""));
    push_texts(&mut text, &[before, "\n"])?;
    let mut call = 3u64;
    for part in lines.split("\n+ ").skip(1) {
        let (change, after) = part.split_once('\n').unwrap_or((part, ""));
        if fails.contains(&call) {
            push_texts(&mut text, &[change, "\n", UNAVAILABLE, "\n", before, "\n"])?;
            call = call.saturating_add(1);
        }
        push_texts(&mut text, &[change, "\n", MADE, "\n", after, "\n"])?;
        call = call.saturating_add(1);
        before = after;
    }
    Ok(text)
}

/// Appends the lines that come again after each refusal.
fn push_again(text: &mut String, lines: &str) -> Result<(), NoMemory> {
    for line in lines.lines() {
        if let Some(again) = line.strip_prefix("! ") {
            push_texts(text, &[again, "\n"])?;
        }
    }
    Ok(())
}

/// A text in which those lines stand after each refusal.
fn with_readings(alloc: Global, lines: &str) -> Result<String, NoMemory> {
    let mut text = String::new(alloc);
    for line in lines.lines() {
        push_texts(&mut text, &[line, "\n"])?;
        if is_refusal(line) {
            push_again(&mut text, lines)?;
        }
    }
    Ok(text)
}

/// The lines of a run, spelled out, where these calls of the keeper fail.
pub(crate) fn spelled_out(alloc: Global, lines: &str, fails: &[u64]) -> Result<String, NoMemory> {
    let repeated = with_repeats(alloc, lines)?;
    let changed = with_changes(alloc, repeated.as_str(), fails);
    drop(repeated);
    let changed = changed?;
    let spelled = with_readings(alloc, changed.as_str());
    drop(changed);
    spelled
}
