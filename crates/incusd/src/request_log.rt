//! A line on standard error for each request and for each background operation that ended.
ghost use Rattle.std.specs.Prelude.{◌≤◌};

use host_model::Report;
use http_front::{Clock, Request, SystemClock};
use program_start::tell_line;
use records::Rule;
use rest_json::{id_text, moment_text};
use rest_replies::rule_name;
use serve_loop::Log;
use size_values::{NoMemory, Text};
use std::alloc::Global;
use std::time::{SystemTime, UNIX_EPOCH};

/// The most bytes that a line tells of a method. So each line is one write of few bytes, which a pipe takes whole.
const MOST_METHOD: usize = 64;

/// The most bytes that a line tells of a target.
const MOST_TARGET: usize = 3_000;

/// The digits of a byte.
const DIGITS: &str = "0123456789abcdef";

/// Tells standard error of requests and of operations, where it is on: a line for each, in one write. Where there is no
/// memory for a line, it is left out.
#[derive(Clone, Copy)]
pub(crate) struct RequestLog {
    rt: HostRuntime,
    is_on: bool,
    /// The port that requests come to; None where that is a socket file.
    port: Option<u16>,
    boot: u64,
    /// The microseconds since 1970 at which the last request had come; 0 where the clock told none.
    came: u64,
}

impl RequestLog {
    /// The log of what comes to this port of 127.0.0.1, or to a socket file. The boot word is that of the ids of
    /// operations.
    pub(crate) fn new(rt: HostRuntime, is_on: bool, port: Option<u16>, boot: u64) -> RequestLog {
        RequestLog {
            rt,
            is_on,
            port,
            boot,
            came: 0,
        }
    }

    /// How many microseconds have gone by since the last request had come, where that can be told.
    fn elapsed(&self) -> Option<u128> {
        let now = microseconds(&self.rt);
        if self.came == 0 || now < self.came {
            None
        } else {
            Some(u128::from(now - self.came))
        }
    }

    /// The present moment.
    fn moment_text(&self) -> Result<Text, NoMemory> {
        let mut clock = SystemClock::new(self.rt);
        let moment = clock.now();
        drop(clock);
        moment_text(self.rt.alloc(), moment)
    }

    fn request_line(
        &self,
        request: Option<&Request>,
        code: Option<u16>,
        rule: Option<Rule>,
    ) -> Result<String, NoMemory> {
        let alloc = self.rt.alloc();
        let time = self.moment_text()?;
        let address = address_text(alloc, self.port)?;
        let method = method_text(alloc, request)?;
        let target = target_text(alloc, request)?;
        let code = number_text(alloc, code.map(u128::from))?;
        let rule = rule_text(rule);
        let micros = number_text(alloc, self.elapsed())?;
        Ok(format!(in alloc;
            "{} {address} {method} {target} {code} {rule} {micros}\n",
            time.view()
        )?)
    }

    fn end_line(&self, number: u64, report: Report) -> Result<String, NoMemory> {
        let alloc = self.rt.alloc();
        let time = self.moment_text()?;
        let id = id_text(alloc, self.boot, number)?;
        Ok(format!(in alloc;
            "{} operation {} {}\n",
            time.view(),
            id.view(),
            report_word(report)
        )?)
    }
}

impl Log for RequestLog {
    fn came(&mut self) {
        if self.is_on {
            self.came = microseconds(&self.rt);
        }
    }

    fn answered(&mut self, request: Option<&Request>, code: Option<u16>, rule: Option<Rule>) {
        if self.is_on {
            tell_line(self.rt, self.request_line(request, code, rule));
        }
    }

    fn ended(&mut self, number: u64, report: Report) {
        if self.is_on {
            tell_line(self.rt, self.end_line(number, report));
        }
    }
}

/// The microseconds since 1970 that the clock of the system tells; 0 where it tells none.
fn microseconds(rt: &HostRuntime) -> u64 {
    let Ok(now) = SystemTime::now(rt) else {
        return 0;
    };
    match now.duration_since(UNIX_EPOCH) {
        Ok(since) => u64::try_from(since.as_micros()).unwrap_or(0),
        Err(_) => 0,
    }
}

/// The name of a rule, or a dash where none was broken.
fn rule_text(rule: Option<Rule>) -> &'static str {
    match rule {
        Some(rule) => rule_name(rule),
        None => "-",
    }
}

/// How a report is told.
fn report_word(report: Report) -> &'static str {
    match report {
        Report::Done => "done",
        Report::Failed(_) => "failed",
        Report::NoMemory => "no-memory",
    }
}

/// The address that was asked: that of a port, or the word for a socket file.
fn address_text(alloc: Global, port: Option<u16>) -> Result<String, NoMemory> {
    match port {
        Some(port) => Ok(format!(in alloc; "127.0.0.1:{port}")?),
        None => Ok(String::from_str(alloc, "unix")?),
    }
}

fn method_text(alloc: Global, request: Option<&Request>) -> Result<String, NoMemory> {
    match request {
        Some(request) => shown(alloc, request.method.view(), MOST_METHOD),
        None => Ok(String::from_str(alloc, "-")?),
    }
}

fn target_text(alloc: Global, request: Option<&Request>) -> Result<String, NoMemory> {
    match request {
        Some(request) => shown(alloc, request.target.view(), MOST_TARGET),
        None => Ok(String::from_str(alloc, "-")?),
    }
}

/// A number, or a dash where there is none.
fn number_text(alloc: Global, number: Option<u128>) -> Result<String, NoMemory> {
    match number {
        Some(number) => Ok(number.to_string(alloc)?),
        None => Ok(String::from_str(alloc, "-")?),
    }
}

/// A text as one word of a line: each byte that is no visible character of ASCII, and each backslash, is written as `\x`
/// and its two digits. A text that is longer than `most` then is cut, and ends in `\...`.
fn shown(alloc: Global, text: &str, most: usize) -> Result<String, NoMemory> {
    let mut word = String::new(alloc);
    for byte in text.bytes() {
        if word.len() >= most {
            word.push_str("\\...")?;
            return Ok(word);
        }
        push_byte(&mut word, byte)?;
    }
    Ok(word)
}

fn push_byte(word: &mut String, byte: u8) -> Result<(), NoMemory> {
    if byte.is_ascii_graphic() && byte != b'\\' {
        word.push(char::from(byte))?;
    } else {
        word.push_str("\\x")?;
        word.push_str(digit(byte / 16))?;
        word.push_str(digit(byte % 16))?;
    }
    Ok(())
}

/// The digit of a number below 16.
fn digit(number: u8) -> &'static str {
    let at = usize::from(number % 16);
    DIGITS.get(at..at + 1).unwrap_or("-")
}
