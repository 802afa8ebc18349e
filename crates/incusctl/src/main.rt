//! `incusctl`: a client of `incusd`, at a port of 127.0.0.1 or at a socket file. It sends the requests of one command, and
//! prints what the replies tell (`client_words::client_help`).
#![tactic(auto)]

mod connect;
mod telling;

use crate::connect::connect;
use crate::telling::{tell, tell_status};
use client_run::{Course, client_run};
use client_words::{client_help, read_words};
use http_front::{ReaderSource, WriterSink};
use std::io::ErrorKind;
use std::net::TcpStream;
use std::process::ExitCode;
use std::{env, io};

/// The words of the command line, without the name of the program.
fn words_of(rt: &HostRuntime) -> io::Result<Vec<String>> {
    let mut words = Vec::new(rt.alloc());
    for word in env::args(rt)?.skip(1) {
        words.push(word)?;
    }
    Ok(words)
}

/// Why the words could not be taken: one is no UTF-8, which is not read, or there was no memory for them.
fn course_of(error: &io::Error) -> Course {
    match error.kind() {
        ErrorKind::InvalidData => Course::Unread,
        _ => Course::NoMemory,
    }
}

/// Runs the command over a connection.
fn run_over(rt: HostRuntime, words: &[String], stream: TcpStream) -> u8 {
    let Ok(twin) = stream.try_clone() else {
        return Course::LinkFailed.status();
    };
    let mut source = ReaderSource::new(stream);
    let mut sink = WriterSink::new(twin);
    let mut printed = WriterSink::new(rt.stdout());
    client_run(rt.alloc(), words, &mut source, &mut sink, &mut printed)
}

/// Runs the command that the words name, once the server is reached where they say that it listens.
fn run(rt: HostRuntime, words: &[String]) -> u8 {
    match read_words(rt.alloc(), words) {
        Ok(Some(said)) => match connect(&rt, &said.door) {
            Ok(stream) => run_over(rt, words, stream),
            Err(_) => Course::LinkFailed.status(),
        },
        Ok(None) => Course::Unread.status(),
        Err(_) => Course::NoMemory.status(),
    }
}

fn main(rt: HostRuntime) -> ExitCode {
    let status = match words_of(&rt) {
        Ok(words) => run(rt, &words),
        Err(error) => course_of(&error).status(),
    };
    if status == Course::Unread.status() {
        tell(rt, client_help());
    }
    tell_status(rt, status);
    ExitCode::from(status)
}
