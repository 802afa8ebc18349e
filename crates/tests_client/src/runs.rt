//! Whole runs of the client over links in memory.
use client_run::{Course, client_run};
use http_front::{ByteSink, ByteSource};
use size_values::Seq;
use std::alloc::Global;

const BEGUN: &str =
    "{\"metadata\":{},\"operation\":\"/1.0/operations/00000000-0001-8000-8000-000000000002\",\"status\":\"Operation created\",\"status_code\":100,\"type\":\"async\"}";

const ENDED: &str =
    "{\"metadata\":{\"err\":\"\",\"status\":\"Success\"},\"status\":\"Success\",\"status_code\":200,\"type\":\"sync\"}";

const FAILED: &str =
    "{\"metadata\":{\"err\":\"host call failed\",\"status\":\"Failure\"},\"status\":\"Success\",\"status_code\":200,\"type\":\"sync\"}";

const REFUSED: &str =
    "{\"error\":\"object is missing\",\"error_code\":404,\"metadata\":{\"rule\":\"N2\"},\"type\":\"error\"}";

const LISTED: &str =
    "{\"metadata\":[{\"name\":\"a\",\"status\":\"Running\"},{\"name\":\"b\",\"status\":\"Stopped\"}],\"status\":\"Success\",\"status_code\":200,\"type\":\"sync\"}";

const LIST: &str =
    "GET /1.0/instances?project=default&recursion=1 HTTP/1.1\r\nHost: localhost\r\nContent-Length: 0\r\n\r\n";

const START: &str =
    "PUT /1.0/instances/a/state?project=default HTTP/1.1\r\nHost: localhost\r\nContent-Length: 18\r\n\r\n{\"action\":\"start\"}";

const WAIT: &str =
    "GET /1.0/operations/00000000-0001-8000-8000-000000000002/wait?timeout=-1 HTTP/1.1\r\nHost: localhost\r\nContent-Length: 0\r\n\r\n";

const CREATE: &str =
    "POST /1.0/instances?project=default HTTP/1.1\r\nHost: localhost\r\nContent-Length: 37\r\n\r\n{\"name\":\"a\",\"source\":{\"type\":\"none\"}}";

/// The calls that fail, of the reads, the writes to the link and the prints.
type Faults = (&'static [u64], &'static [u64], &'static [u64]);

const NO_FAULT: Faults = (&[], &[], &[]);

/// Words; replies, each with the code before it; bytes behind them; the calls that fail; and what is sent and printed, with the
/// status.
struct Row {
    words: &'static [&'static str],
    replies: &'static [(u16, &'static str)],
    behind: &'static str,
    faults: Faults,
    sent: &'static [&'static str],
    printed: &'static str,
    status: u8,
}

const ROWS: &[Row] = &[
    Row {
        words: &["list", "--port", "1"],
        replies: &[(200, LISTED)],
        behind: "",
        faults: NO_FAULT,
        sent: &[LIST],
        printed: "a Running\nb Stopped\n",
        status: 0,
    },
    Row {
        words: &["launch", "a", "--port", "1"],
        replies: &[(202, BEGUN), (200, ENDED), (202, BEGUN), (200, ENDED)],
        behind: "more",
        faults: NO_FAULT,
        sent: &[CREATE, WAIT, START, WAIT],
        printed: "a Running\n",
        status: 0,
    },
    // The start is not sent where the creation did not succeed.
    Row {
        words: &["launch", "a", "--port", "1"],
        replies: &[(202, BEGUN), (200, FAILED), (202, BEGUN), (200, ENDED)],
        behind: "",
        faults: NO_FAULT,
        sent: &[CREATE, WAIT],
        printed: "error: host call failed\n",
        status: 1,
    },
    Row {
        words: &["start", "a", "--socket", "/run/incus"],
        replies: &[(404, REFUSED)],
        behind: "",
        faults: NO_FAULT,
        sent: &[START],
        printed: "error: object is missing: rule N2\n",
        status: 1,
    },
    Row {
        words: &["start", "a"],
        replies: &[(202, BEGUN)],
        behind: "",
        faults: NO_FAULT,
        sent: &[],
        printed: "",
        status: 2,
    },
    // A reply of another form, no reply at all, and one that is cut off.
    Row {
        words: &["start", "a", "--port", "1"],
        replies: &[(200, LISTED)],
        behind: "",
        faults: NO_FAULT,
        sent: &[START],
        printed: "",
        status: 3,
    },
    Row {
        words: &["start", "a", "--port", "1"],
        replies: &[(202, BEGUN)],
        behind: "HTTP/2 200 OK\r\n",
        faults: NO_FAULT,
        sent: &[START, WAIT],
        printed: "",
        status: 3,
    },
    Row {
        words: &["start", "a", "--port", "1"],
        replies: &[(202, BEGUN)],
        behind: "HTTP/1.1 200 OK\r\nContent-Length: 4\r\n\r\n{",
        faults: NO_FAULT,
        sent: &[START, WAIT],
        printed: "",
        status: 3,
    },
    // Reads, writes and prints that fail.
    Row {
        words: &["start", "a", "--port", "1"],
        replies: &[(202, BEGUN), (200, ENDED)],
        behind: "",
        faults: (&[1], &[], &[]),
        sent: &[START],
        printed: "",
        status: 4,
    },
    Row {
        words: &["start", "a", "--port", "1"],
        replies: &[(202, BEGUN), (200, ENDED)],
        behind: "",
        faults: (&[], &[2], &[]),
        sent: &[START],
        printed: "",
        status: 4,
    },
    Row {
        words: &["start", "a", "--port", "1"],
        replies: &[(202, BEGUN), (200, ENDED)],
        behind: "",
        faults: (&[], &[], &[1]),
        sent: &[START, WAIT],
        printed: "",
        status: 5,
    },
];

/// The bytes of replies, and those behind them.
fn bytes_of(alloc: Global, row: &Row) -> Option<Vec<u8>> {
    let mut bytes = Vec::new(alloc);
    for (code, body) in row.replies {
        let len = body.len();
        let head = format!(in alloc; "HTTP/1.1 {code} OK\r\nContent-Length: {len}\r\n\r\n").ok()?;
        bytes.extend_from_slice(head.as_bytes()).ok()?;
        bytes.extend_from_slice(body.as_bytes()).ok()?;
    }
    bytes.extend_from_slice(row.behind.as_bytes()).ok()?;
    Some(bytes)
}

fn words_of(alloc: Global, words: &[&str]) -> Option<Vec<String>> {
    let mut strings = Vec::new(alloc);
    for word in words {
        strings.push(String::from_str(alloc, word).ok()?).ok()?;
    }
    Some(strings)
}

fn numbers(alloc: Global, fails: &[u64]) -> Option<Seq<u64>> {
    let mut numbers = Vec::new(alloc);
    for number in fails {
        numbers.push(*number).ok()?;
    }
    Some(Seq::from_vec(numbers))
}

/// Whether the bytes are these texts, one after the other.
fn are_joined(mut bytes: &[u8], texts: &[&str]) -> bool {
    for text in texts {
        match bytes.strip_prefix(text.as_bytes()) {
            Some(rest) => bytes = rest,
            None => return false,
        }
    }
    bytes.is_empty()
}

/// Whether the run over a link that gives so many bytes at a time is the one that is wanted.
fn runs(alloc: Global, row: &Row, piece: usize) -> Option<bool> {
    let words = words_of(alloc, row.words)?;
    let (reads, writes, prints) = row.faults;
    let bytes = bytes_of(alloc, row)?;
    let mut source = ByteSource::new(Seq::from_vec(bytes), piece.max(1), numbers(alloc, reads)?);
    let mut sink = ByteSink::new(alloc, numbers(alloc, writes)?);
    let mut printed = ByteSink::new(alloc, numbers(alloc, prints)?);
    let status = client_run(alloc, &words, &mut source, &mut sink, &mut printed);
    Some(
        status == row.status
            && are_joined(sink.bytes(), row.sent)
            && printed.bytes() == row.printed.as_bytes(),
    )
}

#[test]
fn runs_commands(rt: HostRuntime) {
    for (at, row) in ROWS.iter().enumerate() {
        for piece in [1, 7, 100_000] {
            assert!(rt;
                runs(rt.alloc(), row, piece) == Some(true),
                "row {at} by {piece}"
            );
        }
    }
}

#[test]
fn gives_statuses(rt: HostRuntime) {
    assert_eq!(rt; Course::Ended(1).status(), 1);
    assert_eq!(rt; Course::Unread.status(), 2);
    assert_eq!(rt; Course::NoMemory.status(), 9);
}
