//! Links of which a read or a write fails, each in turn. What was asked for before is done, and nothing else: the next
//! link reads the same lists, and what is used stands within the limits.

use crate::links::{OwnGate, TCP, count_of, new_gate, served_failing};
use http_front::ByteSink;
use size_values::NoMemory;
use std::alloc::Global;
use std::sync::Wait;

/// Requests that are each answered well, one of them by an operation.
const REQUESTS: &[&str] = &[
    "POST /1.0/projects HTTP/1.1\r\nContent-Length: 48\r\n\r\n{\"config\":{\"limits.instances\":\"1\"},\"name\":\"lab\"}",
    "POST /1.0/storage-pools HTTP/1.1\r\nContent-Length: 28\r\n\r\n{\"driver\":\"dir\",\"name\":\"p0\"}",
    "PUT /1.0/profiles/default?project=lab HTTP/1.1\r\nContent-Length: 73\r\n\r\n{\"devices\":{\"root\":{\"path\":\"/\",\"pool\":\"p0\",\"size\":\"1GiB\",\"type\":\"disk\"}}}",
    "POST /1.0/instances?project=lab HTTP/1.1\r\nContent-Length: 37\r\n\r\n{\"name\":\"a\",\"source\":{\"type\":\"none\"}}",
    "POST /1.0/storage-pools/p0/volumes/custom HTTP/1.1\r\nContent-Length: 34\r\n\r\n{\"config\":{\"size\":\"1\"},\"name\":\"v\"}",
];

/// What there is, and what the project uses.
const LISTS: &str =
    "GET /1.0/projects HTTP/1.1\r\n\r\nGET /1.0/storage-pools HTTP/1.1\r\n\r\nGET /1.0/profiles?project=lab&recursion=1 HTTP/1.1\r\n\r\nGET /1.0/operations?project=lab HTTP/1.1\r\n\r\nGET /1.0/projects/lab/state HTTP/1.1\r\n\r\nGET /1.0/storage-pools/p0/volumes HTTP/1.1\r\n\r\n";

/// How many bytes a link gives at each read, at the most.
const PIECE: usize = 40;

/// The most reads and writes of a link.
const MOST: u64 = 100;

/// What a link came to of which one call was to fail.
#[derive(Clone, Copy, PartialEq, Eq)]
enum Tried {
    Well,
    Wrong,
    /// It made no such call.
    NotMade,
}

/// The first of the requests, one after the other.
fn first_requests(alloc: Global, count: usize) -> Result<String, NoMemory> {
    let mut text = String::new(alloc);
    for request in REQUESTS.iter().take(count) {
        text.push_str(request)?;
    }
    Ok(text)
}

/// What a link reads of a server.
fn lists<T: Wait>(rt: &T, alloc: Global, gate: &mut OwnGate) -> ByteSink {
    let (_, sink) = served_failing(rt, alloc, TCP, gate, LISTS, PIECE, 0, 0);
    sink
}

/// Whether a server reads as one of which the first requests were asked, by a link in which nothing failed.
fn reads_as_after<T: Wait>(rt: &T, alloc: Global, gate: &mut OwnGate, text: &str) -> bool {
    let Some(mut other) = new_gate(alloc) else {
        return false;
    };
    let (ends, sink) = served_failing(rt, alloc, TCP, &mut other, text, PIECE, 0, 0);
    drop(sink);
    let due = lists(rt, alloc, &mut other);
    drop(other);
    let found = lists(rt, alloc, gate);
    let is_so = ends == "ended" && found.bytes() == due.bytes();
    drop(found);
    drop(due);
    is_so
}

/// The same of so many requests.
fn has_done<T: Wait>(rt: &T, alloc: Global, gate: &mut OwnGate, count: usize) -> bool {
    match first_requests(alloc, count) {
        Ok(text) => {
            let is_so = reads_as_after(rt, alloc, gate, text.as_str());
            drop(text);
            is_so
        }
        Err(_) => false,
    }
}

/// What a link of a text comes to of which this read and this write fail, over a new server.
fn try_link<T: Wait>(rt: &T, alloc: Global, text: &str, read: u64, write: u64) -> Tried {
    let Some(mut gate) = new_gate(alloc) else {
        return Tried::Wrong;
    };
    let (ends, sink) = served_failing(rt, alloc, TCP, &mut gate, text, PIECE, read, write);
    let written = count_of(sink.bytes(), b"HTTP/1.1 ");
    drop(sink);
    let done = if write > 0 {
        written.saturating_add(1)
    } else {
        written
    };
    let due = if write > 0 {
        "write fault"
    } else {
        "read fault"
    };
    let came = if ends == "ended" {
        Tried::NotMade
    } else if ends == due && has_done(rt, alloc, &mut gate, done) {
        Tried::Well
    } else {
        Tried::Wrong
    };
    drop(gate);
    came
}

/// Whether each read, or each write, of a link of a text may fail, and how many of them there are.
fn count_well<T: Wait>(rt: &T, alloc: Global, text: &str, writes: bool) -> Option<u64> {
    for number in 1..MOST {
        let (read, write) = if writes { (0, number) } else { (number, 0) };
        match try_link(rt, alloc, text, read, write) {
            Tried::Well => {}
            Tried::NotMade => return Some(number),
            Tried::Wrong => return None,
        }
    }
    None
}

/// Whether all reads and all writes of a link of all requests may fail, of which there are as many writes as requests.
fn all_may_fail<T: Wait>(rt: &T, alloc: Global) -> bool {
    match first_requests(alloc, REQUESTS.len()) {
        Ok(text) => {
            let reads = count_well(rt, alloc, text.as_str(), false);
            let writes = count_well(rt, alloc, text.as_str(), true);
            drop(text);
            reads.is_some() && writes == Some(REQUESTS.len() as u64 + 1)
        }
        Err(_) => false,
    }
}

#[test]
fn the_next_link_reads_what_was_done(rt: HostRuntime) {
    assert!(rt; all_may_fail(&rt, rt.alloc()));
}
