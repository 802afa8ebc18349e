//! What is tried in the runs of a table, and where the requests and the replies of a run end.

use crate::lines::{is_reply, is_request, push_due, push_sent};
use size_values::NoMemory;
use std::alloc::Global;

/// What goes wrong in the runs of a table: the input is cut, a call of this part fails, or an entry is edited.
#[derive(Clone, Copy, PartialEq, Eq)]
pub(crate) enum Fault {
    Cut,
    Read,
    Write,
    Keeper,
    Host,
    Entry,
}

/// A table: what goes wrong in its runs, and the first and the last place of it; none where each place, or each call
/// that the run makes, is tried.
#[derive(Clone, Copy)]
pub(crate) struct Table {
    pub fault: Fault,
    pub range: Option<(u64, u64)>,
}

/// Where a request and its reply end in the bytes of a run, and whether the reply tells that an operation began.
#[derive(Clone, Copy)]
pub(crate) struct Place {
    pub request: usize,
    pub reply: usize,
    pub begins: bool,
}

/// The bytes of a run: what is sent, what is written, and where the requests and the replies end; and whether it has other
/// lines that are sent, are due, or end the program.
#[derive(Drop)]
pub(crate) struct Parts {
    pub sent: Vec<u8>,
    pub due: Vec<u8>,
    pub places: Vec<Place>,
    pub has_others: bool,
}

impl Parts {
    /// How many requests end at a place or before it.
    pub fn requests_before(&self, place: usize) -> usize {
        let mut count = 0usize;
        for known in &self.places {
            if known.request <= place {
                count = count.saturating_add(1);
            }
        }
        count
    }

    /// Where the last of so many replies ends.
    pub fn reply_end(&self, count: usize) -> usize {
        match count.checked_sub(1) {
            Some(last) => self.places.get(last).map_or(0, |known| known.reply),
            None => 0,
        }
    }

    /// Whether so many replies were written whole, and nothing else.
    pub fn are_written(&self, count: usize, written: &[u8]) -> bool {
        self.due.get(..self.reply_end(count)) == Some(written)
    }

    /// Whether there are requests and replies alone, one reply after each request.
    pub fn is_whole(&self) -> bool {
        !self.has_others
            && !self.places.is_empty()
            && self.places.iter().all(|known| known.reply > 0)
            && self.reply_end(self.places.len()) == self.due.len()
    }
}

/// Whether a line is sent or due as it stands, or ends the program.
fn is_other(line: &str) -> bool {
    line.starts_with('<') || line.starts_with('>') || line.starts_with('&')
}

/// Appends the bytes of a line.
fn push_line(alloc: Global, parts: &mut Parts, line: &str) -> Result<(), NoMemory> {
    if is_request(line) {
        push_sent(alloc, &mut parts.sent, line)?;
        let request = parts.sent.len();
        parts.places.push(Place {
            request,
            reply: 0,
            begins: false,
        })?;
    }
    if is_reply(line) {
        push_due(alloc, &mut parts.due, line)?;
        let reply = parts.due.len();
        if let Some(place) = parts.places.last_mut() {
            place.reply = reply;
            place.begins = line.starts_with("202");
        }
    }
    parts.has_others = parts.has_others || is_other(line);
    Ok(())
}

/// Appends the bytes of lines.
fn push_lines(alloc: Global, parts: &mut Parts, script: &str) -> Result<(), NoMemory> {
    for line in script.lines() {
        push_line(alloc, parts, line)?;
    }
    Ok(())
}

/// The bytes of a run with these lines.
pub(crate) fn parts_of(alloc: Global, script: &str) -> Result<Parts, NoMemory> {
    let mut parts = Parts {
        sent: Vec::new(alloc),
        due: Vec::new(alloc),
        places: Vec::new(alloc),
        has_others: false,
    };
    match push_lines(alloc, &mut parts, script) {
        Ok(()) => Ok(parts),
        Err(why) => {
            drop(parts);
            Err(why)
        }
    }
}
