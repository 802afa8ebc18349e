//! How the runs of a table are judged: against the run without what goes wrong in them.

use crate::entry_runs::judge_entries;
use crate::headers::{Header, table_of, value_of};
use crate::spelling::push_texts;
use crate::table_runs::{Left, Trial, run_trial, run_words};
use crate::tables::{Fault, Parts, Table, parts_of};
use http_front::PIECE;
use size_values::NoMemory;
use std::alloc::Global;

/// The most calls of one part that a run of a table makes.
const MOST_CALLS: u64 = 100_000;

/// What the runs of a table came to.
#[derive(Clone, Copy)]
pub(crate) struct Counts {
    pub runs: u64,
    pub by_status: [u64; 11],
    pub refused: u64,
    pub unkept: u64,
    pub undone: u64,
    pub wrong: u64,
}

impl Counts {
    /// Of no run.
    fn none() -> Counts {
        Counts {
            runs: 0,
            by_status: [0; 11],
            refused: 0,
            unkept: 0,
            undone: 0,
            wrong: 0,
        }
    }

    /// Counts a run.
    pub fn count(&mut self, left: Left, refused: u64, is_wrong: bool) {
        self.runs = self.runs.saturating_add(1);
        if let Some(count) = self.by_status.get_mut(usize::from(left.status)) {
            *count = count.saturating_add(1);
        }
        self.refused = self.refused.saturating_add(refused);
        self.unkept = self.unkept.saturating_add(left.unkept);
        self.undone = self.undone.saturating_add(left.undone);
        if is_wrong {
            self.wrong = self.wrong.saturating_add(1);
        }
    }
}

/// How often a text stands in what was written.
fn times(written: &[u8], part: &str) -> u64 {
    let text = std::str::from_utf8(written).unwrap_or("");
    let mut count = 0u64;
    for _ in text.split(part).skip(1) {
        count = count.saturating_add(1);
    }
    count
}

/// How many replies were written.
fn replies(written: &[u8]) -> u64 {
    times(written, "HTTP/1.1 ")
}

/// How many changes were refused since the keeper failed.
fn refusals(written: &[u8]) -> u64 {
    times(written, "\"rule\":\"K1\"")
}

/// Whether nothing is live and nothing is held.
fn is_idle(left: Left) -> bool {
    left.live == 0 && left.held == 0
}

/// Whether all requests were answered, and nothing else was written.
fn is_all(parts: &Parts, left: Left, written: &[u8]) -> bool {
    left.status == 0 && is_idle(left) && parts.are_written(parts.places.len(), written)
}

/// Whether a run whose input is cut here answered what stands whole before, and ended so.
fn is_cut_well(parts: &Parts, place: usize, left: Left, written: &[u8]) -> bool {
    let at_end = place == 0 || parts.places.iter().any(|known| known.request == place);
    let status = if at_end { 0 } else { 2 };
    left.status == status
        && is_idle(left)
        && parts.are_written(parts.requests_before(place), written)
}

/// Whether a run in which this read fails answered what came whole by the reads before.
fn is_unread_well(parts: &Parts, trial: Trial, left: Left, written: &[u8]) -> bool {
    let reads = usize::try_from(trial.number).unwrap_or(0).saturating_sub(1);
    let came = reads.saturating_mul(trial.piece.min(PIECE));
    left.status == 4 && is_idle(left) && parts.are_written(parts.requests_before(came), written)
}

/// Whether a run in which the write of this reply fails left the replies before it, and holds nothing but what the
/// operation holds that this reply tells of.
fn is_unwritten_well(parts: &Parts, trial: Trial, left: Left, written: &[u8]) -> bool {
    let before = usize::try_from(trial.number).unwrap_or(0).saturating_sub(1);
    let begins = parts.places.get(before).is_some_and(|known| known.begins);
    let is_held = if begins {
        left.live == 1 && left.held <= 1
    } else {
        is_idle(left)
    };
    left.status == 5 && is_held && parts.are_written(before, written)
}

/// How many replies were written as they are due, before the first other one.
fn as_due(parts: &Parts, written: &[u8]) -> usize {
    let mut count = 0usize;
    for known in &parts.places {
        if parts.due.get(..known.reply) != written.get(..known.reply) {
            return count;
        }
        count = count.saturating_add(1);
    }
    count
}

/// Whether the first reply that is not as it is due refuses a change since the keeper failed.
fn is_refused_first(parts: &Parts, written: &[u8]) -> bool {
    let place = parts.reply_end(as_due(parts, written));
    written
        .get(place..)
        .is_some_and(|rest| rest.starts_with(b"HTTP/1.1 503 "))
}

/// Whether a run in which this call of the keeper fails was not opened, or refused one change, or one operation failed
/// at its end, and all else went on.
fn is_unkept_well(parts: &Parts, left: Left, written: &[u8]) -> bool {
    if left.status == 6 {
        return written.is_empty();
    }
    let refused = refusals(written);
    let is_one = match refused {
        0 => left.unkept == 1,
        1 => left.unkept == 0 && is_refused_first(parts, written),
        _ => false,
    };
    left.status == 0
        && is_one
        && left.undone == 0
        && is_idle(left)
        && replies(written) == parts.places.len() as u64
}

/// Whether a run in which this call of the host fails answered all requests, and one operation failed.
fn is_undone_well(parts: &Parts, left: Left, written: &[u8]) -> bool {
    left.status == 0
        && left.undone == 1
        && left.unkept == 0
        && is_idle(left)
        && refusals(written) == 0
        && replies(written) == parts.places.len() as u64
}

/// Whether a run went as it has to by what went wrong in it.
fn is_well(parts: &Parts, trial: Trial, left: Left, written: &[u8]) -> bool {
    match trial.fault {
        Fault::Cut => {
            let place = usize::try_from(trial.number).unwrap_or(0);
            is_cut_well(parts, place, left, written)
        }
        Fault::Read => left.faults == 1 && is_unread_well(parts, trial, left, written),
        Fault::Write => left.faults == 1 && is_unwritten_well(parts, trial, left, written),
        Fault::Keeper => left.faults == 1 && is_unkept_well(parts, left, written),
        Fault::Host => left.faults == 1 && is_undone_well(parts, left, written),
        Fault::Entry => false,
    }
}

/// Reports a run that went wrong.
fn push_wrong(
    alloc: Global,
    report: &mut String,
    line: &str,
    trial: Trial,
    left: Left,
) -> Result<(), NoMemory> {
    let text = format!(in alloc;
        "~ {line}\n  at {}: status {}, {} live, {} held, {} and {} failed ends, {} failed calls\n",
        trial.number, left.status, left.live, left.held, left.unkept, left.undone, left.faults
    )?;
    let pushed = push_texts(report, &[text.as_str()]);
    drop(text);
    pushed
}

/// The bytes of a run: all of them, or those before the place at which they are cut.
fn bytes_of(parts: &Parts, trial: Trial) -> &[u8] {
    let sent = parts.sent.as_slice();
    if trial.fault == Fault::Cut {
        let place = usize::try_from(trial.number).unwrap_or(0);
        return sent.get(..place).unwrap_or(sent);
    }
    sent
}

/// Judges what a run left, and says whether the table goes on: it ends with the first number of a call that the run
/// does not make.
fn judge_left(
    alloc: Global,
    parts: &Parts,
    trial: Trial,
    left: Left,
    written: &[u8],
    line: &str,
    counts: &mut Counts,
    report: &mut String,
) -> Result<bool, NoMemory> {
    let is_over = trial.fault != Fault::Cut && left.faults == 0;
    let is_wrong = if is_over {
        !is_all(parts, left, written)
    } else {
        !is_well(parts, trial, left, written)
    };
    if is_wrong && counts.wrong == 0 {
        push_wrong(alloc, report, line, trial, left)?;
    }
    if is_wrong || !is_over {
        counts.count(left, refusals(written), is_wrong);
    }
    Ok(!is_over)
}

/// Makes one run of a table, and says whether the table goes on.
fn judge_trial(
    alloc: Global,
    parts: &Parts,
    trial: Trial,
    line: &str,
    counts: &mut Counts,
    report: &mut String,
) -> Result<bool, NoMemory> {
    let mut written = Vec::new(alloc);
    let goes_on = match run_trial(alloc, trial, bytes_of(parts, trial), &mut written) {
        Ok(left) => judge_left(
            alloc,
            parts,
            trial,
            left,
            written.as_slice(),
            line,
            counts,
            report,
        ),
        Err(why) => Err(why),
    };
    drop(written);
    goes_on
}

/// The first and the last place or number of a table.
fn range_of(parts: &Parts, table: Table) -> (u64, u64) {
    match table.range {
        Some(range) => range,
        None if table.fault == Fault::Cut => (0, parts.sent.len() as u64),
        None => (1, MOST_CALLS),
    }
}

/// Makes the runs of a table.
fn judge_trials(
    alloc: Global,
    parts: &Parts,
    table: Table,
    first: Trial,
    line: &str,
    counts: &mut Counts,
    report: &mut String,
) -> Result<(), NoMemory> {
    let (from, to) = range_of(parts, table);
    for number in from..=to {
        let mut trial = first;
        trial.number = number;
        if !judge_trial(alloc, parts, trial, line, counts, report)? {
            return Ok(());
        }
    }
    Ok(())
}

/// Appends how many runs came to this, if some did.
fn push_count(alloc: Global, report: &mut String, count: u64, what: &str) -> Result<(), NoMemory> {
    if count == 0 {
        return Ok(());
    }
    let text = format!(in alloc; ", {count} {what}")?;
    let pushed = push_texts(report, &[text.as_str()]);
    drop(text);
    pushed
}

/// Appends how many runs ended with each status.
fn push_statuses(alloc: Global, report: &mut String, counts: &Counts) -> Result<(), NoMemory> {
    for (status, count) in counts.by_status.iter().enumerate() {
        if *count > 0 {
            let text = format!(in alloc; ", {count} with status {status}")?;
            let pushed = push_texts(report, &[text.as_str()]);
            drop(text);
            pushed?;
        }
    }
    Ok(())
}

/// Appends what the runs of a table came to.
fn push_counts(
    alloc: Global,
    report: &mut String,
    line: &str,
    counts: &Counts,
) -> Result<(), NoMemory> {
    let text = format!(in alloc; "{line}: {} runs", counts.runs)?;
    let pushed = push_texts(report, &[text.as_str()]);
    drop(text);
    pushed?;
    push_statuses(alloc, report, counts)?;
    push_count(alloc, report, counts.refused, "changes refused")?;
    push_count(alloc, report, counts.unkept, "ends failed for the keeper")?;
    push_count(alloc, report, counts.undone, "ends failed for the host")?;
    push_count(alloc, report, counts.wrong, "wrong")?;
    push_texts(report, &["\n"])
}

/// Makes the runs of a table over these bytes.
fn judge_parts(
    alloc: Global,
    header: Header<'_>,
    table: Table,
    parts: &Parts,
    counts: &mut Counts,
    report: &mut String,
) -> Result<(), NoMemory> {
    let said = run_words(alloc, header.words)?;
    match said {
        Some(said) if parts.is_whole() => {
            let first = Trial {
                said,
                piece: value_of(header.settings, "piece").parse().unwrap_or(PIECE),
                fault: table.fault,
                number: 0,
            };
            if table.fault == Fault::Entry {
                judge_entries(
                    alloc,
                    said,
                    parts.sent.as_slice(),
                    header.line,
                    counts,
                    report,
                )
            } else {
                judge_trials(alloc, parts, table, first, header.line, counts, report)
            }
        }
        _ => {
            counts.wrong = counts.wrong.saturating_add(1);
            push_texts(
                report,
                &["~ ", header.line, "\n  no table can be made of this run\n"],
            )
        }
    }
}

/// Makes the runs of a table of a run with these lines, reports what they came to, and says whether something is wrong.
fn judge_script(
    alloc: Global,
    header: Header<'_>,
    table: Table,
    script: &str,
    report: &mut String,
) -> Result<bool, NoMemory> {
    let mut counts = Counts::none();
    let parts = parts_of(alloc, script)?;
    let judged = judge_parts(alloc, header, table, &parts, &mut counts, report);
    drop(parts);
    judged?;
    push_counts(alloc, report, header.line, &counts)?;
    Ok(counts.wrong > 0)
}

/// Makes the runs of the table that a header asks for, if it asks for one, and says whether something is wrong.
pub(crate) fn judge_table(
    alloc: Global,
    header: Header<'_>,
    script: &str,
    report: &mut String,
) -> Result<bool, NoMemory> {
    match table_of(header.settings) {
        Some(table) => judge_script(alloc, header, table, script, report),
        None => Ok(false),
    }
}
