//! How the runs of a text are judged.

use crate::headers::{Header, bad_setting, header_of, words_of};
use crate::lines::{is_reply, is_request, push_due};
use crate::running::run_end;
use crate::spelling::{push_texts, spelled_out};
use crate::table_judging::judge_table;
use command_words::setup_of;
use size_values::NoMemory;
use std::alloc::Global;

/// What stands before the header of a run.
const MARK: &str = "\n~ ";

/// The most bytes of a line, and of what was written in its place, that are reported.
const MOST_SHOWN: usize = 400;

/// How many runs, requests and replies were judged, and how many runs are wrong.
#[derive(Clone, Copy)]
struct Tally {
    pub runs: u64,
    pub requests: u64,
    pub replies: u64,
    pub wrong: u64,
}

impl Tally {
    /// Counts a line.
    fn count_line(&mut self, line: &str) {
        if is_request(line) || (line.starts_with('<') && line.contains(" HTTP/1.")) {
            self.requests = self.requests.saturating_add(1);
        }
        if is_reply(line) || line.starts_with(">HTTP/1.") {
            self.replies = self.replies.saturating_add(1);
        }
    }

    /// Counts a run.
    fn count_run(&mut self, is_wrong: bool) {
        self.runs = self.runs.saturating_add(1);
        if is_wrong {
            self.wrong = self.wrong.saturating_add(1);
        }
    }

    /// Counts the requests and the replies of a run.
    fn count_lines(&mut self, script: &str) {
        for line in script.lines() {
            self.count_line(line);
        }
    }
}

/// What is left of the bytes that were written after what is due for a line; none where that does
/// not stand there.
fn after_due<'a>(alloc: Global, left: &'a [u8], line: &str) -> Result<Option<&'a [u8]>, NoMemory> {
    let mut due = Vec::new(alloc);
    let pushed = push_due(alloc, &mut due, line);
    let left = left.strip_prefix(due.as_slice());
    drop(due);
    pushed?;
    Ok(left)
}

/// The first line of a run for which other bytes were written than are due, and what is left of
/// the bytes from there; none where the bytes are those that are due.
fn first_wrong<'a>(
    alloc: Global,
    script: &'a str,
    written: &'a [u8],
) -> Result<Option<(&'a str, &'a [u8])>, NoMemory> {
    let mut left = written;
    for line in script.lines() {
        match after_due(alloc, left, line)? {
            Some(rest) => left = rest,
            None => return Ok(Some((line, left))),
        }
    }
    Ok(if left.is_empty() {
        None
    } else {
        Some(("nothing more", left))
    })
}

/// The first bytes of a text.
fn clipped(text: &str) -> &str {
    text.get(..MOST_SHOWN).unwrap_or(text)
}

/// The first bytes of what was written, as text.
fn readable(bytes: &[u8]) -> &str {
    let (text, _) = bytes.split_at(bytes.len().min(MOST_SHOWN));
    std::str::from_utf8(text).unwrap_or("other bytes than text")
}

/// A run: its header and its lines, spelled out.
#[derive(Clone, Copy)]
struct Run<'a> {
    header: Header<'a>,
    script: &'a str,
}

/// The first line for readers of a run, which says what it is about.
fn title_of(script: &str) -> &str {
    for line in script.lines() {
        if line.starts_with('#') {
            return line;
        }
    }
    ""
}

/// Appends what is wrong in a run to the report.
fn push_report(report: &mut String, run: Run<'_>, parts: [&str; 4]) -> Result<(), NoMemory> {
    let [due, due_text, written, written_text] = parts;
    push_texts(
        report,
        &["~ ", run.header.line, "\n  ", title_of(run.script)],
    )?;
    push_texts(
        report,
        &["\n  ", due, due_text, "\n  ", written, written_text, "\n"],
    )
}

/// Reports what is wrong in a run that wrote this and ended so, and says whether something is.
fn report_wrong(
    alloc: Global,
    run: Run<'_>,
    written: &[u8],
    ended: &str,
    report: &mut String,
) -> Result<bool, NoMemory> {
    let end = run.header.end;
    match first_wrong(alloc, run.script, written)? {
        Some((line, left)) => {
            let parts = ["due: ", clipped(line), "written: ", readable(left)];
            push_report(report, run, parts)?;
            Ok(true)
        }
        None if ended != end => {
            push_report(report, run, ["end due: ", end, "ended: ", ended])?;
            Ok(true)
        }
        None => Ok(false),
    }
}

/// Makes a run, reports what is wrong, and says whether something is.
fn judge_run(alloc: Global, run: Run<'_>, report: &mut String) -> Result<bool, NoMemory> {
    let mut written = Vec::new(alloc);
    let wrong = match run_end(alloc, run.header, run.script, &mut written) {
        Ok(ended) => {
            let wrong = report_wrong(alloc, run, written.as_slice(), ended.as_str(), report);
            drop(ended);
            wrong
        }
        Err(why) => Err(why),
    };
    drop(written);
    wrong
}

/// The lines of a run, spelled out.
fn script_of(alloc: Global, header: Header<'_>, lines: &str) -> Result<String, NoMemory> {
    let words = words_of(alloc, header.words)?;
    let setup = setup_of(alloc, &words);
    drop(words);
    let setup = setup?;
    let script = spelled_out(alloc, lines, setup.fail_keeper.view());
    drop(setup);
    script
}

/// The lines of the first run of a text that has some, with the line break after its header.
fn first_lines(text: &str) -> &str {
    for run in text.split(MARK) {
        if let Some((header, _)) = run.split_once('\n') {
            return run.strip_prefix(header).unwrap_or("");
        }
    }
    ""
}

/// Makes a run, and those of the table that its header asks for, and says whether something is wrong.
fn judge_with_table(alloc: Global, run: Run<'_>, report: &mut String) -> Result<bool, NoMemory> {
    let is_wrong = judge_run(alloc, run, report)?;
    let is_table_wrong = judge_table(alloc, run.header, run.script, report)?;
    Ok(is_wrong || is_table_wrong)
}

/// Judges a run with these lines.
fn judge_lines(
    alloc: Global,
    header: Header<'_>,
    lines: &str,
    tally: &mut Tally,
    report: &mut String,
) -> Result<(), NoMemory> {
    let script = script_of(alloc, header, lines)?;
    tally.count_lines(script.as_str());
    let run = Run {
        header,
        script: script.as_str(),
    };
    let wrong = judge_with_table(alloc, run, report);
    drop(script);
    tally.count_run(wrong?);
    Ok(())
}

/// Judges the run whose header the text begins with. One with a setting that is none is not made.
fn judge_first(
    alloc: Global,
    text: &str,
    tally: &mut Tally,
    report: &mut String,
) -> Result<(), NoMemory> {
    let (line, _) = text.split_once('\n').unwrap_or((text, ""));
    let header = header_of(line);
    match bad_setting(header.settings) {
        Some(setting) => {
            tally.count_run(true);
            push_texts(report, &["~ ", line, "\n  no setting: ", setting, "\n"])
        }
        None => judge_lines(alloc, header, first_lines(text), tally, report),
    }
}

/// Judges all runs of a text.
fn judge_runs(
    alloc: Global,
    text: &str,
    tally: &mut Tally,
    report: &mut String,
) -> Result<(), NoMemory> {
    let (head, _) = text.split_once(MARK).unwrap_or((text, ""));
    let mut at = head.len().saturating_add(MARK.len());
    for run in text.split(MARK).skip(1) {
        judge_first(alloc, text.get(at..).unwrap_or(""), tally, report)?;
        at = at.saturating_add(run.len()).saturating_add(MARK.len());
    }
    Ok(())
}

/// Whether a reply of the runs tells a rule.
fn is_told(alloc: Global, runs: &str, rule: &str) -> Result<bool, NoMemory> {
    let told = format!(in alloc; "\"rule\":\"{rule}\"")?;
    let is = runs.contains(told.as_str());
    drop(told);
    Ok(is)
}

/// Reports the rules of a line that no reply of the runs tells, and says whether there are some.
fn judge_rules(
    alloc: Global,
    line: &str,
    runs: &str,
    report: &mut String,
) -> Result<bool, NoMemory> {
    let mut wrong = false;
    for rule in line.split(' ').skip(1) {
        if !is_told(alloc, runs, rule)? {
            wrong = true;
            push_texts(report, &["no reply tells the rule ", rule, "\n"])?;
        }
    }
    Ok(wrong)
}

/// Reports a line of settings that are to be refused where none of them is, and says whether that is so.
fn judge_refused(line: &str, report: &mut String) -> Result<bool, NoMemory> {
    match line.strip_prefix("refused ") {
        Some(settings) if bad_setting(settings).is_none() => {
            push_texts(report, &["no setting is refused: ", settings, "\n"])?;
            Ok(true)
        }
        _ => Ok(false),
    }
}

/// Judges the lines of rules and of refused settings before the first run, and says whether one is wrong.
fn judge_head(alloc: Global, text: &str, report: &mut String) -> Result<bool, NoMemory> {
    let (head, runs) = text.split_once(MARK).unwrap_or((text, ""));
    let mut wrong = false;
    for line in head.lines() {
        let is_told = !line.starts_with("rules ") || !judge_rules(alloc, line, runs, report)?;
        let is_taken = judge_refused(line, report)?;
        wrong = wrong || !is_told || is_taken;
    }
    Ok(wrong)
}

/// Appends how much was judged.
fn push_tally(alloc: Global, tally: Tally, report: &mut String) -> Result<(), NoMemory> {
    let Tally {
        runs,
        requests,
        replies,
        wrong,
    } = tally;
    let line = format!(in alloc;
        "{runs} runs, {requests} requests, {replies} replies, {wrong} runs wrong\n"
    )?;
    let pushed = push_texts(report, &[line.as_str()]);
    drop(line);
    pushed
}

/// Judges all runs of a text, and says whether all is as the text says. The report has what is
/// wrong in each run that goes wrong, and then how much was judged.
pub fn judge_text(alloc: Global, text: &str, report: &mut String) -> Result<bool, NoMemory> {
    let mut tally = Tally {
        runs: 0,
        requests: 0,
        replies: 0,
        wrong: 0,
    };
    judge_runs(alloc, text, &mut tally, report)?;
    let is_missing = judge_head(alloc, text, report)?;
    push_tally(alloc, tally, report)?;
    Ok(tally.wrong == 0 && !is_missing)
}
