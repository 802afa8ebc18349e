//! Lists of words, each with what it says. Each word stands behind a `|`.
use crate::tables::Want::{Check, Drill, Full, Make, Plain, Run, Speaks};
use crate::words::Kept::{Database, Journal, Memory};
use crate::words::{Kept, is_at, owned};
use command_words::{CommandWords, Dialect, Pace, RunWords, read_words, setup_of};
use std::alloc::Global;

/// What a list of words says.
#[derive(Clone, Copy)]
enum Want {
    /// The moment, the pace and the word of the start of a run that names no file and lists no calls.
    Run(Option<u64>, Pace, Option<u64>),
    /// The dialect of a run of which nothing else is said.
    Speaks(Dialect),
    /// Where the rows of a run are kept, and which calls of the host and of the keeper fail, and nothing else of it.
    Plain(Kept, &'static [u64], &'static [u64]),
    /// The same of a run with the moment 5, 3 steps and the word 9.
    Full(Kept, &'static [u64], &'static [u64]),
    /// A seed, a number of requests, and where rows are kept.
    Make(u64, u32, Kept),
    Drill(u64, u32, Kept),
    /// Where rows are kept.
    Check(Kept),
}

/// The numbers from 1 to 64.
const NUMBERS: [u64; 64] = [
    1, 2, 3, 4, 5, 6, 7, 8, 9, 10, 11, 12, 13, 14, 15, 16, 17, 18, 19, 20, 21, 22, 23, 24, 25, 26,
    27, 28, 29, 30, 31, 32, 33, 34, 35, 36, 37, 38, 39, 40, 41, 42, 43, 44, 45, 46, 47, 48, 49, 50,
    51, 52, 53, 54, 55, 56, 57, 58, 59, 60, 61, 62, 63, 64,
];

/// Lists of words, and what they say.
const SAID: &[(&str, Want)] = &[
    // What is said of a run that names no file and lists no calls.
    ("|run", Run(None, Pace::All, None)),
    ("|run|--now|5", Run(Some(5), Pace::All, None)),
    ("|run|--now=5", Run(Some(5), Pace::All, None)),
    ("|run|--now|0", Run(Some(0), Pace::All, None)),
    (
        "|run|--now=253402300799",
        Run(Some(253_402_300_799), Pace::All, None),
    ),
    ("|run|--dialect|plain", Speaks(Dialect::Plain)),
    ("|run|--dialect=plain", Speaks(Dialect::Plain)),
    ("|run|--dialect|client", Speaks(Dialect::Client)),
    ("|run|--dialect=client", Speaks(Dialect::Client)),
    ("|run|--steps|3", Run(None, Pace::Steps(3), None)),
    ("|run|--steps=3", Run(None, Pace::Steps(3), None)),
    ("|run|--steps|0", Run(None, Pace::Steps(0), None)),
    (
        "|run|--steps=1000000",
        Run(None, Pace::Steps(1_000_000), None),
    ),
    ("|run|--steps|all", Run(None, Pace::All, None)),
    ("|run|--steps=all", Run(None, Pace::All, None)),
    ("|run|--boot|9", Run(None, Pace::All, Some(9))),
    ("|run|--boot=9", Run(None, Pace::All, Some(9))),
    ("|run|--boot|0", Run(None, Pace::All, Some(0))),
    (
        "|run|--boot=9223372036854775808",
        Run(None, Pace::All, Some(9_223_372_036_854_775_808)),
    ),
    (
        "|run|--boot=18446744073709551615",
        Run(None, Pace::All, Some(18_446_744_073_709_551_615)),
    ),
    (
        "|run|--now|5|--boot|9|--steps|3",
        Run(Some(5), Pace::Steps(3), Some(9)),
    ),
    (
        "|run|--boot=9|--steps|3|--now=5",
        Run(Some(5), Pace::Steps(3), Some(9)),
    ),
    (
        "|run|--steps=all|--boot|9|--now|5",
        Run(Some(5), Pace::All, Some(9)),
    ),
    // Other commands, and the file that they name.
    ("|make|7|40", Make(7, 40, Memory)),
    ("|make|0|0", Make(0, 0, Memory)),
    (
        "|make|18446744073709551615|10000",
        Make(u64::MAX, 10_000, Memory),
    ),
    ("|drill|7|40", Drill(7, 40, Memory)),
    ("|drill|7|40|--db|rows", Drill(7, 40, Database("rows"))),
    ("|drill|7|--db=rows|40", Drill(7, 40, Database("rows"))),
    ("|drill|--db|rows|7|40", Drill(7, 40, Database("rows"))),
    ("|check", Check(Memory)),
    ("|check|--db|rows", Check(Database("rows"))),
    ("|check|--db=rows", Check(Database("rows"))),
    ("|check|--db=-x", Check(Database("-x"))),
    ("|drill|--db=-x|7|40", Drill(7, 40, Database("-x"))),
    ("|drill|7|40|--journal|rows", Drill(7, 40, Journal("rows"))),
    ("|drill|7|--journal=-x|40", Drill(7, 40, Journal("-x"))),
    ("|check|--journal|rows", Check(Journal("rows"))),
    ("|check|--journal=rows", Check(Journal("rows"))),
    // Files that `run` names. A value that begins with `-` stands after `=`.
    ("|run|--db|rows", Plain(Database("rows"), &[], &[])),
    ("|run|--db=rows", Plain(Database("rows"), &[], &[])),
    ("|run|--db|run", Plain(Database("run"), &[], &[])),
    ("|run|--db|a b/c=d", Plain(Database("a b/c=d"), &[], &[])),
    ("|run|--db=a=b", Plain(Database("a=b"), &[], &[])),
    ("|run|--db=-x", Plain(Database("-x"), &[], &[])),
    ("|run|--db=--steps", Plain(Database("--steps"), &[], &[])),
    ("|run|--db=-", Plain(Database("-"), &[], &[])),
    ("|run|--db=é", Plain(Database("é"), &[], &[])),
    ("|run|--journal|rows", Plain(Journal("rows"), &[], &[])),
    ("|run|--journal=--db", Plain(Journal("--db"), &[], &[])),
    (
        "|run|--journal|a b/c=d",
        Plain(Journal("a b/c=d"), &[], &[]),
    ),
    (
        "|run|--fail-host=2|--journal=rows",
        Plain(Journal("rows"), &[2], &[]),
    ),
    // Which calls fail: those of the host, and those of the keeper.
    ("|run", Plain(Memory, &[], &[])),
    ("|run|--fail-host|2", Plain(Memory, &[2], &[])),
    ("|run|--fail-host=2", Plain(Memory, &[2], &[])),
    ("|run|--fail-keeper|4", Plain(Memory, &[], &[4])),
    ("|run|--fail-keeper=4", Plain(Memory, &[], &[4])),
    (
        "|run|--fail-host=2|--fail-keeper=4",
        Plain(Memory, &[2], &[4]),
    ),
    (
        "|run|--fail-keeper|4,5|--fail-host|2,3",
        Plain(Memory, &[2, 3], &[4, 5]),
    ),
    // The order of a list stays, and a number may come twice.
    ("|run|--fail-host=3,1,3", Plain(Memory, &[3, 1, 3], &[])),
    ("|run|--fail-keeper=7,1", Plain(Memory, &[], &[7, 1])),
    // The least and the greatest number, and the longest list.
    ("|run|--fail-host=1", Plain(Memory, &[1], &[])),
    (
        "|run|--fail-host=18446744073709551615,1",
        Plain(Memory, &[18_446_744_073_709_551_615, 1], &[]),
    ),
    (
        "|run|--fail-host|1,2,3,4,5,6,7,8,9,10,11,12,13,14,15,16,17,18,19,20,21,22,23,24,\
        25,26,27,28,29,30,31,32,33,34,35,36,37,38,39,40,41,42,43,44,45,46,47,48,49,50,\
        51,52,53,54,55,56,57,58,59,60,61,62,63,64",
        Plain(Memory, &NUMBERS, &[]),
    ),
    (
        "|run|--fail-keeper|1,2,3,4,5,6,7,8,9,10,11,12,13,14,15,16,17,18,19,20,21,22,23,\
        24,25,26,27,28,29,30,31,32,33,34,35,36,37,38,39,40,41,42,43,44,45,46,47,48,49,\
        50,51,52,53,54,55,56,57,58,59,60,61,62,63,64",
        Plain(Memory, &[], &NUMBERS),
    ),
    // All that may be said of a run, in any order and in both forms.
    (
        "|run|--now|5|--steps|3|--boot|9|--db|rows|--fail-host|2,3",
        Full(Database("rows"), &[2, 3], &[]),
    ),
    (
        "|run|--fail-host=2,3|--db=rows|--boot=9|--steps=3|--now=5",
        Full(Database("rows"), &[2, 3], &[]),
    ),
    (
        "|run|--db|rows|--steps=3|--fail-host|2,3|--now=5|--boot|9",
        Full(Database("rows"), &[2, 3], &[]),
    ),
    (
        "|run|--boot=9|--now|5|--fail-host=2,3|--steps|3|--db=rows",
        Full(Database("rows"), &[2, 3], &[]),
    ),
    (
        "|run|--boot=9|--journal|rows|--now|5|--fail-host=2,3|--steps|3",
        Full(Journal("rows"), &[2, 3], &[]),
    ),
    (
        "|run|--steps=3|--fail-keeper|4|--boot|9|--fail-host=2|--now=5",
        Full(Memory, &[2], &[4]),
    ),
    (
        "|run|--fail-keeper=4|--now|5|--fail-host|2|--boot=9|--steps|3",
        Full(Memory, &[2], &[4]),
    ),
];

/// Lists of words that are not read. They name no file and list no call.
const NOT_READ: &[&str] = &[
    // No command is named, or too much beside one, or no number that it takes.
    "",
    "|",
    "|runs",
    "|Run",
    // Help and version.
    "|help",
    "|help|run",
    "|--help",
    "|-h",
    "|--version",
    "|-V",
    "|run|help",
    "|run|--help",
    "|run|--help=5",
    "|run|-h",
    "|run|--version",
    "|run|-V",
    "|make|--help",
    "|check|-h",
    // A second command, or a word too many.
    "|run|run",
    "|run|check",
    "|check|check",
    "|check|run",
    "|make|7|40|9",
    "|make|7|40|check",
    "|drill|7|40|--db|rows|9",
    // A number is missing, or is none in its range.
    "|make",
    "|make|7",
    "|drill",
    "|drill|7|--db|rows",
    "|make||40",
    "|make|7|",
    "|make|x|40",
    "|make|7|10001",
    "|make|18446744073709551616|40",
    "|make|-7|40",
    "|make|+7|40",
    "|make|07|40",
    "|make|7|040",
    "|make|7|-40",
    "|make|7|+40",
    "|drill|7",
    "|drill|7|10001",
    "|drill|00|40",
    "|drill|7|040",
    "|drill|-7|40",
    "|drill|+7|40",
    "|drill|7|-40",
    "|drill|18446744073709551616|40",
    "|drill|7|40|9",
    "|drill|7|40|drill",
    // An option that the command does not have, or two that do not stand together, or a sign without an option.
    // The command does not have the option.
    "|make|7|40|--db|rows",
    "|make|7|40|--journal|rows",
    "|make|--steps=3|7|40",
    "|drill|7|40|--now=5",
    "|check|--steps|3",
    "|check|--fail-host=2",
    "|make|7|40|--boot=9",
    "|make|7|40|--fail-keeper=4",
    "|drill|7|40|--steps=3",
    "|drill|7|40|--boot|9",
    "|drill|7|40|--fail-host=2",
    "|drill|7|40|--fail-keeper|4",
    "|check|--now=5",
    "|check|--boot=9",
    "|check|--fail-keeper=4",
    // A sign that no option follows, or nothing but a dash.
    "|--",
    "|-",
    "|--|run",
    "|run|--",
    "|run|-",
    "|run|--db|-",
    "|run|--db|--",
    "|make|--|7|40",
    "|make|-|40",
    "|drill|7|40|--",
    "|check|--",
    "|check|-",
    // A short option, or a value that begins with a dash and stands alone.
    "|run|-s|5",
    "|run|-now|5",
    "|run|--db|-x",
    "|run|--db|--steps",
    "|run|--now|-5",
    "|run|--steps|-3",
    "|run|--boot|-9",
    "|run|--fail-host|-2",
    "|run|--fail-keeper|-4",
    "|drill|7|40|-d|rows",
    "|drill|7|40|--db|-x",
    "|check|--db|-x",
    "|check|-d|rows",
    // No file, and calls of the keeper that fail beside a file.
    "|run|--db",
    "|run|--db=",
    "|run|--db|",
    "|check|--db=",
    "|check|--db",
    "|check|--db|",
    "|drill|7|40|--db",
    "|drill|7|40|--db=",
    "|drill|7|40|--db|rows|--db=rows",
    "|run|--journal",
    "|run|--journal=",
    "|run|--journal|",
    "|run|--journal|-x",
    "|check|--journal",
    "|check|--journal=",
    "|drill|7|40|--journal=",
    "|run|--journal=rows|--journal|rows",
    "|run|--journals=rows",
    "|run|--db=rows|--journal=other",
    "|run|--journal=rows|--db=rows",
    "|drill|--db|rows|7|--journal|other|40",
    "|check|--journal|rows|--db|rows",
    "|run|--journal=rows|--fail-keeper=4",
    "|run|--fail-keeper|4|--journal|rows",
    "|run|--db=rows|--fail-keeper=4",
    "|run|--fail-keeper|4|--db|rows",
    "|run|--db=rows|--db=rows",
    "|check|--db|rows|--db|rows",
    "|run|",
    "|run|5",
    "|run|--boots|5",
    "|run|--bo|5",
    // The option stands before the command.
    "|--now=5|run",
    "|--fail-host|2|run",
    // Its value is missing, empty, or another word.
    "|run|--now",
    "|run|--now=",
    "|run|--now|",
    "|run|--now|--now=5",
    "|run|--steps",
    "|run|--steps=",
    "|run|--steps|",
    "|run|--boot",
    "|run|--boot=",
    "|run|--boot|",
    "|run|--dialect",
    "|run|--dialect=",
    "|run|--dialect|",
    "|run|--dialect=Client",
    "|run|--dialect|plain,client",
    "|run|--dialect=client|--dialect=client",
    "|--dialect=client|run",
    "|make|7|40|--dialect=client",
    "|drill|7|40|--dialect|client",
    "|check|--dialect=plain",
    "|run|--fail-host",
    "|run|--fail-host=",
    "|run|--fail-host|",
    "|run|--fail-keeper",
    "|run|--fail-keeper=",
    "|run|--fail-keeper|",
    "|run|--fail-keeper|--fail-host|2",
    // It is given twice, or a word too many is.
    "|run|--now=5|--now=5",
    "|run|--now|5|--now|6",
    "|run|--steps=5|--steps|all",
    "|run|--boot|5|--boot=5",
    "|run|--fail-host=2|--fail-host=2",
    "|run|--fail-keeper|2|--fail-host=1|--fail-keeper|2",
    "|run|--now|5|6",
    "|run|--now=5|6",
    "|run|--fail-host=2|3",
    // Its value is too great.
    "|run|--now=253402300800",
    "|run|--now|18446744073709551616",
    "|run|--steps=1000001",
    "|run|--steps|18446744073709551616",
    "|run|--boot=18446744073709551616",
    "|run|--boot|99999999999999999999",
    "|run|--fail-host=18446744073709551616",
    "|run|--fail-keeper|1,18446744073709551616",
    // Its value has a zero in front, or is no number.
    "|run|--now=00",
    "|run|--now=05",
    "|run|--boot=000000000000000000005",
    "|run|--steps|007",
    "|run|--fail-host=02",
    "|run|--fail-keeper=7,01",
    "|run|--now=+5",
    "|run|--now=-5",
    "|run|--now= 5",
    "|run|--now=5s",
    "|run|--now=0x5",
    "|run|--now=5=6",
    "|run|--steps=+5",
    "|run|--steps=ALL",
    "|run|--steps=all ",
    "|run|--boot=+5",
    "|run|--boot=all",
    "|run|--fail-host=all",
    "|run|--fail-host=+2",
    // Its list has a 0, an empty part, another sign, or a number too many.
    "|run|--fail-host=0",
    "|run|--fail-keeper=1,0",
    "|run|--fail-host=,",
    "|run|--fail-host=,2",
    "|run|--fail-host=2,",
    "|run|--fail-keeper=2,,3",
    "|run|--fail-keeper=2, 3",
    "|run|--fail-keeper=2;3",
    "|run|--fail-keeper|2|3",
    "|run|--fail-host|1,2,3,4,5,6,7,8,9,10,11,12,13,14,15,16,17,18,19,20,21,22,23,24,\
        25,26,27,28,29,30,31,32,33,34,35,36,37,38,39,40,41,42,43,44,45,46,47,48,49,50,\
        51,52,53,54,55,56,57,58,59,60,61,62,63,64,65",
    "|run|--fail-keeper|1,2,3,4,5,6,7,8,9,10,11,12,13,14,15,16,17,18,19,20,21,22,23,\
        24,25,26,27,28,29,30,31,32,33,34,35,36,37,38,39,40,41,42,43,44,45,46,47,48,49,\
        50,51,52,53,54,55,56,57,58,59,60,61,62,63,64,65",
    // One option is well, and another is not.
    "|run|--fail-host=2|--steps=1000001",
    "|run|--fail-keeper=2|--now",
    // Its name is another.
    "|run|now=5",
    "|run|-now=5",
    "|run|--Now=5",
    "|run|--now =5",
    "|run|--fail=2",
    "|run|--fail_host=2",
    "|run|--step=2",
    "|run|=5",
];

/// Whether the rows are kept there, and the calls that fail are these of the host and these of the keeper.
fn are_listed(alloc: Global, words: &[String], kept: Kept, host: &[u64], keeper: &[u64]) -> bool {
    let Ok(setup) = setup_of(alloc, words) else {
        return false;
    };
    let are = is_at(&setup.rows, kept)
        & (setup.fail_host.view() == host)
        & (setup.fail_keeper.view() == keeper);
    drop(setup);
    are
}

/// Whether words are read so, or not at all.
fn are_read(alloc: Global, words: &[String], says: Option<CommandWords>) -> bool {
    match read_words(alloc, words) {
        Ok(said) => said == says,
        Err(_) => false,
    }
}

/// Whether words say this, where rows are kept, and list these calls.
fn say(
    alloc: Global,
    words: &str,
    says: Option<CommandWords>,
    kept: Kept,
    host: &[u64],
    keeper: &[u64],
) -> bool {
    let Ok(words) = owned(alloc, words) else {
        return false;
    };
    let is = are_read(alloc, &words, says) & are_listed(alloc, &words, kept, host, keeper);
    drop(words);
    is
}

fn say_run(
    alloc: Global,
    words: &str,
    run: RunWords,
    kept: Kept,
    host: &[u64],
    keeper: &[u64],
) -> bool {
    say(
        alloc,
        words,
        Some(CommandWords::Run(run)),
        kept,
        host,
        keeper,
    )
}

/// No moment, all steps, and no word of the start.
const PLAIN: RunWords = RunWords {
    now: None,
    pace: Pace::All,
    boot: None,
    dialect: Dialect::Plain,
};

/// What is said by all of the options of `run` that say how it runs.
const FULL: RunWords = RunWords {
    now: Some(5),
    pace: Pace::Steps(3),
    boot: Some(9),
    dialect: Dialect::Plain,
};

fn are_said(alloc: Global, words: &str, want: Want) -> bool {
    match want {
        Run(now, pace, boot) => {
            let dialect = Dialect::Plain;
            let run = RunWords {
                now,
                pace,
                boot,
                dialect,
            };
            say_run(alloc, words, run, Memory, &[], &[])
        }
        Speaks(dialect) => {
            let run = RunWords { dialect, ..PLAIN };
            say_run(alloc, words, run, Memory, &[], &[])
        }
        Plain(kept, host, keeper) => say_run(alloc, words, PLAIN, kept, host, keeper),
        Full(kept, host, keeper) => say_run(alloc, words, FULL, kept, host, keeper),
        Make(seed, count, kept) => {
            say(
                alloc,
                words,
                Some(CommandWords::Make { seed, count }),
                kept,
                &[],
                &[],
            )
        }
        Drill(seed, count, kept) => {
            say(
                alloc,
                words,
                Some(CommandWords::Drill { seed, count }),
                kept,
                &[],
                &[],
            )
        }
        Check(kept) => say(alloc, words, Some(CommandWords::Check), kept, &[], &[]),
    }
}

#[test]
fn words_say_what_to_do(rt: HostRuntime) {
    for (words, want) in SAID {
        assert!(rt; are_said(rt.alloc(), words, *want), "{words}");
    }
}

#[test]
fn other_words_are_not_read(rt: HostRuntime) {
    for words in NOT_READ {
        assert!(rt; say(rt.alloc(), words, None, Memory, &[], &[]), "{words}");
    }
}
