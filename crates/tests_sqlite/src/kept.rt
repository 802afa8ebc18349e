//! What is committed is found again, by the same keeper and by another one.
use crate::files::{Row, Step, all_go, all_go_at, commits, finds, keeper_at, renew};
use sqlite::{Connection, Error, File, FileStore};
use sqlite_keeper::{SqliteKeeper, Trouble};
use std::alloc::Global;
use std::fs;

const FOLDER: &str = "sqlite_tests_kept";

const FILE: &str = "sqlite_tests_kept/rows.db";

const LOG: &str = "sqlite_tests_kept/rows.db-wal";

/// Commits one after the other, and the rows that they leave.
const COMMITS: &[(&str, &[&[Row]], &[Row])] = &[
    ("nothing", &[], &[]),
    ("no changes", &[&[]], &[]),
    ("a put", &[&[(1, "a", Some(b"x"))]], &[(1, "a", Some(b"x"))]),
    (
        "a put again",
        &[&[(1, "a", Some(b"x"))], &[(1, "a", Some(b"yz"))]],
        &[(1, "a", Some(b"yz"))],
    ),
    (
        "a removal",
        &[
            &[(1, "a", Some(b"x")), (1, "b", Some(b"y"))],
            &[(1, "a", None)],
        ],
        &[(1, "b", Some(b"y"))],
    ),
    (
        "a removal where there is none",
        &[&[(1, "a", Some(b"x")), (2, "a", None)]],
        &[(1, "a", Some(b"x"))],
    ),
    (
        "in their order",
        &[&[(1, "a", Some(b"x")), (1, "a", None), (1, "a", Some(b"z"))]],
        &[(1, "a", Some(b"z"))],
    ),
    (
        "by kind, and by the bytes of the key",
        &[&[
            (255, "a", Some(b"1")),
            (2, "b", Some(b"2")),
            (10, "", Some(b"3")),
            (2, "B", Some(b"4")),
            (2, "aa", Some(b"5")),
            (2, "a", Some(b"6")),
            (2, "\u{e9}", Some(b"7")),
            (0, "9", Some(b"8")),
            (0, "10", Some(b"9")),
        ]],
        &[
            (0, "10", Some(b"9")),
            (0, "9", Some(b"8")),
            (2, "B", Some(b"4")),
            (2, "a", Some(b"6")),
            (2, "aa", Some(b"5")),
            (2, "b", Some(b"2")),
            (2, "\u{e9}", Some(b"7")),
            (10, "", Some(b"3")),
            (255, "a", Some(b"1")),
        ],
    ),
    (
        "bytes of 0 in a body and in a key",
        &[&[(1, "a\0b", Some(b"\0x\0\xff")), (1, "a", Some(b""))]],
        &[(1, "a", Some(b"")), (1, "a\0b", Some(b"\0x\0\xff"))],
    ),
    (
        "what SQL would read otherwise",
        &[&[(1, "'); DROP TABLE records; --", Some(b"' OR 1"))]],
        &[(1, "'); DROP TABLE records; --", Some(b"' OR 1"))],
    ),
];

/// A commit before the first load fails and is counted, and leaves no trace in the file.
const EARLY: &[Step<'static>] = &[
    Step::FailsToCommit(&[(1, "a", Some(b"x"))]),
    Step::HasFailed(1, Some(Trouble::NotLoaded)),
    Step::Finds(&[]),
    Step::Commits(&[&[(1, "a", Some(b"x"))]]),
    Step::Finds(&[(1, "a", Some(b"x"))]),
    Step::HasFailed(1, Some(Trouble::NotLoaded)),
];

/// The first load of a new file.
const NEW: &[Step<'static>] = &[Step::Finds(&[])];

/// No call has failed.
const WELL: &[Step<'static>] = &[Step::HasFailed(0, None)];

/// Whether a keeper commits these changes after its first load, and then has these rows.
fn takes(alloc: Global, keeper: &mut SqliteKeeper, made: &[&[Row]], kept: &[Row]) -> bool {
    all_go(alloc, keeper, NEW)
        && commits(alloc, keeper, made)
        && finds(keeper, kept)
        && all_go(alloc, keeper, WELL)
}

/// Whether a keeper of the file does so.
fn takes_in_new_file(rt: &HostRuntime, made: &[&[Row]], kept: &[Row]) -> bool {
    let Ok(mut keeper) = keeper_at(rt, FILE) else {
        return false;
    };
    let same = takes(rt.alloc(), &mut keeper, made, kept);
    let _closed = keeper.close();
    same
}

/// Whether another keeper of the file has these rows.
fn finds_again(rt: &HostRuntime, kept: &[Row]) -> bool {
    let Ok(mut keeper) = keeper_at(rt, FILE) else {
        return false;
    };
    let same = finds(&mut keeper, kept);
    let _closed = keeper.close();
    same
}

/// Whether a new file keeps these rows after these changes.
fn keeps(rt: &HostRuntime, made: &[&[Row]], kept: &[Row]) -> bool {
    renew(rt, FOLDER) && takes_in_new_file(rt, made, kept) && finds_again(rt, kept)
}

/// Rows that a file of the first version gets.
const LATER: &[&[Row]] = &[&[(1, "b", Some(b"y"))], &[(1, "a", None)]];

/// How a file of the first version is made, with a row.
const FIRST: &str =
    "CREATE TABLE records (kind INTEGER NOT NULL, key TEXT NOT NULL, body BLOB NOT NULL, PRIMARY KEY (kind, key)); \
    INSERT INTO records VALUES (1, 'a', x'78')";

/// Whether a file is made by these statements, and is whole without its log.
fn is_made(rt: &HostRuntime, statements: &str) -> bool {
    let Ok(mut database) = Connection::open(rt, FILE) else {
        return false;
    };
    let made = database.execute_batch(statements).is_ok();
    database.close().is_ok() && made
}

/// Whether a file has this many tables of its own.
fn has_tables(rt: &HostRuntime, count: i64) -> bool {
    let Ok(mut database) = Connection::open(rt, FILE) else {
        return false;
    };
    let found = tables_of(&mut database);
    drop(database);
    found == Ok(count)
}

fn tables_of(database: &mut Connection<FileStore<File>>) -> Result<i64, Error> {
    database
        .query_row(
            "SELECT count(*) FROM sqlite_schema WHERE type = 'table'",
            &[],
        )?
        .get(0)
}

/// What a keeper does at a file of the first version that nothing changes.
const OPENED: &[Step] = &[Step::Finds(&[(1, "a", Some(b"x"))]), Step::Commits(&[&[]])];

/// What a keeper does at such a file that it changes.
const CHANGED: &[Step] = &[
    Step::Finds(&[(1, "a", Some(b"x"))]),
    Step::Commits(LATER),
    Step::Finds(&[(1, "b", Some(b"y"))]),
];

/// Whether a file of the first version opens, stays as it is while nothing changes, and gets its version then.
fn first_version_opens(rt: &HostRuntime) -> bool {
    is_made(rt, FIRST)
        && all_go_at(rt, FILE, OPENED)
        && has_tables(rt, 1)
        && all_go_at(rt, FILE, CHANGED)
        && has_tables(rt, 2)
        && finds_again(rt, &[(1, "b", Some(b"y"))])
}

/// What a keeper does at a new file.
const FILLED: &[Step] = &[Step::Finds(&[]), Step::Commits(LATER)];

/// Whether a file has its rows without its log, once its keeper is closed.
fn is_whole_alone(rt: &HostRuntime) -> bool {
    all_go_at(rt, FILE, FILLED)
        && fs::remove_file(rt, LOG).is_ok()
        && finds_again(rt, &[(1, "b", Some(b"y"))])
}

#[test]
fn a_closed_file_is_whole(rt: HostRuntime) {
    assert!(rt; renew(&rt, FOLDER) && is_whole_alone(&rt));
    assert!(rt; renew(&rt, FOLDER) && first_version_opens(&rt));
}

#[test]
fn what_is_committed_is_found_again(rt: HostRuntime) {
    for (case, made, kept) in COMMITS {
        assert!(rt; keeps(&rt, made, kept), "{case}");
    }
    assert!(rt; renew(&rt, FOLDER) && all_go_at(&rt, FILE, EARLY));
}
