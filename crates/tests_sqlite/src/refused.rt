//! Files that are refused, each with its trouble, and as they were.
use crate::files::{Step, all_go, all_go_at, keeper_at, keeper_of, renew};
use sqlite::{Connection, Error};
use sqlite_keeper::Trouble;
use std::alloc::Global;
use std::{fs, io};

const FOLDER: &str = "sqlite_tests_refused";

const FILE: &str = "sqlite_tests_refused/rows.db";

const MISSING: &str = "sqlite_tests_refused/missing/rows.db";

/// How a file is made.
#[derive(Clone, Copy)]
enum Made {
    Bytes(&'static [u8]),
    Folder,
    /// A database by these statements.
    Database(&'static str),
    /// The tables of the program by a keeper, and then these statements.
    Changed(&'static str),
}

const REFUSED: &[(&str, Made, Trouble)] = &[
    (
        "a text",
        Made::Bytes(b"bread, milk\n"),
        Trouble::NotADatabase,
    ),
    ("one byte", Made::Bytes(b"x"), Trouble::NotADatabase),
    (
        "a longer text",
        Made::Bytes(&[b'S'; 10_000]),
        Trouble::NotADatabase,
    ),
    (
        "no more than the beginning of a database",
        Made::Bytes(b"SQLite format 3\0\x10\0\x01\x01\0\x40\x20\x20"),
        Trouble::NotADatabase,
    ),
    ("a folder", Made::Folder, Trouble::CannotOpen),
    (
        "a database of another program",
        Made::Database("CREATE TABLE notes (title TEXT)"),
        Trouble::OtherTables,
    ),
    (
        "a table of this name and an index",
        Made::Database(
            "CREATE TABLE records (kind INTEGER NOT NULL, key TEXT NOT NULL, body BLOB NOT NULL, PRIMARY KEY (kind, key)); \
             CREATE INDEX bodies ON records (body)",
        ),
        Trouble::OtherTables,
    ),
    (
        "the beginning of a database with auto_vacuum",
        Made::Bytes(
            b"SQLite format 3\0\x10\0\x01\x01\0\x40\x20\x20\0\0\0\x01\0\0\0\x02\0\0\0\0\0\0\0\0\0\0\0\x01\0\0\0\x04\0\0\0\0\0\0\0\x01",
        ),
        Trouble::AutoVacuum,
    ),
    (
        "a table of another shape",
        Made::Changed("DROP TABLE records; CREATE TABLE records (kind INTEGER, key TEXT)"),
        Trouble::OtherTables,
    ),
    (
        "a table fewer",
        Made::Changed("DROP TABLE records"),
        Trouble::OtherTables,
    ),
    (
        "a table more",
        Made::Changed("CREATE TABLE notes (title TEXT)"),
        Trouble::OtherTables,
    ),
    (
        "an index more",
        Made::Changed("CREATE INDEX bodies ON records (body)"),
        Trouble::OtherTables,
    ),
    (
        "the next version",
        Made::Changed("UPDATE format SET version = 2"),
        Trouble::NewerVersion(2),
    ),
    (
        "a later version with other tables",
        Made::Changed(
            "DROP TABLE records; CREATE TABLE entries (id INTEGER); UPDATE format SET version = 70000",
        ),
        Trouble::NewerVersion(70_000),
    ),
    (
        "version 0",
        Made::Changed("UPDATE format SET version = 0"),
        Trouble::OtherTables,
    ),
    (
        "no version",
        Made::Changed("DELETE FROM format"),
        Trouble::OtherTables,
    ),
    (
        "a kind that is no kind",
        Made::Changed("INSERT INTO records VALUES (256, 'a', x'00')"),
        Trouble::NotAnEntry,
    ),
    (
        "a body that is a text",
        Made::Changed("INSERT INTO records VALUES (1, 'a', 'text')"),
        Trouble::NotAnEntry,
    ),
];

/// Runs statements over the database file, which is then whole without its log.
fn run(rt: &HostRuntime, statements: &str) -> Result<(), Error> {
    let mut database = Connection::open(rt, FILE)?;
    let done = database.execute_batch(statements);
    match database.close() {
        Ok(()) => done,
        Err(error) => Err(error),
    }
}

fn make(rt: &HostRuntime, made: Made) -> bool {
    match made {
        Made::Bytes(bytes) => fs::write(rt, FILE, bytes).is_ok(),
        Made::Folder => fs::create_dir(rt, FILE).is_ok(),
        Made::Database(statements) => run(rt, statements).is_ok(),
        Made::Changed(statements) => {
            all_go_at(rt, FILE, &[Step::Finds(&[])]) && run(rt, statements).is_ok()
        }
    }
}

/// Whether the file at this path is refused with this trouble, once more for each call.
fn is_refused(rt: &HostRuntime, path: &str, trouble: Trouble) -> bool {
    let steps = [
        Step::FailsToLoad,
        Step::HasFailed(1, Some(trouble)),
        Step::FailsToLoad,
        Step::HasFailed(2, Some(trouble)),
    ];
    all_go_at(rt, path, &steps)
}

/// The bytes of the file; none where it is a folder.
fn bytes_of(rt: &HostRuntime, made: Made) -> io::Result<Vec<u8>> {
    match made {
        Made::Folder => Ok(Vec::new(rt.alloc())),
        _ => fs::read(rt, FILE),
    }
}

/// Whether a file that is made so is refused with this trouble, and stays as it was.
fn stays(rt: &HostRuntime, made: Made, trouble: Trouble) -> bool {
    let Ok(before) = bytes_of(rt, made) else {
        return false;
    };
    let refused = is_refused(rt, FILE, trouble);
    let same = match bytes_of(rt, made) {
        Ok(now) => {
            let same = now == before;
            drop(now);
            same
        }
        Err(_) => false,
    };
    drop(before);
    refused && same
}

/// Whether a file that is made so in a new folder is refused with this trouble, and stays as it was.
fn is_refused_when(rt: &HostRuntime, made: Made, trouble: Trouble) -> bool {
    renew(rt, FOLDER) && make(rt, made) && stays(rt, made, trouble)
}

/// Whether the file that another keeper has open is refused.
fn is_refused_beside(rt: &HostRuntime) -> bool {
    let Ok(mut first) = keeper_at(rt, FILE) else {
        return false;
    };
    let opened = all_go(rt.alloc(), &mut first, &[Step::Finds(&[])]);
    let refused = is_refused(rt, FILE, Trouble::InUse);
    let _closed = first.close();
    opened && refused
}

/// Whether a keeper that makes no file refuses one that is missing, and there is none afterwards.
fn is_refused_and_missing(rt: &HostRuntime) -> bool {
    let Ok(mut keeper) = keeper_of(rt, FILE) else {
        return false;
    };
    let steps = [
        Step::FailsToLoad,
        Step::HasFailed(1, Some(Trouble::Missing)),
    ];
    let refused = all_go(rt.alloc(), &mut keeper, &steps);
    let _closed = keeper.close();
    refused && fs::read(rt, FILE).is_err()
}

#[test]
fn other_files_are_refused_and_stay_as_they_were(rt: HostRuntime) {
    for (case, made, trouble) in REFUSED {
        assert!(rt; is_refused_when(&rt, *made, *trouble), "{case}");
    }
    assert!(rt; renew(&rt, FOLDER) && is_refused_beside(&rt));
    assert!(rt; is_refused(&rt, MISSING, Trouble::CannotOpen));
    assert!(rt; renew(&rt, FOLDER) && is_refused_and_missing(&rt));
}

/// What a person is told.
const SENTENCES: &[(Trouble, &str)] = &[
    (
        Trouble::NewerVersion(2),
        "the file was made by a newer version of this program (format 2, this one reads 1)",
    ),
    (
        Trouble::OtherTables,
        "the file is a database of another program",
    ),
    (
        Trouble::NotADatabase,
        "the file is not a whole SQLite database",
    ),
    (Trouble::Missing, "there is no such file, or it is empty"),
];

fn says(alloc: Global, trouble: Trouble, sentence: &str) -> bool {
    match trouble.to_string(alloc) {
        Ok(said) => {
            let same = said.as_str() == sentence;
            drop(said);
            same
        }
        Err(_) => false,
    }
}

#[test]
fn each_trouble_is_told_in_a_sentence(rt: HostRuntime) {
    for (trouble, sentence) in SENTENCES {
        assert!(rt; says(rt.alloc(), *trouble, sentence), "{sentence}");
    }
}
