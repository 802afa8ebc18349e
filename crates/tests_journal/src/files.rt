//! Files of journals: one that is made, one in use, some of newer versions, and foreign ones, which are left as they are.
use crate::rows::{commits, rows};
use file_disk::{FileRefused, open_journal, open_standing_journal};
use journal_keeper::JournalKeeper;
use size_values::Or;
use std::fs;
use std::test::Fail;

/// The folder of the files, which is made anew.
const FOLDER: &str = "journals";

fn renew(rt: &HostRuntime) -> bool {
    let _missing = fs::remove_dir_all(rt, FOLDER);
    fs::create_dir(rt, FOLDER).is_ok()
}

/// Why the file at a path is refused, if it is.
fn refusal(rt: &HostRuntime, path: &str) -> Option<FileRefused> {
    match open_journal(rt, path) {
        Ok(disk) => {
            drop(disk);
            None
        }
        Err(Or::NoMemory) => None,
        Err(Or::Why(why)) => Some(why),
    }
}

/// Commits one row to the journal at a path, and gives the rows that a load finds.
fn grow(rt: &HostRuntime, path: &str, key: &str) -> Option<u64> {
    match open_journal(rt, path) {
        Ok(disk) => {
            let mut keeper = JournalKeeper::over(rt.alloc(), disk);
            let before = rows(&mut keeper);
            let done = commits(rt.alloc(), &mut keeper, key, b"1");
            let busy = refusal(rt, path) == Some(FileRefused::InUse);
            drop(keeper);
            if done && busy { before } else { None }
        }
        Err(_) => None,
    }
}

#[test]
fn a_journal_is_made_and_opened_again(rt: HostRuntime) -> Result<(), Fail> {
    assert!(rt; renew(&rt), "an empty folder");
    assert!(rt; grow(&rt, "journals/rows", "a") == Some(0), "a new journal");
    assert!(rt; grow(&rt, "journals/rows", "b") == Some(1), "one row");
    assert!(rt; grow(&rt, "journals/rows", "c") == Some(3), "two rows");
    Ok(())
}

/// Whether a file with these bytes is refused for this reason, and stays as it was.
fn refuses(rt: &HostRuntime, path: &str, bytes: &[u8], why: FileRefused) -> bool {
    if fs::write(rt, path, bytes).is_err() || refusal(rt, path) != Some(why) {
        return false;
    }
    match fs::read(rt, path) {
        Ok(found) => {
            let same = found.as_slice() == bytes;
            drop(found);
            same
        }
        Err(_) => false,
    }
}

/// Files that are no journal of this version, and why.
const REFUSED: &[(&[u8], FileRefused)] = &[
    (b"notes of a person", FileRefused::NotAJournal),
    (b"incus journal 1", FileRefused::NotAJournal),
    (b"incus journal 0\n\0", FileRefused::NotAJournal),
    (b"incus journal x\n\0", FileRefused::NotAJournal),
    (b"incus journal 1\r\n\0", FileRefused::NotAJournal),
    (b"incus journal 02\n\0", FileRefused::NotAJournal),
    (b"Incus journal 2\n\0", FileRefused::NotAJournal),
    (b"incus journal 2\n\0", FileRefused::NewerVersion),
    (b"incus journal 10\n\0", FileRefused::NewerVersion),
];

#[test]
fn a_foreign_file_is_refused(rt: HostRuntime) -> Result<(), Fail> {
    let _missing = fs::remove_dir_all(&rt, "foreign");
    assert!(rt; fs::create_dir(&rt, "foreign").is_ok(), "a folder");
    for (bytes, why) in REFUSED {
        assert!(rt; refuses(&rt, "foreign/rows", bytes, *why), "a foreign file");
    }
    Ok(())
}

/// Why the file at a path is refused where none is made, if it is.
fn standing_refusal(rt: &HostRuntime, path: &str) -> Option<FileRefused> {
    match open_standing_journal(rt, path) {
        Ok(disk) => {
            drop(disk);
            None
        }
        Err(why) => Some(why),
    }
}

#[test]
fn none_is_made_where_one_has_to_stand(rt: HostRuntime) -> Result<(), Fail> {
    let _missing = fs::remove_dir_all(&rt, "standing");
    assert!(rt; fs::create_dir(&rt, "standing").is_ok(), "a folder");
    let why = standing_refusal(&rt, "standing/rows");
    assert!(rt; why == Some(FileRefused::Missing), "a missing file");
    assert!(rt;
        fs::metadata(&rt, "standing/rows").is_err(),
        "no file is made"
    );
    assert!(rt; refusal(&rt, "standing/rows").is_none(), "one is made");
    assert!(rt;
        standing_refusal(&rt, "standing/rows").is_none(),
        "it stands"
    );
    Ok(())
}

/// Whether a journal is made where a file with these bytes has its name with `.new` behind it.
fn makes_beside(rt: &HostRuntime, path: &str, new: &str, bytes: &[u8]) -> bool {
    fs::write(rt, new, bytes).is_ok() && refusal(rt, path).is_none()
}

#[test]
fn what_is_left_of_a_journal_is_taken_up(rt: HostRuntime) -> Result<(), Fail> {
    let _missing = fs::remove_dir_all(&rt, "begun");
    assert!(rt; fs::create_dir(&rt, "begun").is_ok(), "a folder");
    assert!(rt;
        makes_beside(&rt, "begun/a", "begun/a.new", b"incus jo\0\0"),
        "a part"
    );
    assert!(rt;
        makes_beside(&rt, "begun/b", "begun/b.new", b"incus journal 1\n\0"),
        "all"
    );
    assert!(rt; makes_beside(&rt, "begun/c", "begun/c.new", b""), "nothing");
    assert!(rt;
        !makes_beside(&rt, "begun/d", "begun/d.new", b"notes"),
        "another file"
    );
    assert!(rt;
        refusal(&rt, "begun/d") == Some(FileRefused::NewNameTaken),
        "it stays"
    );
    Ok(())
}
