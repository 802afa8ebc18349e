//! How the file of a journal is opened, and made where there is none.
use crate::disk::FileDisk;
use crate::header::{HEADER, is_begun, judge};
use crate::refusal::FileRefused;
use size_values::Or;
use std::fs;
use std::fs::{File, TryLockError};
use std::io::ErrorKind;
use std::os::unix::fs::{FileExt, OpenOptionsExt};

/// What stands at a path.
#[derive(Clone, Copy, PartialEq, Eq)]
enum Found {
    Nothing,
    EmptyFile,
    File,
    /// A folder, a device, or another thing that is no file.
    Other,
    Unknown,
}

/// What stands at a path.
fn found_at(rt: &HostRuntime, path: &str) -> Found {
    match fs::metadata(rt, path) {
        Ok(metadata) => {
            if !metadata.is_file() {
                Found::Other
            } else if metadata.len() == 0 {
                Found::EmptyFile
            } else {
                Found::File
            }
        }
        Err(error) => {
            let missing = error.kind() == ErrorKind::NotFound;
            drop(error);
            if missing {
                Found::Nothing
            } else {
                Found::Unknown
            }
        }
    }
}

/// Takes the lock of a file, which goes with it.
fn lock(file: &File) -> Result<(), FileRefused> {
    match file.try_lock() {
        Ok(()) => Ok(()),
        Err(TryLockError::WouldBlock) => Err(FileRefused::InUse),
        Err(TryLockError::Error(_)) => Err(FileRefused::Failed),
    }
}

/// Reads the first bytes of a file, and judges them. A file that is shorter than a header is no journal.
fn check(file: &File) -> Result<(), FileRefused> {
    let mut header = [0; 16];
    match file.read_exact_at(&mut header, 0) {
        Ok(()) => judge(&header),
        Err(error) => {
            let short = error.kind() == ErrorKind::UnexpectedEof;
            drop(error);
            if short {
                Err(FileRefused::NotAJournal)
            } else {
                Err(FileRefused::Failed)
            }
        }
    }
}

/// Opens a file that is there: it is locked, and begins with the header.
fn open_there(rt: &HostRuntime, path: &str) -> Result<FileDisk, FileRefused> {
    let Ok(file) = File::options().read(true).write(true).open(rt, path) else {
        return Err(FileRefused::Failed);
    };
    lock(&file)?;
    check(&file)?;
    Ok(FileDisk::of(file))
}

/// Whether a file is empty, or what is left of a journal that was being made.
fn was_begun(file: &File) -> bool {
    let mut bytes = [0; 17];
    let Ok(metadata) = file.metadata() else {
        return false;
    };
    let len = metadata.len();
    if len > 17 {
        return false;
    }
    let bytes = &mut bytes[..len as usize];
    file.read_exact_at(bytes, 0).is_ok() && is_begun(bytes)
}

/// Writes the header and the first gate, which is closed, and syncs.
fn fill(file: &File) -> bool {
    file.set_len(0).is_ok()
        && file.write_all_at(HEADER, 0).is_ok()
        && file.write_all_at(&[0], 16).is_ok()
        && file.sync_all().is_ok()
}

/// Syncs the folder that a path stands in.
fn sync_folder(rt: &HostRuntime, path: &str) -> bool {
    let folder = match path.rfind('/') {
        Some(0) => "/",
        Some(at) => &path[..at],
        None => ".",
    };
    match File::open(rt, folder) {
        Ok(folder) => folder.sync_all().is_ok(),
        Err(_) => false,
    }
}

/// Makes the file under another name, locks it, and gives it its own name once it is whole and on the disk.
fn make_as(rt: &HostRuntime, path: &str, new: &str) -> Result<FileDisk, FileRefused> {
    let opened = File::options()
        .read(true)
        .write(true)
        .create(true)
        .mode(0o600)
        .open(rt, new);
    let Ok(file) = opened else {
        return Err(FileRefused::Failed);
    };
    lock(&file)?;
    // Another program may have made the journal since: then this is its file, under its own name by now.
    if !matches!(found_at(rt, path), Found::Nothing | Found::EmptyFile) {
        return Err(FileRefused::InUse);
    }
    if !was_begun(&file) {
        return Err(FileRefused::NewNameTaken);
    }
    if fill(&file) && fs::rename(rt, new, path).is_ok() && sync_folder(rt, path) {
        Ok(FileDisk::of(file))
    } else {
        Err(FileRefused::Failed)
    }
}

fn make(rt: &HostRuntime, path: &str) -> Result<FileDisk, Or<FileRefused>> {
    match format!(in rt.alloc(); "{path}.new") {
        Ok(new) => make_as(rt, path, &new).map_err(Or::Why),
        Err(_) => Err(Or::NoMemory),
    }
}

/// Opens the journal at a path, or makes it where nothing or an empty file stands there. A file that is refused is as it
/// was. Where it was to be made and that failed, an empty journal may stand there, and what is left of one under its name
/// with `.new` behind it, which the next call takes up.
pub fn open_journal(rt: &HostRuntime, path: &str) -> Result<FileDisk, Or<FileRefused>> {
    match found_at(rt, path) {
        Found::File => open_there(rt, path).map_err(Or::Why),
        Found::Nothing | Found::EmptyFile => make(rt, path),
        Found::Other => Err(Or::Why(FileRefused::NotAJournal)),
        Found::Unknown => Err(Or::Why(FileRefused::Failed)),
    }
}

/// Opens the journal at a path, where one stands there, and makes none. A file that is refused is as it was.
pub fn open_standing_journal(rt: &HostRuntime, path: &str) -> Result<FileDisk, FileRefused> {
    match found_at(rt, path) {
        Found::File => open_there(rt, path),
        Found::Nothing | Found::EmptyFile => Err(FileRefused::Missing),
        Found::Other => Err(FileRefused::NotAJournal),
        Found::Unknown => Err(FileRefused::Failed),
    }
}
