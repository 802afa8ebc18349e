ghost use Rattle.std.specs.Prelude.{◌≡◌, ◌+◌, ◌≤◌, length, min, true, OnOk, IfSome};
ghost use Rattle.std.specs.Bool.{OnTrue};
ghost use Rattle.disk_model.specs.Disk.{disk_limit, CountsFailed, WritesNothing, Follows, Torn, Elapses};
ghost use Rattle.size_values.specs.CallCounts.{CountsFailure};
ghost use Rattle.size_values.specs.Calls.{last_number};
ghost use Rattle.file_disk.specs.Silent.{silent_disk};

use disk_model::{Disk, DiskFailed};
use size_values::Or;
use std::fs::File;
use std::os::unix::fs::FileExt;

/// The place in the file at which the disk begins.
const START: u64 = 16;

/// The most bytes that a disk has.
const DISK_LIMIT: u64 = 1 << 40;

/// A journal's file, open and locked. It tells nothing of its contents.
#[derive(Drop)]
pub struct FileDisk {
    file: File,
    faults: u64,
}

impl FileDisk {
    /// The disk in a file, which begins with the header and is locked.
    pub(crate) fn of(file: File) -> FileDisk {
        FileDisk { file, faults: 0 }
    }

    /// The byte of the file at which a byte of the disk stands.
    pub fn place_in_file(place: u64) -> u64
        ensures { result ≡ min (16 + place) last_number }
    {
        START.saturating_add(place)
    }

    /// Counts a failure, where the call was not done.
    fn counted(&mut self, done: bool) -> Result<(), DiskFailed>
        ensures failures { CountsFailed self.old.faults self.new.faults result }
        ensures done { OnOk result (done ≡ true) }
    {
        if done {
            return Ok(());
        }
        self.faults = self.faults.saturating_add(1);
        Err(DiskFailed)
    }
}

/// The size of the disk in a file.
fn size_of(file: &File) -> Option<u64>
    ensures { IfSome result (λ size. size ≤ disk_limit) }
{
    match file.metadata() {
        Ok(metadata) => {
            let len = metadata.len();
            if len >= START && len - START <= DISK_LIMIT {
                Some(len - START)
            } else {
                None
            }
        }
        Err(_) => None,
    }
}

fn reads(file: &File, place: u64, into: &mut [u8]) -> bool {
    place <= DISK_LIMIT && file.read_exact_at(into, START + place).is_ok()
}

fn writes(file: &File, place: u64, bytes: &[u8]) -> bool
    ensures { OnTrue result (place + length bytes.now ≤ disk_limit) }
{
    place <= DISK_LIMIT
        && bytes.len() as u64 <= DISK_LIMIT - place
        && file.write_all_at(bytes, START + place).is_ok()
}

impl Disk for FileDisk {
    ghost disk = { λ d. silent_disk d.faults };

    ghost counts_now = { λ d since left le now. tt };

    ghost only_now = { λ d left since. tt };

    fn size(&mut self) -> Result<u64, DiskFailed> {
        let size = size_of(&self.file);
        match size {
            Some(size) => Ok(size),
            None => {
                self.faults = self.faults.saturating_add(1);
                Err(DiskFailed)
            }
        }
    }

    fn read_at(&mut self, place: u64, into: &mut [u8]) -> Result<(), DiskFailed> {
        let done = reads(&self.file, place, into);
        self.counted(done)
    }

    fn write_at(&mut self, place: u64, bytes: &[u8]) -> Result<(), Or<DiskFailed>> {
        let done = writes(&self.file, place, bytes);
        match self.counted(done) {
            Ok(()) => Ok(()),
            Err(DiskFailed) => Err(Or::Why(DiskFailed)),
        }
    }

    fn sync(&mut self) -> Result<(), DiskFailed> {
        let done = self.file.sync_data().is_ok();
        self.counted(done)
    }

    fn faults(&self) -> u64 {
        self.faults
    }
}
