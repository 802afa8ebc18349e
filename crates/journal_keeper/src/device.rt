//! What a journal asks of its disk: writes that are synced, and the whole file.
ghost use Rattle.std.specs.Prelude.{◌≡◌, ◌≤◌, ◌+◌, ℕ, List, length, is_some, option_map, IfOk, OnOk, OnErr, IfSome};
ghost use Rattle.size_values.specs.CallCounts.{CountsFailure};
ghost use Rattle.disk_model.specs.Disk.{disk_limit, patched, Torn, Follows, Only, LeavesOnly, MayStay, WritesNothing};
ghost use Rattle.journal_keeper.specs.Keeping.{TornFrom};

use disk_model::{Disk, DiskFailed};
use record_keeper::KeeperFailed;
use size_values::Or;
use std::alloc::Global;

/// Writes the bytes at a place, and syncs.
pub fn write_through<D: Disk>(
    disk: &mut D,
    place: u64,
    bytes: &[u8],
) -> Result<(), Or<KeeperFailed>>
    requires { IfSome (D.disk disk.old).contents (λ old. place ≤ length old) }
    ensures written { OnOk result ((D.disk disk.new).contents
        ≡ option_map (patched place bytes.now) (D.disk disk.old).contents) }
    ensures durable { OnOk result (IfSome (D.disk disk.new).contents (λ file. Only file (D.disk disk.new).may_leave)) }
    ensures limit { OnOk result (place + length bytes.now ≤ disk_limit) }
    ensures tells { is_some (D.disk disk.new).contents ≡ is_some (D.disk disk.old).contents }
    ensures stays { MayStay (D.disk disk.new) }
    ensures crash { Follows (Torn place (length bytes.now)) (D.disk disk.old).may_leave (D.disk disk.new).may_leave }
    ensures moments { LeavesOnly (D.disk disk.old) (D.disk disk.new)
        (TornFrom place (length bytes.now) (D.disk disk.old)) }
    ensures failures { CountsFailure (D.disk disk.old).failures (D.disk disk.new).failures result }
{
    match disk.write_at(place, bytes) {
        Ok(()) => {}
        Err(Or::NoMemory) => return Err(Or::NoMemory),
        Err(Or::Why(DiskFailed)) => return Err(Or::Why(KeeperFailed)),
    }
    match disk.sync() {
        Ok(()) => Ok(()),
        Err(DiskFailed) => Err(Or::Why(KeeperFailed)),
    }
}

/// Syncs, and asks for the size. A crash leaves then what a read gives.
pub fn settle<D: Disk>(disk: &mut D) -> Result<u64, Or<KeeperFailed>>
    ensures size { IfOk result (λ size. IfSome (D.disk disk.old).contents (λ file. size ≡ length file)) }
    ensures limit { IfOk result (λ size. size ≤ disk_limit) }
    ensures durable { OnOk result (IfSome (D.disk disk.old).contents (λ file. Only file (D.disk disk.new).may_leave)) }
    ensures quiet { WritesNothing (D.disk disk.old) (D.disk disk.new) }
    ensures failures { CountsFailure (D.disk disk.old).failures (D.disk disk.new).failures result }
{
    match disk.sync() {
        Ok(()) => {}
        Err(DiskFailed) => return Err(Or::Why(KeeperFailed)),
    }
    match disk.size() {
        Ok(size) => Ok(size),
        Err(DiskFailed) => Err(Or::Why(KeeperFailed)),
    }
}

/// Reads the whole file, of this size.
pub fn read_file<D: Disk>(
    alloc: Global,
    disk: &mut D,
    size: u64,
) -> Result<Vec<u8>, Or<KeeperFailed>>
    requires size { IfSome (D.disk disk.old).contents (λ file. size ≡ length file) }
    requires limit { size ≤ disk_limit }
    requires stays { MayStay (D.disk disk.old) }
    ensures bytes { IfOk result (λ bytes. IfSome (D.disk disk.old).contents (λ file. bytes.items ≡ file)) }
    ensures length { IfOk result (λ bytes. length bytes.items ≡ size) }
    ensures quiet { WritesNothing (D.disk disk.old) (D.disk disk.new) }
    ensures failures { CountsFailure (D.disk disk.old).failures (D.disk disk.new).failures result }
{
    let mut bytes = Vec::from_elem(alloc, 0, size as usize)?;
    match disk.read_at(0, &mut bytes) {
        Ok(()) => Ok(bytes),
        Err(DiskFailed) => {
            drop(bytes);
            Err(Or::Why(KeeperFailed))
        }
    }
}
