ghost use Rattle.std.specs.Prelude.{◌≡◌, ◌+◌, ◌≤◌, ℕ, List, length, take, drop, is_some, option_map, IfOk, OnOk, IfSome};
ghost use Rattle.size_values.specs.CallCounts.{CountsFailure};
ghost use Rattle.disk_model.specs.Disk.{DiskState, disk_limit, patched, Torn, Follows, Only, Elapses, WritesNothing};
ghost use Rattle.disk_model.specs.Disk.{CountsFailed, MayStay};

use size_values::Or;
use thiserror::Error;

/// A call of a disk failed.
#[derive(Clone, Copy, Debug, PartialEq, Eq, Error)]
#[error("the disk failed")]
pub struct DiskFailed;

/// A file of bytes that a crash may leave in part. A failure is answered only where the disk's count of failures rose
/// in that call, and any other answer leaves that count as it was. A write may be out of memory, which is no failure.
/// Between two syncs each range that was written, also by a write that failed or was refused memory, may hold any bytes
/// after a crash, and the size may be any from the old one to the new one.
pub trait Disk {
    /// What is seen of the disk. Its contents are None where it doesn't tell them.
    ghost disk: { Self → DiskState };

    /// How many bytes there are.
    fn size(&mut self) -> Result<u64, DiskFailed>
        ensures size { IfOk result (λ size. IfSome (disk self.old).contents (λ bytes. size ≡ length bytes)) }
        ensures limit { IfOk result (λ size. size ≤ disk_limit) }
        ensures quiet { WritesNothing (disk self.old) (disk self.new) }
        ensures failures { CountsFailed (disk self.old).failures (disk self.new).failures result };

    /// Reads as many bytes as there is room for, from a place on.
    fn read_at(&mut self, place: u64, into: &mut [u8]) -> Result<(), DiskFailed>
        requires { IfSome (disk self.old).contents (λ bytes. place + length into.old ≤ length bytes) }
        ensures bytes { OnOk result (IfSome (disk self.old).contents
            (λ bytes. into.new ≡ take (length into.old) (drop place bytes))) }
        ensures quiet { WritesNothing (disk self.old) (disk self.new) }
        ensures failures { CountsFailed (disk self.old).failures (disk self.new).failures result };

    /// Writes over what is there, and past the end. A write that would end past 2^40 fails.
    fn write_at(&mut self, place: u64, bytes: &[u8]) -> Result<(), Or<DiskFailed>>
        requires { IfSome (disk self.old).contents (λ old. place ≤ length old) }
        ensures written { OnOk result ((disk self.new).contents
            ≡ option_map (patched place bytes.now) (disk self.old).contents) }
        ensures limit { OnOk result (place + length bytes.now ≤ disk_limit) }
        ensures tells { is_some (disk self.new).contents ≡ is_some (disk self.old).contents }
        ensures crash { Follows (Torn place (length bytes.now)) (disk self.old).may_leave (disk self.new).may_leave }
        ensures stays { MayStay (disk self.new) }
        ensures time { Elapses (disk self.old) (disk self.new) }
        ensures failures { CountsFailure (disk self.old).failures (disk self.new).failures result };

    /// After it, a crash leaves what a read gives.
    fn sync(&mut self) -> Result<(), DiskFailed>
        ensures durable { OnOk result (IfSome (disk self.old).contents
            (λ bytes. Only bytes (disk self.new).may_leave)) }
        ensures quiet { WritesNothing (disk self.old) (disk self.new) }
        ensures failures { CountsFailed (disk self.old).failures (disk self.new).failures result };

    /// The count of failures so far.
    fn faults(&self) -> u64
        ensures { result ≡ (disk self.now).failures };

    /// This moment is one of those since an earlier one.
    ghost counts_now: { (d : Self) (since : ℕ) (left : List ℕ) → since ≤ (disk d).moment
        → (disk d).may_leave left → (disk d).left_since since left };

    /// Since this moment there is no other.
    ghost only_now: { (d : Self) (left : List ℕ) → (disk d).left_since (disk d).moment left → (disk d).may_leave left };
}
