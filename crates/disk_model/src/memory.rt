ghost use Rattle.std.specs.Prelude.{◌≡◌, ◌||◌, ◌+◌, ◌≤◌, ◌<◌, [], ◌∷◌, ◌++◌, length, take, drop, Some, None, map, IfOk, OnOk, OnErr};
ghost use Rattle.std.specs.Prelude.{Ok, if◌then◌else◌, nat_le, true, is_err, vec_len, vec_capacity};
ghost use Rattle.size_values.specs.CallCounts.{CountsFailure};
ghost use Rattle.size_values.specs.Calls.{last_number};
ghost use Rattle.disk_model.specs.Disk.{disk_limit, patched, CountsFailed, WritesNothing, Follows, Torn, MayStay};
ghost use Rattle.disk_model.specs.Disk.{Elapses, Only};
ghost use Rattle.disk_model.specs.Memory.{is_spent, is_next_failing, after_call, after_failure, after_next, image_of};
ghost use Rattle.disk_model.specs.Memory.{Writes, after_write, picked_write, picked_bytes, LeftAt, AreWrites, after_sync, synced_at, memory_disk, picked, whole_disk};
ghost use Rattle.disk_model.specs.Laws.{only_now, le_refl};

use crate::disk::{Disk, DiskFailed};
use size_values::{NoMemory, Or, Seq};
use std::alloc::Global;
use std::marker::Model;

/// The most bytes that a disk has.
const DISK_LIMIT: u64 = 1 << 40;

/// A write in the record of a disk in memory.
#[derive(Drop)]
pub struct Write {
    /// The number of the call.
    pub moment: u64,
    pub place: u64,
    pub bytes: Seq<u8>,
    /// Whether it was answered Ok.
    pub done: bool,
    /// The number of the first sync after it that ended well.
    pub synced: Option<u64>,
}

/// The calls of a disk in memory, numbered from 1. Those of the listed numbers fail, and each one after 2^64 - 1 calls.
#[derive(Drop)]
pub struct DiskCalls {
    fails: Seq<u64>,
    made: u64,
    failed: u64,
}

impl DiskCalls {
    fn is_spent(&self) -> bool
        ensures { result ≡ is_spent self.now }
    {
        self.made == u64::MAX
    }

    /// Counts a call that doesn't fail.
    fn pass(&mut self)
        ensures counted { self.new ≡ after_call self.old }
        ensures numbers { self.old.made ≤ last_number }
        ensures moment { self.old.made ≤ self.new.made }
    {
        self.made = self.made.saturating_add(1);
    }

    /// Counts a call that fails.
    fn fail(&mut self)
        ensures counted { self.new ≡ after_failure self.old }
        ensures numbers { self.old.made ≤ last_number }
        ensures moment { self.old.made ≤ self.new.made }
        ensures later { self.old.failed ≤ self.new.failed }
    {
        self.made = self.made.saturating_add(1);
        self.failed = self.failed.saturating_add(1);
    }

    /// Whether the next call fails.
    fn is_next_failing(&self) -> bool
        ensures { result ≡ is_next_failing self.now }
    {
        self.is_spent() || self.fails.view().contains(&(self.made + 1))
    }

    /// Counts the next call, and says whether it fails.
    fn next(&mut self) -> bool
        ensures fails { result ≡ is_next_failing self.old }
        ensures counted { self.new ≡ after_next self.old }
        ensures numbers { self.old.made ≤ last_number }
        ensures moment { self.old.made ≤ self.new.made }
        ensures later { self.old.failed ≤ self.new.failed }
    {
        let fails = self.is_next_failing();
        if fails {
            self.fail();
        } else {
            self.pass();
        }
        fails
    }
}

/// A disk whose bytes are in memory and end with it. It keeps a record of its writes, from which follows what a crash
/// may leave. Its calls are numbered from 1, and those of the listed numbers fail.
#[derive(Drop)]
pub struct MemoryDisk {
    alloc: Global,
    calls: DiskCalls,
    writes: Vec<Write>,
    image: Vec<u8>,
}

impl Model for MemoryDisk {
    ghost use Rattle.disk_model.specs.Memory.{MemoryState};

    ghost Value = { MemoryState };

    ghost use Rattle.disk_model.specs.Memory.{IsRecorded};

    ghost view = { λ d. record { calls = d.calls; writes = d.writes.items } };

    ghost invariant = { λ d. IsRecorded d.calls.made d.writes.items d.image.items };
}

impl MemoryDisk {
    /// An empty disk, on which no call was made yet. It takes no memory.
    pub fn new(alloc: Global, fails: Seq<u64>) -> MemoryDisk
        ensures { result ≡ record { calls = record { fails = fails; made = 0; failed = 0 }; writes = [] } }
    {
        MemoryDisk {
            alloc,
            calls: DiskCalls {
                fails,
                made: 0,
                failed: 0,
            },
            writes: Vec::new(alloc),
            image: Vec::new(alloc),
        }
    }

    /// What reads give.
    pub fn bytes(&self) -> &[u8]
        ensures { result.now ≡ image_of self.now.writes }
    {
        &self.image
    }

    /// How many calls were made.
    pub fn calls(&self) -> u64
        ensures { result ≡ self.now.calls.made }
    {
        self.calls.made
    }

    /// The disk as a crash at this moment may leave it. Each digit of the pick, to base 4 and the last one first, says
    /// what is there of a write that no sync ended: 0 nothing, 1 all, 2 the first half, 3 as many bytes 1.
    pub fn crashed(&self, pick: u64) -> Result<MemoryDisk, NoMemory>
        ensures picked { IfOk result (λ d. d ≡ whole_disk (picked pick self.now.writes [])) }
        ensures possible { LeftAt self.now.calls.made self.now.writes [] (picked pick self.now.writes []) }
    {
        let image = picked_image(self.alloc, pick, &self.writes)?;
        let writes = whole_record(self.alloc, &image)?;
        Ok(MemoryDisk {
            alloc: self.alloc,
            calls: DiskCalls {
                fails: Seq::new(self.alloc),
                made: 0,
                failed: 0,
            },
            writes,
            image,
        })
    }

    /// Makes the next call, one that writes nothing and gives what there is.
    fn count_call(&mut self) -> Result<(), DiskFailed>
        ensures fails { is_err result ≡ is_next_failing self.old.calls }
        ensures state { self.new ≡ record self.old { calls = after_next self.old.calls } }
        ensures quiet { WritesNothing (memory_disk self.old) (memory_disk self.new) }
        ensures limit { length (image_of self.new.writes) ≤ disk_limit }
        ensures failures { CountsFailed self.old.calls.failed self.new.calls.failed result }
    {
        if self.calls.next() {
            return Err(DiskFailed);
        }
        Ok(())
    }

    /// Makes the next call, a sync. It ends well for each write that had no such sync yet.
    fn make_sync(&mut self) -> Result<(), DiskFailed>
        ensures fails { is_err result ≡ is_next_failing self.old.calls }
        ensures ok { OnOk result (self.new ≡ after_sync self.old) }
        ensures err { OnErr result (self.new ≡ record self.old { calls = after_failure self.old.calls }) }
        ensures was { AreWrites self.old.calls.made self.old.writes [] }
        ensures sound { AreWrites self.new.calls.made self.new.writes [] }
        ensures numbers { self.old.calls.made ≤ last_number }
        ensures later { self.old.calls.failed ≤ self.new.calls.failed }
    {
        if self.calls.next() {
            return Err(DiskFailed);
        }
        mark_synced(&mut self.writes, self.calls.made);
        Ok(())
    }

    /// Makes the next call, a write, and records it. The memory is taken first.
    fn make_write(&mut self, place: u64, bytes: &[u8]) -> Result<(), Or<DiskFailed>>
        requires { place ≤ length (image_of self.old.writes) }
        ensures exact { Writes place bytes.now self.old self.new result }
        ensures was { AreWrites self.old.calls.made self.old.writes [] }
        ensures sound { AreWrites self.new.calls.made self.new.writes [] }
        ensures numbers { self.old.calls.made ≤ last_number }
        ensures later { self.old.calls.failed ≤ self.new.calls.failed }
    {
        if self.calls.is_spent() || !is_within(place, bytes.len()) {
            self.calls.fail();
            return Err(Or::Why(DiskFailed));
        }
        let room = room_for_write(self.alloc, &mut self.writes, &self.image, place, bytes);
        let Ok((image, bytes)) = room else {
            self.calls.pass();
            return Err(Or::NoMemory);
        };
        let fails = self.calls.next();
        let write = Write {
            moment: self.calls.made,
            place,
            bytes,
            done: !fails,
            synced: None,
        };
        push_reserved(&mut self.writes, write);
        if fails {
            drop(image);
            return Err(Or::Why(DiskFailed));
        }
        self.image = image;
        Ok(())
    }
}

/// Takes the memory of a write: a place in the record, the bytes that the disk has after it, and a copy of what is
/// written.
fn room_for_write(
    alloc: Global,
    writes: &mut Vec<Write>,
    image: &[u8],
    place: u64,
    bytes: &[u8],
) -> Result<(Vec<u8>, Seq<u8>), NoMemory>
    ensures writes { writes.new.items ≡ writes.old.items }
    ensures room { OnOk result (vec_len writes.new + 1 ≤ vec_capacity writes.new) }
    ensures image { IfOk result (λ made. made.0.items ≡ patched place bytes.now image.now) }
    ensures bytes { IfOk result (λ made. made.1 ≡ bytes.now) }
{
    writes.reserve(1)?;
    let copy = Seq::of_bytes(alloc, bytes)?;
    let image = patched(alloc, image, place, bytes);
    match image {
        Ok(image) => Ok((image, copy)),
        Err(why) => Err(why),
    }
}

impl Disk for MemoryDisk {
    ghost disk = { memory_disk };

    ghost counts_now = { λ d since left le now. (d.calls.made, le, le_refl d.calls.made, now) };

    ghost only_now = { only_now };

    fn size(&mut self) -> Result<u64, DiskFailed>
        ensures size { IfOk result (λ size. size ≡ length (image_of self.old.writes)) }
        ensures limit { IfOk result (λ size. size ≤ disk_limit) }
        ensures fails { is_err result ≡ is_next_failing self.old.calls }
        ensures state { self.new ≡ record self.old { calls = after_next self.old.calls } }
        ensures quiet { WritesNothing (memory_disk self.old) (memory_disk self.new) }
        ensures failures { CountsFailed self.old.calls.failed self.new.calls.failed result }
    {
        self.count_call()?;
        Ok(self.image.len() as u64)
    }

    fn read_at(&mut self, place: u64, into: &mut [u8]) -> Result<(), DiskFailed>
        requires { place + length into.old ≤ length (image_of self.old.writes) }
        ensures bytes { OnOk result (into.new ≡ take (length into.old) (drop place (image_of self.old.writes))) }
        ensures fails { is_err result ≡ is_next_failing self.old.calls }
        ensures state { self.new ≡ record self.old { calls = after_next self.old.calls } }
        ensures quiet { WritesNothing (memory_disk self.old) (memory_disk self.new) }
        ensures failures { CountsFailed self.old.calls.failed self.new.calls.failed result }
    {
        self.count_call()?;
        let place = place as usize;
        into.copy_from_slice(&self.image[place..place + into.len()]);
        Ok(())
    }

    fn write_at(&mut self, place: u64, bytes: &[u8]) -> Result<(), Or<DiskFailed>>
        requires { place ≤ length (image_of self.old.writes) }
        ensures exact { Writes place bytes.now self.old self.new result }
        ensures written { OnOk result (image_of self.new.writes ≡ patched place bytes.now (image_of self.old.writes)) }
        ensures crash { Follows (Torn place (length bytes.now)) (memory_disk self.old).may_leave
            (memory_disk self.new).may_leave }
        ensures stays { MayStay (memory_disk self.new) }
        ensures time { Elapses (memory_disk self.old) (memory_disk self.new) }
        ensures failures { CountsFailure self.old.calls.failed self.new.calls.failed result }
    {
        self.make_write(place, bytes)
    }

    fn sync(&mut self) -> Result<(), DiskFailed>
        ensures ok { OnOk result (self.new ≡ after_sync self.old) }
        ensures err { OnErr result (self.new ≡ record self.old { calls = after_failure self.old.calls }) }
        ensures fails { is_err result ≡ is_next_failing self.old.calls }
        ensures durable { OnOk result (Only (image_of self.old.writes) (memory_disk self.new).may_leave) }
        ensures quiet { WritesNothing (memory_disk self.old) (memory_disk self.new) }
        ensures failures { CountsFailed self.old.calls.failed self.new.calls.failed result }
    {
        self.make_sync()
    }

    fn faults(&self) -> u64 {
        self.calls.failed
    }
}

/// Adds a write to the record, in room that is there.
fn push_reserved(writes: &mut Vec<Write>, write: Write)
    requires { vec_len writes.old + 1 ≤ vec_capacity writes.old }
    ensures { writes.new.items ≡ writes.old.items ++ write ∷ [] }
{
    if writes.push(write).is_err() {
        unreachable!();
    }
}

/// Sets the moment of the first sync after it in each write that has none.
fn mark_synced(writes: &mut Vec<Write>, moment: u64)
    ensures { writes.new.items ≡ map (synced_at moment) writes.old.items }
{
    for write in writes.iter_mut() {
        write.synced = write.synced.or(Some(moment));
    }
}

/// Whether a write at the place ends within the limit.
fn is_within(place: u64, count: usize) -> bool
    ensures { result ≡ nat_le (place + count) disk_limit }
{
    place <= DISK_LIMIT && count as u64 <= DISK_LIMIT - place
}

/// The record of a new disk with these bytes: one write, which is synced.
fn whole_record(alloc: Global, image: &[u8]) -> Result<Vec<Write>, NoMemory>
    ensures { IfOk result (λ writes. writes.items ≡ (whole_disk image.now).writes) }
{
    let bytes = Seq::of_bytes(alloc, image)?;
    let mut writes = Vec::new(alloc);
    writes.push(Write {
        moment: 0,
        place: 0,
        bytes,
        done: true,
        synced: Some(0),
    })?;
    Ok(writes)
}

/// The bytes over what was there.
fn patched(alloc: Global, old: &[u8], place: u64, bytes: &[u8]) -> Result<Vec<u8>, NoMemory>
    ensures { IfOk result (λ new. new.items ≡ patched place bytes.now old.now) }
{
    let place = place as usize;
    let end = place.saturating_add(bytes.len());
    let mut new = Vec::from_slice(alloc, &old[..place.min(old.len())])?;
    new.extend_from_slice(bytes)?;
    new.extend_from_slice(&old[end.min(old.len())..])?;
    Ok(new)
}

/// The bytes after a write that may have been cut short, by the last digit of a pick.
fn picked_write(alloc: Global, pick: u64, write: &Write, old: &[u8]) -> Result<Vec<u8>, NoMemory>
    ensures { IfOk result (λ new. new.items ≡ picked_write pick write.now old.now) }
{
    if write.synced.is_some() {
        return after_write(alloc, write, old);
    }
    if write.place > old.len() as u64 {
        return Ok(Vec::from_slice(alloc, old)?);
    }
    let bytes = picked_bytes(alloc, pick % 4, write.bytes.view())?;
    patched(alloc, old, write.place, &bytes)
}

/// The bytes after a write.
fn after_write(alloc: Global, write: &Write, old: &[u8]) -> Result<Vec<u8>, NoMemory>
    ensures { IfOk result (λ new. new.items ≡ after_write write.now old.now) }
{
    if write.done {
        patched(alloc, old, write.place, write.bytes.view())
    } else {
        Ok(Vec::from_slice(alloc, old)?)
    }
}

/// What a digit picks of the bytes of a write.
fn picked_bytes(alloc: Global, digit: u64, bytes: &[u8]) -> Result<Vec<u8>, NoMemory>
    ensures { IfOk result (λ picked. picked.items ≡ picked_bytes digit bytes.now) }
{
    match digit {
        0 => Ok(Vec::new(alloc)),
        1 => Ok(Vec::from_slice(alloc, bytes)?),
        2 => Ok(Vec::from_slice(alloc, &bytes[..bytes.len() / 2])?),
        _ => Ok(Vec::from_elem(alloc, 1, bytes.len())?),
    }
}

/// The bytes after these writes by a pick.
fn picked_image(alloc: Global, pick: u64, writes: &[Write]) -> Result<Vec<u8>, NoMemory>
    ensures { IfOk result (λ image. image.items ≡ picked pick writes.now []) }
{
    let mut image = Vec::new(alloc);
    let mut pick = pick;
    for write in writes {
        let next = picked_write(alloc, pick, write, &image)?;
        if write.synced.is_none() {
            pick /= 4;
        }
        image = next;
    }
    Ok(image)
}
