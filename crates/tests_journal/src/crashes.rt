//! Crashes after each call of a disk of which each call fails in turn, each by every pick.
use crate::rows::{KEYS, LAB, bit_of, commits, disk, loads, put, rows_after_crash};
use disk_model::MemoryDisk;
use journal_keeper::{JournalKeeper, commit_each};
use size_values::{EntryChange, Seq};
use std::alloc::Global;
use std::test::Fail;

/// What the file has after a load and a commit of the project `lab`.
const LAB_FILE: [u8; 51] =
    *b"\x01\0\0\0\0\0\0\0\x29\0\0\0\x01\x01\x01\0\0\0\x03lab\0\0\0\x18\x01\0\0\0\0\0\0\0\x01\0\0\0\x06user.a\0\0\0\x011\0";

/// As many picks as there are outcomes of two writes that no sync ended.
const PICKS: u64 = 16;

/// Whether the commit of one project leaves these bytes, by so many calls of the disk.
fn leaves_lab(alloc: Global) -> bool {
    let Some(disk) = disk(alloc, &[]) else {
        return false;
    };
    let mut keeper = JournalKeeper::over(alloc, disk);
    let done = loads(&mut keeper) && commits(alloc, &mut keeper, "lab", &LAB);
    let is_so = done && keeper.disk().bytes() == LAB_FILE.as_slice() && keeper.disk().calls() == 8;
    drop(keeper);
    is_so
}

#[test]
fn a_commit_leaves_a_record_and_a_closed_gate(rt: HostRuntime) -> Result<(), Fail> {
    assert!(rt; leaves_lab(rt.alloc()), "51 bytes by 8 calls");
    Ok(())
}

/// Whether each crash leaves what was acknowledged, and at most one of the rows in doubt.
fn leaves_only(alloc: Global, disk: &MemoryDisk, acknowledged: u64, doubts: u64) -> bool {
    for pick in 0..PICKS {
        match rows_after_crash(alloc, disk, pick) {
            Some(bits) => {
                let more = bits ^ acknowledged;
                let one = more == 0 || (more & doubts == more && more.count_ones() == 1);
                if bits & acknowledged != acknowledged || !one {
                    return false;
                }
            }
            None => return false,
        }
    }
    true
}

/// Whether a commit whose gate failed is in doubt until the next one, which makes six calls.
fn is_mended(alloc: Global) -> bool {
    let Some(disk) = disk(alloc, &[8]) else {
        return false;
    };
    let mut keeper = JournalKeeper::over(alloc, disk);
    let loaded = loads(&mut keeper);
    let failed = !commits(alloc, &mut keeper, "a", b"1") && keeper.disk().calls() == 8;
    let without = rows_after_crash(alloc, keeper.disk(), 0) == Some(0);
    let with = rows_after_crash(alloc, keeper.disk(), 1) == Some(1);
    let one_or_none = leaves_only(alloc, keeper.disk(), 0, 1);
    let second = commits(alloc, &mut keeper, "b", b"2") && keeper.disk().calls() == 14;
    let alone = leaves_only(alloc, keeper.disk(), 2, 0);
    drop(keeper);
    loaded && failed && without && with && one_or_none && second && alone
}

#[test]
fn an_unsure_gate_is_mended(rt: HostRuntime) -> Result<(), Fail> {
    assert!(rt; is_mended(rt.alloc()), "the second commit alone");
    Ok(())
}

/// Whether all crashes after each call leave what is promised, where the call of this number fails.
fn survives(alloc: Global, number: u64) -> bool {
    let Some(disk) = disk(alloc, &[number]) else {
        return false;
    };
    let mut keeper = JournalKeeper::over(alloc, disk);
    let loaded = loads(&mut keeper) || loads(&mut keeper);
    let mut all = loaded;
    let mut acknowledged = 0;
    let mut doubts = 0;
    for key in KEYS {
        if commits(alloc, &mut keeper, key, b"x") {
            acknowledged |= bit_of(key);
            doubts = 0;
        } else {
            doubts |= bit_of(key);
        }
        all = all && leaves_only(alloc, keeper.disk(), acknowledged, doubts);
    }
    drop(keeper);
    all
}

#[test]
fn each_call_fails_in_turn(rt: HostRuntime) -> Result<(), Fail> {
    for number in 1..24u64 {
        assert!(rt; survives(rt.alloc(), number), "one failing call");
    }
    Ok(())
}

/// Whether a commit before any load is refused without a call, and counted.
fn refuses_before_a_load(alloc: Global) -> bool {
    let Some(disk) = disk(alloc, &[]) else {
        return false;
    };
    let mut keeper = JournalKeeper::over(alloc, disk);
    let refused = !commits(alloc, &mut keeper, "a", b"1") && keeper.disk().calls() == 0;
    drop(keeper);
    refused
}

#[test]
fn a_commit_waits_for_a_load(rt: HostRuntime) -> Result<(), Fail> {
    assert!(rt; refuses_before_a_load(rt.alloc()), "no call of the disk");
    Ok(())
}

/// Whether two commits, of which the gate of the first fails, leave the second alone.
fn second_alone(alloc: Global) -> bool {
    let Some(disk) = disk(alloc, &[8]) else {
        return false;
    };
    let mut keeper = JournalKeeper::over(alloc, disk);
    let Some(commits) = two_commits(alloc) else {
        return false;
    };
    let mut answers = [false; 2];
    let loaded = loads(&mut keeper);
    let view = commits.view();
    if view.len() != answers.len() {
        return false;
    }
    commit_each(&mut keeper, view, &mut answers);
    let alone = leaves_only(alloc, keeper.disk(), 2, 0);
    drop(keeper);
    drop(commits);
    loaded && alone && !answers[0] && answers[1]
}

/// A commit of the first row, and one of the second.
fn two_commits(alloc: Global) -> Option<Seq<Seq<EntryChange>>> {
    let mut commits = Seq::new(alloc);
    for key in ["a", "b"] {
        match put(alloc, key, b"1") {
            Ok(changes) => {
                if commits.push(changes).is_err() {
                    return None;
                }
            }
            Err(_) => return None,
        }
    }
    Some(commits)
}

#[test]
fn commits_are_made_one_after_the_other(rt: HostRuntime) -> Result<(), Fail> {
    assert!(rt; second_alone(rt.alloc()), "the second commit");
    Ok(())
}
