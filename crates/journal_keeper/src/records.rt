//! Records of a journal: one is written before it is opened, and those of a file are read from left to right.
ghost use Rattle.std.specs.Prelude.{◌≡◌, ◌<◌, ◌^◌, [], ◌∷◌, ◌++◌, ℕ, List, length, true, IfOk, OnOk, IfErr};
ghost use Rattle.record_keeper.specs.Entries.{after_changes, IsOrderedEntries};
ghost use Rattle.journal_keeper.specs.Texts.{Commit, Gives, is_short_commit};
ghost use Rattle.journal_keeper.specs.Chain.{size_at, size_bytes, behind_open, record_at, rows_of, HasBadRecord};
ghost use Rattle.journal_keeper.specs.Keeping.{IsClosed, IsBlock, OnBad, IsSeen};

use crate::texts::{BadText, commit_of, put_commit};
use record_keeper::{Keeper, KeeperFailed, MapKeeper};
use size_values::{Entry, EntryChange, NoMemory, Or, Seq};
use std::alloc::Global;

/// What a commit writes behind a closed gate: the size of its text, the text, and the next gate, which is closed.
pub fn block_of(alloc: Global, changes: &Seq<EntryChange>) -> Result<Vec<u8>, NoMemory>
    requires { is_short_commit changes.now ≡ true }
    ensures { IfOk result (λ block. IsBlock block.items changes.now) }
{
    let mut text = Vec::new(alloc);
    put_commit(&mut text, changes.view())?;
    block_around(alloc, &text)
}

/// A text with its size before it and a closed gate behind it.
#[tactic(auto, unfolding(crate::specs::Chain::size_bytes))]
fn block_around(alloc: Global, text: &[u8]) -> Result<Vec<u8>, NoMemory>
    ensures block { IfOk result (λ block. block.items ≡ (size_bytes (length text.now) ++ text.now) ++ 0 ∷ []) }
    ensures fits { length text.now < 2 ^ 64 }
{
    let mut block = Vec::new(alloc);
    block.extend_from_slice(&(text.len() as u64).to_be_bytes())?;
    block.extend_from_slice(text)?;
    block.push(0)?;
    Ok(block)
}

#[tactic(auto, unfolding(crate::specs::Chain::size_at))]
fn size_at(bytes: &[u8]) -> Option<(u64, &[u8])>
    ensures { IsSeen (λ x. (x.0, x.1.now)) result (size_at bytes.now) }
{
    if bytes.len() < 8 {
        return None;
    }
    let (front, rest) = bytes.split_at(8);
    let size = u64::from_be_bytes([
        front[0], front[1], front[2], front[3], front[4], front[5], front[6], front[7],
    ]);
    Some((size, rest))
}

/// The record behind an open gate: its changes, and the bytes after it.
#[tactic(auto, unfolding(crate::specs::Chain::record_at, crate::specs::Chain::sized_at))]
fn record_at(alloc: Global, bytes: &[u8]) -> Result<(Seq<EntryChange>, &[u8]), Or<BadText>>
    ensures { Gives (λ x. (x.0, x.1.now)) result (record_at bytes.now) }
{
    let Some((size, rest)) = size_at(bytes) else {
        return Err(Or::Why(BadText));
    };
    if size >= rest.len() as u64 {
        return Err(Or::Why(BadText));
    }
    let (text, after) = rest.split_at(size as usize);
    let changes = commit_of(alloc, text)?;
    Ok((changes, after))
}

/// Makes the changes of one commit, in a keeper of which no call fails.
fn add_commit(rows: &mut MapKeeper, changes: Seq<EntryChange>) -> Result<(), NoMemory>
    requires { rows.old.calls.fails ≡ [] }
    ensures ok { OnOk result (rows.new.entries ≡ after_changes changes rows.old.entries) }
    ensures fails { rows.new.calls.fails ≡ [] }
{
    match rows.commit(&changes) {
        Ok(()) => Ok(()),
        Err(Or::NoMemory) => Err(NoMemory),
        Err(Or::Why(KeeperFailed)) => unreachable!(),
    }
}

/// What stands behind the gate at the front, where it is open.
#[tactic(auto, unfolding(crate::specs::Chain::behind_open))]
fn behind_open(bytes: &[u8]) -> Option<&[u8]>
    ensures { IsSeen (λ x. x.now) result (behind_open bytes.now) }
{
    match bytes {
        [1, behind @ ..] => Some(behind),
        _ => None,
    }
}

/// Makes the changes of all records of a file, one after the other, and gives the place of the gate behind them, or
/// that of a bad open record.
fn read_records(alloc: Global, rows: &mut MapKeeper, file: &[u8]) -> Result<u64, Or<u64>>
    requires some { 0 < length file.now }
    requires fails { rows.old.calls.fails ≡ [] }
    requires empty { rows.old.entries ≡ [] }
    ensures ok { IfOk result (λ place. (commits : List Commit) × IsClosed place commits file.now
        × (rows.new.entries ≡ rows_of commits)) }
    ensures bad { OnBad result (HasBadRecord file.now) }
    ensures fails { rows.new.calls.fails ≡ [] }
{
    let mut rest = file;
    while let Some(behind) = behind_open(rest) {
        match record_at(alloc, behind) {
            Ok((changes, after)) => {
                add_commit(rows, changes)?;
                rest = after;
            }
            Err(Or::NoMemory) => return Err(Or::NoMemory),
            Err(Or::Why(BadText)) => return Err(Or::Why((file.len() - rest.len()) as u64)),
        }
    }
    Ok((file.len() - rest.len()) as u64)
}

/// The entries that the commits of a file leave, and the place of the gate behind the last of them; or the place of a
/// bad open record.
pub fn read_chain(alloc: Global, file: &[u8]) -> Result<(Seq<Entry>, u64), Or<u64>>
    requires { 0 < length file.now }
    ensures ok { IfOk result (λ x. (commits : List Commit) × IsClosed x.1 commits file.now × (x.0 ≡ rows_of commits)) }
    ensures ordered { IfOk result (λ x. IsOrderedEntries x.0) }
    ensures bad { OnBad result (HasBadRecord file.now) }
{
    let mut rows = MapKeeper::new(alloc, Seq::new(alloc));
    let place = read_records(alloc, &mut rows, file)?;
    match rows.load() {
        Ok(entries) => Ok((entries, place)),
        Err(Or::NoMemory) => Err(Or::NoMemory),
        Err(Or::Why(KeeperFailed)) => unreachable!(),
    }
}
