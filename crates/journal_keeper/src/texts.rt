//! The text of a commit, read from left to right and written at the end of bytes.
ghost use Rattle.std.specs.Prelude.{◌≡◌, ◌++◌, List, length, OnOk, IfOk, true};
ghost use Rattle.std.specs.List.{AllByRecursion, list_all};
ghost use Rattle.std.specs.Str.{IsUtf8};
ghost use Rattle.journal_keeper.specs.Texts.{Gives, IsRead, count_at, part_at, key_at, put_at, removal_at, change_at};
ghost use Rattle.journal_keeper.specs.Texts.{changes_at, commit_of, part_bytes, change_bytes, commit_text, added};
ghost use Rattle.journal_keeper.specs.Texts.{is_short, is_short_change, is_short_commit, IsTypedChange};
ghost use Rattle.size_values.specs.declared.memory.Or.TheVariants as or;

use size_values::{Boxed, Entry, EntryChange, NoMemory, Or, Seq, Text};
use std::alloc::Global;

/// The bytes are not the text of a commit.
#[derive(Clone, Copy)]
pub struct BadText;

#[tactic(auto, unfolding(crate::specs::Texts::count_at))]
fn count_at(bytes: &[u8]) -> Result<(u32, &[u8]), BadText>
    ensures { IsRead (λ x. (x.0, x.1.now)) result (count_at bytes.now) }
{
    if bytes.len() < 4 {
        return Err(BadText);
    }
    let (front, rest) = bytes.split_at(4);
    let count = u32::from_be_bytes([front[0], front[1], front[2], front[3]]);
    Ok((count, rest))
}

#[tactic(auto, unfolding(crate::specs::Texts::part_at))]
fn part_at(bytes: &[u8]) -> Result<(&[u8], &[u8]), BadText>
    ensures { IsRead (λ x. (x.0.now, x.1.now)) result (part_at bytes.now) }
{
    let (len, rest) = count_at(bytes)?;
    let len = len as usize;
    if rest.len() < len {
        return Err(BadText);
    }
    Ok(rest.split_at(len))
}

#[tactic(auto, using(crate::proofs::Utf8::utf8_passes, crate::proofs::Utf8::other_fails), unfolding(crate::specs::Texts::key_at))]
fn key_at(bytes: &[u8]) -> Result<(&str, &[u8]), BadText>
    ensures { IsRead (λ x. (x.0.now, x.1.now)) result (key_at bytes.now) }
{
    let (part, rest) = part_at(bytes)?;
    match str::from_utf8(part) {
        Ok(key) => Ok((key, rest)),
        Err(_) => Err(BadText),
    }
}

/// The entry, in memory of its own.
fn entry(alloc: Global, kind: u8, key: &str, body: &[u8]) -> Result<Boxed<Entry>, NoMemory>
    ensures { IfOk result (λ e. e ≡ record { kind = kind; key = key.now; body = body.now }) }
{
    let key = Text::from_text(alloc, key)?;
    let body = Seq::of_bytes(alloc, body)?;
    Boxed::new(alloc, Entry { kind, key, body })
}

#[tactic(auto, unfolding(crate::specs::Texts::put_at))]
fn put_at(alloc: Global, kind: u8, bytes: &[u8]) -> Result<(EntryChange, &[u8]), Or<BadText>>
    ensures { Gives (λ x. (x.0, x.1.now)) result (put_at kind bytes.now) }
{
    let (key, rest) = key_at(bytes)?;
    let (body, rest) = part_at(rest)?;
    let entry = entry(alloc, kind, key, body)?;
    Ok((EntryChange::Put(entry), rest))
}

#[tactic(auto, unfolding(crate::specs::Texts::removal_at))]
fn removal_at(alloc: Global, kind: u8, bytes: &[u8]) -> Result<(EntryChange, &[u8]), Or<BadText>>
    ensures { Gives (λ x. (x.0, x.1.now)) result (removal_at kind bytes.now) }
{
    let (key, rest) = key_at(bytes)?;
    let key = Text::from_text(alloc, key)?;
    Ok((EntryChange::Remove { kind, key }, rest))
}

#[tactic(auto, unfolding(crate::specs::Texts::change_at))]
fn change_at(alloc: Global, bytes: &[u8]) -> Result<(EntryChange, &[u8]), Or<BadText>>
    ensures { Gives (λ x. (x.0, x.1.now)) result (change_at bytes.now) }
{
    match bytes {
        [1, kind, rest @ ..] => put_at(alloc, *kind, rest),
        [0, kind, rest @ ..] => removal_at(alloc, *kind, rest),
        _ => Err(Or::Why(BadText)),
    }
}

/// Reads one more change.
fn add_change<'b>(
    alloc: Global,
    changes: &mut Seq<EntryChange>,
    bytes: &'b [u8],
) -> Result<&'b [u8], Or<BadText>>
    ensures { Gives (λ rest. (changes.new, rest.now)) result (added changes.old (change_at bytes.now)) }
{
    let (change, rest) = change_at(alloc, bytes)?;
    changes.push(change)?;
    Ok(rest)
}

fn changes_at(
    alloc: Global,
    count: u32,
    bytes: &[u8],
) -> Result<(Seq<EntryChange>, &[u8]), Or<BadText>>
    ensures { Gives (λ x. (x.0, x.1.now)) result (changes_at count bytes.now) }
{
    let mut changes = Seq::new(alloc);
    let mut rest = bytes;
    for _ in 0..count {
        rest = add_change(alloc, &mut changes, rest)?;
    }
    Ok((changes, rest))
}

/// The commit that a text spells.
#[tactic(auto, unfolding(crate::specs::Texts::commit_of))]
pub fn commit_of(alloc: Global, text: &[u8]) -> Result<Seq<EntryChange>, Or<BadText>>
    ensures { Gives (λ changes. changes) result (commit_of text.now) }
{
    let (count, rest) = count_at(text)?;
    let (changes, rest) = changes_at(alloc, count, rest)?;
    if rest.is_empty() {
        Ok(changes)
    } else {
        drop(changes);
        Err(Or::Why(BadText))
    }
}

impl From<BadText> for Or<BadText> {
    ghost from_gives = { λ bad e. e ≡ or.Why bad };

    fn from(bad: BadText) -> Self {
        Or::Why(bad)
    }
}

/// The first length that a part or a list of changes may not have.
const TOO_LONG: usize = 1 << 32;

fn is_short_change(change: &EntryChange) -> bool
    ensures { result ≡ is_short_change change.now }
{
    match change {
        EntryChange::Put(entry) => {
            entry.key.view().len() < TOO_LONG && entry.body.len() < TOO_LONG
        }
        EntryChange::Remove { kind: _, key } => key.view().len() < TOO_LONG,
    }
}

/// Whether the changes can be written as the text of a commit.
pub fn is_short_commit(changes: &[EntryChange]) -> bool
    ensures { result ≡ is_short_commit changes.now }
{
    for change in changes {
        if !is_short_change(change) {
            return false;
        }
    }
    changes.len() < TOO_LONG
}

/// A key or a body: its length as four bytes, and its bytes.
#[tactic(auto, unfolding(crate::specs::Texts::part_bytes))]
fn put_part(out: &mut Vec<u8>, part: &[u8]) -> Result<(), NoMemory>
    requires { is_short part.now ≡ true }
    ensures { OnOk result (out.new.items ≡ out.old.items ++ part_bytes part.now) }
{
    out.extend_from_slice(&(part.len() as u32).to_be_bytes())?;
    out.extend_from_slice(part)?;
    Ok(())
}

/// A key, as a part.
fn put_key(out: &mut Vec<u8>, key: &Text) -> Result<(), NoMemory>
    requires { is_short key.now ≡ true }
    ensures bytes { OnOk result (out.new.items ≡ out.old.items ++ part_bytes key.now) }
    ensures utf8 { IsUtf8 key.now }
{
    put_part(out, key.view().as_bytes())
}

/// One change.
#[tactic(auto, unfolding(crate::specs::Texts::change_bytes))]
fn put_change(out: &mut Vec<u8>, change: &EntryChange) -> Result<(), NoMemory>
    requires { is_short_change change.now ≡ true }
    ensures bytes { OnOk result (out.new.items ≡ out.old.items ++ change_bytes change.now) }
    ensures typed { OnOk result (IsTypedChange change.now) }
{
    match change {
        EntryChange::Put(entry) => {
            out.extend_from_slice(&[1, entry.kind])?;
            put_key(out, &entry.key)?;
            put_part(out, entry.body.view())
        }
        EntryChange::Remove { kind, key } => {
            out.extend_from_slice(&[0, *kind])?;
            put_key(out, key)
        }
    }
}

/// The text of a commit.
#[tactic(auto, unfolding(crate::specs::Texts::commit_text))]
pub fn put_commit(out: &mut Vec<u8>, changes: &[EntryChange]) -> Result<(), NoMemory>
    requires { is_short_commit changes.now ≡ true }
    ensures bytes { OnOk result (out.new.items ≡ out.old.items ++ commit_text changes.now) }
    ensures typed { OnOk result (AllByRecursion IsTypedChange changes.now) }
{
    out.extend_from_slice(&(changes.len() as u32).to_be_bytes())?;
    for change in changes {
        put_change(out, change)?;
    }
    Ok(())
}
