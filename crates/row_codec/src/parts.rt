//! Numbers, codes and texts, read from the front of bytes: each reader gives the part and the bytes after it.
ghost use Rattle.std.specs.Prelude.{◌≡◌, List, length};
ghost use Rattle.row_codec.specs.FieldReading.{Gives, IsRead, count_at, number_at, moment_at, code_at, boolean_of};
ghost use Rattle.row_codec.specs.FieldReading.{instance_kind_of, driver_of, text_at};

use crate::unreadable::Unreadable;
use config_lists::{Config, Devices};
use records::Driver;
use size_values::{Kind, MOMENT_LIMIT, Or, Seq, Text};
use std::alloc::Global;

/// The lists that instances and snapshots have in common.
#[derive(Drop)]
pub struct Shape {
    pub profiles: Seq<Text>,
    pub config: Config,
    pub devices: Devices,
}

/// The bytes from here on cannot be read.
pub fn stops_at(bytes: &[u8]) -> Unreadable
    ensures { result ≡ record { left = length bytes.now } }
{
    Unreadable { left: bytes.len() }
}

#[tactic(auto, unfolding(crate::specs::FieldReading::count_at))]
pub(crate) fn count_at(bytes: &[u8]) -> Result<(u32, &[u8]), Unreadable>
    ensures { IsRead (λ x. (x.0, x.1.now)) result (count_at bytes.now) }
{
    if bytes.len() < 4 {
        return Err(stops_at(bytes));
    }
    let (front, rest) = bytes.split_at(4);
    let count = u32::from_be_bytes([front[0], front[1], front[2], front[3]]);
    Ok((count, rest))
}

#[tactic(auto, unfolding(crate::specs::FieldReading::number_at))]
fn number_at(bytes: &[u8]) -> Result<(u64, &[u8]), Unreadable>
    ensures { IsRead (λ x. (x.0, x.1.now)) result (number_at bytes.now) }
{
    if bytes.len() < 8 {
        return Err(stops_at(bytes));
    }
    let (front, rest) = bytes.split_at(8);
    let number = u64::from_be_bytes([
        front[0], front[1], front[2], front[3], front[4], front[5], front[6], front[7],
    ]);
    Ok((number, rest))
}

/// A moment: eight bytes, and below the bound.
#[tactic(auto, unfolding(crate::specs::FieldReading::moment_at))]
pub fn moment_at(bytes: &[u8]) -> Result<(u64, &[u8]), Unreadable>
    ensures { IsRead (λ x. (x.0, x.1.now)) result (moment_at bytes.now) }
{
    let (moment, rest) = number_at(bytes)?;
    if moment < MOMENT_LIMIT {
        Ok((moment, rest))
    } else {
        Err(stops_at(bytes))
    }
}

/// A boolean, as one byte.
#[tactic(auto, unfolding(crate::specs::FieldReading::code_at))]
pub fn boolean_at(bytes: &[u8]) -> Result<(bool, &[u8]), Unreadable>
    ensures { IsRead (λ x. (x.0, x.1.now)) result (code_at boolean_of bytes.now) }
{
    match bytes {
        [0, rest @ ..] => Ok((false, rest)),
        [1, rest @ ..] => Ok((true, rest)),
        _ => Err(stops_at(bytes)),
    }
}

/// The kind of an instance, as one byte.
#[tactic(auto, unfolding(crate::specs::FieldReading::code_at))]
pub fn kind_at(bytes: &[u8]) -> Result<(Kind, &[u8]), Unreadable>
    ensures { IsRead (λ x. (x.0, x.1.now)) result (code_at instance_kind_of bytes.now) }
{
    match bytes {
        [0, rest @ ..] => Ok((Kind::Container, rest)),
        [1, rest @ ..] => Ok((Kind::Machine, rest)),
        _ => Err(stops_at(bytes)),
    }
}

/// The driver of a pool, as one byte.
#[tactic(auto, unfolding(crate::specs::FieldReading::code_at))]
pub fn driver_at(bytes: &[u8]) -> Result<(Driver, &[u8]), Unreadable>
    ensures { IsRead (λ x. (x.0, x.1.now)) result (code_at driver_of bytes.now) }
{
    match bytes {
        [0, rest @ ..] => Ok((Driver::Dir, rest)),
        [1, rest @ ..] => Ok((Driver::Btrfs, rest)),
        [2, rest @ ..] => Ok((Driver::Lvm, rest)),
        [3, rest @ ..] => Ok((Driver::Zfs, rest)),
        _ => Err(stops_at(bytes)),
    }
}

/// A text, which stays borrowed from the bytes.
#[tactic(auto, using(crate::proofs::Texts::utf8_passes, crate::proofs::Texts::other_fails), unfolding(crate::specs::FieldReading::text_at))]
pub fn str_at(bytes: &[u8]) -> Result<(&str, &[u8]), Unreadable>
    ensures { IsRead (λ x. (x.0.now, x.1.now)) result (text_at bytes.now) }
{
    let (len, rest) = count_at(bytes)?;
    let len = len as usize;
    if rest.len() < len {
        return Err(stops_at(bytes));
    }
    let (text, rest) = rest.split_at(len);
    match str::from_utf8(text) {
        Ok(text) => Ok((text, rest)),
        Err(_) => Err(stops_at(bytes)),
    }
}

pub(crate) fn text_at(alloc: Global, bytes: &[u8]) -> Result<(Text, &[u8]), Or<Unreadable>>
    ensures { Gives (λ x. (x.0, x.1.now)) result (text_at bytes.now) }
{
    let (text, rest) = str_at(bytes)?;
    Ok((Text::from_text(alloc, text)?, rest))
}
