//! The ids of operations: UUIDs of version 8 that hold the boot word and the number of the operation.
ghost use Rattle.std.specs.Prelude.{◌≡◌, IfOk};
ghost use Rattle.rest_json.specs.Ids.{high_half, low_half, id_bytes, id_text, operation_url, number_in};
ghost use Rattle.rest_json.specs.Ids.{number_in_bytes, number_of};

use size_values::{NoMemory, Text};
use std::alloc::Global;
use uuid::Uuid;

/// The first 64 bits of the ids of a boot: 48 bits of the boot word, the version 8, and 12 zero bits.
#[tactic(auto, unfolding(crate::specs::Ids::high_half))]
fn high_half(boot: u64) -> u64
    ensures { result ≡ high_half boot }
{
    (boot % 0x1_0000_0000_0000) * 0x1_0000 + 0x8000
}

/// The last 64 bits of the id of a number: the two bits of the variant, and 62 bits of the number.
#[tactic(auto, unfolding(crate::specs::Ids::low_half))]
fn low_half(number: u64) -> u64
    ensures { result ≡ low_half number }
{
    0x8000_0000_0000_0000 + number % 0x4000_0000_0000_0000
}

#[tactic(auto, unfolding(crate::specs::Ids::id_bytes))]
fn id_of(boot: u64, number: u64) -> Uuid
    ensures { result ≡ id_bytes boot number }
{
    Uuid::from_u64_pair(high_half(boot), low_half(number))
}

/// The id of an operation, from the boot word and the operation's number. The number is told by its low 62 bits,
/// and the boot word by its low 48 bits.
#[tactic(auto, unfolding(crate::specs::Ids::id_text))]
pub fn id_text(alloc: Global, boot: u64, number: u64) -> Result<Text, NoMemory>
    ensures { IfOk result (λ t. t ≡ id_text boot number) }
{
    let id = id_of(boot, number).hyphenated();
    let mut buffer = Uuid::encode_buffer();
    let text = id.encode_lower(&mut buffer);
    Text::from_text(alloc, text)
}

/// The URL of an operation.
#[tactic(auto, unfolding(crate::specs::Ids::operation_url))]
pub fn operation_url(alloc: Global, boot: u64, number: u64) -> Result<Text, NoMemory>
    ensures { IfOk result (λ t. t ≡ operation_url boot number) }
{
    let id = id_text(alloc, boot, number)?;
    let mut url = String::from_str(alloc, "/1.0/operations/")?;
    url.push_str(id.view())?;
    Ok(Text::from_string(url))
}

/// The number that the halves of an id name, where it is an id of this boot.
#[tactic(auto, unfolding(crate::specs::Ids::number_in))]
fn number_in(boot: u64, high: u64, low: u64) -> Option<u64>
    ensures { result ≡ number_in boot high low }
{
    let from = 0x8000_0000_0000_0000;
    if high == high_half(boot) && from <= low && low < 0xC000_0000_0000_0000 {
        Some(low - from)
    } else {
        None
    }
}

#[tactic(auto, unfolding(crate::specs::Ids::number_in_bytes))]
fn number_in_bytes(boot: u64, id: Uuid) -> Option<u64>
    ensures { result ≡ number_in_bytes boot id }
{
    let (high, low) = id.as_u64_pair();
    number_in(boot, high, low)
}

/// The number of the operation that a text names: the text is an id of this boot in any form of a UUID, plain,
/// with hyphens, with braces or with `urn:uuid:`, in either case.
#[tactic(auto, unfolding(crate::specs::Ids::number_of))]
pub fn number_of(text: &str, boot: u64) -> Option<u64>
    ensures { result ≡ number_of text.now boot }
{
    match Uuid::parse_str(text) {
        Ok(id) => number_in_bytes(boot, id),
        Err(_) => None,
    }
}
