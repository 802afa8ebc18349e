//! Entity tags of rows.
ghost use Rattle.std.specs.Prelude.{◌≡◌, IfOk, string_bytes};
ghost use Rattle.hex.specs.Hex.{encode_lower};
ghost use Rattle.sha2.specs.Sha256.{sha256};
ghost use Rattle.records.specs.AnyRows.{row_in};
ghost use Rattle.row_codec.specs.Tags.{quoted, tag_of};

use crate::sizes::size_of;
use crate::writing::put_body;
use records::AnyRow;
use sha2::{Digest, Sha256};
use size_values::{NoMemory, Text};
use std::alloc::Global;

/// The most bytes that the body of a kept row has.
const LARGEST_BODY: u64 = 65_536;

/// The digest of the bytes as an entity tag.
fn tag_over(alloc: Global, body: &[u8]) -> Result<Text, NoMemory>
    ensures { IfOk result (λ tag. tag ≡ quoted (encode_lower (sha256 body.now))) }
{
    let digits = hex::encode(alloc, Sha256::digest(body))?;
    let mut tag = String::from_str(alloc, "\"")?;
    tag.push_str(digits.as_str())?;
    tag.push_str("\"")?;
    Ok(Text::from_string(tag))
}

/// The entity tag of a row (RFC 9110, section 8.8.3), with its quotes: the SHA-256 of the body of its entry in
/// hexadecimal digits. A row whose body has more than 65,536 bytes, which is none that is kept, has none.
#[tactic(auto, using(crate::proofs::TagSizes::sized_is_short, crate::proofs::TagSizes::tag_of_small, crate::proofs::TagSizes::tag_of_large))]
pub fn tag_of(alloc: Global, row: AnyRow<'_>) -> Result<Option<Text>, NoMemory>
    ensures { IfOk result (λ tag. tag ≡ tag_of (row_in row.entry)) }
{
    if size_of(row) > LARGEST_BODY {
        return Ok(None);
    }
    let mut body = Vec::new(alloc);
    put_body(&mut body, row)?;
    Ok(Some(tag_over(alloc, body.as_slice())?))
}
