//! Links in memory.
ghost use Rattle.std.specs.Prelude.{◌≡◌, IfOk};

use http_front::{ByteSink, ByteSource};
use serving::{DoorKind, Doors, Link, ListDoors};
use size_values::{NoMemory, Seq};
use std::alloc::Global;

/// A link that gives so many bytes, three at most at each read.
pub(crate) fn link(alloc: Global, count: usize) -> Result<Link<ByteSource, ByteSink>, NoMemory> {
    let bytes = vec![in alloc; 7u8; count]?;
    Ok(Link {
        door: DoorKind::Port,
        source: ByteSource::new(Seq::from_vec(bytes), 3, Seq::new(alloc)),
        sink: ByteSink::new(alloc, Seq::new(alloc)),
    })
}

/// Doors with so many links, the first of which gives one byte, the next two, and so on. The listed accepts fail.
pub(crate) fn doors(
    alloc: Global,
    count: usize,
    fails: &[u64],
) -> Result<ListDoors<ByteSource, ByteSink>, NoMemory>
    ensures { IfOk result (λ d. d.given ≡ 0) }
{
    let mut links = Vec::new(alloc);
    for place in 0..count {
        links.push(link(alloc, place + 1)?)?;
    }
    Ok(ListDoors::new(Seq::from_vec(links), numbers(alloc, fails)?))
}

pub(crate) fn numbers(alloc: Global, numbers: &[u64]) -> Result<Seq<u64>, NoMemory> {
    let mut all = Seq::new(alloc);
    for number in numbers {
        all.push(*number)?;
    }
    Ok(all)
}
