ghost use Rattle.std.specs.Prelude.{◌≡◌, IfOk};

use crate::boxed::Boxed;
use crate::memory::NoMemory;
use crate::seq::Seq;
use crate::text::Text;
use std::alloc::Global;

/// One kept row as bytes: the kind of the row, its key within that kind, and its body.
#[derive(Drop)]
pub struct Entry {
    pub kind: u8,
    pub key: Text,
    pub body: Seq<u8>,
}

/// One change of the kept entries. A `Put` replaces the entry of its kind and key, if there is one.
#[derive(Drop)]
pub enum EntryChange {
    Put(Boxed<Entry>),
    Remove { kind: u8, key: Text },
}

impl Entry {
    /// An entry of its own with the same parts.
    pub fn copy(&self, alloc: Global) -> Result<Entry, NoMemory>
        ensures { IfOk result (λ e. e ≡ self.now) }
    {
        let key = self.key.copy(alloc)?;
        let body = Seq::of_bytes(alloc, self.body.view())?;
        Ok(Entry {
            kind: self.kind,
            key,
            body,
        })
    }
}
