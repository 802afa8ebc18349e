//! The head that was read last, since most heads of a connection are the same once more.
ghost use Rattle.std.specs.Prelude.{◌≡◌, ◌≤◌, Some, length, drop, IfOk, IfSome};
ghost use Rattle.http_heads.specs.Heads.{after_blank, head_len};
ghost use Rattle.http_heads.specs.Messages.{IsMessage};
ghost use Rattle.http_heads.specs.Readings.{Says};
ghost use Rattle.http_front.specs.Known.{plain_request};

use http_heads::{Head, Request, SpareTexts};
use size_values::{NoMemory, Seq, Text};
use std::alloc::Global;
use std::marker::Model;
use std::mem;

/// The head of a plain request that was read before, and what it said. Bytes that begin with this head begin with the
/// same request, so that they need not be read again.
#[derive(Drop)]
pub(crate) struct KnownHead {
    /// Empty where no head is known.
    head: Vec<u8>,
    method: Text,
    target: Text,
}

impl Model for KnownHead {
    ghost use Rattle.http_front.specs.Known.{Known, IsKnown};

    ghost Value = { Known };

    ghost view = { λ k. record { method = k.method; target = k.target } };

    ghost invariant = { λ k. IsKnown k.head.items (record { method = k.method; target = k.target }) };
}

impl KnownHead {
    /// No head is known.
    pub(crate) fn new(alloc: Global) -> KnownHead {
        KnownHead {
            head: Vec::new(alloc),
            method: Text::new(alloc),
            target: Text::new(alloc),
        }
    }

    /// The length of the known head, where the bytes begin with it.
    pub(crate) fn begins(&self, bytes: &[u8]) -> Option<usize>
        ensures within { IfSome result (λ len. len ≤ length bytes.now) }
        ensures is { IfSome result (λ len. IsMessage bytes.now (plain_request self.now) (drop len bytes.now)) }
    {
        if !self.head.is_empty() && bytes.starts_with(&self.head) {
            Some(self.head.len())
        } else {
            None
        }
    }

    /// The request with the known head, in the memory of one that is done with.
    pub(crate) fn request(&self, alloc: Global, spare: &mut SpareTexts) -> Result<Request, NoMemory>
        ensures { IfOk result (λ request. request ≡ plain_request self.now) }
    {
        spare.method.set(self.method.view())?;
        spare.target.set(self.target.view())?;
        Ok(Request {
            method: mem::replace(&mut spare.method, Text::new(alloc)),
            target: mem::replace(&mut spare.target, Text::new(alloc)),
            body: Seq::new(alloc),
            last: false,
            expects: false,
            upgrade: None,
            origin: false,
            if_match: None,
        })
    }

    /// Notes the head that these bytes are, if its request is plain. Where memory is refused, no head is known.
    pub(crate) fn note(&mut self, bytes: &[u8], head: &Head) -> Result<(), NoMemory>
        requires ends { head_len bytes.now ≡ Some (length bytes.now) }
        requires says { Says (after_blank bytes.now) head.now }
    {
        if head.body == 0
            && !head.last
            && head.upgrade.is_none()
            && !head.origin
            && head.if_match.is_none()
        {
            self.head.clear();
            self.method.set(head.method.view())?;
            self.target.set(head.target.view())?;
            self.head.extend_from_slice(bytes)?;
        }
        Ok(())
    }
}
