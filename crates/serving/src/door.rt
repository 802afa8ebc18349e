ghost use Rattle.std.specs.Prelude.{◌≡◌, ℕ, ◌^◌, ◌<◌, List, Option};
ghost use Rattle.size_values.specs.Causes.{HasCause};
ghost use Rattle.serving.specs.declared.link.Link.{Link};
ghost use Rattle.serving.specs.Accepts.{Gives, Seen, Takes};

use crate::link::Link;
use http_front::{Sink, Source};
use thiserror::Error;

/// The doors did not give the next link.
#[derive(Clone, Copy, Debug, PartialEq, Eq, Error)]
#[error("the doors failed")]
pub struct DoorsFailed;

/// Where links come from, one after the other.
pub trait Doors {
    type Source: Source + Drop;

    type Sink: Sink + Drop;

    // What all doors tell.
    ghost seen: { Self → Seen };

    // The links to come, where the doors tell them.
    ghost left: { Self → Option (List (Link Self.Source Self.Sink)) };

    /// Waits for the next link; None where there will be none. A link whose other end is gone is a link all the
    /// same: it is its source or its sink that fails.
    fn accept(&mut self) -> Result<Option<Link<Self::Source, Self::Sink>>, DoorsFailed>
        requires few { (seen self.old).given < 2 ^ 63 }
        ensures gives { Gives (seen self.old) (seen self.new) result }
        ensures takes { Takes (left self.old) (left self.new) result }
        ensures cause { HasCause (seen self.old).failed (seen self.new).failed result };

    /// How many links were given.
    fn given(&self) -> u64
        ensures { result ≡ (seen self.now).given };

    /// How many accepts failed; the count stops at 2^64 - 1.
    fn faults(&self) -> u64
        ensures { result ≡ (seen self.now).failed };
}
