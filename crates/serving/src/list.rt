ghost use Rattle.std.specs.Prelude.{◌≡◌, ◌^◌, ◌<◌, Some, false, is_ok, not};
ghost use Rattle.size_values.specs.Causes.{HasCause};
ghost use Rattle.size_values.specs.Calls.{after_call, is_next_failing, no_calls};
ghost use Rattle.serving.specs.Accepts.{Gives, Takes, seen_of};

use crate::door::{Doors, DoorsFailed};
use crate::link::Link;
use http_front::{Sink, Source};
use size_values::{FailingCalls, Seq};
use std::marker::Model;

/// Doors over a list of links. The accepts are numbered from 1, and those of the listed numbers fail, and no others.
#[derive(Drop)]
pub struct ListDoors<S, K> {
    links: Seq<Link<S, K>>,
    given: u64,
    none_left: bool,
    calls: FailingCalls,
}

impl<S, K> Model for ListDoors<S, K> {
    ghost use Rattle.serving.specs.declared.link.Link.{Link};
    ghost use Rattle.serving.specs.Accepts.{Listed};

    ghost Value = { Listed (Link S K) };

    ghost view = { λ d. record { links = d.links; given = d.given; none_left = d.none_left; calls = d.calls } };
}

impl<S, K> ListDoors<S, K> {
    /// Doors that have these links left, and have given none.
    pub fn new(links: Seq<Link<S, K>>, fails: Seq<u64>) -> ListDoors<S, K>
        ensures { result ≡ record { links = links; given = 0; none_left = false; calls = no_calls fails } }
    {
        ListDoors {
            links,
            given: 0,
            none_left: false,
            calls: FailingCalls::new(fails),
        }
    }
}

impl<S: Source + Drop, K: Sink + Drop> Doors for ListDoors<S, K> {
    type Source = S;

    type Sink = K;

    ghost seen = { seen_of };

    ghost left = { λ d. Some d.links };

    fn accept(&mut self) -> Result<Option<Link<S, K>>, DoorsFailed>
        requires few { self.old.given < 2 ^ 63 }
        ensures gives { Gives (seen_of self.old) (seen_of self.new) result }
        ensures takes { Takes (Some self.old.links) (Some self.new.links) result }
        ensures cause { HasCause self.old.calls.failed self.new.calls.failed result }

        // Which accept fails.
        ensures fails { is_ok result ≡ not (is_next_failing self.old.calls) }
        ensures calls { self.new.calls ≡ after_call self.old.calls }
    {
        if self.calls.next() {
            return Err(DoorsFailed);
        }
        let link = self.links.take_first();
        match &link {
            Some(_) => self.given += 1,
            None => self.none_left = true,
        }
        Ok(link)
    }

    fn given(&self) -> u64 {
        self.given
    }

    fn faults(&self) -> u64 {
        self.calls.failed()
    }
}
