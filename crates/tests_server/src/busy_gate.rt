//! A gate that is busy while it idles: other links have their turns at the server then.
ghost use Rattle.std.specs.Prelude.{None};

use crate::links::{OwnGate, requests};
use row_machine::{Answer, Event};
use serve_loop::{Bell, Gate};
use std::alloc::Global;
use std::sync::Wait;

/// The first time it idles, a link makes its requests; then the worker goes on; and after so many times another
/// link changes a project again and again, so that events are lost. Where there are no requests, that begins at once.
const WORKED: u64 = 20;

/// One change more than there are events that the server keeps.
const CHANGES: u32 = 1025;

const CHANGE: &str =
    "PATCH /1.0/projects/default HTTP/1.1\r\nHost: localhost\r\nContent-Length: 25\r\n\r\n{\"description\":\"touched\"}";

/// Changes a project more often than events are kept.
fn change<T: Wait, G: Gate>(rt: &T, alloc: Global, gate: &mut G) {
    for _ in 0..CHANGES {
        requests(rt, alloc, gate, CHANGE);
    }
}

/// A gate beside whose turns a link makes these requests.
#[derive(Drop)]
pub(crate) struct BusyGate<T> {
    pub(crate) rt: T,
    pub(crate) alloc: Global,
    pub(crate) inner: OwnGate,
    pub(crate) requests: &'static str,
    pub(crate) made: u64,
    pub(crate) idles: u64,
}

impl<T: Wait> Gate for BusyGate<T> {
    ghost contents = { λ _. None };

    ghost turned = { λ g. g.made };

    ghost idled = { λ g. g.idles };

    fn turn(&mut self, event: Event) -> Answer {
        let answer = self.inner.turn(event);
        self.made = self.made.saturating_add(1);
        answer
    }

    fn idle(&mut self, bell: Bell) -> bool {
        if self.requests.is_empty() || self.idles >= WORKED {
            change(&self.rt, self.alloc, &mut self.inner);
        } else if self.idles == 0 {
            requests(&self.rt, self.alloc, &mut self.inner, self.requests);
        } else {
            self.inner.idle(bell);
        }
        self.idles = self.idles.saturating_add(1);
        true
    }

    fn made(&self) -> u64 {
        self.made
    }

    fn idles(&self) -> u64 {
        self.idles
    }
}
