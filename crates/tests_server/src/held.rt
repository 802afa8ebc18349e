//! A gate and a host that hold on to what they have longer than they should.
ghost use Rattle.std.specs.Prelude.{None};

use host_model::{Host, HostCall, HostFailed};
use row_machine::{Answer, Event};
use serve_loop::{Bell, Gate};
use size_values::Or;
use std::alloc::Global;
use std::sync::atomic::{AtomicBool, AtomicU64, Ordering};
use std::sync::{Arc, Wait};
use std::thread;
use std::time::{Clock, Duration};

/// A gate that may share a word with others. Where it `holds`, it takes its turns by that word alone, and keeps it from
/// a turn that hands out a call up to its next turn, as a server does whose lock is held during calls of the host.
#[derive(Drop)]
pub(crate) struct HoldingGate<G, T> {
    pub(crate) rt: T,
    pub(crate) word: Arc<AtomicBool, Global>,
    pub(crate) holds: bool,
    pub(crate) is_held: bool,
    pub(crate) inner: G,
}

/// Waits until the word is free, and takes it.
fn take<T: Wait>(rt: &T, word: &AtomicBool) {
    for _ in rt.forever() {
        if !word.swap(true, Ordering::SeqCst) {
            return;
        }
        thread::yield_now();
    }
    unreachable!()
}

fn is_call(answer: &Answer) -> bool {
    match answer {
        Answer::Job(_, _) => true,
        _ => false,
    }
}

impl<G: Gate, T: Wait> Gate for HoldingGate<G, T> {
    ghost contents = { λ _. None };

    ghost turned = { λ g. G.turned g.inner };

    ghost idled = { λ g. G.idled g.inner };

    fn turn(&mut self, event: Event) -> Answer {
        if self.holds && !self.is_held {
            take(&self.rt, &self.word);
        }
        let answer = self.inner.turn(event);
        self.is_held = self.holds && is_call(&answer);
        if self.holds && !self.is_held {
            self.word.store(false, Ordering::SeqCst);
        }
        answer
    }

    fn idle(&mut self, bell: Bell) -> bool {
        self.inner.idle(bell)
    }

    fn made(&self) -> u64 {
        self.inner.made()
    }

    fn idles(&self) -> u64 {
        self.inner.idles()
    }
}

/// A host each of whose calls is held until all are let go, for so many hundredths of a second at the most.
#[derive(Drop)]
pub(crate) struct HeldHost<'x, H, T> {
    pub(crate) rt: T,
    pub(crate) looks: u32,
    pub(crate) let_go: &'x AtomicU64,
    pub(crate) host: H,
}

impl<'x, H: Host, T: Wait + Clock> Host for HeldHost<'x, H, T> {
    ghost contents = { λ _. None };

    ghost failures = { λ h. H.failures h.host };

    fn call(&mut self, call: &HostCall) -> Result<(), Or<HostFailed>> {
        for _ in 0..self.looks {
            if self.let_go.load(Ordering::SeqCst) != 0 {
                break;
            }
            let _ = thread::sleep(&self.rt, Duration::from_millis(10));
        }
        self.host.call(call)
    }

    fn faults(&self) -> u64 {
        self.host.faults()
    }
}
