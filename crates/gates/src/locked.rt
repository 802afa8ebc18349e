ghost use Rattle.std.specs.Prelude.{◌≡◌, None};

use crate::gate::Gate;
use crate::machine::DaemonMachine;
use record_keeper::Keeper;
use row_machine::{Answer, Event};
use std::alloc::Global;
use std::sync::ledger::Ledger;
use std::sync::{Arc, Wait};
use std::time::Clock;
use turnstile::{Bell, Ticket, Turnstile};

/// How long it idles at most, in milliseconds.
pub const LONGEST_IDLE: u32 = 100;

/// A gate to the one server that many threads share under a lock. It turns the server by a ticket of
/// its own, and each of its turns is one event under the lock. Between two of them others have
/// theirs, so it does not show the server. It idles until the bell that it waits for rings, or for a
/// short time; where it rang since the last turn at this gate, not at all.
#[derive(Drop)]
pub struct LockedGate<R: Keeper, L: Ledger, T: Wait + Clock> {
    rt: T,
    turnstile: Arc<Turnstile<DaemonMachine<R>, L>, Global>,
    ticket: Ticket<L>,
    idles: u64,
}

impl<R: Keeper, L: Ledger, T: Wait + Clock> LockedGate<R, L, T> {
    /// The gate of this ticket. It did not idle yet.
    pub fn new(
        rt: T,
        turnstile: Arc<Turnstile<DaemonMachine<R>, L>, Global>,
        ticket: Ticket<L>,
    ) -> LockedGate<R, L, T>
        ensures ticket { result.ticket ≡ ticket }
        ensures idles { result.idles ≡ 0 }
    {
        LockedGate {
            rt,
            turnstile,
            ticket,
            idles: 0,
        }
    }
}

impl<R: Keeper + Drop, L: Ledger, T: Wait + Clock + Drop> LockedGate<R, L, T> {
    /// Gives the ticket back.
    pub fn into_ticket(self) -> Ticket<L>
        ensures { result ≡ self.ticket }
    {
        let LockedGate { ticket, .. } = self;
        ticket
    }
}

impl<R: Keeper, L: Ledger, T: Wait + Clock> Gate for LockedGate<R, L, T> {
    ghost contents = { λ g. None };

    ghost turned = { λ g. g.ticket.made };

    ghost idled = { λ g. g.idles };

    fn turn(&mut self, event: Event) -> Answer {
        let answer = self.turnstile.turn(&self.rt, &mut self.ticket, event);
        // The count of a ticket is below 2^64.
        let _made = self.ticket.made();
        answer
    }

    fn idle(&mut self, bell: Bell) -> bool {
        let is_up = self
            .turnstile
            .idle(&self.rt, &self.ticket, bell, LONGEST_IDLE);
        if is_up {
            self.idles = self.idles.saturating_add(1);
        }
        is_up
    }

    fn made(&self) -> u64 {
        self.ticket.made()
    }

    fn idles(&self) -> u64 {
        self.idles
    }
}
