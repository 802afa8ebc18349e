ghost use Rattle.std.specs.Prelude.{◌≡◌, ◌+◌, ◌≤◌, All, IfErr, IfOk, length, sum_by};

use crate::bells::{Bell, Bells};
use crate::counted::Counted;
use crate::machine::Machine;
use crate::ticket::{Ticket, gathered, tickets_of};
use std::alloc::Global;
use std::sync::ledger::{Blank, Ledger};
use std::sync::{Mutex, Wait};
use std::time::{Clock, Duration};

/// One machine under one lock. It is turned by tickets alone, which `new` gives once and for all. Those who wait for
/// something that a turn may bring about are woken by a bell, which rings after the turns that may have.
#[derive(Drop)]
pub struct Turnstile<M, L: Ledger> {
    counted: Mutex<Counted<M, L>>,
    bells: Bells,
}

impl<M: Machine, L: Ledger> Turnstile<M, L> {
    /// A turnstile for this machine, and its tickets. Where memory is refused, the machine comes back.
    pub fn new(
        alloc: Global,
        machine: M,
        tickets: u32,
        blank: Blank,
    ) -> Result<(Turnstile<M, L>, Vec<Ticket<L>>), M>
        requires tickets { 1 ≤ tickets }
        requires name { blank.name ≡ L.name }
        requires parts { (blank.parts ≡ L.parts) × (blank.parts ≡ tickets) }
        ensures ok { IfOk result (λ r. (length r.1.items ≡ tickets) × All (λ p. p.made ≡ 0) r.1.items) }
        ensures err { IfErr result (λ m. m ≡ machine) }
    {
        let (book, share) = blank.open::<L>();
        let Ok(all) = tickets_of(alloc, tickets, share) else {
            return Err(machine);
        };
        let turnstile = Turnstile {
            counted: Mutex::new(Counted::new(machine, book)),
            bells: Bells::new(),
        };
        Ok((turnstile, all))
    }

    /// One turn of the machine, under the lock. After 2^64 - 1 turns it doesn't return.
    pub fn turn<R: Wait>(&self, rt: &R, ticket: &mut Ticket<L>, event: M::Event) -> M::Answer
        requires { M.takes event }
        ensures answer { M.may_answer event result }
        ensures made { ticket.new.made ≡ ticket.old.made + 1 }
        ensures seen { ticket.new.made ≤ ticket.new.seen }
    {
        let mut counted = self.counted.lock(rt);
        if counted.turns() == u64::MAX {
            for _ in rt.forever() {}
            unreachable!();
        }
        let (answer, rings) = counted.step(ticket, event);
        drop(counted);
        self.bells.ring(rings);
        answer
    }

    /// Waits until this bell has rung since this ticket last turned the machine, or for so many milliseconds: whether
    /// this time was up. It may end sooner than either.
    pub fn idle<R: Wait + Clock>(
        &self,
        rt: &R,
        ticket: &Ticket<L>,
        bell: Bell,
        ticks: u32,
    ) -> bool {
        let counted = self.counted.lock(rt);
        if counted.has_rung_since(bell, ticket.seen()) {
            return false;
        }
        let most = Duration::from_millis(u64::from(ticks));
        let (_, told) = self.bells.of(bell).wait_timeout(rt, counted, most);
        told.timed_out()
    }

    /// How many turns the machine made, which is what all of its tickets made. All that `new` gave are handed in.
    pub fn close<R: Wait>(&self, rt: &R, tickets: Vec<Ticket<L>>) -> u64
        requires { length tickets.items ≡ L.parts }
        ensures { result ≡ sum_by (λ p. p.made) tickets.items }
    {
        let mut others = tickets;
        let Some(first) = others.pop() else {
            return 0;
        };
        let mut all = gathered(first, others);
        self.counted.lock(rt).total(&mut all)
    }
}
