ghost use Rattle.std.specs.Prelude.{◌≡◌, ◌+◌, ◌-◌, ◌^◌, ◌<◌, ◌≤◌, nat_lt};
ghost use Rattle.turnstile.specs.Bells.{rung_after, rung_last};

use crate::bells::{Bell, LastRung, Rings};
use crate::machine::Machine;
use crate::ticket::Ticket;
use std::sync::ledger::{Book, Ledger, Share};

/// What lies under the lock: the machine, how many turns it made, and after which of them each bell rang last.
#[derive(Drop)]
pub(crate) struct Counted<M, L: Ledger> {
    machine: M,
    turns: u64,
    rung: LastRung,
    book: Book<L>,
    ghost counted: { turns ≡ book.total },
}

impl<M, L: Ledger> Counted<M, L> {
    /// The machine before its first turn.
    pub(crate) fn new(machine: M, book: Book<L>) -> Counted<M, L>
        requires { book.total ≡ 0 }
    {
        Counted {
            machine,
            turns: 0,
            rung: LastRung {
                events: 0,
                ends: 0,
                calls: 0,
            },
            book,
        }
    }

    pub(crate) fn turns(&self) -> u64
        ensures { result ≡ self.now.turns }
    {
        self.turns
    }

    /// Whether this bell rang after a turn later than this one.
    pub(crate) fn has_rung_since(&self, bell: Bell, turn: u64) -> bool
        ensures { result ≡ nat_lt turn (rung_last self.now.rung bell) }
    {
        self.rung.at(bell) > turn
    }

    /// How many turns were made. It is what all tickets made, whose share is handed in.
    pub(crate) fn total(&mut self, all: &mut Share<L>) -> u64
        requires { all.old.parts ≡ L.parts }
        ensures { result ≡ all.old.amount }
    {
        self.book.audit(all);
        self.turns
    }
}

impl<M: Machine, L: Ledger> Counted<M, L> {
    /// One turn of the machine by this ticket, and which bells ring after it.
    pub(crate) fn step(&mut self, ticket: &mut Ticket<L>, event: M::Event) -> (M::Answer, Rings)
        requires room { self.old.turns < 2 ^ 64 - 1 }
        requires takes { M.takes event }
        ensures answer { M.may_answer event result.0 }
        ensures rings { result.1 ≡ M.rung event result.0 }
        ensures rung { self.new.rung ≡ rung_after self.old.rung result.1 self.new.turns }
        ensures turns { self.new.turns ≡ self.old.turns + 1 }
        ensures made { ticket.new.made ≡ ticket.old.made + 1 }
        ensures seen { ticket.new.seen ≡ self.new.turns }
        ensures own { ticket.new.made ≤ ticket.new.seen }
    {
        let (answer, rings) = self.machine.turn(event);
        self.count(ticket);
        self.rung.note(rings, self.turns);
        (answer, rings)
    }

    /// Counts a turn of this ticket.
    fn count(&mut self, ticket: &mut Ticket<L>)
        requires room { self.old.turns < 2 ^ 64 - 1 }
        ensures turns { self.new.turns ≡ self.old.turns + 1 }
        ensures rung { self.new.rung ≡ self.old.rung }
        ensures made { ticket.new.made ≡ ticket.old.made + 1 }
        ensures seen { ticket.new.seen ≡ self.new.turns }
        ensures own { ticket.new.made ≤ ticket.new.seen }
    {
        let Counted { turns, book, .. } = self;
        let Ticket { made, seen, share } = ticket;
        // The ticket made no more turns than there were, so that neither count leaves its type.
        book.audit(share);
        book.add(share, 1);
        book.audit(share);
        *turns += 1;
        *made += 1;
        *seen = *turns;
    }
}
