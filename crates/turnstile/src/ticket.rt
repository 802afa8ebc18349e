ghost use Rattle.std.specs.Prelude.{◌≡◌, ◌+◌, ◌≤◌, All, IfOk, length, sum_by};

use std::alloc::{AllocError, Global};
use std::sync::ledger::{Ledger, Share};

/// The right of one thread to turn the machine. It counts the turns that were made by it.
#[derive(Drop)]
pub struct Ticket<L: Ledger> {
    pub(crate) made: u64,
    pub(crate) seen: u64,
    pub(crate) share: Share<L>,
    ghost one_part: { share.parts ≡ 1 },
    ghost counted: { share.amount ≡ made },
    ghost later: { made ≤ seen },
}

impl<L: Ledger> Ticket<L> {
    /// How many turns this ticket made.
    pub fn made(&self) -> u64
        ensures { result ≡ self.now.made }
    {
        self.made
    }

    /// How many turns the machine had made when this ticket last turned it: its own, at least.
    pub fn seen(&self) -> u64
        ensures seen { result ≡ self.now.seen }
        ensures own { self.now.made ≤ result }
    {
        self.seen
    }
}

/// So many tickets that made no turn, from a share that has a part for each.
pub(crate) fn tickets_of<L: Ledger>(
    alloc: Global,
    count: u32,
    share: Share<L>,
) -> Result<Vec<Ticket<L>>, AllocError>
    requires parts { share.parts ≡ count }
    requires amount { share.amount ≡ 0 }
    ensures len { IfOk result (λ tickets. length tickets.items ≡ count) }
    ensures fresh { IfOk result (λ tickets. All (λ p. p.made ≡ 0) tickets.items) }
{
    let mut rest = share;
    let mut tickets = Vec::new(alloc);
    for _i in 0..count {
        tickets.push(fresh(rest.split_off(1, 0)))?;
    }
    Ok(tickets)
}

/// The share of all these tickets together.
pub(crate) fn gathered<L: Ledger>(first: Ticket<L>, mut others: Vec<Ticket<L>>) -> Share<L>
    ensures parts { result.parts ≡ length others.items + 1 }
    ensures amount { result.amount ≡ sum_by (λ p. p.made) others.items + first.made }
{
    let mut all = share_of(first);
    while let Some(ticket) = others.pop() {
        all.merge(share_of(ticket));
    }
    all
}

/// A ticket over one part, by which no turn was made.
fn fresh<L: Ledger>(share: Share<L>) -> Ticket<L>
    requires part { share.parts ≡ 1 }
    requires amount { share.amount ≡ 0 }
    ensures { result.made ≡ 0 }
{
    Ticket {
        made: 0,
        seen: 0,
        share,
    }
}

/// The part of a ticket, with its turns for the amount.
fn share_of<L: Ledger>(ticket: Ticket<L>) -> Share<L>
    ensures part { result.parts ≡ 1 }
    ensures amount { result.amount ≡ ticket.made }
{
    let Ticket { share, .. } = ticket;
    share
}
