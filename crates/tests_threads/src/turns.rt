//! Passes on threads of their own, over a machine that adds up.
ghost use Rattle.std.specs.Prelude.{◌≡◌, ◌==◌};

use std::alloc::Global;
use std::marker::Brand;
use std::sync::Wait;
use std::sync::ledger::{Blank, Ledger};
use std::thread;
use std::thread::{Threads, join};
use std::time::{Clock, Duration, Instant};
use turnstile::{Bell, Machine, Rings, Ticket, Turnstile};

/// How many turns each ticket makes.
const TURNS: u32 = 40;

/// Adds up what it is given, and answers the sum. It rings by what it is given: one bell after each of 1, 2 and 3, and
/// none after any other number.
#[derive(Drop)]
struct Adder {
    sum: u64,
}

impl Machine for Adder {
    type Event = u64;

    type Answer = u64;

    ghost takes = { λ _. Unit {0} };

    ghost may_answer = { λ _ _. Unit {0} };

    ghost rung = { λ event _. record { events = event == 1; ends = event == 2; calls = event == 3 } };

    fn turn(&mut self, event: u64) -> (u64, Rings) {
        self.sum = self.sum.wrapping_add(event);
        let rings = Rings {
            events: event == 1,
            ends: event == 2,
            calls: event == 3,
        };
        (self.sum, rings)
    }
}

/// What became of the turns: those that the tickets counted, those of the machine, its sum, and whether a ticket saw more
/// turns than the machine made.
#[derive(Clone, Copy, PartialEq, Eq)]
struct Turned {
    made: u64,
    turns: u64,
    sum: u64,
    ahead: bool,
}

/// Eight tickets, each on its thread, make all of their turns, and the first of them one more, by a zero.
fn eight<L: Ledger + Send + Sync, R: Threads + Wait + Sync>(
    rt: &R,
    alloc: Global,
    blank: Blank,
) -> Option<Turned>
    requires name { blank.name ≡ L.name }
    requires parts { (blank.parts ≡ L.parts) × (blank.parts ≡ 8) }
{
    let (turnstile, tickets) = Turnstile::<Adder, L>::new(alloc, Adder { sum: 0 }, 8, blank).ok()?;
    let shared = &turnstile;
    let mut tickets = thread::map_vec(
        rt,
        tickets,
        &|ticket| with_turns(rt, shared, ticket, 1),
    ).ok()?;
    let mut last = tickets.pop()?;
    let sum = turnstile.turn(rt, &mut last, 0);
    tickets.push(last).ok()?;
    let made = tickets
        .iter()
        .fold(0u64, |sum, ticket| sum.wrapping_add(ticket.made()));
    let most = tickets
        .iter()
        .fold(0u64, |most, ticket| most.max(ticket.seen()));
    let turns = turnstile.close(rt, tickets);
    Some(Turned {
        made,
        turns,
        sum,
        ahead: most > turns,
    })
}

/// Makes the turns of one ticket, all by this number.
fn with_turns<L: Ledger, R: Wait>(
    rt: &R,
    turnstile: &Turnstile<Adder, L>,
    mut ticket: Ticket<L>,
    number: u64,
) -> Ticket<L> {
    for _ in 0..TURNS {
        turnstile.turn(rt, &mut ticket, number);
    }
    ticket
}

/// One ticket idles for a bell, for so many milliseconds at most, while another one makes turns by a number: whether its
/// time was up, and whether it idled for less than twenty seconds.
fn idles<L: Ledger + Send + Sync, R: Threads + Wait + Clock + Sync>(
    rt: &R,
    alloc: Global,
    blank: Blank,
    case: Case,
) -> Option<(bool, bool)>
    requires name { blank.name ≡ L.name }
    requires parts { (blank.parts ≡ L.parts) × (blank.parts ≡ 2) }
{
    let (turnstile, mut tickets) = Turnstile::<Adder, L>::new(
        alloc,
        Adder { sum: 0 },
        2,
        blank,
    ).ok()?;
    let active = tickets.pop()?;
    let idling = tickets.pop()?;
    let shared = &turnstile;
    let (bell, number, _) = case;
    let ticks = ticks_of(case);
    let begun = Instant::now(rt).ok()?;
    let (ticket, is_up) = join(
        rt,
        move || with_turns(rt, shared, active, number),
        || shared.idle(rt, &idling, bell, ticks),
    );
    drop(ticket);
    let spent = begun.elapsed(rt).ok()?;
    Some((is_up, spent < Duration::from_secs(20)))
}

/// Who idles for a bell beside turns by which number, and whether its time is up then. Each bell rings by its own number
/// alone.
type Case = (Bell, u64, bool);

const CASES: &[Case] = &[
    (Bell::Events, 1, false),
    (Bell::Ends, 2, false),
    (Bell::Calls, 3, false),
    (Bell::Events, 0, true),
    (Bell::Events, 2, true),
    (Bell::Ends, 0, true),
    (Bell::Ends, 3, true),
    (Bell::Calls, 0, true),
    (Bell::Calls, 1, true),
];

/// How long one idles in a case, in milliseconds.
fn ticks_of(case: Case) -> u32 {
    if case.2 { 300 } else { 30_000 }
}

#[test]
fn eight_tickets_on_eight_threads(rt: HostRuntime) {
    let told = eight::<Brand, _>(&rt, rt.alloc(), Blank::new(8));
    let want = Turned {
        made: 321,
        turns: 321,
        sum: 320,
        ahead: false,
    };
    assert!(rt;
        told == Some(want),
        "what the tickets and the machine counted"
    );
}

#[test]
fn who_idles_is_woken_by_its_bell_alone(rt: HostRuntime) {
    for (number, case) in CASES.iter().enumerate() {
        let told = idles::<Brand, _>(&rt, rt.alloc(), Blank::new(2), *case);
        assert!(rt; told == Some((case.2, true)), "case {number}");
    }
}
