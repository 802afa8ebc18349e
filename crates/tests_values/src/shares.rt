//! Shares that are held, and the books.
ghost use Rattle.std.specs.Prelude.{◌<◌, ◌^◌};
ghost use Rattle.size_values.specs.Amounts.{part};
ghost use Rattle.size_values.specs.declared.amounts.Part.{Part};

use crate::given::text_of;
use reservations::Ledger;
use size_values::{Amounts, NoMemory, PoolPart};
use std::alloc::Global;

fn share(cpu: u32, disk: u64) -> Amounts
    ensures { (k : Part) → part k result < 2 ^ 80 }
{
    Amounts {
        instances: 1,
        containers: 1,
        machines: 0,
        cpu: cpu as u128,
        memory: 1_073_741_824,
        processes: 100,
        disk: disk as u128,
    }
}

fn convert(ledger: &mut Ledger, op: u64) {
    match ledger.share_of(op) {
        Some(_) => ledger.convert(op),
        None => {}
    }
}

fn give_back(ledger: &mut Ledger, op: u64) {
    match ledger.share_of(op) {
        Some(_) => ledger.give_back(op),
        None => {}
    }
}

/// Holds two shares of one project, and one of another, by three operations of which none held one before.
fn hold_three(alloc: Global, ledger: &mut Ledger) -> Result<(), NoMemory>
    requires { ledger.old.greatest < 3 }
{
    ledger.reserve_one()?;
    let on = PoolPart {
        pool: text_of(alloc, "p0"),
        disk: 10,
    };
    ledger.hold(3, text_of(alloc, "lab"), share(2, 10), on);
    ledger.reserve_one()?;
    let on = PoolPart {
        pool: text_of(alloc, "p0"),
        disk: 20,
    };
    ledger.hold(5, text_of(alloc, "web"), share(4, 20), on);
    ledger.reserve_one()?;
    let on = PoolPart {
        pool: text_of(alloc, "p1"),
        disk: 20,
    };
    ledger.hold(9, text_of(alloc, "lab"), share(4, 20), on);
    Ok(())
}

fn holds(ledger: &Ledger, project: &str, cpu: u128, disk: u128) -> bool {
    let held = ledger.held(project);
    held.cpu == cpu && held.disk == disk
}

fn are_held(ledger: &Ledger) -> bool {
    ledger.share_of(5) == Some(share(4, 20))
        && ledger.share_of(4) == None
        && holds(ledger, "lab", 6, 30)
        && ledger.held_on("lab", "p0") == 10
        && ledger.held_on("lab", "p1") == 20
        && ledger.held_on("web", "p0") == 20
        && ledger.held_on("web", "p1") == 0
        && holds(ledger, "web", 4, 20)
        && ledger.held("la") == Amounts::zero()
}

fn are_booked(ledger: &Ledger) -> bool {
    let books = ledger.books();
    ledger.held("lab") == Amounts::zero()
        && ledger.share_of(9) == None
        && books.granted.instances == 3
        && books.granted.cpu == 10
        && books.granted.disk == 50
        && books.converted == share(4, 20)
        && books.returned == share(2, 10)
        && books.pool_granted == 50
        && books.pool_converted == 20
        && books.pool_returned == 10
}

/// Whether three shares are held, and the books are right once one was converted and one returned.
fn are_three_booked(alloc: Global) -> bool {
    let mut ledger = Ledger::new(alloc);
    let mut are = hold_three(alloc, &mut ledger).is_ok() && are_held(&ledger);
    convert(&mut ledger, 9);
    give_back(&mut ledger, 3);
    are = are_booked(&ledger) && are;
    drop(ledger);
    are
}

#[test]
fn books_every_share(rt: HostRuntime) {
    assert!(rt; are_three_booked(rt.alloc()));
}
