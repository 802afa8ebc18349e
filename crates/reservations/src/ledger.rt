ghost use Rattle.std.specs.Prelude.{◌≡◌, ◌+◌, ◌-◌, ◌<◌, ◌≤◌, ◌^◌, ◌∷◌, ◌++◌, [], Some, IsSome, IfSome, OnOk, length};
ghost use Rattle.std.specs.Prelude.{vec_len, vec_capacity};
ghost use Rattle.std.specs.List.{find, position};
ghost use Rattle.std.specs.Option.{option_map};
ghost use Rattle.plain_lists.specs.Edits.{dropped};
ghost use Rattle.size_values.specs.declared.amounts.Part.{Part};
ghost use Rattle.size_values.specs.Amounts.{part};
ghost use Rattle.reservations.specs.Holdings.{no_books, has_op, hold_at, share_at, counted, held_part, all_part};
ghost use Rattle.reservations.specs.Holdings.{counted_on, held_on, all_on_pools, granted_more, converted_more};
ghost use Rattle.reservations.specs.Holdings.{returned_more};
ghost use Rattle.reservations.specs.Facts.{AreHoldings};
ghost use Rattle.reservations.specs.declared.books.Hold.{Hold as HoldValue};

use crate::books::{Books, Hold};
use plain_lists::push_reserved;
use size_values::{Amounts, NoMemory, PoolPart, Text};
use std::alloc::Global;
use std::marker::Model;

/// The shares that live operations hold, and the books. Contracts see the list of what is held, the greatest
/// operation held so far (0 where none was), the books, and how many more can be held without memory.
#[derive(Drop)]
pub struct Ledger {
    holds: Vec<Hold>,
    greatest: u64,
    books: Books,
}

impl Model for Ledger {
    ghost use Rattle.reservations.specs.Holdings.{Holdings};

    ghost Value = { Holdings };

    ghost use Rattle.reservations.specs.Inside.{holdings_in, IsLedger};

    ghost view = { holdings_in };

    ghost invariant = { IsLedger };
}

impl Ledger {
    /// Nothing is held, and the books are zero. It takes no memory.
    pub fn new(alloc: Global) -> Ledger
        ensures held { result.held ≡ [] }
        ensures greatest { result.greatest ≡ 0 }
        ensures books { result.books ≡ no_books }
    {
        Ledger {
            holds: Vec::new(alloc),
            greatest: 0,
            books: Books {
                granted: Amounts::zero(),
                converted: Amounts::zero(),
                returned: Amounts::zero(),
                pool_granted: 0,
                pool_converted: 0,
                pool_returned: 0,
            },
        }
    }

    /// Takes memory for one more share at least.
    pub fn reserve_one(&mut self) -> Result<(), NoMemory>
        ensures room { OnOk result (1 ≤ self.new.spare) }
        ensures spare { self.old.spare ≤ self.new.spare }
        ensures held { self.new.held ≡ self.old.held }
        ensures greatest { self.new.greatest ≡ self.old.greatest }
        ensures books { self.new.books ≡ self.old.books }
    {
        self.holds.reserve(1)?;
        Ok(())
    }

    /// An operation holds this share from now on, with this part on a pool. Each operation is greater than those
    /// before it, so each holds at most once.
    pub fn hold(&mut self, op: u64, project: Text, share: Amounts, on: PoolPart)
        requires room { 1 ≤ self.old.spare }
        requires limit { op < 2 ^ 40 }
        requires above { self.old.greatest < op }
        requires small { (k : Part) → part k share < 2 ^ 80 }
        requires small_part { on.disk < 2 ^ 80 }
        ensures held { self.new.held
            ≡ self.old.held ++ record { op = op; project = project; share = share; part = on } ∷ [] }
        ensures greatest { self.new.greatest ≡ op }
        ensures books { self.new.books ≡ granted_more share on self.old.books }
        ensures spare { self.old.spare ≤ self.new.spare + 1 }
    {
        let granted = self.books.granted.plus(&share);
        let pool_granted = self.books.pool_granted + on.disk;
        push_reserved(
            &mut self.holds,
            Hold {
                op,
                project,
                share,
                part: on,
            },
        );
        self.greatest = op;
        self.books.granted = granted;
        self.books.pool_granted = pool_granted;
    }

    /// The share of an operation that succeeded becomes its object's.
    pub fn convert(&mut self, op: u64)
        requires { IsSome (share_at self.old op) }
        ensures held { self.new.held ≡ dropped (has_op op) self.old.held }
        ensures greatest { self.new.greatest ≡ self.old.greatest }
        ensures books { IfSome (hold_at self.old op)
            (λ hold. self.new.books ≡ converted_more hold.share hold.part self.old.books) }
        ensures spare { self.old.spare ≤ self.new.spare }
    {
        let hold = take_out(&mut self.holds, op);
        self.books.converted = self.books.converted.plus(&hold.share);
        self.books.pool_converted += hold.part.disk;
    }

    /// The share of an operation that failed or was cancelled goes back whole.
    pub fn give_back(&mut self, op: u64)
        requires { IsSome (share_at self.old op) }
        ensures held { self.new.held ≡ dropped (has_op op) self.old.held }
        ensures greatest { self.new.greatest ≡ self.old.greatest }
        ensures books { IfSome (hold_at self.old op)
            (λ hold. self.new.books ≡ returned_more hold.share hold.part self.old.books) }
        ensures spare { self.old.spare ≤ self.new.spare }
    {
        let hold = take_out(&mut self.holds, op);
        self.books.returned = self.books.returned.plus(&hold.share);
        self.books.pool_returned += hold.part.disk;
    }

    /// The shares that are held, in the order of their operations.
    pub fn holds(&self) -> &[Hold]
        ensures held { result.now ≡ self.now.held }
        ensures facts { AreHoldings self.now }
    {
        &self.holds
    }

    /// What the operations of a project hold together.
    pub fn held(&self, project: &str) -> Amounts
        ensures sums { (k : Part) → part k result ≡ held_part k project.now self.now.held }
        ensures facts { AreHoldings self.now }
    {
        held_of(&self.holds, project)
    }

    /// What the operations of a project hold on a pool.
    pub fn held_on(&self, project: &str, pool: &str) -> u128
        ensures sum { result ≡ held_on project.now pool.now self.now.held }
        ensures facts { AreHoldings self.now }
    {
        held_on_of(&self.holds, project, pool)
    }

    /// The share that an operation holds.
    pub fn share_of(&self, op: u64) -> Option<Amounts>
        ensures share { result ≡ share_at self.now op }
        ensures facts { AreHoldings self.now }
    {
        share_in(&self.holds, op)
    }

    /// The sums of all shares that were ever granted, converted and returned, and of their parts on pools.
    pub fn books(&self) -> Books
        ensures books { result ≡ self.now.books }
        ensures facts { AreHoldings self.now }
    {
        self.books
    }
}

/// Takes what an operation holds out of the list.
fn take_out(holds: &mut Vec<Hold>, op: u64) -> Hold
    requires { IsSome (find (has_op op) holds.old.items) }
    ensures hold { find (has_op op) holds.old.items ≡ Some result }
    ensures rest { holds.new.items ≡ dropped (has_op op) holds.old.items }
    ensures room { vec_capacity holds.old - vec_len holds.old ≤ vec_capacity holds.new - vec_len holds.new }
{
    let place = index_of(holds, op);
    holds.remove(place)
}

/// The place of the share of an operation, which is there.
fn index_of(holds: &[Hold], op: u64) -> usize
    requires { IsSome (find (has_op op) holds.now) }
    ensures place { Some result ≡ position (has_op op) holds.now }
    ensures within { result < length holds.now }
{
    match index_in(holds, op) {
        Some(place) => place,
        None => unreachable!(),
    }
}

/// The place of the share of an operation.
fn index_in(holds: &[Hold], op: u64) -> Option<usize>
    ensures { result ≡ position (has_op op) holds.now }
{
    holds.iter().position(|hold| hold.op == op)
}

/// The share of an operation.
fn share_in(holds: &[Hold], op: u64) -> Option<Amounts>
    ensures { result ≡ option_map (λ (h : HoldValue). h.share) (find (has_op op) holds.now) }
{
    let hold = holds.iter().find(|hold| hold.op == op);
    hold.map(|hold| hold.share)
}

/// The sum of the shares of a project.
fn held_of(holds: &[Hold], project: &str) -> Amounts
    requires { (k : Part) → all_part k holds.now < 2 ^ 128 }
    ensures { (k : Part) → part k result ≡ held_part k project.now holds.now }
{
    let mut total = Amounts::zero();
    for hold in holds {
        total = with_hold(total, hold, project);
    }
    total
}

/// The sum with one more share, where it is of the project.
fn with_hold(total: Amounts, hold: &Hold, project: &str) -> Amounts
    requires { (k : Part) → part k total + part k hold.now.share < 2 ^ 128 }
    ensures { (k : Part) → part k result ≡ part k total + counted k project.now hold.now }
{
    if hold.project.view() == project {
        total.plus(&hold.share)
    } else {
        total
    }
}

/// The sum of what a project's shares have on a pool.
fn held_on_of(holds: &[Hold], project: &str, pool: &str) -> u128
    requires { all_on_pools holds.now < 2 ^ 128 }
    ensures { result ≡ held_on project.now pool.now holds.now }
{
    let mut total = 0;
    for hold in holds {
        total = with_part(total, hold, project, pool);
    }
    total
}

/// The sum with what one more share has on the pool, where it is of the project.
fn with_part(total: u128, hold: &Hold, project: &str, pool: &str) -> u128
    requires { total + hold.now.part.disk < 2 ^ 128 }
    ensures { result ≡ total + counted_on project.now pool.now hold.now }
{
    if hold.project.view() != project {
        return total;
    }
    total + hold.part.on(pool)
}
