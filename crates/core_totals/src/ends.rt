//! What the ends of operations make of totals.
ghost use Rattle.std.specs.Prelude.{◌≡◌, true, IfOk, IfSome, find};
ghost use Rattle.std.specs.Option.{option_copied, option_map_or};
ghost use Rattle.operations.specs.OperationTable.{kept_at};
ghost use Rattle.row_machine.specs.machine.Claims.{claimed_instance};
ghost use Rattle.row_machine.specs.machine.Operations.{is_held_by};
ghost use Rattle.row_readings.specs.Footprints.{no_footprint, instance_footprint};
ghost use Rattle.core_totals.specs.Ends.{held_footprint, given_back, held_given_back, leaves_usage, has_fall, fall_of};
ghost use Rattle.core_totals.specs.Ends.{IsCounted, after_return, after_success, after_end_of, after_end};

use crate::totals::Totals;
use core_reports::live_at;
use operations::{Operation, Status};
use reservations::Hold;
use row_machine::Task;
use row_readings::{
    Footprint, StateRef, claimed_instance, footprint_of_instance, kept_at, project_of_row,
};
use size_values::{Action, Amounts, Deed, NoMemory, PoolPart};
use std::alloc::Global;

/// What an operation counts for while it is live: the share that it holds, and by how much its success lowers what its
/// project uses, each where it is known.
#[derive(Drop)]
pub struct Counted {
    share: Option<Footprint>,
    fall: Option<Footprint>,
}

// ---- before an end

/// What an operation holds.
fn hold_of(held: &[Hold], number: u64) -> Option<&Hold>
    ensures { option_copied result ≡ find (is_held_by number) held.now }
{
    held.iter().find(|hold| hold.op == number)
}

/// The share that a hold is of.
fn share_in(alloc: Global, hold: &Hold) -> Result<Footprint, NoMemory>
    ensures { IfOk result (λ f. f ≡ record { amounts = hold.now.share; on = hold.now.part }) }
{
    let on = hold.part.copy(alloc)?;
    Ok(Footprint {
        amounts: hold.share,
        on,
    })
}

/// The share that an operation holds, of its own.
fn held_share(alloc: Global, view: &StateRef<'_>, number: u64) -> Result<Footprint, NoMemory>
    ensures { IfOk result (λ f. f ≡ held_footprint view.now number) }
{
    match hold_of(view.held, number) {
        Some(hold) => share_in(alloc, hold),
        None => Ok(Footprint::none(alloc)),
    }
}

/// The same where memory is not refused.
fn known_share(alloc: Global, view: &StateRef<'_>, number: u64) -> Option<Footprint>
    ensures { IfSome result (λ share. share ≡ held_footprint view.now number) }
{
    match held_share(alloc, view, number) {
        Ok(share) => Some(share),
        Err(NoMemory) => None,
    }
}

/// Whether the success of a deed changes its target under its name, or removes it.
fn has_fall(deed: Deed) -> bool
    ensures { result ≡ has_fall deed }
{
    match deed {
        Deed::Update | Deed::Restore | Deed::Delete => true,
        Deed::Act {
            action: Action::Stop,
            ephemeral,
        } => ephemeral,
        Deed::Act { .. }
        | Deed::Create
        | Deed::Copy
        | Deed::Rename
        | Deed::Snap
        | Deed::Unsnap
        | Deed::CopyVolume => false,
    }
}

/// What the instance counts for that an operation would put, if it would put one.
fn claimed_footprint(alloc: Global, view: &StateRef<'_>, work: &Task) -> Result<Footprint, NoMemory>
    ensures { IfOk result
        (λ f. f ≡ option_map_or (instance_footprint view.now) (claimed_instance work.now) no_footprint) }
{
    match claimed_instance(work) {
        Some(row) => footprint_of_instance(alloc, view, row),
        None => Ok(Footprint::none(alloc)),
    }
}

/// By how much it lowers what a project uses where its instance, which an operation is about, becomes what the
/// operation would put, or goes.
fn fall_of(alloc: Global, view: &StateRef<'_>, work: &Task) -> Result<Footprint, NoMemory>
    ensures { IfOk result (λ f. f ≡ fall_of view.now work.now) }
{
    let project = work.project.view();
    match view.instance_named(project, work.target.name.view()) {
        Some(row) => {
            let before = footprint_of_instance(alloc, view, row)?;
            let after = claimed_footprint(alloc, view, work)?;
            Ok(before.above(&after))
        }
        None => Ok(Footprint::none(alloc)),
    }
}

/// By how much the success of an operation lowers what its project uses. It is known only of one whose last call is
/// handed out, whose deed changes or removes its target, and where memory was not refused.
fn known_fall(alloc: Global, view: &StateRef<'_>, work: &Task) -> Option<Footprint>
    ensures { IfSome result (λ fall. (has_fall work.now.deed ≡ true) × (fall ≡ fall_of view.now work.now)) }
{
    if !has_fall(work.deed) {
        return None;
    }
    if !work.calls.is_empty() {
        return None;
    }
    match fall_of(alloc, view, work) {
        Ok(fall) => Some(fall),
        Err(NoMemory) => None,
    }
}

/// What the operation of this number counts for. Memory that is refused leaves it unknown.
pub fn count(alloc: Global, view: &StateRef<'_>, number: u64) -> Counted
    ensures { IsCounted view.now number result }
{
    let share = known_share(alloc, view, number);
    match live_at(view, number) {
        Some(operation) => Counted {
            share,
            fall: known_fall(alloc, view, &operation.work),
        },
        None => Counted { share, fall: None },
    }
}

// ---- after it

/// An operation that held this share ends, and all rows stay: what it claimed counts no more.
fn give_back(totals: &mut Totals, work: &Task, share: &Amounts, part: &PoolPart)
    ensures { totals.new ≡ given_back work.now share.now part.now totals.old }
{
    match &work.claim {
        Some(row) => totals.lower(project_of_row(row), share, part),
        None => {}
    }
}

/// The operation of this number ends, of which this is the work, and all rows stay: what it holds of limits counts no
/// more. It takes no memory.
pub fn give_back_held(totals: &mut Totals, view: &StateRef<'_>, number: u64, work: &Task)
    ensures { totals.new ≡ held_given_back view.now number work.now totals.old }
{
    match hold_of(view.held, number) {
        Some(hold) => give_back(totals, work, &hold.share, &hold.part),
        None => {}
    }
}

/// An operation ends, and all rows stay: the share that it held goes back, where that is known.
fn return_share(totals: &mut Totals, work: &Task, share: &Option<Footprint>)
    ensures { totals.new ≡ after_return work.now share.now totals.old }
{
    match share {
        Some(share) => give_back(totals, work, &share.amounts, &share.on),
        None => totals.forget(),
    }
}

/// Whether the success of a deed makes its project use just what was claimed for it, and what it used before.
fn leaves_usage(deed: Deed) -> bool
    ensures { result ≡ leaves_usage deed }
{
    match deed {
        Deed::Create | Deed::Copy | Deed::Snap | Deed::Unsnap => true,
        Deed::Act {
            action: Action::Stop,
            ephemeral,
        } => !ephemeral,
        Deed::Act { .. } => true,
        Deed::Update | Deed::Restore | Deed::Rename | Deed::Delete | Deed::CopyVolume => false,
    }
}

/// An operation has succeeded, which lowered what its project uses by this, where that is known.
fn follow_success(totals: &mut Totals, work: &Task, fall: &Option<Footprint>)
    ensures { totals.new ≡ after_success work.now fall.now totals.old }
{
    match fall {
        Some(fall) => totals.lower(work.project.view(), &fall.amounts, &fall.on),
        None => {
            if !leaves_usage(work.deed) {
                totals.forget();
            }
        }
    }
}

/// An operation that counted for this has ended so.
fn follow_end_of(totals: &mut Totals, operation: &Operation<Task>, counted: &Counted)
    ensures { totals.new ≡ after_end_of operation.now counted.now totals.old }
{
    match operation.status {
        Status::Failure | Status::Cancelled => {
            return_share(totals, &operation.work, &counted.share);
        }
        Status::Success => follow_success(totals, &operation.work, &counted.fall),
        Status::Pending | Status::Running | Status::Cancelling => totals.forget(),
    }
}

/// The operation of this number, which counted for this, has ended as it is kept. It takes no memory.
pub fn follow_end(totals: &mut Totals, view: &StateRef<'_>, number: u64, counted: &Counted)
    ensures { totals.new ≡ after_end (kept_at view.now.operations number) counted.now totals.old }
{
    match kept_at(view, number) {
        Some(operation) => follow_end_of(totals, operation, counted),
        None => totals.forget(),
    }
}
