//! What the report of a call makes of the rows: the next call is handed out, or the operation ends.
ghost use Rattle.std.specs.Prelude.{◌≡◌, ◌+◌, ◌<◌, ◌≤◌, ◌++◌, [], Some, IsSome, find, vec_len, vec_capacity};
ghost use Rattle.std.specs.Option.{option_map_or};
ghost use Rattle.host_model.specs.declared.report.Report.TheVariants as report_of;
ghost use Rattle.operations.specs.OperationTable.{live_at};
ghost use Rattle.operations.specs.declared.operation.Operation.{Operation as OperationValue};
ghost use Rattle.row_machine.specs.facts.Whole.{IsWhole};
ghost use Rattle.row_machine.specs.machine.Task.{Task};
ghost use Rattle.row_machine.specs.machine.Operations.{cancelled, failed, is_held_by};
ghost use Rattle.size_values.specs.Moments.{moment_limit};
ghost use Rattle.core_reports.specs.Waiting.{IsSilent, untold_limit};
ghost use Rattle.core_reports.specs.Reported.{IsTurned};
ghost use Rattle.core_reports.specs.Turns.{shown_at, turn_of};
ghost use Rattle.core_reports.specs.declared.jobs.Turned.TheVariants as turned_as;
ghost use Rattle.core_reports.specs.declared.turns.Turn.TheVariants as turn_as;

use crate::ends::{cancel, fail};
use crate::jobs::{Turned, queue_event};
use crate::success::{carry_out, make_ending, succeed};
use crate::turns::{Turn, live_at, turn_of};
use crate::waiting::Waiting;
use core_drafts::Draft;
use host_model::Report;
use operations::OpFault;
use record_keeper::Keeper;
use row_readings::StateRef;
use std::alloc::Global;

/// How many calls of the live operation of a number were done.
fn calls_done(view: &StateRef<'_>, number: u64) -> u32
    ensures { result ≡ option_map_or (λ (o : OperationValue Task). o.work.done) (live_at view.now.operations number) 0 }
{
    match live_at(view, number) {
        Some(operation) => operation.work.done,
        None => 0,
    }
}

/// A live operation, of which so many calls were done, fails, and is left to be told.
fn end_failed(
    draft: &mut Draft,
    untold: &mut Vec<Waiting>,
    number: u64,
    why: OpFault,
    done: u32,
    moment: u64,
)
    requires settled { draft.old.log ≡ [] }
    requires live { IsSome (live_at draft.old.state.operations number) }
    requires held { IsSome (find (is_held_by number) draft.old.state.held) }
    requires room { vec_len untold.old < vec_capacity untold.old }
    ensures state { (o : OperationValue Task) → live_at draft.old.state.operations number ≡ Some o →
        draft.new.state ≡ failed draft.old.state o why done moment }
    ensures untold { untold.new.items ≡ untold.old.items ++ shown_at draft.new.state.operations number moment }
    ensures capacity { vec_capacity untold.old ≤ vec_capacity untold.new }
    ensures log { draft.new.log ≡ [] }
    ensures greatest { draft.new.backing.greatest ≡ draft.old.backing.greatest }
{
    fail(draft, number, why, done, moment);
    queue_event(untold, &draft.view(), number, moment);
}

/// A live operation ends as cancelled, and is left to be told.
fn end_cancelled(draft: &mut Draft, untold: &mut Vec<Waiting>, number: u64, moment: u64)
    requires settled { draft.old.log ≡ [] }
    requires live { IsSome (live_at draft.old.state.operations number) }
    requires held { IsSome (find (is_held_by number) draft.old.state.held) }
    requires room { vec_len untold.old < vec_capacity untold.old }
    ensures state { draft.new.state ≡ cancelled draft.old.state number moment }
    ensures untold { untold.new.items ≡ untold.old.items ++ shown_at draft.new.state.operations number moment }
    ensures capacity { vec_capacity untold.old ≤ vec_capacity untold.new }
    ensures log { draft.new.log ≡ [] }
    ensures greatest { draft.new.backing.greatest ≡ draft.old.backing.greatest }
{
    cancel(draft, number, moment);
    queue_event(untold, &draft.view(), number, moment);
}

/// The last call of an operation that runs was done: it succeeds, or fails where its rows are not committed. It takes
/// all memory that it needs before the commit.
fn end_last<R: Keeper>(
    alloc: Global,
    draft: &mut Draft,
    untold: &mut Vec<Waiting>,
    keeper: &mut R,
    number: u64,
    moment: u64,
)
    requires whole { IsWhole draft.old.state }
    requires silent { IsSilent draft.old.state }
    requires settled { draft.old.log ≡ [] }
    requires early { moment < moment_limit }
    requires quiet { untold.old.items ≡ [] }
    requires room { untold_limit ≤ vec_capacity untold.old }
    requires last { turn_of (live_at draft.old.state.operations number) report_of.Done ≡ turn_as.Last }
    ensures turned { IsTurned draft.old.state number report_of.Done moment draft.new.state untold.new.items
        turned_as.Ended (R.store keeper.old) (R.store keeper.new) }
    ensures capacity { vec_capacity untold.old ≤ vec_capacity untold.new }
    ensures log { draft.new.log ≡ [] }
    ensures greatest { draft.new.backing.greatest ≡ draft.old.backing.greatest }
{
    let done = calls_done(&draft.view(), number) + 1;
    let Ok(ending) = make_ending(alloc, &draft.view(), number, moment) else {
        end_failed(draft, untold, number, OpFault::NoMemory, done, moment);
        return;
    };
    let carried = carry_out(alloc, draft, keeper, number, &ending);
    if let Err(why) = carried {
        drop(ending);
        end_failed(draft, untold, number, why, done, moment);
        return;
    }
    succeed(draft, untold, number, ending, moment);
}

/// Takes the report of a call of an operation.
pub fn take_report<R: Keeper>(
    alloc: Global,
    draft: &mut Draft,
    untold: &mut Vec<Waiting>,
    keeper: &mut R,
    number: u64,
    report: Report,
    moment: u64,
) -> Turned
    requires whole { IsWhole draft.old.state }
    requires silent { IsSilent draft.old.state }
    requires settled { draft.old.log ≡ [] }
    requires early { moment < moment_limit }
    requires quiet { untold.old.items ≡ [] }
    requires room { untold_limit ≤ vec_capacity untold.old }
    ensures turned { IsTurned draft.old.state number report moment draft.new.state untold.new.items result
        (R.store keeper.old) (R.store keeper.new) }
    ensures capacity { vec_capacity untold.old ≤ vec_capacity untold.new }
    ensures log { draft.new.log ≡ [] }
    ensures greatest { draft.new.backing.greatest ≡ draft.old.backing.greatest }
{
    match turn_of(&draft.view(), number, report) {
        Turn::Stray => Turned::Stray,
        Turn::Next => Turned::Next(draft.hand_out_next(number)),
        Turn::Undo => Turned::Next(draft.hand_out_undo(number)),
        Turn::Cancels => {
            end_cancelled(draft, untold, number, moment);
            Turned::Ended
        }
        Turn::Fails(why) => {
            let done = calls_done(&draft.view(), number);
            end_failed(draft, untold, number, why, done, moment);
            Turned::Ended
        }
        Turn::Last => {
            end_last(alloc, draft, untold, keeper, number, moment);
            Turned::Ended
        }
    }
}
