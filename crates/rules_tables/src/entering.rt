//! O1 to O5: operations that cannot be cancelled, or not be entered.
ghost use Rattle.std.specs.Prelude.{◌≡◌, IfOk, option_and_then, option_map};
ghost use Rattle.std.specs.Result.{result_err};
ghost use Rattle.size_values.specs.Causes.{Says};
ghost use Rattle.operations.specs.OperationTable.{kept_at, cancel_answer, enter_fault};
ghost use Rattle.operations.specs.Statuses.{cancel_of};
ghost use Rattle.records.specs.declared.refusals.Rule.TheVariants as rule;
ghost use Rattle.row_machine.specs.machine.Refusals.{no_details};
ghost use Rattle.row_machine.specs.machine.TableRules.{status_text, cancel_refusal, enter_refusal};
ghost use Rattle.row_machine.specs.machine.TableRules.{entry_broken, cancel_broken};

use operations::{CancelFault, EnterFault, LIVE_LIMIT, NUMBER_LIMIT, Status};
use records::{Details, Refusal, Rule, What};
use row_readings::{StateRef, kept_at};
use rules_refusals::on_number;
use size_values::{NoMemory, Or, Text};
use std::alloc::Global;

/// Why no operation can be entered.
pub fn enter_fault(view: &StateRef<'_>) -> Option<EnterFault>
    ensures { result ≡ enter_fault view.now.operations }
{
    if view.live.len() == LIVE_LIMIT {
        return Some(EnterFault::Full);
    }
    if view.next == NUMBER_LIMIT {
        return Some(EnterFault::Spent);
    }
    None
}

/// O4, O5: the refusal of an operation that can't be entered, by why.
pub fn refuse_entry(alloc: Global, fault: Option<EnterFault>) -> Result<(), Or<Refusal>>
    ensures { Says result (option_map enter_refusal fault) }
{
    match fault {
        Some(EnterFault::Full) => Err(Or::Why(on_number(alloc, Rule::O4, LIVE_LIMIT as u64))),
        Some(EnterFault::Spent) => Err(Or::Why(on_number(alloc, Rule::O5, NUMBER_LIMIT))),
        None => Ok(()),
    }
}

/// O4, O5: no operation can be entered.
#[tactic(auto, unfolding(row_machine::specs::machine::TableRules::entry_broken))]
pub fn entry_broken(alloc: Global, view: &StateRef<'_>) -> Result<(), Or<Refusal>>
    ensures { Says result (entry_broken view.now) }
{
    refuse_entry(alloc, enter_fault(view))
}

/// How a status is written.
fn status_text(status: Status) -> &'static str
    ensures { result.now ≡ status_text status }
{
    match status {
        Status::Pending => "Pending",
        Status::Running => "Running",
        Status::Cancelling => "Cancelling",
        Status::Success => "Success",
        Status::Failure => "Failure",
        Status::Cancelled => "Cancelled",
    }
}

/// Why an operation of this status cannot be cancelled.
fn cancel_fault(may_cancel: bool, status: Status) -> Option<CancelFault>
    ensures { result ≡ result_err (cancel_of may_cancel status) }
{
    match status {
        Status::Success => Some(CancelFault::Ended(Status::Success)),
        Status::Failure => Some(CancelFault::Ended(Status::Failure)),
        Status::Cancelled => Some(CancelFault::Ended(Status::Cancelled)),
        Status::Pending if may_cancel => None,
        Status::Running if may_cancel => None,
        Status::Cancelling if may_cancel => Some(CancelFault::Already),
        Status::Pending | Status::Running | Status::Cancelling => Some(CancelFault::Fixed),
    }
}

/// The rule, an operation and its status.
fn on_ended(alloc: Global, number: u64, status: Status) -> Result<Refusal, NoMemory>
    ensures { IfOk result (λ r. r
        ≡ record { rule = rule.O1; details = record no_details { key = status_text status; number = number } }) }
{
    let key = Text::from_text(alloc, status_text(status))?;
    let details = Details {
        kind: Text::new(alloc),
        project: Text::new(alloc),
        name: Text::new(alloc),
        key,
        number,
        used: 0,
        asked: 0,
        limit: 0,
    };
    Ok(Refusal {
        rule: Rule::O1,
        details,
    })
}

fn cancel_refused(alloc: Global, number: u64, fault: CancelFault) -> Result<(), Or<Refusal>>
    ensures { Says result (cancel_refusal number fault) }
{
    match fault {
        CancelFault::Unknown => Ok(()),
        CancelFault::Ended(status) => Err(Or::Why(on_ended(alloc, number, status)?)),
        CancelFault::Fixed => Err(Or::Why(on_number(alloc, Rule::O2, number))),
        CancelFault::Already => Err(Or::Why(on_number(alloc, Rule::O3, number))),
    }
}

/// The cancel of the operation of this number is refused. One that is not kept is missing, by a rule on names.
fn number_cannot_be_cancelled(
    alloc: Global,
    view: &StateRef<'_>,
    number: u64,
) -> Result<(), Or<Refusal>>
    ensures { Says result
        (option_and_then (cancel_refusal number) (result_err (cancel_answer (kept_at view.now.operations number)))) }
{
    let Some(operation) = kept_at(view, number) else {
        return Ok(());
    };
    match cancel_fault(operation.may_cancel, operation.status) {
        Some(fault) => cancel_refused(alloc, number, fault),
        None => Ok(()),
    }
}

/// O1 to O3: the operation that a command would cancel is kept, and cannot be cancelled.
#[tactic(auto, unfolding(row_machine::specs::machine::TableRules::cancel_broken))]
pub fn cancel_broken(alloc: Global, view: &StateRef<'_>, what: &What) -> Result<(), Or<Refusal>>
    ensures { Says result (cancel_broken view.now what.now) }
{
    match what {
        What::Cancel { op } => number_cannot_be_cancelled(alloc, view, *op),
        _ => Ok(()),
    }
}
