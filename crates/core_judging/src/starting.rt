//! The parts of a beginning: what the entry of an operation needs is made ahead, and it is judged by the state with
//! its claim.
ghost use Rattle.std.specs.Prelude.{◌≡◌, ◌+◌, ◌-◌, ◌^◌, ◌<◌, ◌≤◌, ◌∷◌, ◌++◌, []};
ghost use Rattle.std.specs.Prelude.{vec_len, vec_capacity, IfOk, OnOk, option_and_then};
ghost use Rattle.std.specs.Option.{option_copied};
ghost use Rattle.core_totals.specs.Alone.{all_beside};
ghost use Rattle.core_totals.specs.Totals.{AreTotals};
ghost use Rattle.row_machine.specs.facts.Whole.{IsWhole};
ghost use Rattle.size_values.specs.Causes.{Says};
ghost use Rattle.rules_limits.specs.Limited.{limits_named};
ghost use Rattle.rules_limits.specs.OneProject.{share_broken};
ghost use Rattle.operations.specs.OperationTable.{enter_fault, kept_at};
ghost use Rattle.operations.specs.declared.operation.Operation.{Operation as OperationValue};
ghost use Rattle.records.specs.declared.notices.EventBody.TheVariants as body;
ghost use Rattle.records.specs.declared.replies.Reply.TheVariants as reply;
ghost use Rattle.core_drafts.specs.Background.{pending_of, holding};
ghost use Rattle.size_values.specs.Amounts.{part};
ghost use Rattle.size_values.specs.declared.amounts.Part.{Part};
ghost use Rattle.core_drafts.specs.Drafted.{CanClaim};
ghost use Rattle.row_readings.specs.Footprints.{share_footprint};
ghost use Rattle.row_machine.specs.machine.Task.{Task as TaskValue};
ghost use Rattle.row_machine.specs.machine.Operations.{project_of_task};
ghost use Rattle.row_machine.specs.shown.Notices.{view_of};
ghost use Rattle.core_judging.specs.Judged.{claim_judged};
ghost use Rattle.core_totals.specs.core_reports.specs.declared.waiting.Waiting.TheVariants as waiting_of;

use core_drafts::Draft;
use core_totals::{Totals, Waiting};
use instance_states::may_cancel;
use operations::{EnterFault, OpFault, Status};
use plain_lists::push_reserved;
use project_limits::Limits;
use records::{Command, EventBody, OpView, Refusal, Reply, Row, Untold};
use row_machine::Task;
use row_readings::{Footprint, StateRef, kept_at, project_of_row, share_of};
use rules_limits::{Beside, claim_lacks_amount, limited_named, limits_named, share_broken};
use rules_policy::{claim_forbidden, snapshot_blocked};
use rules_settings::claim_settings_broken;
use rules_tables::{claim_tables_broken, enter_fault, refuse_entry};
use size_values::{NoMemory, Or, Text};
use std::alloc::Global;

/// What the entry of an operation needs besides its work: the limits of the project that its share counts for, if it is
/// there, and what that uses, as far as the share is judged by it; why it cannot be entered, its share with that
/// project, how it is shown, and the notice of it.
#[derive(Drop)]
pub struct PreparedStart {
    pub limits: Option<Limits>,
    pub used: Beside,
    pub fault: Option<EnterFault>,
    pub share: Footprint,
    pub project: Text,
    pub shown: OpView,
    pub notice: Untold,
}

/// The project whose limits an operation counts for.
fn counted_project(work: &Task) -> &str
    ensures { result.now ≡ project_of_task work.now }
{
    match &work.claim {
        Some(row) => project_of_row(row),
        None => work.project.view(),
    }
}

/// How an operation is shown that waits for its first call.
fn pending_view(alloc: Global, number: u64, work: &Task, moment: u64) -> Result<OpView, NoMemory>
    ensures { IfOk result (λ v. v ≡ view_of (pending_of number work.now moment)) }
{
    let project = work.project.copy(alloc)?;
    let target = work.target.copy(alloc)?;
    Ok(OpView {
        number,
        status: Status::Pending,
        may_cancel: may_cancel(work.deed),
        created: moment,
        updated: moment,
        fault: OpFault::None,
        project,
        target,
    })
}

/// The notice of an operation that waits for its first call.
fn pending_notice(alloc: Global, number: u64, work: &Task, moment: u64) -> Result<Untold, NoMemory>
    ensures { IfOk result (λ n. n ≡ record {
      moment = moment;
      project = work.now.project;
      body = body.Op (view_of (pending_of number work.now moment));
    }) }
{
    let project = work.project.copy(alloc)?;
    let shown = pending_view(alloc, number, work, moment)?;
    Ok(Untold {
        moment,
        project,
        body: EventBody::Op(shown),
    })
}

/// What is told of an operation that waits for its first call: how it is shown, and the notice of it.
fn pending_view_and_notice(
    alloc: Global,
    number: u64,
    work: &Task,
    moment: u64,
) -> Result<(OpView, Untold), NoMemory>
    ensures shown { IfOk result (λ t. t.0 ≡ view_of (pending_of number work.now moment)) }
    ensures notice { IfOk result
        (λ t. t.1 ≡ record {
          moment = moment;
          project = work.now.project;
          body = body.Op (view_of (pending_of number work.now moment));
        }) }
{
    let shown = pending_view(alloc, number, work, moment)?;
    let notice = pending_notice(alloc, number, work, moment)?;
    Ok((shown, notice))
}

/// What the entry of an operation needs, read off the rows before it.
fn beginning_of(
    alloc: Global,
    view: &StateRef<'_>,
    totals: &mut Totals,
    work: &Task,
    moment: u64,
) -> Result<PreparedStart, NoMemory>
    requires whole { IsWhole view.now }
    requires totals { AreTotals view.now totals.old }
    ensures limits { IfOk result (λ e. e.limits ≡ limits_named view.now.projects (project_of_task work.now)) }
    ensures few { IfOk result (λ e. (k : Part) → part k e.used.amounts ≤ 2 ^ 127 + 2 ^ 126) }
    ensures few_on_pool { IfOk result (λ e. e.used.on_pool ≤ 2 ^ 127 + 2 ^ 126) }
    ensures used { IfOk result (λ e. share_broken view.now.projects (project_of_task work.now) e.used e.share
        ≡ share_broken view.now.projects (project_of_task work.now)
        (all_beside view.now (project_of_task work.now) e.share.on.pool) e.share) }
    ensures fault { IfOk result (λ e. e.fault ≡ enter_fault view.now.operations) }
    ensures share { IfOk result (λ e. e.share ≡ share_footprint view.now work.now) }
    ensures project { IfOk result (λ e. e.project ≡ project_of_task work.now) }
    ensures shown { IfOk result (λ e. e.shown ≡ view_of (pending_of view.now.operations.next work.now moment)) }
    ensures notice { IfOk result (λ e. e.notice ≡ record {
      moment = moment;
      project = work.now.project;
      body = body.Op (view_of (pending_of view.now.operations.next work.now moment));
    }) }
    ensures totals { AreTotals view.now totals.new }
{
    let fault = enter_fault(view);
    let share = share_of(alloc, view, work)?;
    let limits = limits_named(view, counted_project(work));
    let used = totals.used_beside(alloc, view, counted_project(work), limits, &share)?;
    let project = Text::from_text(alloc, counted_project(work))?;
    let (shown, notice) = pending_view_and_notice(alloc, view.next, work, moment)?;
    Ok(PreparedStart {
        limits,
        used,
        fault,
        share,
        project,
        shown,
        notice,
    })
}

/// Takes all memory that the entry of an operation needs, and makes what it needs. The limits of its project are read
/// here, and nowhere else for the operation. What its project uses is read off the totals of these rows, and kept there
/// where it was not.
pub fn prepare_start(
    alloc: Global,
    draft: &mut Draft,
    totals: &mut Totals,
    work: &Task,
    moment: u64,
) -> Result<PreparedStart, NoMemory>
    requires whole { IsWhole draft.old.state }
    requires totals { AreTotals draft.old.state totals.old }
    requires settled { draft.old.log ≡ [] }
    ensures limits { IfOk result (λ e. e.limits
        ≡ limits_named draft.old.state.projects (project_of_task work.now)) }
    ensures few { IfOk result (λ e. (k : Part) → part k e.used.amounts ≤ 2 ^ 127 + 2 ^ 126) }
    ensures few_on_pool { IfOk result (λ e. e.used.on_pool ≤ 2 ^ 127 + 2 ^ 126) }
    ensures used { IfOk result (λ e. share_broken draft.old.state.projects (project_of_task work.now) e.used e.share
        ≡ share_broken draft.old.state.projects (project_of_task work.now)
        (all_beside draft.old.state (project_of_task work.now) e.share.on.pool) e.share) }
    ensures fault { IfOk result (λ e. e.fault ≡ enter_fault draft.old.state.operations) }
    ensures share { IfOk result (λ e. e.share ≡ share_footprint draft.old.state work.now) }
    ensures project { IfOk result (λ e. e.project ≡ project_of_task work.now) }
    ensures shown { IfOk result (λ e. e.shown ≡ view_of (pending_of draft.old.state.operations.next work.now moment)) }
    ensures notice { IfOk result (λ e. e.notice ≡ record {
      moment = moment;
      project = work.now.project;
      body = body.Op (view_of (pending_of draft.old.state.operations.next work.now moment));
    }) }
    ensures totals { AreTotals draft.old.state totals.new }
    ensures ready { OnOk result (CanClaim draft.new) }
    ensures state { draft.new.state ≡ draft.old.state }
    ensures log { draft.new.log ≡ [] }
    ensures greatest { draft.new.backing.greatest ≡ draft.old.backing.greatest }
{
    draft.reserve_operation()?;
    beginning_of(alloc, &draft.view(), totals, work, moment)
}

/// The row that an operation would put.
fn claim_of(work: &Task) -> Option<&Row>
    ensures { option_copied result ≡ work.now.claim }
{
    match &work.claim {
        Some(row) => Some(row),
        None => None,
    }
}

/// The first rule that an operation breaks, judged over the state with it by what it claims alone.
#[tactic(auto, unfolding(crate::specs::Judged::claim_judged))]
fn judge_work(
    alloc: Global,
    beginning: &PreparedStart,
    after: &StateRef<'_>,
    command: &Command,
    work: &Task,
) -> Result<(), Or<Refusal>>
    requires limits { beginning.now.limits ≡ limits_named after.now.projects beginning.now.project }
    requires used { (k : Part) → part k beginning.now.used.amounts ≤ 2 ^ 127 + 2 ^ 126 }
    requires used_pool { beginning.now.used.on_pool ≤ 2 ^ 127 + 2 ^ 126 }
    requires share { (k : Part) → part k beginning.now.share.amounts < 2 ^ 80 }
    requires part { beginning.now.share.on.disk < 2 ^ 80 }
    ensures { Says result (claim_judged command.now after.now beginning.now.fault beginning.now.project
        beginning.now.used beginning.now.share work.now) }
{
    let claim = claim_of(work);
    let project = limited_named(after, beginning.project.view(), beginning.limits);
    claim_settings_broken(alloc, after, claim)?;
    claim_forbidden(alloc, after, work)?;
    snapshot_blocked(alloc, after, command)?;
    claim_lacks_amount(alloc, after, &project, work)?;
    share_broken(alloc, &project, &beginning.used, &beginning.share)?;
    refuse_entry(alloc, beginning.fault)?;
    claim_tables_broken(alloc, after, claim)
}

/// The first rule that the kept operation of a number breaks, which was entered last, judged over the state with it
/// by what it claims alone. One that is not kept breaks none.
pub fn judge_claim(
    alloc: Global,
    beginning: &PreparedStart,
    after: &StateRef<'_>,
    command: &Command,
    number: u64,
) -> Result<(), Or<Refusal>>
    requires limits { beginning.now.limits ≡ limits_named after.now.projects beginning.now.project }
    requires used { (k : Part) → part k beginning.now.used.amounts ≤ 2 ^ 127 + 2 ^ 126 }
    requires used_pool { beginning.now.used.on_pool ≤ 2 ^ 127 + 2 ^ 126 }
    requires share { (k : Part) → part k beginning.now.share.amounts < 2 ^ 80 }
    requires part { beginning.now.share.on.disk < 2 ^ 80 }
    ensures { Says result (option_and_then
        (λ (o : OperationValue TaskValue). claim_judged command.now after.now beginning.now.fault beginning.now.project
        beginning.now.used beginning.now.share o.work) (kept_at after.now.operations number)) }
{
    match kept_at(after, number) {
        Some(operation) => judge_work(alloc, beginning, after, command, &operation.work),
        None => Ok(()),
    }
}

/// The operation that was entered last holds its share from now on, and its notice is left to be told. It takes no
/// memory.
pub fn commit_start(draft: &mut Draft, untold: &mut Vec<Waiting>, beginning: PreparedStart) -> Reply
    requires hold_room { 1 ≤ draft.old.backing.hold_room }
    requires limit { draft.old.state.operations.next - 1 < 2 ^ 40 }
    requires above { draft.old.backing.greatest < draft.old.state.operations.next - 1 }
    requires small { (k : Part) → part k beginning.share.amounts < 2 ^ 80 }
    requires small_part { beginning.share.on.disk < 2 ^ 80 }
    requires room { vec_len untold.old < vec_capacity untold.old }
    ensures state { draft.new.state
        ≡ holding beginning.project beginning.share.amounts beginning.share.on draft.old.state }
    ensures log { draft.new.log ≡ [] }
    ensures greatest { draft.new.backing.greatest ≡ draft.old.state.operations.next - 1 }
    ensures untold { untold.new.items ≡ untold.old.items ++ waiting_of.Whole beginning.notice ∷ [] }
    ensures capacity { vec_capacity untold.old ≤ vec_capacity untold.new }
    ensures reply { result ≡ reply.Started beginning.shown }
{
    let share = beginning.share;
    draft.hold(beginning.project, share.amounts, share.on);
    draft.keep_changes();
    push_reserved(untold, Waiting::Whole(beginning.notice));
    Reply::Started(beginning.shown)
}
