//! The parts of a change: what it needs is made ready, it is judged by the state after it, and it is committed or
//! given up.
ghost use Rattle.std.specs.Prelude.{◌≡◌, [], IfOk, OnOk, option_and_then};
ghost use Rattle.std.specs.List.{AllByRecursion};
ghost use Rattle.std.specs.Option.{option_copied};
ghost use Rattle.size_values.specs.Causes.{Says};
ghost use Rattle.records.specs.declared.refusals.Rule.TheVariants as rule_of;
ghost use Rattle.row_machine.specs.facts.Whole.{IsWhole};
ghost use Rattle.row_machine.specs.machine.Changes.{applied, rows_put};
ghost use Rattle.row_machine.specs.machine.Refusals.{plain_refusal};
ghost use Rattle.row_machine.specs.machine.State.{State};
ghost use Rattle.core_totals.specs.NewProfile.{profile_in, profile_put, puts_new_profile};
ghost use Rattle.rules_limits.specs.AllProjects.{Serves};
ghost use Rattle.rules_policy.specs.Alone.{profile_forbidden};
ghost use Rattle.core_drafts.specs.Drafted.{former, IsReady};
ghost use Rattle.machine_laws.specs.Entries.{entry_changes};
ghost use Rattle.core_totals.specs.core_reports.specs.Entries.{HasEntry};
ghost use Rattle.core_judging.specs.Before.{FitsLimits, Judges};
ghost use Rattle.core_judging.specs.Judged.{changes_judged, projects_judged, reply_for};
ghost use Rattle.core_judging.specs.Commits.{Commits};

use crate::one_project::{OneProject, project_before, project_broken, project_within};
use core_drafts::Draft;
use core_totals::entry_changes;
use record_keeper::Keeper;
use records::{Profile, Refusal, Reply, Row, Rule};
use row_machine::RowChange;
use row_readings::StateRef;
use rules_limits::{Usage, counts_broken, limited_projects, limits_broken, usage_before_changes};
use rules_policy::{policy_broken, profile_forbidden};
use rules_refusals::no_details;
use rules_settings::settings_broken;
use rules_tables::tables_broken;
use size_values::{NoMemory, Or, Seq};
use std::alloc::Global;

/// The reply that tells a refusal, or that memory was refused.
pub fn refused_reply(why: Or<Refusal>) -> Reply
    ensures { result ≡ reply_for why }
{
    match why {
        Or::NoMemory => Reply::NoMemory,
        Or::Why(refusal) => Reply::Refused(refusal),
    }
}

fn copy_change(alloc: Global, change: &RowChange) -> Result<RowChange, NoMemory>
    ensures { IfOk result (λ c. c ≡ change.now) }
{
    match change {
        RowChange::Put(row) => Ok(RowChange::Put(row.copy(alloc)?)),
        RowChange::Remove(kind, key) => Ok(RowChange::Remove(*kind, key.copy(alloc)?)),
    }
}

/// The same changes once more, for what is asked of them after they were made.
fn copy_changes(alloc: Global, changes: &Seq<RowChange>) -> Result<Seq<RowChange>, NoMemory>
    ensures { IfOk result (λ cs. cs ≡ changes.now) }
{
    let mut copies = Seq::new(alloc);
    for change in changes.view() {
        copies.push(copy_change(alloc, change)?)?;
    }
    Ok(copies)
}

// ---- one new profile

/// The profile that a change puts.
fn profile_in(change: &RowChange) -> Option<&Profile>
    ensures { option_copied result ≡ profile_in change.now }
{
    match change {
        RowChange::Put(row) => match row {
            Row::Profile(profile) => Some(profile),
            _ => None,
        },
        RowChange::Remove(_, _) => None,
    }
}

/// The profile that changes put which do nothing else.
fn profile_put(changes: &[RowChange]) -> Option<&Profile>
    ensures { option_copied result ≡ profile_put changes.now }
{
    match changes {
        [change] => profile_in(change),
        _ => None,
    }
}

/// Whether changes put one profile, of a project and a name that no profile has, and do nothing else.
fn puts_new_profile(view: &StateRef<'_>, changes: &[RowChange]) -> bool
    ensures { result ≡ puts_new_profile view.now changes.now }
{
    match profile_put(changes) {
        Some(profile) => view
            .profile_named(profile.project.view(), profile.name.view())
            .is_none(),
        None => false,
    }
}

/// The first rule on policy that the profile breaks in its project which changes put.
fn profile_put_forbidden(
    alloc: Global,
    after: &StateRef<'_>,
    changes: &[RowChange],
) -> Result<(), Or<Refusal>>
    ensures { Says result (option_and_then (profile_forbidden after.now) (profile_put changes.now)) }
{
    match profile_put(changes) {
        Some(profile) => profile_forbidden(alloc, after, profile),
        None => Ok(()),
    }
}

// ---- what is made ready

/// What the rules on policy and limits are judged by, besides the state after changes.
#[derive(Drop)]
pub enum Before {
    /// The changes put one new profile. No instance names it, and so it alone can break a rule, in its project.
    NewProfile,
    /// The changes are of rows of one project, which may get another name by them. It is judged alone, by its limits
    /// after them.
    OneProject(OneProject),
    /// What counted for limits before the changes. They are judged over all projects.
    Counted(Usage),
}

/// What a change needs besides the rows: what it is judged by, and the changes once more.
#[derive(Drop)]
pub struct Ready {
    pub before: Before,
    pub changes: Seq<RowChange>,
}

/// What changes are judged by that are to be made. For one new profile nothing is counted, and for changes within a
/// project what that one uses.
fn before_changes(
    alloc: Global,
    view: &StateRef<'_>,
    changes: &[RowChange],
) -> Result<Before, NoMemory>
    ensures limits { IfOk result (λ b. FitsLimits b (applied view.now changes.now)) }
    ensures judges { IfOk result (λ b. Judges b view.now changes.now) }
{
    if puts_new_profile(view, changes) {
        return Ok(Before::NewProfile);
    }
    match project_within(view, changes) {
        Some(project) => {
            let before = project_before(alloc, view, changes, project)?;
            Ok(Before::OneProject(before))
        }
        None => Ok(Before::Counted(usage_before_changes(alloc, view, changes)?)),
    }
}

/// Takes all memory that a change needs, but for its entries.
pub fn prepare(
    alloc: Global,
    draft: &mut Draft,
    changes: &Seq<RowChange>,
) -> Result<Ready, NoMemory>
    requires settled { draft.old.log ≡ [] }
    ensures limits { IfOk result (λ r. FitsLimits r.before (applied draft.old.state changes.now)) }
    ensures before { IfOk result (λ r. Judges r.before draft.old.state changes.now) }
    ensures changes { IfOk result (λ r. r.changes ≡ changes.now) }
    ensures ready { OnOk result (IsReady draft.new changes.now) }
    ensures state { draft.new.state ≡ draft.old.state }
    ensures log { draft.new.log ≡ [] }
    ensures greatest { draft.new.backing.greatest ≡ draft.old.backing.greatest }
{
    draft.reserve_for(alloc, changes)?;
    let before = before_changes(alloc, &draft.view(), changes.view())?;
    let changes = copy_changes(alloc, changes)?;
    Ok(Ready { before, changes })
}

// ---- what is judged

/// The first rule on policy and limits that is broken, of all projects. The limits of each are read once.
fn projects_broken(alloc: Global, before: &Usage, after: &StateRef<'_>) -> Result<(), Or<Refusal>>
    ensures { (s : State) → Serves before.now s after.now → Says result (projects_judged s after.now) }
{
    policy_broken(alloc, after)?;
    let projects = limited_projects(alloc, after.projects)?;
    counts_broken(alloc, after, &projects)?;
    limits_broken(alloc, before, after, &projects)
}

/// The first rule on policy and limits that changes break, judged over the state after them.
fn judge_projects(
    alloc: Global,
    before: &Before,
    after: &StateRef<'_>,
    changes: &[RowChange],
) -> Result<(), Or<Refusal>>
    requires { FitsLimits before.now after.now }
    ensures { (s : State) → IsWhole s → after.now ≡ applied s changes.now → Judges before.now s changes.now
        → Says result (projects_judged s after.now) }
{
    match before {
        Before::NewProfile => profile_put_forbidden(alloc, after, changes),
        Before::OneProject(project) => project_broken(alloc, project, after),
        Before::Counted(usage) => projects_broken(alloc, usage, after),
    }
}

/// The first rule that changes break, judged over the state after them: settings, policy, limits and tables.
#[tactic(auto, unfolding(crate::specs::Judged::changes_judged))]
pub fn judge(
    alloc: Global,
    before: &Before,
    after: &StateRef<'_>,
    changes: &[RowChange],
) -> Result<(), Or<Refusal>>
    requires { FitsLimits before.now after.now }
    ensures { (s : State) → IsWhole s → after.now ≡ applied s changes.now → Judges before.now s changes.now
        → Says result (changes_judged s after.now (rows_put changes.now)) }
{
    settings_broken(alloc, after, changes)?;
    judge_projects(alloc, before, after, changes)?;
    tables_broken(alloc, after, changes)
}

// ---- the commit

/// The store failed.
fn unavailable(alloc: Global) -> Refusal
    ensures { result ≡ plain_refusal rule_of.K1 }
{
    Refusal {
        rule: Rule::K1,
        details: no_details(alloc),
    }
}

/// Commits changes in one call to the keeper.
pub fn commit<R: Keeper>(
    alloc: Global,
    keeper: &mut R,
    changes: &Seq<RowChange>,
) -> Result<(), Or<Refusal>>
    requires entries { AllByRecursion HasEntry changes.now }
    ensures { Commits result (entry_changes changes.now) (R.store keeper.old) (R.store keeper.new) }
{
    let entries = entry_changes(alloc, changes)?;
    match keeper.commit(&entries) {
        Ok(()) => Ok(()),
        Err(Or::NoMemory) => Err(Or::NoMemory),
        Err(Or::Why(_)) => Err(Or::Why(unavailable(alloc))),
    }
}

/// Takes the changes back, and tells why.
pub fn roll_back(draft: &mut Draft, why: Or<Refusal>) -> Reply
    ensures reply { result ≡ reply_for why }
    ensures state { draft.new.state ≡ former draft.old }
    ensures log { draft.new.log ≡ [] }
    ensures greatest { draft.new.backing.greatest ≡ draft.old.backing.greatest }
{
    draft.undo_changes();
    refused_reply(why)
}
