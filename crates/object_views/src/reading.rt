//! What reads answer.
ghost use Rattle.std.specs.Prelude.{◌≡◌, ◌∷◌, [], codes, IfOk};
ghost use Rattle.std.specs.Option.{option_map, option_and_then};
ghost use Rattle.records.specs.declared.replies.View.TheVariants as view_of_kind;
ghost use Rattle.records.specs.declared.replies.Reply.TheVariants as reply;
ghost use Rattle.row_machine.specs.machine.Plans.{row_of};
ghost use Rattle.row_machine.specs.shown.Views.{list_reply, listed, one, read, row_view, rows_reply, state_view};
ghost use Rattle.row_machine.specs.machine.StandingRules.{power_of};

use crate::listed::{lent_row, listed};
use crate::operations_shown::{operation_reply, operations_reply};
use crate::row_views::{row_view, row_views};
use crate::usage::usage_view;
use object_users::{RowRef, urls_of_rows};
use records::{AnyRow, Instance, Reply, Target, View, What};
use row_readings::{StateRef, power_of};
use size_values::{NoMemory, ObjectKind, Seq, Text};
use std::alloc::Global;

// ---- lists

/// Rows by their URLs or whole.
fn rows_reply(
    alloc: Global,
    view: &StateRef<'_>,
    rows: &[RowRef<'_>],
    recursion: bool,
) -> Result<Reply, NoMemory>
    ensures { IfOk result (λ r. r ≡ rows_reply view.now rows.now recursion) }
{
    if recursion {
        let views = row_views(alloc, view, rows)?;
        Ok(Reply::Many(views))
    } else {
        let urls = urls_of_rows(alloc, rows)?;
        Ok(Reply::Links(urls))
    }
}

/// The rows of a list by their URLs or whole.
fn listed_reply(
    alloc: Global,
    view: &StateRef<'_>,
    project: &str,
    of: &Target,
    recursion: bool,
) -> Result<Reply, NoMemory>
    ensures { IfOk result (λ r. r ≡ rows_reply view.now (listed view.now project.now of.now) recursion) }
{
    let rows = listed(alloc, view, project, of)?;
    rows_reply(alloc, view, &rows, recursion)
}

/// A list, with recursion or without.
fn list_reply(
    alloc: Global,
    view: &StateRef<'_>,
    project: &str,
    of: &Target,
    recursion: bool,
) -> Result<Reply, NoMemory>
    ensures { IfOk result (λ r. r ≡ list_reply view.now project.now of.now recursion) }
{
    match of.kind {
        ObjectKind::Project
        | ObjectKind::Profile
        | ObjectKind::Network
        | ObjectKind::Pool
        | ObjectKind::Volume
        | ObjectKind::Instance
        | ObjectKind::Snapshot => listed_reply(alloc, view, project, of, recursion),
        ObjectKind::Operation => operations_reply(alloc, view, project, recursion),
    }
}

// ---- single objects

/// A row that is asked for.
fn get_reply(
    alloc: Global,
    view: &StateRef<'_>,
    project: &str,
    of: &Target,
) -> Result<Reply, NoMemory>
    ensures { IfOk result (λ r. r ≡ one (option_map (row_view view.now) (row_of view.now project.now of.now))) }
{
    match lent_row(view, project, of) {
        Some(row) => Ok(Reply::One(row_view(alloc, view, &row)?)),
        None => Ok(Reply::Empty),
    }
}

/// The status of an instance.
fn power_reply(view: &StateRef<'_>, row: &Instance) -> Reply
    ensures { result ≡ one (option_map view_of_kind.Power (power_of view.now row.now.project row.now.name)) }
{
    match power_of(view, row.project.view(), row.name.view()) {
        Some(power) => Reply::One(View::Power(power)),
        None => Reply::Empty,
    }
}

/// The state of an instance or of a project.
fn state_of_row(
    alloc: Global,
    view: &StateRef<'_>,
    project: &str,
    row: &RowRef<'_>,
) -> Result<Reply, NoMemory>
    ensures { IfOk result (λ r. r ≡ one (state_view view.now project.now row.now)) }
{
    match row.row {
        AnyRow::Project(row) => Ok(Reply::One(usage_view(alloc, view, row)?)),
        AnyRow::Instance(row) => Ok(power_reply(view, row)),
        AnyRow::Profile(_)
        | AnyRow::Network(_)
        | AnyRow::Pool(_)
        | AnyRow::Volume(_)
        | AnyRow::Snapshot(_) => Ok(Reply::Empty),
    }
}

/// The state of an instance or of a project that is asked for.
fn state_reply(
    alloc: Global,
    view: &StateRef<'_>,
    project: &str,
    of: &Target,
) -> Result<Reply, NoMemory>
    ensures { IfOk result (λ r. r
        ≡ one (option_and_then (state_view view.now project.now) (row_of view.now project.now of.now))) }
{
    match lent_row(view, project, of) {
        Some(row) => state_of_row(alloc, view, project, &row),
        None => Ok(Reply::Empty),
    }
}

// ---- reads

/// The versions of the API, of which there is one.
fn root(alloc: Global) -> Result<Reply, NoMemory>
    ensures { IfOk result (λ r. r ≡ reply.Links (codes "/1.0" ∷ [])) }
{
    let mut urls = Seq::new(alloc);
    urls.push(Text::from_text(alloc, "/1.0")?)?;
    Ok(Reply::Links(urls))
}

/// The answer of a read. Other commands answer nothing here.
#[tactic(auto, unfolding(row_machine::specs::shown::Views::read))]
pub fn read(
    alloc: Global,
    view: &StateRef<'_>,
    project: &Text,
    what: &What,
) -> Result<Reply, NoMemory>
    ensures { IfOk result (λ r. r ≡ read view.now project.now what.now) }
{
    match what {
        What::Root => root(alloc),
        What::Server => Ok(Reply::One(View::Server)),
        What::List { of, recursion } => list_reply(alloc, view, project.view(), of, *recursion),
        What::Get { of } => get_reply(alloc, view, project.view(), of),
        What::State { of } => state_reply(alloc, view, project.view(), of),
        What::GetOp { op } => operation_reply(alloc, view, *op),
        What::Wait { op, .. } => operation_reply(alloc, view, *op),
        What::Create { .. }
        | What::Put { .. }
        | What::Patch { .. }
        | What::Move { .. }
        | What::Delete { .. }
        | What::Act { .. }
        | What::Restore { .. }
        | What::Cancel { .. } => Ok(Reply::Empty),
    }
}
