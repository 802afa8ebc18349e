//! E1: an object is not as a request expects it.
ghost use Rattle.std.specs.Prelude.{◌≡◌, IfOk};
ghost use Rattle.std.specs.Option.{option_copied};
ghost use Rattle.size_values.specs.Causes.{Says};
ghost use Rattle.records.specs.AnyRows.{row_in};
ghost use Rattle.row_machine.specs.machine.Expectations.{has_tag, not_as_expected, object_at, version_passed};

use records::{AnyRow, Command, Refusal, Rule, Target, What};
use row_codec::tag_of;
use row_readings::{StateRef, row_of};
use rules_refusals::on_object_of;
use size_values::{NoMemory, Or};
use std::alloc::Global;

/// The object that a command reads or changes at its own path.
fn object_at(what: &What) -> Option<&Target>
    ensures { option_copied result ≡ object_at what.now }
{
    match what {
        What::Get { of } => Some(of),
        What::State { of } => Some(of),
        What::Put { of, .. } => Some(of),
        What::Patch { of, .. } => Some(of),
        What::Move { of, .. } => Some(of),
        What::Delete { of } => Some(of),
        What::Act { of, .. } => Some(of),
        What::Restore { of, .. } => Some(of),
        What::Root
        | What::Server
        | What::List { .. }
        | What::Create { .. }
        | What::GetOp { .. }
        | What::Cancel { .. }
        | What::Wait { .. } => None,
    }
}

/// Whether the row is of the version that a tag names.
fn has_tag(alloc: Global, tag: &str, row: AnyRow<'_>) -> Result<bool, NoMemory>
    ensures { IfOk result (λ has. has ≡ has_tag tag.now (row_in row.entry)) }
{
    match tag_of(alloc, row)? {
        Some(own) => Ok(own.view() == tag),
        None => Ok(false),
    }
}

/// An object is not of the version that a tag names.
fn version_passed(
    alloc: Global,
    view: &StateRef<'_>,
    project: &str,
    tag: &str,
    of: &Target,
) -> Result<(), Or<Refusal>>
    ensures { Says result (version_passed view.now project.now tag.now of.now) }
{
    let Some(row) = row_of(view, project, of) else {
        return Ok(());
    };
    if has_tag(alloc, tag, row)? {
        return Ok(());
    }
    Err(Or::Why(on_object_of(alloc, Rule::E1, of.kind, of.name.view(), project)?))
}

/// E1: the object of a command is not as the command expects it.
#[tactic(auto, unfolding(row_machine::specs::machine::Expectations::not_as_expected))]
pub(crate) fn not_as_expected(
    alloc: Global,
    view: &StateRef<'_>,
    command: &Command,
) -> Result<(), Or<Refusal>>
    ensures { Says result (not_as_expected view.now command.now) }
{
    let Some(tag) = &command.expects else {
        return Ok(());
    };
    let Some(of) = object_at(&command.what) else {
        return Ok(());
    };
    version_passed(alloc, view, command.project.view(), tag.view(), of)
}
