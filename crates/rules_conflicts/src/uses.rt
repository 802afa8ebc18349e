//! What claims name: networks, storage pools and volumes.
ghost use Rattle.std.specs.Prelude.{◌≡◌, IfOk, false};
ghost use Rattle.std.specs.List.{list_any};
ghost use Rattle.std.specs.Option.{option_copied, option_map_or, option_to_list};
ghost use Rattle.size_values.specs.declared.kinds.ObjectKind.TheVariants as kind_of;
ghost use Rattle.row_machine.specs.machine.Claims.{claimed_volume};
ghost use Rattle.row_machine.specs.machine.Holders.{claim_rows, claim_uses, instance_uses, source_uses, volume_uses};

use object_users::{instance_uses, volume_uses};
use records::{Instance, Target};
use row_machine::Task;
use row_readings::{StateRef, claimed_instance, claimed_volume, replaced_instance};
use size_values::{NoMemory, ObjectKind};
use std::alloc::Global;

/// The volume that a copy is made from names its pool and itself.
fn source_uses(home: &str, of: &Target, project: &str, source: &Target) -> bool
    ensures { result ≡ source_uses home.now of.now project.now source.now }
{
    match source.kind {
        ObjectKind::Volume => volume_source_uses(home, of, project, source),
        ObjectKind::Project
        | ObjectKind::Profile
        | ObjectKind::Network
        | ObjectKind::Pool
        | ObjectKind::Instance
        | ObjectKind::Snapshot
        | ObjectKind::Operation => false,
    }
}

fn volume_source_uses(home: &str, of: &Target, project: &str, source: &Target) -> bool
    requires { source.now.kind ≡ kind_of.Volume }
    ensures { result ≡ source_uses home.now of.now project.now source.now }
{
    match of.kind {
        ObjectKind::Pool => source.pool.view() == of.name.view(),
        ObjectKind::Volume => {
            project == home
                && source.pool.view() == of.pool.view()
                && source.name.view() == of.name.view()
        }
        ObjectKind::Project
        | ObjectKind::Profile
        | ObjectKind::Network
        | ObjectKind::Instance
        | ObjectKind::Snapshot
        | ObjectKind::Operation => false,
    }
}

fn may_use(
    alloc: Global,
    view: &StateRef<'_>,
    home: &str,
    of: &Target,
    row: Option<&Instance>,
) -> Result<bool, NoMemory>
    ensures { IfOk result (λ b. b
        ≡ list_any (instance_uses view.now home.now of.now) (option_to_list (option_copied row.entry))) }
{
    match row {
        Some(row) => instance_uses(alloc, view, home, of, row),
        None => Ok(false),
    }
}

/// Whether the instance that a claim would put names the object, or the one that this one replaces.
fn claim_rows_use(
    alloc: Global,
    view: &StateRef<'_>,
    home: &str,
    of: &Target,
    work: &Task,
) -> Result<bool, NoMemory>
    ensures { IfOk result (λ b. b ≡ list_any (instance_uses view.now home.now of.now) (claim_rows view.now work.now)) }
{
    if may_use(alloc, view, home, of, claimed_instance(work))? {
        return Ok(true);
    }
    may_use(alloc, view, home, of, replaced_instance(view, work))
}

fn claimed_volume_uses(of: &Target, work: &Task) -> bool
    ensures { result ≡ option_map_or (volume_uses of.now) (claimed_volume work.now) false }
{
    match claimed_volume(work) {
        Some(row) => volume_uses(of, row),
        None => false,
    }
}

fn copy_source_uses(home: &str, of: &Target, work: &Task) -> bool
    ensures { result ≡ option_map_or (source_uses home.now of.now work.now.project) work.now.source false }
{
    match &work.source {
        Some(source) => source_uses(home, of, work.project.view(), source),
        None => false,
    }
}

/// A claim names what the row that it would put and the row that it replaces name, and a copy of a volume its source.
pub(crate) fn claim_uses(
    alloc: Global,
    view: &StateRef<'_>,
    home: &str,
    of: &Target,
    work: &Task,
) -> Result<bool, NoMemory>
    ensures { IfOk result (λ b. b ≡ claim_uses view.now home.now of.now work.now) }
{
    if claim_rows_use(alloc, view, home, of, work)? {
        return Ok(true);
    }
    Ok(claimed_volume_uses(of, work) || copy_source_uses(home, of, work))
}
