//! What the copy of a volume begins.
ghost use Rattle.std.specs.Prelude.{◌≡◌, IfOk, [], Some};
ghost use Rattle.host_model.specs.declared.call.HostCall.TheVariants as call;
ghost use Rattle.records.specs.declared.rows.Row.TheVariants as row_of;
ghost use Rattle.size_values.specs.declared.kinds.Deed.TheVariants as deed;
ghost use Rattle.row_machine.specs.machine.HostCalls.{volume_place, copy_calls};
ghost use Rattle.row_machine.specs.machine.NameRules.{volume_source};
ghost use Rattle.row_machine.specs.machine.NewRows.{copied_volume};
ghost use Rattle.row_machine.specs.machine.Plans.{volume_creation};
ghost use Rattle.row_machine.specs.machine.Tasks.{plain_task, volume_copy};
ghost use Rattle.plans_tasks.specs.Begun.{task_in};

use crate::creation_calls::copy_calls;
use crate::pairs::both;
use host_model::{HostCall, Place};
use records::{Body, Origin, Row, Target, Volume};
use row_machine::Task;
use row_readings::StateRef;
use rows_made::{new_description, patched_config};
use size_values::{Boxed, Deed, NoMemory, Seq, Text};
use std::alloc::Global;

/// Where the root of a volume stands.
fn volume_place(alloc: Global, project: &str, pool: &Text, name: &Text) -> Result<Place, NoMemory>
    ensures { IfOk result (λ p. p ≡ volume_place project.now pool.now name.now) }
{
    let names = both(pool.copy(alloc), name.copy(alloc));
    let (project, names) = both(Text::from_text(alloc, project), names)?;
    Ok(Place {
        volume: true,
        project,
        pool: names.0,
        name: names.1,
    })
}

/// The volume that a volume is copied from.
fn volume_source(alloc: Global, of: &Target, from: &Text, pool: &Text) -> Result<Target, NoMemory>
    ensures { IfOk result (λ t. t ≡ volume_source of.now from.now pool.now) }
{
    let names = both(pool.copy(alloc), from.copy(alloc));
    let (instance, names) = both(of.instance.copy(alloc), names)?;
    Ok(Target {
        kind: of.kind,
        pool: names.0,
        instance,
        name: names.1,
    })
}

/// A copy of a volume, with what the request gives over it.
fn copied_volume(
    alloc: Global,
    project: &str,
    of: &Target,
    body: &Body,
    moment: u64,
    source: &Volume,
) -> Result<Volume, NoMemory>
    ensures { IfOk result (λ r. r ≡ copied_volume project.now of.now body.now moment source.now) }
{
    let names = both(of.pool.copy(alloc), of.name.copy(alloc));
    let names = both(Text::from_text(alloc, project), names);
    let content = both(
        new_description(alloc, body),
        patched_config(&source.config, body),
    );
    let (names, content) = both(names, content)?;
    let of = names.1;
    Ok(Volume {
        project: names.0,
        pool: of.0,
        name: of.1,
        description: content.0,
        config: content.1,
        created: moment,
    })
}

/// Where the copy will stand, and the calls that make it.
fn place_and_calls(
    alloc: Global,
    project: &str,
    of: &Target,
    from: &Text,
    pool: &Text,
) -> Result<(Place, Seq<HostCall>), NoMemory>
    ensures { IfOk result (λ c. c
        ≡ (
          volume_place project.now of.now.pool of.now.name,
          copy_calls (volume_place project.now pool.now from.now) [] (volume_place project.now of.now.pool of.now.name),
        )) }
{
    let at = volume_place(alloc, project, &of.pool, &of.name);
    let (at, from) = both(at, volume_place(alloc, project, pool, from))?;
    let calls = copy_calls(alloc, &from, "", &at);
    drop(from);
    both(Ok(at), calls)
}

/// The operation that makes a copy, which its undoing takes away.
fn copy_task(
    about: (Text, Target),
    source: Target,
    row: Boxed<Volume>,
    copying: (Place, Seq<HostCall>),
) -> Task
    ensures { result
        ≡ record (plain_task deed.CopyVolume about.0 about.1 copying.1) {
          claim = Some (row_of.Volume row);
          source = Some source;
          undo = Some (call.Clear copying.0);
        } }
{
    Task {
        deed: Deed::CopyVolume,
        project: about.0,
        target: about.1,
        claim: Some(Row::Volume(row)),
        replaces: None,
        source: Some(source),
        calls: copying.1,
        undo: Some(HostCall::Clear { at: copying.0 }),
        done: 0,
    }
}

/// A volume is copied, in the project that it belongs to.
fn volume_copy(
    alloc: Global,
    project: &str,
    of: &Target,
    body: &Body,
    moment: u64,
    from: &Text,
    pool: &Text,
    source: &Volume,
) -> Result<Task, NoMemory>
    ensures { IfOk result (λ w. w
        ≡ volume_copy project.now of.now body.now moment (volume_source of.now from.now pool.now) source.now) }
{
    let about = both(Text::from_text(alloc, project), of.copy(alloc));
    let about = both(about, volume_source(alloc, of, from, pool));
    let row = Boxed::of(
        alloc,
        copied_volume(alloc, project, of, body, moment, source),
    );
    let made = both(row, place_and_calls(alloc, project, of, from, pool));
    let (about, made) = both(about, made)?;
    Ok(copy_task(about.0, about.1, made.0, made.1))
}

/// What the creation of a volume begins: that of a copy an operation, where its source is there.
pub(crate) fn plan_volume(
    alloc: Global,
    view: &StateRef<'_>,
    home: &str,
    of: &Target,
    body: &Body,
    moment: u64,
) -> Result<Option<Task>, NoMemory>
    ensures { IfOk result (λ w. w ≡ task_in
        (volume_creation view.now home.now of.now body.now moment body.now.origin)) }
{
    match &body.origin {
        Origin::None => Ok(None),
        Origin::Image(_) => Ok(None),
        Origin::Copy { from, pool, .. } => {
            let Some(source) = view.volume_named(home, pool.view(), from.view()) else {
                return Ok(None);
            };
            let work = volume_copy(alloc, home, of, body, moment, from, pool, source)?;
            Ok(Some(work))
        }
    }
}
