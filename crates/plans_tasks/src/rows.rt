//! The rows that changes of instances make.
ghost use Rattle.std.specs.Prelude.{◌≡◌, IfOk, [], unwrap_or};
ghost use Rattle.row_machine.specs.machine.NewRows.{new_config, new_devices, put_instance, restored_instance};

use crate::making::copy_texts;
use crate::pairs::both;
use config_lists::{Config, Devices};
use records::{Body, Instance, Snapshot};
use rows_made::{new_config, new_description, new_devices};
use size_values::{NoMemory, Seq, Text};
use std::alloc::Global;

/// What an instance has, and its snapshots keep: profiles, and settings and devices of its own.
#[derive(Drop)]
pub(crate) struct Parts {
    pub(crate) profiles: Seq<Text>,
    pub(crate) config: Config,
    pub(crate) devices: Devices,
}

/// Parts of their own, which are the same.
pub(crate) fn copied_parts(
    alloc: Global,
    profiles: &Seq<Text>,
    config: &Config,
    devices: &Devices,
) -> Result<Parts, NoMemory>
    ensures { IfOk result (λ p. p
        ≡ record { profiles = profiles.now; config = config.now; devices = devices.now }) }
{
    let settings = both(config.copy(), devices.copy());
    let (profiles, settings) = both(copy_texts(alloc, profiles.view()), settings)?;
    Ok(Parts {
        profiles,
        config: settings.0,
        devices: settings.1,
    })
}

/// The profiles after a PUT: none where the request gives none.
fn put_profiles(alloc: Global, body: &Body) -> Result<Seq<Text>, NoMemory>
    ensures { IfOk result (λ names. names ≡ unwrap_or body.now.profiles []) }
{
    match &body.profiles {
        Some(names) => copy_texts(alloc, names.view()),
        None => Ok(Seq::new(alloc)),
    }
}

/// The parts after a PUT.
fn put_parts(alloc: Global, body: &Body) -> Result<Parts, NoMemory>
    ensures { IfOk result (λ p. p
        ≡ record {
          profiles = unwrap_or body.now.profiles [];
          config = new_config body.now;
          devices = new_devices body.now;
        }) }
{
    let settings = both(new_config(alloc, body), new_devices(alloc, body));
    let (profiles, settings) = both(put_profiles(alloc, body), settings)?;
    Ok(Parts {
        profiles,
        config: settings.0,
        devices: settings.1,
    })
}

/// The names of an instance and of its image.
#[derive(Drop)]
struct Names {
    project: Text,
    name: Text,
    origin: Text,
}

fn names_of(alloc: Global, old: &Instance) -> Result<Names, NoMemory>
    ensures { IfOk result (λ n. n
        ≡ record { project = old.now.project; name = old.now.name; origin = old.now.origin }) }
{
    let own = both(old.project.copy(alloc), old.name.copy(alloc));
    let (own, origin) = both(own, old.origin.copy(alloc))?;
    Ok(Names {
        project: own.0,
        name: own.1,
        origin,
    })
}

/// An instance after a PUT.
pub(crate) fn put_instance(alloc: Global, old: &Instance, body: &Body) -> Result<Instance, NoMemory>
    ensures { IfOk result (λ r. r ≡ put_instance old.now body.now) }
{
    let texts = both(names_of(alloc, old), new_description(alloc, body));
    let (texts, parts) = both(texts, put_parts(alloc, body))?;
    let names = texts.0;
    Ok(Instance {
        project: names.project,
        name: names.name,
        kind: old.kind,
        ephemeral: body.ephemeral.unwrap_or(false),
        description: texts.1,
        origin: names.origin,
        created: old.created,
        profiles: parts.profiles,
        config: parts.config,
        devices: parts.devices,
    })
}

/// An instance with what its snapshot kept.
pub(crate) fn restored_instance(
    alloc: Global,
    old: &Instance,
    snapshot: &Snapshot,
) -> Result<Instance, NoMemory>
    ensures { IfOk result (λ r. r ≡ restored_instance old.now snapshot.now) }
{
    let texts = both(names_of(alloc, old), old.description.copy(alloc));
    let parts = copied_parts(
        alloc,
        &snapshot.profiles,
        &snapshot.config,
        &snapshot.devices,
    );
    let (texts, parts) = both(texts, parts)?;
    let names = texts.0;
    Ok(Instance {
        project: names.project,
        name: names.name,
        kind: old.kind,
        ephemeral: old.ephemeral,
        description: texts.1,
        origin: names.origin,
        created: old.created,
        profiles: parts.profiles,
        config: parts.config,
        devices: parts.devices,
    })
}

/// An instance under another name.
pub(crate) fn renamed_instance(
    alloc: Global,
    old: &Instance,
    to: &Text,
) -> Result<Instance, NoMemory>
    ensures { IfOk result (λ r. r ≡ record old.now { name = to.now }) }
{
    let (row, name) = both(old.copy(alloc), to.copy(alloc))?;
    Ok(Instance { name, ..row })
}
