//! The row of an instance after a PATCH, which changes it at once.
ghost use Rattle.std.specs.Prelude.{◌≡◌, unwrap_or, IfOk};
ghost use Rattle.row_machine.specs.machine.NewRows.{patched_devices, patched_instance};

use crate::contents::patched_content;
use crate::parts::patched_devices;
use config_lists::Devices;
use records::{Body, Instance};
use size_values::{NoMemory, Seq, Text};
use std::alloc::Global;

/// What an instance has beside its own settings: its profiles and devices.
#[derive(Drop)]
struct Layers {
    profiles: Seq<Text>,
    devices: Devices,
}

/// A list of its own with the same texts.
fn copy_texts(alloc: Global, texts: &Seq<Text>) -> Result<Seq<Text>, NoMemory>
    ensures { IfOk result (λ c. c ≡ texts.now) }
{
    let mut copy = Seq::new(alloc);
    for text in texts.view() {
        copy.push(text.copy(alloc)?)?;
    }
    Ok(copy)
}

/// The profiles that the request gives, or else the old ones.
fn patched_profiles(alloc: Global, old: &Instance, body: &Body) -> Result<Seq<Text>, NoMemory>
    ensures { IfOk result (λ names. names ≡ unwrap_or body.now.profiles old.now.profiles) }
{
    match &body.profiles {
        Some(names) => copy_texts(alloc, names),
        None => copy_texts(alloc, &old.profiles),
    }
}

fn patched_layers(alloc: Global, old: &Instance, body: &Body) -> Result<Layers, NoMemory>
    ensures { IfOk result (λ l. l ≡ record {
      profiles = unwrap_or body.now.profiles old.now.profiles;
      devices = patched_devices old.now.devices body.now;
    }) }
{
    let devices = patched_devices(&old.devices, body)?;
    let profiles = patched_profiles(alloc, old, body)?;
    Ok(Layers { profiles, devices })
}

/// The names of an instance and of its image, of its own.
#[derive(Drop)]
struct Names {
    project: Text,
    name: Text,
    origin: Text,
}

fn names_of(alloc: Global, old: &Instance) -> Result<Names, NoMemory>
    ensures { IfOk result (λ n. n ≡ record {
      project = old.now.project;
      name = old.now.name;
      origin = old.now.origin;
    }) }
{
    let project = old.project.copy(alloc)?;
    let name = old.name.copy(alloc)?;
    let origin = old.origin.copy(alloc)?;
    Ok(Names {
        project,
        name,
        origin,
    })
}

/// An instance after a PATCH.
pub fn patched_instance(alloc: Global, old: &Instance, body: &Body) -> Result<Instance, NoMemory>
    ensures { IfOk result (λ r. r ≡ patched_instance old.now body.now) }
{
    let names = names_of(alloc, old)?;
    let layers = patched_layers(alloc, old, body)?;
    let content = patched_content(alloc, &old.description, &old.config, body)?;
    Ok(Instance {
        project: names.project,
        name: names.name,
        kind: old.kind,
        ephemeral: body.ephemeral.unwrap_or(old.ephemeral),
        description: content.description,
        origin: names.origin,
        created: old.created,
        profiles: layers.profiles,
        config: content.config,
        devices: layers.devices,
    })
}
