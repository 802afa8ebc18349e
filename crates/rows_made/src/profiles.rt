//! The rows of profiles that commands make.
ghost use Rattle.std.specs.Prelude.{◌≡◌, IfOk};
ghost use Rattle.row_machine.specs.machine.NewRows.{new_devices, patched_devices};
ghost use Rattle.row_machine.specs.machine.NewRows.{default_profile};
ghost use Rattle.row_machine.specs.machine.NewRows.{made_profile, put_profile, patched_profile};

use crate::contents::{Content, copied_content, new_content, patched_content};
use crate::parts::{new_devices, patched_devices};
use config_lists::{Config, Devices};
use records::{Body, Profile};
use size_values::{NoMemory, Text};
use std::alloc::Global;

/// The profile `default` of a project as it is made: without settings and devices.
pub fn default_profile(alloc: Global, project: &Text) -> Result<Profile, NoMemory>
    ensures { IfOk result (λ p. p ≡ default_profile project.now) }
{
    let project = project.copy(alloc)?;
    let name = Text::from_text(alloc, "default")?;
    Ok(Profile {
        project,
        name,
        description: Text::new(alloc),
        config: Config::new(alloc),
        devices: Devices::new(alloc),
    })
}

/// The profile of this name in this project.
fn profile_of(
    alloc: Global,
    project: &str,
    name: &Text,
    content: Content,
    devices: Devices,
) -> Result<Profile, NoMemory>
    ensures { IfOk result (λ r. r ≡ record {
      project = project.now;
      name = name.now;
      description = content.description;
      config = content.config;
      devices = devices;
    }) }
{
    let project = Text::from_text(alloc, project)?;
    let name = name.copy(alloc)?;
    Ok(Profile {
        project,
        name,
        description: content.description,
        config: content.config,
        devices,
    })
}

/// A profile as it is created in the project that it belongs to.
pub fn made_profile(
    alloc: Global,
    project: &str,
    name: &Text,
    body: &Body,
) -> Result<Profile, NoMemory>
    ensures { IfOk result (λ r. r ≡ made_profile project.now name.now body.now) }
{
    let devices = new_devices(alloc, body)?;
    let content = new_content(alloc, body)?;
    profile_of(alloc, project, name, content, devices)
}

/// A profile after a PUT.
pub fn put_profile(alloc: Global, old: &Profile, body: &Body) -> Result<Profile, NoMemory>
    ensures { IfOk result (λ r. r ≡ put_profile old.now body.now) }
{
    made_profile(alloc, old.project.view(), &old.name, body)
}

/// A profile after a PATCH.
pub fn patched_profile(alloc: Global, old: &Profile, body: &Body) -> Result<Profile, NoMemory>
    ensures { IfOk result (λ r. r ≡ patched_profile old.now body.now) }
{
    let devices = patched_devices(&old.devices, body)?;
    let content = patched_content(alloc, &old.description, &old.config, body)?;
    profile_of(alloc, old.project.view(), &old.name, content, devices)
}

/// A profile in this project and under this name.
fn placed_profile(
    alloc: Global,
    old: &Profile,
    project: &Text,
    name: &Text,
) -> Result<Profile, NoMemory>
    ensures { IfOk result (λ r. r ≡ record old.now { project = project.now; name = name.now }) }
{
    let devices = old.devices.copy()?;
    let content = copied_content(alloc, &old.description, &old.config)?;
    profile_of(alloc, project.view(), name, content, devices)
}

/// A profile under another name.
pub fn renamed_profile(alloc: Global, old: &Profile, to: &Text) -> Result<Profile, NoMemory>
    ensures { IfOk result (λ r. r ≡ record old.now { name = to.now }) }
{
    placed_profile(alloc, old, &old.project, to)
}

/// A profile in another project.
pub fn rehomed_profile(alloc: Global, old: &Profile, project: &Text) -> Result<Profile, NoMemory>
    ensures { IfOk result (λ r. r ≡ record old.now { project = project.now }) }
{
    placed_profile(alloc, old, project, &old.name)
}
