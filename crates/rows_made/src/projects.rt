//! The rows of projects that commands make (<https://linuxcontainers.org/incus/docs/main/reference/projects/>).
ghost use Rattle.std.specs.Prelude.{◌≡◌, ◌≢◌, [], IfOk, OnOk};
ghost use Rattle.row_machine.specs.machine.NewRows.{new_config, feature_on};
ghost use Rattle.row_machine.specs.machine.NewRows.{with_features, made_project, put_project};
ghost use Rattle.row_machine.specs.machine.NewRows.{patched_project};

use crate::contents::{Content, copied_content, new_content, patched_content};
use crate::parts::{new_config, new_description};
use config_lists::Config;
use records::{Body, Project};
use size_values::{NoMemory, Text};
use std::alloc::Global;

/// Turns a feature on, unless the settings name it.
fn turn_on(config: &mut Config, feature: &str) -> Result<(), NoMemory>
    requires { feature.now ≢ [] }
    ensures { OnOk result (config.new ≡ feature_on config.old feature.now) }
{
    if config.get(feature).is_some() {
        return Ok(());
    }
    config.set(feature, "true")
}

/// The settings of a new project: all features but that of networks are on, where the request does not say otherwise.
fn project_config(alloc: Global, body: &Body) -> Result<Config, NoMemory>
    ensures { IfOk result (λ c. c ≡ with_features (new_config body.now)) }
{
    let mut config = new_config(alloc, body)?;
    turn_on(&mut config, "features.profiles")?;
    turn_on(&mut config, "features.storage.volumes")?;
    turn_on(&mut config, "features.images")?;
    turn_on(&mut config, "features.storage.buckets")?;
    Ok(config)
}

/// The project of this name.
fn project_of(alloc: Global, name: &Text, content: Content) -> Result<Project, NoMemory>
    ensures { IfOk result (λ r. r ≡ record {
      name = name.now;
      description = content.description;
      config = content.config;
    }) }
{
    let name = name.copy(alloc)?;
    Ok(Project {
        name,
        description: content.description,
        config: content.config,
    })
}

/// A project as it is created.
pub fn made_project(alloc: Global, name: &Text, body: &Body) -> Result<Project, NoMemory>
    ensures { IfOk result (λ r. r ≡ made_project name.now body.now) }
{
    let config = project_config(alloc, body)?;
    let description = new_description(alloc, body)?;
    project_of(
        alloc,
        name,
        Content {
            description,
            config,
        },
    )
}

/// A project after a PUT. Features that the request does not name are off.
pub fn put_project(alloc: Global, old: &Project, body: &Body) -> Result<Project, NoMemory>
    ensures { IfOk result (λ r. r ≡ put_project old.now body.now) }
{
    let content = new_content(alloc, body)?;
    project_of(alloc, &old.name, content)
}

/// A project after a PATCH.
pub fn patched_project(alloc: Global, old: &Project, body: &Body) -> Result<Project, NoMemory>
    ensures { IfOk result (λ r. r ≡ patched_project old.now body.now) }
{
    let content = patched_content(alloc, &old.description, &old.config, body)?;
    project_of(alloc, &old.name, content)
}

/// A project under another name.
pub fn renamed_project(alloc: Global, old: &Project, to: &Text) -> Result<Project, NoMemory>
    ensures { IfOk result (λ r. r ≡ record old.now { name = to.now }) }
{
    let content = copied_content(alloc, &old.description, &old.config)?;
    project_of(alloc, to, content)
}
