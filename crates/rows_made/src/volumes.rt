//! The rows of storage volumes that commands make.
ghost use Rattle.std.specs.Prelude.{◌≡◌, IfOk};
ghost use Rattle.row_machine.specs.machine.NewRows.{made_volume, put_volume, patched_volume};

use crate::contents::{Content, copied_content, new_content, patched_content};
use records::{Body, Target, Volume};
use size_values::{NoMemory, Text};
use std::alloc::Global;

/// The volume of these names with this content.
fn volume_of(
    alloc: Global,
    project: &str,
    pool: &Text,
    name: &Text,
    content: Content,
    created: u64,
) -> Result<Volume, NoMemory>
    ensures { IfOk result (λ r. r ≡ record {
      project = project.now;
      pool = pool.now;
      name = name.now;
      description = content.description;
      config = content.config;
      created = created;
    }) }
{
    let project = Text::from_text(alloc, project)?;
    let pool = pool.copy(alloc)?;
    let name = name.copy(alloc)?;
    Ok(Volume {
        project,
        pool,
        name,
        description: content.description,
        config: content.config,
        created,
    })
}

/// A volume as it is created in the project that it belongs to.
pub fn made_volume(
    alloc: Global,
    project: &str,
    of: &Target,
    body: &Body,
    moment: u64,
) -> Result<Volume, NoMemory>
    ensures { IfOk result (λ r. r ≡ made_volume project.now of.now body.now moment) }
{
    let content = new_content(alloc, body)?;
    volume_of(alloc, project, &of.pool, &of.name, content, moment)
}

/// A volume after a PUT.
pub fn put_volume(alloc: Global, old: &Volume, body: &Body) -> Result<Volume, NoMemory>
    ensures { IfOk result (λ r. r ≡ put_volume old.now body.now) }
{
    let content = new_content(alloc, body)?;
    volume_of(
        alloc,
        old.project.view(),
        &old.pool,
        &old.name,
        content,
        old.created,
    )
}

/// A volume after a PATCH.
pub fn patched_volume(alloc: Global, old: &Volume, body: &Body) -> Result<Volume, NoMemory>
    ensures { IfOk result (λ r. r ≡ patched_volume old.now body.now) }
{
    let content = patched_content(alloc, &old.description, &old.config, body)?;
    volume_of(
        alloc,
        old.project.view(),
        &old.pool,
        &old.name,
        content,
        old.created,
    )
}

/// A volume under another name.
pub fn renamed_volume(alloc: Global, old: &Volume, to: &Text) -> Result<Volume, NoMemory>
    ensures { IfOk result (λ r. r ≡ record old.now { name = to.now }) }
{
    let content = copied_content(alloc, &old.description, &old.config)?;
    volume_of(
        alloc,
        old.project.view(),
        &old.pool,
        to,
        content,
        old.created,
    )
}
