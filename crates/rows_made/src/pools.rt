//! The rows of storage pools that commands make.
ghost use Rattle.std.specs.Prelude.{◌≡◌, IfOk};
ghost use Rattle.row_machine.specs.machine.NewRows.{made_pool, put_pool, patched_pool};

use crate::contents::{Content, new_content, patched_content};
use records::{Body, Driver, Pool};
use size_values::{NoMemory, Text};
use std::alloc::Global;

/// The pool of this name and driver.
fn pool_of(alloc: Global, name: &Text, driver: Driver, content: Content) -> Result<Pool, NoMemory>
    ensures { IfOk result (λ r. r ≡ record {
      name = name.now;
      driver = driver;
      description = content.description;
      config = content.config;
    }) }
{
    let name = name.copy(alloc)?;
    Ok(Pool {
        name,
        driver,
        description: content.description,
        config: content.config,
    })
}

/// A pool as it is created: of the driver `dir` where the request names none.
pub fn made_pool(alloc: Global, name: &Text, body: &Body) -> Result<Pool, NoMemory>
    ensures { IfOk result (λ r. r ≡ made_pool name.now body.now) }
{
    let driver = body.driver.unwrap_or(Driver::Dir);
    let content = new_content(alloc, body)?;
    pool_of(alloc, name, driver, content)
}

/// A pool after a PUT.
pub fn put_pool(alloc: Global, old: &Pool, body: &Body) -> Result<Pool, NoMemory>
    ensures { IfOk result (λ r. r ≡ put_pool old.now body.now) }
{
    let content = new_content(alloc, body)?;
    pool_of(alloc, &old.name, old.driver, content)
}

/// A pool after a PATCH.
pub fn patched_pool(alloc: Global, old: &Pool, body: &Body) -> Result<Pool, NoMemory>
    ensures { IfOk result (λ r. r ≡ patched_pool old.now body.now) }
{
    let content = patched_content(alloc, &old.description, &old.config, body)?;
    pool_of(alloc, &old.name, old.driver, content)
}
