//! Bodies of rows, read from their first byte to their last. Texts stay borrowed from the bytes until all is read.
ghost use Rattle.std.specs.Prelude.{◌≡◌, Ok, Err, IfOk, IfErr};
ghost use Rattle.row_codec.specs.Reading.{Gives, Fails, IsRead, version_at, ended, project_in, profile_in, network_in};
ghost use Rattle.row_codec.specs.Reading.{pool_in, volume_in, instance_in, snapshot_in};

use crate::lists::{devices_at, settings_at, shape_at};
use crate::parts::{boolean_at, driver_at, kind_at, moment_at, stops_at, str_at};
use crate::unreadable::Unreadable;
use records::{Instance, Network, Pool, Profile, Project, Snapshot, Volume};
use size_values::{NoMemory, Or, Text};
use std::alloc::Global;

/// The bytes after the version.
fn version_at(body: &[u8]) -> Result<&[u8], Unreadable>
    ensures { IsRead (λ x. x.now) result (version_at body.now) }
{
    match body {
        [1, rest @ ..] => Ok(rest),
        _ => Err(stops_at(body)),
    }
}

/// Nothing is left over.
fn refuse_rest(rest: &[u8]) -> Result<(), Unreadable>
    ensures { IsRead (λ x. x) result (ended rest.now) }
{
    if rest.is_empty() {
        Ok(())
    } else {
        Err(stops_at(rest))
    }
}

/// What was read beside its texts, where it is all that the bytes have. Otherwise it is let go here, in one call, and
/// not by each caller down to its last text.
fn whole_body<A: Drop, B: Drop>(
    read: A,
    rest: &[u8],
    texts: Result<B, NoMemory>,
) -> Result<(A, B), Or<Unreadable>>
    ensures ok { IfOk result (λ x. (x.0 ≡ read) × (texts ≡ Ok x.1) × (ended rest.now ≡ Ok tt)) }
    ensures err { IfErr result (λ why. Fails why (ended rest.now)) }
{
    refuse_rest(rest)?;
    let texts = texts?;
    Ok((read, texts))
}

fn two_texts(alloc: Global, first: &str, second: &str) -> Result<(Text, Text), NoMemory>
    ensures { IfOk result (λ x. x ≡ (first.now, second.now)) }
{
    Ok((
        Text::from_text(alloc, first)?,
        Text::from_text(alloc, second)?,
    ))
}

fn three_texts(
    alloc: Global,
    first: &str,
    second: &str,
    third: &str,
) -> Result<(Text, Text, Text), NoMemory>
    ensures { IfOk result (λ x. x ≡ (first.now, second.now, third.now)) }
{
    Ok((
        Text::from_text(alloc, first)?,
        Text::from_text(alloc, second)?,
        Text::from_text(alloc, third)?,
    ))
}

fn four_texts(
    alloc: Global,
    first: &str,
    second: &str,
    third: &str,
    fourth: &str,
) -> Result<(Text, Text, Text, Text), NoMemory>
    ensures { IfOk result (λ x. x ≡ (first.now, second.now, third.now, fourth.now)) }
{
    Ok((
        Text::from_text(alloc, first)?,
        Text::from_text(alloc, second)?,
        Text::from_text(alloc, third)?,
        Text::from_text(alloc, fourth)?,
    ))
}

#[tactic(auto, unfolding(crate::specs::Reading::project_in))]
pub(crate) fn project_in(alloc: Global, name: &str, body: &[u8]) -> Result<Project, Or<Unreadable>>
    ensures { Gives (λ x. x) result (project_in name.now body.now) }
{
    let rest = version_at(body)?;
    let (description, rest) = str_at(rest)?;
    let (config, rest) = settings_at(alloc, rest)?;
    let texts = two_texts(alloc, name, description);
    let (config, texts) = whole_body(config, rest, texts)?;
    Ok(Project {
        name: texts.0,
        description: texts.1,
        config,
    })
}

#[tactic(auto, unfolding(crate::specs::Reading::profile_in))]
pub(crate) fn profile_in(
    alloc: Global,
    project: &str,
    name: &str,
    body: &[u8],
) -> Result<Profile, Or<Unreadable>>
    ensures { Gives (λ x. x) result (profile_in project.now name.now body.now) }
{
    let rest = version_at(body)?;
    let (description, rest) = str_at(rest)?;
    let (config, rest) = settings_at(alloc, rest)?;
    match devices_at(alloc, rest) {
        Ok((devices, rest)) => {
            let texts = three_texts(alloc, project, name, description);
            let (lists, texts) = whole_body((config, devices), rest, texts)?;
            Ok(Profile {
                project: texts.0,
                name: texts.1,
                description: texts.2,
                config: lists.0,
                devices: lists.1,
            })
        }
        Err(why) => {
            drop(config);
            Err(why)
        }
    }
}

#[tactic(auto, unfolding(crate::specs::Reading::network_in))]
pub(crate) fn network_in(
    alloc: Global,
    project: &str,
    name: &str,
    body: &[u8],
) -> Result<Network, Or<Unreadable>>
    ensures { Gives (λ x. x) result (network_in project.now name.now body.now) }
{
    let rest = version_at(body)?;
    let (description, rest) = str_at(rest)?;
    let (config, rest) = settings_at(alloc, rest)?;
    let texts = three_texts(alloc, project, name, description);
    let (config, texts) = whole_body(config, rest, texts)?;
    Ok(Network {
        project: texts.0,
        name: texts.1,
        description: texts.2,
        config,
    })
}

#[tactic(auto, unfolding(crate::specs::Reading::pool_in))]
pub(crate) fn pool_in(alloc: Global, name: &str, body: &[u8]) -> Result<Pool, Or<Unreadable>>
    ensures { Gives (λ x. x) result (pool_in name.now body.now) }
{
    let rest = version_at(body)?;
    let (driver, rest) = driver_at(rest)?;
    let (description, rest) = str_at(rest)?;
    let (config, rest) = settings_at(alloc, rest)?;
    let texts = two_texts(alloc, name, description);
    let (config, texts) = whole_body(config, rest, texts)?;
    Ok(Pool {
        name: texts.0,
        driver,
        description: texts.1,
        config,
    })
}

#[tactic(auto, unfolding(crate::specs::Reading::volume_in))]
pub(crate) fn volume_in(
    alloc: Global,
    project: &str,
    pool: &str,
    name: &str,
    body: &[u8],
) -> Result<Volume, Or<Unreadable>>
    ensures { Gives (λ x. x) result (volume_in project.now pool.now name.now body.now) }
{
    let rest = version_at(body)?;
    let (description, rest) = str_at(rest)?;
    let (config, rest) = settings_at(alloc, rest)?;
    match moment_at(rest) {
        Ok((created, rest)) => {
            let texts = four_texts(alloc, project, pool, name, description);
            let (config, texts) = whole_body(config, rest, texts)?;
            Ok(Volume {
                project: texts.0,
                pool: texts.1,
                name: texts.2,
                description: texts.3,
                config,
                created,
            })
        }
        Err(why) => {
            drop(config);
            Err(Or::Why(why))
        }
    }
}

#[tactic(auto, unfolding(crate::specs::Reading::instance_in))]
pub(crate) fn instance_in(
    alloc: Global,
    project: &str,
    name: &str,
    body: &[u8],
) -> Result<Instance, Or<Unreadable>>
    ensures { Gives (λ x. x) result (instance_in project.now name.now body.now) }
{
    let rest = version_at(body)?;
    let (kind, rest) = kind_at(rest)?;
    let (ephemeral, rest) = boolean_at(rest)?;
    let (description, rest) = str_at(rest)?;
    let (origin, rest) = str_at(rest)?;
    let (created, rest) = moment_at(rest)?;
    let (shape, rest) = shape_at(alloc, rest)?;
    let texts = four_texts(alloc, project, name, description, origin);
    let (shape, texts) = whole_body(shape, rest, texts)?;
    Ok(Instance {
        project: texts.0,
        name: texts.1,
        kind,
        ephemeral,
        description: texts.2,
        origin: texts.3,
        created,
        profiles: shape.profiles,
        config: shape.config,
        devices: shape.devices,
    })
}

#[tactic(auto, unfolding(crate::specs::Reading::snapshot_in))]
pub(crate) fn snapshot_in(
    alloc: Global,
    project: &str,
    instance: &str,
    name: &str,
    body: &[u8],
) -> Result<Snapshot, Or<Unreadable>>
    ensures { Gives (λ x. x) result (snapshot_in project.now instance.now name.now body.now) }
{
    let rest = version_at(body)?;
    let (created, rest) = moment_at(rest)?;
    let (expires, rest) = moment_at(rest)?;
    let (shape, rest) = shape_at(alloc, rest)?;
    let names = three_texts(alloc, project, instance, name);
    let (shape, names) = whole_body(shape, rest, names)?;
    Ok(Snapshot {
        project: names.0,
        instance: names.1,
        name: names.2,
        created,
        expires,
        profiles: shape.profiles,
        config: shape.config,
        devices: shape.devices,
    })
}
