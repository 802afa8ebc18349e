//! Rows, read from their entries.
ghost use Rattle.std.specs.Prelude.{◌≡◌, length, IfOk, IfErr};
ghost use Rattle.records.specs.declared.rows.Row.{Row};
ghost use Rattle.row_codec.specs.Rows.{Spells};
ghost use Rattle.row_codec.specs.Reading.{Gives, read_project, read_profile, read_network, read_pool, read_volume};
ghost use Rattle.row_codec.specs.Reading.{read_instance};
ghost use Rattle.row_codec.specs.Reading.{read_snapshot, row_at, row_of, damage_of};

use crate::body_rows::{
    instance_in, network_in, pool_in, profile_in, project_in, snapshot_in, volume_in,
};
use crate::damage::Damaged;
use crate::keys::{three_names_in, two_names_in};
use crate::unreadable::Unreadable;
use estate_rules::good_name;
use records::{Instance, Network, Pool, Profile, Project, Row, Snapshot, Volume};
use size_values::{Boxed, Entry, ObjectKind, Or};
use std::alloc::Global;

/// The damage of a body in which a part cannot be read.
fn damage_of(body: &[u8], why: Or<Unreadable>) -> Or<Damaged>
    ensures { result ≡ damage_of (length body.now) why }
{
    match why {
        Or::NoMemory => Or::NoMemory,
        Or::Why(unreadable) => Or::Why(Damaged::Body(
            body.len().saturating_sub(unreadable.left) as u64,
        )),
    }
}

/// What was read, or the damage of the body in which a part cannot be read.
fn or_damage_in<T>(body: &[u8], read: Result<T, Or<Unreadable>>) -> Result<T, Or<Damaged>>
    ensures ok { IfOk read (λ x. result ≡ Ok x) }
    ensures err { IfErr read (λ why. result ≡ Err (damage_of (length body.now) why)) }
{
    match read {
        Ok(row) => Ok(row),
        Err(why) => Err(damage_of(body, why)),
    }
}

#[tactic(auto, unfolding(crate::specs::Reading::read_project))]
fn read_project(alloc: Global, key: &str, body: &[u8]) -> Result<Project, Or<Damaged>>
    ensures { Gives (λ x. x) result (read_project key.now body.now) }
{
    if !good_name(ObjectKind::Project, key) {
        return Err(Or::Why(Damaged::Key));
    }
    or_damage_in(body, project_in(alloc, key, body))
}

#[tactic(auto, unfolding(crate::specs::Reading::read_profile))]
fn read_profile(alloc: Global, key: &str, body: &[u8]) -> Result<Profile, Or<Damaged>>
    ensures { Gives (λ x. x) result (read_profile key.now body.now) }
{
    let (project, name) = two_names_in(ObjectKind::Project, ObjectKind::Profile, key)?;
    or_damage_in(body, profile_in(alloc, project, name, body))
}

#[tactic(auto, unfolding(crate::specs::Reading::read_network))]
fn read_network(alloc: Global, key: &str, body: &[u8]) -> Result<Network, Or<Damaged>>
    ensures { Gives (λ x. x) result (read_network key.now body.now) }
{
    let (project, name) = two_names_in(ObjectKind::Project, ObjectKind::Network, key)?;
    or_damage_in(body, network_in(alloc, project, name, body))
}

#[tactic(auto, unfolding(crate::specs::Reading::read_pool))]
fn read_pool(alloc: Global, key: &str, body: &[u8]) -> Result<Pool, Or<Damaged>>
    ensures { Gives (λ x. x) result (read_pool key.now body.now) }
{
    if !good_name(ObjectKind::Pool, key) {
        return Err(Or::Why(Damaged::Key));
    }
    or_damage_in(body, pool_in(alloc, key, body))
}

#[tactic(auto, unfolding(crate::specs::Reading::read_volume))]
fn read_volume(alloc: Global, key: &str, body: &[u8]) -> Result<Volume, Or<Damaged>>
    ensures { Gives (λ x. x) result (read_volume key.now body.now) }
{
    let (project, pool, name) = three_names_in(
        ObjectKind::Project,
        ObjectKind::Pool,
        ObjectKind::Volume,
        key,
    )?;
    or_damage_in(body, volume_in(alloc, project, pool, name, body))
}

#[tactic(auto, unfolding(crate::specs::Reading::read_instance))]
fn read_instance(alloc: Global, key: &str, body: &[u8]) -> Result<Instance, Or<Damaged>>
    ensures { Gives (λ x. x) result (read_instance key.now body.now) }
{
    let (project, name) = two_names_in(ObjectKind::Project, ObjectKind::Instance, key)?;
    or_damage_in(body, instance_in(alloc, project, name, body))
}

#[tactic(auto, unfolding(crate::specs::Reading::read_snapshot))]
fn read_snapshot(alloc: Global, key: &str, body: &[u8]) -> Result<Snapshot, Or<Damaged>>
    ensures { Gives (λ x. x) result (read_snapshot key.now body.now) }
{
    let (project, instance, name) = three_names_in(
        ObjectKind::Project,
        ObjectKind::Instance,
        ObjectKind::Snapshot,
        key,
    )?;
    or_damage_in(body, snapshot_in(alloc, project, instance, name, body))
}

#[tactic(auto, unfolding(crate::specs::Reading::row_at))]
fn row_at(alloc: Global, kind: u8, key: &str, body: &[u8]) -> Result<Row, Or<Damaged>>
    ensures { Gives (λ x. x) result (row_at kind key.now body.now) }
{
    match kind {
        1 => Ok(Row::Project(read_project(alloc, key, body)?)),
        2 => Ok(Row::Profile(Boxed::new(alloc, read_profile(alloc, key, body)?)?)),
        3 => Ok(Row::Network(read_network(alloc, key, body)?)),
        4 => Ok(Row::Pool(read_pool(alloc, key, body)?)),
        5 => Ok(Row::Volume(Boxed::new(alloc, read_volume(alloc, key, body)?)?)),
        6 => Ok(Row::Instance(Boxed::new(alloc, read_instance(alloc, key, body)?)?)),
        7 => Ok(Row::Snapshot(Boxed::new(alloc, read_snapshot(alloc, key, body)?)?)),
        _ => Err(Or::Why(Damaged::Kind)),
    }
}

/// The row that the entry spells, or its first damage.
pub fn decode(alloc: Global, entry: &Entry) -> Result<Row, Or<Damaged>>
    // What is read is spelled so.
    ensures found { IfOk result (λ row. Spells row entry.now) }
    // What is spelled so is read, unless memory runs out.
    ensures only { (row : Row) → Spells row entry.now → Gives (λ r. r) result (Ok row) }
    // Which damage it is, and at which place.
    ensures damage { Gives (λ r. r) result (row_of entry.now) }
{
    let body = entry.body.view();
    row_at(alloc, entry.kind, entry.key.view(), body)
}
