//! Rows, written as entries.
ghost use Rattle.std.specs.Prelude.{◌≡◌, ◌++◌, IfOk, OnOk};
ghost use Rattle.records.specs.AnyRows.{row_in};
ghost use Rattle.records.specs.declared.rows.Row.{Row};
ghost use Rattle.records.specs.declared.rows.Row.TheVariants as row;
ghost use Rattle.row_codec.specs.Rows.{HasGoodKey, HasMoments, HasShortParts, HasTypedParts, Spells};
ghost use Rattle.row_codec.specs.Spelling.{project_bytes, profile_bytes, network_bytes, pool_bytes, volume_bytes};
ghost use Rattle.row_codec.specs.Spelling.{instance_bytes, snapshot_bytes, body_of, kind_of, key_of, two_names};
ghost use Rattle.row_codec.specs.Spelling.{three_names};

use crate::field_writing::{
    boolean_byte, driver_byte, kind_byte, put_devices, put_number, put_settings, put_text,
    put_texts,
};
use records::{AnyRow, Instance, Network, Pool, Profile, Project, Row, Snapshot, Volume};
use size_values::{Entry, NoMemory, Seq, Text};
use std::alloc::Global;

fn put_project(out: &mut Vec<u8>, project: &Project) -> Result<(), NoMemory>
    requires { HasShortParts (row.Project project.now) }
    ensures bytes { OnOk result (out.new.items ≡ out.old.items ++ project_bytes project.now) }
    ensures typed { OnOk result (HasTypedParts (row.Project project.now)) }
{
    out.push(1)?;
    put_text(out, project.description.view())?;
    put_settings(out, &project.config)?;
    Ok(())
}

fn put_profile(out: &mut Vec<u8>, profile: &Profile) -> Result<(), NoMemory>
    requires { HasShortParts (row.Profile profile.now) }
    ensures bytes { OnOk result (out.new.items ≡ out.old.items ++ profile_bytes profile.now) }
    ensures typed { OnOk result (HasTypedParts (row.Profile profile.now)) }
{
    out.push(1)?;
    put_text(out, profile.description.view())?;
    put_settings(out, &profile.config)?;
    put_devices(out, &profile.devices)?;
    Ok(())
}

fn put_network(out: &mut Vec<u8>, network: &Network) -> Result<(), NoMemory>
    requires { HasShortParts (row.Network network.now) }
    ensures bytes { OnOk result (out.new.items ≡ out.old.items ++ network_bytes network.now) }
    ensures typed { OnOk result (HasTypedParts (row.Network network.now)) }
{
    out.push(1)?;
    put_text(out, network.description.view())?;
    put_settings(out, &network.config)?;
    Ok(())
}

fn put_pool(out: &mut Vec<u8>, pool: &Pool) -> Result<(), NoMemory>
    requires { HasShortParts (row.Pool pool.now) }
    ensures bytes { OnOk result (out.new.items ≡ out.old.items ++ pool_bytes pool.now) }
    ensures typed { OnOk result (HasTypedParts (row.Pool pool.now)) }
{
    out.push(1)?;
    out.push(driver_byte(pool.driver))?;
    put_text(out, pool.description.view())?;
    put_settings(out, &pool.config)?;
    Ok(())
}

fn put_volume(out: &mut Vec<u8>, volume: &Volume) -> Result<(), NoMemory>
    requires { HasShortParts (row.Volume volume.now) }
    ensures bytes { OnOk result (out.new.items ≡ out.old.items ++ volume_bytes volume.now) }
    ensures typed { OnOk result (HasTypedParts (row.Volume volume.now)) }
{
    out.push(1)?;
    put_text(out, volume.description.view())?;
    put_settings(out, &volume.config)?;
    put_number(out, volume.created)?;
    Ok(())
}

fn put_instance(out: &mut Vec<u8>, instance: &Instance) -> Result<(), NoMemory>
    requires { HasShortParts (row.Instance instance.now) }
    ensures bytes { OnOk result (out.new.items ≡ out.old.items ++ instance_bytes instance.now) }
    ensures typed { OnOk result (HasTypedParts (row.Instance instance.now)) }
{
    out.push(1)?;
    out.push(kind_byte(instance.kind))?;
    out.push(boolean_byte(instance.ephemeral))?;
    put_text(out, instance.description.view())?;
    put_text(out, instance.origin.view())?;
    put_number(out, instance.created)?;
    put_texts(out, &instance.profiles)?;
    put_settings(out, &instance.config)?;
    put_devices(out, &instance.devices)?;
    Ok(())
}

fn put_snapshot(out: &mut Vec<u8>, snapshot: &Snapshot) -> Result<(), NoMemory>
    requires { HasShortParts (row.Snapshot snapshot.now) }
    ensures bytes { OnOk result (out.new.items ≡ out.old.items ++ snapshot_bytes snapshot.now) }
    ensures typed { OnOk result (HasTypedParts (row.Snapshot snapshot.now)) }
{
    out.push(1)?;
    put_number(out, snapshot.created)?;
    put_number(out, snapshot.expires)?;
    put_texts(out, &snapshot.profiles)?;
    put_settings(out, &snapshot.config)?;
    put_devices(out, &snapshot.devices)?;
    Ok(())
}

pub(crate) fn put_body(out: &mut Vec<u8>, row: AnyRow<'_>) -> Result<(), NoMemory>
    requires { HasShortParts (row_in row) }
    ensures bytes { OnOk result (out.new.items ≡ out.old.items ++ body_of (row_in row.entry)) }
    ensures typed { OnOk result (HasTypedParts (row_in row.entry)) }
{
    match row {
        AnyRow::Project(project) => put_project(out, project),
        AnyRow::Profile(profile) => put_profile(out, profile),
        AnyRow::Network(network) => put_network(out, network),
        AnyRow::Pool(pool) => put_pool(out, pool),
        AnyRow::Volume(volume) => put_volume(out, volume),
        AnyRow::Instance(instance) => put_instance(out, instance),
        AnyRow::Snapshot(snapshot) => put_snapshot(out, snapshot),
    }
}

fn two_names(alloc: Global, first: &Text, second: &Text) -> Result<Text, NoMemory>
    ensures { IfOk result (λ key. key ≡ two_names first.now second.now) }
{
    let mut key = String::from_str(alloc, first.view())?;
    key.push_str("/")?;
    key.push_str(second.view())?;
    Ok(Text::from_string(key))
}

fn three_names(alloc: Global, first: &Text, second: &Text, third: &Text) -> Result<Text, NoMemory>
    ensures { IfOk result (λ key. key ≡ three_names first.now second.now third.now) }
{
    let after = two_names(alloc, second, third)?;
    two_names(alloc, first, &after)
}

/// The key of the entry that a row is kept as: its project's name where it has one, that of its pool or
/// instance where it stands in one, and its own, with slashes between.
pub fn key_of(alloc: Global, row: &Row) -> Result<Text, NoMemory>
    ensures { IfOk result (λ key. key ≡ key_of row.now) }
{
    match row {
        Row::Project(project) => project.name.copy(alloc),
        Row::Profile(profile) => two_names(alloc, &profile.project, &profile.name),
        Row::Network(network) => two_names(alloc, &network.project, &network.name),
        Row::Pool(pool) => pool.name.copy(alloc),
        Row::Volume(volume) => three_names(alloc, &volume.project, &volume.pool, &volume.name),
        Row::Instance(instance) => two_names(alloc, &instance.project, &instance.name),
        Row::Snapshot(snapshot) => three_names(
            alloc,
            &snapshot.project,
            &snapshot.instance,
            &snapshot.name,
        ),
    }
}

/// The kind of the entry that a row is kept as, from 1 for a project to 7 for a snapshot.
pub fn kind_of(row: &Row) -> u8
    ensures { result ≡ kind_of row.now }
{
    match row {
        Row::Project(_) => 1,
        Row::Profile(_) => 2,
        Row::Network(_) => 3,
        Row::Pool(_) => 4,
        Row::Volume(_) => 5,
        Row::Instance(_) => 6,
        Row::Snapshot(_) => 7,
    }
}

/// The entry that spells the row, of which there is one. The names of its key are good names, each text and
/// each list is shorter than 2^32, and each moment lies below the bound.
pub fn encode(alloc: Global, row: &Row) -> Result<Entry, NoMemory>
    requires keyed { HasGoodKey row.now }
    requires timely { HasMoments row.now }
    requires short { HasShortParts row.now }
    ensures { IfOk result (λ entry. Spells row.now entry) }
{
    let mut body = Vec::new(alloc);
    put_body(&mut body, row.lent())?;
    Ok(Entry {
        kind: kind_of(row),
        key: key_of(alloc, row)?,
        body: Seq::from_vec(body),
    })
}
