ghost use Rattle.std.specs.Prelude.{◌≡◌, IfOk, codes};
ghost use Rattle.serde_json.specs.View.{view};
ghost use Rattle.rest_bodies.specs.Bodies.{config_at, devices_at, part_of, is_of_instances, has_kind, has_description};
ghost use Rattle.rest_bodies.specs.Bodies.{has_devices, has_driver, origin_of, body_of};
ghost use Rattle.rest_bodies.specs.Drivers.{driver_at};
ghost use Rattle.rest_bodies.specs.Instances.{kind_at, ephemeral_at};
ghost use Rattle.rest_bodies.specs.Members.{text_at};
ghost use Rattle.rest_bodies.specs.Profiles.{profiles_at};

use crate::copies::copy_origin;
use crate::drivers::driver_at;
use crate::fields::Shape;
use crate::instances::{ephemeral_at, instance_origin, kind_at};
use crate::keys::Key;
use crate::members::text_at;
use crate::origins::volume_origin;
use crate::profiles::profiles_at;
use crate::sent::SentBody;
use crate::settings::{changes_of, devices_of};
use config_lists::{Changes, Devices};
use records::{Body, Driver, Origin};
use size_values::{Kind, NoMemory, Seq, Text};
use std::alloc::Global;

#[tactic(auto, unfolding(crate::specs::Bodies::config_at))]
fn config_at(alloc: Global, body: &SentBody) -> Result<Option<Changes>, NoMemory>
    ensures { IfOk result (λ o. o ≡ config_at (view body.now)) }
{
    match body.field(Key::Config) {
        Some(value) => Ok(Some(changes_of(alloc, value)?)),
        None => Ok(None),
    }
}

#[tactic(auto, unfolding(crate::specs::Bodies::devices_at))]
fn devices_at(alloc: Global, body: &SentBody) -> Result<Option<Devices>, NoMemory>
    ensures { IfOk result (λ o. o ≡ devices_at (view body.now)) }
{
    match body.field(Key::Devices) {
        Some(value) => Ok(Some(devices_of(alloc, value)?)),
        None => Ok(None),
    }
}

/// Whether a body of this shape says what instances alone have.
fn is_of_instances(shape: Shape) -> bool
    ensures { result ≡ is_of_instances shape }
{
    match shape {
        Shape::NewInstance => true,
        Shape::InstanceCopy => true,
        Shape::InstancePut => true,
        Shape::InstancePatch => true,
        _ => false,
    }
}

/// Whether a body of this shape has a kind of instance, which a copy has from what is copied.
fn has_kind(shape: Shape) -> bool
    ensures { result ≡ has_kind shape }
{
    match shape {
        Shape::NewInstance => true,
        _ => false,
    }
}

/// Whether a body of this shape has a description and settings.
fn has_description(shape: Shape) -> bool
    ensures { result ≡ has_description shape }
{
    match shape {
        Shape::NewSnapshot => false,
        Shape::Rename => false,
        Shape::InstanceRename => false,
        Shape::StateChange => false,
        _ => true,
    }
}

/// Whether a body of this shape has devices.
fn has_devices(shape: Shape) -> bool
    ensures { result ≡ has_devices shape }
{
    match shape {
        Shape::NewProfile => true,
        Shape::ProfileChange => true,
        _ => is_of_instances(shape),
    }
}

/// Whether a body of this shape has a driver.
fn has_driver(shape: Shape) -> bool
    ensures { result ≡ has_driver shape }
{
    match shape {
        Shape::NewPool => true,
        _ => false,
    }
}

fn description_part(alloc: Global, shape: Shape, body: &SentBody) -> Result<Option<Text>, NoMemory>
    ensures { IfOk result (λ o. o ≡ part_of (has_description shape) (text_at (codes "description") (view body.now))) }
{
    if has_description(shape) {
        return text_at(alloc, Key::Description, body.members());
    }
    Ok(None)
}

fn config_part(alloc: Global, shape: Shape, body: &SentBody) -> Result<Option<Changes>, NoMemory>
    ensures { IfOk result (λ o. o ≡ part_of (has_description shape) (config_at (view body.now))) }
{
    if has_description(shape) {
        return config_at(alloc, body);
    }
    Ok(None)
}

fn devices_part(alloc: Global, shape: Shape, body: &SentBody) -> Result<Option<Devices>, NoMemory>
    ensures { IfOk result (λ o. o ≡ part_of (has_devices shape) (devices_at (view body.now))) }
{
    if has_devices(shape) {
        return devices_at(alloc, body);
    }
    Ok(None)
}

fn driver_part(shape: Shape, body: &SentBody) -> Option<Driver>
    ensures { result ≡ part_of (has_driver shape) (driver_at (view body.now)) }
{
    if has_driver(shape) {
        return driver_at(body);
    }
    None
}

fn profiles_part(
    alloc: Global,
    shape: Shape,
    body: &SentBody,
) -> Result<Option<Seq<Text>>, NoMemory>
    ensures { IfOk result (λ o. o ≡ part_of (is_of_instances shape) (profiles_at (view body.now))) }
{
    if is_of_instances(shape) {
        return profiles_at(alloc, body);
    }
    Ok(None)
}

fn kind_part(shape: Shape, body: &SentBody) -> Option<Kind>
    ensures { result ≡ part_of (has_kind shape) (kind_at (view body.now)) }
{
    if has_kind(shape) {
        return kind_at(body);
    }
    None
}

fn ephemeral_part(shape: Shape, body: &SentBody) -> Option<bool>
    ensures { result ≡ part_of (is_of_instances shape) (ephemeral_at (view body.now)) }
{
    if is_of_instances(shape) {
        return ephemeral_at(body);
    }
    None
}

/// What the object of a body is made from.
fn origin_of(alloc: Global, shape: Shape, body: &SentBody, pool: &str) -> Result<Origin, NoMemory>
    ensures { IfOk result (λ o. o ≡ origin_of shape (view body.now) pool.now) }
{
    match shape {
        Shape::NewVolume => volume_origin(alloc, body, pool),
        Shape::NewInstance => instance_origin(alloc, body),
        Shape::InstanceCopy => copy_origin(alloc, body),
        _ => Ok(Origin::None),
    }
}

/// What a body of this shape says of an object, in the pool of its path.
#[tactic(auto, unfolding(crate::specs::Bodies::body_of))]
pub fn body_of(alloc: Global, shape: Shape, body: &SentBody, pool: &str) -> Result<Body, NoMemory>
    ensures { IfOk result (λ b. b ≡ body_of shape (view body.now) pool.now) }
{
    Ok(Body {
        description: description_part(alloc, shape, body)?,
        config: config_part(alloc, shape, body)?,
        devices: devices_part(alloc, shape, body)?,
        profiles: profiles_part(alloc, shape, body)?,
        kind: kind_part(shape, body),
        ephemeral: ephemeral_part(shape, body),
        driver: driver_part(shape, body),
        origin: origin_of(alloc, shape, body, pool)?,
    })
}
