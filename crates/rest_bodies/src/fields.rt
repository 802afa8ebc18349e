ghost use Rattle.std.specs.Prelude.{◌≡◌, Some, option_map};
ghost use Rattle.serde_json.specs.View.{view};
ghost use Rattle.rest_bodies.specs.Fields.{fields_of, key_of, value_fits, value_fault, absent_fault, fault_of};
ghost use Rattle.rest_bodies.specs.Fields.{first_fault};
ghost use Rattle.rest_bodies.specs.Fields.{judged_fields, body_fault};
ghost use Rattle.rest_bodies.specs.Keys.{word_of};
ghost use Rattle.rest_bodies.specs.Members.{non_null_member};

use crate::actions::action_in;
use crate::drivers::driver_in;
use crate::instances::{fault_in_source, is_false, is_restoration, kind_in};
use crate::keys::{Key, word_of};
use crate::members::is_word;
use crate::origins::has_volume_source;
use crate::profiles::fits_profiles;
use crate::sent::SentBody;
use crate::settings::{fits_devices, fits_settings};
use serde_json::Value;

/// The fields of bodies, each in its form.
#[derive(Clone, Copy)]
pub enum Field {
    /// A text that has to be there.
    Name,
    /// A text. A snapshot without one gets the next name of its pattern.
    SnapshotName,
    /// The driver of a pool, one of four words, which has to be there.
    Driver,
    /// `bridge`.
    NetworkType,
    /// `custom`.
    VolumeType,
    /// `container` or `virtual-machine`.
    InstanceType,
    Description,
    /// An object of texts.
    Config,
    /// An object of such objects.
    Devices,
    /// A list of texts, each once.
    Profiles,
    /// A boolean value.
    Ephemeral,
    /// An object that names the volume to copy.
    VolumeSource,
    /// An object that has to be there: nothing, an image, or what is copied.
    InstanceSource,
    /// `false`, as the next two.
    Start,
    Stateful,
    Migration,
    /// Nothing: an instance can't be moved to another project.
    Project,
    /// One of five words, which has to be there.
    Action,
    /// A text, the name of a snapshot.
    Restore,
}

/// The shapes of bodies: which fields they have. Those of PUT and PATCH are alike for all objects but instances.
#[derive(Clone, Copy)]
pub enum Shape {
    NewProject,
    NewProfile,
    NewNetwork,
    NewPool,
    NewVolume,
    NewInstance,
    InstanceCopy,
    NewSnapshot,
    Change,
    ProfileChange,
    InstancePut,
    InstancePatch,
    Rename,
    InstanceRename,
    StateChange,
}

/// The fields of a new instance, in the order in which they are judged.
const NEW_INSTANCE: &[Field] = &[
    Field::Name,
    Field::InstanceType,
    Field::InstanceSource,
    Field::Profiles,
    Field::Config,
    Field::Devices,
    Field::Ephemeral,
    Field::Description,
    Field::Start,
];

/// Those of a copy of an instance, which has no type of its own.
const INSTANCE_COPY: &[Field] = &[
    Field::Name,
    Field::InstanceSource,
    Field::Profiles,
    Field::Config,
    Field::Devices,
    Field::Ephemeral,
    Field::Description,
    Field::Start,
];

/// The fields of a shape, in the order in which they are judged.
fn fields_of(shape: Shape) -> &'static [Field]
    ensures { result.now ≡ fields_of shape }
{
    use Field::*;
    match shape {
        Shape::NewProject => &[Name, Description, Config],
        Shape::NewProfile => &[Name, Description, Config, Devices],
        Shape::NewNetwork => &[Name, NetworkType, Description, Config],
        Shape::NewPool => &[Name, Driver, Description, Config],
        Shape::NewVolume => &[Name, VolumeType, Description, Config, VolumeSource],
        Shape::NewInstance => NEW_INSTANCE,
        Shape::InstanceCopy => INSTANCE_COPY,
        Shape::NewSnapshot => &[SnapshotName, Stateful],
        Shape::Change => &[Description, Config],
        Shape::ProfileChange => &[Description, Config, Devices],
        Shape::InstancePut => &[Description, Config, Devices, Profiles, Ephemeral, Restore],
        Shape::InstancePatch => &[Description, Config, Devices, Profiles, Ephemeral],
        Shape::Rename => &[Name],
        Shape::InstanceRename => &[Name, Migration, Project],
        Shape::StateChange => &[Action, Stateful],
    }
}

fn key_of(field: Field) -> Key
    ensures { word_of result ≡ key_of field }
{
    match field {
        Field::Name => Key::Name,
        Field::SnapshotName => Key::Name,
        Field::Driver => Key::Driver,
        Field::NetworkType => Key::Type,
        Field::VolumeType => Key::Type,
        Field::InstanceType => Key::Type,
        Field::Description => Key::Description,
        Field::Config => Key::Config,
        Field::Devices => Key::Devices,
        Field::Profiles => Key::Profiles,
        Field::Ephemeral => Key::Ephemeral,
        Field::VolumeSource => Key::Source,
        Field::InstanceSource => Key::Source,
        Field::Start => Key::Start,
        Field::Stateful => Key::Stateful,
        Field::Migration => Key::Migration,
        Field::Project => Key::Project,
        Field::Action => Key::Action,
        Field::Restore => Key::Restore,
    }
}

/// Whether the value of a field in a body has the form of the field.
fn value_fits(field: Field, value: &Value, body: &SentBody) -> bool
    requires { non_null_member (key_of field) (view body.now) ≡ Some (view value.now) }
    ensures { result ≡ value_fits field (view value.now) }
{
    match field {
        Field::Name => value.as_str().is_some(),
        Field::SnapshotName => value.as_str().is_some(),
        Field::Driver => driver_in(value).is_some(),
        Field::NetworkType => is_word("bridge", value),
        Field::VolumeType => is_word("custom", value),
        Field::InstanceType => kind_in(value).is_some(),
        Field::Description => value.as_str().is_some(),
        Field::Config => fits_settings(value),
        Field::Devices => fits_devices(value),
        Field::Profiles => fits_profiles(value),
        Field::Ephemeral => value.as_bool().is_some(),
        Field::VolumeSource => has_volume_source(body),
        Field::InstanceSource => fault_in_source(body).is_none(),
        Field::Start => is_false(value),
        Field::Stateful => is_false(value),
        Field::Migration => is_false(value),
        Field::Project => false,
        Field::Action => action_in(value).is_some(),
        Field::Restore => value.as_str().is_some(),
    }
}

/// The key of a value that is at fault. The source of an instance tells which of its parts is.
fn value_fault(field: Field, value: &Value, body: &SentBody) -> Option<&'static str>
    requires { non_null_member (key_of field) (view body.now) ≡ Some (view value.now) }
    ensures { option_map (λ k. k.now) result ≡ value_fault field (view value.now) }
{
    if let Field::InstanceSource = field {
        return fault_in_source(body);
    }
    if value_fits(field, value, body) {
        None
    } else {
        Some(word_of(key_of(field)))
    }
}

fn absent_fault(field: Field) -> Option<&'static str>
    ensures { option_map (λ k. k.now) result ≡ absent_fault field }
{
    match field {
        Field::Name => Some("name"),
        Field::Driver => Some("driver"),
        Field::InstanceSource => Some("source"),
        Field::Action => Some("action"),
        _ => None,
    }
}

/// The key of a field that is at fault.
#[tactic(auto, unfolding(crate::specs::Fields::fault_of))]
fn fault_of(field: Field, body: &SentBody) -> Option<&'static str>
    ensures { option_map (λ k. k.now) result ≡ fault_of field (view body.now) }
{
    match body.field(key_of(field)) {
        Some(value) => value_fault(field, value, body),
        None => absent_fault(field),
    }
}

/// The key of the first field that is at fault.
fn first_fault(fields: &[Field], body: &SentBody) -> Option<&'static str>
    ensures { option_map (λ k. k.now) result ≡ first_fault fields.now (view body.now) }
{
    for field in fields {
        match fault_of(*field, body) {
            Some(key) => return Some(key),
            None => {}
        }
    }
    None
}

/// The fields of a body that are judged: those of its shape, but none where an instance is put back to a snapshot.
fn judged_fields(shape: Shape, body: &SentBody) -> &'static [Field]
    ensures { result.now ≡ judged_fields shape (view body.now) }
{
    if let Shape::InstancePut = shape
        && is_restoration(body)
    {
        return &[];
    }
    fields_of(shape)
}

/// The key of the first field of a body that is at fault, if one is.
#[tactic(auto, unfolding(crate::specs::Fields::body_fault))]
pub fn judge_fields(shape: Shape, body: &SentBody) -> Option<&'static str>
    ensures { option_map (λ k. k.now) result ≡ body_fault shape (view body.now) }
{
    first_fault(judged_fields(shape, body), body)
}
