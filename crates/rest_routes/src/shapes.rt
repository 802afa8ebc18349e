//! Which body a method sends to an endpoint.
ghost use Rattle.std.specs.Prelude.{◌≡◌};
ghost use Rattle.serde_json.specs.View.{view};
ghost use Rattle.rest_routes.specs.Shapes.{instance_shape, creation_shape, rename_shape, instance_change};
ghost use Rattle.rest_routes.specs.Shapes.{change_shape, object_shape, shape_of};

use crate::endpoints::{Endpoint, Verb};
use rest_bodies::{SentBody, Shape, asks_for_copy};
use size_values::ObjectKind;

/// A new instance, which is a copy where its source says so. This is looked up before any field is judged.
fn instance_shape(body: &SentBody) -> Shape
    ensures { result ≡ instance_shape (view body.now) }
{
    if asks_for_copy(body) {
        Shape::InstanceCopy
    } else {
        Shape::NewInstance
    }
}

fn creation_shape(kind: ObjectKind, body: &SentBody) -> Option<Shape>
    ensures { result ≡ creation_shape kind (view body.now) }
{
    match kind {
        ObjectKind::Project => Some(Shape::NewProject),
        ObjectKind::Profile => Some(Shape::NewProfile),
        ObjectKind::Network => Some(Shape::NewNetwork),
        ObjectKind::Pool => Some(Shape::NewPool),
        ObjectKind::Volume => Some(Shape::NewVolume),
        ObjectKind::Instance => Some(instance_shape(body)),
        ObjectKind::Snapshot => Some(Shape::NewSnapshot),
        ObjectKind::Operation => None,
    }
}

/// The body of a rename. Pools, snapshots and operations keep their names.
fn rename_shape(kind: ObjectKind) -> Option<Shape>
    ensures { result ≡ rename_shape kind }
{
    match kind {
        ObjectKind::Project => Some(Shape::Rename),
        ObjectKind::Profile => Some(Shape::Rename),
        ObjectKind::Network => Some(Shape::Rename),
        ObjectKind::Pool => None,
        ObjectKind::Volume => Some(Shape::Rename),
        ObjectKind::Instance => Some(Shape::InstanceRename),
        ObjectKind::Snapshot => None,
        ObjectKind::Operation => None,
    }
}

fn instance_change(verb: Verb) -> Shape
    ensures { result ≡ instance_change verb }
{
    match verb {
        Verb::Put => Shape::InstancePut,
        _ => Shape::InstancePatch,
    }
}

/// The body of PUT and PATCH.
fn change_shape(kind: ObjectKind, verb: Verb) -> Option<Shape>
    ensures { result ≡ change_shape kind verb }
{
    match kind {
        ObjectKind::Project => Some(Shape::Change),
        ObjectKind::Profile => Some(Shape::ProfileChange),
        ObjectKind::Network => Some(Shape::Change),
        ObjectKind::Pool => Some(Shape::Change),
        ObjectKind::Volume => Some(Shape::Change),
        ObjectKind::Instance => Some(instance_change(verb)),
        ObjectKind::Snapshot => None,
        ObjectKind::Operation => None,
    }
}

/// The body that a method sends to an object: POST renames it.
fn object_shape(kind: ObjectKind, verb: Verb) -> Option<Shape>
    ensures { result ≡ object_shape kind verb }
{
    match verb {
        Verb::Get => None,
        Verb::Post => rename_shape(kind),
        Verb::Put => change_shape(kind, verb),
        Verb::Patch => change_shape(kind, verb),
        Verb::Delete => None,
    }
}

/// The shape of the body that a method sends to an endpoint, if one is sent there.
pub(crate) fn shape_of(endpoint: Endpoint, verb: Verb, body: &SentBody) -> Option<Shape>
    ensures { result ≡ shape_of endpoint verb (view body.now) }
{
    match endpoint {
        Endpoint::List(kind) => creation_shape(kind, body),
        Endpoint::One(kind) => object_shape(kind, verb),
        Endpoint::State => Some(Shape::StateChange),
        _ => None,
    }
}
