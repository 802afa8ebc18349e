//! What POST, PUT and PATCH ask for.
ghost use Rattle.std.specs.Prelude.{◌≡◌, IfOk, option_map};
ghost use Rattle.serde_json.specs.View.{view};
ghost use Rattle.rest_routes.specs.Answers.{Gives};
ghost use Rattle.rest_routes.specs.WithBody.{creation_from_body, snapshot_to_restore, put_from_body, change_from_body};
ghost use Rattle.rest_routes.specs.WithBody.{action_from_body};
ghost use Rattle.rest_routes.specs.WithBody.{what_from_body, what_with_body};

use crate::endpoints::{Endpoint, Verb};
use crate::refusals::{plain_refusal, refusal_on_key};
use crate::shapes::shape_of;
use crate::targets::{object_of, target_at_path};
use records::{Refusal, Rule, Target, What};
use rest_bodies::{SentBody, Shape, action_at, body_of, judge_fields, name_at, restore_at};
use serde_json::Value;
use size_values::{NoMemory, ObjectKind, Or, Text};
use std::alloc::Global;

/// A new object of the name in the body, which stands where the path says.
fn creation_from_body(
    alloc: Global,
    kind: ObjectKind,
    path: &str,
    shape: Shape,
    body: &SentBody,
) -> Result<What, NoMemory>
    ensures { IfOk result (λ w. w ≡ creation_from_body kind path.now shape (view body.now)) }
{
    let of = target_at_path(alloc, kind, path, name_at(alloc, body)?)?;
    let body = body_of(alloc, shape, body, of.pool.view())?;
    Ok(What::Create { of, body })
}

/// The snapshot that a PUT takes its instance back to, if it says so.
fn snapshot_to_restore(
    alloc: Global,
    shape: Shape,
    body: &SentBody,
) -> Result<Option<Text>, NoMemory>
    ensures { IfOk result (λ snapshot. snapshot ≡ snapshot_to_restore shape (view body.now)) }
{
    match shape {
        Shape::InstancePut => restore_at(alloc, body),
        _ => Ok(None),
    }
}

/// What PUT asks of an object: to be replaced, or to be taken back to a snapshot.
fn put_from_body(alloc: Global, of: Target, shape: Shape, body: &SentBody) -> Result<What, NoMemory>
    ensures { IfOk result
        (λ w. w ≡ put_from_body (snapshot_to_restore shape (view body.now)) of shape (view body.now)) }
{
    if let Some(snapshot) = snapshot_to_restore(alloc, shape, body)? {
        return Ok(What::Restore { of, snapshot });
    }
    let body = body_of(alloc, shape, body, of.pool.view())?;
    Ok(What::Put { of, body })
}

/// What a method with a body asks of the object in the path.
fn change_from_body(
    alloc: Global,
    verb: Verb,
    of: Target,
    shape: Shape,
    body: &SentBody,
) -> Result<What, NoMemory>
    ensures { IfOk result (λ w. w ≡ change_from_body verb of shape (view body.now)) }
{
    match verb {
        Verb::Put => put_from_body(alloc, of, shape, body),
        Verb::Patch => {
            let body = body_of(alloc, shape, body, of.pool.view())?;
            Ok(What::Patch { of, body })
        }
        _ => {
            let to = name_at(alloc, body)?;
            Ok(What::Move { of, to })
        }
    }
}

/// An action on the instance in the path.
fn action_from_body(alloc: Global, path: &str, body: &SentBody) -> Result<What, Or<Refusal>>
    ensures { Gives result (action_from_body path.now (view body.now)) }
{
    let Some(action) = action_at(body) else {
        return Err(refusal_on_key(alloc, Rule::A5, "action"));
    };
    let of = object_of(alloc, ObjectKind::Instance, path)?;
    Ok(What::Act { of, action })
}

/// What a body of a shape asks for.
fn what_from_body(
    alloc: Global,
    endpoint: Endpoint,
    verb: Verb,
    path: &str,
    shape: Shape,
    body: &SentBody,
) -> Result<What, Or<Refusal>>
    ensures { Gives result (what_from_body endpoint verb path.now shape (view body.now)) }
{
    match endpoint {
        Endpoint::List(kind) => Ok(creation_from_body(alloc, kind, path, shape, body)?),
        Endpoint::One(kind) => {
            let of = object_of(alloc, kind, path)?;
            Ok(change_from_body(alloc, verb, of, shape, body)?)
        }
        Endpoint::State => action_from_body(alloc, path, body),
        _ => Err(plain_refusal(alloc, Rule::A2)),
    }
}

/// What POST, PUT and PATCH ask for at an endpoint.
#[tactic(auto, unfolding(crate::specs::WithBody::what_with_body))]
pub(crate) fn what_with_body(
    alloc: Global,
    endpoint: Endpoint,
    verb: Verb,
    path: &str,
    sent: &Option<Value>,
) -> Result<What, Or<Refusal>>
    ensures { Gives result (what_with_body endpoint verb path.now (option_map view sent.now)) }
{
    let Some(value) = sent else {
        return Err(plain_refusal(alloc, Rule::A4));
    };
    let body = SentBody::new(value);
    let Some(shape) = shape_of(endpoint, verb, &body) else {
        return Err(plain_refusal(alloc, Rule::A2));
    };
    match judge_fields(shape, &body) {
        Some(key) => Err(refusal_on_key(alloc, Rule::A5, key)),
        None => what_from_body(alloc, endpoint, verb, path, shape, &body),
    }
}
