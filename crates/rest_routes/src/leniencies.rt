//! What the client's dialect reads otherwise than the plain one.
ghost use Rattle.std.specs.Prelude.{◌≡◌, IfOk};
ghost use Rattle.form_urlencoded.specs.Form.{raw_pairs};
ghost use Rattle.serde_json.specs.View.{view};
ghost use Rattle.size_values.specs.declared.kinds.ObjectKind.TheVariants as kind;
ghost use Rattle.rest_routes.specs.Answers.{Gives};
ghost use Rattle.rest_routes.specs.Filters.{takes_filter};
ghost use Rattle.rest_routes.specs.Leniencies.{body_in, pairs_in, plain_body};
ghost use Rattle.rest_routes.specs.Queries.{query_of};
ghost use Rattle.rest_routes.specs.declared.endpoints.Endpoint.TheVariants as endpoint;
ghost use Rattle.rest_routes.specs.declared.endpoints.Verb.TheVariants as verb;

use crate::endpoints::{Endpoint, Verb};
use crate::filters::takes_filter;
use crate::paths::name_of;
use crate::query::{Query, query_read};
use records::Refusal;
use rest_bodies::{with_own_snapshot, without_empty, without_start, without_untyped_source};
use rest_json::Dialect;
use serde_json::Value;
use size_values::{NoMemory, ObjectKind, Or};
use std::alloc::Global;

/// What a query says at an endpoint, read in a dialect.
#[tactic(auto, using(crate::proofs::Passing::none_passed))]
pub(crate) fn query_in(
    alloc: Global,
    dialect: Dialect,
    endpoint: Endpoint,
    verb: Verb,
    text: &str,
) -> Result<Query, Or<Refusal>>
    ensures { Gives result
        (query_of (takes_filter endpoint verb) (pairs_in dialect endpoint verb (raw_pairs text.now))) }
{
    let taken = takes_filter(endpoint, verb);
    match dialect {
        Dialect::Plain => query_read(alloc, text, taken, false),
        Dialect::Client => query_read(alloc, text, taken, taken),
    }
}

/// The body of a request that makes an object, as the plain dialect has it.
fn plain_creation(kind: ObjectKind, verb: Verb, path: &str, body: Value) -> Value
    ensures { view result ≡ plain_body (endpoint.List kind) verb path.now (view body) }
{
    match kind {
        ObjectKind::Network => without_empty(body, "type"),
        ObjectKind::Volume => without_untyped_source(body),
        ObjectKind::Instance => without_start(body),
        _ => body,
    }
}

/// The body of a request that changes an instance, as the plain dialect has it.
fn plain_change(alloc: Global, verb: Verb, path: &str, body: Value) -> Result<Value, NoMemory>
    ensures { IfOk result (λ v. view v ≡ plain_body (endpoint.One kind.Instance) verb path.now (view body)) }
{
    match verb {
        Verb::Post => Ok(without_empty(body, "project")),
        Verb::Put => with_own_snapshot(alloc, body, name_of(ObjectKind::Instance, path)),
        _ => Ok(body),
    }
}

/// The body of a request, as the plain dialect has it.
fn plain_body(
    alloc: Global,
    endpoint: Endpoint,
    verb: Verb,
    path: &str,
    body: Value,
) -> Result<Value, NoMemory>
    ensures { IfOk result (λ v. view v ≡ plain_body endpoint verb path.now (view body)) }
{
    match endpoint {
        Endpoint::List(kind) => Ok(plain_creation(kind, verb, path, body)),
        Endpoint::One(kind) => match kind {
            ObjectKind::Instance => plain_change(alloc, verb, path, body),
            _ => Ok(body),
        },
        _ => Ok(body),
    }
}

/// The body of a request in a dialect.
pub(crate) fn body_in(
    alloc: Global,
    dialect: Dialect,
    endpoint: Endpoint,
    verb: Verb,
    path: &str,
    body: Value,
) -> Result<Value, NoMemory>
    ensures { IfOk result (λ v. view v ≡ body_in dialect endpoint verb path.now (view body)) }
{
    match dialect {
        Dialect::Plain => Ok(body),
        Dialect::Client => plain_body(alloc, endpoint, verb, path, body),
    }
}
