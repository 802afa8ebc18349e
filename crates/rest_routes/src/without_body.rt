//! What GET and DELETE ask for.
ghost use Rattle.std.specs.Prelude.{◌≡◌};
ghost use Rattle.rest_routes.specs.Answers.{Gives};
ghost use Rattle.rest_routes.specs.WithoutBody.{get_or_delete, get_or_cancel, get_or_delete_at, what_without_body};

use crate::endpoints::{Endpoint, Verb};
use crate::query::{Query, asks_objects, wait_timeout};
use crate::refusals::plain_refusal;
use crate::targets::{object_of, objects_of, operation_at};
use records::{Refusal, Rule, Target, What};
use size_values::{ObjectKind, Or};
use std::alloc::Global;

fn get_or_delete(verb: Verb, of: Target) -> What
    ensures { result ≡ get_or_delete verb of }
{
    match verb {
        Verb::Delete => What::Delete { of },
        _ => What::Get { of },
    }
}

fn get_or_cancel(verb: Verb, op: u64) -> What
    ensures { result ≡ get_or_cancel verb op }
{
    match verb {
        Verb::Delete => What::Cancel { op },
        _ => What::GetOp { op },
    }
}

/// What GET and DELETE ask of one object.
fn get_or_delete_at(
    alloc: Global,
    kind: ObjectKind,
    verb: Verb,
    path: &str,
    boot: u64,
) -> Result<What, Or<Refusal>>
    ensures { Gives result (get_or_delete_at kind verb path.now boot) }
{
    match kind {
        ObjectKind::Operation => Ok(get_or_cancel(verb, operation_at(alloc, path, boot)?)),
        _ => Ok(get_or_delete(verb, object_of(alloc, kind, path)?)),
    }
}

/// What GET and DELETE ask for at an endpoint.
pub(crate) fn what_without_body(
    alloc: Global,
    endpoint: Endpoint,
    verb: Verb,
    path: &str,
    query: &Query,
    boot: u64,
) -> Result<What, Or<Refusal>>
    ensures { Gives result (what_without_body endpoint verb path.now query.now boot) }
{
    match endpoint {
        Endpoint::Root => Ok(What::Root),
        Endpoint::Server => Ok(What::Server),
        Endpoint::List(kind) => Ok(What::List {
            of: objects_of(alloc, kind, path)?,
            recursion: asks_objects(query),
        }),
        Endpoint::One(kind) => get_or_delete_at(alloc, kind, verb, path, boot),
        Endpoint::Usage => Ok(What::State {
            of: object_of(alloc, ObjectKind::Project, path)?,
        }),
        Endpoint::State => Ok(What::State {
            of: object_of(alloc, ObjectKind::Instance, path)?,
        }),
        Endpoint::Wait => Ok(What::Wait {
            op: operation_at(alloc, path, boot)?,
            timeout: wait_timeout(query),
        }),
        Endpoint::Events => Err(plain_refusal(alloc, Rule::A6)),
        Endpoint::Empty => Err(plain_refusal(alloc, Rule::A1)),
    }
}
