//! Which lists take a filter, and what the query of such a list says.
ghost use Rattle.std.specs.Prelude.{◌≡◌, IfOk};
ghost use Rattle.rest_routes.specs.Filters.{can_be_filtered, list_query, passes_empty, takes_filter};

use crate::endpoints::{Endpoint, Verb};
use crate::paths::split_target;
use crate::query::{Query, query_read};
use rest_json::Dialect;
use size_values::{NoMemory, ObjectKind, Or};
use std::alloc::Global;

/// Whether objects of a kind are chosen by a filter.
fn can_be_filtered(kind: ObjectKind) -> bool
    ensures { result ≡ can_be_filtered kind }
{
    match kind {
        ObjectKind::Operation => false,
        _ => true,
    }
}

/// Whether a filter is taken by what a method asks of an endpoint.
pub(crate) fn takes_filter(endpoint: Endpoint, verb: Verb) -> bool
    ensures { result ≡ takes_filter endpoint verb }
{
    match endpoint {
        Endpoint::List(kind) => match verb {
            Verb::Get => can_be_filtered(kind),
            _ => false,
        },
        _ => false,
    }
}

/// Whether empty filters are passed over in a dialect.
fn passes_empty(dialect: Dialect) -> bool
    ensures { result ≡ passes_empty dialect }
{
    match dialect {
        Dialect::Plain => false,
        Dialect::Client => true,
    }
}

/// What the query of a target says where a filter is taken, or nothing where one of its pairs is bad.
#[tactic(auto, unfolding(crate::specs::Filters::list_query))]
pub fn list_query(alloc: Global, dialect: Dialect, target: &str) -> Result<Option<Query>, NoMemory>
    ensures { IfOk result (λ query. query ≡ list_query dialect target.now) }
{
    let (_, query_text) = split_target(target);
    match query_read(alloc, query_text, true, passes_empty(dialect)) {
        Ok(query) => Ok(Some(query)),
        Err(Or::Why(_)) => Ok(None),
        Err(Or::NoMemory) => Err(NoMemory),
    }
}
