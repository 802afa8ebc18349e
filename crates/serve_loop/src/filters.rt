//! Which events a request asks for.
ghost use Rattle.std.specs.Prelude.{◌≡◌, IfOk};
ghost use Rattle.rest_routes.specs.Answers.{Gives};
ghost use Rattle.serve_loop.specs.Filters.{asks_events, filter_from, filter_of};

use http_heads::Request;
use records::{Filter, Refusal};
use rest_routes::{Query, path_of, project_of, query_from_text, query_of, wanted_types};
use size_values::{NoMemory, Or};
use std::alloc::Global;

/// Whether the request is a GET of `/1.0/events` that asks for the WebSocket protocol.
fn asks_events(request: &Request) -> bool
    ensures { result ≡ asks_events request.now }
{
    request.method.view() == "GET"
        && path_of(request.target.view()) == "/1.0/events"
        && request.upgrade.is_some()
}

/// The events that a query asks for.
fn filter_from(alloc: Global, query: Query) -> Result<Filter, NoMemory>
    ensures { IfOk result (λ f. f ≡ filter_from query) }
{
    let types = wanted_types(&query);
    let project = project_of(alloc, query)?;
    Ok(Filter {
        life: types.lifecycle,
        op: types.operation,
        project,
    })
}

/// The events that a request asks for, or none where it is no GET of `/1.0/events` with a WebSocket handshake. A bad
/// query is refused by its key (A3).
#[tactic(auto, unfolding(crate::specs::Filters::filter_of))]
pub fn event_filter(alloc: Global, request: &Request) -> Result<Option<Filter>, Or<Refusal>>
    ensures { Gives result (filter_of request.now) }
{
    if !asks_events(request) {
        return Ok(None);
    }
    let query = query_from_text(alloc, query_of(request.target.view()))?;
    Ok(Some(filter_from(alloc, query)?))
}
