//! The subscription of a request for events.
ghost use Rattle.std.specs.Prelude.{◌≡◌, IfOk};
ghost use Rattle.serve_loop.specs.Subscriptions.{subscribed, subscription_of};

use crate::filters::event_filter;
use http_heads::Request;
use records::Filter;
use size_values::{NoMemory, Or, Text};
use std::alloc::Global;

/// What a listener asks for: the key of its handshake, and which events it takes.
#[derive(Drop)]
pub struct Subscription {
    pub key: Text,
    pub filter: Filter,
}

/// The subscription to the events of a filter, by the key of a handshake.
fn subscribed(
    alloc: Global,
    filter: Option<Filter>,
    upgrade: &Option<Text>,
) -> Result<Option<Subscription>, NoMemory>
    ensures { IfOk result (λ s. s ≡ subscribed filter upgrade.now) }
{
    let Some(filter) = filter else {
        return Ok(None);
    };
    match upgrade {
        Some(key) => match key.copy(alloc) {
            Ok(key) => Ok(Some(Subscription { key, filter })),
            Err(NoMemory) => {
                drop(filter);
                Err(NoMemory)
            }
        },
        None => {
            drop(filter);
            Ok(None)
        }
    }
}

/// The subscription of a request: none where it is no GET of `/1.0/events` with a WebSocket
/// handshake, and where its query is refused.
#[tactic(auto, unfolding(crate::specs::Subscriptions::subscription_of))]
pub fn subscription_of(alloc: Global, request: &Request) -> Result<Option<Subscription>, NoMemory>
    ensures { IfOk result (λ s. s ≡ subscription_of request.now) }
{
    match event_filter(alloc, request) {
        Ok(filter) => subscribed(alloc, filter, &request.upgrade),
        Err(Or::Why(_)) => Ok(None),
        Err(Or::NoMemory) => Err(NoMemory),
    }
}
