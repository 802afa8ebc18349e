//! Laws of the definitions: functions that do nothing, whose contracts are the laws.
ghost use Rattle.std.specs.Prelude.{◌≡◌, ℕ, ◌↔◌, List, Ok, Some, None, false, codes};
ghost use Rattle.records.specs.declared.notices.Filter.{Filter as FilterValue};
ghost use Rattle.http_heads.specs.declared.request.Request.{Request as RequestValue};
ghost use Rattle.serve_loop.specs.Accepting.{accept_text as accepting};
ghost use Rattle.serve_loop.specs.SubscriptionExamples.{AreExamples};
ghost use Rattle.serve_loop.specs.Filters.{asks_events as asking, filter_of as filtering};
ghost use Rattle.serve_loop.specs.Subscriptions.{subscription_of as subscribing};

/// The example of RFC 6455, section 1.3.
pub fn accepts_the_example()
    ensures { accepting (codes "dGhlIHNhbXBsZSBub25jZQ==") ≡ codes "s3pPLMBiTxaQ9kYGzzhZRbK+xOo=" }
{}

/// There is no filter exactly where the request asks for no events, whatever its query says.
pub fn no_filter_where_none_is_asked()
    ensures { (request : RequestValue) → (filtering request ≡ Ok None) ↔ (asking request ≡ false) }
{}

/// Requests, each with the events that it asks for.
pub fn filters_by_example()
    ensures { (key : List ℕ) → AreExamples key }
{}

/// A request that asks for events of a filter subscribes to these, by the key of its handshake, and
/// no other request does.
pub fn subscribes_by_the_filter()
    ensures subscribes { (request : RequestValue) (filter : FilterValue) → filtering request ≡ Ok (Some filter)
        → (key : List ℕ) × (request.upgrade ≡ Some key)
        × (subscribing request ≡ Some (record { key = key; filter = filter })) }
    ensures none { (request : RequestValue) → filtering request ≡ Ok None → subscribing request ≡ None }
{}
