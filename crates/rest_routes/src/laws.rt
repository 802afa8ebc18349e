//! What holds of the commands of requests. A law is the contract of a function that does nothing.
ghost use Rattle.rest_routes.specs.LeniencyExamples.{BodiesAreRead, QueriesAreRead};
ghost use Rattle.rest_routes.specs.Routed.{ClientAsksInPlain, ListsAreAskedByTheirQuery, PlainAsksAsItIs};
ghost use Rattle.rest_routes.specs.Routed.{RoutedIsFormed};

/// What a request asks for is formed.
pub fn what_is_routed_is_formed()
    ensures { RoutedIsFormed }
{}

/// A request asks in the plain dialect for what it says, and in the client's for what it says in plain without the parts
/// that this dialect passes over.
pub fn dialects_ask_in_plain()
    ensures plain { PlainAsksAsItIs }
    ensures client { ClientAsksInPlain }
{}

/// A list that takes a filter is asked for by its query, and with a filter it is asked for whole.
pub fn lists_are_asked_by_their_query()
    ensures { ListsAreAskedByTheirQuery }
{}

/// What each dialect reads of bodies and queries, by examples.
pub fn leniencies_by_example()
    ensures bodies { BodiesAreRead }
    ensures queries { QueriesAreRead }
{}
