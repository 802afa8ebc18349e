//! What can be said of the table of paths. A law is the contract of a function that does nothing.
ghost use Rattle.std.specs.Prelude.{◌≡◌, ◌++◌, true, [], codes, Some, Ok};
ghost use Rattle.rest_routes.specs.Filled.{NamesFill};
ghost use Rattle.rest_routes.specs.Endpoints.{empty_lists, routes, are_taken, line_of, server_line, EventsStandAtOnePath};
ghost use Rattle.rest_routes.specs.Queries.{no_query, query_from_text};

/// No path of the table is malformed, and none conflicts with one before it, so that a table of paths fails to be made
/// for memory alone. Nor is one of the lists that are always empty, and none of them conflicts with another path.
pub fn paths_do_not_conflict()
    ensures listed { are_taken routes [] ≡ true }
    ensures empty { are_taken (empty_lists ++ routes) [] ≡ true }
{}

/// The names that requests read off a path are what stands in it in place of the braces of its line in the table, where
/// the router finds one.
pub fn names_fill_the_braces()
    ensures { NamesFill }
{}

/// Events stand at `/1.0/events`, and at no other path.
pub fn events_stand_at_one_path()
    ensures { EventsStandAtOnePath }
{}

/// The server stands at `/1.0`, where GET alone is offered, and a target without a query says nothing more.
pub fn the_server_stands_at_its_path()
    ensures line { line_of (codes "/1.0") ≡ Some server_line }
    ensures query { query_from_text [] ≡ Ok no_query }
{}
