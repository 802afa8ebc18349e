//! Which command a request asks for, by its form: the paths and what each offers, queries and bodies.
#![tactic(auto)]

mod absolute;
mod commands;
mod endpoints;
mod filters;
mod known;
mod laws;
mod leniencies;
mod path_laws;
mod paths;
mod query;
mod refusals;
mod router;
mod shapes;
mod table;
mod targets;
mod with_body;
mod without_body;

pub use endpoints::{Endpoint, Line, Methods, Verb, has_body, verb_offered};
pub use filters::list_query;
pub use known::asks_for_server;
pub use laws::{
    dialects_ask_in_plain, leniencies_by_example, lists_are_asked_by_their_query,
    what_is_routed_is_formed,
};
pub use path_laws::{
    events_stand_at_one_path, names_fill_the_braces, paths_do_not_conflict,
    the_server_stands_at_its_path,
};
pub use paths::{
    PathNames, instance_of, name_of, path_names, path_of, pool_of, query_of, split_target,
};
pub use query::{
    Flags, Query, Types, project_of, query_from_text, wait_timeout, wanted_types, wants_objects,
};
pub use refusals::{no_operation, plain_refusal, refusal_on_key};
pub use rest_bodies::names_first_bad;
pub use rest_replies::{Dialect, Terms, id_text, number_of, print, print_notice};
pub use router::Router;
pub use table::PathTable;
