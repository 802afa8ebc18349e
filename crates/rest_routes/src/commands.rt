//! The command of a request, or the refusal of its form.
ghost use Rattle.std.specs.Prelude.{◌≡◌, ◌⊎◌, None, IfOk, if◌then◌else◌, option_map};
ghost use Rattle.serde_json.specs.View.{view};
ghost use Rattle.records.specs.declared.replies.Reply.TheVariants as reply;
ghost use Rattle.rest_bodies.specs.Members.{object_in};
ghost use Rattle.rest_routes.specs.Answers.{Gives, Reads};
ghost use Rattle.rest_routes.specs.Commands.{command_at, command_of, expected_in, shown_empty, unlisted};
ghost use Rattle.rest_routes.specs.Commands.{what_at};
ghost use Rattle.rest_routes.specs.Endpoints.{empty_line_of, has_body, verb_offered};
ghost use Rattle.rest_routes.specs.Leniencies.{body_in};
ghost use Rattle.rest_routes.specs.Paths.{path_of, query_of};
ghost use Rattle.rest_routes.specs.Refusals.{plain_refusal};

use crate::endpoints::{Endpoint, Line, Verb, has_body, verb_offered};
use crate::leniencies::{body_in, query_in};
use crate::paths::split_target;
use crate::query::{Query, project_of};
use crate::refusals::plain_refusal;
use crate::table::PathTable;
use crate::with_body::what_with_body;
use crate::without_body::what_without_body;
use http_heads::Request;
use records::{Command, Refusal, Reply, Rule, What};
use rest_bodies::object_in;
use rest_json::{Dialect, Terms};
use serde_json::Value;
use size_values::{NoMemory, Or, Seq, Text};
use std::alloc::Global;

/// The object that a body spells, read in a dialect, if the method sends one.
fn sent_body(
    alloc: Global,
    dialect: Dialect,
    endpoint: Endpoint,
    verb: Verb,
    path: &str,
    body: &[u8],
) -> Result<Option<Value>, NoMemory>
    ensures { IfOk result (λ sent. option_map view sent
        ≡ (if has_body verb then option_map (body_in dialect endpoint verb path.now) (object_in body.now) else None)) }
{
    if !has_body(verb) {
        return Ok(None);
    }
    match object_in(alloc, body)? {
        Some(object) => Ok(Some(body_in(alloc, dialect, endpoint, verb, path, object)?)),
        None => Ok(None),
    }
}

fn what_at(
    alloc: Global,
    endpoint: Endpoint,
    verb: Verb,
    path: &str,
    query: &Query,
    boot: u64,
    sent: &Option<Value>,
) -> Result<What, Or<Refusal>>
    ensures { Gives result (what_at endpoint verb path.now query.now boot (option_map view sent.now)) }
{
    if has_body(verb) {
        return what_with_body(alloc, endpoint, verb, path, sent);
    }
    what_without_body(alloc, endpoint, verb, path, query, boot)
}

/// The entity tag that the object of a request has to have, by its If-Match: `*` and an absent header expect nothing
/// (RFC 9110, section 13.1.1).
fn expected_in(alloc: Global, if_match: &Option<Text>) -> Result<Option<Text>, NoMemory>
    ensures { IfOk result (λ tag. tag ≡ expected_in if_match.now) }
{
    let Some(value) = if_match else {
        return Ok(None);
    };
    if value.view() == "*" {
        return Ok(None);
    }
    Ok(Some(value.copy(alloc)?))
}

/// The command at the line of a path.
#[tactic(auto, unfolding(crate::specs::Commands::command_at, crate::specs::Commands::plain_command))]
fn command_at(
    alloc: Global,
    line: Line,
    path: &str,
    query_text: &str,
    request: &Request,
    terms: Terms,
) -> Result<Command, Or<Refusal>>
    requires path { path.now ≡ path_of request.now.target }
    requires query { query_text.now ≡ query_of request.now.target }
    ensures { Gives result (command_at line request.now terms) }
{
    let Some(verb) = verb_offered(line, request.method.view()) else {
        return Err(plain_refusal(alloc, Rule::A2));
    };
    let endpoint = line.endpoint;
    let body = request.body.view();
    let sent = sent_body(alloc, terms.dialect, endpoint, verb, path, body)?;
    let query = query_in(alloc, terms.dialect, endpoint, verb, query_text)?;
    let what = what_at(alloc, endpoint, verb, path, &query, terms.boot, &sent)?;
    let expects = expected_in(alloc, &request.if_match)?;
    match project_of(alloc, query) {
        Ok(project) => Ok(Command {
            project,
            what,
            expects,
        }),
        Err(NoMemory) => {
            drop((what, expects));
            Err(Or::NoMemory)
        }
    }
}

/// The reply by a rule that tells nothing.
fn refused_by(alloc: Global, rule: Rule) -> Reply
    ensures { (result ≡ reply.NoMemory) ⊎ (result ≡ reply.Refused (plain_refusal rule)) }
{
    match plain_refusal(alloc, rule) {
        Or::Why(refusal) => Reply::Refused(refusal),
        Or::NoMemory => Reply::NoMemory,
    }
}

/// What is shown at a path where nothing is but maybe a list that is always empty here.
fn shown_empty(alloc: Global, table: &PathTable, path: &str, method: &str) -> Reply
    ensures { (result ≡ reply.NoMemory)
        ⊎ (result ≡ shown_empty (option_map (λ line. verb_offered line method.now) (empty_line_of path.now))) }
{
    match table.empty_line_of(path) {
        Some(line) => match verb_offered(line, method) {
            Some(_) => Reply::Links(Seq::new(alloc)),
            None => refused_by(alloc, Rule::A2),
        },
        None => refused_by(alloc, Rule::A1),
    }
}

/// The reply at a path that is not listed: the client's dialect shows lists that are always empty here.
fn unlisted(alloc: Global, table: &PathTable, dialect: Dialect, path: &str, method: &str) -> Reply
    ensures { (result ≡ reply.NoMemory) ⊎ (result ≡ unlisted dialect path.now method.now) }
{
    match dialect {
        Dialect::Plain => refused_by(alloc, Rule::A1),
        Dialect::Client => shown_empty(alloc, table, path, method),
    }
}

/// What a request asks for, by the table of paths: a command, or a reply that needs none.
#[tactic(auto, unfolding(crate::specs::Commands::command_of))]
pub(crate) fn command_of(
    alloc: Global,
    table: &PathTable,
    request: &Request,
    terms: Terms,
) -> Result<Command, Reply>
    ensures { Reads result (command_of request.now terms) }
{
    let (path, query_text) = split_target(request.target.view());
    let Some(line) = table.line_of(path) else {
        let method = request.method.view();
        return Err(unlisted(alloc, table, terms.dialect, path, method));
    };
    match command_at(alloc, line, path, query_text, request, terms) {
        Ok(command) => Ok(command),
        Err(Or::Why(refusal)) => Err(Reply::Refused(refusal)),
        Err(Or::NoMemory) => Err(Reply::NoMemory),
    }
}
