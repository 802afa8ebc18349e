//! The bytes of requests.
ghost use Rattle.std.specs.Prelude.{◌≡◌, ◌++◌, [], codes, IfOk};
ghost use Rattle.workload.specs.Stream.{request};
ghost use Rattle.client_words.specs.declared.words.Asks.TheVariants as asks;
ghost use Rattle.client_steps.specs.Legs.{body_of, filter_query, line_of, named, request_of};

use crate::legs::Leg;
use client_words::{Asks, ClientWords};
use form_urlencoded::Serializer;
use size_values::{NoMemory, Text};
use std::alloc::Global;

/// The body of a start.
const START: &str = "{\"action\":\"start\"}";

/// The body of a stop.
const STOP: &str = "{\"action\":\"stop\"}";

/// The instance or the operation that a command names.
fn named(asks: &Asks) -> &str
    ensures { result.now ≡ named asks.now }
{
    match asks {
        Asks::Launch { name } => name.view(),
        Asks::Start { name } => name.view(),
        Asks::Stop { name } => name.view(),
        Asks::Delete { name } => name.view(),
        Asks::Wait { id } => id.view(),
        Asks::Cancel { id } => id.view(),
        _ => "",
    }
}

/// A filter as a form writes it (WHATWG, URL, section 5.2), behind `&`.
fn written_filter(alloc: Global, filter: &str) -> Result<Text, NoMemory>
    ensures { IfOk result (λ text. text ≡ filter_query (asks.List (Some filter.now))) }
{
    let mut form = Serializer::new(String::new(alloc));
    form.append_pair("filter", filter)?;
    let form = form.finish();
    Text::joined(alloc, "&", form.as_str())
}

/// The filter of a list, where it has one.
fn filter_query(alloc: Global, asks: &Asks) -> Result<Text, NoMemory>
    ensures { IfOk result (λ text. text ≡ filter_query asks.now) }
{
    match asks {
        Asks::List {
            filter: Some(filter),
        } => written_filter(alloc, filter.view()),
        _ => Ok(Text::new(alloc)),
    }
}

/// The line of the request for a list of this project, with a filter that is written.
fn list_line(alloc: Global, project: &str, filter: &str) -> Result<Text, NoMemory>
    ensures { IfOk result (λ line. line
        ≡ codes "GET /1.0/instances?project=" ++ project.now ++ codes "&recursion=1" ++ filter.now) }
{
    Ok(Text::from_string(format!(in alloc;
        "GET /1.0/instances?project={project}&recursion=1{filter}"
    )?))
}

/// The line of the request for the list that the words ask for.
fn line_of_list(alloc: Global, words: &ClientWords) -> Result<Text, NoMemory>
    ensures { IfOk result (λ line. line ≡ line_of words.now Leg.List []) }
{
    let filter = filter_query(alloc, &words.asks)?;
    list_line(alloc, words.project.view(), filter.view())
}

/// The line of the request that changes the state of an instance.
fn state_line(alloc: Global, name: &str, project: &str) -> Result<Text, NoMemory>
    ensures { IfOk result (λ line. line
        ≡ codes "PUT /1.0/instances/" ++ name.now ++ codes "/state?project=" ++ project.now) }
{
    Ok(Text::from_string(format!(in alloc; "PUT /1.0/instances/{name}/state?project={project}")?))
}

/// The line of the request that deletes an instance.
fn deletion_line(alloc: Global, name: &str, project: &str) -> Result<Text, NoMemory>
    ensures { IfOk result (λ line. line
        ≡ codes "DELETE /1.0/instances/" ++ name.now ++ codes "?project=" ++ project.now) }
{
    Ok(Text::from_string(format!(in alloc; "DELETE /1.0/instances/{name}?project={project}")?))
}

/// A part of a line with what stands around it.
fn between(alloc: Global, front: &str, middle: &str, rest: &str) -> Result<Text, NoMemory>
    ensures { IfOk result (λ line. line ≡ front.now ++ middle.now ++ rest.now) }
{
    let mut line = String::from_str(alloc, front)?;
    line.push_str(middle)?;
    line.push_str(rest)?;
    Ok(Text::from_string(line))
}

/// The line of a request, by its method and its target. The operation is the path of the one that was begun last.
fn line_of(alloc: Global, words: &ClientWords, leg: Leg, operation: &str) -> Result<Text, NoMemory>
    ensures { IfOk result (λ line. line ≡ line_of words.now leg operation.now) }
{
    let project = words.project.view();
    let name = named(&words.asks);
    match leg {
        Leg::List => line_of_list(alloc, words),
        Leg::Create => Text::joined(alloc, "POST /1.0/instances?project=", project),
        Leg::Start | Leg::Stop => state_line(alloc, name, project),
        Leg::Delete => deletion_line(alloc, name, project),
        Leg::Await => between(alloc, "GET ", operation, "/wait?timeout=-1"),
        Leg::Wait => between(alloc, "GET /1.0/operations/", name, "/wait?timeout=-1"),
        Leg::Cancel => Text::joined(alloc, "DELETE /1.0/operations/", name),
        Leg::Limits => between(alloc, "GET /1.0/projects/", project, "/state"),
    }
}

/// The body of a request. The name of an instance needs no escapes.
fn body_of(alloc: Global, words: &ClientWords, leg: Leg) -> Result<Text, NoMemory>
    ensures { IfOk result (λ body. body ≡ body_of words.now leg) }
{
    match leg {
        Leg::Create => between(
            alloc,
            "{\"name\":\"",
            named(&words.asks),
            "\",\"source\":{\"type\":\"none\"}}",
        ),
        Leg::Start => Text::from_text(alloc, START),
        Leg::Stop => Text::from_text(alloc, STOP),
        _ => Ok(Text::new(alloc)),
    }
}

/// A request (RFC 9112, section 3): its line, the host, the length of its body, and the body.
fn request(alloc: Global, line: &str, body: &str) -> Result<Text, NoMemory>
    ensures { IfOk result (λ text. text ≡ request line.now body.now) }
{
    let len = body.len();
    let head = format!(in alloc;
        "{line} HTTP/1.1\r\nHost: localhost\r\nContent-Length: {len}\r\n\r\n"
    )?;
    Text::joined(alloc, head.as_str(), body)
}

/// The bytes of the request of a leg.
pub(crate) fn request_of(
    alloc: Global,
    words: &ClientWords,
    leg: Leg,
    operation: &str,
) -> Result<Text, NoMemory>
    ensures { IfOk result (λ text. text ≡ request_of words.now leg operation.now) }
{
    let line = line_of(alloc, words, leg, operation)?;
    let body = body_of(alloc, words, leg)?;
    request(alloc, line.view(), body.view())
}
