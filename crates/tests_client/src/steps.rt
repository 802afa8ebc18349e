//! Command lines of the client with the replies that a server gives, and what the client sends and prints.
use crate::words::words_in;
use client_replies::{Answer, Reading, read_reply};
use client_steps::{Next, first_request, next_step};
use client_words::ClientWords;
use std::alloc::Global;

/// Words, each behind a `|`; replies, each a status code and a body; the requests that are sent; and what is printed, with the
/// status. A request is its line, a `|` and its body.
type Run = (
    &'static str,
    &'static [(u16, &'static str)],
    &'static [&'static str],
    &'static str,
    u8,
);

const BEGUN: (u16, &str) = (
    202,
    "{\"metadata\":{},\"operation\":\"/1.0/operations/00000000-0001-8000-8000-000000000002\",\"status\":\"Operation created\",\"status_code\":100,\"type\":\"async\"}",
);

const ENDED: (u16, &str) = (
    200,
    "{\"metadata\":{\"err\":\"\",\"status\":\"Success\"},\"status\":\"Success\",\"status_code\":200,\"type\":\"sync\"}",
);

const FAILED: (u16, &str) = (
    200,
    "{\"metadata\":{\"err\":\"host call failed\",\"status\":\"Failure\"},\"status\":\"Success\",\"status_code\":200,\"type\":\"sync\"}",
);

const REFUSED: (u16, &str) = (
    404,
    "{\"error\":\"object is missing\",\"error_code\":404,\"metadata\":{\"rule\":\"N2\"},\"type\":\"error\"}",
);

const LISTED: (u16, &str) = (
    200,
    "{\"metadata\":[{\"name\":\"a\",\"status\":\"Running\"},{\"name\":\"longer\",\"status\":\"Stopped\"}],\"status\":\"Success\",\"status_code\":200,\"type\":\"sync\"}",
);

const USED: (u16, &str) = (
    200,
    "{\"metadata\":{\"resources\":{\"cpu\":{\"limit\":-1,\"usage\":3},\"memory\":{\"limit\":1024,\"usage\":0}}},\"status\":\"Success\",\"status_code\":200,\"type\":\"sync\"}",
);

const WAIT: &str = "GET /1.0/operations/00000000-0001-8000-8000-000000000002/wait?timeout=-1|";

const RUNS: &[Run] = &[
    (
        "|limits|--port=1",
        &[USED],
        &["GET /1.0/projects/default/state|"],
        "cpu 3 -\nmemory 0 1024\n",
        0,
    ),
    (
        "|limits|--port=1|--project=lab|--format=table",
        &[USED],
        &["GET /1.0/projects/lab/state|"],
        "KEY    USAGE LIMIT\ncpu    3     -\nmemory 0     1024\n",
        0,
    ),
    (
        "|limits|--port=1|--format=json",
        &[USED],
        &["GET /1.0/projects/default/state|"],
        "{\"resources\":{\"cpu\":{\"limit\":-1,\"usage\":3},\"memory\":{\"limit\":1024,\"usage\":0}}}\n",
        0,
    ),
    (
        "|list|--port=1",
        &[LISTED],
        &["GET /1.0/instances?project=default&recursion=1|"],
        "a Running\nlonger Stopped\n",
        0,
    ),
    (
        "|list|config.user.x ne 1 and not (name eq c)|--port=1|--format=table",
        &[LISTED],
        &[
            "GET /1.0/instances?project=default&recursion=1&filter=config.user.x+ne+1+and+not+%28name+eq+c%29|",
        ],
        "NAME   STATUS\na      Running\nlonger Stopped\n",
        0,
    ),
    (
        "|launch|a|--port=1",
        &[BEGUN, ENDED, BEGUN, ENDED],
        &[
            "POST /1.0/instances?project=default|{\"name\":\"a\",\"source\":{\"type\":\"none\"}}",
            WAIT,
            "PUT /1.0/instances/a/state?project=default|{\"action\":\"start\"}",
            WAIT,
        ],
        "a Running\n",
        0,
    ),
    (
        "|launch|a|--port=1",
        &[BEGUN, FAILED],
        &[
            "POST /1.0/instances?project=default|{\"name\":\"a\",\"source\":{\"type\":\"none\"}}",
            WAIT,
        ],
        "error: host call failed\n",
        1,
    ),
    (
        "|start|a|--port=1|--project=lab",
        &[REFUSED],
        &["PUT /1.0/instances/a/state?project=lab|{\"action\":\"start\"}"],
        "error: object is missing: rule N2\n",
        1,
    ),
    (
        "|stop|a|--port=1",
        &[BEGUN, ENDED],
        &[
            "PUT /1.0/instances/a/state?project=default|{\"action\":\"stop\"}",
            WAIT,
        ],
        "a Stopped\n",
        0,
    ),
    (
        "|delete|a|--port=1|--format=table",
        &[BEGUN, ENDED],
        &["DELETE /1.0/instances/a?project=default|", WAIT],
        "NAME STATUS\na    deleted\n",
        0,
    ),
    (
        "|delete|a|--port=1",
        &[ENDED],
        &["DELETE /1.0/instances/a?project=default|"],
        "",
        3,
    ),
    (
        "|wait|00000000-0001-8000-8000-000000000002|--port=1",
        &[FAILED],
        &[WAIT],
        "00000000-0001-8000-8000-000000000002 Failure\n",
        0,
    ),
    (
        "|cancel|00000000-0001-8000-8000-000000000002|--port=1",
        &[ENDED],
        &["DELETE /1.0/operations/00000000-0001-8000-8000-000000000002|"],
        "00000000-0001-8000-8000-000000000002 cancelled\n",
        0,
    ),
];

/// What a reply with this code and body tells.
fn answer_of(alloc: Global, code: u16, body: &str) -> Option<Answer> {
    let len = body.len();
    let text = format!(in alloc; "HTTP/1.1 {code} X\r\nContent-Length: {len}\r\n\r\n{body}").ok()?;
    let read = read_reply(alloc, text.as_str().as_bytes());
    drop(text);
    match read {
        Ok(Reading::Whole { answer, .. }) => Some(answer),
        _ => None,
    }
}

/// Whether a request has this line and this body.
fn is_request(alloc: Global, request: &str, want: &str) -> bool {
    let mut parts = want.split('|');
    let line = parts.next().unwrap_or("");
    let body = parts.next().unwrap_or("");
    let len = body.len();
    let text = format!(in alloc;
        "{line} HTTP/1.1\r\nHost: localhost\r\nContent-Length: {len}\r\n\r\n{body}"
    );
    match text {
        Ok(text) => text.as_str() == request,
        Err(_) => false,
    }
}

/// What follows on a reply, where it is read.
fn next_on(
    alloc: Global,
    words: &ClientWords,
    answered: usize,
    code: u16,
    body: &str,
) -> Option<Next> {
    let answer = answer_of(alloc, code, body)?;
    let following = next_step(alloc, words, answered, &answer);
    drop(answer);
    following.ok()
}

/// Whether the first request is this one.
fn begins(alloc: Global, words: &ClientWords, want: &str) -> bool {
    match first_request(alloc, words) {
        Ok(request) => is_request(alloc, request.view(), want),
        _ => false,
    }
}

/// Whether another request follows, and is this one.
fn goes_on(alloc: Global, following: Option<Next>, want: &str) -> bool {
    match following {
        Some(Next::Send { request }) => is_request(alloc, request.view(), want),
        _ => false,
    }
}

/// Whether the run ends so.
fn ends(following: Option<Next>, printed: &str, code: u8) -> bool {
    match following {
        Some(Next::End { text, status }) => text.view() == printed && status == code,
        _ => false,
    }
}

fn is_run(alloc: Global, words: &ClientWords, run: &Run) -> bool {
    let (_, replies, requests, printed, status) = *run;
    let mut is = begins(alloc, words, requests.first().copied().unwrap_or(""));
    for (answered, (code, body)) in replies.iter().enumerate() {
        let following = next_on(alloc, words, answered, *code, body);
        is = is
            && match requests.get(answered + 1) {
                Some(want) => goes_on(alloc, following, want),
                None => ends(following, printed, status),
            };
    }
    is && replies.len() == requests.len()
}

fn runs(alloc: Global, run: &Run) -> bool {
    match words_in(alloc, run.0) {
        Some(words) => is_run(alloc, &words, run),
        None => false,
    }
}

#[test]
fn commands_run_to_their_ends(rt: HostRuntime) {
    for run in RUNS {
        assert!(rt; runs(rt.alloc(), run), "{}", run.0);
    }
}
