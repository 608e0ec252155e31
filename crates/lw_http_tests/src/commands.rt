//! Visits that change something.

use crate::stage::{Row, Stage, TOKEN};
use lw_route::Commands;
use std::alloc::Global;
use std::process::Abort;

const CREATED: &str = "content-type: application/json\r\ncontent-length: 3\r\n";

static CARRIED_OUT: [Row<'static>; 5] = [
    (
        "POST /v1/registrations/a/observations?path=/3/0 HTTP/1.1\r\nhost: localhost\r\n\r\n",
        "201 Created",
        CREATED,
        "[3]",
    ),
    (
        "POST /v1/registrations/a/observations?path=/3 HTTP/1.1\r\nhost: localhost:80\r\norigin: http://localhost:80\r\n\r\n",
        "201 Created",
        CREATED,
        "[3]",
    ),
    (
        "POST /v1/registrations/a/observations?path=/3 HTTP/1.1\r\nhost: fleet.example\r\norigin: https://fleet.example\r\n\r\n",
        "201 Created",
        CREATED,
        "[3]",
    ),
    (
        "DELETE /v1/tokens/0000000000010001 HTTP/1.1\r\nhost: localhost\r\n\r\n",
        "204 No Content",
        "",
        "",
    ),
    (
        "DELETE /v1/tokens/0000000000010001 HTTP/1.1\r\norigin: http://[::1]:8080\r\nhost: [::1]:8080\r\n\r\n",
        "204 No Content",
        "",
        "",
    ),
];

/// Tries: serve_connection
#[test]
fn what_a_desk_does(rt: HostRuntime) {
    let stage = Stage::new(&rt, rt.alloc(), None, Commands::On);
    stage.are_sent(&rt, 1, &CARRIED_OUT);
}

/// A command is carried out though there is no memory to tell of it.
/// Tries: serve_connection
#[test]
fn what_a_desk_cannot_tell_of(rt: HostRuntime) {
    let stage = Stage::new(&rt, rt.alloc(), None, Commands::On);
    let request = "DELETE /v1/tokens/0000000000010007 HTTP/1.1\r\nhost: localhost\r\n\r\n";
    let want = "HTTP/1.1 503 Service Unavailable\r\ncontent-length: 0\r\n\r\n";
    stage.is_text(&rt, 1, request, want);
}

/// Fields of requests from another site, where the host is `localhost`.
static OTHER_SITES: [&str; 12] = [
    "origin: null\r\n",
    "origin:\r\n",
    "origin: http://evil.example\r\n",
    "origin: http://localhost:81\r\n",
    "origin: https://localhost:443\r\n",
    "origin: http://localhost/\r\n",
    "origin: http://LOCALHOST\r\n",
    "origin: HTTP://localhost\r\n",
    "origin: ftp://localhost\r\n",
    "origin: localhost\r\n",
    "origin: http://\r\n",
    "origin: http://localhost\r\norigin: http://localhost\r\n",
];

const FORBIDDEN: &str = "content-type: application/json\r\ncontent-length: 29\r\n";

const FROM_ANOTHER_SITE: &str = r#"{"error":"from another site"}"#;

/// What another site would change.
static CHANGES: [&str; 2] = [
    "POST /v1/registrations/a/observations?path=/3",
    "DELETE /v1/tokens/none?x",
];

fn is_forbidden(rt: &impl Abort, alloc: Global, stage: &Stage, line: &str, fields: &str) {
    let request = format!(in alloc; "{line} HTTP/1.1\r\nhost: localhost\r\n{fields}\r\n");
    let request = request.expect(rt, "memory");
    let row = (
        request.as_str(),
        "403 Forbidden",
        FORBIDDEN,
        FROM_ANOTHER_SITE,
    );
    stage.is_sent(rt, 0, &row);
}

/// Tries: serve_connection
#[test]
fn what_another_site_would_change(rt: HostRuntime) {
    let stage = Stage::new(&rt, rt.alloc(), None, Commands::On);
    for fields in &OTHER_SITES {
        for line in &CHANGES {
            is_forbidden(&rt, rt.alloc(), &stage, line, fields);
        }
    }
}

/// Requests with several faults, of which the first one counts. The access policy has a token.
static FAULTS: [Row<'static>; 8] = [
    (
        "POST /v1/registrations/a/observations HTTP/1.1\r\nhost: evil.example\r\norigin: null\r\n\r\n",
        "421 Misdirected Request",
        "content-type: application/json\r\ncontent-length: 29\r\n",
        r#"{"error":"not for this host"}"#,
    ),
    (
        "POST /v1/nothing HTTP/1.1\r\nhost: localhost\r\norigin: null\r\n\r\n",
        "404 Not Found",
        "content-type: application/json\r\ncontent-length: 28\r\n",
        r#"{"error":"no such resource"}"#,
    ),
    (
        "DELETE /v1/registrations/a/observations HTTP/1.1\r\nhost: localhost\r\norigin: null\r\n\r\n",
        "405 Method Not Allowed",
        "content-type: application/json\r\nallow: GET, HEAD, POST\r\ncontent-length: 30\r\n",
        r#"{"error":"method not allowed"}"#,
    ),
    (
        "PATCH /v1/tokens/none HTTP/1.1\r\nhost: localhost\r\norigin: null\r\n\r\n",
        "405 Method Not Allowed",
        "content-type: application/json\r\nallow: GET, HEAD, DELETE\r\ncontent-length: 30\r\n",
        r#"{"error":"method not allowed"}"#,
    ),
    (
        "DELETE /v1/tokens/none HTTP/1.1\r\nhost: localhost\r\norigin: null\r\n\r\n",
        "401 Unauthorized",
        "content-type: application/json\r\nwww-authenticate: Bearer\r\ncontent-length: 29\r\n",
        r#"{"error":"a token is needed"}"#,
    ),
    (
        "DELETE /v1/tokens/0000000000010001 HTTP/1.1\r\nhost: localhost\r\n\r\n",
        "401 Unauthorized",
        "content-type: application/json\r\nwww-authenticate: Bearer\r\ncontent-length: 29\r\n",
        r#"{"error":"a token is needed"}"#,
    ),
    (
        "DELETE /v1/tokens/none HTTP/1.1\r\nhost: localhost\r\nauthorization: Bearer 0123456789abcdef\r\norigin: null\r\n\r\n",
        "403 Forbidden",
        FORBIDDEN,
        FROM_ANOTHER_SITE,
    ),
    (
        "DELETE /v1/tokens/none HTTP/1.1\r\nhost: localhost\r\nauthorization: Bearer 0123456789abcdef\r\n\r\n",
        "400 Bad Request",
        "content-type: application/json\r\ncontent-length: 17\r\n",
        r#"{"error":"token"}"#,
    ),
];

/// Tries: serve_connection
#[test]
fn the_first_fault_counts(rt: HostRuntime) {
    let stage = Stage::new(&rt, rt.alloc(), Some(TOKEN), Commands::On);
    stage.are_sent(&rt, 0, &FAULTS);
}

/// What asks and changes nothing may come from anywhere, and where commands are not taken nothing is changed.
static NO_COMMANDS: [Row<'static>; 3] = [
    (
        "GET /v1/health HTTP/1.1\r\nhost: localhost\r\norigin: null\r\n\r\n",
        "200 OK",
        "content-type: application/json\r\ncontent-length: 2\r\n",
        "{}",
    ),
    (
        "DELETE /v1/tokens/0000000000010001 HTTP/1.1\r\nhost: localhost\r\n\r\n",
        "405 Method Not Allowed",
        "content-type: application/json\r\nallow: GET, HEAD\r\ncontent-length: 30\r\n",
        r#"{"error":"method not allowed"}"#,
    ),
    (
        "POST /v1/registrations/a/observations?path=/3 HTTP/1.1\r\nhost: localhost\r\norigin: null\r\n\r\n",
        "405 Method Not Allowed",
        "content-type: application/json\r\nallow: GET, HEAD\r\ncontent-length: 30\r\n",
        r#"{"error":"method not allowed"}"#,
    ),
];

/// Tries: serve_connection
#[test]
fn what_changes_nothing(rt: HostRuntime) {
    let stage = Stage::new(&rt, rt.alloc(), None, Commands::Off);
    stage.are_sent(&rt, 0, &NO_COMMANDS);
}
