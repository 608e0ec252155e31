//! Visits over a reader and a writer in memory.

use crate::stage::{Row, Stage, TOKEN};
use lw_route::Commands;
use std::alloc::Global;
use std::process::Abort;

static TOLD: [Row<'static>; 8] = [
    (
        "GET / HTTP/1.1\r\nhost: localhost\r\n\r\n",
        "200 OK",
        "content-type: text/html; charset=utf-8\r\ncontent-security-policy: default-src 'none'; script-src 'unsafe-inline'; style-src 'unsafe-inline'; connect-src 'self'; frame-ancestors 'none'\r\ncontent-length: 3\r\n",
        "<p>",
    ),
    (
        "GET /v1/health HTTP/1.1\r\nhost: localhost:80\r\n\r\n",
        "200 OK",
        "content-type: application/json\r\ncontent-length: 2\r\n",
        "{}",
    ),
    (
        "HEAD /v1/health HTTP/1.1\r\nhost: 127.0.0.1\r\n\r\n",
        "200 OK",
        "content-type: application/json\r\ncontent-length: 2\r\n",
        "",
    ),
    (
        "GET /metrics HTTP/1.1\r\nhost: [::1]:8080\r\n\r\n",
        "200 OK",
        "content-type: text/plain; version=0.0.4\r\ncontent-length: 6\r\n",
        "one 1\n",
    ),
    (
        "GET /v1/node HTTP/1.1\r\nhost: LOCALHOST\r\n\r\n",
        "503 Service Unavailable",
        "content-type: application/json\r\ncontent-length: 2\r\n",
        "[]",
    ),
    (
        "GET /v1/changes HTTP/1.1\r\nhost: Fleet.Example:443\r\n\r\n",
        "410 Gone",
        "content-type: application/json\r\ncontent-length: 1\r\n",
        "1",
    ),
    (
        "GET /v1/ids/0000000000010001 HTTP/1.1\r\nhost: 10.0.0.1\r\n\r\n",
        "400 Bad Request",
        "content-type: application/json\r\ncontent-length: 1\r\n",
        "2",
    ),
    (
        "GET http://localhost/v1/registrations/a HTTP/1.1\r\nhost: evil.example\r\n\r\n",
        "404 Not Found",
        "content-type: application/json\r\ncontent-length: 1\r\n",
        "3",
    ),
];

static REFUSED: [Row<'static>; 7] = [
    (
        "GET /v1/health HTTP/1.1\r\nhost: evil.example\r\n\r\n",
        "421 Misdirected Request",
        "content-type: application/json\r\ncontent-length: 29\r\n",
        r#"{"error":"not for this host"}"#,
    ),
    (
        "GET http://evil.example/v1/health HTTP/1.1\r\nhost: localhost\r\n\r\n",
        "421 Misdirected Request",
        "content-type: application/json\r\ncontent-length: 29\r\n",
        r#"{"error":"not for this host"}"#,
    ),
    (
        "GET /v2 HTTP/1.1\r\nhost: localhost\r\n\r\n",
        "404 Not Found",
        "content-type: application/json\r\ncontent-length: 28\r\n",
        r#"{"error":"no such resource"}"#,
    ),
    (
        "OPTIONS * HTTP/1.1\r\nhost: localhost\r\n\r\n",
        "404 Not Found",
        "content-type: application/json\r\ncontent-length: 28\r\n",
        r#"{"error":"no such resource"}"#,
    ),
    (
        "POST /v1/node HTTP/1.1\r\nhost: localhost\r\n\r\n",
        "405 Method Not Allowed",
        "content-type: application/json\r\nallow: GET, HEAD\r\ncontent-length: 30\r\n",
        r#"{"error":"method not allowed"}"#,
    ),
    (
        "GET /v1/node?x=1 HTTP/1.1\r\nhost: localhost\r\n\r\n",
        "400 Bad Request",
        "content-type: application/json\r\ncontent-length: 29\r\n",
        r#"{"error":"no such parameter"}"#,
    ),
    (
        "GET /v1/registrations/%ff HTTP/1.1\r\nhost: localhost\r\n\r\n",
        "400 Bad Request",
        "content-type: application/json\r\ncontent-length: 20\r\n",
        r#"{"error":"endpoint"}"#,
    ),
];

const UNAUTHORIZED: &str =
    "content-type: application/json\r\nwww-authenticate: Bearer\r\ncontent-length: 29\r\n";

const A_TOKEN_IS_NEEDED: &str = r#"{"error":"a token is needed"}"#;

/// The token of the access policy is `0123456789abcdef`.
static WITH_TOKEN: [Row<'static>; 6] = [
    (
        "GET /v1/node HTTP/1.1\r\nhost: localhost\r\nauthorization: Bearer 0123456789abcdef\r\n\r\n",
        "503 Service Unavailable",
        "content-type: application/json\r\ncontent-length: 2\r\n",
        "[]",
    ),
    (
        "GET /v1/node HTTP/1.1\r\nhost: localhost\r\nauthorization: bEARER 0123456789abcdef\r\n\r\n",
        "503 Service Unavailable",
        "content-type: application/json\r\ncontent-length: 2\r\n",
        "[]",
    ),
    (
        "GET /v1/health HTTP/1.1\r\nhost: localhost\r\n\r\n",
        "200 OK",
        "content-type: application/json\r\ncontent-length: 2\r\n",
        "{}",
    ),
    (
        "GET /v1/health?x=1 HTTP/1.1\r\nhost: localhost\r\n\r\n",
        "400 Bad Request",
        "content-type: application/json\r\ncontent-length: 29\r\n",
        r#"{"error":"no such parameter"}"#,
    ),
    (
        "GET /v2 HTTP/1.1\r\nhost: localhost\r\n\r\n",
        "404 Not Found",
        "content-type: application/json\r\ncontent-length: 28\r\n",
        r#"{"error":"no such resource"}"#,
    ),
    (
        "PUT /metrics HTTP/1.1\r\nhost: localhost\r\n\r\n",
        "405 Method Not Allowed",
        "content-type: application/json\r\nallow: GET, HEAD\r\ncontent-length: 30\r\n",
        r#"{"error":"method not allowed"}"#,
    ),
];

/// Fields of requests that do not bring the token.
static WITHOUT_TOKEN: [&str; 9] = [
    "",
    "authorization: 0123456789abcdef\r\n",
    "authorization: Basic 0123456789abcdef\r\n",
    "authorization: Bearer  0123456789abcdef\r\n",
    "authorization: Bearer\r\n",
    "authorization: Bearer 0123456789abcde\r\n",
    "authorization: Bearer 0123456789abcdef0\r\n",
    "authorization: Bearer 0123456789abcdeF\r\n",
    "authorization: Bearer 0123456789abcdef\r\nauthorization: Bearer 0123456789abcdef\r\n",
];

/// Tries: serve_connection
#[test]
fn what_a_desk_tells(rt: HostRuntime) {
    let stage = Stage::new(&rt, rt.alloc(), None, Commands::Off);
    stage.are_sent(&rt, 0, &TOLD);
}

/// Tries: serve_connection
#[test]
fn what_asks_for_nothing(rt: HostRuntime) {
    let stage = Stage::new(&rt, rt.alloc(), None, Commands::Off);
    stage.are_sent(&rt, 0, &REFUSED);
}

/// Tries: serve_connection
#[test]
fn what_brings_the_token_or_needs_none(rt: HostRuntime) {
    let stage = Stage::new(&rt, rt.alloc(), Some(TOKEN), Commands::Off);
    stage.are_sent(&rt, 0, &WITH_TOKEN);
}

fn is_unauthorized(rt: &impl Abort, alloc: Global, stage: &Stage, fields: &str) {
    let request = format!(in alloc; "GET /v1/node HTTP/1.1\r\nhost: localhost\r\n{fields}\r\n");
    let request = request.expect(rt, "memory");
    let row = (
        request.as_str(),
        "401 Unauthorized",
        UNAUTHORIZED,
        A_TOKEN_IS_NEEDED,
    );
    stage.is_sent(rt, 0, &row);
}

/// Tries: serve_connection
#[test]
fn what_does_not_bring_the_token(rt: HostRuntime) {
    let stage = Stage::new(&rt, rt.alloc(), Some(TOKEN), Commands::Off);
    for fields in &WITHOUT_TOKEN {
        is_unauthorized(&rt, rt.alloc(), &stage, fields);
    }
}

/// Two requests at once, of which the first is answered.
static TWO: [Row<'static>; 1] = [(
    "GET /v1/health HTTP/1.1\r\nhost: localhost\r\n\r\nGET /metrics HTTP/1.1\r\nhost: localhost\r\n\r\n",
    "200 OK",
    "content-type: application/json\r\ncontent-length: 2\r\n",
    "{}",
)];

/// Tries: serve_connection
#[test]
fn one_request_a_visit(rt: HostRuntime) {
    let stage = Stage::new(&rt, rt.alloc(), None, Commands::Off);
    stage.are_sent(&rt, 0, &TWO);
}
