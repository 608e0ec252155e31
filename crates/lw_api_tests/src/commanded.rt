//! What is told of commands.

use crate::told::{LATE, registered};
use lw_api::{created, error_response, no_content};
use lw_route::{ApiResponse, Media, Status};
use lw_stamp::{Moment, Stamp};
use std::process::Abort;

const WATCH: &str =
    r#"{"accept":null,"endpoint":"a","id":"0000000000010001","path":"/3/0","token":"0000000000030001"}"#;

const NOT_FOUND: &str = r#"{"error":"not found"}"#;

/// Why a command was not carried out.
static REFUSALS: [&str; 3] = [
    r#"{"error":"end of the clock"}"#,
    r#"{"error":"too many requests wait"}"#,
    r#"{"error":"away"}"#,
];

fn is(rt: &impl Abort, answer: &ApiResponse, status: Status, media: Media, body: &str) {
    assert_eq!(rt; answer.status, status, "{body}");
    assert_eq!(rt; answer.media, media, "{body}");
    assert_eq!(rt; answer.body.as_str(), body);
}

/// When it is asked, for the token of node 1 with which counter, and what is told. The observation has 3.
static CREATED: [(u64, u64, Status, &str); 3] = [
    (0, 3, Status::Created, WATCH),
    (LATE, 3, Status::NotFound, NOT_FOUND),
    (0, 1, Status::NotFound, NOT_FOUND),
];

/// Tries: created, by_token
#[test]
fn an_observation_that_was_created(rt: HostRuntime) {
    let node = registered(&rt, rt.alloc());
    for (ms, counter, status, body) in &CREATED {
        let now = Moment::new(*ms).expect(&rt, "a moment");
        let token = Stamp {
            counter: *counter,
            node: 1,
        };
        let answer = created(rt.alloc(), &node, now, token).expect(&rt, "memory");
        is(&rt, &answer, *status, Media::Json, body);
    }
}

/// Tries: no_content, error_response
#[test]
fn commands_of_which_nothing_is_shown(rt: HostRuntime) {
    let alloc = rt.alloc();
    let answer = no_content(alloc);
    is(&rt, &answer, Status::NoContent, Media::Nothing, "");
    for text in &REFUSALS {
        let answer = error_response(alloc, Status::ServiceUnavailable, text).expect(&rt, "memory");
        is(&rt, &answer, Status::ServiceUnavailable, Media::Json, text);
    }
}
