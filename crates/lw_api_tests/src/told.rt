//! What is told of a node with two registrations, of which the first is observed.

use lw_api::{About, answer};
use lw_node::{Addr, Node, Path};
use lw_route::{ApiResponse, Commands, Method, Route, Status, route_of};
use lw_stamp::{Moment, Stamp};
use std::alloc::Global;
use std::process::Abort;

/// Where both devices are.
const HOME: Addr = Addr::V4 {
    address: [127, 0, 0, 1],
    port: 5683,
};

/// A Register of `a` with the object list `</>`, message ID 4, and one of `b`, message ID 5.
const REGISTER: &str = "40020004b272644465703d61ff3c2f3e";

const REGISTER_B: &str = "40020005b272644465703d62ff3c2f3e";

/// The identifier of the first registration.
const FIRST: Stamp = Stamp {
    counter: 1,
    node: 1,
};

const ABOUT: About = About {
    number: Some(1),
    tag: 18,
};

/// When both have expired.
pub(crate) const LATE: u64 = 86_400_000;

/// When it is asked, for which path, with which query, and what is told.
type Row = (u64, &'static str, &'static str, &'static str);

static PAGES: [Row; 6] = [
    (
        0,
        "/v1/registrations",
        "",
        r#"{"next":null,"registrations":[{"address":"127.0.0.1:5683","attributes":{},"binding":"U","endpoint":"a","id":"0000000000010001","lifetime":86400,"lwm2m":"1.0","objects":"</>","queue":false,"seen":0,"sms":null},{"address":"127.0.0.1:5683","attributes":{},"binding":"U","endpoint":"b","id":"0000000000020001","lifetime":86400,"lwm2m":"1.0","objects":"</>","queue":false,"seen":0,"sms":null}]}"#,
    ),
    (
        0,
        "/v1/registrations",
        "limit=1",
        r#"{"next":"a","registrations":[{"address":"127.0.0.1:5683","attributes":{},"binding":"U","endpoint":"a","id":"0000000000010001","lifetime":86400,"lwm2m":"1.0","objects":"</>","queue":false,"seen":0,"sms":null}]}"#,
    ),
    (
        0,
        "/v1/registrations",
        "after=a&limit=1",
        r#"{"next":null,"registrations":[{"address":"127.0.0.1:5683","attributes":{},"binding":"U","endpoint":"b","id":"0000000000020001","lifetime":86400,"lwm2m":"1.0","objects":"</>","queue":false,"seen":0,"sms":null}]}"#,
    ),
    (
        0,
        "/v1/registrations",
        "after=b",
        r#"{"next":null,"registrations":[]}"#,
    ),
    (
        LATE,
        "/v1/registrations",
        "",
        r#"{"next":null,"registrations":[]}"#,
    ),
    (
        0,
        "/v1/node",
        "",
        r#"{"change":3,"counter":3,"number":1,"registrations":2,"start":"0000000000000012"}"#,
    ),
];

/// What is told of one registration, or of one observation.
static ONES: [Row; 5] = [
    (
        0,
        "/v1/registrations/a",
        "",
        r#"{"address":"127.0.0.1:5683","attributes":{},"binding":"U","endpoint":"a","id":"0000000000010001","lifetime":86400,"lwm2m":"1.0","objects":"</>","queue":false,"seen":0,"sms":null}"#,
    ),
    (
        0,
        "/v1/registrations/%62",
        "",
        r#"{"address":"127.0.0.1:5683","attributes":{},"binding":"U","endpoint":"b","id":"0000000000020001","lifetime":86400,"lwm2m":"1.0","objects":"</>","queue":false,"seen":0,"sms":null}"#,
    ),
    (
        0,
        "/v1/ids/0000000000010001",
        "",
        r#"{"address":"127.0.0.1:5683","attributes":{},"binding":"U","endpoint":"a","id":"0000000000010001","lifetime":86400,"lwm2m":"1.0","objects":"</>","queue":false,"seen":0,"sms":null}"#,
    ),
    (
        0,
        "/v1/addresses/127.0.0.1:5683",
        "",
        r#"{"address":"127.0.0.1:5683","attributes":{},"binding":"U","endpoint":"b","id":"0000000000020001","lifetime":86400,"lwm2m":"1.0","objects":"</>","queue":false,"seen":0,"sms":null}"#,
    ),
    (
        0,
        "/v1/tokens/0000000000030001",
        "",
        r#"{"accept":null,"endpoint":"a","id":"0000000000010001","path":"/3/0","token":"0000000000030001"}"#,
    ),
];

static CHANGES: [Row; 5] = [
    (
        0,
        "/v1/changes",
        "",
        r#"{"changes":[{"change":2,"endpoint":"b","registration":{"address":"127.0.0.1:5683","attributes":{},"binding":"U","endpoint":"b","id":"0000000000020001","lifetime":86400,"lwm2m":"1.0","objects":"</>","queue":false,"seen":0,"sms":null}},{"change":3,"endpoint":"a","registration":{"address":"127.0.0.1:5683","attributes":{},"binding":"U","endpoint":"a","id":"0000000000010001","lifetime":86400,"lwm2m":"1.0","objects":"</>","queue":false,"seen":0,"sms":null}}],"more":false,"next":3,"start":"0000000000000012"}"#,
    ),
    (
        LATE,
        "/v1/changes",
        "limit=1",
        r#"{"changes":[{"change":2,"endpoint":"b","registration":null}],"more":true,"next":2,"start":"0000000000000012"}"#,
    ),
    (
        LATE,
        "/v1/changes",
        "since=2&start=0000000000000012",
        r#"{"changes":[{"change":3,"endpoint":"a","registration":null}],"more":false,"next":3,"start":"0000000000000012"}"#,
    ),
    (
        0,
        "/v1/changes",
        "since=3&start=0000000000000012",
        r#"{"changes":[],"more":false,"next":3,"start":"0000000000000012"}"#,
    ),
    (
        0,
        "/v1/changes",
        "since=18446744073709551615&start=0000000000000012",
        r#"{"changes":[],"more":false,"next":18446744073709551615,"start":"0000000000000012"}"#,
    ),
];

/// What is told of the first registration where `/5`, `/3` and `/1/0/1` are observed too, and of the second.
static OBSERVATIONS: [Row; 8] = [
    (
        0,
        "/v1/registrations/a/observations",
        "",
        r#"{"next":null,"observations":[{"accept":null,"endpoint":"a","id":"0000000000010001","path":"/1/0/1","token":"0000000000060001"},{"accept":110,"endpoint":"a","id":"0000000000010001","path":"/3","token":"0000000000050001"},{"accept":null,"endpoint":"a","id":"0000000000010001","path":"/3/0","token":"0000000000030001"},{"accept":null,"endpoint":"a","id":"0000000000010001","path":"/5","token":"0000000000040001"}]}"#,
    ),
    (
        0,
        "/v1/registrations/a/observations",
        "limit=2",
        r#"{"next":"/3","observations":[{"accept":null,"endpoint":"a","id":"0000000000010001","path":"/1/0/1","token":"0000000000060001"},{"accept":110,"endpoint":"a","id":"0000000000010001","path":"/3","token":"0000000000050001"}]}"#,
    ),
    (
        0,
        "/v1/registrations/a/observations",
        "limit=1&after=/3",
        r#"{"next":"/3/0","observations":[{"accept":null,"endpoint":"a","id":"0000000000010001","path":"/3/0","token":"0000000000030001"}]}"#,
    ),
    (
        0,
        "/v1/registrations/a/observations",
        "limit=2&after=/3",
        r#"{"next":null,"observations":[{"accept":null,"endpoint":"a","id":"0000000000010001","path":"/3/0","token":"0000000000030001"},{"accept":null,"endpoint":"a","id":"0000000000010001","path":"/5","token":"0000000000040001"}]}"#,
    ),
    (
        0,
        "/v1/registrations/a/observations",
        "after=/3/0/65534",
        r#"{"next":null,"observations":[{"accept":null,"endpoint":"a","id":"0000000000010001","path":"/5","token":"0000000000040001"}]}"#,
    ),
    (
        0,
        "/v1/registrations/a/observations",
        "after=/5",
        r#"{"next":null,"observations":[]}"#,
    ),
    (
        0,
        "/v1/registrations/b/observations",
        "",
        r#"{"next":null,"observations":[]}"#,
    ),
    (
        0,
        "/v1/registrations/b/observations",
        "limit=1&after=/0",
        r#"{"next":null,"observations":[]}"#,
    ),
];

static FOLLOWS_NO_START: [Row; 1] = [(0, "/v1/changes", "since=1", r#"{"error":"start"}"#)];

static FOLLOWS_ANOTHER: [Row; 2] = [
    (
        0,
        "/v1/changes",
        "since=1&start=0000000000000013",
        r#"{"error":"gone"}"#,
    ),
    (
        0,
        "/v1/changes",
        "start=0000000000000013",
        r#"{"error":"gone"}"#,
    ),
];

static NOTHING: [Row; 11] = [
    (0, "/v1/registrations/c", "", r#"{"error":"not found"}"#),
    (LATE, "/v1/registrations/a", "", r#"{"error":"not found"}"#),
    (
        0,
        "/v1/ids/0000000000030001",
        "",
        r#"{"error":"not found"}"#,
    ),
    (
        0,
        "/v1/addresses/127.0.0.1:5684",
        "",
        r#"{"error":"not found"}"#,
    ),
    (
        0,
        "/v1/tokens/0000000000010001",
        "",
        r#"{"error":"not found"}"#,
    ),
    (
        LATE,
        "/v1/tokens/0000000000030001",
        "",
        r#"{"error":"not found"}"#,
    ),
    (
        0,
        "/v1/registrations/c/observations",
        "",
        r#"{"error":"not found"}"#,
    ),
    (
        LATE,
        "/v1/registrations/a/observations",
        "",
        r#"{"error":"not found"}"#,
    ),
    // What is not asked of a node.
    (0, "/", "", r#"{"error":"not found"}"#),
    (0, "/metrics", "", r#"{"error":"not found"}"#),
    (0, "/v1/health", "", r#"{"error":"not found"}"#),
];

fn query_of(text: &str) -> Option<&str> {
    if text.is_empty() { None } else { Some(text) }
}

fn told(rt: &impl Abort, alloc: Global, node: &Node, row: &Row) -> ApiResponse {
    let (ms, path, query, _) = row;
    let now = Moment::new(*ms).expect(rt, "a moment");
    let route = route_of(alloc, Commands::Off, Method::Get, path, query_of(query));
    let Ok(Route::Query(api_query)) = route.expect(rt, "memory") else {
        panic!(rt; "{path} asks for nothing");
    };
    answer(alloc, node, ABOUT, now, &api_query).expect(rt, "memory")
}

/// Fails where to one of these another answer is given.
fn are_told(rt: &impl Abort, alloc: Global, node: &Node, status: Status, rows: &[Row]) {
    for row in rows {
        let answer = told(rt, alloc, node, row);
        assert_eq!(rt; answer.status, status, "{}", row.1);
        assert_eq!(rt; answer.body.as_str(), row.3);
    }
}

fn takes(rt: &impl Abort, alloc: Global, node: &mut Node, text: &str) {
    let datagram = hex::decode(alloc, text).expect(rt, "a datagram");
    let _taken = node
        .take(Moment::START, HOME, &datagram)
        .expect(rt, "memory");
}

/// Observes a path of the first registration.
fn observes(rt: &impl Abort, node: &mut Node, numbers: &[u16], accept: Option<u16>) {
    let path = Path::new(numbers).expect(rt, "a path");
    let observed = node.observe(Moment::START, FIRST, path, accept, 32);
    let _outgoing = observed.expect(rt, "an observation");
}

/// A node with both registrations, of which the first is observed.
pub(crate) fn registered(rt: &impl Abort, alloc: Global) -> Node {
    let mut node = Node::new(alloc, 1);
    takes(rt, alloc, &mut node, REGISTER);
    takes(rt, alloc, &mut node, REGISTER_B);
    observes(rt, &mut node, &[3, 0], None);
    node
}

fn registers_and_tells(rt: &impl Abort, alloc: Global, status: Status, rows: &[Row]) {
    let node = registered(rt, alloc);
    are_told(rt, alloc, &node, status, rows);
}

/// Tries: answer, registrations, numbers_of, lw_json::node_text
#[test]
fn pages_and_numbers(rt: HostRuntime) {
    registers_and_tells(&rt, rt.alloc(), Status::Ok, &PAGES);
}

/// Tries: answer, registration, by_id, by_address, by_token
#[test]
fn one_that_is_found(rt: HostRuntime) {
    registers_and_tells(&rt, rt.alloc(), Status::Ok, &ONES);
}

/// What else is observed.
static OBSERVED: [(&[u16], Option<u16>); 3] = [(&[5], None), (&[3], Some(110)), (&[1, 0, 1], None)];

/// Tries: answer, observations, lw_json::observations_text
#[test]
fn observations_of_a_registration(rt: HostRuntime) {
    let mut node = registered(&rt, rt.alloc());
    for (numbers, accept) in &OBSERVED {
        observes(&rt, &mut node, numbers, *accept);
    }
    are_told(&rt, rt.alloc(), &node, Status::Ok, &OBSERVATIONS);
}

/// As many observations as a page has.
static PAGE: Row = (0, "/v1/registrations/a/observations", "limit=256", "");

/// What is behind that page.
static BEHIND_PAGE: [Row; 1] = [(
    0,
    "/v1/registrations/a/observations",
    "limit=256&after=/3/255",
    r#"{"next":null,"observations":[{"accept":null,"endpoint":"a","id":"0000000000010001","path":"/3/256","token":"0000000001030001"}]}"#,
)];

/// As many as a page has, and one more: paths below `/3` from `/3/1` on.
/// Tries: answer, observations
#[test]
fn a_page_has_256_observations_at_most(rt: HostRuntime) {
    let mut node = registered(&rt, rt.alloc());
    for number in 1..257 {
        observes(&rt, &mut node, &[3, number], None);
    }
    let page = told(&rt, rt.alloc(), &node, &PAGE);
    let text = page.body.as_str();
    assert_eq!(rt; text.matches("\"token\":").count(), 256);
    assert!(rt; text.starts_with(r#"{"next":"/3/255","#));
    are_told(&rt, rt.alloc(), &node, Status::Ok, &BEHIND_PAGE);
}

/// Tries: answer, lw_json::changes_text
#[test]
fn changes_that_follow_a_start(rt: HostRuntime) {
    registers_and_tells(&rt, rt.alloc(), Status::Ok, &CHANGES);
}

/// Tries: answer, lw_json::changes_text
#[test]
fn changes_that_follow_no_start(rt: HostRuntime) {
    registers_and_tells(&rt, rt.alloc(), Status::BadRequest, &FOLLOWS_NO_START);
}

/// Tries: answer, lw_json::changes_text
#[test]
fn changes_that_follow_another_start(rt: HostRuntime) {
    registers_and_tells(&rt, rt.alloc(), Status::Gone, &FOLLOWS_ANOTHER);
}

/// Tries: answer, not_found, registration, by_id, by_address, by_token
#[test]
fn nothing_is_found(rt: HostRuntime) {
    registers_and_tells(&rt, rt.alloc(), Status::NotFound, &NOTHING);
}
