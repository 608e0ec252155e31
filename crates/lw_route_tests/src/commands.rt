//! What a request changes.

use crate::told::check;
use lw_route::{Commands, Method};
use std::alloc::Global;
use std::process::Abort;

/// The query of a command, and what it comes to.
type Row = (&'static str, &'static str);

/// What POST comes to at the observations of the endpoint `lamp`, with the query of each row.
fn check_lamp(rt: &impl Abort, alloc: Global, rows: &[Row]) {
    for (query, want) in rows {
        let target = format!(in alloc; "/v1/registrations/lamp/observations{query}");
        let target = target.expect(rt, "memory");
        check(
            rt,
            alloc,
            (Commands::On, Method::Post),
            target.as_str(),
            want,
        );
    }
}

static OBSERVED: [Row; 9] = [
    ("?path=/3", "observe lamp 3"),
    ("?path=/3/0", "observe lamp 3 0"),
    ("?path=/3/0&accept=110", "observe lamp 3 0 in 110"),
    ("?accept=11542&path=/3/0/9", "observe lamp 3 0 9 in 11542"),
    ("?path=%2F3%2f0%2F9%2F1", "observe lamp 3 0 9 1"),
    ("?path=/%33/%30", "observe lamp 3 0"),
    (
        "?path=/65534/65534/65534/65534",
        "observe lamp 65534 65534 65534 65534",
    ),
    ("?path=/0&accept=0", "observe lamp 0 in 0"),
    ("?path=/0&accept=65535", "observe lamp 0 in 65535"),
];

/// Tries: lw_route::route_of, lw_path::read_path
#[test]
fn a_path_is_observed(rt: HostRuntime) {
    check_lamp(&rt, rt.alloc(), &OBSERVED);
}

static NO_PATHS: [Row; 15] = [
    ("", "400 path"),
    ("?", "400 path"),
    ("?accept=110", "400 path"),
    ("?path=", "400 path"),
    ("?path=/", "400 path"),
    ("?path=3/0", "400 path"),
    ("?path=/3/", "400 path"),
    ("?path=/03", "400 path"),
    ("?path=/+3", "400 path"),
    ("?path=/65535", "400 path"),
    ("?path=/3/0/9/1/2", "400 path"),
    ("?path=%2", "400 path"),
    ("?path=%ff", "400 path"),
    ("?path=%252F3", "400 path"),
    ("?path=/a&accept=a", "400 path"),
];

/// Tries: lw_route::route_of, lw_path::read_path
#[test]
fn without_a_path_nothing_is_observed(rt: HostRuntime) {
    check_lamp(&rt, rt.alloc(), &NO_PATHS);
}

static OTHER_PARAMETERS: [Row; 14] = [
    ("?path=/3&accept=65536", "400 accept"),
    ("?path=/3&accept=18446744073709551616", "400 accept"),
    ("?path=/3&accept=01", "400 accept"),
    ("?path=/3&accept=00", "400 accept"),
    ("?path=/3&accept=+1", "400 accept"),
    ("?path=/3&accept=-1", "400 accept"),
    ("?path=/3&accept=", "400 accept"),
    ("?path=/3&accept=%31", "400 accept"),
    ("?accept=a&path=/a", "400 accept"),
    ("?path=/3&path=/3", "400 a parameter twice"),
    ("?accept=1&accept=1&path=/3", "400 a parameter twice"),
    ("?path=/3&limit=1", "400 no such parameter"),
    ("?after=/3", "400 no such parameter"),
    ("?path=/3&accept", "400 a parameter without a value"),
];

/// Tries: lw_route::route_of
#[test]
fn other_parameters_of_an_observation(rt: HostRuntime) {
    check_lamp(&rt, rt.alloc(), &OTHER_PARAMETERS);
}

/// A method, a target, and what they come to.
type TargetRow = (Method, &'static str, &'static str);

static TARGETS: [TargetRow; 12] = [
    (
        Method::Post,
        "/v1/registrations/a%2Fb/observations?path=/3",
        "observe a/b 3",
    ),
    (
        Method::Post,
        "/v1/registrations/%/observations",
        "400 endpoint",
    ),
    (
        Method::Post,
        "/v1/registrations/a/b/observations?path=/3",
        "404 no such resource",
    ),
    (
        Method::Get,
        "/v1/registrations/a/observations?path=/3",
        "400 no such parameter",
    ),
    (Method::Delete, "/v1/tokens/0000000000090001", "cancel 9 1"),
    (
        Method::Delete,
        "/v1/tokens/ffffffffffff00ff?",
        "cancel 281474976710655 255",
    ),
    (
        Method::Delete,
        "/v1/tokens/%30000000000090001",
        "cancel 9 1",
    ),
    (Method::Delete, "/v1/tokens/000000000009000A", "400 token"),
    (Method::Delete, "/v1/tokens/%?x", "400 token"),
    (
        Method::Delete,
        "/v1/tokens/0000000000090001?limit=1",
        "400 no such parameter",
    ),
    (
        Method::Delete,
        "/v1/tokens/0000000000090001?x",
        "400 a parameter without a value",
    ),
    (Method::Delete, "/v1/tokens/", "404 no such resource"),
];

/// Tries: lw_route::route_of
#[test]
fn commands_and_their_targets(rt: HostRuntime) {
    for (method, target, want) in &TARGETS {
        check(&rt, rt.alloc(), (Commands::On, *method), target, want);
    }
}

/// What stands at an endpoint comes to this.
fn check_endpoint(rt: &impl Abort, alloc: Global, endpoint: &str, want: &str) {
    let target = format!(in alloc; "/v1/registrations/{endpoint}/observations?path=/3");
    let target = target.expect(rt, "memory");
    check(
        rt,
        alloc,
        (Commands::On, Method::Post),
        target.as_str(),
        want,
    );
}

/// The most bytes that an endpoint may have, and one more.
/// Tries: lw_route::route_of
#[test]
fn endpoints_have_252_bytes_at_most(rt: HostRuntime) {
    let alloc = rt.alloc();
    let longest = "x".repeat(alloc, 252).expect(&rt, "memory");
    let observed = format!(in alloc; "observe {longest} 3").expect(&rt, "memory");
    check_endpoint(&rt, alloc, longest.as_str(), observed.as_str());
    let longer = "x".repeat(alloc, 253).expect(&rt, "memory");
    check_endpoint(&rt, alloc, longer.as_str(), "400 endpoint");
}
