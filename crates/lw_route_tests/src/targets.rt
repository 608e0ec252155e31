use crate::told::{check, told};
use lw_route::{Commands, Method};
use std::alloc::Global;
use std::process::Abort;

/// A target that is asked for with GET, and what it comes to.
type Row = (&'static str, &'static str);

/// What GET comes to at each target has to be what its row says.
fn check_rows(rt: &impl Abort, alloc: Global, rows: &[Row]) {
    for (target, want) in rows {
        check(rt, alloc, (Commands::On, Method::Get), target, want);
    }
}

static TABLE: [Row; 15] = [
    ("/", "page"),
    ("/?", "page"),
    ("/v1/health", "health"),
    ("/v1/node", "node"),
    ("/metrics", "metrics"),
    ("/v1/registrations", "64 of all"),
    ("/v1/registrations/lamp", "of lamp"),
    ("/v1/registrations/lamp/observations", "64 of lamp"),
    ("/v1/ids/0000000000090001", "id 9 1"),
    ("/v1/ids/ffffffffffff00ff", "id 281474976710655 255"),
    ("/v1/addresses/192.0.2.1:5683", "at 192.0.2.1:5683"),
    (
        "/v1/addresses/%5B2001:0db8:0000:0000:0000:0000:0000:0001%5D:5683",
        "at [2001:0db8:0000:0000:0000:0000:0000:0001]:5683",
    ),
    ("/v1/tokens/0000000000090001", "token 9 1"),
    ("/v1/changes", "64 since 0"),
    ("/v1/notifications", "64 from 0"),
];

/// Tries: lw_route::route_of
#[test]
fn each_target_is_known(rt: HostRuntime) {
    check_rows(&rt, rt.alloc(), &TABLE);
}

static NO_TARGETS: [Row; 16] = [
    ("", "404 no such resource"),
    ("v1/health", "404 no such resource"),
    ("//", "404 no such resource"),
    ("/v1", "404 no such resource"),
    ("/v1/", "404 no such resource"),
    ("/v1/health/", "404 no such resource"),
    ("/v1/Health", "404 no such resource"),
    ("/v1/h%65alth", "404 no such resource"),
    ("/metrics/", "404 no such resource"),
    ("/health", "404 no such resource"),
    ("/v1/registrations/", "404 no such resource"),
    ("/v1/registrations//", "404 no such resource"),
    ("/v1/registrations/lamp/", "404 no such resource"),
    ("/v1/registrations/a/b", "404 no such resource"),
    ("/v1/ids/", "404 no such resource"),
    ("/v1/nothing/lamp?limit=0", "404 no such resource"),
];

/// Tries: lw_route::route_of
#[test]
fn no_other_path_is_of_a_resource(rt: HostRuntime) {
    check_rows(&rt, rt.alloc(), &NO_TARGETS);
}

static NO_OBSERVATIONS: [Row; 9] = [
    ("/v1/registrations//observations", "404 no such resource"),
    ("/v1/registrations/a/b/observations", "404 no such resource"),
    ("/v1/registrations/a/observations/", "404 no such resource"),
    ("/v1/registrations/a/Observations", "404 no such resource"),
    ("/v1/registrations/a/observation", "404 no such resource"),
    (
        "/v1/ids/0000000000090001/observations",
        "404 no such resource",
    ),
    ("/v1/tokens/a/observations", "404 no such resource"),
    ("/v1/a/observations", "404 no such resource"),
    ("/observations", "404 no such resource"),
];

/// Tries: lw_route::route_of
#[test]
fn observations_stand_below_one_endpoint(rt: HostRuntime) {
    check_rows(&rt, rt.alloc(), &NO_OBSERVATIONS);
}

static OBSERVATIONS: [Row; 24] = [
    ("/v1/registrations/observations", "of observations"),
    (
        "/v1/registrations/observations/observations",
        "64 of observations",
    ),
    ("/v1/registrations/a%2Fb/observations", "64 of a/b"),
    ("/v1/registrations/a/observations?limit=256", "256 of a"),
    ("/v1/registrations/a/observations?limit=257", "400 limit"),
    (
        "/v1/registrations/a/observations?after=/3",
        "64 of a behind 3",
    ),
    (
        "/v1/registrations/a/observations?after=/3/0&limit=1",
        "1 of a behind 3 0",
    ),
    (
        "/v1/registrations/a/observations?after=%2F3%2F0%2F9",
        "64 of a behind 3 0 9",
    ),
    (
        "/v1/registrations/a/observations?after=/3/0/9/1",
        "64 of a behind 3 0 9 1",
    ),
    (
        "/v1/registrations/a/observations?after=/65534/0",
        "64 of a behind 65534 0",
    ),
    ("/v1/registrations/a/observations?after=/65535", "400 after"),
    ("/v1/registrations/a/observations?after=/65536", "400 after"),
    (
        "/v1/registrations/a/observations?after=/3/0/9/1/2",
        "400 after",
    ),
    ("/v1/registrations/a/observations?after=3/0", "400 after"),
    ("/v1/registrations/a/observations?after=/", "400 after"),
    ("/v1/registrations/a/observations?after=", "400 after"),
    ("/v1/registrations/a/observations?after=/3/", "400 after"),
    ("/v1/registrations/a/observations?after=//3", "400 after"),
    ("/v1/registrations/a/observations?after=/03", "400 after"),
    ("/v1/registrations/a/observations?after=/+3", "400 after"),
    ("/v1/registrations/a/observations?after=/a", "400 after"),
    (
        "/v1/registrations/a/observations?since=1",
        "400 no such parameter",
    ),
    ("/v1/registrations/%/observations?after=/a", "400 endpoint"),
    (
        "/v1/registrations/a/observations?after=/3&after=/3",
        "400 a parameter twice",
    ),
];

/// Tries: lw_route::route_of, lw_path::read_path
#[test]
fn observations_begin_behind_a_path(rt: HostRuntime) {
    check_rows(&rt, rt.alloc(), &OBSERVATIONS);
}

/// Whether commands are taken, a method and a target, and what they come to.
type MethodRow = (Commands, Method, &'static str, &'static str);

const ONLY_GET: &str = "405 method not allowed: GET, HEAD";

const WITH_POST: &str = "405 method not allowed: GET, HEAD, POST";

const WITH_DELETE: &str = "405 method not allowed: GET, HEAD, DELETE";

static OTHER_METHODS: [MethodRow; 18] = [
    (Commands::On, Method::Post, "/", ONLY_GET),
    (Commands::On, Method::Delete, "/v1/ids/none", ONLY_GET),
    (Commands::On, Method::Other, "/v1/health?x=1", ONLY_GET),
    (Commands::On, Method::Post, "/v1/registrations/%", ONLY_GET),
    (Commands::On, Method::Post, "/v1/registrations", ONLY_GET),
    (Commands::On, Method::Delete, "/v1/notifications", ONLY_GET),
    (
        Commands::On,
        Method::Delete,
        "/v1/nothing",
        "404 no such resource",
    ),
    (
        Commands::On,
        Method::Other,
        "/v1/registrations/",
        "404 no such resource",
    ),
    (
        Commands::On,
        Method::Delete,
        "/v1/registrations/a/observations",
        WITH_POST,
    ),
    (
        Commands::On,
        Method::Other,
        "/v1/registrations/%/observations?path",
        WITH_POST,
    ),
    (
        Commands::On,
        Method::Post,
        "/v1/tokens/0000000000090001",
        WITH_DELETE,
    ),
    (Commands::On, Method::Other, "/v1/tokens/%?x", WITH_DELETE),
    (
        Commands::Off,
        Method::Post,
        "/v1/registrations/a/observations?path=/3/0",
        ONLY_GET,
    ),
    (
        Commands::Off,
        Method::Delete,
        "/v1/tokens/0000000000090001",
        ONLY_GET,
    ),
    (Commands::Off, Method::Delete, "/v1/tokens/%?x", ONLY_GET),
    (
        Commands::Off,
        Method::Delete,
        "/v1/registrations/a/observations",
        ONLY_GET,
    ),
    (
        Commands::Off,
        Method::Get,
        "/v1/registrations/a/observations",
        "64 of a",
    ),
    (
        Commands::Off,
        Method::Get,
        "/v1/tokens/0000000000090001",
        "token 9 1",
    ),
];

/// Tries: lw_route::route_of, lw_route::Allowed::text
#[test]
fn a_resource_has_the_methods_that_are_told(rt: HostRuntime) {
    for (commands, method, target, want) in &OTHER_METHODS {
        check(&rt, rt.alloc(), (*commands, *method), target, want);
    }
}

static SEGMENTS: [Row; 19] = [
    ("/v1/registrations/urn:imei:1", "of urn:imei:1"),
    ("/v1/registrations/a%2Fb", "of a/b"),
    ("/v1/registrations/a%2fb", "of a/b"),
    ("/v1/registrations/a+b", "of a+b"),
    ("/v1/registrations/a%20b", "of a b"),
    ("/v1/registrations/%25", "of %"),
    ("/v1/registrations/%2541", "of %41"),
    ("/v1/registrations/%C3%A9", "of é"),
    ("/v1/registrations/..", "of .."),
    ("/v1/registrations/%", "400 endpoint"),
    ("/v1/registrations/a%4", "400 endpoint"),
    ("/v1/registrations/%zz", "400 endpoint"),
    ("/v1/registrations/%4g", "400 endpoint"),
    ("/v1/registrations/%%41", "400 endpoint"),
    ("/v1/registrations/%ff", "400 endpoint"),
    ("/v1/registrations/%C3", "400 endpoint"),
    ("/v1/ids/%30000000000090001", "id 9 1"),
    ("/v1/ids/000000000009000", "400 id"),
    ("/v1/tokens/000000000009000A", "400 token"),
];

/// Tries: lw_route::route_of
#[test]
fn a_segment_is_decoded_after_the_path_was_split(rt: HostRuntime) {
    check_rows(&rt, rt.alloc(), &SEGMENTS);
}

static NO_SEGMENTS: [Row; 9] = [
    ("/v1/ids/0000000000000001", "400 id"),
    ("/v1/ids/00000000000900011", "400 id"),
    ("/v1/ids/000000000009000%", "400 id"),
    ("/v1/tokens/%ff", "400 token"),
    ("/v1/addresses/192.0.2.1", "400 address"),
    ("/v1/addresses/192.0.2.01:1", "400 address"),
    ("/v1/addresses/192.0.2.1:65536", "400 address"),
    ("/v1/addresses/192.0.2.1:1%", "400 address"),
    ("/v1/addresses/[::1]:1", "400 address"),
];

/// Tries: lw_route::route_of
#[test]
fn a_segment_that_names_nothing_is_refused(rt: HostRuntime) {
    check_rows(&rt, rt.alloc(), &NO_SEGMENTS);
}

static LIMITS: [Row; 12] = [
    ("/v1/registrations?limit=1", "1 of all"),
    ("/v1/registrations?limit=256", "256 of all"),
    ("/v1/registrations?limit=0", "400 limit"),
    ("/v1/registrations?limit=257", "400 limit"),
    ("/v1/registrations?limit=00", "400 limit"),
    ("/v1/registrations?limit=01", "400 limit"),
    ("/v1/registrations?limit=+1", "400 limit"),
    ("/v1/registrations?limit=%31", "400 limit"),
    ("/v1/registrations?limit=", "400 limit"),
    ("/v1/registrations?limit=a", "400 limit"),
    ("/v1/registrations?limit=18446744073709551617", "400 limit"),
    ("/v1/changes?limit=257", "400 limit"),
];

/// Tries: lw_route::route_of
#[test]
fn a_limit_is_from_1_to_256(rt: HostRuntime) {
    check_rows(&rt, rt.alloc(), &LIMITS);
}

static AFTERS: [Row; 9] = [
    ("/v1/registrations?after=lamp", "64 after lamp"),
    ("/v1/registrations?after=", "64 after "),
    ("/v1/registrations?after=a%26b%3D", "64 after a&b="),
    ("/v1/registrations?after=a=b", "64 after a=b"),
    ("/v1/registrations?after=a+b?", "64 after a+b?"),
    ("/v1/registrations?after=a/b&limit=2", "2 after a/b"),
    ("/v1/registrations?limit=2&after=lamp", "2 after lamp"),
    ("/v1/registrations?after=%4", "400 after"),
    ("/v1/registrations?after=%ff", "400 after"),
];

/// Tries: lw_route::route_of
#[test]
fn a_text_to_begin_behind_is_decoded(rt: HostRuntime) {
    check_rows(&rt, rt.alloc(), &AFTERS);
}

/// Whether a name of so many letters is taken behind the front of a target.
fn takes(rt: &impl Abort, alloc: Global, front: &str, letter: &str, count: usize) -> bool {
    let name = letter.repeat(alloc, count).expect(rt, "memory");
    let target = format!(in alloc; "{front}{name}").expect(rt, "memory");
    let got = told(rt, alloc, (Commands::Off, Method::Get), target.as_str());
    !got.as_str().starts_with("400 ")
}

/// What stands before a name, and what each byte of the name is spelled as.
static NAMES: [Row; 4] = [
    ("/v1/registrations/", "x"),
    ("/v1/registrations/", "%41"),
    ("/v1/registrations?after=", "x"),
    ("/v1/registrations?after=", "%41"),
];

/// Tries: lw_route::route_of
#[test]
fn names_have_252_bytes_at_most(rt: HostRuntime) {
    for (front, letter) in &NAMES {
        let longest = takes(&rt, rt.alloc(), front, letter, 252);
        let longer = takes(&rt, rt.alloc(), front, letter, 253);
        assert!(rt; longest && !longer, "{front}{letter}");
    }
}

static CHANGES: [Row; 12] = [
    ("/v1/changes?since=0", "64 since 0"),
    (
        "/v1/changes?since=18446744073709551615",
        "64 since 18446744073709551615",
    ),
    ("/v1/changes?since=18446744073709551616", "400 since"),
    ("/v1/changes?since=01", "400 since"),
    ("/v1/changes?since=", "400 since"),
    ("/v1/changes?since=-1", "400 since"),
    ("/v1/changes?start=000000000000000a", "64 since 0 of 10"),
    (
        "/v1/changes?limit=3&start=ffffffffffffffff&since=7",
        "3 since 7 of 18446744073709551615",
    ),
    ("/v1/changes?start=000000000000000A", "400 start"),
    ("/v1/changes?start=a", "400 start"),
    ("/v1/changes?start=0000000000000000a", "400 start"),
    ("/v1/changes?start=", "400 start"),
];

/// Tries: lw_route::route_of
#[test]
fn changes_are_asked_for_since_a_number(rt: HostRuntime) {
    check_rows(&rt, rt.alloc(), &CHANGES);
}

static NOTIFICATIONS: [Row; 11] = [
    ("/v1/notifications?from=0", "64 from 0"),
    (
        "/v1/notifications?from=18446744073709551615",
        "64 from 18446744073709551615",
    ),
    (
        "/v1/notifications?limit=3&start=ffffffffffffffff&from=7",
        "3 from 7 of 18446744073709551615",
    ),
    ("/v1/notifications?from=18446744073709551616", "400 from"),
    ("/v1/notifications?from=01", "400 from"),
    ("/v1/notifications?from=", "400 from"),
    ("/v1/notifications?from=%30", "400 from"),
    ("/v1/notifications?start=00", "400 start"),
    ("/v1/notifications?limit=257", "400 limit"),
    ("/v1/notifications?since=1", "400 no such parameter"),
    ("/v1/notifications?from=1&from=1", "400 a parameter twice"),
];

/// Tries: lw_route::route_of
#[test]
fn notifications_are_asked_for_from_a_number(rt: HostRuntime) {
    check_rows(&rt, rt.alloc(), &NOTIFICATIONS);
}

static NO_PARAMETERS: [Row; 16] = [
    ("/v1/health?", "health"),
    ("/v1/health?a=1", "400 no such parameter"),
    ("/v1/health?limit=1", "400 no such parameter"),
    ("/v1/health?a", "400 a parameter without a value"),
    ("/v1/registrations/lamp?limit=1", "400 no such parameter"),
    ("/v1/registrations/%?a", "400 endpoint"),
    ("/v1/registrations?since=1", "400 no such parameter"),
    ("/v1/registrations?Limit=1", "400 no such parameter"),
    ("/v1/registrations?l%69mit=1", "400 no such parameter"),
    ("/v1/registrations?=1", "400 no such parameter"),
    ("/v1/registrations?limit", "400 a parameter without a value"),
    ("/v1/registrations?&", "400 a parameter without a value"),
    (
        "/v1/registrations?limit=1&&after=a",
        "400 a parameter without a value",
    ),
    (
        "/v1/registrations?limit=1&",
        "400 a parameter without a value",
    ),
    ("/v1/registrations??limit=1", "400 no such parameter"),
    ("/v1/changes?after=a", "400 no such parameter"),
];

/// Tries: lw_route::route_of
#[test]
fn other_parameters_are_refused(rt: HostRuntime) {
    check_rows(&rt, rt.alloc(), &NO_PARAMETERS);
}

static SEVERAL: [Row; 6] = [
    ("/v1/registrations?limit=1&limit=1", "400 a parameter twice"),
    ("/v1/registrations?after=&after=%", "400 a parameter twice"),
    (
        "/v1/changes?start=000000000000000a&since=1&since=1",
        "400 a parameter twice",
    ),
    ("/v1/registrations?limit=0&limit=1&x=1", "400 limit"),
    ("/v1/registrations?x=1&limit=0", "400 no such parameter"),
    ("/v1/registrations?after=%&x", "400 after"),
];

/// Tries: lw_route::route_of, lw_route::RouteError::status, lw_route::RouteError::text
#[test]
fn the_first_fault_decides(rt: HostRuntime) {
    check_rows(&rt, rt.alloc(), &SEVERAL);
}
