//! Each call of a node by its name. What is replied, shown and refused in the course of events is tested as scripts.

use super::*;

/// An observation of `/3/0` of the first registration, and its notification.
const WATCH: &str =
    r#"{"accept":null,"endpoint":"a","id":"0000000000010001","path":"/3/0","token":"0000000000020001"}"#;

const NOTICE: &str =
    r#"taken 60000031 {"code":69,"content_format":null,"ended":false,"endpoint":"a","id":"0000000000010001","observe":1,"path":"/3/0","payload":"31","token":"0000000000020001"}"#;

static CALLS: [Row<'static>; 23] = [
    (Numbers, "0 0"),
    (Line("next 1 0"), "none"),
    (Line(REGISTER), CREATED),
    (Line("endpoint 1 0 a"), SHOWN),
    (Line("id 1 0 0000000000010001"), SHOWN),
    (Line("address 1 0 127.0.0.1:5683"), SHOWN),
    (Line("address 1 0 127.0.0.1:5684"), "none"),
    (Line("next 1 0"), SHOWN),
    (NextAboveNoName, SHOWN),
    (Line("next 1 0 a"), "none"),
    (
        Line("observe 1 0 0000000000010001 /3/0 - 32"),
        "sent 0000000000020001 127.0.0.1:5683 4801002000000000000200016051330130",
    ),
    (Line("token 1 0 0000000000020001"), WATCH),
    (Line("watch 1 0 0000000000010001"), WATCH),
    (Line("watch 1 0 0000000000010001 /3/0"), "none"),
    (
        Line("take 1 0 127.0.0.1:5683 4845003100000000000200016101ff31"),
        NOTICE,
    ),
    (
        Line("cancel 1 0 0000000000020001 32"),
        "sent 0000000000020001 127.0.0.1:5683 480100200000000000020001610151330130",
    ),
    (Line("expired 1 86399999"), "none"),
    (
        Line("expired 1 86400000"),
        r#"{"endpoint":"a","id":"0000000000010001"}"#,
    ),
    (Line("expired 1 86400000 a"), "none"),
    (Numbers, "3 3"),
    (Line("sweep 1 86399999"), "none"),
    (Line("sweep 1 86400000"), "swept 0000000000010001"),
    (Numbers, "4 4"),
];

/// Tries: Node::new, Node::by_endpoint, Node::by_id, Node::by_address, Node::by_token, Node::watch_after
/// Tries: Node::first_after, Node::expired_after, Node::change, Node::observe, Node::cancel, Node::ask, Node::act
#[test]
fn each_call_answers(rt: HostRuntime) {
    play_new(&rt, rt.alloc(), ("each call", &CALLS));
}
