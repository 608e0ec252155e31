use super::*;
use std::process::Abort;

/// A registration at one of two nodes, and what happens after it, with and without its last line feed.
const SEVEN: &str = "nodes 2
take 1 0 127.0.0.1:5683 40020004b272644465703d61ff3c2f3e
send 1 0
deliver 2 0
id 2 0 0000000000010001
endpoint 3 0 a
deliver 2 1
";

const WITHOUT_THE_LAST_FEED: &str = "nodes 2
take 1 0 127.0.0.1:5683 40020004b272644465703d61ff3c2f3e
send 1 0
deliver 2 0
id 2 0 0000000000010001
endpoint 3 0 a
deliver 2 1";

/// Scripts with the number of nodes, and the node of each event.
static GOOD: [(&str, u16, &[u16]); 8] = [
    ("nodes 1", 1, &[]),
    ("nodes 16\n", 16, &[]),
    ("nodes 1\nchange 1", 1, &[1]),
    ("nodes 1\nchange 65535\nchange 0\n", 1, &[65535, 0]),
    ("nodes 1\nendpoint 1 0 \r\nchange 1", 1, &[1, 1]),
    ("nodes 1\nendpoint 1 0 \u{e9}", 1, &[1]),
    (SEVEN, 2, &[1, 1, 2, 2, 3, 2]),
    (WITHOUT_THE_LAST_FEED, 2, &[1, 1, 2, 2, 3, 2]),
];

/// Other texts, and the number of the line that is refused.
static REFUSED: [(&[u8], usize); 24] = [
    (b"", 1),
    (b"\n", 1),
    (b"nodes", 1),
    (b"nodes ", 1),
    (b"nodes 0", 1),
    (b"nodes 17", 1),
    (b"nodes 01", 1),
    (b"nodes 65536", 1),
    (b"nodes 2 ", 1),
    (b" nodes 2", 1),
    (b"Nodes 2", 1),
    (b"\xef\xbb\xbfnodes 2", 1),
    (b"send 1 0\nnodes 2", 1),
    (b"nodes 17\nsend 1", 1),
    (b"nodes 2\r\nsend 1 0\r\n", 1),
    (b"nodes 2\nsend 1 0\r\n", 2),
    (b"nodes 2\nnodes 2\n", 2),
    (b"nodes 2\n\n", 2),
    (b"nodes 2\n\nsend 1 0\n", 2),
    (b"nodes 2\nsend 1\nsend 1\n", 2),
    (b"nodes 2\nsend 1 0\n\n", 3),
    (b"nodes 2\nsend 1 0\nsend 1 0\nsend 1 0 ", 4),
    // no texts
    (b"nodes 1\xff", 1),
    (b"nodes 1\nendpoint 1 0 \xff\n", 2),
];

/// The script has so many nodes, and events of these nodes.
fn has_nodes(rt: &impl Abort, script: &Script, nodes: u16, of: &[u16]) {
    assert_eq!(rt; script.nodes, nodes);
    assert_eq!(rt; script.events.len(), of.len());
    for (event, node) in script.events.iter().zip(of) {
        assert_eq!(rt; event.node, *node);
    }
}

/// Tries: read_script
#[test]
fn scripts_are_read(rt: HostRuntime) {
    for (text, nodes, of) in &GOOD {
        let script = read_script(rt.alloc(), text.as_bytes()).expect(&rt, text);
        has_nodes(&rt, &script, *nodes, of);
    }
}

/// Tries: read_script
#[test]
fn first_bad_line_is_refused(rt: HostRuntime) {
    for (text, line) in &REFUSED {
        let refused = read_script(rt.alloc(), text).err();
        assert_eq!(rt;
            refused,
            Some(ScriptFault::Refused { line: *line }),
            "{text:?}"
        );
    }
}

/// Tries: read_script
#[test]
fn thousand_lines_are_read(rt: HostRuntime) {
    let mut text = b"nodes 16\n".to_vec(rt.alloc()).expect(&rt, "memory");
    for _ in 1..1_000 {
        text.extend_from_slice(b"change 16\n").expect(&rt, "memory");
    }
    let script = read_script(rt.alloc(), &text).expect(&rt, "a script");
    assert_eq!(rt; (script.nodes, script.events.len()), (16, 999));
    text.extend_from_slice(b"change 65536\n")
        .expect(&rt, "memory");
    let refused = read_script(rt.alloc(), &text).err();
    assert_eq!(rt; refused, Some(ScriptFault::Refused { line: 1_001 }));
}
