//! A script that is replayed, refused ones, and devices that fail. More scripts are played on the built program.

use super::{AMPLE, FewBytes, FewWrites, Room};
use lw_fleet::{Fault, replay};
use std::alloc::Global;
use std::process::Abort;

/// A delta reaches another node, which then shows what the first does.
const SCRIPT: &str = r#"nodes 2
take 1 0 127.0.0.1:5683 40020004b272644465703d61ff3c2f3e
send 1 0
deliver 2 0
id 2 0 0000000000010001
endpoint 3 0 a
deliver 2 1
"#;

/// What is printed for it.
const LINES: &str = r#"taken 604100048272640d0330303030303030303030303130303031 -
message 0 1 4c57443300000000000101016100000000000100017f000000000000010001047f0000011633000000000001000100000000000000000000000100010001518000000000000100010155000000000001000100000000000001000100033c2f3e00000000
joined 1
{"address":"127.0.0.1:5683","attributes":{},"binding":"U","endpoint":"a","id":"0000000000010001","lifetime":86400,"lwm2m":"1.0","objects":"</>","queue":false,"seen":0,"sms":null}
no node
no message
"#;

/// Fails where other than this comes of a script, or other bytes are printed.
fn replays(
    rt: &impl Abort,
    alloc: Global,
    mut script: FewBytes<'_>,
    room: Room,
    (want, printed): (Result<(), Fault>, &str),
) {
    let mut writer = FewWrites::new(alloc, room);
    let result = replay(alloc, &mut script, &mut writer);
    assert!(rt; result == want, "{result:?} in place of {want:?}");
    assert!(rt; writer.has(printed.as_bytes()), "{printed}");
}

/// Fails where other lines are printed for the script.
fn prints(rt: &impl Abort, alloc: Global, script: &str, lines: &str) {
    let script = FewBytes::new(script.as_bytes(), 64, false);
    replays(rt, alloc, script, AMPLE, (Ok(()), lines));
}

/// Tries: lw_json::outcome_line, replay
#[test]
fn a_script_prints_its_lines(rt: HostRuntime) {
    let front = SCRIPT.strip_suffix('\n').expect(&rt, "a line feed");
    prints(&rt, rt.alloc(), SCRIPT, LINES);
    prints(&rt, rt.alloc(), front, LINES);
}

/// A Register with the attribute `x`, and Updates of it at two nodes, which then show the same.
const ATTRIBUTES: &str = "nodes 2
take 1 0 127.0.0.1:5683 40020020b272644465703d6103783d31ff3c2f3e
send 1 0
deliver 2 0
take 1 0 127.0.0.1:5683 40020022b272640d033030303030303030303030313030303143783d32
take 2 0 127.0.0.1:5683 40020023b272640d0330303030303030303030303130303031417903783d33
send 1 1
send 2 1
deliver 1 2
deliver 2 1
endpoint 1 0 a
endpoint 2 0 a
";

/// What is printed for it.
const ATTRIBUTES_LINES: &str = r#"taken 604100208272640d0330303030303030303030303130303031 -
message 0 1 4c57443300000000000101016100000000000100017f000000000000010001047f0000011633000000000001000100000000000000000000000100010001518000000000000100010155000000000001000100000000000001000100033c2f3e0101780000000000010001013100000000
joined 1
taken 60440022 -
taken 60440023 -
message 1 2 4c57443300000000000201016100000000000100017f000000000000020001047f0000011633000000000002000100000000000000000000000100010001518000000000000100010155000000000001000100000000000001000100033c2f3e0101780000000000020001013200000000
message 2 2 4c57443300000000000201016100000000000100017f000000000000020002047f0000011633000000000002000200000000000000000000000100010001518000000000000100010155000000000001000100000000000001000100033c2f3e0101780000000000020002013301017900000000000200020000000000
joined 1
joined 1
{"address":"127.0.0.1:5683","attributes":{"x":"3","y":""},"binding":"U","endpoint":"a","id":"0000000000010001","lifetime":86400,"lwm2m":"1.0","objects":"</>","queue":false,"seen":0,"sms":null}
{"address":"127.0.0.1:5683","attributes":{"x":"3","y":""},"binding":"U","endpoint":"a","id":"0000000000010001","lifetime":86400,"lwm2m":"1.0","objects":"</>","queue":false,"seen":0,"sms":null}
"#;

/// Tries: replay
#[test]
fn attributes_of_two_nodes(rt: HostRuntime) {
    prints(&rt, rt.alloc(), ATTRIBUTES, ATTRIBUTES_LINES);
}

/// What has expired at one node is swept, and an Update at the other, which came before that, brings it back until it
/// expires again.
const SWEPT: &str = "nodes 2
take 1 0 127.0.0.1:5683 40020004b272644465703d61056c743d3630ff3c2f3e
send 1 0
deliver 2 0
sweep 1 59999
change 1
sweep 1 60000
change 1
endpoint 1 0 a
expired 1 60000
sweep 1 60000
take 2 50000 127.0.0.1:5683 40020011b272640d0330303030303030303030303130303031
send 1 1
send 2 1
deliver 2 1
deliver 1 2
endpoint 1 109999 a
endpoint 2 109999 a
endpoint 1 110000 a
endpoint 2 110000 a
sweep 2 110000
sweep 3 0
";

/// What is printed for it.
const SWEPT_LINES: &str = r#"taken 604100048272640d0330303030303030303030303130303031 -
message 0 1 4c57443300000000000101016100000000000100017f000000000000010001047f0000011633000000000001000100000000000000000000000100010000003c00000000000100010155000000000001000100000000000001000100033c2f3e00000000
joined 1
none
1
swept 0000000000010001
2
none
none
none
taken 60440011 -
message 1 2 4c57443300000000000201016100000000000100017f000000000000010001047f0000011633000000000001000100000000000000000000000100010000003c00000000000100010155000000000001000100000000000001000100033c2f3e000100000000000100010000
message 2 2 4c57443300000000000201016100000000000100017f000000000000020002047f0000011633000000000002000200000000c35000000000000100010000003c00000000000100010155000000000001000100000000000001000100033c2f3e00000000
joined 1
joined 1
{"address":"127.0.0.1:5683","attributes":{},"binding":"U","endpoint":"a","id":"0000000000010001","lifetime":60,"lwm2m":"1.0","objects":"</>","queue":false,"seen":50000,"sms":null}
{"address":"127.0.0.1:5683","attributes":{},"binding":"U","endpoint":"a","id":"0000000000010001","lifetime":60,"lwm2m":"1.0","objects":"</>","queue":false,"seen":50000,"sms":null}
none
none
swept 0000000000010001
no node
"#;

/// Tries: lw_json::outcome_line
#[test]
fn what_is_swept_at_one_node_is_updated_at_another(rt: HostRuntime) {
    prints(&rt, rt.alloc(), SWEPT, SWEPT_LINES);
}

/// Fails where the script, of which five bytes come at a time, does not end so, with nothing printed.
fn stops(rt: &impl Abort, alloc: Global, script: &[u8], fault: Fault) {
    let script = FewBytes::new(script, 5, false);
    replays(rt, alloc, script, AMPLE, (Err(fault), ""));
}

/// Scripts, and the line that is refused.
static REFUSED: [(&[u8], usize); 11] = [
    (b"", 1),
    (b"\n", 1),
    (b"nodes 17\n", 1),
    (b"nodes 0\n", 1),
    (b"nodes 01\n", 1),
    (b"change 1\n", 1),
    (b"nodes 1\nnodes 1\n", 2),
    (b"nodes 1\n\n", 2),
    (b"nodes 1\nchange 1\nchange 1\r\n", 3),
    (b"nodes 1\nchange 1\nendpoint 1 0 \xff\nchange", 3),
    (b"nodes 1\nsend 1 0\ndeliver 1 4294967296\n", 3),
];

/// Tries: replay
#[test]
fn refused_scripts(rt: HostRuntime) {
    for (script, line) in &REFUSED {
        let line = *line;
        stops(&rt, rt.alloc(), script, Fault::LineRefused { line });
    }
}

/// A script of so many bytes, with one event, whose endpoint is long.
fn long_script(rt: &impl Abort, alloc: Global, length: usize) -> Vec<u8> {
    let mut script = b"nodes 1\nendpoint 1 0 ".to_vec(alloc).expect(rt, "memory");
    for _byte in script.len()..length {
        script.push(b'a').expect(rt, "memory");
    }
    script
}

/// Tries: replay, read_all
#[test]
fn the_longest_script(rt: HostRuntime) {
    let alloc = rt.alloc();
    let long = long_script(&rt, alloc, 1_048_576);
    let script = FewBytes::new(&long, 4096, false);
    replays(&rt, alloc, script, AMPLE, (Ok(()), "none\n"));
    let longer = long_script(&rt, alloc, 1_048_577);
    stops(&rt, alloc, &longer, Fault::TooLong);
    let blanks = vec![in alloc; b'\n'; 1_048_577].expect(&rt, "memory");
    stops(&rt, alloc, &blanks, Fault::TooLong);
    let fewer = blanks.get(1..).expect(&rt, "blanks");
    stops(&rt, alloc, fewer, Fault::LineRefused { line: 1 });
}

/// Tries: replay
#[test]
fn a_reader_that_fails_after_any_byte(rt: HostRuntime) {
    let script = SCRIPT.as_bytes();
    for count in 0..=script.len() {
        let front = script.get(..count).expect(&rt, "a front");
        let reader = FewBytes::new(front, 7, true);
        let failed = (Err(Fault::ReadFailed), "");
        replays(&rt, rt.alloc(), reader, AMPLE, failed);
    }
}

/// Fails where the script ends in another way with such a writer, which takes the front for which there is room.
fn writes(rt: &impl Abort, alloc: Global, room: Room, want: Result<(), Fault>) {
    let front = LINES.get(..room.1.min(LINES.len())).expect(rt, "a front");
    let script = FewBytes::new(SCRIPT.as_bytes(), 64, false);
    replays(rt, alloc, script, room, (want, front));
}

/// Tries: replay
#[test]
fn a_writer_that_fails_after_any_byte(rt: HostRuntime) {
    let failed = Err(Fault::WriteFailed);
    for room in 0..LINES.len() {
        writes(&rt, rt.alloc(), (1, room, false, false), failed);
        writes(&rt, rt.alloc(), (64, room, true, false), failed);
    }
}

/// Tries: replay
#[test]
fn a_writer_that_takes_a_byte_at_a_time(rt: HostRuntime) {
    let failed = Err(Fault::WriteFailed);
    writes(&rt, rt.alloc(), (1, 9999, false, false), Ok(()));
    writes(&rt, rt.alloc(), (1, 9999, false, true), failed);
}
