//! Runs over a wire in memory.

use super::*;
use log::sink::Memory;
use std::str;

/// How many bytes a writer takes, and whether its writes then fail and whether its flushes do.
pub(super) type Room = (usize, bool, bool);

/// A writer that takes all.
pub(super) const AMPLE: Room = (1_000, false, false);

/// How many datagrams, nodes and workers there are, and after how many rounds journals are cut, again and again, or
/// never.
pub(super) type Sizes = (u32, u16, u32, Option<u32>);

/// Serves over the wire, at the moments of the rounds, in milliseconds. Gives how the run ended, how often the clock
/// was read, how many records were logged and how many of them warn of receiving and of sending, and what was written.
pub(super) fn run<R: Threads + Wait + Sync + Abort>(
    rt: &R,
    wire: &mut MemoryWire<'_>,
    (count, nodes, workers, cut): Sizes,
    moments: &[u64],
    (room, fails, flush_fails): Room,
) -> String {
    let alloc = wire.alloc;
    let plan = Plan::new(count, nodes, workers, cut).expect(rt, "a plan");
    let (log, mut clock) = (Memory::new(alloc), Ticks::new(moments));
    let mut writer = FewWrites {
        taken: Vec::new(alloc),
        room,
        fails,
        flush_fails,
        interrupts: false,
    };
    let ended = serve_on(rt, alloc, wire, &mut clock, &log, &plan, &mut writer);
    let logged = log.into_lines().into_vec();
    let received = warnings(&logged, "receive passed over");
    let (count, sent) = (logged.len(), warnings(&logged, "send passed over"));
    let written = str::from_utf8(&writer.taken).expect(rt, "a text");
    let rounds = clock.readings;
    let text = format!(in alloc; "{ended:?} {rounds} {count} {received} {sent}\n{written}");
    text.expect(rt, "memory")
}

/// How many records are warnings with the message.
fn warnings(logged: &[String], message: &str) -> u32 {
    let mut count = 0_u32;
    for line in logged {
        if line.starts_with("[WARN") && line.ends_with(message) {
            count = count.saturating_add(1);
        }
    }
    count
}

/// Serves over the wire. What came of the run stands before a line for each datagram that was sent: the port and the
/// bytes.
fn is_served<R: Threads + Wait + Sync + Abort>(
    rt: &R,
    mut wire: MemoryWire<'_>,
    sizes: Sizes,
    moments: &[u64],
    want: &str,
) {
    let mut text = run(rt, &mut wire, sizes, moments, AMPLE);
    for (port, bytes) in &wire.sent {
        let bytes = hex::encode(wire.alloc, bytes).expect(rt, "memory");
        writeln!(text, "{port} {bytes}").expect(rt, "memory");
    }
    assert_eq!(rt; text.as_str(), want);
}

/// How often a wire fails before a Register comes and whether its sending fails, and what comes of the run. A thousand
/// faults end it.
static FAULTS: [(u32, bool, &str); 3] = [
    (
        999,
        false,
        "Ok(()) 1 999 999 0
settled
5683 604100048272640d0330303030303030303030303130303031
",
    ),
    (1000, false, "Err(ReceiveFailed) 0 999 999 0\n"),
    (0, true, "Ok(()) 1 1 0 1\nsettled\n"),
];

/// Tries: serve_on, Server::round, receive, Server::finish, wait
#[test]
fn faults_of_a_wire_are_passed_over(rt: HostRuntime) {
    for (faults, send_fails, want) in &FAULTS {
        let mut wire = MemoryWire::new(rt.alloc(), &[(5683, REGISTER, Alone)]);
        wire.faults = *faults;
        wire.send_fails = *send_fails;
        is_served(&rt, wire, (1, 1, 1, None), &[0], want);
    }
}

/// Serves a datagram of 8,193 bytes with message ID 0x99.
/// Tries: serve_on
#[test]
fn a_datagram_that_is_too_long(rt: HostRuntime) {
    let mut long = vec![in rt.alloc(); 0x41; 8_193].expect(&rt, "memory");
    long[..4].copy_from_slice(&[0x40, 0x02, 0x00, 0x99]);
    let arrivals = [(5683, long.as_slice(), Alone)];
    let want = "Ok(()) 1 0 0 0\nsettled\n5683 70000099\n";
    let wire = MemoryWire::new(rt.alloc(), &arrivals);
    is_served(&rt, wire, (1, 1, 1, None), &[0], want);
}

/// What a clock gives, in milliseconds, of which the last is no moment; what a writer takes; how the run of an empty
/// message ends, and what was written.
static ENDS: [(u64, Room, &str); 6] = [
    (u64::MAX, (8, false, false), "Err(ClockRefused) 1 0 0 0\n"),
    (0, (8, false, false), "Ok(()) 1 0 0 0\nsettled\n"),
    (0, (7, false, false), "Err(WriteFailed) 1 0 0 0\nsettled"),
    (0, (4, true, false), "Err(WriteFailed) 1 0 0 0\nsett"),
    (0, (0, false, false), "Err(WriteFailed) 1 0 0 0\n"),
    (0, (8, false, true), "Err(WriteFailed) 1 0 0 0\nsettled\n"),
];

/// Tries: serve_on
#[test]
fn a_clock_and_a_writer_that_fail_are_told(rt: HostRuntime) {
    for (now, room, want) in &ENDS {
        let mut wire = MemoryWire::new(rt.alloc(), &[(5683, PING, Alone)]);
        let text = run(&rt, &mut wire, (1, 1, 1, None), &[*now], *room);
        assert_eq!(rt; text.as_str(), *want);
    }
}

/// The datagrams of a run, how many nodes and workers there are, the moments of the rounds, and what comes of it.
type Row = (
    &'static [Arrival<'static>],
    u16,
    u32,
    &'static [u64],
    &'static str,
);

/// What comes of two rounds: the second node knows of one operation when it has the second Register.
const TOLD: &str = "Ok(()) 2 0 0 0
settled
56832 604100048272640d0330303030303030303030303130303031
56833 604100058272640d0330303030303030303030303230303032
";

/// What comes of one round, in which the second node knows of none.
const UNTOLD: &str = "Ok(()) 1 0 0 0
settled
56832 604100048272640d0330303030303030303030303130303031
56833 604100058272640d0330303030303030303030303130303032
";

/// What comes of two rounds: the second node updates what the first has registered.
const UPDATED: &str = "Ok(()) 2 0 0 0
settled
56832 604100048272640d0330303030303030303030303130303031
56833 60440010
";

/// A datagram at each of two nodes, of which the second comes in one way or another; and a ping in each of three
/// rounds.
static ROUNDS: [Row; 5] = [
    (
        &[(56832, REGISTER, Alone), (56833, OTHER_REGISTER, Alone)],
        2,
        1,
        &[0],
        TOLD,
    ),
    (
        &[
            (56832, REGISTER, Alone),
            (56833, OTHER_REGISTER, BehindFault),
        ],
        2,
        1,
        &[0],
        TOLD,
    ),
    (
        &[(56832, REGISTER, Alone), (56833, OTHER_REGISTER, AtOnce)],
        2,
        1,
        &[0],
        UNTOLD,
    ),
    (
        &[(56832, REGISTER, Alone), (56833, UPDATE, Alone)],
        2,
        1,
        &[0],
        UPDATED,
    ),
    (
        &[
            (5683, PING, Alone),
            (5683, PING, Alone),
            (5683, PING, Alone),
        ],
        16,
        2,
        &[0],
        "Ok(()) 3 0 0 0\nsettled\n5683 70000007\n5683 70000007\n5683 70000007\n",
    ),
];

/// A Register of `a` with the object list `</>` for 60 seconds, message ID 4.
const REGISTER_FOR_A_MINUTE: &[u8] = b"\x40\x02\x00\x04\xb2rd\x44ep=a\x05lt=60\xff</>";

/// Two Updates of it that change no more than when it was seen, message IDs 16 and 17.
const ONE_UPDATE: &[u8] = b"\x40\x02\x00\x10\xb2rd\x0d\x030000000000010001";

const OTHER_UPDATE: &[u8] = b"\x40\x02\x00\x11\xb2rd\x0d\x030000000000010001";

/// A round for each.
const LIFE: [Arrival<'static>; 3] = [
    (5683, REGISTER_FOR_A_MINUTE, Alone),
    (5683, ONE_UPDATE, Alone),
    (5683, OTHER_UPDATE, Alone),
];

/// The replies to the Updates are 2.04 before 60,000 milliseconds have passed since it was seen last, and 4.04 from
/// then on.
static LIVES: [Row; 4] = [
    (
        &LIFE,
        1,
        1,
        &[0, 59_999, 119_998],
        "Ok(()) 3 0 0 0
settled
5683 604100048272640d0330303030303030303030303130303031
5683 60440010
5683 60440011
",
    ),
    (
        &LIFE,
        1,
        1,
        &[0, 59_999, 119_999],
        "Ok(()) 3 0 0 0
settled
5683 604100048272640d0330303030303030303030303130303031
5683 60440010
5683 60840011
",
    ),
    (
        &LIFE,
        1,
        1,
        &[0, 60_000, 60_001],
        "Ok(()) 3 0 0 0
settled
5683 604100048272640d0330303030303030303030303130303031
5683 60840010
5683 60840011
",
    ),
    (
        &LIFE,
        1,
        1,
        &[1_000, 60_999, 61_000],
        "Ok(()) 3 0 0 0
settled
5683 604100048272640d0330303030303030303030303130303031
5683 60440010
5683 60440011
",
    ),
];

/// A Register for a minute comes to the first node, then an empty message, and an Update to each node.
const SWEPT: [Arrival<'static>; 4] = [
    (56832, REGISTER_FOR_A_MINUTE, Alone),
    (56832, PING, Alone),
    (56833, ONE_UPDATE, Alone),
    (56832, OTHER_UPDATE, Alone),
];

/// What the sweeps of the second round have ended is gone at both nodes, at every moment.
static SWEEPS: [Row; 2] = [
    (
        &SWEPT,
        2,
        1,
        &[0, 59_999, 0, 0],
        "Ok(()) 4 0 0 0
settled
56832 604100048272640d0330303030303030303030303130303031
56832 70000007
56833 60440010
56832 60440011
",
    ),
    (
        &SWEPT,
        2,
        1,
        &[0, 60_000, 0, 0],
        "Ok(()) 4 0 0 0
settled
56832 604100048272640d0330303030303030303030303130303031
56832 70000007
56833 60840010
56832 60840011
",
    ),
];

/// After how many rounds journals are cut, again and again. A run that is cut is served as one without a cut.
const CUTS: [Option<u32>; 4] = [None, Some(1), Some(2), Some(1_000_000)];

/// Tries: serve_on, Server::new, Server::finish, Server::cut, serve_rounds, round_jobs, send_jobs, changes_after
/// Tries: put_merges, put_all_merges, node_of, Nodes::new, Nodes::settle, cut_journals, Plan::cuts_after
#[test]
fn nodes_tell_each_other_between_rounds(rt: HostRuntime) {
    for rows in [ROUNDS.as_slice(), LIVES.as_slice(), SWEEPS.as_slice()] {
        for (arrivals, nodes, workers, moments, want) in rows {
            for cut in CUTS {
                let wire = MemoryWire::new(rt.alloc(), arrivals);
                let sizes = (arrivals.len() as u32, *nodes, *workers, cut);
                is_served(&rt, wire, sizes, moments, want);
            }
        }
    }
}
