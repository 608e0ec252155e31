//! Which message IDs are given (RFC 7252, sections 3, 4.4 and 4.8.2).

use crate::moments::at;
use lw_messaging::{MessageIds, put_message_id};
use lw_reg::Addr;
use lw_stamp::Moment;

/// The last byte and the port make 5,684, so its counter is 4.
const DEVICE: Addr = Addr::V4 {
    address: [192, 0, 2, 1],
    port: 5683,
};

/// An address of the same counter: 2 and 5,682.
const SAME_LANE: Addr = Addr::V4 {
    address: [192, 0, 2, 2],
    port: 5682,
};

/// An address of the same counter in IPv6: 1 and 5,683.
const SAME_LANE_6: Addr = Addr::V6 {
    address: [32, 1, 13, 184, 0, 0, 0, 0, 0, 0, 0, 0, 0, 0, 9, 1],
    port: 5683,
};

/// An address of counter 5.
const OTHER_LANE: Addr = Addr::V4 {
    address: [192, 0, 2, 2],
    port: 5683,
};

/// Half of all message IDs.
const HALF: u32 = 32_768;

/// A start in milliseconds, and the message IDs that are given then to addresses, one after another.
type Start = (u64, &'static [(Addr, u16)]);

/// Starts and the first message ID after each; one before the last message ID, behind which they begin again; and
/// addresses of a counter, which share it.
static STARTS: [Start; 9] = [
    (0, &[(DEVICE, 0)]),
    (3, &[(DEVICE, 0)]),
    (4, &[(DEVICE, 1)]),
    (4_000, &[(DEVICE, 1_000)]),
    (262_143, &[(DEVICE, 65_535)]),
    (262_144, &[(DEVICE, 0)]),
    (262_148, &[(DEVICE, 1)]),
    (262_140, &[(DEVICE, 65_535), (DEVICE, 0), (DEVICE, 1)]),
    (
        0,
        &[
            (DEVICE, 0),
            (SAME_LANE, 1),
            (OTHER_LANE, 0),
            (SAME_LANE_6, 2),
            (OTHER_LANE, 1),
            (DEVICE, 3),
        ],
    ),
];

/// Tries: lw_messaging::MessageIds::new, lw_messaging::MessageIds::next
#[test]
fn each_counter_counts_on_from_the_start(rt: HostRuntime) {
    for (start, given) in &STARTS {
        let mut ids = MessageIds::new(at(*start));
        for (to, want) in *given {
            assert!(rt;
                ids.next(at(*start), *to) == Some(*want),
                "{start} ms, {want}"
            );
        }
    }
}

/// Whether a whole run is given, from this message ID on.
fn gives_a_run(ids: &mut MessageIds, now: Moment, first: u16) -> bool {
    let mut want = first;
    for _ in 0..HALF {
        if ids.next(now, DEVICE) != Some(want) {
            return false;
        }
        want = want.wrapping_add(1);
    }
    true
}

/// Tries: lw_messaging::MessageIds::next
#[test]
fn half_of_all_is_given_within_247_seconds(rt: HostRuntime) {
    let mut ids = MessageIds::new(Moment::START);
    assert!(rt; gives_a_run(&mut ids, Moment::START, 0));
    for ms in [0, 1, 246_001, 247_000] {
        assert!(rt; ids.next(at(ms), DEVICE).is_none(), "{ms}");
    }
    assert!(rt; ids.next(at(247_000), OTHER_LANE) == Some(0));
    // The other half begins more than 247 s after the first one did.
    assert!(rt; gives_a_run(&mut ids, at(247_001), 32_768));
    for ms in [247_001, 248_000, 494_001] {
        assert!(rt; ids.next(at(ms), DEVICE).is_none(), "{ms}");
    }
    assert!(rt; ids.next(at(494_002), DEVICE) == Some(0));
}

/// Bytes, and what they are with the message ID 0x1234.
static MESSAGES: [(&[u8], &[u8]); 5] = [
    (b"\x41\x01\x00\x00\xaa\xb1a", b"\x41\x01\x12\x34\xaa\xb1a"),
    (b"\x40\x00\xff\xff", b"\x40\x00\x12\x34"),
    (b"\x40\x00\xff", b"\x40\x00\xff"),
    (b"\x40", b"\x40"),
    (b"", b""),
];

/// Tries: lw_messaging::put_message_id
#[test]
fn a_message_gets_a_message_id(rt: HostRuntime) {
    for row in &MESSAGES {
        let (bytes, want) = *row;
        let mut message = Vec::from_slice(rt.alloc(), bytes).expect(&rt, "memory");
        put_message_id(&mut message, 0x1234);
        assert!(rt; message.as_slice() == want, "{want:?}");
    }
}
