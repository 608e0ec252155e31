//! Which notifications are newer (RFC 7641, section 3.4).

use crate::moments::at;
use lw_messaging::Freshness;
use lw_stamp::Stamp;
use std::process::Abort;

const TOKEN: Stamp = Stamp {
    counter: 1,
    node: 7,
};

const OTHER: Stamp = Stamp {
    counter: 2,
    node: 7,
};

/// When the known notification came.
const KNOWN_AT: u64 = 1_000;

/// How many tokens are kept.
const MAX_TOKENS: u64 = 65_536;

/// Notes the number of a notification.
fn note(rt: &impl Abort, freshness: &mut Freshness, ms: u64, token: Stamp, observe: u32) {
    freshness.note(at(ms), token, observe).expect(rt, "memory");
}

/// Whether a notification with the number is newer.
fn is_newer(freshness: &Freshness, ms: u64, token: Stamp, observe: u32) -> bool {
    freshness.is_newer(at(ms), token, observe)
}

/// The known number, the one that comes at once, and whether that is newer. 2^23 is 8,388,608, and the last number is
/// 16,777,215.
static NUMBERS: [(u32, u32, bool); 14] = [
    (0, 0, false),
    (0, 1, true),
    (1, 0, false),
    (5, 6, true),
    (6, 5, false),
    (0, 8_388_607, true),
    (0, 8_388_608, false),
    (0, 8_388_609, false),
    (8_388_608, 0, false),
    (8_388_609, 0, true),
    (16_777_215, 0, true),
    (16_777_215, 8_388_606, true),
    (16_777_215, 8_388_607, false),
    (16_777_215, 16_777_214, false),
];

/// Tries: lw_messaging::Freshness::new, lw_messaging::Freshness::is_newer, lw_messaging::Freshness::note
#[test]
fn a_number_less_than_half_a_round_ahead_is_newer(rt: HostRuntime) {
    for row in &NUMBERS {
        let (known, observe, want) = *row;
        let mut freshness = Freshness::new(rt.alloc());
        note(&rt, &mut freshness, KNOWN_AT, TOKEN, known);
        let is_ahead = is_newer(&freshness, KNOWN_AT, TOKEN, observe);
        assert!(rt; is_ahead == want, "{observe} behind {known}");
        assert!(rt; is_newer(&freshness, KNOWN_AT, OTHER, observe), "{observe}");
    }
}

/// How much later the same number comes, in milliseconds, and whether it is newer.
static TIMES: [(u64, bool); 5] = [
    (0, false),
    (127_999, false),
    (128_000, false),
    (128_001, true),
    (500_000, true),
];

/// Tries: lw_messaging::Freshness::is_newer
#[test]
fn any_number_is_newer_after_128_seconds(rt: HostRuntime) {
    let mut freshness = Freshness::new(rt.alloc());
    note(&rt, &mut freshness, KNOWN_AT, TOKEN, 9);
    for row in &TIMES {
        let (later, want) = *row;
        let ms = KNOWN_AT.saturating_add(later);
        assert!(rt;
            is_newer(&freshness, ms, TOKEN, 9) == want,
            "{later} ms later"
        );
    }
}

/// Tries: lw_messaging::Freshness::note, lw_messaging::Freshness::forget, lw_messaging::Freshness::count
#[test]
fn the_last_note_counts_until_it_is_forgotten(rt: HostRuntime) {
    let mut freshness = Freshness::new(rt.alloc());
    for (token, observe) in [(TOKEN, 9), (TOKEN, 12), (OTHER, 1)] {
        note(&rt, &mut freshness, KNOWN_AT, token, observe);
    }
    assert!(rt; freshness.count() == 2);
    assert!(rt; !is_newer(&freshness, KNOWN_AT, TOKEN, 11));
    freshness.forget(TOKEN);
    assert!(rt; freshness.count() == 1);
    assert!(rt; is_newer(&freshness, KNOWN_AT, TOKEN, 11));
    assert!(rt; !is_newer(&freshness, KNOWN_AT, OTHER, 1));
}

/// When the kept ones are not old yet, and when they are.
const YOUNG: u64 = KNOWN_AT + 128_000;

const OLD: u64 = KNOWN_AT + 128_001;

/// A token more than are kept.
const LATE: Stamp = Stamp {
    counter: MAX_TOKENS + 1,
    node: 7,
};

/// Tries: lw_messaging::Freshness::note
#[test]
fn old_tokens_go_where_there_is_no_room(rt: HostRuntime) {
    let mut freshness = Freshness::new(rt.alloc());
    for counter in 1..=MAX_TOKENS {
        note(&rt, &mut freshness, KNOWN_AT, Stamp { counter, node: 7 }, 9);
    }
    note(&rt, &mut freshness, YOUNG, LATE, 9);
    assert!(rt; freshness.count() == 65_536);
    assert!(rt; is_newer(&freshness, YOUNG, LATE, 9));
    // One that is kept is noted all the same.
    note(&rt, &mut freshness, YOUNG, TOKEN, 10);
    assert!(rt; !is_newer(&freshness, YOUNG, TOKEN, 10));
    note(&rt, &mut freshness, OLD, LATE, 9);
    assert!(rt; freshness.count() == 2);
    assert!(rt; !is_newer(&freshness, OLD, LATE, 9));
    assert!(rt; !is_newer(&freshness, OLD, TOKEN, 10));
}
