use lw_redis_log::{LONGEST_PAUSE, SHORTEST_PAUSE, longer_pause, patience_for};

/// Each is the one after that before it.
static PAUSES: [u64; 7] = [200, 400, 800, 1600, 3200, 5000, 5000];

/// Tries: lw_redis_log::longer_pause
#[test]
fn pauses_are_doubled_up_to_5_seconds(rt: HostRuntime) {
    assert_eq!(rt; SHORTEST_PAUSE, 100);
    assert_eq!(rt; LONGEST_PAUSE, 5_000);
    let mut pause = 100;
    for want in &PAUSES {
        pause = longer_pause(pause);
        assert_eq!(rt; pause, *want);
    }
    assert_eq!(rt; longer_pause(u64::MAX), 5000);
}

/// Lengths of entries, and how long is waited for them.
static PATIENCE: [(usize, u64); 4] = [
    (0, 2000),
    (9_999_999, 2000),
    (10_000_000, 3000),
    (536_870_912, 55_000),
];

/// Tries: lw_redis_log::patience_for
#[test]
fn large_entries_take_longer(rt: HostRuntime) {
    for (length, want) in &PATIENCE {
        assert_eq!(rt; patience_for(*length), *want, "for {length}");
    }
}
