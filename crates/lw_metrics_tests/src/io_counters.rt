//! What is counted of input and output.

use crate::shown::are_counted;
use lw_metrics::{AppendTimes, IoCounters, LogCounters, Responses, Tally};
use std::alloc::Global;
use std::process::Abort;

/// How long appends took, which statuses were given, and the samples above 0 behind that.
type Course = (&'static [u64], &'static [u16], &'static [&'static str]);

/// Fails where the samples of what is counted of input and output, whose numbers are above 0, are others than these.
fn is_counted(rt: &impl Abort, alloc: Global, io_counters: IoCounters, want: &[&str]) {
    are_counted(rt, alloc, (Tally::new(), io_counters), want);
}

/// Fails where new counters that count these have other samples then.
fn count_all(rt: &impl Abort, alloc: Global, courses: &[Course]) {
    for (times, statuses, want) in courses {
        let mut io_counters = IoCounters::new();
        for microseconds in *times {
            io_counters.log.appends.count(*microseconds);
        }
        for status in *statuses {
            io_counters.responses.count(*status);
        }
        is_counted(rt, alloc, io_counters, want);
    }
}

/// Tries: lw_metrics::IoCounters::new, lw_metrics::LogCounters::new, lw_metrics::AppendTimes::new
/// Tries: lw_metrics::Responses::new
#[test]
fn nothing_is_counted_yet(rt: HostRuntime) {
    let mut io_counters = IoCounters::new();
    is_counted(&rt, rt.alloc(), io_counters, &[]);
    io_counters.log = LogCounters::new();
    io_counters.log.appends = AppendTimes::new();
    io_counters.responses = Responses::new();
    is_counted(&rt, rt.alloc(), io_counters, &[]);
}

/// Each bound is of those that it counts: one append of exactly two seconds, and one of a microsecond more.
static AT_A_BOUND: [Course; 1] = [(
    &[2_000_001, 2_000_000],
    &[],
    &[
        "fleet_log_append_seconds_bucket{le=\"2\"} 1",
        "fleet_log_append_seconds_bucket{le=\"5\"} 2",
        "fleet_log_append_seconds_bucket{le=\"+Inf\"} 2",
        "fleet_log_append_seconds_sum 4.000001",
        "fleet_log_append_seconds_count 2",
    ],
)];

/// Tries: lw_metrics::AppendTimes::count, lw_metrics::metrics_text
#[test]
fn a_bound_is_not_longer_than_itself(rt: HostRuntime) {
    count_all(&rt, rt.alloc(), &AT_A_BOUND);
}

/// An append below each bound, and at it, and one above all.
static AT_EACH_BOUND: [Course; 1] = [(
    &[
        0, 500, 501, 1_000, 1_001, 2_000, 2_001, 5_000, 5_001, 10_000, 10_001, 20_000, 20_001,
        50_000, 50_001, 100_000, 100_001, 200_000, 200_001, 500_000, 500_001, 1_000_000, 1_000_001,
        2_000_000, 2_000_001, 5_000_000, 5_000_001,
    ],
    &[],
    &[
        "fleet_log_append_seconds_bucket{le=\"0.0005\"} 2",
        "fleet_log_append_seconds_bucket{le=\"0.001\"} 4",
        "fleet_log_append_seconds_bucket{le=\"0.002\"} 6",
        "fleet_log_append_seconds_bucket{le=\"0.005\"} 8",
        "fleet_log_append_seconds_bucket{le=\"0.01\"} 10",
        "fleet_log_append_seconds_bucket{le=\"0.02\"} 12",
        "fleet_log_append_seconds_bucket{le=\"0.05\"} 14",
        "fleet_log_append_seconds_bucket{le=\"0.1\"} 16",
        "fleet_log_append_seconds_bucket{le=\"0.2\"} 18",
        "fleet_log_append_seconds_bucket{le=\"0.5\"} 20",
        "fleet_log_append_seconds_bucket{le=\"1\"} 22",
        "fleet_log_append_seconds_bucket{le=\"2\"} 24",
        "fleet_log_append_seconds_bucket{le=\"5\"} 26",
        "fleet_log_append_seconds_bucket{le=\"+Inf\"} 27",
        "fleet_log_append_seconds_sum 17.777013",
        "fleet_log_append_seconds_count 27",
    ],
)];

/// Tries: lw_metrics::AppendTimes::count, lw_metrics::metrics_text
#[test]
fn each_bucket_has_those_before_it(rt: HostRuntime) {
    count_all(&rt, rt.alloc(), &AT_EACH_BOUND);
}

/// The samples of the greatest numbers.
static GREATEST: [&str; 3] = [
    "fleet_log_append_seconds_bucket{le=\"+Inf\"} 18446744073709551615",
    "fleet_log_append_seconds_sum 18446744073709.551615",
    "fleet_log_append_seconds_count 18446744073709551615",
];

/// The same, with one in the first bucket.
static GREATEST_AND_ONE: [&str; 16] = [
    "fleet_log_append_seconds_bucket{le=\"0.0005\"} 1",
    "fleet_log_append_seconds_bucket{le=\"0.001\"} 1",
    "fleet_log_append_seconds_bucket{le=\"0.002\"} 1",
    "fleet_log_append_seconds_bucket{le=\"0.005\"} 1",
    "fleet_log_append_seconds_bucket{le=\"0.01\"} 1",
    "fleet_log_append_seconds_bucket{le=\"0.02\"} 1",
    "fleet_log_append_seconds_bucket{le=\"0.05\"} 1",
    "fleet_log_append_seconds_bucket{le=\"0.1\"} 1",
    "fleet_log_append_seconds_bucket{le=\"0.2\"} 1",
    "fleet_log_append_seconds_bucket{le=\"0.5\"} 1",
    "fleet_log_append_seconds_bucket{le=\"1\"} 1",
    "fleet_log_append_seconds_bucket{le=\"2\"} 1",
    "fleet_log_append_seconds_bucket{le=\"5\"} 1",
    "fleet_log_append_seconds_bucket{le=\"+Inf\"} 18446744073709551615",
    "fleet_log_append_seconds_sum 18446744073709.551615",
    "fleet_log_append_seconds_count 18446744073709551615",
];

/// Tries: lw_metrics::AppendTimes::count, lw_metrics::metrics_text
#[test]
fn numbers_stay_at_the_greatest(rt: HostRuntime) {
    let mut io_counters = IoCounters::new();
    io_counters.log.appends.counts[13] = u64::MAX;
    io_counters.log.appends.microseconds = u64::MAX - 1;
    io_counters.log.appends.count(6_000_000);
    is_counted(&rt, rt.alloc(), io_counters, &GREATEST);
    io_counters.log.appends.count(0);
    is_counted(&rt, rt.alloc(), io_counters, &GREATEST_AND_ONE);
}

/// A response with a status, and its sample.
macro_rules! given {
    ($status:expr, $sample:expr) => {
        (&[], &[$status], &[$sample])
    };
}

/// Statuses and their samples (RFC 9110, section 15).
static STATUSES: [Course; 16] = [
    given!(200, "fleet_http_responses_total{status=\"200\"} 1"),
    given!(201, "fleet_http_responses_total{status=\"201\"} 1"),
    given!(204, "fleet_http_responses_total{status=\"204\"} 1"),
    given!(400, "fleet_http_responses_total{status=\"400\"} 1"),
    given!(401, "fleet_http_responses_total{status=\"401\"} 1"),
    given!(403, "fleet_http_responses_total{status=\"403\"} 1"),
    given!(404, "fleet_http_responses_total{status=\"404\"} 1"),
    given!(405, "fleet_http_responses_total{status=\"405\"} 1"),
    given!(410, "fleet_http_responses_total{status=\"410\"} 1"),
    given!(413, "fleet_http_responses_total{status=\"413\"} 1"),
    given!(414, "fleet_http_responses_total{status=\"414\"} 1"),
    given!(421, "fleet_http_responses_total{status=\"421\"} 1"),
    given!(431, "fleet_http_responses_total{status=\"431\"} 1"),
    given!(500, "fleet_http_responses_total{status=\"500\"} 1"),
    given!(501, "fleet_http_responses_total{status=\"501\"} 1"),
    given!(503, "fleet_http_responses_total{status=\"503\"} 1"),
];

/// Tries: lw_metrics::Responses::count, lw_metrics::metrics_text
#[test]
fn each_status_is_counted_by_itself(rt: HostRuntime) {
    count_all(&rt, rt.alloc(), &STATUSES);
}

/// Statuses that no server of this program gives.
static OTHERS: [Course; 1] = [(&[], &[0, 100, 202, 304, 502, 999], &[])];

/// Tries: lw_metrics::Responses::count
#[test]
fn other_statuses_are_not_counted(rt: HostRuntime) {
    count_all(&rt, rt.alloc(), &OTHERS);
}
