//! The whole text.

use crate::shown::{has_lines, has_samples, has_text, measures_of};
use lw_metrics::{
    AppendTimes, IoCounters, LogCounters, Measures, NodeMeasures, RequestMeasures, Responses, Tally,
};
use lw_stamp::Moment;
use std::process::Abort;

/// The lines of a server that was started on 14 November 2023, at 22:13:20 and 999 ms, up to those of its node.
static OF_ITS_START: [&str; 6] = [
    "# HELP fleet_build_info The version of the program.",
    "# TYPE fleet_build_info gauge",
    "fleet_build_info{version=\"0.1.0\"} 1",
    "# HELP fleet_start_time_seconds When the program was started, in seconds since 1970.",
    "# TYPE fleet_start_time_seconds gauge",
    "fleet_start_time_seconds 1700000000",
];

/// The lines of its node.
static OF_ITS_NODE: [&str; 12] = [
    "# HELP fleet_registrations Registrations that are known.",
    "# TYPE fleet_registrations gauge",
    "fleet_registrations 3",
    "# HELP fleet_stamp_clock The greatest counter of a stamp that is known.",
    "# TYPE fleet_stamp_clock gauge",
    "fleet_stamp_clock 281474976710655",
    "# HELP fleet_change The number of the last change.",
    "# TYPE fleet_change gauge",
    "fleet_change 12",
    "# HELP fleet_number The number of the node in its fleet.",
    "# TYPE fleet_number gauge",
    "fleet_number 65535",
];

/// The lines behind those of its node.
static OF_ALL_ELSE: [&str; 149] = [
    "# HELP fleet_rounds_total Rounds of calls.",
    "# TYPE fleet_rounds_total counter",
    "fleet_rounds_total 21",
    "# HELP fleet_datagrams_total Datagrams that were taken.",
    "# TYPE fleet_datagrams_total counter",
    "fleet_datagrams_total 22",
    "# HELP fleet_replies_total Replies, by code.",
    "# TYPE fleet_replies_total counter",
    "fleet_replies_total{code=\"2.01\"} 1",
    "fleet_replies_total{code=\"2.02\"} 2",
    "fleet_replies_total{code=\"2.04\"} 3",
    "fleet_replies_total{code=\"4.00\"} 4",
    "fleet_replies_total{code=\"4.02\"} 5",
    "fleet_replies_total{code=\"4.04\"} 6",
    "fleet_replies_total{code=\"4.05\"} 7",
    "fleet_replies_total{code=\"4.12\"} 8",
    "fleet_replies_total{code=\"4.13\"} 9",
    "fleet_replies_total{code=\"4.15\"} 10",
    "fleet_replies_total{code=\"5.03\"} 11",
    "fleet_replies_total{code=\"5.05\"} 12",
    "# HELP fleet_empty_replies_total Replies that are empty messages.",
    "# TYPE fleet_empty_replies_total counter",
    "fleet_empty_replies_total 23",
    "# HELP fleet_unanswered_total Datagrams that are owed no reply.",
    "# TYPE fleet_unanswered_total counter",
    "fleet_unanswered_total 24",
    "# HELP fleet_notifications_total Notifications of observations.",
    "# TYPE fleet_notifications_total counter",
    "fleet_notifications_total 25",
    "# HELP fleet_swept_total Registrations that expired and were ended.",
    "# TYPE fleet_swept_total counter",
    "fleet_swept_total 26",
    "# HELP fleet_no_memory_total Calls that failed for want of memory.",
    "# TYPE fleet_no_memory_total counter",
    "fleet_no_memory_total 27",
    "# HELP fleet_requests_sent_total Requests that were sent to devices, each counted once.",
    "# TYPE fleet_requests_sent_total counter",
    "fleet_requests_sent_total 61",
    "# HELP fleet_requests_sent_again_total Requests that were sent to devices again.",
    "# TYPE fleet_requests_sent_again_total counter",
    "fleet_requests_sent_again_total 62",
    "# HELP fleet_requests_reset_total Requests that devices answered with a Reset.",
    "# TYPE fleet_requests_reset_total counter",
    "fleet_requests_reset_total 63",
    "# HELP fleet_requests_unanswered_total Requests that devices did not answer in time.",
    "# TYPE fleet_requests_unanswered_total counter",
    "fleet_requests_unanswered_total 64",
    "# HELP fleet_requests_waiting Requests that wait for an acknowledgement.",
    "# TYPE fleet_requests_waiting gauge",
    "fleet_requests_waiting 65",
    "# HELP fleet_notifications_stale_total Notifications that were older than one before, and were not told.",
    "# TYPE fleet_notifications_stale_total counter",
    "fleet_notifications_stale_total 66",
    "# HELP fleet_notification_blocks_total Notifications that were blocks of bodies.",
    "# TYPE fleet_notification_blocks_total counter",
    "fleet_notification_blocks_total 67",
    "# HELP fleet_notification_fetches Notifications whose rest is being fetched.",
    "# TYPE fleet_notification_fetches gauge",
    "fleet_notification_fetches 68",
    "# HELP fleet_replies_unnumbered_total Replies that were not sent since no message ID was free.",
    "# TYPE fleet_replies_unnumbered_total counter",
    "fleet_replies_unnumbered_total 69",
    "# HELP fleet_passed_over_total Rounds that failed for want of memory.",
    "# TYPE fleet_passed_over_total counter",
    "fleet_passed_over_total 28",
    "# HELP fleet_log_away Whether the log is away: 1, or 0.",
    "# TYPE fleet_log_away gauge",
    "fleet_log_away 1",
    "# HELP fleet_log_append_seconds How long appends to the log took.",
    "# TYPE fleet_log_append_seconds histogram",
    "fleet_log_append_seconds_bucket{le=\"0.0005\"} 1",
    "fleet_log_append_seconds_bucket{le=\"0.001\"} 1",
    "fleet_log_append_seconds_bucket{le=\"0.002\"} 3",
    "fleet_log_append_seconds_bucket{le=\"0.005\"} 3",
    "fleet_log_append_seconds_bucket{le=\"0.01\"} 3",
    "fleet_log_append_seconds_bucket{le=\"0.02\"} 3",
    "fleet_log_append_seconds_bucket{le=\"0.05\"} 3",
    "fleet_log_append_seconds_bucket{le=\"0.1\"} 3",
    "fleet_log_append_seconds_bucket{le=\"0.2\"} 6",
    "fleet_log_append_seconds_bucket{le=\"0.5\"} 6",
    "fleet_log_append_seconds_bucket{le=\"1\"} 6",
    "fleet_log_append_seconds_bucket{le=\"2\"} 6",
    "fleet_log_append_seconds_bucket{le=\"5\"} 6",
    "fleet_log_append_seconds_bucket{le=\"+Inf\"} 10",
    "fleet_log_append_seconds_sum 61.000123",
    "fleet_log_append_seconds_count 10",
    "# HELP fleet_log_entries_written_total Entries that were appended to the log.",
    "# TYPE fleet_log_entries_written_total counter",
    "fleet_log_entries_written_total 31",
    "# HELP fleet_log_entries_read_total Entries that were read from the log.",
    "# TYPE fleet_log_entries_read_total counter",
    "fleet_log_entries_read_total 32",
    "# HELP fleet_log_bytes Bytes of the last whole entry of the log, and of the entries behind it.",
    "# TYPE fleet_log_bytes gauge",
    "fleet_log_bytes 33",
    "# HELP fleet_log_whole_bytes Bytes of the last whole entry of the log.",
    "# TYPE fleet_log_whole_bytes gauge",
    "fleet_log_whole_bytes 34",
    "# HELP fleet_log_compactions_total Compactions of the log.",
    "# TYPE fleet_log_compactions_total counter",
    "fleet_log_compactions_total 35",
    "# HELP fleet_log_away_seconds_total Seconds for which the log was away.",
    "# TYPE fleet_log_away_seconds_total counter",
    "fleet_log_away_seconds_total 18446744073709.551615",
    "# HELP fleet_log_refused_total Turns and compactions that the log refused.",
    "# TYPE fleet_log_refused_total counter",
    "fleet_log_refused_total 75",
    "# HELP fleet_clock_offset_seconds How far the clock of the host is from the one that lifetimes go by.",
    "# TYPE fleet_clock_offset_seconds gauge",
    "fleet_clock_offset_seconds 8.000250",
    "# HELP fleet_receive_faults_total Faults in waiting for datagrams.",
    "# TYPE fleet_receive_faults_total counter",
    "fleet_receive_faults_total 36",
    "# HELP fleet_send_faults_total Replies, and requests to devices, that could not be sent.",
    "# TYPE fleet_send_faults_total counter",
    "fleet_send_faults_total 37",
    "# HELP fleet_dropped_total Datagrams that were passed over since the log was away, or the server had stood still.",
    "# TYPE fleet_dropped_total counter",
    "fleet_dropped_total 38",
    "# HELP fleet_socket_drops_total Datagrams that the system dropped since the socket's buffer was full.",
    "# TYPE fleet_socket_drops_total counter",
    "fleet_socket_drops_total 74",
    "# HELP fleet_duplicates_total Datagrams that came again and got the same reply.",
    "# TYPE fleet_duplicates_total counter",
    "fleet_duplicates_total 39",
    "# HELP fleet_blocks_total Datagrams that were blocks of bodies.",
    "# TYPE fleet_blocks_total counter",
    "fleet_blocks_total 40",
    "# HELP fleet_bodies Bodies whose blocks have not all come.",
    "# TYPE fleet_bodies gauge",
    "fleet_bodies 54",
    "# HELP fleet_http_responses_total Responses over HTTP, by status.",
    "# TYPE fleet_http_responses_total counter",
    "fleet_http_responses_total{status=\"200\"} 41",
    "fleet_http_responses_total{status=\"201\"} 71",
    "fleet_http_responses_total{status=\"204\"} 72",
    "fleet_http_responses_total{status=\"400\"} 42",
    "fleet_http_responses_total{status=\"401\"} 43",
    "fleet_http_responses_total{status=\"403\"} 73",
    "fleet_http_responses_total{status=\"404\"} 44",
    "fleet_http_responses_total{status=\"405\"} 45",
    "fleet_http_responses_total{status=\"410\"} 46",
    "fleet_http_responses_total{status=\"413\"} 47",
    "fleet_http_responses_total{status=\"414\"} 48",
    "fleet_http_responses_total{status=\"421\"} 49",
    "fleet_http_responses_total{status=\"431\"} 50",
    "fleet_http_responses_total{status=\"500\"} 51",
    "fleet_http_responses_total{status=\"501\"} 52",
    "fleet_http_responses_total{status=\"503\"} 53",
];

fn tally() -> Tally {
    Tally {
        rounds: 21,
        datagrams: 22,
        replies: [1, 2, 3, 4, 5, 6, 7, 8, 9, 10, 11, 12],
        empty_replies: 23,
        unanswered: 24,
        notifications: 25,
        swept: 26,
        no_memory: 27,
    }
}

fn io_counters() -> IoCounters {
    IoCounters {
        log: LogCounters {
            appends: AppendTimes {
                counts: [1, 0, 2, 0, 0, 0, 0, 0, 3, 0, 0, 0, 0, 4],
                microseconds: 61_000_123,
            },
            entries_written: 31,
            entries_read: 32,
        },
        compactions: 35,
        log_unavailable: u64::MAX,
        refusals: 75,
        clock_offset: 8_000_250,
        receive_faults: 36,
        send_faults: 37,
        dropped: 38,
        drops: 74,
        responses: Responses {
            counts: [
                41, 71, 72, 42, 43, 73, 44, 45, 46, 47, 48, 49, 50, 51, 52, 53,
            ],
        },
    }
}

fn requests() -> RequestMeasures {
    RequestMeasures {
        requests_sent: 61,
        requests_sent_again: 62,
        requests_reset: 63,
        requests_unanswered: 64,
        requests_waiting: 65,
        notifications_stale: 66,
        notification_blocks: 67,
        fetches: 68,
        without_message_id: 69,
    }
}

fn measures(rt: &impl Abort, node: Option<NodeMeasures>) -> Measures {
    Measures {
        version: "0.1.0",
        started: Moment::new(1_700_000_000_999).expect(rt, "a moment"),
        node,
        tally: tally(),
        passed_over: 28,
        log_unavailable: true,
        log_bytes: 33,
        log_whole_bytes: 34,
        io_counters: io_counters(),
        duplicates: 39,
        blocks: 40,
        bodies: 54,
        requests: requests(),
    }
}

/// Tries: lw_metrics::metrics_text
#[test]
fn all_of_a_server_is_shown(rt: HostRuntime) {
    let node = NodeMeasures {
        registrations: 3,
        counter: (1 << 48) - 1,
        change: 12,
        number: 65_535,
    };
    let measures = measures(&rt, Some(node));
    let want = [
        OF_ITS_START.as_slice(),
        OF_ITS_NODE.as_slice(),
        OF_ALL_ELSE.as_slice(),
    ];
    has_lines(&rt, rt.alloc(), &measures, &want);
}

/// Tries: lw_metrics::metrics_text
#[test]
fn nothing_is_told_of_a_node_that_is_away(rt: HostRuntime) {
    let measures = measures(&rt, None);
    let want = [OF_ITS_START.as_slice(), OF_ALL_ELSE.as_slice()];
    has_lines(&rt, rt.alloc(), &measures, &want);
}

/// The samples of a new tally.
static NOTHING_YET: [&str; 79] = [
    "fleet_build_info{version=\"0.1.0\"} 1",
    "fleet_start_time_seconds 0",
    "fleet_rounds_total 0",
    "fleet_datagrams_total 0",
    "fleet_replies_total{code=\"2.01\"} 0",
    "fleet_replies_total{code=\"2.02\"} 0",
    "fleet_replies_total{code=\"2.04\"} 0",
    "fleet_replies_total{code=\"4.00\"} 0",
    "fleet_replies_total{code=\"4.02\"} 0",
    "fleet_replies_total{code=\"4.04\"} 0",
    "fleet_replies_total{code=\"4.05\"} 0",
    "fleet_replies_total{code=\"4.12\"} 0",
    "fleet_replies_total{code=\"4.13\"} 0",
    "fleet_replies_total{code=\"4.15\"} 0",
    "fleet_replies_total{code=\"5.03\"} 0",
    "fleet_replies_total{code=\"5.05\"} 0",
    "fleet_empty_replies_total 0",
    "fleet_unanswered_total 0",
    "fleet_notifications_total 0",
    "fleet_swept_total 0",
    "fleet_no_memory_total 0",
    "fleet_requests_sent_total 0",
    "fleet_requests_sent_again_total 0",
    "fleet_requests_reset_total 0",
    "fleet_requests_unanswered_total 0",
    "fleet_requests_waiting 0",
    "fleet_notifications_stale_total 0",
    "fleet_notification_blocks_total 0",
    "fleet_notification_fetches 0",
    "fleet_replies_unnumbered_total 0",
    "fleet_passed_over_total 0",
    "fleet_log_away 0",
    "fleet_log_append_seconds_bucket{le=\"0.0005\"} 0",
    "fleet_log_append_seconds_bucket{le=\"0.001\"} 0",
    "fleet_log_append_seconds_bucket{le=\"0.002\"} 0",
    "fleet_log_append_seconds_bucket{le=\"0.005\"} 0",
    "fleet_log_append_seconds_bucket{le=\"0.01\"} 0",
    "fleet_log_append_seconds_bucket{le=\"0.02\"} 0",
    "fleet_log_append_seconds_bucket{le=\"0.05\"} 0",
    "fleet_log_append_seconds_bucket{le=\"0.1\"} 0",
    "fleet_log_append_seconds_bucket{le=\"0.2\"} 0",
    "fleet_log_append_seconds_bucket{le=\"0.5\"} 0",
    "fleet_log_append_seconds_bucket{le=\"1\"} 0",
    "fleet_log_append_seconds_bucket{le=\"2\"} 0",
    "fleet_log_append_seconds_bucket{le=\"5\"} 0",
    "fleet_log_append_seconds_bucket{le=\"+Inf\"} 0",
    "fleet_log_append_seconds_sum 0.000000",
    "fleet_log_append_seconds_count 0",
    "fleet_log_entries_written_total 0",
    "fleet_log_entries_read_total 0",
    "fleet_log_bytes 0",
    "fleet_log_whole_bytes 0",
    "fleet_log_compactions_total 0",
    "fleet_log_away_seconds_total 0.000000",
    "fleet_log_refused_total 0",
    "fleet_clock_offset_seconds 0.000000",
    "fleet_receive_faults_total 0",
    "fleet_send_faults_total 0",
    "fleet_dropped_total 0",
    "fleet_socket_drops_total 0",
    "fleet_duplicates_total 0",
    "fleet_blocks_total 0",
    "fleet_bodies 0",
    "fleet_http_responses_total{status=\"200\"} 0",
    "fleet_http_responses_total{status=\"201\"} 0",
    "fleet_http_responses_total{status=\"204\"} 0",
    "fleet_http_responses_total{status=\"400\"} 0",
    "fleet_http_responses_total{status=\"401\"} 0",
    "fleet_http_responses_total{status=\"403\"} 0",
    "fleet_http_responses_total{status=\"404\"} 0",
    "fleet_http_responses_total{status=\"405\"} 0",
    "fleet_http_responses_total{status=\"410\"} 0",
    "fleet_http_responses_total{status=\"413\"} 0",
    "fleet_http_responses_total{status=\"414\"} 0",
    "fleet_http_responses_total{status=\"421\"} 0",
    "fleet_http_responses_total{status=\"431\"} 0",
    "fleet_http_responses_total{status=\"500\"} 0",
    "fleet_http_responses_total{status=\"501\"} 0",
    "fleet_http_responses_total{status=\"503\"} 0",
];

/// Tries: lw_metrics::Tally::new, lw_metrics::RequestMeasures::new, lw_metrics::metrics_text
#[test]
fn each_sample_is_there_from_the_start(rt: HostRuntime) {
    let measures = measures_of(Tally::new(), IoCounters::new());
    has_samples(&rt, rt.alloc(), &measures, true, &NOTHING_YET);
}

/// A version, and its sample.
static ESCAPED: (&str, &str) = (
    "1 \"é\" \\ n\n",
    "fleet_build_info{version=\"1 \\\"é\\\" \\\\ n\\n\"} 1\n",
);

/// Tries: lw_metrics::metrics_text
#[test]
fn the_version_is_escaped(rt: HostRuntime) {
    let (version, want) = ESCAPED;
    let mut measures = measures_of(Tally::new(), IoCounters::new());
    measures.version = version;
    has_text(&rt, rt.alloc(), &measures, want);
}
