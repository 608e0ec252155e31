//! What is shown of a tally.

use lw_metrics::{IoCounters, Measures, RequestMeasures, Tally, metrics_text};
use lw_stamp::Moment;
use std::alloc::Global;
use std::process::Abort;

/// The measures of a server that was started at the moment 0, and of which only these are told.
pub(crate) fn measures_of(tally: Tally, io_counters: IoCounters) -> Measures {
    Measures {
        version: "0.1.0",
        started: Moment::START,
        node: None,
        tally,
        passed_over: 0,
        log_unavailable: false,
        log_bytes: 0,
        log_whole_bytes: 0,
        io_counters,
        duplicates: 0,
        blocks: 0,
        bodies: 0,
        requests: RequestMeasures::new(),
    }
}

/// The text of a server with these measures.
fn text_of(rt: &impl Abort, alloc: Global, measures: &Measures) -> String {
    metrics_text(alloc, measures).expect(rt, "memory")
}

/// Whether the line is of a number above 0, and not that of the version.
fn is_counted(line: &str) -> bool {
    !line.ends_with(" 0") && !line.ends_with(" 0.000000") && !line.starts_with("fleet_build_info")
}

/// Whether the line is a sample, and one that is counted where not all are wanted.
fn is_sample(line: &str, all: bool) -> bool {
    !line.starts_with('#') && (all || is_counted(line))
}

/// Fails where the samples are others than these: all of them, or those whose numbers are above 0, behind that of the
/// version.
pub(crate) fn has_samples(
    rt: &impl Abort,
    alloc: Global,
    measures: &Measures,
    all: bool,
    want: &[&str],
) {
    let text = text_of(rt, alloc, measures);
    let mut place = 0usize;
    for line in text.lines() {
        if is_sample(line, all) {
            assert_eq!(rt; Some(&line), want.get(place));
            place = place.saturating_add(1);
        }
    }
    assert_eq!(rt; place, want.len());
}

/// Fails where the samples whose numbers are above 0 are others than these, behind that of the version.
pub(crate) fn are_counted(
    rt: &impl Abort,
    alloc: Global,
    (tally, io_counters): (Tally, IoCounters),
    want: &[&str],
) {
    has_samples(rt, alloc, &measures_of(tally, io_counters), false, want);
}

/// Fails where the text of the measures is another than these lines, each with a line feed behind it.
pub(crate) fn has_lines(rt: &impl Abort, alloc: Global, measures: &Measures, want: &[&[&str]]) {
    let text = text_of(rt, alloc, measures);
    let mut lines = text.split('\n');
    for part in want {
        for line in *part {
            is_line(rt, lines.next(), Some(*line));
        }
    }
    is_line(rt, lines.next(), Some(""));
    is_line(rt, lines.next(), None);
}

fn is_line(rt: &impl Abort, line: Option<&str>, want: Option<&str>) {
    assert_eq!(rt; line, want);
}

/// Fails where this is no part of the text of the measures.
pub(crate) fn has_text(rt: &impl Abort, alloc: Global, measures: &Measures, want: &str) {
    let text = text_of(rt, alloc, measures);
    assert!(rt; text.contains(want), "{want}");
}
