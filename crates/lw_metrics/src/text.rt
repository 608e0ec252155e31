//! The text that Prometheus reads.

ghost use Rattle.std.specs.Prelude.{◌≡◌, ◌++◌, IfOk, OnOk, string_bytes};
ghost use Rattle.lw_metrics.specs.Exposition.{exposition};
ghost use Rattle.lw_metrics.specs.Families.{answered_families, datagram_families, failure_families, families_of};
ghost use Rattle.lw_metrics.specs.Families.{fault_families, transport_families, further_families, held_families};
ghost use Rattle.lw_metrics.specs.Families.{log_families, node_families, request_families, sent_families};
ghost use Rattle.lw_metrics.specs.Families.{start_families, log_counter_families};

use crate::family::{put_number, put_replies, put_responses, put_seconds, put_version};
use crate::histogram::put_histogram;
use crate::metric::Metric;
use crate::{IoCounters, LogCounters, Measures, NodeMeasures, RequestMeasures, Tally};
use lw_stamp::NoMemory;
use std::alloc::Global;

/// How many milliseconds a second has.
const SECOND: u64 = 1_000;

/// What is shown of a server, in the text format of Prometheus.
pub fn metrics_text(alloc: Global, measures: &Measures) -> Result<String, NoMemory>
    ensures { IfOk result (λ text. string_bytes text ≡ exposition (families_of measures.now)) }
{
    let mut text = String::new(alloc);
    put_start(&mut text, measures)?;
    put_node(&mut text, measures.node)?;
    put_datagrams(&mut text, alloc, &measures.tally)?;
    put_further(&mut text, &measures.tally)?;
    put_requests(&mut text, &measures.requests)?;
    put_failures(&mut text, measures)?;
    put_log_counters(&mut text, alloc, &measures.io_counters.log)?;
    put_log(&mut text, alloc, measures)?;
    put_transport(&mut text, alloc, measures)?;
    Ok(text)
}

fn put_start(text: &mut String, measures: &Measures) -> Result<(), NoMemory>
    ensures { OnOk result (string_bytes text.new ≡ string_bytes text.old ++ exposition (start_families measures.now)) }
{
    put_version(text, measures.version)?;
    put_number(text, Metric::StartTime, measures.started.ms() / SECOND)
}

fn put_node(text: &mut String, node: Option<NodeMeasures>) -> Result<(), NoMemory>
    ensures { OnOk result (string_bytes text.new ≡ string_bytes text.old ++ exposition (node_families node)) }
{
    let Some(node) = node else {
        return Ok(());
    };
    put_number(text, Metric::Registrations, node.registrations)?;
    put_number(text, Metric::StampClock, node.counter)?;
    put_number(text, Metric::Change, node.change)?;
    put_number(text, Metric::Number, u64::from(node.number))
}

fn put_datagrams(text: &mut String, alloc: Global, tally: &Tally) -> Result<(), NoMemory>
    ensures { OnOk result (string_bytes text.new ≡ string_bytes text.old ++ exposition (datagram_families tally.now)) }
{
    put_number(text, Metric::Rounds, tally.rounds)?;
    put_number(text, Metric::Datagrams, tally.datagrams)?;
    put_replies(text, alloc, &tally.replies)?;
    put_number(text, Metric::EmptyReplies, tally.empty_replies)?;
    put_number(text, Metric::Unanswered, tally.unanswered)
}

fn put_further(text: &mut String, tally: &Tally) -> Result<(), NoMemory>
    ensures { OnOk result (string_bytes text.new ≡ string_bytes text.old ++ exposition (further_families tally.now)) }
{
    put_number(text, Metric::Notifications, tally.notifications)?;
    put_number(text, Metric::Swept, tally.swept)?;
    put_number(text, Metric::NoMemory, tally.no_memory)
}

fn put_requests(text: &mut String, requests: &RequestMeasures) -> Result<(), NoMemory>
    ensures { OnOk result (string_bytes text.new ≡ string_bytes text.old ++ exposition (request_families requests.now)) }
{
    put_sent(text, requests)?;
    put_held(text, requests)?;
    Ok(())
}

fn put_sent(text: &mut String, requests: &RequestMeasures) -> Result<(), NoMemory>
    ensures { OnOk result (string_bytes text.new ≡ string_bytes text.old ++ exposition (sent_families requests.now)) }
{
    put_number(text, Metric::RequestsSent, requests.requests_sent)?;
    put_number(
        text,
        Metric::RequestsSentAgain,
        requests.requests_sent_again,
    )?;
    put_number(text, Metric::RequestsReset, requests.requests_reset)?;
    put_number(
        text,
        Metric::RequestsUnanswered,
        requests.requests_unanswered,
    )?;
    put_number(text, Metric::RequestsWaiting, requests.requests_waiting)
}

fn put_held(text: &mut String, requests: &RequestMeasures) -> Result<(), NoMemory>
    ensures { OnOk result (string_bytes text.new ≡ string_bytes text.old ++ exposition (held_families requests.now)) }
{
    put_number(
        text,
        Metric::NotificationsStale,
        requests.notifications_stale,
    )?;
    put_number(
        text,
        Metric::NotificationBlocks,
        requests.notification_blocks,
    )?;
    put_number(text, Metric::Fetches, requests.fetches)?;
    put_number(text, Metric::Unnumbered, requests.without_message_id)
}

fn put_failures(text: &mut String, measures: &Measures) -> Result<(), NoMemory>
    ensures { OnOk result (string_bytes text.new ≡ string_bytes text.old ++ exposition (failure_families measures.now)) }
{
    put_number(text, Metric::PassedOver, measures.passed_over)?;
    put_number(text, Metric::LogAway, u64::from(measures.log_unavailable))
}

fn put_log_counters(text: &mut String, alloc: Global, log: &LogCounters) -> Result<(), NoMemory>
    ensures { OnOk result (string_bytes text.new ≡ string_bytes text.old ++ exposition (log_counter_families log.now)) }
{
    put_histogram(text, alloc, &log.appends)?;
    put_number(text, Metric::EntriesWritten, log.entries_written)?;
    put_number(text, Metric::EntriesRead, log.entries_read)
}

fn put_log(text: &mut String, alloc: Global, measures: &Measures) -> Result<(), NoMemory>
    ensures { OnOk result (string_bytes text.new
        ≡ string_bytes text.old ++ exposition (log_families measures.now)) }
{
    put_number(text, Metric::LogBytes, measures.log_bytes)?;
    put_number(text, Metric::WholeBytes, measures.log_whole_bytes)?;
    put_number(text, Metric::Compactions, measures.io_counters.compactions)?;
    put_seconds(
        text,
        alloc,
        Metric::AwaySeconds,
        measures.io_counters.log_unavailable,
    )?;
    put_number(text, Metric::Refusals, measures.io_counters.refusals)?;
    put_seconds(
        text,
        alloc,
        Metric::ClockOffset,
        measures.io_counters.clock_offset,
    )
}

fn put_transport(text: &mut String, alloc: Global, measures: &Measures) -> Result<(), NoMemory>
    ensures { OnOk result (string_bytes text.new
        ≡ string_bytes text.old ++ exposition (transport_families measures.now)) }
{
    put_faults(text, &measures.io_counters)?;
    put_answered(text, alloc, measures)?;
    Ok(())
}

fn put_faults(text: &mut String, io_counters: &IoCounters) -> Result<(), NoMemory>
    ensures { OnOk result
        (string_bytes text.new ≡ string_bytes text.old ++ exposition (fault_families io_counters.now)) }
{
    put_number(text, Metric::ReceiveFaults, io_counters.receive_faults)?;
    put_number(text, Metric::SendFaults, io_counters.send_faults)?;
    put_number(text, Metric::Dropped, io_counters.dropped)?;
    put_number(text, Metric::SocketDrops, io_counters.drops)
}

fn put_answered(text: &mut String, alloc: Global, measures: &Measures) -> Result<(), NoMemory>
    ensures { OnOk result (string_bytes text.new
        ≡ string_bytes text.old ++ exposition (answered_families measures.now)) }
{
    put_number(text, Metric::Duplicates, measures.duplicates)?;
    put_number(text, Metric::Blocks, measures.blocks)?;
    put_number(text, Metric::Bodies, measures.bodies)?;
    put_responses(text, alloc, &measures.io_counters.responses)
}
