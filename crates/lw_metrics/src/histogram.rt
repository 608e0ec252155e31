//! The lines of a histogram.

ghost use Rattle.std.specs.Prelude.{◌≡◌, ◌++◌, [], ◌∷◌, flat_map, fold, map, OnOk, string_bytes};
ghost use Rattle.std.specs.List.{zip};
ghost use Rattle.lw_metrics.specs.IoCounters.{together as together_of};
ghost use Rattle.lw_metrics.specs.Exposition.{family_text, sample_text};
ghost use Rattle.lw_metrics.specs.Families.{bound_texts, bucket_sample, count_sample, histogram_family, histogram_samples, sum_sample, sums};

use crate::AppendTimes;
use crate::append_times::together;
use crate::family::{put_head, put_suffixed, seconds_text};
use crate::metric::Metric;
use lw_stamp::NoMemory;
use std::alloc::Global;
use std::fmt::Write;

/// How the bounds are written, in seconds, and what is above each.
const BOUND_TEXTS: [&str; 14] = [
    "0.0005", "0.001", "0.002", "0.005", "0.01", "0.02", "0.05", "0.1", "0.2", "0.5", "1", "2",
    "5", "+Inf",
];

/// Puts the family of the times of appends behind the text.
#[tactic(auto, unfolding(crate::specs::Exposition::family_text))]
pub(crate) fn put_histogram(
    text: &mut String,
    alloc: Global,
    times: &AppendTimes,
) -> Result<(), NoMemory>
    ensures { OnOk result (string_bytes text.new ≡ string_bytes text.old ++ family_text (histogram_family times.now)) }
{
    put_head(text, Metric::AppendSeconds)?;
    put_samples(text, alloc, times)
}

fn put_samples(text: &mut String, alloc: Global, times: &AppendTimes) -> Result<(), NoMemory>
    ensures { OnOk result (string_bytes text.new
        ≡ string_bytes text.old ++ flat_map (sample_text Metric.AppendSeconds) (histogram_samples times.now)) }
{
    put_buckets(text, &times.counts)?;
    put_sum(text, alloc, times.microseconds)?;
    put_count(text, total(&times.counts))
}

fn put_buckets(text: &mut String, counts: &[u64; 14]) -> Result<(), NoMemory>
    ensures { OnOk result (string_bytes text.new ≡ string_bytes text.old
        ++ flat_map (sample_text Metric.AppendSeconds) (map bucket_sample (zip bound_texts (sums 0 counts.now)))) }
{
    let mut within = 0u64;
    for (bound, count) in BOUND_TEXTS.iter().zip(counts) {
        within = together(within, *count);
        put_bucket(text, bound, within)?;
    }
    Ok(())
}

fn put_bucket(text: &mut String, bound: &str, within: u64) -> Result<(), NoMemory>
    ensures { OnOk result (string_bytes text.new
        ≡ string_bytes text.old ++ sample_text Metric.AppendSeconds (bucket_sample (bound.now, within))) }
{
    put_suffixed(text, Metric::AppendSeconds, "_bucket", "le", bound, within)
}

#[tactic(auto, unfolding(crate::specs::Exposition::sample_text))]
fn put_sum(text: &mut String, alloc: Global, microseconds: u64) -> Result<(), NoMemory>
    ensures { OnOk result (string_bytes text.new
        ≡ string_bytes text.old ++ sample_text Metric.AppendSeconds (sum_sample microseconds)) }
{
    let name = Metric::AppendSeconds.name();
    let seconds = seconds_text(alloc, microseconds)?;
    Ok(write!(text, "{name}_sum {seconds}\n")?)
}

#[tactic(auto, unfolding(crate::specs::Exposition::sample_text))]
fn put_count(text: &mut String, count: u64) -> Result<(), NoMemory>
    ensures { OnOk result (string_bytes text.new
        ≡ string_bytes text.old ++ sample_text Metric.AppendSeconds (count_sample count)) }
{
    let name = Metric::AppendSeconds.name();
    Ok(write!(text, "{name}_count {count}\n")?)
}

/// How many there are.
fn total(counts: &[u64]) -> u64
    ensures { result ≡ fold together_of 0 counts.now }
{
    let mut total = 0u64;
    for count in counts {
        total = together(total, *count);
    }
    total
}
