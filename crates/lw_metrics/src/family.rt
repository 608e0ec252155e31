//! The lines of a family: two that tell of it, and one for each sample.

ghost use Rattle.std.specs.Prelude.{◌≡◌, ◌++◌, [], ◌∷◌, codes, flat_map, map, IfOk, OnOk, string_bytes};
ghost use Rattle.std.specs.Fmt.{decimal};
ghost use Rattle.std.specs.List.{zip};
ghost use Rattle.lw_metrics.specs.IoCounters.{statuses};
ghost use Rattle.lw_metrics.specs.Exposition.{family_text, help_text, type_text, sample_text};
ghost use Rattle.lw_metrics.specs.Families.{labelled, of_number, of_seconds, plain, reply_family, reply_sample, response_family, response_sample, seconds_text as seconds_in, suffixed, version_family};
ghost use Rattle.lw_metrics.specs.ReplyCodes.{code_text, reply_codes};

use crate::escaping::put_value;
use crate::metric::Metric;
use crate::{REPLY_CODES, Responses, STATUSES};
use lw_stamp::NoMemory;
use std::alloc::Global;
use std::fmt::Write;

/// Puts a family of one sample behind the text.
#[tactic(auto, unfolding(crate::specs::Exposition::family_text))]
pub(crate) fn put_number(text: &mut String, metric: Metric, number: u64) -> Result<(), NoMemory>
    ensures { OnOk result (string_bytes text.new ≡ string_bytes text.old ++ family_text (of_number metric number)) }
{
    put_head(text, metric)?;
    put_sample(text, metric, number)
}

/// Puts a family of one sample behind the text, which is told in seconds.
#[tactic(auto, unfolding(crate::specs::Exposition::family_text))]
pub(crate) fn put_seconds(
    text: &mut String,
    alloc: Global,
    metric: Metric,
    microseconds: u64,
) -> Result<(), NoMemory>
    ensures { OnOk result (string_bytes text.new ≡ string_bytes text.old ++ family_text (of_seconds metric microseconds)) }
{
    put_head(text, metric)?;
    let seconds = seconds_text(alloc, microseconds)?;
    put_plain(text, metric, &seconds)
}

/// Puts the family of the version behind the text.
#[tactic(auto, unfolding(crate::specs::Exposition::family_text))]
pub(crate) fn put_version(text: &mut String, version: &str) -> Result<(), NoMemory>
    ensures { OnOk result (string_bytes text.new ≡ string_bytes text.old ++ family_text (version_family version.now)) }
{
    put_head(text, Metric::BuildInfo)?;
    put_labelled(text, Metric::BuildInfo, "version", version, 1)
}

/// Puts the family of the replies, with a sample for each code, behind the text.
#[tactic(auto, unfolding(crate::specs::Exposition::family_text))]
pub(crate) fn put_replies(
    text: &mut String,
    alloc: Global,
    numbers: &[u64; 12],
) -> Result<(), NoMemory>
    ensures { OnOk result (string_bytes text.new ≡ string_bytes text.old ++ family_text (reply_family numbers.now)) }
{
    put_head(text, Metric::Replies)?;
    put_reply_samples(text, alloc, numbers)
}

fn put_reply_samples(text: &mut String, alloc: Global, numbers: &[u64; 12]) -> Result<(), NoMemory>
    ensures { OnOk result (string_bytes text.new ≡ string_bytes text.old
        ++ flat_map (sample_text Metric.Replies) (map reply_sample (zip reply_codes numbers.now))) }
{
    for (code, number) in REPLY_CODES.iter().zip(numbers) {
        let code = code_text(alloc, *code)?;
        put_labelled(text, Metric::Replies, "code", &code, *number)?;
    }
    Ok(())
}

/// Puts the family of the responses, with a sample for each status, behind the text.
#[tactic(auto, unfolding(crate::specs::Exposition::family_text))]
pub(crate) fn put_responses(
    text: &mut String,
    alloc: Global,
    responses: &Responses,
) -> Result<(), NoMemory>
    ensures { OnOk result (string_bytes text.new
        ≡ string_bytes text.old ++ family_text (response_family responses.now)) }
{
    put_head(text, Metric::Responses)?;
    put_response_samples(text, alloc, &responses.counts)
}

fn put_response_samples(
    text: &mut String,
    alloc: Global,
    numbers: &[u64; 16],
) -> Result<(), NoMemory>
    ensures { OnOk result (string_bytes text.new ≡ string_bytes text.old
        ++ flat_map (sample_text Metric.Responses) (map response_sample (zip statuses numbers.now))) }
{
    for (status, number) in STATUSES.iter().zip(numbers) {
        let status = format!(in alloc; "{status}")?;
        put_labelled(text, Metric::Responses, "status", &status, *number)?;
    }
    Ok(())
}

pub(crate) fn put_head(text: &mut String, metric: Metric) -> Result<(), NoMemory>
    ensures { OnOk result (string_bytes text.new ≡ (string_bytes text.old ++ help_text metric) ++ type_text metric) }
{
    put_help(text, metric)?;
    put_type(text, metric)
}

#[tactic(auto, unfolding(crate::specs::Exposition::help_text))]
fn put_help(text: &mut String, metric: Metric) -> Result<(), NoMemory>
    ensures { OnOk result (string_bytes text.new ≡ string_bytes text.old ++ help_text metric) }
{
    let name = metric.name();
    let help = metric.help();
    Ok(write!(text, "# HELP {name} {help}\n")?)
}

#[tactic(auto, unfolding(crate::specs::Exposition::type_text))]
fn put_type(text: &mut String, metric: Metric) -> Result<(), NoMemory>
    ensures { OnOk result (string_bytes text.new ≡ string_bytes text.old ++ type_text metric) }
{
    let name = metric.name();
    let kind = metric.kind();
    Ok(write!(text, "# TYPE {name} {kind}\n")?)
}

#[tactic(auto, unfolding(crate::specs::Exposition::sample_text))]
fn put_sample(text: &mut String, metric: Metric, number: u64) -> Result<(), NoMemory>
    ensures { OnOk result (string_bytes text.new
        ≡ string_bytes text.old ++ sample_text metric (plain (decimal number))) }
{
    let name = metric.name();
    Ok(write!(text, "{name} {number}\n")?)
}

#[tactic(auto, unfolding(crate::specs::Exposition::sample_text))]
fn put_plain(text: &mut String, metric: Metric, value: &str) -> Result<(), NoMemory>
    ensures { OnOk result (string_bytes text.new ≡ string_bytes text.old ++ sample_text metric (plain value.now)) }
{
    let name = metric.name();
    Ok(write!(text, "{name} {value}\n")?)
}

fn put_labelled(
    text: &mut String,
    metric: Metric,
    label: &str,
    value: &str,
    number: u64,
) -> Result<(), NoMemory>
    ensures { OnOk result (string_bytes text.new
        ≡ string_bytes text.old ++ sample_text metric (labelled label.now value.now number)) }
{
    put_suffixed(text, metric, "", label, value, number)
}

/// Puts a sample behind the text, whose name is that of the metric and a suffix.
#[tactic(auto, unfolding(crate::specs::Exposition::sample_text))]
pub(crate) fn put_suffixed(
    text: &mut String,
    metric: Metric,
    suffix: &str,
    label: &str,
    value: &str,
    number: u64,
) -> Result<(), NoMemory>
    ensures { OnOk result (string_bytes text.new
        ≡ string_bytes text.old ++ sample_text metric (suffixed suffix.now label.now value.now number)) }
{
    let name = metric.name();
    write!(text, "{name}{suffix}{{{label}=\"")?;
    put_value(text, value)?;
    Ok(write!(text, "\"}} {number}\n")?)
}

/// How a code is written: class, a dot, and two digits of the detail.
#[tactic(auto, unfolding(crate::specs::ReplyCodes::code_text))]
fn code_text(alloc: Global, code: u8) -> Result<String, NoMemory>
    ensures { IfOk result (λ text. string_bytes text ≡ code_text code) }
{
    let class = code / 32;
    let detail = code % 32;
    let tens = detail / 10;
    let ones = detail % 10;
    Ok(format!(in alloc; "{class}.{tens}{ones}")?)
}

/// Microseconds as seconds, with six digits behind the point.
#[tactic(auto, unfolding(crate::specs::Families::seconds_text))]
pub(crate) fn seconds_text(alloc: Global, microseconds: u64) -> Result<String, NoMemory>
    ensures { IfOk result (λ text. string_bytes text ≡ seconds_in microseconds) }
{
    let seconds = microseconds / 1_000_000;
    let tenths = microseconds / 100_000 % 10;
    let hundredths = microseconds / 10_000 % 10;
    let milliseconds = microseconds / 1_000 % 10;
    let ten_thousandths = microseconds / 100 % 10;
    let hundred_thousandths = microseconds / 10 % 10;
    let ones = microseconds % 10;
    Ok(format!(in alloc;
        "{seconds}.{tenths}{hundredths}{milliseconds}{ten_thousandths}{hundred_thousandths}{ones}"
    )?)
}
