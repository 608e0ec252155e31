//! What is given for the options of `run` that are about Redis.

ghost use Rattle.std.specs.Prelude.{◌≡◌, ℕ, List, Some, codes, false, IfOk, IfSome, IfNone, OnErr, OnOk};
ghost use Rattle.clap.specs.declared.builder.command.Command.TheViews.{out-Command as fields_of};
ghost use Rattle.clap.specs.Words.{app_of, first_of, subcommand_rows_of};
ghost use Rattle.lw_fleet.specs.CommandLine.{option_rows, with_redis_options, IsGivenToRedis, IsHost, IsHostAndPort, IsHostText, IsWithoutRedis};
ghost use Rattle.lw_fleet.specs.declared.redis_options.RedisOptions.{RedisOptions as Shared};

use crate::command::{flag, given_text, has_flag, number_within, option, small_number, text_of};
use crate::run_options::{BadRunOption, text_in};
use clap::{ArgMatches, Command};
use std::alloc::{AllocError, Global};

/// How many seconds the clocks of the servers may differ at most.
const MOST_SKEW: u64 = 3600;

/// The stream of Redis through which servers share a fleet.
#[derive(Clone, Copy, Debug, PartialEq, Eq)]
pub struct RedisOptions<'a> {
    /// The name or the address of the host of Redis, without brackets.
    pub host: &'a str,
    /// Its TCP port: 1 to 65535.
    pub port: u16,
    /// The path of the file with the user and the password, on a line each.
    pub login_file: Option<&'a str>,
    /// The key of the stream.
    pub stream: &'a str,
    /// How many seconds the clocks of the servers may differ: 0 to 3600.
    pub skew: u32,
    /// Whether the server founds the fleet, which the stream does not have yet.
    pub found: bool,
}

/// The command with the options that are about Redis.
pub(crate) fn add_redis_options<'a>(
    alloc: Global,
    command: Command<'a>,
) -> Result<Command<'a>, AllocError>
    ensures app { IfOk result (λ added. app_of added ≡ with_redis_options (app_of command.entry)) }
    ensures local { IfOk result (λ added. (fields_of command.entry).has_globals ≡ false
        → (fields_of added).has_globals ≡ false) }
{
    command
        .arg(option(
            alloc,
            "redis",
            "HOST:PORT",
            "Redis server through which several servers share one fleet",
        ))?
        .arg(option(
            alloc,
            "redis-login",
            "FILE",
            "File with the user and the password for Redis, on a line each",
        ))?
        .arg(option(
            alloc,
            "stream",
            "KEY",
            "Key of the stream in Redis [default: fleet]",
        ))?
        .arg(option(
            alloc,
            "skew",
            "S",
            "Seconds that the clocks of the servers may differ, 0 to 3600 [default: 10]",
        ))?
        .arg(flag(
            alloc,
            "found",
            "Founds the fleet: once, for the first server over a stream that has none",
        ))
}

/// The stream in the Redis whose host and port are the text that is given for `--redis`.
pub(crate) fn redis_at<'a>(
    matches: &ArgMatches<'a>,
    text: &'a str,
) -> Result<RedisOptions<'a>, BadRunOption>
    requires { first_of (codes "redis") (option_rows (subcommand_rows_of matches.now)) ≡ Some text.now }
    ensures given { IfOk result (IsGivenToRedis (option_rows (subcommand_rows_of matches.now))) }
    ensures none { OnErr result ((redis : Shared)
        → ¬ IsGivenToRedis (option_rows (subcommand_rows_of matches.now)) redis) }
{
    let Some((host, port)) = host_and_port(text) else {
        return Err(BadRunOption::Redis);
    };
    let login_file = text_in(matches, "redis-login", BadRunOption::LoginFile)?;
    let stream = text_of(matches, "stream", "fleet");
    if stream.is_empty() {
        return Err(BadRunOption::Stream);
    }
    let Some(skew) = number_within(text_of(matches, "skew", "10"), 0, MOST_SKEW) else {
        return Err(BadRunOption::Skew);
    };
    Ok(RedisOptions {
        host,
        port,
        login_file,
        stream,
        skew: skew as u32,
        found: has_flag(matches, "found"),
    })
}

/// Refuses the options that go with `--redis`, which is not given.
pub(crate) fn refuse_without_redis(matches: &ArgMatches<'_>) -> Result<(), BadRunOption>
    ensures none { OnOk result (IsWithoutRedis (option_rows (subcommand_rows_of matches.now))) }
    ensures some { OnErr result (¬ IsWithoutRedis (option_rows (subcommand_rows_of matches.now))) }
{
    match (
        given_text(matches, "redis-login"),
        given_text(matches, "stream"),
        given_text(matches, "skew"),
        has_flag(matches, "found"),
    ) {
        (None, None, None, false) => Ok(()),
        (Some(_), _, _, _) => Err(BadRunOption::LoginFileWithoutRedis),
        (None, Some(_), _, _) => Err(BadRunOption::StreamWithoutRedis),
        (None, None, Some(_), _) => Err(BadRunOption::SkewWithoutRedis),
        (None, None, None, true) => Err(BadRunOption::FoundWithoutRedis),
    }
}

/// The host and the port that the text writes.
fn host_and_port(text: &str) -> Option<(&str, u16)>
    ensures some { IfSome result (λ x. IsHostAndPort text.now x.0.now x.1) }
    ensures none { IfNone result ((host : List ℕ) (port : ℕ) → ¬ IsHostAndPort text.now host port) }
{
    let (front, digits) = text.rsplit_once(':')?;
    let host = host_in(front)?;
    let port = small_number(digits)?;
    if port == 0 {
        return None;
    }
    Some((host, port))
}

/// The host that the text writes, which stands before the port.
fn host_in(text: &str) -> Option<&str>
    ensures some { IfSome result (λ host. IsHostText text.now host.now) }
    ensures none { IfNone result ((host : List ℕ) → ¬ IsHostText text.now host) }
{
    match text.strip_prefix('[') {
        Some(rest) => host_alone(rest.strip_suffix(']')?),
        None if text.contains(':') => None,
        None => host_alone(text),
    }
}

/// The text, where it is a host.
fn host_alone(text: &str) -> Option<&str>
    ensures some { IfSome result (λ host. (host.now ≡ text.now) × IsHost text.now) }
    ensures none { IfNone result (¬ IsHost text.now) }
{
    if text.is_empty() || text.contains('[') || text.contains(']') {
        return None;
    }
    Some(text)
}
