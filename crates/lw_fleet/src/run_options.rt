//! The command `run` and what is given for its options.

ghost use Rattle.std.specs.Prelude.{◌≡◌, ◌≢◌, [], Some, false, IfOk, IfSome, IfNone, OnErr};
ghost use Rattle.clap.specs.Words.{app_of, first_of, subcommand_rows_of};
ghost use Rattle.clap.specs.declared.builder.command.Command.TheViews.{out-Command as fields_of};
ghost use Rattle.std.specs.Net.Grammar.{IsIpText};
ghost use Rattle.std.specs.declared.net.ip_addr.IpAddr.{IpAddr as Addresses};
ghost use Rattle.lw_fleet.specs.CommandLine.{level_text, option_rows, run_app, udp_app, IsGivenToRun, IsKept, IsTextIfGiven};
ghost use Rattle.lw_fleet.specs.declared.run_options.Keeps.{Keeps as Kept};
ghost use Rattle.lw_fleet.specs.declared.run_options.LogLevel.{LogLevel as Levels};
ghost use Rattle.lw_fleet.specs.declared.run_options.RunOptions.{RunOptions as RunningOptions};

use crate::command::{BAD_PORT, flag, given_text, has_flag, option, small_number, text_of};
use crate::http_options::{HttpOptions, add_http_options, http_in};
use crate::redis_options::{RedisOptions, add_redis_options, redis_at, refuse_without_redis};
use clap::{ArgMatches, Command};
use std::alloc::{AllocError, Global};
use std::net::IpAddr;

/// The options of `fleet run`.
#[derive(Clone, Copy, Debug, PartialEq, Eq)]
pub struct RunOptions<'a> {
    /// The IP address of the UDP socket.
    pub bind: IpAddr,
    /// Its UDP port.
    pub port: u16,
    /// What is logged.
    pub level: LogLevel,
    /// Where what is registered is kept.
    pub keeps: Keeps<'a>,
    /// What is served over HTTP, if anything is.
    pub http: Option<HttpOptions<'a>>,
}

/// Where what is registered is kept.
#[derive(Clone, Copy, Debug, PartialEq, Eq)]
pub enum Keeps<'a> {
    /// Nowhere: a restart begins empty.
    Nothing,
    /// In the folder with this path.
    Folder(&'a str),
    /// In a stream of Redis, through which several servers share one fleet.
    Redis(RedisOptions<'a>),
}

/// The least severe lines that are logged.
#[derive(Clone, Copy, Debug, PartialEq, Eq)]
pub enum LogLevel {
    Off,
    Error,
    Warn,
    Info,
    Debug,
}

/// An option of `run` with a text that it does not take, or beside one that it does not go with.
#[derive(Clone, Copy)]
pub(crate) enum BadRunOption {
    Bind,
    Port,
    Level,
    KeptTwice,
    Folder,
    Redis,
    LoginFileWithoutRedis,
    StreamWithoutRedis,
    SkewWithoutRedis,
    FoundWithoutRedis,
    LoginFile,
    Stream,
    Skew,
    Http,
    TokenFileWithoutHttp,
    HostWithoutHttp,
    CommandsWithoutHttp,
    PageWithoutHttp,
    TokenFile,
    Host,
    Page,
    NoTokenFile,
}

impl BadRunOption {
    pub(crate) fn message(self) -> &'static str {
        match self {
            BadRunOption::Bind => "'--bind <IP>' takes an IPv4 or IPv6 address, without a scope",
            BadRunOption::Port => BAD_PORT,
            BadRunOption::Level => "'--log <LEVEL>' takes off, error, warn, info or debug",
            BadRunOption::KeptTwice => {
                "only one of '--data <DIR>', '--memory' and '--redis <HOST:PORT>' can be given"
            }
            BadRunOption::Folder => {
                "'--data <DIR>' takes the path of a folder, and not an empty text"
            }
            BadRunOption::Redis => {
                "'--redis <HOST:PORT>' takes a host and a port, as 127.0.0.1:6379 or [::1]:6379"
            }
            BadRunOption::LoginFileWithoutRedis => {
                "'--redis-login <FILE>' needs '--redis <HOST:PORT>'"
            }
            BadRunOption::StreamWithoutRedis => "'--stream <KEY>' needs '--redis <HOST:PORT>'",
            BadRunOption::SkewWithoutRedis => "'--skew <S>' needs '--redis <HOST:PORT>'",
            BadRunOption::FoundWithoutRedis => "'--found' needs '--redis <HOST:PORT>'",
            BadRunOption::LoginFile => {
                "'--redis-login <FILE>' takes the path of a file, and not an empty text"
            }
            BadRunOption::Stream => "'--stream <KEY>' takes a key, and not an empty text",
            BadRunOption::Skew => "'--skew <S>' takes a number from 0 to 3600, in digits alone",
            BadRunOption::Http => {
                "'--http <ADDR>' takes an IP address and a port, as 127.0.0.1:8080 or [::1]:8080"
            }
            BadRunOption::TokenFileWithoutHttp =>
                "'--http-token-file <FILE>' needs '--http <ADDR>'",
            BadRunOption::HostWithoutHttp => "'--http-host <NAME>' needs '--http <ADDR>'",
            BadRunOption::CommandsWithoutHttp => "'--http-commands' needs '--http <ADDR>'",
            BadRunOption::PageWithoutHttp => "'--page <FILE>' needs '--http <ADDR>'",
            BadRunOption::TokenFile => {
                "'--http-token-file <FILE>' takes the path of a file, and not an empty text"
            }
            BadRunOption::Host => "'--http-host <NAME>' takes a name, and not an empty text",
            BadRunOption::Page => {
                "'--page <FILE>' takes the path of a file, and not an empty text"
            }
            BadRunOption::NoTokenFile => {
                "'--http <ADDR>' off the loopback needs '--http-token-file <FILE>'"
            }
        }
    }
}

pub(crate) fn run_command<'a>(alloc: Global) -> Result<Command<'a>, AllocError>
    ensures app { IfOk result (λ command. app_of command ≡ run_app) }
    ensures local { IfOk result (λ command. (fields_of command).has_globals ≡ false) }
{
    add_http_options(alloc, add_redis_options(alloc, command_over_udp(alloc)?)?)
}

/// The command with the options that are about devices, and about what is kept.
fn command_over_udp<'a>(alloc: Global) -> Result<Command<'a>, AllocError>
    ensures app { IfOk result (λ command. app_of command ≡ udp_app) }
    ensures local { IfOk result (λ command. (fields_of command).has_globals ≡ false) }
{
    Command::new(alloc, "run")
        .about("Serves devices over UDP until it is killed, and keeps what is registered")
        .arg(option(
            alloc,
            "bind",
            "IP",
            "IP address of the UDP socket [default: 127.0.0.1]",
        ))?
        .arg(option(alloc, "port", "P", "UDP port, 0 to 65535 [default: 5683]"))?
        .arg(option(
            alloc,
            "log",
            "LEVEL",
            "What is logged to standard error: off, error, warn, info, debug [default: info]",
        ))?
        .arg(flag(
            alloc,
            "memory",
            "Keeps nothing: a restart begins without registrations",
        ))?
        .arg(option(
            alloc,
            "data",
            "DIR",
            "Folder that keeps what is registered; it is made where it is missing [default: fleet-data]",
        ))
}

pub(crate) fn run_options_in<'a>(matches: &ArgMatches<'a>) -> Result<RunOptions<'a>, BadRunOption>
    ensures given { IfOk result (IsGivenToRun (option_rows (subcommand_rows_of matches.now))) }
    ensures none { OnErr result ((o : RunningOptions)
        → ¬ IsGivenToRun (option_rows (subcommand_rows_of matches.now)) o) }
{
    let Some(bind) = address(text_of(matches, "bind", "127.0.0.1")) else {
        return Err(BadRunOption::Bind);
    };
    let Some(port) = small_number(text_of(matches, "port", "5683")) else {
        return Err(BadRunOption::Port);
    };
    let Some(level) = level(text_of(matches, "log", "info")) else {
        return Err(BadRunOption::Level);
    };
    let keeps = keeps_in(matches)?;
    let http = http_in(matches)?;
    Ok(RunOptions {
        bind,
        port,
        level,
        keeps,
        http,
    })
}

/// Where what is registered is kept, by `--memory`, `--data` and `--redis`.
fn keeps_in<'a>(matches: &ArgMatches<'a>) -> Result<Keeps<'a>, BadRunOption>
    ensures kept { IfOk result (IsKept (option_rows (subcommand_rows_of matches.now))) }
    ensures none { OnErr result ((keeps : Kept)
        → ¬ IsKept (option_rows (subcommand_rows_of matches.now)) keeps) }
{
    let memory = has_flag(matches, "memory");
    let keeps = match (
        memory,
        given_text(matches, "data"),
        given_text(matches, "redis"),
    ) {
        (true, None, None) => Keeps::Nothing,
        (false, None, None) => Keeps::Folder("fleet-data"),
        (false, Some(folder), None) if folder.is_empty() => return Err(BadRunOption::Folder),
        (false, Some(folder), None) => Keeps::Folder(folder),
        (false, None, Some(text)) => return Ok(Keeps::Redis(redis_at(matches, text)?)),
        _ => return Err(BadRunOption::KeptTwice),
    };
    refuse_without_redis(matches)?;
    Ok(keeps)
}

/// The text that is given for the option, if one is. An empty text is refused, with `empty`.
pub(crate) fn text_in<'a>(
    matches: &ArgMatches<'a>,
    option: &str,
    empty: BadRunOption,
) -> Result<Option<&'a str>, BadRunOption>
    ensures given { IfOk result (IsTextIfGiven
        (first_of option.now (option_rows (subcommand_rows_of matches.now)))) }
    ensures empty { OnErr result
        (first_of option.now (option_rows (subcommand_rows_of matches.now)) ≡ Some []) }
{
    match given_text(matches, option) {
        Some(text) if text.is_empty() => Err(empty),
        text => Ok(text),
    }
}

/// The IPv4 or IPv6 address that the text writes.
fn address(text: &str) -> Option<IpAddr>
    ensures some { IfSome result (IsIpText text.now) }
    ensures none { IfNone result ((address : Addresses) → ¬ IsIpText text.now address) }
{
    text.parse().ok()
}

/// The level with this name.
fn level(text: &str) -> Option<LogLevel>
    ensures some { IfSome result (λ level. level_text level ≡ text.now) }
    ensures none { IfNone result ((level : Levels) → level_text level ≢ text.now) }
{
    match text {
        "off" => Some(LogLevel::Off),
        "error" => Some(LogLevel::Error),
        "warn" => Some(LogLevel::Warn),
        "info" => Some(LogLevel::Info),
        "debug" => Some(LogLevel::Debug),
        _ => None,
    }
}
