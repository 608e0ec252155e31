//! What is given for the options of `run` that are about HTTP.

ghost use Rattle.std.specs.Prelude.{◌≡◌, ◌↔◌, [], Option, Some, codes, false, IfOk, IfSome, IfNone, IsTrue, OnErr, OnOk};
ghost use Rattle.std.specs.Net.Grammar.{IsSocketText};
ghost use Rattle.std.specs.declared.net.socket_addr.SocketAddr.{SocketAddr as SocketAddresses};
ghost use Rattle.clap.specs.Words.{app_of, first_of, subcommand_rows_of};
ghost use Rattle.clap.specs.declared.builder.command.Command.TheViews.{out-Command as fields_of};
ghost use Rattle.lw_fleet.specs.CommandLine.{option_rows, with_http_options, IsAddressIfGiven, IsGivenToHttp, IsGuarded, IsHttp, IsTextIfGiven, IsWithoutHttp};
ghost use Rattle.lw_fleet.specs.declared.http_options.HttpOptions.{HttpOptions as Served};

use crate::command::{flag, given_text, has_flag, option};
use crate::run_options::{BadRunOption, text_in};
use clap::{ArgMatches, Command};
use std::alloc::{AllocError, Global};
use std::net::SocketAddr;

/// What is served over HTTP.
#[derive(Clone, Copy, Debug, PartialEq, Eq)]
pub struct HttpOptions<'a> {
    /// Where HTTP clients come.
    pub address: SocketAddr,
    /// The path of the file with the token that requests have to bring.
    pub token_file: Option<&'a str>,
    /// The name that requests may be for, beside IP addresses and `localhost`.
    pub host: Option<&'a str>,
    /// Whether requests are taken that change something.
    pub commands: bool,
    /// The path of the file that is served as the page at `/`.
    pub page_file: Option<&'a str>,
}

/// The command with the options that are about HTTP.
pub(crate) fn add_http_options<'a>(
    alloc: Global,
    command: Command<'a>,
) -> Result<Command<'a>, AllocError>
    ensures app { IfOk result (λ added. app_of added ≡ with_http_options (app_of command.entry)) }
    ensures local { IfOk result (λ added. (fields_of command.entry).has_globals ≡ false
        → (fields_of added).has_globals ≡ false) }
{
    command
        .arg(option(
            alloc,
            "http",
            "ADDR",
            "Address and port that HTTP is served on, as 127.0.0.1:8080 or [::1]:8080 [default: none]",
        ))?
        .arg(option(
            alloc,
            "http-token-file",
            "FILE",
            "File whose first line is the token that HTTP requests have to bring",
        ))?
        .arg(option(
            alloc,
            "http-host",
            "NAME",
            "Name that HTTP requests may be for, beside IP addresses and localhost",
        ))?
        .arg(flag(
            alloc,
            "http-commands",
            "Takes POST and DELETE: observations are made and ended",
        ))?
        .arg(option(
            alloc,
            "page",
            "FILE",
            "File that is served as the page at /",
        ))
}

/// What is served over HTTP, by `--http` and the options that go with it.
pub(crate) fn http_in<'a>(matches: &ArgMatches<'a>) -> Result<Option<HttpOptions<'a>>, BadRunOption>
    ensures given { IfOk result (IsHttp (option_rows (subcommand_rows_of matches.now))) }
    ensures none { OnErr result ((http : Option Served)
        → ¬ IsHttp (option_rows (subcommand_rows_of matches.now)) http) }
{
    match http_address(matches)? {
        Some(address) => Ok(Some(http_at(matches, address)?)),
        None => {
            refuse_without_http(matches)?;
            Ok(None)
        }
    }
}

/// The address of `--http`, if that is given.
fn http_address(matches: &ArgMatches<'_>) -> Result<Option<SocketAddr>, BadRunOption>
    ensures given { IfOk result (IsAddressIfGiven
        (first_of (codes "http") (option_rows (subcommand_rows_of matches.now)))) }
    ensures none { OnErr result ((address : Option SocketAddresses)
        → ¬ IsAddressIfGiven (first_of (codes "http") (option_rows (subcommand_rows_of matches.now))) address) }
{
    let Some(text) = given_text(matches, "http") else {
        return Ok(None);
    };
    match socket_address(text) {
        Some(address) => Ok(Some(address)),
        None => Err(BadRunOption::Http),
    }
}

/// Refuses the options that go with `--http`, which is not given.
fn refuse_without_http(matches: &ArgMatches<'_>) -> Result<(), BadRunOption>
    ensures none { OnOk result (IsWithoutHttp (option_rows (subcommand_rows_of matches.now))) }
    ensures some { OnErr result (¬ IsWithoutHttp (option_rows (subcommand_rows_of matches.now))) }
{
    match (
        given_text(matches, "http-token-file"),
        given_text(matches, "http-host"),
        has_flag(matches, "http-commands"),
        given_text(matches, "page"),
    ) {
        (None, None, false, None) => Ok(()),
        (Some(_), _, _, _) => Err(BadRunOption::TokenFileWithoutHttp),
        (None, Some(_), _, _) => Err(BadRunOption::HostWithoutHttp),
        (None, None, true, _) => Err(BadRunOption::CommandsWithoutHttp),
        (None, None, false, Some(_)) => Err(BadRunOption::PageWithoutHttp),
    }
}

/// What is served at the address of `--http`.
fn http_at<'a>(
    matches: &ArgMatches<'a>,
    address: SocketAddr,
) -> Result<HttpOptions<'a>, BadRunOption>
    requires { IsAddressIfGiven (first_of (codes "http") (option_rows (subcommand_rows_of matches.now)))
        (Some address) }
    ensures given { IfOk result (IsGivenToHttp (option_rows (subcommand_rows_of matches.now))) }
    ensures none { OnErr result ((http : Served)
        → ¬ IsGivenToHttp (option_rows (subcommand_rows_of matches.now)) http) }
{
    let token_file = text_in(matches, "http-token-file", BadRunOption::TokenFile)?;
    let host = text_in(matches, "http-host", BadRunOption::Host)?;
    let page_file = text_in(matches, "page", BadRunOption::Page)?;
    if !is_guarded(address, token_file) {
        return Err(BadRunOption::NoTokenFile);
    }
    Ok(HttpOptions {
        address,
        token_file,
        host,
        commands: has_flag(matches, "http-commands"),
        page_file,
    })
}

/// Whether only the host itself reaches the address, or else a token is asked for.
fn is_guarded(address: SocketAddr, token_file: Option<&str>) -> bool
    ensures { IsTrue result ↔ IsGuarded address token_file.entry }
{
    token_file.is_some() || address.ip().is_loopback()
}

/// The address and the port that the text writes.
fn socket_address(text: &str) -> Option<SocketAddr>
    ensures some { IfSome result (IsSocketText text.now) }
    ensures none { IfNone result ((address : SocketAddresses) → ¬ IsSocketText text.now address) }
{
    text.parse().ok()
}
