ghost use Rattle.std.specs.Prelude.{◌≡◌, ◌≢◌, ◌⊎◌, ◌↔◌, ◌<◌, ◌≤◌, ◌^◌, ℕ, [], Option, Some, codes, IfOk, OnOk, IfErr, OnErr, IfSome, IfNone, map, IsTrue, true, false};
ghost use Rattle.std.specs.Option.{SomeIff, option_copied};
ghost use Rattle.std.specs.Str.Parse.{IsNumeral, digits_value};
ghost use Rattle.clap.specs.declared.builder.texts.Texts.TheVariants.{One};
ghost use Rattle.clap.specs.Words.{app_of, first_of, rule_of, kind_of, fault_of, subcommand_of, subcommand_rows_of, HasKind};
ghost use Rattle.clap.specs.declared.builder.command.Command.TheViews.{out-Command as fields_of};
ghost use Rattle.lw_fleet.specs.CommandLine.{fleet_app, flag_option, one_app, replay_app, serve_app, given, kinds_of_words, long_option, needed_option as needed, option_rows, HasFlag, IsAsked, IsGiven, IsGivenToServe, Names, Writes, WritesIfGiven};
ghost use Rattle.lw_serve.specs.Plan.{IsCut};
ghost use Rattle.lw_stamp.specs.Moment.{ms_of};
ghost use Rattle.lw_stamp.specs.declared.moment.Moment.{Moment as Moments};
ghost use Rattle.lw_fleet.specs.declared.command.OneOptions.{OneOptions as Options};
ghost use Rattle.lw_fleet.specs.declared.command.Request.{Request as Requests};
ghost use Rattle.lw_fleet.specs.declared.command.ServeOptions.{ServeOptions as ServingOptions};

use crate::run_options::{BadRunOption, RunOptions, run_command, run_options_in};
use clap::error::ErrorKind;
use clap::{Arg, ArgAction, ArgMatches, Command, Error};
use lw_serve::Plan;
use lw_stamp::Moment;
use std::alloc::{AllocError, Global};
use std::convert::AsStr;

/// What the words of a command line ask for.
#[derive(Clone, Copy, Debug, PartialEq, Eq)]
pub enum Request<'a> {
    One(OneOptions<'a>),
    Replay,
    Serve(ServeOptions),
    Run(RunOptions<'a>),
}

/// The options of `fleet one`.
#[derive(Clone, Copy, Debug, PartialEq, Eq)]
pub struct OneOptions<'a> {
    /// The number of the node.
    pub node: u16,
    /// The moment at which the datagram comes.
    pub now: Moment,
    /// Where the datagram comes from: a text that may be no address.
    pub from: &'a str,
}

/// The options of `fleet serve`.
#[derive(Clone, Copy, Debug, PartialEq, Eq)]
pub struct ServeOptions {
    /// How many datagrams are served, by how many nodes and workers, and after how many rounds journals are cut.
    pub plan: Plan,
    /// The UDP port, of 127.0.0.1.
    pub port: u16,
}

/// What `--version` prints after the name of the program.
const VERSION: &str = "0.1.0";

/// What is said of a port that is none.
pub(crate) const BAD_PORT: &str = "'--port <P>' takes a number from 0 to 65535, in digits alone";

/// An option with a text that it does not take.
#[derive(Clone, Copy)]
enum BadOption {
    Node,
    Now,
    Count,
    Port,
    Nodes,
    Workers,
    Cut,
    Run(BadRunOption),
}

impl BadOption {
    fn message(self) -> &'static str {
        match self {
            BadOption::Node => "'--node <N>' takes a number from 0 to 65535, in digits alone",
            BadOption::Now => {
                "'--now <MS>' takes a number from 0 to 281474976710655, in digits alone"
            }
            BadOption::Count => "'--count <K>' takes a number from 1 to 1000000, in digits alone",
            BadOption::Port => BAD_PORT,
            BadOption::Nodes => "'--nodes <N>' takes a number from 1 to 16, in digits alone",
            BadOption::Workers => "'--workers <W>' takes a number from 1 to 8, in digits alone",
            BadOption::Cut => "'--cut <C>' takes a number from 1 to 1000000, in digits alone",
            BadOption::Run(bad) => bad.message(),
        }
    }

    /// The command that has the option.
    fn command<'a>(self, alloc: Global) -> Result<Command<'a>, AllocError> {
        match self {
            BadOption::Node | BadOption::Now => one_command(alloc)?.bin_name("fleet one"),
            BadOption::Run(_) => run_command(alloc)?.bin_name("fleet run"),
            _ => serve_command(alloc)?.bin_name("fleet serve"),
        }
    }
}

impl From<BadRunOption> for BadOption {
    fn from(bad: BadRunOption) -> BadOption {
        BadOption::Run(bad)
    }
}

/// Reads the words of the command line, the program's name first. No word after it means `one`.
pub fn read_request<'a, S: AsStr>(alloc: Global, words: &'a [S]) -> Result<Request<'a>, Error>
    ensures asked { IfOk result (IsAsked (subcommand_of fleet_app (map S.text words.entry.now))) }
    ensures accepted { OnOk result (fault_of fleet_app (map S.text words.entry.now) ≡ []) }
    ensures refused { IfErr result (λ e. fault_of fleet_app (map S.text words.entry.now) ≡ []
        → (r : Requests) → IsAsked (subcommand_of fleet_app (map S.text words.entry.now)) r
        → kind_of e ≡ ErrorKind.OutOfMemory) }
    ensures kinds { IfErr result (HasKind (kinds_of_words (map S.text words.entry.now))) }
{
    let command = fleet_command(alloc)?;
    let matches = command.try_get_matches_from(words)?;
    match request_in(&matches) {
        Ok(request) => Ok(request),
        Err(bad) => Err(option_refused(alloc, bad)?),
    }
}

/// The refusal of a command line with a word that is not UTF-8.
pub fn not_utf8(alloc: Global) -> Result<Error, AllocError>
    ensures { IfOk result (λ error. kind_of error ≡ ErrorKind.ValueValidation) }
{
    let mut command = fleet_command(alloc)?;
    command.error(ErrorKind::ValueValidation, "a word is not UTF-8")
}

fn option_refused(alloc: Global, bad: BadOption) -> Result<Error, AllocError>
    ensures { IfOk result (λ error. kind_of error ≡ ErrorKind.ValueValidation) }
{
    let mut command = bad.command(alloc)?;
    command.error(ErrorKind::ValueValidation, bad.message())
}

fn fleet_command<'a>(alloc: Global) -> Result<Command<'a>, AllocError>
    ensures { IfOk result (λ command. app_of command ≡ fleet_app) }
{
    Command::new(alloc, "fleet")
        .version(VERSION)
        .about("The registration store behind LwM2M servers; without a command, `fleet one`")
        .subcommand(one_command(alloc)?)?
        .subcommand(replay_command(alloc))?
        .subcommand(serve_command(alloc)?)?
        .subcommand(run_command(alloc)?)
}

fn one_command<'a>(alloc: Global) -> Result<Command<'a>, AllocError>
    ensures app { IfOk result (λ command. app_of command ≡ one_app) }
    ensures local { IfOk result (λ command. (fields_of command).has_globals ≡ false) }
{
    Command::new(alloc, "one")
        .about(
            "Takes one datagram, a line of hex on standard input, and prints the reply and the registration",
        )
        .arg(option(
            alloc,
            "node",
            "N",
            "Number of the node, 0 to 65535 [default: 1]",
        ))?
        .arg(option(
            alloc,
            "now",
            "MS",
            "Moment in milliseconds, 0 to 281474976710655 [default: 0]",
        ))?
        .arg(option(
            alloc,
            "from",
            "ADDR",
            "Address and port of the client, IPv6 as [eight groups of four digits] [default: 127.0.0.1:5683]",
        ))
}

fn replay_command<'a>(alloc: Global) -> Command<'a>
    ensures app { app_of result ≡ replay_app }
    ensures local { (fields_of result).has_globals ≡ false }
{
    Command::new(alloc, "replay").about(
        "Runs a script of several nodes, read from standard input, and prints a line for each event",
    )
}

fn serve_command<'a>(alloc: Global) -> Result<Command<'a>, AllocError>
    ensures app { IfOk result (λ command. app_of command ≡ serve_app) }
    ensures local { IfOk result (λ command. (fields_of command).has_globals ≡ false) }
{
    Command::new(alloc, "serve")
        .about(
            "Serves datagrams that come to a UDP port of 127.0.0.1, and prints `settled` when the journals are checked",
        )
        .arg(needed_option(
            alloc,
            "count",
            "K",
            "Datagrams that are served before the end, 1 to 1000000",
        ))?
        .arg(option(alloc, "port", "P", "UDP port, 0 to 65535 [default: 5683]"))?
        .arg(option(
            alloc,
            "nodes",
            "N",
            "Nodes, which share the clients by their ports, 1 to 16 [default: 2]",
        ))?
        .arg(option(
            alloc,
            "workers",
            "W",
            "Worker threads at most, 1 to 8 [default: 2]",
        ))?
        .arg(option(
            alloc,
            "cut",
            "C",
            "Rounds after which the journals are cut, 1 to 1000000 [default: never]",
        ))
}

/// An option that has to be given.
fn needed_option<'a>(alloc: Global, name: &'a str, value: &'a str, help: &'a str) -> Arg<'a>
    ensures rule { rule_of result ≡ needed name.entry.now }
    ensures local { result.global ≡ false }
    ensures value_name { result.val_names ≡ One value.entry }
    ensures help { result.help ≡ Some help.entry }
    ensures needed { result.required ≡ true }
{
    option(alloc, name, value, help).required(true)
}

pub(crate) fn option<'a>(alloc: Global, name: &'a str, value: &'a str, help: &'a str) -> Arg<'a>
    ensures rule { rule_of result ≡ long_option name.entry.now }
    ensures local { result.global ≡ false }
    ensures value_name { result.val_names ≡ One value.entry }
    ensures help { result.help ≡ Some help.entry }
{
    Arg::new(alloc, name)
        .long(name)
        .value_name(value)
        .help(help)
}

/// An option that is given alone, without a text.
pub(crate) fn flag<'a>(alloc: Global, name: &'a str, help: &'a str) -> Arg<'a>
    ensures rule { rule_of result ≡ flag_option name.entry.now }
    ensures local { result.global ≡ false }
    ensures help { result.help ≡ Some help.entry }
{
    Arg::new(alloc, name)
        .long(name)
        .help(help)
        .action(ArgAction::SetTrue)
}

fn request_in<'a>(matches: &ArgMatches<'a>) -> Result<Request<'a>, BadOption>
    ensures asked { IfOk result (IsAsked (subcommand_rows_of matches.now)) }
    ensures none { OnErr result ((r : Requests) → ¬ IsAsked (subcommand_rows_of matches.now) r) }
{
    if names(matches, "replay") {
        return Ok(Request::Replay);
    }
    if names(matches, "serve") {
        return Ok(Request::Serve(serve_options_in(matches)?));
    }
    if names(matches, "run") {
        return Ok(Request::Run(run_options_in(matches)?));
    }
    Ok(Request::One(options_in(matches)?))
}

fn names(matches: &ArgMatches<'_>, command: &str) -> bool
    ensures { IsTrue result ↔ Names command.now (subcommand_rows_of matches.now) }
{
    match matches.subcommand_name() {
        Some(name) => name == command,
        None => false,
    }
}

fn options_in<'a>(matches: &ArgMatches<'a>) -> Result<OneOptions<'a>, BadOption>
    ensures given { IfOk result (IsGiven (option_rows (subcommand_rows_of matches.now))) }
    ensures none { OnErr result ((o : Options) → ¬ IsGiven (option_rows (subcommand_rows_of matches.now)) o) }
{
    let Some(node) = small_number(text_of(matches, "node", "1")) else {
        return Err(BadOption::Node);
    };
    let Some(now) = moment(text_of(matches, "now", "0")) else {
        return Err(BadOption::Now);
    };
    Ok(OneOptions {
        node,
        now,
        from: text_of(matches, "from", "127.0.0.1:5683"),
    })
}

fn serve_options_in(matches: &ArgMatches<'_>) -> Result<ServeOptions, BadOption>
    ensures given { IfOk result (IsGivenToServe (option_rows (subcommand_rows_of matches.now))) }
    ensures none { OnErr result ((o : ServingOptions)
        → ¬ IsGivenToServe (option_rows (subcommand_rows_of matches.now)) o) }
{
    let Some(count) = number_within(text_of(matches, "count", ""), 1, 1_000_000) else {
        return Err(BadOption::Count);
    };
    let Some(port) = small_number(text_of(matches, "port", "5683")) else {
        return Err(BadOption::Port);
    };
    let Some(nodes) = number_within(text_of(matches, "nodes", "2"), 1, 16) else {
        return Err(BadOption::Nodes);
    };
    let Some(workers) = number_within(text_of(matches, "workers", "2"), 1, 8) else {
        return Err(BadOption::Workers);
    };
    let cut = cut_in(matches)?;
    match Plan::new(count as u32, nodes as u16, workers as u32, cut) {
        Some(plan) => Ok(ServeOptions { plan, port }),
        None => Err(BadOption::Count),
    }
}

/// After how many rounds the journals are cut, if that is given.
fn cut_in(matches: &ArgMatches<'_>) -> Result<Option<u32>, BadOption>
    ensures given { IfOk result (λ cut.
        WritesIfGiven (first_of (codes "cut") (option_rows (subcommand_rows_of matches.now))) cut × IsCut cut) }
    ensures none { OnErr result ((cut : Option ℕ) → IsCut cut
        → ¬ WritesIfGiven (first_of (codes "cut") (option_rows (subcommand_rows_of matches.now))) cut) }
{
    let Some(text) = given_text(matches, "cut") else {
        return Ok(None);
    };
    match number_within(text, 1, 1_000_000) {
        Some(rounds) => Ok(Some(rounds as u32)),
        None => Err(BadOption::Cut),
    }
}

/// The text that is given for the option, if one is.
pub(crate) fn given_text<'a>(matches: &ArgMatches<'a>, option: &str) -> Option<&'a str>
    ensures { option_copied result ≡ first_of option.now (option_rows (subcommand_rows_of matches.now)) }
{
    let (_, options) = matches.subcommand()?;
    options.get_str(option)
}

/// Whether the option is given, which has no text.
pub(crate) fn has_flag(matches: &ArgMatches<'_>, option: &str) -> bool
    ensures { IsTrue result ↔ HasFlag option.now (option_rows (subcommand_rows_of matches.now)) }
{
    match matches.subcommand() {
        Some((_, options)) => options.get_one(option).unwrap_or(false),
        None => false,
    }
}

pub(crate) fn text_of<'a>(matches: &ArgMatches<'a>, option: &str, default: &'a str) -> &'a str
    ensures { result.now ≡ given option.now default.entry.now (option_rows (subcommand_rows_of matches.now)) }
{
    given_text(matches, option).unwrap_or(default)
}

/// The number that the digits write, if it is one of these.
pub(crate) fn number_within(text: &str, least: u64, most: u64) -> Option<u64>
    ensures { SomeIff result (IsNumeral 10 text.now × (least ≤ digits_value 10 text.now)
        × (digits_value 10 text.now ≤ most)) (digits_value 10 text.now) }
{
    let number = number(text)?;
    (least <= number && number <= most).then_some(number)
}

pub(crate) fn small_number(text: &str) -> Option<u16>
    ensures { SomeIff result (IsNumeral 10 text.now × (digits_value 10 text.now < 2 ^ 16)) (digits_value 10 text.now) }
{
    u16::try_from(number(text)?).ok()
}

fn moment(text: &str) -> Option<Moment>
    ensures some { IfSome result (λ moment. Writes text.now (ms_of moment)) }
    ensures none { IfNone result ((moment : Moments) → ¬ Writes text.now (ms_of moment)) }
{
    Moment::new(number(text)?)
}

/// The number that the digits write, if there are only digits and it fits.
fn number(text: &str) -> Option<u64>
    ensures { SomeIff result (IsNumeral 10 text.now × (digits_value 10 text.now < 2 ^ 64)) (digits_value 10 text.now) }
{
    if text.starts_with('+') {
        return None;
    }
    text.parse().ok()
}
