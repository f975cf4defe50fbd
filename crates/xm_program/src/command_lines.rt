//! The command line of the program, as clap reads it.
ghost use Rattle.std.specs.Prelude.{◌≡◌, ◌≤◌, IfOk, false};
ghost use Rattle.clap.specs.Words.{app_of, new_app, rule_of};
ghost use Rattle.clap.specs.declared.builder.command.Command.TheViews.{out-Command as fields_of};
ghost use Rattle.xm_program.specs.Requests.{auction_app, carry_app, check_app, count_rule, day_app, explain_app, file_rule, flag_rule, path_rule, paths_rule, required_rule, run_app, top_app, with_day_files, with_options, workers_rule};

use crate::help_texts::{
    ANSWERS_HELP, ANSWERS_SHORT, AUCTION_HELP, AUCTION_SHORT, CARRIED_HELP, CARRY_HELP,
    CARRY_SHORT, CARRY_USAGE, CHECK_HELP, CHECK_SHORT, CSV_HELP, CSV_SHORT, DAY_HELP, DAY_SHORT,
    DEPTH_HELP, DEPTH_SHORT, EARLIER_HELP, EARLIER_SHORT, EVENTS_HELP, EVENTS_SHORT, EXPLAIN_HELP,
    EXPLAIN_SHORT, KEEP_HELP, KEEP_SHORT, ORDERS_AND_OUT_HELP, ORDERS_HELP, RECORD_HELP,
    RECORD_SHORT, RUN_HELP, RUN_SHORT, SECURITY_HELP, SEGMENT_HELP, STATUS_HELP, STRICT_HELP,
    STRICT_SHORT, THREADS_HELP, THREADS_SHORT, TRADES_HELP, TRADES_SHORT, WORKERS_HELP,
    WORKERS_SHORT,
};
use clap::{Arg, ArgAction, Command, value_parser};
use std::alloc::Global;
use xm_config::MAX_WORKERS;
use xm_files::MAX_FILES;
use xm_memory::OutOfMemory;

/// What `--version` prints behind the name; the script `xetra-day` reads it here.
const VERSION: &str = "0.3.0";

const PROGRAM: &str = "xetra-day";

pub(crate) const RUN: &str = "run";

pub(crate) const CARRY: &str = "carry";

pub(crate) const CHECK: &str = "check";

pub(crate) const AUCTION: &str = "auction";

pub(crate) const EXPLAIN: &str = "explain";

/// The command that prints help, which clap adds.
pub(crate) const HELP: &str = "help";

pub(crate) const SEGMENT: &str = "SEGMENT";

pub(crate) const CARRIED: &str = "IN";

pub(crate) const ORDERS: &str = "ORDERS";

pub(crate) const KEEP: &str = "out";

pub(crate) const WORKERS: &str = "workers";

pub(crate) const THREADS: &str = "threads";

/// The value of an option that is the path of a file.
const FILE: &str = "FILE";

/// The option with the carry file that a day opens with.
pub(crate) const EARLIER: &str = "carry";

/// The value of `--out`.
const OUT: &str = "OUT";

pub(crate) const ANSWERS: &str = "answers";

pub(crate) const TRADES: &str = "trades";

pub(crate) const EVENTS: &str = "events";

pub(crate) const DEPTH: &str = "depth";

pub(crate) const STRICT: &str = "strict";

pub(crate) const SECURITY: &str = "security";

pub(crate) const RECORD: &str = "record";

pub(crate) const CSV: &str = "csv";

/// The command line of the program.
pub(crate) fn command_line<'a>(alloc: Global) -> Result<Command<'a>, OutOfMemory>
    ensures { IfOk result (λ command. app_of command ≡ day_app) }
{
    let command = top_command(alloc)
        .bin_name(PROGRAM)?
        .subcommand(run_command(alloc)?)?
        .subcommand(carry_command(alloc)?)?
        .subcommand(check_command(alloc)?)?
        .subcommand(auction_command(alloc)?)?
        .subcommand(explain_command(alloc)?)?;
    Ok(command)
}

/// The command line without its parts.
fn top_command<'a>(alloc: Global) -> Command<'a>
    ensures { app_of result ≡ top_app }
{
    titled(alloc, PROGRAM, DAY_SHORT, DAY_HELP)
        .version(VERSION)
        .subcommand_required(true)
        .arg_required_else_help(true)
}

/// The part of the command line that runs a day.
pub(crate) fn run_command<'a>(alloc: Global) -> Result<Command<'a>, OutOfMemory>
    ensures app { IfOk result (λ command. app_of command ≡ run_app) }
    ensures local { IfOk result (λ command. (fields_of command).has_globals ≡ false) }
{
    let command = titled(alloc, RUN, RUN_SHORT, RUN_HELP)
        .arg(path(alloc, SEGMENT, SEGMENT_HELP))?
        .arg(paths(alloc, ORDERS, MAX_FILES, ORDERS_HELP))?;
    with_options(alloc, command)
}

/// The part of the command line that runs a day with a carry file, and writes one.
pub(crate) fn carry_command<'a>(alloc: Global) -> Result<Command<'a>, OutOfMemory>
    ensures app { IfOk result (λ command. app_of command ≡ carry_app) }
    ensures local { IfOk result (λ command. (fields_of command).has_globals ≡ false) }
{
    let command = titled(alloc, CARRY, CARRY_SHORT, CARRY_HELP)
        .override_usage(CARRY_USAGE)
        .arg(path(alloc, SEGMENT, SEGMENT_HELP))?
        .arg(path(alloc, CARRIED, CARRIED_HELP))?
        .arg(paths(alloc, ORDERS, MAX_FILES + 1, ORDERS_AND_OUT_HELP))?
        .arg(file(alloc, KEEP, OUT, KEEP_SHORT, KEEP_HELP))?;
    with_options(alloc, command)
}

/// The same part, with the options of a day.
fn with_options<'a>(alloc: Global, command: Command<'a>) -> Result<Command<'a>, OutOfMemory>
    requires { (fields_of command).has_globals ≡ false }
    ensures app { IfOk result (λ with. app_of with ≡ with_options (app_of command.entry)) }
    ensures local { IfOk result (λ with. (fields_of with).has_globals ≡ false) }
{
    let command = command
        .arg(workers(alloc))?
        .arg(count(alloc, THREADS, THREADS_SHORT, THREADS_HELP))?
        .arg(file(alloc, ANSWERS, FILE, ANSWERS_SHORT, ANSWERS_HELP))?
        .arg(file(alloc, TRADES, FILE, TRADES_SHORT, TRADES_HELP))?
        .arg(file(alloc, EVENTS, FILE, EVENTS_SHORT, EVENTS_HELP))?
        .arg(file(alloc, DEPTH, FILE, DEPTH_SHORT, DEPTH_HELP))?
        .arg(flag(alloc, STRICT, STRICT_SHORT, STRICT_HELP))?;
    Ok(command)
}

/// The part of the command line that checks a segment file.
fn check_command<'a>(alloc: Global) -> Result<Command<'a>, OutOfMemory>
    ensures app { IfOk result (λ command. app_of command ≡ check_app) }
    ensures local { IfOk result (λ command. (fields_of command).has_globals ≡ false) }
{
    let segment = path(alloc, SEGMENT, SEGMENT_HELP);
    Ok(titled(alloc, CHECK, CHECK_SHORT, CHECK_HELP).arg(segment)?)
}

/// The part of the command line that tells the calls of a security.
pub(crate) fn auction_command<'a>(alloc: Global) -> Result<Command<'a>, OutOfMemory>
    ensures app { IfOk result (λ command. app_of command ≡ auction_app) }
    ensures local { IfOk result (λ command. (fields_of command).has_globals ≡ false) }
{
    let command = titled(alloc, AUCTION, AUCTION_SHORT, AUCTION_HELP);
    let command = with_day_files(alloc, command)?
        .arg(needed(alloc, SECURITY, "NAME", SECURITY_HELP))?
        .arg(file(alloc, RECORD, "N", RECORD_SHORT, RECORD_HELP))?
        .arg(flag(alloc, CSV, CSV_SHORT, CSV_HELP))?;
    Ok(command)
}

/// The part of the command line that tells what is wrong with files.
pub(crate) fn explain_command<'a>(alloc: Global) -> Result<Command<'a>, OutOfMemory>
    ensures app { IfOk result (λ command. app_of command ≡ explain_app) }
    ensures local { IfOk result (λ command. (fields_of command).has_globals ≡ false) }
{
    let command = titled(alloc, EXPLAIN, EXPLAIN_SHORT, EXPLAIN_HELP);
    with_day_files(alloc, command)
}

/// The same part, with the files of a day.
fn with_day_files<'a>(alloc: Global, command: Command<'a>) -> Result<Command<'a>, OutOfMemory>
    requires { (fields_of command).has_globals ≡ false }
    ensures app { IfOk result (λ with. app_of with ≡ with_day_files (app_of command.entry)) }
    ensures local { IfOk result (λ with. (fields_of with).has_globals ≡ false) }
{
    let command = command
        .arg(path(alloc, SEGMENT, SEGMENT_HELP))?
        .arg(paths(alloc, ORDERS, MAX_FILES, ORDERS_HELP))?
        .arg(file(alloc, EARLIER, CARRIED, EARLIER_SHORT, EARLIER_HELP))?;
    Ok(command)
}

/// A command with its help in short and at length, behind which the exit statuses stand.
fn titled<'a>(alloc: Global, name: &'a str, short: &'a str, long: &'a str) -> Command<'a>
    ensures app { app_of result ≡ new_app name.entry.now }
    ensures local { (fields_of result).has_globals ≡ false }
{
    Command::new(alloc, name)
        .about(short)
        .long_about(long)
        .after_help(STATUS_HELP)
}

/// The path of a file, which has to be given, with its help.
fn path<'a>(alloc: Global, name: &'a str, help: &'a str) -> Arg<'a>
    ensures rule { rule_of result ≡ path_rule name.entry.now }
    ensures local { result.global ≡ false }
{
    Arg::new(alloc, name)
        .required(true)
        .action(ArgAction::Set)
        .help(help)
}

/// The paths of files, of which one has to be given, and at most so many in a row, with their help.
fn paths<'a>(alloc: Global, name: &'a str, most: usize, help: &'a str) -> Arg<'a>
    requires { 1 ≤ most }
    ensures rule { rule_of result ≡ paths_rule name.entry.now most }
    ensures local { result.global ≡ false }
{
    Arg::new(alloc, name)
        .required(true)
        .action(ArgAction::Append)
        .num_args(1..=most)
        .help(help)
}

/// The number of workers, which is 1 where it is left out.
fn workers<'a>(alloc: Global) -> Arg<'a>
    ensures rule { rule_of result ≡ workers_rule }
    ensures local { result.global ≡ false }
{
    count(alloc, WORKERS, WORKERS_SHORT, WORKERS_HELP).default_value("1")
}

/// A number of workers or of threads, which may be left out, with its help in short and at length.
fn count<'a>(alloc: Global, name: &'a str, short: &'a str, long: &'a str) -> Arg<'a>
    ensures rule { rule_of result ≡ count_rule name.entry.now }
    ensures local { result.global ≡ false }
{
    Arg::new(alloc, name)
        .long(name)
        .value_name("N")
        .action(ArgAction::Set)
        .value_parser(value_parser!(u32).range(1..=i64::from(MAX_WORKERS)))
        .help(short)
        .long_help(long)
}

/// The path of a file that is written beside the statement, which may be left out, with its help in short and at length.
fn file<'a>(alloc: Global, name: &'a str, value: &'a str, short: &'a str, long: &'a str) -> Arg<'a>
    ensures rule { rule_of result ≡ file_rule name.entry.now }
    ensures local { result.global ≡ false }
{
    Arg::new(alloc, name)
        .long(name)
        .value_name(value)
        .action(ArgAction::Set)
        .help(short)
        .long_help(long)
}

/// An option that has to be given, with its help.
fn needed<'a>(alloc: Global, name: &'a str, value: &'a str, help: &'a str) -> Arg<'a>
    ensures rule { rule_of result ≡ required_rule name.entry.now }
    ensures local { result.global ≡ false }
{
    Arg::new(alloc, name)
        .long(name)
        .value_name(value)
        .required(true)
        .action(ArgAction::Set)
        .help(help)
}

/// A flag, with its help in short and at length.
fn flag<'a>(alloc: Global, name: &'a str, short: &'a str, long: &'a str) -> Arg<'a>
    ensures rule { rule_of result ≡ flag_rule name.entry.now }
    ensures local { result.global ≡ false }
{
    Arg::new(alloc, name)
        .long(name)
        .action(ArgAction::SetTrue)
        .help(short)
        .long_help(long)
}
