//! What the words of the command line ask for.
ghost use Rattle.std.specs.Prelude.{◌≡◌, ◌≤◌, [], IfOk, IfErr, IfSome, IsSome, None, map, option_and_then, option_map, string_bytes, false, true};
ghost use Rattle.std.specs.List.{list_any};
ghost use Rattle.clap.specs.Words.{app_of, fault_of, first_of, found_of, kind_of, one_of, rows_of, subcommand_rows_of, takes};
ghost use Rattle.clap.specs.declared.error.kind.ErrorKind.TheVariants as kind;
ghost use Rattle.xm_files.specs.Rows.{whole_of};
ghost use Rattle.xm_program.specs.Requests.{AnswersWords, Asked, Asks, IsGranted, IsOfWords, IsRequest, IsTold, IsUnread, Meets, answer_of, are_apart, asked_in, asked_of, asked_texts, auction, auction_in, can_write, carried_by, carried_day_in, concurrency_in, count_in, day, day_app, day_in, explanation, explanation_in, form_in, inputs, kept_in, named_day, failure_status, is_file, is_given, is_one_path, order_files, outputs, paths_in, record_of, run_day_in, strictness_in, threads_in};

use crate::command_lines::{
    ANSWERS, AUCTION, CARRIED, CARRY, CHECK, CSV, DEPTH, EARLIER, EVENTS, EXPLAIN, HELP, KEEP,
    ORDERS, RECORD, RUN, SECURITY, SEGMENT, STRICT, THREADS, TRADES, WORKERS, auction_command,
    carry_command, command_line, explain_command, run_command,
};
use crate::concurrency::{Concurrency, concurrency_of};
use crate::count::Count;
use crate::help_texts::{
    BAD_RECORD, CANNOT_KEEP, CANNOT_SHARE, CANNOT_TELL, KEPT_BY_OUT, KEPT_NOWHERE, TOO_MANY_FILES,
};
use crate::outcome::Strictness;
use arrayvec::ArrayVec;
use clap::error::ErrorKind;
use clap::{ArgMatches, Command, Error};
use std::alloc::Global;
use std::io;
use strsim::osa_distance;
use xm_calls::Form;
use xm_day::{AskedTexts, DayFault};
use xm_files::MAX_FILES;
use xm_memory::OutOfMemory;
use xm_ticks::read_number;

/// So many files a day is read from at most, with the segment file and the carry file.
const MAX_INPUTS: usize = MAX_FILES + 2;

/// The value of a flag that was given.
const GIVEN: &str = "true";

/// By this word a file is standard output, where the statement goes.
const STANDARD_OUTPUT: &str = "-";

/// What a command line asks for.
#[derive(Debug, Drop)]
pub enum Request<'a> {
    /// A day.
    Day(DayRequest<'a>),
    /// The check of a segment file, which is given by its path.
    Check { segment: &'a str },
    /// The calls of a security.
    Auction(AuctionRequest<'a>),
    /// What is wrong with the files of a day.
    Explanation(ExplanationRequest<'a>),
    /// A help text, or the version.
    Help(Error),
}

/// What is wrong with the files of a day, by their paths.
#[derive(Debug, Drop)]
pub struct ExplanationRequest<'a> {
    pub segment: &'a str,
    /// Of its order files, one after the other.
    pub orders: ArrayVec<&'a str, MAX_FILES>,
    /// Of the carry file that it opens with, if it opens with one.
    pub carried: Option<&'a str>,
}

/// The calls of a security, by the paths of the files of its day.
#[derive(Debug, Drop)]
pub struct AuctionRequest<'a> {
    pub segment: &'a str,
    /// Of its order files, one after the other.
    pub orders: ArrayVec<&'a str, MAX_FILES>,
    /// Of the carry file that it opens with, if it opens with one.
    pub carried: Option<&'a str>,
    /// The name of the security.
    pub security: &'a str,
    /// The record at which its call is told. Where none is given, each end of a call is.
    pub at: Option<u32>,
    pub form: Form,
}

/// A day, by the paths of its files and by how its rows are taken.
#[derive(Debug, Drop)]
pub struct DayRequest<'a> {
    pub segment: &'a str,
    /// Of its order files, one after the other.
    pub orders: ArrayVec<&'a str, MAX_FILES>,
    /// What goes from earlier days to the next one, if it does.
    pub carrying: Option<Carrying<'a>>,
    pub concurrency: Concurrency,
    pub texts: TextPaths<'a>,
    pub strictness: Strictness,
}

/// The paths of the carry file that a day opens with, and of the one that it writes.
#[derive(Clone, Copy, Debug)]
pub struct Carrying<'a> {
    pub from: &'a str,
    pub to: &'a str,
}

/// The paths of the texts beside a statement, as far as these are asked for.
#[derive(Clone, Copy, Debug)]
pub struct TextPaths<'a> {
    /// Of the answers to its rows.
    pub answers: Option<&'a str>,
    /// Of their trades.
    pub trades: Option<&'a str>,
    /// Of the events of their orders.
    pub events: Option<&'a str>,
    /// Of the levels behind them.
    pub depth: Option<&'a str>,
}

impl<'a> DayRequest<'a> {
    /// The files that the day is written to beside standard output, in the order in which they are.
    pub(crate) fn outputs(&self) -> [Option<&'a str>; 5]
        ensures { map (option_map (λ s. s.now)) result ≡ outputs (named_day self.now) }
    {
        let TextPaths {
            answers,
            trades,
            events,
            depth,
        } = self.texts;
        let carry = match self.carrying {
            Some(Carrying { to, .. }) => Some(to),
            None => None,
        };
        [answers, trades, events, depth, carry]
    }

    /// The files that the day is read from.
    pub(crate) fn inputs(&self) -> ArrayVec<Option<&'a str>, MAX_INPUTS>
        ensures { map (option_map (λ s. s.now)) result.items ≡ inputs (named_day self.now) }
    {
        let carry = match self.carrying {
            Some(Carrying { from, .. }) => Some(from),
            None => None,
        };
        let mut inputs = ArrayVec::new();
        inputs.push(Some(self.segment));
        inputs.push(carry);
        for path in self.orders.as_slice() {
            inputs.push(Some(*path));
        }
        inputs
    }

    /// The texts beside its statement that are asked for.
    pub(crate) fn asked(&self) -> AskedTexts
        ensures { result ≡ asked_texts (named_day self.now) }
    {
        AskedTexts {
            answers: self.texts.answers.is_some(),
            trades: self.texts.trades.is_some(),
            events: self.texts.events.is_some(),
            depth: self.texts.depth.is_some(),
        }
    }

    /// Whether the day can be written.
    fn can_be_written(&self) -> bool
        ensures { result ≡ can_write (named_day self.now) }
    {
        let asked = self.asked();
        let can_tell = match self.concurrency {
            Concurrency::Threads(_) => true,
            Concurrency::Workers(_) => {
                !(asked.answers || asked.trades || asked.events || asked.depth)
            }
        };
        can_tell && are_apart(&self.outputs())
    }
}

/// Why the program ends without what it was asked for.
#[derive(Debug, Drop)]
pub enum Failure {
    /// The day has no statement, a text beside it or a help text didn't go out whole, or the segment file isn't one that opens.
    Day(DayFault),
    /// The words are mistaken, as the text says.
    Words(Error),
}

impl Failure {
    /// The status that the program then ends with.
    pub fn status(&self) -> u8
        ensures { result ≡ failure_status self.now }
    {
        match self {
            Failure::Day(_) => 1,
            Failure::Words(_) => 2,
        }
    }
}

impl From<OutOfMemory> for Failure {
    ghost use Rattle.xm_program.specs.declared.requests.Failure.TheVariants.{Day};
    ghost use Rattle.xm_replay.specs.declared.faults.DayFault.TheVariants.{OutOfMemory};

    ghost from_gives = { λ _ failure. failure ≡ Day (OutOfMemory tt) };

    fn from(error: OutOfMemory) -> Failure {
        Failure::Day(DayFault::OutOfMemory(error))
    }
}

impl From<DayFault> for Failure {
    ghost use Rattle.xm_program.specs.declared.requests.Failure.TheVariants.{Day};

    ghost from_gives = { λ fault failure. failure ≡ Day fault };

    fn from(fault: DayFault) -> Failure {
        Failure::Day(fault)
    }
}

/// What the words ask for, of which the first is the program's name.
///
/// A mistake in the words is refused as the text tells.
pub fn read_words<'a>(alloc: Global, words: &'a [String]) -> Result<Request<'a>, Failure>
    ensures told { IfErr result IsTold }
    ensures answered { AnswersWords (fault_of day_app (map string_bytes words.entry.now)) (asked_of (map string_bytes words.entry.now)) result }
    ensures granted { (asked : Asked) → Asks (map string_bytes words.entry.now) asked → IsGranted result asked }
{
    match read_request(alloc, command_line(alloc)?, words) {
        Ok(request) => Ok(request),
        Err(error) => answer(hinted(alloc, words, error)),
    }
}

/// The same error, which tells the nearest command where the words name one that isn't there.
fn hinted(alloc: Global, words: &[String], error: Error) -> Error
    ensures { kind_of result ≡ kind_of error }
{
    match error.kind() {
        ErrorKind::InvalidSubcommand => close_command(alloc, words)
            .unwrap_or(None)
            .unwrap_or(error),
        _ => error,
    }
}

/// The mistake of a first word that is close to a command.
fn close_command(alloc: Global, words: &[String]) -> Result<Option<Error>, OutOfMemory>
    ensures { IfOk result (λ found. IfSome found (λ error. kind_of error ≡ kind.InvalidSubcommand)) }
{
    let Some(word) = words.get(1) else {
        return Ok(None);
    };
    let Some(command) = nearest_command(alloc, word)? else {
        return Ok(None);
    };
    let message = format!(in alloc;
        "unrecognized subcommand '{word}'\n\n  tip: a similar subcommand exists: '{command}'"
    )?;
    let error = command_line(alloc)?.error(ErrorKind::InvalidSubcommand, message.as_str())?;
    Ok(Some(error))
}

/// The command to which the fewest edits lead from a word, if these are at most a third of its letters, or one.
fn nearest_command(alloc: Global, word: &str) -> Result<Option<&'static str>, OutOfMemory> {
    let mut nearest = None;
    let mut fewest = usize::MAX;
    for command in [RUN, CARRY, CHECK, AUCTION, EXPLAIN, HELP] {
        let edits = osa_distance(alloc, word, command)?;
        if 0 < edits && edits <= (command.len() / 3).max(1) && edits < fewest {
            nearest = Some(command);
            fewest = edits;
        }
    }
    Ok(nearest)
}

/// What is answered where nothing is done.
fn answer<'a>(error: Error) -> Result<Request<'a>, Failure>
    ensures { result ≡ answer_of error }
{
    match error.kind() {
        ErrorKind::DisplayHelp | ErrorKind::DisplayVersion => Ok(Request::Help(error)),
        ErrorKind::OutOfMemory => Err(Failure::from(OutOfMemory::told_by(&error))),
        _ => Err(Failure::Words(error)),
    }
}

/// The day or the check that the words ask for.
fn read_request<'a>(
    alloc: Global,
    mut command: Command<'a>,
    words: &'a [String],
) -> Result<Request<'a>, Error>
    requires { app_of command ≡ day_app }
    ensures ok { IfOk result (IsRequest (asked_of (map string_bytes words.entry.now))) }
    ensures err { IfErr result (λ e. takes day_app (map string_bytes words.entry.now) ≡ true
        → IsSome (asked_of (map string_bytes words.entry.now)) → kind_of e ≡ kind.OutOfMemory) }
    ensures faultless { IfOk result (λ _. fault_of day_app (map string_bytes words.entry.now) ≡ []) }
    ensures fault { IfErr result (IsOfWords (fault_of day_app (map string_bytes words.entry.now)) (asked_of (map string_bytes words.entry.now))) }
{
    let matches = command.try_get_matches_from_mut(words)?;
    match request_in(&matches) {
        Some(request) => Ok(request),
        None => {
            let mut at_hand = command_at_hand(alloc, &matches).unwrap_or(command);
            Err(at_hand.error(ErrorKind::ArgumentConflict, why_not(&matches))?)
        }
    }
}

/// The command that was met, with the name by which it is called.
fn command_at_hand<'a>(
    alloc: Global,
    matches: &ArgMatches<'_>,
) -> Result<Command<'a>, OutOfMemory> {
    match matches.subcommand() {
        Some((CARRY, _)) => Ok(carry_command(alloc)?.bin_name("xetra-day carry")?),
        Some((AUCTION, _)) => Ok(auction_command(alloc)?.bin_name("xetra-day auction")?),
        Some((EXPLAIN, _)) => Ok(explain_command(alloc)?.bin_name("xetra-day explain")?),
        _ => Ok(run_command(alloc)?.bin_name("xetra-day run")?),
    }
}

/// Why nothing can be done that was met.
fn why_not(matches: &ArgMatches<'_>) -> &'static str {
    match matches.subcommand() {
        Some((CARRY, values)) => {
            let paths = paths_in(values);
            match kept_in(text_in(values, KEEP), paths) {
                Some((orders, to)) => why_no_day(values, orders, Some(to)),
                None if paths.len() < 2 => KEPT_NOWHERE,
                None => KEPT_BY_OUT,
            }
        }
        Some((AUCTION, values)) if paths_in(values).len() <= MAX_FILES => BAD_RECORD,
        Some((_, values)) => why_no_day(values, paths_in(values), None),
        None => CANNOT_TELL,
    }
}

/// Why the day of these order files can't be done, which is kept so.
fn why_no_day(values: &ArgMatches<'_>, orders: &[&str], to: Option<&str>) -> &'static str {
    if orders.len() > MAX_FILES {
        TOO_MANY_FILES
    } else if concurrency_in(values).is_none() {
        CANNOT_SHARE
    } else if is_file(to) {
        CANNOT_TELL
    } else {
        CANNOT_KEEP
    }
}

/// The day or the check that was met.
fn request_in<'a>(matches: &ArgMatches<'a>) -> Option<Request<'a>>
    ensures { Meets (asked_in (subcommand_rows_of matches.now)) result }
{
    let (name, values) = matches.subcommand()?;
    match name {
        RUN => run_day_in(values),
        CARRY => carried_day_in(values),
        CHECK => Some(Request::Check {
            segment: text_in(values, SEGMENT)?,
        }),
        AUCTION => auction_in(values),
        EXPLAIN => explanation_in(values),
        _ => None,
    }
}

/// The day of these order files among the values of a subcommand, which goes on so from earlier ones, if it can be written.
fn day_in<'a>(
    values: &ArgMatches<'a>,
    carrying: &Option<Carrying<'a>>,
    paths: &[&'a str],
) -> Option<Request<'a>>
    ensures { Meets (option_map day (day_in (option_map carried_by carrying.now) (map (λ s. s.now) paths.now) (rows_of (found_of values.now)))) result }
{
    let day = DayRequest {
        segment: text_in(values, SEGMENT)?,
        orders: order_files(paths)?,
        carrying: *carrying,
        concurrency: concurrency_in(values)?,
        texts: TextPaths {
            answers: text_in(values, ANSWERS),
            trades: text_in(values, TRADES),
            events: text_in(values, EVENTS),
            depth: text_in(values, DEPTH),
        },
        strictness: strictness_in(values),
    };
    if day.can_be_written() {
        Some(Request::Day(day))
    } else {
        None
    }
}

/// The day of the order files among the values of a subcommand.
fn run_day_in<'a>(values: &ArgMatches<'a>) -> Option<Request<'a>>
    ensures { Meets (option_map day (run_day_in (rows_of (found_of values.now)))) result }
{
    day_in(values, &None, paths_in(values))
}

/// The calls of a security that the values of a subcommand ask for.
fn auction_in<'a>(values: &ArgMatches<'a>) -> Option<Request<'a>>
    ensures { Meets (option_map auction (auction_in (rows_of (found_of values.now)))) result }
{
    Some(Request::Auction(AuctionRequest {
        segment: text_in(values, SEGMENT)?,
        orders: order_files(paths_in(values))?,
        carried: text_in(values, EARLIER),
        security: text_in(values, SECURITY)?,
        at: record_of(text_in(values, RECORD))?,
        form: form_in(values),
    }))
}

/// The files whose mistakes the values of a subcommand ask for.
fn explanation_in<'a>(values: &ArgMatches<'a>) -> Option<Request<'a>>
    ensures { Meets (option_map explanation (explanation_in (rows_of (found_of values.now)))) result }
{
    Some(Request::Explanation(ExplanationRequest {
        segment: text_in(values, SEGMENT)?,
        orders: order_files(paths_in(values))?,
        carried: text_in(values, EARLIER),
    }))
}

/// The record at which a call is told, if the words say it.
fn record_of(text: Option<&str>) -> Option<Option<u32>>
    ensures { result ≡ record_of (option_map (λ s. s.now) text.entry) }
{
    match text {
        None => Some(None),
        Some(text) => record_number(text.as_bytes()).map(Some),
    }
}

/// The number of a record, by its digits, if 32 bits hold it.
fn record_number(text: &[u8]) -> Option<u32>
    ensures { result ≡ whole_of text.now }
{
    if text.len() > 10 {
        return None;
    }
    match read_number(text) {
        Some(number) => u32::try_from(number).ok(),
        None => None,
    }
}

/// How tables are written, by the values of a subcommand.
fn form_in(values: &ArgMatches<'_>) -> Form
    ensures { result ≡ form_in (rows_of (found_of values.now)) }
{
    if is_given(text_in(values, CSV)) {
        Form::Csv
    } else {
        Form::Plain
    }
}

/// The day among the values of a subcommand that has the paths of two carry files.
fn carried_day_in<'a>(values: &ArgMatches<'a>) -> Option<Request<'a>>
    ensures { Meets (option_map day (carried_day_in (rows_of (found_of values.now)))) result }
{
    let from = text_in(values, CARRIED)?;
    let (orders, to) = kept_in(text_in(values, KEEP), paths_in(values))?;
    day_in(values, &Some(Carrying { from, to }), orders)
}

/// The order files among the paths of a day, and the carry file of the next one: that of `--out`, or else the second of two paths.
fn kept_in<'p, 'a>(out: Option<&'a str>, paths: &'p [&'a str]) -> Option<(&'p [&'a str], &'a str)>
    ensures { option_map (λ kept. (map (λ s. s.now) kept.0.now, kept.1.now)) result ≡ kept_in (option_map (λ s. s.now) out.entry) (map (λ s. s.now) paths.entry.now) }
{
    match out {
        Some(out) => Some((paths, out)),
        None => match paths {
            [_, out] => Some((&paths[..1], *out)),
            _ => None,
        },
    }
}

/// The paths of a day's order files, if they are not too many, and there is one.
fn order_files<'a>(paths: &[&'a str]) -> Option<ArrayVec<&'a str, MAX_FILES>>
    ensures { option_map (λ files. map (λ s. s.now) files.items) result ≡ order_files (map (λ s. s.now) paths.now) }
{
    if paths.is_empty() {
        return None;
    }
    ArrayVec::try_from(paths).ok()
}

/// The paths that the values of a subcommand have for ORDERS.
fn paths_in<'p, 'a>(values: &'p ArgMatches<'a>) -> &'p [&'a str]
    ensures { map (λ s. s.now) result.now ≡ paths_in (rows_of (found_of values.now)) }
{
    values.get_strs(ORDERS).unwrap_or_default()
}

/// The text that has this name among the values of a subcommand.
fn text_in<'a>(values: &ArgMatches<'a>, name: &str) -> Option<&'a str>
    ensures { option_map (λ s. s.now) result ≡ first_of name.now (rows_of (found_of values.now)) }
{
    values.get_str(name)
}

/// How a day is judged, by the values of a subcommand.
fn strictness_in(values: &ArgMatches<'_>) -> Strictness
    ensures { result ≡ strictness_in (rows_of (found_of values.now)) }
{
    if is_given(text_in(values, STRICT)) {
        Strictness::Strict
    } else {
        Strictness::Lenient
    }
}

/// Whether the value of a flag says that it was given.
fn is_given(value: Option<&str>) -> bool
    ensures { result ≡ is_given (option_map (λ s. s.now) value.entry) }
{
    match value {
        None => false,
        Some(value) => value == GIVEN,
    }
}

/// Whether no two of these paths are the same, and none is that of standard output.
fn are_apart(paths: &[Option<&str>]) -> bool
    ensures { result ≡ are_apart (map (option_map (λ s. s.now)) paths.now) }
{
    match paths {
        [] => true,
        [path, others @ ..] => { is_file(*path) && !is_among(*path, others) && are_apart(others) }
    }
}

/// Whether a path, if there is one, is among others.
fn is_among(path: Option<&str>, others: &[Option<&str>]) -> bool
    ensures { result ≡ list_any (is_one_path (option_map (λ s. s.now) path.entry)) (map (option_map (λ s. s.now)) others.now) }
{
    match others {
        [] => false,
        [other, others @ ..] => is_one_path(path, *other) || is_among(path, others),
    }
}

/// Whether a path, if there is one, isn't that of standard output.
fn is_file(path: Option<&str>) -> bool
    ensures { result ≡ is_file (option_map (λ s. s.now) path.entry) }
{
    match path {
        None => true,
        Some(path) => path != STANDARD_OUTPUT,
    }
}

/// Whether both paths are there, and the same.
fn is_one_path(first: Option<&str>, second: Option<&str>) -> bool
    ensures { result ≡ is_one_path (option_map (λ s. s.now) first.entry) (option_map (λ s. s.now) second.entry) }
{
    match first {
        None => false,
        Some(first) => match second {
            None => false,
            Some(second) => first == second,
        },
    }
}

/// How rows are taken, by the values of a run.
fn concurrency_in(values: &ArgMatches<'_>) -> Option<Concurrency>
    ensures { result ≡ concurrency_in (rows_of (found_of values.now)) }
{
    let workers = count_in(values, WORKERS)?;
    let threads = threads_in(values)?;
    concurrency_of(workers, threads)
}

/// On how many threads rows are taken, if the values of a run say it.
fn threads_in(values: &ArgMatches<'_>) -> Option<Option<Count>>
    ensures { result ≡ threads_in (rows_of (found_of values.now)) }
{
    if text_in(values, THREADS).is_none() {
        return Some(None);
    }
    Some(Some(count_in(values, THREADS)?))
}

/// The number that stands behind an option of a run.
fn count_in(values: &ArgMatches<'_>, name: &str) -> Option<Count>
    ensures { result ≡ option_and_then count_in (one_of name.now (rows_of (found_of values.now))) }
{
    Count::new(values.get_one::<u32>(name)?)
}

/// Why the words of the command line weren't read: one isn't text, or memory is wanting.
pub(crate) fn unread_words(alloc: Global, cause: io::ErrorKind) -> Failure
    ensures { IsUnread cause result }
{
    if cause != io::ErrorKind::InvalidData {
        return Failure::from(OutOfMemory::told_by(&cause));
    }
    match bytes_error(alloc) {
        Ok(error) => Failure::Words(error),
        Err(error) => Failure::from(error),
    }
}

/// The mistake of words that are not text.
fn bytes_error(alloc: Global) -> Result<Error, OutOfMemory>
    ensures { IfOk result (λ error. kind_of error ≡ kind.ValueValidation) }
{
    let message = "a word of the command line is not UTF-8 text";
    let mut command = command_line(alloc)?;
    Ok(command.error(ErrorKind::ValueValidation, message)?)
}
