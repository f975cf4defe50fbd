//! The help texts, and the day that one of them shows.

use super::ends::{End, Printed, are_ends};
use super::runtime::Stream;
use super::statement_of;
use std::process::Abort;

/// What `run --help` prints.
const RUN_HELP: &str = "Runs the day of its files and writes its statement to standard output.

ORDERS is an order file or several, 256 at most: one day, in the order given, each with a header.
docs/FORMATS.md tells all of the files that are read and written. SEGMENT and ORDERS may be pipes,
as /dev/stdin or <(zcat day.csv.gz), and so may FILE, as >(gzip > answers.csv.gz).
`xetra-day explain SEGMENT ORDERS` says what is wrong with files, where that isn't plain.

A whole small day, whose two files can be copied as they stand:

segment.toml:

date = 20260105
members = [\"ALPHA\", \"BETA\"]

[[security]]
name = \"ACME\"
tick = 100              # the step of its prices, in ten-thousandths of a euro
reference = \"10.00\"     # the price before the day, in euros
dynamic = 20            # widths of its price ranges, in thousandths
static = 50
wide = 40
journal = 1000000       # how many commands it takes at most

orders.csv:

command,member,reference,security,side,kind,limit,trigger,quantity,validity,restriction,condition
open,,,*,,,,,,,,
enter,ALPHA,1,ACME,buy,limit,10.05,,100,,,
enter,BETA,1,ACME,sell,limit,9.95,,60,,,
uncross,,,*,,,,,,,,
close,,,*,,,,,,,,
uncross,,,*,,,,,,,,
end,,,*,,,,,,,,

Usage: xetra-day run [OPTIONS] <SEGMENT> <ORDERS>...

Arguments:
  <SEGMENT>
          The segment file (TOML): the date, the members and the securities

  <ORDERS>...
          The order files (CSV), one day in their order: each a header, then one command a row

Options:
      --workers <N>
          How many workers take the rows of members, side by side: 1 to 64
          
          One worker takes all rows in the order of the files. More take each member's rows in their order,
          and the members side by side, as an exchange meets them, so that two runs may differ where members
          compete. They are not faster: a command is shorter than the hand-over of a lock.
          
          [default: 1]

      --threads <N>
          On how many threads the rows are taken, in the order of the files: 1 to 64
          
          By default on as many as there are processors where the order files have 700,000 bytes or more
          together, some 20,000 rows, and else on one. What is written is what one thread writes, byte for
          byte. Each thread takes the rows of securities of its own while a file is read ahead of it, so a day
          of one security gains from the reading alone. It goes with one worker.

      --answers <FILE>
          Writes the answer to each row, and the market after it, to this file (CSV)
          
          With a record that has a free text, as an order file of version 2 may have it, its text is told. The
          file is made before any file is read, and written behind the statement. docs/FORMATS.md tells of
          each field. It goes with one worker.

      --trades <FILE>
          Writes each trade, and the row that set it off, to this file (CSV)
          
          A line a trade, in the order of the rows: record,security,sweep,kind,price,quantity,buyer,
          buy_reference,seller,sell_reference,text. The file is made before any file is read, and written
          behind the statement and the answers. docs/FORMATS.md tells of each field. It goes with one worker.

      --events <FILE>
          Writes what the owners of orders are told, a line each, to this file (CSV)
          
          In the order in which it happens: record,security,event,member,reference,side,price,quantity,rest,
          cause. The event is accepted, refused, changed, filled, triggered, cancelled, deleted, interrupted or
          phase, and a trade is told to both sides. The file is made before any file is read, and written
          behind the statement, the answers and the trades. docs/FORMATS.md tells of each field. It goes with
          one worker.

      --depth <FILE>
          Writes the best levels of both sides, behind each row that changed them, to this file (CSV)
          
          Five limits of each side with the units that rest at them, and the units of market orders, as far as
          they are active in the phase. The file is made before any file is read, and written behind the
          statement, the answers, the trades and the events. docs/FORMATS.md tells of each field. It goes with
          one worker.

      --strict
          Ends with status 4 where a row was refused, or a security hasn't ended
          
          What is written is the same with and without it: the statement tells how many rows were refused, and
          `--answers FILE` why each was.

  -h, --help
          Print help (see a summary with '-h')

Exit status:
  0  it is done: the statement or the line was written
  1  it is not done: standard error has one line that names the fault; of explain: a file is mistaken
  2  the command line is mistaken
  3  the script xetra-day has no program to run: standard error says why
  4  with --strict, and of explain: it is done, and a row was refused, or a security hasn't ended
";

/// What `check --help` prints.
const CHECK_HELP: &str = "Checks a segment file and writes how many securities and members it has.

The line is `OK <securities> securities <members> members`. The first fault ends the check: of the
segment file, of the opening of the segment, of the writing. docs/FORMATS.md tells of each.

Usage: xetra-day check <SEGMENT>

Arguments:
  <SEGMENT>
          The segment file (TOML): the date, the members and the securities

Options:
  -h, --help
          Print help (see a summary with '-h')

Exit status:
  0  it is done: the statement or the line was written
  1  it is not done: standard error has one line that names the fault; of explain: a file is mistaken
  2  the command line is mistaken
  3  the script xetra-day has no program to run: standard error says why
  4  with --strict, and of explain: it is done, and a row was refused, or a security hasn't ended
";

/// How each help text ends.
const STATUSES: &str = "Exit status:
  0  it is done: the statement or the line was written
  1  it is not done: standard error has one line that names the fault; of explain: a file is mistaken
  2  the command line is mistaken
  3  the script xetra-day has no program to run: standard error says why
  4  with --strict, and of explain: it is done, and a row was refused, or a security hasn't ended
";

const WHOLE_HELP: Printed = Printed::Between("Replays a trading day of a segment", STATUSES);

const SHORT_HELP: Printed = Printed::Between("Runs the day of its files", STATUSES);

/// What `carry --help` prints before the options that `run` has too.
const CARRY_HELP: Printed = Printed::Between(
    "Runs the day of its files with what earlier days left, and writes what it leaves.

The statement goes to standard output, and then the carry file of the next day to OUT: the orders
and stops that are valid beyond the day. OUT is made, empty, before any file is read. Where it is
one of the files that are read, that is a failed write, and nothing is touched. The texts of
`xetra-day run` may go beside the statement here too. docs/FORMATS.md tells all of the files that
are read and written.

ORDERS is an order file or several, 256 at most: one day, in the order given, each with a header.
Several go with --out OUT; behind one OUT may stand as it is.

Before the first day nothing was left:

none.csv:

security,member,reference,side,kind,limit,trigger,quantity,validity,restriction

Two days in a row, where the segment file of the second has its date and its reference prices:

xetra-day carry monday.toml none.csv monday.csv left.csv
xetra-day carry tuesday.toml left.csv tuesday.csv left_again.csv

A day in two order files:

xetra-day carry monday.toml none.csv morning.csv afternoon.csv --out left.csv

Usage: xetra-day carry [OPTIONS] <SEGMENT> <IN> <ORDERS>... --out <OUT>
       xetra-day carry [OPTIONS] <SEGMENT> <IN> <ORDERS> <OUT>

Arguments:
  <SEGMENT>
          The segment file (TOML): the date, the members and the securities

  <IN>
          The carry file (CSV): the orders and stops that earlier days left

  <ORDERS>...
          The order files (CSV), as of `run`; where --out is left out, one order file and OUT

Options:
      --out <OUT>
          The carry file (CSV) of the next day, which is written behind the statement
          
          It has the orders and stops that are valid beyond the day. It is made, empty, before any file is
          read. Several order files go with --out OUT; behind one OUT may stand as it is, without --out.

      --workers <N>
",
    STATUSES,
);

/// How what `carry -h` prints begins.
const SHORT_CARRY_HELP: Printed = Printed::Between(
    "Runs the day of its files with what earlier days left, and writes what it leaves

Usage: xetra-day carry [OPTIONS] <SEGMENT> <IN> <ORDERS>... --out <OUT>
       xetra-day carry [OPTIONS] <SEGMENT> <IN> <ORDERS> <OUT>

Arguments:
",
    STATUSES,
);

const HELP: [End; 11] = [
    prints!(CARRY_HELP, b"carry", b"--help"),
    prints!(SHORT_CARRY_HELP, b"carry", b"-h"),
    prints!(Printed::Text(CHECK_HELP), b"check", b"--help"),
    prints!(Printed::Text(RUN_HELP), b"run", b"--help"),
    prints!(Printed::Text(RUN_HELP), b"help", b"run"),
    prints!(SHORT_HELP, b"run", b"-h"),
    prints!(WHOLE_HELP, b"--help"),
    prints!(WHOLE_HELP, b"-h"),
    prints!(WHOLE_HELP, b"help"),
    complains!(2, WHOLE_HELP,),
    prints!(Printed::Text("xetra-day 0.3.0\n"), b"--version"),
];

#[test]
fn help_texts(rt: HostRuntime) {
    are_ends(&rt, Stream::Kept, &HELP);
}

/// The statement of the day that `run --help` shows.
const STATEMENT: &str = "DAY 20260105
SECURITY ACME ended
REFERENCES 10.0500 10.0500
TRADE 1 opening-call 10.0500 60 ALPHA 1 BETA 1
NET ALPHA 60 -603.0000
NET BETA -60 603.0000
TOTAL 60 603.0000
MEMBER ALPHA -603.0000
MEMBER BETA 603.0000
ROWS 7 0
";

/// The part of a help text between two of its titles: a file that it shows, as it is copied from there.
fn shown<'a>(rt: &(impl Abort + AllocGlobal), text: &'a str, title: &str, next: &str) -> &'a str {
    let (_, from_title) = text.split_once(title).expect(rt, "no title");
    let (file, _) = from_title.split_once(next).expect(rt, "no next title");
    file
}

#[test]
fn the_day_of_the_help_runs(rt: HostRuntime) {
    let segment = shown(&rt, RUN_HELP, "\nsegment.toml:\n\n", "\norders.csv:\n\n");
    let orders = shown(&rt, RUN_HELP, "\norders.csv:\n\n", "\nUsage:");
    let statement = statement_of(&rt, segment, orders, 1);
    assert!(rt; statement.as_slice() == STATEMENT.as_bytes());
}
