//! What help says of each command and of its words, and why mistaken words are no request.

pub(crate) const SEGMENT_HELP: &str =
    "The segment file (TOML): the date, the members and the securities";

pub(crate) const CARRIED_HELP: &str =
    "The carry file (CSV): the orders and stops that earlier days left";

pub(crate) const ORDERS_HELP: &str =
    "The order files (CSV), one day in their order: each a header, then one command a row";

pub(crate) const ORDERS_AND_OUT_HELP: &str =
    "The order files (CSV), as of `run`; where --out is left out, one order file and OUT";

pub(crate) const KEEP_SHORT: &str =
    "The carry file (CSV) of the next day, which is written behind the statement";

pub(crate) const KEEP_HELP: &str =
    "The carry file (CSV) of the next day, which is written behind the statement

It has the orders and stops that are valid beyond the day. It is made, empty, before any file is
read. Several order files go with --out OUT; behind one OUT may stand as it is, without --out.";

pub(crate) const DAY_SHORT: &str =
    "Replays a trading day of a segment of securities and writes its statement";

pub(crate) const DAY_HELP: &str =
    "Replays a trading day of a segment of securities and writes its statement.

docs/FORMATS.md tells all of the files that are read and written.
`xetra-day run --help` shows a whole small day. Where a file has a fault, or rows were refused,
`xetra-day explain` says what is wrong and how to mend it; why the price of an auction is the
price, `xetra-day auction` shows.";

pub(crate) const RUN_SHORT: &str =
    "Runs the day of its files and writes its statement to standard output";

pub(crate) const RUN_HELP: &str =
    "Runs the day of its files and writes its statement to standard output.

ORDERS is an order file or several, 256 at most: one day, in the order given, each with a header.
docs/FORMATS.md tells all of the files that are read and written. SEGMENT and ORDERS may be pipes,
as /dev/stdin or <(zcat day.csv.gz), and so may FILE, as >(gzip > answers.csv.gz).
`xetra-day explain SEGMENT ORDERS` says what is wrong with files, where that isn't plain.

A whole small day, whose two files can be copied as they stand:

segment.toml:

date = 20260105
members = [\"ALPHA\", \"BETA\"]

[[security]]
name = \"ACME\"
tick = 100              # the step of its prices, in ten-thousandths of a euro
reference = \"10.00\"     # the price before the day, in euros
dynamic = 20            # widths of its price ranges, in thousandths
static = 50
wide = 40
journal = 1000000       # how many commands it takes at most

orders.csv:

command,member,reference,security,side,kind,limit,trigger,quantity,validity,restriction,condition
open,,,*,,,,,,,,
enter,ALPHA,1,ACME,buy,limit,10.05,,100,,,
enter,BETA,1,ACME,sell,limit,9.95,,60,,,
uncross,,,*,,,,,,,,
close,,,*,,,,,,,,
uncross,,,*,,,,,,,,
end,,,*,,,,,,,,";

pub(crate) const CARRY_SHORT: &str =
    "Runs the day of its files with what earlier days left, and writes what it leaves";

pub(crate) const CARRY_HELP: &str =
    "Runs the day of its files with what earlier days left, and writes what it leaves.

The statement goes to standard output, and then the carry file of the next day to OUT: the orders
and stops that are valid beyond the day. OUT is made, empty, before any file is read. Where it is
one of the files that are read, that is a failed write, and nothing is touched. The texts of
`xetra-day run` may go beside the statement here too. docs/FORMATS.md tells all of the files that
are read and written.

ORDERS is an order file or several, 256 at most: one day, in the order given, each with a header.
Several go with --out OUT; behind one OUT may stand as it is.

Before the first day nothing was left:

none.csv:

security,member,reference,side,kind,limit,trigger,quantity,validity,restriction

Two days in a row, where the segment file of the second has its date and its reference prices:

xetra-day carry monday.toml none.csv monday.csv left.csv
xetra-day carry tuesday.toml left.csv tuesday.csv left_again.csv

A day in two order files:

xetra-day carry monday.toml none.csv morning.csv afternoon.csv --out left.csv";

pub(crate) const CARRY_USAGE: &str =
    "xetra-day carry [OPTIONS] <SEGMENT> <IN> <ORDERS>... --out <OUT>
       xetra-day carry [OPTIONS] <SEGMENT> <IN> <ORDERS> <OUT>";

pub(crate) const CANNOT_TELL: &str =
    "--answers, --trades, --events and --depth go with one worker, and with a file each: standard output has the statement";

pub(crate) const CANNOT_SHARE: &str =
    "--threads goes with one worker: each of several takes its rows on a thread of its own";

pub(crate) const CANNOT_KEEP: &str = "OUT is a file: standard output has the statement";

pub(crate) const TOO_MANY_FILES: &str = "a day has at most 256 order files";

pub(crate) const KEPT_NOWHERE: &str =
    "OUT is missing, the carry file of the next day: it stands behind the order file, or behind --out";

pub(crate) const KEPT_BY_OUT: &str = "several order files go with --out OUT";

pub(crate) const ANSWERS_SHORT: &str =
    "Writes the answer to each row, and the market after it, to this file (CSV)";

pub(crate) const ANSWERS_HELP: &str =
    "Writes the answer to each row, and the market after it, to this file (CSV)

With a record that has a free text, as an order file of version 2 may have it, its text is told. The
file is made before any file is read, and written behind the statement. docs/FORMATS.md tells of
each field. It goes with one worker.";

pub(crate) const TRADES_SHORT: &str =
    "Writes each trade, and the row that set it off, to this file (CSV)";

pub(crate) const TRADES_HELP: &str =
    "Writes each trade, and the row that set it off, to this file (CSV)

A line a trade, in the order of the rows: record,security,sweep,kind,price,quantity,buyer,
buy_reference,seller,sell_reference,text. The file is made before any file is read, and written
behind the statement and the answers. docs/FORMATS.md tells of each field. It goes with one worker.";

pub(crate) const EVENTS_SHORT: &str =
    "Writes what the owners of orders are told, a line each, to this file (CSV)";

pub(crate) const EVENTS_HELP: &str =
    "Writes what the owners of orders are told, a line each, to this file (CSV)

In the order in which it happens: record,security,event,member,reference,side,price,quantity,rest,
cause. The event is accepted, refused, changed, filled, triggered, cancelled, deleted, interrupted or
phase, and a trade is told to both sides. The file is made before any file is read, and written
behind the statement, the answers and the trades. docs/FORMATS.md tells of each field. It goes with
one worker.";

pub(crate) const DEPTH_SHORT: &str =
    "Writes the best levels of both sides, behind each row that changed them, to this file (CSV)";

pub(crate) const DEPTH_HELP: &str =
    "Writes the best levels of both sides, behind each row that changed them, to this file (CSV)

Five limits of each side with the units that rest at them, and the units of market orders, as far as
they are active in the phase. The file is made before any file is read, and written behind the
statement, the answers, the trades and the events. docs/FORMATS.md tells of each field. It goes with
one worker.";

pub(crate) const STRICT_SHORT: &str =
    "Ends with status 4 where a row was refused, or a security hasn't ended";

pub(crate) const STRICT_HELP: &str =
    "Ends with status 4 where a row was refused, or a security hasn't ended

What is written is the same with and without it: the statement tells how many rows were refused, and
`--answers FILE` why each was.";

pub(crate) const WORKERS_SHORT: &str = "How many workers take the rows of members, side by side";

pub(crate) const WORKERS_HELP: &str =
    "How many workers take the rows of members, side by side: 1 to 64

One worker takes all rows in the order of the files. More take each member's rows in their order,
and the members side by side, as an exchange meets them, so that two runs may differ where members
compete. They are not faster: a command is shorter than the hand-over of a lock.";

pub(crate) const THREADS_SHORT: &str =
    "On how many threads the rows are taken, in the order of the files";

pub(crate) const THREADS_HELP: &str =
    "On how many threads the rows are taken, in the order of the files: 1 to 64

By default on as many as there are processors where the order files have 700,000 bytes or more
together, some 20,000 rows, and else on one. What is written is what one thread writes, byte for
byte. Each thread takes the rows of securities of its own while a file is read ahead of it, so a day
of one security gains from the reading alone. It goes with one worker.";

pub(crate) const CHECK_SHORT: &str =
    "Checks a segment file and writes how many securities and members it has";

pub(crate) const CHECK_HELP: &str =
    "Checks a segment file and writes how many securities and members it has.

The line is `OK <securities> securities <members> members`. The first fault ends the check: of the
segment file, of the opening of the segment, of the writing. docs/FORMATS.md tells of each.";

pub(crate) const AUCTION_SHORT: &str =
    "Shows why the price of each call of a security is the price";

pub(crate) const AUCTION_HELP: &str = "Shows why the price of each call of a security is the price.

Of each end of a call it writes to standard output the limits that the price may have, with the
units of buys and of sells that accept each, those that can be executed, and the side that is left
with more; the last price; the ranges that are asked, and whether they were left; the price, and the
rule that decided. The files are those of `xetra-day run`, with their faults.";

pub(crate) const SECURITY_HELP: &str = "The security, by its name in the segment file";

pub(crate) const RECORD_SHORT: &str = "Shows the call as it stands when this record comes";

pub(crate) const RECORD_HELP: &str =
    "Shows the call as it stands when this record comes, as if it ended there

The header of the first order file has the number 1, as in answers, trades and events.";

pub(crate) const CSV_SHORT: &str = "Writes the tables as CSV";

pub(crate) const CSV_HELP: &str =
    "Writes the tables as CSV: a line for each candidate, range, last price and price

docs/FORMATS.md tells of each field.";

pub(crate) const BAD_RECORD: &str = "--record N has the number of a record: digits alone";

pub(crate) const EARLIER_SHORT: &str = "The carry file (CSV) that the day opens with";

pub(crate) const EARLIER_HELP: &str =
    "The carry file (CSV) that the day opens with, as IN of `carry`

Without it the day opens with no order and no stop, as that of `run` does.";

pub(crate) const EXPLAIN_SHORT: &str =
    "Says what is wrong with files and how to mend it, and what a day leaves unsaid";

pub(crate) const EXPLAIN_HELP: &str =
    "Says what is wrong with files and how to mend it, and what a day leaves unsaid.

It writes to standard output up to 20 mistakes, each with its file, its line and record, its column
or key, the text found, and what may stand there. The first is the fault by which `xetra-day run` of
these files ends. Where there is none, it runs the day and tells for each refusal how many rows were
refused so, where the first of them stands and why, and which securities haven't ended, in which
phase and since which record. It ends with the status of `xetra-day run --strict`.";

pub(crate) const STATUS_HELP: &str = "Exit status:
  0  it is done: the statement or the line was written
  1  it is not done: standard error has one line that names the fault; of explain: a file is mistaken
  2  the command line is mistaken
  3  the script xetra-day has no program to run: standard error says why
  4  with --strict, and of explain: it is done, and a row was refused, or a security hasn't ended";
