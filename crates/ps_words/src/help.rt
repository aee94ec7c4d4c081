//! The texts that `--help` prints.

/// The help text of `--workers`. It names the range 1 to `WORKERS`.
pub const WORKERS_HELP: &str =
    "how many threads may evaluate formulas, 1 to 16; no reply depends on it";

/// The help text of `--replica`. It names the range 1 to `REPLICAS`.
pub const REPLICA_HELP: &str = "the number of this replica, 1 to 32";

/// The help text of `--port` of `serve`.
pub const PORT_HELP: &str = "the port of this machine to listen on, 1 to 65535";

/// The help text of `--sessions` of `serve`. It names the range 1 to `MOST_SESSIONS`.
pub const SESSIONS_HELP: &str =
    "how many sessions to serve before it ends, 1 to 1000000; without it, until it is stopped";

/// The help text of `--seats` of `serve`: how many slots it has. It names the range 1 to `SEATS`.
pub const SEATS_HELP: &str =
    "how many sessions to serve at a time, 1 to 256; each adds 40 instructions to a change, free or not";

/// The help text of `--wait` of `serve`. It names the range 0 to `LONGEST_WAIT`, in seconds.
pub const WAIT_HELP: &str = "how many seconds a connection may wait for a session slot, 0 to 60";

/// The help text of `--idle` of `serve`. It names the range 1 to `LONGEST_IDLE`, in seconds.
pub const IDLE_HELP: &str =
    "how many seconds a peer may be silent, 1 to 86400; without it, 30 until its first line, then no limit, or 300 for a browser";

/// The help text of `--keep` of `run` and `serve`.
pub const KEEP_HELP: &str =
    "the file that the sheet is kept in: it is read at the start, and grows with each change";

/// The help text of `--squash` of `run` and `serve`.
pub const SQUASH_FIRST_HELP: &str =
    "squashes the file of --keep first, if that makes it at most half as long";

/// The help text of `--keep` of `squash`.
pub const SQUASHED_HELP: &str =
    "the kept file that is squashed in its place, while no other program has it";

/// The help text of `--until` of `squash`. It names the range 1 to `MOST_CHANGES`.
pub const UNTIL_HELP: &str =
    "takes only so many change lines, from the first on, 1 to 1000000000; without it, all";

/// The help text of `--without` of `squash`. It names the range 1 to `REPLICAS`.
pub const WITHOUT_HELP: &str =
    "leaves out what this replica assigned, counted and chose, 1 to 32; without it, nothing";

/// The help text of `--from` of `sync`.
pub const FROM_HELP: &str = "the port of the replica whose deltas are pulled, 1 to 65535";

/// The help text of `--to` of `sync`.
pub const TO_HELP: &str = "the port of the replica that takes them in, 1 to 65535";

/// The help text of `--from` of `join`.
pub const JOINED_FIRST_HELP: &str =
    "the port of the replica whose changes go to the other one first, 1 to 65535, or -";

/// The help text of `--to` of `join`.
pub const JOINED_SECOND_HELP: &str = "the port of the other replica, 1 to 65535, or -";

/// The help text of `--with`.
pub const RELAYED_HELP: &str =
    "the port of the replica that --lines merges at, and whose changes it writes, 1 to 65535";

/// The help text of `--lines`.
pub const LINES_HELP: &str =
    "merges the lines of standard input, and writes what others change as such lines";

/// The help text of `--once`.
pub const ONCE_HELP: &str = "ends once each replica has all that the other one had";

/// The help text of `--check`.
pub const CHECK_HELP: &str = "says whether both replicas hold the same, and merges nothing";

/// The help text of `--from` of `follow`.
pub const FOLLOWED_HELP: &str = "the port of the replica that is followed, 1 to 65535";

/// The help text of `--after` of `follow`. It names the range 0 to `MOST_CHANGES`.
pub const AFTER_HELP: &str = "passes over so many changes, from the first on, 0 to 1000000000";

/// The help text of `--until-now`.
pub const UNTIL_NOW_HELP: &str = "ends once all that the replica has is written";

/// The help text of `--every` of `follow`. It names the range 1 to `LONGEST_PAUSE`, in milliseconds.
pub const EVERY_HELP: &str =
    "has no effect any more, as each change comes at once; milliseconds, 1 to 60000";

/// The help text of `--to` of `talk`.
pub const TALKED_HELP: &str = "the port of the server that is asked, 1 to 65535";

/// The help text of `--title`.
pub const TITLE_HELP: &str =
    "the title of the page; without it, the name of the kept file, or what A1 shows";

/// The help text of `--explain` of `run` and `table`.
pub const EXPLAIN_HELP: &str =
    "prints on standard error what is refused or looks like a number, with a hint";

/// The help text of `--explain` of a command with a port.
pub const PORT_EXPLAIN_HELP: &str = "prints on standard error why a port can't be used";

/// The help text of `--explain` of `talk`.
pub const TALK_EXPLAIN_HELP: &str =
    "prints on standard error what is refused or looks like a number, and why a port can't be used";

/// The help text of `--strict`.
pub const STRICT_HELP: &str = "ends with status 3 if a line was refused";

/// The help text of `--entries`.
pub const ENTRIES_HELP: &str = "writes the entries of the cells instead of what they show";

/// The text below the commands in the output of `sheet --help`: an example of each, and the refusals.
pub const SHEET_HELP: &str = "\
Examples:

  printf 'set A1 5\\nget A1\\n' | sheet run
  printf '2,=[.A1]*3\\n' | sheet table
  sheet serve --port 7001
  sheet sync --from 7001 --to 7002
  sheet join --from 7001 --to 7002
  sheet follow --from 7001 --until-now > plan.lines
  sheet talk --to 7001 < my.lines
  sheet squash < plan.lines > small
  sheet help serve
  sheet --version

A refusal changes nothing, and is printed as `err`, a number and a name:

   1 cell        name a cell, A1 to CZ1024, its letters in capitals
   2 text        keep a text to 64 bytes of UTF-8, without tabs
   3 formula     write it as =SUM([.A1:.A3])*2
   4 too-long    divide it: an entry has at most 512 bytes, a formula 256
   5 not-tally   make the cell a counter first: set A1 @tally
   6 not-choice  make the cell a set of options first: set A1 @choice
   7 amount      give an amount of 1 to 1000000, in digits
   8 option      give an option of 0 to 63, in digits
   9 replica     number a replica 1 to 32
  10 tally-full  count on in another cell, or at another replica
  11 choice-full choose in another cell, or at another replica
  12 not-chosen  take out an option that is in
  13 clock-full  use another cell: this one has been set to its last time
  14 delta       push a line as pull gave it, without `delta` and its number
  15 line        shorten the line: it has at most 262208 bytes
  16 command     begin with a verb, and put one space between two words
  17 version     pull from a version that there is, and at most 16 deltas
  18 csv         divide the table: it has at most 1024 records of 104 fields
  19 memory      try again once there is more memory
  20 device      check the input, the output, the port or the connection
  21 seat        come again once a session has ended

With `--explain`, `run`, `table` and `talk` print each refusal's line or cell with a
hint, and the commands that have a port print why that port can't be used.";

/// The text below the options in the output of `sheet run --help`.
pub const RUN_HELP: &str = "\
Each line of standard input is a command, and has a reply on standard output:

  set A1 5              A1 holds a number            ok 1
  set B1 =[.A1]*2       .. or a formula              ok 2
  get B1                what a cell shows            val 10
  set C1 @tally         C1 is a counter              ok 3
  add C1 4  sub C1 1    .. raised, lowered           ok 4, ok 5
  set D1 @choice        D1 is a set of options       ok 6
  choose D1 7           .. with option 7 in it       ok 7
  unchoose D1 7         .. and taken out again       ok 8
  rows A1:B1            a table of what cells show   rows 1, then 5,10
  entry B1              what a cell holds            entry =[.A1]*2
  entries A1:B1         a table of what cells hold   entries 1, then 5,=[.A1]*2
  pull 0 16             what was done, as one line   delta 8 [[\"A1\", ..
  push [[\"A1\", ..       .. taken in elsewhere        ok 1
  merge [[\"A1\", ..      .. only what is new of it    same 1
  replica               whose sheet it is            replica 1

`ok` comes with the version, the number of changes so far; `err` with the number
and the name of the refusal (`sheet --help` lists them), and the session goes on:
the status is 0 in the end, or 3 with `--strict`. The line that `pull` returns can
be stored, and pushed to another replica, in any order and more than once. Cells are
A1 to CZ1024. A formula is written =SUM([.A1:.A3])*2, and anything that is no
number and no formula is a text. What a cell holds is written as a canonical text:
007 as 7, and a text with an apostrophe before it.

Examples:

  printf 'set A1 5\\nset B1 =[.A1]*2\\nget B1\\n' | sheet run
  sheet run --replica 2 --workers 4 < my.lines
  sheet run --explain --strict < my.lines
  sheet run --keep plan.lines --squash < my.lines

With `--keep` the sheet begins with what the file has, and each change is on the disk
before its `ok` is written. The file is text, a line `replica` and change lines, so
`sheet run < plan.lines` shows the sheet, too. Standard error gets the name of the
file and the number of its changes: `opened plan.lines, 306 changes`.";

/// The text below the options in the output of `sheet table --help`.
pub const TABLE_HELP: &str = "\
Standard input is a table of CSV: its first record goes to row 1, its first field
to column A. A field is an entry, as in `set`: a number, a formula, a text. The
output is the table of what the cells show, or with `--entries` of what they hold,
as canonical texts that can be read in again.

Examples:

  printf '2,=[.A1]*3\\n\"x,y\",@tally\\n' | sheet table

writes

  2,6
  \"x,y\",0

  sheet table --entries --workers 4 < plan.csv > again.csv
  sheet table --explain < plan.csv > shown.csv";

/// The text below the options in the output of `sheet serve --help`.
pub const SERVE_HELP: &str = "\
It opens a sheet, which is empty unless the file of `--keep` has changes, listens on
this machine, 127.0.0.1, and writes `listening` and the port. Each connection is a
session: its lines are commands, as in `run`, and all sessions change and read the
one sheet side by side. Standard error gets the address of the sheet's page, at the
same port: each browser that opens the page has a session, too. When a session ends,
the next one gets its slot. A connection that finds no free slot waits for one; after
the time of `--wait` it gets `err 21 seat` and is closed.

With `--sessions` it writes `closed` and the number of changes once so many sessions
have ended, and ends. Without `--keep` the sheet is gone then. With it, each change is
on the disk before its `ok` is written, and the next server with that file begins with
all of them.

Examples:

  sheet serve --port 7001 --sessions 2 --replica 1

writes

  listening 7001

with `page http://127.0.0.1:7001/` on standard error, and once two sessions have come,
each of them with a `set`, and have ended

  closed 2

  sheet serve --port 7001 --seats 4 --wait 30 --idle 1800
  sheet serve --port 7001 --workers 4 --explain
  sheet serve --port 7001 --keep plan.lines --squash --title 'Our plan'";

/// The text below the options in the output of `sheet sync --help`.
pub const SYNC_HELP: &str = "\
Both replicas listen on this machine, 127.0.0.1. All deltas of the first are
pulled, from version 0 on, up to 16 in a line, and each line is pushed to the
second; what the second has already changes nothing. At the end it writes `synced`
and the number of lines. Nothing goes the other way: for that, run it again with
the ports exchanged.

Examples:

  sheet sync --from 7001 --to 7002

writes

  synced 1

  sheet sync --from 7002 --to 7001 --explain";

/// The text below the options in the output of `sheet join --help`.
pub const JOIN_HELP: &str = "\
Both replicas listen on this machine, 127.0.0.1. All that the first one has is
merged at the second one, and then all that the second one has at the first. After
that each new change of one goes to the other at once, until the command is stopped.
A change that a replica has already changes nothing there.

It connects again when a connection ends or a port can't be connected to: after 0.1
seconds, then after twice as long each time, at most 10 seconds. Standard error gets
`joined 7001 and 7002` whenever both are at the same changes over new connections,
and a line `port 7002: ..` with the reason when one of them is lost.

With --once it writes `joined` on standard output once each has all that the other
one had, and ends. A fault ends it then, and changes that were merged stay.

With --check it merges nothing. It asks each for all of its changes, and compares what
the cells hold: contents, counters and sets, shown or not. Then it writes `in step at`
and both versions; or `differ`, the number of cells that differ and the first 20 of
them, row by row, and the exit status is 3.

With - in place of one port, standard input and output lead to that replica: what it
writes comes in, and the lines that are sent to it go out. Standard error gets
`joined - and 7002` then. The command ends with status 1 when either of the two is
lost, as it can't open standard input again.

Examples:

  sheet join --from 7001 --to 7002
  sheet join --from 7001 --to 7002 --once --explain
  sheet join --from 7001 --to 7002 --check

The second one writes

  joined

and the third one then, say,

  in step at 4 and 2

With --with and --lines there is one replica, and lines in place of the other one.
Each line `merge ..` of standard input is merged. Each change that didn't come in so
is written as such a line on standard output, at once; first all that the replica
has. A refused line is skipped, and standard error gets its number. At the end of the
input the command ends once all is merged and written, with status 0. When the
connection ends, it is opened again, and all is written again; with --once the
command ends. So one process is enough for a broker's topic:

  mosquitto_sub -t plan | sheet join --with 7001 --lines | mosquitto_pub -l -t plan";

/// The text below the options in the output of `sheet follow --help`.
pub const FOLLOW_HELP: &str = "\
The replica listens on this machine, 127.0.0.1. All that it has is written on
standard output, from the first change on or after the first ones that --after
passes over, up to 16 changes in a line, each line after the word `push`. Then each
new change is written as it comes, until the replica closes the connection or the
reader closes the output. Any other replica takes the lines in, in any order and more
than once. With --until-now it ends once all that the replica has is written; a
replica that closes before that is refused as `err 15 line`.

Examples:

  sheet follow --from 7001 --until-now > all.lines
  sheet follow --from 7001 | sheet talk --to 7002 > replies
  sheet follow --from 7001 --after 250000 >> all.lines
  sheet follow --from 7001 --every 1000 --explain

The first writes a replica to a file, the second sends each change of one replica
to another as it comes, the third goes on after the changes that a file has, and the
last is one for earlier versions. A line is such as

  push [[\"A1\",[1,1,\"5\"],[],[]]]";

/// The text below the options in the output of `sheet talk --help`.
pub const TALK_HELP: &str = "\
The server listens on this machine, 127.0.0.1. Each line of standard input is sent
there, and its reply is written on standard output, whole, before the next line is
read. So `talk` does what `run` does, with the sheet that all sessions of the server
share. A refused line has its reply too, and the session goes on. It ends with the
input. It ends early, with a word on standard error, if the server has no slot
(`err 21 seat`), if it closes before the end or sends a reply that isn't due
(`err 15 line`), or if the connection fails (`err 20 device`).

Examples:

  printf 'set A1 5\\nget A1\\n' | sheet talk --to 7001

writes

  ok 1
  val 5

  sheet talk --to 7001
  sheet talk --to 7001 --explain < my.lines > replies
  sheet follow --from 7001 | sheet talk --to 7002 > replies

At a terminal, as in the second one, type a line and read its reply; Ctrl-D ends it.";

/// The text below the options in the output of `sheet squash --help`.
pub const SQUASH_HELP: &str = "\
Each line of standard input is the line of a delta, with or without `push ` before
it. What they say together is written as change lines, cell after cell, as many cells
in a line as it has room for. A sheet that takes in the old lines or the new ones
shows the same. If a line isn't a delta's, nothing is written, and standard error
gets `err 14 delta` and the line's number. A first line `replica 1`, as a kept file
has, stays.

With `--keep` the lines are those of a kept file, and the new lines replace it. The
file has the old lines or the new ones, whenever the program ends. A file that another
program keeps is refused. Standard error gets the number of changes before and after:
`squashed plan.lines, 306 changes to 2`.

With --until or --without the lines become those of a sheet from before some changes.
--until counts change lines; the lines after them are left out, and have to be in
order all the same. --without leaves out of each line what that replica stamped: its
assignments, its counts and what it chose. What a line doesn't have can't come back:
a squashed line, or one that `pull` made of several changes, has the last assignment
alone, and no set says which replica took an option out. Standard error says what is
lost: `squash: left out 12 of 40 lines`, `squash: left out parts of 3 cells`. Neither
goes with --keep, as the file would lose them.

Examples:

  sheet squash < plan.lines > small
  sheet squash --keep plan.lines
  sheet squash --until 100 < plan.lines > early.lines
  sheet squash --without 2 < plan.lines > others.lines

From

  push [[\"A1\",[1,1,\"5\"],[],[]]]
  push [[\"A1\",[2,1,\"6\"],[],[]]]
  push [[\"B1\",[1,1,\"7\"],[],[]]]

it writes

  push [[\"A1\",[2,1,\"6\"],[],[]],[\"B1\",[1,1,\"7\"],[],[]]]";
