//! The options of each command, with their numbers in range.
ghost use Rattle.std.specs.Option.{ForSome};
ghost use Rattle.std.specs.Prelude.{◌≡◌, ◌≤◌, IsSome, None, false, true};
ghost use Rattle.ps_grid.specs.declared.parties.TheConstants.{REPLICAS, SEATS, WORKERS};
ghost use Rattle.ps_words.specs.declared.options.TheConstants.{LONGEST_IDLE, LONGEST_PAUSE};
ghost use Rattle.ps_words.specs.declared.options.TheConstants.{LONGEST_WAIT, MOST_CHANGES, MOST_SESSIONS};

/// The greatest value of `--sessions` of `serve`: after how many sessions it ends.
pub const MOST_SESSIONS: u32 = 1_000_000;

/// The greatest value of `--wait` of `serve`, in seconds: how long a connection waits for a free slot.
pub const LONGEST_WAIT: u8 = 60;

/// The greatest value of `--idle` of `serve`, in seconds: one day. A session ends once its peer has sent nothing for
/// the seconds of `--idle`.
pub const LONGEST_IDLE: u32 = 86_400;

/// The greatest value of `--every` of `follow`, in milliseconds. The option has no effect any more.
pub const LONGEST_PAUSE: u16 = 60_000;

/// The greatest value of `--until` of `squash`, in change lines, and of `--after` of `follow`, in changes.
pub const MOST_CHANGES: u32 = 1_000_000_000;

/// The options that `run` and `serve` open their sheet with.
#[derive(Clone, Copy, PartialEq, Eq)]
pub struct SheetOptions {
    /// How many threads may evaluate formulas at once, 1 to `WORKERS`.
    pub workers: u8,
    /// The replica's number, 1 to `REPLICAS`.
    pub replica: u8,
    /// Whether the file of `--keep` is squashed first (rewritten with fewer lines), if that at least halves its length.
    pub squash: bool,
    ghost workers_in_range: { (1 ≤ workers) × (workers ≤ WORKERS) },
    ghost replica_in_range: { (1 ≤ replica) × (replica ≤ REPLICAS) },
}

/// The options of `sheet run`.
#[derive(Clone, Copy, PartialEq, Eq)]
pub struct RunOptions<'a> {
    /// The options of the sheet that the command opens.
    pub sheet: SheetOptions,
    /// The path of the kept file, which the sheet's changes are read from and appended to; `None` for a sheet in memory
    /// only.
    pub keep: Option<&'a str>,
    /// Whether standard error gets a hint for each line that is refused, or whose entry looks like a number or a
    /// formula but is a text.
    pub explain: bool,
    /// Whether the exit status is 3 if a line was refused.
    pub strict: bool,
}

/// The options of `sheet table`.
#[derive(Clone, Copy, PartialEq, Eq)]
pub struct TableOptions {
    /// How many threads may evaluate formulas at once, 1 to `WORKERS`.
    pub workers: u8,
    /// Whether the output has what each cell holds (a formula, say) instead of what it shows.
    pub entries: bool,
    /// Whether standard error gets a hint for each field that is refused, or that looks like a number or a formula but
    /// is a text.
    pub explain: bool,
    ghost workers_in_range: { (1 ≤ workers) × (workers ≤ WORKERS) },
}

/// The options of `sheet serve`.
#[derive(Clone, Copy, PartialEq, Eq)]
pub struct ServeOptions<'a> {
    /// The port to listen on, 1 or more.
    pub port: u16,
    /// The options of the sheet that the command opens.
    pub sheet: SheetOptions,
    /// The path of the kept file, which the sheet's changes are read from and appended to; `None` for a sheet in memory
    /// only.
    pub keep: Option<&'a str>,
    /// The title of the sheet's page. If it is `None`, the title is the kept file's name, or without a kept file what
    /// A1 shows.
    pub title: Option<&'a str>,
    /// How many sessions to serve before the program ends, 1 to `MOST_SESSIONS`; `None` to serve until it is stopped.
    pub sessions: Option<u32>,
    /// The number of slots, 1 to `SEATS`: how many sessions are served at a time.
    pub seats: u16,
    /// How many seconds a connection waits for a free slot, 0 to `LONGEST_WAIT`.
    pub wait: u8,
    /// How many seconds a peer may be silent before its session ends, 1 to `LONGEST_IDLE`.
    ///
    /// If it is `None`, a peer has 30 seconds for its first line, and no limit after it. A browser may be silent for 5
    /// minutes.
    pub idle: Option<u32>,
    /// Whether standard error gets the reason if a port can't be used.
    pub explain: bool,
    ghost port_in_range: { 1 ≤ port },
    ghost sessions_in_range: { ForSome sessions (λ n. (1 ≤ n) × (n ≤ MOST_SESSIONS)) },
    ghost seats_in_range: { (1 ≤ seats) × (seats ≤ SEATS) },
    ghost wait_in_range: { wait ≤ LONGEST_WAIT },
    ghost idle_in_range: { ForSome idle (λ n. (1 ≤ n) × (n ≤ LONGEST_IDLE)) },
}

/// The options of `sheet sync`.
#[derive(Clone, Copy, PartialEq, Eq)]
pub struct SyncOptions {
    /// The port of the replica whose deltas are pulled, 1 or more.
    pub from: u16,
    /// The port of the replica that the deltas are pushed to, 1 or more.
    pub to: u16,
    /// Whether standard error gets the reason if a port can't be used.
    pub explain: bool,
    ghost from_in_range: { 1 ≤ from },
    ghost to_in_range: { 1 ≤ to },
}

/// The options of `sheet join` between two ports.
#[derive(Clone, Copy, PartialEq, Eq)]
pub struct JoinOptions {
    /// The port of the replica whose changes are merged at the other one first, 1 or more.
    pub from: u16,
    /// The port of the other replica, 1 or more.
    pub to: u16,
    /// Whether the command ends once each replica has all changes that the other one had. With neither `once` nor
    /// `check`, the command merges new changes until it is stopped.
    pub once: bool,
    /// Whether the command only reports which cells of the two replicas differ, and merges nothing.
    pub check: bool,
    /// Whether standard error gets the reason if a port can't be used.
    pub explain: bool,
    ghost from_in_range: { 1 ≤ from },
    ghost to_in_range: { 1 ≤ to },
    ghost one_way: { once ≡ true → check ≡ false },
}

/// The options of `sheet join` between a port and `-`, the replica behind standard input and output.
#[derive(Clone, Copy, PartialEq, Eq)]
pub struct PipeOptions {
    /// Whether `-` is the value of `--from`, and not of `--to`. The changes of the `--from` replica are merged first.
    pub is_first: bool,
    /// The port of the replica that isn't behind standard input and output, 1 or more.
    pub port: u16,
    /// Whether the command ends once each replica has all changes that the other one had; if not, it merges new changes
    /// until an end is lost.
    pub once: bool,
    /// Whether standard error gets the reason if the port can't be used.
    pub explain: bool,
    ghost port_in_range: { 1 ≤ port },
}

/// The options of `sheet join --with --lines`, which merges the lines of standard input at one replica.
#[derive(Clone, Copy, PartialEq, Eq)]
pub struct RelayOptions {
    /// The port of the replica that the lines are merged at, 1 or more.
    pub server: u16,
    /// Whether the command ends when its connection is lost, or a request refused; if not, it connects again.
    pub once: bool,
    /// Whether standard error gets the reason if the port can't be used.
    pub explain: bool,
    ghost server_in_range: { 1 ≤ server },
}

/// The options of `sheet follow`.
#[derive(Clone, Copy, PartialEq, Eq)]
pub struct FollowOptions {
    /// The port of the replica that is followed, 1 or more.
    pub from: u16,
    /// How many of the replica's changes are skipped, counted from its first one, 0 to `MOST_CHANGES`.
    pub after: u32,
    /// Whether the command ends once it has written all changes of the replica; if not, it also writes each new change.
    pub until_now: bool,
    /// The milliseconds of `--every`, 1 to `LONGEST_PAUSE`. They have no effect any more.
    pub every: u16,
    /// Whether standard error gets the reason if a port can't be used.
    pub explain: bool,
    ghost from_in_range: { 1 ≤ from },
    ghost after_in_range: { after ≤ MOST_CHANGES },
    ghost every_in_range: { (1 ≤ every) × (every ≤ LONGEST_PAUSE) },
}

/// The options of `sheet talk`.
#[derive(Clone, Copy, PartialEq, Eq)]
pub struct TalkOptions {
    /// The port of the server that the lines are sent to, 1 or more.
    pub to: u16,
    /// Whether standard error gets a hint for each line that is refused, or whose entry looks like a number or a
    /// formula but is a text. If the port can't be used, it also gets the reason.
    pub explain: bool,
    ghost to_in_range: { 1 ≤ to },
}

/// The options of `sheet squash`.
#[derive(Clone, Copy, PartialEq, Eq)]
pub struct SquashOptions<'a> {
    /// The path of the kept file to squash in its place; `None` to squash the lines of standard input.
    pub keep: Option<&'a str>,
    /// How many change lines are used, counted from the first one, 1 to `MOST_CHANGES`; `None` to use all.
    pub until: Option<u32>,
    /// The number of the replica whose assignments, counts and choices are left out, 1 to `REPLICAS`; `None` to leave
    /// out nothing.
    pub without: Option<u8>,
    ghost until_in_range: { ForSome until (λ n. (1 ≤ n) × (n ≤ MOST_CHANGES)) },
    ghost without_in_range: { ForSome without (λ n. (1 ≤ n) × (n ≤ REPLICAS)) },
    ghost whole_in_place: { IsSome keep → (until ≡ None) × (without ≡ None) },
}

/// A command of `sheet` with its options. Each variant says what the command does.
#[derive(Clone, Copy)]
pub enum Options<'a> {
    /// `run`: answers each line of standard input.
    Run(RunOptions<'a>),
    /// `table`: reads a CSV table, and writes what its cells show, or their entries.
    Table(TableOptions),
    /// `serve`: answers the lines of several sessions over TCP.
    Serve(ServeOptions<'a>),
    /// `sync`: pushes all changes of one replica to another.
    Sync(SyncOptions),
    /// `join` between two ports: merges the changes of each replica at the other, or reports which cells differ.
    Join(JoinOptions),
    /// `join` between a port and `-`: merges the changes of each replica at the other. One is at the port, the other
    /// behind standard input and output.
    Pipe(PipeOptions),
    /// `join --with --lines`: merges the `merge` lines of standard input at a replica, and writes the replica's other
    /// changes as `merge` lines.
    Relay(RelayOptions),
    /// `follow`: writes the changes of a replica as change lines.
    Follow(FollowOptions),
    /// `talk`: sends each line of standard input to a server, and writes its replies.
    Talk(TalkOptions),
    /// `squash`: joins the deltas of many lines, and writes them as few change lines.
    Squash(SquashOptions<'a>),
}
