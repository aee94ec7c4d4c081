//! The limits of the numbers in a state, and why each limit has its value.

ghost use Rattle.std.specs.Prelude.{◌≡◌};
ghost use Rattle.ps_lattice.specs.Limits.{is_replica};

use ps_grid::REPLICAS;

/// The greatest time in the stamp of an assignment to a register. Times are Lamport times, counted from 1.
///
/// The limit is 2^53 - 1: a program that reads JSON numbers as `f64` reads all whole numbers up to the limit exactly.
pub const LAST_TIME: u64 = 9_007_199_254_740_991;

/// The greatest total that one replica may add to a tally (a counter), and the greatest that it may subtract: 2^40.
///
/// `REPLICAS` times this limit is 2^45. So the sum of all replicas' totals added fits an `i64`, and so do the sum of
/// their totals subtracted and the difference, the counter's value. A total is exact in a JSON number read as `f64`.
pub const COUNT_LIMIT: u64 = 1_099_511_627_776;

/// The greatest amount that one edit adds or subtracts; the least is 1.
///
/// The sum of this limit and `COUNT_LIMIT` fits a `u64`. So an edit can add the amount to a total first, and then
/// compare the new total with `COUNT_LIMIT`.
pub const AMOUNT_LIMIT: u64 = 1_000_000;

/// How many options a choice offers. Options are the numbers 0 to 63, one for each bit of the `u64` that
/// `Choice::options` returns.
pub const OPTIONS: u64 = 64;

/// The greatest sequence number that a replica can use in a choice; the first is 1.
///
/// A choice has at most `OPTIONS` times `REPLICAS` times this many pairs. If no two parties edit as one replica, a
/// replica uses each sequence number for one option, so a choice has at most `REPLICAS` times this many pairs. A change
/// line, as `ps_lines` limits its length, has room for all pairs of one option. A greater limit needs longer lines.
pub const SEQUENCES: u16 = 256;

/// Returns whether a replica may have this number.
pub(crate) fn is_replica(replica: u8) -> bool
    ensures { result ≡ is_replica replica }
{
    replica >= 1 && replica <= REPLICAS
}
