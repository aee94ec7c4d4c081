//! A last-writer register: the last writer wins.

ghost use Rattle.std.specs.Prelude.{◌≡◌, ◌+◌, ◌≤◌, ◌↔◌, IsTrue, IfOk, IfErr, IsErrOf, IfSome};
ghost use Rattle.std.specs.Option.{SomeIff, option_copied, option_map};
ghost use Rattle.ps_lattice.specs.News.{IsNewsOf};
ghost use Rattle.ps_lattice.specs.Register.{assignment_cmp, joined_registers, time_of, is_stamp, looked_at};

use crate::join::{Join, Linear};
use crate::limits::{LAST_TIME, is_replica};
use ps_grid::{REPLICAS, Refusal, Twin};
use std::alloc::Global;
use std::cmp::Ordering;
use std::marker::Model;

/// A content that was assigned, with its stamp: the time and the replica of the assignment, a Lamport timestamp.
#[derive(Debug, Drop)]
pub struct Assignment<V> {
    /// The Lamport time, 1 to `LAST_TIME`.
    pub time: u64,
    /// The replica that assigned the content, 1 to `REPLICAS`.
    pub replica: u8,
    /// The content that was assigned.
    pub content: V,
}

/// A register: the greatest of the assignments that were joined into it, or nothing yet.
///
/// Assignments are ordered by time, then by replica, then by content.
#[derive(Debug, Drop)]
pub struct Register<V> {
    held: Held<V>,
}

/// Nothing, or the parts of an assignment.
///
/// The replica's number lies beside the mark of the variant, so a register takes two words more than its content.
#[derive(Debug, Drop)]
enum Held<V> {
    Nothing,
    Assigned { replica: u8, time: u64, content: V },
}

impl<V> Model for Register<V> {
    ghost use Rattle.std.specs.Prelude.{Option, IsTrue};
    ghost use Rattle.ps_lattice.specs.declared.register.Assignment.{Assignment};
    ghost use Rattle.ps_lattice.specs.Register.{is_register};
    ghost use Rattle.ps_lattice.specs.Inside.Held.{assignment_in};

    ghost Value = { Option (Assignment V) };

    ghost view = { λ r. assignment_in r.held };

    ghost invariant = { λ r. IsTrue (is_register (assignment_in r.held)) };
}

impl<V> Register<V> {
    /// Creates a register to which nothing was assigned.
    pub fn empty() -> Self
        ensures { result ≡ None }
    {
        Register {
            held: Held::Nothing,
        }
    }

    /// Returns whether nothing was assigned to the register yet.
    pub fn is_empty(&self) -> bool
        ensures { IsTrue result ↔ (self.now ≡ None) }
    {
        match self.held {
            Held::Nothing => true,
            Held::Assigned { .. } => false,
        }
    }

    /// Returns the assignment that the register holds, if any, with a reference to its content.
    #[inline(always)]
    pub fn parts(&self) -> Option<Assignment<&V>>
        ensures value { option_map looked_at result ≡ self.now }
        ensures in_range { IfSome self.now (λ a. IsTrue (is_stamp a.time a.replica)) }
    {
        match &self.held {
            Held::Nothing => None,
            Held::Assigned {
                replica,
                time,
                content,
            } => Some(Assignment {
                time: *time,
                replica: *replica,
                content,
            }),
        }
    }

    /// Returns the content that the register holds, if any.
    #[inline(always)]
    pub fn content(&self) -> Option<&V>
        ensures { option_copied result ≡ option_map (λ a. a.content) self.now }
    {
        match &self.held {
            Held::Nothing => None,
            Held::Assigned { content, .. } => Some(content),
        }
    }

    /// Returns the Lamport time of the assignment that the register holds, or 0 if nothing was assigned yet.
    #[inline(always)]
    pub fn time(&self) -> u64
        ensures value { result ≡ time_of self.now }
        ensures in_range { result ≤ LAST_TIME }
    {
        match self.held {
            Held::Nothing => 0,
            Held::Assigned { time, .. } => time,
        }
    }

    /// Returns the register that holds this assignment; `None` if the time or the replica is out of range.
    pub fn from_parts(assignment: Assignment<V>) -> Option<Register<V>>
    where
        V: Drop,
        ensures { SomeIff result (IsTrue (is_stamp assignment.time assignment.replica)) (Some assignment) }
    {
        let time_fits = assignment.time >= 1 && assignment.time <= LAST_TIME;
        if time_fits && is_replica(assignment.replica) {
            Some(Register {
                held: Held::Assigned {
                    replica: assignment.replica,
                    time: assignment.time,
                    content: assignment.content,
                },
            })
        } else {
            None
        }
    }
}

impl<V: Linear + Drop> Register<V> {
    /// Returns the delta by which the replica assigns the content, at a time one above the time of this register.
    ///
    /// The register changes only once it is joined with the delta. Refused as `ClockFull` if the time of this register
    /// is `LAST_TIME` already.
    pub fn assign(&self, replica: u8, content: V) -> Result<Register<V>, Refusal>
        requires { (1 ≤ replica) × (replica ≤ REPLICAS) }
        ensures ok { IfOk result (λ d. d
            ≡ Some (record { time = time_of self.now + 1; replica = replica; content = content })) }
        ensures full { IsErrOf result Refusal.ClockFull ↔ (time_of self.now ≡ LAST_TIME) }
        ensures only_full { IfErr result (λ e. e ≡ Refusal.ClockFull) }
        ensures assigns { IfOk result (λ d. joined_registers V.cmp self.now d ≡ d) }
        ensures fresh { IfOk result (λ d. ¬ (joined_registers V.cmp self.now d ≡ self.now)) }
    {
        let time = self.time();
        if time == LAST_TIME {
            return Err(Refusal::ClockFull);
        }
        Ok(Register {
            held: Held::Assigned {
                replica,
                time: time + 1,
                content,
            },
        })
    }
}

impl<V: Linear + Twin + Drop> Register<V> {
    /// Returns the join of this register and `other`: a register with the greater of both assignments.
    ///
    /// Refused only when out of memory.
    ///
    /// Cost: at most one twin (a copy) of a content, and one comparison of the contents if the stamps are equal.
    #[inline(always)]
    pub fn joined(&self, alloc: Global, other: &Register<V>) -> Result<Register<V>, Refusal>
        ensures ok { IfOk result (λ r. r ≡ joined_registers V.cmp self.now other.now) }
        ensures memory { IfErr result (λ e. e ≡ Refusal.Memory) }
    {
        let newer = if other.below(self) { self } else { other };
        newer.twin(alloc)
    }

    /// Returns the part of `delta` that is new to this register: the whole delta if it has the greater assignment,
    /// otherwise an empty register.
    ///
    /// Refused only when out of memory.
    ///
    /// Cost: at most one twin (a copy) of a content, and one comparison of the contents if the stamps are equal.
    #[inline(always)]
    pub fn news(&self, alloc: Global, delta: &Register<V>) -> Result<Register<V>, Refusal>
        ensures ok { IfOk result (λ r. IsNewsOf (joined_registers V.cmp) self.now delta.now r) }
        ensures memory { IfErr result (λ e. e ≡ Refusal.Memory) }
    {
        if delta.below(self) {
            return Ok(Register::empty());
        }
        delta.twin(alloc)
    }
}

impl<V: Twin> Twin for Register<V> {
    #[inline(always)]
    fn twin(&self, alloc: Global) -> Result<Self, Refusal> {
        let held = match &self.held {
            Held::Nothing => Held::Nothing,
            Held::Assigned {
                replica,
                time,
                content,
            } => Held::Assigned {
                replica: *replica,
                time: *time,
                content: content.twin(alloc)?,
            },
        };
        Ok(Register { held })
    }
}

impl<V: Linear + Twin + Drop> Join for Register<V> {
    ghost use Rattle.ps_lattice.specs.Register.{joined_registers};
    ghost use Rattle.ps_lattice.specs.RegisterLaws.{registers_is_join};

    ghost joined = { joined_registers V.cmp };

    ghost associative = { (registers_is_join V.cmp V.Ord.total V.no_ties).associative };

    ghost commutative = { (registers_is_join V.cmp V.Ord.total V.no_ties).commutative };

    ghost idempotent = { (registers_is_join V.cmp V.Ord.total V.no_ties).idempotent };

    #[inline(always)]
    fn join(&mut self, alloc: Global, other: &Self) -> Result<(), Refusal> {
        if !other.below(self) {
            *self = other.twin(alloc)?;
        }
        Ok(())
    }

    #[inline(always)]
    fn below(&self, other: &Self) -> bool {
        match (self.parts(), other.parts()) {
            (None, _) => true,
            (Some(_), None) => false,
            (Some(mine), Some(theirs)) => compare(&mine, &theirs) != Ordering::Greater,
        }
    }
}

/// Compares two assignments: by time, then by replica, then by content.
#[inline]
fn compare<V: Ord>(mine: &Assignment<&V>, theirs: &Assignment<&V>) -> Ordering
    ensures { result ≡ assignment_cmp V.cmp (looked_at mine.now) (looked_at theirs.now) }
{
    match mine.time.cmp(&theirs.time) {
        Ordering::Equal => {}
        order => return order,
    }
    match mine.replica.cmp(&theirs.replica) {
        Ordering::Equal => mine.content.cmp(theirs.content),
        order => order,
    }
}
