//! The items (numbers and faults) of all arguments of SUM, MIN, MAX or COUNT, summarized.

ghost use Rattle.std.specs.Prelude.{◌≡◌, ◌+◌, ◌*◌, ◌^◌, ◌<◌, ◌≤◌, List, [], ◌++◌, unsigned_abs};
ghost use Rattle.ps_eval.specs.Number.{Number};

use crate::summary::Summary;
use crate::total::Total;
use ps_value::Fault;

/// A summary of the items of the arguments so far.
///
/// Its count and its sum are wider than those of a `Summary`, which many ranges could overflow.
#[derive(Drop)]
pub(crate) struct ArgumentsSummary {
    /// this field and those below: as in a `Summary`
    count: u128,
    sum: Total,
    least: i64,
    greatest: i64,
    fault: Option<Fault>,
    ghost bounded: { unsigned_abs sum ≤ count * 2 ^ 63 },
}

impl ArgumentsSummary {
    ghost use Rattle.ps_eval.specs.Items.{count_of, max_of, min_of, sum_of};
    ghost use Rattle.ps_eval.specs.Summarized.{Summarizes, SummarizesArguments, numbers_taken};

    /// Creates a summary of no items.
    pub(crate) fn new() -> ArgumentsSummary
        ensures { SummarizesArguments [] result }
    {
        ArgumentsSummary {
            count: 0,
            sum: Total::new(),
            least: i64::MAX,
            greatest: i64::MIN,
            fault: None,
        }
    }

    /// Adds all items of one more argument.
    #[inline]
    pub(crate) fn join(&mut self, argument: &Summary)
        requires room { self.old.count < 2 ^ 100 }
        requires room_of_argument { numbers_taken argument.now < 2 ^ 60 }
        ensures items { (items others : List Number)
            → SummarizesArguments items self.old
            → Summarizes others argument.now
            → SummarizesArguments (items ++ others) self.new }
        ensures count { self.new.count ≡ self.old.count + numbers_taken argument.now }
    {
        self.least = self.least.min(argument.least);
        self.greatest = self.greatest.max(argument.greatest);
        self.count += u128::from(argument.count);
        self.sum.add(argument.sum);
        self.fault = self.fault.or(argument.fault);
    }

    /// Returns SUM of the items: the first fault, or the exact sum, or `Fault::Num` if that is no `i64`.
    pub(crate) fn sum(&self) -> Result<i64, Fault>
        ensures { (items : List Number) → SummarizesArguments items self.now → result ≡ sum_of items }
    {
        match self.fault {
            Some(fault) => Err(fault),
            None => self.sum.value(),
        }
    }

    /// Returns MIN of the items: the first fault, or the least number, or 0 without numbers.
    pub(crate) fn min(&self) -> Result<i64, Fault>
        ensures { (items : List Number) → SummarizesArguments items self.now → result ≡ min_of items }
    {
        match self.fault {
            Some(fault) => Err(fault),
            None if self.count == 0 => Ok(0),
            None => Ok(self.least),
        }
    }

    /// Returns MAX of the items: the first fault, or the greatest number, or 0 without numbers.
    pub(crate) fn max(&self) -> Result<i64, Fault>
        ensures { (items : List Number) → SummarizesArguments items self.now → result ≡ max_of items }
    {
        match self.fault {
            Some(fault) => Err(fault),
            None if self.count == 0 => Ok(0),
            None => Ok(self.greatest),
        }
    }

    /// Returns COUNT of the items: how many are numbers. Faults are passed over.
    pub(crate) fn count(&self) -> Result<i64, Fault>
        ensures { (items : List Number) → SummarizesArguments items self.now → result ≡ count_of items }
    {
        if self.count <= GREATEST {
            Ok(self.count as i64)
        } else {
            Err(Fault::Num)
        }
    }
}

/// The greatest `i64`.
const GREATEST: u128 = 0x7fff_ffff_ffff_ffff;
