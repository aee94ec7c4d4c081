//! What AND and OR need to know of the values of their arguments.

ghost use Rattle.std.specs.Prelude.{◌≡◌, ◌&&◌, ◌||◌, not, List, [], ◌∷◌, ◌++◌};
ghost use Rattle.ps_eval.specs.Number.{is_zero, Number};

use crate::arithmetic::truth;
use ps_value::Fault;

/// A summary of the values so far.
#[derive(Drop)]
pub(crate) struct Truths {
    // whether no number is 0, and whether some number isn't 0
    all: bool,
    any: bool,
    // the first fault
    fault: Option<Fault>,
}

impl Truths {
    ghost use Rattle.ps_eval.specs.Items.{all_of, any_of};
    ghost use Rattle.ps_eval.specs.Summarized.{Judges};

    /// Creates a summary of no values.
    pub(crate) fn new() -> Truths
        ensures { Judges [] result }
    {
        Truths {
            all: true,
            any: false,
            fault: None,
        }
    }

    /// Adds one value.
    pub(crate) fn take(&mut self, value: Result<i64, Fault>)
        ensures { (values : List Number) → Judges values self.old → Judges (values ++ value ∷ []) self.new }
    {
        match value {
            Ok(number) => self.take_number(number),
            Err(fault) => self.take_fault(fault),
        }
    }

    /// Adds one number.
    fn take_number(&mut self, number: i64)
        ensures { (values : List Number) → Judges values self.old → Judges (values ++ Ok number ∷ []) self.new }
    {
        self.all = every(self.all, number);
        self.any = some(self.any, number);
    }

    /// Adds one fault; the first one stays.
    fn take_fault(&mut self, fault: Fault)
        ensures { (values : List Number) → Judges values self.old → Judges (values ++ Err fault ∷ []) self.new }
    {
        self.fault = self.fault.or(Some(fault));
    }

    /// Returns AND of the values: the first fault, or 1 if no number is 0, else 0.
    pub(crate) fn all(&self) -> Result<i64, Fault>
        ensures { (values : List Number) → Judges values self.now → result ≡ all_of values }
    {
        match self.fault {
            Some(fault) => Err(fault),
            None => Ok(truth(self.all)),
        }
    }

    /// Returns OR of the values: the first fault, or 1 if some number isn't 0, else 0.
    pub(crate) fn any(&self) -> Result<i64, Fault>
        ensures { (values : List Number) → Judges values self.now → result ≡ any_of values }
    {
        match self.fault {
            Some(fault) => Err(fault),
            None => Ok(truth(self.any)),
        }
    }
}

/// Whether no number is 0 (`all`, for the numbers so far), with one more number.
fn every(all: bool, number: i64) -> bool
    ensures { result ≡ (all && not (is_zero number)) }
{
    all && number != 0
}

/// Whether some number isn't 0 (`any`, for the numbers so far), with one more number.
fn some(any: bool, number: i64) -> bool
    ensures { result ≡ (any || not (is_zero number)) }
{
    any || number != 0
}
