//! What SUM, MIN, MAX and COUNT need to know of a list of items, each a number or a fault.

ghost use Rattle.std.specs.Prelude.{◌≡◌, ◌↔◌, ◌+◌, ◌*◌, ◌^◌, ◌<◌, ◌≤◌, ◌<ℤ◌, List, [], ◌∷◌, ◌++◌, unsigned_abs};
ghost use Rattle.std.specs.Prelude.{is_some, IsTrue, IsFalse};
ghost use Rattle.ps_eval.specs.Number.{Number};

use ps_value::{Fault, Operand};

/// A summary of a list of items, each a number or a fault. The summary has the count of the numbers, their exact sum,
/// the least and the greatest number, and the first fault.
///
/// In contracts, `Summarizes items summary` says that `summary` is the summary of the list `items`.
#[derive(Drop)]
pub struct Summary {
    /// the sum of the numbers, first since it is aligned to sixteen bytes
    pub(crate) sum: i128,
    /// how many numbers there are
    pub(crate) count: u64,
    /// the least number; `i64::MAX` without numbers
    pub(crate) least: i64,
    /// the greatest number; `i64::MIN` without numbers
    pub(crate) greatest: i64,
    /// the first fault
    pub(crate) fault: Option<Fault>,
    ghost bounded: { unsigned_abs sum ≤ count * 2 ^ 63 },
}

impl Summary {
    ghost use Rattle.ps_eval.specs.Items.{first_fault};
    ghost use Rattle.ps_eval.specs.Inside.Operands.{items_from};
    ghost use Rattle.ps_eval.specs.Summarized.{MayLeave, Summarizes, numbers_taken};

    /// Creates a summary of no items.
    pub fn new() -> Summary
        ensures { Summarizes [] result }
    {
        Summary {
            sum: 0,
            count: 0,
            least: i64::MAX,
            greatest: i64::MIN,
            fault: None,
        }
    }

    /// Adds one number.
    #[inline(always)]
    fn take_number(&mut self, number: i64)
        requires { self.old.count < 2 ^ 60 }
        ensures items { (items : List Number)
            → Summarizes items self.old
            → Summarizes (items ++ Ok number ∷ []) self.new }
        ensures count { self.new.count ≡ self.old.count + 1 }
    {
        self.least = self.least.min(number);
        self.greatest = self.greatest.max(number);
        self.count += 1;
        self.sum += i128::from(number);
    }

    /// Adds one fault; the first one stays.
    fn take_fault(&mut self, fault: Fault)
        ensures items { (items : List Number)
            → Summarizes items self.old
            → Summarizes (items ++ Err fault ∷ []) self.new }
        ensures count { self.new.count ≡ self.old.count }
    {
        self.fault = self.fault.or(Some(fault));
    }

    /// Adds the item of one cell: the number or the fault that it shows. A cell that is empty or shows a text adds
    /// nothing.
    #[inline(always)]
    pub fn take_cell(&mut self, operand: Operand)
        requires { numbers_taken self.old < 2 ^ 60 }
        ensures items { (items : List Number)
            → Summarizes items self.old
            → Summarizes (items ++ items_from operand) self.new }
        ensures count { numbers_taken self.new ≤ numbers_taken self.old + 1 }
    {
        match operand {
            Operand::Empty | Operand::Text => {}
            Operand::Num(number) => self.take_number(number),
            Operand::Err(fault) => self.take_fault(fault),
        }
    }

    /// Appends the items of `other` to the items of this summary. If both summaries have a fault, this summary's fault
    /// stays the first.
    #[inline]
    pub fn join(&mut self, other: &Summary)
        requires room { numbers_taken self.old < 2 ^ 60 }
        requires room_of_other { numbers_taken other.now < 2 ^ 60 }
        ensures items { (items others : List Number)
            → Summarizes items self.old
            → Summarizes others other.now
            → Summarizes (items ++ others) self.new }
        ensures count { numbers_taken self.new ≡ numbers_taken self.old + numbers_taken other.now }
    {
        self.least = self.least.min(other.least);
        self.greatest = self.greatest.max(other.greatest);
        self.count += other.count;
        self.sum += other.sum;
        self.fault = self.fault.or(other.fault);
    }

    /// Whether a number lies strictly between the least and the greatest.
    #[inline(always)]
    fn lies_within(&self, number: i64) -> bool
        ensures { IsTrue result ↔ ((self.now.least <ℤ number) × (number <ℤ self.now.greatest)) }
    {
        self.least < number && number < self.greatest
    }

    /// Removes one of the numbers that is neither the least nor the greatest.
    #[inline(always)]
    fn leave_out(&mut self, number: i64)
        requires among { (front : List Number) × (back : List Number)
            × Summarizes (front ++ Ok number ∷ back) self.old }
        requires within { (self.old.least <ℤ number) × (number <ℤ self.old.greatest) }
        requires room { self.old.count < 2 ^ 60 }
        ensures items { (front back : List Number)
            → Summarizes (front ++ Ok number ∷ back) self.old
            → Summarizes (front ++ back) self.new }
        ensures count { self.new.count ≤ self.old.count }
    {
        self.count -= 1;
        self.sum -= i128::from(number);
    }

    /// Replaces the item of one summarized cell, which showed `old` and now shows `new`, and returns true.
    ///
    /// Returns false and leaves the summary unchanged if one of its items is a fault, or if `old` is its least or its
    /// greatest number. The caller must then drop the summary, which still has the item of `old`.
    #[inline]
    pub fn exchange(&mut self, old: Operand, new: Operand) -> bool
        requires among { (front : List Number) × (back : List Number)
            × Summarizes (front ++ items_from old ++ back) self.old }
        requires room { numbers_taken self.old < 2 ^ 60 }
        ensures items { IsTrue result → (front back : List Number)
            → Summarizes (front ++ items_from old ++ back) self.old
            → Summarizes (front ++ items_from new ++ back) self.new }
        ensures can { (items : List Number)
            → Summarizes items self.old
            → IsFalse (is_some (first_fault items))
            → MayLeave old items
            → IsTrue result }
        ensures same { IsFalse result → self.new ≡ self.old }
    {
        if self.has_fault() {
            return false;
        }
        match old {
            Operand::Empty | Operand::Text => {}
            Operand::Num(number) if self.lies_within(number) => self.leave_out(number),
            Operand::Num(_) | Operand::Err(_) => return false,
        }
        self.take_cell(new);
        true
    }

    /// Returns whether at least one of the summarized items is a fault.
    #[inline]
    pub fn has_fault(&self) -> bool
        ensures { (items : List Number) → Summarizes items self.now → result ≡ is_some (first_fault items) }
    {
        self.fault.is_some()
    }

    /// Creates a summary of one item.
    pub(crate) fn of_item(item: Result<i64, Fault>) -> Summary
        ensures items { Summarizes (item ∷ []) result }
        ensures count { numbers_taken result ≤ 1 }
    {
        let mut summary = Summary::new();
        match item {
            Ok(number) => summary.take_number(number),
            Err(fault) => summary.take_fault(fault),
        }
        summary
    }

    /// Creates a summary of one cell, with one item, or none if the cell is empty or shows a text.
    pub(crate) fn of_cell(operand: Operand) -> Summary
        ensures items { Summarizes (items_from operand) result }
        ensures count { numbers_taken result ≤ 1 }
    {
        let mut summary = Summary::new();
        summary.take_cell(operand);
        summary
    }
}
