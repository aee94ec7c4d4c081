//! The text of what a cell shows.
ghost use Rattle.std.specs.Prelude.{◌≡◌, ◌<◌, ◌≤◌, ◌+◌, [], ◌∷◌, ◌++◌, Bool, codes, decimal, length, OnOk, OnErr};
ghost use Rattle.std.specs.Prelude.{IfErr, if◌then◌else◌};
ghost use Rattle.ps_device.specs.Device.{Sends};
ghost use Rattle.ps_value.specs.Shown.{choice_text, fault_text, is_chosen, listed, options_below, shown_text};

use crate::value::{Fault, Value};
use itoa::{Buffer, Integer};
use ps_device::{Failed, Sink, put_all};
use ps_grid::Refusal;

/// Writes the text that a cell with this value shows.
///
/// An empty cell shows nothing, a number shows in decimal, a text as its bytes, and a fault as its name, such as
/// `#DIV/0!`. A choice shows the numbers of its chosen options in ascending order, such as `{1,4}`.
///
/// Refused as `Device` if the sink failed. The beginning of the text may then have been written.
///
/// Cost: linear in the length of the text, no memory.
pub fn write_shown<K: Sink>(value: Value, sink: &mut K) -> Result<(), Refusal>
    ensures shown { Sends (K.contents sink.old) (K.contents sink.new) result (shown_text value) }
    ensures calm { OnOk result (K.failures sink.new ≡ K.failures sink.old) }
    ensures failed { OnErr result (K.failures sink.old < K.failures sink.new) }
    ensures device { IfErr result (λ refusal. refusal ≡ Refusal.Device) }
{
    put_shown(value, sink).map_err(|_| Refusal::Device)
}

/// Writes the text of the value.
fn put_shown<K: Sink>(value: Value, sink: &mut K) -> Result<(), Failed>
    ensures shown { Sends (K.contents sink.old) (K.contents sink.new) result (shown_text value) }
    ensures calm { OnOk result (K.failures sink.new ≡ K.failures sink.old) }
    ensures failed { OnErr result (K.failures sink.old < K.failures sink.new) }
{
    match value {
        Value::Empty => Ok(()),
        Value::Num(number) => put_number(number, sink),
        Value::Text(label) => put_all(sink, label.bytes()),
        Value::Choice(bits) => put_choice(bits, sink),
        Value::Err(fault) => put_all(sink, text_of_fault(fault)),
    }
}

/// Returns the name of the fault.
fn text_of_fault(fault: Fault) -> &'static [u8]
    ensures { result.now ≡ fault_text fault }
{
    match fault {
        Fault::DivZero => b"#DIV/0!",
        Fault::Num => b"#NUM!",
        Fault::Value => b"#VALUE!",
        Fault::Cycle => b"#CYCLE!",
    }
}

/// Writes the number in decimal.
fn put_number<K: Sink, I: Integer>(number: I, sink: &mut K) -> Result<(), Failed>
    ensures shown { Sends (K.contents sink.old) (K.contents sink.new) result (I.text number) }
    ensures calm { OnOk result (K.failures sink.new ≡ K.failures sink.old) }
    ensures failed { OnErr result (K.failures sink.old < K.failures sink.new) }
{
    let mut buffer = Buffer::new();
    let digits = buffer.format(number);
    put_all(sink, digits.as_bytes())
}

/// Writes the options, ascending, in braces.
fn put_choice<K: Sink>(bits: u64, sink: &mut K) -> Result<(), Failed>
    ensures shown { Sends (K.contents sink.old) (K.contents sink.new) result (choice_text bits) }
    ensures calm { OnOk result (K.failures sink.new ≡ K.failures sink.old) }
    ensures failed { OnErr result (K.failures sink.old < K.failures sink.new) }
{
    put_all(sink, b"{")?;
    put_options(bits, sink)?;
    put_all(sink, b"}")
}

/// Writes the options, ascending, with commas between.
fn put_options<K: Sink>(bits: u64, sink: &mut K) -> Result<(), Failed>
    ensures shown { Sends (K.contents sink.old) (K.contents sink.new) result (listed (options_below 64 bits)) }
    ensures calm { OnOk result (K.failures sink.new ≡ K.failures sink.old) }
    ensures failed { OnErr result (K.failures sink.old < K.failures sink.new) }
{
    let mut is_first = true;
    for option in 0..u64::BITS {
        if bits >> option & 1 == 1 {
            put_option(option, is_first, sink)?;
            is_first = false;
        }
    }
    Ok(())
}

/// Writes an option, after a comma unless it is the first.
fn put_option<K: Sink>(option: u32, is_first: bool, sink: &mut K) -> Result<(), Failed>
    ensures shown { Sends (K.contents sink.old) (K.contents sink.new) result
        (if is_first then decimal option else codes "," ++ decimal option) }
    ensures calm { OnOk result (K.failures sink.new ≡ K.failures sink.old) }
    ensures failed { OnErr result (K.failures sink.old < K.failures sink.new) }
{
    if is_first {
        return put_number(option, sink);
    }
    put_all(sink, b",")?;
    put_number(option, sink)
}
