//! Standard output and error whose control characters can't change a terminal's state.
ghost use Rattle.std.specs.Io.{WritesAtMost};
ghost use Rattle.std.specs.Prelude.{◌≤◌, IfSome, length};

use std::io;
use std::io::Write;

/// The first byte, in UTF-8, of each control character from U+0080 on.
const LEAD: u8 = 0xc2;

/// A writer for texts that others typed or sent. If it writes to a terminal, it writes each control character as text,
/// such as `\u{9b}` for U+009B, but line feeds and tabs as they are. Elsewhere it writes every byte as it is.
#[derive(Drop)]
pub struct ShownOutput<W: Drop> {
    writer: W,
    is_terminal: bool,
    /// the last byte that was written may begin a control character
    is_led: bool,
}

impl<W: Write + Drop> ShownOutput<W> {
    /// Creates a `ShownOutput` that writes to `writer`. `is_terminal` says whether that is a terminal.
    pub fn new(writer: W, is_terminal: bool) -> ShownOutput<W> {
        ShownOutput {
            writer,
            is_terminal,
            is_led: false,
        }
    }

    /// Writes bytes as they are, and returns how many were taken.
    fn pass(&mut self, bytes: &[u8]) -> io::Result<usize>
        ensures { WritesAtMost result bytes.now }
    {
        let count = self.writer.write(bytes)?;
        self.is_led = bytes[..count].last() == Some(&LEAD);
        Ok(count)
    }

    /// Spells a control character out.
    fn spell(&mut self, code: u8) -> io::Result<()> {
        self.is_led = false;
        write!(self.writer, "\\u{{{:x}}}", code)
    }
}

impl<W: Write + Drop> Write for ShownOutput<W> {
    fn write(&mut self, buf: &[u8]) -> io::Result<usize> {
        if !self.is_terminal {
            return self.writer.write(buf);
        }
        if let Some(control) = control_at(buf, self.is_led) {
            self.spell(control.code)?;
            return Ok(control.length);
        }
        match buf.iter().skip(1).position(|byte| may_begin(*byte)) {
            Some(at) => self.pass(&buf[..at + 1]),
            None => self.pass(buf),
        }
    }

    fn flush(&mut self) -> io::Result<()> {
        self.writer.flush()
    }
}

/// A control character in UTF-8.
#[derive(Clone, Copy, Debug)]
struct Control {
    code: u8,
    /// its bytes, one or two
    length: usize,
}

/// Returns the control character with which the bytes begin, after its first byte if they are `led` by one.
fn control_at(bytes: &[u8], is_led: bool) -> Option<Control>
    ensures { IfSome result (λ control. control.length ≤ length bytes.now) }
{
    match bytes {
        [code, ..] if is_single(*code) || is_led && is_second(*code) => Some(Control {
            code: *code,
            length: 1,
        }),
        [LEAD, code, ..] if is_second(*code) => Some(Control {
            code: *code,
            length: 2,
        }),
        _ => None,
    }
}

/// Returns whether a control character may begin with this byte.
fn may_begin(byte: u8) -> bool {
    byte == LEAD || is_single(byte)
}

/// Returns whether a byte is a control character by itself, other than a line feed or a tab.
fn is_single(byte: u8) -> bool {
    byte.is_ascii_control() && byte != b'\n' && byte != b'\t'
}

/// Returns whether a byte ends a control character of two bytes.
fn is_second(byte: u8) -> bool {
    matches!(byte, 0x80..=0x9f)
}
