//! The lines of the output: each tells what a line of the script came to.
ghost use Rattle.std.specs.Prelude.{◌≡◌, ◌+◌, ◌≤◌, [], ◌++◌, length, drop, codes, decimal};
ghost use Rattle.calls.specs.Texts.{outcome_text, delivered_text, pair};
ghost use Rattle.script.specs.declared.output.TheConstants.{ROOM};
ghost use Rattle.script.specs.OutputLines.{output_line};

use calls::outcome::{Delivered, Outcome};
use itoa::write_digits;
use std::marker::Model;
use std::str;

/// The bytes that a line has room for: three numbers of up to 20 digits, and 40 bytes of words and blanks.
const ROOM: usize = 100;

/// A line of the output. It is made from its end to its start, since the digits of a number come so.
#[derive(Drop)]
pub struct OutputLine {
    bytes: [u8; ROOM],
    start: usize,
}

impl Model for OutputLine {
    ghost use Rattle.std.specs.Prelude.{ℕ, List, drop, ◌≤◌, IsUtf8};
    ghost use Rattle.script.specs.declared.output.TheConstants.{ROOM};

    ghost Value = { List ℕ };

    ghost view = { λ line. drop line.start line.bytes };

    ghost invariant = { λ line. (line.start ≤ ROOM) × ∥ IsUtf8 (drop line.start line.bytes) ∥₁ };
}

/// The bytes from a place on.
fn bytes_from(bytes: &[u8], start: usize) -> &[u8]
    requires { start ≤ length bytes.now }
    ensures { result.now ≡ drop start bytes.now }
{
    &bytes[start..]
}

/// Writes a text so that it ends at `end`, and returns where it starts.
#[inline(always)]
fn write_text(text: &[u8], bytes: &mut [u8], end: usize) -> usize
    requires { (length text.now ≤ end) × (end ≤ length bytes.old) }
    ensures start { result + length text.now ≡ end }
    ensures written { drop result bytes.new ≡ text.now ++ drop end bytes.old }
{
    let start = end - text.len();
    bytes[start..end].copy_from_slice(text);
    start
}

impl OutputLine {
    /// An empty line.
    pub fn new() -> OutputLine
        ensures { result ≡ [] }
    {
        OutputLine {
            bytes: [0; ROOM],
            start: ROOM,
        }
    }

    /// The bytes of the line.
    pub fn as_bytes(&self) -> &[u8]
        ensures { result.now ≡ self.now }
    {
        bytes_from(&self.bytes, self.start)
    }

    /// The text of the line.
    pub fn as_str(&self) -> &str
        ensures { result.now ≡ self.now }
    {
        // That these bytes are UTF-8 is the line's invariant.
        unsafe { str::from_utf8_unchecked(bytes_from(&self.bytes, self.start)) }
    }

    /// Makes the line that tells the outcome of line `number`: the number, a blank, the answer, byte 10.
    pub fn set(&mut self, number: usize, outcome: Outcome)
        ensures { self.new ≡ output_line number outcome }
    {
        self.clear();
        self.prepend("\n");
        self.prepend_outcome(outcome);
        self.prepend(" ");
        self.prepend_number(number as u64);
    }

    /// Empties the line.
    fn clear(&mut self)
        ensures { self.new ≡ [] }
    {
        self.start = ROOM;
    }

    /// Puts a text before the line.
    #[inline(always)]
    fn prepend(&mut self, text: &str)
        requires { length text.now + length self.old ≤ ROOM }
        ensures { self.new ≡ text.now ++ self.old }
    {
        self.start = write_text(text.as_bytes(), &mut self.bytes, self.start);
    }

    /// Puts a number before the line.
    fn prepend_number(&mut self, number: u64)
        requires { length self.old + 20 ≤ ROOM }
        ensures line { self.new ≡ decimal number ++ self.old }
        ensures short { length self.new ≤ length self.old + 20 }
    {
        self.start = write_digits(number, &mut self.bytes, self.start);
    }

    /// Puts two numbers, a blank apart, before the line.
    fn prepend_pair(&mut self, first: u32, second: u32)
        requires { length self.old + 41 ≤ ROOM }
        ensures line { self.new ≡ pair first second ++ self.old }
        ensures short { length self.new ≤ length self.old + 41 }
    {
        self.prepend_number(u64::from(second));
        self.prepend(" ");
        self.prepend_number(u64::from(first));
    }

    /// Puts what a core was handed before the line.
    fn prepend_delivered(&mut self, delivered: Delivered)
        requires { length self.old + 48 ≤ ROOM }
        ensures line { self.new ≡ delivered_text delivered ++ self.old }
        ensures short { length self.new ≤ length self.old + 48 }
    {
        match delivered {
            Delivered::Load { address, value, .. } => {
                self.prepend_pair(address, value);
                self.prepend("load ");
            }
            Delivered::Store { address, .. } => {
                self.prepend_number(u64::from(address));
                self.prepend("store ");
            }
            Delivered::Atomic { address, value, .. } => {
                self.prepend_pair(address, value);
                self.prepend("atomic ");
            }
            Delivered::Fault { address, block, .. } => {
                self.prepend_pair(address, block);
                self.prepend("fault ");
            }
        }
    }

    /// Puts what a call came to before the line.
    fn prepend_outcome(&mut self, outcome: Outcome)
        requires { length self.old + 60 ≤ ROOM }
        ensures line { self.new ≡ outcome_text outcome ++ self.old }
        ensures short { length self.new ≤ length self.old + 60 }
    {
        match outcome {
            Outcome::Started => self.prepend("started"),
            Outcome::Hit { address, value } => {
                self.prepend_pair(address, value);
                self.prepend("load ");
            }
            Outcome::Sent => self.prepend("sent"),
            Outcome::Served => self.prepend("served"),
            Outcome::Delivered(delivered) => self.prepend_delivered(delivered),
            Outcome::Ticked(clock) => {
                self.prepend_number(u64::from(clock));
                self.prepend("tick ");
            }
            Outcome::Evicted => self.prepend("evicted"),
            Outcome::Forgotten => self.prepend("forgotten"),
            Outcome::NoCopy => self.prepend("no copy"),
            Outcome::Refused(refusal) => {
                self.prepend(refusal.text());
                self.prepend(" ");
                self.prepend_number(u64::from(u32::from(refusal)));
                self.prepend("refused ");
            }
        }
    }
}
