//! The lines of a switch's listing, written into the caller's buffer or appended to a vector.
//!
//! A line is one capital letter, its fields in order, and a line feed. A field is one space and an unsigned decimal
//! number with no leading zero.
//!
//!     D  departure tick, input, output, serial, arrival tick, crossing start, sending start,
//!        whole tick of the virtual finish, numerator of the virtual finish
//!     N  tick, input, output, length: an arrival that found the store full
//!     X  input, output, peak: the most bytes that a crosspoint held
//!     E  last tick, departed bytes
//!     R  layer, number, place: a refusal
//!
//! Each kind of line is a type, and `write` of the trait `Line` answers the length of the line. Where the buffer is shorter,
//! it refuses and leaves the buffer as it was. `append` refuses only for want of memory, and then leaves the vector holding
//! what it held.
#![tactic(auto)]

ghost use Rattle.std.proofs.Common.{rules};
ghost use Rattle.std.specs.Prelude.{◌≡◌, ℕ, ◌+◌, ◌<◌, ◌≤◌, List, ◌++◌, true, length, drop, is_ok, if◌then◌else◌, vec_capacity, decimal};
ghost use Rattle.std.specs.Result.{OnErr};
ghost use Rattle.listing.specs.Line.{departure_text, end_text, fault_number, full_text, line_of, peak_text, refusal_text, Writes};

pub use departure::Departure;
use std::alloc::AllocError;

/// No line is longer: a letter, nine fields of a space and at most twenty digits, a line feed.
pub const LONGEST_LINE: usize = 191;

/// Why a line was not written.
#[derive(Clone, Copy, PartialEq, Eq, Debug)]
pub enum LineFault {
    /// The buffer is shorter than the line.
    ShortBuffer = 21,
}

impl LineFault {
    /// The number by which the fault is told.
    pub fn number(&self) -> u8
        ensures { result ≡ fault_number self.now }
    {
        *self as u8
    }
}

/// A line of the listing, of `N` fields.
pub trait Line<const N: usize> {
    ghost text: { Self → List ℕ };

    /// The letter and the fields.
    fn letter_and_fields(&self) -> (u8, [u64; N])
        ensures { line_of result.0 result.1 ≡ text self.now };

    // A line has at most nine fields.
    ghost few: { N ≤ 9 };

    /// Writes the line to the front of a buffer that has room for all of it.
    final fn write(&self, out: &mut [u8]) -> Result<usize, LineFault>
        ensures written { Writes (text self.now) out.old out.new result }
        ensures room { LONGEST_LINE ≤ length out.old → is_ok result ≡ true }
    {
        let (letter, fields) = self.letter_and_fields();
        write_line(out, letter, &fields)
    }

    /// Appends the line to a vector.
    final fn append(&self, out: &mut Vec<u8>) -> Result<(), AllocError>
        ensures items { out.new.items ≡ (if is_ok result then out.old.items ++ text self.now else out.old.items) }
        ensures full { OnErr result (vec_capacity out.old < length out.old.items + length (text self.now)) }
        ensures capacity { vec_capacity out.old ≤ vec_capacity out.new }
    {
        let (letter, fields) = self.letter_and_fields();
        let mut bytes = [0; LONGEST_LINE];
        let start = compose(letter, &fields, &mut bytes);
        out.extend_from_slice(&bytes[start..])
    }
}

/// The `D` line.
impl Line<9> for Departure {
    ghost text = { departure_text };

    ghost few = { Prim.search rules };

    // a port is widened by `as`: no number is made of a usize by From
    fn letter_and_fields(&self) -> (u8, [u64; 9]) {
        let fields = [
            self.tick,
            self.input as u64,
            self.output as u64,
            self.serial,
            self.arrival,
            self.crossing,
            self.sending,
            self.whole,
            self.numerator,
        ];
        (b'D', fields)
    }
}

/// The `N` line: an arrival of `len` bytes found the store full.
#[derive(Clone, Copy, PartialEq, Eq, Debug)]
pub struct Full {
    pub tick: u64,
    pub input: u64,
    pub output: u64,
    pub len: u64,
}

impl Line<4> for Full {
    ghost text = { λ l. full_text l.tick l.input l.output l.len };

    ghost few = { Prim.search rules };

    fn letter_and_fields(&self) -> (u8, [u64; 4]) {
        (b'N', [self.tick, self.input, self.output, self.len])
    }
}

/// The `X` line: a crosspoint held at most `peak` bytes.
#[derive(Clone, Copy, PartialEq, Eq, Debug)]
pub struct Peak {
    pub input: u64,
    pub output: u64,
    pub peak: u64,
}

impl Line<3> for Peak {
    ghost text = { λ l. peak_text l.input l.output l.peak };

    ghost few = { Prim.search rules };

    fn letter_and_fields(&self) -> (u8, [u64; 3]) {
        (b'X', [self.input, self.output, self.peak])
    }
}

/// The `E` line: a run's last tick, and how many bytes departed.
#[derive(Clone, Copy, PartialEq, Eq, Debug)]
pub struct End {
    pub tick: u64,
    pub bytes: u64,
}

impl Line<2> for End {
    ghost text = { λ l. end_text l.tick l.bytes };

    ghost few = { Prim.search rules };

    fn letter_and_fields(&self) -> (u8, [u64; 2]) {
        (b'E', [self.tick, self.bytes])
    }
}

/// The `R` line: the layer that refused, the fault's number, and its place.
#[derive(Clone, Copy, PartialEq, Eq, Debug)]
pub struct Refusal {
    pub layer: u64,
    pub number: u64,
    pub place: u64,
}

impl Line<3> for Refusal {
    ghost text = { λ l. refusal_text l.layer l.number l.place };

    ghost few = { Prim.search rules };

    fn letter_and_fields(&self) -> (u8, [u64; 3]) {
        (b'R', [self.layer, self.number, self.place])
    }
}

/// A line that is as long as any: each of its numbers has twenty digits.
pub fn longest_line() -> Departure
    ensures { length (departure_text result) ≡ LONGEST_LINE }
{
    Departure {
        tick: u64::MAX,
        input: usize::MAX,
        output: usize::MAX,
        serial: u64::MAX,
        arrival: u64::MAX,
        crossing: u64::MAX,
        sending: u64::MAX,
        whole: u64::MAX,
        numerator: u64::MAX,
        bytes: 0,
    }
}

// Writes the line of a letter and at most nine fields, if the buffer has room for all of it.
fn write_line(out: &mut [u8], letter: u8, fields: &[u64]) -> Result<usize, LineFault>
    requires few { length fields.now ≤ 9 }
    ensures written { Writes (line_of letter fields.now) out.old out.new result }
    ensures room { LONGEST_LINE ≤ length out.old → is_ok result ≡ true }
{
    let mut bytes = [0; LONGEST_LINE];
    let start = compose(letter, fields, &mut bytes);
    let line = &bytes[start..];
    if out.len() < line.len() {
        return Err(LineFault::ShortBuffer);
    }
    out[..line.len()].copy_from_slice(line);
    Ok(line.len())
}

// Writes the line of a letter and at most nine fields so that it ends where the array does, and answers where it begins.
fn compose(letter: u8, fields: &[u64], bytes: &mut [u8; LONGEST_LINE]) -> usize
    requires few { length fields.now ≤ 9 }
    ensures start { result ≤ LONGEST_LINE }
    ensures written { drop result bytes.new ≡ line_of letter fields.now }
{
    let mut at = LONGEST_LINE - 1;
    bytes[at] = b'\n';
    let mut left = fields;
    while let Some((n, before)) = left.split_last() {
        at = write_decimal(*n, bytes, at) - 1;
        bytes[at] = b' ';
        left = before;
    }
    at -= 1;
    bytes[at] = letter;
    at
}

// Writes a number so that it ends at `end`, and answers where it begins.
fn write_decimal(n: u64, bytes: &mut [u8; LONGEST_LINE], end: usize) -> usize
    requires room { (length (decimal n) ≤ end) × (end ≤ LONGEST_LINE) }
    ensures start { result + length (decimal n) ≡ end }
    ensures written { drop result bytes.new ≡ decimal n ++ drop end bytes.old }
{
    let mut left = n;
    let mut at = end;
    while left >= 10 {
        at -= 1;
        bytes[at] = b'0' + (left % 10) as u8;
        left /= 10;
    }
    at -= 1;
    bytes[at] = b'0' + left as u8;
    at
}
