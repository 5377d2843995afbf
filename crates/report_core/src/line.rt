//! The parts of a report's lines as bytes, each written at an offset. The bytes after those written
//! may change.
ghost use Rattle.std.specs.Prelude.{◌≡◌, ◌+◌, ◌/◌, ◌%◌, ◌<◌, ◌≤◌, true, [], ◌∷◌, ◌++◌, length, take, decimal};
ghost use Rattle.outside_core.specs.Report.{ranks_text};
ghost use Rattle.report_core.specs.Digits.{IsNear, IsAfter, pair};

use itoa::{Buffer, write_digits};
use std::marker::Model;

/// Room for the longest line and for the bytes after it that may change, in bytes.
pub const LINE: usize = 2_048;

/// Room for the digits of any number, in bytes.
const DIGITS: usize = 20;

/// The two digits of each number below 100.
static PAIRS: [u8; 200] =
    *b"00010203040506070809101112131415161718192021222324252627282930313233343536373839404142434445464748495051525354555657585960616263646566676869707172737475767778798081828384858687888990919293949596979899";

/// The leading digits of a number, those of its quotient by `UNIT`, stored for the next number.
/// Numbers such as those of events follow one another, and the next one often has the same.
#[derive(Drop)]
pub struct Leading<const UNIT: u64> {
    /// The least number with these digits.
    least: u64,
    count: usize,
    digits: [u8; DIGITS],
}

impl<const UNIT: u64> Model for Leading<UNIT> {
    ghost use Rattle.std.specs.Prelude.{ℕ};
    ghost use Rattle.report_core.specs.Digits.{AreLeading};

    ghost Value = { ℕ };

    ghost view = { λ l. l.least };

    ghost invariant = { λ l. AreLeading UNIT l.least l.count l.digits };
}

impl<const UNIT: u64> Leading<UNIT> {
    /// Returns the digits of `UNIT`.
    pub fn new() -> Leading<UNIT>
        requires some { 1 ≤ UNIT }
    {
        let mut digits = [0; DIGITS];
        digits[0] = b'1';
        Leading {
            least: UNIT,
            count: 1,
            digits,
        }
    }

    /// Returns whether a number has the digits that are stored.
    #[inline(always)]
    fn is_near(&self, value: u64) -> bool
        ensures near { result ≡ true → IsNear UNIT self.now value }
    {
        value >= self.least && value - self.least < UNIT
    }

    /// Stores the leading digits of a number.
    #[cold]
    fn renew(&mut self, value: u64)
        requires some { 1 ≤ UNIT }
        requires great { UNIT ≤ value }
        ensures near { IsNear UNIT self.new value }
    {
        let leading = value / UNIT;
        self.least = UNIT * leading;
        self.count = put_number(&mut self.digits, 0, leading);
    }

    /// Writes the digits that are stored.
    #[inline(always)]
    fn put(&self, line: &mut [u8], at: usize) -> usize
        requires room { at + 20 ≤ length line.old }
        ensures text { IsAfter (take at line.old) UNIT self.now (take result line.new) }
        ensures short { result ≤ at + 20 }
        ensures length { length line.new ≡ length line.old }
    {
        put_array(line, at, self.digits);
        at + self.count
    }
}

/// Writes the digits of a number and the byte after them, where the leading digits are often those
/// of the last one.
#[inline(always)]
pub fn put_next(
    stored: &mut Leading<100>,
    line: &mut [u8],
    at: usize,
    value: u64,
    after: u8,
) -> usize
    requires room { at + 23 ≤ length line.old }
    ensures text { take result line.new ≡ take at line.old ++ decimal value ++ after ∷ [] }
    ensures short { result ≤ at + 23 }
    ensures length { length line.new ≡ length line.old }
{
    if !stored.is_near(value) {
        if value < 100 {
            return put_small(line, at, value, after);
        }
        stored.renew(value);
    }
    let end = stored.put(line, at);
    let pair = 2 * (value - stored.least) as usize;
    put_array(line, end, [PAIRS[pair], PAIRS[pair + 1], after])
}

/// Writes the digits of any number and the byte after them.
#[cold]
fn put_small(line: &mut [u8], at: usize, value: u64, after: u8) -> usize
    requires room { at + 23 ≤ length line.old }
    ensures text { take result line.new ≡ take at line.old ++ decimal value ++ after ∷ [] }
    ensures short { result ≤ at + 23 }
    ensures length { length line.new ≡ length line.old }
{
    let end = put_number(line, at, value);
    put_array(line, end, [after])
}

/// The four digits of a number below 10,000.
#[inline(always)]
fn four(value: u64) -> [u8; 4]
    requires few { value < 10000 }
    ensures { result ≡ pair (value / 100) ++ pair (value % 100) }
{
    let first = 2 * (value / 100) as usize;
    let last = 2 * (value % 100) as usize;
    [PAIRS[first], PAIRS[first + 1], PAIRS[last], PAIRS[last + 1]]
}

/// How many starts have the leading digits that are stored.
pub const STARTS: u64 = 100_000_000;

/// Writes the digits of a start, where the leading digits are often those of the last one.
#[inline(always)]
fn put_late(stored: &mut Leading<STARTS>, line: &mut [u8], at: usize, value: u64) -> usize
    requires room { at + 28 ≤ length line.old }
    ensures text { take result line.new ≡ take at line.old ++ decimal value }
    ensures short { result ≤ at + 28 }
    ensures length { length line.new ≡ length line.old }
{
    if !stored.is_near(value) {
        if value < STARTS {
            return put_number(line, at, value);
        }
        stored.renew(value);
    }
    let leading_end = stored.put(line, at);
    let rest = value - stored.least;
    let middle_end = put_array(line, leading_end, four(rest / 10_000));
    put_array(line, middle_end, four(rest % 10_000))
}

/// Writes a fixed number of bytes at an offset, and returns the offset after them.
#[inline(always)]
pub fn put_array<const N: usize>(line: &mut [u8], at: usize, bytes: [u8; N]) -> usize
    requires room { at + N ≤ length line.old }
    ensures text { take result line.new ≡ take at line.old ++ bytes.entry }
    ensures end { result ≡ at + N }
    ensures length { length line.new ≡ length line.old }
{
    // The copy of the array cannot overlap the line, so this is one read and one write.
    line[at..at + N].copy_from_slice(&bytes);
    at + N
}

/// Writes any number of bytes in the same way.
pub fn put_bytes(line: &mut [u8], at: usize, bytes: &[u8]) -> usize
    requires room { at + length bytes.now ≤ length line.old }
    ensures text { take result line.new ≡ take at line.old ++ bytes.now }
    ensures end { result ≡ at + length bytes.now }
    ensures length { length line.new ≡ length line.old }
{
    let end = at + bytes.len();
    line[at..end].copy_from_slice(bytes);
    end
}

/// Writes a name in the same way. Most names are short: their first bytes and their last ones, which
/// may overlap, are two reads and two writes.
#[inline(always)]
pub fn put_name(line: &mut [u8], at: usize, name: &str) -> usize
    requires room { at + length name.now ≤ length line.old }
    ensures text { take result line.new ≡ take at line.old ++ name.now }
    ensures end { result ≡ at + length name.now }
    ensures length { length line.new ≡ length line.old }
{
    let bytes = name.as_bytes();
    if bytes.len() >= 4 && bytes.len() <= 8 {
        let (Some(first), Some(last)) = (bytes.first_chunk::<4>(), bytes.last_chunk::<4>()) else {
            unreachable!()
        };
        put_array(line, at, *first);
        return put_array(line, at + bytes.len() - 4, *last);
    }
    if bytes.len() >= 2 && bytes.len() <= 3 {
        let (Some(first), Some(last)) = (bytes.first_chunk::<2>(), bytes.last_chunk::<2>()) else {
            unreachable!()
        };
        put_array(line, at, *first);
        return put_array(line, at + bytes.len() - 2, *last);
    }
    let end = at + bytes.len();
    line[at..end].copy_from_slice(bytes);
    end
}

/// Writes the digits of a number in the same way.
#[inline(always)]
pub fn put_number(line: &mut [u8], at: usize, value: u64) -> usize
    requires room { at + 20 ≤ length line.old }
    ensures text { take result line.new ≡ take at line.old ++ decimal value }
    ensures short { result ≤ at + 20 }
    ensures length { length line.new ≡ length line.old }
{
    if value < 10 {
        return put_array(line, at, [b'0' + value as u8]);
    }
    let end = at + value.ilog10() as usize + 1;
    write_digits(value, line, end);
    end
}

/// Writes a space, and then a start in nanoseconds, in the same way. The leading digits are often
/// those of the last start.
#[inline(always)]
pub fn put_start(stored: &mut Leading<STARTS>, line: &mut [u8], at: usize, start: u128) -> usize
    requires room { at + 40 ≤ length line.old }
    ensures text { take result line.new ≡ take at line.old ++ 32 ∷ [] ++ decimal start }
    ensures short { result ≤ at + 40 }
    ensures length { length line.new ≡ length line.old }
{
    let start_at = put_array(line, at, *b" ");
    match u64::try_from(start) {
        Ok(start) => put_late(stored, line, start_at, start),
        Err(_) => put_bytes(line, start_at, Buffer::new().format(start).as_bytes()),
    }
}

/// Writes a space, and then ranks joined by `/`.
#[inline(always)]
pub fn put_ranks(line: &mut [u8], at: usize, ranks: &[u64]) -> usize
    requires few { length ranks.now ≤ 65 }
    requires room { at + 1366 ≤ length line.old }
    ensures text { take result line.new ≡ take at line.old ++ 32 ∷ [] ++ ranks_text ranks.now }
    ensures short { result ≤ at + 1366 }
    ensures length { length line.new ≡ length line.old }
{
    let mut end = put_array(line, at, *b" ");
    let [first, others @ ..] = ranks else {
        return end;
    };
    end = put_number(line, end, *first);
    for rank in others {
        end = put_array(line, end, *b"/");
        end = put_number(line, end, *rank);
    }
    end
}
