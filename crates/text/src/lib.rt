// Lines, words and numbers, read from a script and written for a report, for the programs. No part of document 01: what a program reads is turned here into slices and
// numbers, and everything that matters happens in the proved libraries.
#![tactic(auto)]

ghost use Rattle.std.specs.Prelude.{◌≡◌, ◌^◌, ◌<◌, ◌≤◌, min, length, take, IfSome};
ghost use Rattle.std.specs.Option.{SomeIff};
ghost use Rattle.std.specs.Char.{digit_value};
ghost use Rattle.io.specs.Counts.{IsPrefixLen};
ghost use Rattle.text.specs.Numbers.{number_of, hex_number_of, decimal_number_of, hex_digit_of, all_hex, BothDigits, byte_of, hex_bytes_of, hex_bytes_on};
ghost use Rattle.text.specs.Put.{page_with, decimal_of};
ghost use Rattle.text.specs.Text.{Within, line_end_of, next_word_of};

// A stretch of a slice: from the first place to the one past the last.
//
// Stays: std's `Range` is no `Copy`.
#[derive(Clone, Copy, Debug, PartialEq, Eq)]
pub struct Word {
    pub from: usize,
    pub to: usize,
}

// The place of the line's end at or after `at`: of the line feed, or past the last byte.
pub fn line_end(s: &[u8], at: usize) -> usize
    ensures place { result ≡ line_end_of s.now at }
    ensures within { Within (min at (length s.now)) result (length s.now) }
{
    (at..s.len()).find(|i| s[*i] == b'\n').unwrap_or(s.len())
}

// The next word of the line that ends at `end`; empty at the line's end.
pub fn next_word(s: &[u8], at: usize, end: usize) -> Word
    ensures word { result ≡ next_word_of s.now at end }
    ensures within { Within result.from result.to (length s.now) }
{
    let end = end.min(s.len());
    let from = (at..end).find(|i| s[*i] != b' ').unwrap_or(end);
    let to = (from..end).find(|i| s[*i] == b' ').unwrap_or(end);
    Word { from, to }
}

// The value of a digit of the radix, where the byte is one.
fn digit<const RADIX: u32>(b: u8) -> Option<u8>
    requires { (2 ≤ RADIX) × (RADIX ≤ 36) }
    ensures { SomeIff result (digit_value b < RADIX) (digit_value b) }
{
    char::from(b).to_digit(RADIX).map(|value| value as u8)
}

// A number of at most MOST digits. So many fit in a word, whatever they are.
#[tactic(auto, using(crate::proofs::Digits::digit_steps))]
fn number<const RADIX: u32, const MOST: usize>(s: &[u8]) -> Option<u64>
    requires radix { (2 ≤ RADIX) × (RADIX ≤ 36) }
    requires room { RADIX ^ MOST ≤ 2 ^ 64 }
    ensures { result ≡ number_of digit_value RADIX MOST s.now }
{
    if s.is_empty() || MOST < s.len() {
        return None;
    }
    let mut n = 0;
    for b in s {
        n = n * u64::from(RADIX) + u64::from(digit::<RADIX>(*b)?);
    }
    Some(n)
}

// A number of at most 16 hexadecimal digits.
#[tactic(auto, using(crate::proofs::Alike::hex_same))]
pub fn hex_number(s: &[u8]) -> Option<u64>
    ensures { result ≡ hex_number_of s.now }
{
    number::<16, 16>(s)
}

// A number of at most 19 decimal digits.
#[tactic(auto, using(crate::proofs::Alike::decimal_same))]
pub fn decimal_number(s: &[u8]) -> Option<u64>
    ensures { result ≡ decimal_number_of s.now }
{
    number::<10, 19>(s)
}

// Is each byte a hexadecimal digit?
fn all_hex(s: &[u8]) -> bool
    ensures { result ≡ all_hex s.now }
{
    s.iter().all(u8::is_ascii_hexdigit)
}

// The value of a byte that is a hexadecimal digit: its low four bits, and of a letter nine more. No branch, so that long pieces are read fast.
#[tactic(auto, using(crate::proofs::Alike::nibble_is))]
fn nibble(b: u8) -> u8
    requires { hex_digit_of b < 16 }
    ensures { result ≡ hex_digit_of b }
{
    b % 16 + b / 64 * 9
}

// The byte that two hexadecimal digits write.
fn hex_byte(high: u8, low: u8) -> u8
    requires { BothDigits high low }
    ensures { result ≡ byte_of high low }
{
    nibble(high) * 16 + nibble(low)
}

// The bytes that pairs of hexadecimal digits write, put at the start of `out`, and how many they are; none where a digit is none, a pair
// is not whole, or there is no room, and then nothing is written.
#[tactic(auto, using(crate::proofs::Pairs::pair_steps))]
pub fn hex_bytes(s: &[u8], out: &mut [u8]) -> Option<usize>
    ensures answer { result ≡ hex_bytes_of s.now (length out.old) }
    ensures holds { out.new ≡ hex_bytes_on s.now out.old }
    ensures counts { IfSome result (λ n. IsPrefixLen n out.new) }
{
    let (pairs, []) = s.as_chunks::<2>() else {
        return None;
    };
    if out.len() < pairs.len() || !all_hex(s) {
        return None;
    }
    for (i, [high, low]) in pairs.iter().enumerate() {
        out[i] = hex_byte(*high, *low);
    }
    Some(pairs.len())
}

// A lent slice, and the place up to which it is written.
#[derive(Debug, Drop)]
pub struct Page<'a> {
    pub bytes: &'a mut [u8],
    pub end: usize,
}

impl<'a> Page<'a> {
    // A slice of which nothing is written.
    pub fn new(bytes: &'a mut [u8]) -> Page<'a>
        ensures { result ≡ record { bytes = bytes.entry; end = 0 } }
    {
        Page { bytes, end: 0 }
    }

    // What is written.
    pub fn written(&self) -> &[u8]
        ensures { result.now ≡ take self.now.end self.now.bytes.now }
    {
        &self.bytes[..self.end.min(self.bytes.len())]
    }

    // Puts a word behind what is written; where there is no room, nothing.
    #[tactic(auto, using(crate::proofs::Pages::put_steps))]
    pub fn put(&mut self, word: &[u8])
        ensures { self.new ≡ page_with self.old word.now }
    {
        let Some(end) = self.end.checked_add(word.len()) else {
            return;
        };
        if end <= self.bytes.len() {
            self.bytes[self.end..end].copy_from_slice(word);
            self.end = end;
        }
    }

    // Puts a number, in the fewest decimal digits that hold it, as `put` does a word.
    #[tactic(auto, using(crate::proofs::Decimal::decimal_is))]
    pub fn put_decimal(&mut self, n: u64)
        ensures { self.new ≡ page_with self.old (decimal_of n) }
    {
        let mut digits = [0; 20];
        let k = io::decimal(n, &mut digits);
        self.put(&digits[..k]);
    }
}
