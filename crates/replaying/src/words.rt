// The words of a line, parted by spaces, and what they write: numbers, bytes, the settings of a check.
ghost use Rattle.std.specs.Prelude.{length};
ghost use Rattle.std.specs.Iterator.{at_most};

use arrayvec::ArrayVec;
use crc::Algorithm;

// The numbers behind a call's name: no call takes more.
pub(crate) type Numbers = ArrayVec<u64, 16>;

// What is left of a line.
#[derive(Clone, Copy, Debug, PartialEq, Eq)]
pub(crate) struct Words<'a>(pub &'a [u8]);

impl<'a> Iterator for Words<'a> {
    type Item = &'a [u8];

    ghost remaining = { λ words. at_most (length words.0.now) };

    fn next(&mut self) -> Option<&'a [u8]> {
        let line = self.0;
        let word = text::next_word(line, 0, line.len());
        self.0 = &line[word.to..];
        if word.from == word.to {
            None
        } else {
            Some(&line[word.from..word.to])
        }
    }
}

impl Words<'_> {
    // The number that the next word writes.
    fn number(&mut self) -> Option<u64> {
        text::hex_number(self.next()?)
    }

    // The numbers up to the line's end.
    pub(crate) fn numbers(self) -> Option<Numbers> {
        let mut numbers = Numbers::new();
        for word in self {
            numbers.try_push(text::hex_number(word)?).ok()?;
        }
        Some(numbers)
    }

    // The bytes that the next word writes, put into a lent slice; none where the line has ended. What stands behind them is passed over.
    pub(crate) fn bytes<'b>(&mut self, room: &'b mut [u8]) -> Option<&'b [u8]> {
        let n = text::hex_bytes(self.next().unwrap_or(b""), room)?;
        Some(&room[..n])
    }

    // `POLY INIT ZEROS`
    pub(crate) fn settings(&mut self) -> Option<Algorithm> {
        Some(settings(self.number()?, self.number()?, self.number()?))
    }
}

// The settings of a check, of which the first two have sixteen bits.
pub(crate) fn settings(poly: u64, init: u64, zeros: u64) -> Algorithm {
    Algorithm {
        poly: (poly & 0xffff) as u16,
        init: (init & 0xffff) as u16,
        zeros: zeros != 0,
    }
}
