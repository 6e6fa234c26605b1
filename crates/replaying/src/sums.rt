// A unit's bytes are shown by their Adler-32 sum: a page of digits for each unit would tell a reader no more.
ghost use Rattle.std.specs.Prelude.{◌<◌};

use std::fmt;

// The sum of the bytes so far.
#[derive(Clone, Copy)]
pub(crate) struct Adler32 {
    low: u32,
    high: u32,
    ghost low_reduced: { low < 65521 },
    ghost high_reduced: { high < 65521 },
}

impl Adler32 {
    pub(crate) fn of(bytes: &[u8]) -> Adler32 {
        let nothing = Adler32 { low: 1, high: 0 };
        bytes.iter().fold(nothing, |sum, byte| sum.with(*byte))
    }

    fn with(self, byte: u8) -> Adler32 {
        let low = (self.low + u32::from(byte)) % 65521;
        let high = (self.high + low) % 65521;
        Adler32 { low, high }
    }
}

impl fmt::Display for Adler32 {
    fn fmt<W: fmt::Write>(&self, f: &mut fmt::Formatter<W>) -> fmt::Result {
        write!(f, "{:04x}{:04x}", self.high, self.low)
    }
}
