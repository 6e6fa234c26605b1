// Printing: a step's answer first, and the record after it. Each part of a text is a write of its own, and an output may take some writes and refuse
// others: where a text is cut counts, as well as what it says.
use std::fmt;
use timing::{Field, HiresTimingFault, RecordDoesNotFit, Updated};

const BLANKS: &str = "          ";

// A number right-aligned in so many places; a longer number takes what it needs. `{:>5}` would write the blanks and the digits as one part.
#[derive(Clone, Copy)]
pub(crate) struct Aligned(pub u64, pub usize);

impl fmt::Display for Aligned {
    fn fmt<W: fmt::Write>(&self, f: &mut fmt::Formatter<W>) -> fmt::Result {
        let Aligned(number, places) = *self;
        let digits = 1 + number.checked_ilog10().unwrap_or(0) as usize;
        if digits < places {
            f.write_str(BLANKS.get(digits..places).unwrap_or(""))?;
        }
        write!(f, "{number}")
    }
}

#[derive(Clone, Copy)]
pub(crate) struct Bit(pub bool);

impl fmt::Display for Bit {
    fn fmt<W: fmt::Write>(&self, f: &mut fmt::Formatter<W>) -> fmt::Result {
        f.write_str(if self.0 { "  bit 1" } else { "  bit 0" })
    }
}

#[derive(Clone, Copy)]
struct Answered(Result<Option<u32>, RecordDoesNotFit>);

impl fmt::Display for Answered {
    fn fmt<W: fmt::Write>(&self, f: &mut fmt::Formatter<W>) -> fmt::Result {
        match self.0 {
            Ok(None) => f.write_str("  nothing          "),
            Ok(Some(start)) => write!(f, "  start {} ", Aligned(start.into(), 10)),
            Err(RecordDoesNotFit) => f.write_str("  1, unchanged     "),
        }
    }
}

// timing/unit/output timing
#[derive(Clone, Copy)]
struct Slashed(Field);

impl fmt::Display for Slashed {
    fn fmt<W: fmt::Write>(&self, f: &mut fmt::Formatter<W>) -> fmt::Result {
        let Field {
            timing,
            unit,
            output,
        } = self.0;
        write!(f, "{timing}/{unit}/{output}")
    }
}

#[derive(Clone, Copy)]
struct OfUnit(u64);

impl fmt::Display for OfUnit {
    fn fmt<W: fmt::Write>(&self, f: &mut fmt::Formatter<W>) -> fmt::Result {
        write!(f, ", unit {}", self.0)
    }
}

// The first three faults are put together here, as their own text has ", unit " in one part with what comes before it.
#[derive(Clone, Copy)]
struct Told(Option<HiresTimingFault>);

impl fmt::Display for Told {
    fn fmt<W: fmt::Write>(&self, f: &mut fmt::Formatter<W>) -> fmt::Result {
        match self.0 {
            None => f.write_str("no fault"),
            Some(HiresTimingFault::ExtraZeroAfterEnd(unit)) => {
                write!(f, "extra 0 after the data field end{}", OfUnit(unit))
            }
            Some(HiresTimingFault::ExtraZeroInField(unit)) => {
                write!(f, "extra 0 in the datafield{}", OfUnit(unit))
            }
            Some(HiresTimingFault::InvalidZeroInField(unit)) => {
                write!(f, "invalid 0 in the datafield{}", OfUnit(unit))
            }
            Some(fault) => write!(f, "{fault}"),
        }
    }
}

// What a step or a reset came to.
#[derive(Clone, Copy)]
pub(crate) struct Shown(pub Updated);

impl fmt::Display for Shown {
    fn fmt<W: fmt::Write>(&self, f: &mut fmt::Formatter<W>) -> fmt::Result {
        let Updated { next, answer } = self.0;
        write!(
            f,
            "{}state {}  counter {}  bits {}  field {}  previous {}  {}",
            Answered(answer),
            Aligned(next.state.into(), 2),
            next.counter,
            Aligned(next.bits.into(), 5),
            Slashed(next.field),
            Slashed(next.previous),
            Told(next.fault)
        )
    }
}
