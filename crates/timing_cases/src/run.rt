// Running a script: a record with the next unit, moved on bit by bit. A script is made of 0 and 1, with blanks between them.
use crate::show::{Aligned, Bit, Shown};
use std::fmt::{self, Write};
use timing::{HiresOutputTimingState, TimingContext, Updated};

#[derive(Clone, Copy)]
pub(crate) struct Desk {
    pub timing: HiresOutputTimingState,
    pub about: TimingContext,
}

// The bit that a script's byte stands for.
fn bit_of(byte: u8) -> Option<bool> {
    match byte {
        b'0' => Some(false),
        b'1' => Some(true),
        _ => None,
    }
}

// The unit after: one number up, and as many samples later as a unit has. Output timing wraps at 16 bits.
fn after(about: TimingContext) -> TimingContext {
    TimingContext {
        unit: about.unit.wrapping_add(1),
        output: about.output.wrapping_add(about.samples) % 65536,
        ..about
    }
}

impl Desk {
    // A fresh record before a unit.
    pub(crate) fn fresh(unit: u64, samples: u64, output: u64) -> Desk {
        Desk {
            timing: HiresOutputTimingState::fresh(),
            about: TimingContext {
                unit,
                samples,
                output,
            },
        }
    }

    // One unit, and what it came to.
    fn step(self, bit: bool) -> (Desk, Updated) {
        let updated = self.timing.update(self.about, bit);
        let desk = Desk {
            timing: updated.next,
            about: after(self.about),
        };
        (desk, updated)
    }

    // One unit, printed.
    fn shown(self, out: &mut impl Write, bit: bool) -> Result<Desk, fmt::Error> {
        let (desk, updated) = self.step(bit);
        writeln!(
            out,
            "  unit {}{}{}",
            Aligned(self.about.unit, 5),
            Bit(bit),
            Shown(updated)
        )?;
        Ok(desk)
    }

    // A script, no unit printed.
    pub(crate) fn silent(self, script: &str) -> Desk {
        script
            .bytes()
            .filter_map(bit_of)
            .fold(self, |desk, bit| desk.step(bit).0)
    }

    // A script, every unit printed.
    pub(crate) fn each(self, out: &mut impl Write, script: &str) -> Result<Desk, fmt::Error> {
        let mut desk = self;
        for bit in script.bytes().filter_map(bit_of) {
            desk = desk.shown(out, bit)?;
        }
        Ok(desk)
    }

    // A script and a last 0, which alone is printed.
    pub(crate) fn last(self, out: &mut impl Write, script: &str) -> Result<Desk, fmt::Error> {
        self.silent(script).shown(out, false)
    }

    // Scripts, one behind the other, each with a last 0, which alone is printed.
    pub(crate) fn lasts(self, out: &mut impl Write, scripts: &[&str]) -> Result<Desk, fmt::Error> {
        let mut desk = self;
        for script in scripts {
            desk = desk.last(out, script)?;
        }
        Ok(desk)
    }

    // So many ones, of which the last is printed.
    pub(crate) fn ones(self, out: &mut impl Write, n: u64) -> Result<Desk, fmt::Error> {
        (1..n)
            .fold(self, |desk, _| desk.step(true).0)
            .shown(out, true)
    }
}
