// The caps: FBA by accumulator, FBB by accumulator and low nibble, and that no high nibble changes one.
use crate::text::Column;
use byte_caps::{Cap, fba_cap, fbb_cap};
use std::fmt::Write;
use std::{array, fmt};

// A cap in a column of eleven. A word carries its blanks, to be one fragment with them (text.rt).
#[derive(Clone, Copy)]
struct Shown(Cap);

impl fmt::Display for Shown {
    fn fmt<W: fmt::Write>(&self, f: &mut fmt::Formatter<W>) -> fmt::Result {
        match self.0 {
            Cap::Bytes(bytes) => write!(f, "{}", Column(bytes)),
            Cap::Unchecked => f.write_str("       none"),
            Cap::NoSuchAccumulator => f.write_str("    no such"),
        }
    }
}

fn row(out: &mut impl Write, caps: [Cap; 6]) -> fmt::Result {
    for cap in caps {
        write!(out, "{}", Shown(cap))?;
    }
    writeln!(out)
}

fn fba(out: &mut impl Write) -> fmt::Result {
    out.write_str("FBA caps, accumulators 0 to 5\n              ")?;
    row(out, array::from_fn(|k| fba_cap(k)))?;
    writeln!(out)
}

fn fbb(out: &mut impl Write, info: u8) -> fmt::Result {
    write!(out, "  info {}", Column(u64::from(info)))?;
    row(out, array::from_fn(|k| fbb_cap(k, info)))
}

fn agree(info: u8) -> bool {
    (0..5).all(|k| fbb_cap(k, info) == fbb_cap(k, info % 16))
}

// How many of the 256 info bytes have the caps of their low nibble.
fn agreeing() -> usize {
    (0..=255).filter(|info| agree(*info)).count()
}

pub(crate) fn print(out: &mut impl Write) -> fmt::Result {
    fba(out)?;
    out.write_str("FBB caps by low nibble, accumulators 0 to 5\n")?;
    for nibble in 0..16 {
        fbb(out, nibble)?;
    }
    writeln!(
        out,
        "  info bytes with the caps of their low nibble: {}",
        agreeing()
    )
}
