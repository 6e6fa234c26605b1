// Records and answers, as text: every field, in the order of document 01.
use crate::sums::Adler32;
use byte_caps::Cap;
use extract::{Answer, Extractor, Refusal};
use levels::{Depth, Levels};
use rules::Unit;
use std::fmt;
use timestamp::{Framerate, Timestamp};
use timing::{HiresOutputTimingState, HiresTimingFault};

// A value, or a dash where there is none.
#[derive(Clone, Copy)]
pub(crate) struct OrDash<T>(pub Option<T>);

impl<T: fmt::Display> fmt::Display for OrDash<T> {
    fn fmt<W: fmt::Write>(&self, f: &mut fmt::Formatter<W>) -> fmt::Result {
        match &self.0 {
            Some(value) => write!(f, "{value}"),
            None => write!(f, "-"),
        }
    }
}

// A timestamp, all nine fields.
#[derive(Clone, Copy)]
pub(crate) struct Stamp(pub Timestamp);

impl fmt::Display for Stamp {
    fn fmt<W: fmt::Write>(&self, f: &mut fmt::Formatter<W>) -> fmt::Result {
        let t = self.0;
        write!(
            f,
            "{}:{}:{}:{} samples {} rate {} drop {} reserved {} {}",
            t.hours,
            t.minutes,
            t.seconds,
            t.frames,
            t.samples,
            Rate(t.framerate),
            u8::from(t.dropframe),
            t.reserved1,
            u8::from(t.reserved2)
        )
    }
}

// A frame rate by its name.
#[derive(Clone, Copy)]
struct Rate(Framerate);

impl fmt::Display for Rate {
    fn fmt<W: fmt::Write>(&self, f: &mut fmt::Formatter<W>) -> fmt::Result {
        match self.0 {
            Framerate::R23_976 => write!(f, "23.976"),
            Framerate::R24 => write!(f, "24"),
            Framerate::R25 => write!(f, "25"),
            Framerate::R29_97 => write!(f, "29.97"),
            Framerate::R30 => write!(f, "30"),
            Framerate::R50 => write!(f, "50"),
            Framerate::R59_94 => write!(f, "59.94"),
            Framerate::R60 => write!(f, "60"),
            Framerate::Invalid(code) => write!(f, "invalid {code}"),
        }
    }
}

// The record of a reader.
#[derive(Clone, Copy)]
pub(crate) struct ReaderRecord(pub Extractor);

impl fmt::Display for ReaderRecord {
    fn fmt<W: fmt::Write>(&self, f: &mut fmt::Formatter<W>) -> fmt::Result {
        let r = self.0;
        let s = r.stream;
        write!(
            f,
            "| at {} {} {} substreams {} frames {} errors {} unanswered {} unread {} accepted {} waiting {}",
            s.consumed.0,
            if s.locked { "locked" } else { "searching" },
            if s.seen { "seen" } else { "unseen" },
            s.substreams,
            s.frames,
            s.losses.errors,
            r.unanswered,
            r.end.saturating_sub(r.start),
            r.accepted,
            OrDash(s.waiting.map(Stamp))
        )
    }
}

// What a request answers, over the buffer that was lent to it: of a unit, the sum of the bytes that its part of the buffer holds.
#[derive(Clone, Copy)]
pub(crate) struct Asked<'a> {
    pub answer: Result<Answer, Refusal>,
    pub lent: &'a [u8],
}

impl fmt::Display for Asked<'_> {
    fn fmt<W: fmt::Write>(&self, f: &mut fmt::Formatter<W>) -> fmt::Result {
        match self.answer {
            Ok(Answer::Unit { unit, start }) => {
                let bytes = buffer::part(self.lent, start, usize::from(unit.length));
                write!(f, "{} bytes {}", Handed(unit), Adler32::of(bytes))
            }
            Ok(Answer::InvalidAccessUnitLength { actual, minimum }) => {
                write!(f, "5 actual {actual} minimum {minimum}")
            }
            Ok(Answer::ParityCheckFailed) => write!(f, "6"),
            Ok(Answer::InsufficientData) => write!(f, "7"),
            Ok(Answer::Quiet) => write!(f, "8"),
            Err(refusal) => write!(f, "{}", u8::from(refusal)),
        }
    }
}

// A unit, with its timestamp.
#[derive(Clone, Copy)]
struct Handed(Unit);

impl fmt::Display for Handed {
    fn fmt<W: fmt::Write>(&self, f: &mut fmt::Formatter<W>) -> fmt::Result {
        let u = self.0;
        write!(
            f,
            "unit {} at {} length {} {} substreams {} {}",
            u.index,
            u.position.0,
            u.length,
            if u.major { "major" } else { "minor" },
            u.substreams,
            OrDash(u.waiting.map(Stamp))
        )
    }
}

// The record of start timing.
#[derive(Clone, Copy)]
pub(crate) struct TimingRecord(pub HiresOutputTimingState);

impl fmt::Display for TimingRecord {
    fn fmt<W: fmt::Write>(&self, f: &mut fmt::Formatter<W>) -> fmt::Result {
        let r = self.0;
        write!(
            f,
            "| state {} counter {} bits {} field {} {} {} previous {} {} {} fault {}",
            r.state,
            r.counter,
            r.bits,
            r.field.timing,
            r.field.unit,
            r.field.output,
            r.previous.timing,
            r.previous.unit,
            r.previous.output,
            OrDash(r.fault.map(Fault))
        )
    }
}

// A fault, in the words that both sides of a comparison write.
#[derive(Clone, Copy)]
struct Fault(HiresTimingFault);

impl fmt::Display for Fault {
    fn fmt<W: fmt::Write>(&self, f: &mut fmt::Formatter<W>) -> fmt::Result {
        match self.0 {
            HiresTimingFault::ExtraZeroAfterEnd(unit) => {
                write!(f, "extra 0 after the data field end {unit}")
            }
            HiresTimingFault::ExtraZeroInField(unit) => {
                write!(f, "extra 0 in the datafield {unit}")
            }
            HiresTimingFault::InvalidZeroInField(unit) => {
                write!(f, "invalid 0 in the datafield {unit}")
            }
            HiresTimingFault::Sequence {
                timing,
                unit,
                prev_timing,
                prev_unit,
            } => write!(f, "sequence {timing} {unit} {prev_timing} {prev_unit}"),
        }
    }
}

// All of a window but its rings, behind the units held: none where the record doesn't fit.
#[derive(Clone, Copy)]
pub(crate) struct WindowRecord(pub Levels);

impl fmt::Display for WindowRecord {
    fn fmt<W: fmt::Write>(&self, f: &mut fmt::Formatter<W>) -> fmt::Result {
        let levels = self.0;
        let held = levels.buffered().unwrap_or(0);
        write!(
            f,
            "held {held} | read {} write {}",
            levels.read, levels.write
        )?;
        write!(f, " depths")?;
        for depth in levels.depth {
            write!(f, " {}", Accumulator(depth))?;
        }
        write!(f, " substreams")?;
        for substream in levels.substream {
            write!(f, " {}/{}", substream.bytes, substream.peak)?;
        }
        Ok(())
    }
}

// One accumulator: total and stream part, and the three parts of its peak.
#[derive(Clone, Copy)]
struct Accumulator(Depth);

impl fmt::Display for Accumulator {
    fn fmt<W: fmt::Write>(&self, f: &mut fmt::Formatter<W>) -> fmt::Result {
        let depth = self.0;
        let peak = depth.peak;
        write!(
            f,
            "{}:{}/{}:{}:{}",
            depth.total, depth.stream, peak.total, peak.stream, peak.overhead
        )
    }
}

// A byte cap, or why there is none.
#[derive(Clone, Copy)]
pub(crate) struct CapText(pub Cap);

impl fmt::Display for CapText {
    fn fmt<W: fmt::Write>(&self, f: &mut fmt::Formatter<W>) -> fmt::Result {
        match self.0 {
            Cap::Bytes(n) => write!(f, "{n}"),
            Cap::Unchecked => write!(f, "unchecked"),
            Cap::NoSuchAccumulator => write!(f, "none"),
        }
    }
}
