// The levels of a depth window: all of it but its rings, that is slot numbers, depths and peaks. Document 01, "Depth window (001)": what a
// record must be to fit (number 1), how much a unit may add (numbers 12 and 13), and what can be asked of a window.
//
// Nothing here knows where a unit in flight is kept, so a question takes the levels alone and not the rings.
#![tactic(auto)]

pub mod numbers; // the conditions of numbers 1, 12 and 13

ghost use Rattle.std.specs.Prelude.{◌≡◌, ◌<◌, Some, IfOk, codes};
ghost use Rattle.levels.specs.Numbers.{refusal_number, text_of};
ghost use Rattle.levels.specs.Questions.{on_fit, peaks_at, peak_totals_of, substream_peaks_at, buffered_of, peaks_of, peak_records_of, substream_peaks_of};

use numbers::fits;
use std::error::Error;
use std::fmt;

// What one unit adds, in bytes. `total` is what an accumulator is capped on, `stream` the part of it that is substream payload, and
// `substream` each substream's own payload.
#[repr(C)]
#[derive(Clone, Copy, Debug, PartialEq, Eq)]
pub struct Contribution {
    pub total: [u32; 5],
    pub stream: [u32; 5],
    pub substream: [u32; 4],
}

// Deepest one accumulator has been, and what it held at that moment.
#[repr(C)]
#[derive(Clone, Copy, Debug, PartialEq, Eq)]
pub struct Peak {
    pub total: u64,
    pub stream: u64,
    pub overhead: u64,
}

// One accumulator: the bytes it holds now, the stream part of them, and its peak.
#[repr(C)]
#[derive(Clone, Copy, Debug, PartialEq, Eq)]
pub struct Depth {
    pub total: u64,
    pub stream: u64,
    pub peak: Peak,
}

// One substream: the bytes it holds now, and the most it has held.
#[repr(C)]
#[derive(Clone, Copy, Debug, PartialEq, Eq)]
pub struct SubstreamDepth {
    pub bytes: u64,
    pub peak: u64,
}

// All of a window but its rings.
#[repr(C)]
#[derive(Clone, Copy, Debug, PartialEq, Eq)]
pub struct Levels {
    pub read: usize,
    pub write: usize,
    pub depth: [Depth; 5],
    pub substream: [SubstreamDepth; 4],
}

// Why a call that takes a window refuses it.
#[derive(Clone, Copy, Debug, PartialEq, Eq)]
pub enum Refusal {
    RecordDoesNotFit,
    ContributionTooLarge,
    DepthTooLarge,
}

impl fmt::Display for Refusal {
    ghost output = { λ refusal. Some (text_of refusal) };

    fn fmt<W: fmt::Write>(&self, f: &mut fmt::Formatter<W>) -> fmt::Result {
        match *self {
            Refusal::RecordDoesNotFit => f.write_str("the record does not fit"),
            Refusal::ContributionTooLarge => f.write_str("a contribution is above 16,384 bytes"),
            Refusal::DepthTooLarge => f.write_str("a depth would be above 4,294,967,295 bytes"),
        }
    }
}

impl Error for Refusal {}

// The number of a refusal.
impl From<Refusal> for u32 {
    ghost from_gives = { λ refusal number. number ≡ refusal_number refusal };

    fn from(refusal: Refusal) -> u32 {
        match refusal {
            Refusal::RecordDoesNotFit => 1,
            Refusal::ContributionTooLarge => 12,
            Refusal::DepthTooLarge => 13,
        }
    }
}

impl Levels {
    // Number 1 is tested before anything is read.
    #[tactic(auto, using(crate::specs::NumberLaws::read_of_fit, crate::specs::NumberLaws::write_of_fit))]
    fn fitting(self) -> Result<Levels, Refusal>
        ensures value { result ≡ on_fit self self }
        ensures slots { IfOk result (λ levels. (levels.read < 128) × (levels.write < 128)) }
    {
        if fits(self) {
            Ok(self)
        } else {
            Err(Refusal::RecordDoesNotFit)
        }
    }

    // Units held in the window.
    #[tactic(auto, unfolding(crate::specs::Questions::buffered_of, crate::specs::Questions::held_of))]
    pub fn buffered(self) -> Result<usize, Refusal>
        ensures { result ≡ buffered_of self }
    {
        let levels = self.fitting()?;
        Ok((levels.write + 128 - levels.read) % 128)
    }

    // Deepest each accumulator has been over the stream.
    #[tactic(auto, unfolding(crate::specs::Questions::peaks_of))]
    pub fn peaks(self) -> Result<[u64; 5], Refusal>
        ensures { result ≡ peaks_of self }
    {
        let levels = self.fitting()?;
        Ok(peak_totals(levels.depth))
    }

    // Deepest each accumulator has been, with the stream and overhead parts it held then.
    #[tactic(auto, unfolding(crate::specs::Questions::peak_records_of))]
    pub fn peak_records(self) -> Result<[Peak; 5], Refusal>
        ensures { result ≡ peak_records_of self }
    {
        let levels = self.fitting()?;
        Ok(peak_records_of(levels.depth))
    }

    // Deepest each substream's own bytes have been, with no overhead priced in.
    #[tactic(auto, unfolding(crate::specs::Questions::substream_peaks_of))]
    pub fn substream_peaks(self) -> Result<[u64; 4], Refusal>
        ensures { result ≡ substream_peaks_of self }
    {
        let levels = self.fitting()?;
        Ok(substream_peaks_of(levels.substream))
    }
}

#[tactic(auto, unfolding(crate::specs::Questions::peak_totals_of))]
fn peak_totals(depth: [Depth; 5]) -> [u64; 5]
    ensures { result ≡ peak_totals_of depth }
{
    depth.map(|depth| depth.peak.total)
}

#[tactic(auto, unfolding(crate::specs::Questions::peaks_at))]
fn peak_records_of(depth: [Depth; 5]) -> [Peak; 5]
    ensures { result ≡ peaks_at depth }
{
    depth.map(|depth| depth.peak)
}

#[tactic(auto, unfolding(crate::specs::Questions::substream_peaks_at))]
fn substream_peaks_of(substream: [SubstreamDepth; 4]) -> [u64; 4]
    ensures { result ≡ substream_peaks_at substream }
{
    substream.map(|substream| substream.peak)
}
