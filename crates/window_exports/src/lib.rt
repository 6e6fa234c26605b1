// The depth window as C and Rust call it: crate `window_exports_c` exports each of these calls under its name (include/mirvashen_window.h, bindings/rust).
// Document 01, "What must change shape", carried over the C interface: the window by value, document 01's numbers, an underrun and a cap as a number
// beside a byte that says whether there is one.
//
// Every bit pattern is taken: the record's fields are numbers, and one that doesn't fit is number 1. Each call is the library's call; only the small
// parts of an answer are laid flat, so that the window goes through untouched.
#![tactic(auto)]

ghost use Rattle.std.specs.Prelude.{◌≡◌};
ghost use Rattle.byte_caps.specs.Caps.{fba_cap_of, fbb_cap_of};
ghost use Rattle.levels.specs.Numbers.{number_of};
ghost use Rattle.window_rules.specs.Window.{fresh_of, pushed_of, restarted_of};
ghost use Rattle.levels.specs.Questions.{buffered_of, peaks_of, peak_records_of, substream_peaks_of};
ghost use Rattle.window_exports.specs.Flat.{time_of, underrun_flat, pushed_flat, restarted_flat, buffered_flat, peaks_flat, peak_records_flat, substream_peaks_flat, cap_flat};

use byte_caps::{Cap, fba_cap, fbb_cap};
use kinds::SampleTime;
use levels::{Contribution, Peak, Refusal};
use window_rules::{Pushed, Report, Restarted, Window};

// Stays: a struct for each answer, with a number and a byte beside the value in place of Result and Option: the C interface (include/mirvashen_window.h).

// The accumulator that an underrun names, if `present` says that there is one; zeros elsewhere.
#[repr(C)]
#[derive(Clone, Copy)]
pub struct MvUnderrun {
    pub accumulator: usize,
    pub present: u8,
}

// What a push answers: the window afterwards, the five depths with the new unit included, the underrun, and document 01's number.
#[repr(C)]
#[derive(Clone, Copy)]
pub struct MvPushed {
    pub window: Window,
    pub depths: [u64; 5],
    pub underrun: MvUnderrun,
    pub number: u32,
}

// What a restart answers.
#[repr(C)]
#[derive(Clone, Copy)]
pub struct MvRestarted {
    pub window: Window,
    pub number: u32,
}

// The units held.
#[repr(C)]
#[derive(Clone, Copy)]
pub struct MvBuffered {
    pub units: usize,
    pub number: u32,
}

// Deepest each accumulator has been.
#[repr(C)]
#[derive(Clone, Copy)]
pub struct MvPeaks {
    pub peaks: [u64; 5],
    pub number: u32,
}

// Deepest each accumulator has been, with the stream and overhead parts it held then.
#[repr(C)]
#[derive(Clone, Copy)]
pub struct MvPeakRecords {
    pub peaks: [Peak; 5],
    pub number: u32,
}

// Deepest each substream's own bytes have been.
#[repr(C)]
#[derive(Clone, Copy)]
pub struct MvSubstreamPeaks {
    pub peaks: [u64; 4],
    pub number: u32,
}

// A byte cap, if the accumulator is checked against one; `known` says whether there is such an accumulator.
#[repr(C)]
#[derive(Clone, Copy)]
pub struct MvCap {
    pub bytes: u64,
    pub checked: u8,
    pub known: u8,
}

// The number of an answer; 0 where the call is accepted.
fn number<T: Copy>(answer: Result<T, Refusal>) -> u32
    ensures { result ≡ number_of answer }
{
    match answer {
        Ok(_) => 0,
        Err(refusal) => u32::from(refusal),
    }
}

impl From<Option<usize>> for MvUnderrun {
    ghost from_gives = { λ underrun flat. flat ≡ underrun_flat underrun };

    fn from(underrun: Option<usize>) -> MvUnderrun {
        MvUnderrun {
            accumulator: underrun.unwrap_or(0),
            present: u8::from(underrun.is_some()),
        }
    }
}

impl From<Pushed> for MvPushed {
    ghost from_gives = { λ pushed flat. flat ≡ pushed_flat pushed };

    fn from(pushed: Pushed) -> MvPushed {
        let Report { depths, underrun } = pushed.answer.unwrap_or(Report {
            depths: [0; 5],
            underrun: None,
        });
        MvPushed {
            window: pushed.window,
            depths,
            underrun: MvUnderrun::from(underrun),
            number: number(pushed.answer),
        }
    }
}

impl From<Restarted> for MvRestarted {
    ghost from_gives = { λ restarted flat. flat ≡ restarted_flat restarted };

    fn from(restarted: Restarted) -> MvRestarted {
        MvRestarted {
            window: restarted.window,
            number: number(restarted.answer),
        }
    }
}

impl From<Result<usize, Refusal>> for MvBuffered {
    ghost from_gives = { λ buffered flat. flat ≡ buffered_flat buffered };

    fn from(buffered: Result<usize, Refusal>) -> MvBuffered {
        MvBuffered {
            units: buffered.unwrap_or(0),
            number: number(buffered),
        }
    }
}

impl From<Result<[u64; 5], Refusal>> for MvPeaks {
    ghost from_gives = { λ deepest flat. flat ≡ peaks_flat deepest };

    fn from(deepest: Result<[u64; 5], Refusal>) -> MvPeaks {
        MvPeaks {
            peaks: deepest.unwrap_or([0; 5]),
            number: number(deepest),
        }
    }
}

impl From<Result<[Peak; 5], Refusal>> for MvPeakRecords {
    ghost from_gives = { λ records flat. flat ≡ peak_records_flat records };

    fn from(records: Result<[Peak; 5], Refusal>) -> MvPeakRecords {
        let nothing = Peak {
            total: 0,
            stream: 0,
            overhead: 0,
        };
        MvPeakRecords {
            peaks: records.unwrap_or([nothing; 5]),
            number: number(records),
        }
    }
}

impl From<Result<[u64; 4], Refusal>> for MvSubstreamPeaks {
    ghost from_gives = { λ substreams flat. flat ≡ substream_peaks_flat substreams };

    fn from(substreams: Result<[u64; 4], Refusal>) -> MvSubstreamPeaks {
        MvSubstreamPeaks {
            peaks: substreams.unwrap_or([0; 4]),
            number: number(substreams),
        }
    }
}

impl From<Cap> for MvCap {
    ghost from_gives = { λ cap flat. flat ≡ cap_flat cap };

    fn from(cap: Cap) -> MvCap {
        match cap {
            Cap::Bytes(bytes) => MvCap {
                bytes,
                checked: 1,
                known: 1,
            },
            Cap::Unchecked => MvCap {
                bytes: 0,
                checked: 0, // none, which is not a cap of 0
                known: 1,
            },
            Cap::NoSuchAccumulator => MvCap {
                bytes: 0,
                checked: 0,
                known: 0,
            },
        }
    }
}

// A window that never held a unit.
pub fn mv_window_fresh() -> Window
    ensures { result ≡ fresh_of }
{
    window::fresh()
}

// Admits a unit and drains every slot that playback has strictly passed; numbers 1, 12 and 13.
pub fn mv_window_push(
    window: Window,
    playhead: u64,
    removal: u64,
    contribution: Contribution,
) -> MvPushed
    ensures { result ≡ pushed_flat (pushed_of window (time_of playhead) (time_of removal) contribution) }
{
    let pushed = window::push(
        window,
        SampleTime(playhead),
        SampleTime(removal),
        contribution,
    );
    MvPushed::from(pushed)
}

// Drops every unit in flight and starts the window again, keeping the peaks; number 1.
pub fn mv_window_restart(window: Window) -> MvRestarted
    ensures { result ≡ restarted_flat (restarted_of window) }
{
    MvRestarted::from(window::restart(window))
}

// Units held in the window; number 1.
pub fn mv_window_buffered(window: Window) -> MvBuffered
    ensures { result ≡ buffered_flat (buffered_of window.levels) }
{
    MvBuffered::from(window.levels.buffered())
}

// Deepest each accumulator has been over the stream; number 1.
pub fn mv_window_peaks(window: Window) -> MvPeaks
    ensures { result ≡ peaks_flat (peaks_of window.levels) }
{
    MvPeaks::from(window.levels.peaks())
}

// Deepest each accumulator has been, with the stream and overhead parts it held then; number 1.
pub fn mv_window_peak_records(window: Window) -> MvPeakRecords
    ensures { result ≡ peak_records_flat (peak_records_of window.levels) }
{
    MvPeakRecords::from(window.levels.peak_records())
}

// Deepest each substream's own bytes have been, with no overhead priced in; number 1.
pub fn mv_window_substream_peaks(window: Window) -> MvSubstreamPeaks
    ensures { result ≡ substream_peaks_flat (substream_peaks_of window.levels) }
{
    MvSubstreamPeaks::from(window.levels.substream_peaks())
}

// Byte cap of an accumulator for FBA streams.
pub fn mv_fba_cap(accumulator: usize) -> MvCap
    ensures { result ≡ cap_flat (fba_cap_of accumulator) }
{
    MvCap::from(fba_cap(accumulator))
}

// Byte cap of an accumulator for FBB streams, by the low nibble of `substream_info`.
pub fn mv_fbb_cap(accumulator: usize, substream_info: u8) -> MvCap
    ensures { result ≡ cap_flat (fbb_cap_of accumulator substream_info) }
{
    MvCap::from(fbb_cap(accumulator, substream_info))
}
