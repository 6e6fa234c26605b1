// The depth window's static library, for C and for Rust: out/libwindow_exports_c.a, include/mirvashen_window.h, bindings/rust. Each export is the call
// of its name in `window_exports`, and promises the same.
#![tactic(auto)]

ghost use Rattle.std.specs.Prelude.{◌≡◌};
ghost use Rattle.byte_caps.specs.Caps.{fba_cap_of, fbb_cap_of};
ghost use Rattle.window_rules.specs.Window.{fresh_of, pushed_of, restarted_of};
ghost use Rattle.levels.specs.Questions.{buffered_of, peaks_of, peak_records_of, substream_peaks_of};
ghost use Rattle.window_exports.specs.Flat.{time_of, pushed_flat, restarted_flat, buffered_flat, peaks_flat, peak_records_flat, substream_peaks_flat, cap_flat};

use levels::Contribution;
use window_exports::{
    MvBuffered, MvCap, MvPeakRecords, MvPeaks, MvPushed, MvRestarted, MvSubstreamPeaks,
};
use window_rules::Window;

// A window that never held a unit.
#[unsafe(no_mangle)]
pub extern "C" fn mv_window_fresh() -> Window
    ensures { result ≡ fresh_of }
{
    window_exports::mv_window_fresh()
}

// Admits a unit and drains every slot that playback has strictly passed; numbers 1, 12 and 13.
#[unsafe(no_mangle)]
pub extern "C" fn mv_window_push(
    window: Window,
    playhead: u64,
    removal: u64,
    contribution: Contribution,
) -> MvPushed
    ensures { result ≡ pushed_flat (pushed_of window (time_of playhead) (time_of removal) contribution) }
{
    window_exports::mv_window_push(window, playhead, removal, contribution)
}

// Drops every unit in flight and starts the window again, keeping the peaks; number 1.
#[unsafe(no_mangle)]
pub extern "C" fn mv_window_restart(window: Window) -> MvRestarted
    ensures { result ≡ restarted_flat (restarted_of window) }
{
    window_exports::mv_window_restart(window)
}

// Units held in the window; number 1.
#[unsafe(no_mangle)]
pub extern "C" fn mv_window_buffered(window: Window) -> MvBuffered
    ensures { result ≡ buffered_flat (buffered_of window.levels) }
{
    window_exports::mv_window_buffered(window)
}

// Deepest each accumulator has been over the stream; number 1.
#[unsafe(no_mangle)]
pub extern "C" fn mv_window_peaks(window: Window) -> MvPeaks
    ensures { result ≡ peaks_flat (peaks_of window.levels) }
{
    window_exports::mv_window_peaks(window)
}

// Deepest each accumulator has been, with the stream and overhead parts it held then; number 1.
#[unsafe(no_mangle)]
pub extern "C" fn mv_window_peak_records(window: Window) -> MvPeakRecords
    ensures { result ≡ peak_records_flat (peak_records_of window.levels) }
{
    window_exports::mv_window_peak_records(window)
}

// Deepest each substream's own bytes have been, with no overhead priced in; number 1.
#[unsafe(no_mangle)]
pub extern "C" fn mv_window_substream_peaks(window: Window) -> MvSubstreamPeaks
    ensures { result ≡ substream_peaks_flat (substream_peaks_of window.levels) }
{
    window_exports::mv_window_substream_peaks(window)
}

// Byte cap of an accumulator for FBA streams.
#[unsafe(no_mangle)]
pub extern "C" fn mv_fba_cap(accumulator: usize) -> MvCap
    ensures { result ≡ cap_flat (fba_cap_of accumulator) }
{
    window_exports::mv_fba_cap(accumulator)
}

// Byte cap of an accumulator for FBB streams, by the low nibble of `substream_info`.
#[unsafe(no_mangle)]
pub extern "C" fn mv_fbb_cap(accumulator: usize, substream_info: u8) -> MvCap
    ensures { result ≡ cap_flat (fbb_cap_of accumulator substream_info) }
{
    window_exports::mv_fbb_cap(accumulator, substream_info)
}
