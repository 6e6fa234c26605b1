// The byte caps of the depth window's accumulators, FBA and FBB: document 01, "Depth window (001)"; `Accumulator` of utils/fifo.rs in the Rust. Any
// accumulator's number is taken: there are five, and of FBB two that are never checked.
#![tactic(auto)]

ghost use Rattle.std.specs.Prelude.{◌≡◌};
ghost use Rattle.byte_caps.specs.Caps.{fbb_entry, fba_cap_of, fbb_cap_of};

// A byte cap. An accumulator that is never checked has none, which is not a cap of 0.
#[derive(Clone, Copy, Debug, PartialEq, Eq)]
pub enum Cap {
    Bytes(u64),
    Unchecked,
    NoSuchAccumulator,
}

// An entry of the FBB cap table, by the low nibble of the info byte; 0 outside it. The tables differ in their last entry only.
#[tactic(auto, unfolding(crate::specs::Caps::fbb_entry))]
fn fbb_entry(nibble: usize, last: u64) -> u64
    ensures { result ≡ fbb_entry nibble last }
{
    let table = [90000, 30000, 0, 30000, 0, 0, 0, 0, 0, last];
    let Some(i) = nibble.checked_sub(4) else {
        return 0;
    };
    table.get(i).copied().unwrap_or(0)
}

// Byte cap of an accumulator for FBA streams: 15,000 bytes for each channel of the presentation that its decoder reconstructs.
#[tactic(auto, unfolding(crate::specs::Caps::fba_cap_of))]
pub fn fba_cap(accumulator: usize) -> Cap
    ensures { result ≡ fba_cap_of accumulator }
{
    match accumulator {
        0 => Cap::Bytes(30000),
        1 => Cap::Bytes(90000),
        2..=4 => Cap::Bytes(120000),
        _ => Cap::NoSuchAccumulator,
    }
}

// Byte cap of an accumulator for FBB streams. Only the low nibble of `substream_info` is defined in FBB, and the 8- and 16-channel sums
// are never checked.
#[tactic(auto, unfolding(crate::specs::Caps::fbb_cap_of))]
pub fn fbb_cap(accumulator: usize, substream_info: u8) -> Cap
    ensures { result ≡ fbb_cap_of accumulator substream_info }
{
    let nibble = usize::from(substream_info % 16);
    match accumulator {
        0 => Cap::Bytes(fbb_entry(nibble, 30000)),
        1 | 4 => Cap::Bytes(fbb_entry(nibble, 90000)),
        2 | 3 => Cap::Unchecked,
        _ => Cap::NoSuchAccumulator,
    }
}
