// One accumulator and one substream: a unit's bytes leave it or join it, and its peak is looked at afterwards.
ghost use Rattle.std.specs.Prelude.{◌≡◌, true};
ghost use Rattle.window_rules.specs.Depth.{sampled_of, left_of, added_of, sampled_substream_of, left_substream_of, added_substream_of, emptied_of, emptied_substream_of};
ghost use Rattle.levels.specs.Numbers.{room_at, depth_room};

use levels::{Depth, Peak, SubstreamDepth};

// Records the decomposition that stands at a new deepest point: it is taken when the total sets a record rather than maximised on its
// own, so that the stream and overhead parts of a peak are those of its moment.
#[tactic(auto, unfolding(window_rules::specs::Depth::sampled_of))]
fn sample_peak(total: u64, stream: u64, peak: Peak) -> Depth
    ensures { result ≡ sampled_of total stream peak }
{
    let peak = if total <= peak.total {
        peak
    } else {
        Peak {
            total,
            stream,
            overhead: total.saturating_sub(stream),
        }
    };
    Depth {
        total,
        stream,
        peak,
    }
}

// A unit's bytes leave one accumulator. One that holds fewer is set to 0, its stream part too.
#[tactic(auto, unfolding(window_rules::specs::Depth::left_of))]
pub(crate) fn leave(depth: Depth, total: u32, stream: u32) -> Depth
    ensures { result ≡ left_of depth total stream }
{
    let Some(rest) = depth.total.checked_sub(u64::from(total)) else {
        return sample_peak(0, 0, depth.peak);
    };
    sample_peak(
        rest,
        depth.stream.saturating_sub(u64::from(stream)),
        depth.peak,
    )
}

// A unit's bytes join one accumulator.
#[tactic(auto, using(levels::specs::NumberLaws::depth_room_says), unfolding(window_rules::specs::Depth::added_of))]
pub(crate) fn add(depth: Depth, total: u32, stream: u32) -> Depth
    requires { depth_room depth total stream ≡ true }
    ensures { result ≡ added_of depth total stream }
{
    sample_peak(
        depth.total + u64::from(total),
        depth.stream + u64::from(stream),
        depth.peak,
    )
}

#[tactic(auto, unfolding(window_rules::specs::Depth::sampled_substream_of))]
fn sample_substream(bytes: u64, peak: u64) -> SubstreamDepth
    ensures { result ≡ sampled_substream_of bytes peak }
{
    SubstreamDepth {
        bytes,
        peak: peak.max(bytes),
    }
}

#[tactic(auto, unfolding(window_rules::specs::Depth::left_substream_of))]
pub(crate) fn leave_substream(depth: SubstreamDepth, bytes: u32) -> SubstreamDepth
    ensures { result ≡ left_substream_of depth bytes }
{
    sample_substream(depth.bytes.saturating_sub(u64::from(bytes)), depth.peak)
}

#[tactic(auto, using(levels::specs::NumberLaws::room_says), unfolding(window_rules::specs::Depth::added_substream_of))]
pub(crate) fn add_substream(depth: SubstreamDepth, bytes: u32) -> SubstreamDepth
    requires { room_at depth.bytes bytes ≡ true }
    ensures { result ≡ added_substream_of depth bytes }
{
    sample_substream(depth.bytes + u64::from(bytes), depth.peak)
}

// Nothing held, the peak kept.
pub(crate) fn emptied(depth: Depth) -> Depth
    ensures { result ≡ emptied_of depth }
{
    Depth {
        total: 0,
        stream: 0,
        ..depth
    }
}

pub(crate) fn emptied_substream(depth: SubstreamDepth) -> SubstreamDepth
    ensures { result ≡ emptied_substream_of depth }
{
    SubstreamDepth { bytes: 0, ..depth }
}
