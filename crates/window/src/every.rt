// Every accumulator and every substream: what one slot does to the levels, and what can be read out of them. Nothing here knows where
// a slot is kept.
ghost use Rattle.std.specs.Prelude.{◌≡◌, true, ◌<◌};
ghost use Rattle.window_rules.specs.Levels.{drained_of, added_levels_of, underrun_of, totals_of, restarted_levels_of, fresh_levels_of};
ghost use Rattle.levels.specs.Numbers.{room_of};

use crate::single::{add, add_substream, emptied, emptied_substream, leave, leave_substream};
use levels::{Contribution, Depth, Levels, Peak, SubstreamDepth};
use std::array;

// The highest accumulator that holds fewer bytes than the unit that is to leave it.
pub(crate) fn highest_underrun(depth: [Depth; 5], contribution: Contribution) -> Option<usize>
    ensures { result ≡ underrun_of depth contribution }
{
    (0..5)
        .rev()
        .find(|&k| depth[k].total < u64::from(contribution.total[k]))
}

// One slot leaves the window: every accumulator and substream, and the read slot moves on.
#[tactic(auto, unfolding(window_rules::specs::Levels::drained_of, window_rules::specs::Levels::each_depth, window_rules::specs::Levels::each_substream))]
pub(crate) fn drain_slot(levels: Levels, contribution: Contribution) -> Levels
    requires { levels.read < 128 }
    ensures { result ≡ drained_of levels contribution }
{
    Levels {
        read: (levels.read + 1) % 128,
        depth: array::from_fn(|k| {
            leave(
                levels.depth[k],
                contribution.total[k],
                contribution.stream[k],
            )
        }),
        substream: array::from_fn(|i| {
            leave_substream(levels.substream[i], contribution.substream[i])
        }),
        ..levels
    }
}

// One unit joins the window: every accumulator and substream, and the write slot moves on.
#[tactic(auto, unfolding(window_rules::specs::Levels::added_levels_of, window_rules::specs::Levels::each_depth, window_rules::specs::Levels::each_substream))]
pub(crate) fn add_slot(levels: Levels, contribution: Contribution) -> Levels
    requires { (levels.write < 128) × (room_of levels contribution ≡ true) }
    ensures { result ≡ added_levels_of levels contribution }
{
    Levels {
        write: (levels.write + 1) % 128,
        depth: array::from_fn(|k| {
            add(
                levels.depth[k],
                contribution.total[k],
                contribution.stream[k],
            )
        }),
        substream: array::from_fn(|i| {
            add_substream(levels.substream[i], contribution.substream[i])
        }),
        ..levels
    }
}

#[tactic(auto, unfolding(window_rules::specs::Levels::totals_of))]
pub(crate) fn totals(depth: [Depth; 5]) -> [u64; 5]
    ensures { result ≡ totals_of depth }
{
    depth.map(|d| d.total)
}

// As new, peaks excepted.
#[tactic(auto, unfolding(window_rules::specs::Levels::restarted_levels_of, window_rules::specs::Levels::emptied_depths_of, window_rules::specs::Levels::emptied_substreams_of))]
pub(crate) fn restart_levels(levels: Levels) -> Levels
    ensures { result ≡ restarted_levels_of levels }
{
    Levels {
        read: 0,
        write: 0,
        depth: levels.depth.map(emptied),
        substream: levels.substream.map(emptied_substream),
    }
}

#[tactic(auto, unfolding(window_rules::specs::Levels::fresh_levels_of))]
pub(crate) fn fresh_levels() -> Levels
    ensures { result ≡ fresh_levels_of }
{
    Levels {
        read: 0,
        write: 0,
        depth: [Depth {
            total: 0,
            stream: 0,
            peak: Peak {
                total: 0,
                stream: 0,
                overhead: 0,
            },
        }; 5],
        substream: [SubstreamDepth { bytes: 0, peak: 0 }; 4],
    }
}
