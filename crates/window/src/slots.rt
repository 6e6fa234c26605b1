// The slots: rings of 128, and the drain that reads them.
ghost use Rattle.std.specs.Prelude.{◌≡◌, ◌<◌};
ghost use Rattle.window_rules.specs.Rings.{fresh_rings_of, written_each, written_of, contribution_at};
ghost use Rattle.window_rules.specs.Window.{drain_of};

use crate::every::{drain_slot, highest_underrun};
use kinds::SampleTime;
use levels::{Contribution, Levels};
use std::array;
use window_rules::{Drained, Rings};

// The number of a slot.
#[derive(Clone, Copy)]
pub(crate) struct Slot {
    pub(crate) number: usize,
    ghost below: { number < 128 },
}

#[tactic(auto, unfolding(window_rules::specs::Rings::fresh_rings_of))]
pub(crate) fn fresh_rings() -> Rings
    ensures { result ≡ fresh_rings_of }
{
    Rings {
        removal: [0; 128],
        total: [[0; 128]; 5],
        stream: [[0; 128]; 5],
        substream: [[0; 128]; 4],
    }
}

// The slot of each of the rings gets its own of the bytes.
fn write<const N: usize>(rings: &mut [[u32; 128]; N], slot: Slot, bytes: [u32; N])
    ensures { rings.new ≡ written_each N rings.old slot.number bytes.entry }
{
    for (k, ring) in rings.iter_mut().enumerate() {
        ring[slot.number] = bytes[k];
    }
}

// The arriving unit's slot, written in each ring. The rings are taken apart, so that each is written where it stands and none is copied as a whole.
#[tactic(auto, unfolding(window_rules::specs::Rings::written_of))]
pub(crate) fn write_slot(
    rings: Rings,
    slot: Slot,
    removal: SampleTime,
    contribution: Contribution,
) -> Rings
    ensures { result ≡ written_of rings slot.number removal contribution }
{
    let mut times = rings.removal;
    let mut total = rings.total;
    let mut stream = rings.stream;
    let mut substream = rings.substream;
    times[slot.number] = removal.0;
    write(&mut total, slot, contribution.total);
    write(&mut stream, slot, contribution.stream);
    write(&mut substream, slot, contribution.substream);
    Rings {
        removal: times,
        total,
        stream,
        substream,
    }
}

// What the unit of a slot added.
#[tactic(auto, unfolding(window_rules::specs::Rings::each_at))]
fn contribution_at(rings: &Rings, slot: Slot) -> Contribution
    ensures { result ≡ contribution_at rings.now slot.number }
{
    Contribution {
        total: array::from_fn(|k| rings.total[k][slot.number]),
        stream: array::from_fn(|k| rings.stream[k][slot.number]),
        substream: array::from_fn(|i| rings.substream[i][slot.number]),
    }
}

// Drains every slot whose removal time the playhead has strictly passed, at most one full ring, and stops after a slot with an
// underrun.
pub(crate) fn drain(rings: &Rings, mut levels: Levels, playhead: SampleTime) -> Drained
    requires { levels.read < 128 }
    ensures { result ≡ drain_of 128 rings.now playhead levels }
{
    for _ in 0..128usize {
        let slot = Slot {
            number: levels.read,
        };
        if !playhead.passed(SampleTime(rings.removal[slot.number])) {
            break;
        }
        let contribution = contribution_at(rings, slot);
        let underrun = highest_underrun(levels.depth, contribution);
        levels = drain_slot(levels, contribution);
        if underrun.is_some() {
            return Drained { levels, underrun };
        }
    }
    Drained {
        levels,
        underrun: None,
    }
}
