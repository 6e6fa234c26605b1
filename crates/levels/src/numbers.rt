// The conditions of numbers 1, 12 and 13.
ghost use Rattle.std.specs.Prelude.{◌≡◌, nat_le};
ghost use Rattle.std.specs.List.{list_all, zip};
ghost use Rattle.levels.specs.Numbers.{fits_of, depth_fits, small_of, room_at, depth_room, room_of};

use crate::{Contribution, Depth, Levels, SubstreamDepth};

// The deepest that an accumulator or a substream may be.
const DEEPEST: u64 = 4_294_967_295;

// The most that one unit may add to it.
const MOST_ADDED: u32 = 16_384;

#[tactic(auto, unfolding(crate::specs::Numbers::depth_fits))]
fn depth_fits(depth: Depth) -> bool
    ensures { result ≡ depth_fits depth }
{
    depth.total <= DEEPEST && depth.stream <= DEEPEST
}

fn depths_fit(depth: [Depth; 5]) -> bool
    ensures { result ≡ list_all depth_fits depth }
{
    depth.iter().all(|depth| depth_fits(*depth))
}

fn substreams_fit(substream: [SubstreamDepth; 4]) -> bool
    ensures { result ≡ list_all (λ (d : SubstreamDepth). nat_le d.bytes 4294967295) substream }
{
    substream.iter().all(|substream| substream.bytes <= DEEPEST)
}

// Number 1.
#[tactic(auto, using(crate::proofs::Conditions::depths_each, crate::proofs::Conditions::substreams_each), unfolding(crate::specs::Numbers::fits_of))]
pub fn fits(levels: Levels) -> bool
    ensures { result ≡ fits_of levels }
{
    levels.read < 128
        && levels.write < 128
        && depths_fit(levels.depth)
        && substreams_fit(levels.substream)
}

fn all_small(bytes: &[u32]) -> bool
    ensures { result ≡ list_all (λ b. nat_le b 16384) bytes.now }
{
    bytes.iter().all(|bytes| *bytes <= MOST_ADDED)
}

// Number 12.
#[tactic(auto, using(crate::proofs::Conditions::small_each), unfolding(crate::specs::Numbers::small_of))]
pub fn small(contribution: Contribution) -> bool
    ensures { result ≡ small_of contribution }
{
    all_small(&contribution.total)
        && all_small(&contribution.stream)
        && all_small(&contribution.substream)
}

// Is there room for so many bytes more? Asked so that the sum is never made.
#[tactic(auto, unfolding(crate::specs::Numbers::room_at))]
fn room_at(depth: u64, bytes: u32) -> bool
    ensures { result ≡ room_at depth bytes }
{
    depth <= DEEPEST - u64::from(bytes)
}

#[tactic(auto, unfolding(crate::specs::Numbers::depth_room))]
fn depth_room(depth: Depth, total: u32, stream: u32) -> bool
    ensures { result ≡ depth_room depth total stream }
{
    room_at(depth.total, total) && room_at(depth.stream, stream)
}

fn depths_room(depth: [Depth; 5], contribution: Contribution) -> bool
    ensures { result ≡ list_all (λ p. depth_room p.0 p.1.0 p.1.1) (zip depth (zip contribution.total contribution.stream)) }
{
    let parts = contribution.total.iter().zip(contribution.stream.iter());
    depth.iter().zip(parts).all(|(depth, (total, stream))| depth_room(*depth, *total, *stream))
}

fn substreams_room(substream: [SubstreamDepth; 4], contribution: Contribution) -> bool
    ensures { result ≡ list_all (λ p. room_at p.0.bytes p.1) (zip substream contribution.substream) }
{
    substream
        .iter()
        .zip(contribution.substream.iter())
        .all(|(substream, bytes)| room_at(substream.bytes, *bytes))
}

// Number 13, against the depths before the drain.
#[tactic(auto, using(crate::proofs::Conditions::depths_room_each, crate::proofs::Conditions::substreams_room_each), unfolding(crate::specs::Numbers::room_of))]
pub fn room(levels: Levels, contribution: Contribution) -> bool
    ensures { result ≡ room_of levels contribution }
{
    depths_room(levels.depth, contribution) && substreams_room(levels.substream, contribution)
}
