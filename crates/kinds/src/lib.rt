// The kinds of number that document 01 says must not be mixed: where a byte stands in a stream, and when a sample is played. Each is a tuple
// struct of its own, so a caller who swaps two of them is refused before anything runs.
#![tactic(auto)]

ghost use Rattle.std.specs.Prelude.{◌≡◌};
ghost use Rattle.kinds.specs.Kinds.{passed_of};

// A place in the stream, counted in bytes from its beginning.
#[derive(Clone, Copy, Debug, PartialEq, Eq, PartialOrd, Ord)]
pub struct BytePosition(pub u64);

// A moment of playback, counted in samples.
#[derive(Clone, Copy, Debug, PartialEq, Eq, PartialOrd, Ord)]
pub struct SampleTime(pub u64);

impl SampleTime {
    // Is this moment strictly above the other? At the very moment it has not passed it.
    pub fn passed(self, other: SampleTime) -> bool
        ensures { result ≡ passed_of self other }
    {
        other < self
    }
}
