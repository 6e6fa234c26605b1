// Which bytes of a stream are in units, and how many are in none: what a report must know before it says that nothing was lost. Demand 2 names the
// bytes of every unit; "ask what is quiet before you ask what is loud" asks for the others, which no answer and no count names.
//
// A byte is covered where a unit handed out has it, or the timestamp that the unit carries. The units are taken one by one as they are handed out, and
// nothing is kept of them but three numbers.
#![tactic(auto)]

ghost use Rattle.std.specs.Prelude.{◌≡◌};
ghost use Rattle.coverage.specs.Coverage.{nothing_yet, begin_of, passed_of, covered_of};

use rules::Unit;

// How far the stream was looked at, how many bytes before that are outside units, and where the first of them stands, if there are any.
#[derive(Clone, Copy)]
pub struct Coverage {
    pub reached: u64,
    pub outside: u64,
    pub first: Option<u64>,
}

// Where what a unit covers begins: at the timestamp that it carries, or at the unit itself.
fn begin_of(unit: Unit) -> u64
    ensures { result ≡ begin_of unit }
{
    let at = unit.position.0;
    match unit.waiting {
        Some(_) => at.saturating_sub(16),
        None => at,
    }
}

// No stream is so long that a sum here reaches the largest number, but any record is answered.
impl Coverage {
    // Nothing was looked at yet.
    #[tactic(auto, unfolding(crate::specs::Coverage::nothing_yet))]
    pub fn none() -> Coverage
        ensures { result ≡ nothing_yet }
    {
        Coverage {
            reached: 0,
            outside: 0,
            first: None,
        }
    }

    // The bytes up to a place are in no unit.
    #[tactic(auto, unfolding(crate::specs::Coverage::passed_of))]
    pub fn passed(self, place: u64) -> Coverage
        ensures { result ≡ passed_of place self }
    {
        if place <= self.reached {
            return self;
        }
        let outside = self.outside.saturating_add(place - self.reached);
        let first = if self.outside == 0 {
            Some(self.reached)
        } else {
            self.first
        };
        Coverage {
            reached: place,
            outside,
            first,
        }
    }

    // A unit was handed out: what lies between is outside, and its own bytes are covered.
    #[tactic(auto, unfolding(crate::specs::Coverage::covered_of))]
    pub fn covered(self, unit: Unit) -> Coverage
        ensures { result ≡ covered_of unit self }
    {
        let before = self.passed(begin_of(unit));
        Coverage {
            reached: unit.position.0.saturating_add(u64::from(unit.length)),
            ..before
        }
    }
}
