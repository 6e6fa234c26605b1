// The assertions of a test, counted, and why a test ends early.
ghost use Rattle.std.specs.Prelude.{◌≡◌, true, OnOk};

use arrayvec::CapacityError;
use extract::Refusal;
use std::error::Error;
use std::fmt;

// The assertion of this number differs, the reader refused a call, or there is no room for a test's data or for what it hands out.
#[derive(Clone, Copy, Debug, PartialEq, Eq)]
pub(crate) enum Failure {
    Differs(u64),
    Refused(Refusal),
    NoRoom,
}

impl fmt::Display for Failure {
    fn fmt<W: fmt::Write>(&self, f: &mut fmt::Formatter<W>) -> fmt::Result {
        match self {
            Failure::Differs(number) => write!(f, "assertion {number} differs"),
            Failure::Refused(refusal) => write!(f, "a call is refused: {refusal}"),
            Failure::NoRoom => write!(f, "no room"),
        }
    }
}

impl Error for Failure {}

impl From<Refusal> for Failure {
    fn from(refusal: Refusal) -> Failure {
        Failure::Refused(refusal)
    }
}

impl<T: Drop> From<CapacityError<T>> for Failure {
    fn from(_: CapacityError<T>) -> Failure {
        Failure::NoRoom
    }
}

// How many assertions a test has made.
#[derive(Default, Drop)]
pub(crate) struct Check {
    made: u64,
}

impl Check {
    // One assertion more: the test goes on where it holds.
    pub(crate) fn holds(&mut self, ok: bool) -> Result<(), Failure>
        ensures { OnOk result (ok ≡ true) }
    {
        self.made = self.made.saturating_add(1);
        if ok {
            Ok(())
        } else {
            Err(Failure::Differs(self.made))
        }
    }
}
