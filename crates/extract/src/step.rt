// One step of a request on the unread bytes: a search, or a unit under the lock. What it does to the stream, how many bytes it consumes, and
// whether it is dry, quiet or spoken.
ghost use Rattle.std.specs.Prelude.{◌≡◌, ◌+◌, ◌-◌, ◌≤◌, ◌<◌, length, true, false};
ghost use Rattle.rules.specs.Request.{raise as raiseOf, advance as advanceOf, lose as loseOf, lock as lockOf, pass_on, unit_of};
ghost use Rattle.rules.specs.Search.{keep};
ghost use Rattle.rules.specs.States.{Fit};
ghost use Rattle.extract.specs.Steps.{Roomy, Ready, arrived_of, verdict_of, StepsAs, FoundIn};

use judging::search::{Judged, candidate, find, kept, stamp_at};
use judging::unit::unit;
use kinds::BytePosition;
use rules::{Loss, Losses, Stream, Unit, Verdict};
use timestamp::Timestamp;

// How a step ends: dry, quiet, or with something spoken.
#[derive(Clone, Copy)]
pub enum Outcome {
    Dry,
    Quiet,
    Handed(Unit),
    TooShort { actual: u16, minimum: u16 },
    Failed,
}

// A stream and the unread bytes behind what it consumed, few enough to be counted.
#[derive(Clone, Copy)]
pub struct Front<'a> {
    pub stream: Stream,
    pub unread: &'a [u8],
    ghost fit: { Fit stream (length unread.now) },
}

#[derive(Clone, Copy)]
pub struct Stepped {
    pub stream: Stream,
    pub eaten: usize,
    pub outcome: Outcome,
}

// The one place where a loss is counted.
#[tactic(auto, unfolding(rules::specs::Request::raise))]
fn raise(w: Loss, l: Losses) -> Losses
    requires { l.errors ≤ 281474976710656 }
    ensures { result ≡ raiseOf w l }
{
    Losses {
        errors: l.errors + 1,
    }
}

// A stream, and how many bytes at its front go: no more than its counts have room for.
#[derive(Clone, Copy)]
struct Going {
    stream: Stream,
    bytes: usize,
    ghost roomy: { Roomy stream bytes },
}

impl Going {
    // Consumed.
    fn advance(self) -> Stream
        ensures { result ≡ advanceOf self.bytes self.stream }
    {
        Stream {
            consumed: BytePosition(self.stream.consumed.0 + self.bytes as u64),
            waiting: kept(self.bytes, self.stream.waiting),
            ..self.stream
        }
    }

    // Lost: counted, consumed, unlocked.
    fn lose(self, w: Loss) -> Stream
        ensures { result ≡ loseOf w self.bytes self.stream }
    {
        Stream {
            losses: raise(w, self.stream.losses),
            locked: false,
            ..self.advance()
        }
    }

    // What precedes a candidate, where `waiting` waits.
    fn arrive(self, waiting: Option<Timestamp>) -> Stream
        ensures { result ≡ arrived_of self.bytes self.stream waiting }
    {
        Stream {
            locked: false,
            seen: true,
            waiting,
            ..self.advance()
        }
    }

    // A unit: the timestamp went with it.
    fn pass_on(self) -> Stream
        ensures { result ≡ pass_on self.bytes self.stream }
    {
        Stream {
            frames: self.stream.frames + 1,
            waiting: None,
            ..self.advance()
        }
    }
}

// Locked under k substreams.
fn lock(k: u8, s: Stream) -> Stream
    ensures { result ≡ lockOf k s }
{
    Stream {
        substreams: k,
        locked: true,
        ..s
    }
}

// The unit of n bytes at the front.
fn handed(s: Stream, n: usize, major: bool) -> Unit
    requires { Ready s 0 n }
    ensures { result ≡ unit_of s n major }
{
    Unit {
        index: s.frames,
        position: s.consumed,
        length: n as u16,
        major,
        substreams: s.substreams,
        waiting: s.waiting,
    }
}

// What a verdict that eats n bytes does, behind the bytes that the search consumed.
#[tactic(auto, using(crate::proofs::StepWays::does_shorten, crate::proofs::StepWays::does_fail, crate::proofs::StepWays::does_hand))]
fn act(s: Stream, before: usize, n: usize, v: Verdict) -> Stepped
    requires { Ready s before n }
    ensures { result ≡ verdict_of s before n v }
{
    let eaten = before + n;
    let going = Going {
        stream: s,
        bytes: n,
    };
    match v {
        Verdict::Lock(k) => Stepped {
            stream: lock(k, s),
            eaten,
            outcome: Outcome::Quiet,
        },
        Verdict::Lost(w) => Stepped {
            stream: going.lose(w),
            eaten,
            outcome: Outcome::Quiet,
        },
        Verdict::Short { actual, minimum } => Stepped {
            stream: going.lose(Loss::Length),
            eaten,
            outcome: Outcome::TooShort { actual, minimum },
        },
        Verdict::Failed => Stepped {
            stream: going.lose(Loss::Check),
            eaten,
            outcome: Outcome::Failed,
        },
        Verdict::Whole { major } => Stepped {
            stream: going.pass_on(),
            eaten,
            outcome: Outcome::Handed(handed(s, n, major)),
        },
    }
}

// How many bytes go where no candidate is found: the last 23 are kept before any sync was ever seen, afterwards the last 7.
fn discarded(n: usize, seen: bool) -> usize
    ensures { result ≡ n - keep seen }
{
    n.saturating_sub(if seen { 7 } else { 23 })
}

impl Front<'_> {
    // Under the lock: the unit at the front.
    fn locked_step(self) -> Stepped
        requires { self.stream.locked ≡ true }
        ensures { StepsAs self.entry.stream self.entry.unread.now result }
    {
        let Some(Judged { eaten, verdict }) = unit(self.stream.substreams, self.unread) else {
            return Stepped {
                stream: self.stream,
                eaten: 0,
                outcome: Outcome::Dry,
            };
        };
        act(self.stream, 0, eaten, verdict)
    }

    // At the candidate that was found n bytes on: what precedes it is consumed, then it is judged.
    fn at_candidate(self, n: usize) -> Stepped
        requires { FoundIn n self.stream self.unread.now }
        ensures { StepsAs self.entry.stream self.entry.unread.now result }
    {
        let s = self.stream;
        let before = Going {
            stream: s,
            bytes: n,
        };
        let at = before.arrive(stamp_at(s.seen, n, self.unread, s.waiting));
        let Some(Judged { eaten, verdict }) = candidate(s.check, &self.unread[n..]) else {
            return Stepped {
                stream: at,
                eaten: n,
                outcome: Outcome::Dry,
            };
        };
        act(at, n, eaten, verdict)
    }

    // Without a lock: the first candidate, or dry with what has to be kept.
    fn search_step(self) -> Stepped
        requires { self.stream.locked ≡ false }
        ensures { StepsAs self.entry.stream self.entry.unread.now result }
    {
        let Some(n) = find(self.unread) else {
            let gone = discarded(self.unread.len(), self.stream.seen);
            let going = Going {
                stream: self.stream,
                bytes: gone,
            };
            return Stepped {
                stream: going.advance(),
                eaten: gone,
                outcome: Outcome::Dry,
            };
        };
        self.at_candidate(n)
    }

    // One step.
    pub fn step(self) -> Stepped
        ensures { StepsAs self.entry.stream self.entry.unread.now result }
    {
        if self.stream.locked {
            self.locked_step()
        } else {
            self.search_step()
        }
    }
}
