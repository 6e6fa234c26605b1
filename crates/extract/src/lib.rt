// The reader: document 01, "Search", "A request" and numbers 1 to 8; process/extract.rs in the Rust, its pool, `Arc` and fail levels left out.
// The record goes in and comes back by value, the bytes lie in a buffer that the caller lends, and a unit is handed out as a part of it (crate
// buffer).
#![tactic(auto)]

ghost use Rattle.std.specs.Prelude.{◌≡◌, ◌+◌, ◌<◌, Some, leb, eqb, length};
ghost use Rattle.machine.specs.Scan.{request as requestOf};
ghost use Rattle.rules.specs.Request.{reader};
ghost use Rattle.extract.specs.Record.{room_fits, record_fits, fits_of, unread};
ghost use Rattle.extract.specs.Fits.{Fits};
ghost use Rattle.extract.specs.Calls.{refusal_number, refusal_text, opened_of, pushed_on, pushed_of, buffer_of, left_at, dry_at, spoken_at, answered_of, asked_of};

mod step;

use crate::step::{Front, Outcome};
use buffer::place;
use crc::Algorithm;
use kinds::BytePosition;
use rules::{Losses, Stream, Unit};
use std::error::Error;
use std::fmt;

// The reader's record: where the unread bytes stand in the lent buffer, how many bytes it accepted, how many pushes are unanswered, and the
// stream.
#[derive(Clone, Copy)]
pub struct Extractor {
    pub start: usize,
    pub end: usize,
    pub accepted: u64,
    pub unanswered: u32,
    pub stream: Stream,
}

// Why a call is refused: the record doesn't fit, too many pushes are unanswered, the total would pass its limit, no room.
#[derive(Clone, Copy, Debug, PartialEq, Eq)]
pub enum Refusal {
    Record,
    Pushes,
    Total,
    Room,
}

// The number that the desk sees.
impl From<Refusal> for u8 {
    ghost from_gives = { λ e n. n ≡ refusal_number e };

    fn from(refusal: Refusal) -> u8 {
        match refusal {
            Refusal::Record => 1,
            Refusal::Pushes => 2,
            Refusal::Total => 3,
            Refusal::Room => 4,
        }
    }
}

impl fmt::Display for Refusal {
    ghost output = { λ refusal. Some (refusal_text refusal) };

    fn fmt<W: fmt::Write>(&self, f: &mut fmt::Formatter<W>) -> fmt::Result {
        match *self {
            Refusal::Record => f.write_str("the record or the buffer doesn't fit"),
            Refusal::Pushes => f.write_str("65,535 pushes are unanswered"),
            Refusal::Total => f.write_str("the accepted total would pass 2^48"),
            Refusal::Room => f.write_str("the buffer has no room for the piece"),
        }
    }
}

impl Error for Refusal {}

// The answers of a request.
#[derive(Clone, Copy)]
pub enum Answer {
    Unit { unit: Unit, start: usize },
    InvalidAccessUnitLength { actual: u16, minimum: u16 },
    ParityCheckFailed,
    InsufficientData,
    Quiet,
}

// The record after a request, and its answer; a refusal leaves the record as it was.
#[derive(Clone, Copy)]
pub struct Asked {
    pub extractor: Extractor,
    pub answer: Result<Answer, Refusal>,
}

// The record after a push; a refusal leaves it as it was.
#[derive(Clone, Copy)]
pub struct Pushed {
    pub extractor: Extractor,
    pub answer: Result<(), Refusal>,
}

// Is the accepted total the sum of consumed and unread? Without a sum that could wrap.
fn adds_up(accepted: u64, consumed: u64, unread: u64) -> bool
    ensures { result ≡ eqb accepted (consumed + unread) }
{
    consumed <= accepted && accepted - consumed == unread
}

// Are frames and errors together no more than the bytes consumed?
fn covers(consumed: u64, frames: u64, errors: u64) -> bool
    ensures { result ≡ leb (frames + errors) consumed }
{
    frames <= consumed && errors <= consumed - frames
}

// Is the buffer's length one that a reader takes?
fn room_fits(n: usize) -> bool
    ensures { result ≡ room_fits n }
{
    8192 <= n && n <= 1048576
}

impl Extractor {
    // Number 1, the record's own part: it needs no buffer.
    #[tactic(auto, unfolding(crate::specs::Record::record_fits))]
    pub fn record_fits(self) -> bool
        ensures { result ≡ record_fits self }
    {
        let s = self.stream;
        self.start <= self.end
            && adds_up(self.accepted, s.consumed.0, (self.end - self.start) as u64)
            && self.accepted <= 281474976710656
            && covers(s.consumed.0, s.frames, s.losses.errors)
            && self.unanswered <= 65535
            && s.substreams <= 15
            && (!s.locked || s.seen)
    }

    // Number 1: does the record fit a buffer of n bytes?
    #[tactic(auto, unfolding(crate::specs::Record::fits_of))]
    pub fn fits(self, n: usize) -> bool
        ensures { result ≡ fits_of self n }
    {
        self.record_fits() && room_fits(n) && self.end <= n
    }

    // A new reader over a lent buffer of n bytes, with any check setting: number 1 where the buffer's length doesn't fit.
    #[tactic(auto, unfolding(crate::specs::Calls::opened_of))]
    pub fn open(buffer: &[u8], check: Algorithm) -> Result<Extractor, Refusal>
        ensures { result ≡ opened_of (length buffer.now) check }
    {
        if !room_fits(buffer.len()) {
            return Err(Refusal::Record);
        }
        Ok(Extractor {
            start: 0,
            end: 0,
            accepted: 0,
            unanswered: 0,
            stream: Stream {
                consumed: BytePosition(0),
                frames: 0,
                losses: Losses { errors: 0 },
                substreams: 0,
                locked: false,
                seen: false,
                waiting: None,
                check,
            },
        })
    }

    // The record with a piece behind the unread bytes, or the number that refuses it. They stand in the buffer, so that no room is number 4.
    fn push(self, buf: &mut [u8], piece: &[u8]) -> Result<Extractor, Refusal>
        ensures answer { pushed_on self result ≡ pushed_of self (length buf.old) (length piece.now) }
        ensures holds { buf.new ≡ buffer_of self buf.old piece.now }
    {
        if !self.fits(buf.len()) {
            return Err(Refusal::Record);
        }
        if 65535 <= self.unanswered {
            return Err(Refusal::Pushes);
        }
        if 281474976710656 - self.accepted < piece.len() as u64 {
            return Err(Refusal::Total);
        }
        let start = place(buf, self.start, self.end, piece).ok_or(Refusal::Room)?;
        Ok(Extractor {
            start,
            end: start + (self.end - self.start) + piece.len(),
            accepted: self.accepted + piece.len() as u64,
            unanswered: self.unanswered + 1,
            ..self
        })
    }

    // A piece behind the unread bytes. Refused, in this order: 1 where the record doesn't fit, 2 where 65,535 pushes are unanswered, 3 where
    // the accepted total would pass 2^48, 4 where there is no room; record and buffer are then as they were.
    pub fn push_bytes(self, buf: &mut [u8], piece: &[u8]) -> Pushed
        ensures answer { result ≡ pushed_of self (length buf.old) (length piece.now) }
        ensures holds { buf.new ≡ buffer_of self buf.old piece.now }
    {
        match self.push(buf, piece) {
            Ok(extractor) => Pushed {
                extractor,
                answer: Ok(()),
            },
            Err(refusal) => Pushed {
                extractor: self,
                answer: Err(refusal),
            },
        }
    }

    // The record where a request leaves it: the unread bytes start at `at`, and so many pushes are unanswered.
    fn left(self, pushes: u32, at: usize, stream: Stream) -> Extractor
        ensures { result ≡ left_at self pushes at stream }
    {
        Extractor {
            start: at,
            unanswered: pushes,
            stream,
            ..self
        }
    }

    // Dry: 7 while locked, 8 in search; one push is answered.
    fn dry(self, at: usize, stream: Stream) -> Asked
        requires { 0 < self.unanswered }
        ensures { result ≡ dry_at self at stream }
    {
        let answer = if stream.locked {
            Answer::InsufficientData
        } else {
            Answer::Quiet
        };
        Asked {
            extractor: self.left(self.unanswered - 1, at, stream),
            answer: Ok(answer),
        }
    }

    // Spoken: the pushes stay unanswered.
    fn spoken(self, at: usize, stream: Stream, answer: Answer) -> Asked
        ensures { result ≡ spoken_at self at stream answer }
    {
        Asked {
            extractor: self.left(self.unanswered, at, stream),
            answer: Ok(answer),
        }
    }

    // The rules' request. After a quiet loss it goes on in the same request, and so it does after a lock.
    fn request(self, buf: &[u8]) -> Asked
        requires fits { Fits self (length buf.now) }
        requires unanswered_nonzero { 0 < self.unanswered }
        ensures { result ≡ answered_of self (requestOf reader self.stream (unread self buf.now)) }
    {
        let mut at = self.start;
        let mut stream = self.stream;
        'request: loop {
            let unread = &buf[at..self.end];
            let stepped = Front { stream, unread }.step();
            at += stepped.eaten;
            stream = stepped.stream;
            match stepped.outcome {
                Outcome::Quiet => continue 'request,
                Outcome::Dry => return self.dry(at, stream),
                Outcome::Handed(unit) => {
                    let start = at - usize::from(unit.length);
                    return self.spoken(at, stream, Answer::Unit { unit, start });
                }
                Outcome::TooShort { actual, minimum } => {
                    let short = Answer::InvalidAccessUnitLength { actual, minimum };
                    return self.spoken(at, stream, short);
                }
                Outcome::Failed => return self.spoken(at, stream, Answer::ParityCheckFailed),
            }
        }
    }

    // One request: number 1 where the record doesn't fit; 8 where nothing is unanswered; else a unit, number 5 or 6, or dry as 7 or 8. It
    // writes nothing in the buffer.
    pub fn next(self, buf: &[u8]) -> Asked
        ensures { result ≡ asked_of self buf.now }
    {
        if !self.fits(buf.len()) {
            return Asked {
                extractor: self,
                answer: Err(Refusal::Record),
            };
        }
        if self.unanswered == 0 {
            return Asked {
                extractor: self,
                answer: Ok(Answer::Quiet),
            };
        }
        self.request(buf)
    }
}
