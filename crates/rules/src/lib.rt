// The rules of the reader as data and definitions: document 01, "Search" and "A request". What a stream's state, a unit, a loss and a verdict are;
// specs/ has the rules over them, and what is proved of the rules alone. No code.
#![tactic(auto)]

use crc::Algorithm;
use kinds::BytePosition;
use timestamp::Timestamp;

// The losses so far; every one raises the count of its kind.
#[derive(Clone, Copy)]
pub struct Losses {
    pub errors: u64,
}

// The kinds of loss.
#[derive(Clone, Copy)]
pub enum Loss {
    Length,
    Check,
    Mismatch,
    Parity,
}

// What the rules know of the stream behind the unread bytes.
#[derive(Clone, Copy)]
pub struct Stream {
    pub consumed: BytePosition,
    pub frames: u64,
    pub losses: Losses,
    pub substreams: u8,
    pub locked: bool,
    pub seen: bool,
    pub waiting: Option<Timestamp>, // for the next unit
    pub check: Algorithm,
}

// A unit: its number, its place in the stream, its length, whether it begins with a major sync, the substream count that it was locked
// under, and the timestamp that waited for it.
#[derive(Clone, Copy)]
pub struct Unit {
    pub index: u64,
    pub position: BytePosition,
    pub length: u16,
    pub major: bool,
    pub substreams: u8,
    pub waiting: Option<Timestamp>,
}

// What is decided on a candidate or a unit.
#[derive(Clone, Copy)]
pub enum Verdict {
    Lock(u8),
    Lost(Loss),
    Short { actual: u16, minimum: u16 },
    Failed,
    Whole { major: bool },
}
