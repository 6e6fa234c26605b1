// The calls of a reader: `open`, `push`, `next`, `show`, `part`, `forge`.
ghost use Rattle.std.specs.Prelude.{◌≤◌};
ghost use Rattle.replaying.specs.declared.reader.TheConstants.{SPACE};

use crate::forge::ReaderField;
use crate::output::Output;
use crate::show::{Asked, ReaderRecord};
use crate::sums::Adler32;
use crate::words::{Words, settings};
use crc::Algorithm;
use extract::Extractor;
use std::fmt;
use std::fmt::Write;

// How many bytes the program has for the buffer that it lends.
const SPACE: usize = 524288;

// How much of the space the reader is lent: the first bytes.
#[derive(Clone, Copy)]
pub(crate) struct Room {
    bytes: usize,
    ghost within: { bytes ≤ SPACE },
}

impl Room {
    pub(crate) fn new(bytes: u64) -> Option<Room> {
        let bytes = bytes as usize;
        if bytes <= SPACE {
            Some(Room { bytes })
        } else {
            None
        }
    }
}

#[derive(Clone, Copy)]
pub(crate) enum ReaderCall<'a> {
    Open { room: Room, check: Algorithm },
    Push(&'a [u8]),
    Next,
    Show,
    Part { start: usize, length: usize },
    Forge(ReaderField),
}

impl ReaderCall<'_> {
    // `open LENGTH [POLY INIT ZEROS]`
    pub(crate) fn open(words: Words) -> Option<Self> {
        let numbers = words.numbers()?;
        let (room, check) = match numbers.as_slice() {
            [room, poly, init, zeros] => (*room, settings(*poly, *init, *zeros)),
            [room, ..] => (*room, Algorithm::major_sync_info()),
            [] => return None,
        };
        Some(ReaderCall::Open {
            room: Room::new(room)?,
            check,
        })
    }

    // `part START LENGTH`
    pub(crate) fn part(words: Words) -> Option<Self> {
        let numbers = words.numbers()?;
        let [start, length] = numbers.as_slice() else {
            return None;
        };
        Some(ReaderCall::Part {
            start: *start as usize,
            length: *length as usize,
        })
    }

    // `forge FIELD VALUE`
    pub(crate) fn forge(words: Words) -> Option<Self> {
        Some(ReaderCall::Forge(ReaderField::parse(words)?))
    }
}

// A reader, and the space of which it is lent a part.
#[derive(Drop)]
pub(crate) struct Reader {
    space: [u8; SPACE],
    pub room: Room,
    pub extractor: Extractor,
}

impl Reader {
    // A script begins with an opened reader over 8,192 bytes.
    #[tactic(auto, unfolding(extract::specs::Calls::opened_of))]
    pub(crate) fn new() -> Reader {
        let check = Algorithm::major_sync_info();
        Reader {
            space: [0; SPACE],
            room: Room { bytes: 8192 },
            extractor: Extractor::open(&[0; 8192], check).unwrap(), // which asks for the length alone
        }
    }

    // The buffer that the reader is lent.
    fn lent(&self) -> &[u8] {
        &self.space[..self.room.bytes]
    }

    // Writes the answer of a call, with the record after it.
    pub(crate) fn run(&mut self, call: ReaderCall, out: &mut Output) -> fmt::Result {
        match call {
            ReaderCall::Open { room, check } => self.open(room, check, out),
            ReaderCall::Push(piece) => self.push(piece, out),
            ReaderCall::Next => self.next(out),
            ReaderCall::Show => self.show(out),
            ReaderCall::Part { start, length } => self.part(start, length, out),
            ReaderCall::Forge(field) => {
                field.set(self);
                writeln!(out, "forged {}", ReaderRecord(self.extractor))
            }
        }
    }

    fn open(&mut self, room: Room, check: Algorithm, out: &mut Output) -> fmt::Result {
        match Extractor::open(&self.space[..room.bytes], check) {
            Ok(extractor) => {
                self.room = room;
                self.extractor = extractor;
                writeln!(out, "open 0 {}", ReaderRecord(extractor))
            }
            Err(refusal) => writeln!(out, "open {}", u8::from(refusal)),
        }
    }

    fn push(&mut self, piece: &[u8], out: &mut Output) -> fmt::Result {
        let extractor = self.extractor;
        let room = self.room.bytes;
        let pushed = extractor.push_bytes(&mut self.space[..room], piece);
        self.extractor = pushed.extractor;
        let number = pushed.answer.err().map_or(0, u8::from);
        writeln!(out, "push {number} {}", ReaderRecord(pushed.extractor))
    }

    fn next(&mut self, out: &mut Output) -> fmt::Result {
        let lent = &self.space[..self.room.bytes];
        let asked = self.extractor.next(lent);
        self.extractor = asked.extractor;
        let answer = Asked {
            answer: asked.answer,
            lent,
        };
        writeln!(out, "next {answer} {}", ReaderRecord(asked.extractor))
    }

    // Where the unread bytes stand, and the sum of the whole buffer.
    fn show(&self, out: &mut Output) -> fmt::Result {
        writeln!(
            out,
            "show start {} end {} buffer {} holds {} {}",
            self.extractor.start,
            self.extractor.end,
            self.room.bytes,
            Adler32::of(self.lent()),
            ReaderRecord(self.extractor)
        )
    }

    // A part of the buffer.
    fn part(&self, start: usize, length: usize, out: &mut Output) -> fmt::Result {
        let bytes = buffer::part(self.lent(), start, length);
        writeln!(out, "part {} bytes {}", bytes.len(), Adler32::of(bytes))
    }
}
