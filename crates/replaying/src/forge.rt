// `forge FIELD VALUE` sets one field of a record, so that a script can show number 1 and the limits that no stream reaches. Where no value
// stands, it is 0; of one that is wider than its field, the low bits are taken.
use crate::reader::{Reader, Room};
use crate::words::{Numbers, Words};
use kinds::BytePosition;
use levels::Levels;
use rules::Losses;
use timing::HiresOutputTimingState;

// How much the reader is lent, or a field of its record.
#[derive(Clone, Copy)]
pub(crate) enum ReaderField {
    Buffer(Room),
    Start(usize),
    End(usize),
    Accepted(u64),
    Unanswered(u32),
    Consumed(u64),
    Frames(u64),
    Errors(u64),
    Substreams(u8),
    Locked(bool),
    Seen(bool),
}

impl ReaderField {
    pub(crate) fn parse(mut words: Words) -> Option<ReaderField> {
        let name = words.next()?;
        let value = value_at(&words.numbers()?, 0);
        Some(match name {
            b"buffer" => ReaderField::Buffer(Room::new(value)?),
            b"start" => ReaderField::Start(value as usize),
            b"end" => ReaderField::End(value as usize),
            b"accepted" => ReaderField::Accepted(value),
            b"unanswered" => ReaderField::Unanswered((value & 0xffff_ffff) as u32),
            b"consumed" => ReaderField::Consumed(value),
            b"frames" => ReaderField::Frames(value),
            b"errors" => ReaderField::Errors(value),
            b"substreams" => ReaderField::Substreams((value & 0xff) as u8),
            b"locked" => ReaderField::Locked(value != 0),
            b"seen" => ReaderField::Seen(value != 0),
            _ => return None,
        })
    }

    pub(crate) fn set(self, reader: &mut Reader) {
        let extractor = &mut reader.extractor;
        let stream = &mut extractor.stream;
        match self {
            ReaderField::Buffer(room) => reader.room = room,
            ReaderField::Start(n) => extractor.start = n,
            ReaderField::End(n) => extractor.end = n,
            ReaderField::Accepted(n) => extractor.accepted = n,
            ReaderField::Unanswered(n) => extractor.unanswered = n,
            ReaderField::Consumed(n) => stream.consumed = BytePosition(n),
            ReaderField::Frames(n) => stream.frames = n,
            ReaderField::Errors(errors) => stream.losses = Losses { errors },
            ReaderField::Substreams(n) => stream.substreams = n,
            ReaderField::Locked(locked) => stream.locked = locked,
            ReaderField::Seen(seen) => stream.seen = seen,
        }
    }
}

// A field of the timing record.
#[derive(Clone, Copy)]
pub(crate) enum TimingField {
    State(u8),
    Counter(u8),
    Bits(u32),
}

impl TimingField {
    pub(crate) fn parse(mut words: Words) -> Option<TimingField> {
        let name = words.next()?;
        let value = value_at(&words.numbers()?, 0);
        match name {
            b"state" => Some(TimingField::State((value & 0xff) as u8)),
            b"counter" => Some(TimingField::Counter((value & 0xff) as u8)),
            b"bits" => Some(TimingField::Bits((value & 0xffff_ffff) as u32)),
            _ => None,
        }
    }

    pub(crate) fn set(self, record: &mut HiresOutputTimingState) {
        match self {
            TimingField::State(n) => record.state = n,
            TimingField::Counter(n) => record.counter = n,
            TimingField::Bits(n) => record.bits = n,
        }
    }
}

// A slot number of a window, or a depth of accumulator or substream k.
#[derive(Clone, Copy)]
pub(crate) enum WindowField {
    Read(usize),
    Write(usize),
    Total { k: usize, bytes: u64 },
    Stream { k: usize, bytes: u64 },
    Substream { k: usize, bytes: u64 },
}

impl WindowField {
    // k stands behind the value.
    pub(crate) fn parse(mut words: Words) -> Option<WindowField> {
        let name = words.next()?;
        let numbers = words.numbers()?;
        let bytes = value_at(&numbers, 0);
        let k = value_at(&numbers, 1) as usize;
        match name {
            b"read" => Some(WindowField::Read(bytes as usize)),
            b"write" => Some(WindowField::Write(bytes as usize)),
            b"total" => Some(WindowField::Total { k, bytes }),
            b"stream" => Some(WindowField::Stream { k, bytes }),
            b"substream" => Some(WindowField::Substream { k, bytes }),
            _ => None,
        }
    }

    // A k that names no accumulator or substream sets nothing.
    pub(crate) fn set(self, levels: &mut Levels) {
        match self {
            WindowField::Read(n) => levels.read = n,
            WindowField::Write(n) => levels.write = n,
            WindowField::Total { k, bytes } => {
                if let Some(depth) = levels.depth.get_mut(k) {
                    depth.total = bytes;
                }
            }
            WindowField::Stream { k, bytes } => {
                if let Some(depth) = levels.depth.get_mut(k) {
                    depth.stream = bytes;
                }
            }
            WindowField::Substream { k, bytes } => {
                if let Some(depth) = levels.substream.get_mut(k) {
                    depth.bytes = bytes;
                }
            }
        }
    }
}

fn value_at(numbers: &Numbers, at: usize) -> u64 {
    numbers.as_slice().get(at).copied().unwrap_or(0)
}
