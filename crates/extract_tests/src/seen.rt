// A reader over a lent buffer, and what it hands out, kept for the assertions: the units, whether they are the data's own, the errors spoken.
use crate::asserts::Failure;
use arrayvec::{ArrayVec, CapacityError};
use crc::Algorithm;
use extract::{Answer, Extractor, Refusal};
use rules::{Stream, Unit};
use timestamp::Timestamp;

// So many zeros.
pub(crate) fn zeros<const N: usize>() -> [u8; N] {
    [0; N]
}

// A test's data.
pub(crate) type Data = ArrayVec<u8, 512>;

// A test's data, put together of parts.
pub(crate) fn joined(parts: &[&[u8]]) -> Result<Data, CapacityError> {
    let mut data = Data::new();
    for part in parts {
        data.try_extend_from_slice(part)?;
    }
    Ok(data)
}

// A unit's place and length, and the timestamp that came with it.
#[derive(Clone, Copy, Default)]
pub(crate) struct Handed {
    pub offset: u64,
    pub length: u16,
    pub stamp: Option<Timestamp>,
}

// What a reader handed out.
#[derive(Drop)]
pub(crate) struct Seen {
    pub units: ArrayVec<Handed, 8>,
    pub spoken: usize,
    pub sevens: usize,
    pub faithful: bool, // each unit's index is how many came before it, and its bytes stand in the data at its offset
}

impl Seen {
    // Nothing seen yet.
    pub(crate) fn nothing() -> Seen {
        Seen {
            units: ArrayVec::new(),
            spoken: 0,
            sevens: 0,
            faithful: true,
        }
    }

    // One unit more, with its bytes.
    fn note_unit(&mut self, unit: Unit, bytes: &[u8], data: &[u8]) -> Result<(), Failure> {
        let offset = unit.position.0;
        self.faithful = self.faithful
            && unit.index == self.units.len() as u64
            && bytes == buffer::part(data, offset as usize, usize::from(unit.length));
        self.units.try_push(Handed {
            offset,
            length: unit.length,
            stamp: unit.waiting,
        })?;
        Ok(())
    }
}

// A reader, and the buffer that it was opened over.
#[derive(Drop)]
pub(crate) struct Reader<'a> {
    extractor: Extractor,
    buf: &'a mut [u8],
}

impl<'a> Reader<'a> {
    // A new reader.
    pub(crate) fn open(buf: &'a mut [u8]) -> Result<Reader<'a>, Refusal> {
        let extractor = Extractor::open(buf, Algorithm::major_sync_info())?;
        Ok(Reader { extractor, buf })
    }

    // What the reader knows of the stream.
    pub(crate) fn stream(&self) -> Stream {
        self.extractor.stream
    }

    // A piece for the reader.
    pub(crate) fn push(&mut self, piece: &[u8]) -> Result<(), Refusal> {
        let pushed = self.extractor.push_bytes(self.buf, piece);
        self.extractor = pushed.extractor;
        pushed.answer
    }

    // A request.
    pub(crate) fn next(&mut self) -> Result<Answer, Refusal> {
        let asked = self.extractor.next(self.buf);
        self.extractor = asked.extractor;
        asked.answer
    }

    // The unit's bytes.
    pub(crate) fn bytes_of(&self, unit: Unit, start: usize) -> &[u8] {
        buffer::part(self.buf, start, usize::from(unit.length))
    }

    // Requests until the iterator would end: until 8. No test has 1,000 answers.
    pub(crate) fn all(&mut self, seen: &mut Seen, data: &[u8]) -> Result<(), Failure> {
        for _ in 0..1000 {
            match self.next()? {
                Answer::Unit { unit, start } => {
                    seen.note_unit(unit, self.bytes_of(unit, start), data)?
                }
                Answer::InvalidAccessUnitLength { .. } | Answer::ParityCheckFailed => {
                    seen.spoken = seen.spoken.saturating_add(1)
                }
                Answer::InsufficientData => seen.sevens = seen.sevens.saturating_add(1),
                Answer::Quiet => break,
            }
        }
        Ok(())
    }

    // Every unit of the data, handed over in pieces of a size, which is 1 at least.
    pub(crate) fn in_pieces(&mut self, data: &[u8], size: usize) -> Result<Seen, Failure> {
        let mut seen = Seen::nothing();
        for piece in data.chunks(size.max(1)) {
            self.push(piece)?;
            self.all(&mut seen, data)?;
        }
        Ok(seen)
    }
}
