// The reader for C and for Rust: the calls of the archive `exports_c`, include/mirvashen.h, bindings/rust. Document 01, "What must change shape", carried over the
// C interface: the record and the unit are words that the caller lends, the answer is document 01's number, and a unit is its start and length in
// the lent buffer. Words are lent and not handed over by value, since a record in and out of each call costs more than a byte's work.
//
// Every bit pattern is taken (crate `record_words`, which lists the words of a record). A call writes the words that it may change and no others;
// number 1 writes none.
//
// The words of a unit; the timestamp stands first, as in a record:
//    0 present  1 hours  2 minutes  3 seconds  4 frames  5 samples  6 reserved1  7 framerate  8 reserved2  9 dropframe
//   10 start  11 length  12 index  13 position  14 major  15 substreams  16 actual  17 minimum
#![tactic(auto)]

ghost use Rattle.std.specs.Prelude.{◌≡◌, length, Ok};
ghost use Rattle.extract.specs.Calls.{refusal_number, opened_of, pushed_of, buffer_of, asked_of};
ghost use Rattle.record_words.specs.Words.{setting_of, reader_of};
ghost use Rattle.exports.specs.Answers.{opened_number, opened_on, push_number, placed_on, pushed_on, unit_on, asked_number, asked_on, asked_unit};

use crc::Algorithm;
use extract::{Answer, Extractor, Refusal};
use record_words::{flag, left_on, reader_of, reader_on, stamp_on, yes};
use rules::Unit;

// The number that the desk sees, as C has it.
fn number(refusal: Refusal) -> u32
    ensures { result ≡ refusal_number refusal }
{
    u32::from(u8::from(refusal))
}

// A piece moves the unread bytes, the total and the pushes.
fn placed_on(words: &mut [u64; 24], e: Extractor)
    ensures { words.new ≡ placed_on words.old e }
{
    words[10] = e.start as u64;
    words[11] = e.end as u64;
    words[12] = e.accepted;
    words[13] = u64::from(e.unanswered);
}

#[tactic(auto, unfolding(crate::specs::Answers::unit_on))]
fn unit_on(words: &mut [u64; 24], u: Unit, start: usize)
    ensures { words.new ≡ unit_on words.old u start }
{
    words[10] = start as u64;
    words[11] = u64::from(u.length);
    words[12] = u.index;
    words[13] = u.position.0;
    words[14] = flag(u.major);
    words[15] = u64::from(u.substreams);
    stamp_on(words, u.waiting);
}

// What a request says, in the lent unit: a unit, or number 5's lengths.
#[tactic(auto, unfolding(crate::specs::Answers::asked_unit))]
fn spoken_on(words: &mut [u64; 24], answer: Answer) -> u32
    ensures number { result ≡ asked_number (Ok answer) }
    ensures unit { words.new ≡ asked_unit words.old (Ok answer) }
{
    match answer {
        Answer::Unit { unit, start } => {
            unit_on(words, unit, start);
            0
        }
        Answer::InvalidAccessUnitLength { actual, minimum } => {
            words[16] = u64::from(actual);
            words[17] = u64::from(minimum);
            5
        }
        Answer::ParityCheckFailed => 6,
        Answer::InsufficientData => 7,
        Answer::Quiet => 8,
    }
}

// A new reader over a lent buffer, with any check setting; number 1 where the buffer's length doesn't fit.
#[tactic(auto, unfolding(crate::specs::Answers::opened_on))]
pub fn mv_open(reader: &mut [u64; 24], buffer: &[u8], poly: u16, init: u16, zeros: u8) -> u32
    ensures number { result ≡ opened_number (opened_of (length buffer.now) (setting_of poly init zeros)) }
    ensures record { reader.new ≡ opened_on reader.old (opened_of (length buffer.now) (setting_of poly init zeros)) }
{
    let check = Algorithm {
        poly,
        init,
        zeros: yes(u64::from(zeros)),
    };
    match Extractor::open(buffer, check) {
        Ok(extractor) => {
            reader_on(reader, extractor);
            0
        }
        Err(refusal) => number(refusal), // the buffer's length
    }
}

// A piece behind the unread bytes; numbers 0 to 4.
#[tactic(auto, unfolding(crate::specs::Answers::pushed_on))]
pub fn mv_push_bytes(reader: &mut [u64; 24], buffer: &mut [u8], piece: &[u8]) -> u32
    ensures number { result ≡ push_number (pushed_of (reader_of reader.old) (length buffer.old) (length piece.now)).answer }
    ensures record { reader.new ≡ pushed_on reader.old (pushed_of (reader_of reader.old) (length buffer.old) (length piece.now)) }
    ensures holds { buffer.new ≡ buffer_of (reader_of reader.old) buffer.old piece.now }
{
    let pushed = reader_of(reader).push_bytes(buffer, piece);
    match pushed.answer {
        Ok(()) => {
            placed_on(reader, pushed.extractor);
            0
        }
        Err(refusal) => number(refusal), // and no word is written
    }
}

// One request: a unit as number 0, or numbers 1, 5, 6, 7, 8.
#[tactic(auto, using(crate::proofs::Ways::unwritten), unfolding(crate::specs::Answers::asked_on, crate::specs::Answers::asked_unit))]
pub fn mv_next(reader: &mut [u64; 24], buffer: &[u8], unit: &mut [u64; 24]) -> u32
    ensures number { result ≡ asked_number (asked_of (reader_of reader.old) buffer.now).answer }
    ensures record { reader.new ≡ asked_on reader.old (asked_number (asked_of (reader_of reader.old) buffer.now).answer) (asked_of (reader_of reader.old) buffer.now).extractor }
    ensures unit { unit.new ≡ asked_unit unit.old (asked_of (reader_of reader.old) buffer.now).answer }
{
    let asked = reader_of(reader).next(buffer);
    match asked.answer {
        Ok(answer) => {
            left_on(reader, asked.extractor);
            spoken_on(unit, answer)
        }
        Err(refusal) => number(refusal), // number 1, and no word is written
    }
}
