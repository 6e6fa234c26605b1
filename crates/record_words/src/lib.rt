// The reader's record as words, for C and for Rust: document 01, "What must change shape", carried over the C interface. A record is 24 words that the
// caller lends; here they are read as a record, and a record is laid on them.
//
// Every bit pattern is taken: a word that says yes or no is yes unless it is zero, and of a field that is narrower than its word the low bits are
// read, but for the two that number 1 bounds, pushes and substreams, which are read whole.
//
// The words of a record; the timestamp stands first:
//    0 present  1 hours  2 minutes  3 seconds  4 frames  5 samples  6 reserved1  7 framerate  8 reserved2  9 dropframe
//   10 start  11 end  12 accepted  13 unanswered  14 consumed  15 frames  16 errors  17 substreams  18 locked  19 seen  20 poly  21 init  22 zeros
#![tactic(auto)]

ghost use Rattle.std.specs.Prelude.{◌≡◌};
ghost use Rattle.laws.specs.Flags.{yes_of, flag_of};
ghost use Rattle.record_words.specs.Words.{stamp_of, waiting_of, stamp_words, stamp_on, check_of, stream_of, reader_of, left_on, reader_on};

use crc::Algorithm;
use extract::Extractor;
use kinds::BytePosition;
use rules::{Losses, Stream};
use std::array;
use timestamp::{Framerate, Timestamp};

// Any word but zero is yes.
pub fn yes(w: u64) -> bool
    ensures { result ≡ yes_of w }
{
    w != 0
}

pub fn flag(b: bool) -> u64
    ensures { result ≡ flag_of b }
{
    u64::from(b)
}

// The timestamp that the words say.
#[tactic(auto, unfolding(crate::specs::Words::stamp_of))]
fn stamp(words: &[u64; 24]) -> Timestamp
    ensures { result ≡ stamp_of words.now }
{
    let [hours, minutes, seconds, frames, samples, reserved1]: [u16; 6] = array::from_fn(
        |k| (words[k + 1] % 65536) as u16,
    );
    Timestamp {
        hours,
        minutes,
        seconds,
        frames,
        samples,
        reserved1,
        framerate: Framerate::from((words[7] % 256) as u8),
        reserved2: yes(words[8]),
        dropframe: yes(words[9]),
    }
}

// The timestamp that waits, if one does.
#[tactic(auto, unfolding(crate::specs::Words::waiting_of))]
fn waiting(words: &[u64; 24]) -> Option<Timestamp>
    ensures { result ≡ waiting_of words.now }
{
    yes(words[0]).then(|| stamp(words))
}

#[tactic(auto, unfolding(crate::specs::Words::stamp_words))]
fn stamp_words(words: &mut [u64; 24], t: Timestamp)
    ensures { words.new ≡ stamp_words words.old t }
{
    words[0] = 1;
    words[1] = u64::from(t.hours);
    words[2] = u64::from(t.minutes);
    words[3] = u64::from(t.seconds);
    words[4] = u64::from(t.frames);
    words[5] = u64::from(t.samples);
    words[6] = u64::from(t.reserved1);
    words[7] = u64::from(u8::from(t.framerate));
    words[8] = flag(t.reserved2);
    words[9] = flag(t.dropframe);
}

// Where there is no timestamp its other words are not looked at, and not written.
#[tactic(auto, unfolding(crate::specs::Words::stamp_on))]
pub fn stamp_on(words: &mut [u64; 24], waiting: Option<Timestamp>)
    ensures { words.new ≡ stamp_on words.old waiting }
{
    match waiting {
        None => words[0] = 0,
        Some(t) => stamp_words(words, t),
    }
}

// The check's setting.
#[tactic(auto, unfolding(crate::specs::Words::check_of))]
fn setting(words: &[u64; 24]) -> Algorithm
    ensures { result ≡ check_of words.now }
{
    Algorithm {
        poly: (words[20] % 65536) as u16,
        init: (words[21] % 65536) as u16,
        zeros: yes(words[22]),
    }
}

#[tactic(auto, unfolding(crate::specs::Words::stream_of))]
fn stream_of(words: &[u64; 24]) -> Stream
    ensures { result ≡ stream_of words.now }
{
    Stream {
        consumed: BytePosition(words[14]),
        frames: words[15],
        losses: Losses { errors: words[16] },
        substreams: words[17].min(16) as u8,
        locked: yes(words[18]),
        seen: yes(words[19]),
        waiting: waiting(words),
        check: setting(words),
    }
}

// The record that the words say. Number 1 bounds pushes and substreams: what it refuses above its limit stays refused.
#[tactic(auto, unfolding(crate::specs::Words::reader_of))]
pub fn reader_of(words: &[u64; 24]) -> Extractor
    ensures { result ≡ reader_of words.now }
{
    Extractor {
        start: words[10] as usize,
        end: words[11] as usize,
        accepted: words[12],
        unanswered: words[13].min(65536) as u32,
        stream: stream_of(words),
    }
}

// What a request may change of a record.
#[tactic(auto, unfolding(crate::specs::Words::left_on))]
pub fn left_on(words: &mut [u64; 24], e: Extractor)
    ensures { words.new ≡ left_on words.old e }
{
    let s = e.stream;
    words[10] = e.start as u64;
    words[13] = u64::from(e.unanswered);
    words[14] = s.consumed.0;
    words[15] = s.frames;
    words[16] = s.losses.errors;
    words[17] = u64::from(s.substreams);
    words[18] = flag(s.locked);
    words[19] = flag(s.seen);
    stamp_on(words, s.waiting);
}

// The whole record.
#[tactic(auto, unfolding(crate::specs::Words::reader_on))]
pub fn reader_on(words: &mut [u64; 24], e: Extractor)
    ensures { words.new ≡ reader_on words.old e }
{
    let check = e.stream.check;
    words[11] = e.end as u64;
    words[12] = e.accepted;
    words[20] = u64::from(check.poly);
    words[21] = u64::from(check.init);
    words[22] = flag(check.zeros);
    left_on(words, e);
}
