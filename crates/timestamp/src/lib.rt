// The timestamp that may stand before a stream's first unit: document 01, "Timestamp (003)"; structs/timestamp.rs in the Rust, its
// printing and its trace lines left out. Any slice is taken: too short is number 9, wrong sync bytes 10, a digit that is none 11.
#![tactic(auto)]

ghost use Rattle.std.specs.Prelude.{◌≡◌, Some};
ghost use Rattle.timestamp.specs.Timestamp.{bcd_of, rate_of, rate_code, parse_of, number_of, text_of};

use std::error::Error;
use std::{array, fmt};

// The frame rate by its code; a code that names no rate is kept as it came.
#[derive(Clone, Copy, Debug, PartialEq, Eq)]
pub enum Framerate {
    R23_976,
    R24,
    R25,
    R29_97,
    R30,
    R50,
    R59_94,
    R60,
    Invalid(u8),
}

#[derive(Clone, Copy, Debug, PartialEq, Eq)]
pub struct Timestamp {
    pub hours: u16,
    pub minutes: u16,
    pub seconds: u16,
    pub frames: u16,
    pub samples: u16,
    pub reserved1: u16,
    pub framerate: Framerate,
    pub reserved2: bool,
    pub dropframe: bool,
}

// Why sixteen bytes are no timestamp.
#[derive(Clone, Copy, Debug, PartialEq, Eq)]
pub enum TimestampError {
    InsufficientData,
    InvalidSyncBytes,
    InvalidBcdDigit,
}

impl fmt::Display for TimestampError {
    ghost output = { λ error. Some (text_of error) };

    fn fmt<W: fmt::Write>(&self, f: &mut fmt::Formatter<W>) -> fmt::Result {
        match *self {
            TimestampError::InsufficientData => f.write_str("too short for a timestamp"),
            TimestampError::InvalidSyncBytes => f.write_str("wrong sync bytes"),
            TimestampError::InvalidBcdDigit => f.write_str("a digit that is none"),
        }
    }
}

impl Error for TimestampError {}

// The number that the desk sees.
impl From<TimestampError> for u8 {
    ghost from_gives = { λ error number. number ≡ number_of error };

    fn from(error: TimestampError) -> u8 {
        match error {
            TimestampError::InsufficientData => 9,
            TimestampError::InvalidSyncBytes => 10,
            TimestampError::InvalidBcdDigit => 11,
        }
    }
}

impl From<u8> for Framerate {
    ghost from_gives = { λ code rate. rate ≡ rate_of code };

    #[tactic(auto, unfolding(crate::specs::Timestamp::rate_of))]
    fn from(code: u8) -> Framerate {
        match code {
            1 => Framerate::R23_976,
            2 => Framerate::R24,
            3 => Framerate::R25,
            4 => Framerate::R29_97,
            5 => Framerate::R30,
            6 => Framerate::R50,
            7 => Framerate::R59_94,
            8 => Framerate::R60,
            _ => Framerate::Invalid(code),
        }
    }
}

// The code that a rate stands for: of one that names no rate, the code that came.
impl From<Framerate> for u8 {
    ghost from_gives = { λ rate code. code ≡ rate_code rate };

    fn from(rate: Framerate) -> u8 {
        match rate {
            Framerate::R23_976 => 1,
            Framerate::R24 => 2,
            Framerate::R25 => 3,
            Framerate::R29_97 => 4,
            Framerate::R30 => 5,
            Framerate::R50 => 6,
            Framerate::R59_94 => 7,
            Framerate::R60 => 8,
            Framerate::Invalid(code) => code,
        }
    }
}

impl Timestamp {
    // Four BCD digits: the number that they write.
    #[tactic(auto, unfolding(crate::specs::Timestamp::bcd_of))]
    pub fn parse_bcd16(value: u16) -> Option<u16>
        ensures { result ≡ bcd_of value }
    {
        let [a, b, c, d] = [value / 4096, value / 256 % 16, value / 16 % 16, value % 16];
        if a > 9 || b > 9 || c > 9 || d > 9 {
            return None;
        }
        Some(1000 * a + 100 * b + 10 * c + d)
    }

    // The timestamp of the first 16 bytes given, any more being ignored.
    #[tactic(auto, unfolding(crate::specs::Timestamp::parse_of, crate::specs::Timestamp::fields_of, crate::specs::Timestamp::stamp_of))]
    pub fn from_bytes(buffer: &[u8]) -> Result<Timestamp, TimestampError>
        ensures { result ≡ parse_of buffer.now }
    {
        let Some(bytes) = buffer.first_chunk::<16>() else {
            return Err(TimestampError::InsufficientData);
        };
        let [head, hours, minutes, seconds, frames, samples, flags, tail]: [u16; 8] =
            array::from_fn(|k| u16::from_be_bytes([bytes[2 * k], bytes[2 * k + 1]]));
        if head != 0x0110 || tail != 0x8000 {
            return Err(TimestampError::InvalidSyncBytes);
        }
        let number = |digits| Timestamp::parse_bcd16(digits).ok_or(TimestampError::InvalidBcdDigit);
        let [_, low] = flags.to_be_bytes();
        Ok(Timestamp {
            hours: number(hours)?,
            minutes: number(minutes)?,
            seconds: number(seconds)?,
            frames: number(frames)?,
            samples,
            reserved1: flags / 64,
            framerate: Framerate::from(low / 4 % 16),
            reserved2: flags / 2 % 2 == 1,
            dropframe: flags % 2 == 1,
        })
    }
}
