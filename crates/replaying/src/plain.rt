// The calls without a record: `timestamp BYTES`, `check POLY INIT ZEROS BYTES`, `cap fba|fbb`.
use crate::output::Output;
use crate::show::{CapText, Stamp};
use crate::words::Words;
use crc::Algorithm;
use std::fmt;
use std::fmt::Write;
use timestamp::Timestamp;

#[derive(Clone, Copy)]
pub(crate) enum PlainCall<'a> {
    Timestamp(&'a [u8]),
    Check {
        settings: Algorithm,
        bytes: &'a [u8],
    },
    FbaCap {
        accumulator: usize,
    },
    FbbCap {
        accumulator: usize,
        info: u8,
    },
}

impl PlainCall<'_> {
    // `cap fba ACCUMULATOR`, `cap fbb ACCUMULATOR INFO`
    pub(crate) fn cap(mut words: Words) -> Option<Self> {
        let table = words.next()?;
        let numbers = words.numbers()?;
        match (table, numbers.as_slice()) {
            (b"fba", [k]) => Some(PlainCall::FbaCap {
                accumulator: *k as usize,
            }),
            (b"fbb", [k, info]) => Some(PlainCall::FbbCap {
                accumulator: *k as usize,
                info: (*info & 0xff) as u8,
            }),
            _ => None,
        }
    }

    // Writes the answer.
    pub(crate) fn run(self, out: &mut Output) -> fmt::Result {
        match self {
            PlainCall::Timestamp(bytes) => match Timestamp::from_bytes(bytes) {
                Ok(t) => writeln!(out, "timestamp {}", Stamp(t)),
                Err(error) => writeln!(out, "timestamp refused {}", u8::from(error)),
            },
            PlainCall::Check { settings, bytes } => {
                writeln!(out, "check {:04x}", settings.check(bytes))
            }
            PlainCall::FbaCap { accumulator } => {
                writeln!(out, "cap {}", CapText(byte_caps::fba_cap(accumulator)))
            }
            PlainCall::FbbCap { accumulator, info } => {
                writeln!(
                    out,
                    "cap {}",
                    CapText(byte_caps::fbb_cap(accumulator, info))
                )
            }
        }
    }
}
