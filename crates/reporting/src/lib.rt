// The report of a stream, written: document 01, "Cases by hand". The lines of a piece are gathered in a lent slice (crate `lines`), so that there
// are no more writes than pieces, but where a piece's lines fill the slice.
//
// What a write does is the writer's matter, and its contract says nothing of it. All else is determined: a call ends as the rules say, or with a
// line that could not be written.
#![tactic(auto)]

ghost use Rattle.std.specs.Prelude.{◌≡◌, Some};
ghost use Rattle.extract.specs.Calls.{buffer_of};
ghost use Rattle.reporting.specs.Reports.{text_of, Written, wrote_of, piece_of};
ghost use Rattle.reporting.specs.declared.Failure.TheVariants.{Refused};

use extract::{Extractor, Refusal};
use lines::{Ended, gather, put_end};
use standard_output::FileNumber;
use std::error::Error;
use std::fmt;
use std::io::Write;

// Why a report ends early: a call was refused, or a line could not be written.
#[derive(Clone, Copy, Debug, PartialEq, Eq)]
pub enum Failure {
    Refused(Refusal),
    Unwritten,
}

impl From<Refusal> for Failure {
    ghost from_gives = { λ e f. f ≡ Refused e };

    fn from(why: Refusal) -> Failure {
        Failure::Refused(why)
    }
}

impl fmt::Display for Failure {
    ghost output = { λ failure. Some (text_of failure) };

    fn fmt<W: fmt::Write>(&self, f: &mut fmt::Formatter<W>) -> fmt::Result {
        match *self {
            Failure::Refused(refusal) => write!(f, "{refusal}"),
            Failure::Unwritten => f.write_str("a line could not be written"),
        }
    }
}

impl Error for Failure {}

// Gathers and writes until the reader is dry. Nothing here says that it ever is, so the turns are counted, up to a number that no run
// reaches.
#[tactic(auto, using(crate::proofs::Ways::wrote_spent, crate::proofs::Ways::wrote_dry, crate::proofs::Ways::wrote_refused, crate::proofs::Ways::wrote_on))]
fn write_lines<W: Write>(
    reader: Extractor,
    buf: &[u8],
    out: &mut [u8; 65536],
    to: &mut W,
) -> Result<Extractor, Failure>
    ensures { Written result (wrote_of 18446744073709551615 reader buf.now out.old) }
{
    let mut reader = reader;
    for _ in 0..u64::MAX {
        let gathered = gather(reader, buf, out);
        reader = gathered.reader;
        if to.write_all(buffer::part(out, 0, gathered.used)).is_err() {
            return Err(Failure::Unwritten);
        }
        match gathered.ended {
            Ended::Dry => return Ok(reader),
            Ended::Refused => return Err(Failure::Refused(Refusal::Record)),
            Ended::Full => {}
        }
    }
    Ok(reader)
}

// Hands a piece to the reader, and writes its lines.
pub fn report_piece<W: Write>(
    reader: Extractor,
    buf: &mut [u8],
    piece: &[u8],
    out: &mut [u8; 65536],
    to: &mut W,
) -> Result<Extractor, Failure>
    ensures says { Written result (piece_of reader buf.old piece.now out.old) }
    ensures holds { buf.new ≡ buffer_of reader buf.old piece.now }
{
    let pushed = reader.push_bytes(buf, piece);
    pushed.answer?;
    write_lines(pushed.extractor, buf, out, to)
}

// `END position errors`
pub fn report_end<W: Write>(
    reader: Extractor,
    out: &mut [u8; 65536],
    to: &mut W,
) -> Result<Extractor, Failure>
    ensures { Written result (Ok reader) }
{
    let used = put_end(reader, out);
    if to.write_all(buffer::part(out, 0, used)).is_err() {
        return Err(Failure::Unwritten);
    }
    Ok(reader)
}

// The report of bytes that are all there, handed over in pieces of a size, which is 1 at least.
pub fn report_bytes<W: Write>(
    reader: Extractor,
    buf: &mut [u8],
    bytes: &[u8],
    size: usize,
    out: &mut [u8; 65536],
    to: &mut W,
) -> Result<Extractor, Failure> {
    let mut reader = reader;
    for piece in bytes.chunks(size.max(1)) {
        reader = report_piece(reader, buf, piece, out, to)?;
    }
    report_end(reader, out, to)
}

// `report_piece`, to a file by its number.
pub fn report_piece_to_file(
    reader: Extractor,
    buf: &mut [u8],
    piece: &[u8],
    out: &mut [u8; 65536],
    fd: i32,
) -> Result<Extractor, Failure>
    ensures says { Written result (piece_of reader buf.old piece.now out.old) }
    ensures holds { buf.new ≡ buffer_of reader buf.old piece.now }
{
    report_piece(reader, buf, piece, out, &mut FileNumber(fd))
}

// `report_end`, to a file by its number.
pub fn report_end_to_file(
    reader: Extractor,
    out: &mut [u8; 65536],
    fd: i32,
) -> Result<Extractor, Failure>
    ensures { Written result (Ok reader) }
{
    report_end(reader, out, &mut FileNumber(fd))
}

// `report_bytes`, to a file by its number.
pub fn report_bytes_to_file(
    reader: Extractor,
    buf: &mut [u8],
    bytes: &[u8],
    size: usize,
    out: &mut [u8; 65536],
    fd: i32,
) -> Result<Extractor, Failure> {
    report_bytes(reader, buf, bytes, size, out, &mut FileNumber(fd))
}
