// Reports the units of a stream: `report [FILE [PIECE]]`. FILE is standard input where none is named; it is handed to the reader in pieces
// of PIECE bytes, 65,536 where none is given, and the lines are the same for every PIECE. What goes wrong is said in a line on standard
// error, and then there is no END line.
#![tactic(auto)]

ghost use Rattle.std.specs.Prelude.{◌≤◌, IfSome};

mod complaint;

use crate::complaint::{Complaint, Cut};
use crc::Algorithm;
use extract::{Extractor, Refusal};
use std::env::FillError;
use std::fs::File;
use std::io::{Read, Stdout};
use std::rt::Env;

// The piece where no size is given.
const USUAL: usize = 65536;

// The lent buffer is as long as a reader takes; a piece and the 8,189 bytes that a dry reader may hold fit in it.
const MOST: usize = 1040000;

// A reader over a lent buffer, and where its lines go.
#[derive(Drop)]
struct Desk<'a> {
    reader: Extractor,
    buf: &'a mut [u8],
    out: [u8; 65536],
    lines: Stdout,
}

impl<'a> Desk<'a> {
    // A new reader.
    fn open(buf: &'a mut [u8], lines: Stdout) -> Result<Desk<'a>, Refusal> {
        let reader = Extractor::open(buf, Algorithm::major_sync_info())?;
        Ok(Desk {
            reader,
            buf,
            out: [0; 65536],
            lines,
        })
    }

    // Reads a piece, and writes its lines; false where the file has ended.
    fn take_piece<R: Read>(&mut self, source: &mut R, piece: &mut [u8]) -> Result<bool, Cut> {
        let n = source.read(piece)?;
        if n == 0 {
            return Ok(false);
        }
        self.reader = reporting::report_piece(
            self.reader,
            self.buf,
            &piece[..n],
            &mut self.out,
            &mut self.lines,
        )?;
        Ok(true)
    }

    // Takes all that there is to read, and writes the last line. Nothing says that a file ends, so the turns are counted up to a number that
    // no run reaches.
    fn take_all<R: Read>(&mut self, source: &mut R, piece: &mut [u8]) -> Result<(), Cut> {
        for _ in 0..u64::MAX {
            if !self.take_piece(source, piece)? {
                reporting::report_end(self.reader, &mut self.out, &mut self.lines)?;
                break;
            }
        }
        Ok(())
    }
}

// So many zeros. The longest buffer that a reader takes is 1,048,576 bytes.
fn zeros<const N: usize>() -> [u8; N] {
    [0; N]
}

// The report of an open file, in pieces of a size.
fn report<R: Read>(source: &mut R, size: usize, lines: Stdout) -> Result<(), Cut>
    requires { size ≤ 1048576 }
{
    let mut buf = zeros::<1048576>();
    let mut piece = zeros::<1048576>();
    let mut desk = Desk::open(&mut buf, lines)?;
    desk.take_all(source, &mut piece[..size])
}

// The size that a word gives.
fn size_of(word: &[u8]) -> Option<usize>
    ensures { IfSome result (λ size. size ≤ 1048576) }
{
    let size = text::decimal_number(word)? as usize;
    (1..=MOST).contains(&size).then_some(size)
}

// The report that the arguments ask for; `name` and `word` are room for two of them. A name is bytes to the system, and text to what opens it
// here: a file whose name is no UTF-8 text goes in through standard input.
fn run<'a>(rt: &HostRuntime, name: &'a mut [u8], word: &'a mut [u8]) -> Result<(), Complaint<'a>> {
    if !matches!(rt.arg(3, &mut [0; 1]), Err(FillError::NotPresent)) {
        return Err(Complaint::TooManyWords);
    }
    let name = match rt.arg(1, name) {
        Ok(n) => &name[..n],
        Err(FillError::TooLong) => return Err(Complaint::LongName),
        Err(FillError::NotPresent) => {
            let name = "standard input";
            return report(&mut rt.stdin(), USUAL, rt.stdout()).map_err(|cut| Complaint::Ended {
                name,
                cut,
            });
        }
    };
    let size = match rt.arg(2, word) {
        Ok(n) => size_of(&word[..n]).ok_or(Complaint::NoPiece(&word[..n]))?,
        Err(FillError::TooLong) => return Err(Complaint::NoPiece(b"")),
        Err(FillError::NotPresent) => USUAL,
    };
    let name = str::from_utf8(name).map_err(|_| Complaint::NoText(name))?;
    let mut file = File::open(rt, name).map_err(|error| Complaint::Unopened { name, error })?;
    report(&mut file, size, rt.stdout()).map_err(|cut| Complaint::Ended { name, cut })
}

fn main(rt: HostRuntime) {
    let mut name = zeros::<4096>();
    let mut word = zeros::<4096>();
    if let Err(complaint) = run(&rt, &mut name, &mut word) {
        // Where standard error takes no words there is nobody to tell.
        let _ = complaint.tell(&rt);
    }
}
