// What goes wrong, said in a line.
use extract::Refusal;
use reporting::Failure;
use std::io;
use std::io::Write;

// Why the report of an open file ends early: no reader takes the buffer, a read fails, a piece is refused or a line can't be written.
#[derive(Clone, Copy)]
pub(crate) enum Cut {
    Unopened(Refusal),
    Unread(io::Error),
    Unreported(Failure),
}

impl From<Refusal> for Cut {
    fn from(refusal: Refusal) -> Cut {
        Cut::Unopened(refusal)
    }
}

impl From<io::Error> for Cut {
    fn from(error: io::Error) -> Cut {
        Cut::Unread(error)
    }
}

impl From<Failure> for Cut {
    fn from(failure: Failure) -> Cut {
        Cut::Unreported(failure)
    }
}

// Hands a writer each part of a text, also behind one that it didn't take: where standard error takes no words there is nobody to tell.
#[derive(Drop)]
struct Tried<'a, W> {
    to: &'a mut W,
}

impl<W: Write> Write for Tried<'_, W> {
    fn write(&mut self, buf: &[u8]) -> io::Result<usize> {
        let _ = self.to.write_all(buf);
        Ok(buf.len())
    }

    fn flush(&mut self) -> io::Result<()> {
        Ok(())
    }
}

// Why there is no END line.
#[derive(Clone, Copy)]
pub(crate) enum Complaint<'a> {
    TooManyWords,
    LongName,
    NoPiece(&'a [u8]),
    NoText(&'a [u8]),
    Unopened { name: &'a str, error: io::Error },
    Ended { name: &'a str, cut: Cut },
}

impl Complaint<'_> {
    // Says what went wrong, and what to do, in the parts in which it was always written: one that takes some parts alone keeps the same ones.
    // Stays: no `Display`, which takes text alone: a name or a word is said byte for byte as it was given, and these words may not change.
    pub(crate) fn tell(self, rt: &HostRuntime) -> io::Result<()> {
        let mut stderr = rt.stderr();
        let to = &mut Tried { to: &mut stderr };
        match self {
            Complaint::TooManyWords => {
                to.write_all(b"report: too many words: report [FILE [PIECE]]\n")
            }
            Complaint::LongName => to.write_all(
                b"report: the file's name; give a shorter one: File name too long\n",
            ),
            Complaint::NoPiece(word) => {
                to.write_all(b"report: '")?;
                to.write_all(word)?;
                to.write_all(b"' is no PIECE: give a number from 1 to 1040000\n")
            }
            Complaint::NoText(name) => {
                to.write_all(b"report: cannot open '")?;
                to.write_all(name)?;
                to.write_all(b"'; name a file that can be read: the name is no UTF-8 text\n")
            }
            Complaint::Unopened { name, error } => {
                write!(
                    to,
                    "report: cannot {} '{name}{}: ",
                    "open", "'; name a file that can be read"
                )?;
                rt.eprintln(error)
            }
            Complaint::Ended { name, cut } => tell_cut(rt, name, cut, to),
        }
    }
}

fn tell_cut<W: Write>(rt: &HostRuntime, name: &str, cut: Cut, to: &mut W) -> io::Result<()> {
    match cut {
        Cut::Unopened(_) => to.write_all(b"report: the reader refused its buffer\n"),
        Cut::Unread(error) => {
            write!(
                to,
                "report: cannot {} '{name}{}: ",
                "read", "'; name a file or a pipe that can be read"
            )?;
            rt.eprintln(error)
        }
        Cut::Unreported(Failure::Refused(refusal)) => {
            let number = u8::from(refusal);
            write!(
                to,
                "report: '{name}': the reader refused a piece by number {number}; cut the stream below 2^48 bytes\n"
            )
        }
        Cut::Unreported(Failure::Unwritten) => to.write_all(
            b"report: cannot write to standard output; give it a place with room\n",
        ),
    }
}
