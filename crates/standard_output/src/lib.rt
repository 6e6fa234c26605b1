// Standard output for the programs of cases, and any file by its number, written at once, by nothing but C's `write`: std's own printing asks for
// the reason of a failure, and so would have each program assume a second C function (docs/TRUST.md).
#![tactic(auto)]

use std::fmt;
use std::io::{Error, ErrorKind, Write};

const STDOUT: i32 = 1;

// A file by its number, as a writer.
#[derive(Clone, Copy)]
pub struct FileNumber(pub i32);

impl Write for FileNumber {
    fn write(&mut self, buf: &[u8]) -> std::io::Result<usize> {
        if io::write_all(self.0, buf) {
            Ok(buf.len())
        } else {
            Err(Error::from(ErrorKind::Other))
        }
    }

    fn flush(&mut self) -> std::io::Result<()> {
        Ok(())
    }
}

#[derive(Clone, Copy)]
pub struct Output;

// Text: each part of it is tried, also after one that couldn't be written. Where standard output takes none there is nobody to tell.
impl fmt::Write for Output {
    fn write_str(&mut self, s: &str) -> fmt::Result {
        io::write_all(STDOUT, s.as_bytes());
        Ok(())
    }
}

impl Write for Output {
    fn write(&mut self, buf: &[u8]) -> std::io::Result<usize> {
        FileNumber(STDOUT).write(buf)
    }

    fn flush(&mut self) -> std::io::Result<()> {
        Ok(())
    }
}
