// Output is gathered and written in large pieces: a script may have millions of calls.
//
// Stays: a file goes by its number, as the kit's crate io has it. std's writers answer with errors that ask for errno, and the programs would
// assume one contract more than those of `read` and `write` (docs/TRUST.md).
use std::fmt;
use text::Page;

const STDOUT: i32 = 1;

pub(crate) const STDERR: i32 = 2;

// What there is room for before each line: an answer, of which none has 1,000 bytes, or a line that is gathered.
const ROOM: usize = 4096;

#[derive(Debug, Drop)]
pub(crate) struct Output<'a> {
    page: Page<'a>,
}

impl<'a> Output<'a> {
    pub(crate) fn new(page: Page<'a>) -> Output<'a> {
        Output { page }
    }

    // Writes what was gathered. Where that fails there is nobody to tell.
    pub(crate) fn flush(&mut self) {
        io::write_all(STDOUT, self.page.written());
        self.page.end = 0;
    }

    // Makes room for what the next line comes to, so that no write ends within an answer.
    pub(crate) fn make_room(&mut self) {
        if self.page.bytes.len() <= self.page.end.saturating_add(ROOM) {
            self.flush();
        }
    }

    // A line of the script as it stands. A long one is not gathered.
    pub(crate) fn put_line(&mut self, line: &[u8]) {
        if line.len() < 4000 {
            self.page.put(line);
        } else {
            self.flush();
            io::write_all(STDOUT, line);
        }
        self.page.put(b"\n");
    }
}

impl fmt::Write for Output<'_> {
    fn write_str(&mut self, s: &str) -> fmt::Result {
        self.page.put(s.as_bytes());
        Ok(())
    }
}
