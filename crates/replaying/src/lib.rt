// Replays a script of calls from standard input, a call a line, and writes each answer with the whole record after it. The programs `replay`
// and `recorded` are this over two scripts; oracle/README.md has the script's format. Answers to document 01's "shown by runs against it": a
// driver over the Rust reads the same script and writes the same lines.
//
// Nothing is decided here. The script is read in pieces, so it may be of any length; a line may have 262,143 bytes. A line that is no call is
// named on standard error and counted.
#![tactic(auto)]

mod call; // a line, as a call
mod depth; // the calls of the depth window
mod forge; // fields set by hand
mod output; // gathered output
mod plain; // the calls without a record
mod reader; // the calls of a reader
mod records; // what is kept from call to call
mod script; // lines, as they are read
mod show; // records and answers, as text
mod start; // the calls of start timing
mod sums; // Adler-32
mod words; // the words of a line, and the numbers and bytes that they write

use crate::call::Call;
use crate::output::{Output, STDERR};
use crate::records::Records;
use crate::script::Script;
use text::Page;

// How many bytes a line may write: two digits of it are one.
const BYTES: usize = 131072;

// A run over a script: what is kept from call to call, the bytes that the line at hand writes, the output, and how many lines were no call.
#[derive(Drop)]
struct Session<'a> {
    records: Records,
    bytes: [u8; BYTES],
    out: Output<'a>,
    refused: u64,
}

impl<'a> Session<'a> {
    fn new(page: Page<'a>) -> Session<'a> {
        Session {
            records: Records::new(),
            bytes: [0; BYTES],
            out: Output::new(page),
            refused: 0,
        }
    }

    // Takes a line of the script. One that begins with # is written as it stands, and an empty one is passed over.
    fn take(&mut self, line: &[u8]) {
        match line.iter().find(|b| **b != b' ') {
            Some(b'#') => self.out.put_line(line),
            Some(_) => self.answer(line),
            None => {}
        }
        self.out.make_room();
    }

    fn answer(&mut self, line: &[u8]) {
        match Call::parse(line, &mut self.bytes) {
            Some(call) => {
                // An answer always has room.
                let _ = self.records.run(call, &mut self.out);
            }
            None => self.refuse(line),
        }
    }

    fn refuse(&mut self, line: &[u8]) {
        io::write_all(STDERR, b"replay: no call: ");
        io::write_all(STDERR, line);
        io::write_all(STDERR, b"\n");
        self.refused = self.refused.wrapping_add(1);
    }

    fn finish(&mut self) {
        self.out.flush();
        if self.refused != 0 {
            io::write_all(STDERR, b"replay: lines that are no call: ");
            io::print_decimal(STDERR, self.refused);
            io::write_all(STDERR, b"\n");
        }
    }
}

// Replays standard input. Nothing says that a script ends, so its lines are counted to a number that no run reaches.
pub fn replay() {
    let mut script = Script::new();
    let mut room = io::large_buffer();
    let mut session = Session::new(Page::new(&mut room));
    for _ in 0..u64::MAX {
        let Some(line) = script.next_line() else {
            break;
        };
        session.take(line);
    }
    session.finish();
}
