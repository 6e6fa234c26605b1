// The script, read in large pieces and handed out line by line.
ghost use Rattle.std.specs.Prelude.{◌≤◌};
ghost use Rattle.replaying.specs.declared.script.TheConstants.{LONGEST};

use crate::output::STDERR;
use std::mem;

const STDIN: i32 = 0;

// How many bytes a line may have, with its end.
const LONGEST: usize = 262144;

// What was read, and from where to where no line of it has been handed out. Closed: nothing more arrives.
//
// Stays: bytes with two places beside them. std's BufReader takes the heap, and its errors ask for errno: the programs would assume four
// contracts of C functions more than `read` and `write` (docs/TRUST.md).
#[derive(Drop)]
pub(crate) struct Script {
    bytes: [u8; LONGEST],
    start: usize,
    end: usize,
    closed: bool,
    ghost ordered: { start ≤ end },
    ghost within: { end ≤ LONGEST },
}

impl Script {
    pub(crate) fn new() -> Script {
        Script {
            bytes: [0; LONGEST],
            start: 0,
            end: 0,
            closed: false,
        }
    }

    // The next line; none where the script has ended, or a line is too long. The turns are few, since each but the last reads on, and what
    // it reads fills the bytes or closes the script.
    pub(crate) fn next_line(&mut self) -> Option<&[u8]> {
        for _ in 0..u64::MAX {
            let end = text::line_end(&self.bytes[..self.end], self.start);
            if end < self.end {
                let start = mem::replace(&mut self.start, end + 1);
                return Some(&self.bytes[start..end]);
            }
            if !self.read_on() {
                return None;
            }
        }
        None
    }

    // Reads on, behind what is left over, which goes to the front: is there more to hand out? Where nothing more arrives, what is left over is
    // a line too.
    fn read_on(&mut self) -> bool {
        if self.closed {
            return false;
        }
        self.bytes.copy_within(self.start..self.end, 0);
        self.end -= self.start;
        self.start = 0;
        if self.end == self.bytes.len() {
            io::write_all(
                STDERR,
                b"replay: a line of more than 262,143 bytes: stopped\n",
            );
            return false;
        }
        let more = io::read_full(STDIN, &mut self.bytes[self.end..]);
        if more == 0 {
            self.bytes[self.end] = b'\n';
            self.closed = true;
            self.end += 1;
        } else {
            self.end += more;
        }
        true
    }
}
