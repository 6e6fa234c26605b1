// The report of the commit's examples, whole and in pieces: document 01, "Cases by hand". Each report stands under a heading.
#![tactic(auto)]

use crc::Algorithm;
use example_data::{EXAMPLE_DATA, EXAMPLE_DATA_FBB, EXAMPLE_DATA_FBB_UNEXTRACTABLE};
use extract::Extractor;
use reporting::Failure;
use standard_output::Output;
use std::array;
use std::fmt::{Display, Write};

const STDOUT: i32 = 1;

// Says a text, which brings its line's end, so that a plain line is one write. Where standard output takes none there is nobody to tell.
fn say<T: Display + Drop>(text: T) {
    let _ = write!(Output, "{text}");
}

// The report of bytes in pieces of a size, by a new reader, under a heading.
fn report<H: Display + Drop>(heading: H, bytes: &[u8], size: usize) {
    say(heading);
    let mut buf = io::large_buffer();
    let mut out = [0; 65536];
    let Ok(reader) = Extractor::open(&buf, Algorithm::major_sync_info()) else {
        return say("the reader refused its buffer\n");
    };
    let reported = reporting::report_bytes_to_file(reader, &mut buf, bytes, size, &mut out, STDOUT);
    if let Err(Failure::Refused(refusal)) = reported {
        say(format_args!("refused by number {}\n", u8::from(refusal)));
    }
}

// The example and its last unit three thousand times more: in one piece its lines are more than the room for lines, and none is lost.
fn long_example() -> [u8; 60120] {
    array::from_fn(|i| EXAMPLE_DATA[if i < 120 { i } else { 100 + i % 20 }])
}

fn main() {
    report("# EXAMPLE_DATA whole\n", &EXAMPLE_DATA, 120);
    for size in [1, 7, 23, 24, 64] {
        report(
            format_args!("# EXAMPLE_DATA in pieces of {size}\n"),
            &EXAMPLE_DATA,
            size,
        );
    }
    report("# EXAMPLE_DATA_FBB whole\n", &EXAMPLE_DATA_FBB, 482);
    report(
        "# EXAMPLE_DATA_FBB_UNEXTRACTABLE whole\n",
        &EXAMPLE_DATA_FBB_UNEXTRACTABLE,
        150,
    );
    let mut damaged = EXAMPLE_DATA;
    damaged[24] = 1;
    report(
        "# EXAMPLE_DATA with another byte in its sync: number 6\n",
        &damaged,
        120,
    );
    let mut damaged = EXAMPLE_DATA;
    damaged[17] = 0;
    report("# EXAMPLE_DATA with length 0: number 5\n", &damaged, 120);
    report("# no bytes\n", b"", 1);
    report(
        "# EXAMPLE_DATA and 3000 units more, whole\n",
        &long_example(),
        60120,
    );
}
