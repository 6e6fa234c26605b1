// Runs the ten tests of process/extract.rs over the reader: document 01, "The tests of 000 are run". A line a test: its name, and ok, or which
// assertion was the first that differed.
#![tactic(auto)]

mod asserts;
mod cases;
mod seen;

use crate::asserts::Failure;
use standard_output::Output;
use std::fmt::Write;

fn tell(name: &str, outcome: Result<(), Failure>) {
    // Where standard output takes no words there is nobody to tell.
    let _ = match outcome {
        Ok(()) => writeln!(Output, "{name}: ok"),
        Err(failure) => writeln!(Output, "{name}: {failure}"),
    };
}

fn run_pieces(buf: &mut [u8]) {
    tell(
        "buf_extract (a request stands in for `resync`)",
        cases::buf_extract(buf),
    );
    tell(
        "one_byte_fragments_preserve_the_first_major_sync",
        cases::one_byte_fragments_preserve_the_first_major_sync(buf),
    );
    tell(
        "one_byte_fragments_preserve_a_major_sync_during_resync",
        cases::one_byte_fragments_preserve_a_major_sync_during_resync(buf),
    );
    tell(
        "a_split_first_access_unit_keeps_its_timestamp",
        cases::a_split_first_access_unit_keeps_its_timestamp(buf),
    );
    tell(
        "a_rejected_candidate_does_not_stamp_the_next_frame",
        cases::a_rejected_candidate_does_not_stamp_the_next_frame(buf),
    );
}

fn run_losses(buf: &mut [u8]) {
    tell(
        "invalid_major_sync_lengths_are_reported_and_allow_recovery",
        cases::invalid_major_sync_lengths_are_reported_and_allow_recovery(buf),
    );
    tell(
        "invalid_locked_frame_length_cannot_emit_an_empty_frame",
        cases::invalid_locked_frame_length_cannot_emit_an_empty_frame(buf),
    );
    tell(
        "initial_crc_failure_does_not_hide_already_buffered_frames",
        cases::initial_crc_failure_does_not_hide_already_buffered_frames(buf),
    );
    tell(
        "frames_carry_their_stream_position",
        cases::frames_carry_their_stream_position(buf),
    );
    tell("skip_invalid_data", cases::skip_invalid_data(buf));
}

fn main() {
    // The first test pushes 120,000 bytes at once.
    let mut buf = seen::zeros::<131072>();
    run_pieces(&mut buf);
    run_losses(&mut buf);
}
