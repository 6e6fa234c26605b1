// Cases of start timing, run bit by bit; each line is a unit, its answer and the record after it. Document 01, "Start timing (002)" and "Cases by
// hand". A field of a script is 1, the bits of its timing with a 1 after every four zeros in a row, and 1 00000.
#![tactic(auto)]

mod run;
mod show;

use run::Desk;
use show::{Aligned, Bit, Shown};
use standard_output::Output;
use std::fmt::{self, Write};
use timing::{Field, HiresOutputTimingState, HiresTimingFault, TimingContext};

// A title ends in its newline, so that it is written in one part; `writeln!` would write the newline by itself.
fn p8(out: &mut impl Write) -> fmt::Result {
    out.write_str(
        "P8: bits 00000 1111 00000 from unit 0, 40 samples, output timing 1000 at unit 5\n",
    )?;
    Desk::fresh(0, 40, 800).each(out, "00000 1111 00000")?;
    Ok(())
}

fn form_faults(out: &mut impl Write) -> fmt::Result {
    let cases = [
        (
            "\n000000: before any field there is no unit to name but 0\n",
            "00000",
        ),
        (
            "00000 1 00000: five 0 right after a field's first 1\n",
            "00000 1 0000",
        ),
        (
            "00000 1 1 00000 0: a 0 after a field without bits\n",
            "00000 1 1 00000",
        ),
        (
            "00000 1 1 1 00000 0: a 0 after a field with bits\n",
            "00000 1 1 1 00000",
        ),
    ];
    for (title, script) in cases {
        out.write_str(title)?;
        Desk::fresh(0, 40, 800).last(out, script)?;
    }
    Ok(())
}

fn sequence_fault(out: &mut impl Write) -> fmt::Result {
    out.write_str(
        "\n00000 1 1 00000 1 1 00000: 280 samples after output timing 65535 timing should have risen by 1\n",
    )?;
    let desk = Desk::fresh(0, 40, 65335).lasts(out, &["00000 1 1 0000", "1 1 0000"])?;
    out.write_str("the field after is a start again, and the one after that continues it\n")?;
    desk.lasts(out, &["1 1 0000", "1 1 0000"])?;
    Ok(())
}

fn at_most_3(out: &mut impl Write) -> fmt::Result {
    out.write_str("\nFour fields, each continuing the one before: the counter stops at 3\n")?;
    Desk::fresh(0, 40, 800).lasts(out, &["00000 1 1 0000", "1 1 0000", "1 1 0000", "1 1 0000"])?;
    Ok(())
}

fn cleared_in_state_0(out: &mut impl Write) -> fmt::Result {
    out.write_str(
        "\nThe counter is cleared by a step taken in state 0, not by the fault that leads there; a 1 among the zeros leads there too\n",
    )?;
    Desk::fresh(0, 40, 800)
        .lasts(out, &["00000 1 1 0000", "1 1 0000"])?
        .each(out, "0 1 0001 0")?;
    Ok(())
}

fn samples_at_the_end(out: &mut impl Write) -> fmt::Result {
    out.write_str(
        "\nP8 with 48 samples from the unit that ends the field on: the start is reckoned with 48\n",
    )?;
    let desk = Desk::fresh(0, 40, 800).silent("00000 1111 0000");
    let about = TimingContext {
        unit: 13,
        samples: 48,
        output: 1320,
    };
    Desk { about, ..desk }.each(out, "0")?;
    Ok(())
}

fn start_below_zero(out: &mut impl Write) -> fmt::Result {
    out.write_str(
        "\nThe start wraps below 0: output timing 100 at unit 5, 200 samples before it\n",
    )?;
    Desk::fresh(0, 40, 65436).last(out, "00000 1 1 0000")?;
    Ok(())
}

fn bit_count(out: &mut impl Write) -> fmt::Result {
    out.write_str(
        "\nOnes after a field's first 1: after 65536 the bit count is 65535, and after 65537 still\n",
    )?;
    let desk = Desk::fresh(0, 40, 800)
        .silent("00000 1")
        .ones(out, 65536)?
        .ones(out, 1)?;
    out.write_str("The field's end keeps the bit count\n")?;
    desk.last(out, "0000")?;
    Ok(())
}

// A title, and three scripts, each from a fresh record.
fn from_fresh(out: &mut impl Write, title: &str, scripts: [&str; 3]) -> fmt::Result {
    out.write_str(title)?;
    for script in scripts {
        Desk::fresh(0, 40, 800).last(out, script)?;
    }
    Ok(())
}

fn around_powers_of_2(out: &mut impl Write) -> fmt::Result {
    from_fresh(
        out,
        "\nTimings 65535, 65536, 65537\n",
        [
            "00000 1 1111111111111111 1 0000",
            "00000 1 10000 1 0000 1 0000 1 0000 1 1 0000",
            "00000 1 10000 1 0000 1 0000 1 0001 1 0000",
        ],
    )?;
    from_fresh(
        out,
        "\nTimings 2^32 - 1, 2^32, 2^32 + 1: the start takes them modulo 2^32\n",
        [
            "00000 1 11111111111111111111111111111111 1 0000",
            "00000 1 10000 1 0000 1 0000 1 0000 1 0000 1 0000 1 0000 1 0000 1 1 0000",
            "00000 1 10000 1 0000 1 0000 1 0000 1 0000 1 0000 1 0000 1 0001 1 0000",
        ],
    )?;
    from_fresh(
        out,
        "\nTimings 2^64 - 1, 2^64, 2^64 + 1: 64 bits are kept, 64 or 65 counted\n",
        [
            "00000 1 1111111111111111111111111111111111111111111111111111111111111111 1 0000",
            "00000 1 10000 1 0000 1 0000 1 0000 1 0000 1 0000 1 0000 1 0000 1 0000 1 0000 1 0000 1 0000 1 0000 1 0000 1 0000 1 0000 1 1 0000",
            "00000 1 10000 1 0000 1 0000 1 0000 1 0000 1 0000 1 0000 1 0000 1 0000 1 0000 1 0000 1 0000 1 0000 1 0000 1 0000 1 0001 1 0000",
        ],
    )
}

fn timing_wraps(out: &mut impl Write) -> fmt::Result {
    out.write_str(
        "\nTiming 2^32 - 1, then 0, one more over the wrap, as is due; then 1, where 0 is due\n",
    )?;
    let desk = Desk::fresh(0, 1700, 0).last(
        out,
        "00000 1 11111111111111111111111111111111 1 0000",
    )?;
    desk.lasts(out, &["1 1 0000", "1 1 1 0000"])?;
    out.write_str("and 1 right after 2^32 - 1, two more where one is due\n")?;
    desk.last(out, "1 1 1 0000")?;
    Ok(())
}

fn elapsed_wraps(out: &mut impl Write) -> fmt::Result {
    out.write_str(
        "\n7 units of 613566756 samples are 2^32 - 4. After output timing 4 that is 0: timing 0 agrees\n",
    )?;
    Desk::fresh(0, 613566756, 37456).lasts(out, &["00000 1 1 0000", "1 1 0000"])?;
    out.write_str(
        "After output timing 3 it is 2^32 - 1, and 65535 is due: timing 0 is a Sequence fault\n",
    )?;
    let desk = Desk::fresh(0, 613566756, 37455);
    desk.lasts(out, &["00000 1 1 0000", "1 1 0000"])?;
    out.write_str("and timing 65535 agrees\n")?;
    desk.lasts(out, &["00000 1 1 0000", "1 1111111111111111 1 0000"])?;
    Ok(())
}

fn unit_wraps(out: &mut impl Write) -> fmt::Result {
    out.write_str(
        "\nUnit numbers over 2^32 and over 2^64 are kept whole and differ by 7 either way\n",
    )?;
    Desk::fresh(4294967288, 40, 800).lasts(out, &["00000 1 1 0000", "1 1 0000"])?;
    Desk::fresh(18446744073709551608, 40, 800).lasts(out, &["00000 1 1 0000", "1 1 0000"])?;
    out.write_str(
        "Samples and output timing above 2^32 count modulo 2^32: 2^32 + 40 samples, output timing 2^40 + 1000\n",
    )?;
    let desk = Desk::fresh(0, 4294967336, 0).silent("00000");
    let about = TimingContext {
        unit: 5,
        samples: 4294967336,
        output: 1099511628776,
    };
    Desk { about, ..desk }.last(out, "1 1 1 1 0000")?;
    Ok(())
}

// A record in any state, in the midst of a sequence of fields.
fn at_state(state: u8, counter: u8, bits: u32) -> HiresOutputTimingState {
    HiresOutputTimingState {
        state,
        counter,
        bits,
        field: Field {
            timing: 7,
            unit: 5,
            output: 1000,
        },
        previous: Field {
            timing: 6,
            unit: 3,
            output: 900,
        },
        fault: Some(HiresTimingFault::Sequence {
            timing: 7,
            unit: 5,
            prev_timing: 6,
            prev_unit: 3,
        }),
    }
}

// A bit, by the state it is taken in.
fn stepped(out: &mut impl Write, r: HiresOutputTimingState, bit: bool) -> fmt::Result {
    let about = TimingContext {
        unit: 9,
        samples: 40,
        output: 1160,
    };
    writeln!(
        out,
        "  from {}{}{}",
        Aligned(r.state.into(), 5),
        Bit(bit),
        Shown(r.update(about, bit))
    )
}

// A branch reset, by the state it is made in.
fn reset(out: &mut impl Write, r: HiresOutputTimingState) -> fmt::Result {
    writeln!(
        out,
        "  from {}  reset{}",
        Aligned(r.state.into(), 5),
        Shown(r.reset_for_branch())
    )
}

fn every_state(out: &mut impl Write) -> fmt::Result {
    out.write_str(
        "\nEvery state with either bit, after a Sequence fault, which is dropped; the 0 in state 15 finds one of its own\n",
    )?;
    for state in 0..16 {
        stepped(out, at_state(state, 3, 9), false)?;
        stepped(out, at_state(state, 3, 9), true)?;
    }
    Ok(())
}

fn reset_in_every_state(out: &mut impl Write) -> fmt::Result {
    out.write_str(
        "\nA branch reset in every state: state, counter and fault are set, the rest is kept\n",
    )?;
    for state in 0..16 {
        reset(out, at_state(state, 3, 9))?;
    }
    Ok(())
}

fn refused(out: &mut impl Write, r: HiresOutputTimingState) -> fmt::Result {
    stepped(out, r, false)?;
    stepped(out, r, true)?;
    reset(out, r)
}

fn unfit(out: &mut impl Write) -> fmt::Result {
    out.write_str("\nThe largest record that fits\n")?;
    refused(out, at_state(15, 3, 65535))?;
    out.write_str(
        "\nState above 15, counter above 3, bit count above 65535: refused as 1, unchanged\n",
    )?;
    refused(out, at_state(16, 3, 65535))?;
    refused(out, at_state(15, 4, 65535))?;
    refused(out, at_state(15, 3, 65536))?;
    refused(out, at_state(255, 255, 4294967295))
}

fn after_a_reset(out: &mut impl Write) -> fmt::Result {
    out.write_str(
        "\nAfter a reset in the midst of a field the next field is a start, though it doesn't continue the last one\n",
    )?;
    let desk = Desk::fresh(0, 40, 800).lasts(out, &["00000 1 1 0000", "1 1 "])?;
    reset(out, desk.timing)?;
    let timing = desk.timing.reset_for_branch().next;
    Desk { timing, ..desk }.last(out, "00000 1 1 1 1 0000")?;
    Ok(())
}

fn numbers(out: &mut impl Write) -> fmt::Result {
    around_powers_of_2(out)?;
    timing_wraps(out)?;
    elapsed_wraps(out)?;
    unit_wraps(out)
}

fn records(out: &mut impl Write) -> fmt::Result {
    every_state(out)?;
    reset_in_every_state(out)?;
    after_a_reset(out)?;
    unfit(out)
}

fn cases(out: &mut impl Write) -> fmt::Result {
    p8(out)?;
    form_faults(out)?;
    sequence_fault(out)?;
    at_most_3(out)?;
    cleared_in_state_0(out)?;
    samples_at_the_end(out)?;
    start_below_zero(out)?;
    bit_count(out)?;
    numbers(out)?;
    records(out)
}

// Where standard output can't be written there is nobody to tell, and the program ends well.
fn main() {
    let _ = cases(&mut Output);
}
