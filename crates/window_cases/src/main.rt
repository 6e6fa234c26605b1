// Runs the depth window over scripts of steps and prints every report, depth, peak and count. Document 01, "Depth window (001)", P9,
// numbers 1, 12 and 13, and the caps.
#![tactic(auto)]

mod caps; // the caps, of every accumulator and info byte
mod text; // numbers in columns

use kinds::SampleTime;
use levels::{Contribution, Depth, Levels, Peak, SubstreamDepth};
use standard_output::Output;
use std::fmt;
use std::fmt::Write;
use text::{Column, Named, Row, answer};
use window_rules::{Report, Window};

// One unit, and when it is pushed.
#[derive(Clone, Copy)]
struct Arrival {
    playhead: u64,
    removal: u64,
    contribution: Contribution,
}

fn step(playhead: u64, removal: u64, contribution: Contribution) -> Arrival {
    Arrival {
        playhead,
        removal,
        contribution,
    }
}

// The same bytes for every accumulator and every substream.
fn even(total: u32, stream: u32, substream: u32) -> Contribution {
    Contribution {
        total: [total; 5],
        stream: [stream; 5],
        substream: [substream; 4],
    }
}

// How many units a window holds.
#[derive(Clone, Copy)]
struct Held(Levels);

impl fmt::Display for Held {
    fn fmt<W: Write>(&self, f: &mut fmt::Formatter<W>) -> fmt::Result {
        write!(f, " held {}", self.0.buffered().unwrap_or(0))
    }
}

// One step and its report, on a line.
fn push(out: &mut impl Write, window: Window, arrival: Arrival) -> Result<Window, fmt::Error> {
    let pushed = window::push(
        window,
        SampleTime(arrival.playhead),
        SampleTime(arrival.removal),
        arrival.contribution,
    );
    let report = pushed.answer.unwrap_or(Report {
        depths: [0; 5],
        underrun: None,
    });
    writeln!(
        out,
        "  step playhead {} removal {}{} underrun {} depths{}{}",
        Column(arrival.playhead),
        Column(arrival.removal),
        answer(pushed.answer),
        Named(report.underrun),
        Row(&report.depths),
        Held(pushed.window.levels)
    )?;
    Ok(pushed.window)
}

fn steps(
    out: &mut impl Write,
    mut window: Window,
    arrivals: &[Arrival],
) -> Result<Window, fmt::Error> {
    for arrival in arrivals {
        window = push(out, window, *arrival)?;
    }
    Ok(window)
}

// Steps from a window on, and everything that the window then holds.
fn script(out: &mut impl Write, title: &str, window: Window, arrivals: &[Arrival]) -> fmt::Result {
    out.write_str(title)?;
    let last = steps(out, window, arrivals)?;
    show(out, last.levels)
}

fn depths(out: &mut impl Write, levels: Levels) -> fmt::Result {
    for (k, depth) in levels.depth.iter().enumerate() {
        writeln!(
            out,
            "  accumulator {k} holds {} stream {}",
            Column(depth.total),
            Column(depth.stream)
        )?;
    }
    for (i, depth) in levels.substream.iter().enumerate() {
        writeln!(out, "  substream   {i} holds {}", Column(depth.bytes))?;
    }
    Ok(())
}

fn peaks(out: &mut impl Write, levels: Levels) -> fmt::Result {
    let totals = levels.peaks().unwrap_or([0; 5]);
    writeln!(out, "  peaks          {}", Row(&totals))?;
    let nothing = Peak {
        total: 0,
        stream: 0,
        overhead: 0,
    };
    let records = levels.peak_records().unwrap_or([nothing; 5]);
    for (k, peak) in records.iter().enumerate() {
        writeln!(
            out,
            "  peak        {k} total {} stream {} overhead {}",
            Column(peak.total),
            Column(peak.stream),
            Column(peak.overhead)
        )?;
    }
    let substreams = levels.substream_peaks().unwrap_or([0; 4]);
    writeln!(out, "  substream peaks{}", Row(&substreams))
}

// Everything that a window holds.
fn show(out: &mut impl Write, levels: Levels) -> fmt::Result {
    depths(out, levels)?;
    peaks(out, levels)?;
    writeln!(out)
}

fn equal_playhead(out: &mut impl Write) -> fmt::Result {
    script(
        out,
        "P9: a playhead equal to the removal time drains nothing; one past it drains\n",
        window::fresh(),
        &[
            step(0, 5, even(10, 8, 2)),
            step(5, 9, even(20, 15, 3)),
            step(6, 9, even(40, 30, 4)),
        ],
    )
}

fn kept_slots(out: &mut impl Write) -> fmt::Result {
    script(
        out,
        "drained slots keep their numbers: the third step meets the first unit again\n",
        window::fresh(),
        &[
            step(0, 5, even(10, 8, 2)),
            step(6, 5, even(0, 0, 0)),
            step(7, 100, even(0, 0, 0)),
        ],
    )
}

fn full_ring(out: &mut impl Write) -> fmt::Result {
    script(
        out,
        "a fresh window, one step: 128 slots are drained, and no more\n",
        window::fresh(),
        &[step(1, 0, even(0, 0, 0))],
    )
}

fn highest(out: &mut impl Write) -> fmt::Result {
    let two = Contribution {
        total: [10, 0, 10, 0, 0],
        stream: [4, 0, 4, 0, 0],
        substream: [4, 0, 0, 3],
    };
    script(
        out,
        "two accumulators are short: the higher is named, the unit is drained whole, and the drain stops\n",
        window::fresh(),
        &[
            step(0, 5, two),
            step(6, 5, even(0, 0, 0)),
            step(7, 100, even(1, 1, 1)),
        ],
    )
}

fn overhead(out: &mut impl Write) -> fmt::Result {
    script(
        out,
        "a stream part above the total: the overhead of the peak is 0\n",
        window::fresh(),
        &[step(0, 5, even(3, 8, 2))],
    )
}

fn floors(out: &mut impl Write) -> fmt::Result {
    script(
        out,
        "stream and substream parts stop at 0: the third step drains the first unit a second time\n",
        window::fresh(),
        &[
            step(0, 5, even(0, 8, 2)),
            step(6, 5, even(0, 0, 0)),
            step(7, 100, even(9, 1, 1)),
        ],
    )
}

// So many units, all held until 1000.
fn filled(n: u64) -> Window {
    let mut window = window::fresh();
    for _ in 0..n {
        window = window::push(window, SampleTime(0), SampleTime(1000), even(1, 1, 1)).window;
    }
    window
}

fn overwritten(out: &mut impl Write) -> fmt::Result {
    out.write_str("127 units are held; the 129th overwrites the first and counts as one held\n")?;
    let many = filled(127);
    writeln!(out, " {}", Held(many.levels))?;
    let last = steps(
        out,
        many,
        &[
            step(0, 1000, even(2, 1, 1)),
            step(0, 1000, even(3, 1, 1)),
            step(0, 1000, even(4, 1, 1)),
            step(1001, 2000, even(5, 1, 1)),
        ],
    )?;
    show(out, last.levels)
}

fn contributions(out: &mut impl Write) -> fmt::Result {
    script(
        out,
        "a contribution of 16,384 is taken; one of 16,385, of any kind, is number 12\n",
        window::fresh(),
        &[
            step(0, 5, even(16384, 16384, 16384)),
            step(6, 9, even(16385, 0, 0)),
            step(6, 9, even(0, 16385, 0)),
            step(6, 9, even(0, 0, 16385)),
        ],
    )
}

// A window whose depths are given, and whose read slot a playhead of 1 passes.
fn deep(total: u64, stream: u64, bytes: u64) -> Window {
    let peak = Peak {
        total: 0,
        stream: 0,
        overhead: 0,
    };
    let levels = Levels {
        read: 0,
        write: 0,
        depth: [Depth {
            total,
            stream,
            peak,
        }; 5],
        substream: [SubstreamDepth { bytes, peak: 0 }; 4],
    };
    Window {
        levels,
        ..window::fresh()
    }
}

fn deepest(out: &mut impl Write) -> fmt::Result {
    script(
        out,
        "a depth at 4,294,967,295: 0 bytes more are taken, 1 more is number 13, stream and substream depths too\n",
        deep(4294967295, 4294967295, 4294967295),
        &[
            step(0, 5, even(0, 0, 0)),
            step(0, 5, even(1, 0, 0)),
            step(0, 5, even(0, 1, 0)),
            step(0, 5, even(0, 0, 1)),
        ],
    )
}

fn before_the_drain(out: &mut impl Write) -> fmt::Result {
    script(
        out,
        "number 13 compares the depths before the drain, which would have made room\n",
        deep(4294967200, 0, 0),
        &[
            step(0, 5, even(95, 0, 0)),
            step(6, 9, even(1, 0, 0)),
            step(6, 9, even(0, 0, 0)),
            step(6, 9, even(1, 0, 0)),
        ],
    )
}

// A fresh window with other slot numbers.
fn at_slots(read: usize, write: usize) -> Window {
    let fresh = window::fresh();
    Window {
        levels: Levels {
            read,
            write,
            ..fresh.levels
        },
        ..fresh
    }
}

// The answer of every call that takes a window, and whether a refused one came back with its slot numbers.
fn every_call(out: &mut impl Write, title: &str, window: Window) -> fmt::Result {
    let pushed = window::push(window, SampleTime(0), SampleTime(0), even(16385, 0, 0));
    let levels = window.levels;
    let numbers = [
        answer(pushed.answer),
        answer(window::restart(window).answer),
        answer(levels.buffered()),
        answer(levels.peaks()),
        answer(levels.peak_records()),
        answer(levels.substream_peaks()),
    ];
    out.write_str(title)?;
    for number in numbers {
        write!(out, "{number}")?;
    }
    let after = pushed.window.levels;
    writeln!(
        out,
        " slots {}{}",
        Column(after.read as u64),
        Column(after.write as u64)
    )
}

fn misfits(out: &mut impl Write) -> fmt::Result {
    out.write_str(
        "records that don't fit: push, restart, buffered, peaks, peak_records and substream_peaks answer number 1 first\n",
    )?;
    every_call(out, "  read 127, write 127 ", at_slots(127, 127))?;
    every_call(out, "  read 128            ", at_slots(128, 0))?;
    every_call(out, "  write 128           ", at_slots(0, 128))?;
    misfit_depths(out)
}

fn misfit_depths(out: &mut impl Write) -> fmt::Result {
    every_call(
        out,
        "  depths 4,294,967,295",
        deep(4294967295, 4294967295, 4294967295),
    )?;
    every_call(out, "  total  4,294,967,296", deep(4294967296, 0, 0))?;
    every_call(out, "  stream 4,294,967,296", deep(0, 4294967296, 0))?;
    every_call(out, "  substr 4,294,967,296", deep(0, 0, 4294967296))?;
    writeln!(out)
}

fn order(out: &mut impl Write) -> fmt::Result {
    out.write_str("the numbers in their order: 1, 12, 13\n")?;
    push(out, at_slots(128, 0), step(0, 5, even(16385, 0, 0)))?;
    steps(
        out,
        deep(4294967295, 0, 0),
        &[step(0, 5, even(16385, 0, 0)), step(0, 5, even(16384, 0, 0))],
    )?;
    writeln!(out)
}

fn restarted(out: &mut impl Write) -> fmt::Result {
    out.write_str(
        "restart makes the window new, peaks excepted: no old record is left for the last step to meet\n",
    )?;
    let single = Contribution {
        total: [1, 0, 0, 0, 0],
        ..even(0, 0, 0)
    };
    let before = steps(
        out,
        window::fresh(),
        &[step(0, 0, even(0, 0, 0)), step(0, 0, single)],
    )?;
    let restarted = window::restart(before);
    writeln!(out, "  restart{}", answer(restarted.answer))?;
    let last = push(out, restarted.window, step(1, 0, even(0, 0, 0)))?;
    show(out, last.levels)
}

fn run(out: &mut impl Write) -> fmt::Result {
    equal_playhead(out)?;
    kept_slots(out)?;
    full_ring(out)?;
    highest(out)?;
    overhead(out)?;
    floors(out)?;
    overwritten(out)?;
    contributions(out)?;
    deepest(out)?;
    before_the_drain(out)?;
    misfits(out)?;
    order(out)?;
    restarted(out)?;
    caps::print(out)
}

// Where standard output can't be written, the rest is left out and the program ends well.
fn main() {
    run(&mut Output).ok();
}
