// The depth window's rules: document 01, "Depth window (001)"; utils/fifo.rs in the Rust. What a step and a restart come to, and what they keep. Types,
// definitions and laws, no code: the crate `window` is proved equal to them.
//
// The window has two parts. The rings hold the units in flight, a slot each; the levels are the small rest: slot numbers, depths and peaks (crate
// `levels`).
#![tactic(auto)]

use levels::{Levels, Refusal};

// The units in flight, in rings of 128 slots: slot i of every ring belongs to the same unit. There is a ring of removal times, and one for each
// accumulator's bytes, each accumulator's stream part and each substream's bytes.
#[repr(C)]
#[derive(Clone, Copy, Debug, PartialEq, Eq)]
pub struct Rings {
    pub removal: [u64; 128],
    pub total: [[u32; 128]; 5],
    pub stream: [[u32; 128]; 5],
    pub substream: [[u32; 128]; 4],
}

#[repr(C)]
#[derive(Clone, Copy, Debug, PartialEq, Eq)]
pub struct Window {
    pub rings: Rings,
    pub levels: Levels,
}

// What a step did to the window: each accumulator's depth with the new unit included, and the accumulator that held fewer bytes than the last unit
// leaving it, if any: the highest.
#[derive(Clone, Copy, Debug, PartialEq, Eq)]
pub struct Report {
    pub depths: [u64; 5],
    pub underrun: Option<usize>,
}

// What a step gives back: the window, and the report, or why the step was refused.
#[derive(Clone, Copy, Debug, PartialEq, Eq)]
pub struct Pushed {
    pub window: Window,
    pub answer: Result<Report, Refusal>,
}

// What a restart gives back.
#[derive(Clone, Copy, Debug, PartialEq, Eq)]
pub struct Restarted {
    pub window: Window,
    pub answer: Result<(), Refusal>,
}

// The levels after a drain, and whether the last record drained left an accumulator short.
#[derive(Clone, Copy, Debug, PartialEq, Eq)]
pub struct Drained {
    pub levels: Levels,
    pub underrun: Option<usize>,
}
