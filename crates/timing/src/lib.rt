// Start timing: one bit a unit, from which a decoder learns where in time the stream begins. Document 01, "Start timing (002)"; the Rust's
// utils/timing.rs.
//
// A unit's output timing has 16 bits and wraps. The field carries what stands above them, spelled a bit a unit, so that a whole field and the
// output timing of the unit it began in give a position of 32 bits. A record goes in by value and comes back with the answer. Unit number,
// samples and output timing are kept and compared as they come, 64 bits wide; they are reduced modulo 2^32 where a field ends, by `low`.
#![tactic(auto)]

ghost use Rattle.std.specs.Prelude.{◌≡◌, ◌+◌, ◌*◌, ◌%◌, ◌^◌, ◌<◌, ◌≤◌, Some, codes};
ghost use Rattle.timing.specs.Timing.{fresh_of, updated_of, reset_of};
ghost use Rattle.timing.specs.Timing.{state0_of, states1to4_of, state5_of, states6to10_of, states11to15_of, field_end_of};
ghost use Rattle.timing.specs.Timing.{moved_to, faulted_by, read_on, ended_at, broken_at, quietly, refused, counts_fit_of, count_of, raised_of, after_one_of, with_one_of};
ghost use Rattle.timing.specs.Timing.{start_of, elapsed_of, continues_of};
ghost use Rattle.timing.specs.Numbers.{refusal_number, text_of};

use std::error::Error;
use std::fmt;

// What the parser knows of a unit: its number, the samples in each unit and its output timing.
#[derive(Clone, Copy, Debug, PartialEq, Eq)]
pub struct TimingContext {
    pub unit: u64,
    pub samples: u64,
    pub output: u64,
}

// A field: the timing it spells, the unit it began in and that unit's output timing.
#[derive(Clone, Copy, Debug, Default, PartialEq, Eq)]
pub struct Field {
    pub timing: u64,
    pub unit: u64,
    pub output: u64,
}

// What the last step found wrong. A fault names the unit that the field began in, not the one where it surfaced.
#[derive(Clone, Copy, Debug, PartialEq, Eq)]
pub enum HiresTimingFault {
    ExtraZeroAfterEnd(u64),
    ExtraZeroInField(u64),
    InvalidZeroInField(u64),
    Sequence {
        timing: u64,
        unit: u64,
        prev_timing: u64,
        prev_unit: u64,
    },
}

impl fmt::Display for HiresTimingFault {
    ghost output = { λ fault. Some (text_of fault) };

    fn fmt<W: fmt::Write>(&self, f: &mut fmt::Formatter<W>) -> fmt::Result {
        match *self {
            HiresTimingFault::ExtraZeroAfterEnd(unit) => {
                write!(f, "extra 0 after the data field end, unit {unit}")
            }
            HiresTimingFault::ExtraZeroInField(unit) => {
                write!(f, "extra 0 in the datafield, unit {unit}")
            }
            HiresTimingFault::InvalidZeroInField(unit) => {
                write!(f, "invalid 0 in the datafield, unit {unit}")
            }
            HiresTimingFault::Sequence {
                timing,
                unit,
                prev_timing,
                prev_unit,
            } => write!(
                f,
                "Sequence: timing {timing}, unit {unit}, previous timing {prev_timing}, unit {prev_unit}"
            ),
        }
    }
}

// The record. `state` is the Rust's state_index, `bits` its serialisation_counter, `field` and `previous` its timing and prev_timing with their
// units.
//
// Stays: `state` is a number and no enum, and no number is narrower: number 1 is said of states, counters and bit counts that don't fit, which
// `updated_of` and `reset_of` are asked of.
#[derive(Clone, Copy, Debug, Default, PartialEq, Eq)]
pub struct HiresOutputTimingState {
    pub state: u8,
    pub counter: u8,
    pub bits: u32,
    pub field: Field,
    pub previous: Field,
    pub fault: Option<HiresTimingFault>,
}

// Number 1: the record doesn't fit.
#[derive(Clone, Copy, Debug, PartialEq, Eq)]
pub struct RecordDoesNotFit;

impl fmt::Display for RecordDoesNotFit {
    ghost output = { λ _. Some (codes "the record does not fit") };

    fn fmt<W: fmt::Write>(&self, f: &mut fmt::Formatter<W>) -> fmt::Result {
        f.write_str("the record does not fit")
    }
}

impl Error for RecordDoesNotFit {}

// The number of the refusal.
impl From<RecordDoesNotFit> for u32 {
    ghost from_gives = { λ refusal number. number ≡ refusal_number refusal };

    fn from(_refusal: RecordDoesNotFit) -> u32 {
        1 // the only one that start timing has
    }
}

// What a step answers, with the record after it: the stream's start where there is one. A record that is refused is unchanged.
#[derive(Clone, Copy, Debug, PartialEq, Eq)]
pub struct Updated {
    pub next: HiresOutputTimingState,
    pub answer: Result<Option<u32>, RecordDoesNotFit>,
}

// A number modulo 2^32.
fn low(n: u64) -> u32
    ensures { result ≡ n % 2 ^ 32 }
{
    (n % 0x1_0000_0000) as u32
}

// The product modulo 2^32.
fn wrapping_mul_u32(a: u32, b: u32) -> u32
    ensures { result ≡ (a * b) % 2 ^ 32 }
{
    a.wrapping_mul(b)
}

// Where in time the stream begins, told by its first field.
#[tactic(auto, using(crate::proofs::Words::start_is))]
fn stream_start(field: Field, samples: u64) -> u32
    ensures { result ≡ start_of field samples }
{
    let here = wrapping_mul_u32(low(field.timing), 65536).wrapping_add(low(field.output));
    let since = wrapping_mul_u32(low(field.unit), low(samples));
    here.wrapping_sub(since)
}

// The previous field's output timing, carried on to this field's unit and not wrapped at 16 bits: what stands above them is what the timing
// should have risen by.
#[tactic(auto, using(crate::proofs::Words::elapsed_is))]
fn elapsed(unit: u64, previous: Field, samples: u64) -> u32
    ensures { result ≡ elapsed_of unit previous samples }
{
    let units = low(unit).wrapping_sub(low(previous.unit));
    wrapping_mul_u32(units, low(samples)).wrapping_add(low(previous.output))
}

// Does the field continue the one before it?
#[tactic(auto, using(crate::proofs::Words::continues_is))]
fn continues(field: Field, previous: Field, samples: u64) -> bool
    ensures { result ≡ continues_of field previous samples }
{
    let risen = low(field.timing).wrapping_sub(low(previous.timing));
    risen == elapsed(field.unit, previous, samples) / 65536
}

// The bit count with n more. It stops, so that it can be kept small for ever.
fn count(bits: u32, n: u32) -> u32
    ensures { result ≡ count_of bits n }
{
    bits.saturating_add(n).min(65535)
}

// The state after a one inside a field. Five zeros end a field, so after four a one is put in that is no bit of the timing, and a new run
// begins with nothing; any other one is the first bit of the next run.
fn after_one(state: u8, last: u8) -> u8
    ensures { result ≡ after_one_of state last }
{
    if state == last { 6 } else { 11 }
}

// The timing with n more bits, a one and n − 1 zeros. The sum can't wrap: the shift leaves n zeros for it.
#[tactic(auto, using(crate::proofs::Words::with_one_fits, crate::proofs::Words::with_one_is))]
fn with_one(timing: u64, n: u32) -> u64
    requires { (1 ≤ n) × (n ≤ 5) }
    ensures { result ≡ with_one_of timing n }
{
    (timing << n) + (1 << (n - 1))
}

// The counter after a field's end: all it tells is none yet, first, later.
fn raised(counter: u8) -> u8
    ensures { result ≡ raised_of counter }
{
    if counter < 3 { counter + 1 } else { counter }
}

impl HiresOutputTimingState {
    // No zero yet, no field and no bit.
    #[tactic(auto, unfolding(crate::specs::Timing::fresh_of))]
    pub fn fresh() -> Self
        ensures { result ≡ fresh_of }
    {
        HiresOutputTimingState::default()
    }

    // Do the two counts fit? What is left of number 1 is the state, which each caller tests where it looks at it.
    #[tactic(auto, unfolding(crate::specs::Timing::counts_fit_of))]
    fn counts_fit(self) -> bool
        ensures { result ≡ counts_fit_of self.counter self.bits }
    {
        self.counter <= 3 && self.bits <= 65535
    }

    // In another state, the last fault dropped.
    fn to(self, state: u8) -> Self
        ensures { result ≡ moved_to state self }
    {
        HiresOutputTimingState {
            state,
            fault: None, // the last step's
            ..self
        }
    }

    // A fault in the field's form: back to state 0. The counter is cleared by the next step, not here.
    fn malformed(self, fault: HiresTimingFault) -> Self
        ensures { result ≡ faulted_by fault self }
    {
        HiresOutputTimingState {
            state: 0,
            fault: Some(fault),
            ..self
        }
    }

    // n bits of the field are read, which make its timing this.
    fn read(self, state: u8, timing: u64, n: u32) -> Self
        ensures { result ≡ read_on state timing n self }
    {
        HiresOutputTimingState {
            state,
            bits: count(self.bits, n),
            field: Field {
                timing,
                ..self.field
            },
            fault: None,
            ..self
        }
    }

    // Waits for the first of five zeros.
    #[tactic(auto, unfolding(crate::specs::Timing::state0_of))]
    fn state_0(self, bit: bool) -> Self
        ensures { result ≡ state0_of self bit }
    {
        HiresOutputTimingState {
            state: if bit { 0 } else { 1 },
            counter: 0, // a new lead-in: its field is a first one
            fault: None,
            ..self
        }
    }

    // Counts the zeros.
    #[tactic(auto, unfolding(crate::specs::Timing::states1to4_of))]
    fn states_1_to_4(self, bit: bool) -> Self
        requires { self.state ≤ 4 }
        ensures { result ≡ states1to4_of self bit }
    {
        self.to(if bit { 0 } else { self.state + 1 })
    }

    // Five zeros have passed, or a field has ended: a one starts the next field.
    #[tactic(auto, unfolding(crate::specs::Timing::state5_of))]
    fn state_5(self, ctx: TimingContext, bit: bool) -> Self
        ensures { result ≡ state5_of self ctx bit }
    {
        if bit {
            return HiresOutputTimingState {
                state: 6,
                bits: 0,
                field: Field {
                    timing: 0,
                    unit: ctx.unit,
                    output: ctx.output,
                },
                fault: None,
                ..self
            };
        }
        self.malformed(if self.bits == 0 {
            HiresTimingFault::ExtraZeroInField(self.field.unit)
        } else {
            HiresTimingFault::ExtraZeroAfterEnd(self.field.unit)
        })
    }

    // Inside a field, in a run of zeros: state − 6 of them are read once a one ends the run.
    #[tactic(auto, unfolding(crate::specs::Timing::states6to10_of))]
    fn states_6_to_10(self, bit: bool) -> Self
        requires { (6 ≤ self.state) × (self.state ≤ 10) }
        ensures { result ≡ states6to10_of self bit }
    {
        let state = self.state;
        if bit {
            let n = u32::from(state - 6);
            return self.read(after_one(state, 10), self.field.timing << n, n);
        }
        if state == 10 {
            self.malformed(HiresTimingFault::InvalidZeroInField(self.field.unit))
        } else {
            self.to(state + 1)
        }
    }

    // Inside a field, in a run of a one and zeros: state − 10 bits are read once a one ends the run. Five zeros end the field, and the one
    // before them was no bit.
    #[tactic(auto, unfolding(crate::specs::Timing::states11to15_of))]
    fn states_11_to_15(self, samples: u64, bit: bool) -> Updated
        requires { (11 ≤ self.state) × (self.state ≤ 15) }
        ensures { result ≡ states11to15_of self samples bit }
    {
        let state = self.state;
        if bit {
            let n = u32::from(state - 10);
            return quiet(self.read(after_one(state, 15), with_one(self.field.timing, n), n));
        }
        if state == 15 {
            self.field_end(samples)
        } else {
            quiet(self.to(state + 1))
        }
    }

    // The field is whole: it is the first and gives the start, or it continues the one before it, or it does not.
    #[tactic(auto, unfolding(crate::specs::Timing::field_end_of))]
    fn field_end(self, samples: u64) -> Updated
        ensures { result ≡ field_end_of self samples }
    {
        let counter = raised(self.counter);
        if counter == 1 {
            return Updated {
                next: self.ended(1),
                answer: Ok(Some(stream_start(self.field, samples))),
            };
        }
        if continues(self.field, self.previous, samples) {
            quiet(self.ended(counter))
        } else {
            quiet(self.out_of_sequence())
        }
    }

    // A field that is the first, or that continues the previous one, is the one that the next is held to.
    fn ended(self, counter: u8) -> Self
        ensures { result ≡ ended_at counter self }
    {
        HiresOutputTimingState {
            state: 5, // which tells by the bit count, that is kept, which 0 is surplus
            counter,
            previous: self.field,
            fault: None,
            ..self
        }
    }

    // A field that does not continue the previous one is not trusted as its successor either: the previous one is kept.
    fn out_of_sequence(self) -> Self
        ensures { result ≡ broken_at self }
    {
        HiresOutputTimingState {
            state: 5,
            counter: 0, // the next field is a first one
            fault: Some(HiresTimingFault::Sequence {
                timing: self.field.timing,
                unit: self.field.unit,
                prev_timing: self.previous.timing,
                prev_unit: self.previous.unit,
            }),
            ..self
        }
    }

    // Feeds one unit's bit, and answers the stream's start where a field ends that is the first since the counter was cleared.
    #[tactic(auto, unfolding(crate::specs::Timing::updated_of, crate::specs::Timing::step_of, crate::specs::Timing::fits_of))]
    pub fn update(self, ctx: TimingContext, bit: bool) -> Updated
        ensures { result ≡ updated_of self ctx bit }
    {
        if !self.counts_fit() {
            return refuse(self);
        }
        match self.state {
            0 => quiet(self.state_0(bit)),
            1..=4 => quiet(self.states_1_to_4(bit)),
            5 => quiet(self.state_5(ctx, bit)),
            6..=10 => quiet(self.states_6_to_10(bit)),
            11..=15 => self.states_11_to_15(ctx.samples, bit),
            _ => refuse(self),
        }
    }

    // At a branch the bits begin anew. The previous field stays, and no field is held to it before a new first one has replaced it.
    #[tactic(auto, unfolding(crate::specs::Timing::reset_of, crate::specs::Timing::fits_of))]
    pub fn reset_for_branch(self) -> Updated
        ensures { result ≡ reset_of self }
    {
        if self.state > 15 || !self.counts_fit() {
            return refuse(self);
        }
        quiet(HiresOutputTimingState {
            state: 0,
            counter: 0, // so that the next field is a first one
            fault: None,
            ..self
        })
    }
}

// A step that answers nothing.
fn quiet(next: HiresOutputTimingState) -> Updated
    ensures { result ≡ quietly next }
{
    Updated {
        next,
        answer: Ok(None),
    }
}

// Number 1.
fn refuse(next: HiresOutputTimingState) -> Updated
    ensures { result ≡ refused next }
{
    Updated {
        next,
        answer: Err(RecordDoesNotFit),
    }
}
