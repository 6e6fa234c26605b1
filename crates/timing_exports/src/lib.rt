// Start timing for C and for Rust: include/mirvashen_timing.h, bindings/rust/src/timing.rs. timing_exports_c exports these functions under the same
// names. The record is lent as fourteen words and not passed by value, since a step changes little of it: a caller keeps it where it stands.
//
// Every bit pattern is taken. The words are the record's numbers as they are, however wide: a state word above 15, a counter word above 3 or a
// bit count word above 65,535 is number 1, and then no word is written. A fault code above 4 says that there is no fault.
#![tactic(auto)]

ghost use Rattle.std.specs.Prelude.{◌≡◌};
ghost use Rattle.timing.specs.Timing.{fresh_of, updated_of, reset_of};
ghost use Rattle.timing.specs.Numbers.{number_of};
ghost use Rattle.laws.specs.Flags.{yes_of};
ghost use Rattle.timing_exports.specs.Flat.{record_of, read_of, fault_words, words_of};
ghost use Rattle.timing_exports.specs.Calls.{context_of, answer_flat, left_by};

use timing::{
    Field, HiresOutputTimingState, HiresTimingFault, RecordDoesNotFit, TimingContext, Updated,
};

// What a step answers: number 1 or 0, and the stream's start if `present` says that there is one; else zeros.
//
// Stays: C has no Result and no Option, so a refusal is a number and the start a value beside a flag (include/mirvashen_timing.h).
#[repr(C)]
#[derive(Clone, Copy, Debug, PartialEq, Eq)]
pub struct MvTimingAnswer {
    pub number: u32,
    pub start: u32,
    pub present: u8,
}

impl From<Result<Option<u32>, RecordDoesNotFit>> for MvTimingAnswer {
    ghost from_gives = { λ answer flat. flat ≡ answer_flat answer };

    fn from(answer: Result<Option<u32>, RecordDoesNotFit>) -> Self {
        match answer {
            Ok(None) => MvTimingAnswer {
                number: 0,
                start: 0,
                present: 0,
            },
            Ok(Some(start)) => MvTimingAnswer {
                number: 0,
                start,
                present: 1,
            },
            Err(refusal) => MvTimingAnswer {
                number: u32::from(refusal),
                start: 0,
                present: 0,
            },
        }
    }
}

// The record that the words say, but for its fault, which each call drops first: the fault's words are not read. Number 1 is asked of the words,
// before they are narrowed to the record's numbers.
#[tactic(auto, unfolding(crate::specs::Flat::read_of, crate::specs::Flat::record_of, timing::specs::Timing::fits_of, timing::specs::Timing::counts_fit_of))]
fn record_of(words: [u64; 14]) -> Result<HiresOutputTimingState, RecordDoesNotFit>
    ensures { result ≡ read_of words }
{
    let [
        state,
        counter,
        bits,
        timing,
        unit,
        output,
        prev_timing,
        prev_unit,
        prev_output,
        ..
    ] = words;
    if state > 15 || counter > 3 || bits > 65535 {
        return Err(RecordDoesNotFit);
    }
    Ok(HiresOutputTimingState {
        state: state as u8,
        counter: counter as u8,
        bits: bits as u32,
        field: Field {
            timing,
            unit,
            output,
        },
        previous: Field {
            timing: prev_timing,
            unit: prev_unit,
            output: prev_output,
        },
        fault: None,
    })
}

// A fault's code and the four numbers that it may name: zeros in place of what it doesn't name.
fn fault_words(fault: Option<HiresTimingFault>) -> [u64; 5]
    ensures { result ≡ fault_words fault }
{
    match fault {
        None => [0; 5],
        Some(HiresTimingFault::ExtraZeroAfterEnd(unit)) => [1, 0, unit, 0, 0],
        Some(HiresTimingFault::ExtraZeroInField(unit)) => [2, 0, unit, 0, 0],
        Some(HiresTimingFault::InvalidZeroInField(unit)) => [3, 0, unit, 0, 0],
        Some(
            HiresTimingFault::Sequence {
                timing,
                unit,
                prev_timing,
                prev_unit,
            },
        ) => [4, timing, unit, prev_timing, prev_unit],
    }
}

#[tactic(auto, unfolding(crate::specs::Flat::words_of))]
fn words_of(r: HiresOutputTimingState) -> [u64; 14]
    ensures { result ≡ words_of r }
{
    let [code, timing, unit, prev_timing, prev_unit] = fault_words(r.fault);
    [
        u64::from(r.state),
        u64::from(r.counter),
        u64::from(r.bits),
        r.field.timing,
        r.field.unit,
        r.field.output,
        r.previous.timing,
        r.previous.unit,
        r.previous.output,
        code,
        timing,
        unit,
        prev_timing,
        prev_unit,
    ]
}

// A fresh record; what the words held is not looked at.
pub fn mv_timing_fresh(timing: &mut [u64; 14])
    ensures { timing.new ≡ words_of fresh_of }
{
    *timing = words_of(HiresOutputTimingState::fresh());
}

// Feeds one unit's bit, any byte but zero for one; number 1 where the record doesn't fit.
#[tactic(auto, using(crate::proofs::Ways::steps))]
pub fn mv_timing_update(
    timing: &mut [u64; 14],
    unit: u64,
    samples: u64,
    output: u64,
    bit: u8,
) -> MvTimingAnswer
    ensures answer { result ≡ answer_flat (updated_of (record_of timing.old) (context_of unit samples output) (yes_of bit)).answer }
    ensures holds { timing.new ≡ left_by timing.old (updated_of (record_of timing.old) (context_of unit samples output) (yes_of bit)) }
{
    let Ok(record) = record_of(*timing) else {
        return MvTimingAnswer::from(Err(RecordDoesNotFit));
    };
    let ctx = TimingContext {
        unit,
        samples,
        output,
    };
    let Updated { next, answer } = record.update(ctx, bit != 0);
    // Most steps end no field and find no fault. Then nothing is answered, and the previous field stands in the words as it should: left out of the
    // words that are written, a step takes 13.0 ns in place of 15.3.
    if record.state < 15 && next.fault.is_none() {
        *timing = words_of(HiresOutputTimingState {
            previous: record.previous,
            fault: None,
            ..next
        });
        return MvTimingAnswer::from(Ok(None));
    }
    *timing = words_of(next);
    MvTimingAnswer::from(answer)
}

// At a branch the bits begin anew; number 1 where the record doesn't fit, else 0.
#[tactic(auto, using(crate::proofs::Ways::resets))]
pub fn mv_timing_reset_for_branch(timing: &mut [u64; 14]) -> u32
    ensures answer { result ≡ number_of (reset_of (record_of timing.old)).answer }
    ensures holds { timing.new ≡ left_by timing.old (reset_of (record_of timing.old)) }
{
    let Ok(record) = record_of(*timing) else {
        return u32::from(RecordDoesNotFit);
    };
    let Updated { next, answer } = record.reset_for_branch();
    *timing = words_of(next); // state, counter and fault are cleared
    MvTimingAnswer::from(answer).number
}
