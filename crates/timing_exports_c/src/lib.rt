// Start timing's exports: include/mirvashen_timing.h, bindings/rust/src/timing.rs. Each has the name, the clauses and the answer of timing_exports's
// function; they stand apart from it because a crate is either a library or a static library.
#![tactic(auto)]

ghost use Rattle.std.specs.Prelude.{◌≡◌};
ghost use Rattle.timing.specs.Timing.{fresh_of, updated_of, reset_of};
ghost use Rattle.timing.specs.Numbers.{number_of};
ghost use Rattle.laws.specs.Flags.{yes_of};
ghost use Rattle.timing_exports.specs.Flat.{record_of, words_of};
ghost use Rattle.timing_exports.specs.Calls.{context_of, answer_flat, left_by};

use timing_exports::MvTimingAnswer;

// A fresh record; what the words held is not looked at.
#[unsafe(no_mangle)]
pub extern "C" fn mv_timing_fresh(timing: &mut [u64; 14])
    ensures { timing.new ≡ words_of fresh_of }
{
    timing_exports::mv_timing_fresh(timing);
}

// Feeds one unit's bit, any byte but zero for one; number 1 where the record doesn't fit.
#[unsafe(no_mangle)]
pub extern "C" fn mv_timing_update(
    timing: &mut [u64; 14],
    unit: u64,
    samples: u64,
    output: u64,
    bit: u8,
) -> MvTimingAnswer
    ensures answer { result ≡ answer_flat (updated_of (record_of timing.old) (context_of unit samples output) (yes_of bit)).answer }
    ensures holds { timing.new ≡ left_by timing.old (updated_of (record_of timing.old) (context_of unit samples output) (yes_of bit)) }
{
    timing_exports::mv_timing_update(timing, unit, samples, output, bit)
}

// At a branch the bits begin anew; number 1 where the record doesn't fit, else 0.
#[unsafe(no_mangle)]
pub extern "C" fn mv_timing_reset_for_branch(timing: &mut [u64; 14]) -> u32
    ensures answer { result ≡ number_of (reset_of (record_of timing.old)).answer }
    ensures holds { timing.new ≡ left_by timing.old (reset_of (record_of timing.old)) }
{
    timing_exports::mv_timing_reset_for_branch(timing)
}
