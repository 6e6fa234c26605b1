// The calls of start timing: `timing step|branch|new|forge`.
use crate::forge::TimingField;
use crate::output::Output;
use crate::show::{OrDash, TimingRecord};
use crate::words::Words;
use std::fmt;
use std::fmt::Write;
use timing::{HiresOutputTimingState, TimingContext, Updated};

#[derive(Clone, Copy)]
pub(crate) enum TimingCall {
    Step { context: TimingContext, bit: bool },
    Branch,
    New,
    Forge(TimingField),
}

impl TimingCall {
    pub(crate) fn parse(mut words: Words) -> Option<TimingCall> {
        match words.next()? {
            b"step" => TimingCall::step(words),
            b"branch" => Some(TimingCall::Branch),
            b"new" => Some(TimingCall::New),
            b"forge" => Some(TimingCall::Forge(TimingField::parse(words)?)),
            _ => None,
        }
    }

    // `timing step BIT UNIT SAMPLES OUTPUT`
    fn step(words: Words) -> Option<TimingCall> {
        let numbers = words.numbers()?;
        let [bit, unit, samples, output] = *numbers.as_slice() else {
            return None;
        };
        Some(TimingCall::Step {
            context: TimingContext {
                unit,
                samples,
                output,
            },
            bit: bit != 0,
        })
    }

    // Writes the answer, with the record after it.
    pub(crate) fn run(self, record: &mut HiresOutputTimingState, out: &mut Output) -> fmt::Result {
        let updated = match self {
            TimingCall::Step { context, bit } => record.update(context, bit),
            TimingCall::Branch => record.reset_for_branch(),
            TimingCall::New => Updated {
                next: HiresOutputTimingState::fresh(),
                answer: Ok(None),
            },
            TimingCall::Forge(field) => {
                field.set(record);
                return writeln!(out, "timing forged {}", TimingRecord(*record));
            }
        };
        *record = updated.next;
        let number = updated.answer.err().map_or(0, u32::from);
        let start = OrDash(updated.answer.ok().flatten());
        writeln!(
            out,
            "timing {number} start {start} {}",
            TimingRecord(*record)
        )
    }
}
