// The calls of the depth window: `window step|restart|new|forge`.
use crate::forge::WindowField;
use crate::output::Output;
use crate::show::{OrDash, WindowRecord};
use crate::words::Words;
use kinds::SampleTime;
use levels::Contribution;
use std::fmt::Write;
use std::{array, fmt};
use window_rules::{Report, Window};

#[derive(Clone, Copy)]
pub(crate) enum WindowCall {
    Step(Step),
    Restart,
    New,
    Forge(WindowField),
}

impl WindowCall {
    pub(crate) fn parse(mut words: Words) -> Option<WindowCall> {
        match words.next()? {
            b"step" => Some(WindowCall::Step(Step::parse(words)?)),
            b"restart" => Some(WindowCall::Restart),
            b"new" => Some(WindowCall::New),
            b"forge" => Some(WindowCall::Forge(WindowField::parse(words)?)),
            _ => None,
        }
    }

    // Writes the answer, with the record after it.
    pub(crate) fn run(self, record: &mut Window, out: &mut Output) -> fmt::Result {
        match self {
            WindowCall::Step(step) => step.run(record, out),
            WindowCall::Restart => restart(record, out),
            WindowCall::New => {
                *record = window::fresh();
                writeln!(out, "window 0 {}", WindowRecord(record.levels))
            }
            WindowCall::Forge(field) => {
                field.set(&mut record.levels);
                writeln!(out, "window forged {}", WindowRecord(record.levels))
            }
        }
    }
}

fn restart(record: &mut Window, out: &mut Output) -> fmt::Result {
    let restarted = window::restart(*record);
    *record = restarted.window;
    let number = restarted.answer.err().map_or(0, u32::from);
    writeln!(out, "window {number} {}", WindowRecord(record.levels))
}

// A unit that is admitted.
#[derive(Clone, Copy)]
pub(crate) struct Step {
    playhead: SampleTime,
    removal: SampleTime,
    contribution: Contribution,
}

impl Step {
    // PLAYHEAD REMOVAL, five totals, five stream parts and four substreams
    fn parse(words: Words) -> Option<Step> {
        let numbers = words.numbers()?.into_inner().ok()?;
        let low = |k: usize| (numbers[k] & 0xffff_ffff) as u32;
        Some(Step {
            playhead: SampleTime(numbers[0]),
            removal: SampleTime(numbers[1]),
            contribution: Contribution {
                total: array::from_fn(|k| low(2 + k)),
                stream: array::from_fn(|k| low(7 + k)),
                substream: array::from_fn(|k| low(12 + k)),
            },
        })
    }

    // A step that is refused reports no underrun, and depths of 0.
    fn run(self, record: &mut Window, out: &mut Output) -> fmt::Result {
        let pushed = window::push(*record, self.playhead, self.removal, self.contribution);
        *record = pushed.window;
        let number = pushed.answer.err().map_or(0, u32::from);
        let Report { depths, underrun } = pushed.answer.unwrap_or(Report {
            depths: [0; 5],
            underrun: None,
        });
        let [a, b, c, d, e] = depths;
        writeln!(
            out,
            "window {number} underrun {} report {a} {b} {c} {d} {e} {}",
            OrDash(underrun),
            WindowRecord(record.levels)
        )
    }
}
