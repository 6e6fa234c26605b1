// What is kept from call to call.
use crate::call::Call;
use crate::output::Output;
use crate::reader::Reader;
use std::fmt;
use timing::HiresOutputTimingState;
use window_rules::Window;

#[derive(Drop)]
pub(crate) struct Records {
    reader: Reader,
    timing: HiresOutputTimingState,
    window: Window,
}

impl Records {
    // A script begins with an opened reader, a fresh timing record and a fresh window.
    pub(crate) fn new() -> Records {
        Records {
            reader: Reader::new(),
            timing: HiresOutputTimingState::fresh(),
            window: window::fresh(),
        }
    }

    // Writes the answer of a call, with the record after it.
    pub(crate) fn run(&mut self, call: Call, out: &mut Output) -> fmt::Result {
        match call {
            Call::Reader(call) => self.reader.run(call, out),
            Call::Timing(call) => call.run(&mut self.timing, out),
            Call::Window(call) => call.run(&mut self.window, out),
            Call::Plain(call) => call.run(out),
        }
    }
}
