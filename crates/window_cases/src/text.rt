// Numbers in columns.
//
// Stays: each fragment is a write to standard output by itself, and is tried also after one that failed, so the cuts of the text decide what
// gets through to a reader that is slow. `{:>11}` would make one fragment of a number and its blanks, `writeln!` two of a title and its line's end.
use levels::Refusal;
use std::fmt;

// A number in a column of eleven: the blanks, where any are left, and then the digits.
#[derive(Clone, Copy)]
pub(crate) struct Column(pub(crate) u64);

impl fmt::Display for Column {
    fn fmt<W: fmt::Write>(&self, f: &mut fmt::Formatter<W>) -> fmt::Result {
        let after_first = self.0.checked_ilog10().unwrap_or(0) as usize;
        let blanks = 10usize.saturating_sub(after_first);
        write!(f, "{:blanks$}{}", "", self.0)
    }
}

// Each number in a column of eleven.
#[derive(Clone, Copy)]
pub(crate) struct Row<'a>(pub(crate) &'a [u64]);

impl fmt::Display for Row<'_> {
    fn fmt<W: fmt::Write>(&self, f: &mut fmt::Formatter<W>) -> fmt::Result {
        for number in self.0 {
            write!(f, "{}", Column(*number))?;
        }
        Ok(())
    }
}

// The accumulator that is named, or a dash.
#[derive(Clone, Copy)]
pub(crate) struct Named(pub(crate) Option<usize>);

impl fmt::Display for Named {
    fn fmt<W: fmt::Write>(&self, f: &mut fmt::Formatter<W>) -> fmt::Result {
        match self.0 {
            Some(accumulator) => write!(f, "{accumulator}"),
            None => write!(f, "-"),
        }
    }
}

// An answer's number in document 01, 0 where the call is accepted.
#[derive(Clone, Copy)]
pub(crate) struct Number(u32);

impl fmt::Display for Number {
    fn fmt<W: fmt::Write>(&self, f: &mut fmt::Formatter<W>) -> fmt::Result {
        write!(f, " number{:>3}", self.0)
    }
}

pub(crate) fn answer<T: Copy>(answer: Result<T, Refusal>) -> Number {
    match answer {
        Ok(_) => Number(0),
        Err(refusal) => Number(u32::from(refusal)),
    }
}
