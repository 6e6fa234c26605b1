// A line of the script, as a call.
use crate::depth::WindowCall;
use crate::plain::PlainCall;
use crate::reader::ReaderCall;
use crate::start::TimingCall;
use crate::words::Words;

#[derive(Clone, Copy)]
pub(crate) enum Call<'a> {
    Reader(ReaderCall<'a>),
    Timing(TimingCall),
    Window(WindowCall),
    Plain(PlainCall<'a>),
}

impl<'a> Call<'a> {
    // The call that a line writes, if it is one. The bytes that it takes are put into a lent slice.
    pub(crate) fn parse(line: &[u8], room: &'a mut [u8]) -> Option<Call<'a>> {
        let mut words = Words(line);
        match words.next()? {
            // These three take the lent slice. They return, since its loan would part them from the others where all meet again.
            b"push" => return Some(Call::Reader(ReaderCall::Push(words.bytes(room)?))),
            b"timestamp" => return Some(Call::Plain(PlainCall::Timestamp(words.bytes(room)?))),
            b"check" => {
                let settings = words.settings()?;
                let bytes = words.bytes(room)?;
                return Some(Call::Plain(PlainCall::Check { settings, bytes }));
            }
            b"next" => Some(Call::Reader(ReaderCall::Next)),
            b"open" => Some(Call::Reader(ReaderCall::open(words)?)),
            b"show" => Some(Call::Reader(ReaderCall::Show)),
            b"part" => Some(Call::Reader(ReaderCall::part(words)?)),
            b"forge" => Some(Call::Reader(ReaderCall::forge(words)?)),
            b"timing" => Some(Call::Timing(TimingCall::parse(words)?)),
            b"window" => Some(Call::Window(WindowCall::parse(words)?)),
            b"cap" => Some(Call::Plain(PlainCall::cap(words)?)),
            _ => None,
        }
    }
}
