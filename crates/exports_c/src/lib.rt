// The archive of the reader for C and for Rust: `bindings/archives` writes it, include/mirvashen.h and bindings/rust use it. Document 01, "What must change
// shape". Each call is the call of the same name of `exports`, which says what it takes and answers, with its clauses.
#![tactic(auto)]

ghost use Rattle.std.specs.Prelude.{◌≡◌, length};
ghost use Rattle.extract.specs.Calls.{opened_of, pushed_of, buffer_of, asked_of};
ghost use Rattle.record_words.specs.Words.{setting_of, reader_of};
ghost use Rattle.exports.specs.Answers.{opened_number, opened_on, push_number, pushed_on, asked_number, asked_on, asked_unit};

// A new reader over a lent buffer, with any check setting; number 1 where the buffer's length doesn't fit.
#[unsafe(no_mangle)]
pub extern "C" fn mv_open(
    reader: &mut [u64; 24],
    buffer: &[u8],
    poly: u16,
    init: u16,
    zeros: u8,
) -> u32
    ensures number { result ≡ opened_number (opened_of (length buffer.now) (setting_of poly init zeros)) }
    ensures record { reader.new ≡ opened_on reader.old (opened_of (length buffer.now) (setting_of poly init zeros)) }
{
    exports::mv_open(reader, buffer, poly, init, zeros)
}

// A piece behind the unread bytes; numbers 0 to 4.
#[unsafe(no_mangle)]
pub extern "C" fn mv_push_bytes(reader: &mut [u64; 24], buffer: &mut [u8], piece: &[u8]) -> u32
    ensures number { result ≡ push_number (pushed_of (reader_of reader.old) (length buffer.old) (length piece.now)).answer }
    ensures record { reader.new ≡ pushed_on reader.old (pushed_of (reader_of reader.old) (length buffer.old) (length piece.now)) }
    ensures holds { buffer.new ≡ buffer_of (reader_of reader.old) buffer.old piece.now }
{
    exports::mv_push_bytes(reader, buffer, piece)
}

// One request: a unit as number 0, or numbers 1, 5, 6, 7, 8.
#[unsafe(no_mangle)]
pub extern "C" fn mv_next(reader: &mut [u64; 24], buffer: &[u8], unit: &mut [u64; 24]) -> u32
    ensures number { result ≡ asked_number (asked_of (reader_of reader.old) buffer.now).answer }
    ensures record { reader.new ≡ asked_on reader.old (asked_number (asked_of (reader_of reader.old) buffer.now).answer) (asked_of (reader_of reader.old) buffer.now).extractor }
    ensures unit { unit.new ≡ asked_unit unit.old (asked_of (reader_of reader.old) buffer.now).answer }
{
    exports::mv_next(reader, buffer, unit)
}
