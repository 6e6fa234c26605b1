// The lines of a report, as bytes: document 01, "Cases by hand". A line a unit, `AU index position length major|minor ts|-`; a line a spoken
// error, `BAD number position`; a last line, `END position errors`. Dry answers print nothing.
//
// Nothing is read or written here: the lines are put into a lent slice. So what is said of a stream is proved, each line whole and none left
// out, and the crate `reporting` only hands the bytes on.
#![tactic(auto)]

ghost use Rattle.std.specs.Prelude.{◌≡◌, [], ◌∷◌, leb};
ghost use Rattle.lines.specs.Lines.{page_of, pair_words, pair_line_words, kind_text, stamp_text, unit_words};
ghost use Rattle.lines.specs.Gather.{words_of, heard_of, gathered_on, page_by, gathered_of, end_of};

use extract::{Answer, Extractor, Refusal};
use rules::Unit;
use text::Page;
use timestamp::Timestamp;

// What an answer is to the lines.
#[derive(Clone, Copy)]
enum Heard {
    Line,
    Dry,
    Refused,
}

// Why the gathering of lines ended: the reader is dry, the room is full, or the record doesn't fit.
#[derive(Clone, Copy)]
pub enum Ended {
    Dry,
    Full,
    Refused,
}

// The reader after the requests, how many bytes of the lent slice are lines, and why there are no more.
#[derive(Clone, Copy)]
pub struct Gathered {
    pub reader: Extractor,
    pub used: usize,
    pub ended: Ended,
}

// `LABEL a b`
#[tactic(auto, unfolding(crate::specs::Lines::puts))]
fn put_pair(page: &mut Page<'_>, label: &[u8], a: u64, b: u64)
    ensures { page.new ≡ page_of page.old (pair_words label.now a b) }
{
    page.put(label);
    page.put_decimal(a);
    page.put(b" ");
    page.put_decimal(b);
}

// The same as a line of its own.
#[tactic(auto, unfolding(crate::specs::Lines::puts))]
fn put_pair_line(page: &mut Page<'_>, label: &[u8], a: u64, b: u64)
    ensures { page.new ≡ page_of page.old (pair_line_words label.now a b) }
{
    put_pair(page, label, a, b);
    page.put(b"\n");
}

#[tactic(auto, unfolding(crate::specs::Lines::puts))]
fn put_kind(page: &mut Page<'_>, major: bool)
    ensures { page.new ≡ page_of page.old (kind_text major ∷ []) }
{
    page.put(if major { b" major" } else { b" minor" });
}

#[tactic(auto, unfolding(crate::specs::Lines::puts))]
fn put_stamp(page: &mut Page<'_>, waiting: Option<Timestamp>)
    ensures { page.new ≡ page_of page.old (stamp_text waiting ∷ []) }
{
    match waiting {
        Some(_) => page.put(b" ts\n"),
        None => page.put(b" -\n"),
    }
}

// `AU index position length major|minor ts|-`
#[tactic(auto, unfolding(crate::specs::Lines::puts))]
fn put_unit(page: &mut Page<'_>, unit: Unit)
    ensures { page.new ≡ page_of page.old (unit_words unit) }
{
    put_pair(page, b"AU ", unit.index, unit.position.0);
    page.put(b" ");
    page.put_decimal(u64::from(unit.length));
    put_kind(page, unit.major);
    put_stamp(page, unit.waiting);
}

// Is there room for one more line? "AU ", three numbers of at most 20 digits, three spaces, "major", " ts" and the line's end are 75 bytes; 80 of
// the 65,536 are kept free for a line.
fn has_room(used: usize) -> bool
    ensures { result ≡ leb used 65456 }
{
    used <= 65456
}

// The line that an answer gives, the reader's position after it being so many bytes; dry answers give none.
#[tactic(auto, unfolding(crate::specs::Lines::puts))]
fn put_answer(page: &mut Page<'_>, answer: Result<Answer, Refusal>, position: u64)
    ensures { page.new ≡ page_of page.old (words_of answer position) }
{
    match answer {
        Ok(Answer::Unit { unit, .. }) => put_unit(page, unit),
        Ok(Answer::InvalidAccessUnitLength { .. }) => put_pair_line(page, b"BAD ", 5, position),
        Ok(Answer::ParityCheckFailed) => put_pair_line(page, b"BAD ", 6, position),
        Ok(Answer::InsufficientData) | Ok(Answer::Quiet) | Err(_) => {}
    }
}

// Whether an answer is a line, dry, or a refusal. No wildcard: a new answer must be sorted by hand.
fn heard_as(answer: Result<Answer, Refusal>) -> Heard
    ensures { result ≡ heard_of answer }
{
    match answer {
        Ok(Answer::Unit { .. }) => Heard::Line,
        Ok(Answer::InvalidAccessUnitLength { .. }) => Heard::Line,
        Ok(Answer::ParityCheckFailed) => Heard::Line,
        Ok(Answer::InsufficientData) => Heard::Dry,
        Ok(Answer::Quiet) => Heard::Dry,
        Err(_) => Heard::Refused,
    }
}

// Requests until dry, or until the room is full. Each turn but the last puts a line, so no more turns are needed than there are bytes.
#[tactic(auto, using(crate::proofs::GatherWays::gather_spent, crate::proofs::GatherWays::gather_full, crate::proofs::GatherWays::gather_dry, crate::proofs::GatherWays::gather_refused, crate::proofs::GatherWays::gather_on))]
fn put_requests(page: &mut Page<'_>, reader: Extractor, buf: &[u8]) -> Gathered
    ensures says { result ≡ (gathered_on reader buf.now page.old).gathered }
    ensures holds { page.new ≡ page_by (gathered_on reader buf.now page.old) page.old }
{
    let mut reader = reader;
    for _ in 0..65536u32 {
        if !has_room(page.end) {
            break;
        }
        let asked = reader.next(buf);
        reader = asked.extractor;
        match heard_as(asked.answer) {
            Heard::Line => put_answer(page, asked.answer, reader.stream.consumed.0),
            Heard::Dry => {
                return Gathered {
                    reader,
                    used: page.end,
                    ended: Ended::Dry,
                };
            }
            Heard::Refused => {
                return Gathered {
                    reader,
                    used: page.end,
                    ended: Ended::Refused,
                };
            }
        }
    }
    Gathered {
        reader,
        used: page.end,
        ended: Ended::Full,
    }
}

// The lines of a reader's requests, in a lent slice.
pub fn gather(reader: Extractor, buf: &[u8], out: &mut [u8; 65536]) -> Gathered
    ensures says { result ≡ (gathered_of reader buf.now out.old).gathered }
    ensures holds { out.new ≡ (gathered_of reader buf.now out.old).holds }
{
    let mut page = Page::new(out);
    put_requests(&mut page, reader, buf)
}

// `END position errors`
pub fn put_end(reader: Extractor, out: &mut [u8; 65536]) -> usize
    ensures at { result ≡ (end_of reader out.old).at }
    ensures holds { out.new ≡ (end_of reader out.old).holds }
{
    let s = reader.stream;
    let mut page = Page::new(out);
    put_pair_line(&mut page, b"END ", s.consumed.0, s.losses.errors);
    page.end
}
