// The ten tests of process/extract.rs, by their names, with their assertions in their order. Where a test calls the private `resync`, a
// request stands in: without a lock it searches the same bytes by the same rules, and it answers the push as `resync` does.
ghost use Rattle.std.specs.Prelude.{◌≤◌, length};

use crate::asserts::{Check, Failure};
use crate::seen::{Data, Reader, Seen, joined};
use arrayvec::CapacityError;
use example_data::{EXAMPLE_DATA, EXAMPLE_DATA_FBB_UNEXTRACTABLE};
use extract::{Answer, Refusal};
use std::array;

// A unit of so many bytes?
fn is_unit_of(answer: Answer, length: u16) -> bool {
    matches!(answer, Answer::Unit { unit, .. } if unit.length == length)
}

// The unit at an offset, with these bytes?
fn is_unit_at(answer: Answer, reader: &Reader<'_>, offset: u64, bytes: &[u8]) -> bool {
    matches!(
        answer,
        Answer::Unit { unit, start } if unit.position.0 == offset && reader.bytes_of(unit, start) == bytes
    )
}

// A piece, and a request where the test calls `resync`.
fn push_and_resync(reader: &mut Reader<'_>, piece: &[u8]) -> Result<(), Refusal> {
    reader.push(piece)?;
    reader.next()?;
    Ok(())
}

// The pattern of the first test: 123, and from byte to byte 37 more.
fn pattern() -> [u8; 120000] {
    array::from_fn(|i| ((i % 256) as u8).wrapping_mul(37).wrapping_add(123))
}

pub(crate) fn buf_extract(buf: &mut [u8]) -> Result<(), Failure> {
    let mut check = Check::default();
    let mut reader = Reader::open(buf)?;
    push_and_resync(&mut reader, &pattern())?;
    check.holds(!reader.stream().locked)?;
    push_and_resync(&mut reader, &EXAMPLE_DATA[..42])?;
    check.holds(!reader.stream().locked)?;
    reader.push(&EXAMPLE_DATA[42..])?;
    check.holds(is_unit_of(reader.next()?, 84))?;
    check.holds(is_unit_of(reader.next()?, 20))
}

pub(crate) fn one_byte_fragments_preserve_the_first_major_sync(
    buf: &mut [u8],
) -> Result<(), Failure> {
    let mut check = Check::default();
    let mut reader = Reader::open(buf)?;
    let seen = reader.in_pieces(&EXAMPLE_DATA, 1)?;
    check.holds(seen.spoken == 0)?;
    let units = seen.units.as_slice();
    check.holds(units.len() == 2)?;
    check.holds(units[0].offset == 16)?;
    check.holds(units[0].length == 84)?;
    check.holds(units[1].offset == 100)?;
    check.holds(units[1].length == 20)?;
    check.holds(reader.stream().consumed.0 == 120)
}

pub(crate) fn one_byte_fragments_preserve_a_major_sync_during_resync(
    buf: &mut [u8],
) -> Result<(), Failure> {
    let data = joined(&[&EXAMPLE_DATA, &[0; 6], &EXAMPLE_DATA[16..]])?;
    let mut check = Check::default();
    let mut reader = Reader::open(buf)?;
    let seen = reader.in_pieces(&data, 1)?;
    check.holds(seen.spoken == 0)?;
    let units = seen.units.as_slice();
    check.holds(units.len() == 4)?;
    check.holds(units[2].offset == 126)?;
    check.holds(units[2].length == 84)?;
    check.holds(units[3].offset == 210)?;
    check.holds(units[3].length == 20)?;
    check.holds(reader.stream().losses.errors == 1)?;
    check.holds(reader.stream().consumed.0 == 230)
}

pub(crate) fn a_split_first_access_unit_keeps_its_timestamp(buf: &mut [u8]) -> Result<(), Failure> {
    let mut check = Check::default();
    let whole = Reader::open(buf)?.in_pieces(&EXAMPLE_DATA, 120)?;
    let expected = whole.units.as_slice().first().and_then(|unit| unit.stamp);
    check.holds(expected.is_some())?;
    for size in [1, 7, 23, 24, 64] {
        let seen = Reader::open(buf)?.in_pieces(&EXAMPLE_DATA, size)?;
        let units = seen.units.as_slice();
        check.holds(units.len() == 2)?;
        check.holds(units[0].stamp == expected)?;
    }
    Ok(())
}

// The example's first 100 bytes with a bit of one turned over, and its units once more.
fn with_a_damaged_byte(at: usize) -> Result<Data, CapacityError> {
    let mut data = joined(&[&EXAMPLE_DATA[..100], &EXAMPLE_DATA[16..]])?;
    if let Some(byte) = data.get_mut(at) {
        *byte ^= 1;
    }
    Ok(data)
}

pub(crate) fn a_rejected_candidate_does_not_stamp_the_next_frame(
    buf: &mut [u8],
) -> Result<(), Failure> {
    let data = with_a_damaged_byte(24)?;
    let mut check = Check::default();
    let mut reader = Reader::open(buf)?;
    reader.push(buffer::part(&data, 0, 100))?;
    check.holds(matches!(reader.next()?, Answer::ParityCheckFailed))?;
    check.holds(reader.stream().losses.errors == 1)?;
    reader.push(buffer::part(&data, 100, 104))?;
    let mut seen = Seen::nothing();
    reader.all(&mut seen, &data)?;
    let units = seen.units.as_slice();
    check.holds(units.len() == 2)?;
    check.holds(units[0].offset == 100)?;
    check.holds(units[0].stamp.is_none())
}

// The bytes of a stream's first unit; none where the reader answers something else.
fn first_unit(buf: &mut [u8], stream: &[u8]) -> Result<Data, Failure> {
    let mut reader = Reader::open(buf)?;
    reader.push(stream)?;
    match reader.next()? {
        Answer::Unit { unit, start } => Ok(Data::try_from(reader.bytes_of(unit, start))?),
        _ => Ok(Data::new()),
    }
}

// A unit's head under a length of twice k, then the whole unit: too short a length is spoken, and the unit is found without more bytes.
fn recovers_from_a_length(
    check: &mut Check,
    buf: &mut [u8],
    head: &[u8],
    major: &[u8],
    k: u8,
) -> Result<(), Failure> {
    let mut reader = Reader::open(buf)?;
    reader.push(&joined(&[head, major])?)?;
    let short = reader.next()?;
    check.holds(matches!(
        short,
        Answer::InvalidAccessUnitLength { actual, minimum: 34 } if actual == 2 * u16::from(k)
    ))?;
    check.holds(reader.stream().losses.errors == 1)?;
    let recovered = reader.next()?;
    check.holds(is_unit_at(recovered, &reader, 31, major))?;
    check.holds(reader.stream().losses.errors == 1)
}

// The lengths 0, 2 to 32 in a unit's first 31 bytes.
fn recovers_from_every_length(
    check: &mut Check,
    buf: &mut [u8],
    major: &[u8],
) -> Result<(), Failure>
    requires { 31 ≤ length major.now }
{
    let mut head = [0; 31];
    head.copy_from_slice(&major[..31]);
    head[0] &= 0xF0;
    for k in 0..17 {
        head[1] = k;
        recovers_from_a_length(check, buf, &head, major, k)?;
    }
    Ok(())
}

pub(crate) fn invalid_major_sync_lengths_are_reported_and_allow_recovery(
    buf: &mut [u8],
) -> Result<(), Failure> {
    let mut check = Check::default();
    let unit = first_unit(buf, &EXAMPLE_DATA)?;
    check.holds(unit.len() == 84)?;
    recovers_from_every_length(&mut check, buf, &unit)?;
    let unit = first_unit(buf, &EXAMPLE_DATA_FBB_UNEXTRACTABLE)?;
    check.holds(unit.len() == 150)?;
    recovers_from_every_length(&mut check, buf, &unit)
}

// The example's minor unit with length 0, its parity mended in the first nibble.
fn empty_minor() -> [u8; 20] {
    let mut minor = [0; 20];
    minor.copy_from_slice(&EXAMPLE_DATA[100..]);
    let whole = minor[0] ^ minor[1];
    minor[0] &= 0xF0;
    minor[1] = 0;
    let delta = whole ^ minor[0];
    minor[0] ^= ((delta >> 4) ^ delta) << 4;
    minor
}

pub(crate) fn invalid_locked_frame_length_cannot_emit_an_empty_frame(
    buf: &mut [u8],
) -> Result<(), Failure> {
    let major = &EXAMPLE_DATA[16..100];
    let mut check = Check::default();
    let mut reader = Reader::open(buf)?;
    reader.push(major)?;
    reader.push(&empty_minor())?;
    reader.push(major)?;
    check.holds(is_unit_of(reader.next()?, 84))?;
    let short = reader.next()?;
    check.holds(matches!(short, Answer::InvalidAccessUnitLength { actual: 0, .. }))?;
    let recovered = reader.next()?;
    check.holds(is_unit_at(recovered, &reader, 104, major))?;
    check.holds(reader.stream().losses.errors == 1)
}

pub(crate) fn initial_crc_failure_does_not_hide_already_buffered_frames(
    buf: &mut [u8],
) -> Result<(), Failure> {
    let data = with_a_damaged_byte(46)?;
    let mut check = Check::default();
    let mut reader = Reader::open(buf)?;
    reader.push(&data)?;
    check.holds(matches!(reader.next()?, Answer::ParityCheckFailed))?;
    check.holds(reader.stream().losses.errors == 1)?;
    let mut seen = Seen::nothing();
    reader.all(&mut seen, &data)?;
    let units = seen.units.as_slice();
    check.holds(units.len() == 2)?;
    check.holds(units[0].offset == 100)
}

pub(crate) fn frames_carry_their_stream_position(buf: &mut [u8]) -> Result<(), Failure> {
    let data = joined(&[&EXAMPLE_DATA, &EXAMPLE_DATA])?;
    let mut check = Check::default();
    let seen = Reader::open(buf)?.in_pieces(&data, 512)?;
    check.holds(seen.units.len() == 4)?;
    check.holds(seen.faithful)
}

pub(crate) fn skip_invalid_data(buf: &mut [u8]) -> Result<(), Failure> {
    let junk = [0xFF; 4];
    let data = joined(&[&EXAMPLE_DATA, &junk, &EXAMPLE_DATA, &junk])?;
    let mut check = Check::default();
    let seen = Reader::open(buf)?.in_pieces(&data, 512)?;
    check.holds(seen.units.len() == 4)?;
    check.holds(0 < seen.sevens)
}
