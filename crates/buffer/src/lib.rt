// The lent buffer, which document 01 adds to the Rust ("Numbers the desk will see", number 4 and the sentences below the table): where a piece
// goes, and the part that holds a unit. It knows nothing of a reader: the unread bytes are any stretch, and any stretch is taken.
#![tactic(auto)]

ghost use Rattle.std.specs.Prelude.{◌≡◌, length};
ghost use Rattle.buffer.specs.Calls.{placed_of, held_of, part_of};

// Copies bytes over as many others. Stays a loop: `copy_from_slice` calls `memmove`, and the archive for C calls nothing (include/mirvashen.h).
fn copy_over(to: &mut [u8], from: &[u8])
    requires { length to.old ≡ length from.now }
    ensures { to.new ≡ from.now }
{
    for (i, b) in from.iter().enumerate() {
        to[i] = *b;
    }
}

// Puts the piece behind the unread bytes, those from start to end, which are moved to the buffer's start where it doesn't fit behind them. No
// room: they don't stand in the buffer, or they and the piece exceed it; the buffer is then as it was.
#[tactic(auto, using(crate::proofs::Ways::behind), unfolding(crate::specs::Calls::placed_of, crate::specs::Calls::held_of, crate::specs::Calls::room_for, crate::specs::Calls::start_of))]
pub fn place(buf: &mut [u8], start: usize, end: usize, piece: &[u8]) -> Option<usize>
    ensures answer { result ≡ placed_of start end (length buf.old) (length piece.now) }
    ensures holds { buf.new ≡ held_of start end buf.old piece.now }
{
    let unread = end.checked_sub(start)?;
    if buf.len() < end || buf.len() - unread < piece.len() {
        return None;
    }
    if piece.len() <= buf.len() - end {
        copy_over(&mut buf[end..end + piece.len()], piece);
        return Some(start);
    }
    buf.copy_within(start..end, 0);
    copy_over(&mut buf[unread..unread + piece.len()], piece);
    Some(0)
}

// The part of the lent buffer that holds a unit: a stretch not wholly inside it gives the empty part.
#[tactic(auto, unfolding(crate::specs::Calls::part_of))]
pub fn part(buf: &[u8], start: usize, n: usize) -> &[u8]
    ensures { result.now ≡ part_of buf.now start n }
{
    buf.get(start..)
        .and_then(|rest| rest.get(..n))
        .unwrap_or(&[])
}
