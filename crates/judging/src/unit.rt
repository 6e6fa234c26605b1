// Document 01, "A request": the directory, the parity, the unit, each on the unread bytes; and whether a unit, handed out, is major.
ghost use Rattle.std.specs.Prelude.{◌≡◌, ◌+◌, ◌≤◌, ◌<◌, length};
ghost use Rattle.machine.specs.Ask.{ask, decide};
ghost use Rattle.rules.specs.Request.{directory, even as evenOf, closing as closingOf, body as body_of, unit as unit_of};
ghost use Rattle.rules.specs.Units.{is_major};
ghost use Rattle.judging.specs.Means.{judged_of, walk_of, end_of};

use crate::search::{Judged, sync_length, unit_length};
use rules::{Loss, Verdict};

// How far a directory was walked, and the parity up to there.
#[derive(Clone, Copy)]
struct Walk {
    place: usize,
    parity: u8,
}

// One entry, 2 bytes or 4 if its first bit is one; unless a byte is missing for it.
#[tactic(auto, using(crate::proofs::UnitWays::entry_cut, crate::proofs::UnitWays::entry_of_two, crate::proofs::UnitWays::long_entry_cut, crate::proofs::UnitWays::entry_of_four))]
fn entry(u: &[u8], walk: Walk) -> Option<Walk>
    ensures { walk_of result ≡ ask (directory 1 walk.place walk.parity) u.now }
{
    let Walk { place, parity } = walk;
    let a = *u.get(place)?;
    let b = *u.get(place + 1)?;
    if a < 128 {
        return Some(Walk {
            place: place + 2,
            parity: parity ^ a ^ b,
        });
    }
    let c = *u.get(place + 2)?;
    let d = *u.get(place + 3)?;
    Some(Walk {
        place: place + 4,
        parity: parity ^ a ^ b ^ c ^ d,
    })
}

// The entries of a directory.
#[tactic(auto, using(crate::proofs::UnitWays::no_entries_left, crate::proofs::UnitWays::entries_cut, crate::proofs::UnitWays::entries_later))]
fn entries(u: &[u8], count: u8, start: usize, first: u8) -> Option<Walk>
    requires { start ≤ 64 }
    ensures { walk_of result ≡ ask (directory count start first) u.now }
{
    let mut walk = Walk {
        place: start,
        parity: first,
    };
    for _ in 0..count {
        walk = entry(u, walk)?;
    }
    Some(walk)
}

// The two nibbles XORed must be 15.
fn even(parity: u8) -> bool
    ensures { result ≡ evenOf parity }
{
    (parity / 16 % 16) ^ (parity % 16) == 15
}

// At the directory's end: parity first, then the length against that end, then the whole unit.
#[tactic(auto, using(crate::proofs::UnitWays::closing_odd, crate::proofs::UnitWays::closing_short, crate::proofs::UnitWays::closing_waits, crate::proofs::UnitWays::closing_whole))]
fn closing(u: &[u8], major: bool, end: Walk) -> Option<Judged>
    requires { (2 ≤ length u.now) × (end.place ≤ 1084) }
    ensures { judged_of result ≡ decide (closingOf major (end_of end.place end.parity)) u.now }
{
    if !even(end.parity) {
        return Some(Judged {
            eaten: 1,
            verdict: Verdict::Lost(Loss::Parity),
        });
    }
    let actual = unit_length(u);
    let n = usize::from(actual);
    if n < end.place {
        return Some(Judged {
            eaten: 1,
            verdict: Verdict::Short {
                actual,
                minimum: end.place as u16,
            },
        });
    }
    if u.len() < n {
        return None;
    }
    Some(Judged {
        eaten: n,
        verdict: Verdict::Whole { major },
    })
}

// The first four bytes, then the directory behind what is skipped; skipped bytes needn't have arrived.
#[tactic(auto, using(crate::proofs::UnitWays::body_cut, crate::proofs::UnitWays::place_bounded, crate::proofs::UnitWays::body_closes))]
fn body(u: &[u8], count: u8, major: bool, skip: usize) -> Option<Judged>
    requires { (4 ≤ length u.now) × (skip ≤ 60) }
    ensures { judged_of result ≡ decide (body_of count major skip) u.now }
{
    let first = u[0] ^ u[1] ^ u[2] ^ u[3];
    closing(u, major, entries(u, count, 4 + skip, first)?)
}

// The unit at the front of the unread bytes, under a lock of so many substreams; judged unless a byte is missing for it.
#[tactic(auto, using(crate::proofs::UnitWays::unit_unseen, crate::proofs::UnitWays::unit_minor_4, crate::proofs::UnitWays::unit_minor_5, crate::proofs::UnitWays::unit_uncounted, crate::proofs::UnitWays::unit_mismatched, crate::proofs::UnitWays::unit_unsaid, crate::proofs::UnitWays::skip_bounded, crate::proofs::UnitWays::unit_major))]
pub fn unit(count: u8, u: &[u8]) -> Option<Judged>
    ensures { judged_of result ≡ decide (unit_of count) u.now }
{
    if u.len() < 6 {
        return None;
    }
    if u[4] != 0xF8 || u[5] != 0x72 {
        return body(u, count, false, 0);
    }
    if *u.get(20)? / 16 != count {
        return Some(Judged {
            eaten: 1,
            verdict: Verdict::Lost(Loss::Mismatch),
        });
    }
    body(u, count, true, sync_length(u)? + 2)
}

// Does a unit begin with a major sync? By bytes 4 and 5; a unit too short to have them does not.
#[tactic(auto, using(crate::proofs::UnitWays::minor_short, crate::proofs::UnitWays::minor_by_4, crate::proofs::UnitWays::minor_by_5, crate::proofs::UnitWays::major_by_both))]
pub fn is_major_sync(unit: &[u8]) -> bool
    ensures { result ≡ is_major unit.now }
{
    unit.len() >= 6 && unit[4] == 0xF8 && unit[5] == 0x72
}
