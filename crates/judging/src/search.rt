// Document 01, "Search": the sync scan, the lengths, the candidate. Each function works on the unread bytes.
ghost use Rattle.std.specs.Prelude.{◌≡◌, ◌+◌, ◌≤◌, ◌<◌, length};
ghost use Rattle.machine.specs.Ask.{ask, decide};
ghost use Rattle.rules.specs.Search.{candidate_at, find as findIn, kept as keptOf, stamp_at, sync_length, checks as checksOf, candidate as candidateOf};
ghost use Rattle.rules.specs.Units.{length_at};
ghost use Rattle.judging.specs.Means.{found_of, length_of, judged_of, SyncIs};

use crc::Algorithm;
use rules::Verdict;
use timestamp::Timestamp;

// A decision, and how many bytes it eats.
#[derive(Clone, Copy)]
pub struct Judged {
    pub eaten: usize,
    pub verdict: Verdict,
}

// Does a candidate stand here, a sync word 4 bytes on?
#[tactic(auto, unfolding(rules::specs::Search::candidate_at))]
fn candidate_at(u: &[u8], i: usize) -> bool
    requires { i + 7 < length u.now }
    ensures { result ≡ candidate_at u.now i }
{
    u[i + 4] == 0xF8
        && u[i + 5] == 0x72
        && u[i + 6] == 0x6F
        && (u[i + 7] == 0xBA || u[i + 7] == 0xBB)
}

// The first candidate's place; the scan stops at the first match and yields its place.
pub fn find(u: &[u8]) -> Option<usize>
    ensures { found_of result ≡ findIn u.now }
{
    let mut place = None;
    for i in 0..u.len().saturating_sub(7) {
        if candidate_at(u, i) {
            place = Some(i);
            break;
        }
    }
    place
}

// Consuming any byte drops a waiting timestamp.
pub fn kept(n: usize, waiting: Option<Timestamp>) -> Option<Timestamp>
    ensures { result ≡ keptOf n waiting }
{
    if n == 0 { waiting } else { None }
}

// The timestamp that waits at a candidate n bytes on: before any sync was seen the 16 bytes before it are read; where they don't parse none
// is held, and they are consumed all the same.
#[tactic(auto, using(crate::proofs::SearchWays::stamp_seen, crate::proofs::SearchWays::stamp_near, crate::proofs::SearchWays::stamp_cut, crate::proofs::SearchWays::stamp_none, crate::proofs::SearchWays::stamp_one))]
pub fn stamp_at(seen: bool, n: usize, u: &[u8], waiting: Option<Timestamp>) -> Option<Timestamp>
    ensures { result ≡ stamp_at seen n u.now waiting }
{
    if seen || n < 16 {
        return kept(n, waiting);
    }
    let before = u.get(n - 16..n)?; // fewer than 16 bytes are no timestamp
    let Ok(timestamp) = Timestamp::from_bytes(before) else {
        return None;
    };
    Some(timestamp)
}

// A sync's length; only the bytes that the rule reads are waited for.
#[tactic(auto, using(crate::proofs::SearchWays::length_unsaid_7, crate::proofs::SearchWays::length_fbb, crate::proofs::SearchWays::length_unsaid_29, crate::proofs::SearchWays::length_even, crate::proofs::SearchWays::length_unsaid_30, crate::proofs::SearchWays::length_long))]
pub(crate) fn sync_length(u: &[u8]) -> Option<usize>
    ensures { length_of result ≡ ask sync_length u.now }
{
    if *u.get(7)? == 0xBB || *u.get(29)? % 2 == 0 {
        return Some(26);
    }
    Some(28 + (usize::from(*u.get(30)?) / 8 & 0x1E))
}

// Twice the low 12 bits of the first word.
pub(crate) fn unit_length(u: &[u8]) -> u16
    requires { 2 ≤ length u.now }
    ensures { result ≡ length_at u.now }
{
    2 * (u16::from_be_bytes([u[0], u[1]]) % 4096)
}

// Do the sync bytes, m of them from byte 4 on, give the word behind them?
#[tactic(auto, using(crate::proofs::SearchWays::check_asked))]
fn checks(check: Algorithm, m: usize, bs: &[u8]) -> bool
    requires { (m ≤ 58) × (m + 6 ≤ length bs.now) }
    ensures { result ≡ checksOf check m bs.now }
{
    let end = 4 + m;
    check.check(&bs[4..end]) == u16::from_be_bytes([bs[end], bs[end + 1]])
}

// A candidate whose sync is m bytes long: the unit's length, the whole unit, the check, in this order.
#[tactic(auto, using(crate::proofs::SearchWays::candidate_short, crate::proofs::SearchWays::candidate_waits, crate::proofs::SearchWays::candidate_locks, crate::proofs::SearchWays::candidate_fails))]
fn judge(check: Algorithm, m: usize, u: &[u8]) -> Option<Judged>
    requires { SyncIs m u.now }
    ensures { judged_of result ≡ decide (candidateOf check) u.now }
{
    let actual = unit_length(u);
    let n = usize::from(actual);
    let minimum = m + 8;
    if n < minimum {
        return Some(Judged {
            eaten: 1,
            verdict: Verdict::Short {
                actual,
                minimum: minimum as u16,
            },
        });
    }
    if u.len() < n {
        return None;
    }
    if checks(check, m, u) {
        Some(Judged {
            eaten: 0,
            verdict: Verdict::Lock(u[20] / 16 % 16),
        })
    } else {
        Some(Judged {
            eaten: n,
            verdict: Verdict::Failed,
        })
    }
}

// A candidate at the front of the unread bytes, judged unless a byte is missing for it.
#[tactic(auto, using(crate::proofs::SearchWays::candidate_unsaid))]
pub fn candidate(check: Algorithm, u: &[u8]) -> Option<Judged>
    ensures { judged_of result ≡ decide (candidateOf check) u.now }
{
    judge(check, sync_length(u)?, u)
}
