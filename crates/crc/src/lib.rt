// The major sync check: document 01, "The check"; utils/crc.rs in the Rust, its 16-bit part. The register goes over the message bit by
// bit, for every polynomial, every start and both closings; nothing is refused.
#![tactic(auto)]

ghost use Rattle.std.specs.Prelude.{◌≡◌, ◌<◌};
ghost use Rattle.crc.specs.Crc.{bit_step, update_of, closed_of, check_of, byte_bits, run, major_sync};

// The three settings given at opening: the polynomial, the start, and whether 16 zero bits follow the message.
#[derive(Clone, Copy, Debug, PartialEq, Eq)]
pub struct Algorithm {
    pub poly: u16,
    pub init: u16,
    pub zeros: bool,
}

// One bit: the register is doubled modulo 65,536 and the bit added; if its old top bit was one, the polynomial is XORed in.
#[tactic(auto, unfolding(crate::specs::Crc::bit_step))]
fn bit(poly: u16, crc: u16, b: u8) -> u16
    requires { b < 2 }
    ensures { result ≡ bit_step poly crc b }
{
    let doubled = crc.wrapping_mul(2) + u16::from(b);
    if crc >= 0x8000 {
        doubled ^ poly
    } else {
        doubled
    }
}

// The eight bits of a byte, highest first.
fn byte(poly: u16, crc: u16, x: u8) -> u16
    ensures { result ≡ run poly crc (byte_bits x) }
{
    (0..8u32)
        .rev()
        .fold(crc, |crc, k| bit(poly, crc, x >> k & 1))
}

impl Algorithm {
    // The setting of the major sync: 002D hex, start 0, no zero bits. The commit says so in utils/crc.rs,
    // `CRC_MAJOR_SYNC_INFO_ALG` (poly 0x2d, init 0x00), and in process/extract.rs, where `resync` holds `update` of the sync bytes
    // against the word behind them with nothing in between.
    pub fn major_sync_info() -> Algorithm
        ensures { result ≡ major_sync }
    {
        Algorithm {
            poly: 0x002D,
            init: 0,
            zeros: false,
        }
    }

    // The register after a part of the message: what a part leaves, the next one takes up.
    #[tactic(auto, using(crate::specs::Laws::bits_fold))]
    pub fn update(self, crc: u16, bytes: &[u8]) -> u16
        ensures { result ≡ update_of self crc bytes.now }
    {
        bytes.iter().fold(crc, |crc, x| byte(self.poly, crc, *x))
    }

    // The register after the message's last part: 16 zero bits more, where the setting asks for them.
    #[tactic(auto, unfolding(crate::specs::Crc::run, crate::specs::Crc::bits_of))]
    pub fn closed(self, crc: u16) -> u16
        ensures { result ≡ closed_of self crc }
    {
        if self.zeros {
            self.update(crc, &[0, 0])
        } else {
            crc
        }
    }

    // The check of a whole message.
    #[tactic(auto, using(crate::specs::Laws::check_closed))]
    pub fn check(self, bytes: &[u8]) -> u16
        ensures { result ≡ check_of self bytes.now }
    {
        self.closed(self.update(self.init, bytes))
    }
}
