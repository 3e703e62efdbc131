// Eight octets as one number, the first lowest, and the same bit of each of them as a byte.
#![tactic(auto)]

ghost use Rattle.std.specs.Prelude.{◌≡◌, Bool, List, map, ℕ, ◌+◌, ◌<◌, ◌≤◌, length, get_or};
ghost use Rattle.bits.specs.Bit.{to_n, number, count};
ghost use Rattle.bits.specs.Put.{put_in};
ghost use Rattle.put.specs.Put.{Shows};
ghost use Rattle.lanes.specs.Lanes.{lanes, ones, Eight, bit_of, FilledTo};

// A one in each of eight octets.
const ONES: u64 = 0x0101_0101_0101_0101;

// Ones nine bits apart: a product with it is four copies of what is multiplied, each nine bits above the last.
const COPIES: u64 = 0x0804_0201;

// What the fifth of eight octets weighs: the first four stand below it.
const HALF: u64 = 0x1_0000_0000;

// The c octets from one on as a number, the first lowest; behind them, where they are fewer than eight, stand zeros.
pub fn load(s: &[u8], at: usize, c: usize) -> u64
    requires { (at + c ≤ length s.now) × (c ≤ 8) }
    ensures { result ≡ lanes (map (λ i. get_or s.now i 0) (count c at)) }
{
    let mut octets = [0u8; 8];
    octets[..c].copy_from_slice(&s[at..at + c]);
    u64::from_le_bytes(octets)
}

// The c octets from one on made those of a number.
pub fn store(s: &mut [u8], at: usize, c: usize, w: u64)
    requires { (at + c ≤ length s.old) × (c ≤ 8) }
    ensures { (f : ℕ → ℕ) (d : List ℕ) → Eight f at w → FilledTo f at d s.old → FilledTo f (at + c) d s.new }
{
    s[at..at + c].copy_from_slice(&w.to_le_bytes()[..c]);
}

// Bit d of each of eight octets as a byte, the first octet's on top. The bits of the last four octets are folded in below those of the first four. Copies of
// these, nine bits apart, bring each octet's beside the next one's: in bits 31 to 24 they are the byte. (Eight copies without the fold would run over.)
pub fn gathered(w: u64, d: usize) -> u8
    requires { d < 8 }
    ensures { (f : ℕ → ℕ) (a : ℕ) → Eight f a w → result ≡ number (map (λ i. bit_of (f i) d) (count 8 a)) }
{
    let bits = (w & (ONES << d)) >> d;
    let folded = bits % HALF * 16 + bits / HALF;
    (folded * COPIES / 0x100_0000 % 256) as u8
}

// The bits of a byte in eight octets, the top bit in the first. Of four copies of half a byte, nine bits apart, each has another of its bits where an octet
// has bit 3.
fn spread(v: u8) -> u64
    ensures { ((g : ℕ → Bool) (a : ℕ) → Shows v g a → result ≡ lanes (map (λ i. to_n (g i)) (count 8 a))) × (result ≤ ones) }
{
    let x = v as u64;
    let halves = x / 16 + x % 16 * HALF;
    halves * COPIES / 8 & ONES
}

// Eight octets with bit d of each made a bit of a byte, the first octet's the top one.
pub fn with_bits(w: u64, d: usize, v: u8) -> u64
    requires { d < 8 }
    ensures { (f : ℕ → ℕ) (g : ℕ → Bool) (a : ℕ) → Eight f a w → Shows v g a → Eight (λ i. put_in (f i) d (to_n (g i))) a result }
{
    let mask = ONES << d;
    w - (w & mask) + (spread(v) << d)
}
