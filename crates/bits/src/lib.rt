// Bits of lent bytes, and a frame's twenty octets by value.
#![tactic(auto)]

ghost use Rattle.std.specs.Prelude.{◌≡◌, ◌+◌, ◌*◌, ◌-◌, ◌/◌, ◌%◌, ◌^◌, ◌<◌, ◌≤◌, length};
ghost use Rattle.bits.specs.Bit.{bit_at, octet_of, twenty, bits_from};

use std::array;

// Bit p of s, the top bit of the first byte being bit 0.
pub fn bit(s: &[u8], p: usize) -> bool
    requires { p < 8 * length s.now }
    ensures { result ≡ bit_at s.now p }
{
    (s[p / 8] >> (7 - p % 8)) % 2 == 1
}

// Eight of the sixteen bits of a and b, those before the last r: two bytes are shifted at once, so that no bit is taken alone.
pub fn join(a: u8, b: u8, r: usize) -> u8
    requires { r ≤ 8 }
    ensures { result ≡ (a * 256 + b) / 2 ^ r % 256 }
{
    ((u16::from_be_bytes([a, b]) >> r) % 256) as u8
}

// The top k bits of x, with zeros for the others.
fn top(x: u8, k: usize) -> u8
    requires { (0 < k) × (k < 8) }
    ensures { result ≡ x / 2 ^ (8 - k) * 2 ^ (8 - k) }
{
    let d = 8 - k;
    (x >> d) << d
}

// The octet from bit q, with zeros for the bits from n on, which are cut off only where n falls inside it. Past the end of s, where its last bits would lie,
// a zero byte stands for the next.
fn octet(s: &[u8], n: usize, q: usize) -> u8
    requires { (n ≤ 8 * length s.now) × (length s.now ≤ 65536) × (q < n + 160) }
    ensures { result ≡ octet_of (bits_from (bit_at s.now) n q) 0 }
{
    if n <= q {
        return 0;
    }
    let i = q / 8;
    let next = s.get(i + 1).copied().unwrap_or(0);
    let x = join(s[i], next, 8 - q % 8);
    if q + 8 <= n {
        return x;
    }
    top(x, n - q)
}

// The twenty octets from bit p, with zeros for the bits from n on, which are never looked at. Where 168 bits are left all the bytes are there, and whole:
// nothing is tested. (What n is to s stands in these two contracts alone: all above have it from `capture::Capture`.)
pub fn octets(s: &[u8], n: usize, p: usize) -> [u8; 20]
    requires { (p ≤ n) × (n ≤ 8 * length s.now) × (length s.now ≤ 65536) }
    ensures { result ≡ twenty (bits_from (bit_at s.now) n p) }
{
    if p + 168 <= n {
        let i = p / 8;
        let r = 8 - p % 8;
        return array::from_fn(|k| join(s[i + k], s[i + k + 1], r));
    }
    array::from_fn(|k| octet(s, n, p + 8 * k))
}
