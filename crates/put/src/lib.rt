// Bits put into bytes: a run of bits inside one byte, and one bit.
#![tactic(auto)]

ghost use Rattle.std.specs.Prelude.{◌≡◌, Bool, [], ◌∷◌, map, ℕ, ◌+◌, ◌*◌, ◌-◌, ◌/◌, ◌%◌, ◌^◌, ◌<◌, ◌≤◌, length};
ghost use Rattle.bits.specs.Bit.{bit_at, count};
ghost use Rattle.put.specs.Put.{put_run, Shows};
ghost use Rattle.bits.specs.Put.{put_bit, put_bits};

// A byte with its c bits from bit a on made the first c of x; the mask has those c bits.
fn run_in(y: u8, a: usize, c: usize, x: u8) -> u8
    requires { a + c ≤ 8 }
    ensures { result ≡ put_run y a c (x / 2 ^ (8 - c)) }
{
    let mask = (256u32 >> a) - (256u32 >> (a + c));
    let w = y as u32;
    (w - (w & mask) + ((x as u32 >> a) & mask)) as u8
}

// The first c bits of a byte from bit p on, inside one byte, by one read and one write.
pub fn put_top(s: &mut [u8], p: usize, c: usize, x: u8)
    requires { (p % 8 + c ≤ 8) × (p + c ≤ 8 * length s.old) }
    ensures { (g : ℕ → Bool) (a : ℕ) → Shows x g a → s.new ≡ put_bits s.old p (map g (count c a)) }
{
    if c == 0 {
        return;
    }
    let i = p / 8;
    s[i] = run_in(s[i], p % 8, c, x);
}

// A byte of one bit, eight times.
fn all_of(b: bool) -> u8
    ensures { Shows result (λ _. b) 0 }
{
    if b { 255 } else { 0 }
}

// Bit p becomes b, the other bits keep their value.
pub fn put_bit(s: &mut [u8], p: usize, b: bool)
    requires { p < 8 * length s.old }
    ensures { s.new ≡ put_bit s.old p b }
{
    put_top(s, p, 1, all_of(b));
}

// The bits of a byte from bit k on, with zeros behind them.
pub fn from_bit(b: u8, k: usize) -> u8
    requires { k ≤ 8 }
    ensures { Shows result (bit_at (b ∷ [])) k }
{
    bits::join(b, 0, 8 - k)
}
