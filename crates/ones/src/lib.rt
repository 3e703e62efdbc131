// The ones of a tail laid into a lent buffer.
#![tactic(auto)]

ghost use Rattle.std.specs.Prelude.{◌≡◌, true, ◌+◌, ◌*◌, ◌≤◌, length, replicate};
ghost use Rattle.bits.specs.Put.{put_bits};

// A tail of t ones, from bit p on: bytes are written whole, but for the first and the last.
pub fn tail(s: &mut [u8], p: usize, t: usize)
    requires { (p + t ≤ 8 * length s.old) × (length s.old ≤ 65536) }
    ensures { s.new ≡ put_bits s.old p (replicate t true) }
{
    let r = p % 8;
    if r + t < 8 {
        put::put_top(s, p, t, 255);
        return;
    }
    put::put_top(s, p, 8 - r, 255);
    let end = (p + t) / 8;
    s[p / 8 + 1..end].fill(255);
    put::put_top(s, 8 * end, (p + t) % 8, 255);
}
