// The body of a frame laid into a lent buffer.
#![tactic(auto)]

ghost use Rattle.std.specs.Prelude.{◌≡◌, map, ◌+◌, ◌*◌, ◌≤◌, length};
ghost use Rattle.bits.specs.Bit.{bit_at, count};
ghost use Rattle.bits.specs.Put.{put_bits};

// The first k bits of a frame, from bit p on: bytes are written whole, but for the first and the last. (`ones::tail` goes
// alike, but fills its whole bytes at once, where each of a body is joined of two octets.)
pub fn body(s: &mut [u8], p: usize, o: [u8; 20], k: usize)
    requires { (p + k ≤ 8 * length s.old) × (k ≤ 160) × (length s.old ≤ 65536) }
    ensures { s.new ≡ put_bits s.old p (map (bit_at o) (count k 0)) }
{
    let r = p % 8;
    if r + k < 8 {
        put::put_top(s, p, k, o[0]);
        return;
    }
    put::put_top(s, p, 8 - r, o[0]);
    let i = p / 8;
    let n = (r + k) / 8;
    for (j, byte) in s[i + 1..i + n].iter_mut().enumerate() {
        *byte = bits::join(o[j], o[j + 1], r);
    }
    let last = o.get(n).copied().unwrap_or(0);
    put::put_top(s, 8 * (i + n), (r + k) % 8, bits::join(o[n - 1], last, r));
}
