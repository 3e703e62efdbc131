// A frame's octets as three words, whose fixed bits are tested at once.
#![tactic(auto)]

ghost use Rattle.std.specs.Prelude.{◌≡◌, not, ◌&&◌, List, ℕ, ◌+◌, ◌^◌, ◌≤◌, ◌<◌};
ghost use Rattle.bits.specs.Bit.{bit_at, number, count};
ghost use Rattle.channel.specs.Coding.{Word, bits_at, all};
ghost use Rattle.word.specs.Words.{field_at, octets_in, Holds, FixedBy};

// A frame's octets as three numbers, the first octet on top: 1 to 8, 9 to 16, 17 to 20. Of the third the low 32 bits are looked at, and no others.
#[derive(Clone, Copy)]
pub struct Words {
    pub a: u64,
    pub b: u64,
    pub c: u64,
}

// The octets of a frame as three numbers.
pub fn words_of(o: &[u8; 20]) -> Words
    ensures octets { octets_in result ≡ o.now }
    ensures holds { Holds (bit_at o.now) result.a result.b result.c }
{
    let a = u64::from_be_bytes([o[0], o[1], o[2], o[3], o[4], o[5], o[6], o[7]]);
    let b = u64::from_be_bytes([o[8], o[9], o[10], o[11], o[12], o[13], o[14], o[15]]);
    let c = u32::from_be_bytes([o[16], o[17], o[18], o[19]]);
    Words { a, b, c: c as u64 }
}

impl Words {
    // The c bits of the frame from place p on, which stand in its first word, as a number.
    pub fn field(self, p: usize, c: usize) -> u32
        requires { (0 < c) × (c ≤ 8) × (p + c ≤ 64) }
        ensures { (result < 2 ^ c) × (result ≡ number (bits_at (bit_at (octets_in self)) (count c p))) }
    {
        field_of(self.a, p, c)
    }
}

// The c bits from place p on of a frame's first word, as a number: `Words::field` of whatever number that word is.
pub fn field_of(a: u64, p: usize, c: usize) -> u32
    requires { (0 < c) × (c ≤ 8) × (p + c ≤ 64) }
    ensures { (result < 2 ^ c) × ((g : Word) → a ≡ field_at g 64 0 → result ≡ number (bits_at g (count c p))) }
{
    ((a >> (64 - p - c)) % (1 << c)) as u32
}

// Whether a frame's words have the fixed bits of a pattern, all of them at once, by the words of two: which bits are fixed, and the fixed ones.
pub fn fixed(w: Words, mask: Words, value: Words) -> bool
    ensures octets { (zeros ons : List ℕ) → FixedBy zeros ons (octets_in mask) (octets_in value) → result ≡ all (λ i. not (bit_at (octets_in w) i)) zeros && all (bit_at (octets_in w)) ons }
    ensures holds { (o zeros ons fixed ones : List ℕ) → Holds (bit_at o) w.a w.b w.c → Holds (bit_at fixed) mask.a mask.b mask.c → Holds (bit_at ones) value.a value.b value.c → FixedBy zeros ons fixed ones → result ≡ all (λ i. not (bit_at o i)) zeros && all (bit_at o) ons }
{
    let a = w.a & mask.a == value.a;
    let b = w.b & mask.b == value.b;
    let c = (w.c & mask.c) % 4294967296 == value.c % 4294967296;
    a & b & c
}
