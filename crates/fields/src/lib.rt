// A frame's bits at lent places as a packed field or a byte, whatever the list.
#![tactic(auto)]

ghost use Rattle.std.specs.Prelude.{◌≡◌, ◌+◌, ◌*◌, ◌-◌, ◌%◌, ◌^◌, ◌≤◌, eqb, length};
ghost use Rattle.std.specs.Int.Count.{ones};
ghost use Rattle.bits.specs.Bit.{bit_at, to_n, number};
ghost use Rattle.channel.specs.Coding.{bits_at};
ghost use Rattle.channel.specs.Control.{from_top};
ghost use Rattle.fields.specs.Below.{Below};

// The bits at the places as a number, the first on top. (Whoever takes places asks that they lie in a frame: they are constants, or worked out, and the check
// finds it where one is named or made; a type around them would have to be built, and proved, for each.)
pub fn packed(o: &[u8; 20], places: &[u8]) -> u32
    requires { Below 160 places.now × (length places.now ≤ 8) }
    ensures { result ≡ number (bits_at (bit_at o.now) places.now) }
{
    let mut field: u32 = 0;
    for p in places {
        field = with_bit(field, bits::bit(o, *p as usize));
    }
    field
}

// A packed field with one bit more.
fn with_bit(field: u32, b: bool) -> u32
    requires { field ≤ 65535 }
    ensures { result ≡ 2 * field + to_n b }
{
    2 * field + b as u32
}

// A field of n bits at the top of a byte, above zeros.
fn padded(field: u32, n: usize) -> u8
    requires { n ≤ 8 }
    ensures { result ≡ field * 2 ^ (8 - n) % 256 }
{
    ((field << (8 - n)) % 256) as u8
}

// The bits at the places in a byte, from the top, the rest zero.
pub fn top_byte(o: &[u8; 20], places: &[u8]) -> u8
    requires { Below 160 places.now × (length places.now ≤ 8) }
    ensures { result ≡ from_top (bits_at (bit_at o.now) places.now) }
{
    let field = packed(o, places);
    padded(field, places.len())
}

// Whether a packed field has an odd number of ones, by the language's own count.
pub fn odd_ones(field: u32) -> bool
    ensures { result ≡ eqb (ones field % 2) 1 }
{
    u32::count_ones(field) % 2 == 1
}
