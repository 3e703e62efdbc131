// A CRC over listed places of a frame: masks worked out from the list, and the test by them.
#![tactic(auto)]

ghost use Rattle.std.specs.Prelude.{◌≡◌, Bool, cond, List, ◌∷◌, ℕ, ◌<◌};
ghost use Rattle.bits.specs.Bit.{bit_at, to_n};
ghost use Rattle.channel.specs.Crc.{right};
ghost use Rattle.fields.specs.Below.{Below};
ghost use Rattle.word.specs.Words.{octets_in, Holds};
ghost use Rattle.crc.specs.Taps.{ParityOf, odd_under, MasksOf};

use word::Words;

// The masks of a list, one for each coefficient of the remainder: the coefficient is the parity of a frame's ones under its mask.
#[derive(Clone, Copy)]
pub struct Taps {
    pub two: Words,
    pub one: Words,
    pub nil: Words,
}

// Whether the ones of the words under a mask are odd in number, by the language's own count.
fn odd_under(w: Words, mask: Words) -> bool
    ensures { result ≡ odd_under w.a w.b w.c mask }
{
    u64::count_ones((w.a & mask.a) ^ (w.b & mask.b) ^ (w.c & mask.c)) % 2 == 1
}

// Whether a CRC is right, by the masks of its list: each coefficient of the remainder is a parity over the places whose powers have it, and all three are to
// be one. None is skipped: of a right CRC each is looked at, and so there is no branch. Mask bits above the 32 of a frame's last four octets may be anything.
pub fn right_by(w: Words, taps: &Taps) -> bool
    ensures octets { (ps : List ℕ) → MasksOf ps taps.now → result ≡ right (bit_at (octets_in w)) ps }
    ensures holds { (o ps : List ℕ) → Holds (bit_at o) w.a w.b w.c → MasksOf ps taps.now → result ≡ right (bit_at o) ps }
{
    let w = Words {
        c: w.c % 4294967296,
        ..w
    };
    odd_under(w, taps.two) & odd_under(w, taps.one) & odd_under(w, taps.nil)
}

// A mask over the three words with the bit of a place turned, where x is one.
fn with_tap(m: Words, p: usize, x: u64) -> Words
    requires { (p < 160) × (x < 2) }
    ensures { (ps : List ℕ) (t : Bool) → x ≡ to_n t → ParityOf ps m.a m.b m.c → ParityOf (cond t (p ∷ ps) ps) result.a result.b result.c }
{
    match p {
        0..64 => Words {
            a: m.a ^ (x << (63 - p)),
            ..m
        },
        64..128 => Words {
            b: m.b ^ (x << (127 - p)),
            ..m
        },
        _ => Words {
            c: m.c ^ (x << (159 - p)),
            ..m
        },
    }
}

// The masks of a covered list, whatever its length: from its last place on, whose power is 1, each place is turned in the masks of the coefficients that its
// power leaves; x2, x1, x0 are what the power at hand leaves.
pub fn masks_of(places: &[u8]) -> Taps
    requires { Below 160 places.now }
    ensures { MasksOf places.now result }
{
    let none = Words { a: 0, b: 0, c: 0 };
    let mut taps = Taps {
        two: none,
        one: none,
        nil: none,
    };
    let mut x2: u64 = 0;
    let mut x1: u64 = 0;
    let mut x0: u64 = 1;
    for place in places.iter().rev() {
        let p = *place as usize;
        taps.two = with_tap(taps.two, p, x2);
        taps.one = with_tap(taps.one, p, x1);
        taps.nil = with_tap(taps.nil, p, x0);
        let top = x2;
        x2 = x1;
        x1 = x0 ^ top;
        x0 = top;
    }
    taps
}
