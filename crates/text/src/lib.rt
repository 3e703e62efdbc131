// A text put together in a lent buffer: bytes, and a number in decimal, each behind what stands there.
#![tactic(auto)]

ghost use Rattle.std.specs.Prelude.{◌≡◌, ◌+◌, ◌%◌, ◌≤◌, min, length, take, drop};
ghost use Rattle.text.specs.Text.{decimal_of, Put, Same};

// A text and where it ends in the buffer that it stands in front of. Each function that is lent one says that the buffer is still the same, so that whoever lent
// it knows what became of all its bytes.
#[derive(Drop)]
pub struct Text<'a> {
    bytes: &'a mut [u8],
    end: usize,
    ghost fits: { end ≤ length bytes.now },
}

impl<'a> Text<'a> {
    // The text of the bytes in front of a place.
    pub fn at(bytes: &'a mut [u8], at: usize) -> Text<'a>
        requires { at ≤ length bytes.old }
        ensures same_reference { result.bytes.ghost_name ≡ bytes.entry.ghost_name }
        ensures bytes { result.bytes.now ≡ bytes.old }
        ensures end { result.end ≡ at }
    {
        Text { bytes, end: at }
    }

    // How many bytes it has.
    pub fn len(&self) -> usize
        ensures end { result ≡ self.now.end }
        ensures length { result ≡ length (take self.now.end self.now.bytes.now) }
    {
        self.bytes().len()
    }

    // Its bytes.
    pub fn bytes(&self) -> &[u8]
        ensures { result.now ≡ take self.now.end self.now.bytes.now }
    {
        &self.bytes[..self.end]
    }

    // Keeps some of its bytes, those in front.
    pub fn truncate(&mut self, most: usize)
        ensures same { Same self.old.bytes self.new.bytes }
        ensures bytes { self.new.bytes.now ≡ self.old.bytes.now }
        ensures cut { take self.new.end self.new.bytes.now ≡ take most (take self.old.end self.old.bytes.now) }
        ensures end { self.new.end ≡ min self.old.end most }
    {
        self.end = self.end.min(most);
    }

    // Puts some bytes behind it.
    pub fn put(&mut self, bytes: &[u8])
        requires { self.old.end + length bytes.now ≤ length self.old.bytes.now }
        ensures same { Same self.old.bytes self.new.bytes }
        ensures put { Put self.old.bytes.now self.old.end bytes.now self.new.bytes.now self.new.end }
    {
        let to = self.end + bytes.len();
        let all = &mut self.bytes[..];
        all[self.end..to].copy_from_slice(bytes);
        self.end = to;
    }

    // Puts a number in decimal behind it. What std prints a number by answers a Result, of which no clause says that it is Ok.
    pub fn put_decimal(&mut self, n: u64)
        requires { self.old.end + 20 ≤ length self.old.bytes.now }
        ensures same { Same self.old.bytes self.new.bytes }
        ensures upper_bound { self.new.end ≤ self.old.end + 20 }
        ensures put { Put self.old.bytes.now self.old.end (decimal_of n) self.new.bytes.now self.new.end }
    {
        let mut digits = [0u8; 20];
        let from = spell(n, &mut digits);
        self.put(&digits[from..]);
    }
}

// The last decimal digit of a number.
pub fn digit(n: u64) -> u8
    ensures { result ≡ 48 + n % 10 }
{
    b'0' + (n % 10) as u8
}

// Puts the digits of a number at the end of twenty bytes, the last digit first, and answers where they begin. (A function that calls itself on the tens would put
// each digit into the text by itself.)
fn spell(n: u64, digits: &mut [u8]) -> usize
    requires { length digits.old ≡ 20 }
    ensures { (result ≤ 19) × (drop result digits.new ≡ decimal_of n) }
{
    let mut from: usize = 19;
    let mut rest = n;
    while 9 < rest {
        digits[from] = digit(rest);
        from -= 1;
        rest /= 10;
    }
    digits[from] = digit(rest);
    from
}
