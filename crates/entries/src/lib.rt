// How two neighbouring octets make the byte of the bits at up to eight places, worked out from the places.
#![tactic(auto)]

ghost use Rattle.std.specs.Prelude.{◌≡◌, ◌+◌, ◌%◌, ◌^◌, ◌≤◌, ◌<◌, length, IfSome};
ghost use Rattle.fields.specs.Below.{Below};
ghost use Rattle.entries.specs.Entry.{Rising, Whole, FirstRun, FirstBy, FirstEnds, back_of, EntryBy};

// How the bits at some places make a byte: octet m % 256 by the factor f, and the next by the factor h under the mask m. How the byte is put back stands above
// the mask. It is packed so, since an entry is read for each byte of each frame.
#[derive(Clone, Copy)]
pub struct Entry {
    pub m: u32,
    pub f: u32,
    pub h: u32,
    pub ghost small: { (m % 256 < 19) × (f ≤ 32768) × (h ≤ 32768) },
}

// A power of two.
fn weight(k: usize) -> u32
    requires { k ≤ 16 }
    ensures { result ≡ 2 ^ k }
{
    1 << k
}

// What stands above the mask of an entry: s places of the first run, and r of the second, from bit e of its octet on.
fn back_of(s: usize, e: usize, r: usize) -> u32
    requires { (s ≤ 8) × (e < 8) × (e + r ≤ 8) }
    ensures { (result ≡ back_of s e r) × (result < 65536) }
{
    (weight(8 - e) - weight(8 - e - r)) * 256 + (e * 16 + s) as u32
}

// The entry of places whose first s come from octet a by the factor f: the others are to be neighbours in the octet behind it, or there is none.
fn second_run(part: &[u8], s: usize, a: usize, f: u32) -> Option<Entry>
    requires { Rising part.now × (s < length part.now) × (length part.now ≤ 8) × (a < 19) × (f ≤ 32768) × Whole f × FirstRun part.now s × FirstBy part.now s a f × FirstEnds part.now s a }
    ensures { IfSome result (λ e. EntryBy part.now e.m e.f e.h) }
{
    let n = part.len();
    let q = part[s] as usize;
    if q / 8 != a + 1 {
        return None;
    }
    if 8 < q % 8 + n - s {
        return None;
    }
    if part[n - 1] as usize != q + n - s - 1 {
        return None;
    }
    let mask = weight(16 - s) - weight(16 - n);
    Some(Entry {
        m: mask + a as u32 + back_of(s, q % 8, n - s) * 65536,
        f,
        h: weight(8 + q % 8 - s),
    })
}

// The entry of one to eight rising places, if they are two runs.
pub fn entry_of(part: &[u8]) -> Option<Entry>
    requires { Below 160 part.now × Rising part.now × (0 < length part.now) × (length part.now ≤ 8) }
    ensures { IfSome result (λ e. EntryBy part.now e.m e.f e.h) }
{
    let p = part[0] as usize;
    let s = 8 - p % 8;
    if part.len() <= s {
        if p < 8 {
            return None;
        }
        return second_run(part, 0, p / 8 - 1, 0);
    }
    if part[s - 1] as usize != p + s - 1 {
        return None;
    }
    if 151 < p {
        return None;
    }
    second_run(part, s, p / 8, weight(16 - s))
}
