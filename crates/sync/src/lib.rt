// Where frames may begin: eight zeros and a one, looked for by the byte.
#![tactic(auto)]

ghost use Rattle.std.specs.Prelude.{◌≡◌, ℕ, ◌+◌, ◌*◌, ◌<◌, ◌≤◌, length, MatchOption};
ghost use Rattle.bits.specs.Bit.{bit_at};
ghost use Rattle.sync.specs.Sync.{SyncedIn, SyncFrom};

// Where in two bytes eight zeros and a one begin: at one place of the first byte at most, told by the zeros that the second begins with.
fn sync_in(a: u8, b: u8) -> Option<usize>
    ensures { MatchOption result ((k : ℕ) → k < 8 → SyncedIn a b k → ⊥) (λ k. (k < 8) × SyncedIn a b k × ((j : ℕ) → j < 8 → SyncedIn a b j → k ≡ j)) }
{
    let k = b.leading_zeros();
    if k < 8 && ((a as u32) << k) % 256 == 0 {
        Some(k as usize)
    } else {
        None
    }
}

// The first place from q on where eight zeros and a one stand, or the end of the byte that has bit `last` where they stand at none before it. A byte is
// looked at once for its eight places; an odd one is passed without a look at the next.
pub fn sync_from(s: &[u8], q: usize, last: usize) -> usize
    requires { (q ≤ last) × (last + 9 ≤ 8 * length s.now) × (length s.now ≤ 65536) }
    ensures { SyncFrom (bit_at s.now) q last result }
{
    let end = last / 8 + 1;
    for i in q / 8..end {
        if s[i] % 2 == 1 {
            continue;
        }
        let Some(k) = sync_in(s[i], s[i + 1]) else {
            continue;
        };
        if q <= 8 * i + k {
            return 8 * i + k;
        }
    }
    8 * end
}
