// The D bits of a frame in bytes, by the plan of its kind.
#![tactic(auto)]

ghost use Rattle.std.specs.Prelude.{◌≡◌, map, ◌++◌, ◌≤◌, drop, replicate};
ghost use Rattle.bits.specs.Bit.{bit_at, count};
ghost use Rattle.channel.specs.Record.{d_bytes};
ghost use Rattle.plans.specs.Plan.{quick_at, entry_at};

use entries::Entry;
use plans::Plan;

// A byte by its entry.
fn quick_byte(o: &[u8; 20], e: Entry) -> u8
    ensures { result ≡ quick_at o.now e }
{
    let a = (e.m % 256) as usize;
    let upper = o[a] as u32 * e.f;
    let lower = o[a + 1] as u32 * e.h & e.m;
    ((upper + lower) / 256 % 256) as u8
}

// The first n of nineteen bytes by their entries; the others are zero. (The proof of a `zip` of both arrays did not close.)
fn quick_bytes(o: &[u8; 20], entries: &[Entry; 19], n: usize) -> [u8; 19]
    requires { n ≤ 19 }
    ensures { result ≡ map (λ j. quick_at o.now (entry_at entries.now j)) (count n 0) ++ drop n (replicate 19 0) }
{
    let mut out = [0u8; 19];
    for j in 0..n {
        out[j] = quick_byte(o, entries[j]);
    }
    out
}

// The D bits of a frame of the plan's kind, from the top bit down, zero padded: by the entries, but for the bytes that are not two runs, which are made bit by
// bit.
pub fn d_bytes(o: &[u8; 20], plan: &Plan) -> [u8; 19]
    ensures { result ≡ d_bytes (bit_at o.now) plan.now.kind }
{
    let mut out = quick_bytes(o, &plan.entries, dplaces::d_length(plan.kind));
    // The byte's number is what `eights` is asked for.
    for j in plan.from..plan.to {
        out[j] = eights::byte(o, plan.table, plan.kind, j);
    }
    out
}
