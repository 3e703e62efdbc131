// The way back: the D bits of a frame put at their places, by the plan of its kind.
#![tactic(auto)]

ghost use Rattle.std.specs.Prelude.{◌≡◌, List, ℕ, ◌+◌, ◌*◌, ◌/◌, ◌≤◌, ◌<◌, length};
ghost use Rattle.bits.specs.Bit.{bit_at};
ghost use Rattle.channel.specs.Kinds.{d_count};
ghost use Rattle.channel.specs.Places.{d_places};
ghost use Rattle.scatter.specs.Scatter.{put_places};
ghost use Rattle.entries.specs.Entry.{back};
ghost use Rattle.dput.specs.Back.{BackFrom, Rest};

use entries::Entry;
use plans::Plan;

// A byte put back by its entry, into two neighbouring octets.
fn quick_put(o: &mut [u8; 20], e: Entry, b: u8)
    ensures { (o.new ≡ back o.old e.m b) × (b < 256) }
{
    let m = e.m;
    let a = (m % 256) as usize;
    let s = m / 65536 % 16;
    let mask = m / 16777216;
    let first = o[a] as u32;
    let second = o[a + 1] as u32;
    let moved = (b as u32) << s;
    let rest = (moved % 256) >> (m / 1048576 % 16);
    o[a] = ((((first >> s) << s) + moved / 256) % 256) as u8;
    o[a + 1] = ((second - (second & mask) + (rest & mask)) % 256) as u8;
}

// The D bytes from number `from` on, up to `to`, put back by their entries: what is left to be put then gives the same.
// (The number names entry and byte: chains over parts of both say it no plainer.)
fn by_entries(o: &mut [u8; 20], entries: &[Entry; 19], d: &[u8], from: usize, to: usize)
    requires { (from ≤ to) × (to ≤ 19) × (to ≤ length d.now) }
    ensures { (ps : List ℕ) → BackFrom ps entries.now from to → Rest ps d.now from o.old to o.new }
{
    for j in from..to {
        quick_put(o, entries[j], d[j]);
    }
}

// D byte i of the plan's kind at its places, whatever they are.
fn with_byte(o: [u8; 20], plan: &Plan, d: &[u8], i: usize) -> [u8; 20]
    requires { (d_count plan.now.kind ≤ 8 * length d.now) × (8 * i < d_count plan.now.kind) }
    ensures { Rest (d_places plan.now.kind) d.now i o (i + 1) result }
{
    eights::put(o, plan.table, plan.kind, i, &d[i..])
}

// The D bytes that are not two runs, at their places, one by one. (The number is what `eights` is asked for; `next` has a name, since in a
// loop the check does not follow an array that a call's result is put into at once.)
fn with_odd(o: [u8; 20], plan: &Plan, d: &[u8]) -> [u8; 20]
    requires { d_count plan.now.kind ≤ 8 * length d.now }
    ensures { Rest (d_places plan.now.kind) d.now plan.now.from o plan.now.to result }
{
    let mut octets = o;
    for i in plan.from..plan.to {
        let next = with_byte(octets, plan, d, i);
        octets = next;
    }
    octets
}

// The way back: the D bits of the plan's kind at their places, from bytes that have them from the top bit down: by the entries, but for the bytes that are
// not two runs, which are put bit by bit.
pub fn with_d(o: [u8; 20], d: &[u8], plan: &Plan) -> [u8; 20]
    requires { d_count plan.now.kind ≤ 8 * length d.now }
    ensures { result ≡ put_places o (d_places plan.now.kind) (bit_at d.now) 0 }
{
    let mut octets = o;
    by_entries(&mut octets, &plan.entries, d, 0, plan.from);
    octets = with_odd(octets, plan, d);
    by_entries(
        &mut octets,
        &plan.entries,
        d,
        plan.to,
        dplaces::d_length(plan.kind),
    );
    octets
}
