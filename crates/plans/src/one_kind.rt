// The plan of one kind.

ghost use Rattle.std.specs.Prelude.{◌≡◌, ◌<◌};
ghost use Rattle.std.proofs.Props.{props};
ghost use Rattle.channel.specs.Places.{d_places};
ghost use Rattle.plans.specs.Plan.{odd_bytes, PlanOf};

use channel::Kind;
use dplaces::PlaceTable;
use entries::Entry;

// The D bytes of a kind: each is made by its entry, but for those from number `from` on, up to `to`, which are not two runs and are made bit by bit, by their
// places. These are looked up in the table where it is lent.
#[derive(Clone, Copy)]
pub struct Plan {
    pub kind: Kind,
    pub table: Option<PlaceTable>,
    pub entries: [Entry; 19],
    pub from: usize,
    pub to: usize,
    pub ghost planned: { PlanOf (d_places kind) entries from to } by { Prim.hlevel props },
}

// The bytes from the first that has no entry to the last, once byte j is looked at: from which number on, up to which. The two are one while there is none.
fn odd_bytes(from: usize, to: usize, j: usize, entry: Option<Entry>) -> (usize, usize)
    requires { j < 19 }
    ensures { result ≡ odd_bytes from to j entry }
{
    match entry {
        Some(_) => (from, to),
        None if from == to => (j, j + 1),
        None => (from, j + 1),
    }
}

impl Plan {
    // The plan of a kind, worked out.
    pub fn new(table: Option<PlaceTable>, k: Kind) -> Plan
        ensures { result.kind ≡ k }
    {
        let mut entries = [Entry { m: 0, f: 0, h: 0 }; 19];
        let mut from = 0;
        let mut to = 0;
        // The byte's number is what an entry is asked for.
        for j in 0..dplaces::d_length(k) {
            let entry = eights::entry(table, k, j);
            (from, to) = odd_bytes(from, to, j, entry);
            if let Some(e) = entry {
                entries[j] = e;
            }
        }
        Plan {
            kind: k,
            table,
            entries,
            from,
            to,
        }
    }
}
