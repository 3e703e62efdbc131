// The places of the D bits of a byte: looked up where the table is lent, worked out where it is not. Who asks cannot tell.
#![tactic(auto)]

ghost use Rattle.std.specs.Prelude.{◌≡◌, ◌*◌, ◌≤◌, ◌<◌, length, IfSome};
ghost use Rattle.bits.specs.Bit.{bit_at};
ghost use Rattle.channel.specs.Kinds.{d_count};
ghost use Rattle.channel.specs.Coding.{bits_at};
ghost use Rattle.channel.specs.Control.{from_top};
ghost use Rattle.scatter.specs.Scatter.{put_places};
ghost use Rattle.entries.specs.Entry.{EntryBy};
ghost use Rattle.placing.specs.Eight.{eight_of};

use channel::Kind;
use dplaces::PlaceTable;
use entries::Entry;

// The places of byte j of a kind: a part of the table, or worked out into the room that is lent for them.
fn places<'a>(table: Option<PlaceTable>, k: Kind, j: usize, room: &'a mut [u8; 8]) -> &'a [u8]
    requires { 8 * j < d_count k }
    ensures { result.now ≡ eight_of k j }
{
    let n = placing::size(k, j);
    match table {
        Some(table) => table.part(k, 8 * j, n),
        None => {
            *room = placing::eight(k, j);
            let worked_out = &room[..];
            &worked_out[..n]
        }
    }
}

// The entry of byte j of a kind, if its places are two runs.
pub fn entry(table: Option<PlaceTable>, k: Kind, j: usize) -> Option<Entry>
    requires { 8 * j < d_count k }
    ensures { IfSome result (λ e. EntryBy (eight_of k j) e.m e.f e.h) }
{
    let mut room = [0u8; 8];
    entries::entry_of(places(table, k, j, &mut room))
}

// D byte j of a frame of a kind, bit by bit. Of each frame of some kinds a byte is made so, which is quicker with the two ways apart than by `places`.
pub fn byte(o: &[u8; 20], table: Option<PlaceTable>, k: Kind, j: usize) -> u8
    requires { 8 * j < d_count k }
    ensures { result ≡ from_top (bits_at (bit_at o.now) (eight_of k j)) }
{
    let n = placing::size(k, j);
    match table {
        Some(table) => fields::top_byte(o, table.part(k, 8 * j, n)),
        None => fields::top_byte(o, &placing::eight(k, j)[..n]),
    }
}

// The way back: the first of some bytes put at the places of D byte j of a kind.
pub fn put(o: [u8; 20], table: Option<PlaceTable>, k: Kind, j: usize, d: &[u8]) -> [u8; 20]
    requires { (8 * j < d_count k) × (1 ≤ length d.now) }
    ensures { result ≡ put_places o (eight_of k j) (bit_at d.now) 0 }
{
    let mut room = [0u8; 8];
    scatter::at_places(o, places(table, k, j, &mut room), d)
}
