// The bits of some bytes put at the places of a frame, eight places for each byte.
#![tactic(auto)]

ghost use Rattle.std.specs.Prelude.{◌≡◌, ◌*◌, ◌<◌, ◌≤◌, length};
ghost use Rattle.bits.specs.Bit.{bit_at};
ghost use Rattle.fields.specs.Below.{Below};
ghost use Rattle.scatter.specs.Scatter.{RunAt, put_places};

// How many places from number j on follow each other in one octet and get bits of one byte.
fn run_at(places: &[u8], j: usize) -> usize
    requires { j < length places.now }
    ensures { RunAt places.now j result }
{
    let p = places[j] as usize;
    let most = (8 - p % 8).min(8 - j % 8).min(places.len() - j);
    // The number is the answer, so a chain over parts of the places says it no plainer.
    for r in 1..most {
        if places[j + r] as usize != p + r {
            return r;
        }
    }
    most
}

// The bits of some bytes, from the first on, at the places of a frame, run by run.
pub fn at_places(o: [u8; 20], places: &[u8], from: &[u8]) -> [u8; 20]
    requires { Below 160 places.now × (length places.now ≤ 8 * length from.now) }
    ensures { result ≡ put_places o places.now (bit_at from.now) 0 }
{
    let mut octets = o;
    let mut j: usize = 0;
    // By hand, since a turn passes as many places as the run has.
    while j < places.len() {
        let p = places[j] as usize;
        let r = run_at(places, j);
        put::put_top(&mut octets, p, r, put::from_bit(from[j / 8], j % 8));
        j += r;
    }
    octets
}
