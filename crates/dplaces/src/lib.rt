// The places of the D bits of the eight kinds, in one flat table.
#![tactic(auto)]

mod places;

ghost use Rattle.std.specs.Prelude.{◌≡◌, ◌+◌, ◌≤◌, take, drop};
ghost use Rattle.channel.specs.Kinds.{d_count};
ghost use Rattle.channel.specs.Places.{d_places};
ghost use Rattle.channel.specs.Record.{d_length};
ghost use Rattle.dplaces.specs.DPlaces.{all_places, d_from};

use crate::places::D_PLACES;
use channel::Kind;

// The table, as a call lends it: who lends none has the places worked out, and a library that doesn't name `table` doesn't contain it.
#[derive(Clone, Copy)]
pub struct PlaceTable {
    places: &'static [u8; 1022],
    pub ghost whole: { places.now ≡ all_places },
}

impl PlaceTable {
    // The places of the D bits of a kind.
    pub fn of(self, k: Kind) -> &'static [u8]
        ensures { result.now ≡ d_places k }
    {
        let all = self.places;
        let from = d_from(k);
        &all[from..from + d_count(k)]
    }

    // The places of so many D bits of a kind, behind the first ones.
    pub fn part(self, k: Kind, behind: usize, count: usize) -> &'static [u8]
        requires { behind + count ≤ d_count k }
        ensures { result.now ≡ take count (drop behind (d_places k)) }
    {
        let all = self.places;
        let from = d_from(k) + behind;
        &all[from..from + count]
    }
}

// The table.
pub fn table() -> PlaceTable {
    PlaceTable { places: &D_PLACES }
}

// How many D bits a kind has.
pub fn d_count(k: Kind) -> usize
    ensures { result ≡ d_count k }
{
    match k {
        Kind::Speech => 112,
        Kind::Data | Kind::Lower => 126,
        Kind::Om => 120,
        Kind::Configuration | Kind::NoSpeech => 125,
        Kind::Amr670 => 137,
        Kind::Amr740 => 151,
    }
}

// How many bytes the D bits of a kind take.
pub fn d_length(k: Kind) -> usize
    ensures { result ≡ d_length k }
{
    (d_count(k) + 7) / 8
}

// Where a kind's part of the table begins.
pub fn d_from(k: Kind) -> usize
    ensures { result ≡ d_from k }
{
    match k {
        Kind::Speech => 0,
        Kind::Data => 112,
        Kind::Om => 238,
        Kind::Configuration => 358,
        Kind::NoSpeech => 483,
        Kind::Lower => 608,
        Kind::Amr670 => 734,
        Kind::Amr740 => 871,
    }
}
