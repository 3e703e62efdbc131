// The masks of the covered lists: worked out of a list when its first frame comes, and kept for the rest of the call.
#![tactic(auto)]

pub mod covered;

ghost use Rattle.std.specs.Prelude.{◌≡◌, None, IsSome, get_or};
ghost use Rattle.fields.specs.Below.{Below};
ghost use Rattle.crc.specs.Taps.{MasksOf};
ghost use Rattle.masks.specs.Kept.{number, places_of, Kept, Kept-prop, More};

use crc::Taps;

// The lists that CRCs cover: kind 1's, kind 6's by mode and CRC, those of kinds 7 and 8, kind 5's.
#[derive(Clone, Copy)]
pub enum CoveredList {
    Speech,
    Lower475Crc1,
    Lower475Crc2,
    Lower475Crc3,
    Lower475Crc4,
    Lower515Crc1,
    Lower515Crc2,
    Lower515Crc3,
    Lower515Crc4,
    Lower590,
    Amr670,
    Amr740,
    NoSpeech,
}

// The lists of a kind 6 in a mode that has four CRCs, CRC1 first.
pub static LOWER_475: [CoveredList; 4] = [
    CoveredList::Lower475Crc1,
    CoveredList::Lower475Crc2,
    CoveredList::Lower475Crc3,
    CoveredList::Lower475Crc4,
];

pub static LOWER_515: [CoveredList; 4] = [
    CoveredList::Lower515Crc1,
    CoveredList::Lower515Crc2,
    CoveredList::Lower515Crc3,
    CoveredList::Lower515Crc4,
];

// A list's number, in the order of `CoveredList`.
fn number(list: CoveredList) -> usize
    ensures { result ≡ number list }
{
    list as usize
}

// The places of a list. The lists lie in memory in the order in which they stand here. So the last CRC of a mode comes first: then no list's end and the next
// one's beginning are eight neighbouring places of the D table, which the handheld's library is not to have (scripts/sizes looks for them).
fn places(list: CoveredList) -> &'static [u8]
    ensures { (result.now ≡ places_of list) × Below 160 result.now }
{
    match list {
        CoveredList::Speech => &covered::SPEECH_CRC,
        CoveredList::Lower475Crc4 => &covered::LOWER_475_CRC4,
        CoveredList::Lower475Crc3 => &covered::LOWER_475_CRC3,
        CoveredList::Lower475Crc2 => &covered::LOWER_475_CRC2,
        CoveredList::Lower475Crc1 => &covered::LOWER_475_CRC1,
        CoveredList::Lower515Crc4 => &covered::LOWER_515_CRC4,
        CoveredList::Lower515Crc3 => &covered::LOWER_515_CRC3,
        CoveredList::Lower515Crc2 => &covered::LOWER_515_CRC2,
        CoveredList::Lower515Crc1 => &covered::LOWER_515_CRC1,
        CoveredList::Lower590 => &covered::LOWER_590_CRC1,
        CoveredList::Amr670 => &covered::AMR670_CRC1,
        CoveredList::Amr740 => &covered::AMR740_CRC1,
        CoveredList::NoSpeech => &covered::NO_SPEECH_CRC1,
    }
}

// The masks of the lists of which a frame came.
#[derive(Drop)]
pub struct Masks {
    lists: [Option<Taps>; 13],
    ghost kept: { Kept lists } by { Kept-prop lists },
}

// Masks of no list.
pub fn no_masks() -> Masks {
    Masks { lists: [None; 13] }
}

// The masks of a list, worked out from its places.
#[cold]
#[inline(never)]
fn made(list: CoveredList) -> Taps
    ensures { MasksOf (places_of list) result }
{
    crc::masks_of(places(list))
}

impl Masks {
    // The masks of a list are worked out, unless they are there.
    pub fn make(&mut self, list: CoveredList)
        ensures { More (number list) self.old.lists self.new.lists }
    {
        let i = number(list);
        if self.lists[i].is_none() {
            self.lists[i] = Some(made(list));
        }
    }

    // The masks of a list, which are there.
    pub fn of(&self, list: CoveredList) -> &Taps
        requires { IsSome (get_or self.now.lists (number list) None) }
        ensures { MasksOf (places_of list) result.now }
    {
        match &self.lists[number(list)] {
            Some(taps) => taps,
            None => unreachable!(),
        }
    }
}
