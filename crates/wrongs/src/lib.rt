// Which CRCs of a frame are wrong, by the masks of their covered lists, which are worked out where they are not there yet.
#![tactic(auto)]

ghost use Rattle.std.specs.Prelude.{◌≡◌, not, map, List, [], ◌∷◌, ℕ, ◌≤◌, ◌<◌};
ghost use Rattle.bits.specs.Bit.{bit_at, to_n};
ghost use Rattle.channel.specs.Crc.{right};
ghost use Rattle.channel.specs.Verdict.{wrongs};
ghost use Rattle.word.specs.Words.{octets_in};
ghost use Rattle.crc.specs.Taps.{MasksOf};
ghost use Rattle.masks.specs.Kept.{places_of};

use crc::Taps;
use masks::{CoveredList, Masks};
use word::Words;

// 1 where the CRC is wrong whose list the masks are of.
fn wrong_by(w: Words, taps: &Taps) -> u8
    ensures { (result ≤ 1) × ((ps : List ℕ) → MasksOf ps taps.now → result ≡ to_n (not (right (bit_at (octets_in w)) ps))) }
{
    !crc::right_by(w, taps) as u8
}

// 1 where the one CRC of a list is wrong.
pub fn one_wrong(w: Words, masks: &mut Masks, list: CoveredList) -> u8
    ensures { (result ≤ 1) × (result ≡ wrongs (bit_at (octets_in w)) (places_of list ∷ [])) }
{
    masks.make(list);
    wrong_by(w, masks.of(list))
}

// The wrong ones of four CRCs, by their lists, as bits: CRC1 is bit 0.
pub fn four_wrongs(w: Words, masks: &mut Masks, lists: &[CoveredList; 4]) -> u8
    ensures { (result < 16) × (result ≡ wrongs (bit_at (octets_in w)) (map places_of lists.now)) }
{
    let w1 = one_wrong(w, masks, lists[0]);
    let w2 = one_wrong(w, masks, lists[1]);
    let w3 = one_wrong(w, masks, lists[2]);
    let w4 = one_wrong(w, masks, lists[3]);
    w1 + 2 * w2 + 4 * w3 + 8 * w4
}
