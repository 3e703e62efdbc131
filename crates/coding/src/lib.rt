// The kind of a frame by its fixed bits and its coding.
#![tactic(auto)]

pub mod places;

ghost use Rattle.std.specs.Prelude.{◌≡◌, true, not, ◌&&◌, [], ◌∷◌, List, ◌<◌, ℕ};
ghost use Rattle.bits.specs.Bit.{bit_at};
ghost use Rattle.channel.specs.Places.{elem};
ghost use Rattle.channel.specs.Coding.{all, c4_coded, xc_coded, speech_xc, fixed};
ghost use Rattle.channel.specs.declared.Pattern.{Pattern as Fixed};
ghost use Rattle.channel.specs.declared.Pattern.TheVariants.{Hr, Low};
ghost use Rattle.word.specs.Words.{octets_in, FixedBy};
ghost use Rattle.channel.specs.declared.Direction.{Direction as Way};
ghost use Rattle.coding.specs.Found.{SyncOf, XcOf, Coded, KindOf};

use channel::{Direction, Kind, Pattern, Terms};
use word::Words;

// Whether the fixed bits of a pattern hold, by two frames: one has a one where a bit is fixed, the other has the fixed ones.
fn holds_by(w: Words, mask: &[u8; 20], fixed: &[u8; 20]) -> bool
    ensures { (zeros ones : List ℕ) → FixedBy zeros ones mask.now fixed.now → result ≡ all (λ i. not (bit_at (octets_in w) i)) zeros && all (bit_at (octets_in w)) ones }
{
    word::fixed(w, word::words_of(mask), word::words_of(fixed))
}

// Whether the fixed bits of a pattern hold.
fn holds(w: Words, t: Pattern) -> bool
    ensures { result ≡ fixed (bit_at (octets_in w)) t }
{
    match t {
        Pattern::Hr => holds_by(w, &places::HR_MASK, &places::HR_FIXED),
        Pattern::Low => holds_by(w, &places::LOW_MASK, &places::LOW_FIXED),
        Pattern::P670 => holds_by(w, &places::P670_MASK, &places::P670_FIXED),
        Pattern::P740 => holds_by(w, &places::P740_MASK, &places::P740_FIXED),
    }
}

// The one pattern whose fixed bits can hold: octet 1 bit 3, octet 3 bit 1 and octet 4 bit 1 rule out the others.
fn candidate(w: Words) -> Pattern
    ensures { (t : Fixed) → fixed (bit_at (octets_in w)) t ≡ true → t ≡ result }
{
    if w.field(2, 1) == 1 {
        Pattern::P740
    } else if w.field(16, 1) == 0 {
        Pattern::Hr
    } else if w.field(24, 1) == 1 {
        Pattern::P670
    } else {
        Pattern::Low
    }
}

// The pattern whose fixed bits hold, all of them tested at once.
fn pattern_of(w: Words) -> Option<Pattern>
    ensures { SyncOf (bit_at (octets_in w)) result }
{
    let t = candidate(w);
    holds(w, t).then_some(t)
}

// Whether C4 may have its value: it is one in uplink, either in downlink.
fn c4_coded(d: Direction, c4: bool) -> bool
    ensures { result ≡ c4_coded d c4 }
{
    match d {
        Direction::Uplink => c4,
        Direction::Downlink => true,
    }
}

// XC1..XC5 as a number, where XC1..XC6 (octet 2 bits 7, 8 and octet 3 bits 3..6) have an odd number of ones, as those of every coding have.
fn xc_number(w: Words) -> Option<u32>
    ensures { XcOf (bit_at (octets_in w)) result }
{
    let xc = 16 * w.field(14, 2) + w.field(18, 4);
    fields::odd_ones(xc).then_some(xc / 2)
}

// Whether XC1..XC6 of a speech frame are a coding: XC1..XC5 read as a number are 0..3 or 8..15 in uplink, 0 or 2 in downlink.
fn speech_xc(w: Words, d: Direction) -> bool
    ensures { result ≡ xc_coded (bit_at (octets_in w)) (speech_xc d) }
{
    match xc_number(w) {
        Some(v) => speech_number(d, v),
        None => false,
    }
}

// Whether a number of XC1..XC5 is one of speech.
fn speech_number(d: Direction, v: u32) -> bool
    requires { v < 32 }
    ensures { result ≡ elem v (speech_xc d) }
{
    match d {
        Direction::Uplink => v / 4 == 0 || v / 8 == 1,
        Direction::Downlink => v == 0 || v == 2,
    }
}

// Whether XC1..XC6 of an O&M frame are its coding: XC1..XC5 are ones.
fn om_xc(w: Words) -> bool
    ensures { result ≡ xc_coded (bit_at (octets_in w)) (31 ∷ []) }
{
    xc_number(w) == Some(31)
}

// The kind of the HR pattern whose coding holds: C1..C5 (octet 2 bits 2..6) by their parity, C4 by the direction, C1..C3 by type, then the XC bits.
fn hr_kind(w: Words, d: Direction) -> Option<Kind>
    ensures { Coded d (bit_at (octets_in w)) Hr result }
{
    let c = w.field(9, 5);
    if !fields::odd_ones(c) || !c4_coded(d, c / 2 % 2 == 1) {
        return None;
    }
    match c / 4 {
        0 => speech_xc(w, d).then_some(Kind::Speech),
        1 => Some(Kind::Data),
        2 => om_xc(w).then_some(Kind::Om),
        7 => Some(Kind::Configuration),
        _ => None,
    }
}

// The kind of the Low pattern whose coding holds: C4 C5 of 00 is kind 5, with C1..C3 of 100 or 101; otherwise kind 6. C1..C5 are octet 3 bits 2..6.
fn low_kind(w: Words) -> Option<Kind>
    ensures { (d : Way) → Coded d (bit_at (octets_in w)) Low result }
{
    let c = w.field(17, 5);
    if c % 4 != 0 {
        Some(Kind::Lower)
    } else {
        (c / 8 == 2).then_some(Kind::NoSpeech)
    }
}

// The kind of a frame, by fixed bits and coding. Only words are read here: where single octets are read too, the compiler no longer reads eight at once.
pub fn kind_of(o: [u8; 20], t: Terms) -> Option<Kind>
    ensures { KindOf t (bit_at o) result }
{
    let w = word::words_of(&o);
    match pattern_of(w)? {
        Pattern::Hr => hr_kind(w, t.direction),
        Pattern::Low => low_kind(w),
        Pattern::P670 => Some(Kind::Amr670),
        Pattern::P740 => Some(Kind::Amr740),
    }
}
