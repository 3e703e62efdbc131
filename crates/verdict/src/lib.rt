// The verdict byte of a frame in a context, and the context that the frame leaves.
#![tactic(auto)]

ghost use Rattle.std.specs.Prelude.{◌≡◌, ℕ, ◌+◌, ◌*◌, ◌<◌, eqb};
ghost use Rattle.bits.specs.Bit.{bit_at, to_n};
ghost use Rattle.channel.specs.declared.Kind.TheVariants.{NoSpeech, Lower};
ghost use Rattle.channel.specs.Checks.{checks_lower};
ghost use Rattle.channel.specs.Verdict.{own_mode, context_mode, mode_of, class_of, wrongs, verdict_of, after_of};
ghost use Rattle.word.specs.Words.{octets_in};
ghost use Rattle.verdict.specs.Mode.{mode_number};

use channel::{Kind, Terms};
use masks::{CoveredList, Masks};
use word::Words;

// The verdict of a frame whose CRCs are not looked at.
const UNCHECKED: u8 = 128;

// The modes of kind 6.
#[derive(Clone, Copy)]
enum Mode {
    M475 = 1,
    M515 = 2,
    M590 = 3,
}

// A mode's number, or 0 for none.
fn number(mode: Option<Mode>) -> u8
    ensures { result ≡ mode_number mode }
{
    mode.map_or(0, |known| known as u8)
}

// The mode that a kind 6's own C1..C3 name.
fn own_mode(w: Words) -> Option<Mode>
    ensures { mode_number result ≡ own_mode (bit_at (octets_in w)) }
{
    match w.field(17, 3) {
        0 => Some(Mode::M475),
        1 => Some(Mode::M515),
        2 => Some(Mode::M590),
        _ => None,
    }
}

// The mode that a context holds.
fn context_mode(x: u8) -> Option<Mode>
    ensures { mode_number result ≡ context_mode x }
{
    match x {
        3 => Some(Mode::M475),
        4 => Some(Mode::M515),
        5 => Some(Mode::M590),
        _ => None,
    }
}

// The mode that a kind 6 is checked by in a context: its own, else the context's.
fn mode_in(w: Words, x: u8) -> Option<Mode>
    ensures { mode_number result ≡ mode_of x (bit_at (octets_in w)) Lower }
{
    own_mode(w).or(context_mode(x))
}

// The verdict of a kind 6 in a mode, or without one.
fn lower_verdict(w: Words, mode: Option<Mode>, masks: &mut Masks) -> u8
    ensures { result ≡ 128 * to_n (eqb (mode_number mode) 0) + 16 * mode_number mode + wrongs (bit_at (octets_in w)) (checks_lower (mode_number mode)) }
{
    match mode {
        Some(Mode::M475) => 16 + wrongs::four_wrongs(w, masks, &masks::LOWER_475),
        Some(Mode::M515) => 32 + wrongs::four_wrongs(w, masks, &masks::LOWER_515),
        Some(Mode::M590) => 48 + wrongs::one_wrong(w, masks, CoveredList::Lower590),
        None => UNCHECKED,
    }
}

// The class of a kind 5: D8 and D9, and behind two fixed bits D10.
fn class_of(w: Words) -> u32
    ensures { (result < 8) × (result ≡ class_of (bit_at (octets_in w))) }
{
    2 * w.field(22, 2) + w.field(26, 1)
}

// The verdict of a kind 5 by the profile: its CRC1 is looked at where its class carries one.
fn silence_verdict(w: Words, t: Terms, masks: &mut Masks) -> u8
    ensures { (x : ℕ) → result ≡ verdict_of t x (bit_at (octets_in w)) NoSpeech }
{
    let profile = t.profile;
    let class = class_of(w);
    if (profile >> class) % 2 == 0 {
        UNCHECKED
    } else {
        wrongs::one_wrong(w, masks, CoveredList::NoSpeech)
    }
}

// The verdict byte of a frame on some terms in a context, by the masks of the covered lists.
pub fn verdict_in(o: [u8; 20], k: Kind, t: Terms, x: u8, masks: &mut Masks) -> u8
    ensures { result ≡ verdict_of t x (bit_at o) k }
{
    let w = word::words_of(&o);
    match k {
        Kind::Speech => wrongs::one_wrong(w, masks, CoveredList::Speech),
        Kind::Data | Kind::Om | Kind::Configuration => 0,
        Kind::NoSpeech => silence_verdict(w, t, masks),
        Kind::Lower => lower_verdict(w, mode_in(w, x), masks),
        Kind::Amr670 => wrongs::one_wrong(w, masks, CoveredList::Amr670),
        Kind::Amr740 => wrongs::one_wrong(w, masks, CoveredList::Amr740),
    }
}

// The context that a frame leaves where it stood in context x: a kind 6 leaves the mode that its own C bits name, never one that it took from x.
pub fn after(o: [u8; 20], k: Kind, x: u8) -> u8
    ensures { result ≡ after_of x (bit_at o) k }
{
    match k {
        Kind::Speech | Kind::Data | Kind::Om | Kind::Configuration => 1,
        Kind::NoSpeech | Kind::Amr670 | Kind::Amr740 => 2,
        Kind::Lower => {
            let own = own_mode(word::words_of(&o));
            2 + number(own)
        }
    }
}
