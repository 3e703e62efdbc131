// The twenty octets of a frame, built from the bytes of its record: fixed bits, then control, extended and D bits at their places, then the parities.
#![tactic(auto)]

ghost use Rattle.std.specs.Prelude.{◌≡◌, ◌+◌, ◌≤◌, ◌<◌, length, get_or, drop};
ghost use Rattle.bits.specs.Bit.{bit_at};
ghost use Rattle.fields.specs.Below.{Below};
ghost use Rattle.scatter.specs.Scatter.{put_places};
ghost use Rattle.channel.specs.Kinds.{pattern_of};
ghost use Rattle.channel.specs.Control.{control_places};
ghost use Rattle.channel.specs.Record.{d_length};
ghost use Rattle.octets.specs.Built.{fixed_octets, extended_places, with_parity, with_c5, with_xc6, with_parities, octets_by};

use channel::Kind;
use coding::places;
use plans::Plan;

// The fixed bits of a kind's pattern, every other bit zero.
fn fixed(k: Kind) -> [u8; 20]
    ensures { result ≡ fixed_octets (pattern_of k) }
{
    match k {
        Kind::Speech | Kind::Data | Kind::Om | Kind::Configuration => places::HR_FIXED,
        Kind::NoSpeech | Kind::Lower => places::LOW_FIXED,
        Kind::Amr670 => places::P670_FIXED,
        Kind::Amr740 => places::P740_FIXED,
    }
}

// The bits of a control byte at their places.
fn with_control(o: [u8; 20], k: Kind, control: &[u8]) -> [u8; 20]
    requires { 1 ≤ length control.now }
    ensures { result ≡ put_places o (control_places k) (bit_at control.now) 0 }
{
    match k {
        Kind::Speech => scatter::at_places(o, &places::SPEECH_CONTROL, control),
        Kind::Data | Kind::Om | Kind::Configuration => scatter::at_places(
            o,
            &places::HR_CONTROL,
            control,
        ),
        Kind::NoSpeech | Kind::Lower => scatter::at_places(o, &places::LOW_C, control),
        Kind::Amr670 | Kind::Amr740 => scatter::at_places(o, &places::AMR_C, control),
    }
}

// The bits of an extended byte at their places.
#[tactic(auto, unfolding(scatter::specs::Scatter::put_places))]
fn with_extended(o: [u8; 20], k: Kind, extended: &[u8]) -> [u8; 20]
    requires { 1 ≤ length extended.now }
    ensures { result ≡ put_places o (extended_places k) (bit_at extended.now) 0 }
{
    match k {
        Kind::Speech => scatter::at_places(o, &places::SPEECH_EXTENDED, extended),
        Kind::Om => scatter::at_places(o, &places::XC1_TO_5, extended),
        Kind::Data
        | Kind::Configuration
        | Kind::NoSpeech
        | Kind::Lower
        | Kind::Amr670
        | Kind::Amr740 => o,
    }
}

// The parity of the bits at some places, by the count of ones, at a place of its own.
fn with_parity(mut o: [u8; 20], places: &[u8], p: usize) -> [u8; 20]
    requires { Below 160 places.now × (length places.now ≤ 8) × (p < 160) }
    ensures { result ≡ with_parity places.now p o }
{
    let odd = fields::odd_ones(fields::packed(&o, places));
    put::put_bit(&mut o, p, !odd);
    o
}

// C5, of C1..C4.
fn with_c5(o: [u8; 20]) -> [u8; 20]
    ensures { result ≡ with_c5 o }
{
    with_parity(o, &places::HR_CONTROL, 13)
}

// XC6, of XC1..XC5.
fn with_xc6(o: [u8; 20]) -> [u8; 20]
    ensures { result ≡ with_xc6 o }
{
    with_parity(o, &places::XC1_TO_5, 21)
}

// The parities of a kind.
fn with_parities(o: [u8; 20], k: Kind) -> [u8; 20]
    ensures { result ≡ with_parities k o }
{
    match k {
        Kind::Speech | Kind::Om => with_xc6(with_c5(o)),
        Kind::Data | Kind::Configuration => with_c5(o),
        Kind::NoSpeech | Kind::Lower | Kind::Amr670 | Kind::Amr740 => o,
    }
}

// The octets of a frame of the plan's kind, by the bytes of its record. The parts of the record are taken by their offsets: a pattern over its twelve bytes in
// front would name ten that are not used here.
pub fn octets_by(part: &[u8], plan: &Plan) -> [u8; 20]
    requires { 12 + d_length plan.now.kind ≤ length part.now }
    ensures { result ≡ octets_by plan.now.kind (get_or part.now 9 0) (get_or part.now 10 0) (drop 12 part.now) }
{
    let k = plan.kind;
    let fixed = fixed(k);
    let coded = with_control(fixed, k, &part[9..10]);
    let extended = with_extended(coded, k, &part[10..11]);
    let full = dput::with_d(extended, &part[12..], plan);
    with_parities(full, k)
}
