// The place of a D bit worked out from its number (document 02, Ask 4), which the table of D places would give too.
#![tactic(auto)]

ghost use Rattle.std.specs.Prelude.{◌≡◌, ◌++◌, ◌*◌, ◌<◌, ◌≤◌, drop, replicate};
ghost use Rattle.channel.specs.declared.Kind.{Kind};
ghost use Rattle.channel.specs.Kinds.{d_count};
ghost use Rattle.channel.specs.Places.{d_place};
ghost use Rattle.placing.specs.Eight.{size_of, eight_of};

use channel::Kind;

// Kind 1 (5.2.1.1): D1 stands behind XC6 in octet 3, and seven D bits behind bit 1 of each octet from 4 on, but for octet 10, which has the CRC too.
fn speech_place(d: usize) -> usize
    requires { (1 ≤ d) × (d ≤ 112) }
    ensures { result ≡ d_place Kind.Speech d }
{
    if d < 45 {
        d + 21 + (d + 4) / 7
    } else {
        d + 25 + d / 7
    }
}

// Kind 3 (5.2.3): as in kind 1, without a CRC.
fn om_place(d: usize) -> usize
    requires { (1 ≤ d) × (d ≤ 120) }
    ensures { result ≡ d_place Kind.Om d }
{
    d + 21 + (d + 4) / 7
}

// Kinds 2 (5.2.2) and 4 (5.2.1.3): D1 and D2 stand behind C5 in octet 2, D3 behind 01 in octet 3, and seven D bits behind bit 1 of each octet from 4 on.
fn data_place(d: usize) -> usize
    requires { (1 ≤ d) × (d ≤ 126) }
    ensures { result ≡ d_place Kind.Data d }
{
    if d < 3 { d + 13 } else { d + 15 + (d - 2) / 7 }
}

// Kinds 5 and 6 (5.2.1.2.1): D1 stands behind bit 1 of octet 2, D8 behind C5 in octet 3, D10 behind 01 in octet 4, and seven D bits behind bit 1 of each octet
// from 5 on.
fn low_place(d: usize) -> usize
    requires { (1 ≤ d) × (d ≤ 126) }
    ensures { result ≡ d_place Kind.Lower d }
{
    if d < 8 {
        d + 8
    } else if d < 10 {
        d + 14
    } else {
        d + 16 + (d - 9) / 7
    }
}

// Kind 7 (5.2.1.2.2): D1 stands behind bit 1 of octet 2, D8 behind C3 in octet 3, seven D bits from D12 on behind bit 1 of each of octets 4 to 6, and fifteen
// behind bit 1 of each odd octet from 7 on.
fn place_670(d: usize) -> usize
    requires { (1 ≤ d) × (d ≤ 137) }
    ensures { result ≡ d_place Kind.Amr670 d }
{
    if d < 8 {
        d + 8
    } else if d < 12 {
        d + 12
    } else if d < 33 {
        d + 13 + (d - 12) / 7
    } else {
        d + 16 + (d - 33) / 15
    }
}

// Kind 8 (5.2.1.2.3): D1 stands behind 001 in octet 1, D6 behind bit 1 of octet 2, D13 behind C3 in octet 3, and all from D17 on behind bit 1 of octet 4.
fn place_740(d: usize) -> usize
    requires { (1 ≤ d) × (d ≤ 151) }
    ensures { result ≡ d_place Kind.Amr740 d }
{
    if d < 6 {
        d + 2
    } else if d < 13 {
        d + 3
    } else if d < 17 {
        d + 7
    } else {
        d + 8
    }
}

// The place of D bit d of a kind.
fn place_of(k: Kind, d: usize) -> usize
    requires { (1 ≤ d) × (d ≤ d_count k) }
    ensures { result ≡ d_place k d }
{
    match k {
        Kind::Speech => speech_place(d),
        Kind::Data | Kind::Configuration => data_place(d),
        Kind::Om => om_place(d),
        Kind::NoSpeech | Kind::Lower => low_place(d),
        Kind::Amr670 => place_670(d),
        Kind::Amr740 => place_740(d),
    }
}

// The place of D bit d of a kind, as the table holds it.
pub fn place(k: Kind, d: usize) -> u8
    requires { (1 ≤ d) × (d ≤ d_count k) }
    ensures { result ≡ d_place k d }
{
    place_of(k, d) as u8
}

// How many D bits byte j of a kind has: eight, but for the last byte. (Whoever takes k and j asks that the kind has that byte: a type of both would be built
// anew in each turn of the loops over j, by the same proof.)
pub fn size(k: Kind, j: usize) -> usize
    requires { 8 * j < d_count k }
    ensures { result ≡ size_of k j }
{
    (dplaces::d_count(k) - 8 * j).min(8)
}

// The places of the D bits of byte j of a kind; zeros behind them.
pub fn eight(k: Kind, j: usize) -> [u8; 8]
    requires { 8 * j < d_count k }
    ensures { result ≡ eight_of k j ++ drop (size_of k j) (replicate 8 0) }
{
    let mut out = [0u8; 8];
    for (i, at) in out[..size(k, j)].iter_mut().enumerate() {
        *at = place(k, 8 * j + i + 1);
    }
    out
}
