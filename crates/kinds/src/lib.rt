// The table of kinds.
#![tactic(auto)]

ghost use Rattle.std.specs.Prelude.{◌≡◌};
ghost use Rattle.channel.specs.Kinds.{kind_no, body_of, least_tail};

use channel::{Direction, Kind};

// The number of a kind.
pub fn number(k: Kind) -> u8
    ensures { result ≡ kind_no k }
{
    k as u8
}

// How many bits the body of a kind has.
pub fn body(k: Kind) -> usize
    ensures { result ≡ body_of k }
{
    match k {
        Kind::Speech | Kind::Configuration | Kind::NoSpeech => 158,
        Kind::Data | Kind::Om | Kind::Lower => 159,
        Kind::Amr670 | Kind::Amr740 => 160,
    }
}

// How many ones must follow the body of a kind.
pub fn least_tail(d: Direction, k: Kind) -> usize
    ensures { result ≡ least_tail d k }
{
    match (d, k) {
        (_, Kind::Configuration) => 2, // T1 and T2, in downlink too (house)
        (_, Kind::Data | Kind::Om) => 1,
        (Direction::Uplink, Kind::Speech | Kind::NoSpeech) => 1,
        _ => 0,
    }
}
