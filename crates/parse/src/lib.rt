// The frame of a record, taken from the record's bytes: kind, octets, start, tail and verdict by what they say; none where the record is unsound.
#![tactic(auto)]

ghost use Rattle.std.specs.Prelude.{◌≡◌, ◌<◌, length};
ghost use Rattle.plans.specs.Made.{StillMade};
ghost use Rattle.parse.specs.Parsed.{kind_by, RecordBy, PlanFor};

use channel::Kind;
use item::Frame;
use plans::Plans;

// The kind by its number, or none. (As a `TryFrom` it would stand with the enum, away from the records that have these numbers, and with an error that nobody
// reads.)
fn kind_by(number: u8) -> Option<Kind>
    ensures { result ≡ kind_by number }
{
    match number {
        1 => Some(Kind::Speech),
        2 => Some(Kind::Data),
        3 => Some(Kind::Om),
        4 => Some(Kind::Configuration),
        5 => Some(Kind::NoSpeech),
        6 => Some(Kind::Lower),
        7 => Some(Kind::Amr670),
        8 => Some(Kind::Amr740),
        _ => None,
    }
}

// The frame whose record is in front of some bytes, by what they say: none where the kind is unknown or the record is cut short; else the frame of that
// record if it is sound at all. The plan of its kind is made where it is not made yet.
pub fn record_by(part: &[u8], plans: &mut Plans) -> Option<Frame>
    requires { 0 < length part.now }
    ensures { RecordBy part.now result × PlanFor result plans.new × StillMade plans.old plans.new }
{
    let kind = kind_by(part[0])?;
    if part.len() < record::frame_size(kind) {
        return None;
    }
    let octets = octets::octets_by(part, plans.of(kind));
    let start = numbers::number_at(part, 1) as usize;
    let tail = numbers::number_at(part, 5) as usize;
    Some(Frame {
        kind,
        octets,
        start,
        tail,
        verdict: part[11],
    })
}
