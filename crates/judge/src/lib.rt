// A record judged: the frame that it is the sound record of, or none where it is unsound.
#![tactic(auto)]

ghost use Rattle.std.specs.Prelude.{◌≡◌, ◌<◌, ◌≤◌, length, Some, IfSome};
ghost use Rattle.reading.specs.Reading.{frame};
ghost use Rattle.bits.specs.Bit.{bit_at};
ghost use Rattle.channel.specs.Coding.{is_body};
ghost use Rattle.item.specs.Item.{frame_of};
ghost use Rattle.channel.specs.Record.{record_of};
ghost use Rattle.parse.specs.Parsed.{RecordBy};
ghost use Rattle.judge.specs.Judged.{BeginsWith, SoundBy, Judged};

use channel::{Kind, Terms};
use item::Frame;
use plans::Plans;

// Whether fixed bits and coding of a kind hold.
fn is_kind(o: [u8; 20], t: Terms, k: Kind) -> bool
    ensures { result ≡ is_body t.direction (bit_at o) k }
{
    coding::kind_of(o, t) == Some(k)
}

// Whether the bytes begin with the record of a frame, which is put anew and compared: so no bit is set that must be zero.
fn is_record(part: &[u8], f: &Frame, plans: &mut Plans) -> bool
    ensures { BeginsWith (record_of (frame (frame_of f.now))) part.now result }
{
    let mut anew = [0u8; 31];
    record::put_frame(&mut anew, f, plans.of(f.kind));
    part.starts_with(&anew[..record::frame_size(f.kind)])
}

// Whether the record of a frame is sound: fixed bits and coding, the least tail, and the bytes that the record of that frame has.
fn sound(part: &[u8], t: Terms, f: &Frame, plans: &mut Plans) -> bool
    requires { RecordBy part.now (Some f.now) }
    ensures { SoundBy t part.now (frame_of f.now) result }
{
    is_kind(f.octets, t, f.kind)
        && kinds::least_tail(t.direction, f.kind) <= f.tail
        && is_record(part, f, plans)
}

// The record in front of some bytes, judged: the frame that it is the sound record of, or none.
pub fn frame_of(part: &[u8], t: Terms, plans: &mut Plans) -> Option<Frame>
    requires { 0 < length part.now }
    ensures { Judged t part.now result × IfSome result (λ f. (f.start ≤ 4294967295) × (f.tail ≤ 4294967295)) }
{
    let f = parse::record_by(part, plans)?;
    if sound(part, t, &f, plans) {
        Some(f)
    } else {
        None
    }
}
