// The bits of frames put, by their records, all of which are taken.
#![tactic(auto)]

ghost use Rattle.std.specs.Prelude.{◌≡◌, ◌*◌, ◌≤◌, length};
ghost use Rattle.bits.specs.Put.{put_bits};
ghost use Rattle.channel.specs.Frames.{behind};
ghost use Rattle.item.specs.Item.{frame_of};
ghost use Rattle.taken.specs.Judged.{AllTaken};
ghost use Rattle.putting.specs.FrameBits.{bits_of};
ghost use Rattle.putting.specs.Putting.{PutAs};

use item::Frame;
use plans::Plans;

// Puts the bits of a frame where it starts: its body, then the ones of its tail.
fn put_frame(buffer: &mut [u8], f: &Frame)
    requires { (behind (frame_of f.now) ≤ 8 * length buffer.old) × (length buffer.old ≤ 65536) }
    ensures { buffer.new ≡ put_bits buffer.old f.now.start (bits_of (frame_of f.now)) }
{
    let body = kinds::body(f.kind);
    lay::body(buffer, f.start, f.octets, body);
    ones::tail(buffer, f.start + body, f.tail);
}

// Puts the bits of every frame whose record is among those judged, all of which are taken.
pub fn put_all(records: &[u8], plans: &mut Plans, buffer: &mut [u8])
    requires { AllTaken (8 * length buffer.old) records.now × (length records.now ≤ 65536) × (length buffer.old ≤ 65536) }
    ensures { PutAs records.now buffer.old buffer.new }
{
    let mut rest = records;
    while !rest.is_empty() {
        let Some(f) = parse::record_by(rest, plans) else {
            return; // none is unsound
        };
        put_frame(buffer, &f);
        rest = &rest[record::frame_size(f.kind)..];
    }
}
