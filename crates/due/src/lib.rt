// What refuses the frame of a sound record at a cursor: where it is not the one due there, or would end past the buffer.
#![tactic(auto)]

ghost use Rattle.std.specs.Prelude.{◌≡◌, ◌≤◌};
ghost use Rattle.item.specs.Item.{frame_of, cursor_of};
ghost use Rattle.call.specs.Call.{number_in};
ghost use Rattle.channel.specs.Sound.{sound_number};

use call::Refusal;
use channel::Terms;
use item::{Cursor, Frame};
use masks::Masks;

// Whether the frame of a sound record is taken on some terms, at a cursor and before the end of a buffer of some bits: refused where it is not the one due,
// and then where it has no room.
pub fn number(f: &Frame, t: Terms, c: Cursor, bits: usize, masks: &mut Masks) -> Result<(), Refusal>
    requires { (f.now.start ≤ 4294967295) × (f.now.tail ≤ 4294967295) }
    ensures { number_in result ≡ sound_number t bits (cursor_of c) (frame_of f.now) }
{
    if f.start != c.position {
        return Err(Refusal::NotDue);
    }
    let due = verdict::verdict_in(f.octets, f.kind, t, c.context, masks);
    if f.verdict != due || !allowed::allowed_in(f.kind, c.context, due) {
        return Err(Refusal::NotDue);
    }
    if bits < f.start + kinds::body(f.kind) + f.tail {
        return Err(Refusal::NoRoom);
    }
    Ok(())
}
