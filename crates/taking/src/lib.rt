// Records taken one by one, up to the first that fails.
#![tactic(auto)]

ghost use Rattle.std.specs.Prelude.{◌≤◌, ◌<◌, length};
ghost use Rattle.call.specs.Call.{number_in};
ghost use Rattle.item.specs.Item.{cursor_of};
ghost use Rattle.taken.specs.Judged.{JudgedAs};
ghost use Rattle.taking.specs.Turn.{Turn};

use call::Refusal;
use channel::Terms;
use item::{Cursor, Frame, Item};
use masks::Masks;
use plans::Plans;

// What comes of records: whether one is refused and why, how many are taken before it, and the cursor moved on over them.
#[derive(Clone, Copy)]
pub struct Judged {
    pub outcome: Result<(), Refusal>,
    pub items: u64,
    pub cursor: Cursor,
}

// Takes the record in front of some bytes at a cursor, as that of a frame, or says why it is refused.
fn take(
    part: &[u8],
    t: Terms,
    c: Cursor,
    bits: usize,
    masks: &mut Masks,
    plans: &mut Plans,
) -> Result<Frame, Refusal>
    requires { 0 < length part.now }
    ensures { Turn t bits (cursor_of c) part.now result }
{
    let f = judge::frame_of(part, t, plans).ok_or(Refusal::Unsound)?;
    due::number(&f, t, c, bits, masks)?;
    Ok(f)
}

// Judges the records one by one, up to the first that fails.
pub fn judge_all(
    records: &[u8],
    t: Terms,
    c: Cursor,
    bits: usize,
    masks: &mut Masks,
    plans: &mut Plans,
) -> Judged
    requires { length records.now ≤ 65536 }
    ensures { JudgedAs t bits (cursor_of c) records.now (number_in result.outcome) result.items (cursor_of result.cursor) }
{
    let mut items: u64 = 0;
    let mut rest = records;
    let mut cursor = c;
    while !rest.is_empty() {
        match take(rest, t, cursor, bits, masks, plans) {
            Ok(f) => {
                cursor = cursor.over(&Item::Frame(f));
                rest = &rest[record::frame_size(f.kind)..];
                items += 1;
            }
            Err(why) => {
                return Judged {
                    outcome: Err(why),
                    items,
                    cursor,
                };
            }
        }
    }
    Judged {
        outcome: Ok(()),
        items,
        cursor,
    }
}
