// Writing: records back to bits. All of them are judged before the first bit is put, so that a refusal leaves the buffer as it was.
#![tactic(auto)]

ghost use Rattle.writing.specs.Writing.{WriteCall};

use call::{Answer, CursorNumbers, WriteRequest};
use dplaces::PlaceTable;
use item::Cursor;

// Records back to bits, from the cursor's position on: body and tail bits are put, other bits keep their value; items and the cursor after.
pub fn write(
    records: &[u8],
    r: WriteRequest,
    table: Option<PlaceTable>,
    buffer: &mut [u8],
) -> Answer
    ensures { WriteCall records.now r buffer.old result buffer.new }
{
    if let Err(why) = refusal::write(records.len(), r, buffer.len()) {
        return why.answer(0, r.cursor);
    }
    // A cursor that does not fit is refused by now; a `From` could not ask for that.
    let cursor = Cursor {
        position: r.cursor.position as usize,
        context: r.cursor.context as u8,
    };
    let mut masks = masks::no_masks();
    let mut plans = plans::no_plans(table);
    let judged = taking::judge_all(
        records,
        call::terms_of(r.terms),
        cursor,
        8 * buffer.len(),
        &mut masks,
        &mut plans,
    );
    if let Err(why) = judged.outcome {
        return why.answer(judged.items, r.cursor);
    }
    putting::put_all(records, &mut plans, buffer);
    let moved = CursorNumbers {
        position: judged.cursor.position as u64,
        context: judged.cursor.context as u64,
    };
    call::answered(judged.items, 0, moved)
}
