// Paging: the longest leading part of the reading from a cursor that keeps to a count and fits a lent buffer.
#![tactic(auto)]

ghost use Rattle.std.specs.Prelude.{◌≡◌, ◌&&◌, eqb, ltb};
ghost use Rattle.item.specs.Item.{cursor_of};
ghost use Rattle.paging.specs.Paging.{PageCall};
ghost use Rattle.paging.specs.Answered.{answer_of};

use call::{Answer, CursorNumbers, PageRequest, Refusal};
use capture::Capture;
use dplaces::PlaceTable;
use filling::Counted;
use item::Cursor;

// Number 4: an item is left and none was taken, for then the first does not fit.
fn first_left(r: PageRequest, items: u64) -> bool
    ensures { result ≡ eqb items 0 && ltb r.cursor.position r.n }
{
    items == 0 && r.cursor.position < r.n
}

// What is answered of a page.
fn answer(r: PageRequest, page: Counted) -> Answer
    ensures { result ≡ answer_of r page.items page.bytes (cursor_of page.cursor) }
{
    if first_left(r, page.items) {
        return Refusal::NoRoom.answer(0, r.cursor);
    }
    let cursor = page.cursor;
    let moved = CursorNumbers {
        position: cursor.position as u64,
        context: cursor.context as u64,
    };
    call::answered(page.items, page.bytes as u64, moved)
}

// A page of records from a cursor: the longest leading part of the reading that keeps to the count and fits the buffer; items, bytes, and the cursor
// moved on.
pub fn page(capture: &[u8], r: PageRequest, table: Option<PlaceTable>, buffer: &mut [u8]) -> Answer
    ensures { PageCall capture.now r buffer.old result buffer.new }
{
    if let Err(why) = refusal::page(capture.len(), r) {
        return why.answer(0, r.cursor);
    }
    let cursor = r.cursor;
    // A cursor that does not fit is refused by now; a `From` could not ask for that.
    let c = Cursor {
        position: cursor.position as usize,
        context: cursor.context as u8,
    };
    let asked = Capture {
        bytes: capture,
        bits: r.n as usize,
        terms: call::terms_of(r.terms),
    };
    let page = filling::fill(&asked, c, r.most, table, buffer);
    answer(r, page)
}
