// Filling: records from a cursor on into a lent buffer, as many as are asked for, as are there and as fit.
#![tactic(auto)]

ghost use Rattle.std.specs.Prelude.{◌≤◌};
ghost use Rattle.reading.specs.Paging.{Filled};
ghost use Rattle.channel.specs.Frames.{rules};
ghost use Rattle.channel.specs.Record.{record_of};
ghost use Rattle.item.specs.Item.{cursor_of};
ghost use Rattle.capture.specs.Capture.{capture_of};

use capture::Capture;
use dplaces::PlaceTable;
use item::Cursor;

// The items and bytes of a page, and the cursor moved on over them.
#[derive(Clone, Copy)]
pub struct Counted {
    pub items: u64,
    pub bytes: usize,
    pub cursor: Cursor,
}

// Fills the buffer with records from the cursor on, each lent the part that begins where the last ended. What the records need besides is made here, for the
// whole page: as each first frame comes, the plan of its kind and the masks of its CRCs.
pub fn fill(
    capture: &Capture<'_>,
    c: Cursor,
    most: u64,
    table: Option<PlaceTable>,
    buffer: &mut [u8],
) -> Counted
    requires { c.position ≤ capture.now.bits }
    ensures { Filled rules record_of (capture_of capture.now) (cursor_of c) most buffer.old buffer.new result.items result.bytes (cursor_of result.cursor) }
{
    let mut page = Counted {
        items: 0,
        bytes: 0,
        cursor: c,
    };
    let mut plans = plans::no_plans(table);
    let mut masks = masks::no_masks();
    while page.items < most && page.cursor.position < capture.bits {
        let i = reader::item_at(capture, page.cursor, &mut masks);
        let size = record::size(&i);
        if buffer.len() - page.bytes < size {
            return page;
        }
        record::ready(&mut plans, &i);
        record::put(&mut buffer[page.bytes..], &i, &plans);
        page = Counted {
            items: page.items + 1,
            bytes: page.bytes + size,
            cursor: page.cursor.over(&i),
        };
    }
    page
}
