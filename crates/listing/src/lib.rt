// The listing of some input as one text, put together page by page.
#![tactic(auto)]

ghost use Rattle.std.specs.Prelude.{◌+◌, ◌≤◌, length};
ghost use Rattle.text.specs.Text.{Same};
ghost use Rattle.listing.specs.Listing.{Text, Listing, Listed};

use call::{CursorNumbers, PageRequest, Refusal, TermNumbers};

// Puts a line for each item of a capture behind a text, asking for each page with the cursor that the last answered, or the line of the refusal alone. There is
// room for as many bytes as a capture may have bits, and 256 more: that is enough for every reading. A refusal is that of the first page, so the text is still as
// it was when the line of one is put. (No count ends the loop: each request needs the cursor last answered.)
fn list(capture: &[u8], direction: u8, text: &mut text::Text)
    requires { (length capture.now ≤ 65538) × (text.old.end + 524544 ≤ length text.old.bytes.now) }
    ensures same { Same text.old.bytes text.new.bytes }
    ensures listed { Listed (Text capture.now direction) text.old.bytes.now text.old.end text.new.bytes.now text.new.end }
{
    let n = 8 * capture.len() as u64;
    let table = Some(dplaces::table());
    let mut buffer = [0u8; 4096];
    let mut cursor = CursorNumbers {
        position: 0,
        context: 0,
    };
    let begins = text.len();
    loop {
        let answer = paging::page(
            capture,
            PageRequest {
                n: n,
                terms: TermNumbers {
                    direction: direction as u64,
                    profile: 0,
                },
                cursor: cursor,
                most: 4096,
            },
            table,
            &mut buffer,
        );
        if answer.number != 0 {
            text.truncate(begins);
            return line::put_refusal(text, answer.number);
        }
        lines::put_lines(text, &buffer[..answer.bytes as usize]);
        if n <= answer.position {
            return;
        }
        cursor = answer.next();
    }
}

// Puts the listing of some input, one byte of direction and then the capture, behind a text. Input without a direction byte is refused with 1, as a direction
// above 1 is.
pub fn listing(input: &[u8], text: &mut text::Text)
    requires { (length input.now ≤ 65538) × (text.old.end + 524544 ≤ length text.old.bytes.now) }
    ensures same { Same text.old.bytes text.new.bytes }
    ensures listed { Listed (Listing input.now) text.old.bytes.now text.old.end text.new.bytes.now text.new.end }
{
    match input {
        [] => line::put_refusal(text, Refusal::NotARequest.number()),
        [direction, capture @ ..] => list(capture, *direction, text),
    }
}
