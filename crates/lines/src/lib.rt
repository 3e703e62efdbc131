// The lines of a page: its records taken apart, one after the other, and the line of each put behind a text.
#![tactic(auto)]

ghost use Rattle.std.specs.Prelude.{◌≡◌, ◌+◌, ◌≤◌, ◌<◌, length, get_or};
ghost use Rattle.text.specs.Text.{Same};
ghost use Rattle.lines.specs.Lines.{sizes, Recorded, Lined, Records, AllLined};

use text::Text;

// The sizes of records by their kinds, a gap first.
// Crate `record` has them by a frame's kind; here a byte is given, and `parse` makes a kind of one for itself alone.
const SIZES: [usize; 9] = [9, 26, 28, 27, 28, 28, 28, 30, 31];

// The size of a record by its first byte, the kind.
fn size(kind: u8) -> usize
    requires { kind < 9 }
    ensures { result ≡ get_or sizes kind 0 }
{
    SIZES[kind as usize]
}

// Puts the line of the item that a record is of behind a text.
fn put_line(text: &mut Text, bytes: &[u8])
    requires { Recorded bytes.now × (text.old.end + 86 ≤ length text.old.bytes.now) }
    ensures same { Same text.old.bytes text.new.bytes }
    ensures lined { Lined bytes.now text.old.bytes.now text.old.end text.new.bytes.now text.new.end }
{
    let kind = bytes[0];
    let start = numbers::number_at(bytes, 1);
    let span = numbers::number_at(bytes, 5);
    if kind == 0 {
        return line::put_gap(text, start, span);
    }
    let verdict = bytes[11];
    line::put_frame(text, kind, start, span, verdict);
}

// Puts the line of each record of a page, in order, behind a text.
pub fn put_lines(text: &mut Text, page: &[u8])
    requires { Records page.now text.old.end (length text.old.bytes.now) }
    ensures same { Same text.old.bytes text.new.bytes }
    ensures lined { AllLined page.now text.old.bytes.now text.old.end text.new.bytes.now text.new.end }
{
    let mut rest = page;
    while let Some(kind) = rest.first() {
        let (record, more) = rest.split_at(size(*kind));
        put_line(text, record);
        rest = more;
    }
}
