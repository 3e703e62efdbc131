// The drawings of the eight kinds of frame as one text.
#![tactic(auto)]

ghost use Rattle.std.specs.Prelude.{◌+◌, ◌≤◌, length};
ghost use Rattle.text.specs.Text.{Put, Same};
ghost use Rattle.drawing.specs.Drawing.{heading_of, drawing_of, all_drawings};

use channel::{Direction, Kind};
use text::Text;

// Puts the heading of a kind behind a text: its title, its body and least tails, and the line of the bits' numbers.
fn put_heading(text: &mut Text, k: Kind, title: &[u8])
    requires { text.old.end + length title.now + 127 ≤ length text.old.bytes.now }
    ensures same { Same text.old.bytes text.new.bytes }
    ensures upper_bound { text.new.end ≤ text.old.end + length title.now + 127 }
    ensures put { Put text.old.bytes.now text.old.end (heading_of k title.now) text.new.bytes.now text.new.end }
{
    text.put(title);
    text.put_decimal(kinds::body(k) as u64);
    text.put(b", least tail ");
    text.put_decimal(kinds::least_tail(Direction::Uplink, k) as u64);
    text.put(b" up, ");
    text.put_decimal(kinds::least_tail(Direction::Downlink, k) as u64);
    text.put(b" down\n      1    2    3    4    5    6    7    8\n");
}

// Puts the drawing of a kind behind a text: its heading and its twenty octets.
fn draw(text: &mut Text, k: Kind, title: &[u8])
    requires { text.old.end + length title.now + 987 ≤ length text.old.bytes.now }
    ensures same { Same text.old.bytes text.new.bytes }
    ensures upper_bound { text.new.end ≤ text.old.end + length title.now + 987 }
    ensures put { Put text.old.bytes.now text.old.end (drawing_of k title.now) text.new.bytes.now text.new.end }
{
    put_heading(text, k, title);
    // The octet's number is what is drawn.
    for octet in 0..20 {
        names::put_octet(text, k, octet);
    }
}

// Puts the eight drawings behind a text, with an empty line between them. With a table and a loop their room would be an invariant on the sum of the titles'
// lengths; call by call it is found.
pub fn drawings(text: &mut Text)
    requires { text.old.end + 8192 ≤ length text.old.bytes.now }
    ensures same { Same text.old.bytes text.new.bytes }
    ensures put { Put text.old.bytes.now text.old.end all_drawings text.new.bytes.now text.new.end }
{
    draw(text, Kind::Speech, b"Kind 1, HR speech (5.2.1.1): body ");
    draw(text, Kind::Data, b"\nKind 2, data (5.2.2): body ");
    draw(text, Kind::Om, b"\nKind 3, O&M (5.2.3): body ");
    draw(
        text,
        Kind::Configuration,
        b"\nKind 4, configuration (5.2.1.3): body ",
    );
    draw(
        text,
        Kind::NoSpeech,
        b"\nKind 5, No_Speech (5.2.1.2.1): body ",
    );
    draw(
        text,
        Kind::Lower,
        b"\nKind 6, lower speech (5.2.1.2.1): body ",
    );
    draw(text, Kind::Amr670, b"\nKind 7, 6,70 (5.2.1.2.2): body ");
    draw(text, Kind::Amr740, b"\nKind 8, 7,40 (5.2.1.2.3): body ");
}
