// The text of one line of the listing, put behind a text.
#![tactic(auto)]

ghost use Rattle.std.specs.Prelude.{◌∷◌, [], ◌+◌, ◌≤◌, length};
ghost use Rattle.text.specs.Text.{decimal_of, Put, Same};
ghost use Rattle.line.specs.Line.{spaced, refusal_line};

use text::Text;

// Puts a space and a number in decimal there.
fn put_number(text: &mut Text, n: u64)
    requires { text.old.end + 21 ≤ length text.old.bytes.now }
    ensures same { Same text.old.bytes text.new.bytes }
    ensures upper_bound { text.new.end ≤ text.old.end + 21 }
    ensures put { Put text.old.bytes.now text.old.end (32 ∷ decimal_of n) text.new.bytes.now text.new.end }
{
    text.put(b" ");
    text.put_decimal(n);
}

// Puts the line of a refusal there. (Of this and the next two the check finds each step; one function over a list of numbers would need an invariant.)
pub fn put_refusal(text: &mut Text, number: u64)
    requires { text.old.end + 86 ≤ length text.old.bytes.now }
    ensures same { Same text.old.bytes text.new.bytes }
    ensures put { Put text.old.bytes.now text.old.end (refusal_line number) text.new.bytes.now text.new.end }
{
    text.put(b"R");
    put_number(text, number);
    text.put(b"\n");
}

// Puts the line of a gap there.
pub fn put_gap(text: &mut Text, start: u64, span: u64)
    requires { text.old.end + 86 ≤ length text.old.bytes.now }
    ensures same { Same text.old.bytes text.new.bytes }
    ensures put { Put text.old.bytes.now text.old.end (71 ∷ spaced (start ∷ span ∷ [])) text.new.bytes.now text.new.end }
{
    text.put(b"G");
    put_number(text, start);
    put_number(text, span);
    text.put(b"\n");
}

// Puts the line of a frame there.
pub fn put_frame(text: &mut Text, kind: u8, start: u64, tail: u64, verdict: u8)
    requires { text.old.end + 86 ≤ length text.old.bytes.now }
    ensures same { Same text.old.bytes text.new.bytes }
    ensures put { Put text.old.bytes.now text.old.end (70 ∷ spaced (kind ∷ start ∷ tail ∷ verdict ∷ [])) text.new.bytes.now text.new.end }
{
    text.put(b"F");
    put_number(text, kind as u64);
    put_number(text, start);
    put_number(text, tail);
    put_number(text, verdict as u64);
    text.put(b"\n");
}
