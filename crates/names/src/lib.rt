// The names of a frame's bits as text, and the line of an octet.
#![tactic(auto)]

ghost use Rattle.std.specs.Prelude.{◌≡◌, ◌+◌, ◌≤◌, ◌<◌, length};
ghost use Rattle.text.specs.Text.{Put, Same};
ghost use Rattle.names.specs.Names.{lettered_of, name_of, octet_of};

use cells::Cell;
use channel::Kind;
use text::{Text, digit};

// Two letters and a number below 1,000, flush right in five columns.
#[tactic(auto, unfolding(crate::specs::Names::lettered_of))]
fn lettered(first: u8, second: u8, n: usize) -> [u8; 5]
    ensures { result ≡ lettered_of first second n }
{
    let number = n as u64;
    if n < 10 {
        return [b' ', b' ', first, second, digit(number)];
    }
    if n < 100 {
        return [b' ', first, second, digit(number / 10), digit(number)];
    }
    [
        first,
        second,
        digit(number / 100),
        digit(number / 10),
        digit(number),
    ]
}

// What a bit is called, flush right in five columns, or a dash for a bit that nothing names.
#[tactic(auto, unfolding(crate::specs::Names::name_of))]
fn name(c: Option<Cell>) -> [u8; 5]
    ensures { result ≡ name_of c }
{
    let Some(c) = c else {
        return *b"    -";
    };
    match c {
        Cell::Zero => *b"    0",
        Cell::One => *b"    1",
        Cell::C(n) => lettered(b' ', b'C', n),
        Cell::Xc(n) => lettered(b'X', b'C', n),
        Cell::Crc(n) => [b' ', b'C', b'R', b'C', digit(n as u64)],
        Cell::D(n) => lettered(b' ', b'D', n),
        Cell::Prime(n) => lettered(b'D', b'\'', n),
        Cell::T(n) => lettered(b' ', b'T', n),
        Cell::Tail => *b"    T",
    }
}

// Puts the line of an octet of a kind behind a text: the octet's number in two columns, and what its eight bits are called.
pub fn put_octet(text: &mut Text, k: Kind, octet: u8)
    requires { (octet < 20) × (text.old.end + 43 ≤ length text.old.bytes.now) }
    ensures same { Same text.old.bytes text.new.bytes }
    ensures put { Put text.old.bytes.now text.old.end (octet_of k octet) text.new.bytes.now text.new.end }
{
    let number = lettered(b' ', b' ', octet as usize + 1);
    text.put(&number[3..]);
    // The bit's number is what is named.
    for i in 0..8 {
        text.put(&name(cells::cell_at(k, 8 * octet + i)));
    }
    text.put(b"\n");
}
