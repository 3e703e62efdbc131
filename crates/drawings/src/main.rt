// Draws the eight kinds of frame as the octets and bits of TS 48.061, clauses 5.2.1 to 5.2.3, from the tables that the code reads frames by.
#![tactic(auto)]

use std::io;
use text::Text;

// Draws and writes.
fn main(rt: HostRuntime) -> io::Result<()> {
    let mut buffer = [0u8; 8192];
    let mut text = Text::at(&mut buffer, 0);
    drawing::drawings(&mut text);
    rt.write_all(text.bytes())
}
