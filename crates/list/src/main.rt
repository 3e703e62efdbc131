// Lists the items of a capture: standard input is one byte of direction, then the capture, of which every bit counts.
#![tactic(auto)]

ghost use Rattle.std.specs.Prelude.{◌≤◌, IfOk, length};

use std::io;
use std::io::Read;
use text::Text;

// Reads until the buffer is full or the input ends, and answers how many bytes were read. Of std's methods `read_exact` refuses a short input, and
// `read_to_end` allocates.
fn read_full<R: Read>(reader: &mut R, input: &mut [u8]) -> io::Result<usize>
    ensures { IfOk result (λ got. got ≤ length input.new) }
{
    let mut got: usize = 0;
    while got < input.len() {
        let more = reader.read(&mut input[got..])?;
        if more == 0 {
            break;
        }
        got += more;
    }
    Ok(got)
}

// Reads, lists and writes. One byte more than a capture may have is read, for then paging itself refuses a capture that is too long.
fn main(rt: HostRuntime) -> io::Result<()> {
    let mut input = [0u8; 65538];
    let got = read_full(&mut rt.stdin(), &mut input)?;
    let mut buffer = [0u8; 524544];
    let mut text = Text::at(&mut buffer, 0);
    listing::listing(&input[..got], &mut text);
    rt.write_all(text.bytes())
}
