// A capture as the code has it.
#![tactic(auto)]

ghost use Rattle.std.specs.Prelude.{◌*◌, ◌≤◌, length};

use channel::Terms;

// A capture: its bytes, 65,536 at most, how many bits of them are read, and what is agreed of it.
#[derive(Clone, Copy)]
pub struct Capture<'a> {
    pub bytes: &'a [u8],
    pub bits: usize,
    pub terms: Terms,
    pub ghost within: { bits ≤ 8 * length bytes.now },
    pub ghost short: { length bytes.now ≤ 65536 },
}
