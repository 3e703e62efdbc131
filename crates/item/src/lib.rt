// An item as the code has it, and the cursor that moves over it.
#![tactic(auto)]

ghost use Rattle.std.specs.Prelude.{◌≡◌, ◌≤◌};
ghost use Rattle.reading.specs.Reading.{over};
ghost use Rattle.channel.specs.Frames.{rules};
ghost use Rattle.item.specs.Item.{start_of, span_of, item_of, cursor_of};

use channel::Kind;

// A frame: its kind, its first bits, where it starts, the length of its tail, its verdict.
#[derive(Clone, Copy)]
pub struct Frame {
    pub kind: Kind,
    pub octets: [u8; 20],
    pub start: usize,
    pub tail: usize,
    pub verdict: u8,
}

// An item: a frame or a gap.
#[derive(Clone, Copy)]
pub enum Item {
    Frame(Frame),
    Gap { start: usize, length: usize },
}

// A cursor: a value that goes in and comes back. The context is the number, 0 to 5, that the definitions compare and that C gives and gets.
#[derive(Clone, Copy)]
pub struct Cursor {
    pub position: usize,
    pub context: u8,
}

impl Cursor {
    // The cursor moved on over one item: position and context.
    pub fn over(mut self, i: &Item) -> Self
        requires { (start_of i.now ≤ 4294967295) × (span_of i.now ≤ 4294967295) }
        ensures { cursor_of result ≡ over rules (cursor_of self) (item_of i.now) }
    {
        match i {
            Item::Frame(frame) => {
                self.position = frame.start + kinds::body(frame.kind) + frame.tail;
                self.context = verdict::after(frame.octets, frame.kind, self.context);
                self
            }
            Item::Gap { start, length } => {
                self.position = *start + *length;
                self.context = 0;
                self
            }
        }
    }
}
