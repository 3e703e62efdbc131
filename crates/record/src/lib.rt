// The record of an item, written into a lent part of a buffer.
#![tactic(auto)]

ghost use Rattle.std.specs.Prelude.{◌≡◌, ◌++◌, ◌∷◌, ◌+◌, ◌≤◌, length, take, drop};
ghost use Rattle.bits.specs.Bit.{bit_at};
ghost use Rattle.channel.specs.Control.{control, extended};
ghost use Rattle.channel.specs.Record.{d_bytes, wide, d_length, size_of, record_of};
ghost use Rattle.item.specs.Item.{item_of};
ghost use Rattle.plans.specs.Made.{StillMade};
ghost use Rattle.record.specs.Wanted.{MadeFor};

use channel::Kind;
use coding::places;
use item::{Frame, Item};
use plans::{Plan, Plans};

// How many bytes the record of a frame of a kind has.
pub fn frame_size(k: Kind) -> usize
    ensures { result ≡ 12 + d_length k }
{
    12 + dplaces::d_length(k)
}

// How many bytes the record of an item has.
pub fn size(i: &Item) -> usize
    ensures { result ≡ size_of (item_of i.now) }
{
    match i {
        Item::Frame(frame) => frame_size(frame.kind),
        Item::Gap { .. } => 9,
    }
}

// The control byte of a frame: its C bits. (One list by kind would serve `octets::with_control` too; read by a loop of whatever length, it costs an AMR page
// more than its limit.)
#[tactic(auto, unfolding(channel::specs::Control::control))]
fn control_byte(o: &[u8; 20], k: Kind) -> u8
    ensures { result ≡ control (bit_at o.now) k }
{
    match k {
        Kind::Speech => fields::top_byte(o, &places::SPEECH_CONTROL),
        Kind::Data | Kind::Om | Kind::Configuration => fields::top_byte(o, &places::HR_CONTROL),
        Kind::NoSpeech | Kind::Lower => fields::top_byte(o, &places::LOW_C),
        Kind::Amr670 | Kind::Amr740 => fields::top_byte(o, &places::AMR_C),
    }
}

// The extended byte of a frame: XC and CRC bits of kind 1, the XC bits that every kind 3 has, nothing of the others. (No list of places serves
// the way back too, which reads of a kind 3 what is a constant here.)
#[tactic(auto, unfolding(channel::specs::Control::extended))]
fn extended_byte(o: &[u8; 20], k: Kind) -> u8
    ensures { result ≡ extended (bit_at o.now) k }
{
    match k {
        Kind::Speech => fields::top_byte(o, &places::SPEECH_EXTENDED),
        Kind::Om => 248,
        _ => 0,
    }
}

// A kind number and two numbers of four bytes, the high byte first, at the front of a lent part.
fn put_front(out: &mut [u8], kind: u8, start: usize, span: usize)
    requires { 9 ≤ length out.old }
    ensures { out.new ≡ kind ∷ wide 4 start ++ wide 4 span ++ drop 9 out.old }
{
    out[0] = kind;
    out[1..5].copy_from_slice(&start.to_be_bytes()[4..]);
    out[5..9].copy_from_slice(&span.to_be_bytes()[4..]);
}

// The D bits of a frame of the plan's kind behind the twelve bytes that stand at the front of a lent part.
fn put_d(out: &mut [u8], o: &[u8; 20], plan: &Plan)
    requires { 12 + d_length plan.now.kind ≤ length out.old }
    ensures { out.new ≡ take 12 out.old ++ take (d_length plan.now.kind) (d_bytes (bit_at o.now) plan.now.kind) ++ drop (12 + d_length plan.now.kind) out.old }
{
    let bytes = dbits::d_bytes(o, plan);
    let n = dplaces::d_length(plan.kind);
    out[12..12 + n].copy_from_slice(&bytes[..n]);
}

// The record of a frame of the plan's kind, at the front of a lent part; the rest of the part is unchanged.
pub fn put_frame(out: &mut [u8], frame: &Frame, plan: &Plan)
    requires { (12 + d_length frame.now.kind ≤ length out.old) × (plan.now.kind ≡ frame.now.kind) }
    ensures { out.new ≡ record_of (item_of (Item.Frame frame.now)) ++ drop (12 + d_length frame.now.kind) out.old }
{
    let k = frame.kind;
    put_front(out, kinds::number(k), frame.start, frame.tail);
    out[9] = control_byte(&frame.octets, k);
    out[10] = extended_byte(&frame.octets, k);
    out[11] = frame.verdict;
    put_d(out, &frame.octets, plan);
}

// Makes the plan that the record of an item wants. Those that are made stay made.
pub fn ready(plans: &mut Plans, i: &Item)
    ensures { MadeFor i.now plans.new × StillMade plans.old plans.new }
{
    if let Item::Frame(frame) = i {
        plans.ready(frame.kind);
    }
}

// The record of an item, at the front of a lent part; the rest of the part is unchanged.
#[tactic(auto, unfolding(channel::specs::Record::record_of))]
pub fn put(out: &mut [u8], i: &Item, plans: &Plans)
    requires { (size_of (item_of i.now) ≤ length out.old) × MadeFor i.now plans.now }
    ensures { out.new ≡ record_of (item_of i.now) ++ drop (size_of (item_of i.now)) out.old }
{
    match i {
        Item::Frame(frame) => put_frame(out, frame, plans.at(frame.kind)),
        Item::Gap { start, length } => put_front(out, 0, *start, *length),
    }
}
