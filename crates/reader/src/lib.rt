// The item at a cursor: the frame that is due there, or the gap to the next place where a frame starts a run.
#![tactic(auto)]

ghost use Rattle.std.specs.Prelude.{◌+◌, ◌<◌, ◌≤◌, length};
ghost use Rattle.capture.specs.Capture.{capture_of};
ghost use Rattle.item.specs.Item.{cursor_of};
ghost use Rattle.reader.specs.Seen.{Seen, Starting, GapEnd, ItemAt};

use capture::Capture;
use item::{Cursor, Frame, Item};
use masks::Masks;

// The frame that is due at p in context x. The tail is counted last, so that only the tail of a frame that is otherwise due is gone through.
fn frame_at(capture: &Capture<'_>, p: usize, x: u8, masks: &mut Masks) -> Option<Frame>
    requires { p ≤ capture.now.bits }
    ensures { Seen (capture_of capture.now) x p result }
{
    let octets = bits::octets(capture.bytes, capture.bits, p);
    let kind = coding::kind_of(octets, capture.terms)?;
    let behind = p + kinds::body(kind);
    if capture.bits < behind {
        return None;
    }
    let verdict = verdict::verdict_in(octets, kind, capture.terms, x, masks);
    if !allowed::allowed_in(kind, x, verdict) {
        return None;
    }
    let tail = tails::tail_at(capture, behind);
    if tail < kinds::least_tail(capture.terms.direction, kind) {
        return None;
    }
    Some(Frame {
        kind: kind,
        octets: octets,
        start: p,
        tail: tail,
        verdict: verdict,
    })
}

// Whether a frame starts a run at q: judged in context 0.
fn starts_at(capture: &Capture<'_>, q: usize, masks: &mut Masks) -> bool
    requires { q ≤ capture.now.bits }
    ensures { Starting (capture_of capture.now) q result }
{
    let seen = frame_at(capture, q, 0, masks);
    seen.is_some()
}

// The fixed ones that every pattern which can start a run has in common behind its first nine bits.
static SYNC: [u8; 8] = [32, 48, 64, 80, 96, 112, 128, 144];

// The first place from `from` on where a frame starts a run, or the end. Places without eight zeros and a one are stepped over by the byte; any other is left
// at the first fixed bit that differs.
fn gap_end(capture: &Capture<'_>, from: usize, masks: &mut Masks) -> usize
    requires { from ≤ capture.now.bits }
    ensures { GapEnd (capture_of capture.now) from result }
{
    let bytes = capture.bytes;
    let n = capture.bits;
    let mut q = from;
    // By hand: the place jumps, so no range counts it.
    'places: while q + 158 <= n {
        q = sync::sync_from(bytes, q, n - 158);
        if n < q + 158 {
            return n;
        }
        for place in &SYNC {
            if !bits::bit(bytes, q + *place as usize) {
                q += 1;
                continue 'places;
            }
        }
        if starts_at(capture, q, masks) {
            return q;
        }
        q += 1; // no frame starts a run here
    }
    n
}

// The item at a cursor before the end: the frame that is due there, else the gap to the next place where a frame starts a run, or to the end.
pub fn item_at(capture: &Capture<'_>, c: Cursor, masks: &mut Masks) -> Item
    requires { c.position < capture.now.bits }
    ensures { ItemAt (capture_of capture.now) (cursor_of c) result }
{
    let start = c.position;
    if let Some(frame) = frame_at(capture, start, c.context, masks) {
        return Item::Frame(frame);
    }
    let end = gap_end(capture, start + 1, masks);
    Item::Gap {
        start: start,
        length: end - start,
    }
}
