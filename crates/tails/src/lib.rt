// The tail behind a frame's body.
#![tactic(auto)]

ghost use Rattle.std.specs.Prelude.{◌≤◌, ◌<◌, MatchOption};
ghost use Rattle.channel.specs.Frames.{Tail};
ghost use Rattle.capture.specs.Capture.{capture_of};
ghost use Rattle.tails.specs.Zero.{Ones, FirstZero};

use capture::Capture;

// The first bit of a byte, from bit r on, that is zero. The ones of the byte are zeros of what is left of 255, whose leading zeros are counted.
fn first_zero(x: u8, r: usize) -> Option<usize>
    requires { r < 8 }
    ensures { MatchOption result (Ones x r 8) (FirstZero x r) }
{
    let zeros = (255 - x as u32) % (256u32 >> r);
    if zeros == 0 {
        return None;
    }
    Some((u32::leading_zeros(zeros) - 24) as usize)
}

// The length of the whole tail behind q: the ones up to the next zero or to the end, byte by byte.
pub fn tail_at(capture: &Capture<'_>, q: usize) -> usize
    requires { q ≤ capture.now.bits }
    ensures { Tail (capture_of capture.now) q result }
{
    let n = capture.bits;
    let mut end = q;
    // By hand: an iterator over the bytes would want the first, which begins in its middle, apart.
    while end < n {
        let i = end / 8;
        if let Some(k) = first_zero(capture.bytes[i], end % 8) {
            return (8 * i + k).min(n) - q;
        }
        end = 8 * i + 8;
    }
    n - q
}
