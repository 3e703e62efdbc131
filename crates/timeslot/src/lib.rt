// The whole timeslot: one of its eight channels taken out, and put back.
#![tactic(auto)]

ghost use Rattle.std.specs.Prelude.{◌≡◌, List, ◌++◌, ℕ, ◌+◌, ◌*◌, ◌<◌, ◌≤◌, length, get_or, drop};
ghost use Rattle.bits.specs.Bit.{octet_of, bits_from};
ghost use Rattle.call.specs.Call.{number_in};
ghost use Rattle.timeslot.specs.Timeslot.{channel_bit, bytes_for, taken_out, put_back, outside, refusal, TakeCall, PutCall};
ghost use Rattle.timeslot.specs.Share.{Admitted, Share, PutTo};

use call::Refusal;

// Whether a channel number lies outside 1 to 8.
fn outside(channel: u64) -> bool
    ensures { result ≡ outside channel }
{
    channel == 0 || 8 < channel
}

// The bytes that so many bits need.
fn bytes_for(bits: usize) -> usize
    ensures { result ≡ bytes_for bits }
{
    bits.div_ceil(8)
}

// Whether a request is refused, of a channel, so many octets of timeslot and so many bytes for its channel: 7, 2, 4 in this order.
fn refusal(channel: u64, octets: usize, bytes: usize) -> Result<(), Refusal>
    ensures { number_in result ≡ refusal channel octets bytes }
{
    if outside(channel) {
        return Err(Refusal::NoChannel);
    }
    if 65536 < octets {
        return Err(Refusal::TooLong);
    }
    if bytes < bytes_for(octets) {
        return Err(Refusal::NoRoom);
    }
    Ok(())
}

// Byte j of channel k, from the c octets that it has a bit of; where these are fewer than eight, the bits below are zeros.
fn byte_of(timeslot: &[u8], k: usize, j: usize, c: usize) -> u8
    requires { (0 < k) × (k ≤ 8) × Share (length timeslot.now) j c × (length timeslot.now ≤ 65536) }
    ensures { result ≡ octet_of (bits_from (channel_bit timeslot.now k) (length timeslot.now) 0) j }
{
    lanes::gathered(lanes::load(timeslot, 8 * j, c), 8 - k)
}

// Channel k into the front of a buffer. (The loop counts: `byte_of` takes the number of its byte, and the 8 as it stands, by which eight octets are one load.)
fn take_out(timeslot: &[u8], k: usize, buffer: &mut [u8])
    requires { Admitted k (length timeslot.now) (length buffer.old) }
    ensures { buffer.new ≡ taken_out timeslot.now k ++ drop (bytes_for (length timeslot.now)) buffer.old }
{
    let whole = timeslot.len() / 8;
    for j in 0..whole {
        buffer[j] = byte_of(timeslot, k, j, 8);
    }
    let bits = timeslot.len() % 8;
    if bits != 0 {
        buffer[whole] = byte_of(timeslot, k, whole, bits);
    }
}

// Byte j of channel k put back, into the c octets that it has a bit of.
fn put_byte(timeslot: &mut [u8], k: usize, j: usize, c: usize, v: u8)
    requires { (0 < k) × (k ≤ 8) × Share (length timeslot.old) j c × (length timeslot.old ≤ 65536) }
    ensures { (t bytes : List ℕ) → v ≡ get_or bytes j 0 → PutTo t k bytes (8 * j) timeslot.old → PutTo t k bytes (8 * j + c) timeslot.new }
{
    let w = lanes::load(timeslot, 8 * j, c);
    lanes::store(timeslot, 8 * j, c, lanes::with_bits(w, 8 - k, v));
}

// Channel k back into a timeslot. (The loop counts, as that of `take_out` does.)
fn put_back(timeslot: &mut [u8], k: usize, bytes: &[u8])
    requires { Admitted k (length timeslot.old) (length bytes.now) }
    ensures { timeslot.new ≡ put_back timeslot.old k bytes.now }
{
    let whole = timeslot.len() / 8;
    for j in 0..whole {
        put_byte(timeslot, k, j, 8, bytes[j]);
    }
    let octets = timeslot.len() % 8;
    if octets != 0 {
        put_byte(timeslot, k, whole, octets, bytes[whole]);
    }
}

// Takes a channel of a timeslot out into the front of a lent buffer: C's number, so that both archives hand it on.
pub fn take(timeslot: &[u8], channel: u64, buffer: &mut [u8]) -> u64
    ensures { TakeCall timeslot.now channel buffer.old result buffer.new }
{
    if let Err(why) = refusal(channel, timeslot.len(), buffer.len()) {
        return why.number();
    }
    take_out(timeslot, channel as usize, buffer);
    0
}

// Puts a channel of a timeslot back among the other seven: C's number, too.
pub fn put(timeslot: &mut [u8], channel: u64, bytes: &[u8]) -> u64
    ensures { PutCall timeslot.old channel bytes.now result timeslot.new }
{
    if let Err(why) = refusal(channel, timeslot.len(), bytes.len()) {
        return why.number();
    }
    put_back(timeslot, channel as usize, bytes);
    0
}
