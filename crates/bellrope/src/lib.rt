// The calls of the C front server: the numbers and byte slices of each, handed to the room that does the work, with its promise. The table of D places is
// lent to it.
#![tactic(auto)]

ghost use Rattle.paging.specs.Paging.{PageCall};
ghost use Rattle.writing.specs.Writing.{WriteCall};
ghost use Rattle.timeslot.specs.Timeslot.{TakeCall, PutCall};
ghost use Rattle.serving.specs.Serving.{OpenCall, brought, SessionPageCall, CloseCall};
ghost use Rattle.call.specs.Call.{page_request, write_request};

use call::Answer;
use serving::{Brought, Opened};
use sessions::Session;

// A page of records from a cursor: the longest leading part of the reading that keeps to the count and fits the buffer; items, bytes, and the cursor
// moved on.
#[unsafe(no_mangle)]
pub extern "C" fn bellrope_page(
    capture: &[u8],
    n: u64,
    direction: u64,
    profile: u8,
    position: u64,
    context: u64,
    most: u64,
    buffer: &mut [u8],
) -> Answer
    ensures { PageCall capture.now (page_request n direction profile position context most) buffer.old result buffer.new }
{
    let table = Some(dplaces::table());
    let request = call::page_request(n, direction, profile, position, context, most);
    paging::page(capture, request, table, buffer)
}

// Records back to bits, from the cursor's position on: body and tail bits are put, other bits keep their value; items and the cursor after.
#[unsafe(no_mangle)]
pub extern "C" fn bellrope_write(
    records: &[u8],
    direction: u64,
    profile: u8,
    position: u64,
    context: u64,
    buffer: &mut [u8],
) -> Answer
    ensures { WriteCall records.now (write_request direction profile position context) buffer.old result buffer.new }
{
    let table = Some(dplaces::table());
    let request = call::write_request(direction, profile, position, context);
    writing::write(records, request, table, buffer)
}

// A channel of a timeslot taken out into the front of a buffer, whose rest is kept: the number alone.
#[unsafe(no_mangle)]
pub extern "C" fn bellrope_take_channel(timeslot: &[u8], channel: u64, buffer: &mut [u8]) -> u64
    ensures { TakeCall timeslot.now channel buffer.old result buffer.new }
{
    timeslot::take(timeslot, channel, buffer)
}

// A channel of a timeslot put back, the other seven kept: the number alone.
#[unsafe(no_mangle)]
pub extern "C" fn bellrope_put_channel(timeslot: &mut [u8], channel: u64, bytes: &[u8]) -> u64
    ensures { PutCall timeslot.old channel bytes.now result timeslot.new }
{
    timeslot::put(timeslot, channel, bytes)
}

// A session opened in the list: its place.
#[unsafe(no_mangle)]
pub extern "C" fn bellrope_open(
    sessions: &mut [Session],
    key: u64,
    capture: u64,
    direction: u64,
) -> Opened
    ensures { OpenCall sessions.old key capture direction result sessions.new }
{
    serving::open(sessions, key, capture, direction)
}

// A page of the session at a place, with the table lent.
fn session_page(
    sessions: &mut [Session],
    place: usize,
    key: u64,
    capture: &[u8],
    asked: Brought,
    buffer: &mut [u8],
) -> Answer
    ensures { SessionPageCall sessions.old place key capture.now asked buffer.old result buffer.new sessions.new }
{
    let table = Some(dplaces::table());
    serving::page(sessions, place, key, capture, asked, table, buffer)
}

// A page of the session at a place: as `bellrope_page` with the session's direction and cursor; the session keeps the cursor that is answered.
#[unsafe(no_mangle)]
pub extern "C" fn bellrope_session_page(
    sessions: &mut [Session],
    place: usize,
    key: u64,
    capture: &[u8],
    n: u64,
    profile: u8,
    most: u64,
    buffer: &mut [u8],
) -> Answer
    ensures { SessionPageCall sessions.old place key capture.now (brought n profile most) buffer.old result buffer.new sessions.new }
{
    let asked = Brought { n, profile, most };
    session_page(sessions, place, key, capture, asked, buffer)
}

// The session at a place closed: the place is free.
#[unsafe(no_mangle)]
pub extern "C" fn bellrope_close(sessions: &mut [Session], place: usize, key: u64) -> u64
    ensures { CloseCall sessions.old place key result sessions.new }
{
    serving::close(sessions, place, key)
}
