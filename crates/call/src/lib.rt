// What a call brings as numbers, and what it answers. The numbers are any there can be: each call judges them.
#![tactic(auto)]

ghost use Rattle.std.specs.Prelude.{◌≡◌};
ghost use Rattle.call.specs.Call.{page_request, write_request, terms_by, next, cursor_by, number_of, answered_by, refused_at};

use channel::{Direction, Terms};

// What is agreed of a capture besides its bits: its direction, and its profile, which may be any byte.
#[derive(Clone, Copy)]
pub struct TermNumbers {
    pub direction: u64,
    pub profile: u8,
}

// A cursor: position and context.
#[derive(Clone, Copy)]
pub struct CursorNumbers {
    pub position: u64,
    pub context: u64,
}

// What is asked of a page: how many bits the capture has, what is agreed of it, the cursor, and most items.
#[derive(Clone, Copy)]
pub struct PageRequest {
    pub n: u64,
    pub terms: TermNumbers,
    pub cursor: CursorNumbers,
    pub most: u64,
}

// What is asked of writing: what is agreed of the capture that the bits are for, and the cursor.
#[derive(Clone, Copy)]
pub struct WriteRequest {
    pub terms: TermNumbers,
    pub cursor: CursorNumbers,
}

// What is asked of a page, by the numbers of the call, one by one as C gives them.
pub fn page_request(
    n: u64,
    direction: u64,
    profile: u8,
    position: u64,
    context: u64,
    most: u64,
) -> PageRequest
    ensures { result ≡ page_request n direction profile position context most }
{
    PageRequest {
        n,
        terms: TermNumbers { direction, profile },
        cursor: CursorNumbers { position, context },
        most,
    }
}

// What is asked of writing, likewise.
pub fn write_request(direction: u64, profile: u8, position: u64, context: u64) -> WriteRequest
    ensures { result ≡ write_request direction profile position context }
{
    WriteRequest {
        terms: TermNumbers { direction, profile },
        cursor: CursorNumbers { position, context },
    }
}

// What a call answers: its number (0, or that of the refusal), the index of the record refused, the items and bytes, and the cursor moved on.
#[repr(C)]
#[derive(Clone, Copy)]
pub struct Answer {
    pub number: u64,
    pub index: u64,
    pub items: u64,
    pub bytes: u64,
    pub position: u64,
    pub context: u64,
}

impl Answer {
    // The cursor that is answered, to ask the next page with. (No `From`: an answer has more to it than its cursor.)
    pub fn next(self) -> CursorNumbers
        ensures { result ≡ next self }
    {
        CursorNumbers {
            position: self.position,
            context: self.context,
        }
    }
}

// What is agreed of a capture, by its numbers. (No `TryFrom`: a number above 1 is refused before, as `NotARequest`, and nothing is left to fail.)
pub fn terms_of(t: TermNumbers) -> Terms
    ensures { result ≡ terms_by t }
{
    let direction = match t.direction {
        0 => Direction::Uplink,
        _ => Direction::Downlink,
    };
    Terms {
        direction,
        profile: t.profile,
    }
}

// Why a call is refused, by the numbers that C is answered.
#[derive(Clone, Copy, PartialEq, Eq)]
pub enum Refusal {
    // What is asked is no request: a direction above 1, a page of 0 items, or too many bytes of records.
    NotARequest = 1,
    // Too many bytes, octets or places, or more bits than the bytes have.
    TooLong = 2,
    // A cursor beyond the end, or of no context.
    WrongCursor = 3,
    // The first item does not fit, a frame would end past the buffer, or a channel's bytes are too few.
    NoRoom = 4,
    // A record that is no frame's.
    Unsound = 5,
    // A sound record that does not stand where, or as, it is due.
    NotDue = 6,
    // A channel number outside 1 to 8.
    NoChannel = 7,
    // No place of the list is free.
    Full = 8,
    // The key is present already.
    KeyPresent = 9,
    // No session of that key stands at the place.
    NoSession = 10,
}

impl Refusal {
    // The number that C is answered.
    pub fn number(self) -> u64
        ensures { result ≡ number_of self }
    {
        self as u64
    }

    // The answer of this refusal, by `refuse`.
    pub fn answer(self, index: u64, cursor: CursorNumbers) -> Answer
        ensures { result ≡ refused_at (number_of self) index cursor }
    {
        refuse(self.number(), index, cursor)
    }
}

// The answer of a refusal: its number, the index of the record refused, and the cursor as given.
pub fn refuse(number: u64, index: u64, cursor: CursorNumbers) -> Answer
    ensures { result ≡ refused_at number index cursor }
{
    Answer {
        number,
        index,
        items: 0,
        bytes: 0,
        position: cursor.position,
        context: cursor.context,
    }
}

// The answer of a call that is not refused: items and bytes, and the cursor moved on.
pub fn answered(items: u64, bytes: u64, cursor: CursorNumbers) -> Answer
    ensures { result ≡ answered_by items bytes (cursor_by cursor) }
{
    let CursorNumbers { position, context } = cursor;
    Answer {
        number: 0,
        index: 0,
        items,
        bytes,
        position,
        context,
    }
}
