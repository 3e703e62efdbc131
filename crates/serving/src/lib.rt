// Opening, closing and paging a session: what each decides of what stands at a place of the list, by value, and does in the list then.
#![tactic(auto)]

ghost use Rattle.std.specs.Prelude.{◌≡◌, IfOk};
ghost use Rattle.call.specs.Call.{next, number_in};
ghost use Rattle.serving.specs.Serving.{too_long, zeros, new_session, open_refusal, name_refusal, request_of, moved_to, OpenCall, SessionPageCall, CloseCall};
ghost use Rattle.serving.specs.Decided.{OpeningOf, ClosingOf, PagedAt};

use call::{Answer, CursorNumbers, PageRequest, Refusal};
use dplaces::PlaceTable;
use sessions::{Found, Session};

// What opening answers: its number (0, or that of the refusal), and the place taken, 0 where it is refused.
#[repr(C)]
#[derive(Clone, Copy)]
pub struct Opened {
    pub number: u64,
    pub place: u64,
}

// What comes of opening: the place that is taken, and the session that stands there then.
#[derive(Clone, Copy)]
pub struct Opening {
    pub place: usize,
    pub session: Session,
}

// What a call brings for a page besides the capture's bytes and the buffer; direction and cursor are the session's.
#[derive(Clone, Copy)]
pub struct Brought {
    pub n: u64,
    pub profile: u8,
    pub most: u64,
}

// What comes of a page: what stands at the place after, and what is answered.
#[derive(Clone, Copy)]
pub struct Paged {
    pub session: Session,
    pub answer: Answer,
}

// The cursor of zeros: bit 0, context 0.
fn zeros() -> CursorNumbers
    ensures { result ≡ zeros }
{
    CursorNumbers {
        position: 0,
        context: 0,
    }
}

// A session as opening makes it, with the cursor of zeros.
fn new_session(key: u64, capture: u64, direction: u64) -> Session
    ensures { result ≡ new_session key capture direction }
{
    let begin = zeros();
    Session {
        used: 1,
        key,
        position: begin.position,
        context: begin.context,
        capture,
        direction,
    }
}

// Number 2 for a list of so many places.
fn too_long(places: usize) -> bool
    ensures { result ≡ too_long places }
{
    32 < places
}

// The place that an opening takes in a list of so many places; 2, 1, 9, 8 in this order refuse it.
fn place_to_open(found: Found, places: usize, direction: u64) -> Result<usize, Refusal>
    ensures number { number_in result ≡ open_refusal found places direction }
    ensures place { IfOk result (λ place. found.free ≡ Some place) }
{
    if too_long(places) {
        return Err(Refusal::TooLong);
    }
    if 1 < direction {
        return Err(Refusal::NotARequest);
    }
    if found.held {
        return Err(Refusal::KeyPresent);
    }
    found.free.ok_or(Refusal::Full)
}

// Opening, by what was found in a list of so many places.
pub fn open_in(
    found: Found,
    places: usize,
    key: u64,
    capture: u64,
    direction: u64,
) -> Result<Opening, Refusal>
    ensures { OpeningOf found places key capture direction result }
{
    let place = place_to_open(found, places, direction)?;
    Ok(Opening {
        place,
        session: new_session(key, capture, direction),
    })
}

// Whether a call that names a place and a key is refused: 2, then 10 where no session of that key stands there. A place outside the list stands as a free
// one.
fn name_refusal(session: Session, places: usize, key: u64) -> Result<(), Refusal>
    ensures { number_in result ≡ name_refusal session places key }
{
    if too_long(places) {
        return Err(Refusal::TooLong);
    }
    if session.used == 0 || session.key != key {
        return Err(Refusal::NoSession);
    }
    Ok(())
}

// Closing, by what stands at the place named in a list of so many places: what stands there after, for the place becomes free.
pub fn close_at(session: Session, places: usize, key: u64) -> Result<Session, Refusal>
    ensures { ClosingOf session places key result }
{
    name_refusal(session, places, key).map(|()| Session::BLANK)
}

// What is asked of a page, by the session and by the call.
fn request(session: Session, brought: Brought) -> PageRequest
    ensures { result ≡ request_of session brought }
{
    call::page_request(
        brought.n,
        session.direction,
        brought.profile,
        session.position,
        session.context,
        brought.most,
    )
}

// The session with the cursor that is answered.
fn moved(session: Session, a: Answer) -> Session
    ensures { result ≡ moved_to session (next a) }
{
    Session {
        position: a.position,
        context: a.context,
        ..session
    }
}

// A page, by what stands at the place named in a list of so many places: the session keeps the cursor that is answered.
// (List, place and key come one by one, as C brings them; here one place is looked at by value, so that nothing can be said of others.)
pub fn page_at(
    session: Session,
    places: usize,
    key: u64,
    capture: &[u8],
    brought: Brought,
    table: Option<PlaceTable>,
    buffer: &mut [u8],
) -> Result<Paged, Refusal>
    ensures { PagedAt session places key capture.now brought buffer.old result buffer.new }
{
    name_refusal(session, places, key)?;
    let answer = paging::page(capture, request(session, brought), table, buffer);
    Ok(Paged {
        session: moved(session, answer),
        answer,
    })
}

// A session opened in the list: its place.
pub fn open(sessions: &mut [Session], key: u64, capture: u64, direction: u64) -> Opened
    ensures { OpenCall sessions.old key capture direction result sessions.new }
{
    let found = sessions::find(sessions, key);
    match open_in(found, sessions.len(), key, capture, direction) {
        Ok(opening) => {
            sessions::store(sessions, opening.place, opening.session);
            Opened {
                number: 0,
                place: opening.place as u64,
            }
        }
        Err(why) => Opened {
            number: why.number(),
            place: 0,
        },
    }
}

// A page of the session at a place: as `paging::page` with the session's direction and cursor; the session keeps the cursor that is answered. Where the key
// does not hold the place the cursor answered is zeros, for what stands there is somebody else's.
pub fn page(
    sessions: &mut [Session],
    place: usize,
    key: u64,
    capture: &[u8],
    brought: Brought,
    table: Option<PlaceTable>,
    buffer: &mut [u8],
) -> Answer
    ensures { SessionPageCall sessions.old place key capture.now brought buffer.old result buffer.new sessions.new }
{
    let session = sessions::at(sessions, place);
    match page_at(
        session,
        sessions.len(),
        key,
        capture,
        brought,
        table,
        buffer,
    ) {
        Ok(paged) => {
            sessions::store(sessions, place, paged.session);
            paged.answer
        }
        Err(why) => why.answer(0, zeros()),
    }
}

// The session at a place closed: the place is free.
pub fn close(sessions: &mut [Session], place: usize, key: u64) -> u64
    ensures { CloseCall sessions.old place key result sessions.new }
{
    let session = sessions::at(sessions, place);
    match close_at(session, sessions.len(), key) {
        Ok(left) => {
            sessions::store(sessions, place, left);
            0
        }
        Err(why) => why.number(),
    }
}
