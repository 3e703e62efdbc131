// A lent list of sessions (document 02, Ask 5): one place of it found, looked at, stored. The three functions that are lent the list are thin.
#![tactic(auto)]

ghost use Rattle.std.specs.Prelude.{◌≡◌, get_or, set};
ghost use Rattle.std.specs.List.{position};
ghost use Rattle.sessions.specs.Sessions.{blank, is_free, held_in, found_in};

// A place of the list: free where `used` is 0, taken where it is any other number, and then it holds a key, a cursor, a capture number and a direction.
#[repr(C)]
#[derive(Clone, Copy)]
pub struct Session {
    pub used: u64,
    pub key: u64,
    pub position: u64,
    pub context: u64,
    pub capture: u64,
    pub direction: u64,
}

impl Session {
    // A free place as closing leaves it.
    pub const BLANK: Session = Session {
        used: 0,
        key: 0,
        position: 0,
        context: 0,
        capture: 0,
        direction: 0,
    };
}

// What a search has found: the lowest free place, and whether the key is held.
#[derive(Clone, Copy)]
pub struct Found {
    pub free: Option<usize>,
    pub held: bool,
}

// The lowest free place.
fn lowest_free(sessions: &[Session]) -> Option<usize>
    ensures { result ≡ position is_free sessions.now }
{
    sessions.iter().position(|session| session.used == 0)
}

// Whether a taken place has the key.
fn is_held(sessions: &[Session], key: u64) -> bool
    ensures { result ≡ held_in sessions.now key }
{
    sessions
        .iter()
        .any(|session| session.used != 0 && session.key == key)
}

// The search of the list for a free place and for a key.
pub fn find(sessions: &[Session], key: u64) -> Found
    ensures { result ≡ found_in sessions.now key }
{
    Found {
        free: lowest_free(sessions),
        held: is_held(sessions, key),
    }
}

// A place, copied out; a free one where the list has no such place.
pub fn at(sessions: &[Session], place: usize) -> Session
    ensures { result ≡ get_or sessions.now place blank }
{
    sessions.get(place).copied().unwrap_or(Session::BLANK)
}

// A place, stored; nothing is where the list has no such place. (Not by `get_mut`: of a slice's elements a proof knows nothing after it.)
pub fn store(sessions: &mut [Session], place: usize, session: Session)
    ensures { sessions.new ≡ set sessions.old place session }
{
    if place < sessions.len() {
        sessions[place] = session;
    }
}
