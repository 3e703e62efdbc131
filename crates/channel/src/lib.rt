// The 8 kbit/s channel of TS 48.061, clause 5.2, as definitions in specs/ and laws in proofs/. Here stand only its names, which the code above
// shares with the definitions.
#![tactic(auto)]

// Which way a capture was taken.
#[derive(Clone, Copy, PartialEq, Eq)]
pub enum Direction {
    Uplink,
    Downlink,
}

// What is agreed of a capture besides its bits: its direction, and its profile, whose bit k, 0 the lowest, tells whether No_Speech frames of class k carry
// a CRC (document 02, Ask 1). It is passed by value wherever the bits are read or written, so that a term more is a change here and where that term matters.
#[derive(Clone, Copy)]
pub struct Terms {
    pub direction: Direction,
    pub profile: u8,
}

// The synchronisation patterns (5.2.1 to 5.2.3).
#[derive(Clone, Copy, PartialEq, Eq)]
pub enum Pattern {
    Hr,
    Low,
    P670,
    P740,
}

// The kinds of frame, numbered from 1.
#[derive(Clone, Copy, PartialEq, Eq)]
pub enum Kind {
    Speech = 1,
    Data,
    Om,
    Configuration,
    NoSpeech,
    Lower,
    Amr670,
    Amr740,
}
