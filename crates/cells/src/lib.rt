// What the bit at each place of a frame is called.
#![tactic(auto)]

ghost use Rattle.std.specs.Prelude.{◌≡◌, List, ℕ, ◌+◌, ◌<◌, length, IfSome};
ghost use Rattle.bits.specs.Bit.{bit_at};
ghost use Rattle.channel.specs.Places.{d_places};
ghost use Rattle.word.specs.Words.{FixedBy};
ghost use Rattle.cells.specs.declared.Cell.TheVariants.{C};
ghost use Rattle.cells.specs.Cells.{index_of, named, sync_cell, xc_cell, crc_cell, beside_cell, d_name, tail_cell, pattern_cell, cell_of};

use channel::Kind;
use coding::places;
use masks::covered;

// What a bit is called in the drawings: a fixed zero or one, C1.., XC1.., CRC2.., D1.., D'1.. (the second half of a data frame), T1.., or T alone.
#[derive(Clone, Copy)]
pub enum Cell {
    Zero,
    One,
    C(usize),
    Xc(usize),
    Crc(usize),
    D(usize),
    Prime(usize),
    T(usize),
    Tail,
}

// C6..C9 of HR speech, octet 20 bits 3 to 6: no table of `coding` or `dplaces` has them.
const C6_PLACES: [u8; 4] = [154, 155, 156, 157];

// How many D bits the first half of a data frame has.
const HALF: usize = 63;

// The index of the first entry equal to p, if there is one.
fn index_in(list: &[u8], p: u8) -> Option<usize>
    ensures is { result ≡ index_of p list.now }
    ensures inside { IfSome result (λ i. i < length list.now) }
{
    list.iter().position(|q| *q == p)
}

// Whether a bit of twenty octets is one; behind them there is none.
fn bit_in(octets: &[u8; 20], p: usize) -> bool
    ensures { result ≡ bit_at octets.now p }
{
    p < 160 && bits::bit(octets, p)
}

// A C bit by its list.
#[tactic(auto, unfolding(crate::specs::Cells::named))]
fn c_cell(p: u8, cs: &[u8]) -> Option<Cell>
    ensures { result ≡ named cs.now (λ i. C (i + 1)) p }
{
    index_in(cs, p).map(|i| Cell::C(i + 1))
}

// A fixed bit by the octets of a pattern (which bits are fixed, and the fixed ones), or a C bit by its list.
fn sync_cell(p: u8, mask: &[u8; 20], fixed: &[u8; 20], cs: &[u8]) -> Option<Cell>
    ensures { (zeros ones : List ℕ) → FixedBy zeros ones mask.now fixed.now → result ≡ sync_cell zeros ones cs.now p }
{
    let place = p as usize;
    if bit_in(mask, place) {
        if bit_in(fixed, place) {
            return Some(Cell::One);
        }
        return Some(Cell::Zero);
    }
    c_cell(p, cs)
}

// An XC bit.
#[tactic(auto, unfolding(crate::specs::Cells::named))]
fn xc_cell(p: u8) -> Option<Cell>
    ensures { result ≡ xc_cell p }
{
    index_in(&places::XC, p).map(|i| Cell::Xc(i + 1))
}

// A CRC bit of HR speech or one of C6..C9. The CRC bits are the last three that the CRC's own list has.
#[tactic(auto, unfolding(crate::specs::Cells::named))]
fn crc_cell(p: u8) -> Option<Cell>
    ensures { result ≡ crc_cell p }
{
    let covered = covered::SPEECH_CRC;
    let crc = index_in(&covered[44..47], p).map(|i| Cell::Crc(2 - i));
    crc.or(index_in(&C6_PLACES, p).map(|i| Cell::C(i + 6)))
}

// What a kind has besides fixed bits, C1..C5 and D bits, as HR speech and O&M alone do.
fn beside_cell(k: Kind, p: u8) -> Option<Cell>
    ensures { result ≡ beside_cell k p }
{
    match k {
        Kind::Speech => xc_cell(p).or(crc_cell(p)),
        Kind::Om => xc_cell(p),
        _ => None,
    }
}

// The D bit of a kind by its index from 0: D1.., and in a data frame D1..D63 and then D'1..D'63.
fn d_name(k: Kind, i: usize) -> Cell
    requires { i < 1022 }
    ensures { result ≡ d_name k i }
{
    match k {
        Kind::Data if HALF <= i => Cell::Prime(i - HALF + 1),
        _ => Cell::D(i + 1),
    }
}

// The index of a D bit of a kind.
fn d_index(k: Kind, p: u8) -> Option<usize>
    ensures is { result ≡ index_of p (d_places k) }
    ensures inside { IfSome result (λ i. i < 1022) }
{
    index_in(dplaces::table().of(k), p)
}

// A D bit of a kind.
#[tactic(auto, unfolding(crate::specs::Cells::named))]
fn d_cell(k: Kind, p: u8) -> Option<Cell>
    ensures { result ≡ named (d_places k) (d_name k) p }
{
    d_index(k, p).map(|i| d_name(k, i))
}

// A bit behind the body of a kind: T1.. behind 158 bits, none behind 160, and behind 159 the T of a kind 6 or the one of the other two.
fn tail_cell(k: Kind, p: u8) -> Option<Cell>
    ensures { result ≡ tail_cell k p }
{
    let place = p as usize;
    let body = kinds::body(k);
    if place < body {
        return None;
    }
    match k {
        Kind::Speech | Kind::Configuration | Kind::NoSpeech => Some(Cell::T(place - body + 1)),
        Kind::Data | Kind::Om => Some(Cell::One),
        Kind::Lower => Some(Cell::Tail),
        Kind::Amr670 | Kind::Amr740 => None,
    }
}

// A fixed bit or a C bit of a kind. Kinds 1 to 4 have the HR pattern, 5 and 6 the Low one, 7 and 8 their own.
fn pattern_cell(k: Kind, p: u8) -> Option<Cell>
    ensures { result ≡ pattern_cell k p }
{
    match k {
        Kind::Speech | Kind::Data | Kind::Om | Kind::Configuration => sync_cell(
            p,
            &places::HR_MASK,
            &places::HR_FIXED,
            &places::HR_C,
        ),
        Kind::NoSpeech | Kind::Lower => sync_cell(
            p,
            &places::LOW_MASK,
            &places::LOW_FIXED,
            &places::LOW_C,
        ),
        Kind::Amr670 => sync_cell(p, &places::P670_MASK, &places::P670_FIXED, &places::AMR_C),
        Kind::Amr740 => sync_cell(p, &places::P740_MASK, &places::P740_FIXED, &places::AMR_C),
    }
}

// What the bit at place p of a frame of a kind is called, if a table has its place.
#[tactic(auto, unfolding(crate::specs::Cells::cell_of))]
pub fn cell_at(k: Kind, p: u8) -> Option<Cell>
    ensures { result ≡ cell_of k p }
{
    pattern_cell(k, p)
        .or(beside_cell(k, p))
        .or(d_cell(k, p))
        .or(tail_cell(k, p))
}
