//! Loops of one set, as `[a-z]+` has one: which bytes the search of a block runs over there in one go.

ghost use Rattle.std.specs.Prelude.{◌≡◌, ◌<◌, List, true, IfOk, IfSome};
ghost use Rattle.std.specs.Box.{box_value};
ghost use Rattle.hir_program.specs.Loops.{AreLoops, AreWays, EndsSurely, IsRow, IsRunOver, LeadsTo, SaysWhatIsRunOver};
ghost use Rattle.hir_program.specs.Masks.{takes_byte};
ghost use Rattle.hir_program.specs.Program.{spot_at};
ghost use Rattle.hir_program.specs.Scan.{IsFilterOf};
ghost use Rattle.hir_program.specs.declared.spot.Spot.{Spot};

use crate::byte_run::ByteTable;
use crate::scan::{SPOTS, Scan};
use crate::spot::Spot;
use sd_base::NoMemory;
use std::alloc::Global;

/// For each spot of a program that is a loop of one set, which bytes are run over there.
#[derive(Drop)]
pub struct Loops {
    rows: Vec<Option<Box<ByteTable>>>,
}

/// The ways of a loop of one set.
#[derive(Clone, Copy)]
pub struct Ways {
    /// The spot that takes a byte or a character, and leads back.
    pub round: usize,
    /// The spot of the way out.
    pub out: usize,
    /// Whether the way out comes second, and a match ends there at each place.
    pub is_sure: bool,
}

/// Whether a spot takes bytes, and leads to another.
fn leads_to(spots: &[Spot], place: usize, to: usize) -> bool
    ensures { result ≡ true → LeadsTo (spot_at spots.now place) to }
{
    match spots.get(place) {
        Some(Spot::Bytes { next, .. } | Spot::Chars { next, .. }) => *next as usize == to,
        _ => false,
    }
}

/// Whether a match ends at a spot at each place, after ends of groups alone.
fn ends_surely(spots: &[Spot], from: usize) -> bool
    ensures { result ≡ true → EndsSurely spots.now from }
{
    let mut place = from;
    for _ in 0..spots.len() {
        match spots.get(place) {
            Some(Spot::Close { next, .. }) => place = *next as usize,
            Some(Spot::Match) => return true,
            _ => return false,
        }
    }
    false
}

/// The ways of a spot, if it is a loop of one set.
fn ways_at(spots: &[Spot], place: usize) -> Option<Ways>
    ensures { IfSome result (λ ways. AreWays spots.now place ways) }
{
    let Some(Spot::Split { first, second }) = spots.get(place) else {
        return None;
    };
    let (first, second) = (*first as usize, *second as usize);
    if leads_to(spots, first, place) {
        return Some(Ways {
            round: first,
            out: second,
            is_sure: ends_surely(spots, second),
        });
    }
    if leads_to(spots, second, place) {
        return Some(Ways {
            round: second,
            out: first,
            is_sure: false,
        });
    }
    None
}

/// Whether a spot takes a byte, which is ASCII.
fn takes(spots: &[Spot], place: usize, byte: u8) -> bool
    requires { byte < 128 }
    ensures { result ≡ true → takes_byte (spot_at spots.now place) byte ≡ true }
{
    match spots.get(place) {
        Some(Spot::Bytes { set, .. }) => set.contains(byte),
        Some(Spot::Chars { set, .. }) => set.contains(byte as char),
        _ => false,
    }
}

/// Whether a byte, which is ASCII, is run over: the way round takes it, and the way out gives nothing there, or is sure.
fn is_run_over(spots: &[Spot], filter: &Scan, ways: Ways, byte: u8) -> bool
    requires filters { IsFilterOf spots.now filter.now }
    requires narrow { byte < 128 }
    ensures { result ≡ true → IsRunOver spots.now ways byte }
{
    takes(spots, ways.round, byte) && (ways.is_sure || !filter.may_go_on_by(ways.out, byte))
}

/// Which bytes are run over by these ways.
fn row_of(spots: &[Spot], filter: &Scan, ways: Ways) -> ByteTable
    requires { IsFilterOf spots.now filter.now }
    ensures { SaysWhatIsRunOver spots.now ways result }
{
    let mut row = [false; 256];
    for byte in 0..128u8 {
        row[byte as usize] = is_run_over(spots, filter, ways, byte);
    }
    row
}

/// Which bytes are run over at a spot, if it is a loop. Refuses for want of memory alone.
fn row_at(
    alloc: Global,
    spots: &[Spot],
    filter: &Scan,
    place: usize,
) -> Result<Option<Box<ByteTable>>, NoMemory>
    requires { IsFilterOf spots.now filter.now }
    ensures { IfOk result (λ row. IfSome row (λ row. IsRow spots.now place (box_value row))) }
{
    let Some(ways) = ways_at(spots, place) else {
        return Ok(None);
    };
    let row = Box::new(alloc, row_of(spots, filter, ways))?;
    Ok(Some(row))
}

impl Loops {
    /// No loops.
    pub fn none(alloc: Global) -> Loops
        ensures { (spots : List Spot) → AreLoops spots result }
    {
        Loops {
            rows: Vec::new(alloc),
        }
    }

    /// The loops of a program; none of one with too many spots to be searched block by block. Refuses for want of memory alone.
    pub fn new(alloc: Global, spots: &[Spot], filter: &Scan) -> Result<Loops, NoMemory>
        requires { IsFilterOf spots.now filter.now }
        ensures { IfOk result (λ loops. AreLoops spots.now loops) }
    {
        let count = if spots.len() > SPOTS { 0 } else { spots.len() };
        let mut rows = Vec::new(alloc);
        for place in 0..count {
            let row = row_at(alloc, spots, filter, place)?;
            rows.push(row)?;
        }
        Ok(Loops { rows })
    }

    /// Which bytes are run over at a spot, if it is a loop.
    pub fn row(&self, spot: usize) -> Option<&ByteTable>
        ensures { IfSome result (λ row. (spots : List Spot) → AreLoops spots self.now → IsRow spots spot row.now) }
    {
        match self.rows.get(spot) {
            Some(Some(row)) => Some(row),
            _ => None,
        }
    }
}
