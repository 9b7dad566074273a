//! A rare-byte prefilter: it skips places from which no match passes a required spot, or ends where the last look holds.

ghost use Rattle.std.specs.Prelude.{◌≡◌, ◌-◌, ◌<◌, ◌≤◌, ◌⊎◌, ℕ, false, true, length, slice_index, slice_index_or, bit_and, IfSome, Some};
ghost use Rattle.hir_program.specs.Scan.{IsPassedOver, TellsStops, stops_at};
ghost use Rattle.hir_program.specs.declared.scan.prefilter.Stops.TheVariants as stops;

use crate::byte_run::{ByteTable, run_end};
use crate::scan::required::Required;
use hir_tree::Look;
use memchr::memchr;

/// How many of a thousand bytes are too many to stop at.
const FREQUENT: u64 = 60;

/// How many bytes of a run are looked at where the prefilter stops at the first.
const FEW: usize = 8;

/// Bytes at which the prefilter stops.
#[derive(Clone, Copy)]
pub enum Stops {
    /// This byte alone.
    One(u8),
    /// All bytes but those for which the table holds.
    AllBut(ByteTable),
}

/// Skips to the next place where a match may pass a required spot, or end without one.
#[derive(Clone, Copy)]
pub struct Prefilter {
    /// The required spots.
    pub required: Required,
    /// The bytes that a required spot takes, those before which a match may end without one, and, where one before it may take a character
    /// beyond ASCII, those that may begin one.
    pub stops: Stops,
}

impl Prefilter {
    /// The prefilter by required spots, where the spots take these bytes, and this is the last look.
    pub fn new(required: Required, takes: &[u64], wide: u64, last_look: Option<Look>) -> Prefilter
        requires { length takes.now ≡ 256 }
        ensures required { result.required ≡ required }
        ensures stops { TellsStops takes.now wide last_look required result.stops }
    {
        let passed = passed_over(required, takes, wide, last_look);
        for byte in 0..=255u8 {
            if is_alone(&passed, byte) {
                return Prefilter {
                    required,
                    stops: Stops::One(byte),
                };
            }
        }
        Prefilter {
            required,
            stops: Stops::AllBut(passed),
        }
    }

    /// The next place from one on whose byte stops, or the end of the text.
    #[inline(always)]
    pub fn next(&self, text: &[u8], at: usize) -> usize
        requires { at ≤ length text.now }
        ensures passed { (q : ℕ) → at ≤ q → q < result → stops_at self.now.stops (slice_index text.now q) ≡ false }
        ensures after { at ≤ result }
        ensures within { result ≤ length text.now }
    {
        match &self.stops {
            Stops::One(byte) => next_of_one(*byte, text, at),
            Stops::AllBut(passed) => run_end(passed, text, at),
        }
    }

    /// Of the places from one to another, the first after all bytes between that no spot takes before a required one.
    pub fn gap(&self, takes: &[u64], text: &[u8], at: usize, until: usize) -> usize
        requires room { length takes.now ≡ 256 }
        requires order { at ≤ until }
        requires within { until ≤ length text.now }
        ensures gap { (result ≡ at) ⊎ (bit_and self.now.required.before (slice_index takes.now (slice_index text.now (result - 1))) ≡ 0) }
        ensures after { at ≤ result }
        ensures before { result ≤ until }
    {
        let mut place = until;
        while place > at && self.required.before & takes[text[place - 1] as usize] != 0 {
            place -= 1;
        }
        place
    }
}

/// The prefilter by required spots, if there are any, where each stop is a match, or they take few bytes of a text, or a run begins by
/// a look that is asked byte by byte: else to stop and start again takes longer than to look at each byte, or at each start of a line.
/// Where runs begin at starts of lines alone, none is by ends of lines alone.
pub fn worth_while(
    required: Option<Required>,
    takes: &[u64],
    wide: u64,
    first_look: Option<Look>,
    last_look: Option<Look>,
    is_sure: bool,
) -> Option<Prefilter>
    requires { length takes.now ≡ 256 }
    ensures { IfSome result (λ prefilter. (required ≡ Some prefilter.required)
        × TellsStops takes.now wide last_look prefilter.required prefilter.stops) }
{
    let required = required?;
    let is_often = match first_look {
        None => required.share(takes, last_look) >= FREQUENT,
        Some(Look::StartLF) => required.spots == 0 || required.share(takes, last_look) >= FREQUENT,
        Some(_) => false,
    };
    if is_often && !is_sure {
        return None;
    }
    Some(Prefilter::new(required, takes, wide, last_look))
}

/// How many bytes of a run are looked at before the place where it begins is given as a candidate: none where that is a match, few
/// where the prefilter stops at the first byte of a run, and else all.
pub fn look_ahead(prefilter: &Option<Prefilter>, is_sure: bool) -> usize {
    if is_sure {
        return 0;
    }
    match prefilter {
        Some(prefilter) if prefilter.required.is_start() => FEW,
        _ => usize::MAX,
    }
}

/// The next place from one on where the byte stands, or the end of the text.
pub fn next_of_one(byte: u8, text: &[u8], at: usize) -> usize
    requires { at ≤ length text.now }
    ensures passed { (q : ℕ) → at ≤ q → q < result → stops_at (stops.One byte) (slice_index text.now q) ≡ false }
    ensures after { at ≤ result }
    ensures within { result ≤ length text.now }
{
    match memchr(byte, &text[at..]) {
        Some(more) => at + more,
        None => text.len(),
    }
}

/// Whether a byte is passed over.
fn is_passed(
    required: Required,
    takes: &[u64],
    wide: u64,
    last_look: Option<Look>,
    byte: u8,
) -> bool
    requires { length takes.now ≡ 256 }
    ensures { result ≡ true → IsPassedOver takes.now wide last_look required byte }
{
    takes[byte as usize] & required.spots == 0
        && (byte < 128 || required.before & wide == 0)
        && !required.may_end_before(last_look, byte)
}

/// For each byte, whether it is passed over.
fn passed_over(required: Required, takes: &[u64], wide: u64, last_look: Option<Look>) -> ByteTable
    requires { length takes.now ≡ 256 }
    ensures { TellsStops takes.now wide last_look required (stops.AllBut result) }
{
    let mut passed = [false; 256];
    for byte in 0..256usize {
        passed[byte] = is_passed(required, takes, wide, last_look, byte as u8);
    }
    passed
}

/// Whether all bytes but this are passed over.
fn is_alone(passed: &ByteTable, byte: u8) -> bool
    ensures { result ≡ true → (b : ℕ) → b < 256 → (b ≡ byte → ⊥) → slice_index_or passed.now b false ≡ true }
{
    for (other, is_passed) in passed.iter().enumerate() {
        if !*is_passed && other != byte as usize {
            return false;
        }
    }
    true
}
