//! Required spots of a program: each match passes one of them (a vertex separator of its start and its ends), or ends where the last look holds.

ghost use Rattle.std.specs.Prelude.{◌≡◌, ◌≤◌, ◌⊎◌, false, length, IfSome};
ghost use Rattle.hir_program.specs.Masks.{HasBit, IsShutBefore, match_bit};
ghost use Rattle.hir_program.specs.Scan.{IsRequiredOf};

use crate::scan::asked::may_hold_before;
use crate::scan::bits::{MATCH, SURE, joined};
use hir_tree::Look;

/// How many of a thousand bytes of a text, by the guess of [`share`], are too many to be taken before each end of a line.
const MOST: u64 = 1200;

/// Spots of which each match passes one, or ends where the last look holds: a run takes a byte by one of them, or it comes to no other match.
#[derive(Clone, Copy)]
pub struct Required {
    /// The spots. Where there are none, each match ends where the last look holds.
    pub spots: u64,
    /// The spots that may be tried until one of these took a byte, these among them, and MATCH if a match may end before.
    pub before: u64,
}

/// How many of a thousand bytes of a text are this one: a guess, which changes the time alone.
fn share(byte: u8) -> u64 {
    match byte {
        b' ' => 140,
        b'e' => 90,
        b't' | b'a' | b'o' | b'i' | b'n' | b's' | b'r' | b'h' | b'l' | b'd' => 45,
        b'a'..=b'z' => 18,
        b'\n' => 25,
        b'!'..=b'~' => 5,
        _ => 1,
    }
}

/// How many of a thousand bytes of a text are those for which something holds.
fn share_where<Holds: Fn(u8) -> bool>(holds: Holds) -> u64
    requires { Holds.IsAlwaysCallable holds }
{
    let mut sum: u64 = 0;
    for byte in 0..=255u8 {
        if holds(byte) {
            sum = sum.saturating_add(share(byte));
        }
    }
    sum
}

impl Required {
    /// These spots, if each match passes one of them: at a spot that comes before none ends, or only where the last look holds.
    fn new(after: &[u64], start: u64, spots: u64) -> Option<Required>
        requires { length after.now ≡ 2048 }
        ensures { IfSome result (λ required. IsRequiredOf after.now start required) }
    {
        let mut before = start;
        for _ in 0..63 {
            let more = before | joined(after, before & !spots);
            if more == before {
                return if before & SURE == 0 {
                    Some(Required { spots, before })
                } else {
                    None
                };
            }
            before = more;
        }
        None
    }

    /// Whether they are the spots of the start.
    pub fn is_start(self) -> bool {
        self.spots == self.before
    }

    /// Whether a match may end without a required spot.
    pub fn may_end(self) -> bool
        ensures { result ≡ false → HasBit self.before match_bit → ⊥ }
    {
        self.before >= MATCH
    }

    /// Whether a match may end before a byte without a required spot, where this is the last look.
    pub fn may_end_before(self, last_look: Option<Look>, byte: u8) -> bool
        ensures { result ≡ false → HasBit self.before match_bit → IsShutBefore last_look byte }
    {
        self.may_end() && may_hold_before(last_look, byte)
    }

    /// How many of a thousand bytes of a text its spots take, or have a match end before them: a guess, which changes the time alone.
    pub fn share(self, takes: &[u64], last_look: Option<Look>) -> u64
        requires { length takes.now ≡ 256 }
    {
        share_where(|byte| {
            takes[byte as usize] & self.spots != 0 || self.may_end_before(last_look, byte)
        })
    }

    /// How many of a thousand bytes of a text are taken by the spots that may be tried before: a guess, which changes the time alone.
    fn share_before(self, takes: &[u64]) -> u64
        requires { length takes.now ≡ 256 }
    {
        share_where(|byte| takes[byte as usize] & self.before != 0)
    }

    /// The one of two whose spots take fewer bytes, the first where they take as many.
    fn rarer(self, other: Required, takes: &[u64], last_look: Option<Look>) -> Required
        requires { length takes.now ≡ 256 }
        ensures { (result ≡ self) ⊎ (result ≡ other) }
    {
        if other.share(takes, last_look) < self.share(takes, last_look) {
            other
        } else {
            self
        }
    }

    /// The required spots that take the rarest bytes, of those of the start, and of single ones of so many spots, if there are any.
    fn rarest_spots(
        takes: &[u64],
        after: &[u64],
        start: u64,
        count: usize,
        last_look: Option<Look>,
    ) -> Option<Required>
        requires takes { length takes.now ≡ 256 }
        requires after { length after.now ≡ 2048 }
        requires few { count ≤ 62 }
        ensures { IfSome result (λ required. IsRequiredOf after.now start required) }
    {
        let mut rarest = Required::new(after, start, start)?;
        for bit in 0..count {
            if let Some(required) = Required::new(after, start, 1 << bit) {
                rarest = rarest.rarer(required, takes, last_look);
            }
        }
        Some(rarest)
    }

    /// The same, or none where each match ends where the last look holds and that is rarer, unless nearly all bytes are taken before it.
    pub fn rarest(
        takes: &[u64],
        after: &[u64],
        start: u64,
        count: usize,
        last_look: Option<Look>,
    ) -> Option<Required>
        requires takes { length takes.now ≡ 256 }
        requires after { length after.now ≡ 2048 }
        requires few { count ≤ 62 }
        ensures { IfSome result (λ required. IsRequiredOf after.now start required) }
    {
        let rarest = Required::rarest_spots(takes, after, start, count, last_look)?;
        let Some(ends) = Required::new(after, start, 0) else {
            return Some(rarest);
        };
        if ends.share_before(takes) > MOST {
            return Some(rarest);
        }
        Some(rarest.rarer(ends, takes, last_look))
    }
}

/// Whether a match may end where a run begins, or after each spot of the start, whatever stands there.
pub fn ends_at_once(after: &[u64], start: u64) -> bool
    requires { length after.now ≡ 2048 }
{
    if start >= SURE {
        return start & SURE != 0;
    }
    for bit in 0..62usize {
        if start >> bit & 1 == 1 && joined(after, 1 << bit) & SURE == 0 {
            return false;
        }
    }
    true
}
