//! Sets of bytes.

ghost use Rattle.std.specs.Prelude.{◌≡◌, ◌<◌, ◌^◌, ◌/◌, ◌%◌, ◌==◌, ℕ, true, false, not, ◌&&◌, ◌||◌, nat_le};
ghost use Rattle.grep_matcher.specs.ByteSets.{is_in};

/// A set of bytes.
///
/// The set of the digits holds `b'0'` to `b'9'` and no other byte.
#[derive(Clone, Debug, Drop)]
pub struct ByteSet {
    /// Byte `b` is in the set where bit `b % 64` of word `b / 64` is set.
    words: [u64; 4],
}

impl ByteSet {
    /// The set that holds no byte.
    pub fn empty() -> ByteSet
        ensures { (byte : ℕ) → byte < 256 → is_in result byte ≡ false }
    {
        ByteSet { words: [0; 4] }
    }

    /// The set that holds each byte.
    pub fn full() -> ByteSet
        ensures { (byte : ℕ) → byte < 256 → is_in result byte ≡ true }
    {
        ByteSet {
            words: [u64::MAX; 4],
        }
    }

    /// Adds a byte.
    pub fn add(&mut self, byte: u8)
        ensures { (b : ℕ) → b < 256 → is_in self.new b ≡ (b == byte || is_in self.old b) }
    {
        self.words[word(byte)] |= bit(byte);
    }

    /// Adds each byte from `start` to `end`, both included, and none where `start > end`.
    ///
    /// From `b'a'` to `b'c'` these are `a`, `b` and `c`.
    pub fn add_all(&mut self, start: u8, end: u8)
        ensures { (b : ℕ) → b < 256 → is_in self.new b ≡ (nat_le start b && nat_le b end || is_in self.old b) }
    {
        for byte in start..=end {
            self.add(byte);
        }
    }

    /// Takes a byte out.
    pub fn remove(&mut self, byte: u8)
        ensures { (b : ℕ) → b < 256 → is_in self.new b ≡ (not (b == byte) && is_in self.old b) }
    {
        self.words[word(byte)] &= !bit(byte);
    }

    /// Takes each byte from `start` to `end` out, both included, and none where `start > end`.
    pub fn remove_all(&mut self, start: u8, end: u8)
        ensures { (b : ℕ) → b < 256 → is_in self.new b ≡ (not (nat_le start b && nat_le b end) && is_in self.old b) }
    {
        for byte in start..=end {
            self.remove(byte);
        }
    }

    /// Whether a byte is in the set.
    pub fn contains(&self, byte: u8) -> bool
        ensures { result ≡ is_in self.now byte }
    {
        (self.words[word(byte)] >> (byte % 64)) & 1 == 1
    }
}

/// The word that tells of a byte.
fn word(byte: u8) -> usize
    ensures place { result ≡ byte / 64 }
    ensures within { result < 4 }
{
    (byte / 64) as usize
}

/// The bit that tells of a byte in its word.
fn bit(byte: u8) -> u64
    ensures { result ≡ 2 ^ (byte % 64) }
{
    1 << (byte % 64)
}
