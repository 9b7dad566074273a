//! Numbers among the words.

ghost use Rattle.std.specs.Prelude.{◌≡◌};
ghost use Rattle.sd_words.specs.Number.{number_of};

/// The number that a word writes: one or more ASCII digits, below 2^64.
pub fn number(text: &str) -> Option<u64>
    ensures { result ≡ number_of text.now }
{
    if text.starts_with('+') {
        return None;
    }
    text.parse().ok()
}
