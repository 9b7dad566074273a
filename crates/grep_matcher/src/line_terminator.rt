//! What ends a line.

ghost use Rattle.std.specs.Prelude.{◌≡◌, ◌↔◌, ◌-◌, ◌∷◌, [], Some, IsTrue, length, slice_get};
ghost use Rattle.grep_matcher.specs.Terminators.{terminator_bytes, terminator_byte};

use std::slice::from_ref;

/// What ends a line: one byte, or `\r\n`.
#[derive(Clone, Copy, Debug, Eq, Hash, PartialEq)]
pub struct LineTerminator(Ending);

#[derive(Clone, Copy, Debug, Eq, Hash, PartialEq)]
enum Ending {
    Byte(u8),
    Crlf,
}

impl LineTerminator {
    /// Lines end with one byte, as with `b'\n'` or `0`.
    pub fn byte(byte: u8) -> LineTerminator
        ensures bytes { terminator_bytes result ≡ byte ∷ [] }
        ensures last { terminator_byte result ≡ byte }
    {
        LineTerminator(Ending::Byte(byte))
    }

    /// Lines end with `\r\n`.
    pub fn crlf() -> LineTerminator
        ensures bytes { terminator_bytes result ≡ 13 ∷ 10 ∷ [] }
        ensures last { terminator_byte result ≡ 10 }
    {
        LineTerminator(Ending::Crlf)
    }

    /// Whether lines end with `\r\n`.
    pub fn is_crlf(&self) -> bool
        ensures { IsTrue result ↔ (terminator_bytes self.now ≡ 13 ∷ 10 ∷ []) }
    {
        self.0 == Ending::Crlf
    }

    /// The last byte of the terminator: `\n` for `\r\n`.
    pub fn as_byte(&self) -> u8
        ensures { result ≡ terminator_byte self.now }
    {
        match self.0 {
            Ending::Byte(byte) => byte,
            Ending::Crlf => b'\n',
        }
    }

    /// The bytes of the terminator: one byte, or `\r\n`.
    pub fn as_bytes(&self) -> &[u8]
        ensures { result.now ≡ terminator_bytes self.now }
    {
        match &self.0 {
            Ending::Byte(byte) => from_ref(byte),
            Ending::Crlf => b"\r\n",
        }
    }

    /// Whether a slice ends with the terminator's last byte.
    ///
    /// With `\r\n`, `a\n` does, and so does `a\r\n`. The empty slice never does.
    pub fn is_suffix(&self, slice: &[u8]) -> bool
        ensures { IsTrue result ↔ (slice_get slice.now (length slice.now - 1) ≡ Some (terminator_byte self.now)) }
    {
        slice.last().copied() == Some(self.as_byte())
    }
}

impl Default for LineTerminator {
    ghost is_default = { λ terminator. terminator_bytes terminator ≡ 10 ∷ [] };

    /// Lines end with `\n`.
    fn default() -> LineTerminator {
        LineTerminator::byte(b'\n')
    }
}
