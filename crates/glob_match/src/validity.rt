//! Whether globs are valid, without memory.

ghost use Rattle.std.specs.Prelude.{◌≡◌, ◌↔◌, ◌==◌, IsTrue, IsSome, chars};
ghost use Rattle.std.specs.Option.{option_and_then};
ghost use Rattle.glob_match.specs.Reading.{pieces_of};
ghost use Rattle.glob_match.specs.Validity.{in_text, after_symbol, after_character, is_end, may_end};

use crate::parse::escape;
use crate::piece::Symbol;

/// Where a place of a glob stands.
#[derive(Clone, Copy)]
enum Spot {
    /// Outside classes.
    Text,
    /// Just after the `[` of a class.
    ClassStart,
    /// Just after a class's negation.
    ClassFirst,
    /// After the first member of a class.
    ClassRest,
}

/// A place of a glob: where it stands, and within how many open braces.
#[derive(Clone, Copy)]
struct Reader {
    spot: Spot,
    depth: usize,
}

impl Reader {
    /// The place after a symbol, or `None` where an eleventh brace opens.
    fn after(self, symbol: Symbol) -> Option<Reader>
        ensures { result ≡ after_symbol self symbol }
    {
        let depth = self.depth;
        let spot = match self.spot {
            Spot::Text => return Reader::after_text(depth, symbol),
            Spot::ClassStart if symbol.is_sign('^') || symbol.is_sign('!') => Spot::ClassFirst,
            Spot::ClassRest if symbol.is_sign(']') => Spot::Text,
            _ => Spot::ClassRest,
        };
        Some(Reader { spot, depth })
    }

    /// The place after a symbol outside classes, or `None` where an eleventh brace opens.
    fn after_text(depth: usize, symbol: Symbol) -> Option<Reader>
        ensures { result ≡ in_text depth symbol }
    {
        let spot = if symbol.is_sign('[') {
            Spot::ClassStart
        } else {
            Spot::Text
        };
        if symbol.is_sign('{') {
            if depth >= 10 {
                return None;
            }
            return Some(Reader {
                spot,
                depth: depth + 1,
            });
        }
        if symbol.is_sign('}') {
            return Some(Reader {
                spot,
                depth: depth.saturating_sub(1),
            });
        }
        Some(Reader { spot, depth })
    }

    /// Whether a glob may end here: each class and brace is closed.
    fn is_end(self) -> bool
        ensures { result ≡ is_end self }
    {
        matches!(self.spot, Spot::Text) && self.depth == 0
    }
}

/// A place of a glob's text.
#[derive(Clone, Copy)]
struct Cursor {
    reader: Reader,
    /// Whether it is just after a backslash.
    escaped: bool,
}

impl Cursor {
    /// The place after a character, or `None` where an eleventh brace opens.
    fn after(self, c: char) -> Option<Cursor>
        ensures { result ≡ after_character self c }
    {
        if c == '\\' && !self.escaped {
            return Some(Cursor {
                reader: self.reader,
                escaped: true,
            });
        }
        let symbol = if self.escaped {
            Symbol::Escaped(escape(c))
        } else {
            Symbol::Plain(c)
        };
        let reader = self.reader.after(symbol)?;
        Some(Cursor {
            reader,
            escaped: false,
        })
    }

    /// Whether a glob may end here: no backslash is last, and each class and brace is closed.
    fn is_end(self) -> bool
        ensures { result ≡ may_end self }
    {
        !self.escaped && self.reader.is_end()
    }
}

/// The place after one more character, where no eleventh brace was opened.
fn after(cursor: Option<Cursor>, c: char) -> Option<Cursor>
    ensures { result ≡ option_and_then (λ place. after_character place c) cursor }
{
    cursor?.after(c)
}

/// Whether a glob is valid: each class and brace is closed, no backslash is last, and at most ten braces are open
/// at once. Takes no memory.
pub fn glob_valid(glob: &str) -> bool
    ensures { IsTrue result ↔ IsSome (pieces_of (chars glob.now)) }
{
    let mut cursor = Some(Cursor {
        reader: Reader {
            spot: Spot::Text,
            depth: 0,
        },
        escaped: false,
    });
    for c in glob.chars() {
        cursor = after(cursor, c);
    }
    match cursor {
        None => false,
        Some(end) => end.is_end(),
    }
}
