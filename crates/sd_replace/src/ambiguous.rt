//! References of a replacement text that are ambiguous.

ghost use Rattle.std.specs.Prelude.{◌≡◌, ◌≤◌, ◌<◌, ◌==◌, not, None, IfErr, IfSome, OnOk, length};
ghost use Rattle.std.specs.List.{list_any, position, prefix_len};
ghost use Rattle.std.specs.Char.{is_ascii_digit};
ghost use Rattle.grep_matcher.specs.References.{is_word};
ghost use Rattle.sd_replace.specs.Ambiguous as form;
ghost use Rattle.sd_replace.specs.Making.{IsReplaceRefused};

use crate::error::{InvalidReplaceCapture, ReplaceFault};
use sd_base::Text;
use std::alloc::Global;

/// Where the name of a reference stands in a replacement text.
#[derive(Clone, Copy)]
pub struct NamePlace {
    /// Where it starts, in bytes.
    start: usize,
    /// Where it ends, in bytes.
    end: usize,
    /// How many digits it begins with.
    digits: usize,
}

/// Refuses a replacement text with an ambiguous reference: one as `$1a`, without braces, whose name begins with a digit and holds
/// something else. It tells of the first such reference.
///
/// `$$` is no reference, and in `${` up to the next `}` nothing is one. Memory is taken for a refusal alone.
pub fn validate_replace(alloc: Global, s: &str) -> Result<(), ReplaceFault>
    ensures accepted { OnOk result (form.ambiguity s.now ≡ None) }
    ensures refused { IfErr result (IsReplaceRefused s.now) }
{
    let Some(place) = first_ambiguous(s.as_bytes()) else {
        return Ok(());
    };
    Err(ReplaceFault::InvalidReplaceCapture(InvalidReplaceCapture {
        original: Text::new(alloc, s)?,
        start: place.start,
        end: place.end,
        digits: place.digits,
    }))
}

/// The place of the first ambiguous reference.
fn first_ambiguous(text: &[u8]) -> Option<NamePlace>
    ensures { result ≡ form.first_ambiguous text.now }
{
    let mut at = 0;
    while at < text.len() {
        let behind = &text[at + 1..];
        let name = name_behind(text[at], behind);
        if is_ambiguous(name) {
            return Some(NamePlace {
                start: at + 1,
                end: at + 1 + name.len(),
                digits: digits_len(name),
            });
        }
        at += 1 + read_behind(text[at], behind);
    }
    None
}

/// The name behind a byte, where that is a `$`. It may be empty.
fn name_behind(first: u8, text: &[u8]) -> &[u8]
    ensures name { result.now ≡ form.name_behind first text.now }
    ensures within { length result.now ≤ length text.now }
{
    if first == b'$' {
        &text[..name_len(text)]
    } else {
        &[]
    }
}

/// How many bytes behind a byte are read together with it: behind a `$` a second one, braces, or a name.
fn read_behind(first: u8, text: &[u8]) -> usize
    ensures read { result ≡ form.read_behind first text.now }
    ensures within { result ≤ length text.now }
{
    if first != b'$' {
        return 0;
    }
    match text.first() {
        Some(b'$') => 1,
        Some(b'{') => braces_len(text),
        _ => name_len(text),
    }
}

/// How many bytes a text takes up to its first `}`, and none where it has none.
fn braces_len(text: &[u8]) -> usize
    ensures counted { result ≡ form.braces_len text.now }
    ensures within { result ≤ length text.now }
{
    match brace_place(text) {
        Some(place) => place + 1,
        None => 0,
    }
}

/// Where the first `}` of a text stands.
fn brace_place(text: &[u8]) -> Option<usize>
    ensures found { result ≡ position (λ b. b == 125) text.now }
    ensures within { IfSome result (λ place. place < length text.now) }
{
    text.iter().position(|byte| *byte == b'}')
}

/// How many letters, digits and `_` stand at the front of a text.
fn name_len(text: &[u8]) -> usize
    ensures counted { result ≡ prefix_len is_word text.now }
    ensures within { result ≤ length text.now }
{
    text.iter().take_while(|byte| is_word(**byte)).count()
}

/// How many digits stand at the front of a name.
fn digits_len(name: &[u8]) -> usize
    ensures { result ≡ prefix_len is_ascii_digit name.now }
{
    name.iter().take_while(|byte| byte.is_ascii_digit()).count()
}

fn is_word(byte: u8) -> bool
    ensures { result ≡ is_word byte }
{
    byte.is_ascii_alphanumeric() || byte == b'_'
}

/// Whether a name begins with a digit and holds something else.
fn is_ambiguous(name: &[u8]) -> bool
    ensures { result ≡ form.is_ambiguous name.now }
{
    begins_with_digit(name) && holds_other(name)
}

/// Whether a name holds something other than digits.
fn holds_other(name: &[u8]) -> bool
    ensures { result ≡ list_any (λ b. not (is_ascii_digit b)) name.now }
{
    name.iter().any(|byte| !byte.is_ascii_digit())
}

/// Whether a name begins with a digit.
fn begins_with_digit(name: &[u8]) -> bool
    ensures { result ≡ form.begins_with_digit name.now }
{
    match name.first() {
        Some(byte) => byte.is_ascii_digit(),
        None => false,
    }
}
