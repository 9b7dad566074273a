//! The fields of a line, one by one.

ghost use Rattle.std.specs.Prelude.{◌≡◌, ℕ, List, IfSome, IfNone};
ghost use Rattle.sd_plan.specs.Reading.{Finds, Lacks, IsCut, HasFields, IsDigestField, IsMarkField, IsCountField};

use crate::Digest;
use hex::decode_to_slice;
use itoa::Buffer;
use memchr::memchr;

/// The five fields of a line, which are parted by one space each.
#[derive(Clone, Copy)]
pub(crate) struct Fields<'a> {
    pub before: &'a [u8],
    pub after: &'a [u8],
    pub mark: &'a [u8],
    pub count: &'a [u8],
    pub path: &'a [u8],
}

/// The fields of a line. `None` exactly where it doesn't have them.
pub(crate) fn cut_fields(line: &[u8]) -> Option<Fields<'_>>
    ensures found { IfSome result (λ fields. HasFields line.now fields.before.now fields.after.now fields.mark.now fields.count.now fields.path.now) }
    ensures none { IfNone result ((before after mark count path : List ℕ) → HasFields line.now before after mark count path → ⊥) }
{
    let (before, rest) = cut(line, b' ')?;
    let (after, rest) = cut(rest, b' ')?;
    let (mark, rest) = cut(rest, b' ')?;
    let (count, path) = cut(rest, b' ')?;
    Some(Fields {
        before,
        after,
        mark,
        count,
        path,
    })
}

/// What stands before the first such byte, and what follows it. `None` exactly where there is none.
pub fn cut(text: &[u8], byte: u8) -> Option<(&[u8], &[u8])>
    ensures found { IfSome result (λ parts. IsCut byte text.now parts.0.now parts.1.now) }
    ensures none { IfNone result (Lacks byte text.now) }
{
    let at = memchr(byte, text)?;
    Some((&text[..at], &text[at + 1..]))
}

/// The digest that is written so, in lower case. `None` exactly where there is none.
pub fn read_digest(field: &[u8]) -> Option<Digest>
    ensures { Finds (IsDigestField field.now) result }
{
    let mut bytes = [0; 32];
    if decode_to_slice(field, &mut bytes).is_err() {
        return None;
    }
    let digest = Digest::from_slice(&bytes);
    let digits = digest.digits();
    if digits.as_slice() == field {
        Some(digest)
    } else {
        None
    }
}

/// Whether the mark says that the file changes. `None` exactly where it is no mark.
pub(crate) fn read_mark(field: &[u8]) -> Option<bool>
    ensures { Finds (IsMarkField field.now) result }
{
    match field {
        b"+" => Some(true),
        b"=" => Some(false),
        _ => None,
    }
}

/// The number that is written so, without leading zeros. `None` exactly where there is none of 128 bits.
pub(crate) fn read_count(field: &[u8]) -> Option<u128>
    ensures { Finds (IsCountField field.now) result }
{
    let text = str::from_utf8(field).ok()?;
    let count: u128 = text.parse().ok()?;
    let mut buffer = Buffer::new();
    if buffer.format(count).as_bytes() == field {
        Some(count)
    } else {
        None
    }
}
