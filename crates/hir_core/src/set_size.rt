//! How many bytes the members of a set take.

ghost use Rattle.std.specs.Prelude.{◌≡◌, ◌≤◌, length};
ghost use Rattle.hir_tree.specs.Runs.{byte_size, char_size};

use bstr::decode_utf8;
use hir_tree::{SharedBytes, SharedChars};

/// How many bytes a member of a set of bytes takes at a place: one, if it stands there.
#[tactic(auto, unfolding(hir_tree::specs::Runs::byte_size))]
pub fn byte_size(set: &SharedBytes, text: &[u8], at: usize) -> Option<usize>
    ensures { result ≡ byte_size set.now text.now at }
{
    match text.get(at).copied() {
        Some(byte) if set.contains(byte) => Some(1),
        _ => None,
    }
}

/// How many bytes the UTF-8 of a member of a set of characters takes at a place, if it stands there.
#[tactic(auto, unfolding(hir_tree::specs::Runs::char_size))]
pub fn char_size(set: &SharedChars, text: &[u8], at: usize) -> Option<usize>
    requires { at ≤ length text.now }
    ensures { result ≡ char_size set.now text.now at }
{
    let (character, size) = decode_utf8(&text[at..]);
    match character {
        Some(c) if set.contains(c) => Some(size),
        _ => None,
    }
}
