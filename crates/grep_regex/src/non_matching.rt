//! Bytes that are in no match.

ghost use Rattle.std.specs.Prelude.{◌≡◌, ◌+◌, ◌<◌, ◌≤◌, ◌↔◌, ℕ, All, Contains, IsTrue, map};
ghost use Rattle.grep_matcher.specs.ByteSets.{is_in};
ghost use Rattle.grep_regex.specs.Anchors.{includes};
ghost use Rattle.grep_regex.specs.NonMatching.{IsNonMatching, OneTakes, Takes, has_look, is_text_anchor, one_has_look};
ghost use Rattle.grep_regex.specs.Removed.{HasLost, IsContinuationOf, IsInFormOf, IsInUtf8Of, utf8_form};
ghost use Rattle.hir_tree.specs.Ranges.{Holds};
ghost use Rattle.hir_tree.specs.Tree.{class_chars, tree_of, trees};

use grep_matcher::ByteSet;
use hir_core::{
    ByteRanges, Bytes, CharRanges, Hir, Look, a_tree_is_made_of_the_trees_of_the_parts,
};

/// The bytes that are in no match of a pattern: those that no literal holds, and no encoding of a member of a class. Without `\n`
/// where the start or end of a line or of the text is asked for, and without `\r` where `\r` may end a line.
pub fn non_matching_bytes(hir: &Hir) -> ByteSet
    ensures { (byte : ℕ) → byte < 256 → IsTrue (is_in result byte) ↔ IsNonMatching (tree_of hir.now) byte }
{
    let mut set = ByteSet::full();
    remove_taken(&mut set, hir);
    if has_anchor(hir, Anchors::All) {
        set.remove(b'\n');
    }
    if has_anchor(hir, Anchors::Crlf) {
        set.remove(b'\r');
    }
    set
}

/// Whether a pattern asks for the start or the end of the text.
pub(crate) fn has_text_anchor(hir: &Hir) -> bool
    ensures { result ≡ has_look is_text_anchor (tree_of hir.now) }
{
    has_anchor(hir, Anchors::Text)
}

/// Sets of anchors: of looks that ask for a start or an end.
#[derive(Clone, Copy)]
enum Anchors {
    /// Of the text or of a line.
    All,
    /// Of a line that `\r` may end.
    Crlf,
    /// Of the text.
    Text,
}

impl Anchors {
    /// Whether a look is one of these anchors.
    fn includes(self, look: Look) -> bool
        ensures { result ≡ includes self look }
    {
        match self {
            Anchors::All => matches!(
                look,
                Look::Start
                    | Look::End
                    | Look::StartLF
                    | Look::EndLF
                    | Look::StartCRLF
                    | Look::EndCRLF
            ),
            Anchors::Crlf => matches!(look, Look::StartCRLF | Look::EndCRLF),
            Anchors::Text => matches!(look, Look::Start | Look::End),
        }
    }
}

/// Whether a pattern has one of these anchors.
#[cycle(anchors)]
fn has_anchor(hir: &Hir, anchors: Anchors) -> bool
    ensures { result ≡ has_look (includes anchors) (tree_of hir.now) }
{
    match hir {
        Hir::Empty | Hir::Literal(_) | Hir::ClassChars(_) | Hir::ClassBytes(_) => false,
        Hir::Look(look) => anchors.includes(*look),
        Hir::Repetition(repeat) => has_anchor(&repeat.sub, anchors),
        Hir::Capture(group) => has_anchor(&group.sub, anchors),
        Hir::Concat(hirs) | Hir::Alternation(hirs) => {
            a_tree_is_made_of_the_trees_of_the_parts();
            one_has_anchor(hirs.parts(), anchors)
        }
    }
}

/// Whether one of the parts has one of these anchors.
#[cycle(anchors)]
fn one_has_anchor(parts: &[Hir], anchors: Anchors) -> bool
    ensures { result ≡ one_has_look (includes anchors) (trees (map tree_of parts.now)) }
{
    for part in parts {
        if has_anchor(part, anchors) {
            return true;
        }
    }
    false
}

/// Takes out of a set the bytes that a pattern takes.
#[cycle(taken)]
fn remove_taken(set: &mut ByteSet, hir: &Hir)
    ensures { HasLost set.old set.new (λ b. Takes b (tree_of hir.now)) }
{
    match hir {
        Hir::Empty | Hir::Look(_) => {}
        Hir::Literal(bytes) => remove_literal(set, bytes),
        Hir::ClassChars(ranges) => remove_chars(set, ranges),
        Hir::ClassBytes(ranges) => remove_bytes(set, ranges),
        Hir::Repetition(repeat) => remove_taken(set, &repeat.sub),
        Hir::Capture(group) => remove_taken(set, &group.sub),
        Hir::Concat(hirs) | Hir::Alternation(hirs) => {
            a_tree_is_made_of_the_trees_of_the_parts();
            remove_taken_by_parts(set, hirs.parts());
        }
    }
}

/// Takes out the bytes that parts take.
#[cycle(taken)]
fn remove_taken_by_parts(set: &mut ByteSet, parts: &[Hir])
    ensures { HasLost set.old set.new (λ b. OneTakes b (trees (map tree_of parts.now))) }
{
    for part in parts {
        remove_taken(set, part);
    }
}

/// Takes out the bytes of a literal.
fn remove_literal(set: &mut ByteSet, bytes: &Bytes)
    ensures { HasLost set.old set.new (Contains bytes.now) }
{
    for i in 0..bytes.len() {
        set.remove(bytes.get(i));
    }
}

/// Takes out the bytes of a class of bytes.
fn remove_bytes(set: &mut ByteSet, ranges: &ByteRanges)
    ensures { HasLost set.old set.new (Holds ranges.now) }
{
    for i in 0..ranges.len() {
        let (start, end) = ranges.get(i);
        set.remove_all(start, end);
    }
}

/// Takes out the bytes of the UTF-8 of a class of characters.
fn remove_chars(set: &mut ByteSet, ranges: &CharRanges)
    ensures { HasLost set.old set.new (λ b. Takes b (class_chars ranges.now)) }
{
    for i in 0..ranges.len() {
        let (start, end) = ranges.get(i);
        remove_char_range(set, start, end);
    }
}

/// Takes out the bytes of the UTF-8 of the characters from `start` to `end`.
fn remove_char_range(set: &mut ByteSet, start: char, end: char)
    ensures { HasLost set.old set.new (IsInUtf8Of (start, end)) }
{
    let (start, end) = (u32::from(start), u32::from(end));
    remove_forms(set, 0x00, 0, start, end.min(0x7F));
    remove_forms(set, 0xC0, 1, start.max(0x80), end.min(0x7FF));
    remove_forms(set, 0xE0, 2, start.max(0x800), end.min(0xD7FF));
    remove_forms(set, 0xE0, 2, start.max(0xE000), end.min(0xFFFF));
    remove_forms(set, 0xF0, 3, start.max(0x1_0000), end.min(0x10_FFFF));
}

/// Takes out the bytes of the numbers from `first` to `last` in the form of UTF-8 with so many continuation bytes, which have six
/// bits each. The first byte is the prefix and the top bits.
fn remove_forms(set: &mut ByteSet, prefix: u8, continuations: u32, first: u32, last: u32)
    requires fits { All (λ b. b < 256) (utf8_form prefix continuations last) }
    ensures { HasLost set.old set.new (IsInFormOf prefix continuations (first, last)) }
{
    if first > last {
        return;
    }
    let (mut low, mut high) = (first, last);
    for _ in 0..continuations {
        remove_continuations(set, low, high);
        low /= 64;
        high /= 64;
    }
    set.remove_all(prefix + low as u8, prefix + high as u8);
}

/// Takes out the continuation bytes that hold the last six bits of the numbers from `first` to `last`: 64 in a row have all.
fn remove_continuations(set: &mut ByteSet, first: u32, last: u32)
    requires { first ≤ last }
    ensures { HasLost set.old set.new (IsContinuationOf (first, last)) }
{
    for number in first..=first + (last - first).min(63) {
        set.remove(0x80 + (number % 64) as u8);
    }
}
