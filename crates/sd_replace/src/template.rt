//! A replacement text in pieces.

ghost use Rattle.std.specs.Prelude.{◌≡◌, ◌≤◌, ◌++◌, ◌∷◌, ℕ, List, [], IfOk, IfSome, OnOk, Some, drop, length, slice_get, slice_range};
ghost use Rattle.std.specs.Option.{option_map_or};
ghost use Rattle.grep_matcher.specs.CaptureRefs.{target_of};
ghost use Rattle.grep_matcher.specs.References as form;
ghost use Rattle.grep_matcher.specs.References.{expand, meaning, group_text};
ghost use Rattle.grep_regex.specs.Options.{names_in, number_of};
ghost use Rattle.grep_matcher.specs.References.{LieIn};
ghost use Rattle.hir_tree.specs.Tree.{tree_of};
ghost use Rattle.sd_replace.specs.Templates.{ArePiecesOf, pieces_text, piece_text};

use crate::Substitute;
use grep_matcher::{Captures, Match, Matcher, Ref, find_cap_ref};
use grep_regex::{RegexCaptures, RegexMatcher};
use memchr::memchr;
use sd_base::NoMemory;
use std::alloc::Global;

/// A piece of a replacement text.
#[derive(Drop)]
pub(crate) enum Piece {
    /// These bytes.
    Bytes(Vec<u8>),
    /// The text of the group of this number.
    Group(usize),
}

/// A replacement text in pieces.
#[derive(Drop)]
pub(crate) struct Template {
    pub(crate) pieces: Vec<Piece>,
}

impl Template {
    /// The pieces of what takes the place of a match. Names are those of the matcher's groups. Refuses for want of memory alone.
    pub(crate) fn new(
        alloc: Global,
        matcher: &RegexMatcher,
        substitute: &Substitute,
    ) -> Result<Template, NoMemory>
        ensures { IfOk result (λ template. ArePiecesOf substitute.now (tree_of matcher.now.searcher) template.pieces.items) }
    {
        match substitute {
            Substitute::Literal(text) => {
                let pieces = literal(alloc, text.as_str().as_bytes())?;
                Ok(Template { pieces })
            }
            Substitute::Expanded(text) => {
                let pieces = read(alloc, matcher, text.as_str().as_bytes())?;
                Ok(Template { pieces })
            }
        }
    }

    /// The text, where it is one piece or none. `None` where there are more, or a reference.
    pub(crate) fn text(&self) -> Option<&[u8]>
        ensures { IfSome result (λ text. (text_of : ℕ → List ℕ) → pieces_text text_of self.now.pieces.items ≡ text.now) }
    {
        match self.pieces.as_slice() {
            [] => Some(b""),
            [Piece::Bytes(bytes)] => Some(bytes),
            _ => None,
        }
    }

    /// Adds the text to `dst`, with the groups of a match of the haystack. Refuses for want of memory alone.
    #[inline(always)]
    pub(crate) fn append(
        &self,
        haystack: &[u8],
        groups: &RegexCaptures,
        dst: &mut Vec<u8>,
    ) -> Result<(), NoMemory>
        requires within { LieIn groups.now haystack.now }
        ensures { OnOk result (dst.new.items ≡ dst.old.items ++ pieces_text (group_text haystack.now groups.now) self.now.pieces.items) }
    {
        if let Some(text) = self.text() {
            dst.extend_from_slice(text)?;
            return Ok(());
        }
        for piece in &self.pieces {
            append_piece(piece, haystack, groups, dst)?;
        }
        Ok(())
    }
}

/// Adds the text of a piece: that of a group that isn't set is empty.
fn append_piece(
    piece: &Piece,
    haystack: &[u8],
    groups: &RegexCaptures,
    dst: &mut Vec<u8>,
) -> Result<(), NoMemory>
    requires within { LieIn groups.now haystack.now }
    ensures { OnOk result (dst.new.items ≡ dst.old.items ++ piece_text (group_text haystack.now groups.now) piece.now) }
{
    match piece {
        Piece::Bytes(bytes) => dst.extend_from_slice(bytes)?,
        Piece::Group(number) => append_span(groups.get(*number), haystack, dst)?,
    }
    Ok(())
}

/// Adds the bytes of the haystack at a span, if there is one.
fn append_span(span: Option<Match>, haystack: &[u8], dst: &mut Vec<u8>) -> Result<(), NoMemory>
    requires within { IfSome span (λ span. span.end ≤ length haystack.now) }
    ensures { OnOk result (dst.new.items ≡ dst.old.items ++ option_map_or (λ span. slice_range haystack.now span.start span.end) span []) }
{
    if let Some(span) = span {
        dst.extend_from_slice(&haystack[span.start()..span.end()])?;
    }
    Ok(())
}

/// A text that is itself, as one piece.
fn literal(alloc: Global, text: &[u8]) -> Result<Vec<Piece>, NoMemory>
    ensures { IfOk result (λ pieces. (text_of : ℕ → List ℕ) → pieces_text text_of pieces.items ≡ text.now) }
{
    let mut pieces = Vec::new(alloc);
    push_bytes(alloc, text, &mut pieces)?;
    Ok(pieces)
}

/// The pieces of a text with references.
fn read(alloc: Global, matcher: &RegexMatcher, text: &[u8]) -> Result<Vec<Piece>, NoMemory>
    ensures { IfOk result (λ pieces. (text_of : ℕ → List ℕ) → pieces_text text_of pieces.items
        ≡ expand text_of (number_of (names_in (tree_of matcher.now.searcher))) text.now) }
{
    let mut pieces = Vec::new(alloc);
    let mut rest = text;
    while let Some(place) = memchr(b'$', rest) {
        let (before, front) = rest.split_at(place);
        push_bytes(alloc, before, &mut pieces)?;
        let taken = push_front(alloc, matcher, front, &mut pieces)?;
        rest = &front[taken..];
    }
    push_bytes(alloc, rest, &mut pieces)?;
    Ok(pieces)
}

/// Adds what stands at the front of a text that begins with `$`, and answers the number of bytes that it takes.
fn push_front(
    alloc: Global,
    matcher: &RegexMatcher,
    text: &[u8],
    pieces: &mut Vec<Piece>,
) -> Result<usize, NoMemory>
    requires dollar { slice_get text.now 0 ≡ Some 36 }
    ensures taken { IfOk result (λ taken. taken ≡ (form.front 36 (drop 1 text.now)).width) }
    ensures within { IfOk result (λ taken. taken ≤ length text.now) }
    ensures added { OnOk result ((text_of : ℕ → List ℕ) → pieces_text text_of pieces.new.items ≡ pieces_text text_of pieces.old.items
        ++ meaning text_of (number_of (names_in (tree_of matcher.now.searcher))) (form.front 36 (drop 1 text.now)).piece) }
{
    let Some(reference) = find_cap_ref(text) else {
        push_bytes(alloc, b"$", pieces)?;
        return Ok(dollars(text));
    };
    push_group(matcher, reference.cap, pieces)?;
    Ok(reference.end)
}

/// How many bytes of a text that begins with `$`, and with no reference, stand for one `$`: two for `$$`.
fn dollars(text: &[u8]) -> usize
    requires { 1 ≤ length text.now }
    ensures taken { result ≡ (form.dollars_or_byte 36 (drop 1 text.now)).width }
    ensures within { result ≤ length text.now }
{
    if text.get(1) == Some(&b'$') { 2 } else { 1 }
}

/// Adds a group, or nothing for a name that no group has.
fn push_group(
    matcher: &RegexMatcher,
    group: Ref<'_>,
    pieces: &mut Vec<Piece>,
) -> Result<(), NoMemory>
    ensures { OnOk result ((text_of : ℕ → List ℕ) → pieces_text text_of pieces.new.items ≡ pieces_text text_of pieces.old.items
        ++ meaning text_of (number_of (names_in (tree_of matcher.now.searcher))) (form.group (target_of group.entry))) }
{
    let number = match group {
        Ref::Number(number) => Some(number),
        Ref::Named(name) => matcher.capture_index(name),
    };
    if let Some(number) = number {
        pieces.push(Piece::Group(number))?;
    }
    Ok(())
}

/// Adds bytes, if there are any.
fn push_bytes(alloc: Global, bytes: &[u8], pieces: &mut Vec<Piece>) -> Result<(), NoMemory>
    ensures { OnOk result ((text_of : ℕ → List ℕ) → pieces_text text_of pieces.new.items ≡ pieces_text text_of pieces.old.items ++ bytes.now) }
{
    if bytes.is_empty() {
        return Ok(());
    }
    pieces.push(Piece::Bytes(Vec::from_slice(alloc, bytes)?))?;
    Ok(())
}
