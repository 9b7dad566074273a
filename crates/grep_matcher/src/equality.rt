//! Clones, equality and hashing of the values of this crate.

ghost use Rattle.std.specs.Prelude.{◌≡◌, ◌↔◌, IsTrue};
ghost use Rattle.grep_matcher.specs.Span.{Span};
ghost use Rattle.grep_matcher.specs.Terminators.{terminator_bytes};
ghost use Rattle.grep_matcher.specs.CaptureRefs.{target_of, reference_of};
ghost use Rattle.grep_matcher.specs.declared.byte_set.ByteSet.{ByteSet};
ghost use Rattle.grep_matcher.specs.declared.captures.NoCaptures.{NoCaptures};
ghost use Rattle.grep_matcher.specs.declared.fault.NoError.{NoError};
ghost use Rattle.grep_matcher.specs.declared.line_match_kind.LineMatchKind.{LineMatchKind};
ghost use Rattle.grep_matcher.specs.declared.line_terminator.LineTerminator.{LineTerminator};
ghost use Rattle.grep_matcher.specs.declared.references.CaptureRef.{CaptureRef};
ghost use Rattle.grep_matcher.specs.declared.references.Ref.{Ref};

use crate::byte_set::ByteSet;
use crate::captures::NoCaptures;
use crate::fault::NoError;
use crate::line_match_kind::LineMatchKind;
use crate::line_terminator::LineTerminator;
use crate::references::{CaptureRef, Ref};
use crate::span::Match;
use std::hash::Hash;

/// Spans are equal where their ends are, and equal spans give a hasher the same bytes.
pub fn equal_spans_hash_alike()
    ensures equal { (x y : Span) → IsTrue (⟦<Match as PartialEq>⟧.eq x y) ↔ (x ≡ y) }
    ensures alike { (x y : Span) → IsTrue (⟦<Match as PartialEq>⟧.eq x y) → ⟦<Match as Hash>⟧.hash_input x ≡ ⟦<Match as Hash>⟧.hash_input y }
{}

/// Line terminators are equal where their bytes are, and equal ones give a hasher the same bytes.
pub fn equal_terminators_hash_alike()
    ensures equal { (x y : LineTerminator) → IsTrue (⟦<LineTerminator as PartialEq>⟧.eq x y) ↔ (terminator_bytes x ≡ terminator_bytes y) }
    ensures alike { (x y : LineTerminator) → IsTrue (⟦<LineTerminator as PartialEq>⟧.eq x y) → ⟦<LineTerminator as Hash>⟧.hash_input x ≡ ⟦<LineTerminator as Hash>⟧.hash_input y }
{}

/// References are equal where they name the same, by its name or by its number, and take the same number of bytes. A
/// name isn't equal to a number. The error that no call makes is equal to itself.
pub fn equal_references_say_the_same()
    ensures targets { (x y : Ref) → IsTrue (⟦<Ref<'static> as PartialEq>⟧.eq x y) ↔ (target_of x ≡ target_of y) }
    ensures references { (x y : CaptureRef) → IsTrue (⟦<CaptureRef<'static> as PartialEq>⟧.eq x y) ↔ (reference_of x ≡ reference_of y) }
    ensures no_errors { (x y : NoError) → IsTrue (⟦<NoError as PartialEq>⟧.eq x y) }
{}

/// A clone is the value itself.
pub fn clones_are_their_values()
    ensures spans { (x y : Span) → ⟦<Match as Clone>⟧.is_clone x y → y ≡ x }
    ensures terminators { (x y : LineTerminator) → ⟦<LineTerminator as Clone>⟧.is_clone x y → y ≡ x }
    ensures line_matches { (x y : LineMatchKind) → ⟦<LineMatchKind as Clone>⟧.is_clone x y → y ≡ x }
    ensures targets { (x y : Ref) → ⟦<Ref<'static> as Clone>⟧.is_clone x y → y ≡ x }
    ensures references { (x y : CaptureRef) → ⟦<CaptureRef<'static> as Clone>⟧.is_clone x y → y ≡ x }
    ensures byte_sets { (x y : ByteSet) → ⟦<ByteSet as Clone>⟧.is_clone x y → y ≡ x }
    ensures no_captures { (x y : NoCaptures) → ⟦<NoCaptures as Clone>⟧.is_clone x y → y ≡ x }
{}

/// A clone is made even where there is no memory.
pub fn clones_are_always_made()
    ensures spans { (x : Span) → ⟦<Match as Clone>⟧.is_infallible x }
    ensures terminators { (x : LineTerminator) → ⟦<LineTerminator as Clone>⟧.is_infallible x }
    ensures line_matches { (x : LineMatchKind) → ⟦<LineMatchKind as Clone>⟧.is_infallible x }
    ensures targets { (x : Ref) → ⟦<Ref<'static> as Clone>⟧.is_infallible x }
    ensures references { (x : CaptureRef) → ⟦<CaptureRef<'static> as Clone>⟧.is_infallible x }
    ensures byte_sets { (x : ByteSet) → ⟦<ByteSet as Clone>⟧.is_infallible x }
    ensures no_captures { (x : NoCaptures) → ⟦<NoCaptures as Clone>⟧.is_infallible x }
{}
