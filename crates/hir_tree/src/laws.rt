//! Laws of the characters beside a place.

ghost use Rattle.std.specs.Prelude.{◌≡◌, ◌↔◌, ◌≤◌, ℕ, List, None, Some, length};
ghost use Rattle.hir_tree.specs.Laws.{BeginsAt, EndsAt, MemberBeginsAt};
ghost use Rattle.hir_tree.specs.Runs.{char_size};
ghost use Rattle.hir_tree.specs.Sides.{char_after, char_before};

/// The character after a place is the one whose UTF-8 begins there, and the character before it the one whose UTF-8
/// ends there.
pub fn characters_stand_beside_a_place()
    ensures after { (c : ℕ) (text : List ℕ) (at : ℕ) → (char_after text at ≡ Some c) ↔ BeginsAt c text at }
    ensures before { (c : ℕ) (text : List ℕ) (at : ℕ) → at ≤ length text → (char_before text at ≡ Some c) ↔ EndsAt c text at }
{}

/// A set of characters takes so many bytes at a place exactly where the UTF-8 of a member begins there and is as long, and
/// none where no member's does.
pub fn a_set_takes_the_member_that_begins_at_a_place()
    ensures taken { (set : List (ℕ × ℕ)) (text : List ℕ) (at size : ℕ) → (char_size set text at ≡ Some size) ↔ MemberBeginsAt set text at size }
    ensures none { (set : List (ℕ × ℕ)) (text : List ℕ) (at : ℕ) → (char_size set text at ≡ None) ↔ ((size : ℕ) → MemberBeginsAt set text at size → ⊥) }
{}
