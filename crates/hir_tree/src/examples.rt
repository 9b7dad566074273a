//! Worked examples of looks.

ghost use Rattle.std.specs.Prelude.{◌≡◌, [], ◌∷◌, ◌++◌, codes};
ghost use Rattle.hir_tree.specs.Examples.{places_of};

use crate::Look;

/// The places at which lines start and end.
#[tactic(auto, unfolding(crate::proofs::Computing::looks))]
pub fn lines_start_and_end_as_in_the_examples()
    ensures start { places_of Look.Start (codes "a\nb") ≡ 0 ∷ [] }
    ensures end { places_of Look.End (codes "a\nb") ≡ 3 ∷ [] }
    ensures start_lf { places_of Look.StartLF (codes "a\r\nb") ≡ 0 ∷ 3 ∷ [] }
    ensures end_lf { places_of Look.EndLF (codes "a\r\nb") ≡ 2 ∷ 4 ∷ [] }
    ensures start_crlf { places_of Look.StartCRLF (codes "a\r\nb\rc") ≡ 0 ∷ 3 ∷ 5 ∷ [] }
    ensures end_crlf { places_of Look.EndCRLF (codes "a\r\nb\rc") ≡ 1 ∷ 4 ∷ 6 ∷ [] }
{}

/// The places at which ASCII words start and end. The bytes 204 and 129 are a combining accent.
#[tactic(auto, unfolding(crate::proofs::Computing::looks))]
pub fn ascii_words_stand_as_in_the_examples()
    ensures edges { places_of Look.WordAscii (codes "e" ++ 204 ∷ 129 ∷ []) ≡ 0 ∷ 1 ∷ [] }
    ensures no_edges { places_of Look.WordAsciiNegate (codes "e" ++ 204 ∷ 129 ∷ []) ≡ 2 ∷ 3 ∷ [] }
    ensures starts { places_of Look.WordStartAscii (codes "a b") ≡ 0 ∷ 2 ∷ [] }
    ensures ends { places_of Look.WordEndAscii (codes "a b") ≡ 1 ∷ 3 ∷ [] }
    ensures half_starts { places_of Look.WordStartHalfAscii (codes "a -") ≡ 0 ∷ 2 ∷ 3 ∷ [] }
    ensures half_ends { places_of Look.WordEndHalfAscii (codes "a -") ≡ 1 ∷ 2 ∷ 3 ∷ [] }
{}

/// The places at which words of Unicode start and end.
#[tactic(auto, unfolding(crate::proofs::Computing::looks))]
pub fn words_stand_as_in_the_examples()
    ensures edges { places_of Look.WordUnicode (codes "e" ++ 204 ∷ 129 ∷ []) ≡ 0 ∷ 3 ∷ [] }
    ensures no_edges { places_of Look.WordUnicodeNegate (codes "e" ++ 204 ∷ 129 ∷ []) ≡ 1 ∷ [] }
    ensures starts { places_of Look.WordStartUnicode (codes "a b") ≡ 0 ∷ 2 ∷ [] }
    ensures ends { places_of Look.WordEndUnicode (codes "a b") ≡ 1 ∷ 3 ∷ [] }
    ensures half_starts { places_of Look.WordStartHalfUnicode (codes "a -") ≡ 0 ∷ 2 ∷ 3 ∷ [] }
    ensures half_ends { places_of Look.WordEndHalfUnicode (codes "a -") ≡ 1 ∷ 2 ∷ 3 ∷ [] }
{}

/// The Unicode looks at two bytes that are no characters: 255, and 226 at the end of the text.
#[tactic(auto, unfolding(crate::proofs::Computing::looks))]
pub fn broken_sides_count_as_in_the_examples()
    ensures edges { places_of Look.WordUnicode (255 ∷ codes "a" ++ 226 ∷ []) ≡ 1 ∷ 2 ∷ [] }
    ensures no_edges { places_of Look.WordUnicodeNegate (255 ∷ codes "a" ++ 226 ∷ []) ≡ [] }
    ensures starts { places_of Look.WordStartUnicode (255 ∷ codes "a" ++ 226 ∷ []) ≡ 1 ∷ [] }
    ensures ends { places_of Look.WordEndUnicode (255 ∷ codes "a" ++ 226 ∷ []) ≡ 2 ∷ [] }
    ensures half_starts { places_of Look.WordStartHalfUnicode (255 ∷ codes "a" ++ 226 ∷ []) ≡ 0 ∷ [] }
    ensures half_ends { places_of Look.WordEndHalfUnicode (255 ∷ codes "a" ++ 226 ∷ []) ≡ 3 ∷ [] }
{}
