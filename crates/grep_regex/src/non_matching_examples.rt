//! Worked examples of bytes that are in no match.

ghost use Rattle.std.specs.Prelude.{◌↔◌, ℕ, [], ◌∷◌};
ghost use Rattle.grep_regex.specs.NonMatching.{IsNonMatching, Takes};
ghost use Rattle.hir_tree.specs.Ranges.{Holds};
ghost use Rattle.hir_tree.specs.Tree.{class_chars, look};

use hir_core::Look;

/// The bytes that classes take: the ASCII letters `a` to `c`, the letters `é` to `ë` of two bytes, U+D7FF and U+E000, nothing between
/// them, and all characters, whose UTF-8 never has 0xC0, 0xC1 and 0xF5 to 0xFF.
pub fn bytes_are_taken_as_in_the_examples()
    ensures ascii { (b : ℕ) → Takes b (class_chars ((0x61, 0x63) ∷ [])) ↔ Holds ((0x61, 0x63) ∷ []) b }
    ensures two_bytes { (b : ℕ) → Takes b (class_chars ((0xE9, 0xEB) ∷ [])) ↔ Holds ((0xA9, 0xAB) ∷ (0xC3, 0xC3) ∷ []) b }
    ensures beside_surrogates { (b : ℕ) → Takes b (class_chars ((0xD7FF, 0xE000) ∷ [])) ↔ Holds ((0x80, 0x80) ∷ (0x9F, 0x9F) ∷ (0xBF, 0xBF) ∷ (0xED, 0xEE) ∷ []) b }
    ensures surrogates { (b : ℕ) → Takes b (class_chars ((0xD800, 0xDFFF) ∷ [])) → ⊥ }
    ensures all { (b : ℕ) → Takes b (class_chars ((0, 0x10FFFF) ∷ [])) ↔ Holds ((0, 0xBF) ∷ (0xC2, 0xF4) ∷ []) b }
{}

/// Of `(?m:^)` the byte `\n` isn't among the bytes of no match, of `(?mR:$)` neither `\n` nor `\r`, and of `\b` both are.
pub fn anchors_ask_for_bytes_as_in_the_examples()
    ensures line { IsNonMatching (look Look.StartLF) 10 → ⊥ }
    ensures return_beside_a_line { IsNonMatching (look Look.StartLF) 13 }
    ensures text { IsNonMatching (look Look.End) 10 → ⊥ }
    ensures crlf_line { IsNonMatching (look Look.EndCRLF) 10 → ⊥ }
    ensures crlf_return { IsNonMatching (look Look.EndCRLF) 13 → ⊥ }
    ensures word { IsNonMatching (look Look.WordUnicode) 10 }
    ensures other_byte { IsNonMatching (look Look.EndCRLF) 97 }
{}
