//! Patterns that are one text.

ghost use Rattle.hir_tree.specs.PlainText.{OneTextMatchesWhereItStands};

/// The preferred match of a pattern that is one text is that text, where it stands.
pub fn one_text_matches_where_it_stands()
    ensures { OneTextMatchesWhereItStands }
{}
