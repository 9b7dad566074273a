//! Laws of globs.

ghost use Rattle.glob_match.specs.Laws.{OneMoreSignTurns, PlainFitsItself, OneListOfRanges, AsManyRanges};

/// One more `!` turns the answer of a valid glob.
pub fn one_more_sign_turns_the_answer()
    ensures { OneMoreSignTurns }
{}

/// A glob of plain characters fits its own text, and no other.
pub fn plain_fits_itself()
    ensures { PlainFitsItself }
{}

/// A glob captures one list of ranges of a path.
pub fn one_list_of_ranges()
    ensures { OneListOfRanges }
{}

/// A glob captures as many ranges of each path.
pub fn as_many_ranges_of_each_path()
    ensures { AsManyRanges }
{}
