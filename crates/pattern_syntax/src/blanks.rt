//! What is passed over between the parts of a pattern.

ghost use Rattle.std.specs.Prelude.{◌≡◌, ◌≤◌, drop, length};
ghost use Rattle.pattern_syntax.specs.Flags.{seen_if};
ghost use Rattle.pattern_syntax.specs.Class.{dash_makes_range};

use unicode::properties::is_white_space;

/// The place behind white space and comments, where they are passed over.
pub fn behind_blanks(text: &[char], at: usize, spaces: bool) -> usize
    requires { at ≤ length text.now }
    ensures seen { drop result text.now ≡ seen_if spaces (drop at text.now) }
    ensures within { result ≤ length text.now }
{
    if !spaces {
        return at;
    }
    let mut place = at;
    let mut in_comment = false;
    while place < text.len() {
        let c = text[place];
        if in_comment {
            in_comment = c != '\n';
        } else if c == '#' {
            in_comment = true;
        } else if !is_white_space(c) {
            return place;
        }
        place += 1;
    }
    place
}

/// Whether a `-` that comes next behind a member of a class makes a range.
pub fn makes_range(text: &[char], at: usize, spaces: bool) -> bool
    requires { at ≤ length text.now }
    ensures { result ≡ dash_makes_range spaces (drop at text.now) }
{
    let dash = behind_blanks(text, at, spaces);
    if dash == text.len() || text[dash] != '-' {
        return false;
    }
    let further = behind_blanks(text, dash + 1, spaces);
    further == text.len() || (text[further] != '-' && text[further] != ']')
}
