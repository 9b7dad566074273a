//! A matcher of one text, without captures.

ghost use Rattle.std.specs.Prelude.{◌≡◌, ℕ, length, []};
ghost use Rattle.grep_matcher.specs.Plain.{end_of_text};
ghost use Rattle.grep_matcher.specs.PlainLemmas.{text_lawful, no_groups};

use grep_matcher::{Match, Matcher, NoCaptures, NoError};

/// The matcher of one text.
#[derive(Drop)]
pub struct Plain<'a> {
    pub text: &'a [u8],
}

impl Matcher for Plain<'_> {
    type Captures = NoCaptures;

    type Error = NoError;

    ghost preferred = { λ m haystack place. end_of_text haystack m.text.now place };

    ghost fits = { λ _ _. Unit {0} };

    ghost may_fail = { λ _ _. ⊥ };

    ghost lawful = { λ m haystack. text_lawful haystack m.text.now };

    ghost lawful_groups = { λ m haystack place end le is never. no_groups place end (length haystack) [] never };

    fn find_at(&self, haystack: &[u8], at: usize) -> Result<Option<Match>, NoError> {
        let mut place = at;
        while place <= haystack.len() {
            let rest = &haystack[place..];
            if rest.starts_with(self.text) {
                return Ok(Some(Match::new(place, place + self.text.len())));
            }
            place += 1;
        }
        Ok(None)
    }

    fn new_captures(&self) -> Result<NoCaptures, NoError> {
        Ok(NoCaptures::new())
    }

    fn captures_at(
        &self,
        _haystack: &[u8],
        _at: usize,
        _caps: &mut NoCaptures,
    ) -> Result<bool, NoError> {
        Ok(false)
    }
}
