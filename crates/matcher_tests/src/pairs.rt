//! A matcher with captures: a byte and the one after it, which is group 1.

ghost use Rattle.std.specs.Prelude.{◌≡◌, ℕ, ◌+◌, length, true, Bool, List, Option, Some, None, [], ◌∷◌};
ghost use Rattle.matcher_tests.specs.Pairs.{end_of_pair, groups_of_pair, pair_lawful, pair_groups};

use grep_matcher::{Captures, Match, Matcher, NoError};

/// The groups of a pair.
#[derive(Drop)]
pub struct PairCaptures {
    all: Option<Match>,
    second: Option<Match>,
}

impl Captures for PairCaptures {
    ghost groups = { λ c. c.all ∷ c.second ∷ [] };

    fn len(&self) -> usize {
        2
    }

    fn get(&self, i: usize) -> Option<Match> {
        match i {
            0 => self.all,
            1 => self.second,
            _ => None,
        }
    }
}

/// The matcher of a byte and the one after it.
#[derive(Drop)]
pub struct Pairs {
    pub first: u8,
}

impl Matcher for Pairs {
    type Captures = PairCaptures;

    type Error = NoError;

    ghost preferred = { λ m haystack place. end_of_pair haystack m.first place };

    ghost has_groups = { λ _. true };

    ghost groups_at = { λ _ _ place. groups_of_pair place };

    ghost group_count = { λ _. 2 };

    ghost fits = { λ _ _. Unit {0} };

    ghost may_fail = { λ _ _. ⊥ };

    ghost lawful = { λ m haystack. pair_lawful haystack m.first };

    ghost lawful_groups = { λ m haystack place end le is captures. pair_groups haystack m.first place end le is };

    fn find_at(&self, haystack: &[u8], at: usize) -> Result<Option<Match>, NoError> {
        let mut place = at;
        while place + 1 < haystack.len() {
            if haystack[place] == self.first {
                return Ok(Some(Match::new(place, place + 2)));
            }
            place += 1;
        }
        Ok(None)
    }

    fn new_captures(&self) -> Result<PairCaptures, NoError> {
        Ok(PairCaptures {
            all: None,
            second: None,
        })
    }

    fn capture_count(&self) -> usize
        ensures { result ≡ 2 }
    {
        2
    }

    fn captures_at(
        &self,
        haystack: &[u8],
        at: usize,
        caps: &mut PairCaptures,
    ) -> Result<bool, NoError> {
        let Some(found) = self.find_at(haystack, at)? else {
            return Ok(false);
        };
        caps.all = Some(found);
        caps.second = Some(Match::new(found.start() + 1, found.end()));
        Ok(true)
    }
}
