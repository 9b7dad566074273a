//! A matcher of one byte, which tells of bytes that are in no match.

ghost use Rattle.std.specs.Prelude.{◌≡◌, ℕ, length, []};
ghost use Rattle.grep_matcher.specs.PlainLemmas.{no_groups};
ghost use Rattle.matcher_tests.specs.OneByte.{end_of_byte, byte_lawful};

use grep_matcher::{ByteSet, LineTerminator, Match, Matcher, NoCaptures, NoError};

/// The matcher of one byte.
#[derive(Drop)]
pub struct OneByte {
    pub byte: u8,
    /// Bytes of which it may tell.
    pub others: ByteSet,
}

impl Matcher for OneByte {
    type Captures = NoCaptures;

    type Error = NoError;

    ghost preferred = { λ m haystack place. end_of_byte haystack m.byte place };

    ghost fits = { λ _ _. Unit {0} };

    ghost may_fail = { λ _ _. ⊥ };

    ghost lawful = { λ m haystack. byte_lawful haystack m.byte };

    ghost lawful_groups = { λ m haystack place end le is never. no_groups place end (length haystack) [] never };

    fn find_at(&self, haystack: &[u8], at: usize) -> Result<Option<Match>, NoError> {
        let mut place = at;
        while place < haystack.len() {
            if haystack[place] == self.byte {
                return Ok(Some(Match::new(place, place + 1)));
            }
            place += 1;
        }
        Ok(None)
    }

    fn new_captures(&self) -> Result<NoCaptures, NoError> {
        Ok(NoCaptures::new())
    }

    fn captures_at(
        &self,
        _haystack: &[u8],
        _at: usize,
        _caps: &mut NoCaptures,
    ) -> Result<bool, NoError> {
        Ok(false)
    }

    fn non_matching_bytes(&self) -> Option<&ByteSet> {
        if self.others.contains(self.byte) {
            None
        } else {
            Some(&self.others)
        }
    }

    fn line_terminator(&self) -> Option<LineTerminator> {
        match self.byte {
            b'\r' | b'\n' => None,
            _ => Some(LineTerminator::crlf()),
        }
    }
}

/// Whether the bytes that are told of are others than the dash.
fn tells_others(dash: &OneByte) -> bool {
    match dash.non_matching_bytes() {
        Some(told) => told.contains(b'a') && told.contains(b'\n') && !told.contains(b'-'),
        None => false,
    }
}

/// Whether the end of lines is told, also through two references.
fn tells_crlf(dash: &OneByte) -> bool {
    dash.line_terminator() == Some(LineTerminator::crlf())
        && (&dash).line_terminator() == Some(LineTerminator::crlf())
}

/// Whether nothing is told.
fn tells_nothing(feed: &OneByte) -> bool {
    feed.non_matching_bytes().is_none() && feed.line_terminator().is_none()
}

#[test]
fn bytes_in_no_match_are_told(rt: HostRuntime) {
    let mut others = ByteSet::full();
    others.remove(b'-');
    let dash = OneByte { byte: b'-', others };
    assert!(rt; dash.find(b"a-b") == Ok(Some(Match::new(1, 2))));
    assert!(rt; tells_others(&dash));
    assert!(rt; tells_crlf(&dash));
    let feed = OneByte {
        byte: b'\n',
        others: ByteSet::full(),
    };
    assert!(rt; tells_nothing(&feed));
}
