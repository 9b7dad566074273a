//! A replacer of one meaning.

ghost use Rattle.std.specs.Prelude.{◌≡◌, List, ℕ};
ghost use Rattle.journal_tests.specs.Replacers.{BecomesText, one_text};

use sd_base::NoMemory;
use sd_change::{Changed, Replaces};
use std::alloc::Global;

/// Whatever the bytes are, they become one text, as one span.
#[derive(Drop)]
pub struct Text<'a> {
    pub alloc: Global,
    pub text: &'a [u8],
}

impl Replaces for Text<'_> {
    ghost change = { λ replacer. BecomesText replacer.text.now };

    ghost one = { λ replacer. one_text replacer.text.now };

    fn change(&self, _content: &[u8]) -> Result<Option<Changed>, NoMemory> {
        let mut new_bytes = Vec::new(self.alloc);
        new_bytes.extend_from_slice(self.text)?;
        Ok(Some(Changed {
            new_bytes,
            count: 1,
        }))
    }
}
