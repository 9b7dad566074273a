//! What a parse gives to the flags, the options and the words.

ghost use Rattle.std.specs.Prelude.{◌≡◌, [], IfOk, map, option_map, unwrap_or};
ghost use Rattle.clap.specs.Words.{all_of, first_of, found_of, rows_of};
ghost use Rattle.sd_words.specs.Order as form;
ghost use Rattle.sd_words.specs.OrderRead.{number_or_usage};

use crate::OptionsFault;
use crate::number::number;
use clap::ArgMatches;
use sd_base::{NoMemory, Text, Texts};
use std::alloc::Global;

/// Whether a flag was used. Its text is then `true`, and else `false`.
pub fn is_set(matches: &ArgMatches<'_>, name: &str) -> bool
    ensures { result ≡ form.is_set name.now (rows_of (found_of matches.now)) }
{
    match value(matches, name) {
        Some(text) => text == "true",
        None => false,
    }
}

/// The number of an option, where it is given, or `Usage` where its text is no number.
pub fn number_given(matches: &ArgMatches<'_>, name: &str) -> Result<Option<u64>, OptionsFault>
    ensures { result ≡ number_or_usage (first_of name.now (rows_of (found_of matches.now))) }
{
    match value(matches, name) {
        Some(text) => match number(text) {
            Some(n) => Ok(Some(n)),
            None => Err(OptionsFault::Usage(None)),
        },
        None => Ok(None),
    }
}

/// A copy of the text of an option, where it is given.
pub fn text_given(
    alloc: Global,
    matches: &ArgMatches<'_>,
    name: &str,
) -> Result<Option<Text>, NoMemory>
    ensures { IfOk result (λ text. text ≡ first_of name.now (rows_of (found_of matches.now))) }
{
    match value(matches, name) {
        Some(text) => Ok(Some(Text::new(alloc, text)?)),
        None => Ok(None),
    }
}

/// A copy of a word, which is empty where there is none.
pub fn word(alloc: Global, matches: &ArgMatches<'_>, name: &str) -> Result<Text, NoMemory>
    ensures { IfOk result (λ text. text ≡ unwrap_or (first_of name.now (rows_of (found_of matches.now))) []) }
{
    Text::new(alloc, value(matches, name).unwrap_or(""))
}

/// Copies of all words of a name.
pub fn words(alloc: Global, matches: &ArgMatches<'_>, name: &str) -> Result<Texts, NoMemory>
    ensures { IfOk result (λ texts. texts ≡ unwrap_or (all_of name.now (rows_of (found_of matches.now))) []) }
{
    match values(matches, name) {
        Some(texts) => all_owned(alloc, texts),
        None => Ok(Texts::new(alloc)),
    }
}

/// Copies of texts.
fn all_owned(alloc: Global, texts: &[&str]) -> Result<Texts, NoMemory>
    ensures { IfOk result (λ owned. owned ≡ map (λ s. s.now) texts.now) }
{
    let mut owned = Texts::new(alloc);
    for text in texts {
        owned.push(text)?;
    }
    Ok(owned)
}

/// The first text of an option or a word.
fn value<'a>(matches: &ArgMatches<'a>, name: &str) -> Option<&'a str>
    ensures { option_map (λ s. s.now) result ≡ first_of name.now (rows_of (found_of matches.now)) }
{
    matches.get_str(name)
}

/// All texts of a word, where it has any.
fn values<'m, 'a>(matches: &'m ArgMatches<'a>, name: &str) -> Option<&'m [&'a str]>
    ensures { option_map (λ s. map (λ v. v.now) s.now) result ≡ all_of name.now (rows_of (found_of matches.now)) }
{
    matches.get_strs(name)
}
