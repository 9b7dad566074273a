//! What the words of a command line ask for.

ghost use Rattle.std.specs.Prelude.{◌≡◌, ◌≤◌, ℕ, IfOk, MatchResult, None, Some, map, if◌then◌else◌};
ghost use Rattle.clap.specs.Words.{found_of, rows_of};
ghost use Rattle.sd_words.specs.Order as form;
ghost use Rattle.sd_words.specs.OrderRead.{Refuses, RefusesRows};

use crate::OptionsFault;
use crate::command::command;
use crate::fault::refusal;
use crate::matched::{is_set, number_given, text_given, word, words};
use clap::ArgMatches;
use sd_base::{NoMemory, Text, Words};
use std::alloc::Global;

/// What a command line asks for.
#[derive(Drop)]
pub struct Options {
    /// Write what would change, and change nothing.
    pub preview: bool,
    /// The text to find and its replacement stand for themselves.
    pub literal_mode: bool,
    /// Each line is searched by itself.
    pub line_mode: bool,
    /// How many matches are replaced at most; 0 is no limit.
    pub replacements: u64,
    /// The flags of the search.
    pub flags: Option<Text>,
    /// The folder whose files are changed.
    pub root: Option<Text>,
    /// How many files a tree in memory has, which is changed in place of files.
    pub demo: Option<u64>,
    /// The file whose plan is applied.
    pub apply: Option<Text>,
    /// The file whose rules say what below the root is left out.
    pub ignore: Option<Text>,
    /// The text to find.
    pub find: Text,
    /// What takes its place.
    pub replace_with: Text,
    /// The words after these two: files, or with a root or a demo globs; none where a plan is applied.
    pub words: Words,
}

impl Options {
    /// Reads the words after the program's name. Answers `Usage` exactly where they ask for nothing that can be done: where
    /// the command doesn't take them, where a number isn't digits alone or is too great, where a demo stands with a root or
    /// with preview, where a plan is applied with one of these three or with words after the first two, or where rules to
    /// ignore by stand without a root or with preview. A demand for help is such a refusal. `Usage` has a text of its own only
    /// where the command doesn't take the words. Want of memory may come at any words.
    pub fn read(alloc: Global, words: &Words) -> Result<Options, OptionsFault>
        ensures read { MatchResult result (λ options. form.order_of words.now ≡ Some options) (Refuses words.now) }
        ensures demo { IfOk result (λ options. (n : ℕ) → options.demo ≡ Some n → n ≤ form.demo_max) }
    {
        let texts = lent(alloc, words)?;
        let command = command(alloc)?;
        match command.try_get_matches_from(texts.as_slice()) {
            Ok(matches) => Options::of(alloc, &matches),
            Err(error) => Err(refusal(alloc, &error)),
        }
    }

    /// The options of a parse, where they may stand together.
    fn of(alloc: Global, matches: &ArgMatches<'_>) -> Result<Options, OptionsFault>
        ensures read { MatchResult result (λ options. form.order_in (rows_of (found_of matches.now)) ≡ Some options) (RefusesRows (rows_of (found_of matches.now))) }
        ensures demo { IfOk result (λ options. (n : ℕ) → options.demo ≡ Some n → n ≤ form.demo_max) }
    {
        let options = Options::given(alloc, matches)?;
        if !options.stand_together() {
            return Err(OptionsFault::Usage(None));
        }
        Ok(options)
    }

    /// The options of a parse, whether or not they may stand together.
    fn given(alloc: Global, matches: &ArgMatches<'_>) -> Result<Options, OptionsFault>
        ensures { MatchResult result (λ options. form.order_in (rows_of (found_of matches.now)) ≡ (if form.stand_together options then Some options else None))
            (RefusesRows (rows_of (found_of matches.now))) }
    {
        let limit = number_given(matches, "max-replacements")?;
        let demo = number_given(matches, "demo")?;
        Ok(Options {
            preview: is_set(matches, "preview"),
            literal_mode: is_set(matches, "fixed-strings") || is_set(matches, "string-mode"),
            line_mode: is_set(matches, "line-mode"),
            replacements: limit.unwrap_or(0),
            flags: text_given(alloc, matches, "flags")?,
            root: text_given(alloc, matches, "root")?,
            demo,
            apply: text_given(alloc, matches, "apply")?,
            ignore: text_given(alloc, matches, "ignore")?,
            find: word(alloc, matches, "find")?,
            replace_with: word(alloc, matches, "replace-with")?,
            words: words(alloc, matches, "words")?,
        })
    }

    /// Whether all that is given may stand together.
    fn stand_together(&self) -> bool
        ensures { result ≡ form.stand_together self.now }
    {
        !(self.demo_clashes() || self.apply_clashes() || self.ignore_clashes())
    }

    /// Whether a demo is too great, or stands with a root or with preview.
    fn demo_clashes(&self) -> bool
        ensures { result ≡ form.demo_clashes self.now }
    {
        match self.demo {
            Some(n) => n > DEMO_MAX || self.root.is_some() || self.preview,
            None => false,
        }
    }

    /// Whether a plan is applied with a root, a demo, preview or words after the first two.
    fn apply_clashes(&self) -> bool
        ensures { result ≡ form.apply_clashes self.now }
    {
        self.apply.is_some()
            && (self.root.is_some() || self.demo.is_some() || self.preview || self.words.len() > 0)
    }

    /// Whether rules to ignore by stand without a root, or with preview.
    fn ignore_clashes(&self) -> bool
        ensures { result ≡ form.ignore_clashes self.now }
    {
        self.ignore.is_some() && (self.root.is_none() || self.preview)
    }
}

/// The greatest number of a demo.
const DEMO_MAX: u64 = 100_000;

/// The words, lent.
fn lent<'w>(alloc: Global, words: &'w Words) -> Result<Vec<&'w str>, NoMemory>
    ensures { IfOk result (λ texts. map (λ s. s.now) texts.items ≡ words.now) }
{
    let mut texts = Vec::new(alloc);
    for i in 0..words.len() {
        texts.push(words.get(i))?;
    }
    Ok(texts)
}
