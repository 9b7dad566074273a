//! Making replacers of texts and flags.

ghost use Rattle.std.specs.Prelude.{◌≡◌, ◌∷◌, [], Some, IfErr, IfOk, OnOk, unwrap_or};
ghost use Rattle.std.specs.Option.{option_copied};
ghost use Rattle.hir_tree.specs.Tree.{tree_of};
ghost use Rattle.grep_regex.specs.Building.{IsAscii, IsBuilt, MatchesAreClear};
ghost use Rattle.grep_matcher.specs.NoMatch.{IsInNoMatch};
ghost use Rattle.grep_regex.specs.Matching.{end_at};
ghost use Rattle.grep_regex.specs.Options.{terminator};
ghost use Rattle.sd_replace.specs.Making.{AnAskedReplacementIsReadable, MakesReplacer, OneReplacement, asked};
ghost use Rattle.sd_replace.specs.Making.{IsFindRefused, IsTextRefused, IsUnambiguous, options_for, substitute_for};
ghost use Rattle.sd_replace.specs.Unescaped.{unescaped};
ghost use Rattle.sd_replace.specs.declared.replacer.Counted.TheVariants.{OverAll, InEachLine};

use crate::ambiguous::validate_replace;
use crate::error::ReplacerFault;
use crate::flags::{builder_of, line_builder_of};
use crate::replacer::{Counted, Replacer, Substitute};
use crate::unescaping::unescape;
use grep_regex::{RegexMatcher, RegexMatcherBuilder};
use sd_base::{NoMemory, Text};
use std::alloc::Global;

impl Replacer {
    /// A replacer of a text to find, and of a text that takes the place of each match, of at most so many; 0 replaces all.
    ///
    /// The text to find is a pattern, under the options that the letters of the flags ask for: `c` doesn't fold letters, as at
    /// first, and `i` folds them; `e` lets `^` and `$` stand at the ends of the whole alone, and so does `s` without an `m`; with
    /// `s` a `.` takes line feeds too; `w` wants word edges round a match. The replacement text has escapes, as
    /// [`unescape`] reads them, and references to groups. Literal texts have none of that.
    ///
    /// It is refused, and in this order, where the replacement text is ambiguous, as [`validate_replace`] tells, and where no
    /// matcher is built of the text to find. Want of memory may come at any time.
    pub fn new(
        alloc: Global,
        find: &str,
        replace_with: &str,
        is_literal: bool,
        flags: Option<&str>,
        replacements: u64,
    ) -> Result<Replacer, ReplacerFault>
        ensures { MakesReplacer (asked find.now replace_with.now is_literal (option_copied flags.entry) replacements OverAll) result }
    {
        Replacer::made(
            alloc,
            find,
            replace_with,
            is_literal,
            letters_of(flags),
            replacements,
            Counted::OverAll,
        )
    }

    /// The same in line mode: at most so many matches are replaced in each line, and no match holds a line feed. It is refused as
    /// [`new`](Replacer::new) is, and also where a part of the text to find must match a line feed.
    pub fn new_lines(
        alloc: Global,
        find: &str,
        replace_with: &str,
        is_literal: bool,
        flags: Option<&str>,
        replacements: u64,
    ) -> Result<Replacer, ReplacerFault>
        ensures { MakesReplacer (asked find.now replace_with.now is_literal (option_copied flags.entry) replacements InEachLine) result }
    {
        Replacer::made(
            alloc,
            find,
            replace_with,
            is_literal,
            letters_of(flags),
            replacements,
            Counted::InEachLine,
        )
    }

    /// A replacer whose matches are counted over the whole, or in each line.
    fn made(
        alloc: Global,
        find: &str,
        replace_with: &str,
        is_literal: bool,
        letters: &str,
        replacements: u64,
        counted: Counted,
    ) -> Result<Replacer, ReplacerFault>
        ensures { MakesReplacer (asked find.now replace_with.now is_literal (Some letters.now) replacements counted) result }
    {
        let substitute = substitute_of(alloc, replace_with, is_literal)?;
        Replacer::of_find(
            alloc,
            find,
            is_literal,
            letters,
            substitute,
            replacements,
            counted,
        )
    }

    /// A replacer of a text to find, and of what takes the place of each match. It is refused where no matcher is built. Want of
    /// memory may come at any time.
    fn of_find(
        alloc: Global,
        find: &str,
        is_literal: bool,
        letters: &str,
        substitute: Substitute,
        replacements: u64,
        counted: Counted,
    ) -> Result<Replacer, ReplacerFault>
        ensures built { IfOk result (λ replacer. IsBuilt (options_for counted is_literal letters.now) (find.now ∷ []) (tree_of replacer.matcher.searcher)) }
        ensures substitute { IfOk result (λ replacer. replacer.substitute ≡ substitute) }
        ensures limit { IfOk result (λ replacer. replacer.limit ≡ replacements) }
        ensures counted { IfOk result (λ replacer. replacer.counted ≡ counted) }
        ensures refused { IfErr result (IsFindRefused (options_for counted is_literal letters.now) find.now) }
    {
        match matcher_for(alloc, counted, is_literal, letters, find) {
            Ok(matcher) => { Replacer::of_parts(alloc, matcher, substitute, replacements, counted) }
            Err(fault) => {
                drop(substitute);
                Err(fault)
            }
        }
    }
}

/// The matcher of a text to find, where matches are counted so. It is refused where none is built. Want of memory may come at any
/// time.
fn matcher_for(
    alloc: Global,
    counted: Counted,
    is_literal: bool,
    letters: &str,
    find: &str,
) -> Result<RegexMatcher, ReplacerFault>
    ensures built { IfOk result (λ matcher. IsBuilt (options_for counted is_literal letters.now) (find.now ∷ []) (tree_of matcher.searcher)) }
    ensures clear { counted ≡ InEachLine → IfOk result (λ matcher. IsInNoMatch (end_at (tree_of matcher.searcher)) 10) }
    ensures refused { IfErr result (IsFindRefused (options_for counted is_literal letters.now) find.now) }
{
    match counted {
        Counted::OverAll => matcher_of(alloc, &builder_of(is_literal, letters), find),
        Counted::InEachLine => {
            let matcher = matcher_of(alloc, &line_builder_of(is_literal, letters), find)?;
            Ok(matcher)
        }
    }
}

/// The letters of flags.
fn letters_of(flags: Option<&str>) -> &str
    ensures { result.now ≡ unwrap_or (option_copied flags.entry) [] }
{
    match flags {
        Some(letters) => letters,
        None => "",
    }
}

/// What takes the place of a match: a literal text as it is, and any other unescaped. It is refused where a text that isn't literal
/// is ambiguous. Want of memory may come at any time.
fn substitute_of(
    alloc: Global,
    replace_with: &str,
    is_literal: bool,
) -> Result<Substitute, ReplacerFault>
    ensures made { IfOk result (λ substitute. substitute ≡ substitute_for is_literal replace_with.now) }
    ensures unambiguous { OnOk result (IsUnambiguous is_literal replace_with.now) }
    ensures refused { IfErr result (IsTextRefused is_literal replace_with.now) }
{
    if is_literal {
        let text = Text::new(alloc, replace_with)?;
        return Ok(Substitute::Literal(text));
    }
    validate_replace(alloc, replace_with)?;
    let text = unescaped_text(alloc, replace_with)?;
    Ok(Substitute::Expanded(text))
}

/// A text unescaped, or as it is where an escape isn't in the table. Refuses for want of memory alone.
fn unescaped_text(alloc: Global, text: &str) -> Result<Text, NoMemory>
    ensures { IfOk result (λ made. made ≡ unwrap_or (unescaped text.now) text.now) }
{
    match unescape(alloc, text)? {
        Some(unescaped) => Ok(unescaped),
        None => Text::new(alloc, text),
    }
}

/// The matcher of a text to find. It is refused where none is built. Want of memory may come at any time.
fn matcher_of(
    alloc: Global,
    builder: &RegexMatcherBuilder,
    find: &str,
) -> Result<RegexMatcher, ReplacerFault>
    requires ascii { IsAscii (terminator builder.now) }
    ensures built { IfOk result (λ matcher. IsBuilt builder.now (find.now ∷ []) (tree_of matcher.searcher)) }
    ensures clear { IfOk result (λ matcher. MatchesAreClear builder.now (tree_of matcher.searcher)) }
    ensures refused { IfErr result (IsFindRefused builder.now find.now) }
{
    let matcher = builder.build(alloc, find)?;
    Ok(matcher)
}

/// There is one replacement that texts and flags ask for.
pub fn one_replacement()
    ensures { OneReplacement }
{
    pattern_syntax::a_text_has_at_most_one_reading();
    pattern_syntax::a_class_with_its_set_has_one_list_of_ranges();
}

/// Where texts and flags ask for a replacement, none is refused but for want of memory.
pub fn an_asked_replacement_is_readable()
    ensures { AnAskedReplacementIsReadable }
{
    pattern_syntax::a_text_has_at_most_one_reading();
    pattern_syntax::a_class_with_its_set_has_one_list_of_ranges();
}
