//! Reading patterns under options.

ghost use Rattle.std.specs.Prelude.{◌≡◌, ◌≤◌, ◌<◌, ◌^◌, ◌↔◌, [], ◌∷◌, ◌++◌, List, ℕ, IfOk, IfErr, IsTrue, OnOk, Bool, false, ◌||◌, length, map, sum};
ghost use Rattle.hir_tree.specs.Spots.{groups_of};
ghost use Rattle.hir_tree.specs.Tree.{tree_of};
ghost use Rattle.pattern_core.specs.Answers.{HasOneTwice, IsPattern};
ghost use Rattle.grep_regex.specs.Building.{FitTogether, IsReadingRefused};
ghost use Rattle.grep_regex.specs.Exact.{IsTidy};
ghost use Rattle.grep_regex.specs.Readings.{AreTrees, FoldingChangesClassesAlone, HasDoubleName, all_names, pattern_flags, written};
ghost use Rattle.grep_regex.specs.ReadSoFar.{AreAdded, AreKnown, AreRead, IsPatternRefused, asks_to_fold, names_in_all};
ghost use Rattle.grep_regex.specs.declared.error.ErrorKind.TheVariants as kind;
ghost use Rattle.grep_regex.specs.declared.options.Options.{Options};

use crate::names::{Named, names_in};
use crate::options::Options;
use crate::stripping::show_sorted_classes;
use crate::{Error, ErrorKind, RegexFault};
use hir_core::Hir;
use pattern_core::{
    Parsed, PatternFault, PatternFlags, a_text_has_at_most_one_reading, escape, parse,
};
use sd_base::{NoMemory, Patterns, Text};
use std::alloc::Global;
use std::collections::BTreeSet;

/// Patterns that are read.
#[derive(Drop)]
pub struct ReadPatterns {
    /// Their trees.
    hirs: Vec<Hir>,
    /// Whether a literal character stands in one of them.
    any_literal: bool,
    /// Whether one of their literal characters is upper case.
    any_uppercase: bool,
    /// Whether a name stands twice in one of them, which has no tree then.
    has_double_name: bool,
}

impl ReadPatterns {
    /// No patterns.
    fn new(alloc: Global) -> ReadPatterns
        ensures { (o : Options) (folded : Bool) → AreRead o folded [] result }
    {
        ReadPatterns {
            hirs: Vec::new(alloc),
            any_literal: false,
            any_uppercase: false,
            has_double_name: false,
        }
    }

    /// Reads one pattern more. It is refused where the pattern isn't read or nests too deep. Want of memory may come at any time.
    fn read_next(
        &mut self,
        alloc: Global,
        options: &Options,
        folded: bool,
        text: &str,
    ) -> Result<(), Error>
        ensures read { OnOk result ((texts : List (List ℕ)) → AreRead options.now folded texts self.old
            → AreRead options.now folded (texts ++ text.now ∷ []) self.new) }
        ensures refused { IfErr result (λ error. (texts behind : List (List ℕ)) → AreRead options.now folded texts self.old
            → IsReadingRefused options.now (texts ++ text.now ∷ behind) error.kind) }
    {
        match read_pattern(alloc, options, folded, text) {
            Ok(parsed) => self.keep(parsed)?,
            Err(PatternFault::DoubleName) => self.has_double_name = true,
            Err(PatternFault::Grammar) => return Err(unread(RegexFault::Grammar)),
            Err(PatternFault::Nest) => return Err(unread(RegexFault::Nest)),
            Err(PatternFault::NoMemory) => return Err(NoMemory.into()),
        }
        Ok(())
    }

    /// Keeps the tree of a pattern, and what its literal characters are. Refuses for want of memory alone.
    fn keep(&mut self, parsed: Parsed) -> Result<(), NoMemory>
        ensures hirs { OnOk result (self.new.hirs.items ≡ self.old.hirs.items ++ parsed.hir ∷ []) }
        ensures literal { OnOk result (self.new.any_literal ≡ (self.old.any_literal || parsed.any_literal)) }
        ensures uppercase { OnOk result (self.new.any_uppercase ≡ (self.old.any_uppercase || parsed.any_uppercase)) }
        ensures double_name { OnOk result (self.new.has_double_name ≡ self.old.has_double_name) }
    {
        self.hirs.push(parsed.hir)?;
        self.any_literal = self.any_literal || parsed.any_literal;
        self.any_uppercase = self.any_uppercase || parsed.any_uppercase;
        Ok(())
    }

    /// Whether a name stands twice over all patterns. Refuses for want of memory alone.
    fn repeats_name(&self, alloc: Global) -> Result<bool, NoMemory>
        ensures repeats { IfOk result (λ repeats. (o : Options) (folded : Bool) (texts : List (List ℕ)) (are : AreRead o folded texts self.now)
            → IsTrue repeats ↔ HasOneTwice (all_names are.readings)) }
        ensures kept { IfOk result (λ repeats. repeats ≡ false → self.now.has_double_name ≡ false) }
    {
        if self.has_double_name {
            return Ok(true);
        }
        if self.hirs.len() < 2 {
            return Ok(false);
        }
        has_double_name(alloc, &self.hirs)
    }

    /// Whether letters are to be folded yet: where the options ask for it if there is a literal, and none of upper case.
    fn asks_to_fold(&self, options: &Options) -> bool
        ensures { result ≡ asks_to_fold options.now self.now }
    {
        options.case_smart && !options.case_insensitive && self.any_literal && !self.any_uppercase
    }
}

/// The error of a pattern that is not read.
fn unread(fault: RegexFault) -> Error
    ensures { result.kind ≡ kind.Regex fault }
{
    Error::new(ErrorKind::Regex(fault))
}

/// The flags that a pattern is read under, with letters folded or as they are.
fn pattern_flags(options: &Options, folded: bool) -> PatternFlags
    ensures { result ≡ pattern_flags options.now folded }
{
    PatternFlags {
        case_insensitive: folded,
        multi_line: options.multi_line,
        dot_matches_new_line: options.dot_matches_new_line,
        swap_greed: options.swap_greed,
        ignore_whitespace: options.ignore_whitespace && !options.fixed_strings,
        unicode: options.unicode,
        octal: options.octal,
        crlf: options.crlf,
        nest_limit: options.nest_limit,
    }
}

/// Reads one pattern, as it is written, or as a plain text where the options ask for that.
fn parse_written(
    alloc: Global,
    options: &Options,
    flags: &PatternFlags,
    text: &str,
) -> Result<Parsed, PatternFault>
    ensures pattern { IfOk result (IsPattern flags.now (written options.now text.now)) }
    ensures numbers { IfOk result (λ parsed. groups_of parsed.hir ≤ length text.now) }
    ensures refused { IfErr result (IsPatternRefused flags.now (written options.now text.now)) }
{
    if options.fixed_strings {
        let escaped = escape(alloc, text)?;
        return parse(alloc, escaped.as_str(), flags);
    }
    parse(alloc, text, flags)
}

/// Reads one pattern, with letters folded or as they are.
fn read_pattern(
    alloc: Global,
    options: &Options,
    folded: bool,
    text: &str,
) -> Result<Parsed, PatternFault>
    ensures pattern { IfOk result (IsPattern (pattern_flags options.now folded) (written options.now text.now)) }
    ensures tidy { IfOk result (λ parsed. IsTidy (tree_of parsed.hir)) }
    ensures numbers { IfOk result (λ parsed. groups_of parsed.hir ≤ length text.now) }
    ensures refused { IfErr result (IsPatternRefused (pattern_flags options.now folded) (written options.now text.now)) }
{
    let flags = pattern_flags(options, folded);
    let parsed = parse_written(alloc, options, &flags, text)?;
    show_sorted_classes(&parsed.hir);
    Ok(parsed)
}

/// Reads each of the patterns. It is refused where a pattern isn't read or nests too deep. Want of memory may come at any time.
fn read_each(
    alloc: Global,
    options: &Options,
    folded: bool,
    patterns: &Patterns,
) -> Result<ReadPatterns, Error>
    ensures read { IfOk result (AreRead options.now folded patterns.now) }
    ensures refused { IfErr result (λ error. IsReadingRefused options.now patterns.now error.kind) }
{
    let mut read = ReadPatterns::new(alloc);
    for i in 0..patterns.len() {
        read.read_next(alloc, options, folded, patterns.get(i))?;
    }
    Ok(read)
}

/// Adds names to those that are known, and whether each is new; the first that is known already ends it.
/// Refuses for want of memory alone.
fn add_names(known: &mut BTreeSet<Text>, names: Vec<Named>) -> Result<bool, NoMemory>
    ensures { IfOk result (λ added. (before : List (List ℕ)) → AreKnown known.old before
        → AreAdded known.new (before ++ map (λ named. named.name) names.items) added) }
{
    for named in names {
        if !known.insert(named.name)? {
            return Ok(false);
        }
    }
    Ok(true)
}

/// Whether a name stands twice in trees. Refuses for want of memory alone.
fn has_double_name(alloc: Global, hirs: &[Hir]) -> Result<bool, NoMemory>
    ensures { IfOk result (λ double. IsTrue double ↔ HasOneTwice (names_in_all (map tree_of hirs.now))) }
{
    let mut known = BTreeSet::new(alloc);
    for hir in hirs {
        if !add_names(&mut known, names_in(alloc, hir)?)? {
            return Ok(true);
        }
    }
    Ok(false)
}

/// Reads each of the patterns. It is refused, and in this order, where a pattern isn't read or nests too deep, and where a name
/// stands twice over all patterns. Want of memory may come at any time.
fn read_all(
    alloc: Global,
    options: &Options,
    folded: bool,
    patterns: &Patterns,
) -> Result<ReadPatterns, Error>
    ensures read { IfOk result (AreRead options.now folded patterns.now) }
    ensures kept { IfOk result (λ read. read.has_double_name ≡ false) }
    ensures single { OnOk result (HasDoubleName options.now patterns.now → ⊥) }
    ensures refused { IfErr result (λ error. IsReadingRefused options.now patterns.now error.kind) }
{
    a_text_has_at_most_one_reading();
    let read = read_each(alloc, options, folded, patterns)?;
    if read.repeats_name(alloc)? {
        return Err(unread(RegexFault::DoubleName));
    }
    Ok(read)
}

/// The trees of patterns, with letters folded where the options ask for it. It is refused, and in this order, where a pattern
/// isn't read or nests too deep, and where a name stands twice over all patterns. Want of memory may come at any time.
pub(crate) fn read_patterns(
    alloc: Global,
    options: &Options,
    patterns: &Patterns,
) -> Result<Vec<Hir>, Error>
    requires fit { FitTogether patterns.now }
    ensures trees { IfOk result (λ hirs. AreTrees options.now patterns.now (map tree_of hirs.items)) }
    ensures single { OnOk result (HasDoubleName options.now patterns.now → ⊥) }
    ensures numbers { IfOk result (λ hirs. sum (map groups_of hirs.items) < 2 ^ 32) }
    ensures refused { IfErr result (λ error. IsReadingRefused options.now patterns.now error.kind) }
{
    let read = read_all(alloc, options, options.case_insensitive, patterns)?;
    if read.asks_to_fold(options) {
        let folded = read_each(alloc, options, true, patterns)?;
        return Ok(folded.hirs);
    }
    Ok(read.hirs)
}

/// Folding letters changes neither whether a text is read, nor what is read but for literals and classes of its tree.
pub fn folding_changes_classes_alone()
    ensures { FoldingChangesClassesAlone }
{}
