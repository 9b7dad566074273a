//! Building matchers.

ghost use Rattle.std.specs.Prelude.{◌≡◌, ◌<◌, ◌∷◌, [], Some, None, IfOk, IfErr, IfSome, option_map, if◌then◌else◌};
ghost use Rattle.hir_tree.specs.Tree.{tree_of};
ghost use Rattle.grep_regex.specs.Building.{FitTogether, HasTheClearRuns, IsBare, IsBuilt, IsRefused, MatchesAreClear};
ghost use Rattle.grep_regex.specs.Options.{byte_terminator, crlf_terminator, default_options, line_options, terminator_told};

use crate::building::{check_length, matcher_of};
use crate::options::Options;
use crate::{Error, RegexMatcher};
use grep_matcher::LineTerminator;
use sd_base::Patterns;
use std::alloc::Global;
use std::marker::Model;

/// Builds matchers of patterns. Contracts see the options.
#[derive(Clone, Debug, Drop)]
pub struct RegexMatcherBuilder {
    options: Options,
}

impl Model for RegexMatcherBuilder {
    ghost use Rattle.std.specs.Prelude.{◌<◌, IfSome};
    ghost use Rattle.grep_regex.specs.declared.options.Options.{Options};

    ghost Value = { Options };

    ghost view = { λ builder. builder.options };

    ghost invariant = { λ builder. IfSome builder.options.ban_byte (λ byte. byte < 128) };
}

impl Default for RegexMatcherBuilder {
    ghost use Rattle.std.specs.Prelude.{◌≡◌};
    ghost use Rattle.grep_regex.specs.Options.{default_options};

    ghost is_default = { λ options. options ≡ default_options };

    fn default() -> RegexMatcherBuilder {
        RegexMatcherBuilder::new()
    }
}

impl RegexMatcherBuilder {
    /// A builder with Unicode on, limits of 104,857,600 bytes for the size and of 250 for the nesting, and all else off.
    pub fn new() -> RegexMatcherBuilder
        ensures { result ≡ default_options }
    {
        RegexMatcherBuilder {
            options: Options::default(),
        }
    }

    /// Sets whether letters stand for both their cases.
    pub fn case_insensitive(&mut self, yes: bool) -> &mut RegexMatcherBuilder
        ensures same { result.ghost_name ≡ self.entry.ghost_name }
        ensures set { result.now ≡ record self.old { case_insensitive = yes } }
    {
        self.options.case_insensitive = yes;
        self
    }

    /// Sets whether letters stand for both their cases where the patterns hold a literal, and none of upper case.
    pub fn case_smart(&mut self, yes: bool) -> &mut RegexMatcherBuilder
        ensures same { result.ghost_name ≡ self.entry.ghost_name }
        ensures set { result.now ≡ record self.old { case_smart = yes } }
    {
        self.options.case_smart = yes;
        self
    }

    /// Sets whether `^` and `$` stand at the ends of lines too.
    pub fn multi_line(&mut self, yes: bool) -> &mut RegexMatcherBuilder
        ensures same { result.ghost_name ≡ self.entry.ghost_name }
        ensures set { result.now ≡ record self.old { multi_line = yes } }
    {
        self.options.multi_line = yes;
        self
    }

    /// Sets whether `.` takes a line feed too.
    pub fn dot_matches_new_line(&mut self, yes: bool) -> &mut RegexMatcherBuilder
        ensures same { result.ghost_name ≡ self.entry.ghost_name }
        ensures set { result.now ≡ record self.old { dot_matches_new_line = yes } }
    {
        self.options.dot_matches_new_line = yes;
        self
    }

    /// Sets whether repetitions prefer fewer times, and with a `?` more.
    pub fn swap_greed(&mut self, yes: bool) -> &mut RegexMatcherBuilder
        ensures same { result.ghost_name ≡ self.entry.ghost_name }
        ensures set { result.now ≡ record self.old { swap_greed = yes } }
    {
        self.options.swap_greed = yes;
        self
    }

    /// Sets whether white space and comments in patterns are passed over.
    pub fn ignore_whitespace(&mut self, yes: bool) -> &mut RegexMatcherBuilder
        ensures same { result.ghost_name ≡ self.entry.ghost_name }
        ensures set { result.now ≡ record self.old { ignore_whitespace = yes } }
    {
        self.options.ignore_whitespace = yes;
        self
    }

    /// Sets whether classes are sets of characters, and not of bytes.
    pub fn unicode(&mut self, yes: bool) -> &mut RegexMatcherBuilder
        ensures same { result.ghost_name ≡ self.entry.ghost_name }
        ensures set { result.now ≡ record self.old { unicode = yes } }
    {
        self.options.unicode = yes;
        self
    }

    /// Sets whether one to three octal digits after a `\` are a character.
    pub fn octal(&mut self, yes: bool) -> &mut RegexMatcherBuilder
        ensures same { result.ghost_name ≡ self.entry.ghost_name }
        ensures set { result.now ≡ record self.old { octal = yes } }
    {
        self.options.octal = yes;
        self
    }

    /// Sets how large a pattern may be, in bytes, at most 2^36.
    pub fn size_limit(&mut self, bytes: usize) -> &mut RegexMatcherBuilder
        ensures same { result.ghost_name ≡ self.entry.ghost_name }
        ensures set { result.now ≡ record self.old { size_limit = bytes } }
    {
        self.options.size_limit = bytes;
        self
    }

    /// Keeps another limit, in bytes. It changes no answer.
    pub fn dfa_size_limit(&mut self, bytes: usize) -> &mut RegexMatcherBuilder
        ensures same { result.ghost_name ≡ self.entry.ghost_name }
        ensures set { result.now ≡ record self.old { dfa_size_limit = bytes } }
    {
        self.options.dfa_size_limit = bytes;
        self
    }

    /// Sets how deep a pattern may nest, at most 1000.
    pub fn nest_limit(&mut self, limit: u32) -> &mut RegexMatcherBuilder
        ensures same { result.ghost_name ≡ self.entry.ghost_name }
        ensures set { result.now ≡ record self.old { nest_limit = limit } }
    {
        self.options.nest_limit = limit;
        self
    }

    /// Sets the byte that ends a line, which no match then holds, or that lines end nowhere. The anchors of lines stay.
    pub fn line_terminator(&mut self, line_term: Option<u8>) -> &mut RegexMatcherBuilder
        ensures same { result.ghost_name ≡ self.entry.ghost_name }
        ensures set { result.now ≡ record self.old { line_terminator = option_map byte_terminator line_term } }
    {
        self.options.line_terminator = line_term.map(LineTerminator::byte);
        self
    }

    /// Sets a byte, below 128, that no pattern may ask for.
    pub fn ban_byte(&mut self, byte: Option<u8>) -> &mut RegexMatcherBuilder
        requires ascii { IfSome byte (λ b. b < 128) }
        ensures same { result.ghost_name ≡ self.entry.ghost_name }
        ensures set { result.now ≡ record self.old { ban_byte = byte } }
    {
        self.options.ban_byte = byte;
        self
    }

    /// Sets whether `\r\n` ends a line: for the anchors of lines, and as the terminator, which no match then holds. Without it lines
    /// end nowhere, and the anchors of lines stand beside `\n` alone.
    pub fn crlf(&mut self, yes: bool) -> &mut RegexMatcherBuilder
        ensures same { result.ghost_name ≡ self.entry.ghost_name }
        ensures set { result.now ≡ record self.old { crlf = yes; line_terminator = (if yes then Some crlf_terminator else None) } }
    {
        self.options.crlf = yes;
        self.options.line_terminator = yes.then(LineTerminator::crlf);
        self
    }

    /// Sets whether half word edges stand round the whole.
    pub fn word(&mut self, yes: bool) -> &mut RegexMatcherBuilder
        ensures same { result.ghost_name ≡ self.entry.ghost_name }
        ensures set { result.now ≡ record self.old { word = yes } }
    {
        self.options.word = yes;
        self
    }

    /// Sets whether word edges, as `\b`, stand round the whole. `word` wins over it.
    pub fn word_edges(&mut self, yes: bool) -> &mut RegexMatcherBuilder
        ensures same { result.ghost_name ≡ self.entry.ghost_name }
        ensures set { result.now ≡ record self.old { word_edges = yes } }
    {
        self.options.word_edges = yes;
        self
    }

    /// Sets whether patterns are plain texts.
    pub fn fixed_strings(&mut self, yes: bool) -> &mut RegexMatcherBuilder
        ensures same { result.ghost_name ≡ self.entry.ghost_name }
        ensures set { result.now ≡ record self.old { fixed_strings = yes } }
    {
        self.options.fixed_strings = yes;
        self
    }

    /// Sets whether line anchors stand round the whole. It wins over `word` and `word_edges`.
    pub fn whole_line(&mut self, yes: bool) -> &mut RegexMatcherBuilder
        ensures same { result.ghost_name ≡ self.entry.ghost_name }
        ensures set { result.now ≡ record self.old { whole_line = yes } }
    {
        self.options.whole_line = yes;
        self
    }

    /// A matcher of one pattern. No match holds a byte of the terminator: where nothing stands round the whole, the matches are
    /// those of the pattern that don't.
    ///
    /// It is refused, and in this order, where the terminator isn't ASCII, where the pattern isn't read, as one of 2^32 bytes and
    /// more, or nests too deep, where it has a name twice, where it asks for the banned byte or for a byte of the terminator, and
    /// where it is too large. Want of memory may come at any time.
    pub fn build(&self, alloc: Global, pattern: &str) -> Result<RegexMatcher, Error>
        ensures built { IfOk result (λ matcher. IsBuilt self.now (pattern.now ∷ []) (tree_of matcher.searcher)) }
        ensures terminator { IfOk result (λ matcher. matcher.terminator ≡ terminator_told self.now (tree_of matcher.searcher)) }
        ensures clear { IfOk result (λ matcher. MatchesAreClear self.now (tree_of matcher.searcher)) }
        ensures runs { IfOk result (λ matcher. IsBare self.now
            → HasTheClearRuns self.now (pattern.now ∷ []) (tree_of matcher.searcher)) }
        ensures refused { IfErr result (λ error. IsRefused self.now (pattern.now ∷ []) error.kind) }
    {
        check_length(&self.options, pattern)?;
        let mut patterns = Patterns::new(alloc);
        patterns.push(pattern)?;
        self.build_many(alloc, &patterns)
    }

    /// A matcher of several patterns: their alternation, in their order, with the groups of each numbered on from those before it.
    /// No patterns match nothing. It is refused as [`build`](RegexMatcherBuilder::build) is, where one pattern isn't read before
    /// the patterns together have a name twice.
    pub fn build_many(&self, alloc: Global, patterns: &Patterns) -> Result<RegexMatcher, Error>
        requires fit { FitTogether patterns.now }
        ensures built { IfOk result (λ matcher. IsBuilt self.now patterns.now (tree_of matcher.searcher)) }
        ensures terminator { IfOk result (λ matcher. matcher.terminator ≡ terminator_told self.now (tree_of matcher.searcher)) }
        ensures clear { IfOk result (λ matcher. MatchesAreClear self.now (tree_of matcher.searcher)) }
        ensures runs { IfOk result (λ matcher. IsBare self.now → HasTheClearRuns self.now patterns.now (tree_of matcher.searcher)) }
        ensures refused { IfErr result (λ error. IsRefused self.now patterns.now error.kind) }
    {
        matcher_of(alloc, &self.options, patterns)
    }

    /// What [`build_many`](RegexMatcherBuilder::build_many) gives: literals are texts where the builder has
    /// [`fixed_strings`](RegexMatcherBuilder::fixed_strings), and else patterns.
    pub fn build_literals(&self, alloc: Global, literals: &Patterns) -> Result<RegexMatcher, Error>
        requires fit { FitTogether literals.now }
        ensures built { IfOk result (λ matcher. IsBuilt self.now literals.now (tree_of matcher.searcher)) }
        ensures terminator { IfOk result (λ matcher. matcher.terminator ≡ terminator_told self.now (tree_of matcher.searcher)) }
        ensures clear { IfOk result (λ matcher. MatchesAreClear self.now (tree_of matcher.searcher)) }
        ensures runs { IfOk result (λ matcher. IsBare self.now → HasTheClearRuns self.now literals.now (tree_of matcher.searcher)) }
        ensures refused { IfErr result (λ error. IsRefused self.now literals.now error.kind) }
    {
        self.build_many(alloc, literals)
    }
}

impl RegexMatcher {
    /// A matcher of a pattern under the options that a builder begins with. It is refused as
    /// [`build`](RegexMatcherBuilder::build) is.
    pub fn new(alloc: Global, pattern: &str) -> Result<RegexMatcher, Error>
        ensures built { IfOk result (λ matcher. IsBuilt default_options (pattern.now ∷ []) (tree_of matcher.searcher)) }
        ensures terminator { IfOk result (λ matcher. matcher.terminator ≡ terminator_told default_options (tree_of matcher.searcher)) }
        ensures clear { IfOk result (λ matcher. MatchesAreClear default_options (tree_of matcher.searcher)) }
        ensures runs { IfOk result (λ matcher. HasTheClearRuns default_options (pattern.now ∷ []) (tree_of matcher.searcher)) }
        ensures refused { IfErr result (λ error. IsRefused default_options (pattern.now ∷ []) error.kind) }
    {
        RegexMatcherBuilder::new().build(alloc, pattern)
    }

    /// The same for lines that end with `\n`: no match holds one.
    pub fn new_line_matcher(alloc: Global, pattern: &str) -> Result<RegexMatcher, Error>
        ensures built { IfOk result (λ matcher. IsBuilt line_options (pattern.now ∷ []) (tree_of matcher.searcher)) }
        ensures terminator { IfOk result (λ matcher. matcher.terminator ≡ terminator_told line_options (tree_of matcher.searcher)) }
        ensures clear { IfOk result (λ matcher. MatchesAreClear line_options (tree_of matcher.searcher)) }
        ensures runs { IfOk result (λ matcher. HasTheClearRuns line_options (pattern.now ∷ []) (tree_of matcher.searcher)) }
        ensures refused { IfErr result (λ error. IsRefused line_options (pattern.now ∷ []) error.kind) }
    {
        RegexMatcherBuilder::new()
            .line_terminator(Some(b'\n'))
            .build(alloc, pattern)
    }
}
