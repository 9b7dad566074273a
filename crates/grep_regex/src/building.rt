//! The way from patterns to a matcher, test by test.

ghost use Rattle.std.specs.Prelude.{◌≡◌, ◌<◌, ◌≤◌, ◌∷◌, [], None, IfOk, IfErr, IfSome, OnOk};
ghost use Rattle.hir_tree.specs.Tree.{tree_of};
ghost use Rattle.grep_regex.specs.Building.{FitTogether, HasTheClearRuns, IsAscii, IsBanRefused, IsBare, IsBuilt, IsRefused, IsSizeRefused, IsStripRefused, IsTerminatorRefused, IsUnbanned, MatchesAreClear, size_cap, size_of};
ghost use Rattle.grep_regex.specs.Options.{terminator, terminator_told};
ghost use Rattle.grep_regex.specs.Stripping.{not_allowed, stripped};

use crate::assembling::{edged, together};
use crate::fitting::MOST_BYTES;
use crate::non_matching::has_text_anchor;
use crate::options::Options;
use crate::reading::read_patterns;
use crate::{Error, ErrorKind, RegexFault, RegexMatcher, check_ban, strip_from_match};
use grep_matcher::LineTerminator;
use hir_core::{Hir, spots};
use sd_base::Patterns;
use std::alloc::Global;

/// A pattern is no larger than this many bytes, whatever its limit.
const LARGEST: u64 = 1 << 36;

/// Bytes for each spot.
const SPOT_BYTES: u128 = 32;

/// A matcher of patterns under options.
pub(crate) fn matcher_of(
    alloc: Global,
    options: &Options,
    patterns: &Patterns,
) -> Result<RegexMatcher, Error>
    requires fit { FitTogether patterns.now }
    requires ban { IfSome options.now.ban_byte (λ byte. byte < 128) }
    ensures built { IfOk result (λ matcher. IsBuilt options.now patterns.now (tree_of matcher.searcher)) }
    ensures terminator { IfOk result (λ matcher. matcher.terminator ≡ terminator_told options.now (tree_of matcher.searcher)) }
    ensures clear { IfOk result (λ matcher. MatchesAreClear options.now (tree_of matcher.searcher)) }
    ensures runs { IfOk result (λ matcher. IsBare options.now → HasTheClearRuns options.now patterns.now (tree_of matcher.searcher)) }
    ensures refused { IfErr result (λ error. IsRefused options.now patterns.now error.kind) }
{
    let hir = pattern_of(alloc, options, patterns)?;
    let told = told_terminator(options, &hir);
    Ok(RegexMatcher::of_tree(alloc, &hir, told)?)
}

/// The pattern that options ask for.
fn pattern_of(alloc: Global, options: &Options, patterns: &Patterns) -> Result<Hir, Error>
    requires fit { FitTogether patterns.now }
    requires ban { IfSome options.now.ban_byte (λ byte. byte < 128) }
    ensures built { IfOk result (λ hir. IsBuilt options.now patterns.now (tree_of hir)) }
    ensures refused { IfErr result (λ error. IsRefused options.now patterns.now error.kind) }
{
    check_terminator(options)?;
    let hirs = read_patterns(alloc, options, patterns)?;
    let together = together(alloc, hirs)?;
    check_ban_byte(options, &together)?;
    let stripped = without_terminator(alloc, options, together)?;
    let whole = edged(alloc, options, stripped)?;
    check_size(options, &whole)?;
    Ok(whole)
}

/// Refuses a pattern of 2^32 bytes and more, which is read as nothing, after a terminator that isn't ASCII.
pub(crate) fn check_length(options: &Options, pattern: &str) -> Result<(), Error>
    ensures fits { OnOk result (FitTogether (pattern.now ∷ [])) }
    ensures refused { IfErr result (λ error. IsRefused options.now (pattern.now ∷ []) error.kind) }
{
    if pattern.len() <= MOST_BYTES {
        return Ok(());
    }
    check_terminator(options)?;
    Err(Error::new(ErrorKind::Regex(RegexFault::Grammar)))
}

/// Refuses a terminator that isn't ASCII. Of `\r\n` the last byte tells.
fn check_terminator(options: &Options) -> Result<(), Error>
    ensures ascii { OnOk result (IsAscii (terminator options.now)) }
    ensures refused { IfErr result (λ error. IsTerminatorRefused (terminator options.now) error.kind) }
{
    match &options.line_terminator {
        Some(terminator) if !terminator.as_byte().is_ascii() => Err(Error::new(
            ErrorKind::InvalidLineTerminator(terminator.as_byte()),
        )),
        _ => Ok(()),
    }
}

/// Refuses a pattern that asks for the banned byte.
fn check_ban_byte(options: &Options, hir: &Hir) -> Result<(), Error>
    requires ban { IfSome options.now.ban_byte (λ byte. byte < 128) }
    ensures unbanned { OnOk result (IsUnbanned options.now (tree_of hir.now)) }
    ensures refused { IfErr result (λ error. IsBanRefused options.now (tree_of hir.now) error.kind) }
{
    match options.ban_byte {
        Some(byte) => check_ban(hir, byte),
        None => Ok(()),
    }
}

/// Takes the bytes of the terminator out of the classes of a pattern.
fn without_terminator(alloc: Global, options: &Options, hir: Hir) -> Result<Hir, Error>
    ensures stripped { IfOk result (λ new. tree_of new ≡ stripped (terminator options.now) (tree_of hir)) }
    ensures allowed { OnOk result (not_allowed (terminator options.now) (tree_of hir) ≡ None) }
    ensures refused { IfErr result (λ error. IsStripRefused (terminator options.now) (tree_of hir) error.kind) }
{
    match options.line_terminator {
        Some(terminator) => strip_from_match(alloc, hir, terminator),
        None => Ok(hir),
    }
}

/// Refuses a pattern that is larger than its limit.
fn check_size(options: &Options, hir: &Hir) -> Result<(), Error>
    ensures fits { OnOk result (size_of (tree_of hir.now) ≤ size_cap options.now) }
    ensures refused { IfErr result (λ error. IsSizeRefused options.now (tree_of hir.now) error.kind) }
{
    let limit = LARGEST.min(options.size_limit as u64);
    if spots(hir).saturating_mul(SPOT_BYTES) > u128::from(limit) {
        return Err(Error::new(ErrorKind::Regex(RegexFault::Size(limit))));
    }
    Ok(())
}

/// The terminator that a matcher tells of: none where the pattern asks for the text's start or end.
fn told_terminator(options: &Options, hir: &Hir) -> Option<LineTerminator>
    ensures { result ≡ terminator_told options.now (tree_of hir.now) }
{
    if has_text_anchor(hir) {
        None
    } else {
        options.line_terminator
    }
}
