//! Replacers.

ghost use Rattle.std.specs.Prelude.{◌≡◌, IfErr, IfOk};
ghost use Rattle.std.proofs.Props.{props};
ghost use Rattle.grep_matcher.specs.NoMatch.{IsInNoMatch};
ghost use Rattle.grep_regex.specs.Matching.{end_at};
ghost use Rattle.hir_tree.specs.Tree.{tree_of};
ghost use Rattle.sd_replace.specs.Templates.{ArePiecesOf};
ghost use Rattle.sd_replace.specs.declared.replacer.Counted.TheVariants.{InEachLine};

use crate::error::ReplacerFault;
use crate::template::Template;
use grep_regex::{RegexCaptures, RegexMatcher};
use sd_base::{NoMemory, Text};
use std::alloc::Global;
use std::cell::Cell;

/// What takes the place of a match.
#[derive(Drop)]
pub enum Substitute {
    /// This text.
    Literal(Text),
    /// This text, with the groups of the match in the place of its references.
    Expanded(Text),
}

/// Where matches are counted towards a limit.
#[derive(Clone, Copy, Debug, Eq, PartialEq)]
pub enum Counted {
    /// Over the whole.
    OverAll,
    /// In each line.
    InEachLine,
}

/// A pattern, a text that takes the place of each match, and a limit.
#[derive(Drop)]
pub struct Replacer {
    /// Where new bytes are made.
    pub(crate) alloc: Global,
    pub(crate) matcher: RegexMatcher,
    pub(crate) substitute: Substitute,
    /// The substitute in pieces.
    pub(crate) template: Template,
    /// How many matches are replaced at most. 0 is no limit.
    pub(crate) limit: u64,
    pub(crate) counted: Counted,
    /// The groups and the lists of an earlier search, which the next one uses again.
    pub(crate) kept: Cell<Option<RegexCaptures>>,
    // The pieces are those of the substitute.
    ghost read: { ArePiecesOf substitute (tree_of matcher.searcher) template.pieces.items } by { Prim.hlevel props },
    // In line mode no match holds a line feed.
    ghost clear: { counted ≡ InEachLine → IsInNoMatch (end_at (tree_of matcher.searcher)) 10 } by { Prim.hlevel props },
}

impl Replacer {
    /// A replacer of these parts. The text is unescaped, and no match of a pattern of line mode holds a line feed. Refuses for
    /// want of memory alone.
    pub(crate) fn of_parts(
        alloc: Global,
        matcher: RegexMatcher,
        substitute: Substitute,
        limit: u64,
        counted: Counted,
    ) -> Result<Replacer, ReplacerFault>
        requires clear { counted ≡ InEachLine → IsInNoMatch (end_at (tree_of matcher.searcher)) 10 }
        ensures pattern { IfOk result (λ replacer. tree_of replacer.matcher.searcher ≡ tree_of matcher.searcher) }
        ensures substitute { IfOk result (λ replacer. replacer.substitute ≡ substitute) }
        ensures limit { IfOk result (λ replacer. replacer.limit ≡ limit) }
        ensures counted { IfOk result (λ replacer. replacer.counted ≡ counted) }
        ensures refused { IfErr result (λ fault. fault ≡ ReplacerFault.NoMemory) }
    {
        match Template::new(alloc, &matcher, &substitute) {
            Ok(template) => Ok(Replacer {
                alloc,
                matcher,
                substitute,
                template,
                limit,
                counted,
                kept: Cell::new(None),
            }),
            Err(NoMemory) => {
                // A value that is let go by a call isn't taken apart here, which would be dear to check.
                drop(matcher);
                drop(substitute);
                Err(ReplacerFault::NoMemory)
            }
        }
    }
}
