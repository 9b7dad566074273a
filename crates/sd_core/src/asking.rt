//! The replacer that the options of a command ask for.

ghost use Rattle.sd_replace.specs.Making.{MakesReplacer};
ghost use Rattle.sd_core.specs.Asked.{asked_of};

use sd_base::Text;
use sd_replace::{Replacer, ReplacerFault};
use sd_words::Options;
use std::alloc::Global;

/// The replacer that the options ask for. It is refused where outside literal mode the replacement text is ambiguous, or else
/// where no matcher is built of the text to find. Want of memory may come at any time.
pub fn replacer_of(alloc: Global, options: &Options) -> Result<Replacer, ReplacerFault>
    ensures { MakesReplacer (asked_of options.now) result }
{
    let find = options.find.as_str();
    let replace_with = options.replace_with.as_str();
    let flags = options.flags.as_ref().map(Text::as_str);
    let limit = options.replacements;
    if options.line_mode {
        Replacer::new_lines(
            alloc,
            find,
            replace_with,
            options.literal_mode,
            flags,
            limit,
        )
    } else {
        Replacer::new(
            alloc,
            find,
            replace_with,
            options.literal_mode,
            flags,
            limit,
        )
    }
}
