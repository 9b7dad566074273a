//! The sets of general categories.

ghost use Rattle.std.specs.Prelude.{◌≡◌, true, false, IfOk, IfSome, IfNone, is_some};
ghost use Rattle.pattern_syntax.specs.Sets as sets;
ghost use Rattle.pattern_syntax.specs.Readers.{IsSet};

use crate::Flags;
use crate::sets::names::value_of;
use crate::sets::{characters_in, closed};
use regex_class::Class;
use sd_base::NoMemory;
use std::alloc::Global;
use ucd_category::{GeneralCategory, GeneralCategoryGroup};
use ucd_sets::Set;

const CATEGORIES: [(&str, Set); 36] = [
    ("l", Set::CategoryGroup(GeneralCategoryGroup::Letter)),
    ("m", Set::CategoryGroup(GeneralCategoryGroup::Mark)),
    ("n", Set::CategoryGroup(GeneralCategoryGroup::Number)),
    ("p", Set::CategoryGroup(GeneralCategoryGroup::Punctuation)),
    ("s", Set::CategoryGroup(GeneralCategoryGroup::Symbol)),
    ("z", Set::CategoryGroup(GeneralCategoryGroup::Separator)),
    ("c", Set::CategoryGroup(GeneralCategoryGroup::Other)),
    ("lu", Set::Category(GeneralCategory::UppercaseLetter)),
    ("ll", Set::Category(GeneralCategory::LowercaseLetter)),
    ("lt", Set::Category(GeneralCategory::TitlecaseLetter)),
    ("lm", Set::Category(GeneralCategory::ModifierLetter)),
    ("lo", Set::Category(GeneralCategory::OtherLetter)),
    ("mn", Set::Category(GeneralCategory::NonspacingMark)),
    ("mc", Set::Category(GeneralCategory::SpacingMark)),
    ("me", Set::Category(GeneralCategory::EnclosingMark)),
    ("nd", Set::Category(GeneralCategory::DecimalNumber)),
    ("nl", Set::Category(GeneralCategory::LetterNumber)),
    ("no", Set::Category(GeneralCategory::OtherNumber)),
    ("pc", Set::Category(GeneralCategory::ConnectorPunctuation)),
    ("pd", Set::Category(GeneralCategory::DashPunctuation)),
    ("ps", Set::Category(GeneralCategory::OpenPunctuation)),
    ("pe", Set::Category(GeneralCategory::ClosePunctuation)),
    ("pi", Set::Category(GeneralCategory::InitialPunctuation)),
    ("pf", Set::Category(GeneralCategory::FinalPunctuation)),
    ("po", Set::Category(GeneralCategory::OtherPunctuation)),
    ("sm", Set::Category(GeneralCategory::MathSymbol)),
    ("sc", Set::Category(GeneralCategory::CurrencySymbol)),
    ("sk", Set::Category(GeneralCategory::ModifierSymbol)),
    ("so", Set::Category(GeneralCategory::OtherSymbol)),
    ("zs", Set::Category(GeneralCategory::SpaceSeparator)),
    ("zl", Set::Category(GeneralCategory::LineSeparator)),
    ("zp", Set::Category(GeneralCategory::ParagraphSeparator)),
    ("cc", Set::Category(GeneralCategory::Control)),
    ("cf", Set::Category(GeneralCategory::Format)),
    ("co", Set::Category(GeneralCategory::PrivateUse)),
    ("cn", Set::Category(GeneralCategory::Unassigned)),
];

/// The general category with a name, ASCII case ignored.
fn category_named(alloc: Global, name: &[char]) -> Result<Option<Set>, NoMemory>
    ensures { IfOk result (λ found. found ≡ sets.category_named name.now) }
{
    let lowered: Vec<char> = name.iter().map(|c| c.to_ascii_lowercase()).collect(alloc)?;
    Ok(value_of(&CATEGORIES, &lowered))
}

/// The set of a general category by its name, ASCII case ignored, closed under folding with `i`; none where no category has the name.
/// Refuses for want of memory alone.
pub fn category_set(alloc: Global, name: &[char], flags: Flags) -> Result<Option<Class>, NoMemory>
    ensures found { IfOk result (λ found. IfSome found (λ set. IsSet set (sets.closed flags (sets.named_set (sets.category_named name.now))) × (is_some (sets.category_named name.now) ≡ true))) }
    ensures none { IfOk result (λ found. IfNone found (is_some (sets.category_named name.now) ≡ false)) }
{
    let found = category_named(alloc, name)?;
    let Some(category) = found else {
        return Ok(None);
    };
    let characters = characters_in(alloc, category.ranges(alloc)?)?;
    Ok(Some(closed(characters, flags)?))
}
