//! The sets of `\d`, `\s` and `\w`.

ghost use Rattle.std.specs.Prelude.{IfOk};
ghost use Rattle.pattern_syntax.specs.Sets as sets;
ghost use Rattle.pattern_syntax.specs.Sets.{digits_of, spaces_of, words_of};
ghost use Rattle.pattern_syntax.specs.Readers.{IsSet};

use crate::Flags;
use crate::sets::{characters_in, complement};
use regex_class::{Class, ClassRange};
use sd_base::NoMemory;
use std::alloc::Global;

const ASCII_DIGITS: [ClassRange; 1] = [(0x30, 0x39)];

const ASCII_SPACES: [ClassRange; 2] = [(0x09, 0x0D), (0x20, 0x20)];

const ASCII_WORDS: [ClassRange; 4] = [(0x30, 0x39), (0x41, 0x5A), (0x5F, 0x5F), (0x61, 0x7A)];

/// The set of `\d`, `\s`, `\w`, `\D`, `\S` or `\W`, by its letter. Refuses for want of memory alone.
pub fn perl_set(alloc: Global, letter: char, flags: Flags) -> Result<Class, NoMemory>
    ensures { IfOk result (λ set. IsSet set (sets.perl_set flags letter)) }
{
    match letter {
        'd' => digits(alloc, flags),
        's' => spaces(alloc, flags),
        'w' => words(alloc, flags),
        'D' => complement(&digits(alloc, flags)?, flags),
        'S' => complement(&spaces(alloc, flags)?, flags),
        _ => complement(&words(alloc, flags)?, flags),
    }
}

fn digits(alloc: Global, flags: Flags) -> Result<Class, NoMemory>
    ensures { IfOk result (λ set. IsSet set (digits_of flags)) }
{
    if flags.unicode {
        characters_in(alloc, ucd_perl::digit_ranges(alloc)?)
    } else {
        Ok(Class::from_ranges(alloc, &ASCII_DIGITS)?)
    }
}

fn spaces(alloc: Global, flags: Flags) -> Result<Class, NoMemory>
    ensures { IfOk result (λ set. IsSet set (spaces_of flags)) }
{
    if flags.unicode {
        characters_in(alloc, ucd_perl::space_ranges(alloc)?)
    } else {
        Ok(Class::from_ranges(alloc, &ASCII_SPACES)?)
    }
}

fn words(alloc: Global, flags: Flags) -> Result<Class, NoMemory>
    ensures { IfOk result (λ set. IsSet set (words_of flags)) }
{
    if flags.unicode {
        characters_in(alloc, ucd_perl::word_ranges(alloc)?)
    } else {
        Ok(Class::from_ranges(alloc, &ASCII_WORDS)?)
    }
}
