//! The options that the settings of a section are.

ghost use Rattle.std.specs.Prelude.{◌<◌, IfOk, IfSome};

use case_reader::{Case, CaseFault};
use grep_regex::RegexMatcherBuilder;

/// An option that is on or off.
#[derive(Clone, Copy)]
enum Flag {
    CaseInsensitive,
    CaseSmart,
    MultiLine,
    DotMatchesNewLine,
    SwapGreed,
    IgnoreWhitespace,
    Unicode,
    Octal,
    Crlf,
    Word,
    WordEdges,
    FixedStrings,
    WholeLine,
}

/// What a setting is.
#[derive(Clone, Copy)]
enum Setting {
    Flag(Flag),
    SizeLimit,
    DfaSizeLimit,
    NestLimit,
    LineTerminator,
    BanByte,
    /// It is no option.
    OfCases,
}

/// The settings by their names.
const SETTINGS: &[(&str, Setting)] = &[
    ("case_insensitive", Setting::Flag(Flag::CaseInsensitive)),
    ("case_smart", Setting::Flag(Flag::CaseSmart)),
    ("multi_line", Setting::Flag(Flag::MultiLine)),
    (
        "dot_matches_new_line",
        Setting::Flag(Flag::DotMatchesNewLine),
    ),
    ("swap_greed", Setting::Flag(Flag::SwapGreed)),
    ("ignore_whitespace", Setting::Flag(Flag::IgnoreWhitespace)),
    ("unicode", Setting::Flag(Flag::Unicode)),
    ("octal", Setting::Flag(Flag::Octal)),
    ("crlf", Setting::Flag(Flag::Crlf)),
    ("word", Setting::Flag(Flag::Word)),
    ("word_edges", Setting::Flag(Flag::WordEdges)),
    ("fixed_strings", Setting::Flag(Flag::FixedStrings)),
    ("whole_line", Setting::Flag(Flag::WholeLine)),
    ("size_limit", Setting::SizeLimit),
    ("dfa_size_limit", Setting::DfaSizeLimit),
    ("nest_limit", Setting::NestLimit),
    ("line_terminator", Setting::LineTerminator),
    ("ban_byte", Setting::BanByte),
    ("patterns", Setting::OfCases),
    ("literals", Setting::OfCases),
    ("wanted", Setting::OfCases),
];

/// The builder that a section asks for: each setting sets its option after the one before it. Refuses an unknown setting, and a
/// value that it doesn't have. Callers are told nothing of the builder.
pub fn builder_of(case: &Case<'_>) -> Result<RegexMatcherBuilder, CaseFault> {
    let mut builder = RegexMatcherBuilder::new();
    for number in 0..usize::MAX {
        match case.setting_at(number) {
            None => break,
            Some((name, value)) => set(&mut builder, setting_of(name)?, value)?,
        }
    }
    Ok(builder)
}

/// The setting of a name. Refuses an unknown one.
fn setting_of(name: &str) -> Result<Setting, CaseFault> {
    for (known, setting) in SETTINGS {
        if *known == name {
            return Ok(*setting);
        }
    }
    Err(CaseFault::Word)
}

/// Sets what a setting is to its value. Refuses a value that it doesn't have.
fn set(builder: &mut RegexMatcherBuilder, setting: Setting, value: &str) -> Result<(), CaseFault> {
    match setting {
        Setting::OfCases => {}
        Setting::Flag(flag) => set_flag(builder, flag, yes_of(value)?),
        Setting::SizeLimit => {
            builder.size_limit(bytes_of(value)?);
        }
        Setting::DfaSizeLimit => {
            builder.dfa_size_limit(bytes_of(value)?);
        }
        Setting::NestLimit => {
            builder.nest_limit(depth_of(value)?);
        }
        Setting::LineTerminator => {
            builder.line_terminator(byte_of(value)?);
        }
        Setting::BanByte => {
            builder.ban_byte(ascii_of(value)?);
        }
    }
    Ok(())
}

/// Sets an option that is on or off.
fn set_flag(builder: &mut RegexMatcherBuilder, flag: Flag, yes: bool) {
    match flag {
        Flag::CaseInsensitive => builder.case_insensitive(yes),
        Flag::CaseSmart => builder.case_smart(yes),
        Flag::MultiLine => builder.multi_line(yes),
        Flag::DotMatchesNewLine => builder.dot_matches_new_line(yes),
        Flag::SwapGreed => builder.swap_greed(yes),
        Flag::IgnoreWhitespace => builder.ignore_whitespace(yes),
        Flag::Unicode => builder.unicode(yes),
        Flag::Octal => builder.octal(yes),
        Flag::Crlf => builder.crlf(yes),
        Flag::Word => builder.word(yes),
        Flag::WordEdges => builder.word_edges(yes),
        Flag::FixedStrings => builder.fixed_strings(yes),
        Flag::WholeLine => builder.whole_line(yes),
    };
}

/// Whether a value is `yes`. Refuses what is neither that nor `no`.
fn yes_of(value: &str) -> Result<bool, CaseFault> {
    match value {
        "yes" => Ok(true),
        "no" => Ok(false),
        _ => Err(CaseFault::Word),
    }
}

/// A number of bytes. Refuses what is none.
fn bytes_of(value: &str) -> Result<usize, CaseFault> {
    value.parse::<usize>().map_err(|_| CaseFault::Number)
}

/// How deep a pattern may nest. Refuses what is no such number.
fn depth_of(value: &str) -> Result<u32, CaseFault> {
    value.parse::<u32>().map_err(|_| CaseFault::Number)
}

/// A byte by its number, or `none`. Refuses what is neither.
fn byte_of(value: &str) -> Result<Option<u8>, CaseFault> {
    match value {
        "none" => Ok(None),
        _ => match value.parse::<u8>() {
            Ok(byte) => Ok(Some(byte)),
            Err(_) => Err(CaseFault::Number),
        },
    }
}

/// The same below 128.
fn ascii_of(value: &str) -> Result<Option<u8>, CaseFault>
    ensures { IfOk result (λ byte. IfSome byte (λ b. b < 128)) }
{
    match byte_of(value)? {
        Some(byte) if !byte.is_ascii() => Err(CaseFault::Number),
        byte => Ok(byte),
    }
}
