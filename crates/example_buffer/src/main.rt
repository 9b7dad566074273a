//! An editor's replacing in a buffer: `example_buffer FIND REPLACE_WITH` shows the spans of what it finds, and then puts
//! the text in their place. The buffer is what standard input gives.
#![tactic(auto)]

ghost use Rattle.std.specs.Prelude.{◌≡◌, IfOk, OnErr};

use anyhow::{Error, Result};
use grep_matcher::Matcher;
use grep_regex::RegexMatcherBuilder;
use sd_base::NoMemory;
use sd_change::Replaces;
use sd_replace::Replacer;
use std::{env, io};

fn main(rt: HostRuntime) -> Result<()> {
    let words: Vec<String> = env::args(&rt)?.skip(1).collect(rt.alloc())?;
    match words.as_slice() {
        [find, replace_with] => edit(&rt, find, replace_with),
        _ => Err(Error::msg("the words are FIND REPLACE_WITH")),
    }
}

/// Shows what a pattern finds in the text that standard input gives, and that text with another in place of each match.
fn edit(rt: &HostRuntime, find: &str, replace_with: &str) -> Result<()> {
    let text = io::read_to_string(rt.alloc(), rt.stdin())?;
    show_matches(rt, find, &text)?;
    show_replaced(rt, find, replace_with, text.into_bytes())
}

/// Prints the matches of a pattern.
fn show_matches(rt: &HostRuntime, find: &str, text: &str) -> Result<()> {
    let matcher = RegexMatcherBuilder::new()
        .multi_line(true)
        .build(rt.alloc(), find)?;
    let shown = show(rt, &matcher, text);
    drop(matcher);
    Ok(shown?)
}

/// Prints a buffer with a text in place of each match of a pattern, and how often that is.
fn show_replaced(rt: &HostRuntime, find: &str, replace_with: &str, old: Vec<u8>) -> Result<()> {
    let mut buffer = old;
    let replacer = Replacer::new(rt.alloc(), find, replace_with, false, None, 0)?;
    let count = replace(&mut buffer, &replacer);
    drop(replacer);
    println!(rt; "{} replaced:", count?)?;
    print!(rt; "{}", String::from_utf8_lossy(rt.alloc(), &buffer)?)?;
    Ok(())
}

/// Prints where each match lies, and its text.
fn show<M: Matcher>(rt: &HostRuntime, matcher: &M, text: &str) -> Result<(), M::Error> {
    matcher.find_iter(text.as_bytes(), |span| {
        let found = text.get(span.start()..span.end()).unwrap_or("");
        println!(rt; "{}..{} {found}", span.start(), span.end()).is_ok()
    })
}

/// Replaces in a buffer, and answers how often. After an error the buffer is as it was.
fn replace<R: Replaces>(buffer: &mut Vec<u8>, replacer: &R) -> Result<u128, NoMemory>
    ensures replaced { IfOk result (R.change replacer.now buffer.old.items buffer.new.items) }
    ensures refused { OnErr result (buffer.new.items ≡ buffer.old.items) }
{
    let Some(changed) = replacer.change(buffer)? else {
        return Ok(0);
    };
    *buffer = changed.new_bytes;
    Ok(changed.count)
}
