//! Rules of what is ignored: what they say, and which are refused.

use sd_ignore::{Ignore, IgnoreFault};
use std::alloc::Global;
use std::process::Abort;
use std::test::Fail;

/// Reads rules. Callers are told nothing of it, so that a test is quickly proved.
fn read(alloc: Global, text: &str) -> Result<Ignore, IgnoreFault> {
    Ignore::read(alloc, text)
}

/// A path, whether a directory stands there, and what rules say of it.
type Said = (&'static str, bool, Option<bool>);

const RULES: &str = "# c\nbuild/\n*.log\r\n!k.log\n";

/// The last rule that fits says.
const OF_RULES: &[Said] = &[
    ("build", true, Some(true)),
    ("build", false, None),
    ("a.log", false, Some(true)),
    ("d/a.log", false, Some(true)),
    ("k.log", false, Some(false)),
    ("b.txt", false, None),
];

const OF_MANY: &[Said] = &[
    ("d/k.log", false, Some(false)),
    ("d/l.log", false, Some(true)),
    ("d/a.c", false, Some(true)),
];

/// Rules say this.
fn check_said(rt: &(impl Abort + AllocGlobal), rules: &Ignore, cases: &[Said]) -> Result<(), Fail> {
    for (path, directory, said) in cases {
        let given = rules.decides(rt.alloc(), path, *directory)?;
        assert_eq!(rt; given, *said, "{path}");
    }
    Ok(())
}

/// The rules of a text say this.
fn check_rules(rt: &(impl Abort + AllocGlobal), text: &str, cases: &[Said]) -> Result<(), Fail> {
    let rules = read(rt.alloc(), text)?;
    check_said(rt, &rules, cases)
}

/// A text 100,000 times between two others.
fn repeated(alloc: Global, first: &str, text: &str, last: &str) -> Result<String, Fail> {
    let mut all = String::new(alloc);
    all.push_str(first)?;
    for _ in 0..100_000 {
        all.push_str(text)?;
    }
    all.push_str(last)?;
    Ok(all)
}

#[test]
fn the_last_rule_that_fits_says(rt: HostRuntime) -> Result<(), Fail> {
    check_rules(&rt, RULES, OF_RULES)?;
    check_said(&rt, &Ignore::new(rt.alloc()), &[("a", false, None)])?;
    let many = repeated(rt.alloc(), "a.c\n", "*.log\r\n", "!k.log")?;
    check_rules(&rt, many.as_str(), OF_MANY)
}

/// Lines that are no rules.
const BAD_LINES: &[&str] = &[
    "/", "//", "!", "!/", "!!a", "/!a", "!/!a", "a\\/", "[", "{a", "a\\", "!a[",
];

#[test]
fn bad_lines_are_told(rt: HostRuntime) -> Result<(), Fail> {
    for line in BAD_LINES {
        let text = format!(in rt.alloc(); "# c\n\n{line}\r\n[")?;
        let fault = read(rt.alloc(), text.as_str()).err();
        assert_eq!(rt; fault, Some(IgnoreFault::BadRule(3)), "{line}");
    }
    let long = repeated(rt.alloc(), "", "0123456789", "\n[")?;
    let fault = read(rt.alloc(), long.as_str()).err();
    assert_eq!(rt; fault, Some(IgnoreFault::BadRule(2)));
    Ok(())
}
