//! A pattern of many spots.

use grep_regex::{ErrorKind, RegexFault, RegexMatcherBuilder};
use std::alloc::Global;
use std::test::Fail;

/// Why no matcher is built of a pattern with the default options. `None` where one is.
fn why_not_built(alloc: Global, pattern: &str) -> Result<Option<ErrorKind>, Fail> {
    if pattern.len() > u32::MAX as usize {
        return Err("a long pattern".into());
    }
    let built = RegexMatcherBuilder::new().build(alloc, pattern);
    let kind = match &built {
        Ok(_) => None,
        Err(error) => Some(*error.kind()),
    };
    drop(built);
    Ok(kind)
}

#[test]
fn a_pattern_of_a_thousand_million_spots_is_too_large(rt: HostRuntime) -> Result<(), Fail> {
    let refused = why_not_built(rt.alloc(), "(?:a{1000}){1000}{1000}")?;
    let size = ErrorKind::Regex(RegexFault::Size(104_857_600));
    assert_eq!(rt; refused, Some(size));
    Ok(())
}
