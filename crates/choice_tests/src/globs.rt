//! What refuses globs and rules.

use chosen_files::ChoiceFault;
use sd_ignore::IgnoreFault;
use std::test::Fail;

#[test]
fn errors_of_globs_and_rules_have_texts(rt: HostRuntime) -> Result<(), Fail> {
    let alloc = rt.alloc();
    let of_glob = format!(in alloc; "{}, {}", ChoiceFault::BadGlob(3), ChoiceFault::NoMemory)?;
    assert_eq!(rt; of_glob.as_str(), "invalid glob at place 3, out of memory");
    let of_rule = format!(in alloc; "{}, {}", IgnoreFault::BadRule(2), IgnoreFault::NoMemory)?;
    assert_eq!(rt; of_rule.as_str(), "invalid rule in line 2, out of memory");
    Ok(())
}
