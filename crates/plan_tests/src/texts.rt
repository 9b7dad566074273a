//! Plans and their texts, digests, and paths in one line.

use sd_base::Text;
use sd_plan::{
    Digest, Plan, PlanFault, PlanLine, digest, escape_path, read_plan, unescape_path, write_plan,
};
use std::alloc::Global;
use std::process::Abort;
use std::test::Fail;

const ABC: &str = "ba7816bf8f01cfea414140de5dae2223b00361a396177a9cb410ff61f20015ad";

const EMPTY: &str = "e3b0c44298fc1c149afbf4c8996fb92427ae41e4649b934ca495991b7852b855";

const ONE_LINE: &str =
    "sd-plan 1\nba7816bf8f01cfea414140de5dae2223b00361a396177a9cb410ff61f20015ad e3b0c44298fc1c149afbf4c8996fb92427ae41e4649b934ca495991b7852b855 + 1 /t/x\nchosen 1, changed 1, replaced 1\n";

const ODD_LINES: &str =
    "sd-plan 1\ne3b0c44298fc1c149afbf4c8996fb92427ae41e4649b934ca495991b7852b855 e3b0c44298fc1c149afbf4c8996fb92427ae41e4649b934ca495991b7852b855 = 0 /t/a b\\\\c\\nd\nba7816bf8f01cfea414140de5dae2223b00361a396177a9cb410ff61f20015ad ba7816bf8f01cfea414140de5dae2223b00361a396177a9cb410ff61f20015ad + 340282366920938463463374607431768211455 é\nchosen 2, changed 1, replaced 340282366920938463463374607431768211455\n";

/// Texts of no plan: each is that of one line with something else in it.
const NO_PLANS: [&str; 22] = [
    "",
    "sd-plan 1\n",
    "sd-plan 1",
    "sd-plan 2\nchosen 0, changed 0, replaced 0\n",
    "\nsd-plan 1\nchosen 0, changed 0, replaced 0\n",
    "sd-plan 1\nchosen 0, changed 0, replaced 0",
    "sd-plan 1\nchosen 0, changed 0, replaced 0\n\n",
    "sd-plan 1\nchosen 0, changed 0, replaced 0\nchosen 0, changed 0, replaced 0\n",
    "sd-plan 1\nchosen 1, changed 0, replaced 0\n",
    "sd-plan 1\nBA7816BF8F01CFEA414140DE5DAE2223B00361A396177A9CB410FF61F20015AD e3b0c44298fc1c149afbf4c8996fb92427ae41e4649b934ca495991b7852b855 + 1 /t/x\nchosen 1, changed 1, replaced 1\n",
    "sd-plan 1\nba78 e3b0c44298fc1c149afbf4c8996fb92427ae41e4649b934ca495991b7852b855 + 1 /t/x\nchosen 1, changed 1, replaced 1\n",
    "sd-plan 1\nba7816bf8f01cfea414140de5dae2223b00361a396177a9cb410ff61f20015ad e3b0c44298fc1c149afbf4c8996fb92427ae41e4649b934ca495991b7852b855 * 1 /t/x\nchosen 1, changed 1, replaced 1\n",
    "sd-plan 1\nba7816bf8f01cfea414140de5dae2223b00361a396177a9cb410ff61f20015ad e3b0c44298fc1c149afbf4c8996fb92427ae41e4649b934ca495991b7852b855 + 01 /t/x\nchosen 1, changed 1, replaced 1\n",
    "sd-plan 1\nba7816bf8f01cfea414140de5dae2223b00361a396177a9cb410ff61f20015ad e3b0c44298fc1c149afbf4c8996fb92427ae41e4649b934ca495991b7852b855 + +1 /t/x\nchosen 1, changed 1, replaced 1\n",
    "sd-plan 1\nba7816bf8f01cfea414140de5dae2223b00361a396177a9cb410ff61f20015ad e3b0c44298fc1c149afbf4c8996fb92427ae41e4649b934ca495991b7852b855 + 340282366920938463463374607431768211456 /t/x\nchosen 1, changed 1, replaced 340282366920938463463374607431768211456\n",
    "sd-plan 1\nba7816bf8f01cfea414140de5dae2223b00361a396177a9cb410ff61f20015ad e3b0c44298fc1c149afbf4c8996fb92427ae41e4649b934ca495991b7852b855 = 1 /t/x\nchosen 1, changed 0, replaced 1\n",
    "sd-plan 1\nba7816bf8f01cfea414140de5dae2223b00361a396177a9cb410ff61f20015ad e3b0c44298fc1c149afbf4c8996fb92427ae41e4649b934ca495991b7852b855 + 1 \nchosen 1, changed 1, replaced 1\n",
    "sd-plan 1\nba7816bf8f01cfea414140de5dae2223b00361a396177a9cb410ff61f20015ad e3b0c44298fc1c149afbf4c8996fb92427ae41e4649b934ca495991b7852b855 + 1\nchosen 1, changed 1, replaced 1\n",
    "sd-plan 1\nba7816bf8f01cfea414140de5dae2223b00361a396177a9cb410ff61f20015ad e3b0c44298fc1c149afbf4c8996fb92427ae41e4649b934ca495991b7852b855 + 1 /t\\x\nchosen 1, changed 1, replaced 1\n",
    "sd-plan 1\nba7816bf8f01cfea414140de5dae2223b00361a396177a9cb410ff61f20015ad e3b0c44298fc1c149afbf4c8996fb92427ae41e4649b934ca495991b7852b855 + 1 /t\\\nchosen 1, changed 1, replaced 1\n",
    "sd-plan 1\nba7816bf8f01cfea414140de5dae2223b00361a396177a9cb410ff61f20015ad  e3b0c44298fc1c149afbf4c8996fb92427ae41e4649b934ca495991b7852b855 + 1 /t/x\nchosen 1, changed 1, replaced 1\n",
    "sd-plan 1\r\nba7816bf8f01cfea414140de5dae2223b00361a396177a9cb410ff61f20015ad e3b0c44298fc1c149afbf4c8996fb92427ae41e4649b934ca495991b7852b855 + 1 /t/x\r\nchosen 1, changed 1, replaced 1\r\n",
];

/// Plans that are read, and how many lines there are, what is told of the first, and how many spans are replaced.
const PLANS: &[(&str, usize, &str, u128)] = &[
    ("sd-plan 1\nchosen 0, changed 0, replaced 0\n", 0, "", 0),
    (
        ONE_LINE,
        1,
        "ba7816bf8f01cfea414140de5dae2223b00361a396177a9cb410ff61f20015ad e3b0c44298fc1c149afbf4c8996fb92427ae41e4649b934ca495991b7852b855 true 1 /t/x",
        1,
    ),
    (
        ODD_LINES,
        2,
        "e3b0c44298fc1c149afbf4c8996fb92427ae41e4649b934ca495991b7852b855 e3b0c44298fc1c149afbf4c8996fb92427ae41e4649b934ca495991b7852b855 false 0 /t/a b\\c\nd",
        u128::MAX,
    ),
];

#[test]
fn digests_are_those_of_the_standard(rt: HostRuntime) -> Result<(), Fail> {
    let abc = digest(b"abc");
    let empty = digest(b"");
    let shown = format!(in rt.alloc(); "{abc} {empty}")?;
    let wanted = format!(in rt.alloc(); "{ABC} {EMPTY}")?;
    assert_eq!(rt; shown.as_str(), wanted.as_str());
    assert_eq!(rt; Digest::from_slice(abc.as_bytes()), abc);
    Ok(())
}

/// A plan to make `/t/x` empty.
fn plan_of_one(alloc: Global) -> Result<Plan, Fail> {
    let path = Text::new(alloc, "/t/x")?;
    let mut plan = Plan::new(alloc);
    plan.push(PlanLine {
        before: digest(b"abc"),
        after: digest(b""),
        changed: true,
        replaced: 1,
        path,
    })?;
    Ok(plan)
}

/// A plan as it is written.
fn text_of(alloc: Global, plan: &Plan) -> Result<Vec<u8>, Fail> {
    Ok(write_plan(alloc, plan)?)
}

/// The text of a plan to make `/t/x` empty.
fn written(alloc: Global) -> Result<Vec<u8>, Fail> {
    let plan = plan_of_one(alloc)?;
    text_of(alloc, &plan)
}

#[test]
fn a_plan_of_one_line_is_written(rt: HostRuntime) -> Result<(), Fail> {
    let text = written(rt.alloc())?;
    assert_eq!(rt; text.as_slice(), ONE_LINE.as_bytes());
    Ok(())
}

/// What is told of the first line of a plan.
fn first_told(alloc: Global, plan: &Plan) -> Result<String, Fail> {
    let Some(line) = plan.lines().first() else {
        return Ok(String::new(alloc));
    };
    let PlanLine {
        before,
        after,
        changed,
        replaced,
        path,
    } = line;
    let path = path.as_str();
    Ok(format!(in alloc; "{before} {after} {changed} {replaced} {path}")?)
}

/// Reads a plan. Callers are told nothing of it, so that they are quickly proved.
fn read(alloc: Global, text: &[u8]) -> Result<Plan, PlanFault> {
    read_plan(alloc, text)
}

/// A plan is written as this text, and tells this.
fn check_plan(
    rt: &(impl Abort + AllocGlobal),
    plan: &Plan,
    (text, lines, first, replaced): &(&str, usize, &str, u128),
) -> Result<(), Fail> {
    let again = text_of(rt.alloc(), plan)?;
    assert_eq!(rt; again.as_slice(), text.as_bytes());
    let told = first_told(rt.alloc(), plan)?;
    assert_eq!(rt; told.as_str(), *first);
    assert_eq!(rt; plan.len(), *lines);
    assert_eq!(rt; plan.replaced(), *replaced);
    Ok(())
}

#[test]
fn what_is_read_is_written_again(rt: HostRuntime) -> Result<(), Fail> {
    for wanted in PLANS {
        let plan = read(rt.alloc(), wanted.0.as_bytes())?;
        check_plan(&rt, &plan, wanted)?;
    }
    Ok(())
}

/// Whether a text is refused as that of no plan.
fn is_refused(alloc: Global, text: &[u8]) -> bool {
    matches!(read(alloc, text), Err(PlanFault::NotAPlan))
}

#[test]
fn texts_of_no_plan_are_refused(rt: HostRuntime) {
    for text in NO_PLANS {
        assert!(rt; is_refused(rt.alloc(), text.as_bytes()), "{text}");
    }
    let no_text = b"sd-plan 1\n\xff\nchosen 0, changed 0, replaced 0\n";
    assert!(rt; is_refused(rt.alloc(), no_text));
}

#[test]
fn paths_are_escaped_and_back(rt: HostRuntime) -> Result<(), Fail> {
    let path = "/a\\b\nc \u{e9}\u{1f600}";
    let text = escape_path(rt.alloc(), path)?;
    assert_eq!(rt; text.as_str(), "/a\\\\b\\nc \u{e9}\u{1f600}");
    let back = unescape_path(rt.alloc(), text.as_str())?.ok_or("none")?;
    assert_eq!(rt; back.as_str(), path);
    for odd in ["\\", "a\\b", "a\nb", "\\\\\\"] {
        assert!(rt; unescape_path(rt.alloc(), odd)?.is_none());
    }
    Ok(())
}
