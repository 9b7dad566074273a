//! A change of two files that is cut off at each call, crashes and is recovered.

use crate::disks::{Left, Node, Nodes, are_left, filled};
use crate::recoveries::answer_of;
use crate::replacers::Text as Becomes;
use journal::{JournalFault, change_files, recover};
use mem_io::MemDisk;
use sd_base::Text;
use std::alloc::Global;
use std::process::Abort;
use std::test::Fail;

/// The paths of both files.
fn both(alloc: Global) -> Result<Vec<Text>, Fail> {
    let mut paths = Vec::new(alloc);
    paths.push(Text::new(alloc, "/t/a/x")?)?;
    paths.push(Text::new(alloc, "/t/y")?)?;
    Ok(paths)
}

/// Makes the files "1". Callers are told nothing of it, so that they are quickly proved.
fn change(alloc: Global, disk: &mut MemDisk, paths: &[Text]) -> Result<(), JournalFault> {
    let replacer = Becomes { alloc, text: b"1" };
    change_files(alloc, disk, "/t", paths, &replacer)
}

/// Makes the files "1", and gives the text of the fault; none where they were made so.
fn changed(alloc: Global, disk: &mut MemDisk) -> Result<String, Fail> {
    let paths = both(alloc)?;
    match change(alloc, disk, &paths) {
        Ok(()) => Ok(String::new(alloc)),
        Err(fault) => Ok(format!(in alloc; "{fault}")?),
    }
}

const OLD: Left = &[("/t/a/x", Some(b"one")), ("/t/y", Some(b"one"))];

const NEW: Left = &[("/t/a/x", Some(b"1")), ("/t/y", Some(b"1"))];

/// Both new, and nothing else.
const NEW_ALONE: Left = &[
    ("/t/a/x", Some(b"1")),
    ("/t/y", Some(b"1")),
    ("/t/.sd-journal", None),
    ("/t/.sd-0000.tmp", None),
    ("/t/a/.sd-0000.tmp", None),
];

/// Whether both files are old, or both new, each with its mode.
fn is_whole(alloc: Global, disk: &MemDisk) -> Result<bool, Fail> {
    Ok(are_left(alloc, disk, OLD)? || are_left(alloc, disk, NEW)?)
}

/// The fault of the change, whether both files are new and nothing else is left, and how many counted calls it makes.
fn made(alloc: Global) -> Result<(String, bool, u64), Fail> {
    let mut disk = filled(alloc, &[])?;
    let fault = changed(alloc, &mut disk)?;
    let is_alone = are_left(alloc, &disk, NEW_ALONE)?;
    Ok((fault, is_alone, disk.calls()))
}

#[test]
fn a_change_leaves_new_files_and_nothing_else(rt: HostRuntime) -> Result<(), Fail> {
    let (fault, is_alone, _) = made(rt.alloc())?;
    assert_eq!(rt; fault.as_str(), "");
    assert!(rt; is_alone);
    Ok(())
}

/// The disk on which the change was cut off at a call.
fn cut_off(alloc: Global, call: u64) -> Result<MemDisk, Fail> {
    let mut disk = filled(alloc, &[])?;
    disk.stop_at(call);
    let _fault = changed(alloc, &mut disk)?;
    Ok(disk)
}

/// Whether a recovery comes to its end, and leaves a whole state.
fn is_recovered(alloc: Global, image: &mut MemDisk) -> Result<bool, Fail> {
    let is_ended = recover(alloc, image, "/t").is_ok();
    Ok(is_ended && is_whole(alloc, image)?)
}

/// Whether the image that a crash leaves by a choice is recovered.
fn is_image_recovered(alloc: Global, disk: &MemDisk, choice: u64) -> Result<bool, Fail> {
    let mut image = disk.crash(alloc, choice)?;
    is_recovered(alloc, &mut image)
}

/// Whether each of so many images that a crash leaves is recovered.
fn are_recovered(alloc: Global, disk: &MemDisk, choices: u64) -> Result<bool, Fail> {
    for choice in 0..choices {
        if !is_image_recovered(alloc, disk, choice)? {
            return Ok(false);
        }
    }
    Ok(true)
}

/// The image that a crash leaves by a choice, after a recovery that is cut off at a call.
fn recovered_to(alloc: Global, disk: &MemDisk, choice: u64, stop: u64) -> Result<MemDisk, Fail> {
    let mut image = disk.crash(alloc, choice)?;
    image.stop_at(stop);
    let _answer = answer_of(alloc, &mut image, "/t")?;
    Ok(image)
}

/// How many counted calls a recovery of an image makes.
fn recovery_calls(alloc: Global, disk: &MemDisk, choice: u64) -> Result<u64, Fail> {
    Ok(recovered_to(alloc, disk, choice, u64::MAX)?.calls())
}

/// Whether all are recovered where the recovery of an image is itself cut off at any call.
fn is_recovered_again(alloc: Global, disk: &MemDisk, choice: u64) -> Result<bool, Fail> {
    for call in 1..=recovery_calls(alloc, disk, choice)? {
        let image = recovered_to(alloc, disk, choice, call)?;
        if !are_recovered(alloc, &image, 8)? {
            return Ok(false);
        }
    }
    Ok(true)
}

/// Whether images of a disk on which the change was cut off at a call are recovered: so many of them at once, and those of two choices,
/// with nothing on the medium and with another outcome at each place, where the recovery is cut off too.
fn is_each_recovered(alloc: Global, call: u64, again: bool) -> Result<bool, Fail> {
    let disk = cut_off(alloc, call)?;
    if again {
        Ok(is_recovered_again(alloc, &disk, 0)? && is_recovered_again(alloc, &disk, u64::MAX)?)
    } else {
        are_recovered(alloc, &disk, 256)
    }
}

/// Whatever the call that the change is cut off at, it is recovered.
fn check_recovered(rt: &(impl Abort + AllocGlobal), again: bool) -> Result<(), Fail> {
    let (_, _, calls) = made(rt.alloc())?;
    for call in 1..=calls {
        let is_recovered = is_each_recovered(rt.alloc(), call, again)?;
        assert!(rt; is_recovered, "cut off at call {call}");
    }
    Ok(())
}

#[test]
fn each_stop_and_crash_is_recovered(rt: HostRuntime) -> Result<(), Fail> {
    check_recovered(&rt, false)
}

#[test]
fn a_recovery_that_is_cut_off_is_recovered(rt: HostRuntime) -> Result<(), Fail> {
    check_recovered(&rt, true)
}

/// Something else in the journal's place.
const TAKEN: Nodes = &[("/t/.sd-journal", Node::File(b"x"))];

/// What a change and a recovery answer where the journal's place is taken.
fn answers_pending(alloc: Global) -> Result<(String, String), Fail> {
    let mut disk = filled(alloc, TAKEN)?;
    let change = changed(alloc, &mut disk)?;
    let recovery = answer_of(alloc, &mut disk, "/t")?;
    Ok((change, recovery))
}

#[test]
fn what_is_no_journal_is_refused(rt: HostRuntime) -> Result<(), Fail> {
    let (change, recovery) = answers_pending(rt.alloc())?;
    assert_eq!(rt; change.as_str(), "a journal is pending");
    assert_eq!(rt; recovery.as_str(), "not a journal");
    Ok(())
}
