//! A tree command on the tree of a demo.

ghost use Rattle.std.specs.Prelude.{◌≤◌};
ghost use Rattle.sd_core.specs.Demo.{SweepsDemo};

use crate::{Error, Report, Result, sweep};
use demo_tree::{FaultlessDisk, demo_disk};
use sd_change::Replaces;
use sd_io::Globs;
use std::alloc::Global;

/// Rewrites the chosen files of the tree of a demo of `n` files, from the root `/demo` on, and reports what was chosen, changed
/// and replaced. The tree stands in memory and goes with the call.
///
/// Refuses `BadGlob` with the place of the first invalid glob, and for want of memory: `NoMemory`, or
/// `FailedProcessing` with the files that it kept from being rewritten.
pub fn sweep_demo<R: Replaces>(alloc: Global, n: u64, globs: &Globs, replacer: &R) -> Result<Report>
    requires { n ≤ 100000 }
    ensures { SweepsDemo (R.change replacer.now) n globs.now result }
{
    let Ok(disk) = demo_disk(alloc, n) else {
        return Err(Error::NoMemory);
    };
    let mut disk = FaultlessDisk::new(disk);
    sweep(alloc, &mut disk, "/demo", globs, replacer)
}
