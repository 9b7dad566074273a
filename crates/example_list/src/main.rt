//! Lists the files below a folder, but for the empty ones and for those that rules ignore.
//!
//! `example_list RULES FOLDER`, where RULES is a file of such rules as a `.gitignore` has.
#![tactic(auto)]

ghost use Rattle.std.specs.Prelude.{codes, [], ◌∷◌, IsTrue, IfOk};
ghost use Rattle.sd_io.specs.Disk.{SameTree};
ghost use Rattle.chosen_files.specs.Kept.{ListsKept};

use anyhow::{Context, Error, Result};
use chosen_files::{Choice, choose_kept};
use glob_match::Glob;
use host_io::HostDisk;
use sd_ignore::Ignore;
use sd_io::{Disk, Text};
use std::alloc::Global;
use std::{env, fs};

/// So many entries below the root are too many.
const CAP: u64 = 1_000_000;

fn main(rt: HostRuntime) -> Result<()> {
    let words: Vec<String> = env::args(&rt)?.skip(1).collect(rt.alloc())?;
    list_named(&rt, &words)
}

/// Lists the files that the words of a command ask for.
fn list_named(rt: &HostRuntime, words: &[String]) -> Result<()> {
    match words {
        [rules, folder] => list_kept(rt, &fs::read_to_string(rt, rules)?, folder),
        _ => Err(Error::msg("the words are RULES FOLDER")),
    }
}

/// Lists the files below a folder that the rules of a text don't ignore.
fn list_kept(rt: &HostRuntime, rules: &str, folder: &str) -> Result<()> {
    let rules = Ignore::read(rt.alloc(), rules)?;
    let choice = kept_files(rt.alloc(), &mut HostDisk::new(rt), folder, &rules)?;
    list_all(rt, &choice.paths)
}

/// Prints paths, each on a line.
fn list_all(rt: &HostRuntime, paths: &[Text]) -> Result<()> {
    for path in paths {
        println!(rt; "{}", path.as_str())?;
    }
    Ok(())
}

/// The files below a root that no rule ignores, in the order of their names. Nothing is changed on the disk.
fn kept_files<D: Disk>(alloc: Global, disk: &mut D, root: &str, rules: &Ignore) -> Result<Choice>
    ensures kept { IsTrue D.tells → IfOk result (λ choice. ListsKept (D.state disk.old).tree root.now (codes "**" ∷ []) rules.now choice.paths.items) }
    ensures tree { SameTree (D.state disk.old) (D.state disk.new) }
{
    let any = Glob::read(alloc, "**")?.context("the glob isn't valid")?;
    Ok(choose_kept(alloc, disk, root, &[any], rules, CAP)?)
}
