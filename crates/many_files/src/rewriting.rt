//! Files rewritten one after the other.

ghost use Rattle.std.specs.Prelude.{◌≡◌, ◌≢◌, ◌<◌, ◌≤◌, ◌+◌, ◌^◌, ◌++◌, ◌∷◌, [], List, IsTrue, IfOk, IfErr, Err, vec_len, vec_capacity};
ghost use Rattle.sd_io.specs.Tree.{NameList};
ghost use Rattle.sd_io.specs.Disk.{SameLists};
ghost use Rattle.sd_course.specs.Course.{course};
ghost use Rattle.many_files.specs.Files.{ListsFiles};
ghost use Rattle.many_files.specs.Counts.{changed_by, replaced_by};
ghost use Rattle.many_files.specs.Jobs.{failed_of, end_of};
ghost use Rattle.many_files.specs.InTurn.{DoesFiles, FilesFail};
ghost use Rattle.many_files.specs.Clear.{AreFilesClear};
ghost use Rattle.many_files.specs.Ends.{RewritesListed, IsForMemory};

use crate::{FailedJobs, FilesFault, Report};
use file_rewrite::{JobFault, Rewrite, replace_file};
use sd_base::{NoMemory, Text};
use sd_change::Replaces;
use sd_io::Disk;
use std::alloc::Global;

/// Rewrites the file that each path leads to, in their order, each as the one before left the disk; two paths may lead to one
/// file. One that fails is a job, and the others go on. `Ok` tells their counts where none failed, else the fault tells the
/// jobs, which are exactly the failed ones.
///
/// Refuses for want of memory alone before anything is written, with the disk as it was. After a refusal each file that is
/// no job is rewritten, and each job's file is as its fault says. Where nothing stands in the way, each job is one for want of
/// memory, or finds each reserved name taken after such a job in its folder.
///
/// More is promised of paths that lead to regular nonempty files at places strictly in order, where the disk tells its tree:
/// a crash at any moment leaves each file as one at entry could have left it, or with its mode and its new bytes; it may leave
/// anything at the reserved names that were free in their folders; and all else as one at entry could have left it. After `Ok`
/// each crash leaves the new bytes of the files whose bytes change, and all else as one at entry could have left it.
pub fn rewrite_each<D: Disk, R: Replaces>(
    alloc: Global,
    disk: &mut D,
    paths: Vec<Text>,
    replacer: &R,
) -> Result<Report, FilesFault>
    ensures done { IfOk result (λ report. DoesFiles (R.change replacer.now) paths.items report (course D.tells (D.state disk.old) (D.state disk.new))) }
    ensures fails { IfErr result (FilesFail (R.change replacer.now) paths.items (course D.tells (D.state disk.old) (D.state disk.new))) }
    ensures no_memory { result ≡ Err FilesFault.NoMemory → disk.new ≡ disk.old }
    ensures listed { IsTrue D.tells → (places : List NameList) → ListsFiles (D.state disk.old).tree paths.items places
        → RewritesListed (R.change replacer.now) paths.items places result (D.state disk.old) (D.state disk.new) }
    ensures lists { SameLists (D.state disk.old) (D.state disk.new) }
    ensures never_falls { (D.state disk.old).faults ≤ (D.state disk.new).faults }
    ensures complete { AreFilesClear paths.items (course D.tells (D.state disk.old) (D.state disk.new)) → IfErr result (IsForMemory (D.state disk.new).tree) }
{
    let chosen = paths.len() as u128;
    let mut done = Done::with_room(alloc, paths.len())?;
    for path in paths {
        let rewritten = replace_file(alloc, disk, replacer, path.as_str());
        done.add(path, rewritten);
    }
    done.finish(chosen)
}

/// What was done so far.
#[derive(Drop)]
struct Done {
    changed: u128,
    replaced: u128,
    jobs: Vec<(Text, JobFault)>,
}

impl Done {
    /// Nothing yet, and room for so many jobs. Refuses for want of memory alone.
    fn with_room(alloc: Global, room: usize) -> Result<Done, NoMemory>
        ensures changed { IfOk result (λ done. done.changed ≡ 0) }
        ensures replaced { IfOk result (λ done. done.replaced ≡ 0) }
        ensures jobs { IfOk result (λ done. done.jobs.items ≡ []) }
        ensures none { IfOk result (λ done. vec_len done.jobs ≡ 0) }
        ensures room { IfOk result (λ done. room ≤ vec_capacity done.jobs) }
    {
        let jobs = Vec::with_capacity(alloc, room)?;
        Ok(Done {
            changed: 0,
            replaced: 0,
            jobs,
        })
    }

    /// Adds what came of one more file.
    fn add(&mut self, path: Text, rewritten: Result<Rewrite, JobFault>)
        requires room { vec_len self.old.jobs < vec_capacity self.old.jobs }
        requires changed { self.old.changed + 1 < 2 ^ 128 }
        requires replaced { self.old.replaced + replaced_by rewritten < 2 ^ 128 }
        ensures changed { self.new.changed ≡ self.old.changed + changed_by rewritten }
        ensures replaced { self.new.replaced ≡ self.old.replaced + replaced_by rewritten }
        ensures jobs { self.new.jobs.items ≡ self.old.jobs.items ++ failed_of (path ∷ []) (end_of rewritten ∷ []) }
        ensures few { vec_len self.new.jobs ≤ vec_len self.old.jobs + 1 }
        ensures capacity { vec_capacity self.old.jobs ≤ vec_capacity self.new.jobs }
    {
        match rewritten {
            Ok(rewrite) => {
                if rewrite.changed {
                    self.changed += 1;
                }
                self.replaced += rewrite.replaced;
            }
            Err(fault) => self.jobs.push((path, fault)).unwrap(),
        }
    }

    /// The report on so many files where none failed, else the jobs.
    fn finish(self, chosen: u128) -> Result<Report, FilesFault>
        ensures done { IfOk result (λ report. (self.jobs.items ≡ []) × (report ≡ record { chosen = chosen; changed = self.changed; replaced = self.replaced })) }
        ensures failed { IfErr result (λ fault. (jobs : FailedJobs) × (fault ≡ FilesFault.Failed jobs) × (jobs ≡ self.jobs.items) × (jobs ≢ [])) }
    {
        if self.jobs.is_empty() {
            return Ok(Report {
                chosen,
                changed: self.changed,
                replaced: self.replaced,
            });
        }
        Err(FilesFault::Failed(FailedJobs::from_list(self.jobs)))
    }
}
